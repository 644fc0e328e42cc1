// Shows best squares and judge squares on the documents' words, on each refusal and on squares joined
// by a small generator. What is lent holds 7 in every place before the first call with it; a list
// shows the lent places after the call. Each line is compared with the file stdout.
#![tactic(auto)]

use decimals::COMMA;
use show::cases::{rows, values, word};
use show::{field, list_line, numbers, outcome, part, text};

fn main(rt: HostRuntime) {
    let rt = &rt;
    words(rt);
    lent_places(rt);
    judged(rt);
    symbols(rt);
    generated(rt);
    limits(rt);
}

// Odd lengths, equal letters, halves that are powers, blocks that are no squares, and the words of
// the documents.
fn words(rt: &impl Print) {
    rows(
        b"|a|aa|ab|aaa|aaaa|aaaaa|aaaaaa|aaaaaaaa|abab|ababa|ababab|abababab|abba|aabb|\
        aabbaabb|aabaab|baabaa|aabaabaa|abaababaabbbaabbbb|abaabaababaabaabababa|\
        aabaabaacbbcbbcbb|bbabaabaabbabaabaacc|",
        |r| both(rt, r),
    );
}

// Just the places that are needed, and one fewer of either table; then 8, 9 and 2, each before those
// that it precedes, and the empty word.
fn lent_places(rt: &impl Print) {
    rows(
        b"aabaabaa,1,2,36|aabaabaa,1,1,36|aabaabaa,2,0,36|aabaabaa,2,2,35|aaaa,1,1,20|\
        aaaa,1,0,20|aaaa,2,2,20|aaaa,2,1,20|aabaabaa,0,2,36|aabaabaa,3,2,35|\
        aabaabaa,4294967295,0,0|ab,3,0,12|aabaabaa,1,0,35|aabaabaa,2,0,0|ab,1,0,11|\
        ab,1,0,12|ab,2,1,13|aaa,1,0,17|aaaab,2,0,25|,1,0,4|,2,1,5|,1,0,3|,2,0,0|,3,0,0|",
        |r| best(rt, r),
    );
}

// Splits, and then for each end in turn 3 and 4, and then 5; a block that is no square is 4.
fn judged(rt: &impl Print) {
    rows(
        b"aaaa,4|aaaa,2,4|aaaa,1,4|aaaa,3,4|aaaa,2,3,4|aaaa,2,2,4|aaaa,2,0|aaaa,4,4|\
        aaaa,0|aaaa,5|aaaa,2,4294967295|aaaa,2|aaaa|aabaabaa,2,8|aabaabaa,6,8|\
        aabaabaa,8|aabaabaa,2,6,8|aabaabaa,2,2,8|aabaabaa,2,9|aabaabaa,6|\
        abaababaabbbaabbbb,6,16,18|abaababaabbbaabbbb,6,16,17,18|\
        abaababaabbbaabbbb,10,12,14,16,18|abaababaabbbaabbbb,10,12,18|\
        abaababaabbbaabbbb,10,14,18|abab,4|abab,2,4|abba,4|ababa,5|ababa,4|ababa,4,5|\
        ababab,6||,0|,1|",
        |r| judge(rt, r),
    );
}

// Symbols that are not letters, and one pair of tables for words of different lengths.
fn symbols(rt: &impl Print) {
    let mut ends = [7u32; 3];
    let mut work = [7u32; 29];
    named(
        rt,
        b"0 255 twice",
        b"\x00\xff\x00\xff",
        &mut ends,
        &mut work,
    );
    named(
        rt,
        b"128 127 127 twice",
        b"\x80\x7f\x7f\x80\x7f\x7f",
        &mut ends,
        &mut work,
    );
    named(
        rt,
        b"255 twice and 0 twice",
        b"\xff\xff\x00\x00",
        &mut ends,
        &mut work,
    );
}

// Squares joined, of halves of up to five letters; every fourth word has its middle letter changed.
fn generated(rt: &impl Print) {
    rows(
        b"ababababbbabaaba|aabaabcccbcbbabbab|bbabbaabbababbabbabbab|bbcbbcbbbbaabbababba|\
        aaabbaaabbbababbabba|aaaaaacbcaccbcacbcacbcac|abbbbabbbbbabaaaaaaa|\
        bbbbcccbaccbbabccbbccb|abaaabaaaabbbabbbabb|cacabbbcbbcbbb|ababaababbbbabbbaa|\
        aabaabbcbcabcaca|babbabaaaaaaaabbabbbab|acacbbbbbbccacca|bbbabbbabbababbb|\
        cccacccaccccbcbbabcbbabc|aaaabbbbaaaaaaabaaaaba|bcabcbcabcbccabbccab|\
        babbabbbbaabbbaa|cbcbbcbbbbaabb|bbaaabbbbabbbbbabbababba|aaabaaabaabbaabb|\
        ababbababbabaaba|cbcbcccbcbbcbb|babbbabbbabbbbabbb|bbaabbaaabaabaabcbbabcbb|\
        babbababbabbbbbbbbbbbb|cccbccccbbbaacbaac|bbaaaaaabababb|acccacccbaacbaac|\
        babbabbababababbaabbaa|cccbccbcbabaabbabacccc|abaaaabaaaaabbbaabbb|\
        bcbabbcbabacbcacbc|bbbbabbaababbababb|cacaaabbbcbbabcbcbaccbac|\
        aabababbabbabbabba|bcabcaaacabccabc|bbaababaabaaabaa|cccacababbacbaba|\
        babbabbbababbaba|abacabacbbaccacaccac|bbbbabbaabbabaabaa|ccccccbacbaacbabaaba|\
        abaaabaabababbabab|ccbcbccbcbacccaccc|bababbbbbbbbaa|bcbcbbaababbcc|",
        |r| both(rt, r),
    );
}

// The limit, an odd length below it, and refusal 1, which comes before 8.
fn limits(rt: &impl Print) {
    let longest = [97u8; 4096];
    let odd = [97u8; 4095];
    let over = [97u8; 70001];
    let mut ends = [7u32; 2049];
    let mut work = [7u32; 16389];
    brief(rt, b"4096 equal", &longest, 1, &mut ends, &mut work);
    brief(rt, b"4096 equal", &longest, 2, &mut ends, &mut work);
    brief(rt, b"4095 equal", &odd, 2, &mut ends, &mut work);
    brief(rt, b"70001 equal", &over, 1, &mut ends, &mut work);
    brief(rt, b"70001 equal", &over, 3, &mut ends, &mut work);
    long_verdicts(rt, &longest, &over);
}

fn long_verdicts(rt: &impl Print, longest: &[u8], over: &[u8]) {
    verdict(rt, b"4096 equal", longest, &[4096u32]);
    verdict(rt, b"4096 equal", longest, &[2048u32, 4096]);
    verdict(rt, b"4096 equal", longest, &[4095u32, 4096]);
    verdict(rt, b"4096 equal", longest, &[4096u32, 4097]);
    verdict(rt, b"70001 equal", over, &[0u32]);
    verdict(rt, b"70001 equal", over, &[4097u32]);
}

// A word with both choices, and a place more than is needed.
fn both(rt: &impl Print, w: &[u8]) {
    if w.len() <= 24 {
        let space = 4 * w.len() + 5;
        chosen(rt, w, 1, space);
        chosen(rt, w, 2, space);
    }
}

fn chosen(rt: &impl Print, w: &[u8], choice: u32, space: usize) {
    let mut ends = [7u32; 12];
    let mut table = [7u32; 101];
    if let Some(work) = table.get_mut(..space) {
        named_choice(rt, w, w, choice, &mut ends, work);
    }
}

// A word, the choice, the places for ends, and those for work.
fn best(rt: &impl Print, row: &[u8]) {
    let mut numbers = [0u32; 3];
    let count = values(row, &mut numbers);
    let [choice, places, space] = numbers;
    text(rt, b"best,");
    text(rt, row);
    if count == 3 {
        lent(rt, word(row), choice, places as usize, space as usize);
    }
}

fn lent(rt: &impl Print, w: &[u8], choice: u32, places: usize, space: usize) {
    let mut ends = [7u32; 2];
    let mut work = [7u32; 36];
    if let (Some(ends), Some(work)) = (ends.get_mut(..places), work.get_mut(..space)) {
        answered(rt, w, choice, ends, work);
    }
}

fn answered(rt: &impl Print, w: &[u8], choice: u32, ends: &mut [u32], work: &mut [u32]) {
    outcome(rt, squares::best_squares(w, choice, ends, work));
    list_line(rt, b" ends", ends);
    list_line(rt, b" work", work);
}

// A word, and the ends.
fn judge(rt: &impl Print, row: &[u8]) {
    let mut numbers = [0u32; 5];
    let count = values(row, &mut numbers);
    text(rt, b"judge,");
    text(rt, row);
    if let Some(ends) = numbers.get(..count) {
        outcome(rt, squares::judge_squares(word(row), ends));
    }
    text(rt, b"\n");
}

// A word that is shown by a name, with both choices.
fn named(rt: &impl Print, name: &[u8], w: &[u8], ends: &mut [u32], work: &mut [u32]) {
    named_choice(rt, name, w, 1, ends, work);
    named_choice(rt, name, w, 2, ends, work);
}

fn named_choice(
    rt: &impl Print,
    name: &[u8],
    w: &[u8],
    choice: u32,
    ends: &mut [u32],
    work: &mut [u32],
) {
    text(rt, b"best,");
    text(rt, name);
    field(rt, choice);
    answered(rt, w, choice, ends, work);
}

// The same in short: the first and the last three places of the ends, and of the working table the
// sizes of the longest prefixes of 4,096 symbols and the last ten places.
fn brief(rt: &impl Print, name: &[u8], w: &[u8], choice: u32, ends: &mut [u32], work: &mut [u32]) {
    text(rt, b"best,");
    text(rt, name);
    field(rt, choice);
    outcome(rt, squares::best_squares(w, choice, ends, work));
    part(rt, b" ends", ends, 0, 3);
    part(rt, b" last ends", ends, 2046, 2049);
    part(rt, b" sizes", work, 4092, 4098);
    part(rt, b" last places", work, 16379, 16389);
}

fn verdict(rt: &impl Print, name: &[u8], w: &[u8], ends: &[u32]) {
    text(rt, b"judge,");
    text(rt, name);
    numbers(rt, COMMA, ends);
    outcome(rt, squares::judge_squares(w, ends));
    text(rt, b"\n");
}
