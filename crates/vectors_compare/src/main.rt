// Shows which of two words to wind first, and its first block, on document 01's sequences in pairs
// in both editions, and each refusal. A table that is lent holds 7 in every place before the first
// call with it; a list shows the lent places after the call. Each line is compared with the file
// stdout.
#![tactic(auto)]

use decimals::COMMA;
use show::cases::{rows, values, word};
use show::{field, numbers, outcome, text};

fn main(rt: HostRuntime) {
    let rt = &rt;
    sequences(rt);
    second_edition(rt);
    refusals(rt);
    symbols(rt);
    limits(rt);
}

// Each word winning, ties, equal words, words of which one or none can be split, and the empty word,
// with a place more than is needed.
fn sequences(rt: &impl Print) {
    rows(
        b"aabaabaa,abaabaababaabaabababa,1,89|abaabaababaabaabababa,aabaabaa,1,89|\
        abaabaababaabaabababa,aabaabaacbbcbbcbb,1,89|\
        aabaabaacbbcbbcbb,abaabaababaabaabababa,1,89|aabb,aabaabaa,1,37|aabaabaa,aabb,1,37|\
        aabb,aabb,1,21|aaaa,ababa,1,25|ababa,aaaa,1,25|aaaaa,aa,1,25|ab,aa,1,13|aa,ab,1,13|\
        baa,aabaabaacbbcbbcbb,1,73|aabaabaacbbcbbcbb,baa,1,73|ab,baa,1,17|baa,ab,1,17|\
        a,a,1,9|,,1,5|,aa,1,13|aa,,1,13|,a,1,9|a,,1,9|",
        |r| row(rt, r),
    );
}

// Edition 2, where a block has three turns.
fn second_edition(rt: &impl Print) {
    rows(
        b"aabaabaa,aaaaaa,2,37|aaaaaa,aabaabaa,2,37|aaa,aaaaaa,2,29|aaaaaa,aaa,2,29|\
        aaabbb,ababab,2,29|ababab,aaabbb,2,29|ababa,aabb,2,25|aabb,ababa,2,25|,,2,5|\
        aa,,2,13|,aa,2,13|",
        |r| row(rt, r),
    );
}

// 12, then 9, then 2: no edition with no place, a place fewer than the longer word needs, the places
// of the shorter word, just enough, and neither word with a split.
fn refusals(rt: &impl Print) {
    rows(
        b"aa,aabaabaa,0,0|aabaabaa,aa,3,36|ab,ab,4294967295,12|aa,aabaabaa,1,35|\
        aabaabaa,aa,1,35|aa,aabaabaa,1,12|aabaabaa,aa,1,12|aa,aabaabaa,1,36|\
        aabaabaa,aa,1,36|ab,ab,1,11|ab,ab,1,12|,,1,3|,,1,4|,,1,0|aa,,1,0|",
        |r| row(rt, r),
    );
}

// Symbols that are not letters, and one table for words of different lengths.
fn symbols(rt: &impl Print) {
    let mut work = [7u32; 29];
    brief(
        rt,
        b"0 255 twice,255 three times,2",
        b"\x00\xff\x00\xff",
        b"\xff\xff\xff",
        2,
        &mut work,
    );
    brief(
        rt,
        b"128 twice and 127 twice,128 127 three times,1",
        b"\x80\x80\x7f\x7f",
        b"\x80\x7f\x80\x7f\x80\x7f",
        1,
        &mut work,
    );
}

// The limit, and refusal 1 for either word, which comes before 12.
fn limits(rt: &impl Print) {
    let longest = [97u8; 4096];
    let over = [97u8; 70001];
    let mut work = [7u32; 16389];
    brief(
        rt,
        b"4096 equal,4096 equal,1",
        &longest,
        &longest,
        1,
        &mut work,
    );
    brief(rt, b"aabb,4096 equal,2", b"aabb", &longest, 2, &mut work);
    brief(rt, b"70001 equal,aa,3", &over, b"aa", 3, &mut work);
    brief(rt, b"aa,70001 equal,3", b"aa", &over, 3, &mut work);
}

// Two words, an edition, and how many places are lent; what stands for the second word is counted
// with the numbers.
fn row(rt: &impl Print, row: &[u8]) {
    let mut numbers = [0u32; 3];
    let count = values(row, &mut numbers);
    let [_, edition, places] = numbers;
    let a = word(row);
    if count < 3 {
        return;
    }
    if let Some(rest) = row.get(a.len() + 1..) {
        lent(rt, row, a, word(rest), edition, places as usize);
    }
}

// Both calls, each with a table of its own.
fn lent(rt: &impl Print, row: &[u8], a: &[u8], b: &[u8], edition: u32, places: usize) {
    let mut table = [7u32; 89];
    if let Some(work) = table.get_mut(..places) {
        which(rt, row, a, b, edition, work);
    }
    let mut table = [7u32; 89];
    if let Some(work) = table.get_mut(..places) {
        block(rt, row, a, b, edition, work);
    }
}

fn which(rt: &impl Print, name: &[u8], a: &[u8], b: &[u8], edition: u32, work: &mut [u32]) {
    text(rt, b"which,");
    text(rt, name);
    outcome(rt, comparison::which_first(a, b, edition, work));
    numbers(rt, COMMA, work);
    text(rt, b"\n");
}

fn block(rt: &impl Print, name: &[u8], a: &[u8], b: &[u8], edition: u32, work: &mut [u32]) {
    text(rt, b"block,");
    text(rt, name);
    text(rt, b",");
    text(rt, comparison::first_block(a, b, edition, work));
    numbers(rt, COMMA, work);
    text(rt, b"\n");
}

// The same in short: the length of the first block, and the last ten places that are lent.
fn brief(rt: &impl Print, name: &[u8], a: &[u8], b: &[u8], edition: u32, work: &mut [u32]) {
    text(rt, b"which,");
    text(rt, name);
    outcome(rt, comparison::which_first(a, b, edition, work));
    last_places(rt, work);
    text(rt, b"block,");
    text(rt, name);
    let part = comparison::first_block(a, b, edition, work);
    field(rt, (part.len() % 65536) as u32);
    last_places(rt, work);
}

fn last_places(rt: &impl Print, work: &[u32]) {
    if let Some(last) = work.last_chunk::<10>() {
        numbers(rt, COMMA, last);
    }
    text(rt, b"\n");
}
