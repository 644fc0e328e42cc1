// Shows runs, nodes, best splits, the judges and paths in both editions, on document 01's sequences
// and some more, on words with many runs, every refusal of these calls with the tables before and
// after, and words from a small generator. What is lent holds 7 in every place before the call; a
// list shows the lent places after it. Each line is compared with the file stdout.
#![tactic(auto)]

use answers::Refusal;
use show::cases::{rows, values, word};
use show::{field, list_line, outcome, part, text};

fn main(rt: HostRuntime) {
    let rt = &rt;
    graph(rt);
    splits(rt);
    paths(rt);
    long_words(rt);
    too_long(rt);
    generated(rt);
}

// Edition 1 comes first in each table of cases, then edition 2, and then refusal 12, alone and
// before each that it precedes.
fn graph(rt: &impl Print) {
    rows(
        b"aabaabaa,18|aabaabaa,16|aabaabaa,15|aabaabaa,12|aabaabaa,0|,0|,2|ab,1|aaaa,4|ababa,5|\
        abaabaababaabaabababa,64|aabaabaacbbcbbcbb,64|\
        abababab,5|aaaaaabbbccc,13|aaaabababab,9|aaabaaabaaabaaa,21|\
        ababbaba,17|bababab,4|cabcabca,4|abacabacab,4|abaaabaaabaa,17|",
        |r| runs_row(rt, r),
    );
    symbols(rt);
    rich(rt);
    rows(
        b"aabaabaa,1,3,1|aabaabaa,1,3,2|aabaabaa,1,3,5|aabaabaa,1,1,6|aabaabaa,1,3,8|\
        aabaabaa,1,2,8|aabaabaa,1,1,8|aabaabaa,1,3,0|aabaabaa,1,3,9|,1,0,1|aa,1,1,2|\
        abaabaababaabaabababa,1,8,21|\
        abababab,1,2,3|abababab,1,2,4|abababab,1,2,5|abababab,1,2,6|abababab,1,2,8|abababab,1,0,5|\
        abababab,2,2,3|abababab,2,2,4|abababab,2,2,5|abababab,2,2,6|abababab,2,2,7|abababab,2,2,8|\
        abababab,2,0,5|abababab,2,0,6|abababab,2,2,0|abababab,2,2,9|,2,0,1|aaa,2,1,2|aaa,2,1,3|\
        aabaabaa,2,3,8|aaabaaabaaabaaa,2,3,12|aaabaaabaaabaaa,2,3,14|aaabaaabaaabaaa,2,3,15|\
        aaabaaabaaabaaa,2,1,15|abaabaababaabaabababa,2,8,9|abaabaababaabaabababa,2,8,21|\
        abababab,0,2,8|abababab,3,2,8|abababab,4294967295,2,8|\
        abababab,0,2,0|abababab,3,2,9|abababab,4294967295,0,8|",
        |r| nodes_row(rt, r),
    );
}

// Symbols that are not letters: roots go by their codes, from 0 to 255.
fn symbols(rt: &impl Print) {
    named_runs(rt, b"128 1 twice", b"\x80\x01\x80\x01");
    named_runs(rt, b"127 128 twice", b"\x7f\x80\x7f\x80");
    named_runs(rt, b"200 100 twice and 200", b"\xc8\x64\xc8\x64\xc8");
    named_runs(
        rt,
        b"128 255 128 127 twice",
        b"\x80\xff\x80\x7f\x80\xff\x80\x7f",
    );
}

// How near its length the count of a word's runs comes, with four places lent for each symbol: they
// always suffice.
fn rich(rt: &impl Print) {
    let mut w = [97u8; 4096];
    let mut places = [0u32; 18];
    w[1] = 98;
    w[2] = 98;
    values(
        b",3,5,11,13,24,37,56,69,125,162,218,380,505,667,1172,1552,2057,3609",
        &mut places,
    );
    series(&mut w, &places);
    near(rt, b"aa");
    near(rt, b"aabaabbaabaabb");
    let (front, _) = w.split_at(125);
    near(rt, front);
    named_near(rt, b"4096 rich in runs", &w);
}

// A series of words with many runs for their length: each begins with the one before it and goes on
// with an earlier one. So after its first three symbols the word begins again at each of the places.
fn series(w: &mut [u8], places: &[u32]) {
    for place in places {
        begin_again(w, *place as usize);
    }
}

// The symbols from a place on become those from the first on.
fn begin_again(w: &mut [u8], place: usize) {
    for i in place..w.len() {
        w[i] = w[i - place];
    }
}

fn near(rt: &impl Print, w: &[u8]) {
    named_near(rt, w, w);
}

// The word or its name, the length, the places lent and the answer; of a short table also what it
// holds.
fn named_near(rt: &impl Print, name: &[u8], w: &[u8]) {
    let mut table = [7u32; 16384];
    if w.len() <= 4096 {
        let n = w.len() as u32;
        text(rt, b"runs,");
        text(rt, name);
        field(rt, n);
        field(rt, 4 * n);
        near_in(rt, w, &mut table[..4 * w.len()]);
    }
}

fn near_in(rt: &impl Print, w: &[u8], table: &mut [u32]) {
    outcome(rt, run_table::runs(w, table));
    if table.len() <= 64 {
        list_line(rt, b"", table);
    } else {
        text(rt, b"\n");
    }
}

// For best the refusals in their order stand behind both choices of an edition; the working table
// afterwards shows whether it was used.
fn splits(rt: &impl Print) {
    rows(
        b",1|a,1|ab,1|aa,1|aaaa,1|aaaaa,1|ababa,1|baa,1|aabb,1|aabaabaa,1|\
        abaabaababaabaabababa,1|aabaabaacbbcbbcbb,1|\
        aabaabaa,1,2,36,0|aabaabaa,1,2,36,3|aabaabaa,1,2,35,3|aabaabaa,1,2,35,1|aabaabaa,1,1,36,2|\
        aabaabaa,1,2,36,2|baa,1,0,18,2|,1,0,3,1|,1,0,4,1|\
        ,2|a,2|ab,2|aa,2|aaaa,2|aaaaa,2|ababa,2|baa,2|aabb,2|aabaabaa,2|\
        abaabaababaabaabababa,2|aabaabaacbbcbbcbb,2|\
        aaa,2|aaaaaa,2|aaaaaaaa,2|baaa,2|aaabbb,2|ababab,2|abababab,2|aabaabaab,2|abababababab,2|\
        aaaababab,2|aaaabababab,2|aaaaaabbbccc,2|aaabaaabaaabaaa,2|\
        bbbaaaaaaaaaaaabaabaaba,2|aaaababababababaabaabaab,2|\
        aaaaaa,2,2,28,0|aaaaaa,2,2,27,3|aaaaaa,2,2,27,1|aaaaaa,2,1,28,2|aaaaaa,2,2,28,2|\
        ababa,2,0,24,1|,2,0,3,1|,2,0,4,1|\
        aaa,0,1,16,1|aaa,3,1,16,2|aaa,4294967295,1,16,1|\
        aaa,0,1,16,3|aaa,3,1,15,1|baa,4294967295,1,16,1|aaa,0,0,16,1|",
        |r| best_row(rt, r),
    );
    rows(
        b"aabaabaa,1|aabaabaa,1,8|aabaabaa,1,2,8|aabaabaa,1,3,8|aabaabaa,1,2,2,8|aabaabaa,1,2,9|\
        aabaabaa,1,2|aabaabaa,1,2,4,8|aabaabaa,1,0|aabaabaa,1,4294967295|,1|,1,1|\
        aabaabaacbbcbbcbb,1,6,8,15,17|aabaabaacbbcbbcbb,1,2,8,15,17|\
        abababab,1,4,8|aaaaaabbbccc,1,2,6,9,12|\
        abababab,2,8|abababab,2,4,8|abababab,2,5|abababab,2,6|abababab,2,6,8|abababab,2,6,6|\
        abababab,2,9|abababab,2|aabaabaa,2,8|aabaabaa,2,2,8|,2|\
        aaaaaabbbccc,2,6,9,12|aaaaaabbbccc,2,3,6,9,12|aaaaaabbbccc,2,2,6,9,12|aaaaaabbbccc,2,6,12|\
        aaaaaabbbccc,2,6,9,11,12|aaaabababab,2,3,11|aaaabababab,2,4,11|aaabaaabaaabaaa,2,12,15|\
        abababab,0,8|abababab,3,8|abababab,4294967295,8|\
        abababab,0,9|abababab,3,3,8|abababab,4294967295|",
        |r| judge_row(rt, r),
    );
}

fn paths(rt: &impl Print) {
    rows(
        b"aabaabaa,1,2,8|aabaabaa,1,3,2,8|aabaabaa,1,2,2,8|aabaabaa,1,1,2,8|aabaabaa,1,1,3,8|\
        aabaabaa,1,0,2,9|aabaabaa,1,3,2|aabaabaacbbcbbcbb,1,4,6,8,15,17|\
        abaabaababaabaabababa,1,5,6,10,16,21|abababab,1,2,4,8|\
        abababab,2,2,8|abababab,2,2,4,8|abababab,2,0,9|abababab,2,0,5|abababab,2,0,6|\
        abababab,2,0,8|,2,1|aaaaaabbbccc,2,3,6,9,12|aaaaaabbbccc,2,5,3,6,9,12|\
        aaaaaabbbccc,2,3,3,6,9,12|aaaabababab,2,2,3,11|aaaabababab,2,2,4,11|\
        aaabaaabaaabaaa,2,2,3,15|aaabaaabaaabaaa,2,2,12,15|\
        abababab,0,2,8|abababab,3,2,8|abababab,4294967295,2,8|\
        abababab,0,2,9|abababab,3,2,3,8|abababab,4294967295,2|abababab,0,0,8|",
        |r| path_row(rt, r),
    );
    rows(
        b"aabaabaa,1,1,2,2,8|aabaabaa,1,2,8|aabaabaa,1,1,2,1,8|aabaabaa,1,1,2,9,8|\
        aabaabaa,1,1,2,5,8|aabaabaa,1,0,8|aabaabaa,1,1,2,2|aabaabaa,1,1,2,2,2|aabaabaa,1,1,2,2,9|\
        aabaabaa,1,1,2|aabaabaa,1|,1|,1,1|abababab,1,1,4,1,8|aaaaaabbbccc,1,1,6,2,9,3,12|\
        abababab,2,1,8|abababab,2,1,4,1,8|abababab,2,1,5|abababab,2,1,6|abababab,2,1,6,1,8|\
        abababab,2,1,6,1,6|abababab,2,1,9|abababab,2,2,8|abababab,2,0,8|abababab,2,1|abababab,2|,2|\
        aabaabaa,2,2,8|aaaaaabbbccc,2,1,6,2,9,3,12|aaaaaabbbccc,2,1,3,1,6,2,9,3,12|\
        aaaaaabbbccc,2,1,3,1,6,2,9,3,11|aaaaaabbbccc,2,1,2,1,6,2,9,3,12|aaaaaabbbccc,2,1,6,2,12|\
        aaaabababab,2,1,3,2,11|aaaabababab,2,1,4,2,11|\
        aaabaaabaaabaaa,2,2,15|aaabaaabaaabaaa,2,1,3,2,15|aaabaaabaaabaaa,2,2,12,5,15|\
        abababab,0,1,8|abababab,3,1,8|abababab,4294967295,1,8|\
        abababab,0,1|abababab,3,1,9|abababab,4294967295,2,8|abababab,0|",
        |r| judge_path_row(rt, r),
    );
}

// What a row holds: a word, the edition, and the numbers behind it; a row has at most ten numbers.
fn ask<F: FnOnce(&[u8], u32, &[u32])>(row: &[u8], call: F)
    requires { F.IsAlwaysCallable call }
{
    let mut numbers = [0u32; 10];
    let count = values(row, &mut numbers);
    if let Some((edition, others)) = numbers[..count].split_first() {
        call(word(row), *edition, others);
    }
}

// Lends so many places.
fn lend<F: FnOnce(&mut [u32])>(places: u32, call: F)
    requires { F.IsAlwaysCallable call }
{
    let mut table = [7u32; 64];
    if let Some(table) = table.get_mut(..places as usize) {
        call(table);
    }
}

// In place of the edition, the places that are lent.
fn runs_row(rt: &impl Print, row: &[u8]) {
    ask(row, |w, places, _| {
        lend(places, |table| runs_in(rt, w, places, table));
    });
}

// The places, and the position.
fn nodes_row(rt: &impl Print, row: &[u8]) {
    ask(row, |w, edition, numbers| {
        if let [places, position] = numbers {
            lend(*places, |table| nodes_in(rt, w, edition, *position, table));
        }
    });
}

// The places for ends, those for work, and the choice; none for both choices, with a place more than
// is needed.
fn best_row(rt: &impl Print, row: &[u8]) {
    ask(row, |w, edition, numbers| best(rt, w, edition, numbers));
}

// The ends.
fn judge_row(rt: &impl Print, row: &[u8]) {
    ask(row, |w, edition, ends| {
        let answer = repetitions::judge_split(w, edition, ends);
        answered(rt, b"judge,", w, edition, answer);
        list_line(rt, b" ends", ends);
    });
}

// The places, and the ends.
fn path_row(rt: &impl Print, row: &[u8]) {
    ask(row, |w, edition, numbers| {
        if let Some((places, ends)) = numbers.split_first() {
            lend(*places, |table| path_in(rt, w, edition, ends, table));
        }
    });
}

// The path's numbers.
fn judge_path_row(rt: &impl Print, row: &[u8]) {
    ask(row, |w, edition, numbers| {
        let answer = paths::judge_path(w, edition, numbers);
        answered(rt, b"judge path,", w, edition, answer);
        list_line(rt, b" numbers", numbers);
    });
}

fn best(rt: &impl Print, w: &[u8], edition: u32, numbers: &[u32]) {
    if let [places, space, choice] = numbers {
        best_of(rt, w, edition, *choice, *places as usize, *space as usize);
    } else if w.len() <= 24 {
        let space = 4 * w.len() + 5;
        best_of(rt, w, edition, 1, 12, space);
        best_of(rt, w, edition, 2, 12, space);
    }
}

fn best_of(rt: &impl Print, w: &[u8], edition: u32, choice: u32, places: usize, space: usize) {
    let mut ends = [7u32; 64];
    let mut work = [7u32; 128];
    if let (Some(ends), Some(work)) = (ends.get_mut(..places), work.get_mut(..space)) {
        best_in(rt, w, edition, choice, ends, work);
    }
}

fn best_in(
    rt: &impl Print,
    w: &[u8],
    edition: u32,
    choice: u32,
    ends: &mut [u32],
    work: &mut [u32],
) {
    text(rt, b"best,");
    text(rt, w);
    field(rt, edition);
    field(rt, choice);
    outcome(rt, repetitions::best_split(w, edition, choice, ends, work));
    list_line(rt, b" ends", ends);
    list_line(rt, b" work", work);
}

fn runs_in(rt: &impl Print, w: &[u8], places: u32, table: &mut [u32]) {
    text(rt, b"runs,");
    text(rt, w);
    field(rt, places);
    outcome(rt, run_table::runs(w, table));
    list_line(rt, b"", table);
}

// The same of a word that is shown by a name, with five places lent.
fn named_runs(rt: &impl Print, name: &[u8], w: &[u8]) {
    let mut table = [7u32; 5];
    text(rt, b"runs,");
    text(rt, name);
    outcome(rt, run_table::runs(w, &mut table));
    list_line(rt, b"", &table);
}

fn nodes_in(rt: &impl Print, w: &[u8], edition: u32, position: u32, table: &mut [u32]) {
    text(rt, b"nodes,");
    text(rt, w);
    field(rt, edition);
    field(rt, position);
    field(rt, (table.len() % 65536) as u32);
    outcome(rt, nodes::nodes(w, edition, position, table));
    list_line(rt, b"", table);
}

fn path_in(rt: &impl Print, w: &[u8], edition: u32, ends: &[u32], table: &mut [u32]) {
    let answer = paths::path_of_split(w, edition, ends, table);
    answered(rt, b"path,", w, edition, answer);
    list_line(rt, b" ends", ends);
    list_line(rt, b" runs", table);
}

fn answered(rt: &impl Print, name: &[u8], w: &[u8], edition: u32, answer: Result<u32, Refusal>) {
    text(rt, name);
    text(rt, w);
    field(rt, edition);
    outcome(rt, answer);
}

// 4,096 equal symbols.
fn long_words(rt: &impl Print) {
    let w = [97u8; 4096];
    let mut ends = [7u32; 2047];
    let mut fewer = [7u32; 1364];
    long_fewest(rt, &w, 1);
    long_most(rt, &w, 1, 2046, 2049);
    long_refused(rt, &w, 1, &mut ends);
    long_fewest(rt, &w, 2);
    long_most(rt, &w, 2, 1363, 1366);
    long_refused(rt, &w, 2, &mut fewer);
}

fn long_fewest(rt: &impl Print, w: &[u8], edition: u32) {
    let mut ends = [7u32; 2049];
    let mut work = [7u32; 16389];
    named(
        rt,
        b"4096 equal",
        edition,
        b", fewest",
        repetitions::best_split(w, edition, 1, &mut ends, &mut work),
    );
    part(rt, b" ends", &ends, 0, 3);
}

// The last ends are those at the places from one up to another.
fn long_most(rt: &impl Print, w: &[u8], edition: u32, from: usize, to: usize) {
    let mut ends = [7u32; 2049];
    let mut work = [7u32; 16389];
    named(
        rt,
        b"4096 equal",
        edition,
        b", most",
        repetitions::best_split(w, edition, 2, &mut ends, &mut work),
    );
    part(rt, b" ends", &ends, 0, 3);
    part(rt, b" last ends", &ends, from, to);
    part(rt, b" sizes", &work, 4094, 4099);
}

fn long_refused(rt: &impl Print, w: &[u8], edition: u32, ends: &mut [u32]) {
    let mut work = [7u32; 16389];
    named(
        rt,
        b"4096 equal",
        edition,
        b", one place too few",
        repetitions::best_split(w, edition, 2, ends, &mut work),
    );
    text(rt, b"\n");
}

// One symbol more: refusal 1 comes first in every call, before 12 too.
fn too_long(rt: &impl Print) {
    let w = [97u8; 70001];
    let mut table = [7u32; 4];
    text(rt, b"70001 equal, runs");
    outcome(rt, run_table::runs(&w, &mut table));
    list_line(rt, b"", &table);
    too_long_in(rt, &w, 1);
    too_long_in(rt, &w, 2);
    too_long_in(rt, &w, 0);
}

fn too_long_in(rt: &impl Print, w: &[u8], edition: u32) {
    let mut table = [7u32; 4];
    let mut ends = [7u32; 4];
    long_splits(rt, w, edition, &mut table, &mut ends);
    long_paths(rt, w, edition, &mut table);
}

fn long_splits(rt: &impl Print, w: &[u8], edition: u32, table: &mut [u32], ends: &mut [u32]) {
    over(rt, edition, b", nodes", nodes::nodes(w, edition, 0, table));
    list_line(rt, b"", table);
    over(
        rt,
        edition,
        b", best",
        repetitions::best_split(w, edition, 0, ends, table),
    );
    list_line(rt, b"", table);
    over(
        rt,
        edition,
        b", judge",
        repetitions::judge_split(w, edition, &[0]),
    );
    text(rt, b"\n");
}

fn long_paths(rt: &impl Print, w: &[u8], edition: u32, table: &mut [u32]) {
    over(
        rt,
        edition,
        b", path",
        paths::path_of_split(w, edition, &[0], table),
    );
    list_line(rt, b"", table);
    over(
        rt,
        edition,
        b", judge path",
        paths::judge_path(w, edition, &[0]),
    );
    text(rt, b"\n");
}

fn over(rt: &impl Print, edition: u32, name: &[u8], answer: Result<u32, Refusal>) {
    named(rt, b"70001 equal", edition, name, answer);
}

// The word, the edition, a name and the answer.
fn named(rt: &impl Print, w: &[u8], edition: u32, name: &[u8], answer: Result<u32, Refusal>) {
    text(rt, w);
    field(rt, edition);
    text(rt, name);
    outcome(rt, answer);
}

// Words of a linear congruential generator: lengths from 1 to 24, over 2 or 3 letters.
fn generated(rt: &impl Print) {
    let mut seed: u32 = 12345;
    for i in 0..300 {
        seed = generate(rt, seed, 1 + i % 24, 2 + i as u32 % 2);
    }
}

// One word of up to 24 letters; gives the next seed.
fn generate(rt: &impl Print, seed: u32, n: usize, letters: u32) -> u32 {
    let mut word = [0u8; 24];
    let mut s = seed;
    if let Some(w) = word.get_mut(..n) {
        for x in w.iter_mut() {
            s = show::next(s);
            *x = show::letter(s, letters);
        }
        sizes(rt, w);
    }
    s
}

// The sizes in edition 1, and then in edition 2.
fn sizes(rt: &impl Print, w: &[u8]) {
    text(rt, b"word,");
    text(rt, w);
    sizes_in(rt, w, 1);
    sizes_in(rt, w, 2);
    text(rt, b"\n");
}

fn sizes_in(rt: &impl Print, w: &[u8], edition: u32) {
    let mut ends = [7u32; 16];
    let mut work = [7u32; 100];
    named(
        rt,
        b"",
        edition,
        b",fewest",
        repetitions::best_split(w, edition, 1, &mut ends, &mut work),
    );
    text(rt, b",most");
    outcome(
        rt,
        repetitions::best_split(w, edition, 2, &mut ends, &mut work),
    );
}
