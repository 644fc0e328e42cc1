// Shows every call on words of 16-bit symbols: words that only the high byte tells apart or puts in
// order, splits and paths, pages as they would hang on the wall, pairs of words, and refusals. What is
// lent holds 7, or a dot, in every place before the first call with it; a list shows the lent places
// after the call. Each line is compared with the file stdout.
#![tactic(auto)]

use show::{description, field, list, outcome, text};

// The aabaabaa of document 01, with 256 for a and 1 for b.
const WORD: [u16; 8] = [256, 256, 1, 256, 256, 1, 256, 256];

fn main(rt: HostRuntime) {
    let rt = &rt;
    words(rt);
    splits(rt);
    pages(rt);
    pairs(rt);
    refusals(rt);
    best_refused(rt);
    limit(rt);
}

// Low bytes that are equal, high bytes that decide a root, codes from 32,768 on, which come last, and
// codes around 256.
fn words(rt: &impl Print) {
    word(rt, &[1u16, 257], 1);
    word(rt, &[1u16, 257, 1, 257], 1);
    word(rt, &[256u16, 1, 256, 1], 1);
    word(rt, &[32768u16, 1, 32768, 1], 1);
    word(rt, &[255u16, 256, 257, 65535, 255, 256, 257, 65535], 1);
    word(rt, &WORD, 1);
    word(rt, &[65535u16, 65535, 65535], 2);
}

// Ends, and for each a run number and the end.
fn splits(rt: &impl Print) {
    given(rt, &[263u16, 519], 1, &[2u32], &[1u32, 2]);
    given(rt, &[1u16, 257, 1, 257], 1, &[2u32, 4], &[1u32, 2, 1, 4]);
    given(rt, &[1u16, 257, 1, 257], 1, &[4u32], &[1u32, 4]);
    given(rt, &WORD, 1, &[8u32], &[2u32, 8]);
    given(rt, &WORD, 1, &[2u32, 8], &[1u32, 2, 2, 8]);
}

// Units of one, three, four and five symbols.
fn pages(rt: &impl Print) {
    lent_page(rt, &WORD, 1, &[2u32, 8]);
    lent_page(
        rt,
        &[255u16, 256, 257, 65535, 255, 256, 257, 65535],
        1,
        &[8u32],
    );
    lent_page(rt, &[10u16, 9, 8, 7, 6, 10, 9, 8, 7, 6], 1, &[10u32]);
    lent_page(rt, &[43981u16, 43981, 43981, 0, 0, 0], 2, &[3u32, 6]);
}

// Either word first, neither, and the empty word.
fn pairs(rt: &impl Print) {
    let none = [0u16; 0];
    lent_pair(rt, &[1u16, 257, 1, 257], &[1u16, 1, 257, 257], 1);
    lent_pair(rt, &[1u16, 1, 257, 257], &[1u16, 257, 1, 257], 1);
    lent_pair(rt, &[1u16, 257], &[257u16, 257], 1);
    lent_pair(rt, &[1u16, 257], &[263u16, 519], 1);
    lent_pair(rt, &none, &[257u16, 257], 2);
}

// 1 before 12; 12, and 8 of best squares; then 7, 9 and 10.
fn refusals(rt: &impl Print) {
    let over = [256u16; 70001];
    one_place(rt, &over, 3, 3);
    one_place(rt, &WORD, 3, 3);
    one_place(rt, &WORD, 1, 1);
}

// 8 of best split; and 7 with a working table that is long enough.
fn best_refused(rt: &impl Print) {
    let mut ends = [7u32; 1];
    let mut work = [7u32; 37];
    best_split(rt, &WORD, 1, 3, &mut ends, &mut work);
    best_split(rt, &WORD, 1, 2, &mut ends, &mut work);
    best_squares(rt, &WORD, 2, &mut ends, &mut work);
}

// A long word of the greatest symbol.
fn limit(rt: &impl Print) {
    let longest = [65535u16; 4096];
    let mut table = [7u32; 5];
    runs(rt, &longest, &mut table);
    judged(rt, &longest, 1, &[4096u32]);
}

// The calls that are told no ends, at the last position and with both choices.
fn word(rt: &impl Print, w: &[u16], edition: u32) {
    let mut units = [7u32; 9];
    let mut table = [7u32; 17];
    let mut numbers = [7u32; 3];
    part(rt, w, edition, &mut units);
    runs(rt, w, &mut table);
    nodes(rt, w, edition, &mut numbers);
    both_best(rt, w, edition, 1);
    both_best(rt, w, edition, 2);
}

// Both best calls on a word of at most eight symbols, with a place more than is needed.
fn both_best(rt: &impl Print, w: &[u16], edition: u32, choice: u32) {
    let mut ends = [7u32; 3];
    let mut work = [7u32; 37];
    let mut other_ends = [7u32; 3];
    let mut other_work = [7u32; 37];
    if w.len() <= 8 {
        let end = 4 * w.len() + 5;
        best_split(rt, w, edition, choice, &mut ends, &mut work[..end]);
        best_squares(rt, w, choice, &mut other_ends, &mut other_work[..end]);
    }
}

fn given(rt: &impl Print, w: &[u16], edition: u32, ends: &[u32], numbers: &[u32]) {
    let mut table = [7u32; 3];
    judged(rt, w, edition, ends);
    path(rt, w, edition, ends, &mut table);
    judged_path(rt, w, edition, numbers);
}

fn lent_page(rt: &impl Print, w: &[u16], edition: u32, ends: &[u32]) {
    let mut out = [46u8; 123];
    page(rt, w, edition, ends, &mut out);
}

fn lent_pair(rt: &impl Print, a: &[u16], b: &[u16], edition: u32) {
    let mut work = [7u32; 21];
    let mut other = [7u32; 21];
    which(rt, a, b, edition, &mut work);
    block(rt, a, b, edition, &mut other);
}

// Every call, with one place in each table, one byte for a page, and one number for a path.
fn one_place(rt: &impl Print, w: &[u16], edition: u32, choice: u32) {
    let mut table = [7u32; 1];
    let mut work = [7u32; 1];
    let mut out = [46u8; 1];
    part(rt, w, edition, &mut table);
    runs(rt, w, &mut table);
    nodes(rt, w, edition, &mut table);
    best_split(rt, w, edition, choice, &mut table, &mut work);
    best_squares(rt, w, choice, &mut table, &mut work);
    judged(rt, w, edition, &[2u32, 8]);
    path(rt, w, edition, &[2u32, 8], &mut table);
    judged_path(rt, w, edition, &[1u32]);
    page(rt, w, edition, &[2u32, 8], &mut out);
    which(rt, w, &WORD, edition, &mut work);
    block(rt, &WORD, w, edition, &mut work);
}

// The whole word as a part.
fn part(rt: &impl Print, w: &[u16], edition: u32, units: &mut [u32]) {
    asked(rt, b"part", w, edition);
    description(rt, periods::part(w, edition, 1, length(w), units));
    list(rt, b" units", units);
    text(rt, b"\n");
}

fn runs(rt: &impl Print, w: &[u16], table: &mut [u32]) {
    text(rt, b"runs");
    name(rt, w);
    outcome(rt, run_table::runs(w, table));
    list(rt, b" table", table);
    text(rt, b"\n");
}

// The nodes at the last position.
fn nodes(rt: &impl Print, w: &[u16], edition: u32, table: &mut [u32]) {
    asked(rt, b"nodes", w, edition);
    outcome(rt, nodes::nodes(w, edition, length(w), table));
    list(rt, b" runs", table);
    text(rt, b"\n");
}

fn best_split(
    rt: &impl Print,
    w: &[u16],
    edition: u32,
    choice: u32,
    ends: &mut [u32],
    work: &mut [u32],
) {
    asked(rt, b"best split", w, edition);
    field(rt, choice);
    outcome(rt, repetitions::best_split(w, edition, choice, ends, work));
    list(rt, b" ends", ends);
    list(rt, b" work", work);
    text(rt, b"\n");
}

fn best_squares(rt: &impl Print, w: &[u16], choice: u32, ends: &mut [u32], work: &mut [u32]) {
    text(rt, b"best squares");
    name(rt, w);
    field(rt, choice);
    outcome(rt, squares::best_squares(w, choice, ends, work));
    list(rt, b" ends", ends);
    list(rt, b" work", work);
    text(rt, b"\n");
}

// The same ends as those of blocks, and of squares.
fn judged(rt: &impl Print, w: &[u16], edition: u32, ends: &[u32]) {
    asked(rt, b"judge split", w, edition);
    outcome(rt, repetitions::judge_split(w, edition, ends));
    list(rt, b" ends", ends);
    text(rt, b"\njudge squares");
    name(rt, w);
    outcome(rt, squares::judge_squares(w, ends));
    list(rt, b" ends", ends);
    text(rt, b"\n");
}

fn path(rt: &impl Print, w: &[u16], edition: u32, ends: &[u32], table: &mut [u32]) {
    asked(rt, b"path", w, edition);
    outcome(rt, paths::path_of_split(w, edition, ends, table));
    list(rt, b" ends", ends);
    list(rt, b" runs", table);
    text(rt, b"\n");
}

fn judged_path(rt: &impl Print, w: &[u16], edition: u32, numbers: &[u32]) {
    asked(rt, b"judge path", w, edition);
    outcome(rt, paths::judge_path(w, edition, numbers));
    list(rt, b" numbers", numbers);
    text(rt, b"\n");
}

// The answer, and below it the bytes that are lent.
fn page(rt: &impl Print, w: &[u16], edition: u32, ends: &[u32], out: &mut [u8]) {
    asked(rt, b"page", w, edition);
    outcome(rt, pages::write_page(w, edition, ends, out));
    list(rt, b" ends", ends);
    text(rt, b"\n");
    text(rt, out);
    text(rt, b"\n");
}

fn which(rt: &impl Print, a: &[u16], b: &[u16], edition: u32, work: &mut [u32]) {
    text(rt, b"which");
    name(rt, a);
    asked(rt, b" or", b, edition);
    outcome(rt, comparison::which_first(a, b, edition, work));
    list(rt, b" work", work);
    text(rt, b"\n");
}

// The length of the first block, and its symbols.
fn block(rt: &impl Print, a: &[u16], b: &[u16], edition: u32, work: &mut [u32]) {
    text(rt, b"block");
    name(rt, a);
    asked(rt, b" or", b, edition);
    let part = comparison::first_block(a, b, edition, work);
    field(rt, length(part));
    text(rt, b" symbols:");
    codes(rt, part);
    list(rt, b" work", work);
    text(rt, b"\n");
}

fn length(w: &[u16]) -> u32 {
    (w.len() % 1000000) as u32
}

fn asked(rt: &impl Print, call: &[u8], w: &[u16], edition: u32) {
    text(rt, call);
    name(rt, w);
    field(rt, edition);
}

// The symbols; of a long word their count.
fn name(rt: &impl Print, w: &[u16]) {
    if 10 < w.len() {
        text(rt, b" ");
        show::number(rt, length(w));
        text(rt, b" symbols");
        return;
    }
    codes(rt, w);
}

// Each symbol after a space.
fn codes(rt: &impl Print, w: &[u16]) {
    for x in w {
        text(rt, b" ");
        show::number(rt, u32::from(*x));
    }
}
