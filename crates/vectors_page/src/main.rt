// Shows the pages of splits of document 01's sequences, in both editions, as they would hang on the
// wall, and write a page on each of its refusals, with every byte that was lent. The output is
// compared with the file stdout.
#![tactic(auto)]

use decimals::COMMA;
use show::cases::{rows, values, word};
use show::{numbers, outcome, text};

fn main(rt: HostRuntime) {
    let rt = &rt;
    sequences(rt);
    second_edition(rt);
    lent_bytes(rt);
    refusals(rt);
    symbols(rt);
    limits(rt);
}

// The best splits of the sequences of document 01, with a byte more than each page needs.
fn sequences(rt: &impl Print) {
    rows(
        b",1,1|aa,1,62,2|aaaa,1,62,4|aaaa,1,123,2,4|aaaaa,1,62,5|aaaaa,1,123,2,5|\
        ababa,1,62,5|aabb,1,123,2,4|aabaabaa,1,62,8|aabaabaa,1,123,2,8|abaababaab,1,62,10|\
        abaabaababaabaabababa,1,123,16,21|abaabaababaabaabababa,1,245,6,10,16,21|\
        aabaabaacbbcbbcbb,1,123,8,17|aabaabaacbbcbbcbb,1,245,2,8,15,17|\
        aabaabaacbbcbbcbb,1,245,6,8,15,17|",
        |r| row(rt, r),
    );
}

// Edition 2, where a block has three turns.
fn second_edition(rt: &impl Print) {
    rows(
        b",2,1|aaa,2,62,3|aaaaaa,2,62,6|aaaaaa,2,123,3,6|ababab,2,62,6|\
        aabaabaabcccc,2,123,9,13|aabaabaa,2,123,2,8|aaaa,2,123,2,4|",
        |r| row(rt, r),
    );
}

// Just the bytes that a page needs, one fewer, none: refusal 7.
fn lent_bytes(rt: &impl Print) {
    rows(
        b",1,0|aa,1,61,2|aa,1,60,2|aa,1,0,2|aabaabaa,1,122,2,8|aabaabaa,1,121,2,8|\
        aabaabaa,1,61,2,8|",
        |r| row(rt, r),
    );
}

// 12, 3, 4 and 5 as the judge gives them, with no bytes lent, so before 7; 12 comes first.
fn refusals(rt: &impl Print) {
    rows(
        b"aabaabaa,0,0,2,8|aabaabaa,3,0,2,8|aabaabaa,4294967295,123,2,2,8|aabaabaa,1,0,3,8|\
        aabaabaa,1,0,2,2,8|aabaabaa,1,0,2,9|aabaabaa,1,0,2|aabaabaa,1,0|ab,1,0,2|,1,0,0|\
        aabaabaa,1,123,2,4|",
        |r| row(rt, r),
    );
}

// Symbols of one and two digits, the line end among them, and units of nine symbols and more.
fn symbols(rt: &impl Print) {
    bytes(
        rt,
        b"0, 9, 10, 255 twice",
        b"\x00\x09\x0a\xff\x00\x09\x0a\xff",
        &[8u32],
    );
    bytes(rt, b"10 three times", b"\x0a\x0a\x0a", &[3u32]);
    bytes(
        rt,
        b"nine symbols twice",
        b"\x01\x23\x45\x67\x89\xab\xcd\xef\x10\x01\x23\x45\x67\x89\xab\xcd\xef\x10",
        &[18u32],
    );
    bytes(
        rt,
        b"ten symbols twice, and two more",
        b"\x01\x23\x45\x67\x89\xab\xcd\xef\x10\xff\x01\x23\x45\x67\x89\xab\xcd\xef\x10\xff\x01\x23",
        &[22u32],
    );
    bytes(
        rt,
        b"another symbol before a unit of ten",
        b"\x07\x07\x01\x23\x45\x67\x89\xab\xcd\xef\x10\xff\x01\x23\x45\x67\x89\xab\xcd\xef\x10\xff",
        &[2u32, 22],
    );
}

// The limit: the last two lines of the longest page; and refusal 1, which comes before 12.
fn limits(rt: &impl Print) {
    let most = [97u8; 4096];
    let mut ends = [0u32; 2048];
    let mut work = [0u32; 16388];
    let _ = repetitions::best_split(&most, 1, 2, &mut ends, &mut work);
    let mut out = [46u8; 124929];
    text(rt, b"page,4096 equal, blocks of 2,1");
    outcome(rt, pages::write_page(&most, 1, &ends, &mut out));
    last_lines(rt, &out, 124806);
    let over = [97u8; 70001];
    text(rt, b"page,70001 equal,3");
    outcome(rt, pages::write_page(&over, 3, &ends, &mut out));
    text(rt, b"\n");
}

fn last_lines(rt: &impl Print, out: &[u8], from: usize) {
    text(rt, b"\n");
    text(rt, out.get(from..).unwrap_or_default());
    text(rt, b"\n");
}

// A word, an edition, how many bytes are lent, and the ends.
fn row(rt: &impl Print, row: &[u8]) {
    let mut places = [0u32; 8];
    let count = values(row, &mut places);
    text(rt, b"page,");
    text(rt, row);
    if let Some(ends) = places.get(2..count) {
        lent(rt, word(row), places[0], places[1], ends);
    }
}

// A page, and every byte that was lent, dots where it was not written.
fn lent(rt: &impl Print, w: &[u8], edition: u32, room: u32, ends: &[u32]) {
    let mut out = [46u8; 256];
    if let Some(out) = out.get_mut(..room as usize) {
        page(rt, w, edition, ends, out);
    }
}

// A page of edition 1, with 123 bytes lent.
fn bytes(rt: &impl Print, name: &[u8], w: &[u8], ends: &[u32]) {
    let mut out = [46u8; 123];
    text(rt, b"page,");
    text(rt, name);
    numbers(rt, COMMA, ends);
    page(rt, w, 1, ends, &mut out);
}

fn page(rt: &impl Print, w: &[u8], edition: u32, ends: &[u32], out: &mut [u8]) {
    outcome(rt, pages::write_page(w, edition, ends, out));
    text(rt, b"\n");
    text(rt, out);
    text(rt, b"\n");
}
