// Shows the part call on document 01's examples, in both editions, and on each of its refusals, with
// the table of units that it leaves. Each line is compared with the file stdout.
#![tactic(auto)]

use decimals::COMMA;
use show::cases::{rows, values, word};
use show::text;

fn main(rt: HostRuntime) {
    let rt = &rt;
    first_edition(rt);
    places(rt);
    second_edition(rt);
    limits(rt);
}

// The sequences of document 01, whole, and some of their parts, with a place more than each needs;
// and refusal 6, at each bound.
fn first_edition(rt: &impl Print) {
    rows(
        b"a,1,1,1,2|ab,1,1,2,3|aa,1,1,2,3|aaaa,1,1,4,5|aaaaa,1,1,5,6|ababa,1,1,5,6|\
        baa,1,1,3,4|baa,1,2,3,3|aabb,1,1,4,5|aabaabaa,1,1,8,9|aabaabaa,1,3,8,8|\
        aabaabaa,1,2,6,6|aaaab,1,1,5,6|abaababaab,1,1,10,11|\
        abaabaababaabaabababa,1,1,16,17|abaabaababaabaabababa,1,1,19,20|\
        abaabaababaabaabababa,1,17,21,6|aabaabaacbbcbbcbb,1,9,17,10|",
        |r| row(rt, r),
    );
    rows(
        b",1,1,0,1|,1,1,1,1|ababa,1,0,5,6|ababa,1,1,6,7|ababa,1,4,3,2|ababa,1,6,6,2|\
        ababa,1,4294967295,4294967295,2|",
        |r| row(rt, r),
    );
}

// Just the places that a part needs, one fewer, none: refusal 7, which comes after 6 and 12.
fn places(rt: &impl Print) {
    rows(
        b"aabaabaa,1,1,8,8|aabaabaa,1,1,8,7|aabaabaa,1,1,8,0|aabaabaa,2,3,8,6|\
        aabaabaa,2,3,8,5|a,1,1,1,1|a,1,1,1,0|ababa,1,1,6,4|ababa,1,4,3,0|,1,1,0,0|\
        ababa,0,1,5,4|ababa,3,1,6,0|",
        |r| row(rt, r),
    );
}

// Edition 2, beside edition 1 where the two differ or come near it; and refusal 12, which comes
// before 6.
fn second_edition(rt: &impl Print) {
    rows(
        b"a,2,1,1,2|aa,2,1,2,3|aaa,1,1,3,4|aaa,2,1,3,4|ababa,2,1,5,6|ababab,1,1,6,7|\
        ababab,2,1,6,7|abababa,1,1,7,8|abababa,2,1,7,8|aabaabaa,2,1,8,9|\
        aabaabaab,2,1,9,10|abaabaababaabaabababa,1,9,17,10|\
        abaabaababaabaabababa,2,1,16,17|abaabaababaabaabababa,2,9,17,10|\
        abaabaababaabaabababa,2,9,16,9|abaabaababaabaabababa,2,15,21,8|,2,1,0,1|\
        ababab,2,0,6,7|ababab,2,1,7,8|",
        |r| row(rt, r),
    );
    rows(
        b"ababab,0,1,6,7|ababab,3,1,6,7|ababab,4294967295,1,6,7|ababab,0,0,6,7|\
        ababab,3,1,7,7|ababab,4294967295,4,3,7|",
        |r| row(rt, r),
    );
}

// The limit, where refusal 1 comes before 12, 6 and 7.
fn limits(rt: &impl Print) {
    let most = [97u8; 4096];
    long(rt, b"4096 equal", &most, [1, 1, 4096, 4097]);
    long(rt, b"4096 equal", &most, [1, 1, 4096, 4096]);
    long(rt, b"4096 equal", &most, [1, 1, 4096, 4095]);
    long(rt, b"4096 equal", &most, [1, 1, 4097, 4097]);
    long(rt, b"4096 equal", &most, [2, 1, 4096, 4097]);
    let over = [97u8; 70001];
    long(rt, b"70001 equal", &over, [1, 1, 1, 4097]);
    long(rt, b"70001 equal", &over, [1, 0, 0, 4097]);
    long(rt, b"70001 equal", &over, [0, 1, 1, 4097]);
    long(rt, b"70001 equal", &over, [3, 0, 0, 0]);
}

// A word, and its numbers: an edition, two positions, and how many places are lent.
fn row(rt: &impl Print, row: &[u8]) {
    let mut numbers = [0u32; 4];
    values(row, &mut numbers);
    short(rt, word(row), numbers);
}

// A part of a short word, and every place that was lent.
fn short(rt: &impl Print, w: &[u8], numbers: [u32; 4]) {
    let mut table = [7u32; 32];
    if let Some(units) = table.get_mut(..numbers[3] as usize) {
        part(rt, w, w, numbers, units);
        show::list_line(rt, b"", units);
    }
}

// A part of a long word, and the places from number 4,095 on, where so many were lent.
fn long(rt: &impl Print, name: &[u8], w: &[u8], numbers: [u32; 4]) {
    let mut table = [7u32; 4097];
    if let Some(units) = table.get_mut(..numbers[3] as usize) {
        part(rt, name, w, numbers, units);
        show::list_line(rt, b"", units.get(4094..).unwrap_or_default());
    }
}

// The word or its name, its numbers and the answer.
fn part(rt: &impl Print, name: &[u8], w: &[u8], numbers: [u32; 4], units: &mut [u32]) {
    let [edition, first, last, _] = numbers;
    text(rt, b"part,");
    text(rt, name);
    show::numbers(rt, COMMA, &numbers);
    show::description(rt, periods::part(w, edition, first, last, units));
}
