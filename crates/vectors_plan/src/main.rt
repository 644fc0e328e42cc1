// Plans written and read, and every refusal of both calls, with the lent table before and after. The
// bytes of a table are 46 (".") before a call, and its numbers 777, so that what changed shows. Each
// line is compared with the file stdout.
#![tactic(auto)]

use answers::Refusal;
use decimals::COMMA;
use plans::Plan;
use show::cases::{place, rows, value, values};
use show::{SPACE, bytes, code, field, number, numbers, text};

// Tables of cases. To write, a row has the length, the places and the ends: plans that are written,
// and then refusals; the same with long lines. To read, a row has the places, in one digit, and the
// line: plans that are read; bytes that are no line; lines that are no plan, and tables that are too
// short; the same with long lines.
fn main(rt: HostRuntime) {
    let rt = &rt;
    rows(
        b",0,15|,8,40,8|,8,25,2,8|,8,26,2,8|,4096,25,2048,4096|,5,40,1,2,3,4,5|\
        ,4097,40,4097|,4294967295,40|,4097,0,3,2|\
        ,8,40,0,8|,0,40,0|,8,40,2,2,8|,8,40,5,4,9|,8,40,2,9|,8,40,4294967295|,8,0,2,2,8|\
        ,8,40|,8,40,2,7|,8,0,2,7|\
        ,0,14|,0,0|,8,24,2,8|,5,39,1,2,3,4,5|",
        |r| row(rt, r),
    );
    rows(
        b",4097,26,4097|,4097,25,4097|,65536,33,2,65536|,70000,40,2,70000|,70000,32,2,70000|\
        ,70000,40,70001|,70000,40,2|,70001,40,70001|,70001,0,3,2|",
        |r| row(rt, r),
    );
    rows(
        b"0plan,0000,0000\n|\
        4plan,0008,0001,0008\n|\
        2plan,0008,0002,0002,0008\n|\
        3plan,0008,0002,0002,0008\n|\
        4plan,4096,0002,2048,4096\n|\
        4plan,0004,0004,0001,0002,0003,0004\n|",
        |r| row(rt, r),
    );
    rows(
        b"4|\
        4\n|\
        4plan,0008,0002,0002,0008\n\n|\
        4plan,0008,0002,0002,00080\n|\
        4plan,0000,0000\nplan,0000,0000\n|\
        4plan;0008,0002,0002,0008\n|\
        4plan,0008;0002,0002,0008\n|\
        4plan,0008,0002;0002,0008\n|\
        4plan,0008,0002,0002;0008\n|\
        4plan,0008,0002,0002,0008 |\
        4plan,0008,0001,0002,0008\n|\
        4plan,0008,0003,0002,0008\n|\
        4plan,0008,9999,0002,0008\n|\
        4plan,008,0000\n|\
        4plan,00008,0000\n|\
        4plan,000:,0000\n|\
        4plan,000/,0000\n|\
        4plan,-008,0000\n|\
        4Plan,0008,0000\n|\
        4 plan,0008,0000|",
        |r| row(rt, r),
    );
    rows(
        b"4plan,4097,0001,4097\n|\
        4plan,5000,0000\n|\
        0plan,9999,0002,0003,0002\n|\
        4plan,0008,0002,0000,0008\n|\
        4plan,0008,0002,0002,0002\n|\
        4plan,0008,0003,0005,0004,0009\n|\
        4plan,0008,0002,0002,0009\n|\
        0plan,0008,0001,9999\n|\
        4plan,0008,0000\n|\
        4plan,0008,0002,0002,0007\n|\
        0plan,0008,0002,0002,0007\n|\
        1plan,0008,0002,0002,0008\n|\
        0plan,0008,0001,0008\n|",
        |r| row(rt, r),
    );
    rows(
        b"1long,004097,000001,004097\n|\
        2long,065536,000002,000002,065536\n|\
        4long,070000,000002,000002,070000\n|\
        4long,004096,000001,004096\n|\
        0long,004096,000001,009999\n|\
        4long,000000,000000\n|\
        4long,04097,00001,04097\n|\
        4long,4097,0001,4097\n|\
        4plan,004097,000001,004097\n|\
        4lonG,004097,000001,004097\n|\
        4long,00409x,000001,004097\n|\
        4long,004097,00000:,004097\n|\
        4long,004097;000001,004097\n|\
        4long,004097,000001;004097\n|\
        4long,004097,000002,004097\n|\
        4long,004097,000001,004097|\
        4long,004097,000001,004097\n\n|",
        |r| row(rt, r),
    );
    rows(
        b"4long,070001,000001,070001\n|\
        0long,999999,000002,000003,000002\n|\
        4plan,9999,0001,9999\n|\
        4long,004097,000002,000002,000002\n|\
        4long,070000,000001,070001\n|\
        4long,004097,000000\n|\
        0long,070000,000001,000002\n|\
        1long,070000,000002,000002,070000\n|",
        |r| row(rt, r),
    );
    let line = b"plan,0008,0002,0002,0008\n";
    cut_everywhere(rt, line);
    damaged_everywhere(rt, *line);
}

// A row that starts with a comma is a plan to write, and any other a line to read.
fn row(rt: &impl Print, row: &[u8]) {
    if 0 < place(row, 0, COMMA) {
        if let Some(line) = row.get(1..) {
            read_case(rt, line, value(row, 0));
        }
        return;
    }
    let mut t = [0u32; 8];
    let count = values(row, &mut t);
    if let Some(ends) = t.get(2..count) {
        write_case(rt, t[0], ends, t[1]);
    }
}

fn write_case(rt: &impl Print, n: u32, ends: &[u32], places: u32) {
    let mut out = [46u8; 40];
    text(rt, b"write ");
    number(rt, n);
    text(rt, b" ends");
    numbers(rt, SPACE, ends);
    text(rt, b" into ");
    number(rt, places);
    text(rt, b"\n  before ");
    bytes(rt, &out);
    if let Some(lent) = out.get_mut(..places as usize) {
        let answer = plans::write_plan(n, ends, lent);
        text(rt, b"\n  after  ");
        bytes(rt, &out);
        written(rt, answer);
    }
}

fn written(rt: &impl Print, answer: Result<u32, Refusal>) {
    match answer {
        Ok(count) => {
            text(rt, b"\n  bytes ");
            number(rt, count);
        }
        Err(r) => refused(rt, r),
    }
    text(rt, b"\n");
}

fn refused(rt: &impl Print, r: Refusal) {
    text(rt, b"\n  refused ");
    code(rt, r);
}

fn read_case(rt: &impl Print, s: &[u8], places: u32) {
    let mut table = [777u32; 4];
    text(rt, b"read ");
    bytes(rt, s);
    text(rt, b" into ");
    number(rt, places);
    text(rt, b"\n  before");
    numbers(rt, SPACE, &table);
    if let Some(lent) = table.get_mut(..places as usize) {
        let answer = plans::read_plan(s, lent);
        text(rt, b"\n  after ");
        numbers(rt, SPACE, &table);
        planned(rt, answer);
    }
}

fn planned(rt: &impl Print, answer: Result<Plan, Refusal>) {
    match answer {
        Ok(Plan { n, count }) => {
            text(rt, b"\n  plan ");
            number(rt, n);
            field(rt, count);
        }
        Err(r) => refused(rt, r),
    }
    text(rt, b"\n");
}

// A line cut at every length below its own.
fn cut_everywhere(rt: &impl Print, s: &[u8]) {
    for len in 0..s.len() {
        read_case(rt, &s[..len], 4);
    }
}

// A line with each of its bytes, one after another, made an x.
fn damaged_everywhere(rt: &impl Print, line: [u8; 25]) {
    for i in 0..25 {
        let mut damaged = line;
        damaged[i] = b'x';
        read_case(rt, &damaged, 4);
    }
}
