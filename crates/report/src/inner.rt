// For this crate's call: the caller shows what each function requires. Every function stores from
// place at on, as far as there are bytes, and gives the place after what it wrote.
// Kept: bytes and a place in them go together, as in `writers`.
ghost use Rattle.std.specs.Prelude.{◌≡◌, ◌≤◌, ◌<◌, ◌+◌, ◌*◌, ◌^◌, length};
ghost use Rattle.std.proofs.lemmas.List.Edits.{sets};
ghost use Rattle.periods.specs.Period.{held_period};
ghost use Rattle.factors.specs.Factorization.{Factorization, fewest, most};
ghost use Rattle.repetitions.specs.Block.{Block};
ghost use Rattle.finder.specs.Find.{record_limit};
ghost use Rattle.report.specs.Text.{program_limit, printed_turns, run_lines, block_line, block_lines, split_text, text};
ghost use Rattle.report.specs.Records.{RunsHeld, RunsListed};

use crate::{EDITION, PROGRAM_LIMIT};
use finder::RECORDS;
use periods::{Edition, Word};
use runs::{Listing, Record};

// A block has two symbols at least.
const MOST_BLOCKS: usize = PROGRAM_LIMIT / 2;

// Stores the lines of the runs.
fn run_lines(runs: &[Record], out: &mut [u8], at: usize) -> usize
    requires { (at < 2 ^ 20) × (length runs.now ≤ record_limit) }
    ensures value { result ≡ at + length (run_lines 0 runs.now) }
    ensures out_after { out.new ≡ sets out.old at (run_lines 0 runs.now) }
{
    let mut next = at;
    for (i, run) in runs.iter().enumerate() {
        let numbers = [(i + 1) as u32, run.first, run.last, run.period, run.root];
        next = writers::inner::put_line(out, next, b"run", &numbers);
    }
    next
}

// Stores the line of block number k + 1, between boundaries before and end. The records are those of
// the runs.
fn block_line(
    w: &[u16],
    k: usize,
    before: usize,
    end: usize,
    runs: &[Record],
    out: &mut [u8],
    at: usize,
) -> usize
    requires at_bound { (at < 2 ^ 29) × (length w.now ≤ program_limit) × (k ≤ before) × Block held_period printed_turns w.now before end }
    requires runs_held { RunsHeld w.now runs.now }
    ensures value { result ≡ at + length (block_line w.now (k + 1) before end) }
    ensures out_after { out.new ≡ sets out.old at (block_line w.now (k + 1) before end) }
{
    // EDITION, as the functions below the calls know it
    let unit = Word::Codes(&w[before..end]).block_unit(Edition::First);
    let run = finder::find_run(runs, (before + 1) as u32, end as u32, unit as u32) + 1;
    let numbers = runs::inner::block_numbers(k, before, end, unit as u32, run as u32);
    writers::inner::put_line(out, at, b"block", &numbers)
}

// Stores the lines of the blocks with these ends.
fn block_lines(w: &[u16], ends: &[u32], runs: &[Record], out: &mut [u8], at: usize) -> usize
    requires at_bound { (at < 2 ^ 20) × (length w.now ≤ program_limit) × Factorization (Block held_period printed_turns w.now) (length w.now) ends.now }
    requires runs_held { RunsHeld w.now runs.now }
    ensures value { result ≡ at + length (block_lines w.now 0 0 ends.now) }
    ensures out_after { out.new ≡ sets out.old at (block_lines w.now 0 0 ends.now) }
{
    let mut next = at;
    let mut before: usize = 0;
    for (k, end) in ends.iter().enumerate() {
        let end = *end as usize;
        next = block_line(w, k, before, end, runs, out, next);
        before = end;
    }
    next
}

// Stores the lines of the best split of a choice: its name and size, and its blocks.
fn split_lines(
    w: &[u16],
    choice: u32,
    name: &[u8],
    runs: &[Record],
    out: &mut [u8],
    at: usize,
) -> usize
    requires at_bound { (at < 2 ^ 19) × (length w.now ≤ program_limit) × (fewest ≤ choice) × (choice ≤ most) × (length name.now ≤ 6) }
    requires runs_held { RunsHeld w.now runs.now }
    ensures value { result ≡ at + length (split_text w.now choice name.now) }
    ensures out_after { out.new ≡ sets out.old at (split_text w.now choice name.now) }
{
    let mut ends = [0u32; MOST_BLOCKS];
    let mut work = [0u32; factors::ROWS * (PROGRAM_LIMIT + 1)];
    match repetitions::best_split(w, EDITION, choice, &mut ends, &mut work) {
        Err(_) => {
            let next = writers::inner::put_text(out, at, name);
            writers::inner::put_text(out, next, b",none\n")
        }
        Ok(size) => {
            let next = writers::inner::put_line(out, at, name, &[size]);
            block_lines(w, &ends[..size as usize], runs, out, next)
        }
    }
}

// Stores the whole text of a word that the program holds, from the table of its runs.
// Kept: `finder::inner::held` is over the table and the count of its records.
fn write_text(w: &[u16], table: &[u32], count: usize, out: &mut [u8]) -> usize
    requires { RunsListed w.now table.now count }
    ensures value { result ≡ length (text w.now) }
    ensures out_after { out.new ≡ sets out.old 0 (text w.now) }
{
    let held = finder::inner::held(table, count);
    let runs = &held[..count];
    let runs_from = writers::inner::put_line(out, 0, b"passes", &[w.len() as u32]);
    let fewest_from = run_lines(runs, out, runs_from);
    let most_from = split_lines(w, factors::FEWEST, b"fewest", runs, out, fewest_from);
    split_lines(w, factors::MOST, b"most", runs, out, most_from)
}

// Finds the runs of a word that the program holds, and stores its whole text.
pub(crate) fn write_all(w: &[u16], out: &mut [u8]) -> usize
    requires { length w.now ≤ program_limit }
    ensures value { result ≡ length (text w.now) }
    ensures out_after { out.new ≡ sets out.old 0 (text w.now) }
{
    let mut scratch = [0u32; halves::ROWS * (PROGRAM_LIMIT + 1)];
    let mut table = [0u32; runs::STRIDE * RECORDS];
    let count = halves::inner::list(Word::Codes(w), Listing::Records, &mut scratch, &mut table);
    write_text(w, &table, count, out)
}
