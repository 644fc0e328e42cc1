// For the library's own crates: the caller shows what each function requires.
ghost use Rattle.std.specs.Prelude.{◌≡◌, [], ◌∷◌, ◌≤◌, ◌<◌, ◌+◌, ◌-◌, ◌*◌, ◌/◌, ◌%◌, ◌^◌, length, set};
ghost use Rattle.std.proofs.lemmas.List.Edits.{sets};
ghost use Rattle.answers.specs.Outcome.{limit};
ghost use Rattle.periods.specs.Period.{part, SmallestPeriod, held_period};
ghost use Rattle.runs.specs.Table.{root_of, stride, numbers_of, record_at};
ghost use Rattle.runs.specs.Listing.{node?, key_of};

use crate::{KEY_STEP, Record, STRIDE};

// The numbers of a block: number, first, last, unit, turns, rest and run.
const BLOCK_NUMBERS: usize = 7;

// Stores a number where the table has the place.
pub fn store(table: &mut [u32], at: usize, value: u32)
    ensures { table.new ≡ set table.old at value }
{
    if at < table.len() {
        table[at] = value;
    }
}

// Stores the record of a run as number i of the table from 0, as far as the table has the places.
// This is the one place where a record's numbers are written.
pub fn put(table: &mut [u32], i: usize, run: Record)
    requires { i < 2 ^ 32 }
    ensures { table.new ≡ sets table.old (stride * i) (numbers_of run) }
{
    let at = STRIDE * i;
    store(table, at, run.first);
    store(table, at + 1, run.last);
    store(table, at + 2, run.period);
    store(table, at + 3, run.root);
}

// Whether a run has a white node at position x, where a repetition has so many turns at least.
pub fn is_node(run: Record, turns: u32, x: u32) -> bool
    ensures { result ≡ node? held_period turns x run }
{
    let unit = run.period as usize;
    if periods::UNIT_MEMORY < unit {
        return false;
    }
    let from = run.first as usize + turns as usize * unit;
    from <= x as usize + 1 && x <= run.last
}

// The key of a run with period p that starts after boundary a.
pub fn key(a: usize, p: usize) -> u32
    requires { a < limit }
    ensures { result ≡ key_of (a + 1) p }
{
    let unit = if p <= periods::UNIT_MEMORY { p } else { 0 };
    (KEY_STEP * (a + 1) + unit) as u32
}

// Record number i of a table, from 0. This is the one place where a record's numbers are read.
pub fn row(table: &[u32], i: usize) -> Record
    requires { stride * i + stride ≤ length table.now }
    ensures { result ≡ record_at table.now i }
{
    let at = STRIDE * i;
    Record {
        first: table[at],
        last: table[at + 1],
        period: table[at + 2],
        root: table[at + 3],
    }
}

// The numbers of block number k + 1, between two boundaries, by its unit and its run number.
pub fn block_numbers(
    k: usize,
    before: usize,
    end: usize,
    unit: u32,
    run: u32,
) -> [u32; BLOCK_NUMBERS]
    requires { (k ≤ before) × (before < end) × (end ≤ limit) × (1 ≤ unit) }
    ensures { result ≡ (k + 1) ∷ (before + 1) ∷ end ∷ unit ∷ ((end - before) / unit) ∷ ((end - before) % unit) ∷ run ∷ [] }
{
    let len = (end - before) as u32;
    [
        (k + 1) as u32,
        (before + 1) as u32,
        end as u32,
        unit,
        len / unit,
        len % unit,
        run,
    ]
}

// The root of a run that starts after boundary a and has period p. Of the starts before rival only
// best can be it; from both on, `same` symbols agree. Where the next two symbols differ, the start
// with the greater one comes later, and so do the next `same` starts beside those as far after the
// other: all of them are passed over. At most 3p comparisons.
pub fn root(w: &[u16], a: usize, p: usize) -> usize
    requires { (length w.now ≤ limit) × (a + 2 * p ≤ length w.now) × SmallestPeriod (part w.now a (a + 2 * p)) p }
    ensures { result ≡ root_of w.now a p }
{
    let end = a + p;
    let mut best = a;
    let mut rival = a + 1;
    let mut same: usize = 0;
    // Kept: two starts move at once, by other steps each; a range would be no plainer.
    while rival < end {
        let x = w[best + same];
        let y = w[rival + same];
        if x == y {
            same += 1;
            continue;
        }
        if x < y {
            rival += same + 1;
            same = 0;
            continue;
        }
        let past = best + same + 1;
        best = rival;
        rival = past.max(rival + 1);
        same = 0;
    }
    best + 1
}
