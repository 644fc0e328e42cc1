// For this crate's calls: the caller shows what each function requires. A function that ends in _with puts
// the keys of all runs into a local array. There is one for each of a few sizes, and none is inlined: so a
// short word does not touch the pages of long ones.
ghost use Rattle.std.specs.Prelude.{◌≡◌, ◌++◌, ◌≤◌, ◌<◌, ◌%◌, ◌^◌, length, drop};
ghost use Rattle.answers.specs.Outcome.{counted_view, limit};
ghost use Rattle.periods.specs.Period.{held_period};
ghost use Rattle.periods.specs.Edition.{turns_in};
ghost use Rattle.periods.specs.Width.{symbols};
ghost use Rattle.factors.specs.Verdict.{verdict};
ghost use Rattle.paths.specs.Graph.{ends_of_pairs};
ghost use Rattle.paths.specs.Calls.{run_numbers, segment?, path_outcome, path_table, PathMeaning, path_judged_outcome, PathJudgedMeaning};
ghost use Rattle.paths.specs.Walk.{Factored};

use crate::look_up::LookUp;
use answers::Refusal;
use periods::{Edition, Word};

// What a path has of each block: a run number and an end.
const PAIR: usize = 2;

// Writes the number of the run of each block of a factorization. Time: that of the runs, and of a judge.
#[inline(never)]
fn numbers_with<const ROOM: usize>(w: Word, ends: &[u32], table: &mut [u32])
    requires { Factored (symbols w) ends.now × (length ends.now ≤ length table.old) × (length (symbols w) ≤ ROOM) × (ROOM < 2 ^ 32) }
    ensures { table.new ≡ run_numbers (symbols w.entry) 0 ends.now ++ drop (length ends.now) table.old }
{
    let mut keys = [0u32; ROOM];
    let mut look_up = LookUp::new(w, &mut keys);
    for (k, end) in ends.iter().enumerate() {
        table[k] = look_up.locate(Edition::First, *end as usize).number;
    }
}

// The same with keys by the word's length.
fn numbers(w: Word, ends: &[u32], table: &mut [u32])
    requires { Factored (symbols w) ends.now × (length ends.now ≤ length table.old) }
    ensures { table.new ≡ run_numbers (symbols w.entry) 0 ends.now ++ drop (length ends.now) table.old }
{
    let n = w.len();
    if n <= halves::SHORT {
        numbers_with::<{ halves::SHORT }>(w, ends, table);
    } else if n <= halves::MIDDLE {
        numbers_with::<{ halves::MIDDLE }>(w, ends, table);
    } else {
        numbers_with::<{ answers::LIMIT }>(w, ends, table);
    }
}

// Path of a split.
pub(crate) fn path(w: Word, edition: u32, ends: &[u32], table: &mut [u32]) -> Result<u32, Refusal>
    ensures result_value { counted_view result ≡ path_outcome (symbols w.entry) edition ends.now (length table.old) }
    ensures table_after { table.new ≡ path_table (symbols w.entry) edition ends.now table.old }
    ensures path_meaning { PathMeaning (symbols w.entry) edition ends.now table.old (counted_view result) table.new }
{
    let blocks = repetitions::inner::judge(w, edition, ends)?;
    if table.len() < ends.len() {
        return Err(Refusal::TooFewPlaces);
    }
    numbers(w, ends, table);
    Ok(blocks)
}

// The verdict on a path with an even count of numbers. The run of each piece comes from the symbols;
// the number given is only compared with it. Time: that of the runs, and of a judge.
#[inline(never)]
fn follow_with<const ROOM: usize>(
    w: Word,
    edition: Edition,
    numbers: &[u32],
) -> Result<u32, Refusal>
    requires { (length numbers.now % 2 ≡ 0) × (length (symbols w) ≤ limit) × (length (symbols w) ≤ ROOM) × (ROOM < 2 ^ 32) }
    ensures { counted_view result ≡ verdict (segment? held_period (turns_in edition) (symbols w.entry) numbers.now) (length (symbols w.entry)) (ends_of_pairs numbers.now) }
{
    let n = w.len();
    let mut keys = [0u32; ROOM];
    let mut look_up = LookUp::new(w, &mut keys);
    for (k, pair) in numbers.chunks_exact(PAIR).enumerate() {
        let end = pair[1] as usize;
        let number = (k + 1) as u32;
        if factors::bad_end(look_up.before, end, n) {
            return Err(Refusal::BadEnd(number));
        }
        let found = look_up.locate(edition, end);
        if found.unit == 0 || found.number != pair[0] {
            return Err(Refusal::NotBlock(number));
        }
    }
    if look_up.before != n {
        return Err(Refusal::Unfinished);
    }
    Ok((numbers.len() / PAIR) as u32)
}

// The same with keys by the word's length.
fn follow(w: Word, edition: Edition, numbers: &[u32]) -> Result<u32, Refusal>
    requires { (length (symbols w) ≤ limit) × (length numbers.now % 2 ≡ 0) }
    ensures { counted_view result ≡ verdict (segment? held_period (turns_in edition) (symbols w.entry) numbers.now) (length (symbols w.entry)) (ends_of_pairs numbers.now) }
{
    let n = w.len();
    if n <= halves::SHORT {
        return follow_with::<{ halves::SHORT }>(w, edition, numbers);
    }
    if n <= halves::MIDDLE {
        return follow_with::<{ halves::MIDDLE }>(w, edition, numbers);
    }
    follow_with::<{ answers::LIMIT }>(w, edition, numbers)
}

// Judge a path.
pub(crate) fn judge(w: Word, edition: u32, numbers: &[u32]) -> Result<u32, Refusal>
    ensures result_value { counted_view result ≡ path_judged_outcome (symbols w.entry) edition numbers.now }
    ensures path_judged_meaning { PathJudgedMeaning (symbols w.entry) edition numbers.now (counted_view result) }
{
    if answers::LIMIT < w.len() {
        return Err(Refusal::TooLong);
    }
    let edition = Edition::try_from(edition)?;
    if numbers.len() % PAIR == 1 {
        return Err(Refusal::OddPath);
    }
    follow(w, edition, numbers)
}
