// For the library's own crates: the caller shows what each function requires.
// Kept: `Workable` is a fact of a word and a lent table; a struct that holds the table needs more clauses
// than this one, as in `halves`.
ghost use Rattle.std.specs.Prelude.{◌≡◌, ◌≤◌, ◌<◌, ◌+◌, ◌-◌, ◌*◌, length, get_or};
ghost use Rattle.answers.specs.Outcome.{counted_view, limit};
ghost use Rattle.periods.specs.Period.{repetition?, held_period};
ghost use Rattle.periods.specs.Edition.{turns_in};
ghost use Rattle.periods.specs.Width.{symbols};
ghost use Rattle.factors.specs.Choice.{choice_in};
ghost use Rattle.factors.specs.Table.{rows, spread, filled};
ghost use Rattle.factorizer.specs.Piece.{piece?};
ghost use Rattle.factorizer.specs.Rule.{block_by};
ghost use Rattle.factorizer.specs.Fill.{UnitsRise, Workable, ends_block, Readable, handed_outcome, handed_ends, cleared_row};
ghost use Rattle.factorizer.specs.Window.{window_of, Windowed, RestKept, lengthened};
ghost use Rattle.factorizer.specs.Best.{chosen_outcome, chosen_ends, chosen_work};
ghost use Rattle.factorizer.specs.Judge.{piece_verdict};

use super::Rule;
use answers::Refusal;
use factors::{AsChoice, Choice, NONE};
use periods::{Edition, Word};

// Offers a size from boundary j to each of the next len boundaries at which a block that starts there
// ends: the turns of its unit fit into it. Row 2 has the units of the parts after boundary j; they
// never fall, so the first that is too long for any part ends the work.
// Whether a block ends is asked first: where one does, the unit is not too long.
fn spread(
    work: &mut [u32],
    n: usize,
    edition: Edition,
    choice: Choice,
    j: usize,
    len: usize,
    size: u32,
)
    requires { (n ≤ limit) × (j + len ≤ n) × (rows * (n + 1) ≤ length work.old) × UnitsRise n len work.old }
    ensures { work.new ≡ spread (choice_in choice) n j size (ends_block (turns_in edition) n work.old) len work.old }
{
    let turns = edition.turns();
    let row = n + 1;
    let units = row + row;
    for d in 0..len {
        let span = turns * (work[units + d] as usize);
        if span <= d + 1 {
            let m = j + d + 1;
            factors::inner::offer(work, choice, m, row + m, size, j as u32);
        } else if len < span {
            return;
        }
    }
}

// Takes boundary j: if it is reached, offers its size and one more wherever a block from it ends in the
// window. The part call is lent row 2 and writes the units of the window, which are the same in every
// edition; what it answers is not needed. Gives the unit of the window, or what is known where the
// boundary is not reached.
fn visit(
    w: Word,
    edition: Edition,
    choice: Choice,
    j: usize,
    known: usize,
    work: &mut [u32],
) -> usize
    requires workable { Workable (symbols w) work.old × (j < length (symbols w)) }
    requires windowed { Windowed (choice_in choice) (piece? (repetition? held_period (turns_in edition)) (symbols w)) (symbols w) (window_of (turns_in edition)) j j known work.old }
    ensures windowed_next { Windowed (choice_in choice) (piece? (repetition? held_period (turns_in edition)) (symbols w.entry)) (symbols w.entry) (window_of (turns_in edition)) (j + 1) j result work.new }
    ensures rest_kept { RestKept (length (symbols w.entry)) work.old work.new }
{
    let size = work[j];
    if size == NONE {
        return known;
    }
    let n = w.len();
    let row = n + 1;
    let two = row + row;
    let three = two + row;
    let len = (edition.turns() * periods::UNIT_MEMORY).min(n - j);
    let _ = periods::inner::part(
        w,
        periods::FIRST_EDITION,
        (j + 1) as u32,
        (j + len) as u32,
        &mut work[two..three],
    );
    spread(work, n, edition, choice, j, len, size + 1);
    work[two + (len - 1)] as usize
}

// Passes the blocks that end at boundary m, where a window ends, on to the next boundary if a period
// of the window goes on there: all of them go on, or none.
fn lengthen(w: Word, m: usize, period: usize, work: &mut [u32])
    requires { Workable (symbols w) work.old × (period ≤ m) }
    ensures { work.new ≡ lengthened (symbols w.entry) m period work.old }
{
    let n = w.len();
    if n <= m || !w.same(m, m - period) {
        return;
    }
    let row = n + 1;
    let next = m + 1;
    work[next] = work[m];
    work[row + next] = work[row + m];
}

// Fills the working table for repetitions: the best size of each prefix length, and the previous
// boundary that it came from. Boundaries in rising order; one that is not reached offers nothing. From
// each only a window is read, the turns of the longest unit: a longer block goes on with a period of
// it. Time: the product of the word's length and the window at most.
pub fn fill<C: AsChoice>(w: Word, edition: Edition, choice: C, work: &mut [u32])
    requires { Workable (symbols w) work.old }
    ensures { work.new ≡ filled (C.asked choice) (piece? (repetition? held_period (turns_in edition)) (symbols w.entry)) (length (symbols w.entry)) work.old }
{
    let n = w.len();
    let row = n + 1;
    let two = row + row;
    factors::inner::start(work, n);
    work[row..two].fill(0);
    let asked = choice.choice();
    let window = edition.turns() * periods::UNIT_MEMORY;
    let mut unit: usize = 0;
    for j in 0..n {
        unit = visit(w, edition, asked, j, unit, work);
        lengthen(w, j + window, unit, work);
    }
    let four = two + two;
    work[two..four].fill(0);
}

// Answers from a filled table, and writes the ends where there is a factorization and room for them.
fn hand_out(work: &[u32], n: usize, ends: &mut [u32]) -> Result<u32, Refusal>
    requires { Readable n work.now }
    ensures result_value { counted_view result ≡ handed_outcome (get_or work.now n 0) (length ends.old) }
    ensures ends_after { ends.new ≡ handed_ends n work.now ends.old }
{
    let size = work[n];
    if size == NONE {
        return Err(Refusal::NoFactorization);
    }
    let count = size as usize;
    if ends.len() < count {
        return Err(Refusal::TooFewPlaces);
    }
    let row = n + 1;
    let two = row + row;
    factors::inner::write_ends(&work[row..two], n, count, ends);
    Ok(size)
}

// Answers from a filled table of a word of n symbols, writes the ends where there is a factorization
// and room for them, and clears the row of previous boundaries.
pub fn finish(n: usize, ends: &mut [u32], work: &mut [u32]) -> Result<u32, Refusal>
    requires { Readable n work.old }
    ensures result_value { counted_view result ≡ handed_outcome (get_or work.old n 0) (length ends.old) }
    ensures ends_after { ends.new ≡ handed_ends n work.old ends.old }
    ensures work_after { work.new ≡ cleared_row n work.old }
{
    let answer = hand_out(work, n, ends);
    let row = n + 1;
    let two = row + row;
    work[row..two].fill(0);
    answer
}

// The best factorization of a word within the limit into repetitions. Refusals: 8, 9, 2, 7.
pub fn best(
    w: Word,
    edition: Edition,
    choice: u32,
    ends: &mut [u32],
    work: &mut [u32],
) -> Result<u32, Refusal>
    requires { length (symbols w) ≤ limit }
    ensures result_value { counted_view result ≡ chosen_outcome (repetition? held_period (turns_in edition)) (symbols w.entry) choice ends.old work.old }
    ensures ends_after { ends.new ≡ chosen_ends (repetition? held_period (turns_in edition)) (symbols w.entry) choice ends.old work.old }
    ensures work_after { work.new ≡ chosen_work (repetition? held_period (turns_in edition)) (symbols w.entry) choice work.old }
{
    let choice = Choice::try_from(choice)?;
    if work.len() < factors::ROWS * (w.len() + 1) {
        return Err(Refusal::ShortTable);
    }
    fill(w, edition, choice, work);
    finish(w.len(), ends, work)
}

// Whether a word is a block.
// Kept: `block_by` of the judge's clause is over the rule, which a closure would not have.
// Inlined, so that a loop over the blocks has the test of its rule and of one width in it.
#[inline(always)]
fn is_block(w: Word, rule: Rule) -> bool
    ensures { result ≡ block_by rule (symbols w.entry) }
{
    match rule {
        Rule::Repetition(edition) => w.block_unit(edition) != 0,
        Rule::Square => w.is_square(),
    }
}

// The judge of a split of a word within the limit: accepted, with the number of blocks, exactly when
// the ends are those of a factorization. Refusals: for each end in turn 3, 4; then 5.
// Inlined, so that each call has the loop of its rule and of one width alone.
#[inline(always)]
pub fn judge(w: Word, rule: Rule, ends: &[u32]) -> Result<u32, Refusal>
    requires { length (symbols w) ≤ limit }
    ensures { counted_view result ≡ piece_verdict (block_by rule) (symbols w.entry) ends.now }
{
    let n = w.len();
    let mut before: usize = 0;
    for (k, end) in ends.iter().enumerate() {
        let end = *end as usize;
        let number = (k + 1) as u32;
        if factors::bad_end(before, end, n) {
            return Err(Refusal::BadEnd(number));
        }
        if !is_block(w.part(before, end), rule) {
            return Err(Refusal::NotBlock(number));
        }
        before = end;
    }
    if before != n {
        return Err(Refusal::Unfinished);
    }
    Ok(ends.len() as u32)
}
