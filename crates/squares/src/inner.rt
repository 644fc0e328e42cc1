// For this crate's calls: the caller shows what each function requires.
ghost use Rattle.std.specs.Prelude.{◌≡◌, ◌*◌, ◌≤◌, ◌<◌, ◌^◌, length};
ghost use Rattle.answers.specs.Outcome.{counted_view};
ghost use Rattle.periods.specs.Square.{square?};
ghost use Rattle.periods.specs.Width.{symbols};
ghost use Rattle.runs.specs.Table.{stride};
ghost use Rattle.factors.specs.Choice.{choice_in};
ghost use Rattle.factors.specs.Table.{filled};
ghost use Rattle.factorizer.specs.Piece.{piece?};
ghost use Rattle.factorizer.specs.Fill.{Workable};
ghost use Rattle.squares.specs.BestSquares.{squares_outcome, squares_ends, squares_work, SquaresMeaning};
ghost use Rattle.squares.specs.JudgeSquares.{squares_judged_outcome, SquaresJudgedMeaning};

use answers::Refusal;
use factorizer::Rule;
use factors::Choice;
use periods::Word;
use runs::{Listing, STRIDE};

// The tables for the runs of words of each of the finder's lengths.
const SHORT_TABLE: usize = STRIDE * halves::SHORT;

const MIDDLE_TABLE: usize = STRIDE * halves::MIDDLE;

const LONG_TABLE: usize = STRIDE * answers::LIMIT;

// Fills the working table for squares, over a table of the runs. The finder of runs works in the four
// rows before they are filled. A function for each size of that table, and not inlined: so a short word
// does not touch the pages of long ones.
#[inline(never)]
fn fill_with<const ROOM: usize>(w: Word, choice: Choice, work: &mut [u32])
    requires { Workable (symbols w) work.old × (stride * length (symbols w) ≤ ROOM) × (ROOM < 2 ^ 32) }
    ensures { work.new ≡ filled (choice_in choice) (piece? square? (symbols w.entry)) (length (symbols w.entry)) work.old }
{
    let four = factors::ROWS * (w.len() + 1);
    let mut table = [0u32; ROOM];
    let count = halves::inner::list(w, Listing::Records, &mut work[..four], &mut table);
    slots::inner::fill(w, &table, count, choice, work);
}

// The same with a table by the word's length.
fn fill(w: Word, choice: Choice, work: &mut [u32])
    requires { Workable (symbols w) work.old }
    ensures { work.new ≡ filled (choice_in choice) (piece? square? (symbols w.entry)) (length (symbols w.entry)) work.old }
{
    let n = w.len();
    if n <= halves::SHORT {
        fill_with::<SHORT_TABLE>(w, choice, work);
    } else if n <= halves::MIDDLE {
        fill_with::<MIDDLE_TABLE>(w, choice, work);
    } else {
        fill_with::<LONG_TABLE>(w, choice, work);
    }
}

// Best squares.
pub(crate) fn best(w: Word, choice: u32, ends: &mut [u32], work: &mut [u32]) -> Result<u32, Refusal>
    ensures result_value { counted_view result ≡ squares_outcome (symbols w.entry) choice ends.old work.old }
    ensures ends_after { ends.new ≡ squares_ends (symbols w.entry) choice ends.old work.old }
    ensures work_after { work.new ≡ squares_work (symbols w.entry) choice work.old }
    ensures squares_meaning { SquaresMeaning (symbols w.entry) choice ends.old work.old (counted_view result) ends.new work.new }
{
    let n = w.len();
    if answers::LIMIT < n {
        return Err(Refusal::TooLong);
    }
    let choice = Choice::try_from(choice)?;
    if work.len() < factors::ROWS * (n + 1) {
        return Err(Refusal::ShortTable);
    }
    fill(w, choice, work);
    factorizer::inner::finish(n, ends, work)
}

// Judge squares.
#[tactic(auto, unfolding(crate::specs::JudgeSquares::squares_judged_outcome))]
pub(crate) fn judge(w: Word, ends: &[u32]) -> Result<u32, Refusal>
    ensures result_value { counted_view result ≡ squares_judged_outcome (symbols w.entry) ends.now }
    ensures squares_judged_meaning { SquaresJudgedMeaning (symbols w.entry) ends.now (counted_view result) }
{
    if answers::LIMIT < w.len() {
        return Err(Refusal::TooLong);
    }
    factorizer::inner::judge(w, Rule::Square, ends)
}
