// Square factorizations: best squares and judge squares.
#![tactic(auto)]

ghost use Rattle.std.specs.Prelude.{◌≡◌};
ghost use Rattle.answers.specs.Outcome.{counted_view};
ghost use Rattle.squares.specs.BestSquares.{squares_outcome, squares_ends, squares_work, SquaresMeaning};
ghost use Rattle.squares.specs.JudgeSquares.{squares_judged_outcome, SquaresJudgedMeaning};

mod inner;

use answers::Refusal;
use periods::Symbol;

// Best squares: best split with squares for blocks, and no edition. Choice 1 is fewest, 2 is most.
// Gives the size, and writes the ends of the factorization of that size whose last square is
// longest, then the one before it, and so on. The working table afterwards holds the best size of
// each prefix length. Refusals: 1, 8, 9, 2, 7; with n/2 places for the ends of n symbols 7 never
// comes. Time: that of the runs, and a step for each run and each boundary in it. 1,235
// KiB of stack for the longest words, 76 for up to 4,096 symbols, 3 for up to 64; or 500 bytes and 48
// a square of the split, where that is more.
pub fn best_squares<S: Symbol>(
    w: &[S],
    choice: u32,
    ends: &mut [u32],
    work: &mut [u32],
) -> Result<u32, Refusal>
    ensures answer { counted_view result ≡ squares_outcome (S.numbers w.now) choice ends.old work.old }
    ensures written { ends.new ≡ squares_ends (S.numbers w.now) choice ends.old work.old }
    ensures worked { work.new ≡ squares_work (S.numbers w.now) choice work.old }
    ensures meaning { SquaresMeaning (S.numbers w.now) choice ends.old work.old (counted_view result) ends.new work.new }
{
    inner::best(S::word(w), choice, ends, work)
}

// Judge squares: accepted, with the number of squares, exactly when the ends are those of a
// factorization into squares. Refusals: 1; then for each end in turn 3, 4; then 5. Time linear in
// the word's length; no stack.
pub fn judge_squares<S: Symbol>(w: &[S], ends: &[u32]) -> Result<u32, Refusal>
    ensures answer { counted_view result ≡ squares_judged_outcome (S.numbers w.now) ends.now }
    ensures meaning { SquaresJudgedMeaning (S.numbers w.now) ends.now (counted_view result) }
{
    inner::judge(S::word(w), ends)
}
