// Repetition factorizations: best split and judge a split.
#![tactic(auto)]

ghost use Rattle.std.specs.Prelude.{◌≡◌};
ghost use Rattle.answers.specs.Outcome.{counted_view};
ghost use Rattle.repetitions.specs.BestSplit.{best_outcome, best_ends_table, best_work, BestMeaning};
ghost use Rattle.repetitions.specs.Judge.{split_outcome, SplitMeaning};

pub mod inner;

use answers::Refusal;
use periods::Symbol;

// Best split: choice 1 is fewest, 2 is most. Gives the size, and writes the ends of the
// factorization of that size whose last block is longest, then the one before it, and so on. The
// working table afterwards holds the best size of each prefix length. Refusals: 1, 12, 8, 9, 2, 7;
// with n/2 places for the ends of n symbols 7 never comes. Time: at most the product of the word's
// length and a window, which has 512 symbols in edition 1 and 768 in edition 2. 500 bytes of stack,
// and 48 a block.
pub fn best_split<S: Symbol>(
    w: &[S],
    edition: u32,
    choice: u32,
    ends: &mut [u32],
    work: &mut [u32],
) -> Result<u32, Refusal>
    ensures answer { counted_view result ≡ best_outcome (S.numbers w.now) edition choice ends.old work.old }
    ensures written { ends.new ≡ best_ends_table (S.numbers w.now) edition choice ends.old work.old }
    ensures worked { work.new ≡ best_work (S.numbers w.now) edition choice work.old }
    ensures meaning { BestMeaning (S.numbers w.now) edition choice ends.old work.old (counted_view result) ends.new work.new }
{
    inner::best(S::word(w), edition, choice, ends, work)
}

// Judge a split: accepted, with the number of blocks, exactly when the ends are those of a
// factorization. Refusals: 1, 12; then for each end in turn 3, 4; then 5. Time: at most 256 × the
// word's length.
pub fn judge_split<S: Symbol>(w: &[S], edition: u32, ends: &[u32]) -> Result<u32, Refusal>
    ensures answer { counted_view result ≡ split_outcome (S.numbers w.now) edition ends.now }
    ensures meaning { SplitMeaning (S.numbers w.now) edition ends.now (counted_view result) }
{
    inner::judge(S::word(w), edition, ends)
}
