// For this crate's calls and the library's own crates: a word of either width.
ghost use Rattle.std.specs.Prelude.{◌≡◌};
ghost use Rattle.answers.specs.Outcome.{counted_view};
ghost use Rattle.periods.specs.Width.{symbols};
ghost use Rattle.repetitions.specs.BestSplit.{best_outcome, best_ends_table, best_work, BestMeaning};
ghost use Rattle.repetitions.specs.Judge.{split_outcome, SplitMeaning};

use answers::Refusal;
use factorizer::Rule;
use periods::{Edition, Word};

// Best split.
pub fn best(
    w: Word,
    edition: u32,
    choice: u32,
    ends: &mut [u32],
    work: &mut [u32],
) -> Result<u32, Refusal>
    ensures result_value { counted_view result ≡ best_outcome (symbols w.entry) edition choice ends.old work.old }
    ensures ends_after { ends.new ≡ best_ends_table (symbols w.entry) edition choice ends.old work.old }
    ensures work_after { work.new ≡ best_work (symbols w.entry) edition choice work.old }
    ensures best_meaning { BestMeaning (symbols w.entry) edition choice ends.old work.old (counted_view result) ends.new work.new }
{
    if answers::LIMIT < w.len() {
        return Err(Refusal::TooLong);
    }
    let edition = Edition::try_from(edition)?;
    factorizer::inner::best(w, edition, choice, ends, work)
}

// Judge a split.
// Inlined, as the judge that it calls.
#[inline(always)]
pub fn judge(w: Word, edition: u32, ends: &[u32]) -> Result<u32, Refusal>
    ensures result_value { counted_view result ≡ split_outcome (symbols w.entry) edition ends.now }
    ensures split_meaning { SplitMeaning (symbols w.entry) edition ends.now (counted_view result) }
{
    if answers::LIMIT < w.len() {
        return Err(Refusal::TooLong);
    }
    let edition = Edition::try_from(edition)?;
    factorizer::inner::judge(w, Rule::Repetition(edition), ends)
}
