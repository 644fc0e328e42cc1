// For this crate's calls.
ghost use Rattle.std.specs.Prelude.{◌≡◌, length};
ghost use Rattle.answers.specs.Outcome.{counted_view};
ghost use Rattle.periods.specs.Width.{symbols};
ghost use Rattle.runs.specs.Calls.{runs_outcome, runs_table, RunsMeaning};

use answers::Refusal;
use periods::Word;
use runs::{Listing, STRIDE};

// The runs call, of a word of either width.
pub(crate) fn runs(w: Word, table: &mut [u32]) -> Result<u32, Refusal>
    ensures result_value { counted_view result ≡ runs_outcome (symbols w.entry) (length table.old) }
    ensures table_after { table.new ≡ runs_table (symbols w.entry) table.old }
    ensures runs_meaning { RunsMeaning (symbols w.entry) table.old (counted_view result) table.new }
{
    if answers::LIMIT < w.len() {
        return Err(Refusal::TooLong);
    }
    let mut none = [0u32; 0];
    let count = halves::inner::list(w, Listing::Records, &mut none, table);
    if table.len() < STRIDE * count {
        return Err(Refusal::TooFewPlaces);
    }
    Ok(count as u32)
}
