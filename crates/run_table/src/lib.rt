// The runs call. What it means stands in `runs`, which is below the finder of runs.
#![tactic(auto)]

ghost use Rattle.std.specs.Prelude.{◌≡◌, length};
ghost use Rattle.answers.specs.Outcome.{counted_view};
ghost use Rattle.runs.specs.Calls.{runs_outcome, runs_table, RunsMeaning};

mod inner;

use answers::Refusal;
use periods::Symbol;

// The runs call: writes first, last, unit and root of each run, in the order of their numbers, and
// gives their count. Refusals: 1, 7; with 4 × n places for n symbols 7 never comes. Time: n log n, one
// more logarithm at most on powers. 1,235 KiB of stack for the longest words, 75 for up to 4,096
// symbols, 3 for up to 64.
pub fn runs<S: Symbol>(w: &[S], table: &mut [u32]) -> Result<u32, Refusal>
    ensures answer { counted_view result ≡ runs_outcome (S.numbers w.now) (length table.old) }
    ensures written { table.new ≡ runs_table (S.numbers w.now) table.old }
    ensures meaning { RunsMeaning (S.numbers w.now) table.old (counted_view result) table.new }
{
    inner::runs(S::word(w), table)
}
