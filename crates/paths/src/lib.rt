// The repetition graph: path of a split and judge a path.
#![tactic(auto)]

ghost use Rattle.std.specs.Prelude.{◌≡◌, length};
ghost use Rattle.answers.specs.Outcome.{counted_view};
ghost use Rattle.paths.specs.Calls.{path_outcome, path_table, PathMeaning, path_judged_outcome, PathJudgedMeaning};

mod inner;
mod look_up;

use answers::Refusal;
pub use look_up::{Located, LookUp, list_keys};
use periods::Symbol;

// Path of a split: writes the run number of each block, and gives the number of blocks. With the
// ends these are the encoding of the one path that goes with the split. Refusals: those of
// judge a split, then 7; with n/2 places for n symbols 7 never comes. Time: that of the runs call, and
// of a judge. 1,510 KiB of stack for the longest words, 93 for up to 4,096 symbols, 4 for up to 64.
pub fn path_of_split<S: Symbol>(
    w: &[S],
    edition: u32,
    ends: &[u32],
    table: &mut [u32],
) -> Result<u32, Refusal>
    ensures answer { counted_view result ≡ path_outcome (S.numbers w.now) edition ends.now (length table.old) }
    ensures written { table.new ≡ path_table (S.numbers w.now) edition ends.now table.old }
    ensures meaning { PathMeaning (S.numbers w.now) edition ends.now table.old (counted_view result) table.new }
{
    inner::path(S::word(w), edition, ends, table)
}

// Judge a path, for each block a run number and then an end: accepted, with the number of blocks,
// exactly when the numbers encode a path of the word's length in the repetition graph. Refusals: 1,
// 12, 10, then as for a split. Time: that of the runs call, and of a judge. Stack
// as above.
pub fn judge_path<S: Symbol>(w: &[S], edition: u32, numbers: &[u32]) -> Result<u32, Refusal>
    ensures answer { counted_view result ≡ path_judged_outcome (S.numbers w.now) edition numbers.now }
    ensures meaning { PathJudgedMeaning (S.numbers w.now) edition numbers.now (counted_view result) }
{
    inner::judge(S::word(w), edition, numbers)
}
