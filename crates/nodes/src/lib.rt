// White nodes of the repetition graph: the nodes call.
#![tactic(auto)]

ghost use Rattle.std.specs.Prelude.{◌≡◌, length};
ghost use Rattle.answers.specs.Outcome.{counted_view};
ghost use Rattle.nodes.specs.Calls.{nodes_outcome, nodes_table, NodesMeaning};

mod inner;

use answers::Refusal;
use periods::Symbol;

// The nodes call: writes the numbers of the runs with a white node at a position from 1, rising,
// and gives their count. A run whose unit memory does not hold has none. Refusals: 1, 12, 6, 7; with
// n places for n symbols 7 never comes. Time: that of the runs call.
// 1,509 KiB of stack for the longest words, 92 for up to 4,096 symbols, 3 for up to 64.
pub fn nodes<S: Symbol>(
    w: &[S],
    edition: u32,
    position: u32,
    table: &mut [u32],
) -> Result<u32, Refusal>
    ensures answer { counted_view result ≡ nodes_outcome (S.numbers w.now) edition position (length table.old) }
    ensures written { table.new ≡ nodes_table (S.numbers w.now) edition position table.old }
    ensures meaning { NodesMeaning (S.numbers w.now) edition position table.old (counted_view result) table.new }
{
    inner::nodes(S::word(w), edition, position, table)
}
