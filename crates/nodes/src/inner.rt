// For this crate's calls: the caller shows what each function requires.
ghost use Rattle.std.specs.Prelude.{◌≡◌, ◌≤◌, ◌<◌, ◌^◌, length};
ghost use Rattle.std.proofs.lemmas.List.Edits.{sets};
ghost use Rattle.answers.specs.Outcome.{counted_view, limit};
ghost use Rattle.periods.specs.Period.{held_period};
ghost use Rattle.periods.specs.Edition.{turns_in};
ghost use Rattle.periods.specs.Width.{symbols};
ghost use Rattle.nodes.specs.Calls.{nodes_outcome, nodes_table, NodesMeaning};
ghost use Rattle.nodes.specs.Node.{nodes_at};
ghost use Rattle.nodes.specs.Inner.{marked, listed_outcome, listed_table};

use answers::Refusal;
use periods::{Edition, Word};
use runs::Listing;

// Of the marks, writes the numbers from 1 of those that are set, as far as the table has places, and
// gives their count.
fn pick(marks: &[u32], out: &mut [u32]) -> usize
    requires { length marks.now ≤ limit }
    ensures value { result ≡ length (marked 0 marks.now) }
    ensures out_after { out.new ≡ sets out.old 0 (marked 0 marks.now) }
{
    let mut found: usize = 0;
    for (i, mark) in marks.iter().enumerate() {
        if *mark == 1 {
            runs::inner::store(out, found, (i + 1) as u32);
            found += 1;
        }
    }
    found
}

// The nodes call once its refusals 1, 12 and 6 are ruled out, over a mark of each run. A function for each
// size of the marks, and not inlined: so a short word does not touch the pages of long ones.
#[inline(never)]
#[tactic(auto, using(runs::proofs::Few::table_at_most))]
fn nodes_with<const ROOM: usize>(
    w: Word,
    edition: Edition,
    x: u32,
    table: &mut [u32],
) -> Result<u32, Refusal>
    requires { (length (symbols w) ≤ limit) × (length (symbols w) ≤ ROOM) × (ROOM < 2 ^ 32) }
    ensures result_value { counted_view result ≡ listed_outcome (nodes_at held_period (turns_in edition) (symbols w.entry) x) (length table.old) }
    ensures table_after { table.new ≡ listed_table (nodes_at held_period (turns_in edition) (symbols w.entry) x) table.old }
{
    let mut marks = [0u32; ROOM];
    let mut none = [0u32; 0];
    let listing = Listing::Marks(edition.turns() as u32, x);
    let count = halves::inner::list(w, listing, &mut none, &mut marks);
    let listed = &marks[..count];
    let found = pick(listed, &mut none);
    if table.len() < found {
        return Err(Refusal::TooFewPlaces);
    }
    pick(listed, table);
    Ok(found as u32)
}

// The nodes call.
pub(crate) fn nodes(w: Word, edition: u32, position: u32, table: &mut [u32]) -> Result<u32, Refusal>
    ensures result_value { counted_view result ≡ nodes_outcome (symbols w.entry) edition position (length table.old) }
    ensures table_after { table.new ≡ nodes_table (symbols w.entry) edition position table.old }
    ensures nodes_meaning { NodesMeaning (symbols w.entry) edition position table.old (counted_view result) table.new }
{
    let n = w.len();
    if answers::LIMIT < n {
        return Err(Refusal::TooLong);
    }
    let edition = Edition::try_from(edition)?;
    let place = position as usize;
    if place < 1 || n < place {
        return Err(Refusal::BadPosition);
    }
    if n <= halves::SHORT {
        return nodes_with::<{ halves::SHORT }>(w, edition, position, table);
    }
    if n <= halves::MIDDLE {
        return nodes_with::<{ halves::MIDDLE }>(w, edition, position, table);
    }
    nodes_with::<{ answers::LIMIT }>(w, edition, position, table)
}
