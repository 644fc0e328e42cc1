// Parts of a word, their periods, squares, the editions, and the part call.
#![tactic(auto)]

ghost use Rattle.std.specs.Prelude.{◌≡◌, length};
ghost use Rattle.periods.specs.Edition.{turns_of};
ghost use Rattle.periods.specs.Part.{part_view, part_outcome, part_table, PartMeaning};

mod edition;
pub mod inner;
mod symbols;
mod word;

use answers::Refusal;
pub use edition::Edition;
pub use word::{Symbol, Word};

// Edition 1 of the winder's controller, which the old winders have.
pub const FIRST_EDITION: u32 = 1;

// Edition 2, which the new one has.
pub const SECOND_EDITION: u32 = 2;

// The whole turns that a repetition (block) of edition 1 has at least.
pub const FIRST_TURNS: usize = 2;

// The same of edition 2.
pub const SECOND_TURNS: usize = 3;

// The longest unit of a repetition (block), in both editions: what unit memory holds.
pub const UNIT_MEMORY: usize = 256;

// How often the half of a square stands in it.
pub const TWICE: usize = 2;

// What the part call says of a part: document 01's unit, turns, rest, and block or not.
#[derive(Clone, Copy, Debug, PartialEq, Eq)]
pub struct Description {
    pub period: u32,
    pub exponent: u32,
    pub remainder: u32,
    pub repetition: bool,
}

// The whole turns that a repetition (block) has at least, by the number of an edition, as Edition::turns. A
// number that names no edition, which the calls refuse, has those of edition 2.
pub fn turns(edition: u32) -> usize
    ensures { result ≡ turns_of edition }
{
    match edition {
        FIRST_EDITION => FIRST_TURNS,
        _ => SECOND_TURNS,
    }
}

// The part call: unit, turns, rest, and block or not, of the symbols at the positions first to
// last, counted from 1; the edition decides about the block alone. Writes the unit of every leading
// part of that part but the empty one, place i for its first i symbols, and keeps the other places;
// the unit answered is the last one written. Refusals: 1, 12, 6, 7. Time linear in the part's
// length.
pub fn part<S: Symbol>(
    w: &[S],
    edition: u32,
    first: u32,
    last: u32,
    units: &mut [u32],
) -> Result<Description, Refusal>
    ensures answer { part_view result ≡ part_outcome (S.numbers w.now) edition first last (length units.old) }
    ensures written { units.new ≡ part_table (S.numbers w.now) edition first last units.old }
    ensures meaning { PartMeaning (S.numbers w.now) edition first last units.old (part_view result) units.new }
{
    inner::part(S::word(w), edition, first, last, units)
}
