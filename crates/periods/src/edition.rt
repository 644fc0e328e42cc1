// The editions of the winder's controller: calls are told a number, the functions below them an edition.
// Kept: the calls take the number, since their clauses answer for every number.
ghost use Rattle.std.specs.Prelude.{◌≡◌};
ghost use Rattle.periods.specs.Edition.{edition_of, turns_in};
ghost use Rattle.periods.specs.Period.{block_of?};

use super::{FIRST_EDITION, FIRST_TURNS, SECOND_EDITION, SECOND_TURNS, UNIT_MEMORY};
use answers::Refusal;

#[derive(Clone, Copy, Debug, PartialEq, Eq)]
pub enum Edition {
    First,
    Second,
}

// Any other number is refusal 12.
impl TryFrom<u32> for Edition {
    type Error = Refusal;

    ghost try_from_gives = { λ edition r. r ≡ edition_of edition };

    fn try_from(edition: u32) -> Result<Edition, Refusal> {
        match edition {
            FIRST_EDITION => Ok(Edition::First),
            SECOND_EDITION => Ok(Edition::Second),
            _ => Err(Refusal::BadEdition),
        }
    }
}

impl Edition {
    // The whole turns that a repetition (block) has at least.
    pub fn turns(self) -> usize
        ensures { result ≡ turns_in self }
    {
        match self {
            Edition::First => FIRST_TURNS,
            Edition::Second => SECOND_TURNS,
        }
    }

    // Whether a part of this length with this unit is a repetition (block).
    pub fn is_block(self, len: usize, unit: usize) -> bool
        ensures { result ≡ block_of? (turns_in self) len unit }
    {
        unit <= UNIT_MEMORY && self.turns() * unit <= len
    }
}
