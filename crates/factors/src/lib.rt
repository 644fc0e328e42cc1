// What every factorizer and every judge shares: the choices, the working table of four rows of n + 1
// places each, and the test of an end.
#![tactic(auto)]

ghost use Rattle.std.specs.Prelude.{◌≡◌};
ghost use Rattle.factors.specs.Factorization.{choice_of, better};
ghost use Rattle.factors.specs.Choice.{Asked, choice_in, choice_named};
ghost use Rattle.factors.specs.Verdict.{bad_end?};

pub mod inner;

use answers::Refusal;

// Document 01's choices: the smallest factorization, or the largest.
pub const FEWEST: u32 = 1;

pub const MOST: u32 = 2;

// What stands for the size of a prefix that has no factorization.
pub const NONE: u32 = 4294967295;

// How many rows of n + 1 places a working table has.
pub const ROWS: usize = 4;

// The calls are told a number, the functions below them a choice.
// Kept: the calls take the number, since their clauses answer for every number.
#[derive(Clone, Copy, Debug, PartialEq, Eq)]
pub enum Choice {
    Fewest,
    Most,
}

// Any other number is refusal 8.
impl TryFrom<u32> for Choice {
    type Error = Refusal;

    ghost try_from_gives = { λ choice r. r ≡ choice_named choice };

    fn try_from(choice: u32) -> Result<Choice, Refusal> {
        match choice {
            FEWEST => Ok(Choice::Fewest),
            MOST => Ok(Choice::Most),
            _ => Err(Refusal::BadChoice),
        }
    }
}

impl Choice {
    // Whether a size is better than another.
    pub fn prefers(self, size: u32, known: u32) -> bool
        ensures { result ≡ better (choice_in self) size known }
    {
        // Branches, which a loop over one choice takes out of itself; a value of the match would be two
        // comparisons and a selection in each turn.
        match self {
            Choice::Fewest => {
                if size < known {
                    return true;
                }
            }
            Choice::Most => {
                if known < size {
                    return true;
                }
            }
        }
        false
    }
}

// What `offer` and what fills a working table are told: a choice, or the number of one. For them every
// number but 1 asks for the most, also one that the calls refuse.
pub trait AsChoice: Copy {
    // what it asks for
    ghost asked: { Self → Asked };

    fn choice(self) -> Choice
        ensures { choice_in result ≡ asked self };
}

impl AsChoice for Choice {
    ghost asked = { choice_in };

    fn choice(self) -> Choice {
        self
    }
}

impl AsChoice for u32 {
    ghost asked = { choice_of };

    fn choice(self) -> Choice {
        match self {
            FEWEST => Choice::Fewest,
            _ => Choice::Most,
        }
    }
}

// Whether an end is out of place (refusal 3): not above the one before it, or above n.
pub fn bad_end(before: usize, end: usize, n: usize) -> bool
    ensures { result ≡ bad_end? n before end }
{
    end <= before || n < end
}
