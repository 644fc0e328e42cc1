// The documents' numbered refusals, which are the errors of the calls' results, and the limit on the
// length of a word.
#![tactic(auto)]

ghost use Rattle.std.specs.Prelude.{◌≡◌};
ghost use Rattle.answers.specs.Outcome.{code_of};

// The longest word (sequence) that the library takes.
pub const LIMIT: usize = 70000;

#[derive(Clone, Copy, Debug, PartialEq, Eq)]
pub enum Refusal {
    // 1: the word is longer than the limit
    TooLong,
    // 2: no factorization (split) exists
    NoFactorization,
    // 3, with the index of the end: an end not above the one before it, or above the length
    BadEnd(u32),
    // 4, with the index of the end: the piece up to this end is not a block: not a repetition, not
    // one of the run that a path names, or not a square
    NotBlock(u32),
    // 5: the last end is not the length
    Unfinished,
    // 6: positions outside the word, or in the wrong order
    BadPosition,
    // 7: fewer output places than the answer needs
    TooFewPlaces,
    // 8: a choice other than 1 or 2
    BadChoice,
    // 9: a working table that is too short
    ShortTable,
    // 10: a path with an odd count of numbers
    OddPath,
    // 11: bytes that are not one plan line
    NotPlan,
    // 12: an edition other than 1 or 2
    BadEdition,
}

// What a refusal returns, as document 01 says: its number and its index.
#[derive(Clone, Copy, Debug, PartialEq, Eq)]
pub struct Code(pub u32, pub u32);

impl From<Refusal> for Code {
    ghost from_gives = { λ r c. c ≡ code_of r };

    fn from(r: Refusal) -> Code {
        match r {
            Refusal::TooLong => Code(1, 0),
            Refusal::NoFactorization => Code(2, 0),
            Refusal::BadEnd(i) => Code(3, i),
            Refusal::NotBlock(i) => Code(4, i),
            Refusal::Unfinished => Code(5, 0),
            Refusal::BadPosition => Code(6, 0),
            Refusal::TooFewPlaces => Code(7, 0),
            Refusal::BadChoice => Code(8, 0),
            Refusal::ShortTable => Code(9, 0),
            Refusal::OddPath => Code(10, 0),
            Refusal::NotPlan => Code(11, 0),
            Refusal::BadEdition => Code(12, 0),
        }
    }
}
