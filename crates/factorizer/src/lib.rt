// The best factorization of a word into repetitions; and what best split and best squares share: the
// answer from a filled table, and the judge of a factorization into either kind of blocks.
#![tactic(auto)]

ghost use Rattle.std.specs.Prelude.{◌≡◌};
ghost use Rattle.factorizer.specs.Rule.{rule_of};

pub mod inner;

use periods::Edition;

// What the judge takes for a block: a repetition of an edition, or a square.
#[derive(Clone, Copy, Debug, PartialEq, Eq)]
pub enum Rule {
    Repetition(Edition),
    Square,
}

// The rule for the blocks of an edition, by its number. A number that names no edition, which the calls
// refuse, counts as edition 2.
pub fn rule_of(edition: u32) -> Rule
    ensures { result ≡ rule_of edition }
{
    match edition {
        periods::FIRST_EDITION => Rule::Repetition(Edition::First),
        _ => Rule::Repetition(Edition::Second),
    }
}
