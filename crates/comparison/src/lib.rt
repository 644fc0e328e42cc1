// Which of two words to wind first: the one with fewer blocks in its smallest factorization, and the
// first block of that one.
#![tactic(auto)]

ghost use Rattle.std.specs.Prelude.{◌≡◌, length};
ghost use Rattle.answers.specs.Outcome.{counted_view};
ghost use Rattle.comparison.specs.Calls.{number_in, first_in, compared, which_outcome, which_work, WhichMeaning, first_which, first_block, start_in, BlockMeaning};

mod inner;

use answers::Refusal;
use periods::Symbol;

// What which first answers.
pub const FIRST: u32 = 1;

pub const SECOND: u32 = 2;

// The word to wind first, with the length of its first block.
#[derive(Clone, Copy, Debug, PartialEq, Eq)]
pub enum Chosen {
    First(u32),
    Second(u32),
}

impl Chosen {
    // The number of the word.
    pub fn number(self) -> u32
        ensures { result ≡ number_in self }
    {
        match self {
            Chosen::First(_) => FIRST,
            Chosen::Second(_) => SECOND,
        }
    }

    // The length of its first block.
    pub fn length(self) -> u32
        ensures { result ≡ first_in self }
    {
        match self {
            Chosen::First(length) | Chosen::Second(length) => length,
        }
    }
}

// The word to wind first, and the length of its first block: what which first and first block go by.
pub fn compare<S: Symbol>(
    a: &[S],
    b: &[S],
    edition: u32,
    work: &mut [u32],
) -> Result<Chosen, Refusal>
    ensures answer { result ≡ compared (S.numbers a.now) (S.numbers b.now) edition (length work.old) }
    ensures worked { work.new ≡ which_work (S.numbers a.now) (S.numbers b.now) edition work.old }
{
    inner::compare(S::word(a), S::word(b), edition, work)
}

// Which first: 1 or 2 for the word that has fewer blocks in its fewest split. The first wins a tie;
// if only one can be split it is that one. With n the longer length, the first 4 × (n + 1) places of
// the working table are 0 afterwards, also after 2. Refusals: 1 for either, 12, 9 for the longer, 2.
// Time: that of two fewest splits; under 1 KiB of stack.
pub fn which_first<S: Symbol>(
    a: &[S],
    b: &[S],
    edition: u32,
    work: &mut [u32],
) -> Result<u32, Refusal>
    ensures answer { counted_view result ≡ which_outcome (S.numbers a.now) (S.numbers b.now) edition (length work.old) }
    ensures worked { work.new ≡ which_work (S.numbers a.now) (S.numbers b.now) edition work.old }
    ensures meaning { WhichMeaning (S.numbers a.now) (S.numbers b.now) edition work.old (counted_view result) work.new }
{
    let chosen = compare(a, b, edition, work)?;
    Ok(chosen.number())
}

// First block: of the word that which first answers, the first block of its fewest split, as a part
// of the caller's own symbols; an empty part where which first refuses. The working table is left as
// which first leaves it, and time and stack are the same.
pub fn first_block<'a, S: Symbol>(a: &'a [S], b: &'a [S], edition: u32, work: &mut [u32]) -> &'a [S]
    ensures part { S.numbers result.now ≡ first_block (S.numbers a.now) (S.numbers b.now) edition (length work.old) }
    ensures place { result.ref_ptr ≡ start_in a.entry.ref_ptr b.entry.ref_ptr (first_which (S.numbers a.now) (S.numbers b.now) edition (length work.old)) }
    ensures worked { work.new ≡ which_work (S.numbers a.now) (S.numbers b.now) edition work.old }
    ensures meaning { BlockMeaning (S.numbers a.now) (S.numbers b.now) edition work.old (S.numbers result.now) work.new }
{
    match compare(a, b, edition, work) {
        Ok(Chosen::First(length)) => &a[0..length as usize],
        Ok(Chosen::Second(length)) => &b[0..length as usize],
        Err(_) => &a[0..0],
    }
}
