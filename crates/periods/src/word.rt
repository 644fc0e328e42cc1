// A word (sequence) of either width. The calls take a slice of any symbols, the functions below them a
// Word.
ghost use Rattle.std.specs.Prelude.{◌≡◌, ◌≤◌, ◌<◌, ◌^◌, ℕ, List, Bool, true, false, refl, length, get_or, take, eqb};
ghost use Rattle.std.proofs.Common.{rules};
ghost use Rattle.std.proofs.lemmas.Grind.{common_steps};
ghost use Rattle.periods.specs.Period.{part, smallest_period, units_table, block_unit};
ghost use Rattle.periods.specs.Square.{square?};
ghost use Rattle.periods.specs.Edition.{turns_in};
ghost use Rattle.periods.specs.Width.{symbols, wide?};

use super::{Edition, symbols};

// A symbol (pass): a byte or a 16-bit code. In every contract it is a number.
pub trait Symbol: Copy + PartialEq {
    // the numbers of a word's symbols
    ghost numbers: { List Self → List ℕ };

    // whether these are 16-bit codes
    ghost wide: { Bool };

    // The word of the symbols.
    fn word<'a>(s: &'a [Self]) -> Word<'a>
        ensures numbers { symbols result ≡ numbers s.now }
        ensures width { wide? result ≡ wide };

    // a number for each symbol
    ghost as_many: { (s : List Self) → length (numbers s) ≡ length s };

    // those of the first so many symbols are the first so many numbers
    ghost cut: { (s : List Self) (k : ℕ) → numbers (take k s) ≡ take k (numbers s) };

    // two symbols of a word are equal exactly where their numbers are
    ghost told_apart: { (s : List Self) (i k : ℕ) (x y : Self) → i < length s → k < length s → x ≡ get_or s i x → y ≡ get_or s k y → Self.eq x y ≡ eqb (get_or (numbers s) i 0) (get_or (numbers s) k 0) };
}

impl Symbol for u8 {
    ghost numbers = { λ s. s };

    ghost wide = { false };

    ghost as_many = { λ s. refl };

    ghost cut = { λ s k. refl };

    ghost told_apart = { Prim.search (rules, common_steps) };

    fn word<'a>(s: &'a [u8]) -> Word<'a> {
        Word::Bytes(s)
    }
}

impl Symbol for u16 {
    ghost numbers = { λ s. s };

    ghost wide = { true };

    ghost as_many = { λ s. refl };

    ghost cut = { λ s k. refl };

    ghost told_apart = { Prim.search (rules, common_steps) };

    fn word<'a>(s: &'a [u16]) -> Word<'a> {
        Word::Codes(s)
    }
}

#[derive(Clone, Copy)]
pub enum Word<'a> {
    Bytes(&'a [u8]),
    Codes(&'a [u16]),
}

impl<'a> Word<'a> {
    pub fn len(self) -> usize
        ensures { result ≡ length (symbols self.entry) }
    {
        match self {
            Word::Bytes(s) => s.len(),
            Word::Codes(s) => s.len(),
        }
    }

    // Whether the symbols at two places are equal.
    pub fn same(self, i: usize, k: usize) -> bool
        requires { (i < length (symbols self)) × (k < length (symbols self)) }
        ensures { result ≡ eqb (get_or (symbols self.entry) i 0) (get_or (symbols self.entry) k 0) }
    {
        match self {
            Word::Bytes(s) => s[i] == s[k],
            Word::Codes(s) => s[i] == s[k],
        }
    }

    // The part between two boundaries.
    pub fn part(self, start: usize, end: usize) -> Word<'a>
        requires { (start ≤ end) × (end ≤ length (symbols self)) }
        ensures { symbols result ≡ part (symbols self.entry) start end }
    {
        match self {
            Word::Bytes(s) => Word::Bytes(&s[start..end]),
            Word::Codes(s) => Word::Codes(&s[start..end]),
        }
    }

    // The unit of the word, 0 for an empty one; writes the unit of every non-empty prefix, one place
    // for each length from 1; the places after these stay. Time linear in the word's length; no stack.
    pub fn units(self, table: &mut [u32]) -> usize
        requires { (length (symbols self) ≤ length table.old) × (length (symbols self) < 2 ^ 32) }
        ensures unit { result ≡ smallest_period (symbols self.entry) }
        ensures written { table.new ≡ units_table (symbols self.entry) table.old }
    {
        match self {
            Word::Bytes(s) => symbols::units(s, table),
            Word::Codes(s) => symbols::units(s, table),
        }
    }

    // Kept: the clause gives 0 where there is no block, as `block_unit` of specs does.
    // The unit of the word if it is a repetition (block) of an edition, else 0. It needs no table, for
    // callers that have none to lend; units is linear. No unit is tried that memory does not hold or the
    // word does not have so often: at most UNIT_MEMORY × length comparisons; no stack.
    // Inlined: for a part of a few symbols a call would take as long as the answer.
    #[inline(always)]
    pub fn block_unit(self, edition: Edition) -> usize
        ensures { result ≡ block_unit (turns_in edition) (symbols self.entry) }
    {
        match self {
            Word::Bytes(s) => symbols::block_unit(s, edition),
            Word::Codes(s) => symbols::block_unit(s, edition),
        }
    }

    // Whether the word is a square: a non-empty word twice over. Time linear in its length; no stack.
    pub fn is_square(self) -> bool
        ensures { result ≡ square? (symbols self.entry) }
    {
        match self {
            Word::Bytes(s) => symbols::is_square(s),
            Word::Codes(s) => symbols::is_square(s),
        }
    }
}
