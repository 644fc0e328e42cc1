// Numbers in decimal: their digits made and read, in one function each.
// Kept: the clauses fix each byte, which those of `Display` and `parse` do not.
#![tactic(auto)]

pub mod inner;

// The digits that the greatest number has.
pub const MOST_DIGITS: usize = 10;

// The byte of the digit 0.
pub const ZERO: u8 = 48;

// The byte between numbers, and the byte at the end of a line.
pub const COMMA: u8 = 44;

pub const LINE_END: u8 = 10;
