// For the library's own crates: the caller shows what each function requires.
ghost use Rattle.std.specs.Prelude.{[], ◌∷◌, ◌≡◌, ◌≤◌, ◌<◌, ◌+◌, ◌%◌, ◌^◌, length, set};
ghost use Rattle.std.proofs.lemmas.List.Edits.{sets};
ghost use Rattle.decimals.specs.Decimal.{most_digits, decimal_byte, digits, digit_count, field, made};
ghost use Rattle.decimals.specs.Read.{number_view, number_in};

use crate::{MOST_DIGITS, ZERO};

// The powers of ten that a number is divided by.
const POWERS: [u32; MOST_DIGITS] = [
    1, 10, 100, 1000, 10000, 100000, 1000000, 10000000, 100000000, 1000000000,
];

// How many digits a number has, with no leading zeros.
pub fn count(x: u32) -> usize
    ensures { result ≡ digit_count 9 x }
{
    let mut k: usize = 1;
    let mut rest = x / 10;
    // Kept: no index runs; the number is divided until nothing is left.
    while 0 < rest {
        rest /= 10;
        k += 1;
    }
    k
}

// Ten to the power k.
fn power(k: usize) -> u32
    requires { k < most_digits }
    ensures { result ≡ 10 ^ k }
{
    POWERS[k]
}

// Makes digit i + 1 of a number's width digits, after the higher ones. The digits made so far, read as
// a number, are then the whole number divided by the power of ten of this digit, rounded down.
fn make_digit(out: &mut [u8], at: usize, width: usize, i: usize, x: u32)
    requires { (at + width ≤ length out.old) × (width ≤ most_digits) × (i < width) × (number_in (field out.old at i) ≡ made width i x ∷ []) }
    ensures reads { number_in (field out.new at (i + 1)) ≡ made width (i + 1) x ∷ [] }
    ensures stored { out.new ≡ set out.old (at + i) (decimal_byte (made width (i + 1) x % 10)) }
{
    let made = x / power(width - 1 - i);
    out[at + i] = ZERO + (made % 10) as u8;
}

// Writes the width digits of a number from place at on, the highest first.
pub fn write(out: &mut [u8], at: usize, width: usize, x: u32)
    requires { (at + width ≤ length out.old) × (width ≤ most_digits) × (x < 10 ^ width) }
    ensures { out.new ≡ sets out.old at (digits width x) }
{
    for i in 0..width {
        make_digit(out, at, width, i, x);
    }
}

// Reads the number that the width bytes from place at on spell; none where they are not all digits.
// Kept: its clause is over the place and the width.
pub fn read(s: &[u8], at: usize, width: usize) -> Option<u32>
    requires { (at + width ≤ length s.now) × (width ≤ 9) }
    ensures { number_view result ≡ number_in (field s.now at width) }
{
    let bytes = &s[at..at + width];
    let mut x: u32 = 0;
    for b in bytes {
        if !b.is_ascii_digit() {
            return None;
        }
        x = x * 10 + u32::from(*b - ZERO);
    }
    Some(x)
}
