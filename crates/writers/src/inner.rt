// For the library's own crates: the caller shows what each function requires. Every writer stores from
// place at on, as far as there are bytes, and gives the place after what it wrote.
// Kept: a cursor that holds the lent bytes needs a clause on them in every contract, as in `halves`.
ghost use Rattle.std.specs.Prelude.{◌≡◌, ◌∷◌, ◌≤◌, ◌<◌, ◌+◌, ◌^◌, length, set};
ghost use Rattle.std.proofs.lemmas.List.Edits.{sets};
ghost use Rattle.decimals.specs.Decimal.{comma, plain};
ghost use Rattle.writers.specs.Line.{line};

use decimals::{COMMA, LINE_END, MOST_DIGITS};

// Stores a byte where there is a place for it.
fn put_byte(out: &mut [u8], at: usize, b: u8) -> usize
    requires { at < 2 ^ 32 }
    ensures value { result ≡ at + 1 }
    ensures out_after { out.new ≡ set out.old at b }
{
    // Kept: tried with `get_mut`; after it the proof knows no element.
    if at < out.len() {
        out[at] = b;
    }
    at + 1
}

// Stores bytes.
pub fn put_text(out: &mut [u8], at: usize, s: &[u8]) -> usize
    requires { (at < 2 ^ 31) × (length s.now < 2 ^ 31) }
    ensures value { result ≡ at + length s.now }
    ensures out_after { out.new ≡ sets out.old at s.now }
{
    for (i, b) in s.iter().enumerate() {
        put_byte(out, at + i, *b);
    }
    at + s.len()
}

// Stores a comma and a number with no leading zeros.
fn put_field(out: &mut [u8], at: usize, x: u32) -> usize
    requires { at < 2 ^ 30 }
    ensures value { result ≡ at + length (comma ∷ plain x) }
    ensures out_after { out.new ≡ sets out.old at (comma ∷ plain x) }
{
    let mut digits = [0u8; MOST_DIGITS];
    let k = decimals::inner::count(x);
    decimals::inner::write(&mut digits, 0, k, x);
    let next = put_byte(out, at, COMMA);
    put_text(out, next, &digits[..k])
}

// Stores a line: a name, and numbers with a comma before each.
pub fn put_line(out: &mut [u8], at: usize, name: &[u8], xs: &[u32]) -> usize
    requires { (at < 2 ^ 29) × (length name.now ≤ 6) × (length xs.now ≤ 7) }
    ensures value { result ≡ at + length (line name.now xs.now) }
    ensures out_after { out.new ≡ sets out.old at (line name.now xs.now) }
{
    let mut next = put_text(out, at, name);
    for x in xs {
        next = put_field(out, next, *x);
    }
    put_byte(out, next, LINE_END)
}
