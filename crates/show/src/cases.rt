// Tables of cases, each in one text: a bar ends a row, and a comma stands before each number of a
// row.
ghost use Rattle.std.specs.Prelude.{◌≡◌, ◌≤◌, min, length, drop};
ghost use Rattle.std.specs.Fn.{CalledAt};
ghost use Rattle.std.specs.List.{FoldsTo};
ghost use Rattle.std.proofs.lemmas.List.Edits.{sets};
ghost use Rattle.show.specs.Cases.{place_of, word_of, rows_in, value_from, values_in};

use decimals::{COMMA, ZERO};

// The byte at the end of a row.
pub const BAR: u8 = 124;

// The first place of a byte from a place on, or the length.
pub fn place(s: &[u8], from: usize, b: u8) -> usize
    ensures value { result ≡ place_of s.now from b }
    ensures upper_bound { (result ≤ length s.now) × (min from (length s.now) ≤ result) }
{
    for i in from..s.len() {
        if s[i] == b {
            return i;
        }
    }
    s.len()
}

// The bytes before the first comma.
pub fn word(row: &[u8]) -> &[u8]
    ensures { result.now ≡ word_of row.now }
{
    &row[..place(row, 0, COMMA)]
}

// Calls the closure on each row, in order.
pub fn rows<F: FnMut(&[u8])>(table: &[u8], mut visit: F)
    requires { F.IsAlwaysCallable visit }
    ensures { (last : F) × FoldsTo (λ p x q. CalledAt F.FnMut p x tt q) visit (rows_in table.now) last }
{
    let mut at = 0;
    // Kept: two ends move, a range would be no plainer.
    while at < table.len() {
        let end = place(table, at, BAR);
        visit(&table[at..end]);
        at = end + 1;
    }
}

// The number that the digits from a place on spell, below 2³².
pub fn value(s: &[u8], from: usize) -> u32
    ensures { result ≡ value_from 0 (drop from s.now) }
{
    let mut x: u32 = 0;
    for i in from..s.len() {
        let b @ b'0'..=b'9' = s[i] else {
            return x;
        };
        x = ((u64::from(x) * 10 + u64::from(b - ZERO)) % 4294967296) as u32;
    }
    x
}

// Stores the number after each comma, as far as there are places, and gives how many are stored.
pub fn values(s: &[u8], t: &mut [u32]) -> usize
    ensures value { result ≡ min (length (values_in s.now)) (length t.old) }
    ensures t_after { t.new ≡ sets t.old 0 (values_in s.now) }
{
    let mut k = 0;
    for (i, b) in s.iter().enumerate() {
        if *b != COMMA {
            continue;
        }
        if t.len() <= k {
            return k;
        }
        t[k] = value(s, i + 1);
        k += 1;
    }
    k
}
