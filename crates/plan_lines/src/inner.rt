// For the two calls of plans: the caller shows what each function requires.
ghost use Rattle.std.specs.Prelude.{◌∷◌, ◌++◌, ◌≡◌, ◌≤◌, ◌<◌, ◌+◌, ◌-◌, ◌^◌, T, length, drop};
ghost use Rattle.std.proofs.lemmas.List.Edits.{sets};
ghost use Rattle.decimals.specs.Decimal.{comma, digits, digits?, field};
ghost use Rattle.plan_lines.specs.Line.{prefix_of, widest, fields, line, greatest, Small, number_at, field?, ends?, ends_in, bytes_for, place_of_length, place_of_count, place_of_end};
ghost use Rattle.plan_lines.specs.Kinds.{is_long, width_in};

use crate::{Kind, LENGTH_PLACE};
use decimals::{COMMA, LINE_END};

// The bytes besides digits of a line with no ends.
const FRAME: usize = 7;

// Where the count of ends stands, in a line with so many digits a number.
pub fn count_place(width: usize) -> usize
    requires { width ≤ widest }
    ensures { result ≡ place_of_count width }
{
    LENGTH_PLACE + width + 1
}

// The bytes of a line with k ends; end number k + 1 stands at that place.
pub fn bytes_for(width: usize, k: usize) -> usize
    requires { bytes_for width k < 2 ^ 63 }
    ensures { result ≡ bytes_for width k }
{
    2 * width + FRAME + (width + 1) * k
}

// Writes the bytes that a line of a kind begins with.
fn write_prefix(kind: Kind, out: &mut [u8])
    requires { place_of_length ≤ length out.old }
    ensures { out.new ≡ sets out.old 0 (prefix_of (is_long kind)) }
{
    out[..LENGTH_PLACE].copy_from_slice(&kind.prefix());
}

// Writes a comma and the digits of a number, the digits from place at on.
fn write_field(kind: Kind, out: &mut [u8], at: usize, x: u32)
    requires { (1 ≤ at) × (at + width_in kind ≤ length out.old) × (x ≤ greatest (width_in kind)) }
    ensures { out.new ≡ sets out.old (at - 1) (comma ∷ digits (width_in kind) x) }
{
    out[at - 1] = COMMA;
    decimals::inner::write(out, at, kind.width(), x);
}

// Writes the ends, each after a comma, at their places of a line.
fn write_ends(kind: Kind, ends: &[u32], out: &mut [u8])
    requires { (bytes_for (width_in kind) (length ends.now) ≤ length out.old) × Small (width_in kind) ends.now }
    ensures { out.new ≡ sets out.old (place_of_end (width_in kind) 0 - 1) (fields (width_in kind) ends.now) }
{
    for (k, end) in ends.iter().enumerate() {
        write_field(kind, out, kind.bytes_for(k), *end);
    }
}

// Writes the line of n and ends, of a kind, to the front of the bytes.
pub fn write_line(kind: Kind, n: u32, ends: &[u32], out: &mut [u8])
    requires { (bytes_for (width_in kind) (length ends.now) ≤ length out.old) × Small (width_in kind) (n ∷ length ends.now ∷ ends.now) }
    ensures { out.new ≡ sets out.old 0 (line (is_long kind) n ends.now) }
{
    let count = ends.len();
    write_prefix(kind, out);
    decimals::inner::write(out, LENGTH_PLACE, kind.width(), n);
    write_field(kind, out, kind.count_place(), count as u32);
    write_ends(kind, ends, out);
    out[kind.bytes_for(count) - 1] = LINE_END;
}

// The number at a place where so many digits stand.
pub fn number(s: &[u8], at: usize, width: usize) -> u32
    requires { (at + width ≤ length s.now) × (width ≤ widest) × T (digits? (field s.now at width)) }
    ensures { result ≡ number_at width s.now at }
{
    decimals::inner::read(s, at, width).unwrap()
}

// Whether a comma stands before a place and the digits of a number from it on.
pub(crate) fn field_at(kind: Kind, s: &[u8], at: usize) -> bool
    requires { (1 ≤ at) × (at + width_in kind ≤ length s.now) }
    ensures { result ≡ field? (width_in kind) s.now at }
{
    s[at - 1] == COMMA && decimals::inner::read(s, at, kind.width()).is_some()
}

// Whether so many ends stand at their places, each after a comma.
pub(crate) fn ends_at(kind: Kind, s: &[u8], count: usize) -> bool
    requires { bytes_for (width_in kind) count ≤ length s.now }
    ensures { result ≡ ends? (width_in kind) s.now count }
{
    for k in 0..count {
        if !field_at(kind, s, kind.bytes_for(k)) {
            return false;
        }
    }
    true
}

// End number k + 1 of a line.
pub fn end(kind: Kind, s: &[u8], k: usize) -> u32
    requires { (place_of_end (width_in kind) k + width_in kind ≤ length s.now) × T (field? (width_in kind) s.now (place_of_end (width_in kind) k)) }
    ensures { result ≡ number_at (width_in kind) s.now (place_of_end (width_in kind) k) }
{
    kind.number(s, kind.bytes_for(k))
}

// Writes the ends that stand in a line to the front of a table.
pub fn read_ends(s: &[u8], width: usize, count: usize, table: &mut [u32])
    requires { (bytes_for width count ≤ length s.now) × (width ≤ widest) × T (ends? width s.now count) × (count ≤ length table.old) }
    ensures { table.new ≡ ends_in width s.now count ++ drop count table.old }
{
    for k in 0..count {
        table[k] = number(s, bytes_for(width, k), width);
    }
}

// The same by a kind of line, for the digits of its numbers.
// Kept: the functions above are told the digits, since their clauses are over any number of them.
impl Kind {
    pub fn count_place(self) -> usize
        ensures { result ≡ place_of_count (width_in self) }
    {
        count_place(self.width())
    }

    pub fn bytes_for(self, k: usize) -> usize
        requires { bytes_for (width_in self) k < 2 ^ 63 }
        ensures { result ≡ bytes_for (width_in self) k }
    {
        bytes_for(self.width(), k)
    }

    pub fn number(self, s: &[u8], at: usize) -> u32
        requires { (at + width_in self ≤ length s.now) × T (digits? (field s.now at (width_in self))) }
        ensures { result ≡ number_at (width_in self) s.now at }
    {
        number(s, at, self.width())
    }

    pub fn read_ends(self, s: &[u8], count: usize, table: &mut [u32])
        requires { (bytes_for (width_in self) count ≤ length s.now) × T (ends? (width_in self) s.now count) × (count ≤ length table.old) }
        ensures { table.new ≡ ends_in (width_in self) s.now count ++ drop count table.old }
    {
        read_ends(s, self.width(), count, table)
    }
}
