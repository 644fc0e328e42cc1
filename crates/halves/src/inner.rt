// For the library's own crates: the caller shows what each function requires.
// Kept: w, listing, scratch and table go together; a struct of them was tried, and each method needed four
// more clauses, on the names of the lent tables and their lengths.
ghost use Rattle.std.specs.Prelude.{◌≡◌, ◌+◌, ◌*◌, ◌≤◌, ◌<◌, ◌^◌, length};
ghost use Rattle.std.proofs.lemmas.List.Edits.{sets};
ghost use Rattle.runs.specs.Table.{runs_of};
ghost use Rattle.runs.specs.Listing.{stride_of, flat_by};
ghost use Rattle.answers.specs.Outcome.{limit};
ghost use Rattle.periods.specs.Width.{symbols};
ghost use Rattle.halves.specs.Scratch.{Scratch, scratch_rows, ends_row, next_row, listed};
ghost use Rattle.halves.specs.Found.{Solved};
ghost use Rattle.halves.specs.Kept.{Starts, Roomy, Advances, sum_to, Summed};

use crate::{LEAF, LONG_SCRATCH, MIDDLE, MIDDLE_SCRATCH, ROWS, SHORT, SHORT_SCRATCH};
use periods::Word;
use runs::Listing;

// All runs between lo and hi. One level of stack for each halving.
fn solve(w: &[u16], lo: usize, hi: usize, listing: Listing, scratch: &mut [u32], table: &mut [u32])
    requires { (lo ≤ hi) × (hi ≤ length w.now) × Roomy w.now scratch.old }
    ensures keeps { Advances listing w.now scratch.old table.old scratch.new table.new }
    ensures solved { Solved w.now lo hi (ends_row w.now scratch.new) }
{
    if hi - lo <= LEAF {
        crate::scan::scan(w, lo, hi, listing, scratch, table);
        return;
    }
    let m = lo + (hi - lo) / 2;
    solve(w, lo, m, listing, scratch, table);
    solve(w, m, hi, listing, scratch, table);
    crate::node::node(w, lo, m, hi, listing, scratch, table);
}

// Each number becomes the sum of those before it; gives the sum of all.
fn starts(s: &mut [u32]) -> usize
    requires { sum_to s.old (length s.old) < 2 ^ 32 }
    ensures value { result ≡ sum_to s.old (length s.old) }
    ensures summed { Summed s.old s.new (length s.old) }
{
    let mut total: u32 = 0;
    for place in s.iter_mut() {
        let count = *place;
        *place = total;
        total += count;
    }
    total as usize
}

// The number of runs. The last row then has, for each boundary, the number from 0 of the first run
// after it. Nothing is listed.
fn count(w: &[u16], scratch: &mut [u32]) -> usize
    requires { Scratch w.now scratch.old }
    ensures value { result ≡ length (runs_of w.now) }
    ensures starts { Starts w.now (next_row w.now scratch.new) }
{
    let n = w.len();
    let two = 2 * (n + 1);
    let three = 3 * (n + 1);
    let four = 4 * (n + 1);
    scratch[two..four].fill(0);
    let mut none = [0u32; 0];
    solve(w, 0, n, Listing::Keys, scratch, &mut none);
    starts(&mut scratch[three..three + n])
}

// Writes what is listed of each run.
fn place(w: &[u16], listing: Listing, scratch: &mut [u32], table: &mut [u32])
    requires { Scratch w.now scratch.old × Starts w.now (next_row w.now scratch.old) × (stride_of listing * length (runs_of w.now) ≤ length table.old) }
    ensures { table.new ≡ sets table.old 0 (flat_by listing (runs_of w.now)) }
{
    let n = w.len();
    let two = 2 * (n + 1);
    let three = 3 * (n + 1);
    scratch[two..three].fill(0);
    solve(w, 0, n, listing, scratch, table);
}

// Lists the runs of a word of 16-bit symbols, in lent scratch.
fn list_in(w: &[u16], listing: Listing, scratch: &mut [u32], table: &mut [u32]) -> usize
    requires { Scratch w.now scratch.old }
    ensures value { result ≡ length (runs_of w.now) }
    ensures table_after { table.new ≡ listed listing w.now table.old }
{
    let total = count(w, scratch);
    if table.len() < runs::stride(listing) * total {
        return total;
    }
    place(w, listing, scratch, table);
    total
}

// The same in scratch of its own. A function for each size, and not inlined: so a short word does not
// touch the pages of long ones.
#[inline(never)]
fn list_with<const ROOM: usize>(w: &[u16], listing: Listing, table: &mut [u32]) -> usize
    requires { (length w.now ≤ limit) × (scratch_rows * (length w.now + 1) ≤ ROOM) × (ROOM < 2 ^ 32) }
    ensures value { result ≡ length (runs_of w.now) }
    ensures table_after { table.new ≡ listed listing w.now table.old }
{
    let mut scratch = [0u32; ROOM];
    list_in(w, listing, &mut scratch, table)
}

// Lists the runs of a word of 16-bit symbols, in the lent scratch if the word has room in it, and else in
// scratch by its length.
fn list_codes(w: &[u16], listing: Listing, scratch: &mut [u32], table: &mut [u32]) -> usize
    requires { length w.now ≤ limit }
    ensures value { result ≡ length (runs_of w.now) }
    ensures table_after { table.new ≡ listed listing w.now table.old }
{
    let n = w.len();
    if ROWS * (n + 1) <= scratch.len() {
        return list_in(w, listing, scratch, table);
    }
    if n <= SHORT {
        return list_with::<SHORT_SCRATCH>(w, listing, table);
    }
    if n <= MIDDLE {
        return list_with::<MIDDLE_SCRATCH>(w, listing, table);
    }
    list_with::<LONG_SCRATCH>(w, listing, table)
}

// The same of bytes, which are widened first.
#[inline(never)]
fn list_widened<const ROOM: usize>(
    bytes: &[u8],
    listing: Listing,
    scratch: &mut [u32],
    table: &mut [u32],
) -> usize
    requires { (length bytes.now ≤ limit) × (length bytes.now ≤ ROOM) × (ROOM < 2 ^ 32) }
    ensures value { result ≡ length (runs_of bytes.now) }
    ensures table_after { table.new ≡ listed listing bytes.now table.old }
{
    let n = bytes.len();
    let mut wide = [0u16; ROOM];
    widening::inner::widen(bytes, &mut wide);
    list_codes(&wide[..n], listing, scratch, table)
}

// Lists the runs of a word: writes what is listed of each run, if the table has places for all of them,
// and gives their count. What is left in the scratch is not said. Time: n log n, one more logarithm at
// most on powers.
pub fn list(w: Word, listing: Listing, scratch: &mut [u32], table: &mut [u32]) -> usize
    requires { length (symbols w) ≤ limit }
    ensures value { result ≡ length (runs_of (symbols w.entry)) }
    ensures table_after { table.new ≡ listed listing (symbols w.entry) table.old }
{
    match w {
        Word::Codes(s) => list_codes(s, listing, scratch, table),
        Word::Bytes(s) if s.len() <= SHORT => list_widened::<SHORT>(s, listing, scratch, table),
        Word::Bytes(s) if s.len() <= MIDDLE => list_widened::<MIDDLE>(s, listing, scratch, table),
        Word::Bytes(s) => list_widened::<{ answers::LIMIT }>(s, listing, scratch, table),
    }
}
