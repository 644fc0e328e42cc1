// The runs that cross the middle of a part. Rows of the scratch: common prefixes, common suffixes, the
// greatest end found for each boundary, and the number of the next record for each boundary.
ghost use Rattle.std.specs.Prelude.{◌≡◌, ◌+◌, ◌-◌, ◌*◌, ◌≤◌, ◌<◌, ◌^◌, length, set};
ghost use Rattle.std.proofs.lemmas.List.Edits.{sets};
ghost use Rattle.answers.specs.Outcome.{limit};
ghost use Rattle.periods.specs.Period.{part, SmallestPeriod};
ghost use Rattle.runs.specs.Table.{left?, right?, stride, numbers_of};
ghost use Rattle.runs.specs.Listing.{mark_of, entry_of, stride_of};
ghost use Rattle.halves.specs.Scratch.{Scratch, prefix_row, suffix_row, ends_row};
ghost use Rattle.halves.specs.Found.{Periodic, Tables, Ready, New, Tried, Met, Solved};
ghost use Rattle.halves.specs.Kept.{new_record, Roomy, Halved, Crossed, Advances, SamePrefixes, SameRecords};

use runs::{Listing, Record, STRIDE};

// Whether a part with period p after boundary a cannot be lengthened to the left.
fn left_maximal(w: &[u16], a: usize, p: usize) -> bool
    requires { a + p ≤ length w.now }
    ensures { result ≡ left? w.now a p }
{
    a == 0 || w[a - 1] != w[a - 1 + p]
}

// Nor, up to boundary b, to the right.
fn right_maximal(w: &[u16], b: usize, p: usize) -> bool
    requires { (p ≤ b) × (b ≤ length w.now) }
    ensures { result ≡ right? w.now b p }
{
    b == w.len() || w[b] != w[b - p]
}

// Stores the record of the run with period p between the boundaries a and b as number i of the table
// from 0, as far as the table has the places. Where it has none, no root is looked for.
fn put_record(w: &[u16], a: usize, b: usize, p: usize, table: &mut [u32], i: usize)
    requires { (i < 2 ^ 32) × (length w.now ≤ limit) × (b ≤ length w.now) × (a + 2 * p ≤ length w.now) × SmallestPeriod (part w.now a (a + 2 * p)) p }
    ensures { table.new ≡ sets table.old (stride * i) (numbers_of (new_record w.now a b p)) }
{
    if table.len() <= STRIDE * i {
        return;
    }
    let run = Record {
        first: (a + 1) as u32,
        last: b as u32,
        period: p as u32,
        root: runs::inner::root(w, a, p) as u32,
    };
    runs::inner::put(table, i, run);
}

// Stores a mark as number i of the table from 0: whether the run has a white node at position x. Its
// root does not matter.
fn put_mark(a: usize, b: usize, p: usize, turns: u32, x: u32, table: &mut [u32], i: usize)
    requires { (a < limit) × (b ≤ limit) × (p ≤ limit) }
    ensures { table.new ≡ set table.old i (mark_of turns x (a + 1) b p) }
{
    let run = Record {
        first: (a + 1) as u32,
        last: b as u32,
        period: p as u32,
        root: 0,
    };
    let mark = u32::from(runs::inner::is_node(run, turns, x));
    runs::inner::store(table, i, mark);
}

// Stores what is listed of the run with period p between the boundaries a and b as number i of the
// table from 0, as far as the table has the places.
// Kept: `entry_of` of the clauses is over the listing, which a closure would not have.
fn put_run(w: &[u16], a: usize, b: usize, p: usize, listing: Listing, table: &mut [u32], i: usize)
    requires { (i < 2 ^ 32) × (length w.now ≤ limit) × (b ≤ length w.now) × (a + 2 * p ≤ length w.now) × SmallestPeriod (part w.now a (a + 2 * p)) p }
    ensures { table.new ≡ sets table.old (stride_of listing * i) (entry_of listing (new_record w.now a b p)) }
{
    match listing {
        Listing::Records => put_record(w, a, b, p, table, i),
        Listing::Keys => runs::inner::store(table, i, runs::inner::key(a, p)),
        Listing::Marks(turns, x) => put_mark(a, b, p, turns, x, table, i),
    }
}

// Records the run with period p between the boundaries a and b, which ends later than all that were
// found after a.
#[tactic(auto, using(crate::proofs::Added::new_start, crate::proofs::Added::next_small))]
fn add_run(
    w: &[u16],
    a: usize,
    b: usize,
    p: usize,
    listing: Listing,
    scratch: &mut [u32],
    table: &mut [u32],
)
    requires { Roomy w.now scratch.old × New w.now a b p (ends_row w.now scratch.old) }
    ensures keeps { Advances listing w.now scratch.old table.old scratch.new table.new }
    ensures same { SamePrefixes w.now scratch.old scratch.new }
    ensures tried { Tried w.now a b p (ends_row w.now scratch.new) }
{
    let row = w.len() + 1;
    let end = 2 * row + a;
    let next = 3 * row + a;
    let at = scratch[next];
    put_run(w, a, b, p, listing, table, at as usize);
    scratch[end] = b as u32;
    scratch[next] = at + 1;
}

// Records the part with period p from `left` before boundary c to `right` after c + p, if it is a run
// that was not found yet: then it ends later than all that were found after its start.
pub(crate) fn attempt(
    w: &[u16],
    c: usize,
    p: usize,
    left: usize,
    right: usize,
    listing: Listing,
    scratch: &mut [u32],
    table: &mut [u32],
)
    requires { (left ≤ c) × Periodic w.now (c - left) (c + p + right) p × Ready w.now (c - left) (c + p + right) p (ends_row w.now scratch.old) × Roomy w.now scratch.old }
    ensures keeps { Advances listing w.now scratch.old table.old scratch.new table.new }
    ensures same { SamePrefixes w.now scratch.old scratch.new }
    ensures tried { Tried w.now (c - left) (c + p + right) p (ends_row w.now scratch.new) }
{
    if left + right < p {
        return;
    }
    let a = c - left;
    let b = c + p + right;
    let end = 2 * (w.len() + 1) + a;
    if b <= scratch[end] as usize {
        return;
    }
    if left_maximal(w, a, p) && right_maximal(w, b, p) {
        add_run(w, a, b, p, listing, scratch, table);
    }
}

// Tries the longest part of period p around the p symbols after boundary m, between lo and hi.
fn above(
    w: &[u16],
    lo: usize,
    m: usize,
    hi: usize,
    p: usize,
    listing: Listing,
    scratch: &mut [u32],
    table: &mut [u32],
)
    requires { Crossed w.now lo m hi p scratch.old }
    ensures keeps { Advances listing w.now scratch.old table.old scratch.new table.new }
    ensures same { SamePrefixes w.now scratch.old scratch.new }
    ensures met { Met w.now lo hi (m + p) p (ends_row w.now scratch.new) }
{
    if hi - m < p {
        return;
    }
    let before = w.len() + 1 + (hi - m - p);
    let after = m - lo + p;
    let left = scratch[before] as usize;
    let right = scratch[after] as usize;
    attempt(w, m, p, left, right, listing, scratch, table);
}

// The same around the p symbols before it.
fn below(
    w: &[u16],
    lo: usize,
    m: usize,
    hi: usize,
    p: usize,
    listing: Listing,
    scratch: &mut [u32],
    table: &mut [u32],
)
    requires { Crossed w.now lo m hi p scratch.old }
    ensures keeps { Advances listing w.now scratch.old table.old scratch.new table.new }
    ensures same { SamePrefixes w.now scratch.old scratch.new }
    ensures met { Met w.now lo hi m p (ends_row w.now scratch.new) }
{
    if m - lo < p {
        return;
    }
    let before = w.len() + 1 + (hi - m + p);
    let after = m - lo - p;
    let left = scratch[before] as usize;
    let right = scratch[after] as usize;
    let c = m - p;
    attempt(w, c, p, left, right, listing, scratch, table);
}

// Fills the rows of common prefixes and suffixes of the part between lo and hi, with what follows
// boundary m and with what precedes it.
fn fill_tables(w: &[u16], lo: usize, m: usize, hi: usize, scratch: &mut [u32])
    requires { (lo ≤ m) × (m ≤ hi) × (hi ≤ length w.now) × Scratch w.now scratch.old }
    ensures tables { Tables w.now lo m hi (prefix_row w.now scratch.new) (suffix_row w.now scratch.new) }
    ensures same { SameRecords w.now scratch.old scratch.new }
{
    let row = w.len() + 1;
    let two = row + row;
    prefixes::inner::matches(&w[lo..hi], false, m - lo, &mut scratch[0..row]);
    prefixes::inner::matches(&w[lo..hi], true, hi - m, &mut scratch[row..two]);
}

// The runs between lo and hi that cross boundary m, when those on both sides of it were found.
pub(crate) fn node(
    w: &[u16],
    lo: usize,
    m: usize,
    hi: usize,
    listing: Listing,
    scratch: &mut [u32],
    table: &mut [u32],
)
    requires { Halved w.now lo m hi scratch.old }
    ensures keeps { Advances listing w.now scratch.old table.old scratch.new table.new }
    ensures solved { Solved w.now lo hi (ends_row w.now scratch.new) }
{
    fill_tables(w, lo, m, hi, scratch);
    let half = (hi - lo) / 2;
    for p in 1..half + 1 {
        above(w, lo, m, hi, p, listing, scratch, table);
        below(w, lo, m, hi, p, listing, scratch, table);
    }
}
