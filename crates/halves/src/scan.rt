// The runs of a short part: for each period in turn, every stretch of symbols that agree with those a
// period later.
ghost use Rattle.std.specs.Prelude.{◌+◌, ◌≤◌, length};
ghost use Rattle.halves.specs.Scratch.{ends_row};
ghost use Rattle.halves.specs.Found.{Below, Solved};
ghost use Rattle.halves.specs.Kept.{Roomy, Advances};

use runs::Listing;

// The runs with period p between lo and hi, when those with smaller periods were found.
fn scan_period(
    w: &[u16],
    lo: usize,
    hi: usize,
    p: usize,
    listing: Listing,
    scratch: &mut [u32],
    table: &mut [u32],
)
    requires { (1 ≤ p) × (lo + p ≤ hi) × (hi ≤ length w.now) × Below w.now lo hi p (ends_row w.now scratch.old) × Roomy w.now scratch.old }
    ensures keeps { Advances listing w.now scratch.old table.old scratch.new table.new }
    ensures below { Below w.now lo hi (p + 1) (ends_row w.now scratch.new) }
{
    let end = hi - p;
    let mut start = lo;
    for at in lo..end {
        if w[at] != w[at + p] {
            crate::node::attempt(w, start, p, 0, at - start, listing, scratch, table);
            start = at + 1;
        }
    }
    crate::node::attempt(w, start, p, 0, end - start, listing, scratch, table);
}

// All runs between lo and hi. Time quadratic in the part.
pub(crate) fn scan(
    w: &[u16],
    lo: usize,
    hi: usize,
    listing: Listing,
    scratch: &mut [u32],
    table: &mut [u32],
)
    requires { (lo ≤ hi) × (hi ≤ length w.now) × Roomy w.now scratch.old }
    ensures keeps { Advances listing w.now scratch.old table.old scratch.new table.new }
    ensures solved { Solved w.now lo hi (ends_row w.now scratch.new) }
{
    let half = (hi - lo) / 2;
    for p in 1..half + 1 {
        scan_period(w, lo, hi, p, listing, scratch, table);
    }
}
