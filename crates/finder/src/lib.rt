// The finder over a lent slice of run records.
#![tactic(auto)]

ghost use Rattle.std.specs.Prelude.{◌≡◌};
ghost use Rattle.finder.specs.Find.{enclosing?, find_run};

pub mod inner;

use runs::Record;

// How many records the bench program holds.
pub const RECORDS: usize = 1024;

// Whether the bounds lo to hi enclose first to last, and the periods are the same.
// Kept: the definition `enclosing?` of its clause is over these six numbers.
pub fn encloses(lo: u32, hi: u32, p: u32, first: u32, last: u32, period: u32) -> bool
    ensures { result ≡ enclosing? lo hi p first last period }
{
    lo <= first && last <= hi && p == period
}

// The index of the first record that encloses first to last and has the period; the count of
// records where there is none.
pub fn find_run(runs: &[Record], first: u32, last: u32, period: u32) -> usize
    ensures { result ≡ find_run runs.now first last period }
{
    for (i, r) in runs.iter().enumerate() {
        if encloses(r.first, r.last, r.period, first, last, period) {
            return i;
        }
    }
    runs.len()
}
