// For the library's own crates: the caller shows what the function requires.
ghost use Rattle.std.specs.Prelude.{◌≡◌, ◌*◌, ◌≤◌, length, take};
ghost use Rattle.runs.specs.Table.{stride, records};
ghost use Rattle.finder.specs.Find.{record_limit};

use crate::RECORDS;
use runs::Record;

// The records of a flat table.
// Kept: its clause is over the array and the count, and without a heap the array has one length.
pub fn held(table: &[u32], count: usize) -> [Record; RECORDS]
    requires { (count ≤ record_limit) × (stride * count ≤ length table.now) }
    ensures { take count result ≡ records count table.now }
{
    let mut held = [Record {
        first: 0,
        last: 0,
        period: 0,
        root: 0,
    }; RECORDS];
    for i in 0..count {
        held[i] = runs::inner::row(table, i);
    }
    held
}
