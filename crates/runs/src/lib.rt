// Runs (maximal repetitions): their records and their table. What the runs call means stands here too;
// its code is in `run_table`, above the finder of runs.
#![tactic(auto)]

ghost use Rattle.std.specs.Prelude.{◌≡◌};
ghost use Rattle.runs.specs.Listing.{stride_of};

pub mod inner;

// The record of a run: document 01's first, last and unit, and document 02's root.
#[derive(Clone, Copy, Debug, PartialEq, Eq)]
pub struct Record {
    pub first: u32,
    pub last: u32,
    pub period: u32,
    pub root: u32,
}

// How many numbers the record of a run has in a table.
pub const STRIDE: usize = 4;

// What a table has of each run: its record; its key, by which it is looked up; or a mark, 1 where the run
// has a white node at a position and 0 elsewhere, by the turn number and the position.
#[derive(Clone, Copy, Debug, PartialEq, Eq)]
pub enum Listing {
    Records,
    Keys,
    // Kept: the clauses of a mark are over any turn number.
    Marks(u32, u32),
}

// A run's key is its first position times this, plus its unit where unit memory holds it.
pub const KEY_STEP: usize = periods::UNIT_MEMORY + 1;

// How many numbers a table has of each run.
pub fn stride(listing: Listing) -> usize
    ensures { result ≡ stride_of listing }
{
    match listing {
        Listing::Records => STRIDE,
        Listing::Keys | Listing::Marks(_, _) => 1,
    }
}
