// The table of all runs of a word, found by halves: the runs of both halves of a part, then those that
// cross its middle.
#![tactic(auto)]

pub mod inner;
mod node;
mod scan;

// The rows of the finder's scratch, each with a place for every boundary of the word.
pub const ROWS: usize = 4;

// Parts of at most so many symbols are not halved.
const LEAF: usize = 16;

// Words of at most so many symbols get local arrays of this size,
pub const SHORT: usize = 64;

// those of at most so many arrays of this size, and others arrays of the limit's.
pub const MIDDLE: usize = 4096;

// The scratch of the finder for words of each of these lengths.
const SHORT_SCRATCH: usize = ROWS * (SHORT + 1);

const MIDDLE_SCRATCH: usize = ROWS * (MIDDLE + 1);

const LONG_SCRATCH: usize = ROWS * (answers::LIMIT + 1);
