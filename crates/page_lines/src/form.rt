// The form of the last column of a line, which shows the symbols of a unit.
// The hexadecimal digits of each symbol, and how many symbols of a unit are shown at most.
// Kept: that those that are shown have room in the column (`Fits`) is no ghost field: some claims of a line
// are of every form, also of one that does not fit.
#[derive(Clone, Copy, Debug, PartialEq, Eq)]
pub struct Form {
    pub digits: usize,
    pub shown: usize,
}
