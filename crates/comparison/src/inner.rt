// For this crate's calls: both words measured over the one table, then compared.
ghost use Rattle.std.specs.Prelude.{◌≡◌, length, get_or};
ghost use Rattle.periods.specs.Period.{held_period};
ghost use Rattle.periods.specs.Width.{symbols};
ghost use Rattle.periods.specs.Edition.{turns_in};
ghost use Rattle.factors.specs.Factorization.{smallest};
ghost use Rattle.factors.specs.Table.{filled};
ghost use Rattle.factorizer.specs.Fill.{Workable, Readable};
ghost use Rattle.repetitions.specs.Block.{block?};
ghost use Rattle.comparison.specs.Calls.{compared, which_work};
ghost use Rattle.comparison.specs.Measure.{fewest_size, first_end, end_in, chosen_by};

use super::Chosen;
use answers::Refusal;
use factors::{Choice, NONE};
use periods::{Edition, Word};

// What is known of a word: the size of its smallest factorization, NONE where it has none, and the
// end of the first block.
#[derive(Clone, Copy, Debug, PartialEq, Eq)]
struct Measured {
    size: u32,
    end: u32,
}

// Reads both off a filled table.
fn read_off(work: &[u32], n: usize) -> Measured
    requires { Readable n work.now }
    ensures { (result.size ≡ get_or work.now n 0) × (result.end ≡ end_in n work.now) }
{
    let size = work[n];
    if size == NONE {
        return Measured { size, end: 0 };
    }
    let row = n + 1;
    let two = row + row;
    let end = factors::inner::first_end(&work[row..two], n as u32, size);
    Measured { size, end }
}

// Fills the table for a word and reads it off.
fn measure(w: Word, edition: Edition, work: &mut [u32]) -> Measured
    requires { Workable (symbols w) work.old }
    ensures size_value { (result.size ≡ fewest_size (turns_in edition) (symbols w.entry)) × (result.end ≡ first_end (turns_in edition) (symbols w.entry)) }
    ensures work_after { work.new ≡ filled smallest (block? held_period (turns_in edition) (symbols w.entry)) (length (symbols w.entry)) work.old }
{
    factorizer::inner::fill(w, edition, Choice::Fewest, work);
    read_off(work, w.len())
}

// The word with the smaller size; no size is above NONE.
fn choose(a: Measured, b: Measured) -> Result<Chosen, Refusal>
    ensures { result ≡ chosen_by a.size a.end b.size b.end }
{
    if b.size < a.size {
        return Ok(Chosen::Second(b.end));
    }
    if a.size == NONE {
        return Err(Refusal::NoFactorization);
    }
    Ok(Chosen::First(a.end))
}

// The word to wind first, and the length of its first block.
pub(crate) fn compare(a: Word, b: Word, edition: u32, work: &mut [u32]) -> Result<Chosen, Refusal>
    ensures value { result ≡ compared (symbols a.entry) (symbols b.entry) edition (length work.old) }
    ensures work_after { work.new ≡ which_work (symbols a.entry) (symbols b.entry) edition work.old }
{
    let n = a.len().max(b.len());
    if answers::LIMIT < n {
        return Err(Refusal::TooLong);
    }
    let edition = Edition::try_from(edition)?;
    let places = factors::ROWS * (n + 1);
    if work.len() < places {
        return Err(Refusal::ShortTable);
    }
    let first = measure(a, edition, work);
    let second = measure(b, edition, work);
    work[..places].fill(0);
    choose(first, second)
}
