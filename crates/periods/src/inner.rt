// The part call, of a word of either width: best split takes this one.
ghost use Rattle.std.specs.Prelude.{◌≡◌, length};
ghost use Rattle.periods.specs.Width.{symbols};
ghost use Rattle.periods.specs.Part.{part_view, part_outcome, part_table, PartMeaning};

use super::{Description, Edition, Word};
use answers::Refusal;

// Inlined, so that each call goes over the symbols of one width.
#[inline(always)]
pub fn part(
    w: Word,
    edition: u32,
    first: u32,
    last: u32,
    units: &mut [u32],
) -> Result<Description, Refusal>
    ensures result_value { part_view result ≡ part_outcome (symbols w.entry) edition first last (length units.old) }
    ensures units_after { units.new ≡ part_table (symbols w.entry) edition first last units.old }
    ensures part_meaning { PartMeaning (symbols w.entry) edition first last units.old (part_view result) units.new }
{
    let n = w.len();
    if answers::LIMIT < n {
        return Err(Refusal::TooLong);
    }
    let edition = Edition::try_from(edition)?;
    let end = last as usize;
    if first < 1 || n < end || last < first {
        return Err(Refusal::BadPosition);
    }
    let start = first as usize - 1;
    let len = end - start;
    if units.len() < len {
        return Err(Refusal::TooFewPlaces);
    }
    let unit = w.part(start, end).units(units);
    Ok(Description {
        period: unit as u32,
        exponent: (len / unit) as u32,
        remainder: (len % unit) as u32,
        repetition: edition.is_block(len, unit),
    })
}
