// For this crate's call: the caller shows what each function requires. The form of a page follows from the
// width of the word. The keys of runs go into a local array by the word's length, as in paths::inner.
ghost use Rattle.std.specs.Prelude.{◌≡◌, ◌≤◌, ◌<◌, ◌+◌, ◌*◌, ◌^◌, length};
ghost use Rattle.std.proofs.lemmas.List.Edits.{sets};
ghost use Rattle.answers.specs.Outcome.{limit, counted_view};
ghost use Rattle.periods.specs.Period.{part, smallest_period, held_period};
ghost use Rattle.periods.specs.Width.{symbols};
ghost use Rattle.runs.specs.Number.{run_number};
ghost use Rattle.repetitions.specs.Block.{Block};
ghost use Rattle.paths.specs.Walk.{Factored};
ghost use Rattle.page_lines.specs.Line.{line_bytes};
ghost use Rattle.pages.specs.Page.{form_in, page_line, page, page_outcome, page_table, PageMeaning};

use answers::Refusal;
use page_lines::LINE_BYTES;
use paths::{Located, LookUp};
use periods::{Edition, Word};

// Writes the line of block number k + 1, between two boundaries, by its unit and its run number.
fn write_block(w: Word, k: usize, before: usize, end: usize, found: Located, out: &mut [u8])
    requires k_le_before { (k ≤ before) × (length (symbols w) ≤ limit) × Block held_period 2 (symbols w) before end × (line_bytes * (k + 1) ≤ length out.old) }
    requires unit_value { (found.unit ≡ smallest_period (part (symbols w) before end)) × (found.number ≡ run_number (symbols w) before end) }
    ensures { out.new ≡ sets out.old (line_bytes * k) (page_line (form_in w.entry) (symbols w.entry) (k + 1) before end) }
{
    let numbers = runs::inner::block_numbers(k, before, end, found.unit as u32, found.number);
    let at = LINE_BYTES * k;
    let after = before + found.unit;
    match w {
        Word::Codes(codes) => {
            let form = page_lines::code_form();
            page_lines::inner::put_line(out, at, form, &numbers, &codes[before..after]);
        }
        Word::Bytes(bytes) => {
            let mut symbols = [0u16; periods::UNIT_MEMORY];
            widening::inner::widen(&bytes[before..after], &mut symbols);
            let form = page_lines::byte_form();
            page_lines::inner::put_line(out, at, form, &numbers, &symbols[..found.unit]);
        }
    }
}

// Writes the lines of the blocks of a factorization to the front of the bytes.
#[inline(never)]
fn lines_with<const ROOM: usize>(w: Word, ends: &[u32], out: &mut [u8])
    requires { Factored (symbols w) ends.now × (line_bytes * length ends.now ≤ length out.old) × (length (symbols w) ≤ ROOM) × (ROOM < 2 ^ 32) }
    ensures { out.new ≡ sets out.old 0 (page (form_in w.entry) (symbols w.entry) ends.now) }
{
    let mut keys = [0u32; ROOM];
    let mut look_up = LookUp::new(w, &mut keys);
    for (k, end) in ends.iter().enumerate() {
        let end = *end as usize;
        let before = look_up.before;
        let found = look_up.locate(Edition::First, end);
        write_block(w, k, before, end, found, out);
    }
}

// The same with keys by the word's length.
fn lines(w: Word, ends: &[u32], out: &mut [u8])
    requires { Factored (symbols w) ends.now × (line_bytes * length ends.now ≤ length out.old) }
    ensures { out.new ≡ sets out.old 0 (page (form_in w.entry) (symbols w.entry) ends.now) }
{
    let n = w.len();
    if n <= halves::SHORT {
        lines_with::<{ halves::SHORT }>(w, ends, out);
    } else if n <= halves::MIDDLE {
        lines_with::<{ halves::MIDDLE }>(w, ends, out);
    } else {
        lines_with::<{ answers::LIMIT }>(w, ends, out);
    }
}

// Write a page.
pub(crate) fn write(w: Word, edition: u32, ends: &[u32], out: &mut [u8]) -> Result<u32, Refusal>
    ensures result_value { counted_view result ≡ page_outcome (form_in w.entry) (symbols w.entry) edition ends.now (length out.old) }
    ensures out_after { out.new ≡ page_table (form_in w.entry) (symbols w.entry) edition ends.now out.old }
    ensures page_meaning { PageMeaning (form_in w.entry) (symbols w.entry) edition ends.now out.old (counted_view result) out.new }
{
    let blocks = repetitions::inner::judge(w, edition, ends)?;
    let size = LINE_BYTES * blocks as usize;
    if out.len() < size {
        return Err(Refusal::TooFewPlaces);
    }
    lines(w, ends, out);
    Ok(size as u32)
}
