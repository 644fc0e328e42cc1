// For the call of pages: the caller shows what each function requires.
// Kept: bytes and a place in them go together, as in `writers`.
ghost use Rattle.std.specs.Prelude.{◌≡◌, ◌≤◌, ◌<◌, ◌+◌, ◌*◌, length};
ghost use Rattle.std.proofs.lemmas.List.Edits.{sets};
ghost use Rattle.decimals.specs.Decimal.{plain};
ghost use Rattle.page_lines.specs.Line.{widths, columns, line, line_bytes, LineNumbers, Fits};
ghost use Rattle.page_lines.specs.Line.{spaces, right_aligned, left_aligned, hex_digits, symbols};

use crate::Form;
use decimals::LINE_END;

// The columns: number, first, last, unit, turns, rest, run, and the symbols of the unit.
const COLUMNS: usize = 8;

const WIDTHS: [usize; COLUMNS] = [6, 6, 6, 6, 6, 6, 6, 18];

const STARTS: [usize; COLUMNS] = [0, 6, 12, 18, 24, 30, 36, 42];

// The column of the symbols, after those of the numbers.
const UNIT: usize = 7;

// The place of the line's end.
const END: usize = 60;

const SPACE: u8 = 32;

const HEX: [u8; 16] = *b"0123456789abcdef";

// Writes so many spaces from place at on.
fn fill(out: &mut [u8], at: usize, count: usize)
    requires { at + count ≤ length out.old }
    ensures { out.new ≡ sets out.old at (spaces count) }
{
    out[at..at + count].fill(SPACE);
}

// Writes a number right-aligned into a column.
fn put_number(out: &mut [u8], at: usize, width: usize, x: u32)
    requires { (at + width ≤ length out.old) × (length (plain x) ≤ width) }
    ensures { out.new ≡ sets out.old at (right_aligned width x) }
{
    let digits = decimals::inner::count(x);
    let blank = width - digits;
    fill(out, at, blank);
    decimals::inner::write(out, at + blank, digits, x);
}

// Writes the last so many hexadecimal digits of a symbol, from the ones up.
fn put_symbol(out: &mut [u8], at: usize, digits: usize, x: u16)
    requires { at + digits ≤ length out.old }
    ensures { out.new ≡ sets out.old at (hex_digits digits x) }
{
    let mut rest = x;
    for left in (0..digits).rev() {
        out[at + left] = HEX[usize::from(rest % 16)];
        rest /= 16;
    }
}

// Writes symbols, so many digits each, into a column, and spaces after them.
fn put_symbols(out: &mut [u8], at: usize, width: usize, digits: usize, shown: &[u16])
    requires { (at + width ≤ length out.old) × (digits * length shown.now ≤ width) }
    ensures { out.new ≡ sets out.old at (left_aligned width (symbols digits shown.now)) }
{
    for (i, x) in shown.iter().enumerate() {
        put_symbol(out, at + digits * i, digits, *x);
    }
    let used = digits * shown.len();
    fill(out, at + used, width - used);
}

// Writes numbers into their columns.
fn put_numbers(out: &mut [u8], at: usize, numbers: &[u32])
    requires { (at + line_bytes ≤ length out.old) × LineNumbers numbers.now }
    ensures { out.new ≡ sets out.old at (columns widths numbers.now) }
{
    for (c, x) in numbers.iter().enumerate() {
        put_number(out, at + STARTS[c], WIDTHS[c], *x);
    }
}

// Writes the line of a block's numbers and its unit from place at on.
pub fn put_line(out: &mut [u8], at: usize, form: Form, numbers: &[u32], unit: &[u16])
    requires { (at + line_bytes ≤ length out.old) × LineNumbers numbers.now × Fits form }
    ensures { out.new ≡ sets out.old at (line form numbers.now unit.now) }
{
    let shown = unit.len().min(form.shown);
    put_numbers(out, at, numbers);
    put_symbols(
        out,
        at + STARTS[UNIT],
        WIDTHS[UNIT],
        form.digits,
        &unit[..shown],
    );
    out[at + END] = LINE_END;
}
