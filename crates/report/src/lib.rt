// The printed text of the bench program, written into lent bytes.
#![tactic(auto)]

ghost use Rattle.std.specs.Prelude.{◌≡◌, length};
ghost use Rattle.std.proofs.lemmas.List.Edits.{sets};
ghost use Rattle.report.specs.Text.{text};
ghost use Rattle.report.specs.Meaning.{ReportMeaning};

mod inner;

// The longest word that the bench program takes.
pub const PROGRAM_LIMIT: usize = 1024;

// The edition whose splits it prints.
pub const EDITION: u32 = periods::FIRST_EDITION;

// No report has more bytes: longest_text of specs/Records.antt.
pub const LONGEST_REPORT: usize = 145462;

// What is printed of a word that is too long.
const REFUSED: [u8; 10] = *b"refused,1\n";

// The report of a word, the text that the bench program prints: stores it as far as there are bytes,
// and gives the count of its bytes. The word is widened once. Time: quadratic in the word's length
// at most; under 124 KiB of stack, 16 of them for the finder of runs.
pub fn report(w: &[u8], out: &mut [u8]) -> usize
    ensures answer { result ≡ length (text w.now) }
    ensures written { out.new ≡ sets out.old 0 (text w.now) }
    ensures meaning { ReportMeaning w.now out.old result out.new }
{
    if PROGRAM_LIMIT < w.len() {
        return writers::inner::put_text(out, 0, &REFUSED);
    }
    let n = w.len();
    let mut wide = [0u16; PROGRAM_LIMIT];
    widening::inner::widen(w, &mut wide);
    inner::write_all(&wide[0..n], out)
}
