// A page of a split: a line for each block, written into lent bytes.
#![tactic(auto)]

ghost use Rattle.std.specs.Prelude.{◌≡◌, length};
ghost use Rattle.answers.specs.Outcome.{counted_view};
ghost use Rattle.pages.specs.Page.{form_of, page_outcome, page_table, PageMeaning};

mod inner;

use answers::Refusal;
use periods::Symbol;

// Write a page: a line of 60 characters and byte 10 for each block of a split; gives the count of
// bytes. Of bytes the last column shows the first nine symbols of a unit, in two digits each, of 16-bit
// codes the first four, in four digits each. Refusals: those of judge a split, then 7; with
// 61 × (n/2) bytes for n symbols 7 never comes. Time: that of path of a split, and a line for each block.
// 1,510 KiB of stack for the longest words, 93 for up to 4,096 symbols, 4 for up to 64.
pub fn write_page<S: Symbol>(
    w: &[S],
    edition: u32,
    ends: &[u32],
    out: &mut [u8],
) -> Result<u32, Refusal>
    ensures answer { counted_view result ≡ page_outcome (form_of S.wide) (S.numbers w.now) edition ends.now (length out.old) }
    ensures written { out.new ≡ page_table (form_of S.wide) (S.numbers w.now) edition ends.now out.old }
    ensures meaning { PageMeaning (form_of S.wide) (S.numbers w.now) edition ends.now out.old (counted_view result) out.new }
{
    inner::write(S::word(w), edition, ends, out)
}
