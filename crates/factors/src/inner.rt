// For the library's own crates: the caller shows what each function requires.
ghost use Rattle.std.specs.Prelude.{◌≡◌, ◌++◌, ◌≤◌, ◌<◌, ◌^◌, length, drop};
ghost use Rattle.factors.specs.Table.{started, offered, ends_back, Linked};
ghost use Rattle.factors.specs.Verdict.{end_of};

use super::{AsChoice, NONE};

// Sets row 0 before any block is offered; the other places stay.
pub fn start(work: &mut [u32], n: usize)
    requires { n < length work.old }
    ensures { work.new ≡ started n work.old }
{
    work[0] = 0;
    work[1..n + 1].fill(NONE);
}

// Offers a size, reached from boundary j, to the boundary whose size stands at place at and whose
// previous boundary at place back. Only a strictly better one is taken, so that of equal ones the
// first offered stays.
pub fn offer<C: AsChoice>(work: &mut [u32], choice: C, at: usize, back: usize, size: u32, j: u32)
    requires { (at < length work.old) × (back < length work.old) }
    ensures { work.new ≡ offered (C.asked choice) at back size j work.old }
{
    let known = work[at];
    if known == NONE || choice.choice().prefers(size, known) {
        work[at] = size;
        work[back] = j;
    }
}

// Writes the ends of the count blocks up to boundary j, the last one first, and goes on at the
// previous boundary. 48 bytes of stack a block.
pub fn write_ends(prev: &[u32], j: usize, count: usize, ends: &mut [u32])
    requires { (Linked prev.now count j) × (count ≤ length ends.old) × (j < 2 ^ 32) }
    ensures { ends.new ≡ ends_back prev.now count j ++ drop count ends.old }
{
    if j == 0 {
        return;
    }
    let at = count - 1;
    ends[at] = j as u32;
    let before = prev[j] as usize;
    write_ends(prev, before, at, ends);
}

// The end of the first of the count blocks up to boundary j; 0 where there are none.
pub fn first_end(prev: &[u32], j: u32, count: u32) -> u32
    requires { Linked prev.now count j }
    ensures { result ≡ end_of (ends_back prev.now count j) 1 }
{
    let mut end = j;
    for _ in 1..count {
        end = prev[end as usize];
    }
    end
}
