// What goes over the symbols of a word themselves, once for either width.
ghost use Rattle.std.specs.Prelude.{◌≡◌, ◌≤◌, ◌<◌, ◌^◌, length};
ghost use Rattle.periods.specs.Period.{smallest_period, units_table, block_unit};
ghost use Rattle.periods.specs.Square.{square?};
ghost use Rattle.periods.specs.Edition.{turns_in};

use super::{Edition, Symbol, TWICE, UNIT_MEMORY};

// Word::units of symbols. Both loops together take at most 2 × length turns, since m + p rises in
// each.
// p is the smallest candidate for the prefix of m + 1 symbols that is a period of the first m, so
// that the pairs p apart before (m - p, m) agree. Where that pair differs, the next candidate is p
// plus the unit of the prefix of m - p symbols; where p is all of m, only m + 1 is left.
// Not inlined: in a large caller the loop would have its values in memory, not in registers.
#[inline(never)]
pub(crate) fn units<S: Symbol>(part: &[S], table: &mut [u32]) -> usize
    requires { (length part.now ≤ length table.old) × (length part.now < 2 ^ 32) }
    ensures unit { result ≡ smallest_period (S.numbers part.now) }
    ensures written { table.new ≡ units_table (S.numbers part.now) table.old }
{
    let n = part.len();
    if n == 0 {
        return 0;
    }
    table[0] = 1;
    let mut m: usize = 1;
    let mut p: usize = 1;
    // Kept: m and p move by other steps each, a range would be no plainer.
    'outer: loop {
        while m < n {
            if part[m - p] == part[m] {
                table[m] = p as u32;
                m += 1;
                continue;
            }
            if p < m {
                p += table[m - p - 1] as usize;
                continue 'outer;
            }
            p = m + 1;
            table[m] = p as u32;
            m += 1;
            continue 'outer;
        }
        break p;
    }
}

// Word::block_unit of symbols.
// The first pair stands before the loop: often it differs, and in a block of two symbols it is the
// only one.
#[inline(always)]
pub(crate) fn block_unit<S: Symbol>(part: &[S], edition: Edition) -> usize
    ensures { result ≡ block_unit (turns_in edition) (S.numbers part.now) }
{
    let n = part.len();
    'outer: for p in 1..UNIT_MEMORY + 1 {
        if !edition.is_block(n, p) {
            return 0;
        }
        if part[0] != part[p] {
            continue 'outer;
        }
        for i in 1..n - p {
            if part[i] != part[i + p] {
                continue 'outer;
            }
        }
        return p;
    }
    0
}

// Word::is_square of symbols.
pub(crate) fn is_square<S: Symbol>(part: &[S]) -> bool
    ensures { result ≡ square? (S.numbers part.now) }
{
    let n = part.len();
    if n == 0 || n % TWICE != 0 {
        return false;
    }
    let half = n / TWICE;
    for i in 0..half {
        if part[i] != part[i + half] {
            return false;
        }
    }
    true
}
