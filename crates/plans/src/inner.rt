// For the two calls: the caller shows what judge requires.
ghost use Rattle.std.specs.Prelude.{◌≡◌, ◌≤◌, ◌<◌, ℕ, List};
ghost use Rattle.answers.specs.Outcome.{counted_view, limit};
ghost use Rattle.plan_lines.specs.Kinds.{is_long};
ghost use Rattle.plans.specs.Calls.{limit_of, plausible};
ghost use Rattle.plans.specs.Ends.{GivesEnds};

use answers::Refusal;
use plan_lines::Kind;

// The greatest n of a line of a kind.
pub(crate) fn limit_of(kind: Kind) -> usize
    ensures { result ≡ limit_of (is_long kind) }
{
    match kind {
        Kind::Plain => plan_lines::LINE_LIMIT,
        Kind::Long => answers::LIMIT,
    }
}

// The refusals 1, 3 and 5 of n, up to a greatest one, and of so many ends, where end(k) is end number
// k + 1; where there is none, the count of ends.
pub(crate) fn judge<F: Fn(usize) -> u32>(
    most: usize,
    n: u32,
    count: usize,
    end: F,
) -> Result<u32, Refusal>
    requires bounded { most ≤ limit }
    requires callable { (k : ℕ) → k < count → F.pre end k }
    ensures { (ends : List ℕ) → GivesEnds (F.post end) count ends → counted_view result ≡ plausible most n ends }
{
    let len = n as usize;
    if most < len {
        return Err(Refusal::TooLong);
    }
    let mut before: usize = 0;
    for k in 0..count {
        let next = end(k) as usize;
        if factors::bad_end(before, next, len) {
            return Err(Refusal::BadEnd((k + 1) as u32));
        }
        before = next;
    }
    if before != len {
        return Err(Refusal::Unfinished);
    }
    Ok(count as u32)
}
