// Plans: written from n and ends as a plan line, and read back.
#![tactic(auto)]

ghost use Rattle.std.specs.Prelude.{◌≡◌, length};
ghost use Rattle.answers.specs.Outcome.{counted_view};
ghost use Rattle.plans.specs.Calls.{write_outcome, write_table, WriteMeaning, read_outcome, read_table, ReadMeaning, plan_view};

mod inner;

use answers::{LIMIT, Refusal};
use plan_lines::{Kind, LENGTH_PLACE};

// What the plan reader gives besides the ends: n and the count of ends.
#[derive(Clone, Copy, Debug, PartialEq, Eq)]
pub struct Plan {
    pub n: u32,
    pub count: u32,
}

// Write a plan: the line of n and ends, a long one for n above 4,096, into lent bytes; gives the count
// of bytes. Refusals: 1; 3 for each end; 5; 7. Time linear in the line; no stack.
pub fn write_plan(n: u32, ends: &[u32], out: &mut [u8]) -> Result<u32, Refusal>
    ensures answer { counted_view result ≡ write_outcome n ends.now (length out.old) }
    ensures written { out.new ≡ write_table n ends.now out.old }
    ensures meaning { WriteMeaning n ends.now out.old (counted_view result) out.new }
{
    let count = inner::judge(LIMIT, n, ends.len(), |k| ends[k])?;
    let kind = Kind::of(n);
    let bytes = kind.bytes_for(count as usize);
    if out.len() < bytes {
        return Err(Refusal::TooFewPlaces);
    }
    plan_lines::inner::write_line(kind, n, ends, out);
    Ok(bytes as u32)
}

// Read a plan: n, the count and the ends. Refusals: 11, a needless long line too; then 1, by the kind
// of line; 3 for each end; 5; 7. Time linear in the line; no stack.
pub fn read_plan(s: &[u8], table: &mut [u32]) -> Result<Plan, Refusal>
    ensures answer { plan_view result ≡ read_outcome s.now (length table.old) }
    ensures written { table.new ≡ read_table s.now table.old }
    ensures meaning { ReadMeaning s.now table.old (plan_view result) table.new }
{
    let kind = Kind::begun(s);
    if !plan_lines::is_line(kind, s) {
        return Err(Refusal::NotPlan);
    }
    let n = kind.number(s, LENGTH_PLACE);
    let stated = kind.number(s, kind.count_place()) as usize;
    let most = inner::limit_of(kind);
    let count = inner::judge(most, n, stated, |k| plan_lines::inner::end(kind, s, k))?;
    if table.len() < stated {
        return Err(Refusal::TooFewPlaces);
    }
    kind.read_ends(s, stated, table);
    Ok(Plan { n, count })
}
