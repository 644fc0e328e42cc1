// The interface for C and Rust: every call over numbers and slices. The result is 0 for accepted,
// else the refusal's number; the index of 3 and 4 and the answer's values come back through
// references, which hold 0 where the outcome has no such number. Each export is the call that it
// names, so it costs what that call costs. The contracts are the calls' own, stated of the outcome,
// which the numbers handed over determine: handed_over_determines in proofs/Claims.antt, and
// proofs/Values.antt for each call. First block alone has no outcome: its two numbers say which word
// it is a part of, and how long.
#![tactic(auto)]

ghost use Rattle.std.specs.Prelude.{◌≡◌, length};
ghost use Rattle.answers.specs.Outcome.{counted_view};
ghost use Rattle.periods.specs.Part.{part_view, part_outcome, part_table};
ghost use Rattle.runs.specs.Calls.{runs_outcome, runs_table, RunsMeaning};
ghost use Rattle.nodes.specs.Calls.{nodes_outcome, nodes_table, NodesMeaning};
ghost use Rattle.repetitions.specs.BestSplit.{best_outcome, best_ends_table, best_work};
ghost use Rattle.repetitions.specs.Judge.{split_outcome, SplitMeaning};
ghost use Rattle.squares.specs.BestSquares.{squares_outcome, squares_ends, squares_work};
ghost use Rattle.squares.specs.JudgeSquares.{squares_judged_outcome, SquaresJudgedMeaning};
ghost use Rattle.comparison.specs.Calls.{which_outcome, which_work, word_in, length_in, first_which, first_length, FirstMeaning};
ghost use Rattle.paths.specs.Calls.{path_outcome, path_table, path_judged_outcome, PathJudgedMeaning};
ghost use Rattle.page_lines.specs.Line.{byte_form};
ghost use Rattle.pages.specs.Page.{page_outcome, page_table};
ghost use Rattle.plans.specs.Calls.{plan_view, write_outcome, write_table, WriteMeaning, read_outcome, read_table, ReadMeaning};
ghost use Rattle.cegridom.specs.Export.{result_of, index_of, value_of, PartHanded, BestHanded, SquaresHanded, WhichHanded, PathHanded, PageHanded, version};

mod codes;

use answers::{Code, Refusal};
use comparison::Chosen;
use periods::Description;
use plans::Plan;

// The version of this interface, 1,000 × major + minor.
pub const VERSION: u32 = 11;

// Takes an answer that gives one number apart.
pub(crate) fn hand_over(answer: Result<u32, Refusal>, count: &mut u32, index: &mut u32) -> u32
    ensures value { result ≡ result_of (counted_view answer) }
    ensures count_after { count.new ≡ value_of 0 (counted_view answer) }
    ensures index_after { index.new ≡ index_of (counted_view answer) }
{
    match answer {
        Ok(n) => {
            *count = n;
            *index = 0;
            0
        }
        Err(r) => {
            let c = Code::from(r);
            *count = 0;
            *index = c.1;
            c.0
        }
    }
}

// The same for the answer of the part call.
pub(crate) fn hand_over_part(
    answer: Result<Description, Refusal>,
    unit: &mut u32,
    turns: &mut u32,
    rest: &mut u32,
    block: &mut u32,
    index: &mut u32,
) -> u32
    ensures value { result ≡ result_of (part_view answer) }
    ensures unit_after { unit.new ≡ value_of 0 (part_view answer) }
    ensures turns_after { turns.new ≡ value_of 1 (part_view answer) }
    ensures rest_after { rest.new ≡ value_of 2 (part_view answer) }
    ensures block_after { block.new ≡ value_of 3 (part_view answer) }
    ensures index_after { index.new ≡ index_of (part_view answer) }
{
    match answer {
        Ok(d) => {
            *unit = d.period;
            *turns = d.exponent;
            *rest = d.remainder;
            *block = u32::from(d.repetition);
            *index = 0;
            0
        }
        Err(r) => {
            let c = Code::from(r);
            *unit = 0;
            *turns = 0;
            *rest = 0;
            *block = 0;
            *index = c.1;
            c.0
        }
    }
}

// The same for the answer of the plan reader.
pub(crate) fn hand_over_plan(
    answer: Result<Plan, Refusal>,
    n: &mut u32,
    count: &mut u32,
    index: &mut u32,
) -> u32
    ensures value { result ≡ result_of (plan_view answer) }
    ensures n_after { n.new ≡ value_of 0 (plan_view answer) }
    ensures count_after { count.new ≡ value_of 1 (plan_view answer) }
    ensures index_after { index.new ≡ index_of (plan_view answer) }
{
    match answer {
        Ok(plan) => {
            *n = plan.n;
            *count = plan.count;
            *index = 0;
            0
        }
        Err(r) => {
            let c = Code::from(r);
            *n = 0;
            *count = 0;
            *index = c.1;
            c.0
        }
    }
}

// Takes what is chosen of two words apart: the word's number and the length of its first block, 0
// and 0 where none is chosen.
pub(crate) fn hand_over_choice(
    answer: Result<Chosen, Refusal>,
    which: &mut u32,
    symbols: &mut u32,
) -> u32
    ensures value { result ≡ 0 }
    ensures which_after { which.new ≡ word_in answer }
    ensures symbols_after { symbols.new ≡ length_in answer }
{
    match answer {
        Ok(chosen) => {
            *which = chosen.number();
            *symbols = chosen.length();
        }
        Err(_) => {
            *which = 0;
            *symbols = 0;
        }
    }
    0
}

// Part: the unit, turns and rest of the symbols at the positions first to last, and 1 for a block or
// 0; only whether it is a block depends on the edition. Writes the unit of every leading part of
// that part but the empty one to units, place i for its first i symbols. Refusals: 1, 12, 6, 7.
#[unsafe(no_mangle)]
pub extern "C" fn cegridom_part(
    w: &[u8],
    edition: u32,
    first: u32,
    last: u32,
    units: &mut [u32],
    unit: &mut u32,
    turns: &mut u32,
    rest: &mut u32,
    block: &mut u32,
    index: &mut u32,
) -> u32
    ensures result { result ≡ result_of (part_outcome w.now edition first last (length units.old)) }
    ensures unit { unit.new ≡ value_of 0 (part_outcome w.now edition first last (length units.old)) }
    ensures turns { turns.new ≡ value_of 1 (part_outcome w.now edition first last (length units.old)) }
    ensures rest { rest.new ≡ value_of 2 (part_outcome w.now edition first last (length units.old)) }
    ensures block { block.new ≡ value_of 3 (part_outcome w.now edition first last (length units.old)) }
    ensures index { index.new ≡ index_of (part_outcome w.now edition first last (length units.old)) }
    ensures written { units.new ≡ part_table w.now edition first last units.old }
    ensures meaning { PartHanded w.now edition first last units.old units.new }
{
    let answer = periods::part(w, edition, first, last, units);
    hand_over_part(answer, unit, turns, rest, block, index)
}

// Runs: first, last, unit and root of each run, and their count. Refusals: 1, 7.
#[unsafe(no_mangle)]
pub extern "C" fn cegridom_runs(
    w: &[u8],
    table: &mut [u32],
    count: &mut u32,
    index: &mut u32,
) -> u32
    ensures result { result ≡ result_of (runs_outcome w.now (length table.old)) }
    ensures count { count.new ≡ value_of 0 (runs_outcome w.now (length table.old)) }
    ensures index { index.new ≡ index_of (runs_outcome w.now (length table.old)) }
    ensures written { table.new ≡ runs_table w.now table.old }
    ensures meaning { RunsMeaning w.now table.old (runs_outcome w.now (length table.old)) table.new }
{
    let answer = run_table::runs(w, table);
    hand_over(answer, count, index)
}

// Nodes: the numbers of the runs with a white node at a position, and their count.
// Refusals: 1, 12, 6, 7.
#[unsafe(no_mangle)]
pub extern "C" fn cegridom_nodes(
    w: &[u8],
    edition: u32,
    position: u32,
    table: &mut [u32],
    count: &mut u32,
    index: &mut u32,
) -> u32
    ensures result { result ≡ result_of (nodes_outcome w.now edition position (length table.old)) }
    ensures count { count.new ≡ value_of 0 (nodes_outcome w.now edition position (length table.old)) }
    ensures index { index.new ≡ index_of (nodes_outcome w.now edition position (length table.old)) }
    ensures written { table.new ≡ nodes_table w.now edition position table.old }
    ensures meaning { NodesMeaning w.now edition position table.old (nodes_outcome w.now edition position (length table.old)) table.new }
{
    let answer = nodes::nodes(w, edition, position, table);
    hand_over(answer, count, index)
}

// Best split: the ends of the best factorization and its size; choice 1 is fewest, 2 is most.
// Refusals: 1, 12, 8, 9, 2, 7.
#[unsafe(no_mangle)]
pub extern "C" fn cegridom_best_split(
    w: &[u8],
    edition: u32,
    choice: u32,
    ends: &mut [u32],
    work: &mut [u32],
    size: &mut u32,
    index: &mut u32,
) -> u32
    ensures result { result ≡ result_of (best_outcome w.now edition choice ends.old work.old) }
    ensures size { size.new ≡ value_of 0 (best_outcome w.now edition choice ends.old work.old) }
    ensures index { index.new ≡ index_of (best_outcome w.now edition choice ends.old work.old) }
    ensures written { ends.new ≡ best_ends_table w.now edition choice ends.old work.old }
    ensures worked { work.new ≡ best_work w.now edition choice work.old }
    ensures meaning { BestHanded w.now edition choice ends.old work.old ends.new work.new }
{
    let answer = repetitions::best_split(w, edition, choice, ends, work);
    hand_over(answer, size, index)
}

// Best squares: the ends of the best factorization into squares and its size; choice 1 is fewest, 2
// is most. Refusals: 1, 8, 9, 2, 7.
#[unsafe(no_mangle)]
pub extern "C" fn cegridom_best_squares(
    w: &[u8],
    choice: u32,
    ends: &mut [u32],
    work: &mut [u32],
    size: &mut u32,
    index: &mut u32,
) -> u32
    ensures result { result ≡ result_of (squares_outcome w.now choice ends.old work.old) }
    ensures size { size.new ≡ value_of 0 (squares_outcome w.now choice ends.old work.old) }
    ensures index { index.new ≡ index_of (squares_outcome w.now choice ends.old work.old) }
    ensures written { ends.new ≡ squares_ends w.now choice ends.old work.old }
    ensures worked { work.new ≡ squares_work w.now choice work.old }
    ensures meaning { SquaresHanded w.now choice ends.old work.old ends.new work.new }
{
    let answer = squares::best_squares(w, choice, ends, work);
    hand_over(answer, size, index)
}

// Which first: 1 or 2 for the word that has fewer blocks in its fewest split; the first wins a tie.
// Refusals: 1, 12, 9, 2.
#[unsafe(no_mangle)]
pub extern "C" fn cegridom_which_first(
    a: &[u8],
    b: &[u8],
    edition: u32,
    work: &mut [u32],
    which: &mut u32,
    index: &mut u32,
) -> u32
    ensures result { result ≡ result_of (which_outcome a.now b.now edition (length work.old)) }
    ensures which { which.new ≡ value_of 0 (which_outcome a.now b.now edition (length work.old)) }
    ensures index { index.new ≡ index_of (which_outcome a.now b.now edition (length work.old)) }
    ensures worked { work.new ≡ which_work a.now b.now edition work.old }
    ensures meaning { WhichHanded a.now b.now edition work.old work.new }
{
    let answer = comparison::which_first(a, b, edition, work);
    hand_over(answer, which, index)
}

// First block: a C function cannot return a part that lives as long as the words, so this gives the
// number of the word, 0 for none, and how many of its first symbols are the block. Always 0.
#[unsafe(no_mangle)]
pub extern "C" fn cegridom_first_block(
    a: &[u8],
    b: &[u8],
    edition: u32,
    work: &mut [u32],
    which: &mut u32,
    symbols: &mut u32,
) -> u32
    ensures result { result ≡ 0 }
    ensures which { which.new ≡ first_which a.now b.now edition (length work.old) }
    ensures symbols { symbols.new ≡ first_length a.now b.now edition (length work.old) }
    ensures worked { work.new ≡ which_work a.now b.now edition work.old }
    ensures meaning { FirstMeaning a.now b.now edition work.old which.new symbols.new work.new }
{
    let answer = comparison::compare(a, b, edition, work);
    hand_over_choice(answer, which, symbols)
}

// Judge a split: its number of blocks. Refusals: 1, 12; then for each end in turn 3, 4; then 5.
#[unsafe(no_mangle)]
pub extern "C" fn cegridom_judge_split(
    w: &[u8],
    edition: u32,
    ends: &[u32],
    blocks: &mut u32,
    index: &mut u32,
) -> u32
    ensures result { result ≡ result_of (split_outcome w.now edition ends.now) }
    ensures blocks { blocks.new ≡ value_of 0 (split_outcome w.now edition ends.now) }
    ensures index { index.new ≡ index_of (split_outcome w.now edition ends.now) }
    ensures meaning { SplitMeaning w.now edition ends.now (split_outcome w.now edition ends.now) }
{
    let answer = repetitions::judge_split(w, edition, ends);
    hand_over(answer, blocks, index)
}

// Judge squares: its number of squares. Refusals: 1; then for each end in turn 3, 4; then 5.
#[unsafe(no_mangle)]
pub extern "C" fn cegridom_judge_squares(
    w: &[u8],
    ends: &[u32],
    blocks: &mut u32,
    index: &mut u32,
) -> u32
    ensures result { result ≡ result_of (squares_judged_outcome w.now ends.now) }
    ensures blocks { blocks.new ≡ value_of 0 (squares_judged_outcome w.now ends.now) }
    ensures index { index.new ≡ index_of (squares_judged_outcome w.now ends.now) }
    ensures meaning { SquaresJudgedMeaning w.now ends.now (squares_judged_outcome w.now ends.now) }
{
    let answer = squares::judge_squares(w, ends);
    hand_over(answer, blocks, index)
}

// Path of a split: the run number of each block, and the number of blocks. Refusals: those of
// cegridom_judge_split, then 7.
#[unsafe(no_mangle)]
pub extern "C" fn cegridom_path_of_split(
    w: &[u8],
    edition: u32,
    ends: &[u32],
    table: &mut [u32],
    blocks: &mut u32,
    index: &mut u32,
) -> u32
    ensures result { result ≡ result_of (path_outcome w.now edition ends.now (length table.old)) }
    ensures blocks { blocks.new ≡ value_of 0 (path_outcome w.now edition ends.now (length table.old)) }
    ensures index { index.new ≡ index_of (path_outcome w.now edition ends.now (length table.old)) }
    ensures written { table.new ≡ path_table w.now edition ends.now table.old }
    ensures meaning { PathHanded w.now edition ends.now table.old table.new }
{
    let answer = paths::path_of_split(w, edition, ends, table);
    hand_over(answer, blocks, index)
}

// Judge a path, for each block a run number and then an end: its number of blocks. Refusals: 1, 12,
// 10, then as for a split.
#[unsafe(no_mangle)]
pub extern "C" fn cegridom_judge_path(
    w: &[u8],
    edition: u32,
    numbers: &[u32],
    blocks: &mut u32,
    index: &mut u32,
) -> u32
    ensures result { result ≡ result_of (path_judged_outcome w.now edition numbers.now) }
    ensures blocks { blocks.new ≡ value_of 0 (path_judged_outcome w.now edition numbers.now) }
    ensures index { index.new ≡ index_of (path_judged_outcome w.now edition numbers.now) }
    ensures meaning { PathJudgedMeaning w.now edition numbers.now (path_judged_outcome w.now edition numbers.now) }
{
    let answer = paths::judge_path(w, edition, numbers);
    hand_over(answer, blocks, index)
}

// Write a page: a line for each block of a split, and the count of bytes. Refusals: those of
// cegridom_judge_split, then 7.
#[unsafe(no_mangle)]
pub extern "C" fn cegridom_write_page(
    w: &[u8],
    edition: u32,
    ends: &[u32],
    out: &mut [u8],
    bytes: &mut u32,
    index: &mut u32,
) -> u32
    ensures result { result ≡ result_of (page_outcome byte_form w.now edition ends.now (length out.old)) }
    ensures bytes { bytes.new ≡ value_of 0 (page_outcome byte_form w.now edition ends.now (length out.old)) }
    ensures index { index.new ≡ index_of (page_outcome byte_form w.now edition ends.now (length out.old)) }
    ensures written { out.new ≡ page_table byte_form w.now edition ends.now out.old }
    ensures meaning { PageHanded byte_form w.now edition ends.now out.old out.new }
{
    let answer = pages::write_page(w, edition, ends, out);
    hand_over(answer, bytes, index)
}

// Write a plan: the line of n and ends, and its count of bytes. Refusals: 1; 3 for each end; 5; 7.
#[unsafe(no_mangle)]
pub extern "C" fn cegridom_write_plan(
    n: u32,
    ends: &[u32],
    out: &mut [u8],
    bytes: &mut u32,
    index: &mut u32,
) -> u32
    ensures result { result ≡ result_of (write_outcome n ends.now (length out.old)) }
    ensures bytes { bytes.new ≡ value_of 0 (write_outcome n ends.now (length out.old)) }
    ensures index { index.new ≡ index_of (write_outcome n ends.now (length out.old)) }
    ensures written { out.new ≡ write_table n ends.now out.old }
    ensures meaning { WriteMeaning n ends.now out.old (write_outcome n ends.now (length out.old)) out.new }
{
    let answer = plans::write_plan(n, ends, out);
    hand_over(answer, bytes, index)
}

// Read a plan: n, the count and the ends. Refusals: 11; then as for writing.
#[unsafe(no_mangle)]
pub extern "C" fn cegridom_read_plan(
    s: &[u8],
    table: &mut [u32],
    n: &mut u32,
    count: &mut u32,
    index: &mut u32,
) -> u32
    ensures result { result ≡ result_of (read_outcome s.now (length table.old)) }
    ensures n { n.new ≡ value_of 0 (read_outcome s.now (length table.old)) }
    ensures count { count.new ≡ value_of 1 (read_outcome s.now (length table.old)) }
    ensures index { index.new ≡ index_of (read_outcome s.now (length table.old)) }
    ensures written { table.new ≡ read_table s.now table.old }
    ensures meaning { ReadMeaning s.now table.old (read_outcome s.now (length table.old)) table.new }
{
    let answer = plans::read_plan(s, table);
    hand_over_plan(answer, n, count, index)
}

// Version: that of the archive, which a host compares with its header's.
#[unsafe(no_mangle)]
pub extern "C" fn cegridom_version() -> u32
    ensures { result ≡ version }
{
    VERSION
}
