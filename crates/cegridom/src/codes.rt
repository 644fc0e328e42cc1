// The same calls for words of 16-bit symbols, by one rule: the name with _16 after it, and symbols for
// bytes. Answers and tables are those for bytes with the same numbers; a page shows four symbols of a
// unit in four digits each.
// Kept: the C interface has a name for each width.
ghost use Rattle.std.specs.Prelude.{◌≡◌, length};
ghost use Rattle.periods.specs.Part.{part_outcome, part_table};
ghost use Rattle.runs.specs.Calls.{runs_outcome, runs_table, RunsMeaning};
ghost use Rattle.nodes.specs.Calls.{nodes_outcome, nodes_table, NodesMeaning};
ghost use Rattle.repetitions.specs.BestSplit.{best_outcome, best_ends_table, best_work};
ghost use Rattle.repetitions.specs.Judge.{split_outcome, SplitMeaning};
ghost use Rattle.squares.specs.BestSquares.{squares_outcome, squares_ends, squares_work};
ghost use Rattle.squares.specs.JudgeSquares.{squares_judged_outcome, SquaresJudgedMeaning};
ghost use Rattle.comparison.specs.Calls.{which_outcome, which_work, first_which, first_length, FirstMeaning};
ghost use Rattle.paths.specs.Calls.{path_outcome, path_table, path_judged_outcome, PathJudgedMeaning};
ghost use Rattle.page_lines.specs.Line.{code_form};
ghost use Rattle.pages.specs.Page.{page_outcome, page_table};
ghost use Rattle.cegridom.specs.Export.{result_of, index_of, value_of, PartHanded, BestHanded, SquaresHanded, WhichHanded, PathHanded, PageHanded};

#[unsafe(no_mangle)]
pub extern "C" fn cegridom_part_16(
    w: &[u16],
    edition: u32,
    first: u32,
    last: u32,
    units: &mut [u32],
    unit: &mut u32,
    turns: &mut u32,
    rest: &mut u32,
    block: &mut u32,
    index: &mut u32,
) -> u32
    ensures result { result ≡ result_of (part_outcome w.now edition first last (length units.old)) }
    ensures unit { unit.new ≡ value_of 0 (part_outcome w.now edition first last (length units.old)) }
    ensures turns { turns.new ≡ value_of 1 (part_outcome w.now edition first last (length units.old)) }
    ensures rest { rest.new ≡ value_of 2 (part_outcome w.now edition first last (length units.old)) }
    ensures block { block.new ≡ value_of 3 (part_outcome w.now edition first last (length units.old)) }
    ensures index { index.new ≡ index_of (part_outcome w.now edition first last (length units.old)) }
    ensures written { units.new ≡ part_table w.now edition first last units.old }
    ensures meaning { PartHanded w.now edition first last units.old units.new }
{
    let answer = periods::part(w, edition, first, last, units);
    super::hand_over_part(answer, unit, turns, rest, block, index)
}

#[unsafe(no_mangle)]
pub extern "C" fn cegridom_runs_16(
    w: &[u16],
    table: &mut [u32],
    count: &mut u32,
    index: &mut u32,
) -> u32
    ensures result { result ≡ result_of (runs_outcome w.now (length table.old)) }
    ensures count { count.new ≡ value_of 0 (runs_outcome w.now (length table.old)) }
    ensures index { index.new ≡ index_of (runs_outcome w.now (length table.old)) }
    ensures written { table.new ≡ runs_table w.now table.old }
    ensures meaning { RunsMeaning w.now table.old (runs_outcome w.now (length table.old)) table.new }
{
    let answer = run_table::runs(w, table);
    super::hand_over(answer, count, index)
}

#[unsafe(no_mangle)]
pub extern "C" fn cegridom_nodes_16(
    w: &[u16],
    edition: u32,
    position: u32,
    table: &mut [u32],
    count: &mut u32,
    index: &mut u32,
) -> u32
    ensures result { result ≡ result_of (nodes_outcome w.now edition position (length table.old)) }
    ensures count { count.new ≡ value_of 0 (nodes_outcome w.now edition position (length table.old)) }
    ensures index { index.new ≡ index_of (nodes_outcome w.now edition position (length table.old)) }
    ensures written { table.new ≡ nodes_table w.now edition position table.old }
    ensures meaning { NodesMeaning w.now edition position table.old (nodes_outcome w.now edition position (length table.old)) table.new }
{
    let answer = nodes::nodes(w, edition, position, table);
    super::hand_over(answer, count, index)
}

#[unsafe(no_mangle)]
pub extern "C" fn cegridom_best_split_16(
    w: &[u16],
    edition: u32,
    choice: u32,
    ends: &mut [u32],
    work: &mut [u32],
    size: &mut u32,
    index: &mut u32,
) -> u32
    ensures result { result ≡ result_of (best_outcome w.now edition choice ends.old work.old) }
    ensures size { size.new ≡ value_of 0 (best_outcome w.now edition choice ends.old work.old) }
    ensures index { index.new ≡ index_of (best_outcome w.now edition choice ends.old work.old) }
    ensures written { ends.new ≡ best_ends_table w.now edition choice ends.old work.old }
    ensures worked { work.new ≡ best_work w.now edition choice work.old }
    ensures meaning { BestHanded w.now edition choice ends.old work.old ends.new work.new }
{
    let answer = repetitions::best_split(w, edition, choice, ends, work);
    super::hand_over(answer, size, index)
}

#[unsafe(no_mangle)]
pub extern "C" fn cegridom_best_squares_16(
    w: &[u16],
    choice: u32,
    ends: &mut [u32],
    work: &mut [u32],
    size: &mut u32,
    index: &mut u32,
) -> u32
    ensures result { result ≡ result_of (squares_outcome w.now choice ends.old work.old) }
    ensures size { size.new ≡ value_of 0 (squares_outcome w.now choice ends.old work.old) }
    ensures index { index.new ≡ index_of (squares_outcome w.now choice ends.old work.old) }
    ensures written { ends.new ≡ squares_ends w.now choice ends.old work.old }
    ensures worked { work.new ≡ squares_work w.now choice work.old }
    ensures meaning { SquaresHanded w.now choice ends.old work.old ends.new work.new }
{
    let answer = squares::best_squares(w, choice, ends, work);
    super::hand_over(answer, size, index)
}

#[unsafe(no_mangle)]
pub extern "C" fn cegridom_which_first_16(
    a: &[u16],
    b: &[u16],
    edition: u32,
    work: &mut [u32],
    which: &mut u32,
    index: &mut u32,
) -> u32
    ensures result { result ≡ result_of (which_outcome a.now b.now edition (length work.old)) }
    ensures which { which.new ≡ value_of 0 (which_outcome a.now b.now edition (length work.old)) }
    ensures index { index.new ≡ index_of (which_outcome a.now b.now edition (length work.old)) }
    ensures worked { work.new ≡ which_work a.now b.now edition work.old }
    ensures meaning { WhichHanded a.now b.now edition work.old work.new }
{
    let answer = comparison::which_first(a, b, edition, work);
    super::hand_over(answer, which, index)
}

#[unsafe(no_mangle)]
pub extern "C" fn cegridom_first_block_16(
    a: &[u16],
    b: &[u16],
    edition: u32,
    work: &mut [u32],
    which: &mut u32,
    symbols: &mut u32,
) -> u32
    ensures result { result ≡ 0 }
    ensures which { which.new ≡ first_which a.now b.now edition (length work.old) }
    ensures symbols { symbols.new ≡ first_length a.now b.now edition (length work.old) }
    ensures worked { work.new ≡ which_work a.now b.now edition work.old }
    ensures meaning { FirstMeaning a.now b.now edition work.old which.new symbols.new work.new }
{
    let answer = comparison::compare(a, b, edition, work);
    super::hand_over_choice(answer, which, symbols)
}

#[unsafe(no_mangle)]
pub extern "C" fn cegridom_judge_split_16(
    w: &[u16],
    edition: u32,
    ends: &[u32],
    blocks: &mut u32,
    index: &mut u32,
) -> u32
    ensures result { result ≡ result_of (split_outcome w.now edition ends.now) }
    ensures blocks { blocks.new ≡ value_of 0 (split_outcome w.now edition ends.now) }
    ensures index { index.new ≡ index_of (split_outcome w.now edition ends.now) }
    ensures meaning { SplitMeaning w.now edition ends.now (split_outcome w.now edition ends.now) }
{
    let answer = repetitions::judge_split(w, edition, ends);
    super::hand_over(answer, blocks, index)
}

#[unsafe(no_mangle)]
pub extern "C" fn cegridom_judge_squares_16(
    w: &[u16],
    ends: &[u32],
    blocks: &mut u32,
    index: &mut u32,
) -> u32
    ensures result { result ≡ result_of (squares_judged_outcome w.now ends.now) }
    ensures blocks { blocks.new ≡ value_of 0 (squares_judged_outcome w.now ends.now) }
    ensures index { index.new ≡ index_of (squares_judged_outcome w.now ends.now) }
    ensures meaning { SquaresJudgedMeaning w.now ends.now (squares_judged_outcome w.now ends.now) }
{
    let answer = squares::judge_squares(w, ends);
    super::hand_over(answer, blocks, index)
}

#[unsafe(no_mangle)]
pub extern "C" fn cegridom_path_of_split_16(
    w: &[u16],
    edition: u32,
    ends: &[u32],
    table: &mut [u32],
    blocks: &mut u32,
    index: &mut u32,
) -> u32
    ensures result { result ≡ result_of (path_outcome w.now edition ends.now (length table.old)) }
    ensures blocks { blocks.new ≡ value_of 0 (path_outcome w.now edition ends.now (length table.old)) }
    ensures index { index.new ≡ index_of (path_outcome w.now edition ends.now (length table.old)) }
    ensures written { table.new ≡ path_table w.now edition ends.now table.old }
    ensures meaning { PathHanded w.now edition ends.now table.old table.new }
{
    let answer = paths::path_of_split(w, edition, ends, table);
    super::hand_over(answer, blocks, index)
}

#[unsafe(no_mangle)]
pub extern "C" fn cegridom_judge_path_16(
    w: &[u16],
    edition: u32,
    numbers: &[u32],
    blocks: &mut u32,
    index: &mut u32,
) -> u32
    ensures result { result ≡ result_of (path_judged_outcome w.now edition numbers.now) }
    ensures blocks { blocks.new ≡ value_of 0 (path_judged_outcome w.now edition numbers.now) }
    ensures index { index.new ≡ index_of (path_judged_outcome w.now edition numbers.now) }
    ensures meaning { PathJudgedMeaning w.now edition numbers.now (path_judged_outcome w.now edition numbers.now) }
{
    let answer = paths::judge_path(w, edition, numbers);
    super::hand_over(answer, blocks, index)
}

#[unsafe(no_mangle)]
pub extern "C" fn cegridom_write_page_16(
    w: &[u16],
    edition: u32,
    ends: &[u32],
    out: &mut [u8],
    bytes: &mut u32,
    index: &mut u32,
) -> u32
    ensures result { result ≡ result_of (page_outcome code_form w.now edition ends.now (length out.old)) }
    ensures bytes { bytes.new ≡ value_of 0 (page_outcome code_form w.now edition ends.now (length out.old)) }
    ensures index { index.new ≡ index_of (page_outcome code_form w.now edition ends.now (length out.old)) }
    ensures written { out.new ≡ page_table code_form w.now edition ends.now out.old }
    ensures meaning { PageHanded code_form w.now edition ends.now out.old out.new }
{
    let answer = pages::write_page(w, edition, ends, out);
    super::hand_over(answer, bytes, index)
}
