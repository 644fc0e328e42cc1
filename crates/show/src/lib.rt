// What the test programs share: text on standard output, the generator of their words, and the
// tables of their cases. No contract can say what was written: a printing function gives how many
// bytes it handed to standard output, and its contract fixes that count by the text.
// Kept: numbers are printed by hand, since `Display` says nothing of that count.
#![tactic(auto)]

pub mod cases;

ghost use Rattle.std.specs.Prelude.{◌≡◌, ◌≤◌, length};
ghost use Rattle.decimals.specs.Decimal.{comma, plain};
ghost use Rattle.show.specs.Text.{byte_number, code_text, refusal_text, outcome_text, verdict_text, description_text, numbers_shown, list_text, line_text, part_text, visible_byte, visible_bytes};
ghost use Rattle.show.specs.Generator.{next_seed, letter_of};

use answers::{Code, Refusal};
use decimals::{COMMA, LINE_END, MOST_DIGITS};
use periods::Description;

// The longest list of numbers that is printed.
const MOST: usize = 65536;

// The byte before the numbers of a list.
pub const SPACE: u8 = 32;

// Bytes as they are.
pub fn text(rt: &impl Print, s: &[u8]) -> usize
    ensures { result ≡ length s.now }
{
    let _ = rt.write_all(s);
    s.len()
}

// A number with no leading zeros.
pub fn number(rt: &impl Print, x: u32) -> usize
    ensures { (result ≡ length (plain x)) × (result ≤ 10) }
{
    let mut digits = [0u8; MOST_DIGITS];
    let k = decimals::inner::count(x);
    decimals::inner::write(&mut digits, 0, k, x);
    text(rt, &digits[..k])
}

// A byte and a number.
fn after(rt: &impl Print, before: u8, x: u32) -> usize
    ensures { (result ≡ length (byte_number before x)) × (result ≤ 11) }
{
    text(rt, &[before]) + number(rt, x)
}

// A comma and a number.
pub fn field(rt: &impl Print, x: u32) -> usize
    ensures { (result ≡ length (byte_number comma x)) × (result ≤ 11) }
{
    after(rt, COMMA, x)
}

// The number of a refusal and its index, with a comma between them.
pub fn code(rt: &impl Print, r: Refusal) -> usize
    ensures { (result ≡ length (code_text r)) × (result ≤ 21) }
{
    let Code(kind, index) = r.into();
    number(rt, kind) + field(rt, index)
}

// ",accepted" and the number, or ",refused" and the refusal's numbers, with a comma before each.
pub fn outcome(rt: &impl Print, answer: Result<u32, Refusal>) -> usize
    ensures { result ≡ length (outcome_text answer) }
{
    match answer {
        Ok(n) => text(rt, b",accepted") + field(rt, n),
        Err(r) => refused(rt, r),
    }
}

// ",refused" and the refusal's numbers, with a comma before each.
fn refused(rt: &impl Print, r: Refusal) -> usize
    ensures { (result ≡ length (refusal_text r)) × (result ≤ 30) }
{
    text(rt, b",refused,") + code(rt, r)
}

// What the part call says of a part: unit, turns, rest, and block or not, with a comma before each;
// or its refusal, as in other answers.
pub fn description(rt: &impl Print, answer: Result<Description, Refusal>) -> usize
    ensures { result ≡ length (description_text answer) }
{
    match answer {
        Ok(d) => field(rt, d.period)
            + field(rt, d.exponent)
            + field(rt, d.remainder)
            + verdict(rt, d.repetition),
        Err(r) => refused(rt, r),
    }
}

// Whether a part is a block.
fn verdict(rt: &impl Print, block: bool) -> usize
    ensures { (result ≡ length (verdict_text block)) × (result ≤ 9) }
{
    if block {
        text(rt, b",block")
    } else {
        text(rt, b",no block")
    }
}

// Numbers, a byte before each; none of a list that is longer than the longest.
pub fn numbers(rt: &impl Print, before: u8, xs: &[u32]) -> usize
    ensures { result ≡ length (numbers_shown before xs.now) }
{
    if MOST < xs.len() {
        return 0;
    }
    let mut count = 0;
    for x in xs {
        count += after(rt, before, *x);
    }
    count
}

// A name, a colon, and numbers, each after a space.
pub fn list(rt: &impl Print, name: &[u8], xs: &[u32]) -> usize
    ensures { result ≡ length (list_text name.now xs.now) }
{
    text(rt, name) + text(rt, b":") + numbers(rt, SPACE, xs)
}

// The same, and the line's end.
pub fn list_line(rt: &impl Print, name: &[u8], xs: &[u32]) -> usize
    ensures { result ≡ length (line_text name.now xs.now) }
{
    list(rt, name, xs) + text(rt, b"\n")
}

// A line of the numbers from one place up to another, where the list has them.
pub fn part(rt: &impl Print, name: &[u8], xs: &[u32], from: usize, to: usize) -> usize
    ensures { result ≡ length (part_text name.now xs.now from to) }
{
    match xs.get(from..to) {
        Some(part) => list_line(rt, name, part),
        None => 0,
    }
}

// A byte, the line end as a backslash and an n.
fn visible(rt: &impl Print, b: u8) -> usize
    ensures { (result ≡ length (visible_byte b)) × (result ≤ 2) }
{
    if b == LINE_END {
        text(rt, b"\\n")
    } else {
        text(rt, &[b])
    }
}

// Bytes, each line end as a backslash and an n.
pub fn bytes(rt: &impl Print, s: &[u8]) -> usize
    ensures { result ≡ length (visible_bytes s.now) }
{
    let mut count = 0;
    for b in s {
        count += visible(rt, *b);
    }
    count
}

// The next number of the generator, below 2³¹.
pub fn next(seed: u32) -> u32
    ensures { result ≡ next_seed seed }
{
    let x = u64::from(seed) * 1103515245 + 12345;
    (x % 2147483648) as u32
}

// One of the first letters of the alphabet, by the upper bits of a number; of none as of one.
pub fn letter(x: u32, letters: u32) -> u8
    ensures { result ≡ letter_of x letters }
{
    if letters == 0 {
        return 97;
    }
    let k = x / 65536 % letters;
    (97 + k % 26) as u8
}
