// The bench program: reads one line from standard input, and prints its report.
#![tactic(auto)]

ghost use Rattle.std.specs.Prelude.{◌≡◌, ◌≤◌, ◌<◌, length};
ghost use Rattle.report.specs.Text.{program_limit, text};
ghost use Rattle.bench.specs.Line.{line_length, Holds};

use decimals::LINE_END;
use std::io::{self, Read};

// One byte more than the program takes tells a line that is too long.
const ENOUGH: usize = report::PROGRAM_LIMIT + 1;

// How reading a line ended.
#[derive(Clone, Copy, Debug, PartialEq, Eq)]
enum Input {
    // byte 10 stands at this place
    Ended(usize),
    // the input was over after so many bytes
    Over(usize),
    // the bytes are all taken, and byte 10 did not come
    Full,
}

// How many bytes stand before the first byte 10; all of them where there is none.
fn line_length(s: &[u8]) -> usize
    ensures value { result ≡ line_length s.now }
    ensures upper_bound { result ≤ length s.now }
{
    for (i, b) in s.iter().enumerate() {
        if *b == LINE_END {
            return i;
        }
    }
    s.len()
}

// Reads until byte 10 came, buf is full, the input is over or a read fails, in whatever pieces the
// bytes come. It does not wait for more after byte 10.
fn read_line(input: &mut impl Read, buf: &mut [u8]) -> io::Result<Input>
    ensures { Holds buf.new result }
{
    let n = buf.len();
    let mut have: usize = 0;
    // Kept: two ends move by as many bytes as come, a range would be no plainer.
    while have < n {
        let more = input.read(&mut buf[have..])?;
        if more == 0 {
            return Ok(Input::Over(have));
        }
        let from = have;
        have += more;
        let place = from + line_length(&buf[from..have]);
        if place < have {
            return Ok(Input::Ended(place));
        }
    }
    Ok(Input::Full)
}

// Writes the text of a word to standard output. Where that fails, says so on standard error: a
// program has no exit status to tell it by. The word is there for what is required.
fn say(rt: &(impl Print + Eprint), word: &[u8], bytes: &[u8])
    requires { bytes.now ≡ text word.now }
{
    if rt.write_all(bytes).is_err() {
        let _ = rt.eprintln("bench: the report was not written");
    }
}

// Prints the report of a word.
fn print_report(rt: &(impl Print + Eprint), word: &[u8]) {
    let mut out = [0u8; report::LONGEST_REPORT];
    let n = report::report(word, &mut out);
    say(rt, word, &out[..n]);
}

// Prints the report of bytes that filled the buffer: they are the start of a line that is too long.
fn print_long(rt: &(impl Print + Eprint), bytes: &[u8])
    requires { program_limit < length bytes.now }
{
    print_report(rt, bytes);
}

fn main(rt: HostRuntime) {
    let mut buf = [0u8; ENOUGH];
    match read_line(&mut rt.stdin(), &mut buf) {
        Ok(Input::Ended(n) | Input::Over(n)) => print_report(&rt, &buf[..n]),
        Ok(Input::Full) => print_long(&rt, &buf),
        Err(_) => {
            let _ = rt.eprintln("bench: the input could not be read");
        }
    }
}
