// The form of a plan line: its layout, by the digits of a number, and the test that bytes are one.
#![tactic(auto)]

ghost use Rattle.std.specs.Prelude.{◌≡◌};
ghost use Rattle.plan_lines.specs.Line.{prefix_of, width_of, needs_long, long?, needless?, line?};
ghost use Rattle.plan_lines.specs.Kinds.{is_long};

pub mod inner;

use decimals::LINE_END;

// The five bytes that a line begins with, and those that a long line begins with.
pub const PREFIX: [u8; 5] = *b"plan,";

pub const LONG_PREFIX: [u8; 5] = *b"long,";

// The digits of a number, and those of a number in a long line.
pub const WIDTH: usize = 4;

pub const LONG_WIDTH: usize = 6;

// Above this n a plan has a long line.
pub const LINE_LIMIT: usize = 4096;

// Where n stands.
pub const LENGTH_PLACE: usize = 5;

// The kinds of line: a plan line, and the long line of a plan of more than 4,096 passes.
#[derive(Clone, Copy, Debug, PartialEq, Eq)]
pub enum Kind {
    Plain,
    Long,
}

impl Kind {
    // The kind of line that a plan of n has.
    pub fn of(n: u32) -> Kind
        ensures { is_long result ≡ needs_long n }
    {
        if LINE_LIMIT < n as usize {
            Kind::Long
        } else {
            Kind::Plain
        }
    }

    // The kind of line that s begins as.
    pub fn begun(s: &[u8]) -> Kind
        ensures { is_long result ≡ long? s.now }
    {
        if s.starts_with(&LONG_PREFIX) {
            Kind::Long
        } else {
            Kind::Plain
        }
    }

    // The digits of a number in the line.
    pub fn width(self) -> usize
        ensures { result ≡ width_of (is_long self) }
    {
        match self {
            Kind::Plain => WIDTH,
            Kind::Long => LONG_WIDTH,
        }
    }

    // The bytes that the line begins with.
    fn prefix(self) -> [u8; 5]
        ensures { result ≡ prefix_of (is_long self) }
    {
        match self {
            Kind::Plain => PREFIX,
            Kind::Long => LONG_PREFIX,
        }
    }

    // Whether the line of n is a long one without need.
    fn needless(self, n: u32) -> bool
        ensures { result ≡ needless? (is_long self) n }
    {
        match self {
            Kind::Plain => false,
            Kind::Long => n as usize <= LINE_LIMIT,
        }
    }
}

// Whether the bytes are one line of a kind whose count of ends is the one stated.
pub fn is_line(kind: Kind, s: &[u8]) -> bool
    ensures { result ≡ line? (is_long kind) s.now }
{
    let len = s.len();
    let count_at = kind.count_place();
    if len < kind.bytes_for(0) {
        return false;
    }
    if !s.starts_with(&kind.prefix()) {
        return false;
    }
    if !inner::field_at(kind, s, LENGTH_PLACE) {
        return false;
    }
    if kind.needless(kind.number(s, LENGTH_PLACE)) {
        return false;
    }
    if !inner::field_at(kind, s, count_at) {
        return false;
    }
    let count = kind.number(s, count_at) as usize;
    if len != kind.bytes_for(count) {
        return false;
    }
    if !inner::ends_at(kind, s, count) {
        return false;
    }
    s[len - 1] == LINE_END
}
