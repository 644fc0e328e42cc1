// The form of a line of a page: its columns, and the line written into lent bytes.
#![tactic(auto)]

ghost use Rattle.std.specs.Prelude.{◌≡◌};
ghost use Rattle.page_lines.specs.Line.{byte_form, code_form};

pub mod form;
pub mod inner;

pub use form::Form;

// The bytes of a line: its columns, and the line's end.
pub const LINE_BYTES: usize = 61;

// A byte takes two digits, and nine are shown; a 16-bit code takes four, and four are shown.
const BYTE_DIGITS: usize = 2;

const BYTE_SHOWN: usize = 9;

const CODE_DIGITS: usize = 4;

const CODE_SHOWN: usize = 4;

// The form of a page of bytes.
pub fn byte_form() -> Form
    ensures { result ≡ byte_form }
{
    Form {
        digits: BYTE_DIGITS,
        shown: BYTE_SHOWN,
    }
}

// The form of a page of 16-bit codes.
pub fn code_form() -> Form
    ensures { result ≡ code_form }
{
    Form {
        digits: CODE_DIGITS,
        shown: CODE_SHOWN,
    }
}
