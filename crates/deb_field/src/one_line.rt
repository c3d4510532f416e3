//! The test that a body has only one line.

ghost use Rattle.std.specs.Prelude.{◌≡◌, Some};
ghost use Rattle.deb_field.specs.OneLine.{holds_newline, line_refusal};

use deb_base::Code;

/// Whether a body has more than one line.
pub(crate) fn holds_newline(body: &[u8]) -> bool
    ensures { result ≡ holds_newline body.now }
{
    body.contains(&b'\n')
}

/// Why a body is refused that has to be of one line, and whose line is refused with this code.
#[cold]
pub(crate) fn refusal_of_line(body: &[u8], code: Code) -> Code
    ensures { line_refusal body.now (Some code) ≡ Some result }
{
    if holds_newline(body) {
        Code::NotOneLine
    } else {
        code
    }
}
