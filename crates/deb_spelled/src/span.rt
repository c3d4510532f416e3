//! A part of a text.

ghost use Rattle.std.specs.Prelude.{◌≡◌};
ghost use Rattle.deb_spelled.specs.Parts.{no_span, span_at};

/// Where a part is in its text. A part that is absent has the offset 0 and the length 0.
#[repr(C)]
#[derive(Clone, Copy, Debug, PartialEq, Eq)]
pub struct Span {
    /// The offset of its first byte.
    pub start: usize,
    /// How many bytes it has.
    pub length: usize,
}

/// No part.
pub(crate) fn no_span() -> Span
    ensures { result ≡ no_span }
{
    Span {
        start: 0,
        length: 0,
    }
}

/// The span of a part of so many bytes, at the start of what is left of a text of `total` bytes.
pub(crate) fn span_at(total: usize, rest: &[u8], length: usize) -> Span
    ensures { result ≡ span_at total rest.now length }
{
    if length == 0 {
        no_span()
    } else {
        Span {
            start: total.saturating_sub(rest.len()),
            length,
        }
    }
}
