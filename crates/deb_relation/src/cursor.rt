//! White space and runs of bytes, at the beginning of what is left of a text.

ghost use Rattle.std.specs.Prelude.{◌≡◌, ◌≤◌, length, IsFalse};
ghost use Rattle.std.specs.List.{prefix_len};
ghost use Rattle.deb_relation.specs.Reading.{begins, behind_white, is_at_end, is_before, is_in_name, is_in_operator, is_white, behind_run, run_of};

use crate::name_byte::is_in_name;

/// Space, tab and newline.
pub(crate) fn is_white(byte: u8) -> bool
    ensures { result ≡ is_white byte }
{
    byte == b' ' || byte == b'\t' || byte == b'\n'
}

/// What is left after white space.
pub(crate) fn skip_white(text: &[u8]) -> &[u8]
    ensures value { result.now ≡ behind_white text.now }
    ensures bound { length result.now ≤ length text.now }
{
    &text[white_len(text)..]
}

/// How many bytes of white space a text begins with.
fn white_len(text: &[u8]) -> usize
    ensures value { result ≡ prefix_len is_white text.now }
    ensures bound { result ≤ length text.now }
{
    text.iter().take_while(|byte| is_white(**byte)).count()
}

/// Whether a text begins with this byte.
pub(crate) fn begins(text: &[u8], byte: u8) -> bool
    ensures { result ≡ begins byte text.now }
{
    matches!(text, [first, ..] if *first == byte)
}

/// Whether a text begins with a byte of a name.
pub(crate) fn begins_name(text: &[u8]) -> bool
    ensures { IsFalse result → prefix_len is_in_name text.now ≡ 0 }
{
    matches!(text, [first, ..] if is_in_name(*first))
}

fn name_len(text: &[u8]) -> usize
    ensures value { result ≡ prefix_len is_in_name text.now }
    ensures bound { result ≤ length text.now }
{
    text.iter().take_while(|byte| is_in_name(**byte)).count()
}

/// The run of a name, and what is left after it.
pub(crate) fn cut_name(text: &[u8]) -> (&[u8], &[u8])
    ensures run { result.0.now ≡ run_of is_in_name text.now }
    ensures behind { result.1.now ≡ behind_run is_in_name text.now }
{
    text.split_at(name_len(text))
}

fn is_in_operator(byte: u8) -> bool
    ensures { result ≡ is_in_operator byte }
{
    byte == b'<' || byte == b'=' || byte == b'>'
}

fn operator_len(text: &[u8]) -> usize
    ensures value { result ≡ prefix_len is_in_operator text.now }
    ensures bound { result ≤ length text.now }
{
    text.iter()
        .take_while(|byte| is_in_operator(**byte))
        .count()
}

/// The run of an operator, and what is left after it.
pub(crate) fn cut_operator(text: &[u8]) -> (&[u8], &[u8])
    ensures run { result.0.now ≡ run_of is_in_operator text.now }
    ensures behind { result.1.now ≡ behind_run is_in_operator text.now }
{
    text.split_at(operator_len(text))
}

fn len_before(text: &[u8], close: u8) -> usize
    ensures value { result ≡ prefix_len (is_before close) text.now }
    ensures bound { result ≤ length text.now }
{
    text.iter()
        .take_while(|byte| !(is_white(**byte) || **byte == close))
        .count()
}

/// The run of a version or of an item, which ends at white space and at a closing byte, and what is
/// left after it.
pub(crate) fn cut_before(text: &[u8], close: u8) -> (&[u8], &[u8])
    ensures run { result.0.now ≡ run_of (is_before close) text.now }
    ensures behind { result.1.now ≡ behind_run (is_before close) text.now }
{
    text.split_at(len_before(text, close))
}
