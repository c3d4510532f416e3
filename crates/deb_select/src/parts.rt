//! Cuts the text of a condition into its parts.

ghost use Rattle.std.specs.Prelude.{◌≡◌, ◌≤◌, if◌then◌else◌, length};
ghost use Rattle.std.specs.List.{list_all, prefix_len};
ghost use Rattle.deb_base.specs.FieldNames.{is_name, is_name_byte as is_valid_byte, may_begin_name};
ghost use Rattle.deb_base.specs.Trimming.{without_leading_blanks};
ghost use Rattle.deb_select.specs.Grammar.{is_name_byte, is_operator_byte, is_word_byte};
ghost use Rattle.deb_select.specs.Grammar.{operator_test, parts_of};
ghost use Rattle.deb_select.specs.Kept.{parts_shown};

use deb_base::{is_blank_byte, trimmed};

/// The parts of a condition's text, each with its offset. An absent operator is empty, and so is an
/// absent value.
#[derive(Clone, Copy)]
pub(crate) struct Parts<'a> {
    pub(crate) name: &'a [u8],
    pub(crate) name_at: usize,
    pub(crate) operator: &'a [u8],
    pub(crate) operator_at: usize,
    pub(crate) value: &'a [u8],
    pub(crate) value_at: usize,
}

impl<'a> Parts<'a> {
    /// Returns the parts of a text.
    pub(crate) fn of(text: &'a [u8]) -> Parts<'a>
        ensures { parts_shown result ≡ parts_of text.now }
    {
        let from_name = without_leading_blanks(text);
        let name_len = name_len(from_name);
        let from_operator = without_leading_blanks(&from_name[name_len..]);
        let operator_len = operator_len(from_operator);
        let from_value = without_leading_blanks(&from_operator[operator_len..]);
        Parts {
            name: &from_name[..name_len],
            name_at: text.len().saturating_sub(from_name.len()),
            operator: &from_operator[..operator_len],
            operator_at: text.len().saturating_sub(from_operator.len()),
            value: trimmed(from_value),
            value_at: text.len().saturating_sub(from_value.len()),
        }
    }
}

/// Returns the text without the spaces and tabs at its start.
fn without_leading_blanks(text: &[u8]) -> &[u8]
    ensures { result.now ≡ without_leading_blanks text.now }
{
    let mut rest = text;
    while let [b' ' | b'\t', behind @ ..] = rest {
        rest = behind;
    }
    rest
}

/// How many bytes of a name the text begins with.
fn name_len(text: &[u8]) -> usize
    ensures value { result ≡ prefix_len is_name_byte text.now }
    ensures bound { result ≤ length text.now }
{
    text.iter().take_while(|byte| is_name_byte(**byte)).count()
}

/// How many bytes of an operator the text begins with: bytes of operators, or a word.
fn operator_len(text: &[u8]) -> usize
    ensures value { result ≡ prefix_len (operator_test text.now) text.now }
    ensures bound { result ≤ length text.now }
{
    if begins_operator(text) {
        text.iter()
            .take_while(|byte| is_operator_byte(**byte))
            .count()
    } else {
        text.iter()
            .take_while(|byte| !is_blank_byte(**byte))
            .count()
    }
}

/// Whether the first byte is one of an operator.
fn begins_operator(text: &[u8]) -> bool
    ensures { operator_test text.now ≡ (if result then is_operator_byte else is_word_byte) }
{
    match text {
        [first, ..] => is_operator_byte(*first),
        [] => false,
    }
}

/// Whether a byte is neither a space nor a tab, nor one of an operator.
fn is_name_byte(byte: u8) -> bool
    ensures { result ≡ is_name_byte byte }
{
    !(is_blank_byte(byte) || is_operator_byte(byte))
}

/// Whether a byte is one of `=`, `!=`, `<<`, `>>` and `~`.
fn is_operator_byte(byte: u8) -> bool
    ensures { result ≡ is_operator_byte byte }
{
    matches!(byte, b'!' | b'<' | b'=' | b'>' | b'~')
}

/// Returns whether a text is the name of a field (Debian Policy 5.1).
pub(crate) fn is_field_name(text: &[u8]) -> bool
    ensures { result ≡ is_name text.now }
{
    match text {
        [first, ..] => may_begin_name(*first) && has_only_name_bytes(text),
        [] => false,
    }
}

fn has_only_name_bytes(text: &[u8]) -> bool
    ensures { result ≡ list_all is_valid_byte text.now }
{
    text.iter().all(|byte| is_valid_byte(*byte))
}

/// Whether a byte is neither `#` nor `-`.
fn may_begin_name(byte: u8) -> bool
    ensures { result ≡ may_begin_name byte }
{
    byte != b'#' && byte != b'-'
}

/// Whether a byte is one from `!` to `~` without the colon.
fn is_valid_byte(byte: u8) -> bool
    ensures { result ≡ is_valid_byte byte }
{
    byte.is_ascii_graphic() && byte != b':'
}
