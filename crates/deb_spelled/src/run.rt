//! Runs of bytes at the start of what is left of a text.

ghost use Rattle.std.specs.Prelude.{◌≡◌, ◌≤◌, drop, length};
ghost use Rattle.std.specs.List.{prefix_len};
ghost use Rattle.deb_relation.specs.Reading.{begins, behind_run, behind_white, is_before, is_in_name, is_in_operator, is_white};
ghost use Rattle.deb_spelled.specs.Alternatives.{is_gap};
ghost use Rattle.deb_spelled.specs.Parts.{behind_byte, formula_len, is_in_alternative, is_in_brackets};

/// Space, tab and newline.
fn is_white(byte: u8) -> bool
    ensures { result ≡ is_white byte }
{
    byte == b' ' || byte == b'\t' || byte == b'\n'
}

/// White space, and the comma after a group.
fn is_gap(byte: u8) -> bool
    ensures { result ≡ is_gap byte }
{
    is_white(byte) || byte == b','
}

/// The bytes of a name or a qualifier.
fn is_in_name(byte: u8) -> bool
    ensures { result ≡ is_in_name byte }
{
    !(is_white(byte)
        || matches!(
            byte,
            b',' | b'|' | b'(' | b')' | b'[' | b']' | b'<' | b'>' | b':'
        ))
}

/// The bytes of an operator.
fn is_in_operator(byte: u8) -> bool
    ensures { result ≡ is_in_operator byte }
{
    byte == b'<' || byte == b'=' || byte == b'>'
}

/// The bytes of a version.
fn is_in_version(byte: u8) -> bool
    ensures { result ≡ is_before 41 byte }
{
    !(is_white(byte) || byte == b')')
}

/// The bytes between the brackets of an architecture list.
fn is_in_brackets(byte: u8) -> bool
    ensures { result ≡ is_in_brackets byte }
{
    byte != b']'
}

/// The bytes before the comma or the bar after an alternative.
fn is_in_alternative(byte: u8) -> bool
    ensures { result ≡ is_in_alternative byte }
{
    !(byte == b',' || byte == b'|')
}

/// Returns whether a text begins with this byte.
pub(crate) fn begins(text: &[u8], byte: u8) -> bool
    ensures { result ≡ begins byte text.now }
{
    matches!(text, [first, ..] if *first == byte)
}

fn white_length(text: &[u8]) -> usize
    ensures value { result ≡ prefix_len is_white text.now }
    ensures bound { result ≤ length text.now }
{
    text.iter().take_while(|byte| is_white(**byte)).count()
}

/// Returns the text after white space.
pub(crate) fn skip_white(text: &[u8]) -> &[u8]
    ensures { result.now ≡ behind_white text.now }
{
    &text[white_length(text)..]
}

fn gap_length(text: &[u8]) -> usize
    ensures value { result ≡ prefix_len is_gap text.now }
    ensures bound { result ≤ length text.now }
{
    text.iter().take_while(|byte| is_gap(**byte)).count()
}

/// Returns the text after white space and commas.
pub(crate) fn skip_gap(text: &[u8]) -> &[u8]
    ensures { result.now ≡ behind_run is_gap text.now }
{
    &text[gap_length(text)..]
}

/// Returns the text after this byte, if it begins with it.
pub(crate) fn skip_byte(text: &[u8], byte: u8) -> &[u8]
    ensures { result.now ≡ behind_byte byte text.now }
{
    if begins(text, byte) { &text[1..] } else { text }
}

/// Returns the text after its first byte.
pub(crate) fn skip_one(text: &[u8]) -> &[u8]
    ensures { result.now ≡ drop 1 text.now }
{
    match text {
        [_, rest @ ..] => rest,
        [] => text,
    }
}

/// Returns how many bytes of a name a text begins with.
pub(crate) fn name_length(text: &[u8]) -> usize
    ensures value { result ≡ prefix_len is_in_name text.now }
    ensures bound { result ≤ length text.now }
{
    text.iter().take_while(|byte| is_in_name(**byte)).count()
}

/// Returns how many bytes of an operator a text begins with.
pub(crate) fn operator_length(text: &[u8]) -> usize
    ensures value { result ≡ prefix_len is_in_operator text.now }
    ensures bound { result ≤ length text.now }
{
    text.iter()
        .take_while(|byte| is_in_operator(**byte))
        .count()
}

/// Returns how many bytes of a version a text begins with.
pub(crate) fn version_length(text: &[u8]) -> usize
    ensures value { result ≡ prefix_len (is_before 41) text.now }
    ensures bound { result ≤ length text.now }
{
    text.iter().take_while(|byte| is_in_version(**byte)).count()
}

/// Returns how many bytes there are before a closing bracket.
pub(crate) fn brackets_length(text: &[u8]) -> usize
    ensures value { result ≡ prefix_len is_in_brackets text.now }
    ensures bound { result ≤ length text.now }
{
    text.iter()
        .take_while(|byte| is_in_brackets(**byte))
        .count()
}

/// Returns how many bytes there are before a comma or a bar.
pub(crate) fn alternative_length(text: &[u8]) -> usize
    ensures value { result ≡ prefix_len is_in_alternative text.now }
    ensures bound { result ≤ length text.now }
{
    text.iter()
        .take_while(|byte| is_in_alternative(**byte))
        .count()
}

/// Returns how many bytes a text has up to its last `>`, with it.
pub(crate) fn formula_length(text: &[u8]) -> usize
    ensures { result ≡ formula_len text.now }
{
    let mut end = text.len();
    while end > 0 && text[end - 1] != b'>' {
        end -= 1;
    }
    end
}
