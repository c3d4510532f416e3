//! The cells of a line.

ghost use Rattle.std.specs.Prelude.{◌≡◌, ◌+◌, ◌≤◌, length, IfSome};
ghost use Rattle.deb_rows.specs.Cells.{begins_with_at, begins_with_by, begins_with_number, begins_with_space, begins_with_zero, cell_of, ends_with_colon, fits, has_bytes, stops};
ghost use Rattle.deb_rows.specs.Reads.{read_cell};

/// What a cell may be. No cell has a newline.
#[derive(Clone, Copy)]
pub(crate) enum Class {
    /// Decimal digits, at least one.
    Number,
    /// Bytes that aren't spaces; the last one isn't a colon.
    Word,
    /// Lower-case letters, at least one.
    Key,
    /// A text without a colon and a space after it.
    Alternative,
    /// A text that doesn't begin with a number and a space.
    Reason,
    /// Any text.
    Line,
    /// A text without a space and `by`, a space and a digit after it.
    Group,
    /// A text without a space and `@` after it.
    Phrase,
    /// Decimal digits, at least one; the first isn't 0.
    Place,
}

/// The length of the cell at the start of a text, if there is one, with this text after it.
#[tactic(auto, unfolding(crate::specs::Reads::read_cell))]
pub(crate) fn read_cell(class: Class, after: &[u8], text: &[u8]) -> Option<usize>
    ensures reads { result ≡ read_cell class after.now text.now }
    ensures within { IfSome result (λ n. n + length after.now ≤ length text.now) }
{
    let length = cell_length(class, text);
    if fits(class, &text[..length]) && text[length..].starts_with(after) {
        Some(length)
    } else {
        None
    }
}

/// The number of bytes before the first that ends a cell.
fn cell_length(class: Class, text: &[u8]) -> usize
    ensures cell { result ≡ length (cell_of class text.now) }
    ensures within { result ≤ length text.now }
{
    for i in 0..text.len() {
        if stops(class, text[i], &text[i + 1..]) {
            return i;
        }
    }
    text.len()
}

/// Whether a byte ends a cell, before a text.
fn stops(class: Class, byte: u8, after: &[u8]) -> bool
    ensures { result ≡ stops class byte after.now }
{
    match class {
        Class::Number | Class::Place => !byte.is_ascii_digit(),
        Class::Word => byte == b' ' || byte == b'\n',
        Class::Key => !byte.is_ascii_lowercase(),
        Class::Alternative => byte == b'\n' || byte == b':' && begins_with_space(after),
        Class::Reason | Class::Line => byte == b'\n',
        Class::Group => byte == b'\n' || byte == b' ' && begins_with_by(after),
        Class::Phrase => byte == b'\n' || byte == b' ' && begins_with_at(after),
    }
}

/// Whether a text begins with a space.
fn begins_with_space(text: &[u8]) -> bool
    ensures { result ≡ begins_with_space text.now }
{
    match text {
        [] => false,
        [first, ..] => *first == b' ',
    }
}

/// Whether a text begins with `@`.
fn begins_with_at(text: &[u8]) -> bool
    ensures { result ≡ begins_with_at text.now }
{
    match text {
        [] => false,
        [first, ..] => *first == b'@',
    }
}

/// Whether a text begins with `by`, a space and a digit.
fn begins_with_by(text: &[u8]) -> bool
    ensures { result ≡ begins_with_by text.now }
{
    match text {
        [first, second, third, fourth, ..] => {
            *first == b'b' && *second == b'y' && *third == b' ' && fourth.is_ascii_digit()
        }
        _ => false,
    }
}

/// Whether a text is a cell, if no byte ends it.
fn fits(class: Class, text: &[u8]) -> bool
    ensures { result ≡ fits class text.now }
{
    match class {
        Class::Number | Class::Key => has_bytes(text),
        Class::Word => !ends_with_colon(text),
        Class::Reason => !begins_with_number(text),
        Class::Place => has_bytes(text) && !begins_with_zero(text),
        Class::Alternative | Class::Line | Class::Group | Class::Phrase => true,
    }
}

fn has_bytes(text: &[u8]) -> bool
    ensures { result ≡ has_bytes text.now }
{
    !text.is_empty()
}

fn begins_with_zero(text: &[u8]) -> bool
    ensures { result ≡ begins_with_zero text.now }
{
    match text {
        [] => false,
        [first, ..] => *first == b'0',
    }
}

fn ends_with_colon(text: &[u8]) -> bool
    ensures { result ≡ ends_with_colon text.now }
{
    !text.is_empty() && text[text.len() - 1] == b':'
}

/// Whether a text begins with a number and a space.
fn begins_with_number(text: &[u8]) -> bool
    ensures { result ≡ begins_with_number text.now }
{
    let mut some = false;
    for byte in text {
        if !byte.is_ascii_digit() {
            return some && *byte == b' ';
        }
        some = true;
    }
    false
}
