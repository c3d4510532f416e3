//! Whether bytes can be the body of a field, and how long a paragraph and a file may be.

ghost use Rattle.std.specs.Prelude.{◌≡◌, ◌↔◌, IsTrue, drop};
ghost use Rattle.std.specs.List.{list_all};
ghost use Rattle.deb_base.specs.Bodies.{is_blank, is_body_shape, is_continuation, pieces_of, IsBody};

use crate::blank::{begins_with_blank, ends_with_blank, is_only_blanks};

/// The most bytes that the lines of a paragraph may have together, with their newlines (this
/// project's own).
pub const PARAGRAPH_LIMIT: usize = 16_777_216;

/// The most bytes that a file may have, and its canonical text (this project's own).
pub const FILE_LIMIT: u64 = 4_294_967_295;

/// Returns whether the bytes can be the body of a field (Debian Policy 5.1): UTF-8 without a space
/// or tab at either end, in which each line after the first begins with one and isn't blank. The
/// empty text is one.
///
/// A line is blank if it has only spaces and tabs, and fewer than 16,777,216 of them.
pub fn is_body(body: &[u8]) -> bool
    ensures { IsTrue result ↔ IsBody body.now }
{
    has_body_shape(body) && str::from_utf8(body).is_ok()
}

fn has_body_shape(body: &[u8]) -> bool
    ensures { result ≡ is_body_shape body.now }
{
    !begins_with_blank(body) && !ends_with_blank(body) && continues(body)
}

/// Whether each line after the first is a continuation line.
fn continues(body: &[u8]) -> bool
    ensures { result ≡ list_all is_continuation (drop 1 (pieces_of body.now)) }
{
    body.split(|byte| *byte == b'\n')
        .skip(1)
        .all(|line| is_continuation(line))
}

fn is_continuation(line: &[u8]) -> bool
    ensures { result ≡ is_continuation line.now }
{
    begins_with_blank(line) && !is_blank_line(line)
}

#[tactic(auto, unfolding(crate::specs::Bodies::paragraph_limit))]
fn is_blank_line(line: &[u8]) -> bool
    ensures { result ≡ is_blank line.now }
{
    line.len() < PARAGRAPH_LIMIT && is_only_blanks(line)
}
