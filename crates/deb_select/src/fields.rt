//! The lines of some fields of a paragraph.

ghost use Rattle.std.specs.Prelude.{◌≡◌, ◌↔◌, ◌≤◌, ◌<◌, ◌+◌, ◌==◌, ◌++◌, ◌∷◌, [], IfOk, IsTrue};
ghost use Rattle.std.specs.Prelude.{OnOk, length, map, not};
ghost use Rattle.std.specs.List.{before_first, position_or_len};
ghost use Rattle.std.specs.Option.{option_map};
ghost use Rattle.deb_base.specs.Bodies.{newline, pieces_of};
ghost use Rattle.deb_base.specs.FieldNames.{colon};
ghost use Rattle.deb_syntax.specs.Lines.{with_newlines};
ghost use Rattle.deb_select.specs.Fields.{begins_field, continuations, field_lines, fields_lines};
ghost use Rattle.deb_select.specs.Rests.{bytes_left, lines_left};

use deb_base::{begins_with_blank, same_name};
use memchr::memchr;
use std::alloc::{AllocError, Global};

/// Returns the lines of the fields with these names, in the order of the names, each ended by a
/// newline.
///
/// # Errors
///
/// Out of memory.
pub(crate) fn fields_text(
    alloc: Global,
    names: &[Vec<u8>],
    text: &[u8],
) -> Result<Vec<u8>, AllocError>
    ensures { IfOk result (λ out. out.items
        ≡ with_newlines (fields_lines (map (λ name. name.items) names.now) (pieces_of text.now))) }
{
    let mut out = Vec::new(alloc);
    for name in names {
        push_field(&mut out, name.as_slice(), text)?;
    }
    Ok(out)
}

/// Appends the lines of the field with a name, if the text has it.
fn push_field(out: &mut Vec<u8>, name: &[u8], text: &[u8]) -> Result<(), AllocError>
    ensures { OnOk result (out.new.items ≡ out.old.items
        ++ with_newlines (field_lines name.now (pieces_of text.now))) }
{
    let mut rest = Some(text);
    while let Some(lines) = rest {
        let (line, behind) = first_line(lines);
        if begins_field(name, line) {
            push_line(out, line)?;
            return push_continuations(out, behind);
        }
        rest = behind;
    }
    Ok(())
}

/// Appends the continuation lines with which a text begins.
fn push_continuations(out: &mut Vec<u8>, text: Option<&[u8]>) -> Result<(), AllocError>
    ensures { OnOk result (out.new.items ≡ out.old.items
        ++ with_newlines (continuations (lines_left (option_map (λ t. t.now) text.entry)))) }
{
    let mut rest = text;
    while let Some(lines) = rest {
        let (line, behind) = first_line(lines);
        if !begins_with_blank(line) {
            return Ok(());
        }
        push_line(out, line)?;
        rest = behind;
    }
    Ok(())
}

/// Returns the first line of a text, and what follows its newline, if it has one.
fn first_line(text: &[u8]) -> (&[u8], Option<&[u8]>)
    ensures lines { result.0.now ∷ lines_left (option_map (λ t. t.now) result.1)
        ≡ pieces_of text.now }
    ensures fewer { bytes_left (option_map (λ t. t.now) result.1) < 1 + length text.now }
{
    match memchr(b'\n', text) {
        Some(at) => (&text[..at], Some(&text[at + 1..])),
        None => (text, None),
    }
}

/// Appends a line and a newline.
fn push_line(out: &mut Vec<u8>, line: &[u8]) -> Result<(), AllocError>
    ensures { OnOk result (out.new.items ≡ out.old.items ++ (line.now ++ newline ∷ [])) }
{
    out.extend_from_slice(line)?;
    out.push(b'\n')?;
    Ok(())
}

/// Whether a line is the first one of the field with a name.
fn begins_field(name: &[u8], line: &[u8]) -> bool
    ensures { result ≡ begins_field name.now line.now }
{
    !begins_with_blank(line) && same_name(before_colon(line), name)
}

/// Returns the text before the first colon, or all if there is none.
fn before_colon(line: &[u8]) -> &[u8]
    ensures { result.now ≡ before_first (λ b. b == colon) line.now }
{
    &line[..colon_at(line)]
}

/// Returns the offset of the first colon, or the length if there is none.
fn colon_at(line: &[u8]) -> usize
    ensures value { result ≡ position_or_len (λ b. b == colon) line.now }
    ensures bound { result ≤ length line.now }
{
    line.iter().take_while(|byte| **byte != b':').count()
}
