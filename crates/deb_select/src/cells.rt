//! The lines of a table.

ghost use Rattle.std.specs.Prelude.{◌≡◌, ◌<◌, ◌≤◌, ◌++◌, ◌∷◌, [], IfOk, OnOk, Option, Some};
ghost use Rattle.std.specs.Prelude.{is_some, length, map};
ghost use Rattle.std.specs.List.{flat_map, list_all, prefix_len};
ghost use Rattle.deb_base.specs.Bodies.{newline};
ghost use Rattle.deb_control.specs.CheckedStates.{doc_judged, passing_judged};
ghost use Rattle.deb_control.specs.FieldWords.{value_under};
ghost use Rattle.deb_control.specs.Paragraphs.{AreValuesOf};
ghost use Rattle.deb_control.specs.ValueFiles.{ValueEntries};
ghost use Rattle.deb_field.specs.Values.{ValueMeaning};
ghost use Rattle.deb_select.specs.Tables.{cell, cell_byte, has_fields, hex_digit, is_plain};
ghost use Rattle.deb_select.specs.Tables.{more_cells, row};

use crate::shown_value::text_of;
use deb_control::CheckedView;
use std::alloc::{AllocError, Global};

/// Appends the line of a table with these fields of a paragraph, and returns whether it has them
/// all.
///
/// # Errors
///
/// Out of memory.
pub(crate) fn push_row(
    alloc: Global,
    out: &mut Vec<u8>,
    names: &[Vec<u8>],
    paragraph: &CheckedView<'_>,
) -> Result<bool, AllocError>
    ensures line { (values : ValueEntries ValueMeaning)
        → AreValuesOf (doc_judged paragraph.now) (passing_judged paragraph.now).seen values
        → OnOk result (out.new.items ≡ out.old.items
        ++ (row (map (λ name. name.items) names.now) values ++ newline ∷ [])) }
    ensures full { (values : ValueEntries ValueMeaning)
        → AreValuesOf (doc_judged paragraph.now) (passing_judged paragraph.now).seen values
        → IfOk result (λ full. full ≡ has_fields (map (λ name. name.items) names.now) values) }
{
    let [first, more @ ..] = names else {
        out.push(b'\n')?;
        return Ok(true);
    };
    let there = push_cell(alloc, out, first.as_slice(), paragraph)?;
    let others = push_more(alloc, out, more, paragraph)?;
    out.push(b'\n')?;
    Ok(there & others)
}

/// Appends the cells after the first, each after a tab, and returns whether no field is absent.
fn push_more(
    alloc: Global,
    out: &mut Vec<u8>,
    names: &[Vec<u8>],
    paragraph: &CheckedView<'_>,
) -> Result<bool, AllocError>
    ensures cells { (values : ValueEntries ValueMeaning)
        → AreValuesOf (doc_judged paragraph.now) (passing_judged paragraph.now).seen values
        → OnOk result (out.new.items ≡ out.old.items
        ++ more_cells (map (λ name. name.items) names.now) values) }
    ensures full { (values : ValueEntries ValueMeaning)
        → AreValuesOf (doc_judged paragraph.now) (passing_judged paragraph.now).seen values
        → IfOk result (λ full. full ≡ has_fields (map (λ name. name.items) names.now) values) }
{
    let mut full = true;
    for name in names {
        out.push(b'\t')?;
        let there = push_cell(alloc, out, name.as_slice(), paragraph)?;
        full &= there;
    }
    Ok(full)
}

/// Appends the cell of the field with a name, nothing if it is absent, and returns whether it is
/// there.
fn push_cell(
    alloc: Global,
    out: &mut Vec<u8>,
    name: &[u8],
    paragraph: &CheckedView<'_>,
) -> Result<bool, AllocError>
    ensures written { (values : ValueEntries ValueMeaning)
        → AreValuesOf (doc_judged paragraph.now) (passing_judged paragraph.now).seen values
        → OnOk result (out.new.items ≡ out.old.items ++ cell (value_under name.now values)) }
    ensures there { (values : ValueEntries ValueMeaning)
        → AreValuesOf (doc_judged paragraph.now) (passing_judged paragraph.now).seen values
        → IfOk result (λ there. there ≡ is_some (value_under name.now values)) }
{
    let Some(value) = paragraph.value(alloc, name)? else {
        return Ok(false);
    };
    let text = text_of(alloc, &value)?;
    push_text(out, text.as_slice())?;
    Ok(true)
}

/// Appends a text of which no byte ends a cell.
pub(crate) fn push_text(out: &mut Vec<u8>, text: &[u8]) -> Result<(), AllocError>
    ensures { OnOk result (out.new.items ≡ out.old.items ++ flat_map cell_byte text.now) }
{
    if is_all_plain(text) {
        out.extend_from_slice(text)?;
        return Ok(());
    }
    push_escaped(out, text)
}

/// Appends a text of which some bytes aren't written as they are.
fn push_escaped(out: &mut Vec<u8>, text: &[u8]) -> Result<(), AllocError>
    ensures { OnOk result (out.new.items ≡ out.old.items ++ flat_map cell_byte text.now) }
{
    let mut rest = text;
    while !rest.is_empty() {
        let plain = plain_len(rest);
        out.extend_from_slice(&rest[..plain])?;
        if plain == rest.len() {
            return Ok(());
        }
        push_byte(out, rest[plain])?;
        rest = &rest[plain + 1..];
    }
    Ok(())
}

/// Whether all bytes are written as they are. Without an early exit this becomes vector code.
fn is_all_plain(text: &[u8]) -> bool
    ensures { result ≡ list_all is_plain text.now }
{
    let mut plain = true;
    for byte in text {
        plain &= is_plain(*byte);
    }
    plain
}

/// How many bytes come before the first one that isn't written as it is.
fn plain_len(text: &[u8]) -> usize
    ensures value { result ≡ prefix_len is_plain text.now }
    ensures bound { result ≤ length text.now }
{
    text.iter().take_while(|byte| is_plain(**byte)).count()
}

/// Whether a byte is written as it is.
fn is_plain(byte: u8) -> bool
    ensures { result ≡ is_plain byte }
{
    byte >= 32 && byte != b'\\' && byte != 127
}

/// Appends a byte as it is in a cell.
fn push_byte(out: &mut Vec<u8>, byte: u8) -> Result<(), AllocError>
    ensures { OnOk result (out.new.items ≡ out.old.items ++ cell_byte byte) }
{
    match byte {
        b'\t' => out.extend_from_slice(b"\\t")?,
        b'\n' => out.extend_from_slice(b"\\n")?,
        b'\\' => out.extend_from_slice(b"\\\\")?,
        0..=31 | 127 => out.extend_from_slice(&[
            b'\\',
            b'x',
            hex_digit(byte / 16),
            hex_digit(byte % 16),
        ])?,
        _ => out.push(byte)?,
    }
    Ok(())
}

/// The hexadecimal digit of a number.
fn hex_digit(n: u8) -> u8
    requires { n < 16 }
    ensures { result ≡ hex_digit n }
{
    if n < 10 { b'0' + n } else { b'a' + (n - 10) }
}
