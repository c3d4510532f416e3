//! Writes the canonical text of one field.

ghost use Rattle.std.specs.Prelude.{◌≡◌, ◌++◌, ◌∷◌, [], cond, length, nat_eq, OnOk};
ghost use Rattle.deb_base.specs.Bodies.{newline};
ghost use Rattle.deb_base.specs.FieldNames.{colon};
ghost use Rattle.deb_field.specs.Shown.{text_bytes};
ghost use Rattle.deb_field.specs.Values.{value_text};
ghost use Rattle.deb_field.specs.ValueMeanings.{value_meaning};
ghost use Rattle.deb_control.specs.Canonical.{behind_colon};

use deb_field::{Canon, Text, Value};
use std::alloc::AllocError;

/// Appends what comes after a field's name: a colon, the text after it, and a line end.
#[inline(always)]
pub(crate) fn append_body(value: &Value<'_>, text: &mut Vec<u8>) -> Result<(), AllocError>
    ensures { OnOk result
        (text.new.items ≡ text.old.items
        ++ colon ∷ (behind_colon (value_text (value_meaning value.now)) ++ newline ∷ [])) }
{
    text.push(b':')?;
    append_value(value, text)?;
    text.push(b'\n')?;
    Ok(())
}

/// Appends the text after the colon: nothing for an empty value, the value itself if it begins on
/// the next line, else a space and the value.
#[inline(always)]
fn append_value(value: &Value<'_>, text: &mut Vec<u8>) -> Result<(), AllocError>
    ensures { OnOk result
        (text.new.items ≡ text.old.items
        ++ behind_colon (value_text (value_meaning value.now))) }
{
    if is_spaced(value) {
        text.push(b' ')?;
    }
    value.canon_into(text)
}

/// Whether a space separates a value's text from the colon before it.
#[inline(always)]
pub(crate) fn is_spaced(value: &Value<'_>) -> bool
    ensures { behind_colon (value_text (value_meaning value.now))
        ≡ cond result (32 ∷ value_text (value_meaning value.now))
        (value_text (value_meaning value.now)) }
{
    !is_empty(value) && !value.begins_with_newline()
}

/// Whether a space separates a text from the colon before it.
#[inline(always)]
pub(crate) fn is_spaced_text(text: &Text<'_>) -> bool
    ensures { behind_colon (text_bytes text.now)
        ≡ cond result (32 ∷ text_bytes text.now) (text_bytes text.now) }
{
    !text.bytes().is_empty() && !text.begins_with_newline()
}

/// Whether a value's text is empty. Only of some kinds it is measured.
#[inline(always)]
fn is_empty(value: &Value<'_>) -> bool
    ensures { result ≡ nat_eq (length (value_text (value_meaning value.now))) 0 }
{
    match value {
        Value::Text(text) => text.bytes().is_empty(),
        Value::Line(line) => line.bytes().is_empty(),
        // No version is empty.
        Value::Version(_) => false,
        _ => value.canon_len() == 0,
    }
}
