//! Cuts the canonical text of a paragraph into its fields.

ghost use Rattle.std.specs.Prelude.{◌≡◌, ◌≤◌, ◌<◌, ◌==◌, not, length, map, IfSome, OnOk};
ghost use Rattle.std.specs.List.{AllByRecursion, prefix_len};
ghost use Rattle.deb_base.specs.Bodies.{begins_with_blank};
ghost use Rattle.deb_syntax.specs.Meaning.{Entries};
ghost use Rattle.deb_control.specs.Canonical.{paragraph_text};
ghost use Rattle.deb_diff.specs.Cuts.{AreCut, IsCut, IsFirst, field_len, rest_of};
ghost use Rattle.deb_diff.specs.Fields.{fields_of_both};

use std::alloc::{AllocError, Global};
use std::collections::BTreeMap;

/// The texts of fields after their names, by these, ascending.
pub(crate) type FieldMap<'a> = BTreeMap<&'a [u8], &'a [u8]>;

/// Adds the fields of a canonical text.
pub(crate) fn add_fields<'a>(fields: &mut FieldMap<'a>, text: &'a [u8]) -> Result<(), AllocError>
    ensures { (entries : Entries) → AreCut entries → text.now ≡ paragraph_text entries
        → OnOk result (map (λ e. (e.0.now, e.1.now)) fields.new.entries
        ≡ fields_of_both (map (λ e. (e.0.now, e.1.now)) fields.old.entries)
        (map rest_of entries)) }
{
    let mut rest = text;
    while let Some(first) = first_field(rest) {
        fields.insert(first.name, first.body)?;
        rest = first.rest;
    }
    Ok(())
}

/// A field's name, its text after that, and what follows it.
#[derive(Clone, Copy)]
pub(crate) struct First<'a> {
    pub(crate) name: &'a [u8],
    pub(crate) body: &'a [u8],
    pub(crate) rest: &'a [u8],
}

/// Returns the first field of a canonical text, if there is one.
pub(crate) fn first_field(text: &[u8]) -> Option<First<'_>>
    ensures first { (entries : Entries) → AllByRecursion IsCut entries
        → text.now ≡ paragraph_text entries → IsFirst entries result }
    ensures shorter { IfSome result (λ first. length first.rest.now < length text.now) }
{
    if text.is_empty() {
        return None;
    }
    let (field, rest) = text.split_at(field_len(text));
    let (name, body) = field.split_at(name_len(field));
    Some(First { name, body, rest })
}

/// Returns the number of bytes of the first field: those until a newline after which there is no
/// space or tab.
fn field_len(text: &[u8]) -> usize
    ensures value { result ≡ field_len text.now }
    ensures bound { result ≤ length text.now }
    ensures some { 0 < length text.now → 0 < result }
{
    for at in 0..text.len() {
        if text[at] == b'\n' && !begins_with_blank(&text[at + 1..]) {
            return at + 1;
        }
    }
    text.len()
}

/// Returns whether a space or a tab comes first.
fn begins_with_blank(text: &[u8]) -> bool
    ensures { result ≡ begins_with_blank text.now }
{
    match text.first() {
        Some(byte) => *byte == b' ' || *byte == b'\t',
        None => false,
    }
}

/// Returns the number of bytes before the first colon.
fn name_len(text: &[u8]) -> usize
    ensures value { result ≡ prefix_len (λ b. not (b == 58)) text.now }
    ensures bound { result ≤ length text.now }
{
    text.iter().take_while(|byte| **byte != b':').count()
}
