//! The lines of values that differ.

ghost use Rattle.std.specs.Prelude.{◌≡◌, ◌++◌, ◌≤◌, ◌==◌, not, length, map, List, ℕ, OnOk};
ghost use Rattle.std.specs.FinMap.{find};
ghost use Rattle.std.specs.List.{flat_map, prefix_len};
ghost use Rattle.std.specs.Option.{option_copied, option_map};
ghost use Rattle.deb_syntax.specs.Meaning.{Entries, byte_order};
ghost use Rattle.deb_control.specs.Canonical.{paragraph_text};
ghost use Rattle.deb_diff.specs.Cuts.{AreCut, texts_in};
ghost use Rattle.deb_diff.specs.Marks.{lines_in, lines_of_rest};
ghost use Rattle.deb_diff.specs.Values.{lines_under, marked, new_mark, old_mark};

use crate::cut::{FieldMap, add_fields};
use std::alloc::{AllocError, Global};
use std::collections::BTreeMap;

/// Appends, for each of these names, the lines of the field in one canonical text, then those of
/// the field in another.
pub(crate) fn append_values(
    alloc: Global,
    out: &mut Vec<u8>,
    old: &[u8],
    new: &[u8],
    names: &[&[u8]],
) -> Result<(), AllocError>
    ensures { (entries others : Entries) → AreCut entries → AreCut others
        → old.now ≡ paragraph_text entries → new.now ≡ paragraph_text others
        → OnOk result (out.new.items
        ≡ out.old.items ++ lines_under entries others (map (λ n. n.now) names.now)) }
{
    let mut fields = BTreeMap::new(alloc);
    add_fields(&mut fields, old)?;
    let mut others = BTreeMap::new(alloc);
    add_fields(&mut others, new)?;
    append_lines(alloc, out, &fields, &others, names)
}

/// Appends, for each of these names, the lines of the field in two maps.
fn append_lines(
    alloc: Global,
    out: &mut Vec<u8>,
    fields: &FieldMap<'_>,
    others: &FieldMap<'_>,
    names: &[&[u8]],
) -> Result<(), AllocError>
    ensures { OnOk result (out.new.items ≡ out.old.items ++ lines_in
        (texts_in fields.now.entries) (texts_in others.now.entries) (map (λ n. n.now) names.now)) }
{
    for name in names {
        append_both(alloc, out, fields, others, *name)?;
    }
    Ok(())
}

/// Appends the lines of the field with a name in two maps.
fn append_both(
    alloc: Global,
    out: &mut Vec<u8>,
    fields: &FieldMap<'_>,
    others: &FieldMap<'_>,
    name: &[u8],
) -> Result<(), AllocError>
    ensures { OnOk result (out.new.items ≡ out.old.items ++ (lines_of_rest old_mark name.now
        (find byte_order name.now (texts_in fields.now.entries))
        ++ lines_of_rest new_mark name.now
        (find byte_order name.now (texts_in others.now.entries)))) }
{
    append_field(alloc, out, b" -", name, fields.get(name))?;
    append_field(alloc, out, b" +", name, others.get(name))
}

/// Appends the lines of a field, each after a mark, given its name and its text after that.
fn append_field(
    alloc: Global,
    out: &mut Vec<u8>,
    mark: &[u8],
    name: &[u8],
    rest: Option<&&[u8]>,
) -> Result<(), AllocError>
    ensures { OnOk result (out.new.items ≡ out.old.items ++ lines_of_rest mark.now name.now
        (option_map (λ t. t.now) (option_copied rest.entry))) }
{
    let Some(rest) = rest else {
        return Ok(());
    };
    let mut field = Vec::from_slice(alloc, name)?;
    field.extend_from_slice(*rest)?;
    append_marked(out, mark, &field)
}

/// Appends the lines of a text, each after a mark.
pub(crate) fn append_marked(out: &mut Vec<u8>, mark: &[u8], text: &[u8]) -> Result<(), AllocError>
    ensures { OnOk result (out.new.items ≡ out.old.items ++ marked mark.now text.now) }
{
    let mut start = 0;
    while start < text.len() {
        let rest = &text[start..];
        let line = &rest[..line_len(rest)];
        out.extend_from_slice(mark)?;
        out.extend_from_slice(line)?;
        out.push(b'\n')?;
        start += line.len() + 1;
    }
    Ok(())
}

/// Returns the number of bytes before the first newline.
fn line_len(text: &[u8]) -> usize
    ensures value { result ≡ prefix_len (λ b. not (b == 10)) text.now }
    ensures bound { result ≤ length text.now }
{
    text.iter().take_while(|byte| **byte != b'\n').count()
}
