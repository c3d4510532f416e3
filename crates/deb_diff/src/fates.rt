//! The lines of old paragraphs, and of added ones.

ghost use Rattle.std.specs.Prelude.{◌≡◌, ◌++◌, List, length, map, OnOk};
ghost use Rattle.std.specs.List.{flat_map};
ghost use Rattle.deb_diff.specs.Differences.{Changed, Fate, Removed, Upgraded};
ghost use Rattle.deb_diff.specs.Fates.{AreFated, IsFated, IsWhole};
ghost use Rattle.deb_diff.specs.Items.{Item, whole};
ghost use Rattle.deb_diff.specs.Fields.{differing};
ghost use Rattle.deb_diff.specs.Kepts.{AreKept, IsKept};
ghost use Rattle.deb_diff.specs.Lines.{added_text, fate_text, if_values, item_line};
ghost use Rattle.deb_diff.specs.Values.{differing_lines, marked};

use crate::became::Became;
use crate::detail::Detail;
use crate::differing::differing;
use crate::form::Form;
use crate::kept::Kept;
use crate::lines::{append_changed, append_item, append_upgraded};
use crate::values::{append_marked, append_values};
use std::alloc::{AllocError, Global};

/// Appends the lines of old paragraphs, given what became of each.
pub(crate) fn append_fates(
    alloc: Global,
    form: Form,
    out: &mut Vec<u8>,
    old: &[&Kept],
    became: &[Became],
    new: &[Kept],
) -> Result<(), AllocError>
    requires { length became.now ≡ length old.now }
    ensures { (fates : List (Item × Fate))
        → AreFated (map (λ k. k.now) old.now) became.now new.now fates
        → OnOk result (out.new.items ≡ out.old.items ++ flat_map (fate_text form) fates) }
{
    for (number, kept) in old.iter().enumerate() {
        append_fate(alloc, form, out, *kept, became[number], new)?;
    }
    Ok(())
}

/// Appends the lines of an old paragraph.
fn append_fate(
    alloc: Global,
    form: Form,
    out: &mut Vec<u8>,
    kept: &Kept,
    became: Became,
    new: &[Kept],
) -> Result<(), AllocError>
    ensures { (fate : Item × Fate) → IsFated kept.now became new.now fate
        → OnOk result (out.new.items ≡ out.old.items ++ fate_text form fate) }
{
    match became {
        Became::Nothing => remove(form, out, kept),
        Became::Changed(number) => match new.get(number) {
            Some(other) => change(alloc, form, out, kept, other),
            None => Ok(()),
        },
        Became::Upgraded(number) => match new.get(number) {
            Some(other) => upgrade(alloc, form, out, kept, other),
            None => Ok(()),
        },
    }
}

/// Appends the lines of a removed paragraph.
fn remove(form: Form, out: &mut Vec<u8>, kept: &Kept) -> Result<(), AllocError>
    ensures { (item : Item) → IsKept kept.now item
        → OnOk result (out.new.items ≡ out.old.items ++ fate_text form (item, Removed)) }
{
    append_item(out, form.versions, b"removed", kept)?;
    append_whole(form.detail, out, b" -", kept)
}

/// Appends the lines of a changed paragraph.
fn change(
    alloc: Global,
    form: Form,
    out: &mut Vec<u8>,
    old: &Kept,
    new: &Kept,
) -> Result<(), AllocError>
    ensures { (item other : Item) → IsWhole old.now item → IsWhole new.now other
        → OnOk result (out.new.items ≡ out.old.items ++ fate_text form (item, Changed other)) }
{
    let names = differing(alloc, &old.text, &new.text)?;
    append_changed(out, form.versions, new, &names)?;
    append_fields(alloc, form.detail, out, old, new, &names)
}

/// Appends the lines of a paragraph that has another version.
fn upgrade(
    alloc: Global,
    form: Form,
    out: &mut Vec<u8>,
    old: &Kept,
    new: &Kept,
) -> Result<(), AllocError>
    ensures { (item other : Item) → IsWhole old.now item → IsWhole new.now other
        → OnOk result (out.new.items ≡ out.old.items ++ fate_text form (item, Upgraded other)) }
{
    let names = differing(alloc, &old.text, &new.text)?;
    append_upgraded(out, form.versions, old, new, &names)?;
    append_fields(alloc, form.detail, out, old, new, &names)
}

/// Appends the lines of the fields with these names, if they are wanted.
fn append_fields(
    alloc: Global,
    detail: Detail,
    out: &mut Vec<u8>,
    old: &Kept,
    new: &Kept,
    names: &[&[u8]],
) -> Result<(), AllocError>
    ensures { (item other : Item) → IsWhole old.now item → IsWhole new.now other
        → map (λ n. n.now) names.now ≡ differing item.bodies other.bodies
        → OnOk result (out.new.items ≡ out.old.items ++ if_values detail
        (differing_lines item.bodies other.bodies)) }
{
    match detail {
        Detail::Fields => Ok(()),
        Detail::Values => append_values(alloc, out, &old.text, &new.text, names),
    }
}

/// Appends all lines of a paragraph, each after a mark, if they are wanted.
fn append_whole(
    detail: Detail,
    out: &mut Vec<u8>,
    mark: &[u8],
    kept: &Kept,
) -> Result<(), AllocError>
    ensures { (item : Item) → IsKept kept.now item
        → OnOk result (out.new.items ≡ out.old.items ++ if_values detail
        (marked mark.now (whole item))) }
{
    match detail {
        Detail::Fields => Ok(()),
        Detail::Values => append_marked(out, mark, &kept.text),
    }
}

/// Appends the lines of added paragraphs.
pub(crate) fn append_added(form: Form, out: &mut Vec<u8>, added: &[&Kept]) -> Result<(), AllocError>
    ensures { (items : List Item) → AreKept (map (λ k. k.now) added.now) items
        → OnOk result (out.new.items ≡ out.old.items ++ flat_map (added_text form) items) }
{
    for kept in added {
        add(form, out, *kept)?;
    }
    Ok(())
}

/// Appends the lines of an added paragraph.
fn add(form: Form, out: &mut Vec<u8>, kept: &Kept) -> Result<(), AllocError>
    ensures { (item : Item) → IsKept kept.now item
        → OnOk result (out.new.items ≡ out.old.items ++ added_text form item) }
{
    append_item(out, form.versions, b"added", kept)?;
    append_whole(form.detail, out, b" +", kept)
}
