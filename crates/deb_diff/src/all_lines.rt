//! The lines of all paragraphs that aren't in both files.

ghost use Rattle.std.specs.Prelude.{◌≡◌, List, length, map, IfOk};
ghost use Rattle.deb_control.specs.Pairs.{Pairwise};
ghost use Rattle.deb_diff.specs.Differences.{difference_of_others};
ghost use Rattle.deb_diff.specs.Fates.{IsWhole};
ghost use Rattle.deb_diff.specs.Items.{Item};
ghost use Rattle.deb_diff.specs.Lines.{difference_text};
ghost use Rattle.deb_diff.specs.Pools.{pick};

use crate::both::{Others, all_wait};
use crate::fates::{append_added, append_fates};
use crate::form::Form;
use crate::kept::Kept;
use crate::left::waiting;
use crate::pairing::{Partners, by_place, by_release};
use std::alloc::{AllocError, Global};

/// Returns the lines, given all paragraphs of the old file and what isn't in both files.
pub(crate) fn all_lines(
    alloc: Global,
    form: Form,
    old: &[Kept],
    others: &Others,
) -> Result<Vec<u8>, AllocError>
    requires { length others.now.waits.items ≡ length old.now }
    ensures { (items added : List Item) → Pairwise IsWhole old.now items
        → Pairwise IsWhole others.now.new.items added
        → IfOk result (λ lines. lines.items ≡ difference_text form
        (difference_of_others (map (λ e. e.1) (pick 0 items others.now.waits.items)) added)) }
{
    let left = waiting(alloc, old, &others.waits)?;
    let waits = all_wait(alloc, others.new.len())?;
    let new = waiting(alloc, &others.new, &waits)?;
    lines_between(alloc, form, &left, &new, &others.new)
}

/// Returns the lines of old paragraphs and of new ones, which `lent` borrows.
fn lines_between(
    alloc: Global,
    form: Form,
    old: &[&Kept],
    lent: &[&Kept],
    new: &[Kept],
) -> Result<Vec<u8>, AllocError>
    requires { map (λ k. k.now) lent.now ≡ new.now }
    ensures { (items others : List Item) → Pairwise IsWhole (map (λ k. k.now) old.now) items
        → Pairwise IsWhole new.now others
        → IfOk result
        (λ lines. lines.items ≡ difference_text form (difference_of_others items others)) }
{
    let Partners { found, waits } = by_release(alloc, old, lent)?;
    let outcome = by_place(alloc, old, lent, &found, waits)?;
    let added = waiting(alloc, new, &outcome.waits)?;
    let mut lines = Vec::new(alloc);
    append_fates(alloc, form, &mut lines, old, &outcome.became, new)?;
    append_added(form, &mut lines, &added)?;
    Ok(lines)
}
