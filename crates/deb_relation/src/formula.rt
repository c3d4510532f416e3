//! Restriction formulas: lists of build profiles.

ghost use Rattle.std.specs.Prelude.{◌≡◌, ◌++◌, [], IfOk, OnOk, map, codes};
ghost use Rattle.deb_relation.specs.Formulas.{profiles_of};
ghost use Rattle.deb_relation.specs.Grammar.{set_of};
ghost use Rattle.deb_relation.specs.Reading.{gather, next_restriction, next_restrictions, read_formula, read_restrictions};
ghost use Rattle.deb_relation.specs.Sets.{insert_by};
ghost use Rattle.deb_relation.specs.Stops.{Gives, next_of};
ghost use Rattle.deb_relation.specs.Texts.{formula_text, item_text, joined, restrictions_text, separated};
ghost use Rattle.deb_relation.specs.Views.{item_of, items_of, restrictions_of};

use crate::architectures::read_list_end;
use crate::cursor::begins;
use crate::fault::Stop;
use crate::items::{next_restriction, sort_items};
use crate::list_order::compare_lists;
use crate::profile_list::ProfileList;
use crate::repeats::{FEW, most_after};
use std::alloc::{AllocError, Global};

/// Drops repeats once there are `most` items, and lets those that are left become twice as many.
fn drop_items(items: &mut Vec<(bool, &[u8])>, most: &mut usize) -> Result<(), AllocError>
    ensures { OnOk result (set_of item_text (items_of items.new.items)
        ≡ set_of item_text (items_of items.old.items)) }
{
    if items.len() >= *most {
        sort_items(items)?;
        *most = most_after(items.len());
    }
    Ok(())
}

/// The set of the items of a list, up to its end.
fn read_items(alloc: Global, text: &[u8]) -> Result<(Vec<(bool, &[u8])>, &[u8]), Stop>
    ensures { Gives result (λ p. (items_of p.0.items, p.1.now))
        (gather next_restriction (insert_by item_text) [] text.now) }
{
    let mut items = Vec::with_capacity(alloc, 1)?;
    let mut most = FEW;
    let mut rest = text;
    while let Some((item, behind)) = next_restriction(rest)? {
        items.push(item)?;
        drop_items(&mut items, &mut most)?;
        rest = behind;
    }
    sort_items(&mut items)?;
    items.shrink_to_fit();
    Ok((items, rest))
}

/// The items of a list after its `<`, and what is left after it and white space.
#[tactic(auto, unfolding(crate::specs::Reading::read_restrictions))]
pub(crate) fn read_restrictions(
    alloc: Global,
    text: &[u8],
) -> Result<(Vec<(bool, &[u8])>, &[u8]), Stop>
    ensures { Gives result (λ p. (items_of p.0.items, p.1.now)) (read_restrictions text.now) }
{
    let (items, rest) = read_items(alloc, text)?;
    let rest = read_list_end(rest, items.is_empty())?;
    Ok((items, rest))
}

/// The next list of a formula, and what is left after it and white space.
#[tactic(auto, unfolding(crate::specs::Reading::next_restrictions))]
fn next_restrictions(alloc: Global, text: &[u8]) -> Result<Option<(ProfileList<'_>, &[u8])>, Stop>
    ensures value { Gives result (next_of (λ p. (profiles_of p.0, p.1.now)))
        (next_restrictions text.now) }
{
    if !begins(text, b'<') {
        return Ok(None);
    }
    let (items, rest) = read_restrictions(alloc, &text[1..])?;
    Ok(Some((ProfileList { items }, rest)))
}

/// Appends the text of an item.
pub(crate) fn append_item(out: &mut Vec<u8>, item: (bool, &[u8])) -> Result<(), AllocError>
    ensures ok { OnOk result (out.new.items ≡ out.old.items ++ item_text (item_of item.entry)) }
{
    if item.0 {
        out.push(b'!')?;
    }
    out.extend_from_slice(item.1)
}

/// Appends the texts of items, each with a space before it.
fn append_more_items(out: &mut Vec<u8>, items: &[(bool, &[u8])]) -> Result<(), AllocError>
    ensures { OnOk result
        (out.new.items ≡ out.old.items ++ separated (codes " ")
        (map item_text (items_of items.now))) }
{
    for item in items {
        out.push(b' ')?;
        append_item(out, *item)?;
    }
    Ok(())
}

/// Appends the texts of items, with one space between.
fn append_items(out: &mut Vec<u8>, items: &[(bool, &[u8])]) -> Result<(), AllocError>
    ensures { OnOk result
        (out.new.items ≡ out.old.items ++ joined (codes " ") (map item_text (items_of items.now))) }
{
    if let [first, rest @ ..] = items {
        append_item(out, *first)?;
        append_more_items(out, rest)?;
    }
    Ok(())
}

/// Appends the text of a restriction list: its items in angle brackets.
fn append_restrictions(out: &mut Vec<u8>, items: &[(bool, &[u8])]) -> Result<(), AllocError>
    ensures { OnOk result
        (out.new.items ≡ out.old.items ++ restrictions_text (items_of items.now)) }
{
    out.push(b'<')?;
    append_items(out, items)?;
    out.push(b'>')?;
    Ok(())
}

/// Appends the texts of the lists of a formula, each with a space before it.
pub(crate) fn append_formula(
    out: &mut Vec<u8>,
    lists: &[Vec<(bool, &[u8])>],
) -> Result<(), AllocError>
    ensures { OnOk result
        (out.new.items ≡ out.old.items ++ formula_text (map restrictions_of lists.now)) }
{
    for list in lists {
        out.push(b' ')?;
        append_restrictions(out, list)?;
    }
    Ok(())
}

/// Makes lists a set: ascending by their texts, each once.
fn sort_lists(lists: &mut Vec<ProfileList<'_>>) -> Result<(), AllocError>
    ensures { OnOk result (map profiles_of lists.new.items
        ≡ set_of restrictions_text (map profiles_of lists.old.items)) }
{
    lists.sort_by(|a, b| compare_lists(a, b))?;
    lists.dedup_by(|a, b| compare_lists(a, b).is_eq());
    Ok(())
}

/// Drops repeats once there are `most` lists, and lets those that are left become twice as many.
fn drop_lists(lists: &mut Vec<ProfileList<'_>>, most: &mut usize) -> Result<(), AllocError>
    ensures { OnOk result (set_of restrictions_text (map profiles_of lists.new.items)
        ≡ set_of restrictions_text (map profiles_of lists.old.items)) }
{
    if lists.len() >= *most {
        sort_lists(lists)?;
        *most = most_after(lists.len());
    }
    Ok(())
}

/// The set of the lists of a formula, and what is left after it.
fn gather_lists(alloc: Global, text: &[u8]) -> Result<(Vec<ProfileList<'_>>, &[u8]), Stop>
    ensures { Gives result (λ p. (map profiles_of p.0.items, p.1.now))
        (gather next_restrictions (insert_by restrictions_text) [] text.now) }
{
    let mut lists = Vec::with_capacity(alloc, 1)?;
    let mut most = FEW;
    let mut rest = text;
    while let Some((list, behind)) = next_restrictions(alloc, rest)? {
        lists.push(list)?;
        drop_lists(&mut lists, &mut most)?;
        rest = behind;
    }
    sort_lists(&mut lists)?;
    Ok((lists, rest))
}

/// The items of each list.
fn items_of_lists<'a>(
    alloc: Global,
    lists: Vec<ProfileList<'a>>,
) -> Result<Vec<Vec<(bool, &'a [u8])>>, AllocError>
    ensures { IfOk result
        (λ all. map restrictions_of all.items ≡ map profiles_of lists.entry.items) }
{
    let mut all = Vec::with_capacity(alloc, lists.len())?;
    for list in lists {
        all.push(list.items)?;
    }
    Ok(all)
}

/// The formula, perhaps of no list, and what is left after it and white space.
#[tactic(auto, unfolding(crate::specs::Reading::read_formula))]
pub(crate) fn read_formula(
    alloc: Global,
    text: &[u8],
) -> Result<(Vec<Vec<(bool, &[u8])>>, &[u8]), Stop>
    ensures { Gives result (λ p. (map restrictions_of p.0.items, p.1.now)) (read_formula text.now) }
{
    if !begins(text, b'<') {
        return Ok((Vec::new(alloc), text));
    }
    let (lists, rest) = gather_lists(alloc, text)?;
    let formula = items_of_lists(alloc, lists)?;
    Ok((formula, rest))
}
