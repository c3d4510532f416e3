//! The items of lists: names, with `!` before them or not.

ghost use Rattle.std.specs.Prelude.{◌≡◌, ◌∷◌, OnOk};
ghost use Rattle.deb_relation.specs.Grammar.{set_of};
ghost use Rattle.deb_relation.specs.Reading.{ends_list, name_of_item, next_architecture, next_restriction};
ghost use Rattle.deb_relation.specs.Sets.{byte_cmp, itself};
ghost use Rattle.deb_relation.specs.Stops.{Gives, next_of};
ghost use Rattle.deb_relation.specs.Texts.{item_text};
ghost use Rattle.deb_relation.specs.Views.{item_of, items_of, names_of, text_behind, item_behind};

use crate::cursor::{begins, cut_before, skip_white};
use crate::fault::{Reason, Stop};
use deb_base::{is_arch_name, is_profile_name};
use std::alloc::AllocError;
use std::cmp::Ordering;

/// Whether a list ends here: at its closing byte, or with the text.
fn ends_list(text: &[u8], close: u8) -> bool
    ensures { result ≡ ends_list close text.now }
{
    text.is_empty() || begins(text, close)
}

/// The name of an item: what follows its `!`, if it has one.
fn name_of_item(item: &[u8]) -> &[u8]
    ensures { result.now ≡ name_of_item item.now }
{
    if begins(item, b'!') { &item[1..] } else { item }
}

/// The name of the next item of an architecture list, and what is left after it. All items of the
/// list have `!`, or none has.
#[tactic(auto, unfolding(crate::specs::Reading::next_architecture))]
pub(crate) fn next_architecture(text: &[u8], negated: bool) -> Result<Option<(&[u8], &[u8])>, Stop>
    ensures value { Gives result (next_of text_behind) (next_architecture negated text.now) }
{
    let text = skip_white(text);
    if ends_list(text, b']') {
        return Ok(None);
    }
    let (item, behind) = cut_before(text, b']');
    let name = name_of_item(item);
    if !is_arch_name(name) {
        return Err(Stop::Bad {
            reason: Reason::ItemBad,
            left: text.len(),
        });
    }
    if begins(item, b'!') != negated {
        return Err(Stop::Bad {
            reason: Reason::MixedSigns,
            left: text.len(),
        });
    }
    Ok(Some((name, behind)))
}

/// The next item of a restriction list, and what is left after it.
#[tactic(auto, unfolding(crate::specs::Reading::next_restriction))]
pub(crate) fn next_restriction(text: &[u8]) -> Result<Option<((bool, &[u8]), &[u8])>, Stop>
    ensures value { Gives result (next_of item_behind) (next_restriction text.now) }
{
    let text = skip_white(text);
    if ends_list(text, b'>') {
        return Ok(None);
    }
    let (item, behind) = cut_before(text, b'>');
    let name = name_of_item(item);
    if !is_profile_name(name) {
        return Err(Stop::Bad {
            reason: Reason::ItemBad,
            left: text.len(),
        });
    }
    Ok(Some(((begins(item, b'!'), name), behind)))
}

/// A name with `!` before it, against another text.
fn compare_marked(name: &[u8], other: &[u8]) -> Ordering
    ensures { result ≡ byte_cmp (33 ∷ name.now) other.now }
{
    match other {
        [] => Ordering::Greater,
        [first, rest @ ..] => b'!'.cmp(first).then_with(|| name.cmp(rest)),
    }
}

/// A text, against a name with `!` before it.
fn compare_with_marked(other: &[u8], name: &[u8]) -> Ordering
    ensures { result ≡ byte_cmp other.now (33 ∷ name.now) }
{
    match other {
        [] => Ordering::Less,
        [first, rest @ ..] => first.cmp(&b'!').then_with(|| rest.cmp(name)),
    }
}

/// Two items, in the byte order of their texts.
fn compare_items(a: (bool, &[u8]), b: (bool, &[u8])) -> Ordering
    ensures { result ≡ byte_cmp (item_text (item_of a.entry)) (item_text (item_of b.entry)) }
{
    match (a.0, b.0) {
        (true, true) | (false, false) => a.1.cmp(b.1),
        (true, false) => compare_marked(a.1, b.1),
        (false, true) => compare_with_marked(a.1, b.1),
    }
}

/// Makes items a set: ascending by their texts, each once.
pub(crate) fn sort_items(items: &mut Vec<(bool, &[u8])>) -> Result<(), AllocError>
    ensures { OnOk result
        (items_of items.new.items ≡ set_of item_text (items_of items.old.items)) }
{
    items.sort_by(|a, b| compare_items(*a, *b))?;
    items.dedup_by(|a, b| compare_items(*a, *b).is_eq());
    Ok(())
}

/// Two names, in their byte order.
fn compare_names(a: &[u8], b: &[u8]) -> Ordering
    ensures { result ≡ byte_cmp a.now b.now }
{
    a.cmp(b)
}

/// Makes names a set: ascending, each once.
pub(crate) fn sort_names(names: &mut Vec<&[u8]>) -> Result<(), AllocError>
    ensures { OnOk result (names_of names.new.items ≡ set_of itself (names_of names.old.items)) }
{
    names.sort_by(|a, b| compare_names(*a, *b))?;
    names.dedup_by(|a, b| compare_names(*a, *b).is_eq());
    Ok(())
}
