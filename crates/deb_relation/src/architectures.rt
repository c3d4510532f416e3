//! Architecture lists.

ghost use Rattle.std.specs.Prelude.{◌≡◌, ◌++◌, [], OnOk, map, codes};
ghost use Rattle.deb_relation.specs.Texts.{architectures_text, joined, separated, signed_text};
ghost use Rattle.deb_relation.specs.Sets.{insert_by, itself};
ghost use Rattle.std.specs.Option.{option_map};
ghost use Rattle.deb_relation.specs.Reading.{append, gather, next_architecture, read_list_end, read_names, read_architectures};
ghost use Rattle.deb_relation.specs.Stops.{Gives};
ghost use Rattle.deb_relation.specs.Views.{names_of, list_of};

use crate::cursor::{begins, skip_white};
use crate::fault::{Reason, Stop};
use crate::formula::append_item;
use crate::items::{next_architecture, sort_names};
use std::alloc::{AllocError, Global};

/// What is left after the end of a list and white space; a list has an item at least.
#[tactic(auto, unfolding(crate::specs::Reading::read_list_end))]
pub(crate) fn read_list_end(text: &[u8], is_empty: bool) -> Result<&[u8], Stop>
    ensures { Gives result (λ rest. rest.now) (read_list_end is_empty text.now) }
{
    let text = skip_white(text);
    if text.is_empty() {
        return Err(Stop::Bad {
            reason: Reason::Unclosed,
            left: 0,
        });
    }
    if is_empty {
        return Err(Stop::Bad {
            reason: Reason::ListEmpty,
            left: text.len(),
        });
    }
    Ok(skip_white(&text[1..]))
}

/// The names of a list in their order, up to its end, repeats kept.
fn gather_names(alloc: Global, text: &[u8], negated: bool) -> Result<(Vec<&[u8]>, &[u8]), Stop>
    ensures { Gives result (λ p. (names_of p.0.items, p.1.now))
        (gather (next_architecture negated) append [] text.now) }
{
    let mut names = Vec::new(alloc);
    let mut rest = text;
    while let Some((name, behind)) = next_architecture(rest, negated)? {
        names.push(name)?;
        rest = behind;
    }
    Ok((names, rest))
}

/// The set of the names of a list, up to its end.
fn read_set(alloc: Global, text: &[u8], negated: bool) -> Result<(Vec<&[u8]>, &[u8]), Stop>
    ensures { Gives result (λ p. (names_of p.0.items, p.1.now))
        (gather (next_architecture negated) (insert_by itself) [] text.now) }
{
    let (mut names, rest) = gather_names(alloc, text, negated)?;
    sort_names(&mut names)?;
    Ok((names, rest))
}

/// The names of a list after its `[`, and what is left after it and white space.
#[tactic(auto, unfolding(crate::specs::Reading::read_names))]
fn read_names(alloc: Global, text: &[u8], negated: bool) -> Result<(Vec<&[u8]>, &[u8]), Stop>
    ensures { Gives result (λ p. (names_of p.0.items, p.1.now)) (read_names negated text.now) }
{
    let (names, rest) = read_set(alloc, text, negated)?;
    let rest = read_list_end(rest, names.is_empty())?;
    Ok((names, rest))
}

/// The architecture list, or nothing; and what is left after it and white space.
#[tactic(auto, unfolding(crate::specs::Reading::read_architectures))]
pub(crate) fn read_architectures(
    alloc: Global,
    text: &[u8],
) -> Result<(Option<(bool, Vec<&[u8]>)>, &[u8]), Stop>
    ensures { Gives result (λ p. (option_map list_of p.0, p.1.now)) (read_architectures text.now) }
{
    if !begins(text, b'[') {
        return Ok((None, text));
    }
    let text = &text[1..];
    let negated = begins(skip_white(text), b'!');
    let (names, rest) = read_names(alloc, text, negated)?;
    Ok((Some((negated, names)), rest))
}

/// Appends the texts of names, each with a space before it, and with `!` or not.
fn append_more_names(out: &mut Vec<u8>, negated: bool, names: &[&[u8]]) -> Result<(), AllocError>
    ensures { OnOk result
        (out.new.items ≡ out.old.items ++ separated (codes " ")
        (map (signed_text negated) (names_of names.now))) }
{
    for name in names {
        out.push(b' ')?;
        append_item(out, (negated, *name))?;
    }
    Ok(())
}

/// Appends the texts of names with one space between, each with `!` or not.
fn append_names(out: &mut Vec<u8>, negated: bool, names: &[&[u8]]) -> Result<(), AllocError>
    ensures { OnOk result
        (out.new.items ≡ out.old.items ++ joined (codes " ")
        (map (signed_text negated) (names_of names.now))) }
{
    if let [first, rest @ ..] = names {
        append_item(out, (negated, *first))?;
        append_more_names(out, negated, rest)?;
    }
    Ok(())
}

/// Appends the text of an architecture list with a space before it, or nothing.
pub(crate) fn append_architectures(
    out: &mut Vec<u8>,
    list: &Option<(bool, Vec<&[u8]>)>,
) -> Result<(), AllocError>
    ensures { OnOk result
        (out.new.items ≡ out.old.items ++ architectures_text (option_map list_of list.now)) }
{
    if let Some((negated, names)) = list {
        out.extend_from_slice(b" [")?;
        append_names(out, *negated, names)?;
        out.push(b']')?;
    }
    Ok(())
}
