//! Which fields of two paragraphs differ.

ghost use Rattle.std.specs.Prelude.{◌≡◌, ◌+◌, ◌<◌, [], length, map, IfOk, IfSome, MatchOption};
ghost use Rattle.std.specs.Option.{option_to_list};
ghost use Rattle.deb_diff.specs.Cuts.{AreCut};
ghost use Rattle.deb_diff.specs.Fields.{differing};
ghost use Rattle.deb_diff.specs.Merging.{Merges, differing_text};
ghost use Rattle.deb_syntax.specs.Meaning.{Entries};
ghost use Rattle.deb_control.specs.Canonical.{paragraph_text};

use crate::cut::{First, first_field};
use std::alloc::{AllocError, Global};
use std::cmp::Ordering;

/// Returns the names of the fields that differ between two canonical texts or are in one of them
/// only, ascending.
pub(crate) fn differing<'a>(
    alloc: Global,
    old: &'a [u8],
    new: &'a [u8],
) -> Result<Vec<&'a [u8]>, AllocError>
    ensures { (entries others : Entries) → AreCut entries → AreCut others
        → old.now ≡ paragraph_text entries → new.now ≡ paragraph_text others
        → IfOk result (λ names. map (λ n. n.now) names.items ≡ differing entries others) }
{
    let mut names = Vec::new(alloc);
    let mut rest = old;
    let mut other_rest = new;
    while let Some(step) = compare_first(rest, other_rest) {
        if let Some(name) = step.differs {
            names.push(name)?;
        }
        rest = step.old;
        other_rest = step.new;
    }
    Ok(names)
}

/// The name of the first field of two texts if it differs, and what follows it in both.
#[derive(Clone, Copy)]
struct Step<'a> {
    differs: Option<&'a [u8]>,
    old: &'a [u8],
    new: &'a [u8],
}

/// Compares the first fields of two canonical texts, if there are any.
fn compare_first<'a>(old: &'a [u8], new: &'a [u8]) -> Option<Step<'a>>
    ensures merges { (entries others : Entries) → AreCut entries → AreCut others
        → old.now ≡ paragraph_text entries → new.now ≡ paragraph_text others
        → MatchOption result (differing entries others ≡ []) (λ step.
        Merges entries others (map (λ n. n.now) (option_to_list step.differs)) step.old.now
        step.new.now) }
    ensures shorter { IfSome result (λ step.
        length step.old.now + length step.new.now < length old.now + length new.now) }
{
    match (first_field(old), first_field(new)) {
        (None, None) => None,
        (Some(field), None) => Some(Step {
            differs: Some(field.name),
            old: field.rest,
            new,
        }),
        (None, Some(other)) => Some(Step {
            differs: Some(other.name),
            old,
            new: other.rest,
        }),
        (Some(field), Some(other)) => Some(match field.name.cmp(other.name) {
            Ordering::Less => Step {
                differs: Some(field.name),
                old: field.rest,
                new,
            },
            Ordering::Greater => Step {
                differs: Some(other.name),
                old,
                new: other.rest,
            },
            Ordering::Equal => Step {
                differs: unless_equal(field, other),
                old: field.rest,
                new: other.rest,
            },
        }),
    }
}

/// Returns the name of a field if another one of the name has another text.
fn unless_equal<'a>(field: First<'a>, other: First<'a>) -> Option<&'a [u8]>
    ensures { map (λ n. n.now) (option_to_list result) ≡ differing_text
        field.entry.name.now field.entry.body.now other.entry.body.now }
{
    if *field.body == *other.body {
        None
    } else {
        Some(field.name)
    }
}
