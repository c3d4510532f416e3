//! The pieces of canonical text: groups of a relation, and alternatives of a group, which are
//! parsed one at a time.

ghost use Rattle.std.specs.Prelude.{◌≡◌, ◌+◌, ◌<◌, ◌==◌, [], ◌∷◌, drop, length, not, take, IfOk, Some};
ghost use Rattle.std.specs.List.{prefix_len};
ghost use Rattle.std.specs.Option.{option_map};
ghost use Rattle.deb_relation.specs.Meaning.{Alternative as Meaning, Group, Relation as Groups};
ghost use Rattle.deb_relation.specs.Regular.{IsRegular, IsRegularGroup};
ghost use Rattle.deb_relation.specs.Relations.{relation_of};
ghost use Rattle.deb_relation.specs.Texts.{group_text, relation_text};
ghost use Rattle.deb_relation.specs.Views.{alternative_of};

use crate::cut::before;
use deb_relation::{Alternative, Relation};
use std::alloc::{AllocError, Global};

/// Cuts a text before the first byte that is this one, and drops two bytes from there on.
fn cut(text: &[u8], byte: u8) -> (&[u8], &[u8])
    ensures first { result.0.now ≡ take (prefix_len (λ b. not (b == byte)) text.now) text.now }
    ensures others { result.1.now ≡ drop (prefix_len (λ b. not (b == byte)) text.now + 2) text.now }
    ensures shorter { 0 < length text.now → length result.1.now < length text.now }
{
    let (first, behind) = text.split_at(before(text, byte));
    (first, &behind[behind.len().min(2)..])
}

/// Cuts the canonical text of a relation that has a group: returns the text of the first group,
/// and that of the others.
pub fn cut_group(text: &[u8]) -> (&[u8], &[u8])
    ensures first { (group : Group) (others : Groups) → IsRegularGroup group
        → text.now ≡ relation_text (group ∷ others) → result.0.now ≡ group_text group }
    ensures others { (group : Group) (others : Groups) → IsRegularGroup group
        → text.now ≡ relation_text (group ∷ others) → result.1.now ≡ relation_text others }
    ensures shorter { 0 < length text.now → length result.1.now < length text.now }
{
    cut(text, b',')
}

/// Parses the first alternative of the canonical text of a group, and returns it, as the one of a
/// relation, with the text of the other alternatives.
///
/// # Errors
///
/// Out of memory; of a text that isn't canonical also if it begins with no alternative.
pub fn next_alternative(alloc: Global, text: &[u8]) -> Result<(Relation<'_>, &[u8]), AllocError>
    ensures first { (a : Meaning) (others : Group) → IsRegular a
        → text.now ≡ group_text (a ∷ others)
        → IfOk result (λ next. relation_of next.0 ≡ (a ∷ []) ∷ []) }
    ensures others { (a : Meaning) (others : Group) → IsRegular a
        → text.now ≡ group_text (a ∷ others)
        → IfOk result (λ next. next.1.now ≡ group_text others) }
    ensures shorter { IfOk result (λ next. 0 < length text.now
        → length next.1.now < length text.now) }
{
    let (alternative, others) = cut(text, b'|');
    match Relation::parse(alloc, alternative) {
        Ok(relation) => Ok((relation, others)),
        Err(_) => Err(AllocError),
    }
}

/// The alternative of a relation that has no other one.
pub fn only_alternative<'r, 'a>(relation: &'r Relation<'a>) -> Option<&'r Alternative<'a>>
    ensures { (a : Meaning) → relation_of relation.now ≡ (a ∷ []) ∷ []
        → option_map (λ only. alternative_of only.now) result ≡ Some a }
{
    match relation.groups() {
        [group] => match group.alternatives() {
            [alternative] => Some(alternative),
            _ => None,
        },
        _ => None,
    }
}
