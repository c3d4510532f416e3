//! Whether two paragraphs are spelled alike.

ghost use Rattle.std.specs.Prelude.{◌≡◌, get_or, true};
ghost use Rattle.deb_syntax.specs.Raw.{fields_of};
ghost use Rattle.deb_control.specs.SpelledAlike.{spelled_in};
ghost use Rattle.deb_control.specs.CanonTexts.{no_field};

use deb_syntax::Raw;

/// Returns whether two paragraphs have the same fields, spelled alike and in the same order.
pub(crate) fn are_alike(one: &Raw<'_>, other: &Raw<'_>) -> bool
    ensures { result ≡ true → spelled_in (fields_of one.now) ≡ spelled_in (fields_of other.now) }
{
    if one.len() != other.len() {
        return false;
    }
    for index in 0..one.len() {
        if !are_alike_at(one, other, index) {
            return false;
        }
    }
    true
}

/// Returns whether two paragraphs have the same field at an index, spelled alike.
fn are_alike_at(one: &Raw<'_>, other: &Raw<'_>, index: usize) -> bool
    ensures { result ≡ true → get_or (spelled_in (fields_of one.now)) index no_field
        ≡ get_or (spelled_in (fields_of other.now)) index no_field }
{
    match (one.field(index), other.field(index)) {
        (Some(field), Some(beside)) => field.name == beside.name && field.body == beside.body,
        _ => false,
    }
}
