//! The byte order of the texts of restriction lists, which aren't made for it.

ghost use Rattle.std.specs.Prelude.{◌≡◌, ◌++◌, ◌∷◌, ◌⊎◌, []};
ghost use Rattle.deb_relation.specs.Formulas.{profiles_key};
ghost use Rattle.deb_relation.specs.ProfileLists.{end_before, first_of};
ghost use Rattle.deb_relation.specs.Sets.{byte_cmp};
ghost use Rattle.deb_relation.specs.Texts.{item_text};
ghost use Rattle.deb_relation.specs.Views.{item_of, items_of};

use crate::profile_list::ProfileList;
use std::cmp::Ordering;

/// The first byte of a text and a byte after it.
fn first_of(text: &[u8], end: u8) -> u8
    ensures { result ≡ first_of text.now end }
{
    match text {
        [] => end,
        [first, ..] => *first,
    }
}

/// Two texts, at least one of them empty, each with a byte after it, in byte order.
fn compare_ends(a: &[u8], a_end: u8, b: &[u8], b_end: u8) -> Ordering
    ensures { (a.now ≡ []) ⊎ (b.now ≡ []) →
        result ≡ byte_cmp (a.now ++ a_end ∷ []) (b.now ++ b_end ∷ []) }
{
    first_of(a, a_end)
        .cmp(&first_of(b, b_end))
        .then(a.len().cmp(&b.len()))
}

/// Two texts, each with a byte after it, in byte order.
fn compare_ended(a: &[u8], a_end: u8, b: &[u8], b_end: u8) -> Ordering
    ensures { result ≡ byte_cmp (a.now ++ a_end ∷ []) (b.now ++ b_end ∷ []) }
{
    let both = a.len().min(b.len());
    let (a_front, a_back) = a.split_at(both);
    let (b_front, b_back) = b.split_at(both);
    let order = a_front.cmp(b_front);
    order.then(compare_ends(a_back, a_end, b_back, b_end))
}

/// A name with `!` before it, against a text, each with a byte after it.
fn compare_marked(name: &[u8], end: u8, other: &[u8], other_end: u8) -> Ordering
    ensures { result ≡ byte_cmp (33 ∷ (name.now ++ end ∷ [])) (other.now ++ other_end ∷ []) }
{
    match other {
        [] => b'!'.cmp(&other_end).then(Ordering::Greater),
        [first, rest @ ..] => b'!'
            .cmp(first)
            .then(compare_ended(name, end, rest, other_end)),
    }
}

/// Two items, each with a byte after it, in the byte order of their texts.
fn compare_items(a: (bool, &[u8]), a_end: u8, b: (bool, &[u8]), b_end: u8) -> Ordering
    ensures { result ≡ byte_cmp
        (item_text (item_of a.entry) ++ a_end ∷ []) (item_text (item_of b.entry) ++ b_end ∷ []) }
{
    match (a.0, b.0) {
        (true, true) | (false, false) => compare_ended(a.1, a_end, b.1, b_end),
        (true, false) => compare_marked(a.1, a_end, b.1, b_end),
        (false, true) => compare_marked(b.1, b_end, a.1, a_end).reverse(),
    }
}

/// The byte after an item: a space before more items, and else the closing one.
fn end_before(more: &[(bool, &[u8])]) -> u8
    ensures { result ≡ end_before (items_of more.now) }
{
    if more.is_empty() { b'>' } else { b' ' }
}

/// Two lists, in the byte order of their texts.
pub(crate) fn compare_lists(a: &ProfileList<'_>, b: &ProfileList<'_>) -> Ordering
    ensures { result ≡ byte_cmp (profiles_key a.now) (profiles_key b.now) }
{
    let mut left: &[(bool, &[u8])] = &a.items;
    let mut right: &[(bool, &[u8])] = &b.items;
    while let ([a, a_more @ ..], [b, b_more @ ..]) = (left, right) {
        let order = compare_items(*a, end_before(a_more), *b, end_before(b_more));
        if order.is_ne() {
            return order;
        }
        left = a_more;
        right = b_more;
    }
    left.len().cmp(&right.len())
}
