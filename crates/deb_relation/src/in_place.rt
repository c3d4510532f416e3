//! Relations that are canonical where they are spelled: judged in one pass, without memory.
//!
//! `None` says nothing of a text: it is then read part by part.

ghost use Rattle.std.specs.Prelude.{◌≡◌, ◌++◌, ℕ, List, IfSome, codes};
ghost use Rattle.deb_relation.specs.InPlace.{BeginsAlternative, BeginsBound, CutsGroup, IsInPlace};
ghost use Rattle.deb_relation.specs.Texts.{operator_text};

use crate::name::{read_good_name, read_qualifier};
use crate::operator::Op;
use deb_version::canonical_prefix;

/// The operator of a bound in canonical text, and what follows it and its space.
fn cut_operator(text: &[u8]) -> Option<(Op, &[u8])>
    ensures { IfSome result
        (λ p. text.now ≡ codes " (" ++ (operator_text p.0 ++ (codes " " ++ p.1.now))) }
{
    match text {
        [b' ', b'(', b'>', b'=', b' ', rest @ ..] => Some((Op::LaterEqual, rest)),
        [b' ', b'(', b'=', b' ', rest @ ..] => Some((Op::Equal, rest)),
        [b' ', b'(', b'<', b'<', b' ', rest @ ..] => Some((Op::Earlier, rest)),
        [b' ', b'(', b'<', b'=', b' ', rest @ ..] => Some((Op::EarlierEqual, rest)),
        [b' ', b'(', b'>', b'>', b' ', rest @ ..] => Some((Op::Later, rest)),
        _ => None,
    }
}

/// What follows the closing parenthesis of a bound.
fn cut_close(text: &[u8]) -> Option<&[u8]>
    ensures { IfSome result (λ rest. text.now ≡ codes ")" ++ rest.now) }
{
    match text {
        [b')', rest @ ..] => Some(rest),
        _ => None,
    }
}

/// Whether the bound has no operator other than `=`, and what follows the bound, where the text
/// begins with a canonical one; or true and the text.
fn cut_bound(text: &[u8]) -> Option<(bool, &[u8])>
    ensures { IfSome result (λ p. BeginsBound text.now p.0 p.1.now) }
{
    let Some((operator, behind)) = cut_operator(text) else {
        return Some((true, text));
    };
    let (_, behind) = behind.split_at(canonical_prefix(behind)?);
    let rest = cut_close(behind)?;
    Some((operator.is_equal(), rest))
}

/// Whether the bound of the alternative has no operator other than `=`, and what follows the
/// alternative, where the text begins with a canonical one without lists.
fn cut_alternative(text: &[u8]) -> Option<(bool, &[u8])>
    ensures { IfSome result (λ p. BeginsAlternative text.now p.0 p.1.now) }
{
    let (_, rest) = read_good_name(text)?;
    match read_qualifier(rest) {
        Ok((_, rest)) => cut_bound(rest),
        Err(_) => None,
    }
}

/// What follows the bar between two alternatives.
fn cut_bar(text: &[u8]) -> Option<&[u8]>
    ensures { IfSome result (λ next. text.now ≡ codes " | " ++ next.now) }
{
    match text {
        [b' ', b'|', b' ', next @ ..] => Some(next),
        _ => None,
    }
}

/// What follows the comma between two groups.
fn cut_comma(text: &[u8]) -> Option<&[u8]>
    ensures { IfSome result (λ next. text.now ≡ codes ", " ++ next.now) }
{
    match text {
        [b',', b' ', next @ ..] => Some(next),
        _ => None,
    }
}

/// What comes before the rest of a text.
fn front<'a>(text: &'a [u8], rest: &[u8]) -> &'a [u8]
    ensures { (front : List ℕ) → text.now ≡ front ++ rest.now → result.now ≡ front }
{
    &text[..text.len().saturating_sub(rest.len())]
}

/// The text of a group, whether it has two alternatives, whether no bound of it has an operator
/// other than `=`, and what follows it, where the text begins with a canonical one without lists.
#[inline(always)]
pub(crate) fn cut_group(text: &[u8]) -> Option<(&[u8], bool, bool, &[u8])>
    ensures { IfSome result (λ p. CutsGroup text.now p.0.now p.1 p.2 p.3.now) }
{
    let (mut has_two, mut only_equals, mut next) = (false, true, text);
    // One call reads the first alternative and the others, so that it is compiled in place.
    loop {
        let (is_equal, rest) = cut_alternative(next)?;
        only_equals &= is_equal;
        match cut_bar(rest) {
            Some(after) => {
                has_two = true;
                next = after;
            }
            None => return Some((front(text, rest), has_two, only_equals, rest)),
        }
    }
}

/// Whether some group has two alternatives, and whether no bound has an operator other than `=`,
/// where a text is the canonical one of a relation without lists.
pub(crate) fn in_place(text: &[u8]) -> Option<(bool, bool)>
    ensures { IfSome result (λ p. IsInPlace text.now p.0 p.1) }
{
    if text.is_empty() {
        return Some((false, true));
    }
    let (mut last, mut has_two, mut only_equals, mut rest) = cut_group(text)?;
    while let Some(next) = cut_comma(rest) {
        let (group, two, equals, behind) = cut_group(next)?;
        if !last.cmp(group).is_lt() {
            return None;
        }
        last = group;
        has_two |= two;
        only_equals &= equals;
        rest = behind;
    }
    if rest.is_empty() {
        Some((has_two, only_equals))
    } else {
        None
    }
}
