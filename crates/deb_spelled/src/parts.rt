//! The parts of an alternative, and what is left of the text after each.

ghost use Rattle.std.specs.Prelude.{◌≡◌};
ghost use Rattle.deb_spelled.specs.Parts.{cut_architectures, cut_bound, cut_brackets, cut_formula, cut_inside, cut_name, cut_qualifier};

use crate::run::{
    alternative_length, begins, brackets_length, formula_length, name_length, operator_length,
    skip_byte, skip_one, skip_white, version_length,
};
use crate::span::{Span, no_span, span_at};

/// Returns the name, and what is left after it.
#[tactic(auto, unfolding(crate::specs::Parts::cut_name))]
pub(crate) fn cut_name(total: usize, text: &[u8]) -> (Span, &[u8])
    ensures { (result.0, result.1.now) ≡ cut_name total text.now }
{
    let length = name_length(text);
    (span_at(total, text, length), &text[length..])
}

/// Returns the qualifier after a colon, and what is left after it and white space.
#[tactic(auto, unfolding(crate::specs::Parts::cut_qualifier))]
pub(crate) fn cut_qualifier(total: usize, text: &[u8]) -> (Span, &[u8])
    ensures { (result.0, result.1.now) ≡ cut_qualifier total text.now }
{
    let (qualifier, rest) = cut_name(total, skip_byte(text, b':'));
    (qualifier, skip_white(rest))
}

/// Returns the operator and the version after an opening parenthesis, and what is left after the
/// closing one and white space.
#[tactic(auto, unfolding(crate::specs::Parts::cut_inside))]
fn cut_inside(total: usize, text: &[u8]) -> (Span, Span, &[u8])
    ensures { (result.0, result.1, result.2.now) ≡ cut_inside total text.now }
{
    let length = operator_length(text);
    let operator = span_at(total, text, length);
    let text = skip_white(&text[length..]);
    let length = version_length(text);
    let version = span_at(total, text, length);
    let rest = skip_one(skip_white(&text[length..]));
    (operator, version, skip_white(rest))
}

/// Returns the operator and the version of a bound, and what is left after it and white space.
#[tactic(auto, unfolding(crate::specs::Parts::cut_bound))]
pub(crate) fn cut_bound(total: usize, text: &[u8]) -> (Span, Span, &[u8])
    ensures { (result.0, result.1, result.2.now) ≡ cut_bound total text.now }
{
    if begins(text, b'(') {
        cut_inside(total, skip_white(skip_one(text)))
    } else {
        (no_span(), no_span(), text)
    }
}

/// Returns all before the closing bracket of an architecture list, and what is left after that
/// bracket and white space.
#[tactic(auto, unfolding(crate::specs::Parts::cut_brackets))]
fn cut_brackets(total: usize, text: &[u8]) -> (Span, &[u8])
    ensures { (result.0, result.1.now) ≡ cut_brackets total text.now }
{
    let length = brackets_length(text);
    let inside = span_at(total, text, length);
    (inside, skip_white(skip_one(&text[length..])))
}

/// Returns the inside of an architecture list, and what is left after the list and white space.
#[tactic(auto, unfolding(crate::specs::Parts::cut_architectures))]
pub(crate) fn cut_architectures(total: usize, text: &[u8]) -> (Span, &[u8])
    ensures { (result.0, result.1.now) ≡ cut_architectures total text.now }
{
    if begins(text, b'[') {
        cut_brackets(total, skip_one(text))
    } else {
        (no_span(), text)
    }
}

/// Returns the formula, and what is left from the comma or the bar after the alternative on.
#[tactic(auto, unfolding(crate::specs::Parts::cut_formula))]
pub(crate) fn cut_formula(total: usize, text: &[u8]) -> (Span, &[u8])
    ensures { (result.0, result.1.now) ≡ cut_formula total text.now }
{
    let (within, rest) = text.split_at(alternative_length(text));
    (span_at(total, text, formula_length(within)), rest)
}
