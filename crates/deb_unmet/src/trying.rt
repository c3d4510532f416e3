//! Which paragraphs of a file are asked.

ghost use Rattle.std.specs.Prelude.{◌≡◌, Some};
ghost use Rattle.std.specs.List.{list_any};
ghost use Rattle.std.specs.Option.{option_map};
ghost use Rattle.deb_control.specs.ValueFiles.{ValueEntries};
ghost use Rattle.deb_field.specs.Values.{ValueMeaning};
ghost use Rattle.deb_field.specs.Words.{words_of};
ghost use Rattle.deb_relation.specs.Applying.{is_among};
ghost use Rattle.deb_relation.specs.Environments.{environment_of};
ghost use Rattle.deb_relation.specs.Views.{names_of};
ghost use Rattle.deb_unmet.specs.Paragraphs.{HasTextsOf};
ghost use Rattle.deb_unmet.specs.Readings.{is_open};
ghost use Rattle.deb_unmet.specs.Tried.{applies_to, is_tried, names_target};

use crate::applying::{Applies, is_among, is_open};
use crate::paragraph::Paragraph;
use crate::question::Question;
use deb_field::Folded;

/// A paragraph, and whether it is asked.
#[derive(Clone, Copy)]
pub(crate) struct Tried<'a> {
    pub(crate) paragraph: &'a Paragraph<'a>,
    pub(crate) applies: Applies,
}

/// Returns whether a paragraph is asked: surely, or maybe, or never.
pub(crate) fn is_tried(question: &Question<'_>, paragraph: &Paragraph<'_>) -> Applies
    ensures { (values : ValueEntries ValueMeaning)
        → HasTextsOf paragraph.now.asked paragraph.now.texts.now values
        → result ≡ is_tried paragraph.now.asked (environment_of question.now.environment.now)
        (names_of question.now.without.now) values }
{
    if paragraph.asked.is_binary() {
        if is_left_out(paragraph.texts.name, question.without) {
            Applies::Never
        } else {
            Applies::Surely
        }
    } else if paragraph.asked.by_target() {
        source_applies(paragraph.texts.built_for, question.environment.target())
    } else {
        Applies::Surely
    }
}

/// Returns whether a name is among those that are left out. Mostly there are none.
fn is_left_out(name: &[u8], without: &[&[u8]]) -> bool
    ensures { result ≡ is_among name.now (names_of without.now) }
{
    !without.is_empty() && is_among(name, without)
}

/// Returns whether a source package is built for a target, by the text of its Architecture.
fn source_applies(built_for: Option<&[u8]>, target: &[u8]) -> Applies
    ensures { result ≡ applies_to target.now
        (option_map (λ text. words_of text.now) built_for.entry) }
{
    match built_for {
        None => Applies::Surely,
        Some(text) => named_applies(text, target),
    }
}

/// Returns the same by a text of names.
fn named_applies(text: &[u8], target: &[u8]) -> Applies
    ensures { result ≡ applies_to target.now (Some (words_of text.now)) }
{
    if some_names_target(text, target) {
        Applies::Surely
    } else if some_is_open(text) {
        Applies::Maybe
    } else {
        Applies::Never
    }
}

fn some_names_target(text: &[u8], target: &[u8]) -> bool
    ensures { result ≡ list_any (names_target target.now) (words_of text.now) }
{
    Folded::new(text)
        .words()
        .any(|name| names_target(target, name))
}

fn some_is_open(text: &[u8]) -> bool
    ensures { result ≡ list_any is_open (words_of text.now) }
{
    Folded::new(text).words().any(|name| is_open(name))
}

/// Returns whether a package with this name in its Architecture is built for a target.
fn names_target(target: &[u8], name: &[u8]) -> bool
    ensures { result ≡ names_target target.now name.now }
{
    name == b"any".as_slice() || name == b"all".as_slice() || name == target
}
