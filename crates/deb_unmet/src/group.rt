//! Lines of groups.

ghost use Rattle.std.specs.Prelude.{◌≡◌, ◌++◌, ◌&&◌, [], ◌∷◌, IfOk, OnOk};
ghost use Rattle.std.specs.List.{flat_map};
ghost use Rattle.deb_relation.specs.Environments.{environment_of};
ghost use Rattle.deb_relation.specs.Meaning.{Alternative as Meaning};
ghost use Rattle.deb_relation.specs.Relations.{relation_of};
ghost use Rattle.deb_relation.specs.Views.{alternative_of};
ghost use Rattle.deb_index.specs.CanonicalTexts.{OfGroup, OfRelation};
ghost use Rattle.deb_index.specs.Indexes.{packages_of};
ghost use Rattle.deb_unmet.specs.Paragraphs.{heading_in};
ghost use Rattle.deb_unmet.specs.Readings.{applies_by, may};
ghost use Rattle.deb_unmet.specs.Scopes.{old_packages, scope_of};
ghost use Rattle.deb_unmet.specs.SoFar.{trouble_by, unless_met, with_alternative};
ghost use Rattle.deb_unmet.specs.Troubles.{group_lines, is_met, trouble, trouble_for, trouble_in, trouble_line, trouble_word, was_met};

use crate::applying::{Applies, applies_by};
use crate::paragraph::Paragraph;
use crate::plain::is_plainly_met;
use crate::question::{Candidates, Question};
use crate::trouble::Trouble;
use crate::trying::Tried;
use deb_index::{cut_group, next_alternative, only_alternative};
use deb_relation::{Alternative, Relation};
use std::alloc::{AllocError, Global};

/// Appends the line of each group that has one, of the relation with a canonical text in a field of
/// a paragraph.
pub(crate) fn append_groups(
    alloc: Global,
    out: &mut Vec<u8>,
    question: &Question<'_>,
    tried: &Tried<'_>,
    field: &[u8],
    text: &[u8],
) -> Result<(), AllocError>
    ensures { OfRelation text.now (λ m. OnOk result (out.new.items ≡ out.old.items ++ flat_map
        (group_lines (environment_of question.now.environment.now) (scope_of question.now)
        tried.now.applies (heading_in tried.now.paragraph.now) field.now) m)) }
{
    let mut rest = text;
    while !rest.is_empty() {
        let (group, others) = cut_group(rest);
        append_group(alloc, out, question, tried, field, group)?;
        rest = others;
    }
    Ok(())
}

/// Appends the line of the group with a canonical text, if it has one.
fn append_group(
    alloc: Global,
    out: &mut Vec<u8>,
    question: &Question<'_>,
    tried: &Tried<'_>,
    field: &[u8],
    group: &[u8],
) -> Result<(), AllocError>
    ensures { OfGroup group.now (λ g. OnOk result (out.new.items ≡ out.old.items ++ group_lines
        (environment_of question.now.environment.now) (scope_of question.now)
        tried.now.applies (heading_in tried.now.paragraph.now) field.now g)) }
{
    let now = Candidates {
        index: question.index,
        environment: question.environment,
    };
    if is_plainly_met(&now, group) {
        return Ok(());
    }
    let why = trouble_in(alloc, question, group)?;
    let why = trouble_for(tried.applies, why);
    append_line(out, why, tried.paragraph, field, group)
}

/// Appends the line of the group with this text, if there is a reason for one.
fn append_line(
    out: &mut Vec<u8>,
    why: Option<Trouble>,
    paragraph: &Paragraph<'_>,
    field: &[u8],
    group: &[u8],
) -> Result<(), AllocError>
    ensures { OnOk result (out.new.items
        ≡ out.old.items ++ trouble_line why (heading_in paragraph.now) field.now group.now) }
{
    if let Some(why) = why {
        out.extend_from_slice(word_of(why))?;
        paragraph.append_heading(out)?;
        out.extend_from_slice(field)?;
        out.push(b' ')?;
        out.extend_from_slice(group)?;
        out.push(b'\n')?;
    }
    Ok(())
}

/// Returns why the group with a canonical text has a line, if it has one and its paragraph is
/// surely asked. An old index is asked only of a group that the packages don't meet.
fn trouble_in(
    alloc: Global,
    question: &Question<'_>,
    group: &[u8],
) -> Result<Option<Trouble>, AllocError>
    ensures { OfGroup group.now (λ g. IfOk result (λ why. why
        ≡ trouble_in (scope_of question.now) (environment_of question.now.environment.now) g)) }
{
    let now = Candidates {
        index: question.index,
        environment: question.environment,
    };
    let why = trouble_of(alloc, &now, group)?;
    if why.is_none() {
        return Ok(None);
    }
    let met = was_met(alloc, question, group)?;
    if met { Ok(why) } else { Ok(None) }
}

/// Returns whether an old index, if there is one, meets or ignores the group with a canonical text
/// in every reading.
fn was_met(alloc: Global, question: &Question<'_>, group: &[u8]) -> Result<bool, AllocError>
    ensures { OfGroup group.now (λ g. IfOk result (λ met. met
        ≡ was_met (old_packages question.now.unless)
        (environment_of question.now.environment.now) g)) }
{
    let Some(index) = question.unless else {
        return Ok(true);
    };
    let old = Candidates {
        index,
        environment: question.environment,
    };
    let why = trouble_of(alloc, &old, group)?;
    Ok(why.is_none())
}

/// Returns why a group has a line whose paragraph is asked so.
fn trouble_for(applies: Applies, why: Option<Trouble>) -> Option<Trouble>
    ensures { result ≡ trouble_for applies why }
{
    match applies {
        Applies::Surely => why,
        Applies::Maybe => why.map(|_| Trouble::Unsure),
        Applies::Never => None,
    }
}

/// Returns why packages leave the group with a canonical text unmet, if they may.
fn trouble_of(
    alloc: Global,
    question: &Candidates<'_>,
    group: &[u8],
) -> Result<Option<Trouble>, AllocError>
    ensures { OfGroup group.now (λ g. IfOk result
        (λ why. why ≡ trouble (environment_of question.now.environment.now)
        (packages_of question.now.index.now) g)) }
{
    let mut readings = Readings {
        unmet: false,
        met: false,
        applies: false,
    };
    let mut rest = group;
    while !rest.is_empty() {
        let (relation, others) = next_alternative(alloc, rest)?;
        match readings.with_only(question, &relation) {
            Some(more) => readings = more,
            None => return Ok(None),
        }
        rest = others;
    }
    Ok(readings.trouble())
}

/// Returns whether an alternative that applies so is met in some reading.
fn may_be_met(question: &Candidates<'_>, applies: Applies, alternative: &Alternative<'_>) -> bool
    ensures { result ≡ (may applies && is_met (environment_of question.now.environment.now)
        (packages_of question.now.index.now) (alternative_of alternative.now)) }
{
    applies.may() && question.index.meets(alternative, question.environment)
}

/// What readings a group has by the alternatives so far, of which none surely applies and is met.
#[derive(Clone, Copy, Debug)]
struct Readings {
    /// One may apply and is unmet.
    unmet: bool,
    /// One may apply and is met.
    met: bool,
    /// One surely applies.
    applies: bool,
}

impl Readings {
    /// The readings with the only alternative of a relation more; none if that surely applies and
    /// is met.
    fn with_only(self, question: &Candidates<'_>, relation: &Relation<'_>) -> Option<Readings>
        ensures { (a : Meaning) → relation_of relation.now ≡ (a ∷ []) ∷ [] → result
            ≡ unless_met (applies_by (environment_of question.now.environment.now) a)
            (is_met (environment_of question.now.environment.now)
            (packages_of question.now.index.now) a) self }
    {
        let alternative = only_alternative(relation)?;
        let applies = applies_by(alternative, question.environment);
        let may_be_met = may_be_met(question, applies, alternative);
        if may_be_met && applies.surely() {
            return None;
        }
        Some(self.with(applies, may_be_met))
    }

    /// The readings with an alternative more.
    fn with(self, applies: Applies, may_be_met: bool) -> Readings
        ensures { result ≡ with_alternative applies may_be_met self }
    {
        Readings {
            unmet: self.unmet || (applies.may() && !may_be_met),
            met: self.met || may_be_met,
            applies: self.applies || applies.surely(),
        }
    }

    /// Why a group with these readings has a line, if it has one.
    fn trouble(self) -> Option<Trouble>
        ensures { result ≡ trouble_by self }
    {
        if !self.unmet {
            None
        } else if self.met || !self.applies {
            Some(Trouble::Unsure)
        } else {
            Some(Trouble::Unmet)
        }
    }
}

fn word_of(why: Trouble) -> &'static [u8]
    ensures { result.now ≡ trouble_word why }
{
    match why {
        Trouble::Unmet => b"unmet",
        Trouble::Unsure => b"unsure",
    }
}
