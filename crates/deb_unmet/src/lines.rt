//! Lines of a paragraph.

ghost use Rattle.std.specs.Prelude.{◌≡◌, ◌++◌, IfOk, OnOk};
ghost use Rattle.std.specs.Option.{option_map};
ghost use Rattle.deb_control.specs.ValueFiles.{ValueEntries};
ghost use Rattle.deb_field.specs.Values.{ValueMeaning};
ghost use Rattle.deb_relation.specs.Environments.{environment_of};
ghost use Rattle.deb_unmet.specs.Asked.{fields_asked};
ghost use Rattle.deb_unmet.specs.Fields.{environment_for, fields_lines, own_environment, own_or, paragraph_lines};
ghost use Rattle.deb_unmet.specs.Paragraphs.{HasTextsOf, heading_in};
ghost use Rattle.deb_unmet.specs.Scopes.{scope_of};

use crate::asked::Asked;
use crate::group::append_groups;
use crate::paragraph::Paragraph;
use crate::question::Question;
use crate::trying::{Tried, is_tried};
use deb_relation::{Env, EnvFault};
use std::alloc::{AllocError, Global};

/// Appends the lines of a paragraph: one for each group of its relations that no package of the
/// index meets, or may not meet, as [`crate::unmet`] writes them. A paragraph that isn't asked has
/// none.
///
/// # Errors
///
/// Out of memory.
pub fn append_lines(
    alloc: Global,
    out: &mut Vec<u8>,
    question: &Question<'_>,
    paragraph: &Paragraph<'_>,
) -> Result<(), AllocError>
    ensures { (values : ValueEntries ValueMeaning)
        → HasTextsOf paragraph.now.asked paragraph.now.texts.now values
        → OnOk result (out.new.items ≡ out.old.items ++ paragraph_lines paragraph.now.asked
        (environment_of question.now.environment.now) (scope_of question.now)
        paragraph.now.number paragraph.now.texts.now.version.now values) }
{
    let tried = Tried {
        paragraph: &*paragraph,
        applies: is_tried(question, paragraph),
    };
    append_tried(alloc, out, question, &tried)
}

/// Appends the lines of a paragraph that is asked so.
fn append_tried(
    alloc: Global,
    out: &mut Vec<u8>,
    question: &Question<'_>,
    tried: &Tried<'_>,
) -> Result<(), AllocError>
    ensures { (values : ValueEntries ValueMeaning)
        → HasTextsOf tried.now.paragraph.now.asked tried.now.paragraph.now.texts.now values
        → OnOk result (out.new.items ≡ out.old.items ++ fields_lines
        (environment_for tried.now.paragraph.now.asked
        (environment_of question.now.environment.now) values) (scope_of question.now)
        tried.now.applies (heading_in tried.now.paragraph.now) values
        (fields_asked tried.now.paragraph.now.asked)) }
{
    if !tried.applies.may() {
        return Ok(());
    }
    let own = own_environment(
        alloc,
        tried.paragraph.asked,
        question.environment,
        tried.paragraph.texts.architecture,
    )?;
    let own_question = Question {
        environment: own_or(own.as_ref(), question.environment),
        ..*question
    };
    append_fields(alloc, out, &own_question, tried)
}

/// Returns the own environment, if there is one, and else the other.
pub fn own_or<'a>(own: Option<&'a Env>, environment: &'a Env) -> &'a Env
    ensures { environment_of result.now
        ≡ own_or (option_map (λ e. environment_of e.now) own.entry)
        (environment_of environment.now) }
{
    own.unwrap_or(environment)
}

/// Returns the environment of a binary package's own architecture, with the same profiles; none for
/// a source package, and if that architecture can't be a target, as `all`.
///
/// # Errors
///
/// Out of memory.
pub fn own_environment(
    alloc: Global,
    asked: Asked,
    environment: &Env,
    architecture: &[u8],
) -> Result<Option<Env>, AllocError>
    ensures { IfOk result (λ own. option_map environment_of own
        ≡ own_environment asked (environment_of environment.now) architecture.now) }
{
    if !asked.is_binary() {
        return Ok(None);
    }
    match environment.for_target(alloc, architecture) {
        Ok(own) => Ok(Some(own)),
        Err(EnvFault::BadEnvironment) => Ok(None),
        Err(EnvFault::Memory) => Err(AllocError),
    }
}

/// Appends the lines of the fields that are asked.
fn append_fields(
    alloc: Global,
    out: &mut Vec<u8>,
    question: &Question<'_>,
    tried: &Tried<'_>,
) -> Result<(), AllocError>
    ensures { (values : ValueEntries ValueMeaning)
        → HasTextsOf tried.now.paragraph.now.asked tried.now.paragraph.now.texts.now values
        → OnOk result (out.new.items ≡ out.old.items ++ fields_lines
        (environment_of question.now.environment.now) (scope_of question.now)
        tried.now.applies (heading_in tried.now.paragraph.now) values
        (fields_asked tried.now.paragraph.now.asked)) }
{
    let fields = tried.paragraph.asked.fields();
    for row in 0..fields.len() {
        let text = tried.paragraph.texts.relation(row);
        append_groups(alloc, out, question, tried, fields[row], text)?;
    }
    Ok(())
}
