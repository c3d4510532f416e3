//! Finds the line, the name or the field that a refusal is about.

ghost use Rattle.std.specs.Prelude.{◌≡◌, ◌≤◌, ◌==◌, not, length, map, option_map, IfOk};
ghost use Rattle.std.specs.List.{before_first, position_or_len};
ghost use Rattle.deb_base.specs.FieldNames.{colon};
ghost use Rattle.deb_syntax.specs.Fields.{has_name};
ghost use Rattle.deb_syntax.specs.Paragraphs.{seen_of};
ghost use Rattle.deb_syntax.specs.Raw.{field_of, fields_of};
ghost use Rattle.deb_explain.specs.Subjects.{about_field, about_line, about_missing, about_name};
ghost use Rattle.deb_explain.specs.Subjects.{about_topic, about_value, body_column, column_in};
ghost use Rattle.deb_explain.specs.Subjects.{field_at, missing_among, topic_of};
ghost use Rattle.deb_explain.specs.Shown.{about_of};

use crate::cause::{cause_of, leading_blanks};
use crate::explained::{RefusedField, Subject};
use crate::topic::{Topic, topic_of};
use deb_base::Refusal;
use deb_field::{Doc, required};
use deb_syntax::{Raw, RawField};
use std::alloc::{AllocError, Global};

/// What the refusal of a file is about, by the line that has its number and by the paragraph that
/// is refused, where its lines are not.
pub(crate) fn subject_of(
    alloc: Global,
    doc: Doc,
    refusal: Refusal,
    line: Option<&[u8]>,
    paragraph: Option<Raw<'_>>,
) -> Result<Subject, AllocError>
    ensures { IfOk result (λ subject. about_of subject
        ≡ about_topic (topic_of refusal.code) doc (option_map (λ line. line.now) line.entry) refusal
        (option_map seen_of paragraph.entry)) }
{
    match (topic_of(refusal.code), paragraph) {
        (Topic::Line, _) => line_subject(alloc, line),
        (Topic::Name, _) => name_subject(alloc, line),
        (Topic::Missing, Some(paragraph)) => Ok(missing_subject(doc, &paragraph)),
        (Topic::Value, Some(paragraph)) => value_subject(alloc, doc, line, refusal, &paragraph),
        (Topic::Whole, _) | (Topic::Missing | Topic::Value, None) => Ok(Subject::Whole),
    }
}

/// The line that is refused.
fn line_subject(alloc: Global, line: Option<&[u8]>) -> Result<Subject, AllocError>
    ensures { IfOk result (λ subject. about_of subject
        ≡ about_line (option_map (λ line. line.now) line.entry)) }
{
    match line {
        Some(line) => Ok(Subject::Line(line.to_vec(alloc)?)),
        None => Ok(Subject::Whole),
    }
}

/// Returns the text before the first colon of the line that is refused.
fn name_subject(alloc: Global, line: Option<&[u8]>) -> Result<Subject, AllocError>
    ensures { IfOk result (λ subject. about_of subject
        ≡ about_name (option_map (λ line. line.now) line.entry)) }
{
    match line {
        Some(line) => Ok(Subject::Name(before_colon(line).to_vec(alloc)?)),
        None => Ok(Subject::Whole),
    }
}

/// Returns the text before the first colon, or all if there is none.
fn before_colon(line: &[u8]) -> &[u8]
    ensures { result.now ≡ before_first (λ b. b == colon) line.now }
{
    &line[..colon_at(line)]
}

/// Returns the offset of the first colon, or the length if there is none.
fn colon_at(line: &[u8]) -> usize
    ensures value { result ≡ position_or_len (λ b. b == colon) line.now }
    ensures bound { result ≤ length line.now }
{
    line.iter().take_while(|byte| **byte != b':').count()
}

/// The first required field that a paragraph lacks.
fn missing_subject(doc: Doc, paragraph: &Raw<'_>) -> Subject
    ensures { about_of result ≡ about_missing doc (seen_of paragraph.now) }
{
    match missing_among(required(doc), paragraph) {
        Some(name) => Subject::Missing(name),
        None => Subject::Whole,
    }
}

/// The first of the names that no field of a paragraph has.
fn missing_among<'n>(names: &[&'n [u8]], paragraph: &Raw<'_>) -> Option<&'n [u8]>
    ensures { option_map (λ name. name.now) result
        ≡ missing_among (map (λ name. name.now) names.now) (fields_of paragraph.now) }
{
    names
        .iter()
        .find(|name| lacks_field(paragraph, name))
        .copied()
}

fn lacks_field(paragraph: &Raw<'_>, name: &[u8]) -> bool
    ensures { result ≡ not (has_name name.now (fields_of paragraph.now)) }
{
    paragraph.get(name).is_none()
}

/// The field at the line of a refusal, with what is wrong in its body.
fn value_subject(
    alloc: Global,
    doc: Doc,
    line: Option<&[u8]>,
    refusal: Refusal,
    paragraph: &Raw<'_>,
) -> Result<Subject, AllocError>
    ensures { IfOk result (λ subject. about_of subject
        ≡ about_value doc (option_map (λ line. line.now) line.entry) refusal
        (seen_of paragraph.now)) }
{
    match field_at(paragraph, refusal.line) {
        Some(field) => Ok(Subject::Field(refused_field(alloc, doc, line, refusal, &field)?)),
        None => Ok(Subject::Whole),
    }
}

/// The field of a paragraph that begins at a line.
fn field_at<'a>(paragraph: &Raw<'a>, line: u64) -> Option<RawField<'a>>
    ensures { option_map field_of result ≡ field_at line (fields_of paragraph.now) }
{
    paragraph.fields().find(|field| field.line == line)
}

/// A copy of a field, with what is wrong in its body.
fn refused_field(
    alloc: Global,
    doc: Doc,
    line: Option<&[u8]>,
    refusal: Refusal,
    field: &RawField<'_>,
) -> Result<RefusedField, AllocError>
    ensures { IfOk result (λ refused. about_of (Subject.Field refused)
        ≡ about_field doc (option_map (λ line. line.now) line.entry) refusal
        (field_of field.now)) }
{
    Ok(RefusedField {
        name: field.name.to_vec(alloc)?,
        column: column_in(line),
        body: field.body.to_vec(alloc)?,
        cause: cause_of(alloc, doc, refusal.code, field.name, field.body)?,
    })
}

/// The column, counted from 1, at which the body of a line's field begins.
fn column_in(line: Option<&[u8]>) -> usize
    ensures { result ≡ column_in (option_map (λ line. line.now) line.entry) }
{
    match line {
        Some(line) => body_column(line),
        None => 1,
    }
}

/// The same of a line: after its first colon, and after the spaces and tabs there.
fn body_column(line: &[u8]) -> usize
    ensures { result ≡ body_column line.now }
{
    let colon = colon_at(line);
    if colon == line.len() {
        return colon.saturating_add(2);
    }
    colon + 2 + leading_blanks(&line[colon + 1..])
}
