//! Checks one paragraph: only this module decides whether a paragraph passes by itself.

ghost use Rattle.std.specs.Prelude.{◌≡◌, ◌≤◌, ◌++◌, ◌∷◌, ℕ, List, [], Option, Some, Err, IfOk, IfErr, cond, length, map, min};
ghost use Rattle.deb_base.specs.Bodies.{IsBody};
ghost use Rattle.deb_base.specs.Faults.{RefusedOrMemory};
ghost use Rattle.deb_base.specs.Names.{canonical_name};
ghost use Rattle.deb_syntax.specs.Paragraphs.{seen_of};
ghost use Rattle.deb_syntax.specs.Raw.{field_of, fields_of};
ghost use Rattle.deb_base.specs.Kinds.{kind_of, required};
ghost use Rattle.deb_base.specs.KnownFields.{row_of};
ghost use Rattle.deb_base.specs.declared.doc.Doc.TheVariants as docs;
ghost use Rattle.deb_base.specs.declared.kind.Kind.TheVariants as kinds;
ghost use Rattle.deb_field.specs.Faults.{IsFaultOrMemory};
ghost use Rattle.deb_field.specs.Shown.{text_bytes};
ghost use Rattle.deb_field.specs.Values.{SpellsValue, kind_refusal, value_refusal, value_text};
ghost use Rattle.deb_field.specs.ValueMeanings.{value_meaning};
ghost use Rattle.deb_control.specs.Canonical.{behind_colon, field_text};
ghost use Rattle.deb_control.specs.Checking.{text_built};
ghost use Rattle.deb_control.specs.Documents.{rules_of};
ghost use Rattle.deb_control.specs.Refusals.{built, have_names, value_refusal_of};
ghost use Rattle.deb_control.specs.Required.{have_rows};
ghost use Rattle.deb_control.specs.Visiting.{Visit, VisitsField, VisitsFields, VisitsValues, most, visit_of, visit_text};

use crate::field::{is_spaced, is_spaced_text};
use crate::visitor::FieldVisitor;
use deb_base::{
    Code, Fault, FieldId, Kind, PARAGRAPH_LIMIT, Refusal, Relationship, required_fields,
};
use deb_field::{
    ArchitectureName, Canon, Doc, Line, MultiArch, Number, PackageName, RelationField, SourceName,
    Text, Value, ValueFault, parse_version,
};
use deb_syntax::{Raw, RawField};
use std::alloc::{AllocError, Global};

/// Reads the value of each field of a paragraph in file order, shows it to the visitor, and returns
/// the length of the paragraph's canonical text.
///
/// # Errors
///
/// Those of `Paragraph::build`; `Fault::Memory` also if the visitor is out of memory.
pub(crate) fn check_paragraph<V: FieldVisitor>(
    alloc: Global,
    doc: Doc,
    paragraph: &Raw<'_>,
    visitor: &mut V,
) -> Result<u64, Fault>
    ensures length { IfOk result
        (λ n. n ≡ length (text_built (built (rules_of doc) (seen_of paragraph.now)))) }
    ensures short { IfOk result (λ n. n ≤ PARAGRAPH_LIMIT) }
    ensures visits { IfOk result
        (λ n. VisitsValues V.Visited visitor.new doc (seen_of paragraph.now)) }
    ensures fault { IfErr result
        (λ fault. RefusedOrMemory fault
        (λ refusal. built (rules_of doc) (seen_of paragraph.now) ≡ Err refusal)) }
{
    let length = visit_fields(alloc, doc, paragraph, visitor)?;
    if !has_required(doc, paragraph) {
        return Err(refused(Code::MissingField, paragraph.first_line()));
    }
    if length > PARAGRAPH_LIMIT as u64 {
        return Err(refused(Code::ParagraphTooLong, paragraph.first_line()));
    }
    Ok(length)
}

/// Visits each field of a paragraph with its value, and returns the length of their canonical
/// texts, or `u64::MAX` if it is greater.
fn visit_fields<V: FieldVisitor>(
    alloc: Global,
    doc: Doc,
    paragraph: &Raw<'_>,
    visitor: &mut V,
) -> Result<u64, Fault>
    ensures visits { IfOk result
        (VisitsFields V.Visited visitor.new doc (fields_of paragraph.now)) }
    ensures fault { IfErr result
        (λ fault. RefusedOrMemory fault
        (λ refusal. value_refusal_of (rules_of doc) (fields_of paragraph.now) ≡ Some refusal)) }
{
    if let Doc::Any = doc {
        return Ok(visit_texts(paragraph, visitor)?);
    }
    visitor.start();
    let mut length: u64 = 0;
    for index in 0..paragraph.len() {
        if let Some(raw) = paragraph.field(index) {
            length = length.saturating_add(visit_field(
                alloc,
                kind_of_field(doc, &raw),
                &raw,
                visitor,
            )?);
        }
    }
    Ok(length)
}

/// Visits each field of a paragraph with its value as text, and returns the length of their
/// canonical texts, or `u64::MAX` if it is greater.
fn visit_texts<V: FieldVisitor>(paragraph: &Raw<'_>, visitor: &mut V) -> Result<u64, AllocError>
    ensures { IfOk result
        (VisitsFields V.Visited visitor.new docs.Any (fields_of paragraph.now)) }
{
    visitor.start();
    let mut length: u64 = 0;
    for index in 0..paragraph.len() {
        if let Some(raw) = paragraph.field(index) {
            length = length.saturating_add(visit_as_text(&raw, visitor)?);
        }
    }
    Ok(length)
}

/// Visits a field of this kind with its value, and returns the length of its canonical text, or
/// `u64::MAX` if it is greater. The errors are those of reading its value.
fn visit_field<V: FieldVisitor>(
    alloc: Global,
    kind: Kind,
    field: &RawField<'_>,
    visitor: &mut V,
) -> Result<u64, Fault>
    ensures visits { IfOk result
        (VisitsField V.Visited visitor.old visitor.new kind (field_of field.now)) }
    ensures fault { IfErr result
        (λ fault. RefusedOrMemory fault
        (λ refusal. (refusal.line ≡ field.now.line)
        × (kind_refusal kind field.now.body.now ≡ Some refusal.code))) }
{
    // Each of the kinds that most fields have is read without a `Result` of any value.
    match kind {
        Kind::Text => Ok(visit_as_text(field, visitor)?),
        Kind::Line => visit_as_line(field, visitor),
        Kind::Name => visit_as_name(field, visitor),
        Kind::Number => visit_as_number(field, visitor),
        Kind::Version => visit_as_version(field, visitor),
        Kind::Architecture => visit_as_architecture(field, visitor),
        Kind::Source => visit_as_source(field, visitor),
        Kind::MultiArch => visit_as_multi_arch(field, visitor),
        Kind::Relation(relationship) => visit_as_relation(alloc, relationship, field, visitor),
        _ => visit_as_kind(alloc, kind, field, visitor),
    }
}

/// Visits a field whose value is text.
fn visit_as_text<V: FieldVisitor>(field: &RawField<'_>, visitor: &mut V) -> Result<u64, AllocError>
    ensures { IfOk result
        (VisitsField V.Visited visitor.old visitor.new kinds.Text (field_of field.now)) }
{
    let text = Text::new(field.body);
    visitor.visit(field, &Value::Text(text))?;
    Ok(text_field_len(field.name, &text))
}

/// Visits a field whose value is text of one line.
fn visit_as_line<V: FieldVisitor>(field: &RawField<'_>, visitor: &mut V) -> Result<u64, Fault>
    ensures visits { IfOk result
        (VisitsField V.Visited visitor.old visitor.new kinds.Line (field_of field.now)) }
    ensures fault { IfErr result
        (λ fault. RefusedOrMemory fault
        (λ refusal. (refusal.line ≡ field.now.line)
        × (kind_refusal kinds.Line field.now.body.now ≡ Some refusal.code))) }
{
    match Line::parse(field.body) {
        Ok(line) => Ok(visit_value(field, &Value::Line(line), visitor)?),
        Err(code) => Err(refused(code, field.line)),
    }
}

/// Visits a field whose value is the name of a package.
fn visit_as_name<V: FieldVisitor>(field: &RawField<'_>, visitor: &mut V) -> Result<u64, Fault>
    ensures visits { IfOk result
        (VisitsField V.Visited visitor.old visitor.new kinds.Name (field_of field.now)) }
    ensures fault { IfErr result
        (λ fault. RefusedOrMemory fault
        (λ refusal. (refusal.line ≡ field.now.line)
        × (kind_refusal kinds.Name field.now.body.now ≡ Some refusal.code))) }
{
    match PackageName::parse(field.body) {
        Ok(value) => Ok(visit_value(field, &Value::Name(value), visitor)?),
        Err(code) => Err(refused(code, field.line)),
    }
}

/// Visits a field whose value is a number.
fn visit_as_number<V: FieldVisitor>(field: &RawField<'_>, visitor: &mut V) -> Result<u64, Fault>
    ensures visits { IfOk result
        (VisitsField V.Visited visitor.old visitor.new kinds.Number (field_of field.now)) }
    ensures fault { IfErr result
        (λ fault. RefusedOrMemory fault
        (λ refusal. (refusal.line ≡ field.now.line)
        × (kind_refusal kinds.Number field.now.body.now ≡ Some refusal.code))) }
{
    match Number::parse(field.body) {
        Ok(value) => Ok(visit_value(field, &Value::Number(value), visitor)?),
        Err(code) => Err(refused(code, field.line)),
    }
}

/// Visits a field whose value is a version.
#[inline(never)]
fn visit_as_version<V: FieldVisitor>(field: &RawField<'_>, visitor: &mut V) -> Result<u64, Fault>
    ensures visits { IfOk result
        (VisitsField V.Visited visitor.old visitor.new kinds.Version (field_of field.now)) }
    ensures fault { IfErr result
        (λ fault. RefusedOrMemory fault
        (λ refusal. (refusal.line ≡ field.now.line)
        × (kind_refusal kinds.Version field.now.body.now ≡ Some refusal.code))) }
{
    match parse_version(field.body) {
        Ok(value) => Ok(visit_value(field, &Value::Version(value), visitor)?),
        Err(code) => Err(refused(code, field.line)),
    }
}

/// Visits a field whose value is the name of an architecture.
fn visit_as_architecture<V: FieldVisitor>(
    field: &RawField<'_>,
    visitor: &mut V,
) -> Result<u64, Fault>
    ensures visits { IfOk result
        (VisitsField V.Visited visitor.old visitor.new kinds.Architecture (field_of field.now)) }
    ensures fault { IfErr result
        (λ fault. RefusedOrMemory fault
        (λ refusal. (refusal.line ≡ field.now.line)
        × (kind_refusal kinds.Architecture field.now.body.now ≡ Some refusal.code))) }
{
    match ArchitectureName::parse(field.body) {
        Ok(value) => Ok(visit_value(field, &Value::Architecture(value), visitor)?),
        Err(code) => Err(refused(code, field.line)),
    }
}

/// Visits a field whose value is the name of a source package, with a version or without.
#[inline(never)]
fn visit_as_source<V: FieldVisitor>(field: &RawField<'_>, visitor: &mut V) -> Result<u64, Fault>
    ensures visits { IfOk result
        (VisitsField V.Visited visitor.old visitor.new kinds.Source (field_of field.now)) }
    ensures fault { IfErr result
        (λ fault. RefusedOrMemory fault
        (λ refusal. (refusal.line ≡ field.now.line)
        × (kind_refusal kinds.Source field.now.body.now ≡ Some refusal.code))) }
{
    match SourceName::parse(field.body) {
        Ok(value) => Ok(visit_value(field, &Value::Source(value), visitor)?),
        Err(code) => Err(refused(code, field.line)),
    }
}

/// Visits a field whose value is a word of Multi-Arch.
fn visit_as_multi_arch<V: FieldVisitor>(field: &RawField<'_>, visitor: &mut V) -> Result<u64, Fault>
    ensures visits { IfOk result
        (VisitsField V.Visited visitor.old visitor.new kinds.MultiArch (field_of field.now)) }
    ensures fault { IfErr result
        (λ fault. RefusedOrMemory fault
        (λ refusal. (refusal.line ≡ field.now.line)
        × (kind_refusal kinds.MultiArch field.now.body.now ≡ Some refusal.code))) }
{
    match MultiArch::parse(field.body) {
        Ok(value) => Ok(visit_value(field, &Value::MultiArch(value), visitor)?),
        Err(code) => Err(refused(code, field.line)),
    }
}

/// Visits a field whose value is a relation.
#[inline(never)]
fn visit_as_relation<V: FieldVisitor>(
    alloc: Global,
    relationship: Relationship,
    field: &RawField<'_>,
    visitor: &mut V,
) -> Result<u64, Fault>
    ensures visits { IfOk result (VisitsField V.Visited visitor.old visitor.new
        (kinds.Relation relationship) (field_of field.now)) }
    ensures fault { IfErr result
        (λ fault. RefusedOrMemory fault
        (λ refusal. (refusal.line ≡ field.now.line)
        × (kind_refusal (kinds.Relation relationship) field.now.body.now
        ≡ Some refusal.code))) }
{
    match RelationField::parse(alloc, relationship, field.body) {
        Ok(value) => Ok(visit_value(field, &Value::Relation(value), visitor)?),
        Err(fault) => Err(fault_at(fault, field.line)),
    }
}

/// Visits a field of any kind. The room for its value is cleared here alone, and not for each field
/// that needs none.
#[inline(never)]
fn visit_as_kind<V: FieldVisitor>(
    alloc: Global,
    kind: Kind,
    field: &RawField<'_>,
    visitor: &mut V,
) -> Result<u64, Fault>
    ensures visits { IfOk result
        (VisitsField V.Visited visitor.old visitor.new kind (field_of field.now)) }
    ensures fault { IfErr result
        (λ fault. RefusedOrMemory fault
        (λ refusal. (refusal.line ≡ field.now.line)
        × (kind_refusal kind field.now.body.now ≡ Some refusal.code))) }
{
    match Value::of_kind(alloc, kind, field.body) {
        Ok(value) => Ok(visit_value(field, &value, visitor)?),
        Err(fault) => Err(fault_at(fault, field.line)),
    }
}

/// Visits a field with this value, and returns the length of its canonical text, or `u64::MAX` if
/// it is greater.
#[inline(always)]
fn visit_value<V: FieldVisitor>(
    field: &RawField<'_>,
    value: &Value<'_>,
    visitor: &mut V,
) -> Result<u64, AllocError>
    ensures measured { IfOk result
        (λ n. n ≡ min (length (visit_text (visit_of field.now value.now))) most) }
    ensures visits { IfOk result
        (λ n. (visited : List Visit) → V.Visited visitor.old visited
        → V.Visited visitor.new (visited ++ visit_of field.now value.now ∷ [])) }
{
    visitor.visit(field, value)?;
    Ok(canonical_len(field.name, value))
}

/// Returns the length of the canonical text of a field with this value, or `u64::MAX` if it is
/// greater.
#[inline(always)]
fn canonical_len(name: &[u8], value: &Value<'_>) -> u64
    ensures { result ≡ min (length (field_text
        (canonical_name name.now, value_text (value_meaning value.now)))) most }
{
    field_len(name, is_spaced(value), value.canon_len())
}

/// Returns what `canonical_len` does for `Value::Text`, without looking at the kind of a value.
#[inline(always)]
fn text_field_len(name: &[u8], text: &Text<'_>) -> u64
    ensures { result ≡ min (length (field_text
        (canonical_name name.now, text_bytes text.now))) most }
{
    field_len(name, is_spaced_text(text), text.canon_len())
}

/// Returns the length of the canonical text of a field, or `u64::MAX` if it is greater. Its value's
/// canonical text has `len` bytes, with a space before it if `spaced`.
#[inline(always)]
fn field_len(name: &[u8], spaced: bool, len: u64) -> u64
    ensures { (text : List ℕ) → len ≡ length text
        → behind_colon text ≡ cond spaced (32 ∷ text) text
        → result ≡ min (length (field_text (canonical_name name.now, text))) most }
{
    let space = u64::from(spaced);
    let name_and_ends = name.len() as u64 + 2 + space;
    name_and_ends.saturating_add(len)
}

/// Returns the value of one field.
pub(crate) fn value_of<'a>(
    alloc: Global,
    doc: Doc,
    field: &RawField<'a>,
) -> Result<Value<'a>, Fault>
    requires { IsBody field.now.body.now }
    ensures ok { IfOk result
        (λ value. SpellsValue doc (canonical_name field.now.name.now) field.now.body.now
        (value_meaning value)) }
    ensures fault { IfErr result
        (λ fault. RefusedOrMemory fault
        (λ refusal. (refusal.line ≡ field.now.line)
        × (value_refusal doc (canonical_name field.now.name.now) field.now.body.now
        ≡ Some refusal.code))) }
{
    match Value::of_kind(alloc, kind_of_field(doc, field), field.body) {
        Ok(value) => Ok(value),
        Err(fault) => Err(fault_at(fault, field.line)),
    }
}

/// Returns the kind of a field's values.
pub(crate) fn kind_of_field(doc: Doc, field: &RawField<'_>) -> Kind
    ensures { result ≡ kind_of doc (canonical_name field.now.name.now) }
{
    field.id.kind(doc)
}

/// Returns the fault of a value in a field that begins at this line.
fn fault_at(fault: ValueFault, line: u64) -> Fault
    ensures { (refusal : Option Code) → IsFaultOrMemory refusal fault
        → RefusedOrMemory result
        (λ refused. (refused.line ≡ line) × (refusal ≡ Some refused.code)) }
{
    match fault {
        ValueFault::Refused(code) => refused(code, line),
        ValueFault::Memory => Fault::Memory,
    }
}

/// Whether the paragraph has each field that a document of this kind requires.
pub(crate) fn has_required(doc: Doc, paragraph: &Raw<'_>) -> bool
    ensures { result ≡ have_names (fields_of paragraph.now) (required doc) }
{
    has_fields(paragraph, required_fields(doc))
}

/// Whether the paragraph has each of these fields of the table.
fn has_fields(paragraph: &Raw<'_>, fields: &[FieldId]) -> bool
    ensures { result ≡ have_rows (fields_of paragraph.now) (map row_of fields.now) }
{
    fields.iter().all(|field| paragraph.has(*field))
}

pub(crate) fn refused(code: Code, line: u64) -> Fault
    ensures { result ≡ Fault.Refused (record { code = code; line = line }) }
{
    Fault::Refused(Refusal { code, line })
}
