//! Paragraphs with their values.

ghost use Rattle.std.specs.Prelude.{◌≡◌, ◌<◌, ◌++◌, Some, None, Err, IfOk, IfErr, IsSome, IsTrue, OnOk};
ghost use Rattle.std.specs.Prelude.{OnErr, length, map};
ghost use Rattle.std.specs.Option.{option_map};
ghost use Rattle.std.specs.FinMap.{find as value_under};
ghost use Rattle.std.specs.List.{AllByRecursion};
ghost use Rattle.std.specs.List.Sorted.{IsPermutation};
ghost use Rattle.deb_base.specs.Faults.{RefusedOrMemory};
ghost use Rattle.deb_base.specs.Names.{canonical_name};
ghost use Rattle.deb_syntax.specs.Meaning.{byte_order};
ghost use Rattle.deb_syntax.specs.Paragraphs.{seen_of};
ghost use Rattle.deb_syntax.specs.Raw.{fields_of};
ghost use Rattle.deb_field.specs.ValueMeanings.{value_meaning};
ghost use Rattle.deb_control.specs.CanonTexts.{picked};
ghost use Rattle.deb_control.specs.Checking.{is_judged, text_built};
ghost use Rattle.deb_control.specs.Documents.{rules_of};
ghost use Rattle.deb_control.specs.Refusals.{built, value_refusal_of};
ghost use Rattle.deb_control.specs.Paragraphs.{field_in, values_in, text_of_values, IsTypedField, AreValuesOf};

use crate::canon_text::{CanonText, sort_fields};
use crate::checker::ParagraphChecker;
use crate::paragraph_check::value_of;
use crate::typed_field::TypedField;
use deb_base::{Fault, same_name};
use deb_field::{Doc, Value};
use deb_syntax::Raw;
use std::alloc::{AllocError, Global};

/// A paragraph of a document of a kind: its fields with their values, by the canonical spellings of
/// their names.
///
/// It owns the list of its fields and its canonical text, and borrows the bytes of the fields.
#[derive(Drop)]
pub struct Paragraph<'a> {
    fields: Vec<TypedField<'a>>,
    text: Vec<u8>,
    ghost written: { text.items ≡ text_of_values (values_in fields.items) },
}

impl<'a> Paragraph<'a> {
    ghost use Rattle.deb_control.specs.ParagraphValues.{fields_shown, values_of};

    /// Reads the values of a paragraph's fields.
    ///
    /// # Errors
    ///
    /// The first body that is refused, in file order, at the line of its field; else `MissingField`
    /// if a field that the kind of document requires is missing; else `ParagraphTooLong` if the
    /// canonical text has more than 16,777,216 bytes, both at the paragraph's first line. Or
    /// `Fault::Memory`, if a growth of memory was refused.
    pub fn build(alloc: Global, doc: Doc, paragraph: &Raw<'a>) -> Result<Paragraph<'a>, Fault>
        ensures ok { IfOk result
            (λ typed. AreValuesOf doc (seen_of paragraph.now) (values_of typed)) }
        ensures fields { IfOk result
            (λ typed. IsPermutation (fields_of paragraph.now) (fields_shown typed)) }
        ensures fault { IfErr result
            (λ fault. RefusedOrMemory fault
            (λ refusal. built (rules_of doc) (seen_of paragraph.now) ≡ Err refusal)) }
    {
        let text = canonical_text(alloc, doc, paragraph)?;
        let fields = read_fields(alloc, doc, paragraph)?;
        Ok(Paragraph { fields, text })
    }

    /// Returns the fields with their values, in ascending order of the canonical spellings of their
    /// names: those of the paragraph, each with its line, its name as spelled, and its body.
    pub fn fields(&self) -> &[TypedField<'a>]
        ensures values { values_in result.now ≡ values_of self.now }
        ensures raw { map field_in result.now ≡ fields_shown self.now }
    {
        self.fields.as_slice()
    }

    /// Returns the value of the field with a name, without ASCII case, or `None` if there is no
    /// such field.
    pub fn get(&self, name: &[u8]) -> Option<&Value<'a>>
        ensures { option_map (λ value. value_meaning value.now) result
            ≡ value_under byte_order (canonical_name name.now) (values_of self.now) }
    {
        for field in self.fields.as_slice() {
            if same_name(field.raw.name, name) {
                return Some(&field.value);
            }
        }
        None
    }

    /// Returns the length of the canonical text in bytes.
    pub fn canon_len(&self) -> u64
        ensures { result ≡ length (text_of_values (values_of self.now)) }
    {
        self.text.len() as u64
    }

    /// Appends the canonical text to `out`: each field on lines of its own, in ascending order of
    /// the canonical spellings of their names.
    ///
    /// # Errors
    ///
    /// Out of memory; `out` is then unchanged.
    pub fn canon_into(&self, out: &mut Vec<u8>) -> Result<(), AllocError>
        ensures ok { OnOk result
            (out.new.items ≡ out.old.items ++ text_of_values (values_of self.now)) }
        ensures unchanged { OnErr result (out.new.items ≡ out.old.items) }
    {
        out.extend_from_slice(self.text.as_slice())
    }
}

/// Checks a paragraph, and returns its canonical text. The errors are those of `Paragraph::build`.
fn canonical_text(alloc: Global, doc: Doc, paragraph: &Raw<'_>) -> Result<Vec<u8>, Fault>
    ensures passes { IfOk result (λ text. IsTrue (is_judged doc (seen_of paragraph.now))) }
    ensures text { IfOk result
        (λ text. text.items ≡ text_built (built (rules_of doc) (seen_of paragraph.now))) }
    ensures fault { IfErr result
        (λ fault. RefusedOrMemory fault
        (λ refusal. built (rules_of doc) (seen_of paragraph.now) ≡ Err refusal)) }
{
    let mut canon = CanonText::new(alloc);
    canon.check(alloc, doc, paragraph)?;
    Ok(canon.text)
}

/// Returns the fields of a paragraph with their values, in ascending order of the canonical
/// spellings of their names.
pub(crate) fn read_fields<'a>(
    alloc: Global,
    doc: Doc,
    paragraph: &Raw<'a>,
) -> Result<Vec<TypedField<'a>>, Fault>
    ensures ok { IsTrue (is_judged doc (seen_of paragraph.now)) → IfOk result
        (λ fields. AreValuesOf doc (seen_of paragraph.now) (values_in fields.items)) }
    ensures fields { IfOk result
        (λ fields. IsPermutation (fields_of paragraph.now) (map field_in fields.items)) }
    ensures fault { IfErr result
        (λ fault. RefusedOrMemory fault
        (λ refusal. IsSome (value_refusal_of (rules_of doc) (fields_of paragraph.now)))) }
{
    let mut order = Vec::new(alloc);
    sort_fields(alloc, paragraph, &mut order)?;
    fields_in_order(alloc, doc, paragraph, &order)
}

/// Returns the fields of these numbers with their values.
fn fields_in_order<'a>(
    alloc: Global,
    doc: Doc,
    paragraph: &Raw<'a>,
    order: &[usize],
) -> Result<Vec<TypedField<'a>>, Fault>
    requires { AllByRecursion (λ k. k < length (fields_of paragraph.now)) order.now }
    ensures fields { IfOk result
        (λ fields. map field_in fields.items ≡ picked (fields_of paragraph.now) order.now) }
    ensures values { IfOk result (λ fields. AllByRecursion (IsTypedField doc) fields.items) }
    ensures fault { IfErr result
        (λ fault. RefusedOrMemory fault
        (λ refusal. IsSome (value_refusal_of (rules_of doc) (fields_of paragraph.now)))) }
{
    let mut fields = Vec::with_capacity(alloc, order.len())?;
    for number in order {
        if let Some(raw) = paragraph.field(*number) {
            let value = value_of(alloc, doc, &raw)?;
            fields.push(TypedField { raw, value })?;
        }
    }
    Ok(fields)
}
