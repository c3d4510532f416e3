//! A view of a paragraph that passes, without its canonical text.

ghost use Rattle.std.specs.Prelude.{◌≡◌, List, IsTrue, true};
ghost use Rattle.deb_syntax.specs.Paragraphs.{seen_of};
ghost use Rattle.deb_syntax.specs.Raw.{fields_of};
ghost use Rattle.deb_control.specs.SpelledAlike.{spelled_in};
ghost use Rattle.deb_control.specs.Checking.{is_judged};

use crate::alike::are_alike;
use crate::paragraph::{Paragraph, read_fields};
use crate::paragraph_check::value_of;
use crate::typed_field::TypedField;
use deb_base::Fault;
use deb_field::{Doc, Value};
use deb_syntax::{Fields, Raw, RawField};
use std::alloc::{AllocError, Global};

/// A view of a paragraph that passes every rule of its kind of document: its fields as they are in
/// the file. Values are read from it on demand, and are never refused.
#[derive(Clone, Copy)]
pub struct CheckedView<'a> {
    doc: Doc,
    raw: Raw<'a>,
    ghost passes: { IsTrue (is_judged doc (seen_of raw)) },
}

impl<'a> CheckedView<'a> {
    ghost use Rattle.std.specs.Prelude.{Some, None, IfOk, IfSome, option_map};
    ghost use Rattle.std.specs.List.Sorted.{IsPermutation};
    ghost use Rattle.deb_syntax.specs.Raw.{field_of, field_named, fields_left};
    ghost use Rattle.deb_field.specs.ValueMeanings.{value_meaning};
    ghost use Rattle.deb_control.specs.CheckedStates.{doc_judged, passing_judged};
    ghost use Rattle.deb_control.specs.Paragraphs.{AreValuesOf, values_in};
    ghost use Rattle.deb_control.specs.ParagraphValues.{fields_shown, values_of};
    ghost use Rattle.deb_control.specs.PassingValues.{HasValue};

    pub(crate) fn new(doc: Doc, raw: Raw<'a>) -> CheckedView<'a>
        requires { IsTrue (is_judged doc (seen_of raw)) }
        ensures doc { result.doc ≡ doc }
        ensures seen { (passing_judged result).seen ≡ seen_of raw.entry }
    {
        CheckedView { doc, raw }
    }

    /// Whether a paragraph of a document of this kind is spelled as this one.
    pub(crate) fn is_like(&self, doc: Doc, paragraph: &Raw<'_>) -> bool
        ensures { result ≡ true → (self.now.doc ≡ doc)
            × (spelled_in (fields_of paragraph.now) ≡ spelled_in (fields_of self.now.raw)) }
    {
        self.doc == doc && are_alike(paragraph, &self.raw)
    }

    /// Returns the number of the paragraph's first line in its file, counted from 1.
    pub fn first_line(&self) -> u64
        ensures { result ≡ (passing_judged self.now).seen.first }
    {
        self.raw.first_line()
    }

    /// Returns the field with a name as it is in the file, without ASCII case, or `None` if there
    /// is no such field.
    pub fn get(&self, name: &[u8]) -> Option<RawField<'a>>
        ensures { option_map field_of result
            ≡ field_named name.now (passing_judged self.now).seen.fields }
    {
        self.raw.get(name)
    }

    /// Returns the fields in file order.
    pub fn fields(&self) -> Fields<'a>
        ensures { fields_left result ≡ (passing_judged self.now).seen.fields }
    {
        self.raw.fields()
    }

    /// Returns the value of the field with a name, without ASCII case, or `None` if there is no
    /// such field.
    ///
    /// # Errors
    ///
    /// Out of memory only.
    pub fn value(&self, alloc: Global, name: &[u8]) -> Result<Option<Value<'a>>, AllocError>
        ensures { IfOk result
            (λ value. HasValue (doc_judged self.now) (passing_judged self.now).seen name.now
            (option_map value_meaning value)) }
    {
        let Some(field) = self.raw.get(name) else {
            return Ok(None);
        };
        match value_of(alloc, self.doc, &field) {
            Ok(value) => Ok(Some(value)),
            Err(fault) => Err(want_of_memory(fault)),
        }
    }

    /// Returns the fields with their values, in ascending order of the canonical spellings of their
    /// names.
    ///
    /// # Errors
    ///
    /// Out of memory only.
    pub fn typed_fields(&self, alloc: Global) -> Result<Vec<TypedField<'a>>, AllocError>
        ensures values { IfOk result
            (λ fields. AreValuesOf (doc_judged self.now) (passing_judged self.now).seen
            (values_in fields.items)) }
    {
        match read_fields(alloc, self.doc, &self.raw) {
            Ok(fields) => Ok(fields),
            Err(fault) => Err(want_of_memory(fault)),
        }
    }

    /// Returns the paragraph with its values.
    ///
    /// # Errors
    ///
    /// Out of memory only.
    pub fn paragraph(&self, alloc: Global) -> Result<Paragraph<'a>, AllocError>
        ensures values { IfOk result
            (λ typed. AreValuesOf (doc_judged self.now) (passing_judged self.now).seen
            (values_of typed)) }
        ensures fields { IfOk result
            (λ typed. IsPermutation (passing_judged self.now).seen.fields (fields_shown typed)) }
    {
        match Paragraph::build(alloc, self.doc, &self.raw) {
            Ok(paragraph) => Ok(paragraph),
            Err(fault) => Err(want_of_memory(fault)),
        }
    }
}

/// Out of memory, which is the only fault that reading again what passes can have.
fn want_of_memory(fault: Fault) -> AllocError
    requires { fault ≡ Fault.Memory }
{
    match fault {
        Fault::Memory => AllocError,
        Fault::Refused(_) | Fault::Read | Fault::Write => unreachable!(),
    }
}
