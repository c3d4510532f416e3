//! A view of a paragraph that passes, with its canonical text.

ghost use Rattle.std.specs.Prelude.{◌≡◌, List, IsTrue};
ghost use Rattle.deb_syntax.specs.Paragraphs.{seen_of};
ghost use Rattle.deb_control.specs.SpelledAlike.{HasPassingText};
ghost use Rattle.deb_control.specs.Checking.{is_passing};

use crate::checked_view::CheckedView;
use crate::paragraph::Paragraph;
use deb_field::{Doc, Value};
use deb_syntax::{Fields, Raw, RawField};
use std::alloc::{AllocError, Global};

/// A view of a paragraph that passes every rule of its kind of document: its fields as they are in
/// the file, and its canonical text. Values are read from it on demand, and are never refused.
#[derive(Clone, Copy)]
pub struct CheckedText<'a> {
    view: CheckedView<'a>,
    canonical: &'a [u8],
    ghost passes: { IsTrue (is_passing view.doc (seen_of view.raw) canonical.now) },
}

impl<'a> CheckedText<'a> {
    ghost use Rattle.std.specs.Prelude.{IfOk, IfSome, option_map};
    ghost use Rattle.std.specs.List.Sorted.{IsPermutation};
    ghost use Rattle.deb_syntax.specs.Raw.{field_of, field_named, fields_left};
    ghost use Rattle.deb_field.specs.ValueMeanings.{value_meaning};
    ghost use Rattle.deb_control.specs.CheckedStates.{doc_of, passing_of};
    ghost use Rattle.deb_control.specs.Paragraphs.{AreValuesOf};
    ghost use Rattle.deb_control.specs.ParagraphValues.{fields_shown, values_of};
    ghost use Rattle.deb_control.specs.PassingValues.{HasValue};

    pub(crate) fn new(view: CheckedView<'a>, canonical: &'a [u8]) -> CheckedText<'a>
        requires { IsTrue (is_passing view.doc (seen_of view.raw) canonical.now) }
        ensures doc { doc_of result ≡ view.entry.doc }
        ensures passing { passing_of result
            ≡ record { seen = seen_of view.entry.raw; text = canonical.now } }
    {
        CheckedText { view, canonical }
    }

    /// Returns this paragraph's canonical text if that is also the text of another one, since both
    /// are spelled alike, and documents of one kind.
    pub(crate) fn text_beside(&self, doc: Doc, paragraph: &Raw<'_>) -> Option<&'a [u8]>
        ensures { IfSome result
            (λ text. HasPassingText doc (seen_of paragraph.now) text.now) }
    {
        if self.view.is_like(doc, paragraph) {
            Some(self.canonical)
        } else {
            None
        }
    }

    /// Returns the number of the paragraph's first line in its file, counted from 1.
    pub fn first_line(&self) -> u64
        ensures { result ≡ (passing_of self.now).seen.first }
    {
        self.view.first_line()
    }

    /// Returns the field with a name as it is in the file, without ASCII case, or `None` if there
    /// is no such field.
    pub fn get(&self, name: &[u8]) -> Option<RawField<'a>>
        ensures { option_map field_of result
            ≡ field_named name.now (passing_of self.now).seen.fields }
    {
        self.view.get(name)
    }

    /// Returns the fields in file order.
    pub fn fields(&self) -> Fields<'a>
        ensures { fields_left result ≡ (passing_of self.now).seen.fields }
    {
        self.view.fields()
    }

    /// Returns the paragraph's canonical text: each field on lines of its own, in ascending order
    /// of the canonical spellings of their names.
    pub fn canonical_text(&self) -> &'a [u8]
        ensures { result.now ≡ (passing_of self.now).text }
    {
        self.canonical
    }

    /// Returns the value of the field with a name, without ASCII case, or `None` if there is no
    /// such field.
    ///
    /// # Errors
    ///
    /// Out of memory only.
    pub fn value(&self, alloc: Global, name: &[u8]) -> Result<Option<Value<'a>>, AllocError>
        ensures { IfOk result
            (λ value. HasValue (doc_of self.now) (passing_of self.now).seen name.now
            (option_map value_meaning value)) }
    {
        self.view.value(alloc, name)
    }

    /// Returns the paragraph with its values.
    ///
    /// # Errors
    ///
    /// Out of memory only.
    pub fn paragraph(&self, alloc: Global) -> Result<Paragraph<'a>, AllocError>
        ensures values { IfOk result
            (λ typed. AreValuesOf (doc_of self.now) (passing_of self.now).seen (values_of typed)) }
        ensures fields { IfOk result
            (λ typed. IsPermutation (passing_of self.now).seen.fields (fields_shown typed)) }
    {
        self.view.paragraph(alloc)
    }
}
