//! A view of the fields of a paragraph.

ghost use Rattle.std.specs.Prelude.{◌≡◌, ◌≤◌, ◌↔◌, [], length, slice_get, option_map, IsTrue, IfSome};
ghost use Rattle.std.specs.List.{list_all};
ghost use Rattle.deb_base.specs.Bodies.{IsBody};
ghost use Rattle.deb_base.specs.FieldNames.{is_name};
ghost use Rattle.deb_base.specs.Kinds.{known_row};
ghost use Rattle.deb_base.specs.KnownFields.{row_of};
ghost use Rattle.deb_syntax.specs.Fields.{is_field, are_fields, are_numbered};
ghost use Rattle.deb_syntax.specs.FieldSpans.{field_at, fields_at, lies_within};

use crate::field_span::FieldSpan;
use deb_base::{FieldId, same_name, trimmed};

/// A field of a paragraph, as slices of the paragraph's bytes (Debian Policy 5.1).
#[derive(Clone, Copy, Debug)]
pub struct RawField<'a> {
    /// The name as spelled in the file.
    pub name: &'a [u8],
    /// The number of the field's first line in its file, counted from 1.
    pub line: u64,
    /// The text after the colon, with the field's continuation lines, without the spaces and tabs
    /// at both ends. Line ends inside it, and the spaces and tabs next to them, stay.
    pub body: &'a [u8],
    /// Which field of the table it is: that of its name.
    pub id: FieldId,
    ghost named: { row_of id ≡ known_row name.now },
}

impl<'a> RawField<'a> {
    ghost use Rattle.deb_syntax.specs.Raw.{field_of};

    /// The field in a span of a paragraph's bytes.
    fn at(text: &'a [u8], span: FieldSpan) -> RawField<'a>
        requires within { IsTrue (lies_within text.now span) }
        requires field { IsTrue (is_field (field_at text.now span)) }
        ensures field { field_of result ≡ field_at text.now span }
        ensures name { IsTrue (is_name result.name.now) }
        ensures body { IsBody result.body.now }
    {
        RawField {
            name: &text[span.start as usize..span.colon as usize],
            line: u64::from(span.line),
            body: trimmed(&text[span.colon as usize + 1..span.end as usize]),
            id: span.id,
        }
    }
}

/// A view of a paragraph: its fields, each with a valid name and a body, and no two with the same
/// name; lines are counted from 1 (Debian Policy 5.1).
///
/// No function takes memory.
#[derive(Clone, Copy)]
pub struct Raw<'a> {
    text: &'a [u8],
    spans: &'a [FieldSpan],
    first_line: u64,
    ghost within: { IsTrue (list_all (lies_within text.now) spans.now) },
    ghost fields: { IsTrue (are_fields (fields_at text.now spans.now)) },
    ghost numbered: { IsTrue (are_numbered first_line (fields_at text.now spans.now)) },
}

impl<'a> Raw<'a> {
    ghost use Rattle.deb_syntax.specs.Raw.{field_of, fields_of, fields_left};
    ghost use Rattle.deb_syntax.specs.Raw.{first_line_of, field_named, has_field_in};

    /// The paragraph of these bytes, whose fields are in the spans.
    pub(crate) fn new(text: &'a [u8], spans: &'a [FieldSpan], first_line: u64) -> Raw<'a>
        requires within { IsTrue (list_all (lies_within text.now) spans.now) }
        requires fields { IsTrue (are_fields (fields_at text.now spans.now)) }
        requires numbered { IsTrue (are_numbered first_line (fields_at text.now spans.now)) }
        ensures fields { fields_of result ≡ fields_at text.now spans.now }
        ensures first_line { first_line_of result ≡ first_line }
    {
        Raw {
            text,
            spans,
            first_line,
        }
    }

    /// Returns the number of the paragraph's first line in its file, counted from 1.
    pub fn first_line(&self) -> u64
        ensures value { result ≡ first_line_of self.now }
        ensures line { 1 ≤ result }
    {
        self.first_line
    }

    /// Returns the number of fields.
    pub fn len(&self) -> usize
        ensures { result ≡ length (fields_of self.now) }
    {
        self.spans.len()
    }

    /// Returns whether there are no fields.
    pub fn is_empty(&self) -> bool
        ensures { IsTrue result ↔ (fields_of self.now ≡ []) }
    {
        self.spans.is_empty()
    }

    /// Returns the field at an index from 0, in file order, or `None` if there are no more.
    #[tactic(auto, using(crate::proofs::FieldTests::testing))]
    pub fn field(&self, index: usize) -> Option<RawField<'a>>
        ensures field { option_map field_of result ≡ slice_get (fields_of self.now) index }
        ensures name { IfSome result (λ field. IsTrue (is_name field.name.now)) }
        ensures body { IfSome result (λ field. IsBody field.body.now) }
    {
        let span = self.spans.get(index)?;
        Some(RawField::at(self.text, *span))
    }

    /// Returns the field with a name, or `None` if there is no such field. ASCII case in names
    /// doesn't matter.
    #[tactic(auto, using(crate::proofs::Lookups::looking))]
    pub fn get(&self, name: &[u8]) -> Option<RawField<'a>>
        ensures field { option_map field_of result ≡ field_named name.now (fields_of self.now) }
        ensures name { IfSome result (λ field. IsTrue (is_name field.name.now)) }
        ensures body { IfSome result (λ field. IsBody field.body.now) }
    {
        for span in self.spans {
            if same_name(&self.text[span.start as usize..span.colon as usize], name) {
                return Some(RawField::at(self.text, *span));
            }
        }
        None
    }

    /// Returns whether the paragraph has this field of the table.
    #[tactic(auto, using(crate::proofs::Lookups::having))]
    pub fn has(&self, id: FieldId) -> bool
        ensures { result ≡ has_field_in (row_of id) (fields_of self.now) }
    {
        for span in self.spans {
            if span.id.row() == id.row() {
                return true;
            }
        }
        false
    }

    /// Returns the fields in file order.
    pub fn fields(&self) -> Fields<'a>
        ensures { fields_left result ≡ fields_of self.now }
    {
        Fields {
            text: self.text,
            spans: self.spans,
        }
    }
}

/// The remaining fields of a paragraph, in file order.
#[derive(Clone, Copy)]
pub struct Fields<'a> {
    text: &'a [u8],
    spans: &'a [FieldSpan],
    ghost within: { IsTrue (list_all (lies_within text.now) spans.now) },
    ghost fields: { IsTrue (are_fields (fields_at text.now spans.now)) },
}

impl<'a> Iterator for Fields<'a> {
    ghost use Rattle.std.specs.Iterator.{item_count, YieldsFirstBy};
    ghost use Rattle.deb_syntax.specs.Raw.{field_of, fields_left};

    type Item = RawField<'a>;

    ghost next_gives = { YieldsFirstBy field_of fields_left };

    ghost remaining = { item_count fields_left };

    fn next(&mut self) -> Option<RawField<'a>> {
        let (first, others) = self.spans.split_first()?;
        self.spans = others;
        Some(RawField::at(self.text, *first))
    }
}
