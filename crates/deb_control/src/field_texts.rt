//! Keeps the words and the relations of a paragraph while it is checked.

ghost use Rattle.std.specs.Prelude.{◌≡◌, ◌++◌, OnOk, set};
ghost use Rattle.deb_relation.specs.Texts.{relation_text};
ghost use Rattle.deb_field.specs.ValueMeanings.{value_meaning};
ghost use Rattle.deb_control.specs.FieldTexts.{KeepsTexts, part_of, relation_at, span_at, word_at};
ghost use Rattle.deb_control.specs.FieldWords.{groups_in, word_in};

use crate::visitor::FieldVisitor;
use deb_base::KNOWN_FIELDS;
use deb_field::{Canon, Value};
use deb_syntax::RawField;
use std::alloc::{AllocError, Global};

/// Where the word of a field is in a buffer, and after it the text of the relation.
#[derive(Clone, Copy)]
pub(crate) struct TextSpan {
    pub(crate) start: usize,
    pub(crate) word_end: usize,
    pub(crate) end: usize,
}

/// The span of a field that has neither.
const NO_SPAN: TextSpan = TextSpan {
    start: 0,
    word_end: 0,
    end: 0,
};

/// Keeps the words and the relations of a paragraph while it is checked: the canonical texts of
/// names, versions, architectures and relations, and the name of a source package. A field of
/// another kind takes no memory.
#[derive(Drop)]
pub struct FieldTexts {
    pub(crate) buffer: Vec<u8>,
    pub(crate) spans: [TextSpan; KNOWN_FIELDS],
}

impl FieldTexts {
    /// Nothing is kept. Takes no memory.
    pub fn new(alloc: Global) -> FieldTexts {
        FieldTexts {
            buffer: Vec::new(alloc),
            spans: [NO_SPAN; KNOWN_FIELDS],
        }
    }

    /// Returns the name, the version or the architecture in the field with this row of the table of
    /// fields (`FieldId::row`); empty if there is none.
    pub fn word(&self, row: usize) -> &[u8]
        ensures { result.now ≡ word_at self.now row }
    {
        let span = self.span_at(row);
        part(&self.buffer, span.start, span.word_end)
    }

    /// Returns the canonical text of the relation in the field with this row; empty if there is
    /// none.
    pub fn relation(&self, row: usize) -> &[u8]
        ensures { result.now ≡ relation_at self.now row }
    {
        let span = self.span_at(row);
        part(&self.buffer, span.word_end, span.end)
    }

    fn span_at(&self, row: usize) -> TextSpan
        ensures { result ≡ span_at self.now row }
    {
        if row < KNOWN_FIELDS {
            self.spans[row]
        } else {
            NO_SPAN
        }
    }
}

impl FieldVisitor for FieldTexts {
    ghost Visited = { KeepsTexts };

    fn start(&mut self) {
        self.buffer.clear();
        self.spans = [NO_SPAN; KNOWN_FIELDS];
    }

    // Of a value that has neither, only its empty span is put down.
    #[inline(always)]
    fn visit(&mut self, field: &RawField<'_>, value: &Value<'_>) -> Result<(), AllocError> {
        let start = self.buffer.len();
        append_word(value, &mut self.buffer)?;
        let word_end = self.buffer.len();
        append_relation(value, &mut self.buffer)?;
        let end = self.buffer.len();
        put(
            &mut self.spans,
            field.id.row(),
            TextSpan {
                start,
                word_end,
                end,
            },
        );
        Ok(())
    }
}

/// Appends the word of a value, if it has one.
#[inline(always)]
fn append_word(value: &Value<'_>, buffer: &mut Vec<u8>) -> Result<(), AllocError>
    ensures { OnOk result
        (buffer.new.items ≡ buffer.old.items ++ word_in (value_meaning value.now)) }
{
    match value {
        Value::Name(name) => buffer.extend_from_slice(name.bytes()),
        Value::Source(source) => buffer.extend_from_slice(source.name()),
        Value::Version(version) => version.canon_into(buffer),
        Value::Architecture(name) => buffer.extend_from_slice(name.bytes()),
        _ => Ok(()),
    }
}

/// Appends the text of a value that is a relation.
#[inline(always)]
fn append_relation(value: &Value<'_>, buffer: &mut Vec<u8>) -> Result<(), AllocError>
    ensures { OnOk result (buffer.new.items
        ≡ buffer.old.items ++ relation_text (groups_in (value_meaning value.now))) }
{
    match value {
        Value::Relation(relation) => relation.canon_into(buffer),
        _ => Ok(()),
    }
}

/// Puts a span into a row, if there is such a row.
fn put(spans: &mut [TextSpan], row: usize, span: TextSpan)
    ensures { spans.new ≡ set spans.old row span }
{
    if row < spans.len() {
        spans[row] = span;
    }
}

/// Returns the bytes from one offset up to another, as far as there are any.
fn part(buffer: &[u8], from: usize, to: usize) -> &[u8]
    ensures { result.now ≡ part_of buffer.now from to }
{
    let front = &buffer[..buffer.len().min(to)];
    &front[front.len().min(from)..]
}
