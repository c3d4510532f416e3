//! Writes the canonical text of a paragraph.

ghost use Rattle.std.specs.Prelude.{◌≡◌, ◌++◌, ◌<◌, ℕ, List, [], length, map, get_or, false, true, None, Ok, IfOk, IsSome, OnOk};
ghost use Rattle.std.specs.List.{AllByRecursion, flat_map};
ghost use Rattle.std.specs.List.Sorted.{IsPermutation, IsSortedBy};
ghost use Rattle.deb_syntax.specs.Raw.{field_of, fields_of};
ghost use Rattle.deb_base.specs.declared.kind.Kind.TheVariants as kinds;
ghost use Rattle.deb_field.specs.Values.{kind_refusal, value_text};
ghost use Rattle.deb_field.specs.ValueMeanings.{value_meaning};
ghost use Rattle.deb_control.specs.Canonical.{paragraph_text};
ghost use Rattle.deb_control.specs.CanonTexts.{AppendsField, AppendsValue, AreKeysOf, ArePlaced, HasTextOf, IsGood, IsKeyIn, IsOrderOf, body_text, comes_first, key_bytes, no_field, numbers_in, picked, text_under};
ghost use Rattle.deb_control.specs.Documents.{rules_of};
ghost use Rattle.deb_syntax.specs.Meaning.{byte_order};
ghost use Rattle.deb_control.specs.Refusals.{canonical_entries, value_refusal_of};

use crate::checker::ParagraphChecker;
use crate::field::append_body;
use crate::name::{append_name, compare, name_front};
use crate::paragraph_check::{check_paragraph, has_required, kind_of_field};
use crate::visitor::NoVisitor;
use deb_base::{Fault, KNOWN_FIELDS, Kind, PARAGRAPH_LIMIT, Relationship};
use deb_field::{
    ArchitectureName, Doc, Line, MultiArch, Number, PackageName, RelationField, SourceName, Text,
    Value, ValueFault, parse_version,
};
use deb_syntax::{Raw, RawField};
use std::alloc::{AllocError, Global};
use std::cmp::Ordering;

/// The canonical text of a paragraph, and the numbers of its fields, counted from 0, in ascending
/// order of their canonical names.
#[derive(Drop)]
pub(crate) struct CanonText {
    order: Vec<usize>,
    pub(crate) text: Vec<u8>,
}

impl CanonText {
    /// No text. Takes no memory.
    pub(crate) fn new(alloc: Global) -> CanonText {
        CanonText {
            order: Vec::new(alloc),
            text: Vec::new(alloc),
        }
    }

    /// Replaces the text.
    pub(crate) fn set(&mut self, text: &[u8]) -> Result<(), AllocError>
        ensures { OnOk result (self.new.text.items ≡ text.now) }
    {
        self.text.clear();
        self.text.extend_from_slice(text)
    }

    /// Writes the text of a paragraph, and returns whether none of its values is refused. If one
    /// is, the text isn't whole.
    fn write(&mut self, alloc: Global, doc: Doc, paragraph: &Raw<'_>) -> Result<bool, AllocError>
        ensures good { result ≡ Ok true
            → value_refusal_of (rules_of doc) (fields_of paragraph.now) ≡ None }
        ensures text { result ≡ Ok true → self.new.text.items
            ≡ paragraph_text (canonical_entries (rules_of doc) (fields_of paragraph.now)) }
        ensures refused { result ≡ Ok false
            → IsSome (value_refusal_of (rules_of doc) (fields_of paragraph.now)) }
    {
        sort_fields(alloc, paragraph, &mut self.order)?;
        self.text.clear();
        append_fields(alloc, doc, paragraph, &self.order, &mut self.text)
    }
}

impl ParagraphChecker for CanonText {
    ghost Keeps = { λ canon doc seen. HasTextOf canon doc seen };

    fn check(&mut self, alloc: Global, doc: Doc, paragraph: &Raw<'_>) -> Result<u64, Fault> {
        if self.write(alloc, doc, paragraph)?
            && has_required(doc, paragraph)
            && self.text.len() <= PARAGRAPH_LIMIT
        {
            return Ok(self.text.len() as u64);
        }
        // The first refusal, in the order of the file.
        check_paragraph(alloc, doc, paragraph, &mut NoVisitor)?;
        unreachable!()
    }
}

/// Replaces `order` by the numbers of a paragraph's fields in the order of their names.
pub(crate) fn sort_fields(
    alloc: Global,
    paragraph: &Raw<'_>,
    order: &mut Vec<usize>,
) -> Result<(), AllocError>
    ensures { OnOk result (IsOrderOf (fields_of paragraph.now) order.new.items) }
{
    order.clear();
    let mut rows = [0; KNOWN_FIELDS];
    if place_fields(paragraph, &mut rows) {
        append_numbers(&rows, order)?;
    } else {
        append_sorted(alloc, paragraph, order)?;
    }
    Ok(())
}

/// Puts the number of each field, counted from 1, into the row of its field in the table, and
/// returns whether the table has each. The canonical names of the rows ascend.
fn place_fields(paragraph: &Raw<'_>, rows: &mut [usize]) -> bool
    ensures { result ≡ true → ArePlaced (fields_of paragraph.now) 0 rows.old
        → ArePlaced (fields_of paragraph.now) (length (fields_of paragraph.now)) rows.new }
{
    for index in 0..paragraph.len() {
        if let Some(field) = paragraph.field(index) {
            let row = field.id.row();
            if row >= rows.len() {
                return false;
            }
            rows[row] = index + 1;
        }
    }
    true
}

/// Appends the numbers, counted from 0, of the fields in the rows.
fn append_numbers(rows: &[usize], order: &mut Vec<usize>) -> Result<(), AllocError>
    ensures { OnOk result (order.new.items ≡ order.old.items ++ numbers_in rows.now) }
{
    for number in rows {
        if *number > 0 {
            order.push(*number - 1)?;
        }
    }
    Ok(())
}

/// By what a field is sorted: the front of its name, and its number, counted from 0.
#[derive(Clone, Copy)]
struct SortKey {
    front: u64,
    number: usize,
}

/// Appends the numbers of a paragraph's fields to an empty list, in the order of their names.
fn append_sorted(
    alloc: Global,
    paragraph: &Raw<'_>,
    order: &mut Vec<usize>,
) -> Result<(), AllocError>
    ensures { OnOk result (order.old.items ≡ []
        → IsOrderOf (fields_of paragraph.now) order.new.items) }
{
    let mut keys = list_keys(alloc, paragraph)?;
    sort_keys(paragraph, &mut keys);
    append_numbers_of(&keys, order)?;
    Ok(())
}

/// The sort keys of a paragraph's fields, in the order of the paragraph.
fn list_keys(alloc: Global, paragraph: &Raw<'_>) -> Result<Vec<SortKey>, AllocError>
    ensures { IfOk result (λ keys. AreKeysOf (fields_of paragraph.now) keys.items) }
{
    let mut keys = Vec::with_capacity(alloc, paragraph.len())?;
    for number in 0..paragraph.len() {
        let front = name_front(name_at(paragraph, number));
        keys.push(SortKey { front, number })?;
    }
    Ok(keys)
}

/// Sorts the keys of fields by the canonical spellings of their names.
fn sort_keys(paragraph: &Raw<'_>, keys: &mut Vec<SortKey>)
    requires { AllByRecursion (IsKeyIn (fields_of paragraph.now)) keys.old.items }
    ensures permutation { IsPermutation keys.old.items keys.new.items }
    ensures sorted { IsSortedBy (comes_first (fields_of paragraph.now)) keys.new.items }
{
    keys.sort_unstable_by(|key, other| compare_keys(paragraph, key, other));
}

/// Compares the fronts of two names, and the names if these are equal.
fn compare_keys(paragraph: &Raw<'_>, key: &SortKey, other: &SortKey) -> Ordering
    ensures { result ≡ byte_order (key_bytes (fields_of paragraph.now) key.now)
        (key_bytes (fields_of paragraph.now) other.now) }
{
    match key.front.cmp(&other.front) {
        Ordering::Equal => compare(
            name_at(paragraph, key.number),
            name_at(paragraph, other.number),
        ),
        unequal => unequal,
    }
}

/// Appends the numbers in keys.
fn append_numbers_of(keys: &[SortKey], order: &mut Vec<usize>) -> Result<(), AllocError>
    ensures { OnOk result (order.new.items ≡ order.old.items ++ map (λ key. key.number) keys.now) }
{
    for key in keys {
        order.push(key.number)?;
    }
    Ok(())
}

/// The name of the field of a number, or nothing if there is no such field.
fn name_at<'a>(paragraph: &Raw<'a>, number: usize) -> &'a [u8]
    ensures { result.now ≡ (get_or (fields_of paragraph.now) number no_field).name }
{
    match paragraph.field(number) {
        Some(field) => field.name,
        None => b"",
    }
}

/// Appends the texts of fields, and returns whether none of their values is refused.
fn append_fields(
    alloc: Global,
    doc: Doc,
    paragraph: &Raw<'_>,
    order: &[usize],
    text: &mut Vec<u8>,
) -> Result<bool, AllocError>
    requires { AllByRecursion (λ k. k < length (fields_of paragraph.now)) order.now }
    ensures good { result ≡ Ok true → AllByRecursion (IsGood (rules_of doc))
        (picked (fields_of paragraph.now) order.now) }
    ensures text { result ≡ Ok true → text.new.items ≡ text.old.items
        ++ flat_map (text_under (rules_of doc)) (picked (fields_of paragraph.now) order.now) }
    ensures refused { result ≡ Ok false → AllByRecursion (IsGood (rules_of doc))
        (picked (fields_of paragraph.now) order.now) → ⊥ }
{
    for number in order {
        if let Some(field) = paragraph.field(*number) {
            if !append_field(alloc, kind_of_field(doc, &field), &field, text)? {
                return Ok(false);
            }
        }
    }
    Ok(true)
}

/// Appends the text of a field whose values are of a kind, and returns whether its value isn't
/// refused.
fn append_field(
    alloc: Global,
    kind: Kind,
    field: &RawField<'_>,
    text: &mut Vec<u8>,
) -> Result<bool, AllocError>
    ensures good { result ≡ Ok true
        → AppendsField kind (field_of field.now) text.old.items text.new.items }
    ensures refused { result ≡ Ok false → IsSome (kind_refusal kind field.now.body.now) }
{
    append_name(field, text)?;
    // Each of the kinds that most fields have is read without a `Result` of any value.
    match kind {
        Kind::Text => append_good(&Value::Text(Text::new(field.body)), text),
        Kind::Line => match Line::parse(field.body) {
            Ok(line) => append_good(&Value::Line(line), text),
            Err(_) => Ok(false),
        },
        Kind::Name => match PackageName::parse(field.body) {
            Ok(name) => append_good(&Value::Name(name), text),
            Err(_) => Ok(false),
        },
        Kind::Number => match Number::parse(field.body) {
            Ok(number) => append_good(&Value::Number(number), text),
            Err(_) => Ok(false),
        },
        Kind::Architecture => match ArchitectureName::parse(field.body) {
            Ok(name) => append_good(&Value::Architecture(name), text),
            Err(_) => Ok(false),
        },
        Kind::Version => append_as_version(field.body, text),
        Kind::Source => append_as_source(field.body, text),
        Kind::MultiArch => append_as_multi_arch(field.body, text),
        Kind::Relation(relationship) => append_as_relation(alloc, relationship, field.body, text),
        _ => append_as_kind(alloc, kind, field.body, text),
    }
}

/// Appends what follows the name of a field whose value is a version.
#[inline(never)]
fn append_as_version(body: &[u8], text: &mut Vec<u8>) -> Result<bool, AllocError>
    ensures good { result ≡ Ok true
        → AppendsValue kinds.Version body.now text.old.items text.new.items }
    ensures refused { result ≡ Ok false → IsSome (kind_refusal kinds.Version body.now) }
{
    match parse_version(body) {
        Ok(version) => append_good(&Value::Version(version), text),
        Err(_) => Ok(false),
    }
}

/// Appends what follows the name of a field whose value is the name of a source package.
#[inline(never)]
fn append_as_source(body: &[u8], text: &mut Vec<u8>) -> Result<bool, AllocError>
    ensures good { result ≡ Ok true
        → AppendsValue kinds.Source body.now text.old.items text.new.items }
    ensures refused { result ≡ Ok false → IsSome (kind_refusal kinds.Source body.now) }
{
    match SourceName::parse(body) {
        Ok(source) => append_good(&Value::Source(source), text),
        Err(_) => Ok(false),
    }
}

/// Appends what follows the name of a field whose value is a word of Multi-Arch.
#[inline(never)]
fn append_as_multi_arch(body: &[u8], text: &mut Vec<u8>) -> Result<bool, AllocError>
    ensures good { result ≡ Ok true
        → AppendsValue kinds.MultiArch body.now text.old.items text.new.items }
    ensures refused { result ≡ Ok false → IsSome (kind_refusal kinds.MultiArch body.now) }
{
    match MultiArch::parse(body) {
        Ok(word) => append_good(&Value::MultiArch(word), text),
        Err(_) => Ok(false),
    }
}

/// Appends what follows the name of a field whose value is a relation.
#[inline(never)]
fn append_as_relation(
    alloc: Global,
    relationship: Relationship,
    body: &[u8],
    text: &mut Vec<u8>,
) -> Result<bool, AllocError>
    ensures good { result ≡ Ok true → AppendsValue (kinds.Relation relationship) body.now
        text.old.items text.new.items }
    ensures refused { result ≡ Ok false
        → IsSome (kind_refusal (kinds.Relation relationship) body.now) }
{
    match RelationField::parse(alloc, relationship, body) {
        Ok(relation) => append_good(&Value::Relation(relation), text),
        Err(ValueFault::Memory) => Err(AllocError),
        Err(ValueFault::Refused(_)) => Ok(false),
    }
}

/// Appends what follows the name of a field with this value.
#[inline(always)]
fn append_good(value: &Value<'_>, text: &mut Vec<u8>) -> Result<bool, AllocError>
    ensures appended { OnOk result
        (text.new.items ≡ text.old.items ++ body_text (value_text (value_meaning value.now))) }
    ensures good { IfOk result (λ good. good ≡ true) }
{
    append_body(value, text)?;
    Ok(true)
}

/// Appends what follows the name of a field with a value of any kind. The room for the value is
/// cleared here alone, and not for each field that needs none.
#[inline(never)]
fn append_as_kind(
    alloc: Global,
    kind: Kind,
    body: &[u8],
    text: &mut Vec<u8>,
) -> Result<bool, AllocError>
    ensures good { result ≡ Ok true → AppendsValue kind body.now text.old.items text.new.items }
    ensures refused { result ≡ Ok false → IsSome (kind_refusal kind body.now) }
{
    match Value::of_kind(alloc, kind, body) {
        Ok(value) => append_good(&value, text),
        Err(ValueFault::Memory) => Err(AllocError),
        Err(ValueFault::Refused(_)) => Ok(false),
    }
}
