//! The conditions of a selection, and which paragraphs they select.

ghost use Rattle.std.specs.Prelude.{◌≡◌, ◌++◌, ◌∷◌, ℕ, List, [], Bool, IfOk, IsTrue, OnOk, cond};
ghost use Rattle.std.specs.Prelude.{false, map, set, true};
ghost use Rattle.std.specs.List.{list_all};
ghost use Rattle.std.specs.Option.{option_map};
ghost use Rattle.std.specs.Str.{bytes_eq};
ghost use Rattle.deb_base.specs.KnownFields.{row_of};
ghost use Rattle.deb_base.specs.Names.{folded};
ghost use Rattle.deb_base.specs.declared.doc.Doc.{Doc as DocKind};
ghost use Rattle.deb_field.specs.Values.{SpellsKind, SpellsValue, ValueMeaning};
ghost use Rattle.deb_field.specs.ValueMeanings.{value_meaning};
ghost use Rattle.deb_control.specs.CheckedStates.{doc_judged, passing_judged};
ghost use Rattle.deb_control.specs.Paragraphs.{AreValuesOf};
ghost use Rattle.deb_control.specs.ValueFiles.{ValueEntries};
ghost use Rattle.deb_select.specs.Conditions.{ConditionMeaning, SelectionMeaning, selects};
ghost use Rattle.deb_select.specs.Kept.{IsCondition, passes_kept, test_shown, value_kept};
ghost use Rattle.deb_select.specs.Kept.{value_shown};
ghost use Rattle.deb_select.specs.Selections.{may_ask_for, tests_lent, tests_under};

use crate::condition::Condition;
use crate::shown_value::ShownValue;
use crate::test::Test;
use deb_base::{FieldId, KNOWN_FIELDS};
use deb_control::CheckedView;
use deb_field::{Doc, Kind, Value};
use deb_syntax::RawField;
use indexmap::IndexMap;
use std::alloc::{AllocError, Global};

/// How many rows the table of fields has, with one for all other fields.
const ROWS: usize = KNOWN_FIELDS + 1;

/// The tests of each field that conditions ask for, by its name in lower case.
pub(crate) type Tests = IndexMap<Vec<u8>, Vec<Test>>;

/// Conditions on the paragraphs of a document: it selects those for which all hold, or if it is
/// negated, for which not all hold.
#[derive(Drop)]
pub struct Selection {
    pub(crate) alloc: Global,
    pub(crate) doc: Doc,
    pub(crate) negated: bool,
    pub(crate) tests: Tests,
    /// How many conditions there are.
    pub(crate) count: u64,
    /// For each row of the table of fields, whether a condition asks for the field, and in the last
    /// row whether one asks for any other field.
    pub(crate) rows: [bool; ROWS],
}

impl Selection {
    ghost use Rattle.deb_select.specs.Selections.{HasConditions};

    /// Returns a selection without conditions, for documents of this kind: it selects every
    /// paragraph, or if it is negated, none. Takes no memory.
    pub fn new(alloc: Global, doc: Doc, negated: bool) -> Selection
        ensures { HasConditions doc (record { conditions = []; negated = negated }) result }
    {
        Selection {
            alloc,
            doc,
            negated,
            tests: IndexMap::new(alloc),
            count: 0,
            rows: [false; ROWS],
        }
    }

    /// Returns the selection with one more condition, which was read for the same kind of document.
    ///
    /// # Errors
    ///
    /// Out of memory, or there are 2^64 conditions.
    pub fn with(self, condition: Condition) -> Result<Selection, AllocError>
        ensures { (doc : DocKind) (meaning : SelectionMeaning) (added : ConditionMeaning)
            → HasConditions doc meaning self → IsCondition doc added condition
            → IfOk result (HasConditions doc (record meaning {
              conditions
                  = meaning.conditions ++ added ∷ [];
            })) }
    {
        let mut selection = self;
        let Condition { name, test } = condition;
        let row = FieldId::of(&name).row();
        if selection.count == u64::MAX {
            return Err(AllocError);
        }
        put(selection.alloc, &mut selection.tests, name, test)?;
        selection.count += 1;
        mark(&mut selection.rows, row);
        Ok(selection)
    }

    /// Returns whether a paragraph is selected.
    ///
    /// # Errors
    ///
    /// Out of memory.
    pub(crate) fn selects(&self, paragraph: &CheckedView<'_>) -> Result<bool, AllocError>
        ensures { (meaning : SelectionMeaning) (values : ValueEntries ValueMeaning)
            → HasConditions (doc_judged paragraph.now) meaning self.now
            → AreValuesOf (doc_judged paragraph.now) (passing_judged paragraph.now).seen values
            → IfOk result (λ selected. selected ≡ selects meaning values) }
    {
        // How many conditions ask for a field that hasn't come.
        let mut left = self.count;
        for field in paragraph.fields() {
            if left == 0 {
                return Ok(!self.negated);
            }
            if let Some(tests) = self.tests_of(&field)? {
                if !all_pass(self.alloc, self.doc, tests, &field)? {
                    return Ok(self.negated);
                }
                left = left.saturating_sub(tests.len() as u64);
            }
        }
        Ok(self.negated != (left == 0))
    }

    /// Returns the tests of a field, if a condition asks for it.
    fn tests_of(&self, field: &RawField<'_>) -> Result<Option<&[Test]>, AllocError>
        ensures { (doc : DocKind) (meaning : SelectionMeaning) → HasConditions doc meaning self.now
            → IfOk result (λ tests. tests_lent tests
            ≡ tests_under self.now.tests (folded field.now.name.now)) }
    {
        if !may_ask_for(&self.rows, field.id.row()) {
            return Ok(None);
        }
        let name = field.name.to_ascii_lowercase(self.alloc)?;
        match self.tests.get(name.as_slice()) {
            Some(tests) => Ok(Some(tests.as_slice())),
            None => Ok(None),
        }
    }
}

/// Puts one more test of a field.
fn put(alloc: Global, tests: &mut Tests, name: Vec<u8>, test: Test) -> Result<(), AllocError>
    ensures { OnOk result ((other : List ℕ) → tests_under tests.new other
        ≡ cond (bytes_eq name.items other)
        (tests_under tests.old name.items ++ test_shown test ∷ []) (tests_under tests.old other)) }
{
    if let Some(found) = tests.get_mut(name.as_slice()) {
        found.push(test)?;
        return Ok(());
    }
    let mut found = Vec::new(alloc);
    found.push(test)?;
    tests.insert(name, found)?;
    Ok(())
}

/// Marks a row, if there is such a row.
fn mark(rows: &mut [bool], row: usize)
    ensures { rows.new ≡ set rows.old row true }
{
    if row < rows.len() {
        rows[row] = true;
    }
}

/// Whether a condition may ask for a field in this row.
fn may_ask_for(rows: &[bool], row: usize) -> bool
    ensures { result ≡ may_ask_for rows.now row }
{
    if row < rows.len() { rows[row] } else { true }
}

/// Whether the value of a field of a document passes all tests.
fn all_pass(
    alloc: Global,
    doc: Doc,
    tests: &[Test],
    field: &RawField<'_>,
) -> Result<bool, AllocError>
    ensures { (value : ValueMeaning)
        → SpellsValue doc field.now.name.now field.now.body.now value
        → IfOk result (λ passed. passed
        ≡ list_all (λ test. passes_kept test (value_kept value)) (map test_shown tests.now)) }
{
    let kind = field.id.kind(doc);
    if lacks_name(kind, tests, field.body) {
        return Ok(false);
    }
    // What passes is never refused, so that the only fault is out of memory.
    let Ok(value) = Value::of_kind(alloc, kind, field.body) else {
        return Err(AllocError);
    };
    value_passes(alloc, &value, tests)
}

/// Whether the first test asks for a name whose bytes aren't in a relation's body, so that the
/// relation need not be read.
fn lacks_name(kind: Kind, tests: &[Test], body: &[u8]) -> bool
    ensures { IsTrue result → (value : ValueMeaning) → SpellsKind kind body.now value
        → list_all (λ test. passes_kept (test_shown test) (value_kept value)) tests.now ≡ false }
{
    match kind {
        Kind::Relation(_) => match tests {
            [first, ..] => first.lacks_name(body),
            [] => false,
        },
        _ => false,
    }
}

/// Whether a value passes all tests.
fn value_passes(alloc: Global, value: &Value<'_>, tests: &[Test]) -> Result<bool, AllocError>
    ensures { IfOk result (λ passed. passed
        ≡ list_all (λ test. passes_kept (test_shown test) (value_kept (value_meaning value.now)))
        tests.now) }
{
    // Several tests share what they see of the value. One alone has no need of most of it.
    if let [test] = tests {
        return test.passes_alone(alloc, value);
    }
    let shown = ShownValue::of(alloc, value)?;
    Ok(shown_passes(&shown, tests))
}

/// Whether what tests see of a value passes all of them.
fn shown_passes(value: &ShownValue<'_>, tests: &[Test]) -> bool
    ensures { result
        ≡ list_all (λ test. passes_kept (test_shown test) (value_shown value.now)) tests.now }
{
    tests.iter().all(|test| test.passes(value))
}
