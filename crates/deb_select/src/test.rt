//! What a condition asks of the value of a field.

ghost use Rattle.std.specs.Prelude.{◌≡◌, false, IfOk, IsTrue};
ghost use Rattle.std.specs.List.{list_any};
ghost use Rattle.std.specs.Str.{bytes_eq};
ghost use Rattle.deb_select.specs.Conditions.{contains_text};
ghost use Rattle.deb_base.specs.declared.kind.Kind.TheVariants.{Relation};
ghost use Rattle.deb_base.specs.declared.kind.Relationship.{Relationship};
ghost use Rattle.deb_field.specs.ValueMeanings.{value_meaning};
ghost use Rattle.deb_field.specs.Values.{SpellsKind, ValueMeaning};
ghost use Rattle.deb_select.specs.Kept.{compare_keys, is_number, passes_kept, test_shown};
ghost use Rattle.deb_select.specs.Kept.{value_kept, value_key, value_shown};

use crate::comparison::Comparison;
use crate::shown_value::{ShownValue, key_of, names_of, text_of, without_zeros};
use deb_field::Value;
use memchr::memmem;
use std::alloc::{AllocError, Global};
use std::cmp::Ordering;

/// What a condition asks of the value of a field.
#[derive(Drop)]
pub(crate) enum Test {
    /// That the field is there.
    Present,
    /// How the value compares with the one that has this key.
    Compares(Comparison, Vec<u8>),
    /// That its canonical text contains these bytes.
    Contains(Vec<u8>),
    /// That this is one of its names.
    Names(Vec<u8>),
}

impl Test {
    /// Returns whether a value passes.
    pub(crate) fn passes(&self, value: &ShownValue<'_>) -> bool
        ensures { result ≡ passes_kept (test_shown self.now) (value_shown value.now) }
    {
        match self {
            Test::Present => true,
            Test::Compares(comparison, key) => {
                comparison.holds(compare_keys(value.is_number, &value.key, key))
            }
            Test::Contains(part) => contains(&value.text, part),
            Test::Names(name) => is_among(name, &value.names),
        }
    }

    /// Returns whether a value passes, which no other test sees.
    ///
    /// # Errors
    ///
    /// Out of memory.
    pub(crate) fn passes_alone(&self, alloc: Global, value: &Value<'_>) -> Result<bool, AllocError>
        ensures { IfOk result (λ passed. passed
            ≡ passes_kept (test_shown self.now) (value_kept (value_meaning value.now))) }
    {
        match self {
            Test::Present => Ok(true),
            Test::Compares(comparison, key) => {
                let order = compare_value(alloc, value, key.as_slice())?;
                Ok(comparison.holds(order))
            }
            Test::Contains(part) => {
                let text = text_of(alloc, value)?;
                Ok(contains(text.as_slice(), part.as_slice()))
            }
            Test::Names(name) => {
                let names = names_of(alloc, value)?;
                Ok(is_among(name.as_slice(), names.as_slice()))
            }
        }
    }

    /// Whether it asks for a name whose bytes aren't in the body of a relation.
    pub(crate) fn lacks_name(&self, body: &[u8]) -> bool
        ensures { IsTrue result → (sort : Relationship) (value : ValueMeaning)
            → SpellsKind (Relation sort) body.now value
            → passes_kept (test_shown self.now) (value_kept value) ≡ false }
    {
        match self {
            Test::Names(name) => !contains(body, name.as_slice()),
            Test::Present | Test::Compares(..) | Test::Contains(_) => false,
        }
    }
}

/// How a value compares with the one that has this key. A name is its own key.
fn compare_value(alloc: Global, value: &Value<'_>, asked: &[u8]) -> Result<Ordering, AllocError>
    ensures { IfOk result (λ order. order ≡ compare_keys (is_number (value_meaning value.now))
        (value_key (value_meaning value.now)) asked.now) }
{
    match value {
        Value::Name(name) => Ok(compare_keys(false, name.bytes(), asked)),
        Value::Architecture(name) => Ok(compare_keys(false, name.bytes(), asked)),
        Value::Line(line) => Ok(compare_keys(false, line.bytes(), asked)),
        Value::Number(number) => Ok(compare_keys(true, without_zeros(number.digits()), asked)),
        other => {
            let key = key_of(alloc, other)?;
            Ok(compare_keys(false, key.as_slice(), asked))
        }
    }
}

/// How two keys compare: those of numbers by their lengths first.
fn compare_keys(are_numbers: bool, key: &[u8], asked: &[u8]) -> Ordering
    ensures { result ≡ compare_keys are_numbers key.now asked.now }
{
    if are_numbers {
        key.len().cmp(&asked.len()).then(key.cmp(asked))
    } else {
        key.cmp(asked)
    }
}

/// Whether a text contains these bytes.
fn contains(text: &[u8], part: &[u8]) -> bool
    ensures { result ≡ contains_text part.now text.now }
{
    memmem::find(text, part).is_some()
}

/// Whether a name is one of these.
fn is_among(name: &[u8], names: &[&[u8]]) -> bool
    ensures { result ≡ list_any (λ one. bytes_eq name.now one.now) names.now }
{
    names.iter().any(|one| name == *one)
}
