//! What tests see of the value of a field.

ghost use Rattle.std.specs.Prelude.{◌≡◌, ◌≤◌, ◌==◌, ◌++◌, ◌∷◌, [], drop, length, map, IfOk, OnOk};
ghost use Rattle.std.specs.List.{flat_map, prefix_len};
ghost use Rattle.deb_field.specs.RelationSpelled.{relation_meaning};
ghost use Rattle.deb_field.specs.Shown.{folded_words};
ghost use Rattle.deb_field.specs.ValueMeanings.{value_meaning};
ghost use Rattle.deb_relation.specs.Groups.{group_of};
ghost use Rattle.deb_relation.specs.Meaning.{Relation as RelationMeaning};
ghost use Rattle.deb_select.specs.Conditions.{comma_pieces, names_asked, names_in};
ghost use Rattle.deb_field.specs.Values.{value_text};
ghost use Rattle.deb_select.specs.Grammar.{after_run};
ghost use Rattle.deb_select.specs.Kept.{is_number, value_key, value_kept, value_shown};

use deb_field::{Canon, Folded, RelationField, Value};
use deb_relation::Group;
use std::alloc::{AllocError, Global};

/// What tests see of the value of a field.
#[derive(Drop)]
pub(crate) struct ShownValue<'a> {
    /// Whether it is a number.
    pub(crate) is_number: bool,
    /// Bytes by which it is compared: those of a number by their count first.
    pub(crate) key: Vec<u8>,
    /// Its canonical text.
    pub(crate) text: Vec<u8>,
    /// The names in it.
    pub(crate) names: Vec<&'a [u8]>,
}

impl<'a> ShownValue<'a> {
    /// Returns what tests see of a value.
    ///
    /// # Errors
    ///
    /// Out of memory.
    pub(crate) fn of(alloc: Global, value: &Value<'a>) -> Result<ShownValue<'a>, AllocError>
        ensures { IfOk result (λ shown. value_shown shown ≡ value_kept (value_meaning value.now)) }
    {
        let key = key_of(alloc, value)?;
        let text = text_of(alloc, value)?;
        let names = names_of(alloc, value)?;
        Ok(ShownValue {
            is_number: is_number(value),
            key,
            text,
            names,
        })
    }
}

fn is_number(value: &Value<'_>) -> bool
    ensures { result ≡ is_number (value_meaning value.now) }
{
    matches!(value, Value::Number(_))
}

/// Returns the bytes by which a value is compared.
pub(crate) fn key_of(alloc: Global, value: &Value<'_>) -> Result<Vec<u8>, AllocError>
    ensures { IfOk result (λ key. key.items ≡ value_key (value_meaning value.now)) }
{
    let mut key = Vec::new(alloc);
    match value {
        Value::Version(version) => version.key_into(&mut key)?,
        Value::Number(number) => key.extend_from_slice(without_zeros(number.digits()))?,
        other => other.canon_into(&mut key)?,
    }
    Ok(key)
}

/// A number's digits without leading zeros.
pub(crate) fn without_zeros(digits: &[u8]) -> &[u8]
    ensures { result.now ≡ after_run (λ b. b == 48) digits.now }
{
    &digits[leading_zeros(digits)..]
}

/// With how many zeros digits begin.
fn leading_zeros(digits: &[u8]) -> usize
    ensures value { result ≡ prefix_len (λ b. b == 48) digits.now }
    ensures bound { result ≤ length digits.now }
{
    digits.iter().take_while(|digit| **digit == b'0').count()
}

/// Returns the canonical text of a value.
pub(crate) fn text_of(alloc: Global, value: &Value<'_>) -> Result<Vec<u8>, AllocError>
    ensures { IfOk result (λ text. text.items ≡ value_text (value_meaning value.now)) }
{
    let mut text = Vec::new(alloc);
    value.canon_into(&mut text)?;
    Ok(text)
}

/// Returns the names in a value.
pub(crate) fn names_of<'a>(alloc: Global, value: &Value<'a>) -> Result<Vec<&'a [u8]>, AllocError>
    ensures { IfOk result (λ names. map (λ name. name.now) names.items
        ≡ names_in (value_meaning value.now)) }
{
    match value {
        Value::Name(name) => one(alloc, name.bytes()),
        Value::Source(source) => one(alloc, source.name()),
        Value::Architecture(name) => one(alloc, name.bytes()),
        Value::ArchitectureWords(names) => names.names().collect(alloc),
        Value::Folded(folded) => names_in_words(alloc, folded),
        Value::Relation(field) => names_in_relation(alloc, field),
        Value::Version(_)
        | Value::Flag(_)
        | Value::MultiArch(_)
        | Value::Number(_)
        | Value::Line(_)
        | Value::Text(_) => Ok(Vec::new(alloc)),
    }
}

fn one<'a>(alloc: Global, name: &'a [u8]) -> Result<Vec<&'a [u8]>, AllocError>
    ensures { IfOk result (λ names. map (λ name. name.now) names.items ≡ name.now ∷ []) }
{
    let mut names = Vec::new(alloc);
    names.push(name)?;
    Ok(names)
}

/// Returns the texts between the commas of a folded field's words.
fn names_in_words<'a>(alloc: Global, folded: &Folded<'a>) -> Result<Vec<&'a [u8]>, AllocError>
    ensures { IfOk result (λ names. map (λ name. name.now) names.items
        ≡ flat_map comma_pieces (folded_words folded.now)) }
{
    let mut names = Vec::new(alloc);
    for word in folded.words() {
        push_pieces(&mut names, word)?;
    }
    Ok(names)
}

/// Appends the texts between the commas of a word.
fn push_pieces<'a>(names: &mut Vec<&'a [u8]>, word: &'a [u8]) -> Result<(), AllocError>
    ensures { OnOk result (map (λ name. name.now) names.new.items
        ≡ map (λ name. name.now) names.old.items ++ comma_pieces word.now) }
{
    for piece in word.split(|byte| *byte == b',') {
        names.push(piece)?;
    }
    Ok(())
}

/// Returns the names of a relation's alternatives.
fn names_in_relation<'a>(
    alloc: Global,
    field: &RelationField<'a>,
) -> Result<Vec<&'a [u8]>, AllocError>
    ensures { IfOk result (λ names. map (λ name. name.now) names.items
        ≡ names_asked (relation_meaning field.now)) }
{
    let Ok(relation) = field.relation(alloc) else {
        return Err(AllocError);
    };
    let mut names = Vec::new(alloc);
    for group in relation.groups() {
        push_names(&mut names, group)?;
    }
    Ok(names)
}

/// Appends the names of a group's alternatives.
fn push_names<'a>(names: &mut Vec<&'a [u8]>, group: &Group<'a>) -> Result<(), AllocError>
    ensures { OnOk result (map (λ name. name.now) names.new.items
        ≡ map (λ name. name.now) names.old.items
        ++ map (λ alternative. alternative.name) (group_of group.now)) }
{
    for alternative in group.alternatives() {
        names.push(alternative.name())?;
    }
    Ok(())
}
