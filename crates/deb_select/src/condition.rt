//! Reads the text of a condition.

ghost use Rattle.std.specs.Prelude.{◌≡◌, ◌≤◌, ◌==◌, ◌&&◌, ◌||◌, Bool, List, ℕ, not, IfOk, IfErr};
ghost use Rattle.std.specs.Prelude.{Some, cond};
ghost use Rattle.std.specs.Option.{option_map};
ghost use Rattle.deb_base.specs.Kinds.{kind_of};
ghost use Rattle.std.specs.List.{list_any};
ghost use Rattle.deb_select.specs.Grammar.{CompareBy, Contain, NameOne, asks_order, has_names};
ghost use Rattle.deb_select.specs.Grammar.{has_order, is_folded_name, is_name_end, is_name_in};
ghost use Rattle.deb_select.specs.Grammar.{may_compare, operator_in, operator_refused};
ghost use Rattle.deb_select.specs.Kept.{parts_shown};
ghost use Rattle.deb_select.specs.Reads.{KindOfValues, ReadsTest, Tells, operator_shown};
ghost use Rattle.deb_select.specs.Reads.{test_refused};

use crate::comparison::Comparison;
use crate::parts::{Parts, is_field_name};
use crate::reason::{ConditionFault, Reason};
use crate::shown_value::key_of;
use crate::test::Test;
use deb_base::{is_arch_name, is_package_name};
use deb_field::{Doc, Kind, Value, ValueFault, kind_of};
use std::alloc::Global;

/// A condition on a field of a paragraph.
#[derive(Drop)]
pub struct Condition {
    /// The name of the field in lower case.
    pub(crate) name: Vec<u8>,
    pub(crate) test: Test,
}

/// An operator of conditions.
#[derive(Clone, Copy)]
pub(crate) enum Operator {
    /// One that compares values.
    Compare(Comparison),
    /// `~`
    Contain,
    /// `names`
    NameOne,
}

impl Condition {
    ghost use Rattle.deb_select.specs.Conditions.{ConditionMeaning};
    ghost use Rattle.deb_select.specs.Grammar.{SpellsCondition, condition_refusal};
    ghost use Rattle.deb_select.specs.Reads.{IsRead, ReadsCondition};

    /// Reads a condition on the paragraphs of a document of this kind: `FIELD`, `FIELD OPERATOR
    /// VALUE` with an operator of `=`, `!=`, `<<`, `<=`, `>=`, `>>` and `~`, or `FIELD names NAME`.
    ///
    /// `FIELD` alone asks that the field is there. The value of a comparison is one of the field's
    /// kind (Debian Policy 5.6 and 7): versions are compared in Debian's order, numbers by value,
    /// all other values only by `=` and `!=`. `~` asks whether the canonical text of the field's
    /// value contains the bytes. `names` asks whether a relation has an alternative of exactly that
    /// name, a list of architectures that word, or a name is that one. The names in a folded field
    /// are the texts between its white space and commas. Nothing holds of a field that is absent.
    /// Spaces and tabs may be at both ends and around an operator, and must be around `names`.
    ///
    /// # Errors
    ///
    /// The first reason why the text is no condition, and its offset; or out of memory.
    pub fn read(alloc: Global, doc: Doc, text: &[u8]) -> Result<Condition, ConditionFault>
        ensures ok { IfOk result (ReadsCondition doc text.now) }
        ensures accepted { (meaning : ConditionMeaning) → SpellsCondition doc text.now meaning
            → IsRead doc meaning result }
        ensures refused { IfErr result (Tells (condition_refusal doc text.now)) }
    {
        let parts = Parts::of(text);
        if parts.name.is_empty() {
            return Err(bad(Reason::NameExpected, parts.name_at));
        }
        if !is_field_name(parts.name) {
            return Err(bad(Reason::NameBad, parts.name_at));
        }
        let test = read_test(alloc, kind_of(doc, parts.name), &parts)?;
        match parts.name.to_ascii_lowercase(alloc) {
            Ok(name) => Ok(Condition { name, test }),
            Err(_) => Err(ConditionFault::Memory),
        }
    }
}

fn bad(reason: Reason, at: usize) -> ConditionFault
    ensures { result ≡ ConditionFault.Bad reason at }
{
    ConditionFault::Bad { reason, at }
}

/// Reads what is asked of a field of this kind.
fn read_test(alloc: Global, kind: Kind, parts: &Parts<'_>) -> Result<Test, ConditionFault>
    ensures ok { IfOk result (ReadsTest kind (parts_shown parts.now)) }
    ensures refused { IfErr result (Tells (test_refused kind (parts_shown parts.now))) }
{
    if parts.operator.is_empty() {
        return Ok(Test::Present);
    }
    match operator_of(parts.operator) {
        None => Err(bad(Reason::OperatorBad, parts.operator_at)),
        Some(Operator::Compare(comparison)) => read_comparison(alloc, kind, comparison, parts),
        Some(Operator::Contain) => read_part(alloc, parts),
        Some(Operator::NameOne) => read_name(alloc, kind, parts),
    }
}

/// Returns the operator with this text.
#[tactic(auto, unfolding(crate::specs::Grammar::operator_in))]
fn operator_of(text: &[u8]) -> Option<Operator>
    ensures { option_map operator_shown result ≡ operator_in text.now }
{
    match text {
        b"=" => Some(Operator::Compare(Comparison::Same)),
        b"!=" => Some(Operator::Compare(Comparison::Different)),
        b"<<" => Some(Operator::Compare(Comparison::Earlier)),
        b"<=" => Some(Operator::Compare(Comparison::EarlierEqual)),
        b">=" => Some(Operator::Compare(Comparison::LaterEqual)),
        b">>" => Some(Operator::Compare(Comparison::Later)),
        b"~" => Some(Operator::Contain),
        b"names" => Some(Operator::NameOne),
        _ => None,
    }
}

/// Reads the value that the field's is compared with.
fn read_comparison(
    alloc: Global,
    kind: Kind,
    comparison: Comparison,
    parts: &Parts<'_>,
) -> Result<Test, ConditionFault>
    ensures ok { operator_in parts.now.operator.now ≡ Some (CompareBy comparison)
        → IfOk result (ReadsTest kind (parts_shown parts.now)) }
    ensures refused { IfErr result (Tells (operator_refused kind (parts_shown parts.now)
        (Some (CompareBy comparison)))) }
{
    if !may_compare(comparison, kind) {
        return Err(bad(Reason::NoOrder, parts.operator_at));
    }
    if parts.value.is_empty() {
        return Err(bad(Reason::ValueExpected, parts.value_at));
    }
    match Value::of_kind(alloc, kind, parts.value) {
        Ok(value) => match key_of(alloc, &value) {
            Ok(key) => Ok(Test::Compares(comparison, key)),
            Err(_) => Err(ConditionFault::Memory),
        },
        Err(ValueFault::Refused(code)) => Err(bad(Reason::ValueBad(code), parts.value_at)),
        Err(ValueFault::Memory) => Err(ConditionFault::Memory),
    }
}

/// Reads the bytes that the field's text contains.
fn read_part(alloc: Global, parts: &Parts<'_>) -> Result<Test, ConditionFault>
    ensures ok { (kind : KindOfValues) → operator_in parts.now.operator.now ≡ Some Contain
        → IfOk result (ReadsTest kind (parts_shown parts.now)) }
    ensures refused { (kind : KindOfValues) → IfErr result
        (Tells (operator_refused kind (parts_shown parts.now) (Some Contain))) }
{
    if parts.value.is_empty() {
        return Err(bad(Reason::ValueExpected, parts.value_at));
    }
    match Vec::from_slice(alloc, parts.value) {
        Ok(part) => Ok(Test::Contains(part)),
        Err(_) => Err(ConditionFault::Memory),
    }
}

/// Reads the name that is among the field's.
fn read_name(alloc: Global, kind: Kind, parts: &Parts<'_>) -> Result<Test, ConditionFault>
    ensures ok { operator_in parts.now.operator.now ≡ Some NameOne
        → IfOk result (ReadsTest kind (parts_shown parts.now)) }
    ensures refused { IfErr result (Tells (operator_refused kind (parts_shown parts.now)
        (Some NameOne))) }
{
    if !has_names(kind) {
        return Err(bad(Reason::NoNames, parts.operator_at));
    }
    if parts.value.is_empty() {
        return Err(bad(Reason::ValueExpected, parts.value_at));
    }
    if !is_name_in(kind, parts.value) {
        return Err(bad(Reason::NoName, parts.value_at));
    }
    match Vec::from_slice(alloc, parts.value) {
        Ok(name) => Ok(Test::Names(name)),
        Err(_) => Err(ConditionFault::Memory),
    }
}

/// Whether a comparison may be asked of values of this kind.
fn may_compare(comparison: Comparison, kind: Kind) -> bool
    ensures { result ≡ may_compare comparison kind }
{
    !asks_order(comparison) || has_order(kind)
}

/// Whether a comparison asks for an order.
fn asks_order(comparison: Comparison) -> bool
    ensures { result ≡ asks_order comparison }
{
    !matches!(comparison, Comparison::Same | Comparison::Different)
}

/// Whether values of this kind have an order.
fn has_order(kind: Kind) -> bool
    ensures { result ≡ has_order kind }
{
    matches!(kind, Kind::Version | Kind::Number)
}

/// Whether values of this kind have names.
fn has_names(kind: Kind) -> bool
    ensures { result ≡ has_names kind }
{
    matches!(
        kind,
        Kind::Name
            | Kind::Source
            | Kind::Architecture
            | Kind::ArchitectureWords
            | Kind::Folded
            | Kind::Relation(_)
    )
}

/// Whether a text can be a name in values of this kind.
fn is_name_in(kind: Kind, text: &[u8]) -> bool
    ensures { result ≡ is_name_in kind text.now }
{
    match kind {
        Kind::Name | Kind::Source | Kind::Relation(_) => is_package_name(text),
        Kind::Architecture | Kind::ArchitectureWords => is_arch_name(text),
        Kind::Folded => is_folded_name(text),
        Kind::Version | Kind::Flag | Kind::MultiArch | Kind::Number | Kind::Line | Kind::Text =>
            false,
    }
}

/// Whether a text is one or more bytes, none of them white space or a comma.
fn is_folded_name(text: &[u8]) -> bool
    ensures { result ≡ is_folded_name text.now }
{
    !text.is_empty() && !has_name_end(text)
}

fn has_name_end(text: &[u8]) -> bool
    ensures { result ≡ list_any is_name_end text.now }
{
    text.iter().any(|byte| is_name_end(*byte))
}

/// Whether a byte is a space, a tab, a newline or a comma.
fn is_name_end(byte: u8) -> bool
    ensures { result ≡ is_name_end byte }
{
    matches!(byte, b' ' | b'\t' | b'\n' | b',')
}
