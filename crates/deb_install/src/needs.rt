//! The groups that a package needs, as rows of the numbers of the packages that meet them.

ghost use Rattle.std.specs.Prelude.{◌≡◌, ◌++◌, ℕ, List, [], ◌∷◌, length, IfOk, IfSome, IsTrue, OnOk};
ghost use Rattle.std.specs.List.{flat_map, list_any};
ghost use Rattle.deb_relation.specs.Applying.{Environment};
ghost use Rattle.deb_relation.specs.Environments.{environment_of};
ghost use Rattle.deb_relation.specs.Meaning.{Alternative as Meaning};
ghost use Rattle.deb_relation.specs.Relations.{relation_of};
ghost use Rattle.deb_relation.specs.Views.{alternative_of};
ghost use Rattle.deb_index.specs.CanonicalTexts.{OfGroup, OfRelation};
ghost use Rattle.deb_index.specs.Indexes.{packages_of};
ghost use Rattle.deb_unmet.specs.Readings.{applies_by, may, surely};
ghost use Rattle.deb_install.specs.Building.{AppendsRows};
ghost use Rattle.deb_install.specs.Candidates.{candidates_if, meets_by, rows_if_may};
ghost use Rattle.deb_install.specs.Known.{AppendsKnown, Knows};
ghost use Rattle.deb_install.specs.Rows.{candidates, group_rows, some_surely_applies};

use crate::exclusions::push_number;
use crate::groups::Groups;
use crate::known::Known;
use crate::readings::Readings;
use deb_index::{Index, cut_group, next_alternative, only_alternative};
use deb_relation::{Alternative, Env, Relation};
use deb_unmet::{Applies, applies_by};
use std::alloc::{AllocError, Global};

/// What the groups of a package are read by.
#[derive(Clone, Copy)]
pub(crate) struct Needing<'a> {
    /// The packages that may meet a group.
    pub(crate) index: &'a Index,
    pub(crate) readings: Readings,
    /// The environment of the package.
    pub(crate) environment: &'a Env,
    /// Whether groups are known in this environment.
    pub(crate) is_usual: bool,
}

/// Appends the numbers of the groups of the relation with a canonical text.
pub(crate) fn append_groups(
    alloc: Global,
    groups: &mut Groups,
    known: &mut Known,
    out: &mut Vec<u32>,
    needing: &Needing<'_>,
    text: &[u8],
) -> Result<(), AllocError>
    ensures { (environment : Environment)
        → Knows needing.now environment groups.old.rows known.old → OfRelation text.now
        (λ m. OnOk result (AppendsKnown needing.now environment groups.old.rows groups.new.rows
        known.new out.old.items out.new.items (flat_map (group_rows needing.now.readings
        (environment_of needing.now.environment.now) (packages_of needing.now.index.now)) m))) }
{
    let mut rest = text;
    while !rest.is_empty() {
        let (group, others) = cut_group(rest);
        append_known(alloc, groups, known, out, needing, group)?;
        rest = others;
    }
    Ok(())
}

/// Appends the numbers of the rows of the group with a canonical text, which may be known.
fn append_known(
    alloc: Global,
    groups: &mut Groups,
    known: &mut Known,
    out: &mut Vec<u32>,
    needing: &Needing<'_>,
    group: &[u8],
) -> Result<(), AllocError>
    ensures { (environment : Environment)
        → Knows needing.now environment groups.old.rows known.old → OfGroup group.now
        (λ g. OnOk result (AppendsKnown needing.now environment groups.old.rows groups.new.rows
        known.new out.old.items out.new.items (group_rows needing.now.readings
        (environment_of needing.now.environment.now) (packages_of needing.now.index.now) g))) }
{
    if !needing.is_usual {
        return append_group(alloc, groups, out, needing, group);
    }
    match known.number_of(group) {
        Some(number) => push(out, number),
        None => append_new(alloc, groups, known, out, needing, group),
    }
}

/// Appends a number.
fn push(out: &mut Vec<u32>, number: u32) -> Result<(), AllocError>
    ensures { OnOk result (out.new.items ≡ out.old.items ++ number ∷ []) }
{
    out.push(number)?;
    Ok(())
}

/// Appends the numbers of the rows of the group with a canonical text, and notes the number if it
/// is one alone.
fn append_new(
    alloc: Global,
    groups: &mut Groups,
    known: &mut Known,
    out: &mut Vec<u32>,
    needing: &Needing<'_>,
    group: &[u8],
) -> Result<(), AllocError>
    ensures { IsTrue needing.now.is_usual → (environment : Environment)
        → Knows needing.now environment groups.old.rows known.old → OfGroup group.now
        (λ g. OnOk result (AppendsKnown needing.now environment groups.old.rows groups.new.rows
        known.new out.old.items out.new.items (group_rows needing.now.readings
        (environment_of needing.now.environment.now) (packages_of needing.now.index.now) g))) }
{
    let count = out.as_slice().len();
    append_group(alloc, groups, out, needing, group)?;
    match only_after(out, count) {
        Some(number) => known.insert(alloc, group, number),
        None => Ok(()),
    }
}

/// Returns the only number after so many.
fn only_after(numbers: &[u32], count: usize) -> Option<u32>
    ensures { IfSome result (λ number. (first more : List ℕ) → numbers.now ≡ first ++ more
        → length first ≡ count → more ≡ number ∷ []) }
{
    match numbers.split_last() {
        Some((last, first)) if first.len() == count => Some(*last),
        _ => None,
    }
}

/// Appends the numbers of the rows of the group with a canonical text.
fn append_group(
    alloc: Global,
    groups: &mut Groups,
    out: &mut Vec<u32>,
    needing: &Needing<'_>,
    group: &[u8],
) -> Result<(), AllocError>
    ensures { OfGroup group.now (λ g. OnOk result (AppendsRows groups.old.rows groups.new.rows
        out.old.items out.new.items (group_rows needing.now.readings
        (environment_of needing.now.environment.now) (packages_of needing.now.index.now) g))) }
{
    if some_surely_applies(alloc, needing, group)? {
        let row = candidates_of(alloc, needing, group)?;
        return append_row(groups, out, &row);
    }
    match needing.readings {
        Readings::Every => append_each(alloc, groups, out, needing, group),
        Readings::One => Ok(()),
    }
}

/// Appends the number of a row.
pub(crate) fn append_row(
    groups: &mut Groups,
    out: &mut Vec<u32>,
    row: &[u32],
) -> Result<(), AllocError>
    ensures { OnOk result (AppendsRows groups.old.rows groups.new.rows out.old.items out.new.items
        (row.now ∷ [])) }
{
    let number = groups.number_of(row)?;
    out.push(number)?;
    Ok(())
}

/// Returns whether an alternative of the group with a canonical text surely applies.
pub(crate) fn some_surely_applies(
    alloc: Global,
    needing: &Needing<'_>,
    group: &[u8],
) -> Result<bool, AllocError>
    ensures { OfGroup group.now (λ g. IfOk result (λ found. found
        ≡ some_surely_applies (environment_of needing.now.environment.now) g)) }
{
    let mut found = false;
    let mut rest = group;
    while !rest.is_empty() {
        let (relation, others) = next_alternative(alloc, rest)?;
        let surely = surely_applies(needing, &relation);
        found = found || surely;
        rest = others;
    }
    Ok(found)
}

/// Returns whether the only alternative of a relation surely applies.
fn surely_applies(needing: &Needing<'_>, relation: &Relation<'_>) -> bool
    ensures { (a : Meaning) → relation_of relation.now ≡ (a ∷ []) ∷ [] → result
        ≡ surely (applies_by (environment_of needing.now.environment.now) a) }
{
    match only_alternative(relation) {
        Some(alternative) => applies_by(alternative, needing.environment).surely(),
        None => false,
    }
}

/// Returns the candidates of the alternatives that count, of a group of which one surely applies.
fn candidates_of(alloc: Global, needing: &Needing<'_>, group: &[u8]) -> Result<Vec<u32>, AllocError>
    ensures { OfGroup group.now (λ g. IfOk result (λ row. row.items
        ≡ flat_map (candidates_if needing.now.readings
        (environment_of needing.now.environment.now) (packages_of needing.now.index.now)) g)) }
{
    let mut row = Vec::new(alloc);
    let mut rest = group;
    while !rest.is_empty() {
        let (relation, others) = next_alternative(alloc, rest)?;
        append_if(alloc, &mut row, needing, &relation)?;
        rest = others;
    }
    Ok(row)
}

/// Appends the candidates of the only alternative of a relation, if it counts.
fn append_if(
    alloc: Global,
    row: &mut Vec<u32>,
    needing: &Needing<'_>,
    relation: &Relation<'_>,
) -> Result<(), AllocError>
    ensures { (a : Meaning) → relation_of relation.now ≡ (a ∷ []) ∷ [] → OnOk result (row.new.items
        ≡ row.old.items ++ candidates_if needing.now.readings
        (environment_of needing.now.environment.now) (packages_of needing.now.index.now) a) }
{
    let Some(alternative) = only_alternative(relation) else {
        return Ok(());
    };
    if needing
        .readings
        .meets(applies_by(alternative, needing.environment))
    {
        append_candidates(alloc, row, needing, alternative)?;
    }
    Ok(())
}

/// Appends the numbers of the packages that meet an alternative.
fn append_candidates(
    alloc: Global,
    row: &mut Vec<u32>,
    needing: &Needing<'_>,
    alternative: &Alternative<'_>,
) -> Result<(), AllocError>
    ensures { OnOk result (row.new.items ≡ row.old.items ++ candidates
        (environment_of needing.now.environment.now) (packages_of needing.now.index.now)
        (alternative_of alternative.now)) }
{
    let numbers = needing
        .index
        .meeting(alloc, alternative, needing.environment)?;
    append_numbers(row, &numbers)
}

/// Appends the numbers of packages.
pub(crate) fn append_numbers(row: &mut Vec<u32>, numbers: &[u64]) -> Result<(), AllocError>
    ensures { OnOk result (row.new.items ≡ row.old.items ++ numbers.now) }
{
    for &number in numbers {
        push_number(row, number)?;
    }
    Ok(())
}

/// Appends the number of a row of its own for each alternative that may apply.
fn append_each(
    alloc: Global,
    groups: &mut Groups,
    out: &mut Vec<u32>,
    needing: &Needing<'_>,
    group: &[u8],
) -> Result<(), AllocError>
    ensures { OfGroup group.now (λ g. OnOk result (AppendsRows groups.old.rows groups.new.rows
        out.old.items out.new.items (flat_map (rows_if_may
        (environment_of needing.now.environment.now) (packages_of needing.now.index.now)) g))) }
{
    let mut rest = group;
    while !rest.is_empty() {
        let (relation, others) = next_alternative(alloc, rest)?;
        append_row_if(alloc, groups, out, needing, &relation)?;
        rest = others;
    }
    Ok(())
}

/// Appends the number of the row of the only alternative of a relation, if that may apply.
fn append_row_if(
    alloc: Global,
    groups: &mut Groups,
    out: &mut Vec<u32>,
    needing: &Needing<'_>,
    relation: &Relation<'_>,
) -> Result<(), AllocError>
    ensures { (a : Meaning) → relation_of relation.now ≡ (a ∷ []) ∷ [] → OnOk result (AppendsRows
        groups.old.rows groups.new.rows out.old.items out.new.items (rows_if_may
        (environment_of needing.now.environment.now) (packages_of needing.now.index.now) a)) }
{
    let Some(alternative) = only_alternative(relation) else {
        return Ok(());
    };
    if !applies_by(alternative, needing.environment).may() {
        return Ok(());
    }
    let mut row = Vec::new(alloc);
    append_candidates(alloc, &mut row, needing, alternative)?;
    append_row(groups, out, &row)
}
