//! Finds the packages that meet a group, by the names of its alternatives.

ghost use Rattle.std.specs.Prelude.{◌≡◌, ◌++◌, ◌&&◌, ◌||◌, [], ◌∷◌, ℕ, eqb, IfOk, OnOk};
ghost use Rattle.std.specs.List.{filter, list_any};
ghost use Rattle.std.specs.Option.{option_copied};
ghost use Rattle.deb_relation.specs.Environments.{environment_of};
ghost use Rattle.deb_relation.specs.Meaning.{Alternative as Meaning};
ghost use Rattle.deb_relation.specs.Relations.{relation_of};
ghost use Rattle.deb_relation.specs.Views.{alternative_of};
ghost use Rattle.deb_index.specs.CanonicalTexts.{OfGroup};
ghost use Rattle.deb_index.specs.Crowds.{is_of};
ghost use Rattle.deb_index.specs.Indexes.{number_in, packages_of};
ghost use Rattle.deb_index.specs.Maps.{is_last};
ghost use Rattle.deb_index.specs.Meeting.{meets};
ghost use Rattle.deb_index.specs.Named.{AppendsMeeting, AreNumbers, among, numbers_of, passes_at};
ghost use Rattle.deb_index.specs.Reports.{meets_group, some_applies};

use crate::index::Index;
use crate::pieces::{next_alternative, only_alternative};
use deb_relation::{Alternative, Env, Relation};
use std::alloc::{AllocError, Global};

/// Whether some alternative of the group with a canonical text applies, and the numbers of the
/// packages of an index that meet one that does, in ascending order and each once.
pub(crate) fn numbers_meeting(
    alloc: Global,
    index: &Index,
    group: &[u8],
    environment: &Env,
) -> Result<(bool, Vec<u64>), AllocError>
    ensures applies { OfGroup group.now (λ g. IfOk result
        (λ answer. answer.0 ≡ some_applies (environment_of environment.now) g)) }
    ensures numbers { OfGroup group.now (λ g. IfOk result
        (λ answer. answer.1.items
        ≡ numbers_of (meets_group (environment_of environment.now) g) (packages_of index.now))) }
{
    let mut applies = false;
    let mut numbers = Vec::new(alloc);
    let mut rest = group;
    while !rest.is_empty() {
        let (relation, others) = next_alternative(alloc, rest)?;
        let also = append_only(index, &relation, environment, &mut numbers)?;
        if also {
            applies = true;
        }
        rest = others;
    }
    numbers.sort_unstable();
    numbers.dedup();
    Ok((applies, numbers))
}

/// Appends the numbers of the packages that meet the only alternative of a relation, if it applies,
/// and returns whether it does.
fn append_only(
    index: &Index,
    relation: &Relation<'_>,
    environment: &Env,
    numbers: &mut Vec<u64>,
) -> Result<bool, AllocError>
    ensures { (a : Meaning) → relation_of relation.now ≡ (a ∷ []) ∷ [] → IfOk result
        (AppendsMeeting (environment_of environment.now) (packages_of index.now) a
        numbers.old.items numbers.new.items) }
{
    match only_alternative(relation) {
        Some(alternative) if alternative.applies(environment) => {
            append_meeting(index, alternative, environment, numbers)?;
            Ok(true)
        }
        _ => Ok(false),
    }
}

/// Appends the numbers of the packages that meet an alternative, in some order.
///
/// It asks only packages that have or provide its name.
fn append_meeting(
    index: &Index,
    alternative: &Alternative<'_>,
    environment: &Env,
    numbers: &mut Vec<u64>,
) -> Result<(), AllocError>
    ensures { OnOk result ((k : ℕ) → among k numbers.new.items
        ≡ (among k numbers.old.items
        || among k (numbers_of
        (meets (environment_of environment.now) (alternative_of alternative.now))
        (packages_of index.now)))) }
{
    if let Some(offers) = index.offers(alternative) {
        return append_offering(index, offers, alternative.qualifier(), environment, numbers);
    }
    let name = alternative.name();
    append_asked(
        index,
        index.packages(name),
        alternative,
        environment,
        numbers,
    )?;
    append_asked(
        index,
        index.providers(name),
        alternative,
        environment,
        numbers,
    )
}

/// Appends the numbers of those offers whose packages meet a qualifier, once where several of one
/// package follow one another.
fn append_offering(
    index: &Index,
    offers: &[u32],
    qualifier: Option<&[u8]>,
    environment: &Env,
    numbers: &mut Vec<u64>,
) -> Result<(), AllocError>
    ensures { OnOk result ((k : ℕ) → among k numbers.new.items ≡ (among k numbers.old.items
        || list_any
        (λ o. eqb k (number_in index.now o) && is_of (environment_of environment.now)
        (option_copied qualifier.entry) (packages_of index.now) (number_in index.now o))
        offers.now)) }
{
    for &offer in offers {
        let number = index.number(offer);
        if !is_last(numbers, number) && index.is_of(number, qualifier, environment) {
            numbers.push(number)?;
        }
    }
    Ok(())
}

/// Whether a number is the last of these.
fn is_last(numbers: &[u64], number: u64) -> bool
    ensures { result ≡ is_last number numbers.now }
{
    match numbers {
        [.., last] => *last == number,
        [] => false,
    }
}

/// Appends those of some numbers whose packages meet an alternative.
fn append_asked(
    index: &Index,
    candidates: &[u64],
    alternative: &Alternative<'_>,
    environment: &Env,
    numbers: &mut Vec<u64>,
) -> Result<(), AllocError>
    requires { AreNumbers (packages_of index.now) candidates.now }
    ensures { OnOk result (numbers.new.items
        ≡ numbers.old.items ++ filter
        (passes_at
        (meets (environment_of environment.now) (alternative_of alternative.now))
        (packages_of index.now))
        candidates.now) }
{
    for &number in candidates {
        if index.numbered(number).meets(alternative, environment) {
            numbers.push(number)?;
        }
    }
    Ok(())
}
