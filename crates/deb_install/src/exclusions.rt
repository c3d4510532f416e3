//! The packages that a package excludes, by their numbers.

ghost use Rattle.std.specs.Prelude.{◌≡◌, ◌++◌, ◌&&◌, [], ◌∷◌, OnOk, cond, false, ltb, not, option_copied};
ghost use Rattle.std.specs.List.{flat_map};
ghost use Rattle.std.specs.Option.{option_map_or};
ghost use Rattle.deb_relation.specs.Environments.{environment_of};
ghost use Rattle.deb_relation.specs.Meaning.{Alternative as Meaning};
ghost use Rattle.deb_relation.specs.Relations.{relation_of};
ghost use Rattle.deb_relation.specs.Views.{alternative_of};
ghost use Rattle.deb_index.specs.CanonicalTexts.{OfGroup, OfRelation};
ghost use Rattle.deb_index.specs.Indexes.{packages_of};
ghost use Rattle.deb_index.specs.Kept.{listed_of};
ghost use Rattle.deb_index.specs.Meeting.{meets_by_name};
ghost use Rattle.deb_index.specs.Named.{numbers_of, package_at};
ghost use Rattle.deb_health.specs.Excluding.{excludes, is_other};
ghost use Rattle.deb_health.specs.Together.{are_together};
ghost use Rattle.deb_install.specs.Rows.{excluded_by, later_duplicates};

use crate::readings::Readings;
use deb_health::{are_together, is_spoken_of};
use deb_index::{Index, Package, cut_group, next_alternative, only_alternative};
use deb_relation::{Alternative, Env, Relation};
use deb_unmet::applies_by;
use std::alloc::{AllocError, Global};

/// What Conflicts or Breaks of a package are read by.
#[derive(Clone, Copy)]
pub(crate) struct Excluding<'a> {
    /// The packages that may be excluded.
    pub(crate) index: &'a Index,
    pub(crate) readings: Readings,
    /// The environment of the package, by which its alternatives apply.
    pub(crate) environment: &'a Env,
    /// The architecture of the set, which packages for `all` have.
    pub(crate) target: &'a [u8],
    /// The name of the package.
    pub(crate) name: &'a [u8],
}

/// Appends the numbers of the packages that the relation with a canonical text excludes.
pub(crate) fn append_exclusions(
    alloc: Global,
    out: &mut Vec<u32>,
    excluding: &Excluding<'_>,
    text: &[u8],
) -> Result<(), AllocError>
    ensures { OfRelation text.now (λ m. OnOk result (out.new.items ≡ out.old.items
        ++ flat_map (flat_map (excluded_by excluding.now.readings
        (environment_of excluding.now.environment.now) excluding.now.target.now
        excluding.now.name.now (packages_of excluding.now.index.now))) m)) }
{
    let mut rest = text;
    while !rest.is_empty() {
        let (group, others) = cut_group(rest);
        append_group(alloc, out, excluding, group)?;
        rest = others;
    }
    Ok(())
}

/// Appends those that the group with a canonical text excludes.
fn append_group(
    alloc: Global,
    out: &mut Vec<u32>,
    excluding: &Excluding<'_>,
    group: &[u8],
) -> Result<(), AllocError>
    ensures { OfGroup group.now (λ g. OnOk result (out.new.items ≡ out.old.items
        ++ flat_map (excluded_by excluding.now.readings
        (environment_of excluding.now.environment.now) excluding.now.target.now
        excluding.now.name.now (packages_of excluding.now.index.now)) g)) }
{
    let mut rest = group;
    while !rest.is_empty() {
        let (relation, others) = next_alternative(alloc, rest)?;
        append_only(alloc, out, excluding, &relation)?;
        rest = others;
    }
    Ok(())
}

/// Appends those that the only alternative of a relation excludes.
fn append_only(
    alloc: Global,
    out: &mut Vec<u32>,
    excluding: &Excluding<'_>,
    relation: &Relation<'_>,
) -> Result<(), AllocError>
    ensures { (a : Meaning) → relation_of relation.now ≡ (a ∷ []) ∷ [] → OnOk result (out.new.items
        ≡ out.old.items ++ excluded_by excluding.now.readings
        (environment_of excluding.now.environment.now) excluding.now.target.now
        excluding.now.name.now (packages_of excluding.now.index.now) a) }
{
    let Some(alternative) = only_alternative(relation) else {
        return Ok(());
    };
    if !excluding
        .readings
        .counts(applies_by(alternative, excluding.environment))
    {
        return Ok(());
    }
    let numbers = excluding.index.meeting_by_name(alloc, alternative)?;
    append_excluded(out, excluding, alternative, &numbers)
}

/// Appends those of some packages, which meet an alternative by name, that it excludes.
fn append_excluded(
    out: &mut Vec<u32>,
    excluding: &Excluding<'_>,
    alternative: &Alternative<'_>,
    numbers: &[u64],
) -> Result<(), AllocError>
    ensures { numbers.now ≡ numbers_of (meets_by_name (alternative_of alternative.now))
        (packages_of excluding.now.index.now) → OnOk result (out.new.items ≡ out.old.items
        ++ numbers_of (excludes excluding.now.target.now excluding.now.name.now
        (alternative_of alternative.now)) (packages_of excluding.now.index.now)) }
{
    for &number in numbers {
        append_if_other(out, excluding, alternative.qualifier(), number)?;
    }
    Ok(())
}

/// Appends this number, if Conflicts or Breaks with this qualifier may speak of its package.
fn append_if_other(
    out: &mut Vec<u32>,
    excluding: &Excluding<'_>,
    qualifier: Option<&[u8]>,
    number: u64,
) -> Result<(), AllocError>
    ensures { OnOk result (out.new.items ≡ out.old.items ++ cond (option_map_or
        (is_other excluding.now.target.now excluding.now.name.now (option_copied qualifier.entry))
        (package_at number (packages_of excluding.now.index.now)) false) (number ∷ []) []) }
{
    let Some(package) = excluding.index.package(number) else {
        return Ok(());
    };
    if is_other(excluding, qualifier, &package) {
        push_number(out, number)?;
    }
    Ok(())
}

/// Returns whether Conflicts or Breaks of a package may speak of another one.
fn is_other(excluding: &Excluding<'_>, qualifier: Option<&[u8]>, other: &Package<'_>) -> bool
    ensures { result ≡ is_other excluding.now.target.now excluding.now.name.now
        (option_copied qualifier.entry) (listed_of other.now) }
{
    other.name() != excluding.name && is_spoken_of(excluding.target, qualifier, other)
}

/// A package whose later duplicates are looked for.
#[derive(Clone, Copy)]
pub(crate) struct Original<'a> {
    pub(crate) index: &'a Index,
    /// The architecture of the set, which packages for `all` have.
    pub(crate) target: &'a [u8],
    pub(crate) number: u64,
}

/// Appends the numbers of later packages of the same name that can't be installed together with
/// this one.
pub(crate) fn append_duplicates(
    out: &mut Vec<u32>,
    original: &Original<'_>,
) -> Result<(), AllocError>
    ensures { OnOk result (out.new.items ≡ out.old.items ++ later_duplicates
        original.now.target.now (packages_of original.now.index.now) original.now.number) }
{
    let Some(package) = original.index.package(original.number) else {
        return Ok(());
    };
    for &number in original.index.packages(package.name()) {
        append_if_duplicate(out, original, &package, number)?;
    }
    Ok(())
}

/// Appends this number, if its package, which has the same name, comes later and can't be installed
/// together with the original.
fn append_if_duplicate(
    out: &mut Vec<u32>,
    original: &Original<'_>,
    package: &Package<'_>,
    number: u64,
) -> Result<(), AllocError>
    ensures { OnOk result (out.new.items ≡ out.old.items ++ cond (option_map_or
        (λ q. not (are_together original.now.target.now (listed_of «package».now) q))
        (package_at number (packages_of original.now.index.now)) false
        && ltb original.now.number number) (number ∷ []) []) }
{
    let Some(other) = original.index.package(number) else {
        return Ok(());
    };
    if !are_together(original.target, package, &other) && original.number < number {
        push_number(out, number)?;
    }
    Ok(())
}

/// Appends the number of a package.
///
/// # Errors
///
/// Out of memory, also for a number that no package of a file has.
pub(crate) fn push_number(out: &mut Vec<u32>, number: u64) -> Result<(), AllocError>
    ensures { OnOk result (out.new.items ≡ out.old.items ++ number ∷ []) }
{
    match u32::try_from(number) {
        Ok(number) => {
            out.push(number)?;
            Ok(())
        }
        Err(_) => Err(AllocError),
    }
}
