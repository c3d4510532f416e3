//! Lines of packages that Conflicts and Breaks exclude.

ghost use Rattle.std.specs.Prelude.{◌≡◌, ◌++◌, ◌∷◌, [], OnOk, cond, false};
ghost use Rattle.std.specs.List.{flat_map};
ghost use Rattle.std.specs.Option.{option_copied, option_map_or};
ghost use Rattle.deb_relation.specs.Environments.{environment_of};
ghost use Rattle.deb_relation.specs.Meaning.{Alternative as Meaning};
ghost use Rattle.deb_relation.specs.Relations.{relation_of};
ghost use Rattle.deb_relation.specs.Views.{alternative_of};
ghost use Rattle.deb_index.specs.CanonicalTexts.{OfGroup, OfRelation};
ghost use Rattle.deb_index.specs.Indexes.{packages_of};
ghost use Rattle.deb_index.specs.Kept.{listed_of};
ghost use Rattle.deb_index.specs.Meeting.{meets_by_name};
ghost use Rattle.deb_index.specs.Named.{numbers_of, package_at};
ghost use Rattle.deb_unmet.specs.Paragraphs.{heading_in};
ghost use Rattle.deb_health.specs.Excluding.{excludes, is_other, is_spoken_of};
ghost use Rattle.deb_health.specs.Lines.{alternative_lines, exclusion_front, exclusion_line, exclusion_word, group_lines, line_at};

use crate::lines::append_package;
use crate::together::effective;
use deb_index::{Index, Package, cut_group, next_alternative, only_alternative};
use deb_relation::{Alternative, Env, Relation};
use deb_unmet::{Applies, Paragraph, applies_by};
use std::alloc::{AllocError, Global};

/// What the lines of Conflicts or Breaks of a package are about.
#[derive(Clone, Copy)]
pub(crate) struct Negative<'a> {
    /// The packages of the set.
    pub(crate) index: &'a Index,
    /// The environment of the package, by which its alternatives apply.
    pub(crate) environment: &'a Env,
    /// The architecture of the set, which packages for `all` have.
    pub(crate) target: &'a [u8],
    pub(crate) paragraph: &'a Paragraph<'a>,
    pub(crate) field: &'a [u8],
}

/// Appends the lines of the relation with a canonical text.
pub(crate) fn append_exclusions(
    alloc: Global,
    out: &mut Vec<u8>,
    negative: &Negative<'_>,
    text: &[u8],
) -> Result<(), AllocError>
    ensures { OfRelation text.now (λ m. OnOk result (out.new.items ≡ out.old.items ++ flat_map
        (group_lines (environment_of negative.now.environment.now) negative.now.target.now
        (packages_of negative.now.index.now) negative.now.paragraph.now.texts.now.name.now
        (heading_in negative.now.paragraph.now) negative.now.field.now) m)) }
{
    let mut rest = text;
    while !rest.is_empty() {
        let (group, others) = cut_group(rest);
        append_group(alloc, out, negative, group)?;
        rest = others;
    }
    Ok(())
}

/// Appends the lines of the group with a canonical text.
fn append_group(
    alloc: Global,
    out: &mut Vec<u8>,
    negative: &Negative<'_>,
    group: &[u8],
) -> Result<(), AllocError>
    ensures { OfGroup group.now (λ g. OnOk result (out.new.items ≡ out.old.items ++ group_lines
        (environment_of negative.now.environment.now) negative.now.target.now
        (packages_of negative.now.index.now) negative.now.paragraph.now.texts.now.name.now
        (heading_in negative.now.paragraph.now) negative.now.field.now g)) }
{
    let mut rest = group;
    while !rest.is_empty() {
        let (relation, others) = next_alternative(alloc, rest)?;
        append_only(alloc, out, negative, group, &relation)?;
        rest = others;
    }
    Ok(())
}

/// Appends the lines of the only alternative of a relation.
fn append_only(
    alloc: Global,
    out: &mut Vec<u8>,
    negative: &Negative<'_>,
    group: &[u8],
    relation: &Relation<'_>,
) -> Result<(), AllocError>
    ensures { (a : Meaning) → relation_of relation.now ≡ (a ∷ []) ∷ [] → OnOk result (out.new.items
        ≡ out.old.items ++ alternative_lines (environment_of negative.now.environment.now)
        negative.now.target.now (packages_of negative.now.index.now)
        negative.now.paragraph.now.texts.now.name.now (heading_in negative.now.paragraph.now)
        negative.now.field.now group.now a) }
{
    let Some(alternative) = only_alternative(relation) else {
        return Ok(());
    };
    let applies = applies_by(alternative, negative.environment);
    if !applies.may() {
        return Ok(());
    }
    let numbers = negative.index.meeting_by_name(alloc, alternative)?;
    append_excluded(out, negative, group, applies, alternative, &numbers)
}

/// Appends a line for each of some packages, which meet an alternative by name, that it excludes.
fn append_excluded(
    out: &mut Vec<u8>,
    negative: &Negative<'_>,
    group: &[u8],
    applies: Applies,
    alternative: &Alternative<'_>,
    numbers: &[u64],
) -> Result<(), AllocError>
    ensures { numbers.now ≡ numbers_of (meets_by_name (alternative_of alternative.now))
        (packages_of negative.now.index.now) → OnOk result (out.new.items
        ≡ out.old.items ++ flat_map (line_at (exclusion_line (exclusion_front applies
        (heading_in negative.now.paragraph.now) negative.now.field.now group.now))
        (packages_of negative.now.index.now)) (numbers_of (excludes negative.now.target.now
        negative.now.paragraph.now.texts.now.name.now (alternative_of alternative.now))
        (packages_of negative.now.index.now))) }
{
    for &number in numbers {
        append_if_other(
            out,
            negative,
            group,
            applies,
            alternative.qualifier(),
            number,
        )?;
    }
    Ok(())
}

/// Appends the line of the package with this number, if Conflicts or Breaks with this qualifier may
/// speak of it.
fn append_if_other(
    out: &mut Vec<u8>,
    negative: &Negative<'_>,
    group: &[u8],
    applies: Applies,
    qualifier: Option<&[u8]>,
    number: u64,
) -> Result<(), AllocError>
    ensures { OnOk result (out.new.items ≡ out.old.items ++ cond (option_map_or
        (is_other negative.now.target.now negative.now.paragraph.now.texts.now.name.now
        (option_copied qualifier.entry)) (package_at number (packages_of negative.now.index.now))
        false) (line_at (exclusion_line (exclusion_front applies
        (heading_in negative.now.paragraph.now) negative.now.field.now group.now))
        (packages_of negative.now.index.now) number) []) }
{
    let Some(package) = negative.index.package(number) else {
        return Ok(());
    };
    if is_other(negative, qualifier, &package) {
        append_front(out, negative, group, applies)?;
        append_package(out, number, &package)?;
    }
    Ok(())
}

/// Returns whether Conflicts or Breaks of a package may speak of another one.
fn is_other(negative: &Negative<'_>, qualifier: Option<&[u8]>, other: &Package<'_>) -> bool
    ensures { result ≡ is_other negative.now.target.now
        negative.now.paragraph.now.texts.now.name.now (option_copied qualifier.entry)
        (listed_of other.now) }
{
    other.name() != negative.paragraph.texts.name && is_spoken_of(negative.target, qualifier, other)
}

/// Appends what a line of an alternative of a group begins with.
fn append_front(
    out: &mut Vec<u8>,
    negative: &Negative<'_>,
    group: &[u8],
    applies: Applies,
) -> Result<(), AllocError>
    ensures { OnOk result (out.new.items ≡ out.old.items ++ exclusion_front applies
        (heading_in negative.now.paragraph.now) negative.now.field.now group.now) }
{
    out.extend_from_slice(exclusion_word(applies))?;
    negative.paragraph.append_heading(out)?;
    out.extend_from_slice(negative.field)?;
    out.push(b' ')?;
    out.extend_from_slice(group)?;
    out.extend_from_slice(b" by")
}

/// Returns whether Conflicts or Breaks with this qualifier speaks of a package (deb-control(5)).
pub fn is_spoken_of(target: &[u8], qualifier: Option<&[u8]>, other: &Package<'_>) -> bool
    ensures { result
        ≡ is_spoken_of target.now (option_copied qualifier.entry) (listed_of other.now) }
{
    let Some(qualifier) = qualifier else {
        return true;
    };
    if qualifier == b"any".as_slice() {
        true
    } else if qualifier == b"native".as_slice() {
        effective(target, other.architecture()) == target
    } else {
        effective(target, other.architecture()) == qualifier
    }
}

fn exclusion_word(applies: Applies) -> &'static [u8]
    ensures { result.now ≡ exclusion_word applies }
{
    match applies {
        Applies::Surely => b"conflict",
        Applies::Maybe => b"unsure",
        Applies::Never => b"",
    }
}
