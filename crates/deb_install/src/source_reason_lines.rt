//! The lines of facts that rule a source package out.

ghost use Rattle.std.specs.Prelude.{◌≡◌, ◌++◌, ◌-◌, [], IfOk, OnOk, codes, get_or, length, map};
ghost use Rattle.deb_control.specs.Documents.{Meaning};
ghost use Rattle.deb_control.specs.Pairs.{Pairwise};
ghost use Rattle.deb_control.specs.ValueFiles.{ValueEntries};
ghost use Rattle.deb_field.specs.Values.{ValueMeaning};
ghost use Rattle.deb_health.specs.Lines.{line_at};
ghost use Rattle.deb_index.specs.Indexes.{packages_of};
ghost use Rattle.deb_index.specs.Kept.{listed_of};
ghost use Rattle.deb_index.specs.ReportText.{canonical_version, package_line};
ghost use Rattle.deb_relation.specs.Environments.{environment_of};
ghost use Rattle.deb_relation.specs.Texts.{group_text};
ghost use Rattle.deb_relation.specs.Views.{names_of};
ghost use Rattle.deb_solve.specs.Health.{row};
ghost use Rattle.deb_solve.specs.Reasons.{needed};
ghost use Rattle.deb_solve.specs.declared.facts.Fact.TheVariants as facts;
ghost use Rattle.deb_install.specs.KeptSources.{HoldsBuild, HoldsSource};
ghost use Rattle.deb_install.specs.ReasonLines.{need_words};
ghost use Rattle.deb_install.specs.SourceExplaining.{HoldsForSources, built_group, built_groups};
ghost use Rattle.deb_install.specs.SourceExplaining.{setting_for, source_fact_lines, source_reason_of};
ghost use Rattle.deb_install.specs.SourceExplaining.{universe_for};
ghost use Rattle.deb_install.specs.SourceReasonLines.{source_head, source_reason_line, source_with};
ghost use Rattle.deb_install.specs.declared.source_kind.SourceKind.{SourceKind};

use crate::answer::append_package;
use crate::kept_source::{KeptBuild, KeptSource};
use crate::needs::Needing;
use crate::readings::Readings;
use crate::reason_lines::{append_exclusion, append_need, append_need_words, number_at, row_of};
use crate::source_explaining::SourceExplaining;
use crate::source_lines::append_head;
use crate::source_rows::IMPLIED;
use crate::sure_groups::append_sure;
use crate::universe::Listing;
use deb_index::Package;
use deb_solve::{Fact, Universe};
use std::alloc::{AllocError, Global};

/// Appends the lines of facts.
pub(crate) fn append_source_facts(
    alloc: Global,
    out: &mut Vec<u8>,
    explaining: &SourceExplaining<'_>,
    facts: &[Fact],
) -> Result<(), AllocError>
    ensures { (kind : SourceKind) (meaning others : Meaning)
        → HoldsForSources kind meaning others explaining.now → OnOk result (out.new.items
        ≡ out.old.items ++ source_fact_lines kind (setting_for explaining.now meaning) others
        (universe_for explaining.now) facts.now) }
{
    for fact in facts {
        append_source_fact(alloc, out, explaining, *fact)?;
    }
    Ok(())
}

/// Appends the line of a fact.
fn append_source_fact(
    alloc: Global,
    out: &mut Vec<u8>,
    explaining: &SourceExplaining<'_>,
    fact: Fact,
) -> Result<(), AllocError>
    ensures { (kind : SourceKind) (meaning others : Meaning)
        → HoldsForSources kind meaning others explaining.now → OnOk result (out.new.items
        ≡ out.old.items ++ source_reason_line kind
        (packages_of explaining.now.packages.now.listing.now.index.now) others
        (source_reason_of (setting_for explaining.now meaning) others (universe_for explaining.now)
        fact)) }
{
    match fact {
        Fact::Needs { member, at } => append_any_need(alloc, out, explaining, member, at),
        Fact::Excludes { by, at } => append_any_exclusion(out, explaining, by, at),
    }
}

/// Appends the line of what the row at this index asks for, of the package or source package with
/// this number.
fn append_any_need(
    alloc: Global,
    out: &mut Vec<u8>,
    explaining: &SourceExplaining<'_>,
    member: u32,
    at: u32,
) -> Result<(), AllocError>
    ensures { (kind : SourceKind) (meaning others : Meaning)
        → HoldsForSources kind meaning others explaining.now → OnOk result (out.new.items
        ≡ out.old.items ++ source_reason_line kind
        (packages_of explaining.now.packages.now.listing.now.index.now) others
        (source_reason_of (setting_for explaining.now meaning) others (universe_for explaining.now)
        (facts.Needs member at))) }
{
    let number = number_of_source(explaining, member);
    if number == 0 {
        append_need(alloc, out, explaining.packages, member, at)
    } else {
        append_build_need(alloc, out, explaining, number, member, at)
    }
}

/// Appends the line of a package or source package that excludes another package.
fn append_any_exclusion(
    out: &mut Vec<u8>,
    explaining: &SourceExplaining<'_>,
    by: u32,
    at: u32,
) -> Result<(), AllocError>
    ensures { (kind : SourceKind) (meaning others : Meaning)
        → HoldsForSources kind meaning others explaining.now → OnOk result (out.new.items
        ≡ out.old.items ++ source_reason_line kind
        (packages_of explaining.now.packages.now.listing.now.index.now) others
        (source_reason_of (setting_for explaining.now meaning) others (universe_for explaining.now)
        (facts.Excludes by at))) }
{
    let excluded = number_at(row_of(&explaining.packages.universe.excludes, by), at);
    let number = number_of_source(explaining, by);
    if number == 0 {
        append_exclusion(out, explaining.packages.listing.index, by, excluded)
    } else {
        append_build_exclusion(out, explaining, number, excluded)
    }
}

/// Returns which source package has this number after the packages; 0 if it is one of these.
fn number_of_source(explaining: &SourceExplaining<'_>, member: u32) -> u64
    ensures { result ≡ member
        - length (packages_of explaining.now.packages.now.listing.now.index.now) }
{
    u64::from(member).saturating_sub(explaining.packages.listing.index.len() as u64)
}

/// Appends the line of what the row at this index asks for, of the source package with this number,
/// which the universe has as a member.
fn append_build_need(
    alloc: Global,
    out: &mut Vec<u8>,
    explaining: &SourceExplaining<'_>,
    number: u64,
    member: u32,
    at: u32,
) -> Result<(), AllocError>
    ensures { (kind : SourceKind) (meaning others : Meaning)
        → HoldsForSources kind meaning others explaining.now → OnOk result (out.new.items
        ≡ out.old.items ++ source_with kind others number (need_words
        (group_text (built_group (setting_for explaining.now meaning) others number at))
        (row (universe_for explaining.now).groups
        (needed (universe_for explaining.now) member at)))) }
{
    match explaining.sources.get((number as usize).saturating_sub(1)) {
        Some(source) => {
            let listing = explaining.packages.listing;
            let text = build_text_at(alloc, listing, &source.build, at as usize)?;
            let candidates = candidates_at(explaining.packages.universe, member, at);
            append_source_need(out, number, source, text, candidates)
        }
        None => Ok(()),
    }
}

/// Returns the numbers of the row at this index, of the package with this number.
fn candidates_at(universe: &Universe, member: u32, at: u32) -> &[u32]
    ensures { result.now ≡ row universe.now.groups (needed universe.now member at) }
{
    row_of(
        &universe.groups,
        number_at(row_of(&universe.needs, member), at),
    )
}

/// Appends the line of a group with this text, which the source package with this number needs.
fn append_source_need(
    out: &mut Vec<u8>,
    number: u64,
    source: &KeptSource,
    text: &[u8],
    candidates: &[u32],
) -> Result<(), AllocError>
    ensures { OnOk result (out.new.items ≡ out.old.items
        ++ (source_head number source.now.name.items source.now.version.items
        ++ need_words text.now candidates.now)) }
{
    append_head(out, number, source)?;
    append_need_words(out, text, b"", candidates)
}

/// Returns the canonical text of the group of the row at this index, of a source package with these
/// relations; empty if there is none.
fn build_text_at<'a>(
    alloc: Global,
    listing: &Listing<'_>,
    build: &'a KeptBuild,
    at: usize,
) -> Result<&'a [u8], AllocError>
    ensures { (values : ValueEntries ValueMeaning) → HoldsBuild values build.now
        → IfOk result (λ text. text.now ≡ group_text (get_or
        (built_groups (environment_of listing.now.environment.now) values) at [])) }
{
    let needing = Needing {
        index: listing.index,
        readings: Readings::One,
        environment: listing.environment,
        is_usual: false,
    };
    let texts = build_texts(alloc, &needing, build)?;
    Ok(text_at(&texts, at))
}

/// Returns the canonical texts of the groups that have rows, of a source package with these
/// relations.
fn build_texts<'a>(
    alloc: Global,
    needing: &Needing<'_>,
    build: &'a KeptBuild,
) -> Result<Vec<&'a [u8]>, AllocError>
    ensures { (values : ValueEntries ValueMeaning) → HoldsBuild values build.now
        → IfOk result (λ found. names_of found.items ≡ map group_text
        (built_groups (environment_of needing.now.environment.now) values)) }
{
    let mut found = Vec::new(alloc);
    append_sure(alloc, &mut found, needing, IMPLIED)?;
    append_sure(alloc, &mut found, needing, &build.depends)?;
    append_sure(alloc, &mut found, needing, &build.depends_arch)?;
    append_sure(alloc, &mut found, needing, &build.depends_indep)?;
    Ok(found)
}

fn text_at<'a>(texts: &[&'a [u8]], at: usize) -> &'a [u8]
    ensures { result.now ≡ get_or (names_of texts.now) at [] }
{
    match texts.get(at) {
        Some(text) => *text,
        None => b"",
    }
}

/// Appends the line of the source package with this number, which excludes the package with the
/// other one.
fn append_build_exclusion(
    out: &mut Vec<u8>,
    explaining: &SourceExplaining<'_>,
    number: u64,
    excluded: u32,
) -> Result<(), AllocError>
    ensures { (kind : SourceKind) (others : Meaning)
        → Pairwise (HoldsSource kind) others explaining.now.sources.now → OnOk result
        (out.new.items ≡ out.old.items ++ line_at (λ p. source_with kind others number
        (codes " excludes" ++ package_line canonical_version p))
        (packages_of explaining.now.packages.now.listing.now.index.now) excluded) }
{
    match explaining
        .packages
        .listing
        .index
        .package(u64::from(excluded))
    {
        Some(package) => append_with_package(
            out,
            explaining.sources,
            number,
            u64::from(excluded),
            &package,
        ),
        None => Ok(()),
    }
}

/// Appends the same line of a package.
fn append_with_package(
    out: &mut Vec<u8>,
    sources: &[KeptSource],
    number: u64,
    excluded: u64,
    package: &Package<'_>,
) -> Result<(), AllocError>
    ensures { (kind : SourceKind) (others : Meaning)
        → Pairwise (HoldsSource kind) others sources.now → OnOk result (out.new.items
        ≡ out.old.items ++ source_with kind others number (codes " excludes"
        ++ package_line canonical_version (excluded, listed_of «package».now))) }
{
    match sources.get((number as usize).saturating_sub(1)) {
        Some(source) => append_source_exclusion(out, number, source, excluded, package),
        None => Ok(()),
    }
}

/// Appends the line of a source package that excludes a package.
fn append_source_exclusion(
    out: &mut Vec<u8>,
    number: u64,
    source: &KeptSource,
    excluded: u64,
    package: &Package<'_>,
) -> Result<(), AllocError>
    ensures { OnOk result (out.new.items ≡ out.old.items
        ++ (source_head number source.now.name.items source.now.version.items ++ (codes " excludes"
        ++ package_line canonical_version (excluded, listed_of «package».now)))) }
{
    append_head(out, number, source)?;
    out.extend_from_slice(b" excludes")?;
    append_package(out, excluded, package)
}
