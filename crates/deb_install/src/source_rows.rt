//! What source packages need and exclude, after the rows of the packages.

ghost use Rattle.std.specs.Prelude.{◌≡◌, ◌++◌, [], ◌∷◌, IfOk, OnOk};
ghost use Rattle.deb_control.specs.Documents.{Meaning};
ghost use Rattle.deb_control.specs.Pairs.{Pairwise};
ghost use Rattle.deb_control.specs.ValueFiles.{ValueEntries};
ghost use Rattle.deb_field.specs.Values.{ValueMeaning};
ghost use Rattle.deb_index.specs.Indexes.{packages_of};
ghost use Rattle.deb_relation.specs.Applying.{Environment};
ghost use Rattle.deb_relation.specs.Environments.{environment_of};
ghost use Rattle.deb_install.specs.Buildable.{build_rows, conflict_fields};
ghost use Rattle.deb_install.specs.Known.{AppendsKnown, Knows};
ghost use Rattle.deb_install.specs.KeptSources.{HoldsBuild, HoldsSource};
ghost use Rattle.deb_install.specs.Rows.{excluded_by_fields};
ghost use Rattle.deb_install.specs.SourceRows.{AppendsSource, AppendsSources};
ghost use Rattle.deb_install.specs.Universes.{AppendsNeeds, AreKnownIn, setting_of};
ghost use Rattle.deb_install.specs.declared.source_kind.SourceKind.{SourceKind};

use crate::exclusions::{Excluding, append_exclusions};
use crate::groups::Groups;
use crate::kept_source::{KeptBuild, KeptSource};
use crate::known::Known;
use crate::needs::{Needing, append_groups};
use crate::universe::{Building, Listing};
use deb_solve::Rows;
use std::alloc::{AllocError, Global};

/// The relation that each source package needs, though it doesn't say so.
pub(crate) const IMPLIED: &'static [u8] = b"build-essential:native";

/// Appends the rows of the source packages of which this is kept.
pub(crate) fn append_sources(
    alloc: Global,
    building: &mut Building,
    listing: &Listing<'_>,
    sources: &[KeptSource],
) -> Result<(), AllocError>
    ensures { (kind : SourceKind) (meaning others : Meaning)
        → Pairwise (HoldsSource kind) others sources.now
        → AreKnownIn (setting_of listing.now meaning) building.old → OnOk result (AppendsSources
        (setting_of listing.now meaning) others building.old building.new) }
{
    for count in 0..sources.len() {
        append_source(alloc, building, listing, &sources[count].build)?;
    }
    Ok(())
}

/// Appends the rows of the source package of which these relations are kept.
fn append_source(
    alloc: Global,
    building: &mut Building,
    listing: &Listing<'_>,
    build: &KeptBuild,
) -> Result<(), AllocError>
    ensures { (meaning : Meaning) (values : ValueEntries ValueMeaning) → HoldsBuild values build.now
        → AreKnownIn (setting_of listing.now meaning) building.old → OnOk result (AppendsSource
        (setting_of listing.now meaning) values building.old building.new) }
{
    let needing = Needing {
        index: listing.index,
        readings: listing.readings,
        environment: listing.environment,
        is_usual: true,
    };
    append_needs(alloc, building, &needing, build)?;
    let excluding = Excluding {
        index: listing.index,
        readings: listing.readings,
        environment: listing.environment,
        target: listing.environment.native(),
        name: b"",
    };
    append_excludes(alloc, &mut building.excludes, &excluding, build)
}

/// Appends the row of the groups that a source package needs.
fn append_needs(
    alloc: Global,
    building: &mut Building,
    needing: &Needing<'_>,
    build: &KeptBuild,
) -> Result<(), AllocError>
    ensures appended { (environment : Environment) (values : ValueEntries ValueMeaning)
        → HoldsBuild values build.now
        → Knows needing.now environment building.old.groups.rows building.old.known
        → OnOk result (AppendsNeeds needing.now environment building.old building.new
        (build_rows needing.now.readings (environment_of needing.now.environment.now)
        (packages_of needing.now.index.now) values)) }
    ensures others { building.new.excludes ≡ building.old.excludes }
{
    let groups = &mut building.groups;
    let needs = needs_of(alloc, groups, &mut building.known, needing, build)?;
    building.needs.push_row(&needs)
}

/// Returns the numbers of the groups that a source package needs.
fn needs_of(
    alloc: Global,
    groups: &mut Groups,
    known: &mut Known,
    needing: &Needing<'_>,
    build: &KeptBuild,
) -> Result<Vec<u32>, AllocError>
    ensures { (environment : Environment) (values : ValueEntries ValueMeaning)
        → HoldsBuild values build.now → Knows needing.now environment groups.old.rows known.old
        → IfOk result (λ needs. AppendsKnown needing.now environment groups.old.rows
        groups.new.rows known.new [] needs.items (build_rows needing.now.readings
        (environment_of needing.now.environment.now) (packages_of needing.now.index.now) values)) }
{
    let mut needs = Vec::new(alloc);
    append_groups(alloc, groups, known, &mut needs, needing, IMPLIED)?;
    append_groups(alloc, groups, known, &mut needs, needing, &build.depends)?;
    append_groups(
        alloc,
        groups,
        known,
        &mut needs,
        needing,
        &build.depends_arch,
    )?;
    append_groups(
        alloc,
        groups,
        known,
        &mut needs,
        needing,
        &build.depends_indep,
    )?;
    Ok(needs)
}

/// Appends the row of the packages that a source package excludes.
fn append_excludes(
    alloc: Global,
    rows: &mut Rows,
    excluding: &Excluding<'_>,
    build: &KeptBuild,
) -> Result<(), AllocError>
    ensures { (values : ValueEntries ValueMeaning) → HoldsBuild values build.now
        → OnOk result (rows.new ≡ rows.old ++ excluded_by_fields excluding.now.readings
        (environment_of excluding.now.environment.now) excluding.now.target.now
        excluding.now.name.now (packages_of excluding.now.index.now) values conflict_fields
        ∷ []) }
{
    let mut row = Vec::new(alloc);
    append_exclusions(alloc, &mut row, excluding, &build.conflicts)?;
    append_exclusions(alloc, &mut row, excluding, &build.conflicts_arch)?;
    append_exclusions(alloc, &mut row, excluding, &build.conflicts_indep)?;
    rows.push_row(&row)
}
