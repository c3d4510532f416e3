//! What the packages of an index need and exclude, by their numbers.

ghost use Rattle.std.specs.Prelude.{◌≡◌, ◌++◌, ℕ, true, List, [], ◌∷◌, get_or, IfOk, IfSome, OnOk};
ghost use Rattle.deb_control.specs.Documents.{Meaning};
ghost use Rattle.deb_control.specs.FieldWords.{value_under, word_under};
ghost use Rattle.deb_control.specs.Pairs.{Pairwise};
ghost use Rattle.deb_control.specs.ValueFiles.{ValueEntries};
ghost use Rattle.deb_field.specs.Values.{ValueMeaning};
ghost use Rattle.deb_health.specs.Kept.{HoldsMember};
ghost use Rattle.deb_health.specs.Lines.{negative_fields};
ghost use Rattle.deb_index.specs.Indexes.{packages_of};
ghost use Rattle.deb_relation.specs.Applying.{Environment};
ghost use Rattle.deb_relation.specs.Environments.{environment_of};
ghost use Rattle.deb_relation.specs.Views.{names_of};
ghost use Rattle.deb_syntax.specs.Fields.{Field};
ghost use Rattle.deb_unmet.specs.Asked.{fields_with};
ghost use Rattle.deb_unmet.specs.Paragraphs.{HasTextsOf, IsRelationText};
ghost use Rattle.deb_unmet.specs.declared.asked.Asked.TheVariants.{Packages};
ghost use Rattle.deb_unmet.specs.declared.asked.Strength.TheVariants as strengths;
ghost use Rattle.deb_install.specs.Building.{AreNumbersOf};
ghost use Rattle.deb_install.specs.Keeping.{HoldsValues};
ghost use Rattle.deb_install.specs.Known.{AppendsKnown, Knows};
ghost use Rattle.deb_install.specs.KeptSources.{HoldsSource};
ghost use Rattle.deb_install.specs.Rows.{excluded_by_fields, later_duplicates, rows_of_fields};
ghost use Rattle.deb_install.specs.SourceRows.{IsUniverseWith};
ghost use Rattle.deb_install.specs.Terms.{left_out_rows};
ghost use Rattle.deb_install.specs.Universes.{AppendsNeeds, AppendsPackage, AreFirstRows, AreKnownIn, IsBuilt, IsUniverseOf, setting_of, shared_rows};
ghost use Rattle.deb_install.specs.declared.source_kind.SourceKind.{SourceKind};

use crate::essential::{append_left_out, essential_groups};
use crate::exclusions::{Excluding, Original, append_duplicates, append_exclusions};
use crate::groups::Groups;
use crate::kept::KeptMember;
use crate::kept_source::KeptSource;
use crate::known::Known;
use crate::needs::{Needing, append_groups};
use crate::readings::Readings;
use crate::source_rows::append_sources;
use deb_base::VersionText;
use deb_health::Kept;
use deb_index::Index;
use deb_relation::Env;
use deb_solve::{Rows, Universe};
use deb_unmet::{Asked, LineTexts, Strength, own_environment, own_or};
use std::alloc::{AllocError, Global};

/// The packages of an index, and what is asked of them.
#[derive(Clone, Copy)]
pub(crate) struct Listing<'a> {
    pub(crate) index: &'a Index,
    pub(crate) environment: &'a Env,
    pub(crate) strength: Strength,
    /// Whether a set has to have a package of each essential name.
    pub(crate) essential: bool,
    /// The names that no member of a set may have.
    pub(crate) without: &'a [&'a [u8]],
    pub(crate) readings: Readings,
}

/// The rows of the first packages.
#[derive(Drop)]
pub(crate) struct Building {
    pub(crate) needs: Rows,
    pub(crate) groups: Groups,
    /// The groups that were seen before, in the environment of the listing.
    pub(crate) known: Known,
    pub(crate) excludes: Rows,
}

/// The rows of an index have at most so many numbers for each package, and so many more.
const NUMBERS_EACH: usize = 256;

const MORE_NUMBERS: usize = 4_194_304;

impl Building {
    /// Returns the rows of the number 0, which is no package.
    fn new(alloc: Global) -> Result<Building, AllocError>
        ensures { IfOk result AreFirstRows }
    {
        let mut needs = Rows::new(alloc);
        let mut excludes = Rows::new(alloc);
        needs.push_row(&[])?;
        excludes.push_row(&[])?;
        Ok(Building {
            needs,
            groups: Groups::new(alloc),
            known: Known::new(alloc),
            excludes,
        })
    }

    /// Returns whether the rows have too many numbers for so many packages.
    fn is_too_large(&self, packages: usize) -> bool {
        let most = packages.saturating_mul(NUMBERS_EACH);
        let needs = self.needs.size().saturating_add(self.groups.rows.size());
        needs.saturating_add(self.excludes.size()) > most.saturating_add(MORE_NUMBERS)
    }

    /// Returns the universe of these rows.
    fn into_universe(self) -> Universe
        ensures needs { result.needs ≡ self.needs }
        ensures groups { result.groups ≡ self.groups.rows }
        ensures excludes { result.excludes ≡ self.excludes }
    {
        Universe {
            needs: self.needs,
            groups: self.groups.into_rows(),
            excludes: self.excludes,
        }
    }
}

/// Returns what the packages of an index, of which this is kept, need and exclude; none if that
/// takes too many numbers. The number 0 is no package.
pub(crate) fn universe_of(
    alloc: Global,
    listing: &Listing<'_>,
    kept: &[KeptMember],
) -> Result<Option<Universe>, AllocError>
    ensures { (meaning : Meaning) → Pairwise HoldsValues meaning kept.now → IfOk result (λ found.
        IfSome found (IsUniverseOf (setting_of listing.now meaning))) }
{
    match rows_of(alloc, listing, kept)? {
        Some(building) => Ok(Some(building.into_universe())),
        None => Ok(None),
    }
}

/// Returns the same, and then what source packages, of which this is kept, need and exclude.
pub(crate) fn universe_with(
    alloc: Global,
    listing: &Listing<'_>,
    kept: &[KeptMember],
    sources: &[KeptSource],
) -> Result<Option<Universe>, AllocError>
    ensures { (kind : SourceKind) (meaning others : Meaning) → Pairwise HoldsValues meaning kept.now
        → Pairwise (HoldsSource kind) others sources.now → IfOk result (λ found. IfSome found
        (IsUniverseWith (setting_of listing.now meaning) others)) }
{
    match rows_of(alloc, listing, kept)? {
        Some(building) => Ok(Some(with_sources(alloc, building, listing, sources)?)),
        None => Ok(None),
    }
}

/// Returns the universe of these rows, and then those of the source packages of which this is kept.
fn with_sources(
    alloc: Global,
    building: Building,
    listing: &Listing<'_>,
    sources: &[KeptSource],
) -> Result<Universe, AllocError>
    ensures { (kind : SourceKind) (meaning others : Meaning)
        → IsBuilt (setting_of listing.now meaning) meaning building
        → Pairwise (HoldsSource kind) others sources.now
        → IfOk result (IsUniverseWith (setting_of listing.now meaning) others) }
{
    let mut building = building;
    append_sources(alloc, &mut building, listing, sources)?;
    Ok(building.into_universe())
}

/// Returns the rows of the packages of an index, of which this is kept; none if they have too many
/// numbers.
fn rows_of(
    alloc: Global,
    listing: &Listing<'_>,
    kept: &[KeptMember],
) -> Result<Option<Building>, AllocError>
    ensures { (meaning : Meaning) → Pairwise HoldsValues meaning kept.now → IfOk result
        (λ found. IfSome found (IsBuilt (setting_of listing.now meaning) meaning)) }
{
    let mut building = Building::new(alloc)?;
    if append_all(alloc, &mut building, listing, kept)? {
        Ok(Some(building))
    } else {
        Ok(None)
    }
}

/// Appends the rows of the packages of an index, of which this is kept, and returns whether they
/// haven't too many numbers.
fn append_all(
    alloc: Global,
    building: &mut Building,
    listing: &Listing<'_>,
    kept: &[KeptMember],
) -> Result<bool, AllocError>
    ensures { (meaning : Meaning) → Pairwise HoldsValues meaning kept.now
        → AreFirstRows building.old → IfOk result (λ whole. whole ≡ true
        → IsBuilt (setting_of listing.now meaning) meaning building.new) }
{
    let shared = essential_groups(alloc, &mut building.groups, listing, kept)?;
    append_packages(alloc, building, listing, kept, &shared)
}

/// Appends the rows of the packages of an index, of which this is kept, and returns whether they
/// haven't too many numbers. Each package needs the groups with the shared numbers too.
fn append_packages(
    alloc: Global,
    building: &mut Building,
    listing: &Listing<'_>,
    kept: &[KeptMember],
    shared: &[u32],
) -> Result<bool, AllocError>
    ensures { (meaning : Meaning) → Pairwise HoldsValues meaning kept.now
        → IsBuilt (setting_of listing.now meaning) [] building.old
        → AreNumbersOf building.old.groups.rows shared.now
        (shared_rows (setting_of listing.now meaning))
        → IfOk result (λ whole. whole ≡ true
        → IsBuilt (setting_of listing.now meaning) meaning building.new) }
{
    for count in 0..kept.len() {
        let number = count as u64 + 1;
        append_package(alloc, building, listing, number, &kept[count], shared)?;
        if building.is_too_large(kept.len()) {
            return Ok(false);
        }
    }
    Ok(true)
}

/// Appends the rows of the package with this number, of which this is kept, and which needs the
/// groups with the shared numbers too.
fn append_package(
    alloc: Global,
    building: &mut Building,
    listing: &Listing<'_>,
    number: u64,
    kept: &KeptMember,
    shared: &[u32],
) -> Result<(), AllocError>
    ensures { (meaning : Meaning) (fields : List Field) (values : ValueEntries ValueMeaning)
        → HoldsMember fields values kept.now.texts
        → AreKnownIn (setting_of listing.now meaning) building.old
        → AreNumbersOf building.old.groups.rows shared.now
        (shared_rows (setting_of listing.now meaning))
        → OnOk result (AppendsPackage (setting_of listing.now meaning) number values building.old
        building.new) }
{
    let texts = kept.texts.unmet.line_texts(VersionText::Canonical);
    let asked = Asked::Packages(listing.strength);
    let own = own_environment(alloc, asked, listing.environment, texts.architecture)?;
    let own = own_or(own.as_ref(), listing.environment);
    let needing = Needing {
        index: listing.index,
        readings: listing.readings,
        environment: own,
        is_usual: own.target() == listing.environment.target(),
    };
    append_needs(alloc, building, listing, &needing, &texts, shared)?;
    let excluding = Excluding {
        index: listing.index,
        readings: listing.readings,
        environment: own,
        target: listing.environment.native(),
        name: texts.name,
    };
    let rows = &mut building.excludes;
    append_excludes(alloc, rows, &excluding, number, &kept.texts)
}

/// Appends the row of the groups that a package with these texts needs, and of those with the
/// shared numbers.
fn append_needs(
    alloc: Global,
    building: &mut Building,
    listing: &Listing<'_>,
    needing: &Needing<'_>,
    texts: &LineTexts<'_>,
    shared: &[u32],
) -> Result<(), AllocError>
    ensures appended { (environment : Environment) (values : ValueEntries ValueMeaning)
        (rows : List (List ℕ)) → HasTextsOf (Packages listing.now.strength) texts.now values
        → Knows needing.now environment building.old.groups.rows building.old.known
        → AreNumbersOf building.old.groups.rows shared.now rows → OnOk result (AppendsNeeds
        needing.now environment building.old building.new
        (rows_of_fields needing.now.readings (environment_of needing.now.environment.now)
        (packages_of needing.now.index.now) values (fields_with listing.now.strength)
        ++ (left_out_rows (names_of listing.now.without.now) texts.now.name.now ++ rows))) }
    ensures others { building.new.excludes ≡ building.old.excludes }
{
    let mut needs = needs_of(
        alloc,
        &mut building.groups,
        &mut building.known,
        needing,
        listing.strength,
        texts,
    )?;
    append_left_out(
        &mut building.groups,
        &mut needs,
        listing.without,
        texts.name,
    )?;
    needs.extend_from_slice(shared)?;
    building.needs.push_row(&needs)
}

/// Returns the numbers of the groups that a package with these texts needs.
fn needs_of(
    alloc: Global,
    groups: &mut Groups,
    known: &mut Known,
    needing: &Needing<'_>,
    strength: Strength,
    texts: &LineTexts<'_>,
) -> Result<Vec<u32>, AllocError>
    ensures { (environment : Environment) (values : ValueEntries ValueMeaning)
        → HasTextsOf (Packages strength) texts.now values
        → Knows needing.now environment groups.old.rows known.old
        → IfOk result (λ needs. AppendsKnown needing.now environment groups.old.rows
        groups.new.rows known.new [] needs.items
        (rows_of_fields needing.now.readings (environment_of needing.now.environment.now)
        (packages_of needing.now.index.now) values (fields_with strength))) }
{
    let recommended = recommended(strength, texts);
    let mut needs = Vec::new(alloc);
    append_groups(
        alloc,
        groups,
        known,
        &mut needs,
        needing,
        relation(texts, 0),
    )?;
    append_groups(
        alloc,
        groups,
        known,
        &mut needs,
        needing,
        relation(texts, 1),
    )?;
    append_groups(alloc, groups, known, &mut needs, needing, recommended)?;
    Ok(needs)
}

/// Returns the canonical text of Recommends, if it is asked, else the empty one.
fn recommended<'a>(strength: Strength, texts: &LineTexts<'a>) -> &'a [u8]
    ensures none { strength ≡ strengths.Depends → result.now ≡ [] }
    ensures some { strength ≡ strengths.Recommends
        → result.now ≡ get_or (names_of texts.now.relations) 2 [] }
{
    match strength {
        Strength::Depends => b"",
        Strength::Recommends => relation(texts, 2),
    }
}

/// Returns the canonical text of the relation that is asked after so many; empty if there is none.
pub(crate) fn relation<'a>(texts: &LineTexts<'a>, row: usize) -> &'a [u8]
    ensures { result.now ≡ get_or (names_of texts.now.relations) row [] }
{
    if row < 3 { texts.relations[row] } else { b"" }
}

/// Appends the row of the packages that the package with this number excludes.
fn append_excludes(
    alloc: Global,
    rows: &mut Rows,
    excluding: &Excluding<'_>,
    number: u64,
    kept: &Kept,
) -> Result<(), AllocError>
    ensures { (fields : List Field) (values : ValueEntries ValueMeaning)
        → HoldsMember fields values kept.now → OnOk result (rows.new ≡ rows.old
        ++ (excluded_by_fields excluding.now.readings
        (environment_of excluding.now.environment.now) excluding.now.target.now
        excluding.now.name.now (packages_of excluding.now.index.now) values negative_fields
        ++ later_duplicates excluding.now.target.now (packages_of excluding.now.index.now) number)
        ∷ []) }
{
    let mut row = Vec::new(alloc);
    append_exclusions(alloc, &mut row, excluding, &kept.conflicts)?;
    append_exclusions(alloc, &mut row, excluding, &kept.breaks)?;
    let original = Original {
        index: excluding.index,
        target: excluding.target,
        number,
    };
    append_duplicates(&mut row, &original)?;
    rows.push_row(&row)
}
