//! What a package needs besides the groups of its fields: nothing is enough for one that is left
//! out, and each needs the essential packages, if they are asked.

ghost use Rattle.std.specs.Prelude.{◌≡◌, ◌&&◌, ◌||◌, ◌∷◌, [], IfOk, OnOk, codes, not};
ghost use Rattle.std.specs.List.{flat_map};
ghost use Rattle.std.specs.Str.{bytes_eq};
ghost use Rattle.deb_control.specs.Documents.{Meaning};
ghost use Rattle.deb_control.specs.Pairs.{Pairwise};
ghost use Rattle.deb_control.specs.ValueFiles.{ValueEntries};
ghost use Rattle.deb_field.specs.Values.{ValueMeaning};
ghost use Rattle.deb_index.specs.Indexes.{packages_of};
ghost use Rattle.deb_index.specs.Named.{has_name, numbers_of};
ghost use Rattle.deb_relation.specs.Applying.{is_among};
ghost use Rattle.deb_relation.specs.Environments.{environment_of};
ghost use Rattle.deb_relation.specs.Views.{names_of};
ghost use Rattle.deb_install.specs.Building.{AppendsRows};
ghost use Rattle.deb_install.specs.Keeping.{HoldsValues};
ghost use Rattle.deb_install.specs.Terms.{is_native, left_out_rows, rows_if_essential};
ghost use Rattle.deb_install.specs.Universes.{setting_of, shared_rows};

use crate::answer::is_among;
use crate::groups::Groups;
use crate::kept::KeptMember;
use crate::needs::{append_numbers, append_row};
use crate::universe::Listing;
use deb_base::VersionText;
use deb_index::Index;
use deb_unmet::LineTexts;
use std::alloc::{AllocError, Global};

/// Appends the number of the empty row, if a package with this name is left out.
pub(crate) fn append_left_out(
    groups: &mut Groups,
    out: &mut Vec<u32>,
    without: &[&[u8]],
    name: &[u8],
) -> Result<(), AllocError>
    ensures { OnOk result (AppendsRows groups.old.rows groups.new.rows out.old.items out.new.items
        (left_out_rows (names_of without.now) name.now)) }
{
    if is_among(name, without) {
        append_row(groups, out, &[])
    } else {
        Ok(())
    }
}

/// Appends a row for each essential package, if they are asked, and returns the numbers of these
/// rows: the packages that have its name. This is kept of all packages.
pub(crate) fn essential_groups(
    alloc: Global,
    groups: &mut Groups,
    listing: &Listing<'_>,
    kept: &[KeptMember],
) -> Result<Vec<u32>, AllocError>
    ensures { (meaning : Meaning) → Pairwise HoldsValues meaning kept.now → IfOk result (λ shared.
        AppendsRows groups.old.rows groups.new.rows [] shared.items
        (shared_rows (setting_of listing.now meaning))) }
{
    if listing.essential {
        groups_of_essential(alloc, groups, listing, kept)
    } else {
        Ok(Vec::new(alloc))
    }
}

/// Appends a row for each essential package, and returns their numbers.
fn groups_of_essential(
    alloc: Global,
    groups: &mut Groups,
    listing: &Listing<'_>,
    kept: &[KeptMember],
) -> Result<Vec<u32>, AllocError>
    ensures { (meaning : Meaning) → Pairwise HoldsValues meaning kept.now → IfOk result (λ shared.
        AppendsRows groups.old.rows groups.new.rows [] shared.items
        (flat_map (rows_if_essential (names_of listing.now.without.now)
        (environment_of listing.now.environment.now).native (packages_of listing.now.index.now))
        meaning)) }
{
    let mut shared = Vec::new(alloc);
    for count in 0..kept.len() {
        append_if_essential(alloc, groups, &mut shared, listing, &kept[count])?;
    }
    Ok(shared)
}

/// Appends the number of the row of a package, of which this is kept, if it is essential.
fn append_if_essential(
    alloc: Global,
    groups: &mut Groups,
    out: &mut Vec<u32>,
    listing: &Listing<'_>,
    kept: &KeptMember,
) -> Result<(), AllocError>
    ensures { (values : ValueEntries ValueMeaning) → HoldsValues values kept.now → OnOk result
        (AppendsRows groups.old.rows groups.new.rows out.old.items out.new.items
        (rows_if_essential (names_of listing.now.without.now)
        (environment_of listing.now.environment.now).native (packages_of listing.now.index.now)
        values)) }
{
    let texts = kept.texts.unmet.line_texts(VersionText::Canonical);
    if is_essential(listing, &texts, kept.is_marked) {
        append_name(alloc, groups, out, listing.index, texts.name)
    } else {
        Ok(())
    }
}

/// Returns whether a package with these texts is essential: it is marked, is of the target's
/// architecture or of all, and isn't left out.
pub(crate) fn is_essential(listing: &Listing<'_>, texts: &LineTexts<'_>, is_marked: bool) -> bool
    ensures { result ≡ (is_marked && (is_native (environment_of listing.now.environment.now).native
        texts.now.architecture.now
        && not (is_among texts.now.name.now (names_of listing.now.without.now)))) }
{
    let is_native = is_native(listing.environment.native(), texts.architecture);
    let is_out = is_among(texts.name, listing.without);
    is_marked && is_native && !is_out
}

fn is_native(target: &[u8], architecture: &[u8]) -> bool
    ensures { result ≡ is_native target.now architecture.now }
{
    architecture == b"all".as_slice() || architecture == target
}

/// Appends the number of the row of the packages that have a name.
fn append_name(
    alloc: Global,
    groups: &mut Groups,
    out: &mut Vec<u32>,
    index: &Index,
    name: &[u8],
) -> Result<(), AllocError>
    ensures { OnOk result (AppendsRows groups.old.rows groups.new.rows out.old.items out.new.items
        (numbers_of (has_name name.now) (packages_of index.now) ∷ [])) }
{
    let mut row = Vec::new(alloc);
    append_numbers(&mut row, index.packages(name))?;
    append_row(groups, out, &row)
}
