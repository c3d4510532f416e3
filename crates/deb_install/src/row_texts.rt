//! What the rows of a package ask for, in one reading.

ghost use Rattle.std.specs.Prelude.{◌≡◌, ◌++◌, ◌∷◌, [], IfOk, cond, get_or, map};
ghost use Rattle.deb_control.specs.Documents.{Meaning};
ghost use Rattle.deb_control.specs.ValueFiles.{ValueEntries};
ghost use Rattle.deb_field.specs.Values.{ValueMeaning};
ghost use Rattle.deb_relation.specs.Applying.{is_among};
ghost use Rattle.deb_relation.specs.Environments.{environment_of};
ghost use Rattle.deb_relation.specs.Texts.{group_text};
ghost use Rattle.deb_relation.specs.Views.{names_of};
ghost use Rattle.deb_unmet.specs.Paragraphs.{HasTextsOf};
ghost use Rattle.deb_unmet.specs.declared.asked.Asked.TheVariants.{Packages};
ghost use Rattle.deb_install.specs.Explaining.{EmptyRow, HasWords, HoldsFor, NameRow, groups_with_rows};
ghost use Rattle.deb_install.specs.Explaining.{row_at, rows_asked};
ghost use Rattle.deb_install.specs.Keeping.{HoldsValues};
ghost use Rattle.deb_install.specs.Universes.{setting_of, terms_in};

use crate::answer::is_among;
use crate::explaining::Explaining;
use crate::kept::KeptMember;
use crate::needs::Needing;
use crate::readings::Readings;
use crate::sure_groups::sure_texts;
use crate::universe::Listing;
use deb_base::VersionText;
use deb_unmet::{Asked, LineTexts, own_environment, own_or};
use std::alloc::{AllocError, Global};

/// What a row asks for.
#[derive(Clone, Copy)]
pub(crate) enum RowText<'a> {
    /// A package that meets the group with this canonical text.
    Group(&'a [u8]),
    /// A package with this name, which is essential.
    Name(&'a [u8]),
    /// What no package has, since its own package is left out.
    LeftOut,
}

/// Returns what the row at this index asks for, of the package with this number.
pub(crate) fn row_text_at<'a>(
    alloc: Global,
    explaining: &Explaining<'a>,
    member: u32,
    at: u32,
) -> Result<RowText<'a>, AllocError>
    ensures { (meaning : Meaning) → HoldsFor meaning explaining.now → IfOk result (HasWords
        (row_at (setting_of explaining.now.listing.now meaning) member at)) }
{
    match explaining.kept.get((member as usize).saturating_sub(1)) {
        Some(kept) => text_of_row(alloc, explaining, kept, at as usize),
        None => Ok(RowText::LeftOut),
    }
}

/// Returns what the row at this index asks for, of the package of which this is kept.
fn text_of_row<'a>(
    alloc: Global,
    explaining: &Explaining<'a>,
    kept: &'a KeptMember,
    at: usize,
) -> Result<RowText<'a>, AllocError>
    ensures { (meaning : Meaning) (values : ValueEntries ValueMeaning)
        → HoldsFor meaning explaining.now → HoldsValues values kept.now → IfOk result (HasWords
        (get_or (rows_asked (setting_of explaining.now.listing.now meaning) values) at
        EmptyRow)) }
{
    let texts = kept.texts.unmet.line_texts(VersionText::Canonical);
    let groups = texts_of_groups(alloc, explaining.listing, &texts)?;
    if at < groups.len() {
        Ok(RowText::Group(groups[at]))
    } else {
        Ok(text_after_groups(explaining, texts.name, at - groups.len()))
    }
}

/// Returns the canonical texts of the groups that have rows, of a package with these texts.
fn texts_of_groups<'a>(
    alloc: Global,
    listing: &Listing<'_>,
    texts: &LineTexts<'a>,
) -> Result<Vec<&'a [u8]>, AllocError>
    ensures { (values : ValueEntries ValueMeaning)
        → HasTextsOf (Packages listing.now.strength) texts.now values → IfOk result (λ groups.
        names_of groups.items ≡ map group_text (groups_with_rows (terms_in listing.now)
        (environment_of listing.now.environment.now) values)) }
{
    let asked = Asked::Packages(listing.strength);
    let own = own_environment(alloc, asked, listing.environment, texts.architecture)?;
    let own = own_or(own.as_ref(), listing.environment);
    let needing = Needing {
        index: listing.index,
        readings: Readings::One,
        environment: own,
        is_usual: false,
    };
    sure_texts(alloc, &needing, listing.strength, texts)
}

/// Returns what the row at this index after those of groups asks for, of a package with this name.
fn text_after_groups<'a>(explaining: &Explaining<'a>, name: &[u8], at: usize) -> RowText<'a>
    ensures { HasWords (get_or
        (cond (is_among name.now (names_of explaining.now.listing.now.without.now))
        (EmptyRow ∷ []) [] ++ map NameRow (names_of explaining.now.essential.now)) at EmptyRow)
        result }
{
    if !is_among(name, explaining.listing.without) {
        return name_at(explaining.essential, at);
    }
    if at == 0 {
        RowText::LeftOut
    } else {
        name_at(explaining.essential, at - 1)
    }
}

/// Returns what the row of the name at this index asks for.
fn name_at<'a>(names: &[&'a [u8]], at: usize) -> RowText<'a>
    ensures { HasWords (get_or (map NameRow (names_of names.now)) at EmptyRow) result }
{
    match names.get(at) {
        Some(name) => RowText::Name(*name),
        None => RowText::LeftOut,
    }
}
