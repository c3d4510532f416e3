//! The names of essential packages.

ghost use Rattle.std.specs.Prelude.{◌≡◌, ◌++◌, ◌∷◌, [], IfOk, OnOk, codes, cond, map};
ghost use Rattle.std.specs.List.{filter};
ghost use Rattle.deb_control.specs.Documents.{Meaning};
ghost use Rattle.deb_control.specs.FieldWords.{word_under};
ghost use Rattle.deb_control.specs.Pairs.{Pairwise};
ghost use Rattle.deb_control.specs.ValueFiles.{ValueEntries};
ghost use Rattle.deb_field.specs.Values.{ValueMeaning};
ghost use Rattle.deb_relation.specs.Environments.{environment_of};
ghost use Rattle.deb_relation.specs.Views.{names_of};
ghost use Rattle.deb_install.specs.Keeping.{HoldsValues};
ghost use Rattle.deb_install.specs.Terms.{essential_names, is_essential};
ghost use Rattle.deb_install.specs.Universes.{terms_in};

use crate::essential::is_essential;
use crate::kept::KeptMember;
use crate::universe::Listing;
use deb_base::VersionText;
use std::alloc::{AllocError, Global};

/// Returns them, if they are asked. This is kept of all packages.
pub(crate) fn essential_texts<'a>(
    alloc: Global,
    listing: &Listing<'_>,
    kept: &'a [KeptMember],
) -> Result<Vec<&'a [u8]>, AllocError>
    ensures { (meaning : Meaning) → Pairwise HoldsValues meaning kept.now → IfOk result (λ names.
        names_of names.items ≡ essential_names (terms_in listing.now)
        (environment_of listing.now.environment.now).native meaning) }
{
    if listing.essential {
        texts_of_names(alloc, listing, kept)
    } else {
        Ok(Vec::new(alloc))
    }
}

/// Returns them, whether or not they are asked.
fn texts_of_names<'a>(
    alloc: Global,
    listing: &Listing<'_>,
    kept: &'a [KeptMember],
) -> Result<Vec<&'a [u8]>, AllocError>
    ensures { (meaning : Meaning) → Pairwise HoldsValues meaning kept.now → IfOk result (λ names.
        names_of names.items ≡ map (word_under (codes "Package")) (filter
        (is_essential (names_of listing.now.without.now)
        (environment_of listing.now.environment.now).native) meaning)) }
{
    let mut names = Vec::new(alloc);
    for count in 0..kept.len() {
        push_if_essential(&mut names, listing, &kept[count])?;
    }
    Ok(names)
}

/// Appends the name of a package, of which this is kept, if it is essential.
fn push_if_essential<'a>(
    out: &mut Vec<&'a [u8]>,
    listing: &Listing<'_>,
    kept: &'a KeptMember,
) -> Result<(), AllocError>
    ensures { (values : ValueEntries ValueMeaning) → HoldsValues values kept.now → OnOk result
        (names_of out.new.items ≡ names_of out.old.items ++ cond
        (is_essential (names_of listing.now.without.now)
        (environment_of listing.now.environment.now).native values)
        (word_under (codes "Package") values ∷ []) []) }
{
    let texts = kept.texts.unmet.line_texts(VersionText::Canonical);
    if is_essential(listing, &texts, kept.is_marked) {
        out.push(texts.name)?;
    }
    Ok(())
}
