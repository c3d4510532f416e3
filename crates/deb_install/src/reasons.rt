//! The lines of packages by what a search in every reading found: with reasons, if they are asked.

ghost use Rattle.std.specs.Prelude.{◌≡◌, IfOk, IfSome};
ghost use Rattle.deb_control.specs.Documents.{Meaning};
ghost use Rattle.deb_control.specs.Pairs.{Pairwise};
ghost use Rattle.deb_index.specs.Indexes.{packages_of};
ghost use Rattle.deb_index.specs.Listing.{Lists};
ghost use Rattle.deb_relation.specs.Environments.{environment_of};
ghost use Rattle.deb_relation.specs.Views.{names_of};
ghost use Rattle.deb_install.specs.Answers.{names_asked, names_in};
ghost use Rattle.deb_install.specs.Explaining.{HasLines, HasReasons, HoldsFor};
ghost use Rattle.deb_install.specs.Installing.{asks_by};
ghost use Rattle.deb_install.specs.Keeping.{HoldsValues};
ghost use Rattle.deb_install.specs.Universes.{IsUniverseOf, setting_of, terms_in};
ghost use Rattle.deb_install.specs.declared.readings.Readings.TheVariants.{One};

use crate::answer::lines_of;
use crate::essential_names::essential_texts;
use crate::explaining::{Explaining, explained_lines};
use crate::kept::KeptMember;
use crate::readings::Readings;
use crate::universe::{Listing, universe_of};
use crate::verdicts::{InstallRequest, is_uninstallable, verdicts_if};
use deb_index::Index;
use deb_relation::Env;
use deb_solve::{Universe, Verdict, solve};
use std::alloc::{AllocError, Global};

/// Returns the lines of the packages that are asked, by verdicts in every reading.
pub(crate) fn lines_by(
    alloc: Global,
    index: &Index,
    environment: &Env,
    request: &InstallRequest<'_>,
    kept: &[KeptMember],
    every: &[Verdict],
) -> Result<Vec<u8>, AllocError>
    ensures { (meaning : Meaning) → Pairwise HoldsValues meaning kept.now
        → Pairwise Lists meaning (packages_of index.now) → IfOk result (λ text. HasLines
        (asks_by request.now (environment_of environment.now)) (packages_of index.now) meaning
        every.now text.items) }
{
    let listing = Listing {
        index,
        environment,
        strength: request.strength,
        essential: request.essential,
        without: request.without,
        readings: Readings::One,
    };
    if request.reasons {
        return with_reasons(alloc, &listing, request, kept, every);
    }
    let one = verdicts_if(alloc, &listing, kept, request.budget, every)?;
    lines_of(alloc, index, &request.asked(), every, &one)
}

/// Returns these lines with reasons.
fn with_reasons(
    alloc: Global,
    listing: &Listing<'_>,
    request: &InstallRequest<'_>,
    kept: &[KeptMember],
    every: &[Verdict],
) -> Result<Vec<u8>, AllocError>
    ensures { (meaning : Meaning) → Pairwise HoldsValues meaning kept.now
        → Pairwise Lists meaning (packages_of listing.now.index.now)
        → listing.now.readings ≡ One → IfOk result (λ text. HasReasons (terms_in listing.now)
        (environment_of listing.now.environment.now) (packages_of listing.now.index.now) meaning
        (names_asked (names_of request.now.names.now) (names_of request.now.without.now))
        every.now text.items) }
{
    match universe_if(alloc, listing, kept, every)? {
        Some(universe) => {
            let essential = essential_texts(alloc, listing, kept)?;
            let explaining = Explaining {
                listing,
                kept,
                essential: &essential,
                universe: &universe,
                names: request.asked(),
                budget: request.budget,
            };
            explained_by(alloc, &explaining, every)
        }
        None => lines_of(alloc, listing.index, &request.asked(), every, &[]),
    }
}

/// Returns the universe of a listing, if a package isn't installable by some verdicts; none also if
/// it would be too large.
fn universe_if(
    alloc: Global,
    listing: &Listing<'_>,
    kept: &[KeptMember],
    verdicts: &[Verdict],
) -> Result<Option<Universe>, AllocError>
    ensures { (meaning : Meaning) → Pairwise HoldsValues meaning kept.now → IfOk result (λ found.
        IfSome found (IsUniverseOf (setting_of listing.now meaning))) }
{
    if verdicts.iter().any(is_uninstallable) {
        universe_of(alloc, listing, kept)
    } else {
        Ok(None)
    }
}

/// Returns these lines by what packages are explained by.
fn explained_by(
    alloc: Global,
    explaining: &Explaining<'_>,
    every: &[Verdict],
) -> Result<Vec<u8>, AllocError>
    ensures { (meaning : Meaning) → HoldsFor meaning explaining.now
        → Pairwise Lists meaning (packages_of explaining.now.listing.now.index.now)
        → explaining.now.listing.now.readings ≡ One
        → IsUniverseOf (setting_of explaining.now.listing.now meaning) explaining.now.universe.now
        → IfOk result (λ text. HasReasons (terms_in explaining.now.listing.now)
        (environment_of explaining.now.listing.now.environment.now)
        (packages_of explaining.now.listing.now.index.now) meaning
        (names_in explaining.now.names) every.now text.items) }
{
    let one = solve(alloc, explaining.universe, explaining.budget)?;
    explained_lines(alloc, explaining, every, &one)
}
