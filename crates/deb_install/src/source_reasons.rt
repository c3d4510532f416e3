//! The lines of source packages by what a search in every reading found: with reasons, if they are
//! asked.

ghost use Rattle.std.specs.Prelude.{◌≡◌, true, IfOk, IfSome};
ghost use Rattle.deb_control.specs.Documents.{Meaning};
ghost use Rattle.deb_control.specs.Pairs.{Pairwise};
ghost use Rattle.deb_index.specs.Indexes.{packages_of};
ghost use Rattle.deb_index.specs.Listing.{Lists};
ghost use Rattle.deb_relation.specs.Environments.{environment_of};
ghost use Rattle.deb_install.specs.Keeping.{HoldsValues};
ghost use Rattle.deb_install.specs.KeptSources.{HoldsSource};
ghost use Rattle.deb_install.specs.SourceExplaining.{HasSourceReasons, HoldsForSources, setting_for, universe_for};
ghost use Rattle.deb_install.specs.SourceRows.{IsUniverseWith};
ghost use Rattle.deb_install.specs.Universes.{setting_of, terms_in};
ghost use Rattle.deb_install.specs.declared.readings.Readings.TheVariants.{One};
ghost use Rattle.deb_install.specs.declared.source_kind.SourceKind.{SourceKind};

use crate::answer::Names;
use crate::builds::{BuildRequest, last_verdicts, verdicts_if};
use crate::essential_names::essential_texts;
use crate::explaining::Explaining;
use crate::kept::KeptMember;
use crate::kept_source::KeptSource;
use crate::source_explaining::{SourceExplaining, explained_sources};
use crate::source_lines::lines_of_sources;
use crate::universe::{Listing, universe_with};
use crate::verdicts::is_uninstallable;
use deb_solve::{Budget, Universe, Verdict};
use std::alloc::{AllocError, Global};

/// Returns the lines of source packages, by verdicts in every reading. The listing is in one.
pub(crate) fn source_lines_by(
    alloc: Global,
    listing: &Listing<'_>,
    kept: &[KeptMember],
    sources: &[KeptSource],
    request: &BuildRequest<'_>,
    every: &[Verdict],
) -> Result<Vec<u8>, AllocError>
    ensures { (kind : SourceKind) (meaning others : Meaning) → Pairwise HoldsValues meaning kept.now
        → Pairwise Lists meaning (packages_of listing.now.index.now)
        → Pairwise (HoldsSource kind) others sources.now → listing.now.readings ≡ One
        → IfOk result (λ text. HasSourceReasons request.now.reasons kind (terms_in listing.now)
        (environment_of listing.now.environment.now) (packages_of listing.now.index.now) meaning
        others every.now text.items) }
{
    if request.reasons {
        return with_reasons(alloc, listing, kept, sources, request.budget, every);
    }
    let one = verdicts_if(alloc, listing, kept, sources, request.budget, every)?;
    lines_of_sources(alloc, sources, every, &one)
}

/// Returns these lines with reasons.
fn with_reasons(
    alloc: Global,
    listing: &Listing<'_>,
    kept: &[KeptMember],
    sources: &[KeptSource],
    budget: Budget,
    every: &[Verdict],
) -> Result<Vec<u8>, AllocError>
    ensures { (kind : SourceKind) (meaning others : Meaning) → Pairwise HoldsValues meaning kept.now
        → Pairwise Lists meaning (packages_of listing.now.index.now)
        → Pairwise (HoldsSource kind) others sources.now → listing.now.readings ≡ One
        → IfOk result (λ text. HasSourceReasons true kind (terms_in listing.now)
        (environment_of listing.now.environment.now) (packages_of listing.now.index.now) meaning
        others every.now text.items) }
{
    match universe_if(alloc, listing, kept, sources, every)? {
        Some(universe) => {
            let essential = essential_texts(alloc, listing, kept)?;
            let packages = Explaining {
                listing,
                kept,
                essential: &essential,
                universe: &universe,
                names: Names {
                    asked: &[],
                    without: &[],
                },
                budget,
            };
            let packages = &packages;
            explained_by(alloc, &SourceExplaining { packages, sources }, every)
        }
        None => lines_of_sources(alloc, sources, every, &[]),
    }
}

/// Returns the universe of a listing with source packages, if one of these can't be built by some
/// verdicts; none also if it would be too large.
fn universe_if(
    alloc: Global,
    listing: &Listing<'_>,
    kept: &[KeptMember],
    sources: &[KeptSource],
    verdicts: &[Verdict],
) -> Result<Option<Universe>, AllocError>
    ensures { (kind : SourceKind) (meaning others : Meaning) → Pairwise HoldsValues meaning kept.now
        → Pairwise (HoldsSource kind) others sources.now → IfOk result (λ found. IfSome found
        (IsUniverseWith (setting_of listing.now meaning) others)) }
{
    if verdicts.iter().any(is_uninstallable) {
        universe_with(alloc, listing, kept, sources)
    } else {
        Ok(None)
    }
}

/// Returns these lines by what source packages are explained by.
fn explained_by(
    alloc: Global,
    explaining: &SourceExplaining<'_>,
    every: &[Verdict],
) -> Result<Vec<u8>, AllocError>
    ensures { (kind : SourceKind) (meaning others : Meaning)
        → HoldsForSources kind meaning others explaining.now
        → Pairwise Lists meaning
        (packages_of explaining.now.packages.now.listing.now.index.now)
        → explaining.now.packages.now.listing.now.readings ≡ One
        → IsUniverseWith (setting_for explaining.now meaning) others (universe_for explaining.now)
        → IfOk result (λ text. HasSourceReasons true kind
        (terms_in explaining.now.packages.now.listing.now)
        (environment_of explaining.now.packages.now.listing.now.environment.now)
        (packages_of explaining.now.packages.now.listing.now.index.now) meaning others every.now
        text.items) }
{
    let packages = explaining.packages;
    let count = explaining.sources.len();
    let one = last_verdicts(alloc, packages.universe, packages.budget, count)?;
    explained_sources(alloc, explaining, every, &one)
}
