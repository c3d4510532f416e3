//! Laws of installable packages. Each function does nothing; its contract is the law.

ghost use Rattle.deb_install.specs.Laws.{AddingKeepsInstallable, BuildRowsDecide, CanonicalTextChangesNothing, EveryReadingIsOne, ReadingsAreSound, RearrangingKeepsInstallable, ReasonsRuleOut, RowsDecide, SourceReasonsRuleOut, StoredRowsDecide, TermsOnlyRestrict, UnmetIsNotInstallable};

/// A set with a listed package is healthy, and has the essential packages and none that is left
/// out, exactly if, by the rows of numbers of its packages, each row that one of them needs has a
/// number of the set, and none excludes a number of the set. A package is installable exactly if
/// its number is in such a set.
pub fn rows_decide()
    ensures { RowsDecide }
{}

/// The rows decide as well if the numbers of each are stored in any order, and exclusions in both
/// directions.
pub fn stored_rows_decide()
    ensures { StoredRowsDecide }
{}

/// A source package can be built by a healthy set exactly if a set that is healthy by rows has a
/// number of each row of its build dependencies, and none that its Build-Conflicts exclude.
pub fn build_rows_decide()
    ensures { BuildRowsDecide }
{}

/// A package that is installable in every reading of architecture lists is installable in one.
pub fn every_reading_is_one()
    ensures { EveryReadingIsOne }
{}

/// A package that is installable with essential packages, or without packages that are left out, is
/// installable without these conditions. Leaving out more names makes no other package installable,
/// if the essential ones aren't asked.
pub fn terms_only_restrict()
    ensures { TermsOnlyRestrict }
{}

/// Whatever the architecture wildcards and other names with a hyphen mean, a set that is healthy in
/// every reading is healthy, and one that is healthy is healthy in one reading.
pub fn readings_are_sound()
    ensures { ReadingsAreSound }
{}

/// A package with a line of `deb_unmet::unmet_in_itself` isn't installable in every reading; one
/// whose line says `unmet` is installable in none.
pub fn unmet_is_not_installable()
    ensures { UnmetIsNotInstallable }
{}

/// A package isn't installable if true reasons rule it out: needs and exclusions of packages, so
/// that no set of listed packages that respects them contains the package.
pub fn reasons_rule_out()
    ensures { ReasonsRuleOut }
{}

/// A source package can't be built if true reasons rule it out: what it and packages need and
/// exclude, so that no set of listed packages respects them.
pub fn source_reasons_rule_out()
    ensures { SourceReasonsRuleOut }
{}

/// A package that is installable stays installable whatever package is added to the index, unless
/// that one is essential and these are asked.
pub fn adding_keeps_installable()
    ensures { AddingKeepsInstallable }
{}

/// A package that is installable still is if the packages are in another order.
pub fn rearranging_keeps_installable()
    ensures { RearrangingKeepsInstallable }
{}

/// The same packages are installable if the index is replaced by its canonical text.
pub fn canonical_text_changes_nothing()
    ensures { CanonicalTextChangesNothing }
{}
