//! Laws of indexes. Each function does nothing; its contract is the law.

ghost use Rattle.deb_index.specs.Laws.{ListsOnce, FurtherFileJoins, CanonicalTextLists, CanonicalTextChangesNoAnswer, InstalledPackagesAreMeant, ReasonUnlessMet, ReasonsChangeNoAnswer};

/// A file lists at most one list of packages.
pub fn a_file_lists_one_list()
    ensures { ListsOnce }
{}

/// A file in which a further one follows two newlines, if it is accepted, lists the packages of the
/// first and then those of the further one: those of the index that reads both.
pub fn a_further_file_joins()
    ensures { FurtherFileJoins }
{}

/// The canonical text of a file lists the same packages as the file.
pub fn canonical_text_lists_the_same()
    ensures { CanonicalTextLists }
{}

/// A status file lists at most one list of installed packages, and its canonical text lists the
/// same.
pub fn canonical_text_lists_the_same_installed()
    ensures { InstalledPackagesAreMeant }
{}

/// The report on a relation, and whether the relation contains a wildcard, don't change if the
/// file, the relation or both are replaced by their canonical text.
pub fn canonical_text_changes_no_answer()
    ensures { CanonicalTextChangesNoAnswer }
{}

/// There is a reason exactly if a package doesn't meet an alternative.
pub fn a_reason_unless_met()
    ensures { ReasonUnlessMet }
{}

/// The answers of a report with reasons are those of the report.
pub fn reasons_change_no_answer()
    ensures { ReasonsChangeNoAnswer }
{}
