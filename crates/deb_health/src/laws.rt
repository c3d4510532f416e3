//! Laws of the lines of a set. Each function does nothing; its contract is the law.

ghost use Rattle.deb_health.specs.Changes.{AddingRemovesUnmetAtMost, RearrangingChangesNoReason};
ghost use Rattle.deb_health.specs.Laws.{BeginsAsUnmet, CanonicalTextChangesNoLine, NoLineIfHealthy};

/// No line is written exactly if the set is healthy and no package of a status file is neither
/// installed nor removed. A set is healthy if each group that a package needs is met or ignored,
/// none excludes another, and those of one name can be installed together.
pub fn no_line_if_healthy()
    ensures { NoLineIfHealthy }
{}

/// The lines of a package begin with those that `deb_unmet::unmet_in_itself` writes of it.
pub fn begins_as_unmet()
    ensures { BeginsAsUnmet }
{}

/// The lines don't change if the file is replaced by its canonical text.
pub fn canonical_text_changes_no_line()
    ensures { CanonicalTextChangesNoLine }
{}

/// Packages in another order have the same lines, but for their order and numbers: the same groups
/// are unmet, an alternative excludes the same packages, and a package rules out the same ones of
/// its name. The set is healthy exactly if it was.
pub fn a_rearranged_set_has_the_same_lines()
    ensures { RearrangingChangesNoReason }
{}

/// A package that is added removes lines about unmet groups at most, if it excludes none and none
/// excludes it: its own lines apart, no line is new. A line that says `unsure` stays or goes, and
/// one that says `unmet` may also say `unsure` from then on. A healthy set stays healthy exactly if
/// the package fits: it excludes none, none excludes it, and its needs are met.
pub fn an_added_package_removes_unmet_lines_at_most()
    ensures { AddingRemovesUnmetAtMost }
{}
