//! Laws of the lines of a file. Each function does nothing; its contract is the law.

ghost use Rattle.deb_unmet.specs.Laws.{AddedPackagesAddNoLine, CanonicalTextChangesNoLine, DecidedAsQueried, LinesAreSound, LinesSayReadings, LinesWithOld, NoLineFromCleanOld, QueryReadsNames, ReadingsDecide, SpelledVersionsAreEqual};

/// The lines of a file with canonical versions don't change if the indexes, an old one too, the
/// file or all of them are replaced by their canonical text, whichever names are left out.
pub fn canonical_text_changes_no_line()
    ensures { CanonicalTextChangesNoLine }
{}

/// Packages that are added, before the others or after them, add no line: a group without one has
/// none over more packages.
pub fn added_packages_add_no_line()
    ensures { AddedPackagesAddNoLine }
{}

/// With an old index a group has a line exactly if it is unmet over the packages in some reading,
/// and met or ignored over the old ones in every reading. It is the line that it has without the
/// old index.
pub fn lines_with_old()
    ensures { LinesWithOld }
{}

/// A group that has no line over the old index, and none with it, has none without it.
pub fn no_line_from_clean_old()
    ensures { NoLineFromCleanOld }
{}

/// With spelled versions, the lines of an accepted file differ from those with canonical versions
/// in the version alone; it is an equal one, whose canonical text is the word of the canonical
/// line.
pub fn spelled_versions_are_equal()
    ensures { SpelledVersionsAreEqual }
{}

/// A group can be unmet exactly if some reading of its architecture lists makes it unmet, and it
/// can be met or ignored exactly if some reading does.
pub fn readings_decide()
    ensures { ReadingsDecide }
{}

/// A group without a line is unmet in no reading; one whose line says `unmet` is unmet in each, and
/// one whose line says `unsure` is unmet in one reading and not in another.
pub fn lines_say_readings()
    ensures { LinesSayReadings }
{}

/// Whatever architecture wildcards and other names with a hyphen mean, a group without a line is
/// met or ignored, and one whose line says `unmet` is unmet.
pub fn lines_are_sound()
    ensures { LinesAreSound }
{}

/// The verdict of `query` is that of the meaning in which a name in a list holds the target only if
/// it is the target's own.
pub fn query_reads_names()
    ensures { QueryReadsNames }
{}

/// If no architecture list of a group may be read in two ways, the group has a line exactly if
/// `query` reports it as unmet, and the line says `unmet`.
pub fn decided_as_queried()
    ensures { DecidedAsQueried }
{}
