//! Laws of what changed between two files. Each function does nothing; its contract is the law.

ghost use Rattle.deb_diff.specs.Laws.{CanonicalTextChangesNoLine, NoLineIfPermuted, SpelledVersionsAreEqual, SwappedFilesSwapLines};

/// There is no line exactly if the two files hold the same paragraphs in some order.
pub fn no_line_if_permuted()
    ensures { NoLineIfPermuted }
{}

/// With the two files swapped, the removed and the added paragraphs are swapped.
pub fn swapped_files_swap_lines()
    ensures { SwappedFilesSwapLines }
{}

/// The lines with canonical versions don't change if either file or both are replaced by their
/// canonical text.
pub fn canonical_text_changes_no_line()
    ensures { CanonicalTextChangesNoLine }
{}

/// The text by which an accepted file spells the version of a paragraph is a version, and its
/// canonical text is the canonical version. Of a paragraph of a status file that has no version
/// both texts are empty.
pub fn spelled_versions_are_equal()
    ensures { SpelledVersionsAreEqual }
{}
