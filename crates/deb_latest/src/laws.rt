//! Laws of the latest versions. Each function does nothing; its contract is the law.

ghost use Rattle.deb_latest.specs.Laws.{CanonicalTextHasTheSame, EachPackageHasOneWinner, KeysTellPackages, WinnersAreLatest, WinnersOfWinners, WinnersWin};
ghost use Rattle.deb_latest.specs.FileLaws.{BothPassesAgree, FaultsLeaveAPrefix, FilesAreWritten, FilesFollow, FilesHaveTheirParagraphs, LatestTextIsAccepted, LatestTextIsItsOwn, NoFileIsWritten, PartsAreWritten};

/// Of each package that has a considered paragraph, exactly one wins.
pub fn each_package_has_one_winner()
    ensures { EachPackageHasOneWinner }
{}

/// What wins is one of the paragraphs, is considered, and no considered paragraph of its package
/// has a later version.
pub fn winners_are_latest()
    ensures { WinnersAreLatest }
{}

/// Among those that win all win: asking again changes nothing.
pub fn winners_win()
    ensures { WinnersWin }
{}

/// Those that win of two lists are those that win among the winners of each.
pub fn winners_of_winners()
    ensures { WinnersOfWinners }
{}

/// What tells packages from others by name and architecture is equal exactly if both are.
pub fn keys_tell_packages()
    ensures { KeysTellPackages }
{}

/// Files have as many paragraphs as they mean.
pub fn files_have_their_paragraphs()
    ensures { FilesHaveTheirParagraphs }
{}

/// What files mean if one more file follows them.
pub fn files_follow()
    ensures { FilesFollow }
{}

/// Nothing is written before the first file, and each file adds what is chosen of it.
pub fn files_are_written()
    ensures none { NoFileIsWritten }
    ensures next { FilesAreWritten }
{}

/// After a fault a prefix of what is written of the file was written, and so of what is written of
/// all files.
pub fn faults_leave_a_prefix()
    ensures read { PartsAreWritten }
    ensures files { FaultsLeaveAPrefix }
{}

/// If the files are read again unchanged, their text is written: one paragraph for each number.
pub fn both_passes_agree()
    ensures { BothPassesAgree }
{}

/// What is written of accepted files is accepted, unless it or its canonical text is too long, and
/// means what the paragraphs with the latest versions mean, in their order.
pub fn latest_text_is_accepted()
    ensures { LatestTextIsAccepted }
{}

/// Asking again changes no byte: of what is written for files that are accepted all is written.
pub fn latest_text_is_its_own()
    ensures { LatestTextIsItsOwn }
{}

/// Which paragraphs win doesn't change if a file is replaced by its canonical text.
pub fn canonical_text_has_the_same()
    ensures { CanonicalTextHasTheSame }
{}
