//! What is written of packages: which text of their versions, and whether the file of each.

ghost use Rattle.std.specs.Prelude.{◌≡◌};
ghost use Rattle.deb_index.specs.Files.{file_mark, file_place, file_shown};
ghost use Rattle.deb_index.specs.Reported.{found_of};
ghost use Rattle.deb_index.specs.ReportText.{spelled_version};
ghost use Rattle.deb_index.specs.Indexes.{counts_of, spellings_of};

use crate::answer::Found;
use crate::index::Index;
use deb_base::VersionText;
use itoa::Buffer;

/// The index of the packages that are written, which text of their versions, and whether the lines
/// of packages name their files if the index has more than one.
#[derive(Clone, Copy)]
pub(crate) struct Versions<'a> {
    pub(crate) index: &'a Index,
    pub(crate) chosen: VersionText,
    pub(crate) files: bool,
}

impl<'a> Versions<'a> {
    ghost use Rattle.deb_index.specs.ShownVersions.{shown_by};

    /// The text of the version of a package that was found.
    pub(crate) fn of(&self, found: &Found<'a>) -> &'a [u8]
        ensures { result.now ≡ (shown_by self.now).version (found_of found.now) }
    {
        match self.chosen {
            VersionText::Canonical => found.package.version(),
            VersionText::Spelled => spelled_version(self.index, found),
        }
    }

    /// The file that the line of a package that was found names.
    pub(crate) fn file(&self, found: &Found<'a>) -> Option<usize>
        ensures { result ≡ (shown_by self.now).file (found_of found.now) }
    {
        if self.files {
            file_shown(self.index, found.number)
        } else {
            None
        }
    }
}

/// The file of a package, if the index has more than one.
fn file_shown(index: &Index, number: u64) -> Option<usize>
    ensures { result ≡ file_shown (counts_of index.now) number }
{
    if index.files() > 1 {
        index.file_of(number)
    } else {
        None
    }
}

/// What is before the file that a line names.
pub(crate) fn file_mark<'a>(file: Option<usize>) -> &'a [u8]
    ensures { result.now ≡ file_mark file }
{
    match file {
        Some(_) => b" @",
        None => b"",
    }
}

/// The file that a line names, in decimal.
pub(crate) fn file_place(file: Option<usize>, buffer: &mut Buffer) -> &[u8]
    ensures { result.now ≡ file_place file }
{
    match file {
        Some(place) => buffer.format(place).as_bytes(),
        None => b"",
    }
}

/// The text by which the file of an index spells the version of a package that was found there.
fn spelled_version<'a>(index: &'a Index, found: &Found<'a>) -> &'a [u8]
    ensures { result.now ≡ spelled_version (spellings_of index.now) (found_of found.now) }
{
    match index.package(found.number) {
        Some(package) => package.spelled_version(),
        None => found.package.version(),
    }
}
