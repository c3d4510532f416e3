//! Reads an index of several files, which are opened by their paths.

ghost use Rattle.std.specs.Prelude.{◌≡◌, map, string_bytes};
ghost use Rattle.debctl_commands.specs.IndexFiles.{AddsIndex, AnswersIndexes};
ghost use Rattle.debctl_commands.specs.OpenedFiles.{InOrder, ReadsMore, opener};

use crate::file_fault::PlaceFault;
use crate::opens::Opens;
use deb_base::Fault;
use deb_index::{Index, Members, NoKeeper};
use std::alloc::Global;

/// Reads the files of some paths as one index, in order. Each is opened once.
///
/// # Errors
///
/// The first fault, with the place of its file: out of memory, the file can't be opened or read, or
/// it is refused. No file is opened after it.
pub(crate) fn read_indexes<F: Opens>(
    alloc: Global,
    members: Members,
    paths: &[String],
    files: &mut F,
) -> Result<Index, PlaceFault>
    ensures answers { AnswersIndexes
        (opener F.opens F.text F.failures F.Reader.left F.Reader.failures) members
        (map string_bytes paths.now) files.old result files.new }
    ensures unchanged { F.text files.new ≡ F.text files.old }
{
    match Index::new(alloc) {
        Ok(index) => read_into(alloc, index, members, paths, files),
        Err(_) => Err(PlaceFault {
            place: 1,
            fault: Fault::Memory,
        }),
    }
}

/// Reads the files of some paths into an index, whose packages theirs follow.
fn read_into<F: Opens>(
    alloc: Global,
    index: Index,
    members: Members,
    paths: &[String],
    files: &mut F,
) -> Result<Index, PlaceFault>
    ensures { InOrder (ReadsMore (opener F.opens F.text F.failures F.Reader.left F.Reader.failures)
        (AddsIndex members)) 1 (map string_bytes paths.now) files.old index result files.new }
{
    let mut index = index;
    let mut place = 0;
    for path in paths {
        place += 1;
        match read_one(alloc, index, members, path.as_bytes(), files) {
            Ok(more) => index = more,
            Err(fault) => return Err(PlaceFault { place, fault }),
        }
    }
    Ok(index)
}

/// Reads the file of a path into an index, whose packages those of the file follow.
fn read_one<F: Opens>(
    alloc: Global,
    index: Index,
    members: Members,
    path: &[u8],
    files: &mut F,
) -> Result<Index, Fault>
    ensures { ReadsMore (opener F.opens F.text F.failures F.Reader.left F.Reader.failures)
        (AddsIndex members) path.now files.old index result files.new }
{
    match files.open(path) {
        Ok(mut reader) => index.read_more_members(alloc, &mut reader, members, &mut NoKeeper),
        Err(_) => Err(Fault::Read),
    }
}
