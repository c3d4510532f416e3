//! A file that a job reads, or nothing to read.

ghost use Rattle.std.proofs.Common.{rules};
ghost use Rattle.debctl_commands.specs.Opening.{failures_of, left_of};
ghost use Rattle.debctl_commands.specs.declared.file_or_nothing.FileOrNothing.TheVariants.{File};
ghost use Rattle.debctl_commands.specs.declared.file_or_nothing.FileOrNothing.TheVariants.{Nothing};

use deb_base::{Failed, Source};

/// A file of a job, or nothing where the job has no such file.
#[derive(Drop)]
pub enum FileOrNothing<R> {
    /// An open file.
    File(R),
    /// No file. It is read as an empty one.
    Nothing,
}

impl<R: Source> Source for FileOrNothing<R> {
    ghost left = { left_of R.left };

    ghost failures = { failures_of R.failures };

    fn read(&mut self, buffer: &mut [u8]) -> Result<usize, Failed> {
        match self {
            FileOrNothing::File(reader) => reader.read(buffer),
            FileOrNothing::Nothing => Ok(0),
        }
    }

    ghost counts_to_last = { elim [
      | File reader ↦ R.counts_to_last reader
      | Nothing ↦ Prim.search rules
    ] };
}
