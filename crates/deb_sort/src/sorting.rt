//! Sorts the lines of a file: from a source to a sink. `cut` reads the versions.

ghost use Rattle.std.specs.Prelude.{◌≡◌, ℕ, List, Some, OnOk, IfErr};
ghost use Rattle.deb_base.specs.Bodies.{file_limit};
ghost use Rattle.deb_base.specs.Devices.{write_failures_after, Puts};
ghost use Rattle.deb_base.specs.Reading.{TakesNoMore};
ghost use Rattle.deb_syntax.specs.Lines.{with_newlines};
ghost use Rattle.deb_sort.specs.Files.{SortsFile};
ghost use Rattle.deb_sort.specs.Sorting.{Sorts};
ghost use Rattle.deb_sort.specs.VersionLines.{run_lines, lines_of_runs};

use crate::equal_lines::{EqualLines, equal_lines};
use deb_base::{FILE_LIMIT, Fault, Sink, Source, put_pieces, read_text};
use std::alloc::{AllocError, Global};

/// Writes the lines of a file in Debian's order of their versions, or in reverse order. Each line
/// keeps its spelling and ends with a newline, even if the last line of the file had none. Lines of
/// equal versions keep their order.
///
/// Nothing is written before the whole file has been read and has no refusal. At most 4,295,032,831
/// bytes are read from the source: a file of the most bytes, and one piece.
///
/// # Errors
///
/// - `Fault::Refused`: `FileTooLong` at the line that is cut off, or else `BadVersion` at the first
///   line that isn't a version. An empty line isn't one.
/// - `Fault::Memory`: a growth of memory was refused.
/// - `Fault::Read`: a read failed in this call.
/// - `Fault::Write`: a write failed in this call. A prefix of the sorted lines was written.
pub fn sort<R: Source, W: Sink>(
    alloc: Global,
    source: &mut R,
    reverse: bool,
    out: &mut W,
) -> Result<(), Fault>
    ensures sorts { SortsFile reverse (R.left source.old) (R.failures source.old)
        (R.failures source.new) W.held W.failures out.old out.new result }
    ensures reads_at_most { (text : List ℕ) → R.left source.old ≡ Some text
        → TakesNoMore text file_limit (R.left source.new) }
{
    let text = read_text(alloc, source, FILE_LIMIT)?;
    let mut runs = equal_lines(alloc, text.as_slice())?;
    sort_runs(&mut runs, reverse)?;
    write_runs(out, runs.as_slice())
}

/// Puts runs in the order of their versions.
fn sort_runs(runs: &mut Vec<EqualLines<'_>>, reverse: bool) -> Result<(), AllocError>
    ensures { OnOk result
        (Sorts reverse (lines_of_runs runs.old.items) (lines_of_runs runs.new.items)) }
{
    if reverse {
        runs.sort_by(|run, other| other.line.version().cmp(&run.line.version()))
    } else {
        runs.sort_by(|run, other| run.line.version().cmp(&other.line.version()))
    }
}

/// Writes the lines of runs, each with a newline after it.
fn write_runs<W: Sink>(out: &mut W, runs: &[EqualLines<'_>]) -> Result<(), Fault>
    ensures written { Puts (W.held out.old) (W.held out.new) result
        (with_newlines (lines_of_runs runs.now)) }
    ensures fault { IfErr result (λ fault. fault ≡ Fault.Write) }
    ensures counts_failure { W.failures out.new ≡ write_failures_after (W.failures out.old) result }
{
    for run in runs {
        write_run(out, run)?;
    }
    Ok(())
}

/// Writes the lines of one run, each with a newline after it.
fn write_run<W: Sink>(out: &mut W, run: &EqualLines<'_>) -> Result<(), Fault>
    ensures written { Puts (W.held out.old) (W.held out.new) result
        (with_newlines (run_lines run.now)) }
    ensures fault { IfErr result (λ fault. fault ≡ Fault.Write) }
    ensures counts_failure { W.failures out.new ≡ write_failures_after (W.failures out.old) result }
{
    for _ in 0..run.count {
        put_pieces(out, &[run.line.text(), b"\n"])?;
    }
    Ok(())
}
