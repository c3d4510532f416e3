//! The job on two files: `same`.

ghost use Rattle.std.specs.Prelude.{◌≡◌, ◌<◌};
ghost use Rattle.debctl_commands.specs.JobDevices.{reader_of, writer_of};
ghost use Rattle.debctl_commands.specs.Promises.{Ends, sided, yes_or_no};
ghost use Rattle.debctl_commands.specs.SameJob.{ComparesFiles, PutsAnswer, same_line};
ghost use Rattle.debctl_commands.specs.Taking.{TakesFile};

use crate::reporting::report_side;
use deb_base::{Sink, Source, put_all};
use deb_control::{Side, SideFault, same};
use deb_field::Doc;
use std::alloc::Global;

/// Writes to `out` whether two files mean the same as documents of a kind, and returns the status.
///
/// - 0 and 1: both files are accepted. They mean the same, and `same` with a newline was written;
///   or they don't, and `different` with a newline was. Nothing was written to `err`.
/// - 2: a file is refused. Nothing was written to `out`, and on `err` `first: ` or `second: ` and
///   the refusal's line. Where both are, it is the first one's.
/// - 3: out of memory, a read failed, or a write failed. `err` has the fault's line; if a
///   write to `err` failed, a prefix of its line.
pub(crate) fn run_same<R: Source, S: Source, W: Sink, E: Sink>(
    alloc: Global,
    doc: Doc,
    first: &mut R,
    second: &mut S,
    out: &mut W,
    err: &mut E,
) -> u8
    ensures reads_at_most { TakesFile (R.left first.old) (R.left first.new) }
    ensures second_reads_at_most { TakesFile (S.left second.old) (S.left second.new) }

    // Where a call of a device failed, the status is 3.
    ensures status_3_if_read_failed { R.failures first.old < R.failures first.new → result ≡ 3 }
    ensures status_3_if_second_read_failed { S.failures second.old < S.failures second.new → result
        ≡ 3 }
    ensures status_3_if_write_failed { W.failures out.old < W.failures out.new → result ≡ 3 }

    // Whatever the status: there is an answer, and that is reported.
    ensures reports_answer { Ends (sided yes_or_no (ComparesFiles doc))
        (reader_of (R.left first.old) (R.failures first.old) (R.failures first.new))
        (reader_of (S.left second.old) (S.failures second.old) (S.failures second.new))
        (writer_of W.held W.failures out.old out.new)
        (writer_of E.held E.failures err.old err.new) result }
{
    match compare_files(alloc, doc, first, second, out) {
        Ok(true) => 0,
        Ok(false) => 1,
        Err(side_fault) => report_side(side_fault, err),
    }
}

/// Writes the line that says whether two files mean the same, and returns whether they do. A failed
/// write counts as a fault of the second file.
fn compare_files<R: Source, S: Source, W: Sink>(
    alloc: Global,
    doc: Doc,
    first: &mut R,
    second: &mut S,
    out: &mut W,
) -> Result<bool, SideFault>
    ensures compares { ComparesFiles doc
        (reader_of (R.left first.old) (R.failures first.old) (R.failures first.new))
        (reader_of (S.left second.old) (S.failures second.old) (S.failures second.new))
        (writer_of W.held W.failures out.old out.new) result }
    ensures reads_at_most { TakesFile (R.left first.old) (R.left first.new) }
    ensures second_reads_at_most { TakesFile (S.left second.old) (S.left second.new) }
{
    match same(alloc, doc, first, second) {
        Ok(is_same) => put_answer(is_same, out),
        Err(side_fault) => Err(side_fault),
    }
}

/// Writes the line of an answer, and returns the answer.
fn put_answer<W: Sink>(is_same: bool, out: &mut W) -> Result<bool, SideFault>
    ensures { PutsAnswer (writer_of W.held W.failures out.old out.new) is_same result }
{
    match put_all(out, same_line(is_same)) {
        Ok(()) => Ok(is_same),
        Err(fault) => Err(SideFault {
            side: Side::Second,
            fault,
        }),
    }
}

/// Returns the line of an answer.
fn same_line(is_same: bool) -> &'static [u8]
    ensures { result.now ≡ same_line is_same }
{
    if is_same { b"same\n" } else { b"different\n" }
}
