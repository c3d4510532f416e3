//! The job on a file of versions: `sort`.

ghost use Rattle.std.specs.Prelude.{◌≡◌, ◌<◌, Result, ⊤};
ghost use Rattle.deb_base.specs.declared.fault.Fault.{Fault};
ghost use Rattle.deb_sort.specs.Files.{SortsFile};
ghost use Rattle.debctl_commands.specs.Taking.{TakesFile};
ghost use Rattle.debctl_commands.specs.Reporting.{done_status, Reports};

use crate::reporting::report_fault;
use deb_base::{Sink, Source};
use deb_sort::sort;
use std::alloc::Global;

/// Writes the lines of a file, each a version, in Debian's order or in reverse on `out`, and
/// answers the status.
///
/// - 0: all lines are versions. They were written, and nothing to `err`.
/// - 2: the file is refused. Nothing was written to `out`, and the refusal's line on `err`.
/// - 3: out of memory, a read failed, or a write failed. `err` has the fault's line; if a
///   write to `err` failed, a prefix of its line.
pub(crate) fn run_sort<R: Source, W: Sink, E: Sink>(
    alloc: Global,
    reverse: bool,
    first: &mut R,
    out: &mut W,
    err: &mut E,
) -> u8
    ensures reads_at_most { TakesFile (R.left first.old) (R.left first.new) }

    // Where a call of a device failed, the status is 3.
    ensures status_3_if_read_failed { R.failures first.old < R.failures first.new → result ≡ 3 }
    ensures status_3_if_write_failed { W.failures out.old < W.failures out.new → result ≡ 3 }

    // Whatever the status: there is an answer, and that is reported.
    ensures reports_answer { (answer : Result ⊤ Fault)
        × SortsFile reverse (R.left first.old) (R.failures first.old)
        (R.failures first.new) W.held W.failures out.old out.new answer
        × Reports done_status E.held E.failures err.old err.new answer result }
{
    match sort(alloc, first, reverse, out) {
        Ok(()) => 0,
        Err(fault) => report_fault(&fault, err),
    }
}
