//! The jobs on one file: `check` and `normalise`.

ghost use Rattle.std.specs.Prelude.{◌≡◌, ◌<◌, ℕ, Result, ⊤, IfErr};
ghost use Rattle.deb_base.specs.Devices.{write_failures_after, Puts};
ghost use Rattle.deb_base.specs.declared.fault.Fault.{Fault};
ghost use Rattle.debctl_commands.specs.DocumentJobs.{ok_line, ChecksFile, NormalisesFile};
ghost use Rattle.debctl_commands.specs.Taking.{TakesFile};
ghost use Rattle.debctl_commands.specs.Reporting.{done_status, Reports};

use crate::reporting::report_fault;
use deb_base::{Fault, Sink, Source, put_pieces};
use deb_control::{check, normalise};
use deb_field::Doc;
use itoa::Buffer;
use std::alloc::Global;

/// Writes to `out` that a file is accepted as a document of a kind, and returns the status.
///
/// - 0: the file is accepted. `ok N` with a newline was written, for its N paragraphs, and nothing
///   on `err`.
/// - 2: the file is refused. Nothing was written to `out`, and the refusal's line on `err`.
/// - 3: out of memory, a read failed, or a write failed. `err` has the fault's line; if a
///   write to `err` failed, a prefix of its line.
pub(crate) fn run_check<R: Source, W: Sink, E: Sink>(
    alloc: Global,
    doc: Doc,
    first: &mut R,
    out: &mut W,
    err: &mut E,
) -> u8
    ensures reads_at_most { TakesFile (R.left first.old) (R.left first.new) }

    // Where a call of a device failed, the status is 3.
    ensures status_3_if_read_failed { R.failures first.old < R.failures first.new → result ≡ 3 }
    ensures status_3_if_write_failed { W.failures out.old < W.failures out.new → result ≡ 3 }

    // Whatever the status: there is an answer, and that is reported.
    ensures reports_answer { (answer : Result ⊤ Fault)
        × ChecksFile doc (R.left first.old) (R.failures first.old)
        (R.failures first.new) W.held W.failures out.old out.new answer
        × Reports done_status E.held E.failures err.old err.new answer result }
{
    match write_verdict(alloc, doc, first, out) {
        Ok(()) => 0,
        Err(fault) => report_fault(&fault, err),
    }
}

/// Writes the canonical text of a file as a document of a kind on `out`, and returns the status.
///
/// - 0: the file is accepted. Its canonical text was written, and nothing to `err`.
/// - 2: the file is refused. The canonical text of the paragraphs before the first that fails was
///   written, and the refusal's line on `err`.
/// - 3: out of memory, a read failed, or a write failed. `err` has the fault's line; if a
///   write to `err` failed, a prefix of its line.
pub(crate) fn run_normalise<R: Source, W: Sink, E: Sink>(
    alloc: Global,
    doc: Doc,
    first: &mut R,
    out: &mut W,
    err: &mut E,
) -> u8
    ensures reads_at_most { TakesFile (R.left first.old) (R.left first.new) }

    // Where a call of a device failed, the status is 3.
    ensures status_3_if_read_failed { R.failures first.old < R.failures first.new → result ≡ 3 }
    ensures status_3_if_write_failed { W.failures out.old < W.failures out.new → result ≡ 3 }

    // Whatever the status: there is an answer, and that is reported.
    ensures reports_answer { (answer : Result ℕ Fault)
        × NormalisesFile doc (R.left first.old) (R.failures first.old)
        (R.failures first.new) W.held W.failures out.old out.new answer
        × Reports done_status E.held E.failures err.old err.new answer result }
{
    match normalise(alloc, doc, first, out) {
        Ok(_) => 0,
        Err(fault) => report_fault(&fault, err),
    }
}

/// Checks a file, and writes that it is accepted.
fn write_verdict<R: Source, W: Sink>(
    alloc: Global,
    doc: Doc,
    first: &mut R,
    out: &mut W,
) -> Result<(), Fault>
    ensures checks { ChecksFile doc (R.left first.old) (R.failures first.old)
        (R.failures first.new) W.held W.failures out.old out.new result }
    ensures reads_at_most { TakesFile (R.left first.old) (R.left first.new) }
{
    let paragraphs = check(alloc, doc, first)?;
    put_ok_line(paragraphs, out)
}

/// Writes the line that a file of so many paragraphs is accepted. Takes no memory.
pub(crate) fn put_ok_line<W: Sink>(paragraphs: u64, out: &mut W) -> Result<(), Fault>
    ensures written { Puts (W.held out.old) (W.held out.new) result (ok_line paragraphs) }
    ensures fault { IfErr result (λ fault. fault ≡ Fault.Write) }
    ensures counts_failure { W.failures out.new ≡ write_failures_after (W.failures out.old) result }
{
    let mut number = Buffer::new();
    put_pieces(out, &[b"ok ", number.format(paragraphs).as_bytes(), b"\n"])
}
