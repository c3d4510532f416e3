//! The job on an old file and a new one: `diff`.

ghost use Rattle.std.specs.Prelude.{◌≡◌, ◌<◌};
ghost use Rattle.debctl_commands.specs.DiffJob.{FindsChanges, IsRefusedOld, detail_of, form_asked};
ghost use Rattle.debctl_commands.specs.DiffJob.{kind_of};
ghost use Rattle.debctl_commands.specs.JobDevices.{reader_of, writer_of};
ghost use Rattle.debctl_commands.specs.Promises.{Ends, sided, yes_or_no};
ghost use Rattle.debctl_commands.specs.Taking.{TakesFile};

use crate::reporting::report_side;
use deb_base::{Sink, Source, VersionText};
use deb_diff::{Detail, Form, Kind, diff};
use debctl_args::{DiffDetail, DiffKind};
use std::alloc::Global;

/// The arguments of `diff`, except for its files.
#[derive(Clone, Copy)]
pub(crate) struct DiffOptions {
    pub kind: DiffKind,
    pub form: Form,
}

/// Writes to `out` a line for each paragraph that changed between two files of a kind, with the
/// lines of its values if they are wanted, and returns the status.
///
/// - 0 and 1: both files are accepted. No line was written, or some were, and nothing to `err`.
/// - 2: a file is refused. Nothing was written to `out`, and to `err` `first: ` or `second: ` and
///   the refusal's line. If both are refused, it is that of the first; the second isn't read then.
/// - 3: out of memory, a read failed, or a write failed. `err` has the fault's line; if a write to
///   `err` failed, a prefix of its line. Nothing was written to `out`, or a prefix of the lines
///   before a failed write.
pub(crate) fn run_diff<R: Source, S: Source, W: Sink, E: Sink>(
    alloc: Global,
    options: DiffOptions,
    first: &mut R,
    second: &mut S,
    out: &mut W,
    err: &mut E,
) -> u8
    ensures reads_at_most { TakesFile (R.left first.old) (R.left first.new) }
    ensures second_reads_at_most { TakesFile (S.left second.old) (S.left second.new) }
    ensures second_untouched_if_refused { IsRefusedOld options.kind (R.left first.old)
        → second.new ≡ second.old }

    // Where a call of a device failed, the status is 3.
    ensures status_3_if_read_failed { R.failures first.old < R.failures first.new → result ≡ 3 }
    ensures status_3_if_second_read_failed { S.failures second.old < S.failures second.new → result
        ≡ 3 }
    ensures status_3_if_write_failed { W.failures out.old < W.failures out.new → result ≡ 3 }

    // Whatever the status: there is an answer, and that is reported.
    ensures reports_answer { Ends (sided yes_or_no (FindsChanges options.kind options.form))
        (reader_of (R.left first.old) (R.failures first.old) (R.failures first.new))
        (reader_of (S.left second.old) (S.failures second.old) (S.failures second.new))
        (writer_of W.held W.failures out.old out.new)
        (writer_of E.held E.failures err.old err.new) result }
{
    let kind = kind_of(options.kind);
    match diff(alloc, kind, options.form, first, second, out) {
        Ok(true) => 0,
        Ok(false) => 1,
        Err(side_fault) => report_side(side_fault, err),
    }
}

fn kind_of(kind: DiffKind) -> Kind
    ensures { result ≡ kind_of kind }
{
    match kind {
        DiffKind::Packages => Kind::Packages,
        DiffKind::Binary => Kind::Binary,
        DiffKind::Sources => Kind::Sources,
        DiffKind::Source => Kind::Source,
        DiffKind::Status => Kind::Status,
    }
}

/// Which lines are written, and which text of versions they have.
pub(crate) fn form_asked(detail: DiffDetail, versions: VersionText) -> Form
    ensures { result ≡ form_asked detail versions }
{
    Form {
        detail: detail_of(detail),
        versions,
    }
}

fn detail_of(detail: DiffDetail) -> Detail
    ensures { result ≡ detail_of detail }
{
    match detail {
        DiffDetail::Fields => Detail::Fields,
        DiffDetail::Values => Detail::Values,
    }
}
