//! The job on a set of packages: `healthy`.

ghost use Rattle.std.specs.Prelude.{◌≡◌, ◌<◌, string_bytes, IsFalse, Result};
ghost use Rattle.deb_base.specs.Lines.{fault_line};
ghost use Rattle.deb_base.specs.declared.fault.Fault.{Fault};
ghost use Rattle.deb_health.specs.Health.{asks_healthy};
ghost use Rattle.deb_relation.specs.Environments.{environment_of};
ghost use Rattle.deb_unmet.specs.declared.asking.Summary.{Summary};
ghost use Rattle.debctl_commands.specs.HealthJob.{health_promise, lines_report, is_architecture};
ghost use Rattle.debctl_commands.specs.JobDevices.{ReaderOfJob, reader_of, writer_of};
ghost use Rattle.debctl_commands.specs.Promises.{Ends};
ghost use Rattle.debctl_commands.specs.Reporting.{ReportsBy};
ghost use Rattle.debctl_commands.specs.Taking.{TakesFile};
ghost use Rattle.debctl_commands.specs.UnmetJob.{AsksOwn, fields_tried};

use crate::reporting::report_fault;
use crate::unmet_job::{fields_tried, parse_environment};
use deb_base::{Fault, Sink, Source};
use deb_health::healthy;
use deb_index::Members;
use deb_relation::Env;
use deb_unmet::Summary;
use debctl_args::Strength;
use std::alloc::Global;

/// Which packages of its file are the set, and which fields are tried.
#[derive(Clone, Copy)]
pub(crate) struct SetAsked {
    pub members: Members,
    pub strength: Strength,
}

/// Writes to `out` a line for each reason why a set of packages isn't healthy, and returns the
/// status.
///
/// - 0 and 1: the file is accepted. No line was written, or some were, and nothing to `err`.
/// - 2: the architecture of the set or the file is refused, in this order. `err` has the refusal's
///   line, and `out` nothing. The reader isn't asked before the architecture is good.
/// - 3: out of memory, a read failed, or a write failed. `err` has the fault's line; if a write to
///   `err` failed, a prefix of its line.
pub(crate) fn run_healthy<R: Source, W: Sink, E: Sink>(
    alloc: Global,
    target: &str,
    set: SetAsked,
    first: &mut R,
    out: &mut W,
    err: &mut E,
) -> u8
    ensures reads_at_most { TakesFile (R.left first.old) (R.left first.new) }
    ensures first_untouched_if_refused { IsFalse (is_architecture target.now)
        → first.new ≡ first.old }

    // Where a call of a device failed, the status is 3.
    ensures status_3_if_read_failed { R.failures first.old < R.failures first.new → result ≡ 3 }
    ensures status_3_if_write_failed { W.failures out.old < W.failures out.new → result ≡ 3 }

    // Whatever the status: there is an answer, and that is reported.
    ensures reports_answer { (second : ReaderOfJob)
        → Ends (health_promise target.now set.members set.strength)
        (reader_of (R.left first.old) (R.failures first.old) (R.failures first.new)) second
        (writer_of W.held W.failures out.old out.new)
        (writer_of E.held E.failures err.old err.new) result }
{
    match parse_environment(alloc, target, &[]) {
        Ok(environment) => run_in_environment(alloc, &environment, set, first, out, err),
        Err(fault) => report_fault(&fault, err),
    }
}

/// Writes the lines of the set for an environment.
fn run_in_environment<R: Source, W: Sink, E: Sink>(
    alloc: Global,
    environment: &Env,
    set: SetAsked,
    first: &mut R,
    out: &mut W,
    err: &mut E,
) -> u8
    ensures ends { (answer : Result Summary Fault)
        × AsksOwn (asks_healthy set.members (fields_tried set.strength)
        (environment_of environment.now))
        (R.left first.old) (R.failures first.old) (R.failures first.new) W.held W.failures out.old
        out.new answer × ReportsBy lines_report (λ fault. fault) fault_line E.held E.failures
        err.old err.new answer result }
    ensures reads_at_most { TakesFile (R.left first.old) (R.left first.new) }
{
    let strength = fields_tried(set.strength);
    let answer = healthy(alloc, environment, set.members, strength, first, out);
    report_lines(answer, err)
}

/// Reports an answer that wrote lines, and returns the status: 1 if there is a line.
pub(crate) fn report_lines<E: Sink>(answer: Result<Summary, Fault>, err: &mut E) -> u8
    ensures { ReportsBy lines_report (λ fault. fault) fault_line E.held E.failures err.old err.new
        answer result }
{
    match answer {
        Ok(summary) => { if summary.is_empty { 0 } else { 1 } }
        Err(fault) => report_fault(&fault, err),
    }
}
