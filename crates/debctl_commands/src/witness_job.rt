//! The job on a healthy set of packages of a file: `installable --witness`.

ghost use Rattle.std.specs.Prelude.{◌≡◌, ◌<◌, IsFalse, Result};
ghost use Rattle.deb_base.specs.Lines.{fault_line};
ghost use Rattle.deb_base.specs.declared.fault.Fault.{Fault};
ghost use Rattle.deb_install.specs.Installing.{asks_by};
ghost use Rattle.deb_install.specs.declared.witnesses.Sought.{Sought};
ghost use Rattle.deb_relation.specs.Environments.{environment_of};
ghost use Rattle.debctl_commands.specs.HealthJob.{is_architecture};
ghost use Rattle.debctl_commands.specs.InstallJob.{package_words_of};
ghost use Rattle.debctl_commands.specs.JobDevices.{ReaderOfJob, reader_of, writer_of};
ghost use Rattle.debctl_commands.specs.Promises.{Ends};
ghost use Rattle.debctl_commands.specs.Reporting.{ReportsBy};
ghost use Rattle.debctl_commands.specs.Taking.{TakesFile};
ghost use Rattle.debctl_commands.specs.WitnessJob.{FindsSet, sought_report, witness_promise};

use crate::install_job::{InstallAsked, NamesAsked, request_for};
use crate::reporting::report_fault;
use crate::unmet_job::parse_environment;
use deb_base::{Fault, Sink, Source};
use deb_install::{InstallRequest, Sought, witness};
use deb_relation::Env;
use std::alloc::Global;

/// Writes to `out` a healthy set of packages of a file that contains one that is asked, and returns
/// the status.
///
/// - 0: the file is accepted. A line was written for each package of the set, and nothing to `err`.
/// - 1: the file is accepted and no set was found. The lines of `installable` were written for the
///   packages that are asked, and nothing to `err`.
/// - 2: the architecture or the file is refused, in this order. `err` has the refusal's line, and
///   `out` nothing. The reader isn't asked before the architecture is good.
/// - 3: out of memory, a read failed, or a write failed. `err` has the fault's line; if a write to
///   `err` failed, a prefix of its line.
pub(crate) fn run_witness<R: Source, W: Sink, E: Sink>(
    alloc: Global,
    target: &str,
    asked: InstallAsked<'_>,
    first: &mut R,
    out: &mut W,
    err: &mut E,
) -> u8
    ensures reads_at_most { TakesFile (R.left first.old) (R.left first.new) }
    ensures first_untouched_if_refused { IsFalse (is_architecture target.now)
        → first.new ≡ first.old }

    // Where a call of a device failed, the status is 3.
    ensures status_3_if_read_failed { R.failures first.old < R.failures first.new → result ≡ 3 }
    ensures status_3_if_write_failed { W.failures out.old < W.failures out.new → result ≡ 3 }

    // Whatever the status: there is an answer, and that is reported.
    ensures reports_answer { (second : ReaderOfJob)
        → Ends (witness_promise (package_words_of target.now asked.entry))
        (reader_of (R.left first.old) (R.failures first.old) (R.failures first.new)) second
        (writer_of W.held W.failures out.old out.new)
        (writer_of E.held E.failures err.old err.new) result }
{
    let Ok(names) = NamesAsked::new(alloc, asked.names, &asked.terms.without) else {
        return report_fault(&Fault::Memory, err);
    };
    match parse_environment(alloc, target, &[]) {
        Ok(environment) => {
            let request = request_for(asked, &names.asked, &names.without);
            run_in_environment(alloc, &environment, &request, first, out, err)
        }
        Err(fault) => report_fault(&fault, err),
    }
}

/// Writes the lines of the set, or of the packages, for an environment.
fn run_in_environment<R: Source, W: Sink, E: Sink>(
    alloc: Global,
    environment: &Env,
    request: &InstallRequest<'_>,
    first: &mut R,
    out: &mut W,
    err: &mut E,
) -> u8
    ensures ends { (answer : Result Sought Fault)
        × FindsSet (asks_by request.now (environment_of environment.now))
        (reader_of (R.left first.old) (R.failures first.old) (R.failures first.new))
        (writer_of W.held W.failures out.old out.new) answer
        × ReportsBy sought_report (λ fault. fault) fault_line E.held E.failures err.old err.new
        answer result }
    ensures reads_at_most { TakesFile (R.left first.old) (R.left first.new) }
{
    let answer = witness(alloc, environment, request, first, out);
    report_sought(answer, err)
}

/// Reports an answer that wrote lines, and returns the status: 1 if no set was found.
fn report_sought<E: Sink>(answer: Result<Sought, Fault>, err: &mut E) -> u8
    ensures { ReportsBy sought_report (λ fault. fault) fault_line E.held E.failures err.old err.new
        answer result }
{
    match answer {
        Ok(sought) => { if sought.is_found { 0 } else { 1 } }
        Err(fault) => report_fault(&fault, err),
    }
}
