//! The job on the packages of a file that can't be installed: `installable`.

ghost use Rattle.std.specs.Prelude.{◌≡◌, ◌<◌, map, string_bytes, IfOk, IsFalse, Result};
ghost use Rattle.deb_base.specs.Lines.{fault_line};
ghost use Rattle.deb_base.specs.declared.fault.Fault.{Fault};
ghost use Rattle.deb_install.specs.Installing.{asks_by};
ghost use Rattle.deb_relation.specs.Views.{names_of};
ghost use Rattle.deb_relation.specs.Environments.{environment_of};
ghost use Rattle.deb_unmet.specs.declared.asking.Summary.{Summary};
ghost use Rattle.debctl_commands.specs.HealthJob.{is_architecture, lines_report};
ghost use Rattle.debctl_commands.specs.InstallJob.{AsksPackages, install_promise, package_words_of};
ghost use Rattle.debctl_commands.specs.JobDevices.{ReaderOfJob, reader_of, writer_of};
ghost use Rattle.debctl_commands.specs.Promises.{Ends};
ghost use Rattle.debctl_commands.specs.Reporting.{ReportsBy};
ghost use Rattle.debctl_commands.specs.Taking.{TakesFile};
ghost use Rattle.debctl_commands.specs.UnmetJob.{fields_tried};

use crate::health_job::report_lines;
use crate::query_job::names_of;
use crate::reporting::report_fault;
use crate::unmet_job::{fields_tried, parse_environment};
use deb_base::{Fault, Sink, Source};
use deb_index::Members;
use deb_install::{InstallRequest, installable};
use deb_relation::Env;
use deb_solve::Budget;
use debctl_args::{Strength, Terms};
use std::alloc::{AllocError, Global};

/// Which packages of its file are asked, what is asked of a set of them, and how long the search
/// may take.
#[derive(Clone, Copy)]
pub(crate) struct InstallAsked<'a> {
    pub members: Members,
    pub strength: Strength,
    pub terms: &'a Terms,
    /// The names of the packages that are asked; all are, if there is none.
    pub names: &'a [String],
    /// The most steps of the search for one package. All searches together take at most so many,
    /// and 100 for each package.
    pub budget: u32,
    /// Whether the line of an uninstallable package is followed by reasons.
    pub reasons: bool,
}

/// The names that are asked, and those that are left out, in bytes.
#[derive(Drop)]
pub(crate) struct NamesAsked<'a> {
    pub asked: Vec<&'a [u8]>,
    pub without: Vec<&'a [u8]>,
}

impl<'a> NamesAsked<'a> {
    pub(crate) fn new(
        alloc: Global,
        asked: &'a [String],
        without: &'a [String],
    ) -> Result<NamesAsked<'a>, AllocError>
        ensures asked { IfOk result (λ names. names_of names.asked.items
            ≡ map string_bytes asked.now) }
        ensures without { IfOk result (λ names. names_of names.without.items
            ≡ map string_bytes without.now) }
    {
        let asked = names_of(alloc, asked)?;
        let without = names_of(alloc, without)?;
        Ok(NamesAsked { asked, without })
    }
}

/// Writes to `out` a line for each package of a file that is asked and can't be installed, followed
/// by reasons if these are asked, and returns the status.
///
/// - 0 and 1: the file is accepted. No line was written, or some were, and nothing to `err`.
/// - 2: the architecture or the file is refused, in this order. `err` has the refusal's line, and
///   `out` nothing. The reader isn't asked before the architecture is good.
/// - 3: out of memory, a read failed, or a write failed. `err` has the fault's line; if a write to
///   `err` failed, a prefix of its line.
pub(crate) fn run_installable<R: Source, W: Sink, E: Sink>(
    alloc: Global,
    target: &str,
    asked: InstallAsked<'_>,
    first: &mut R,
    out: &mut W,
    err: &mut E,
) -> u8
    ensures reads_at_most { TakesFile (R.left first.old) (R.left first.new) }
    ensures first_untouched_if_refused { IsFalse (is_architecture target.now)
        → first.new ≡ first.old }

    // Where a call of a device failed, the status is 3.
    ensures status_3_if_read_failed { R.failures first.old < R.failures first.new → result ≡ 3 }
    ensures status_3_if_write_failed { W.failures out.old < W.failures out.new → result ≡ 3 }

    // Whatever the status: there is an answer, and that is reported.
    ensures reports_answer { (second : ReaderOfJob)
        → Ends (install_promise (package_words_of target.now asked.entry))
        (reader_of (R.left first.old) (R.failures first.old) (R.failures first.new)) second
        (writer_of W.held W.failures out.old out.new)
        (writer_of E.held E.failures err.old err.new) result }
{
    let Ok(names) = NamesAsked::new(alloc, asked.names, &asked.terms.without) else {
        return report_fault(&Fault::Memory, err);
    };
    match parse_environment(alloc, target, &[]) {
        Ok(environment) => {
            let request = request_for(asked, &names.asked, &names.without);
            run_in_environment(alloc, &environment, &request, first, out, err)
        }
        Err(fault) => report_fault(&fault, err),
    }
}

/// Returns what is asked, with the names in bytes.
pub(crate) fn request_for<'a>(
    asked: InstallAsked<'_>,
    names: &'a [&'a [u8]],
    without: &'a [&'a [u8]],
) -> InstallRequest<'a>
    ensures members { result.members ≡ asked.entry.members }
    ensures strength { result.strength ≡ fields_tried asked.entry.strength }
    ensures essential { result.essential ≡ asked.entry.terms.now.essential }
    ensures without { result.without.now ≡ without.entry.now }
    ensures names { result.names.now ≡ names.entry.now }
    ensures reasons { result.reasons ≡ asked.entry.reasons }
{
    InstallRequest {
        members: asked.members,
        strength: fields_tried(asked.strength),
        essential: asked.terms.essential,
        without,
        names,
        budget: Budget {
            one_search: asked.budget,
        },
        reasons: asked.reasons,
    }
}

/// Writes the lines of the packages for an environment.
fn run_in_environment<R: Source, W: Sink, E: Sink>(
    alloc: Global,
    environment: &Env,
    request: &InstallRequest<'_>,
    first: &mut R,
    out: &mut W,
    err: &mut E,
) -> u8
    ensures ends { (answer : Result Summary Fault)
        × AsksPackages (asks_by request.now (environment_of environment.now))
        (reader_of (R.left first.old) (R.failures first.old) (R.failures first.new))
        (writer_of W.held W.failures out.old out.new) answer
        × ReportsBy lines_report (λ fault. fault) fault_line E.held E.failures err.old err.new
        answer result }
    ensures reads_at_most { TakesFile (R.left first.old) (R.left first.new) }
{
    let answer = installable(alloc, environment, request, first, out);
    report_lines(answer, err)
}
