//! The job on an index and a file of source packages that can't be built: `installable --kind
//! sources` and `--kind source`.

ghost use Rattle.std.specs.Prelude.{◌≡◌, ◌<◌, IsFalse, List, Result, ℕ};
ghost use Rattle.deb_base.specs.declared.fault.Fault.{Fault};
ghost use Rattle.deb_install.specs.ReadPackages.{HoldsFile};
ghost use Rattle.deb_relation.specs.Environments.{environment_of};
ghost use Rattle.deb_unmet.specs.declared.asking.Summary.{Summary};
ghost use Rattle.debctl_commands.specs.BuildJob.{AnswersSources, AreRefusedSources, BuildsBeside};
ghost use Rattle.debctl_commands.specs.BuildJob.{asks_of_request, build_promise, can_be_asked};
ghost use Rattle.debctl_commands.specs.BuildJob.{kind_tried, source_words_of};
ghost use Rattle.debctl_commands.specs.JobDevices.{reader_of, writer_of};
ghost use Rattle.debctl_commands.specs.Promises.{Ends};
ghost use Rattle.debctl_commands.specs.Taking.{TakesFile};
ghost use Rattle.debctl_commands.specs.SideAnswers.{Failure, IsRefusedIndex, ReportsTried, at_side};

use crate::query_job::names_of;
use crate::reporting::{report_fault, report_side};
use crate::unmet_job::parse_environment;
use deb_base::{Fault, Sink, Source};
use deb_control::{Side, SideFault};
use deb_index::Members;
use deb_install::{BuildRequest, Packages, SourceKind, buildable};
use deb_relation::Env;
use deb_solve::Budget;
use deb_unmet::Summary;
use debctl_args::Terms;
use std::alloc::Global;

/// The arguments of the job, except for its files.
#[derive(Clone, Copy)]
pub(crate) struct BuildWords<'a> {
    pub target: &'a str,
    pub profiles: &'a [String],
    pub members: Members,
    pub kind: SourceKind,
    pub terms: &'a Terms,
    pub search: SearchWords,
}

/// How long the search may take, and whether it is explained.
#[derive(Clone, Copy)]
pub(crate) struct SearchWords {
    /// The most steps of the search for one source package, as with `installable` of packages.
    pub budget: u32,
    /// Whether the line of an uninstallable source package is followed by reasons.
    pub reasons: bool,
}

/// What they ask: for which environment, with which packages, and of which file.
#[derive(Clone, Copy)]
struct Asking<'a> {
    environment: &'a Env,
    members: Members,
    request: BuildRequest<'a>,
}

/// Writes to `out` a line for each source package of a file that can't be built with the packages
/// of an index, followed by reasons if these are asked, and returns the status. `first` reads the
/// index, and `second` the file.
///
/// - 0 and 1: both files are accepted. No line was written, or some were, and nothing to `err`.
/// - 2: the target or a profile, the index or the file is refused, in this order. `err` has the
///   refusal's line, after `first: ` or `second: ` for a file, and `out` nothing. No reader is
///   asked before the target and the profiles are good, nor the second before the index is
///   accepted.
/// - 3: out of memory, a read failed, or a write failed. `err` has the fault's line; if a write to
///   `err` failed, a prefix of its line.
pub(crate) fn run_buildable<R: Source, S: Source, W: Sink, E: Sink>(
    alloc: Global,
    words: &BuildWords<'_>,
    first: &mut R,
    second: &mut S,
    out: &mut W,
    err: &mut E,
) -> u8
    ensures reads_at_most { TakesFile (R.left first.old) (R.left first.new) }
    ensures second_reads_at_most { TakesFile (S.left second.old) (S.left second.new) }
    ensures first_untouched_if_refused { IsFalse (can_be_asked (source_words_of words.now))
        → first.new ≡ first.old }
    ensures second_untouched_if_refused { AreRefusedSources (source_words_of words.now)
        (R.left first.old) → second.new ≡ second.old }

    // Where a call of a device failed, the status is 3.
    ensures status_3_if_read_failed { R.failures first.old < R.failures first.new → result ≡ 3 }
    ensures status_3_if_second_read_failed { S.failures second.old < S.failures second.new → result
        ≡ 3 }
    ensures status_3_if_write_failed { W.failures out.old < W.failures out.new → result ≡ 3 }

    // Whatever the status: there is an answer, and that is reported.
    ensures reports_answer { Ends (build_promise (source_words_of words.now))
        (reader_of (R.left first.old) (R.failures first.old) (R.failures first.new))
        (reader_of (S.left second.old) (S.failures second.old) (S.failures second.new))
        (writer_of W.held W.failures out.old out.new)
        (writer_of E.held E.failures err.old err.new) result }
{
    let Ok(without) = names_of(alloc, &words.terms.without) else {
        return report_fault(&Fault::Memory, err);
    };
    match parse_environment(alloc, words.target, words.profiles) {
        Ok(environment) => run_beside(
            alloc,
            &Asking {
                environment: &environment,
                members: words.members,
                request: request_for(words, &without),
            },
            first,
            second,
            out,
            err,
        ),
        Err(fault) => report_fault(&fault, err),
    }
}

/// Returns what is asked, with the names that are left out in bytes.
fn request_for<'a>(words: &BuildWords<'_>, without: &'a [&'a [u8]]) -> BuildRequest<'a>
    ensures kind { result.kind ≡ words.now.kind }
    ensures essential { result.essential ≡ words.now.terms.now.essential }
    ensures without { result.without.now ≡ without.entry.now }
    ensures reasons { result.reasons ≡ words.now.search.reasons }
{
    BuildRequest {
        kind: words.kind,
        essential: words.terms.essential,
        without,
        budget: Budget {
            one_search: words.search.budget,
        },
        reasons: words.search.reasons,
    }
}

/// Reads the index, and asks the source packages of the file.
fn run_beside<R: Source, S: Source, W: Sink, E: Sink>(
    alloc: Global,
    asking: &Asking<'_>,
    first: &mut R,
    second: &mut S,
    out: &mut W,
    err: &mut E,
) -> u8
    ensures ends { (answer : Result Summary Failure)
        × BuildsBeside (asks_of_request asking.now.members asking.now.request
        (environment_of asking.now.environment.now))
        (reader_of (R.left first.old) (R.failures first.old) (R.failures first.new))
        (reader_of (S.left second.old) (S.failures second.old) (S.failures second.new))
        (writer_of W.held W.failures out.old out.new) answer
        × ReportsTried (writer_of E.held E.failures err.old err.new) answer result }
    ensures reads_at_most { TakesFile (R.left first.old) (R.left first.new) }
    ensures second_reads_at_most { TakesFile (S.left second.old) (S.left second.new) }
    ensures second_untouched_if_refused { IsRefusedIndex asking.now.members (R.left first.old)
        → second.new ≡ second.old }
{
    match Packages::read(alloc, asking.members, first) {
        Ok(packages) => run_with(alloc, &packages, asking, second, out, err),
        Err(fault) => report_side(
            SideFault {
                side: Side::First,
                fault,
            },
            err,
        ),
    }
}

/// Asks the source packages of the file, with the packages of an index.
fn run_with<S: Source, W: Sink, E: Sink>(
    alloc: Global,
    packages: &Packages,
    asking: &Asking<'_>,
    second: &mut S,
    out: &mut W,
    err: &mut E,
) -> u8
    ensures ends { (tried : Result Summary Fault)
        × AnswersSources (λ (index : List ℕ). HoldsFile asking.now.members index packages.now)
        (asks_of_request asking.now.members asking.now.request
        (environment_of asking.now.environment.now))
        (reader_of (S.left second.old) (S.failures second.old) (S.failures second.new))
        (writer_of W.held W.failures out.old out.new) tried
        × ReportsTried (writer_of E.held E.failures err.old err.new) (at_side Side.Second tried)
        result }
    ensures reads_at_most { TakesFile (S.left second.old) (S.left second.new) }
{
    let answer = buildable(
        alloc,
        packages,
        asking.environment,
        asking.request,
        second,
        out,
    );
    report_tried(Side::Second, answer, err)
}

/// Returns the kind of the file of source packages.
pub(crate) fn kind_tried(sources: debctl_args::SourceKind) -> SourceKind
    ensures { result ≡ kind_tried sources }
{
    match sources {
        debctl_args::SourceKind::Sources => SourceKind::Sources,
        debctl_args::SourceKind::Source => SourceKind::Source,
    }
}

/// Reports the answer of the file of a side, and returns the status.
fn report_tried<E: Sink>(side: Side, answer: Result<Summary, Fault>, err: &mut E) -> u8
    ensures { ReportsTried (writer_of E.held E.failures err.old err.new) (at_side side answer)
        result }
{
    match answer {
        Ok(summary) => { if summary.is_empty { 0 } else { 1 } }
        Err(fault) => report_side(SideFault { side, fault }, err),
    }
}
