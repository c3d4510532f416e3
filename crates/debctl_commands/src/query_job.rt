//! The job on an index and a relation: `query`.

ghost use Rattle.std.specs.Prelude.{◌≡◌, ◌<◌, Bool, map, Result};
ghost use Rattle.std.specs.Prelude.{string_bytes, IfErr, IfOk};
ghost use Rattle.deb_base.specs.Faults.{RefusedOrMemory};
ghost use Rattle.deb_base.specs.declared.fault.Fault.{Fault};
ghost use Rattle.deb_relation.specs.Views.{names_of};
ghost use Rattle.deb_index.specs.Asked.{environment_asked, relation_asked, Asks};
ghost use Rattle.deb_index.specs.Indexes.{packages_of, spellings_of};
ghost use Rattle.deb_index.specs.Questions.{Question as Words, RefusesWords};
ghost use Rattle.debctl_commands.specs.QueryJob.{AreRefused, QueriesFile, ReportsOver};
ghost use Rattle.debctl_commands.specs.QueryJob.{index_members, query_options, question_of};
ghost use Rattle.debctl_commands.specs.Reporting.{Reports};
ghost use Rattle.debctl_commands.specs.Taking.{TakesFile};
ghost use Rattle.debctl_commands.specs.VersionJobs.{verdict_status};

use crate::reporting::report_fault;
use deb_base::{Fault, Sink, Source, VersionText};
use deb_index::{Index, Members, NoKeeper, Question};
use debctl_args::Detail;
use std::alloc::{AllocError, Global};

/// The arguments of `query`, except for the relation and the files.
#[derive(Clone, Copy)]
pub(crate) struct QueryWords<'a> {
    pub target: &'a str,
    pub profiles: &'a [String],
    pub members: Members,
    pub options: QueryOptions,
}

/// What is written of each group, and which text of each version.
#[derive(Clone, Copy)]
pub(crate) struct QueryOptions {
    pub detail: Detail,
    pub versions: VersionText,
}

/// Returns which packages of its file an index has.
pub(crate) fn index_members(members: debctl_args::Members) -> Members
    ensures { result ≡ index_members members }
{
    match members {
        debctl_args::Members::All => Members::All,
        debctl_args::Members::Installed => Members::Installed,
    }
}

/// Writes to `out` which packages of an index meet a relation, with reasons if these are asked for,
/// and returns the status.
///
/// - 0 and 1: the report was written, and nothing to `err`. No group is unmet, or some group is.
/// - 2: the relation, the target or a profile, the index, or a wildcard in an architecture list is
///   refused, in this order. Nothing was written to `out`, and the refusal's line on `err`. The
///   reader isn't asked before the relation, the target and the profiles are good.
/// - 3: out of memory, a read failed, or a write failed. `err` has the fault's line; if a
///   write to `err` failed, a prefix of its line.
pub(crate) fn run_query<R: Source, W: Sink, E: Sink>(
    alloc: Global,
    words: &QueryWords<'_>,
    relation: &[u8],
    first: &mut R,
    out: &mut W,
    err: &mut E,
) -> u8
    ensures reads_at_most { TakesFile (R.left first.old) (R.left first.new) }
    ensures first_untouched_if_refused { AreRefused
        (question_of words.now relation.now)
        → first.new ≡ first.old }

    // Where a call of a device failed, the status is 3.
    ensures status_3_if_read_failed { R.failures first.old < R.failures first.new → result ≡ 3 }
    ensures status_3_if_write_failed { W.failures out.old < W.failures out.new → result ≡ 3 }

    // Whatever the status: there is an answer, and that is reported.
    ensures reports_answer { (answer : Result Bool Fault)
        × QueriesFile words.now.members words.now.options (question_of words.now relation.now)
        (R.left first.old) (R.failures first.old) (R.failures first.new)
        W.held W.failures out.old out.new answer
        × Reports verdict_status E.held E.failures err.old err.new answer result }
{
    match write_report(alloc, words, relation, first, out) {
        Ok(true) => 0,
        Ok(false) => 1,
        Err(fault) => report_fault(&fault, err),
    }
}

/// Writes the report, and returns whether no group is unmet.
fn write_report<R: Source, W: Sink>(
    alloc: Global,
    words: &QueryWords<'_>,
    relation: &[u8],
    first: &mut R,
    out: &mut W,
) -> Result<bool, Fault>
    ensures queries { QueriesFile words.now.members words.now.options
        (question_of words.now relation.now)
        (R.left first.old) (R.failures first.old) (R.failures first.new)
        W.held W.failures out.old out.new result }
    ensures reads_at_most { TakesFile (R.left first.old) (R.left first.new) }
    ensures first_untouched_if_refused { AreRefused
        (question_of words.now relation.now)
        → first.new ≡ first.old }
{
    let question = parse_question(alloc, words, relation)?;
    write_answer(alloc, &question, words.members, words.options, first, out)
}

/// Parses the question that the command-line arguments ask.
pub(crate) fn parse_question<'a>(
    alloc: Global,
    words: &QueryWords<'_>,
    relation: &'a [u8],
) -> Result<Question<'a>, Fault>
    ensures ok { IfOk result
        (Asks (question_of words.now relation.now)) }
    ensures fault { IfErr result
        (λ fault. RefusedOrMemory fault
        (RefusesWords (question_of words.now relation.now))) }
{
    let names = names_of(alloc, words.profiles)?;
    Question::parse(alloc, words.target.as_bytes(), &names, relation)
}

/// Returns the same texts in bytes.
pub(crate) fn names_of<'a>(alloc: Global, words: &'a [String]) -> Result<Vec<&'a [u8]>, AllocError>
    ensures { IfOk result (λ names. names_of names.items ≡ map string_bytes words.now) }
{
    let mut names = Vec::new(alloc);
    for word in words {
        names.push(word.as_bytes())?;
    }
    Ok(names)
}

/// Reads an index, writes to `out` the report of a question to it, and returns whether no group is
/// unmet.
fn write_answer<R: Source, W: Sink>(
    alloc: Global,
    question: &Question<'_>,
    members: Members,
    options: QueryOptions,
    first: &mut R,
    out: &mut W,
) -> Result<bool, Fault>
    ensures queries { (words : Words) → Asks words question.now
        → QueriesFile members options words (R.left first.old) (R.failures first.old)
        (R.failures first.new) W.held W.failures out.old out.new result }
    ensures reads_at_most { TakesFile (R.left first.old) (R.left first.new) }
{
    let index = Index::read_members(alloc, first, members, &mut NoKeeper)?;
    write_over(alloc, &index, question, options, out)
}

/// Writes the report of a question to an index, with or without reasons, and returns whether no
/// group is unmet.
fn write_over<W: Sink>(
    alloc: Global,
    index: &Index,
    question: &Question<'_>,
    options: QueryOptions,
    out: &mut W,
) -> Result<bool, Fault>
    ensures { ReportsOver options (spellings_of index.now) (packages_of index.now)
        (relation_asked question.now) (environment_asked question.now)
        W.held W.failures out.old out.new result }
{
    let versions = options.versions;
    match options.detail {
        Detail::Verdicts => write_verdicts(alloc, index, question, versions, out),
        Detail::Reasons => write_reasons(alloc, index, question, versions, out),
    }
}

/// Writes the report, and returns whether no group is unmet.
fn write_verdicts<W: Sink>(
    alloc: Global,
    index: &Index,
    question: &Question<'_>,
    versions: VersionText,
    out: &mut W,
) -> Result<bool, Fault>
    ensures { ReportsOver (query_options Detail.Verdicts versions) (spellings_of index.now)
        (packages_of index.now) (relation_asked question.now)
        (environment_asked question.now) W.held W.failures out.old out.new result }
{
    let report = index.ask(alloc, question)?;
    report.write_with(versions, out)?;
    Ok(report.all_met())
}

/// Writes the report with reasons, and returns whether no group is unmet.
#[tactic(auto, using(deb_index::proofs::Reasoned::changes_no_answer))]
fn write_reasons<W: Sink>(
    alloc: Global,
    index: &Index,
    question: &Question<'_>,
    versions: VersionText,
    out: &mut W,
) -> Result<bool, Fault>
    ensures { ReportsOver (query_options Detail.Reasons versions) (spellings_of index.now)
        (packages_of index.now) (relation_asked question.now)
        (environment_asked question.now) W.held W.failures out.old out.new result }
{
    let report = index.ask_why_with(alloc, question, versions)?;
    report.write_with(versions, out)?;
    Ok(report.all_met())
}
