//! The job on several indexes and a relation: `query`.

ghost use Rattle.std.specs.Prelude.{◌≡◌, ◌<◌, IfErr, IfOk};
ghost use Rattle.deb_base.specs.Faults.{IsReadersFault, RefusedOrMemory};
ghost use Rattle.deb_index.specs.Asked.{environment_asked, relation_asked, Asks};
ghost use Rattle.deb_index.specs.Questions.{RefusesWords};
ghost use Rattle.debctl_commands.specs.Ending.{EndsBy, RefusesWith, SaysBy};
ghost use Rattle.debctl_commands.specs.JobDevices.{writer_of};
ghost use Rattle.debctl_commands.specs.OpenedFiles.{opener, ReadsPath};
ghost use Rattle.debctl_commands.specs.Promises.{yes_or_no};
ghost use Rattle.debctl_commands.specs.QueryFrom.{IsRead, RefusesLong};
ghost use Rattle.debctl_commands.specs.QueryJob.{query_options};
ghost use Rattle.debctl_commands.specs.QueryOver.{asked_over, members_over, options_over, paths_over};
ghost use Rattle.debctl_commands.specs.QueryOver.{AsksIndexes, QueriesIndexes, QueriesOver};
ghost use Rattle.debctl_commands.specs.QueryOver.{QueriesFrom, ReportsFiles};

use crate::file_fault::{FileFault, Role, at_role, report_file_fault};
use crate::index_files::read_indexes;
use crate::opens::Opens;
use crate::query_from::read_relation;
use crate::query_job::{QueryOptions, QueryWords, index_members, parse_question};
use deb_base::{Fault, Sink, VersionText};
use deb_index::{Index, Question};
use debctl_args::{Detail, QueryOver, RelationArgument};
use std::alloc::Global;

/// Opens the indexes of some paths, reads them as one, and writes to `out` which of their packages
/// meet a relation, with reasons if these are asked for. Returns the status.
///
/// If the relation is that of a file, that is opened and read first, and refused as a paragraph
/// that is too long if it has more than 16,777,216 bytes. Then the indexes are opened, each once
/// and in order, but none before the arguments are good and none after a fault. The line of a
/// package ends with the place of its file if there are several indexes.
///
/// - 0 and 1: the report was written, and nothing to `err`. No group is unmet, or some group is.
/// - 2: the file of the relation, the relation, the target or a profile, an index, or a wildcard in
///   an architecture list is refused, in this order. Nothing was written to `out`, and the
///   refusal's line on `err`, after `index K: ` for the K-th of several indexes.
/// - 3: out of memory, or an opening, a read or a write failed. `err` has the fault's line; if a
///   write to `err` failed, a prefix of its line.
///
/// At most 4,295,032,831 bytes are read from each file: a file of the most bytes, and one piece.
pub fn run_query_over<F: Opens, W: Sink, E: Sink>(
    alloc: Global,
    query: &QueryOver,
    files: &mut F,
    out: &mut W,
    err: &mut E,
) -> u8
    ensures done { result ≡ 0 → SaysBy yes_or_no
        (QueriesOver (opener F.opens F.text F.failures F.Reader.left F.Reader.failures) query.now
        files.old files.new (writer_of W.held W.failures out.old out.new))
        (writer_of E.held E.failures err.old err.new) 0 }
    ensures no { result ≡ 1 → SaysBy yes_or_no
        (QueriesOver (opener F.opens F.text F.failures F.Reader.left F.Reader.failures) query.now
        files.old files.new (writer_of W.held W.failures out.old out.new))
        (writer_of E.held E.failures err.old err.new) 1 }
    ensures refused { result ≡ 2 → RefusesWith
        (QueriesOver (opener F.opens F.text F.failures F.Reader.left F.Reader.failures) query.now
        files.old files.new (writer_of W.held W.failures out.old out.new))
        (writer_of E.held E.failures err.old err.new) }

    // Where an opening or a write failed, the status is 3.
    ensures status_3_if_opening_failed { F.failures files.old < F.failures files.new → result ≡ 3 }
    ensures status_3_if_write_failed { W.failures out.old < W.failures out.new → result ≡ 3 }
    ensures status_3_if_err_failed { E.failures err.old < E.failures err.new → result ≡ 3 }

    // Whatever the status: the files were opened and read so, there is an answer, and that is
    // reported.
    ensures reports_answer { EndsBy yes_or_no
        (QueriesOver (opener F.opens F.text F.failures F.Reader.left F.Reader.failures) query.now
        files.old files.new (writer_of W.held W.failures out.old out.new))
        (writer_of E.held E.failures err.old err.new) result }
{
    report_query(alloc, query, files, out, err)
}

/// Writes the report, and reports the answer.
fn report_query<F: Opens, W: Sink, E: Sink>(
    alloc: Global,
    query: &QueryOver,
    files: &mut F,
    out: &mut W,
    err: &mut E,
) -> u8
    ensures { EndsBy yes_or_no
        (QueriesOver (opener F.opens F.text F.failures F.Reader.left F.Reader.failures) query.now
        files.old files.new (writer_of W.held W.failures out.old out.new))
        (writer_of E.held E.failures err.old err.new) result }
{
    match query_over(alloc, query, files, out) {
        Ok(true) => 0,
        Ok(false) => 1,
        Err(told) => report_file_fault(told, err),
    }
}

/// Writes the report, and returns whether no group is unmet.
fn query_over<F: Opens, W: Sink>(
    alloc: Global,
    query: &QueryOver,
    files: &mut F,
    out: &mut W,
) -> Result<bool, FileFault>
    ensures { QueriesOver (opener F.opens F.text F.failures F.Reader.left F.Reader.failures)
        query.now files.old files.new (writer_of W.held W.failures out.old out.new) result }
{
    match &query.relation {
        RelationArgument::Text(relation) => {
            query_indexes(alloc, query, relation.as_bytes(), files, out)
        }
        RelationArgument::From(path) => query_file(alloc, query, path.as_bytes(), files, out),
    }
}

/// Writes the report about the relation that the file of a path contains.
fn query_file<F: Opens, W: Sink>(
    alloc: Global,
    query: &QueryOver,
    path: &[u8],
    files: &mut F,
    out: &mut W,
) -> Result<bool, FileFault>
    ensures { QueriesFrom (opener F.opens F.text F.failures F.Reader.left F.Reader.failures)
        query.now path.now files.old files.new (writer_of W.held W.failures out.old out.new)
        result }
{
    match open_relation(alloc, path, files) {
        Ok(relation) => query_indexes(alloc, query, relation.as_slice(), files, out),
        Err(fault) => Err(FileFault::unnamed(fault)),
    }
}

/// Opens the file of a path, and reads the relation that it contains: all its bytes.
fn open_relation<F: Opens>(alloc: Global, path: &[u8], files: &mut F) -> Result<Vec<u8>, Fault>
    ensures reads { ReadsPath (opener F.opens F.text F.failures F.Reader.left F.Reader.failures)
        path.now files.old result files.new }
    ensures ok { IfOk result (λ relation. IsRead (F.text files.old path.now) relation.items) }
    ensures fault { IfErr result
        (λ fault. IsReadersFault fault (RefusesLong (F.text files.old path.now))) }
{
    match files.open(path) {
        Ok(mut reader) => read_relation(alloc, &mut reader),
        Err(_) => Err(Fault::Read),
    }
}

/// Writes the report about a relation.
fn query_indexes<F: Opens, W: Sink>(
    alloc: Global,
    query: &QueryOver,
    relation: &[u8],
    files: &mut F,
    out: &mut W,
) -> Result<bool, FileFault>
    ensures { QueriesIndexes (opener F.opens F.text F.failures F.Reader.left F.Reader.failures)
        (members_over query.now) (options_over query.now) (asked_over query.now relation.now)
        (paths_over query.now) files.old files.new (writer_of W.held W.failures out.old out.new)
        result }
{
    match parse_over(alloc, query, relation) {
        Ok(question) => ask_indexes(alloc, query, &question, files, out),
        Err(fault) => Err(FileFault::unnamed(fault)),
    }
}

/// Parses the question that the arguments ask about a relation.
fn parse_over<'a>(
    alloc: Global,
    query: &QueryOver,
    relation: &'a [u8],
) -> Result<Question<'a>, Fault>
    ensures ok { IfOk result (Asks (asked_over query.now relation.now)) }
    ensures fault { IfErr result
        (λ fault. RefusedOrMemory fault (RefusesWords (asked_over query.now relation.now))) }
{
    let words = QueryWords {
        target: query.arch.as_str(),
        profiles: &query.profiles,
        members: index_members(query.members),
        options: options_over(query),
    };
    parse_question(alloc, &words, relation)
}

/// What is written of each group, and which text of each version.
fn options_over(query: &QueryOver) -> QueryOptions
    ensures { result ≡ options_over query.now }
{
    QueryOptions {
        detail: query.detail,
        versions: query.versions,
    }
}

/// Reads the indexes, and writes the report of a question to them.
fn ask_indexes<F: Opens, W: Sink>(
    alloc: Global,
    query: &QueryOver,
    question: &Question<'_>,
    files: &mut F,
    out: &mut W,
) -> Result<bool, FileFault>
    ensures { AsksIndexes (opener F.opens F.text F.failures F.Reader.left F.Reader.failures)
        (members_over query.now) (options_over query.now) (relation_asked question.now)
        (environment_asked question.now) (paths_over query.now) files.old files.new
        (writer_of W.held W.failures out.old out.new) result }
{
    match read_indexes(alloc, index_members(query.members), &query.indexes, files) {
        Ok(index) => at_role(
            Role::Unnamed,
            report_files(alloc, &index, question, options_over(query), out),
        ),
        Err(told) => Err(told.among(Role::Unnamed, query.indexes.len())),
    }
}

/// Writes the report of a question to an index of several files, with or without reasons, and
/// returns whether no group is unmet.
fn report_files<W: Sink>(
    alloc: Global,
    index: &Index,
    question: &Question<'_>,
    options: QueryOptions,
    out: &mut W,
) -> Result<bool, Fault>
    ensures { ReportsFiles options index.now (relation_asked question.now)
        (environment_asked question.now) (writer_of W.held W.failures out.old out.new) result }
{
    let versions = options.versions;
    match options.detail {
        Detail::Verdicts => write_verdicts(alloc, index, question, versions, out),
        Detail::Reasons => write_reasons(alloc, index, question, versions, out),
    }
}

/// Writes the report, and returns whether no group is unmet.
fn write_verdicts<W: Sink>(
    alloc: Global,
    index: &Index,
    question: &Question<'_>,
    versions: VersionText,
    out: &mut W,
) -> Result<bool, Fault>
    ensures { ReportsFiles (query_options Detail.Verdicts versions) index.now
        (relation_asked question.now) (environment_asked question.now)
        (writer_of W.held W.failures out.old out.new) result }
{
    let report = index.ask(alloc, question)?;
    report.write_with_files(versions, out)?;
    Ok(report.all_met())
}

/// Writes the report with reasons, and returns whether no group is unmet.
#[tactic(auto, using(deb_index::proofs::Reasoned::changes_no_answer))]
fn write_reasons<W: Sink>(
    alloc: Global,
    index: &Index,
    question: &Question<'_>,
    versions: VersionText,
    out: &mut W,
) -> Result<bool, Fault>
    ensures { ReportsFiles (query_options Detail.Reasons versions) index.now
        (relation_asked question.now) (environment_asked question.now)
        (writer_of W.held W.failures out.old out.new) result }
{
    let report = index.ask_why_with_files(alloc, question, versions)?;
    report.write_with_files(versions, out)?;
    Ok(report.all_met())
}
