//! The job on indexes and a file whose groups are tried: `unmet`.

ghost use Rattle.std.specs.Prelude.{◌≡◌, ◌<◌, [], map, string_bytes, IfErr, IfOk, IsFalse, IsTrue};
ghost use Rattle.deb_base.specs.Faults.{RefusedOrMemory};
ghost use Rattle.deb_index.specs.Indexes.{packages_of};
ghost use Rattle.deb_index.specs.Questions.{bad_environment, MakesEnvironment};
ghost use Rattle.deb_index.specs.Without.{without};
ghost use Rattle.deb_relation.specs.Environments.{environment_of, with_target};
ghost use Rattle.deb_relation.specs.Targets.{is_target};
ghost use Rattle.deb_relation.specs.Views.{names_of};
ghost use Rattle.deb_unmet.specs.Asking.{asks_of};
ghost use Rattle.deb_unmet.specs.Own.{own_asked, own_scope};
ghost use Rattle.deb_unmet.specs.Scopes.{scope_of};
ghost use Rattle.debctl_commands.specs.Ending.{EndsBy, RefusesWith, SaysBy};
ghost use Rattle.debctl_commands.specs.JobDevices.{writer_of};
ghost use Rattle.debctl_commands.specs.OpenedFiles.{opener};
ghost use Rattle.debctl_commands.specs.SideAnswers.{unmet_report};
ghost use Rattle.debctl_commands.specs.UnmetJob.{asked_of, environment_fault, environment_given};
ghost use Rattle.debctl_commands.specs.UnmetJob.{fields_in, fields_tried, has_environment};
ghost use Rattle.debctl_commands.specs.UnmetJob.{members_given, old_given, path_given, request_of};
ghost use Rattle.debctl_commands.specs.UnmetJob.{sources_tried, AnswersOld, AsksBefore, AsksBeside};
ghost use Rattle.debctl_commands.specs.UnmetJob.{AsksGroups, AsksIn, AsksInItself, AsksUnmet};
ghost use Rattle.debctl_commands.specs.UnmetJob.{AsksWithout, TriesItself, TriesPath};

use crate::file_fault::{FileFault, Role, at_role, report_file_fault, role_among};
use crate::index_files::read_indexes;
use crate::opens::Opens;
use crate::query_job::{index_members, names_of};
use deb_base::{Code, Fault, Refusal, Sink, VersionText};
use deb_index::Index;
use deb_relation::{Env, EnvFault};
use deb_unmet::{
    Asked, OwnQuestion, OwnRequest, Question, Request, SourcesAsked, Summary, unmet,
    unmet_in_itself,
};
use debctl_args::{Dependents, SourcesTried, Strength, Unmet};
use std::alloc::{AllocError, Global};
use std::slice;

/// Opens the files of an `unmet`, and writes to `out` a line for each group of a file that no
/// package of the indexes meets, or may not meet, and that an old index met, if there is one.
/// Returns the status.
///
/// The files are opened and read in this order, each once, but none before the arguments are good
/// and none after a fault: the old index, the indexes, and the file, if it isn't the last index.
///
/// - 0 and 1: all files are accepted. No line was written, or some were, and nothing to `err`.
/// - 2: the target or a profile, or a file is refused, in this order. `err` has the refusal's line,
///   for a file after `old: `, `first: ` if there is one index, `index K: ` for the K-th of
///   several, or `second: `. `out` has the lines of the paragraphs of that last file before the
///   first that fails, and nothing after any other refusal.
/// - 3: out of memory, or an opening, a read or a write failed. `err` has the fault's line; if a
///   write to `err` failed, a prefix of its line.
///
/// At most 4,295,032,831 bytes are read from each file: a file of the most bytes, and one piece.
pub fn run_unmet<F: Opens, W: Sink, E: Sink>(
    alloc: Global,
    asked: &Unmet,
    files: &mut F,
    out: &mut W,
    err: &mut E,
) -> u8
    ensures done { result ≡ 0 → SaysBy unmet_report
        (AsksUnmet (opener F.opens F.text F.failures F.Reader.left F.Reader.failures) asked.now
        files.old files.new (writer_of W.held W.failures out.old out.new))
        (writer_of E.held E.failures err.old err.new) 0 }
    ensures no { result ≡ 1 → SaysBy unmet_report
        (AsksUnmet (opener F.opens F.text F.failures F.Reader.left F.Reader.failures) asked.now
        files.old files.new (writer_of W.held W.failures out.old out.new))
        (writer_of E.held E.failures err.old err.new) 1 }
    ensures refused { result ≡ 2 → RefusesWith
        (AsksUnmet (opener F.opens F.text F.failures F.Reader.left F.Reader.failures) asked.now
        files.old files.new (writer_of W.held W.failures out.old out.new))
        (writer_of E.held E.failures err.old err.new) }

    // Where an opening or a write failed, the status is 3.
    ensures status_3_if_opening_failed { F.failures files.old < F.failures files.new → result ≡ 3 }
    ensures status_3_if_write_failed { W.failures out.old < W.failures out.new → result ≡ 3 }
    ensures status_3_if_err_failed { E.failures err.old < E.failures err.new → result ≡ 3 }

    // Whatever the status: the files were opened and read so, there is an answer, and that is
    // reported.
    ensures reports_answer { EndsBy unmet_report
        (AsksUnmet (opener F.opens F.text F.failures F.Reader.left F.Reader.failures) asked.now
        files.old files.new (writer_of W.held W.failures out.old out.new))
        (writer_of E.held E.failures err.old err.new) result }
{
    report_unmet(alloc, asked, files, out, err)
}

/// Tries the groups, and reports the answer.
fn report_unmet<F: Opens, W: Sink, E: Sink>(
    alloc: Global,
    asked: &Unmet,
    files: &mut F,
    out: &mut W,
    err: &mut E,
) -> u8
    ensures { EndsBy unmet_report
        (AsksUnmet (opener F.opens F.text F.failures F.Reader.left F.Reader.failures) asked.now
        files.old files.new (writer_of W.held W.failures out.old out.new))
        (writer_of E.held E.failures err.old err.new) result }
{
    match ask_named(alloc, asked, files, out) {
        Ok(summary) => { if summary.is_empty { 0 } else { 1 } }
        Err(told) => report_file_fault(told, err),
    }
}

/// Tries the groups without the names that are left out.
fn ask_named<F: Opens, W: Sink>(
    alloc: Global,
    asked: &Unmet,
    files: &mut F,
    out: &mut W,
) -> Result<Summary, FileFault>
    ensures { AsksUnmet (opener F.opens F.text F.failures F.Reader.left F.Reader.failures)
        asked.now files.old files.new (writer_of W.held W.failures out.old out.new) result }
{
    match names_of(alloc, &asked.without) {
        Ok(names) => ask_in_environment(alloc, asked, &names, files, out),
        Err(_) => Err(FileFault::unnamed(Fault::Memory)),
    }
}

/// Tries the groups for the environment that the arguments name.
fn ask_in_environment<'a, F: Opens, W: Sink>(
    alloc: Global,
    asked: &Unmet,
    names: &'a [&'a [u8]],
    files: &mut F,
    out: &mut W,
) -> Result<Summary, FileFault>
    ensures { AsksWithout (opener F.opens F.text F.failures F.Reader.left F.Reader.failures)
        asked.now (names_of names.now) files.old files.new
        (writer_of W.held W.failures out.old out.new) result }
{
    match environment_given(alloc, asked) {
        Ok(environment) => ask_after_old(alloc, asked, &environment, names, files, out),
        Err(fault) => Err(FileFault::unnamed(fault)),
    }
}

/// Parses the environment that the arguments name.
fn environment_given(alloc: Global, asked: &Unmet) -> Result<Env, Fault>
    ensures ok { IfOk result (λ environment. IsTrue (has_environment asked.now)
        × (environment_of environment ≡ environment_given asked.now)) }
    ensures fault { IfErr result (λ fault. RefusedOrMemory fault
        (λ refusal. IsFalse (has_environment asked.now) × (refusal ≡ bad_environment))) }
{
    let environment = parse_environment(alloc, asked.arch.as_str(), &asked.profiles)?;
    match &asked.all_for {
        None => Ok(environment),
        Some(target) => for_target(alloc, &environment, target.as_bytes()),
    }
}

/// Parses the environment of a target architecture and of profiles.
pub(crate) fn parse_environment(
    alloc: Global,
    target: &str,
    profiles: &[String],
) -> Result<Env, Fault>
    ensures { MakesEnvironment target.now (map string_bytes profiles.now) result }
{
    let names = names_of(alloc, profiles)?;
    match Env::new(alloc, target.as_bytes(), &names) {
        Ok(environment) => Ok(environment),
        Err(fault) => Err(environment_fault(fault)),
    }
}

/// Returns an environment with another target.
fn for_target(alloc: Global, environment: &Env, target: &[u8]) -> Result<Env, Fault>
    ensures ok { IfOk result (λ other. IsTrue (is_target target.now)
        × (environment_of other ≡ with_target target.now (environment_of environment.now))) }
    ensures fault { IfErr result (λ fault. RefusedOrMemory fault
        (λ refusal. IsFalse (is_target target.now) × (refusal ≡ bad_environment))) }
{
    match environment.for_target(alloc, target) {
        Ok(other) => Ok(other),
        Err(fault) => Err(environment_fault(fault)),
    }
}

/// Returns the fault of an environment.
fn environment_fault(fault: EnvFault) -> Fault
    ensures { result ≡ environment_fault fault }
{
    match fault {
        EnvFault::BadEnvironment => Fault::Refused(Refusal {
            code: Code::BadEnvironment,
            line: 0,
        }),
        EnvFault::Memory => Fault::Memory,
    }
}

/// Reads the old index, if there is one, and tries the groups over it.
fn ask_after_old<'a, F: Opens, W: Sink>(
    alloc: Global,
    asked: &Unmet,
    environment: &'a Env,
    names: &'a [&'a [u8]],
    files: &mut F,
    out: &mut W,
) -> Result<Summary, FileFault>
    ensures { AsksIn (opener F.opens F.text F.failures F.Reader.left F.Reader.failures)
        asked.now (environment_of environment.now) (names_of names.now) files.old files.new
        (writer_of W.held W.failures out.old out.new) result }
{
    match read_old(alloc, asked, files) {
        Ok(old) => {
            let question = OwnQuestion {
                environment,
                unless: old.as_ref(),
                without: names,
            };
            ask_groups(alloc, asked, question, files, out)
        }
        Err(fault) => Err(FileFault {
            role: Role::Old,
            fault,
        }),
    }
}

/// Reads the old index, if there is one.
fn read_old<F: Opens>(alloc: Global, asked: &Unmet, files: &mut F) -> Result<Option<Index>, Fault>
    ensures { AnswersOld (opener F.opens F.text F.failures F.Reader.left F.Reader.failures)
        (members_given asked.now) (old_given asked.now) files.old result files.new }
{
    match &asked.files.unless {
        None => Ok(None),
        Some(path) => {
            match read_indexes(
                alloc,
                index_members(asked.members),
                slice::from_ref(path),
                files,
            ) {
                Ok(index) => Ok(Some(index)),
                Err(told) => Err(told.fault),
            }
        }
    }
}

/// Tries the groups of the file of a path, or of the last index.
fn ask_groups<F: Opens, W: Sink>(
    alloc: Global,
    asked: &Unmet,
    question: OwnQuestion<'_>,
    files: &mut F,
    out: &mut W,
) -> Result<Summary, FileFault>
    ensures { AsksGroups (opener F.opens F.text F.failures F.Reader.left F.Reader.failures)
        asked.now (environment_of question.entry.environment.now) (own_scope [] question.entry)
        (path_given asked.now) files.old files.new (writer_of W.held W.failures out.old out.new)
        result }
{
    match &asked.files.path {
        Some(path) => ask_beside(alloc, asked, question, path.as_bytes(), files, out),
        None => ask_in_itself(alloc, asked, question, files, out),
    }
}

/// Reads the indexes, and tries the groups of the file of a path.
fn ask_beside<F: Opens, W: Sink>(
    alloc: Global,
    asked: &Unmet,
    question: OwnQuestion<'_>,
    path: &[u8],
    files: &mut F,
    out: &mut W,
) -> Result<Summary, FileFault>
    ensures { AsksBeside (opener F.opens F.text F.failures F.Reader.left F.Reader.failures)
        asked.now (environment_of question.entry.environment.now) (own_scope [] question.entry)
        path.now files.old files.new (writer_of W.held W.failures out.old out.new) result }
{
    match read_indexes(
        alloc,
        index_members(asked.members),
        &asked.files.indexes,
        files,
    ) {
        Ok(index) => match leave_out(alloc, index, question.without) {
            Ok(index) => {
                let question = Question {
                    index: &index,
                    unless: question.unless,
                    without: question.without,
                    environment: question.environment,
                };
                let request = request_of(asked.dependents, asked.versions);
                let tried = try_path(alloc, &question, request, path, files, out);
                at_role(Role::Second, tried)
            }
            Err(_) => Err(FileFault::unnamed(Fault::Memory)),
        },
        Err(told) => Err(told.among(Role::First, asked.files.indexes.len())),
    }
}

/// Returns an index without the packages of these names.
fn leave_out(alloc: Global, index: Index, names: &[&[u8]]) -> Result<Index, AllocError>
    ensures { IfOk result
        (λ left. packages_of left ≡ without (names_of names.now) (packages_of index)) }
{
    if names.is_empty() {
        return Ok(index);
    }
    index.without(alloc, names)
}

/// Opens the file of a path, and tries its groups over an index.
fn try_path<F: Opens, W: Sink>(
    alloc: Global,
    question: &Question<'_>,
    request: Request,
    path: &[u8],
    files: &mut F,
    out: &mut W,
) -> Result<Summary, Fault>
    ensures { TriesPath (opener F.opens F.text F.failures F.Reader.left F.Reader.failures)
        (asks_of request (environment_of question.now.environment.now) (scope_of question.now))
        path.now files.old files.new (writer_of W.held W.failures out.old out.new) result }
{
    match files.open(path) {
        Ok(mut reader) => unmet(alloc, question, request, &mut reader, out),
        Err(_) => Err(Fault::Read),
    }
}

/// Tries the groups of the last index.
fn ask_in_itself<F: Opens, W: Sink>(
    alloc: Global,
    asked: &Unmet,
    question: OwnQuestion<'_>,
    files: &mut F,
    out: &mut W,
) -> Result<Summary, FileFault>
    ensures { AsksInItself (opener F.opens F.text F.failures F.Reader.left F.Reader.failures)
        asked.now (environment_of question.entry.environment.now) (own_scope [] question.entry)
        files.old files.new (writer_of W.held W.failures out.old out.new) result }
{
    let request = OwnRequest {
        members: index_members(asked.members),
        strength: fields_in(asked.dependents),
        versions: asked.versions,
    };
    match asked.files.indexes.split_last() {
        Some((last, before)) => {
            let own = Own { question, request };
            ask_last(alloc, own, before, last.as_bytes(), files, out)
        }
        None => Ok(Summary {
            paragraphs: 0,
            is_empty: true,
        }),
    }
}

/// What an index in itself is asked, and over what.
#[derive(Clone, Copy)]
struct Own<'a> {
    question: OwnQuestion<'a>,
    request: OwnRequest,
}

/// Reads the indexes before the last one, and tries the groups of that over all of them.
fn ask_last<F: Opens, W: Sink>(
    alloc: Global,
    own: Own<'_>,
    before: &[String],
    last: &[u8],
    files: &mut F,
    out: &mut W,
) -> Result<Summary, FileFault>
    ensures { AsksBefore (opener F.opens F.text F.failures F.Reader.left F.Reader.failures)
        own.entry.request (environment_of own.entry.question.environment.now)
        (own_scope [] own.entry.question) (map string_bytes before.now) last.now files.old
        files.new (writer_of W.held W.failures out.old out.new) result }
{
    let count = before.len() + 1;
    match read_indexes(alloc, own.request.members, before, files) {
        Ok(index) => {
            let tried = try_last(alloc, index, own, last, files, out);
            at_role(role_among(Role::First, count, count as u64), tried)
        }
        Err(told) => Err(told.among(Role::First, count)),
    }
}

/// Opens the last index, and tries its groups over its packages and those of the indexes before it.
fn try_last<F: Opens, W: Sink>(
    alloc: Global,
    index: Index,
    own: Own<'_>,
    last: &[u8],
    files: &mut F,
    out: &mut W,
) -> Result<Summary, Fault>
    ensures { TriesItself (opener F.opens F.text F.failures F.Reader.left F.Reader.failures)
        (own_asked own.entry.request (environment_of own.entry.question.environment.now)
        (own_scope (packages_of index) own.entry.question)) last.now files.old files.new
        (writer_of W.held W.failures out.old out.new) result }
{
    match files.open(last) {
        Ok(mut reader) => {
            unmet_in_itself(alloc, index, own.question, own.request, &mut reader, out)
        }
        Err(_) => Err(Fault::Read),
    }
}

/// Which fields of which kind of file are tried, and which text of versions lines have.
fn request_of(dependents: Dependents, versions: VersionText) -> Request
    ensures { result ≡ request_of dependents versions }
{
    Request {
        asked: asked_of(dependents),
        versions,
    }
}

/// Which fields of which kind of file are tried.
fn asked_of(dependents: Dependents) -> Asked
    ensures { result ≡ asked_of dependents }
{
    match dependents {
        Dependents::Index(strength) | Dependents::Packages(strength) => {
            Asked::Packages(fields_tried(strength))
        }
        Dependents::Binary(strength) => Asked::Binary(fields_tried(strength)),
        Dependents::Sources(which) => Asked::Sources(sources_tried(which)),
        Dependents::Source(which) => Asked::Source(sources_tried(which)),
    }
}

/// Which fields of the packages of the index itself are tried.
fn fields_in(dependents: Dependents) -> deb_unmet::Strength
    ensures { result ≡ fields_in dependents }
{
    match dependents {
        Dependents::Index(strength)
        | Dependents::Packages(strength)
        | Dependents::Binary(strength) => { fields_tried(strength) }
        Dependents::Sources(_) | Dependents::Source(_) => deb_unmet::Strength::Depends,
    }
}

/// Which fields of binary packages are tried.
pub(crate) fn fields_tried(strength: Strength) -> deb_unmet::Strength
    ensures { result ≡ fields_tried strength }
{
    match strength {
        Strength::Depends => deb_unmet::Strength::Depends,
        Strength::Recommends => deb_unmet::Strength::Recommends,
    }
}

/// Which source packages are tried.
fn sources_tried(which: SourcesTried) -> SourcesAsked
    ensures { result ≡ sources_tried which }
{
    match which {
        SourcesTried::OfTarget => SourcesAsked::OfTarget,
        SourcesTried::All => SourcesAsked::All,
    }
}
