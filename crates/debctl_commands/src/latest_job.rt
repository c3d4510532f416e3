//! The job on files whose paragraphs with the latest versions are written: `latest`.

ghost use Rattle.std.specs.Prelude.{◌≡◌, ◌<◌, [], length, map, option_map, string_bytes};
ghost use Rattle.std.specs.Prelude.{IfErr, IfOk};
ghost use Rattle.deb_base.specs.declared.fault.Fault.TheVariants.{Memory, Refused};
ghost use Rattle.deb_control.specs.Documents.{Meaning};
ghost use Rattle.deb_latest.specs.Reads.{HasRead};
ghost use Rattle.deb_latest.specs.Requests.{asked_of, latest_of, Asked};
ghost use Rattle.deb_latest.specs.Writes.{HasWritten};
ghost use Rattle.deb_version.specs.Version.{meaning_of};
ghost use Rattle.debctl_commands.specs.Ending.{EndsBy, RefusesWith, SaysBy};
ghost use Rattle.debctl_commands.specs.JobDevices.{writer_of};
ghost use Rattle.debctl_commands.specs.LatestJob.{by_asked, kind_asked, step_status};
ghost use Rattle.debctl_commands.specs.LatestJob.{unless_changed, AddsLatest, AnswersLatest};
ghost use Rattle.debctl_commands.specs.LatestJob.{AsksFiles, AsksLatest, RefusesLimit, SpellsLimit};
ghost use Rattle.debctl_commands.specs.LatestJob.{WritesAgain, WritesPath};
ghost use Rattle.debctl_commands.specs.OpenedFiles.{opener, InOrder, ReadsMore};
ghost use Rattle.debctl_commands.specs.Promises.{done};
ghost use Rattle.debctl_commands.specs.Turns.{InTurn};
ghost use Rattle.debctl_commands.specs.VersionJobs.{bad_version};

use crate::file_fault::{FileFault, PlaceFault, Role, at_role, report_file_fault};
use crate::opens::Opens;
use crate::version_jobs::parse_word;
use deb_base::{Fault, Sink};
use deb_latest::{By, Kind, Latest, Request, Winners};
use deb_version::Version;
use debctl_args::{LatestBy, LatestKind, LatestOf};
use std::alloc::Global;

/// Opens the files of some paths twice, and writes to `out` of each of their packages the paragraph
/// with the latest version, as the file spells it, with an empty line between two. Returns the
/// status.
///
/// The files are opened and read in order, first all of them and then all again, but none before
/// the version of `--before` is good and none after a fault.
///
/// - 0: the paragraphs were written, and nothing to `err`.
/// - 2: that version, or a file is refused. Nothing was written to `out`, and the refusal's line on
///   `err`, after `index K: ` for the K-th of several files.
/// - 3: out of memory, an opening, a read or a write failed, or a file has changed between the
///   readings, so that it has another number of paragraphs or is refused. A prefix of the
///   paragraphs was written. `err` has the fault's line; if a write to `err` failed, a prefix of
///   its line.
///
/// At most 4,295,032,831 bytes are read from each file that is opened: a file of the most bytes,
/// and one piece.
pub fn run_latest<F: Opens, W: Sink, E: Sink>(
    alloc: Global,
    latest: &LatestOf,
    files: &mut F,
    out: &mut W,
    err: &mut E,
) -> u8
    // Status 0, and never 1.
    ensures done { result < 2 → SaysBy done
        (AsksLatest (opener F.opens F.text F.failures F.Reader.left F.Reader.failures) latest.now
        files.old files.new (writer_of W.held W.failures out.old out.new))
        (writer_of E.held E.failures err.old err.new) result }
    ensures refused { result ≡ 2 → RefusesWith
        (AsksLatest (opener F.opens F.text F.failures F.Reader.left F.Reader.failures) latest.now
        files.old files.new (writer_of W.held W.failures out.old out.new))
        (writer_of E.held E.failures err.old err.new) }

    // Where an opening or a write failed, the status is 3.
    ensures status_3_if_opening_failed { F.failures files.old < F.failures files.new → result ≡ 3 }
    ensures status_3_if_write_failed { W.failures out.old < W.failures out.new → result ≡ 3 }
    ensures status_3_if_err_failed { E.failures err.old < E.failures err.new → result ≡ 3 }

    // Whatever the status: the files were opened and read so, there is an answer, and that is
    // reported.
    ensures reports_answer { EndsBy done
        (AsksLatest (opener F.opens F.text F.failures F.Reader.left F.Reader.failures) latest.now
        files.old files.new (writer_of W.held W.failures out.old out.new))
        (writer_of E.held E.failures err.old err.new) result }
{
    report_latest(alloc, latest, files, out, err)
}

/// Writes the paragraphs, and reports the answer.
fn report_latest<F: Opens, W: Sink, E: Sink>(
    alloc: Global,
    latest: &LatestOf,
    files: &mut F,
    out: &mut W,
    err: &mut E,
) -> u8
    ensures { EndsBy done
        (AsksLatest (opener F.opens F.text F.failures F.Reader.left F.Reader.failures) latest.now
        files.old files.new (writer_of W.held W.failures out.old out.new))
        (writer_of E.held E.failures err.old err.new) result }
{
    match write_latest(alloc, latest, files, out) {
        Ok(()) => 0,
        Err(told) => report_file_fault(told, err),
    }
}

/// Writes the paragraphs with the latest versions.
fn write_latest<F: Opens, W: Sink>(
    alloc: Global,
    latest: &LatestOf,
    files: &mut F,
    out: &mut W,
) -> Result<(), FileFault>
    ensures { AsksLatest (opener F.opens F.text F.failures F.Reader.left F.Reader.failures)
        latest.now files.old files.new (writer_of W.held W.failures out.old out.new) result }
{
    match parse_limit(&latest.before) {
        Ok(before) => {
            let request = Request {
                kind: kind_asked(latest.kind),
                by: by_asked(latest.by),
                before,
            };
            write_files(alloc, &request, &latest.paths, files, out)
        }
        Err(fault) => Err(FileFault::unnamed(fault)),
    }
}

/// Parses the version before which all are that are considered, if there is one.
fn parse_limit(before: &Option<String>) -> Result<Option<Version<'_>>, Fault>
    ensures ok { IfOk result (λ limit. SpellsLimit (option_map string_bytes before.now)
        (option_map meaning_of limit)) }
    ensures refused { IfErr result (λ fault. (fault ≡ Refused bad_version)
        × RefusesLimit (option_map string_bytes before.now)) }
{
    match before {
        None => Ok(None),
        Some(text) => match parse_word(text.as_str()) {
            Ok(version) => Ok(Some(version)),
            Err(fault) => Err(fault),
        },
    }
}

/// Finds the paragraphs with the latest versions, and writes them.
fn write_files<F: Opens, W: Sink>(
    alloc: Global,
    request: &Request<'_>,
    paths: &[String],
    files: &mut F,
    out: &mut W,
) -> Result<(), FileFault>
    ensures { AsksFiles (opener F.opens F.text F.failures F.Reader.left F.Reader.failures)
        (asked_of request.now) (map string_bytes paths.now) files.old files.new
        (writer_of W.held W.failures out.old out.new) result }
{
    match find_winners(alloc, request, paths, files) {
        Ok(winners) => at_role(Role::Unnamed, write_winners(winners, paths, files, out)),
        Err(told) => Err(told.among(Role::Unnamed, paths.len())),
    }
}

/// Reads the files of some paths, and finds their paragraphs with the latest versions.
fn find_winners<F: Opens>(
    alloc: Global,
    request: &Request<'_>,
    paths: &[String],
    files: &mut F,
) -> Result<Winners, PlaceFault>
    ensures { AnswersLatest (opener F.opens F.text F.failures F.Reader.left F.Reader.failures)
        (asked_of request.now) (map string_bytes paths.now) files.old result files.new }
{
    match Latest::new(alloc, request) {
        Ok(none) => match read_files(none, paths, files) {
            Ok(latest) => winners_of(alloc, &latest),
            Err(told) => Err(told),
        },
        Err(_) => Err(out_of_memory()),
    }
}

/// Returns the paragraphs with the latest versions of those that were read.
fn winners_of(alloc: Global, latest: &Latest) -> Result<Winners, PlaceFault>
    ensures ok { (asked : Asked) (meaning : Meaning) → HasRead asked meaning latest.now
        → IfOk result (HasWritten (latest_of asked meaning) (length meaning) []) }
    ensures fault { IfErr result (λ told. told.fault ≡ Memory) }
{
    match latest.winners() {
        Ok(numbers) => Ok(Winners::new(alloc, numbers, latest.count())),
        Err(_) => Err(out_of_memory()),
    }
}

/// Returns the fault of a job that has no memory for what it keeps.
fn out_of_memory() -> PlaceFault
    ensures { result ≡ record { place = 1; fault = Memory } }
{
    PlaceFault {
        place: 1,
        fault: Fault::Memory,
    }
}

/// Reads the files of some paths after those that were read before.
fn read_files<F: Opens>(
    latest: Latest,
    paths: &[String],
    files: &mut F,
) -> Result<Latest, PlaceFault>
    ensures { InOrder (ReadsMore (opener F.opens F.text F.failures F.Reader.left F.Reader.failures)
        AddsLatest) 1 (map string_bytes paths.now) files.old latest result files.new }
{
    let mut latest = latest;
    let mut place = 0;
    for path in paths {
        place += 1;
        match read_file(latest, path.as_bytes(), files) {
            Ok(more) => latest = more,
            Err(fault) => return Err(PlaceFault { place, fault }),
        }
    }
    Ok(latest)
}

/// Reads the file of a path after those that were read before.
fn read_file<F: Opens>(latest: Latest, path: &[u8], files: &mut F) -> Result<Latest, Fault>
    ensures { ReadsMore (opener F.opens F.text F.failures F.Reader.left F.Reader.failures)
        AddsLatest path.now files.old latest result files.new }
{
    match files.open(path) {
        Ok(mut reader) => latest.read(&mut reader),
        Err(_) => Err(Fault::Read),
    }
}

/// Reads the files of some paths again, and writes the paragraphs with the latest versions.
///
/// # Errors
///
/// The first fault; or `Fault::Read` if a file has changed since, so that it is refused or there is
/// another number of paragraphs.
fn write_winners<F: Opens, W: Sink>(
    winners: Winners,
    paths: &[String],
    files: &mut F,
    out: &mut W,
) -> Result<(), Fault>
    ensures { WritesAgain (opener F.opens F.text F.failures F.Reader.left F.Reader.failures)
        (map string_bytes paths.now) winners files.old files.new
        (writer_of W.held W.failures out.old out.new) result }
{
    let mut winners = winners;
    match write_paths(&mut winners, paths, files, out) {
        Ok(()) => {
            if winners.is_complete() {
                Ok(())
            } else {
                Err(Fault::Read)
            }
        }
        Err(fault) => Err(fault),
    }
}

/// Writes those of the files of some paths, one file after another.
fn write_paths<F: Opens, W: Sink>(
    winners: &mut Winners,
    paths: &[String],
    files: &mut F,
    out: &mut W,
) -> Result<(), Fault>
    ensures { InTurn (WritesPath (opener F.opens F.text F.failures F.Reader.left F.Reader.failures)
        W.held W.failures) (map string_bytes paths.now) files.old (winners.old, out.old)
        (step_status result) files.new (winners.new, out.new) }
{
    for path in paths {
        write_path(winners, path.as_bytes(), files, out)?;
    }
    Ok(())
}

/// Writes those of the file of a path.
fn write_path<F: Opens, W: Sink>(
    winners: &mut Winners,
    path: &[u8],
    files: &mut F,
    out: &mut W,
) -> Result<(), Fault>
    ensures { WritesPath (opener F.opens F.text F.failures F.Reader.left F.Reader.failures) W.held
        W.failures path.now files.old (winners.old, out.old) (step_status result) files.new
        (winners.new, out.new) }
{
    match files.open(path) {
        Ok(mut reader) => unless_changed(winners.write(&mut reader, out)),
        Err(_) => Err(Fault::Read),
    }
}

/// Returns the answer of a file that is read again: if it is refused now, it has changed.
fn unless_changed(answer: Result<(), Fault>) -> Result<(), Fault>
    ensures { result ≡ unless_changed answer }
{
    match answer {
        Ok(()) => Ok(()),
        Err(Fault::Refused(_)) => Err(Fault::Read),
        Err(fault) => Err(fault),
    }
}

/// The kind of the files.
fn kind_asked(kind: LatestKind) -> Kind
    ensures { result ≡ kind_asked kind }
{
    match kind {
        LatestKind::Packages => Kind::Packages,
        LatestKind::Sources => Kind::Sources,
    }
}

/// Which paragraphs are of one package.
fn by_asked(by: LatestBy) -> By
    ensures { result ≡ by_asked by }
{
    match by {
        LatestBy::Name => By::Name,
        LatestBy::NameAndArchitecture => By::NameAndArchitecture,
    }
}
