//! The job of `audit`: checks many files.

ghost use Rattle.std.specs.Prelude.{◌≡◌, ◌<◌, ℕ, [], ◌∷◌, ◌++◌, map, Err, IfErr, IfOk, Ok, Result};
ghost use Rattle.deb_base.specs.Devices.{failures_after, write_failures_after, Puts};
ghost use Rattle.deb_base.specs.declared.fault.Fault.{Fault};
ghost use Rattle.debctl_commands.specs.AuditJob.{answer_status, answer_words, audit_path};
ghost use Rattle.debctl_commands.specs.AuditJob.{audit_record, fault_words, outcome_status};
ghost use Rattle.debctl_commands.specs.AuditJob.{outcome_words, record_end, AnswersOpened, AuditsPath};
ghost use Rattle.debctl_commands.specs.Reporting.{Reports, ReportsUnopened};
ghost use Rattle.debctl_commands.specs.Turns.{InTurn};
ghost use Rattle.debctl_commands.specs.declared.unopened.Unopened.{Unopened};

use crate::opens::Opens;
use crate::reporting::{FAULT_STATUS, report_fault, report_unopened, status_of};
use crate::unopened::Unopened;
use crate::verdict::Verdict;
use crate::whole_job::check_whole;
use deb_base::{Fault, Sink, Source, put_all, put_pieces};
use deb_explain::write_path;
use deb_field::Doc;
use debctl_args::{Demands, LineEnd};
use itoa::Buffer;
use std::alloc::Global;

/// How an audit reads files and prints their records.
#[derive(Clone, Copy)]
pub struct AuditOptions {
    /// The kind of document that each file is read as.
    pub doc: Doc,
    /// The end of each record, and with it how the path is written.
    pub end: LineEnd,
    /// What is demanded of an accepted file.
    pub demands: Demands,
}

/// Writes to `out` for each file, in the order of the paths, whether it is accepted as a document
/// of a kind, and returns the highest status.
///
/// The record of a file is its path as `deb_explain::write_path` writes it, `: `, and `ok N` for
/// its N paragraphs, what it lacks of the demands, the refusal or the fault, and a newline. With
/// `LineEnd::Nul` it has the path unchanged, and a byte 0 instead of the newline. A file that can't
/// be opened has the fault of a failed read, followed by the reason. A refused file, or a fault of
/// a file, doesn't end the job.
///
/// - 0: each file is accepted and meets the demands.
/// - 2: a file is refused or doesn't meet the demands, and none has a fault.
/// - 3: a file has a fault: out of memory, a failed read, or it couldn't be opened. Or a write
///   failed: then no later file was opened, and `err` has `fault: write`, or a prefix of it if a
///   write to `err` failed. In all other cases nothing was written to `err`.
pub fn run_audit<F: Opens, W: Sink, E: Sink>(
    alloc: Global,
    options: AuditOptions,
    paths: &[&[u8]],
    files: &mut F,
    out: &mut W,
    err: &mut E,
) -> u8
    // Below 3: each file was reported, and nothing on `err`.
    ensures reports_each_file { result < 3 → (err.new ≡ err.old)
        × InTurn (AuditsPath F.Reader.left F.Reader.failures F.opens F.text F.failures W.held
        W.failures options.doc options.demands options.end) (map (λ path. path.now) paths.now)
        files.old out.old (Ok result) files.new out.new }

    // Where a write failed, the status is 3.
    ensures status_3_if_write_failed { W.failures out.old < W.failures out.new → result ≡ 3 }
    ensures status_3_if_err_failed { E.failures err.old < E.failures err.new → result ≡ 3 }

    // Whatever the status: there is an answer, and that is reported.
    ensures reports_answer { (answer : Result ℕ Fault)
        × InTurn (AuditsPath F.Reader.left F.Reader.failures F.opens F.text F.failures W.held
        W.failures options.doc options.demands options.end) (map (λ path. path.now) paths.now)
        files.old out.old answer files.new out.new
        × Reports (λ status. status) E.held E.failures err.old err.new answer result }
{
    match audit(alloc, options, paths, files, out) {
        Ok(status) => status,
        Err(fault) => report_fault(&fault, err),
    }
}

/// Writes to `out`, as the record of a file, that the list of the paths can't be opened, and why,
/// and reports on `err` the fault of a file that can't be read. Returns the status, which is 3.
///
/// If a write to `out` failed, a prefix of the line was written, and that fault is reported.
pub(crate) fn run_without_list<W: Sink, E: Sink>(
    end: LineEnd,
    path: &[u8],
    why: Unopened,
    out: &mut W,
    err: &mut E,
) -> u8
    ensures reports_answer { ReportsUnopened (audit_record end path.now (Err why))
        W.held W.failures out.old out.new E.held E.failures err.old err.new result }
{
    let written = put_audit_record(end, path, &Err(why), out);
    report_unopened(&written, err)
}

/// Checks the files of some paths one after the other, and writes the line of each. Returns the
/// highest of their statuses, or the fault of a write.
fn audit<F: Opens, W: Sink>(
    alloc: Global,
    options: AuditOptions,
    paths: &[&[u8]],
    files: &mut F,
    out: &mut W,
) -> Result<u8, Fault>
    ensures in_turn { InTurn (AuditsPath F.Reader.left F.Reader.failures F.opens F.text F.failures
        W.held W.failures options.doc options.demands options.end) (map (λ path. path.now)
        paths.now) files.old out.old result files.new out.new }
    ensures fault { IfErr result (λ fault. fault ≡ Fault.Write) }
    ensures counts_failure { W.failures out.new ≡ write_failures_after (W.failures out.old) result }
{
    let mut status = 0;
    for path in paths {
        status = audit_file(alloc, options, path, files, out)?.max(status);
    }
    Ok(status)
}

/// Checks the file of a path, and writes its line. Returns its status, or the fault of a write.
fn audit_file<F: Opens, W: Sink>(
    alloc: Global,
    options: AuditOptions,
    path: &[u8],
    files: &mut F,
    out: &mut W,
) -> Result<u8, Fault>
    ensures audits { AuditsPath F.Reader.left F.Reader.failures F.opens F.text F.failures W.held
        W.failures options.doc options.demands options.end path.now files.old out.old result
        files.new out.new }
    ensures fault { IfErr result (λ fault. fault ≡ Fault.Write) }
    ensures counts_failure { W.failures out.new ≡ write_failures_after (W.failures out.old) result }
{
    let outcome = check_path(alloc, options, path, files);
    put_audit_record(options.end, path, &outcome, out)?;
    Ok(outcome_status(&outcome))
}

/// Opens the file of a path, and checks it, or answers why it can't be opened.
fn check_path<F: Opens>(
    alloc: Global,
    options: AuditOptions,
    path: &[u8],
    files: &mut F,
) -> Result<Result<Verdict, Fault>, Unopened>
    ensures answers { (opened after : Result F.Reader Unopened)
        × IfOk opened (λ reader. F.Reader.left reader ≡ F.text files.old path.now)
        × AnswersOpened F.Reader.left F.Reader.failures options.doc options.demands opened after
        result
        × F.opens files.old path.now opened files.new
        × (F.failures files.new ≡ failures_after (F.failures files.old) opened) }
    ensures unchanged { F.text files.new ≡ F.text files.old }
{
    check_opened(alloc, options, &mut files.open(path))
}

/// Checks a file that was opened, and then reads no more of it, or answers why it can't be opened.
fn check_opened<R: Source>(
    alloc: Global,
    options: AuditOptions,
    opened: &mut Result<R, Unopened>,
) -> Result<Result<Verdict, Fault>, Unopened>
    ensures { AnswersOpened R.left R.failures options.doc options.demands opened.old opened.new
        result }
{
    match opened {
        Ok(reader) => Ok(check_whole(alloc, options.doc, options.demands, reader)),
        Err(why) => Err(*why),
    }
}

/// The status of what became of a file.
fn outcome_status(outcome: &Result<Result<Verdict, Fault>, Unopened>) -> u8
    ensures { result ≡ outcome_status outcome.now }
{
    match outcome {
        Ok(answer) => answer_status(answer),
        Err(_) => FAULT_STATUS,
    }
}

/// The status of what is answered of a file.
fn answer_status(answer: &Result<Verdict, Fault>) -> u8
    ensures { result ≡ answer_status answer.now }
{
    match answer {
        Ok(verdict) => verdict.status(),
        Err(fault) => status_of(fault),
    }
}

/// Writes the record of what became of a file, after its path.
#[tactic(auto, using(deb_base::proofs::Writes::puts))]
pub(crate) fn put_audit_record<W: Sink>(
    end: LineEnd,
    path: &[u8],
    outcome: &Result<Result<Verdict, Fault>, Unopened>,
    out: &mut W,
) -> Result<(), Fault>
    ensures written { Puts (W.held out.old) (W.held out.new) result
        (audit_record end path.now outcome.now) }
    ensures fault { IfErr result (λ fault. fault ≡ Fault.Write) }
    ensures counts_failure { W.failures out.new ≡ write_failures_after (W.failures out.old) result }
{
    put_audit_path(end, path, out)?;
    put_after_path(b": ", outcome, end, out)
}

/// Writes the part of a record after the path.
#[tactic(auto, using(deb_base::proofs::Writes::puts))]
fn put_after_path<W: Sink>(
    colon: &[u8],
    outcome: &Result<Result<Verdict, Fault>, Unopened>,
    end: LineEnd,
    out: &mut W,
) -> Result<(), Fault>
    ensures written { Puts (W.held out.old) (W.held out.new) result
        (colon.now ++ (outcome_words outcome.now ++ record_end end ∷ [])) }
    ensures fault { IfErr result (λ fault. fault ≡ Fault.Write) }
    ensures counts_failure { W.failures out.new ≡ write_failures_after (W.failures out.old) result }
{
    put_all(out, colon)?;
    put_outcome(outcome, out)?;
    put_all(out, &[record_end(end)])
}

/// Writes a path, so that it can be shown or as it is.
pub(crate) fn put_audit_path<W: Sink>(end: LineEnd, path: &[u8], out: &mut W) -> Result<(), Fault>
    ensures written { Puts (W.held out.old) (W.held out.new) result (audit_path end path.now) }
    ensures fault { IfErr result (λ fault. fault ≡ Fault.Write) }
    ensures counts_failure { W.failures out.new ≡ write_failures_after (W.failures out.old) result }
{
    match end {
        LineEnd::Newline => write_path(path, out),
        LineEnd::Nul => put_all(out, path),
    }
}

/// The byte that ends a record.
pub(crate) fn record_end(end: LineEnd) -> u8
    ensures { result ≡ record_end end }
{
    match end {
        LineEnd::Newline => b'\n',
        LineEnd::Nul => 0,
    }
}

/// Writes what became of a file.
fn put_outcome<W: Sink>(
    outcome: &Result<Result<Verdict, Fault>, Unopened>,
    out: &mut W,
) -> Result<(), Fault>
    ensures written { Puts (W.held out.old) (W.held out.new) result (outcome_words outcome.now) }
    ensures fault { IfErr result (λ fault. fault ≡ Fault.Write) }
    ensures counts_failure { W.failures out.new ≡ write_failures_after (W.failures out.old) result }
{
    match outcome {
        Ok(answer) => put_answer(answer, out),
        Err(why) => why.write_after(b"fault: read: ", out),
    }
}

/// Writes what is answered of a file.
fn put_answer<W: Sink>(answer: &Result<Verdict, Fault>, out: &mut W) -> Result<(), Fault>
    ensures written { Puts (W.held out.old) (W.held out.new) result (answer_words answer.now) }
    ensures fault { IfErr result (λ fault. fault ≡ Fault.Write) }
    ensures counts_failure { W.failures out.new ≡ write_failures_after (W.failures out.old) result }
{
    match answer {
        Ok(verdict) => verdict.write_words(out),
        Err(fault) => put_fault(fault, out),
    }
}

/// Writes a fault as its line has it.
fn put_fault<W: Sink>(fault: &Fault, out: &mut W) -> Result<(), Fault>
    ensures written { Puts (W.held out.old) (W.held out.new) result (fault_words fault.now) }
    ensures fault { IfErr result (λ fault. fault ≡ Fault.Write) }
    ensures counts_failure { W.failures out.new ≡ write_failures_after (W.failures out.old) result }
{
    match fault {
        Fault::Refused(refusal) => put_pieces(
            out,
            &[
                b"line ",
                Buffer::new().format(refusal.line).as_bytes(),
                b": ",
                Buffer::new().format(refusal.number()).as_bytes(),
                b" ",
                refusal.code.name(),
            ],
        ),
        Fault::Memory => put_all(out, b"fault: memory"),
        Fault::Read => put_all(out, b"fault: read"),
        Fault::Write => put_all(out, b"fault: write"),
    }
}
