//! The job of `audit --all`: reports every refusal of many files.

ghost use Rattle.std.specs.Prelude.{◌≡◌, ◌<◌, ℕ, map, IfErr, Ok, Err, Result};
ghost use Rattle.deb_base.specs.Devices.{write_failures_after, Puts};
ghost use Rattle.deb_base.specs.declared.fault.Fault.{Fault};
ghost use Rattle.debctl_commands.specs.AuditAllJob.{total_record, FileReport, Finds};
ghost use Rattle.debctl_commands.specs.AuditAllJob.{FindsOpened, ReportsPath, WritesReport};
ghost use Rattle.debctl_commands.specs.AuditJob.{audit_record};
ghost use Rattle.debctl_commands.specs.Reporting.{Reports};
ghost use Rattle.debctl_commands.specs.Turns.{InTurn};

use crate::audit_job::{AuditOptions, put_audit_path, put_audit_record, record_end};
use crate::opens::Opens;
use crate::reporting::{FAULT_STATUS, report_fault};
use crate::unopened::Unopened;
use deb_base::{Fault, Sink, Source, put_pieces};
use deb_control::{Refusals, Summary};
use debctl_args::LineEnd;
use itoa::Buffer;
use std::alloc::Global;

/// Writes to `out` for each file, in the order of the paths, a record for each of its refusals as a
/// document of a kind, and one for its end, and returns the highest status.
///
/// A record is that of [`run_audit`](crate::run_audit), with a refusal, or at the end with `ok N, M
/// refused`: how many paragraphs passed, and how many runs of lines were refused. The end of a file
/// that couldn't be read on is its fault, and a file that can't be opened has one record, with the
/// reason. A refused file, or a fault of a file, doesn't end the job.
///
/// - 0: no file has a refusal.
/// - 2: a file has a refusal, and none has a fault.
/// - 3: a file has a fault: out of memory, a failed read, or it couldn't be opened. Or a write
///   failed: then no later file was opened, and `err` has `fault: write`, or a prefix of it if a
///   write to `err` failed. In all other cases nothing was written to `err`.
pub fn run_audit_all<F: Opens, W: Sink, E: Sink>(
    alloc: Global,
    options: AuditOptions,
    paths: &[&[u8]],
    files: &mut F,
    out: &mut W,
    err: &mut E,
) -> u8
    // Below 3: each file was reported, and nothing on `err`.
    ensures reports_each_file { result < 3 → (err.new ≡ err.old)
        × InTurn (ReportsPath F.Reader.left F.Reader.failures F.opens F.text F.failures W.held
        W.failures options.doc options.end) (map (λ path. path.now) paths.now) files.old out.old
        (Ok result) files.new out.new }

    // Where a write failed, the status is 3.
    ensures status_3_if_write_failed { W.failures out.old < W.failures out.new → result ≡ 3 }
    ensures status_3_if_err_failed { E.failures err.old < E.failures err.new → result ≡ 3 }

    // Whatever the status: there is an answer, and that is reported.
    ensures reports_answer { (answer : Result ℕ Fault)
        × InTurn (ReportsPath F.Reader.left F.Reader.failures F.opens F.text F.failures W.held
        W.failures options.doc options.end) (map (λ path. path.now) paths.now) files.old out.old
        answer files.new out.new
        × Reports (λ status. status) E.held E.failures err.old err.new answer result }
{
    match audit_all(alloc, options, paths, files, out) {
        Ok(status) => status,
        Err(fault) => report_fault(&fault, err),
    }
}

/// Reports the files of some paths one after the other. Returns the worst of their statuses, or the
/// fault of a write.
fn audit_all<F: Opens, W: Sink>(
    alloc: Global,
    options: AuditOptions,
    paths: &[&[u8]],
    files: &mut F,
    out: &mut W,
) -> Result<u8, Fault>
    ensures in_turn { InTurn (ReportsPath F.Reader.left F.Reader.failures F.opens F.text F.failures
        W.held W.failures options.doc options.end) (map (λ path. path.now) paths.now) files.old
        out.old result files.new out.new }
    ensures fault { IfErr result (λ fault. fault ≡ Fault.Write) }
    ensures counts_failure { W.failures out.new ≡ write_failures_after (W.failures out.old) result }
{
    let mut status = 0;
    for path in paths {
        status = report_path(alloc, options, path, files, out)?.max(status);
    }
    Ok(status)
}

/// Opens the file of a path, and reports it. Returns its status, or the fault of a write.
fn report_path<F: Opens, W: Sink>(
    alloc: Global,
    options: AuditOptions,
    path: &[u8],
    files: &mut F,
    out: &mut W,
) -> Result<u8, Fault>
    ensures reports { ReportsPath F.Reader.left F.Reader.failures F.opens F.text F.failures W.held
        W.failures options.doc options.end path.now files.old out.old result files.new out.new }
    ensures fault { IfErr result (λ fault. fault ≡ Fault.Write) }
    ensures counts_failure { W.failures out.new ≡ write_failures_after (W.failures out.old) result }
{
    report_opened(alloc, options, path, &mut files.open(path), out)
}

/// Reports a file that was opened, or why it can't be opened.
fn report_opened<R: Source, W: Sink>(
    alloc: Global,
    options: AuditOptions,
    path: &[u8],
    opened: &mut Result<R, Unopened>,
    out: &mut W,
) -> Result<u8, Fault>
    ensures reports { (report : FileReport)
        × FindsOpened R.left R.failures options.doc opened.old opened.new report
        × WritesReport options.end path.now report (W.held out.old) (W.held out.new)
        (W.failures out.old) (W.failures out.new) result }
    ensures fault { IfErr result (λ fault. fault ≡ Fault.Write) }
    ensures counts_failure { W.failures out.new ≡ write_failures_after (W.failures out.old) result }
{
    match opened {
        Ok(reader) => report_file(alloc, options, path, reader, out),
        Err(why) => {
            put_audit_record(options.end, path, &Err(*why), out)?;
            Ok(FAULT_STATUS)
        }
    }
}

/// Writes the records of a file. Returns its status, or the fault of a write.
fn report_file<R: Source, W: Sink>(
    alloc: Global,
    options: AuditOptions,
    path: &[u8],
    reader: &mut R,
    out: &mut W,
) -> Result<u8, Fault>
    ensures reports { (report : FileReport)
        × Finds options.doc (R.left reader.old) (R.left reader.new) (R.failures reader.old)
        (R.failures reader.new) report
        × WritesReport options.end path.now report (W.held out.old) (W.held out.new)
        (W.failures out.old) (W.failures out.new) result }
    ensures fault { IfErr result (λ fault. fault ≡ Fault.Write) }
    ensures counts_failure { W.failures out.new ≡ write_failures_after (W.failures out.old) result }
{
    let mut refusals = Refusals::new(alloc, options.doc);
    let mut status = 0;
    for _ in 0..u64::MAX {
        match refusals.next(reader) {
            Ok(Some(refusal)) => {
                put_fault_record(options.end, path, Fault::Refused(refusal), out)?;
                status = 2;
            }
            Ok(None) => {
                put_total(options.end, path, refusals.summary(), out)?;
                return Ok(status);
            }
            Err(fault) => {
                put_fault_record(options.end, path, fault, out)?;
                return Ok(FAULT_STATUS);
            }
        }
    }
    // No file has so many runs of lines.
    put_fault_record(options.end, path, Fault::Memory, out)?;
    Ok(FAULT_STATUS)
}

/// Writes the record of a fault of a file, or of a refusal.
fn put_fault_record<W: Sink>(
    end: LineEnd,
    path: &[u8],
    fault: Fault,
    out: &mut W,
) -> Result<(), Fault>
    ensures written { Puts (W.held out.old) (W.held out.new) result
        (audit_record end path.now (Ok (Err fault))) }
    ensures fault { IfErr result (λ fault. fault ≡ Fault.Write) }
    ensures counts_failure { W.failures out.new ≡ write_failures_after (W.failures out.old) result }
{
    put_audit_record(end, path, &Ok(Err(fault)), out)
}

/// Writes the record of the counts of a file.
#[tactic(auto, using(deb_base::proofs::Writes::puts))]
fn put_total<W: Sink>(end: LineEnd, path: &[u8], summary: Summary, out: &mut W) -> Result<(), Fault>
    ensures written { Puts (W.held out.old) (W.held out.new) result
        (total_record end path.now summary) }
    ensures fault { IfErr result (λ fault. fault ≡ Fault.Write) }
    ensures counts_failure { W.failures out.new ≡ write_failures_after (W.failures out.old) result }
{
    put_audit_path(end, path, out)?;
    put_pieces(
        out,
        &[
            b": ok ",
            Buffer::new().format(summary.passed).as_bytes(),
            b", ",
            Buffer::new().format(summary.refused).as_bytes(),
            b" refused",
            &[record_end(end)],
        ],
    )
}
