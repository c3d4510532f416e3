//! The jobs on versions: `compare`, `canon-version` and `version-key`.

ghost use Rattle.std.specs.Prelude.{◌≡◌, ◌<◌, map, string_bytes, Bool, Result, ⊤};
ghost use Rattle.deb_base.specs.Devices.{one_more};
ghost use Rattle.deb_base.specs.declared.fault.Fault.{Fault};
ghost use Rattle.debctl_commands.specs.KeyJob.{GivesKey, GivesKeys, Keys};
ghost use Rattle.debctl_commands.specs.Reporting.{done_status, Reports};
ghost use Rattle.debctl_commands.specs.VersionJobs.{holds, verdict_status, Canonicalises};
ghost use Rattle.debctl_commands.specs.VersionJobs.{Compares, GivesLine, ParsesWord};

use crate::reporting::report_fault;
use deb_base::{Code, Fault, Refusal, Sink, put_all};
use deb_version::Version;
use debctl_args::Cmp;
use std::alloc::Global;
use std::cmp::Ordering;

/// Compares two versions, and returns the status. It writes nothing but a fault's line on `err`.
///
/// - 0 and 1: they compare as the operator asks, and they don't.
/// - 2: one of them is no version. `err` has `line 0: 18 BadVersion`.
/// - 3: a write to `err` failed, and `err` has a prefix of its line. No memory is taken.
pub(crate) fn run_compare<E: Sink>(left: &str, operator: Cmp, right: &str, err: &mut E) -> u8

    // The status is 3 only where a write failed.
    ensures fault { result ≡ 3 → E.failures err.new ≡ one_more (E.failures err.old) }

    // Whatever the status: there is an answer, and that is reported.
    ensures reports_answer { (answer : Result Bool Fault) × Compares left.now operator right.now
        answer
        × Reports verdict_status E.held E.failures err.old err.new answer result }
{
    match compare_words(left, operator, right) {
        Ok(true) => 0,
        Ok(false) => 1,
        Err(fault) => report_fault(&fault, err),
    }
}

/// Writes the canonical text of a version with a newline on `out`, and returns the status.
///
/// - 0: that line was written, and nothing to `err`.
/// - 2: this is no version. Nothing was written to `out`, and `line 0: 18 BadVersion` on `err`.
/// - 3: out of memory, or a write failed. `err` has `fault: memory` or `fault: write`; if a
///   write to `err` failed, a prefix of its line.
pub(crate) fn run_canon_version<W: Sink, E: Sink>(
    alloc: Global,
    version: &str,
    out: &mut W,
    err: &mut E,
) -> u8

    // Where a write failed, the status is 3.
    ensures status_3_if_write_failed { W.failures out.old < W.failures out.new → result ≡ 3 }

    // Whatever the status: there is an answer, and that is reported.
    ensures reports_answer { (answer : Result ⊤ Fault)
        × Canonicalises version.now W.held W.failures out.old out.new answer
        × Reports done_status E.held E.failures err.old err.new answer result }
{
    match write_canonical(alloc, version, out) {
        Ok(()) => 0,
        Err(fault) => report_fault(&fault, err),
    }
}

/// Writes the keys of versions to `out`, in hexadecimal and in the order given, each with a
/// newline, and returns the status.
///
/// - 0: these lines were written, and nothing to `err`.
/// - 2: some text is no version. Nothing was written to `out`, and `line 0: 18 BadVersion` on
///   `err`.
/// - 3: out of memory, or a write failed. `err` has `fault: memory` or `fault: write`; if a
///   write to `err` failed, a prefix of its line.
pub(crate) fn run_version_key<W: Sink, E: Sink>(
    alloc: Global,
    versions: &[String],
    out: &mut W,
    err: &mut E,
) -> u8

    // Where a write failed, the status is 3.
    ensures status_3_if_write_failed { W.failures out.old < W.failures out.new → result ≡ 3 }

    // Whatever the status: there is an answer, and that is reported.
    ensures reports_answer { (answer : Result ⊤ Fault)
        × Keys (map string_bytes versions.now) W.held W.failures out.old out.new answer
        × Reports done_status E.held E.failures err.old err.new answer result }
{
    match write_keys(alloc, versions, out) {
        Ok(()) => 0,
        Err(fault) => report_fault(&fault, err),
    }
}

/// Whether two versions compare as the operator asks.
fn compare_words(left: &str, operator: Cmp, right: &str) -> Result<bool, Fault>
    ensures { Compares left.now operator right.now result }
{
    let left = parse_word(left)?;
    let right = parse_word(right)?;
    Ok(holds(operator, left.cmp(&right)))
}

/// Writes the canonical text of a version with a newline.
fn write_canonical<W: Sink>(alloc: Global, version: &str, out: &mut W) -> Result<(), Fault>
    ensures { Canonicalises version.now W.held W.failures out.old out.new result }
{
    let line = canonical_line(alloc, version)?;
    put_all(out, line.as_slice())
}

fn canonical_line(alloc: Global, version: &str) -> Result<Vec<u8>, Fault>
    ensures { GivesLine (λ line. line.items) version.now result }
{
    let version = parse_word(version)?;
    let mut line = Vec::new(alloc);
    version.canon_into(&mut line)?;
    line.push(b'\n')?;
    Ok(line)
}

/// Writes the lines of the keys of versions.
fn write_keys<W: Sink>(alloc: Global, versions: &[String], out: &mut W) -> Result<(), Fault>
    ensures { Keys (map string_bytes versions.now) W.held W.failures out.old out.new result }
{
    let lines = key_lines(alloc, versions)?;
    put_all(out, lines.as_slice())
}

fn key_lines(alloc: Global, versions: &[String]) -> Result<Vec<u8>, Fault>
    ensures { GivesKeys (λ lines. lines.items) (map string_bytes versions.now) result }
{
    let mut lines = Vec::new(alloc);
    for version in versions {
        let line = key_line(alloc, version.as_str())?;
        lines.extend_from_slice(line.as_bytes())?;
    }
    Ok(lines)
}

fn key_line(alloc: Global, version: &str) -> Result<String, Fault>
    ensures { GivesKey string_bytes version.now result }
{
    let version = parse_word(version)?;
    let mut key = Vec::new(alloc);
    version.key_into(&mut key)?;
    let mut line = hex::encode(alloc, key)?;
    line.push('\n')?;
    Ok(line)
}

/// Parses a version from the command line.
pub(crate) fn parse_word(word: &str) -> Result<Version<'_>, Fault>
    ensures { ParsesWord word.now result }
{
    match Version::parse(word.as_bytes()) {
        Ok(version) => Ok(version),
        Err(_) => Err(Fault::Refused(Refusal {
            code: Code::BadVersion,
            line: 0,
        })),
    }
}

fn holds(operator: Cmp, order: Ordering) -> bool
    ensures { result ≡ holds operator order }
{
    match operator {
        Cmp::Less => order == Ordering::Less,
        Cmp::LessOrEqual => order != Ordering::Greater,
        Cmp::Equal => order == Ordering::Equal,
        Cmp::NotEqual => order != Ordering::Equal,
        Cmp::GreaterOrEqual => order != Ordering::Less,
        Cmp::Greater => order == Ordering::Greater,
    }
}
