//! The jobs of `explain`.

ghost use Rattle.std.specs.Prelude.{◌≡◌, ◌<◌, ℕ, Bool, List, Some, ⊤, IfErr, Result};
ghost use Rattle.deb_base.specs.Devices.{write_failures_after, Puts};
ghost use Rattle.deb_base.specs.declared.fault.Fault.{Fault};
ghost use Rattle.debctl_commands.specs.DocumentJobs.{WritesOk};
ghost use Rattle.debctl_commands.specs.ExplainJob.{explain_status, unopened_text, Explains};
ghost use Rattle.debctl_commands.specs.ExplainJob.{ExplainsCondition, ExplainsWord};
ghost use Rattle.debctl_commands.specs.ExplainJob.{WritesExplanation, WritesRule};
ghost use Rattle.debctl_commands.specs.Reporting.{done_status, Reports, ReportsUnopened};
ghost use Rattle.debctl_commands.specs.Taking.{TakesFile};

use crate::document_jobs::put_ok_line;
use crate::reporting::{report_fault, report_unopened};
use crate::unopened::Unopened;
use deb_base::{Code, Fault, Sink, Source, put_all};
use deb_explain::{
    Explained, Word, explain, explain_word, write_file_line, write_refused_word, write_rule_of,
};
use deb_field::Doc;
use deb_select::explain_condition;
use std::alloc::Global;

/// Writes to `out` that a file is accepted as a document of a kind, or why it is refused, under its
/// path, and returns the status.
///
/// - 0: the file is accepted. `ok N` with a newline was written, for its N paragraphs.
/// - 2: the file is refused. Its explanation was written, in lines `key: value`.
/// - 3: out of memory, a read failed, or a write failed. `err` has the fault's line; if a write to
///   `err` failed, a prefix of it.
///
/// Except for status 3, nothing was written to `err`.
pub fn run_explain<R: Source, W: Sink, E: Sink>(
    alloc: Global,
    doc: Doc,
    path: &[u8],
    first: &mut R,
    out: &mut W,
    err: &mut E,
) -> u8
    ensures done { result ≡ 0 → (err.new ≡ err.old)
        × ((text : List ℕ) → R.left first.old ≡ Some text
        → WritesOk doc text (W.held out.old) (W.held out.new)) }
    ensures refused { result ≡ 2 → (err.new ≡ err.old)
        × ((text : List ℕ) → R.left first.old ≡ Some text
        → WritesExplanation doc path.now text (W.held out.old) (W.held out.new)) }
    ensures reads_at_most { TakesFile (R.left first.old) (R.left first.new) }

    // Where a call of a device failed, the status is 3.
    ensures status_3_if_read_failed { R.failures first.old < R.failures first.new → result ≡ 3 }
    ensures status_3_if_write_failed { W.failures out.old < W.failures out.new → result ≡ 3 }
    ensures status_3_if_err_failed { E.failures err.old < E.failures err.new → result ≡ 3 }

    // Whatever the status: there is an answer, and that is reported.
    ensures reports_answer { (answer : Result Bool Fault)
        × Explains doc path.now (R.left first.old) (R.failures first.old)
        (R.failures first.new) W.held W.failures out.old out.new answer
        × Reports explain_status E.held E.failures err.old err.new answer result }
{
    match write_explanation(alloc, doc, path, first, out) {
        Ok(true) => 0,
        Ok(false) => 2,
        Err(fault) => report_fault(&fault, err),
    }
}

/// Writes that a file is accepted, or why it is refused, and returns which of these.
fn write_explanation<R: Source, W: Sink>(
    alloc: Global,
    doc: Doc,
    path: &[u8],
    first: &mut R,
    out: &mut W,
) -> Result<bool, Fault>
    ensures explains { Explains doc path.now (R.left first.old) (R.failures first.old)
        (R.failures first.new) W.held W.failures out.old out.new result }
    ensures reads_at_most { TakesFile (R.left first.old) (R.left first.new) }
{
    match explain(alloc, doc, first)? {
        Explained::Accepted(paragraphs) => {
            put_ok_line(paragraphs, out)?;
            Ok(true)
        }
        Explained::Refused(explanation) => {
            explanation.write(path, out)?;
            Ok(false)
        }
    }
}

/// Writes to `out` that the file of a path can't be opened, and why, in lines `key: value`, and
/// reports a failed read on `err`. Returns the status, which is 3.
///
/// If a write to `out` failed, a prefix of the lines was written, and that fault is reported.
pub fn run_unopened<W: Sink, E: Sink>(path: &[u8], why: Unopened, out: &mut W, err: &mut E) -> u8
    ensures reports_answer { ReportsUnopened (unopened_text path.now why) W.held W.failures out.old
        out.new
        E.held E.failures err.old err.new result }
{
    let written = write_unopened(path, why, out);
    report_unopened(&written, err)
}

/// Writes that the file of a path can't be opened, and why.
#[tactic(auto, using(deb_base::proofs::Writes::puts))]
fn write_unopened<W: Sink>(path: &[u8], why: Unopened, out: &mut W) -> Result<(), Fault>
    ensures written { Puts (W.held out.old) (W.held out.new) result
        (unopened_text path.now why) }
    ensures fault { IfErr result (λ fault. fault ≡ Fault.Write) }
    ensures counts_failure { W.failures out.new ≡ write_failures_after (W.failures out.old) result }
{
    write_file_line(path, out)?;
    why.write_behind(b"fault: read\nreason: ", out)
}

/// Writes to `out` that a command-line argument is a relation or a version, or why it isn't, and
/// returns the status.
///
/// - 0: it is one. `ok` with a newline was written.
/// - 2: it isn't. What is wrong and where was written, in lines `key: value`.
/// - 3: out of memory, or a write failed. `err` has the fault's line; if a write to `err` failed, a
///   prefix of it.
///
/// Except for status 3, nothing was written to `err`.
pub fn run_word<W: Sink, E: Sink>(
    alloc: Global,
    word: Word,
    text: &str,
    out: &mut W,
    err: &mut E,
) -> u8
    ensures reports_answer { (answer : Result Bool Fault)
        × ExplainsWord word text.now W.held W.failures out.old out.new answer
        × Reports explain_status E.held E.failures err.old err.new answer result }
{
    match write_word(alloc, word, text.as_bytes(), out) {
        Ok(true) => 0,
        Ok(false) => 2,
        Err(fault) => report_fault(&fault, err),
    }
}

/// Writes that a word is good, or why it is refused, and returns which of these.
fn write_word<W: Sink>(alloc: Global, word: Word, text: &[u8], out: &mut W) -> Result<bool, Fault>
    ensures { ExplainsWord word text.now W.held W.failures out.old out.new result }
{
    match explain_word(alloc, word, text)? {
        None => {
            put_all(out, b"ok\n")?;
            Ok(true)
        }
        Some(cause) => {
            write_refused_word(word, &cause, text, out)?;
            Ok(false)
        }
    }
}

/// Writes to `out` that a text is a condition of `select` on documents of a kind, or why it isn't,
/// and returns the status.
///
/// - 0: it is one. `ok` with a newline was written.
/// - 2: it isn't. What is wrong and where was written, in lines `key: value`.
/// - 3: out of memory, or a write failed. `err` has the fault's line; if a write to `err` failed, a
///   prefix of it.
///
/// Except for status 3, nothing was written to `err`.
pub fn run_condition<W: Sink, E: Sink>(
    alloc: Global,
    doc: Doc,
    text: &str,
    out: &mut W,
    err: &mut E,
) -> u8
    ensures reports_answer { (answer : Result Bool Fault)
        × ExplainsCondition doc text.now W.held W.failures out.old out.new answer
        × Reports explain_status E.held E.failures err.old err.new answer result }
{
    match write_condition(alloc, doc, text.as_bytes(), out) {
        Ok(true) => 0,
        Ok(false) => 2,
        Err(fault) => report_fault(&fault, err),
    }
}

/// Writes that a text is a condition, or why it isn't, and returns which of these.
fn write_condition<W: Sink>(
    alloc: Global,
    doc: Doc,
    text: &[u8],
    out: &mut W,
) -> Result<bool, Fault>
    ensures { ExplainsCondition doc text.now W.held W.failures out.old out.new result }
{
    explain_condition(alloc, doc, text, out)
}

/// Writes to `out` what an error code means, and returns the status.
///
/// - 0: the rule was written, and nothing to `err`.
/// - 3: a write failed. `err` has the fault's line; if a write to `err` failed, a prefix of it.
pub fn run_rule<W: Sink, E: Sink>(code: Code, out: &mut W, err: &mut E) -> u8
    ensures reports_answer { (answer : Result ⊤ Fault)
        × WritesRule code W.held W.failures out.old out.new answer
        × Reports done_status E.held E.failures err.old err.new answer result }
{
    match write_rule_of(code, out) {
        Ok(()) => 0,
        Err(fault) => report_fault(&fault, err),
    }
}
