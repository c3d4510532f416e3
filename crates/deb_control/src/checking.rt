//! Checks whether a file is accepted, or which of its runs of lines are refused.

ghost use Rattle.std.specs.Prelude.{◌≡◌, ◌+◌, ℕ, List, None, Option, Some, IfOk, IfErr, length};
ghost use Rattle.deb_base.specs.Bodies.{file_limit};
ghost use Rattle.deb_base.specs.Devices.{AppendsFront, read_failures_after, write_failures_after, ReadFaultIffFailed, WriteFaultIffFailed};
ghost use Rattle.deb_base.specs.Faults.{IsReadersFault};
ghost use Rattle.deb_base.specs.Reading.{TakesNoMore};
ghost use Rattle.deb_syntax.specs.Meaning.{Entries};
ghost use Rattle.deb_control.specs.AllRefusals.{file_lines};
ghost use Rattle.deb_control.specs.Calls.{IfCutOff, IfRefused, IfWriteFailed, HasParagraphs};
ghost use Rattle.deb_control.specs.Checking.{all_pass, FitsChecked, IsRefusalOfDocument};
ghost use Rattle.deb_control.specs.CheckedStates.{checked_state};
ghost use Rattle.deb_control.specs.Documents.{refusal_of};
ghost use Rattle.deb_control.specs.GivenRefusals.{HasGiven, failure_of};
ghost use Rattle.deb_control.specs.ReadingOn.{ReadsOn, shown};
ghost use Rattle.deb_control.specs.WrittenRefusals.{HasWritten, IsNoRefusal, WritesNext, WritesAll, WritesFirst, line_written};

use crate::checked::Checked;
use crate::refusals::Refusals;
use crate::summary::Summary;
use crate::visitor::NoVisitor;
use deb_base::{Fault, Sink, Source};
use deb_field::Doc;
use std::alloc::Global;

/// Reads a file as a document of a kind, and returns the number of its paragraphs (Debian Policy
/// 5.1 and 5.3 to 5.6).
///
/// At most 4,295,032,831 bytes are read: a file of the most bytes, and one piece. Promises about
/// the text of the file hold for a reader whose bytes are known.
///
/// # Errors
///
/// - `Fault::Refused`: the file isn't accepted. This is its first refusal, with a code from 1 to 21
///   and a line of the file, counted from 1.
/// - `Fault::Memory`: a growth of memory was refused.
/// - `Fault::Read`: a read failed in this call.
pub fn check<R: Source>(alloc: Global, doc: Doc, reader: &mut R) -> Result<u64, Fault>
    ensures ok { (text : List ℕ) → R.left reader.old ≡ Some text
        → IfOk result (HasParagraphs doc text) }
    ensures refused { (text : List ℕ) → R.left reader.old ≡ Some text
        → IfRefused result (λ refusal. refusal_of doc text ≡ Some refusal) }
    ensures reads_at_most { (text : List ℕ) → R.left reader.old ≡ Some text
        → TakesNoMore text file_limit (R.left reader.new) }

    // Whether or not the bytes of the reader are known.
    ensures fault { IfErr result (λ fault. IsReadersFault fault IsRefusalOfDocument) }
    ensures counts_read_failure { R.failures reader.new ≡ read_failures_after
        (R.failures reader.old) result }
    ensures fault_iff_read_failed { ReadFaultIffFailed (R.failures reader.old)
        (R.failures reader.new) result }
{
    count_rest(&mut Checked::new(alloc, doc), reader)
}

/// Reads a file to its end, after some of its paragraphs, and returns how many more it has.
/// The errors are those of `check`.
pub(crate) fn count_rest<R: Source>(checked: &mut Checked, reader: &mut R) -> Result<u64, Fault>
    requires sound { (checked_state checked.now).fault ≡ None }
    ensures ok { (text : List ℕ) (before : List Entries)
        → FitsChecked checked.old.doc text (all_pass before) (checked_state checked.old)
        (R.left reader.old)
        → IfOk result (λ n. HasParagraphs checked.old.doc text (length before + n)) }
    ensures on { ReadsOn checked.old (shown (R.left reader.old) (R.failures reader.old)) result
        checked.new (shown (R.left reader.new) (R.failures reader.new)) }
{
    for count in 0..u64::MAX {
        if !checked.advance(&mut NoVisitor, reader)? {
            return Ok(count);
        }
    }
    // No file has so many paragraphs.
    unreachable!()
}

/// Reads a file as a document of a kind, and writes a line `line N: CODE NAME` for each run of
/// lines that is refused, in the order of the file, and then a last line `ok N, M refused`: how
/// many paragraphs passed, and how many runs were refused (Debian Policy 5.1 and 5.3 to 5.6).
///
/// A run that is refused counts neither as a paragraph nor with the canonical text of the file:
/// what follows it is checked as if its lines were blank. Nothing is checked after a paragraph
/// whose lines are too long, after the file, or its canonical text, is too long, and after the
/// first refusal of a kind of document that has exactly one paragraph.
///
/// One paragraph is in memory. Promises about the text of the file hold for a reader whose bytes
/// are known.
///
/// # Errors
///
/// - `Fault::Memory`: a growth of memory was refused; `Fault::Read`: a read failed in this call.
///   The lines of the first refusals were written.
/// - `Fault::Write`: a write failed in this call. A prefix of the lines was written.
pub fn check_all<R: Source, W: Sink>(
    alloc: Global,
    doc: Doc,
    reader: &mut R,
    writer: &mut W,
) -> Result<Summary, Fault>
    ensures ok { (text : List ℕ) → R.left reader.old ≡ Some text → IfOk result
        (λ summary. WritesAll doc text summary (W.held writer.old) (W.held writer.new)) }
    ensures cut_off { (text : List ℕ) → R.left reader.old ≡ Some text
        → IfCutOff result (WritesFirst doc text (W.held writer.old) (W.held writer.new)) }
    ensures reads_at_most { (text : List ℕ) → R.left reader.old ≡ Some text
        → TakesNoMore text file_limit (R.left reader.new) }
    ensures write { (text : List ℕ) → R.left reader.old ≡ Some text → IfWriteFailed result
        (AppendsFront (W.held writer.old) (W.held writer.new) (file_lines doc text)) }

    // Whether or not the reader's bytes are known.
    ensures fault { IfErr result IsNoRefusal }
    ensures counts_read_failure { R.failures reader.new ≡ read_failures_after
        (R.failures reader.old) result }
    ensures counts_write_failure { W.failures writer.new ≡ write_failures_after
        (W.failures writer.old) result }
    ensures fault_iff_read_failed { ReadFaultIffFailed (R.failures reader.old)
        (R.failures reader.new) result }
    ensures fault_iff_write_failed { WriteFaultIffFailed (W.failures writer.old)
        (W.failures writer.new) result }
{
    let mut refusals = Refusals::new(alloc, doc);
    for _ in 0..u64::MAX {
        if !check_next(&mut refusals, reader, writer)? {
            let summary = refusals.summary();
            summary.write_line(writer)?;
            return Ok(summary);
        }
    }
    // No file has so many runs of lines.
    Err(Fault::Memory)
}

/// Writes the line of the next refusal. Returns whether there is one.
fn check_next<R: Source, W: Sink>(
    refusals: &mut Refusals,
    reader: &mut R,
    writer: &mut W,
) -> Result<bool, Fault>
    requires sound { failure_of refusals.old ≡ None }
    ensures writes_next { (doc : Doc) (text : List ℕ) (held : Option (List ℕ))
        → HasWritten line_written (HasGiven doc text refusals.old (R.left reader.old)) held
        (W.held writer.old)
        → WritesNext line_written doc text result refusals.new (R.left reader.new) held
        (W.held writer.new) }
    ensures reads_at_most { (doc : Doc) (text : List ℕ) (held : Option (List ℕ))
        → HasWritten line_written (HasGiven doc text refusals.old (R.left reader.old)) held
        (W.held writer.old) → TakesNoMore text file_limit (R.left reader.new) }
    ensures sound { IfOk result (λ _. failure_of refusals.new ≡ None) }
    ensures fault { IfErr result IsNoRefusal }
    ensures counts_read_failure { R.failures reader.new ≡ read_failures_after
        (R.failures reader.old) result }
    ensures counts_write_failure { W.failures writer.new ≡ write_failures_after
        (W.failures writer.old) result }
{
    match refusals.next(reader)? {
        Some(refusal) => {
            refusal.write_line(writer)?;
            Ok(true)
        }
        None => Ok(false),
    }
}
