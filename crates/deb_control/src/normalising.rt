//! Writes the canonical text of a file.

ghost use Rattle.std.specs.Prelude.{◌≡◌, ℕ, List, Some, IfOk};
ghost use Rattle.deb_base.specs.Bodies.{file_limit};
ghost use Rattle.deb_base.specs.Devices.{read_failures_after, write_failures_after, AppendsFront, ReadFaultIffFailed, WriteFaultIffFailed};
ghost use Rattle.deb_base.specs.Reading.{TakesNoMore};
ghost use Rattle.deb_control.specs.Calls.{IfRefused, IfCutOff, IfWriteFailed, WritesCanonical, WritesRefused, WritesRead};
ghost use Rattle.deb_control.specs.Checking.{IsRefusalOfDocument};
ghost use Rattle.deb_control.specs.Documents.{out_of};
ghost use Rattle.deb_control.specs.Totals.{gap_behind};

use crate::checked::Checked;
use deb_base::{Fault, Sink, Source, put_pieces};
use deb_field::Doc;
use std::alloc::Global;

/// Reads a file as a document of a kind, writes its canonical text, and returns the number of its
/// paragraphs (Debian Policy 5.1 and 5.3 to 5.6).
///
/// A paragraph is written, after the empty line that separates it from the one before, as soon as
/// it has passed every rule of the kind.
///
/// At most 4,295,032,831 bytes are read: a file of the most bytes, and one piece. Promises about
/// the text of the file hold for a reader whose bytes are known.
///
/// # Errors
///
/// - `Fault::Refused`: the file isn't accepted. This is its first refusal, with a code from 1 to 21
///   and a line of the file, counted from 1. The canonical text of the paragraphs before it was
///   written.
/// - `Fault::Memory`: a growth of memory was refused; `Fault::Read`: a read failed in this call.
///   The canonical text of the first paragraphs was written; each of them passes and was read with
///   the blank line after it.
/// - `Fault::Write`: a write failed in this call. A prefix of the output was written.
pub fn normalise<R: Source, W: Sink>(
    alloc: Global,
    doc: Doc,
    reader: &mut R,
    writer: &mut W,
) -> Result<u64, Fault>
    ensures ok { (text : List ℕ) → R.left reader.old ≡ Some text
        → IfOk result (λ n. WritesCanonical doc text n (W.held writer.old) (W.held writer.new)) }
    ensures refused { (text : List ℕ) → R.left reader.old ≡ Some text
        → IfRefused result (λ refusal. WritesRefused doc text refusal (W.held writer.old)
        (W.held writer.new)) }
    ensures cut_off { (text : List ℕ) → R.left reader.old ≡ Some text
        → IfCutOff result (WritesRead doc text (W.held writer.old) (W.held writer.new)) }
    ensures write { (text : List ℕ) → R.left reader.old ≡ Some text
        → IfWriteFailed result
        (AppendsFront (W.held writer.old) (W.held writer.new) (out_of doc text)) }
    ensures reads_at_most { (text : List ℕ) → R.left reader.old ≡ Some text
        → TakesNoMore text file_limit (R.left reader.new) }

    // Whether or not the bytes of the reader are known.
    ensures refusal { IfRefused result IsRefusalOfDocument }
    ensures counts_read_failure { R.failures reader.new ≡ read_failures_after
        (R.failures reader.old) result }
    ensures counts_write_failure { W.failures writer.new ≡ write_failures_after
        (W.failures writer.old) result }
    ensures fault_iff_read_failed { ReadFaultIffFailed (R.failures reader.old)
        (R.failures reader.new) result }
    ensures fault_iff_write_failed { WriteFaultIffFailed (W.failures writer.old)
        (W.failures writer.new) result }
{
    let mut checked = Checked::new(alloc, doc);
    for count in 0..u64::MAX {
        let Some(paragraph) = checked.next(reader)? else {
            return Ok(count);
        };
        put_pieces(writer, &[separator(count), paragraph.canonical_text()])?;
    }
    // No file has so many paragraphs.
    unreachable!()
}

/// Returns what separates a paragraph from those before it: a newline, if there are any.
fn separator(before: u64) -> &'static [u8]
    ensures { result.now ≡ gap_behind before }
{
    if before > 0 { b"\n" } else { b"" }
}
