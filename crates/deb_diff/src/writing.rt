//! Writes what changed between two files.

ghost use Rattle.std.specs.Prelude.{◌≡◌, ℕ, List, Some, length, IfOk, IfErr};
ghost use Rattle.deb_base.specs.Bodies.{file_limit};
ghost use Rattle.deb_base.specs.Devices.{read_failures_after, write_failures_after};
ghost use Rattle.deb_base.specs.Devices.{ReadFaultIffFailed, WriteFaultIffFailed};
ghost use Rattle.deb_base.specs.Reading.{TakesNoMore};
ghost use Rattle.deb_base.specs.declared.refusal.Refusal.{Refusal};
ghost use Rattle.deb_control.specs.Calls.{IfRefused, IfWriteFailed};
ghost use Rattle.deb_control.specs.Comparing.{RefusesSecond};
ghost use Rattle.deb_control.specs.Documents.{refusal_of};
ghost use Rattle.deb_control.specs.Sides.{of_first, of_second};
ghost use Rattle.deb_diff.specs.Both.{IsAcceptedFile, ReadsBoth};
ghost use Rattle.deb_diff.specs.Kinds.{doc_of};
ghost use Rattle.deb_diff.specs.Written.{IsDiffFault, IsWritersFault, KeepsHeld, WritesDiff, WritesSome};

use crate::all_lines::all_lines;
use crate::form::Form;
use crate::kind::Kind;
use crate::sides::{Read, at_second, read_both};
use deb_base::{Fault, Sink, Source, put_all};
use deb_control::{Side, SideFault};
use std::alloc::Global;

/// Writes the lines that say what changed between two files of a kind, the old one and the new one,
/// and returns whether there is none: whether they hold the same paragraphs in some order.
/// Paragraphs are the same if they mean the same (Debian Policy 5.1 and 5.3 to 5.6). With
/// `Detail::Values` the lines of the values that differ are under the line of their paragraph; they
/// are canonical text, also with `VersionText::Spelled`.
///
/// The canonical texts of the first file are kept, and those of the paragraphs of the second file
/// that the first one doesn't have. The first file is read to its end before the second one, and
/// nothing is written before both were read. At most 4,295,032,831 bytes are read from each reader:
/// a file of the most bytes, and one piece. Promises about the text of a file hold for a reader
/// whose bytes are known.
///
/// # Errors
///
/// - `Fault::Refused` with `Side::First`: the first file isn't accepted; with `Side::Second`: the
///   first file is accepted, and the second one isn't. This is the first refusal of that file.
/// - `Fault::Memory`: a growth of memory was refused, at the file of that side, or with
///   `Side::Second` after both were read. With `Side::First` the second reader is unchanged,
///   whatever the error, and with `Side::Second` the first file is accepted.
/// - `Fault::Read`: a read of the reader of that side failed in this call.
/// - `Fault::Write` with `Side::Second`: a write failed in this call, and a prefix of the lines was
///   written before it. With each other error nothing was written.
pub fn diff<R: Source, S: Source, W: Sink>(
    alloc: Global,
    kind: Kind,
    form: Form,
    first: &mut R,
    second: &mut S,
    writer: &mut W,
) -> Result<bool, SideFault>
    ensures ok { (text other : List ℕ) → R.left first.old ≡ Some text
        → S.left second.old ≡ Some other
        → IfOk result (WritesDiff kind form text other (W.held writer.old)
        (W.held writer.new)) }
    ensures first { (text : List ℕ) → R.left first.old ≡ Some text
        → IfRefused (of_first result) (λ refusal. refusal_of (doc_of kind) text ≡ Some refusal) }
    ensures second { (text other : List ℕ) → R.left first.old ≡ Some text
        → S.left second.old ≡ Some other
        → IfRefused (of_second result) (RefusesSecond (doc_of kind) text other) }
    ensures write { (text other : List ℕ) → R.left first.old ≡ Some text
        → S.left second.old ≡ Some other → IfWriteFailed (of_second result)
        (WritesSome kind form text other (W.held writer.old) (W.held writer.new)) }
    ensures first_reads_at_most { (text : List ℕ) → R.left first.old ≡ Some text
        → TakesNoMore text file_limit (R.left first.new) }
    ensures second_reads_at_most { (text : List ℕ) → S.left second.old ≡ Some text
        → TakesNoMore text file_limit (S.left second.new) }
    ensures first_accepted_if_second { (text : List ℕ) → R.left first.old ≡ Some text
        → IfErr result (λ told. told.side ≡ Side.Second → IsAcceptedFile kind text) }
    ensures second_untouched_if_refused { (text : List ℕ) (refusal : Refusal)
        → R.left first.old ≡ Some text → refusal_of (doc_of kind) text ≡ Some refusal
        → second.new ≡ second.old }

    // Whether or not the readers' bytes are known.
    ensures fault { IfErr result IsDiffFault }
    ensures second_untouched_if_first { IfErr result
        (λ told. told.side ≡ Side.First → second.new ≡ second.old) }
    ensures nothing_written { IfErr result
        (λ told. KeepsHeld (W.held writer.old) (W.held writer.new) told.fault) }
    ensures counts_first_failure { R.failures first.new
        ≡ read_failures_after (R.failures first.old) (of_first result) }
    ensures counts_second_failure { S.failures second.new
        ≡ read_failures_after (S.failures second.old) (of_second result) }
    ensures counts_write_failure { W.failures writer.new
        ≡ write_failures_after (W.failures writer.old) (of_second result) }
    ensures fault_iff_first_failed { ReadFaultIffFailed (R.failures first.old)
        (R.failures first.new)
        (of_first result) }
    ensures fault_iff_second_failed { ReadFaultIffFailed (S.failures second.old)
        (S.failures second.new)
        (of_second result) }
    ensures fault_iff_write_failed { WriteFaultIffFailed (W.failures writer.old)
        (W.failures writer.new)
        (of_second result) }
{
    match read_both(alloc, kind, first, second) {
        Ok(read) => match write_lines(alloc, form, &read, writer) {
            Ok(is_empty) => Ok(is_empty),
            Err(fault) => Err(at_second(fault)),
        },
        Err(told) => Err(told),
    }
}

/// Writes the lines that say what changed, and returns whether there is none.
fn write_lines<W: Sink>(
    alloc: Global,
    form: Form,
    read: &Read,
    writer: &mut W,
) -> Result<bool, Fault>
    requires { length read.now.others.waits.items ≡ length read.now.old.items }
    ensures ok { (kind : Kind) (text other : List ℕ) → ReadsBoth kind text other read.now
        → IfOk result (WritesDiff kind form text other (W.held writer.old)
        (W.held writer.new)) }
    ensures write { (kind : Kind) (text other : List ℕ) → ReadsBoth kind text other read.now
        → IfWriteFailed result (WritesSome kind form text other (W.held writer.old)
        (W.held writer.new)) }
    ensures keeps { IfErr result (KeepsHeld (W.held writer.old) (W.held writer.new)) }
    ensures fault { IfErr result IsWritersFault }
    ensures counts_failure { W.failures writer.new ≡ write_failures_after
        (W.failures writer.old) result }
{
    let lines = all_lines(alloc, form, &read.old, &read.others)?;
    put_all(writer, &lines)?;
    Ok(lines.is_empty())
}
