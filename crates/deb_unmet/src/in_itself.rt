//! Writes lines of the paragraphs of a file over all of its packages.

ghost use Rattle.std.specs.Prelude.{◌≡◌, ◌++◌, ◌-◌, ◌<◌, ◌^◌, ◌≤◌, ℕ, List, [], Some, IfOk, IfErr, OnOk};
ghost use Rattle.deb_base.specs.Bodies.{file_limit};
ghost use Rattle.deb_base.specs.Devices.{read_failures_after, write_failures_after, ReadFaultIffFailed, WriteFaultIffFailed};
ghost use Rattle.deb_base.specs.Faults.{IsReadersFault};
ghost use Rattle.deb_base.specs.Reading.{TakesNoMore};
ghost use Rattle.deb_control.specs.Calls.{IfRefused};
ghost use Rattle.deb_control.specs.Checking.{IsRefusalOfDocument};
ghost use Rattle.deb_control.specs.Documents.{refusal_of};
ghost use Rattle.deb_control.specs.ValueFiles.{ValueEntries};
ghost use Rattle.deb_field.specs.Values.{ValueMeaning};
ghost use Rattle.deb_index.specs.Indexes.{packages_of};
ghost use Rattle.deb_index.specs.Listed.{Listed};
ghost use Rattle.deb_index.specs.Members.{doc_of};
ghost use Rattle.deb_syntax.specs.Fields.{Field};
ghost use Rattle.deb_unmet.specs.Asking.{IsWritersFault, PutsLines};
ghost use Rattle.deb_unmet.specs.Own.{StopsOwn, WritesOwn, asks_after, other_line, part_lines};
ghost use Rattle.deb_unmet.specs.Parts.{AreParts, HoldsPart, IsOther, ReadsOver};

use crate::asking::Summary;
use crate::own_lines::{KeptLines, OwnLines, Part};
use crate::paragraph::append_spaced;
use deb_base::{Fault, Sink, Source, put_all};
use deb_index::Index;
use itoa::Buffer;
use std::alloc::{AllocError, Global};

/// Reads a file once, and writes the lines of its members, over the packages of `index` and of all
/// of them (or those of these that [`OwnLines::over`] leaves), and of the other paragraphs of a
/// status file.
///
/// No line is written before the whole file has been read and has no refusal: of each member
/// `L::Kept` is kept until then, and of each other paragraph its line. The lines are in the order
/// of the paragraphs.
///
/// At most 4,295,032,831 bytes are read: a file of the most bytes, and one piece. Promises about
/// the text of the file hold for a reader whose bytes are known.
///
/// # Errors
///
/// - `Fault::Refused`: the file isn't accepted. This is its first refusal, with a code from 1 to 21
///   and a line of the file, counted from 1. Nothing was written.
/// - `Fault::Read`: a read failed in this call. Nothing was written.
/// - `Fault::Memory`: a growth of memory was refused. Nothing was written, or the lines of the
///   first paragraphs of an accepted file.
/// - `Fault::Write`: a write failed in this call. A prefix of the lines of an accepted file was
///   written.
pub fn write_in_itself<L: OwnLines, R: Source, W: Sink>(
    alloc: Global,
    index: Index,
    lines: &L,
    reader: &mut R,
    writer: &mut W,
) -> Result<Summary, Fault>
    ensures ok { (text : List ℕ) → R.left reader.old ≡ Some text
        → IfOk result (λ summary. WritesOwn (asks_after (packages_of index) (L.asks lines.now))
        text summary (W.held writer.old) (W.held writer.new)) }
    ensures refused { (text : List ℕ) → R.left reader.old ≡ Some text
        → IfRefused result (λ refusal. refusal_of (doc_of (L.asks lines.now).members) text
        ≡ Some refusal) }
    ensures stopped { (text : List ℕ) → R.left reader.old ≡ Some text
        → IfErr result (λ fault. StopsOwn fault (asks_after (packages_of index) (L.asks lines.now))
        text (W.held writer.old) (W.held writer.new)) }
    ensures reads_at_most { (text : List ℕ) → R.left reader.old ≡ Some text
        → TakesNoMore text file_limit (R.left reader.new) }

    // Whether or not the reader's bytes are known.
    ensures unwritten { IfRefused result (λ _. writer.new ≡ writer.old) }
    ensures refusal { IfRefused result IsRefusalOfDocument }
    ensures counts_read_failure { R.failures reader.new ≡ read_failures_after
        (R.failures reader.old) result }
    ensures counts_write_failure { W.failures writer.new ≡ write_failures_after
        (W.failures writer.old) result }
    ensures fault_iff_read_failed { ReadFaultIffFailed (R.failures reader.old)
        (R.failures reader.new) result }
    ensures fault_iff_write_failed { WriteFaultIffFailed (W.failures writer.old)
        (W.failures writer.new) result }
{
    let mut kept = KeptLines::<L>::new(alloc);
    let index = read_over(alloc, index, lines, reader, &mut kept)?;
    write_kept(alloc, lines, &index, &kept.parts, writer)
}

/// Reads a file after those of an index, keeps what its lines need, and returns the index of the
/// packages that these are over.
fn read_over<L: OwnLines, R: Source>(
    alloc: Global,
    index: Index,
    lines: &L,
    reader: &mut R,
    kept: &mut KeptLines<L>,
) -> Result<Index, Fault>
    ensures ok { (text : List ℕ) → R.left reader.old ≡ Some text → kept.old.parts.items ≡ []
        → IfOk result (λ all. ReadsOver (asks_after (packages_of index) (L.asks lines.now))
        (AreParts (L.asks lines.now).members L.Holds (IsOther L.asks) kept.new.parts.items) text
        (packages_of all)) }
    ensures refused { (text : List ℕ) → R.left reader.old ≡ Some text
        → IfRefused result (λ refusal. refusal_of (doc_of (L.asks lines.now).members) text
        ≡ Some refusal) }
    ensures reads_at_most { (text : List ℕ) → R.left reader.old ≡ Some text
        → TakesNoMore text file_limit (R.left reader.new) }
    ensures fault { IfErr result (λ fault. IsReadersFault fault IsRefusalOfDocument) }
    ensures counts_read_failure { R.failures reader.new ≡ read_failures_after
        (R.failures reader.old) result }
    ensures fault_iff_read_failed { ReadFaultIffFailed (R.failures reader.old)
        (R.failures reader.new) result }
{
    let index = index.read_more_members(alloc, reader, lines.members(), kept)?;
    Ok(lines.over(alloc, index)?)
}

/// Writes the lines of the paragraphs that are kept, over the packages of the index.
///
/// # Errors
///
/// Out of memory: the lines of the first paragraphs were written. `Fault::Write`: a prefix of all.
fn write_kept<L: OwnLines, W: Sink>(
    alloc: Global,
    lines: &L,
    index: &Index,
    parts: &[Part<L::Kept>],
    writer: &mut W,
) -> Result<Summary, Fault>
    ensures ok { (before : List Listed) (text : List ℕ)
        → ReadsOver (asks_after before (L.asks lines.now))
        (AreParts (L.asks lines.now).members L.Holds (IsOther L.asks) parts.now) text
        (packages_of index.now) → IfOk result (λ summary. WritesOwn
        (asks_after before (L.asks lines.now)) text summary (W.held writer.old)
        (W.held writer.new)) }
    ensures stopped { (before : List Listed) (text : List ℕ)
        → ReadsOver (asks_after before (L.asks lines.now))
        (AreParts (L.asks lines.now).members L.Holds (IsOther L.asks) parts.now) text
        (packages_of index.now) → IfErr result (λ fault. StopsOwn fault
        (asks_after before (L.asks lines.now)) text (W.held writer.old) (W.held writer.new)) }
    ensures counts_failure { W.failures writer.new ≡ write_failures_after
        (W.failures writer.old) result }
    ensures fault { IsWritersFault result }
{
    let mut members = 0;
    let mut is_empty = true;
    for count in 0..parts.len() {
        let before = Before {
            paragraphs: count as u64,
            members,
        };
        let part = &parts[count];
        let has_none = write_part(alloc, lines, index, before, part, writer)?;
        members = part.counted(members);
        is_empty = is_empty && has_none;
    }
    Ok(Summary {
        paragraphs: members,
        is_empty,
    })
}

/// How many paragraphs of the file come before one, and how many members are among them.
#[derive(Clone, Copy)]
struct Before {
    paragraphs: u64,
    members: u64,
}

/// Writes the lines of a paragraph, and returns whether there is none.
///
/// # Errors
///
/// Out of memory: nothing was written; or `Fault::Write`: a prefix was.
fn write_part<L: OwnLines, W: Sink>(
    alloc: Global,
    lines: &L,
    index: &Index,
    before: Before,
    part: &Part<L::Kept>,
    writer: &mut W,
) -> Result<bool, Fault>
    requires members { before.members ≤ before.paragraphs }
    requires paragraphs { before.paragraphs < 2 ^ 64 - 1 }
    ensures puts { (fields : List Field) (values : ValueEntries ValueMeaning)
        → HoldsPart (L.asks lines.now).members L.Holds (IsOther L.asks) fields values part.now
        → PutsLines (part_lines (L.asks lines.now) (packages_of index.now) fields
        before.paragraphs before.members values) result (W.held writer.old) (W.held writer.new) }
    ensures counts_failure { W.failures writer.new ≡ write_failures_after
        (W.failures writer.old) result }
    ensures fault { IsWritersFault result }
{
    let mut text = Vec::new(alloc);
    append_part(alloc, &mut text, lines, index, before, part)?;
    put_all(writer, &text)?;
    Ok(text.is_empty())
}

/// Appends the lines of a paragraph.
fn append_part<L: OwnLines>(
    alloc: Global,
    out: &mut Vec<u8>,
    lines: &L,
    index: &Index,
    before: Before,
    part: &Part<L::Kept>,
) -> Result<(), AllocError>
    requires members { before.members ≤ before.paragraphs }
    requires paragraphs { before.paragraphs < 2 ^ 64 - 1 }
    ensures { (fields : List Field) (values : ValueEntries ValueMeaning)
        → HoldsPart (L.asks lines.now).members L.Holds (IsOther L.asks) fields values part.now
        → OnOk result (out.new.items ≡ out.old.items ++ part_lines (L.asks lines.now)
        (packages_of index.now) fields before.paragraphs before.members values) }
{
    match part {
        Part::Member(kept) => lines.append(alloc, out, index, before.members + 1, kept),
        Part::Other(text) => append_other(out, before.paragraphs + 1, text),
    }
}

/// Appends the line of a paragraph that isn't a member; none if what it ends with is empty.
fn append_other(out: &mut Vec<u8>, number: u64, text: &[u8]) -> Result<(), AllocError>
    ensures { OnOk result (out.new.items ≡ out.old.items ++ other_line number text.now) }
{
    if text.is_empty() {
        return Ok(());
    }
    let mut buffer = Buffer::new();
    out.extend_from_slice(b"state")?;
    append_spaced(out, buffer.format(number).as_bytes())?;
    out.extend_from_slice(text)?;
    Ok(())
}
