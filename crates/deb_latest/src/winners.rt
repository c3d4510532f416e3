//! Writes the paragraphs with the latest versions.

ghost use Rattle.std.specs.Prelude.{◌≡◌, ◌∷◌, ◌++◌, ℕ, List, [], Some, IfOk, IfErr, OnOk, eqb, length};
ghost use Rattle.std.specs.List.{list_any};
ghost use Rattle.std.specs.List.Sorted.{IsSorted};
ghost use Rattle.std.specs.Ordering.{nat_cmp};
ghost use Rattle.deb_base.specs.Bodies.{file_limit, newline, pieces_of};
ghost use Rattle.deb_base.specs.Devices.{read_failures_after, write_failures_after, AppendsFront, Puts, ReadFaultIffFailed, WriteFaultIffFailed};
ghost use Rattle.deb_base.specs.Reading.{TakesNoMore};
ghost use Rattle.deb_control.specs.Calls.{IfRefused, IfCutOff, IfWriteFailed};
ghost use Rattle.deb_latest.specs.Written.{gap, text_after};
ghost use Rattle.deb_syntax.specs.Judged.{IsRefusalOfLength};
ghost use Rattle.deb_syntax.specs.Lines.{Paragraph, paragraphs_of};

use deb_base::{Fault, Sink, Source, put_all};
use deb_syntax::Paragraphs;
use std::alloc::Global;

/// The paragraphs with the latest versions, to be written as the files spell them.
#[derive(Drop)]
pub struct Winners {
    alloc: Global,
    /// Their numbers, in ascending order.
    numbers: Vec<u64>,
    /// How many paragraphs the files have.
    count: u64,
    /// How many paragraphs have passed.
    passed: u64,
    /// Whether one was written.
    begun: bool,
}

impl Winners {
    ghost use Rattle.std.specs.Prelude.{◌==◌};
    ghost use Rattle.deb_latest.specs.Writes.{HasWritten, IsWritersFault, PutsParagraph};
    ghost use Rattle.deb_latest.specs.Writes.{WritesFile, WritesRead, WritesRefused};

    /// Returns those with these numbers, in files that together have `count` paragraphs. None is
    /// written yet.
    ///
    /// The first paragraph of the first file has the number 1, and those of later files follow.
    pub fn new(alloc: Global, numbers: Vec<u64>, count: u64) -> Winners
        ensures { HasWritten numbers.items count [] result }
    {
        let mut numbers = numbers;
        numbers.sort_unstable();
        Winners {
            alloc,
            numbers,
            count,
            passed: 0,
            begun: false,
        }
    }

    /// Reads one more file, whose paragraphs follow those of the files before, and writes those of
    /// them that have the numbers: their lines as they are in the file, each ended by a newline,
    /// after an empty line if a paragraph was written before.
    ///
    /// The file is read as text alone: its lines aren't checked. One paragraph at a time is held
    /// in memory. At most 4,295,032,831 bytes are read: a file of the most bytes, and one piece.
    /// Promises about the text of the file hold for a reader whose bytes are known, and if no
    /// earlier call returned an error.
    ///
    /// # Errors
    ///
    /// - `Fault::Refused`: the lines of a paragraph, or the file, have too many bytes. This has the
    ///   code 8 or 9 and a line of the file, counted from 1. Those of the paragraphs before it were
    ///   written.
    /// - `Fault::Memory`: a growth of memory was refused, or there are 2^64 paragraphs.
    ///   `Fault::Read`: a read failed in this call. Those of the first paragraphs were written.
    /// - `Fault::Write`: a write failed in this call. A prefix of the output was written.
    pub fn write<R: Source, W: Sink>(&mut self, reader: &mut R, writer: &mut W) -> Result<(), Fault>
        ensures ok { (numbers : List ℕ) (count : ℕ) (before : List Paragraph) (text : List ℕ)
            → HasWritten numbers count before self.old → R.left reader.old ≡ Some text
            → OnOk result (WritesFile numbers count before text self.new (W.held writer.old)
            (W.held writer.new)) }
        ensures refused { (numbers : List ℕ) (count : ℕ) (before : List Paragraph) (text : List ℕ)
            → HasWritten numbers count before self.old → R.left reader.old ≡ Some text
            → IfRefused result (λ refusal. WritesRefused numbers before text refusal
            (W.held writer.old) (W.held writer.new)) }
        ensures cut_off { (numbers : List ℕ) (count : ℕ) (before : List Paragraph) (text : List ℕ)
            → HasWritten numbers count before self.old → R.left reader.old ≡ Some text
            → IfCutOff result (WritesRead numbers before text (W.held writer.old)
            (W.held writer.new)) }
        ensures write { (numbers : List ℕ) (count : ℕ) (before : List Paragraph) (text : List ℕ)
            → HasWritten numbers count before self.old → R.left reader.old ≡ Some text
            → IfWriteFailed result (AppendsFront (W.held writer.old) (W.held writer.new)
            (text_after numbers before (paragraphs_of text))) }
        ensures reads_at_most { (text : List ℕ) → R.left reader.old ≡ Some text
            → TakesNoMore text file_limit (R.left reader.new) }

        // Whether or not the reader's bytes are known.
        ensures refusal { IfRefused result IsRefusalOfLength }
        ensures counts_read_failure { R.failures reader.new ≡ read_failures_after
            (R.failures reader.old) result }
        ensures counts_write_failure { W.failures writer.new ≡ write_failures_after
            (W.failures writer.old) result }
        ensures fault_iff_read_failed { ReadFaultIffFailed (R.failures reader.old)
            (R.failures reader.new) result }
        ensures fault_iff_write_failed { WriteFaultIffFailed (W.failures writer.old)
            (W.failures writer.new) result }
    {
        let mut paragraphs = Paragraphs::new(self.alloc);
        for _ in 0..u64::MAX {
            paragraphs.pass(reader)?;
            let Some(text) = paragraphs.text() else {
                return Ok(());
            };
            self.write_next(text, writer)?;
        }
        // No file has so many paragraphs.
        Err(Fault::Memory)
    }

    /// Returns whether as many paragraphs have passed as the files have: then each paragraph with
    /// one of the numbers was written.
    pub fn is_complete(&self) -> bool
        ensures { (numbers : List ℕ) (count : ℕ) (passed : List Paragraph)
            → HasWritten numbers count passed self.now → result ≡ (length passed == count) }
    {
        self.passed == self.count
    }

    /// Passes a paragraph with these lines, and writes it if it has one of the numbers.
    ///
    /// # Errors
    ///
    /// Out of memory: nothing was written; or `Fault::Write`: a prefix was.
    fn write_next<W: Sink>(&mut self, text: &[u8], writer: &mut W) -> Result<(), Fault>
        ensures puts { (numbers : List ℕ) (count : ℕ) (before : List Paragraph) (p : Paragraph)
            → HasWritten numbers count before self.old → pieces_of text.now ≡ p.lines
            → PutsParagraph numbers count before p result self.new (W.held writer.old)
            (W.held writer.new) }
        ensures counts_failure { W.failures writer.new ≡ write_failures_after
            (W.failures writer.old) result }
        ensures fault { IsWritersFault result }
    {
        if self.passed == u64::MAX {
            return Err(Fault::Memory);
        }
        self.passed += 1;
        if !is_among(self.passed, &self.numbers) {
            return Ok(());
        }
        put_paragraph(self.begun, text, writer)?;
        self.begun = true;
        Ok(())
    }
}

/// Returns whether a number is among others, which ascend.
fn is_among(number: u64, numbers: &[u64]) -> bool
    ensures { IsSorted nat_cmp numbers.now → result ≡ list_any (eqb number) numbers.now }
{
    numbers.binary_search(&number).is_ok()
}

/// Writes the lines of a paragraph, after an empty line if one was written before it.
fn put_paragraph<W: Sink>(begun: bool, text: &[u8], writer: &mut W) -> Result<(), Fault>
    ensures written { Puts (W.held writer.old) (W.held writer.new) result
        (gap begun ++ (text.now ++ newline ∷ [])) }
    ensures fault { IfErr result (λ fault. fault ≡ Fault.Write) }
    ensures counts_failure { W.failures writer.new ≡ write_failures_after
        (W.failures writer.old) result }
{
    put_all(writer, separator(begun))?;
    put_all(writer, text)?;
    put_all(writer, b"\n")
}

/// Returns what separates a paragraph from those before it: a newline, if one was written.
fn separator(begun: bool) -> &'static [u8]
    ensures { result.now ≡ gap begun }
{
    if begun { b"\n" } else { b"" }
}
