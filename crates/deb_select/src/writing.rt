//! Writes the selected paragraphs of a file.

ghost use Rattle.std.specs.Prelude.{◌≡◌, ◌||◌, ◌<◌, ◌-◌, ◌^◌, ◌∷◌, ◌++◌, ℕ, List, [], Some};
ghost use Rattle.std.specs.Prelude.{IfErr, IfOk};
ghost use Rattle.deb_base.specs.Bodies.{file_limit, newline, pieces_of};
ghost use Rattle.deb_base.specs.Devices.{read_failures_after, write_failures_after, Puts};
ghost use Rattle.deb_base.specs.Devices.{ReadFaultIffFailed, WriteFaultIffFailed};
ghost use Rattle.deb_base.specs.Reading.{TakesNoMore};
ghost use Rattle.deb_field.specs.Values.{ValueMeaning};
ghost use Rattle.deb_syntax.specs.Answers.{Seen};
ghost use Rattle.deb_syntax.specs.Lines.{Paragraph};
ghost use Rattle.deb_control.specs.Calls.{IfCutOff, IfRefused, IfWriteFailed};
ghost use Rattle.deb_control.specs.CheckedStates.{checked_state, doc_judged, doc_read};
ghost use Rattle.deb_control.specs.CheckedStates.{lines_checked, passing_judged};
ghost use Rattle.deb_control.specs.Checking.{IsRefusalOfDocument};
ghost use Rattle.deb_control.specs.Paragraphs.{AreValuesOf};
ghost use Rattle.deb_control.specs.ValueFiles.{ValueEntries};
ghost use Rattle.deb_select.specs.Conditions.{SelectionMeaning};
ghost use Rattle.deb_select.specs.FieldBodies.{fields_in};
ghost use Rattle.deb_select.specs.Forms.{after_gap, form_shown, has_bytes};
ghost use Rattle.deb_select.specs.Selecting.{count_after, IsWritersFault, PutsPiece, PutsSelected};
ghost use Rattle.deb_select.specs.Selecting.{Request, WritesFirst, WritesPart, WritesRefused};
ghost use Rattle.deb_select.specs.Selecting.{WritesSelected};
ghost use Rattle.deb_select.specs.Selections.{HasConditions};
ghost use Rattle.deb_select.specs.Written.{gap};

use crate::cells::push_row;
use crate::fields::fields_text;
use crate::form::Form;
use crate::json_line::json_line;
use crate::selection::Selection;
use deb_base::{Fault, Sink, Source, put_all};
use deb_control::{Checked, CheckedView, NoVisitor};
use std::alloc::Global;

/// What a call has selected and written.
#[derive(Clone, Copy)]
pub struct Outcome {
    /// How many paragraphs are selected.
    pub count: u64,
    /// Whether a paragraph was written, by the call or before it.
    pub begun: bool,
    /// Whether each selected paragraph has all the fields of the table; true in every other form.
    pub full: bool,
}

/// What was put of a paragraph that is selected.
#[derive(Clone, Copy)]
pub(crate) struct Piece {
    /// Whether the next one is separated from it.
    pub(crate) begun: bool,
    /// Whether it has all the fields of the table; true in every other form.
    pub(crate) full: bool,
}

/// What was put of a paragraph.
#[derive(Clone, Copy)]
pub(crate) struct Put {
    /// Whether it is selected.
    pub(crate) selected: bool,
    /// Whether the next one is separated from what was written.
    pub(crate) begun: bool,
    /// Whether it has all the fields of the table, or isn't selected; true in every other form.
    pub(crate) full: bool,
}

impl Selection {
    /// Reads a file, writes each paragraph that is selected in this form as soon as it is known,
    /// and returns how many are selected. In a form of paragraphs an empty line is written before
    /// one if another was written before: by this call, or before it if `begun` says so.
    ///
    /// One paragraph at a time is held in memory. At most 4,295,032,831 bytes are read: a file of
    /// the most bytes, and one piece. Promises about the text of the file hold for a reader whose
    /// bytes are known.
    ///
    /// # Errors
    ///
    /// - `Fault::Refused`: the file isn't accepted. This is its first refusal, with a code from 1
    ///   to 21 and a line of the file, counted from 1. The selected ones of the paragraphs before
    ///   it were written.
    /// - `Fault::Memory`: a growth of memory was refused. `Fault::Read`: a read failed in this
    ///   call. The selected ones of the first paragraphs were written.
    /// - `Fault::Write`: a write failed in this call. A prefix of the output was written.
    pub fn write<R: Source, W: Sink>(
        &self,
        form: &Form,
        begun: bool,
        reader: &mut R,
        writer: &mut W,
    ) -> Result<Outcome, Fault>
        ensures ok { (asked : Request) (text : List ℕ) → asked.form ≡ form_shown form.now
            → asked.begun ≡ begun → HasConditions asked.kind asked.selection self.now
            → R.left reader.old ≡ Some text
            → IfOk result (λ done. WritesSelected asked text done (W.held writer.old)
            (W.held writer.new)) }
        ensures refused { (asked : Request) (text : List ℕ) → asked.form ≡ form_shown form.now
            → asked.begun ≡ begun → HasConditions asked.kind asked.selection self.now
            → R.left reader.old ≡ Some text
            → IfRefused result (λ refusal. WritesRefused asked text refusal (W.held writer.old)
            (W.held writer.new)) }
        ensures cut_off { (asked : Request) (text : List ℕ) → asked.form ≡ form_shown form.now
            → asked.begun ≡ begun → HasConditions asked.kind asked.selection self.now
            → R.left reader.old ≡ Some text
            → IfCutOff result (WritesFirst asked text (W.held writer.old) (W.held writer.new)) }
        ensures write { (asked : Request) (text : List ℕ) → asked.form ≡ form_shown form.now
            → asked.begun ≡ begun → HasConditions asked.kind asked.selection self.now
            → R.left reader.old ≡ Some text
            → IfWriteFailed result (WritesPart asked text (W.held writer.old)
            (W.held writer.new)) }
        ensures reads_at_most { (text : List ℕ) → R.left reader.old ≡ Some text
            → TakesNoMore text file_limit (R.left reader.new) }

        // Whether or not the reader's bytes are known.
        ensures refusal { IfRefused result IsRefusalOfDocument }
        ensures counts_read_failure { R.failures reader.new ≡ read_failures_after
            (R.failures reader.old) result }
        ensures counts_write_failure { W.failures writer.new ≡ write_failures_after
            (W.failures writer.old) result }
        ensures fault_iff_read_failed { ReadFaultIffFailed (R.failures reader.old)
            (R.failures reader.new) result }
        ensures fault_iff_write_failed { WriteFaultIffFailed (W.failures writer.old)
            (W.failures writer.new) result }
    {
        let mut checked = Checked::new(self.alloc, self.doc);
        let mut visitor = NoVisitor;
        let mut count: u64 = 0;
        let mut begun = begun;
        let mut full = true;
        for _passed in 0..u64::MAX {
            if !checked.advance(&mut visitor, reader)? {
                return Ok(Outcome { count, begun, full });
            }
            let put = self.put(form, begun, &checked, writer)?;
            count = counted(count, put.selected);
            begun = put.begun;
            full &= put.full;
        }
        // No file has so many paragraphs.
        unreachable!()
    }

    /// Writes the paragraph that was found last, if it is selected.
    ///
    /// # Errors
    ///
    /// Out of memory: nothing was written; or `Fault::Write`: a prefix was.
    pub(crate) fn put<W: Sink>(
        &self,
        form: &Form,
        begun: bool,
        checked: &Checked,
        writer: &mut W,
    ) -> Result<Put, Fault>
        ensures puts { (selection : SelectionMeaning) (seen : Seen)
            (values : ValueEntries ValueMeaning) (p : Paragraph)
            → HasConditions (doc_read checked.now) selection self.now
            → (checked_state checked.now).current ≡ Some seen
            → AreValuesOf (doc_read checked.now) seen values
            → lines_checked checked.now ≡ Some p → seen.first ≡ p.first
            → seen.fields ≡ fields_in p
            → PutsSelected (form_shown form.now) begun selection values p result
            (W.held writer.old) (W.held writer.new) }
        ensures counts_failure { W.failures writer.new ≡ write_failures_after
            (W.failures writer.old) result }
        ensures fault { IsWritersFault result }
    {
        let unselected = Put {
            selected: false,
            begun,
            full: true,
        };
        let Some(paragraph) = checked.current() else {
            return Ok(unselected);
        };
        let Some(text) = checked.text() else {
            return Ok(unselected);
        };
        if !self.selects(&paragraph)? {
            return Ok(unselected);
        }
        let piece = put_piece(self.alloc, form, begun, &paragraph, text, writer)?;
        Ok(Put {
            selected: true,
            begun: piece.begun,
            full: piece.full,
        })
    }
}

/// Writes a paragraph in this form.
fn put_piece<W: Sink>(
    alloc: Global,
    form: &Form,
    begun: bool,
    paragraph: &CheckedView<'_>,
    text: &[u8],
    writer: &mut W,
) -> Result<Piece, Fault>
    ensures puts { (values : ValueEntries ValueMeaning) (p : Paragraph)
        → AreValuesOf (doc_judged paragraph.now) (passing_judged paragraph.now).seen values
        → p.lines ≡ pieces_of text.now → (passing_judged paragraph.now).seen.first ≡ p.first
        → (passing_judged paragraph.now).seen.fields ≡ fields_in p
        → PutsPiece (form_shown form.now) begun values p result (W.held writer.old)
        (W.held writer.new) }
    ensures counts_failure { W.failures writer.new ≡ write_failures_after
        (W.failures writer.old) result }
    ensures fault { IsWritersFault result }
{
    match form {
        Form::Paragraphs => {
            put_paragraph(begun, text, writer)?;
            Ok(Piece {
                begun: true,
                full: true,
            })
        }
        Form::Fields(names) => {
            let lines = fields_text(alloc, names.as_slice(), text)?;
            let begun = put_lines(begun, lines.as_slice(), writer)?;
            Ok(Piece { begun, full: true })
        }
        Form::Table(names) => {
            let mut line = Vec::new(alloc);
            let full = push_row(alloc, &mut line, names.as_slice(), paragraph)?;
            put_all(writer, line.as_slice())?;
            Ok(Piece { begun, full })
        }
        Form::Json => {
            let line = json_line(alloc, text.len().saturating_mul(2), paragraph)?;
            put_all(writer, line.as_slice())?;
            Ok(Piece { begun, full: true })
        }
        Form::Nothing => Ok(Piece { begun, full: true }),
    }
}

/// Writes lines after an empty line if a paragraph was written before them, and returns whether one
/// was written then. No lines leave nothing.
fn put_lines<W: Sink>(begun: bool, lines: &[u8], writer: &mut W) -> Result<bool, Fault>
    ensures written { Puts (W.held writer.old) (W.held writer.new) result
        (after_gap begun lines.now) }
    ensures begun { IfOk result (λ next. next ≡ (begun || has_bytes lines.now)) }
    ensures fault { IfErr result (λ fault. fault ≡ Fault.Write) }
    ensures counts_failure { W.failures writer.new ≡ write_failures_after
        (W.failures writer.old) result }
{
    if lines.is_empty() {
        return Ok(begun);
    }
    put_all(writer, separator(begun))?;
    put_all(writer, lines)?;
    Ok(true)
}

/// Returns a count after one more paragraph, which counts if it was put.
fn counted(count: u64, put: bool) -> u64
    requires { count < 2 ^ 64 - 1 }
    ensures { result ≡ count_after count put }
{
    if put { count + 1 } else { count }
}

/// Writes the lines of a paragraph, after an empty line if one was written before it.
fn put_paragraph<W: Sink>(begun: bool, text: &[u8], writer: &mut W) -> Result<(), Fault>
    ensures written { Puts (W.held writer.old) (W.held writer.new) result
        (gap begun ++ (text.now ++ newline ∷ [])) }
    ensures fault { IfErr result (λ fault. fault ≡ Fault.Write) }
    ensures counts_failure { W.failures writer.new ≡ write_failures_after
        (W.failures writer.old) result }
{
    put_all(writer, separator(begun))?;
    put_all(writer, text)?;
    put_all(writer, b"\n")
}

/// Returns what separates a paragraph from those before it: a newline, if one was written.
fn separator(begun: bool) -> &'static [u8]
    ensures { result.now ≡ gap begun }
{
    if begun { b"\n" } else { b"" }
}
