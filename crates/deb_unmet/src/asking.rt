//! Writes the lines of a file.

ghost use Rattle.std.specs.Prelude.{◌≡◌, ℕ, List, Some, IfOk};
ghost use Rattle.deb_base.specs.Bodies.{file_limit};
ghost use Rattle.deb_base.specs.Devices.{read_failures_after, write_failures_after, ReadFaultIffFailed, WriteFaultIffFailed};
ghost use Rattle.deb_base.specs.Reading.{TakesNoMore};
ghost use Rattle.deb_control.specs.Calls.{IfRefused, IfCutOff, IfWriteFailed};
ghost use Rattle.deb_control.specs.Checking.{IsRefusalOfDocument};
ghost use Rattle.deb_control.specs.ValueFiles.{ValueEntries};
ghost use Rattle.deb_field.specs.Values.{ValueMeaning};
ghost use Rattle.deb_relation.specs.Environments.{environment_of};
ghost use Rattle.deb_unmet.specs.Asking.{IsWritersFault, PutsLines, asks_of};
ghost use Rattle.deb_unmet.specs.Fields.{paragraph_lines};
ghost use Rattle.deb_unmet.specs.Files.{WritesRead, WritesRefused, WritesSome, WritesFile};
ghost use Rattle.deb_unmet.specs.Paragraphs.{HasTextsOf};
ghost use Rattle.deb_unmet.specs.Scopes.{scope_of};

use crate::asked::Request;
use crate::line_texts::LineTexts;
use crate::lines::append_lines;
use crate::paragraph::Paragraph;
use crate::question::Question;
use deb_base::{Fault, Sink, Source, put_all};
use deb_control::{Checked, FieldTexts};
use std::alloc::Global;

/// What was written of a whole file.
#[derive(Clone, Copy, Debug, PartialEq, Eq)]
pub struct Summary {
    /// The number of paragraphs.
    pub paragraphs: u64,
    /// No line was written.
    pub is_empty: bool,
}

/// Reads a file, and writes a line for each group of the relations asked that no package of an
/// index meets, or may not meet (Debian Policy 7.1, 7.2 and 7.7).
///
/// A line has the word `unmet` or `unsure`, the number of the paragraph, its package, version and
/// architecture (`source` for a source package), the field and the group. The lines are in the
/// order of the paragraphs, then of the fields that are asked, then of the groups' canonical texts;
/// those of a paragraph are written as soon as it has passed every rule of its kind. The target of
/// a binary package is its architecture, or that of the environment if its architecture can't be a
/// target, as `all`.
///
/// A group that an old index doesn't meet in every reading has no line, and neither has a binary
/// package whose name is left out. Of source packages those for the target are asked, or all
/// ([`crate::SourcesAsked`]).
///
/// One paragraph is in memory. At most 4,295,032,831 bytes are read: a file of the most bytes, and
/// one piece. Promises about the text of the file hold for a reader whose bytes are known.
///
/// # Errors
///
/// - `Fault::Refused`: the file isn't accepted. This is its first refusal, with a code from 1 to 21
///   and a line of the file, counted from 1. The lines of the paragraphs before it were written.
/// - `Fault::Memory`: a growth of memory was refused; `Fault::Read`: a read failed in this call.
///   The lines of the first paragraphs were written; each of them passes and was read with the
///   blank line after it.
/// - `Fault::Write`: a write failed in this call. A prefix of the lines of paragraphs that pass was
///   written.
pub fn unmet<R: Source, W: Sink>(
    alloc: Global,
    question: &Question<'_>,
    request: Request,
    reader: &mut R,
    writer: &mut W,
) -> Result<Summary, Fault>
    ensures ok { (text : List ℕ) → R.left reader.old ≡ Some text
        → IfOk result (λ summary. WritesFile
        (asks_of request (environment_of question.now.environment.now) (scope_of question.now))
        text summary (W.held writer.old) (W.held writer.new)) }
    ensures refused { (text : List ℕ) → R.left reader.old ≡ Some text
        → IfRefused result (λ refusal. WritesRefused
        (asks_of request (environment_of question.now.environment.now) (scope_of question.now))
        text refusal (W.held writer.old) (W.held writer.new)) }
    ensures cut_off { (text : List ℕ) → R.left reader.old ≡ Some text
        → IfCutOff result (WritesRead
        (asks_of request (environment_of question.now.environment.now) (scope_of question.now)) text
        (W.held writer.old) (W.held writer.new)) }
    ensures write { (text : List ℕ) → R.left reader.old ≡ Some text
        → IfWriteFailed result (WritesSome
        (asks_of request (environment_of question.now.environment.now) (scope_of question.now)) text
        (W.held writer.old) (W.held writer.new)) }
    ensures reads_at_most { (text : List ℕ) → R.left reader.old ≡ Some text
        → TakesNoMore text file_limit (R.left reader.new) }

    // Whether or not the reader's bytes are known.
    ensures refusal { IfRefused result IsRefusalOfDocument }
    ensures counts_read_failure { R.failures reader.new ≡ read_failures_after
        (R.failures reader.old) result }
    ensures counts_write_failure { W.failures writer.new ≡ write_failures_after
        (W.failures writer.old) result }
    ensures fault_iff_read_failed { ReadFaultIffFailed (R.failures reader.old)
        (R.failures reader.new) result }
    ensures fault_iff_write_failed { WriteFaultIffFailed (W.failures writer.old)
        (W.failures writer.new) result }
{
    let mut checked = Checked::new(alloc, request.asked.doc());
    let mut texts = FieldTexts::new(alloc);
    let mut is_empty = true;
    for count in 0..u64::MAX {
        if !checked.advance(&mut texts, reader)? {
            return Ok(Summary {
                paragraphs: count,
                is_empty,
            });
        }
        let Some(view) = checked.current() else {
            unreachable!()
        };
        let paragraph = Paragraph {
            asked: request.asked,
            number: count + 1,
            texts: &LineTexts::of(request, &view, &texts),
        };
        let is_met = write_paragraph(alloc, question, &paragraph, writer)?;
        is_empty = is_empty && is_met;
    }
    // No file has so many paragraphs.
    unreachable!()
}

/// Writes the lines of a paragraph, and returns whether there is none.
///
/// # Errors
///
/// Out of memory: nothing was written; or `Fault::Write`: a prefix was.
pub(crate) fn write_paragraph<W: Sink>(
    alloc: Global,
    question: &Question<'_>,
    paragraph: &Paragraph<'_>,
    writer: &mut W,
) -> Result<bool, Fault>
    ensures puts { (values : ValueEntries ValueMeaning)
        → HasTextsOf paragraph.now.asked paragraph.now.texts.now values
        → PutsLines (paragraph_lines paragraph.now.asked
        (environment_of question.now.environment.now) (scope_of question.now)
        paragraph.now.number paragraph.now.texts.now.version.now values) result (W.held writer.old)
        (W.held writer.new) }
    ensures counts_failure { W.failures writer.new ≡ write_failures_after
        (W.failures writer.old) result }
    ensures fault { IsWritersFault result }
{
    let mut lines = Vec::new(alloc);
    append_lines(alloc, &mut lines, question, paragraph)?;
    put_all(writer, &lines)?;
    Ok(lines.is_empty())
}
