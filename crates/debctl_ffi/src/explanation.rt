//! The text of an explanation of a file in memory.

ghost use Rattle.std.specs.Prelude.{◌≡◌, [], IfOk, Some};
ghost use Rattle.deb_control.specs.Calls.{HasParagraphs};
ghost use Rattle.deb_explain.specs.Explanations.{explanation_of};
ghost use Rattle.deb_explain.specs.Shown.{IfAccepted, IfRefused, shown_by};
ghost use Rattle.deb_explain.specs.Texts.{explanation_text};
ghost use Rattle.debctl_ffi.specs.Explaining.{ExplainedText, explanation_lines, ok_line};

use crate::answer::{Answer, refused, yes};
use deb_base::{Fault, SliceSource, VecSink};
use deb_explain::{Explained, Explanation, explain};
use deb_field::Doc;
use std::alloc::{AllocError, Global};

/// What the program `debctl explain` writes of a file, without the line of its path, with the
/// answer that goes with that.
#[tactic(auto, using(crate::proofs::Explained::refusal_explained))]
pub(crate) fn explain_text(
    alloc: Global,
    doc: Doc,
    text: &[u8],
) -> Result<(Answer, Vec<u8>), AllocError>
    ensures { IfOk result (λ answer. ExplainedText doc text.now answer.0 answer.1.items) }
{
    match explained(alloc, doc, text)? {
        Explained::Accepted(count) => Ok((yes(count), ok_line(alloc, count)?)),
        Explained::Refused(explanation) => Ok((
            refused(&explanation.refusal),
            lines_of(alloc, &explanation)?,
        )),
    }
}

/// That a file in memory is accepted, or why it is refused.
fn explained(alloc: Global, doc: Doc, text: &[u8]) -> Result<Explained, AllocError>
    ensures accepted { IfOk result
        (λ explained. IfAccepted explained (HasParagraphs doc text.now)) }
    ensures refused { IfOk result
        (λ explained. IfRefused explained
        (λ explanation. explanation_of doc text.now ≡ Some (shown_by explanation))) }
{
    match explain(alloc, doc, &mut SliceSource::new(text)) {
        Ok(explained) => Ok(explained),
        Err(Fault::Memory) => Err(AllocError),
        Err(Fault::Refused(_) | Fault::Read | Fault::Write) => unreachable!(),
    }
}

/// The line that a file of so many paragraphs is accepted.
fn ok_line(alloc: Global, paragraphs: u64) -> Result<Vec<u8>, AllocError>
    ensures { IfOk result (λ line. line.items ≡ ok_line paragraphs) }
{
    Ok(format!(in alloc; "ok {paragraphs}\n")?.into_bytes())
}

/// Returns the lines of an explanation after the one with the path.
#[tactic(auto, unfolding(deb_explain::specs::Texts::path_line))]
pub(crate) fn lines_of(alloc: Global, explanation: &Explanation) -> Result<Vec<u8>, AllocError>
    ensures { IfOk result (λ lines. lines.items ≡ explanation_lines (shown_by explanation.now)) }
{
    let mut lines = text_of(alloc, explanation)?;
    lines.drain(..b"file: \n".len());
    Ok(lines)
}

/// The text of an explanation, of a file whose path is empty.
fn text_of(alloc: Global, explanation: &Explanation) -> Result<Vec<u8>, AllocError>
    ensures { IfOk result (λ text. text.items ≡ explanation_text [] (shown_by explanation.now)) }
{
    let mut sink = VecSink::new(alloc);
    match explanation.write(b"", &mut sink) {
        Ok(()) => Ok(sink.into_bytes()),
        Err(_) => Err(AllocError),
    }
}
