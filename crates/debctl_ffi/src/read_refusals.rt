//! Reads all refusals of a file in memory.

ghost use Rattle.std.specs.Prelude.{◌≡◌, ◌++◌, ◌∷◌, [], ℕ, List, None, Ok, Option, Some, IfErr, IfOk, IsSome, OnOk};
ghost use Rattle.deb_base.specs.Devices.{read_failures_after};
ghost use Rattle.deb_base.specs.Reading.{IsMemoryOrRead};
ghost use Rattle.deb_control.specs.AllRefusals.{total_line};
ghost use Rattle.deb_control.specs.GivenRefusals.{HasGiven, given_last};
ghost use Rattle.deb_control.specs.SeenRefusals.{SeenRefusal};
ghost use Rattle.deb_explain.specs.Explanations.{why_refused};
ghost use Rattle.debctl_ffi.specs.AllRefusals.{ExplainsFile, TablesFile, answer_to_all, block_lines};

use crate::answer::{Answer, some_refused, yes};
use crate::explanation::lines_of;
use crate::refusal_row::{RefusalRow, row_of};
use deb_base::{Fault, Refusal, SliceSource, Source, VecSink};
use deb_control::{Refusals, Summary};
use deb_explain::explain_last;
use deb_field::Doc;
use std::alloc::{AllocError, Global};

/// The answer for all refusals of a file in memory, and the rows of these.
pub(crate) fn text_refusals(
    alloc: Global,
    doc: Doc,
    text: &[u8],
) -> Result<(Answer, Vec<RefusalRow>), AllocError>
    ensures { IfOk result (λ found. TablesFile doc text.now found.0 found.1.items) }
{
    match read_refusals(alloc, doc, &mut SliceSource::new(text)) {
        Ok(found) => Ok(found),
        Err(Fault::Memory) => Err(AllocError),
        Err(Fault::Refused(_) | Fault::Read | Fault::Write) => unreachable!(),
    }
}

/// The answer for all refusals of a file, and the rows of these.
fn read_refusals<R: Source>(
    alloc: Global,
    doc: Doc,
    reader: &mut R,
) -> Result<(Answer, Vec<RefusalRow>), Fault>
    ensures ok { (text : List ℕ) → R.left reader.old ≡ Some text
        → IfOk result (λ found. TablesFile doc text found.0 found.1.items) }
    ensures fault { IfErr result IsMemoryOrRead }
    ensures counts_read_failure { R.failures reader.new ≡ read_failures_after
        (R.failures reader.old) result }
{
    let mut refusals = Refusals::new(alloc, doc);
    let mut first = None;
    let mut rows = Vec::new(alloc);
    for _ in 0..u64::MAX {
        let Some(refusal) = refusals.next(reader)? else {
            return Ok((answer_of(first, refusals.summary().passed), rows));
        };
        first = first.or(Some(refusal));
        rows.push(row_of(&refusal))?;
    }
    // No file has so many refusals.
    Err(Fault::Memory)
}

/// The answer for all refusals of a file in memory, and the lines that explain these.
pub(crate) fn text_explanations(
    alloc: Global,
    doc: Doc,
    text: &[u8],
) -> Result<(Answer, Vec<u8>), AllocError>
    ensures { IfOk result (λ found. ExplainsFile doc text.now found.0 found.1.items) }
{
    match read_explanations(alloc, doc, &mut SliceSource::new(text)) {
        Ok(found) => Ok(found),
        Err(Fault::Memory) => Err(AllocError),
        Err(Fault::Refused(_) | Fault::Read | Fault::Write) => unreachable!(),
    }
}

/// The answer for all refusals of a file, and the lines that explain these.
fn read_explanations<R: Source>(
    alloc: Global,
    doc: Doc,
    reader: &mut R,
) -> Result<(Answer, Vec<u8>), Fault>
    ensures ok { (text : List ℕ) → R.left reader.old ≡ Some text
        → IfOk result (λ found. ExplainsFile doc text found.0 found.1.items) }
    ensures fault { IfErr result IsMemoryOrRead }
    ensures counts_read_failure { R.failures reader.new ≡ read_failures_after
        (R.failures reader.old) result }
{
    let mut refusals = Refusals::new(alloc, doc);
    let mut first = None;
    let mut lines = Vec::new(alloc);
    for _ in 0..u64::MAX {
        let Some(refusal) = refusals.next(reader)? else {
            let summary = refusals.summary();
            lines.extend_from_slice(&total_line(alloc, &summary)?)?;
            return Ok((answer_of(first, summary.passed), lines));
        };
        first = first.or(Some(refusal));
        push_block(alloc, &refusals, &mut lines)?;
    }
    // No file has so many refusals.
    Err(Fault::Memory)
}

/// Appends the lines that explain the refusal that was read last, and an empty line.
fn push_block(alloc: Global, refusals: &Refusals, lines: &mut Vec<u8>) -> Result<(), AllocError>
    requires given { IsSome (given_last refusals.now) }
    ensures { (doc : Doc) (text : List ℕ) (left : Option (List ℕ)) (done : List SeenRefusal)
        (seen : SeenRefusal) → HasGiven doc text refusals.now left (done ++ seen ∷ [])
        → OnOk result (lines.new.items ≡ lines.old.items ++ block_lines (why_refused doc seen)) }
{
    let Some(explanation) = explain_last(alloc, refusals)? else {
        unreachable!()
    };
    lines.extend_from_slice(&lines_of(alloc, &explanation)?)?;
    lines.push(b'\n')?;
    Ok(())
}

/// The last line of all refusals.
fn total_line(alloc: Global, summary: &Summary) -> Result<Vec<u8>, AllocError>
    ensures { IfOk result (λ line. line.items ≡ total_line summary.now.passed summary.now.refused) }
{
    let mut sink = VecSink::new(alloc);
    match summary.write_line(&mut sink) {
        Ok(()) => Ok(sink.into_bytes()),
        Err(_) => Err(AllocError),
    }
}

/// The answer for a file of which this is the first refusal, if it has one, and of which so many
/// paragraphs pass.
fn answer_of(first: Option<Refusal>, passed: u64) -> Answer
    ensures { result ≡ answer_to_all first passed }
{
    match first {
        Some(refusal) => some_refused(&refusal, passed),
        None => yes(passed),
    }
}
