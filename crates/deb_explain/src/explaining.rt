//! Explains why a file is refused: its first refusal, or each of them.

ghost use Rattle.std.specs.Prelude.{◌≡◌, ℕ, List, map, None, Option, Some, IfErr, IfOk, IfSome, option_map};
ghost use Rattle.deb_base.specs.Bodies.{file_limit};
ghost use Rattle.deb_base.specs.Devices.{AppendsFront, Puts, read_failures_after, write_failures_after, ReadFaultIffFailed, WriteFaultIffFailed};
ghost use Rattle.deb_base.specs.Reading.{IsMemoryOrRead, TakesNoMore};
ghost use Rattle.deb_syntax.specs.Paragraphs.{seen_of};
ghost use Rattle.deb_control.specs.Calls.{HasParagraphs, IfCutOff, IfWriteFailed};
ghost use Rattle.deb_control.specs.GivenRefusals.{HasGiven, IsLastOf, failure_of, given_last};
ghost use Rattle.deb_control.specs.SeenRefusals.{SeenRefusal};
ghost use Rattle.deb_control.specs.WrittenRefusals.{HasWritten, IsNoRefusal, WritesNext};
ghost use Rattle.deb_explain.specs.AllExplanations.{ExplainsAll, ExplainsFirst, explained_block, explained_lines, seen_block};
ghost use Rattle.deb_explain.specs.Explanations.{explain_refusal, explanation_of, why_refused};
ghost use Rattle.deb_explain.specs.Shown.{IfAccepted, IfRefused, shown_by};

use crate::explained::{Explained, Explanation};
use crate::subject::subject_of;
use deb_base::{Fault, Refusal, Sink, Source, put_all};
use deb_control::{Refusals, Summary};
use deb_field::Doc;
use deb_syntax::Raw;
use std::alloc::{AllocError, Global};

/// Checks a file as a document of a kind, and returns what its refusal is about (Debian Policy 5.1
/// and 5.3 to 5.6).
///
/// The file is read once, no further than `deb_control::check` reads it: at most 4,295,032,831
/// bytes, a file of the most bytes and one piece. One paragraph is held in memory, and a copy of
/// what the refusal is about. Promises about the text of the file hold for a reader whose bytes are
/// known.
///
/// # Errors
///
/// - `Fault::Memory`: a growth of memory was refused.
/// - `Fault::Read`: a read failed in this call.
pub fn explain<R: Source>(alloc: Global, doc: Doc, reader: &mut R) -> Result<Explained, Fault>
    ensures accepted { (text : List ℕ) → R.left reader.old ≡ Some text → IfOk result
        (λ explained. IfAccepted explained (HasParagraphs doc text)) }
    ensures refused { (text : List ℕ) → R.left reader.old ≡ Some text → IfOk result
        (λ explained. IfRefused explained
        (λ explanation. explanation_of doc text ≡ Some (shown_by explanation))) }
    ensures reads_at_most { (text : List ℕ) → R.left reader.old ≡ Some text
        → TakesNoMore text file_limit (R.left reader.new) }

    // Whether or not the reader's bytes are known.
    ensures fault { IfErr result IsMemoryOrRead }
    ensures counts_read_failure { R.failures reader.new ≡ read_failures_after
        (R.failures reader.old) result }
    ensures fault_iff_read_failed { ReadFaultIffFailed (R.failures reader.old)
        (R.failures reader.new) result }
{
    let mut refusals = Refusals::new(alloc, doc);
    let Some(_) = refusals.next(reader)? else {
        return Ok(Explained::Accepted(refusals.summary().passed));
    };
    let Some(explanation) = explain_last(alloc, &refusals)? else {
        unreachable!()
    };
    Ok(Explained::Refused(explanation))
}

/// Returns what a refusal of a document of a kind is about, by the line of the file that has the
/// refusal's number and by the paragraph that is refused: what `deb_control::Checked` returns of
/// them after it refused the document.
///
/// # Errors
///
/// `AllocError`: a growth of memory was refused.
pub fn explain_refusal(
    alloc: Global,
    doc: Doc,
    refusal: Refusal,
    line: Option<&[u8]>,
    paragraph: Option<Raw<'_>>,
) -> Result<Explanation, AllocError>
    ensures explains { IfOk result (λ explanation. shown_by explanation
        ≡ explain_refusal doc refusal (option_map (λ line. line.now) line.entry)
        (option_map seen_of paragraph.entry)) }
{
    let subject = subject_of(alloc, doc, refusal, line, paragraph)?;
    Ok(Explanation { refusal, subject })
}

/// Returns what the refusal is about that `Refusals::next` returned last, or `None` if that
/// returned none or an error, or wasn't called.
///
/// # Errors
///
/// `AllocError`: a growth of memory was refused. A later call can succeed.
pub fn explain_last(alloc: Global, refusals: &Refusals) -> Result<Option<Explanation>, AllocError>
    ensures refusal { IfOk result
        (λ given. option_map (λ explanation. explanation.refusal) given
        ≡ given_last refusals.now) }
    ensures explains { (doc : Doc) (text : List ℕ) (left : Option (List ℕ))
        (done : List SeenRefusal) → HasGiven doc text refusals.now left done → IfOk result
        (λ given. IfSome given
        (λ explanation. IsLastOf (shown_by explanation) (map (why_refused doc) done))) }
{
    let Some(run) = refusals.refused() else {
        return Ok(None);
    };
    let explanation = explain_refusal(alloc, run.doc, run.refusal, run.line, run.paragraph)?;
    Ok(Some(explanation))
}

/// Reads a file as a document of a kind, and writes what each of its refusals is about, in the
/// order of the file: the lines that `Explanation::write` writes for this path, and an empty line.
/// Then it writes the last line of `deb_control::check_all`, `ok N, M refused` (Debian Policy 5.1,
/// 5.3 to 5.6 and 7.1).
///
/// The refusals are those of `check_all`. One paragraph is in memory, and a copy of what a refusal
/// is about. Promises about the text of the file hold for a reader whose bytes are known.
///
/// # Errors
///
/// - `Fault::Memory`: a growth of memory was refused; `Fault::Read`: a read failed in this call.
///   What the first refusals are about was written.
/// - `Fault::Write`: a write failed in this call. A prefix of the lines was written.
pub fn explain_all<R: Source, W: Sink>(
    alloc: Global,
    doc: Doc,
    path: &[u8],
    reader: &mut R,
    writer: &mut W,
) -> Result<Summary, Fault>
    ensures ok { (text : List ℕ) → R.left reader.old ≡ Some text → IfOk result
        (λ summary. ExplainsAll path.now doc text summary (W.held writer.old)
        (W.held writer.new)) }
    ensures cut_off { (text : List ℕ) → R.left reader.old ≡ Some text → IfCutOff result
        (ExplainsFirst path.now doc text (W.held writer.old) (W.held writer.new)) }
    ensures write { (text : List ℕ) → R.left reader.old ≡ Some text → IfWriteFailed result
        (AppendsFront (W.held writer.old) (W.held writer.new)
        (explained_lines path.now doc text)) }
    ensures reads_at_most { (text : List ℕ) → R.left reader.old ≡ Some text
        → TakesNoMore text file_limit (R.left reader.new) }

    // Whether or not the reader's bytes are known.
    ensures fault { IfErr result IsNoRefusal }
    ensures counts_read_failure { R.failures reader.new ≡ read_failures_after
        (R.failures reader.old) result }
    ensures counts_write_failure { W.failures writer.new ≡ write_failures_after
        (W.failures writer.old) result }
    ensures fault_iff_read_failed { ReadFaultIffFailed (R.failures reader.old)
        (R.failures reader.new) result }
    ensures fault_iff_write_failed { WriteFaultIffFailed (W.failures writer.old)
        (W.failures writer.new) result }
{
    let mut refusals = Refusals::new(alloc, doc);
    for _ in 0..u64::MAX {
        if !explain_next(alloc, &mut refusals, path, reader, writer)? {
            let summary = refusals.summary();
            summary.write_line(writer)?;
            return Ok(summary);
        }
    }
    // No file has so many runs of lines.
    Err(Fault::Memory)
}

/// Writes what the next refusal is about. Returns whether there is one.
fn explain_next<R: Source, W: Sink>(
    alloc: Global,
    refusals: &mut Refusals,
    path: &[u8],
    reader: &mut R,
    writer: &mut W,
) -> Result<bool, Fault>
    requires sound { failure_of refusals.old ≡ None }
    ensures writes_next { (doc : Doc) (text : List ℕ) (held : Option (List ℕ))
        → HasWritten (seen_block path.now doc)
        (HasGiven doc text refusals.old (R.left reader.old)) held (W.held writer.old)
        → WritesNext (seen_block path.now doc) doc text result refusals.new (R.left reader.new)
        held (W.held writer.new) }
    ensures reads_at_most { (doc : Doc) (text : List ℕ) (held : Option (List ℕ))
        → HasWritten (seen_block path.now doc)
        (HasGiven doc text refusals.old (R.left reader.old)) held (W.held writer.old)
        → TakesNoMore text file_limit (R.left reader.new) }
    ensures sound { IfOk result (λ _. failure_of refusals.new ≡ None) }
    ensures fault { IfErr result IsNoRefusal }
    ensures counts_read_failure { R.failures reader.new ≡ read_failures_after
        (R.failures reader.old) result }
    ensures counts_write_failure { W.failures writer.new ≡ write_failures_after
        (W.failures writer.old) result }
{
    if refusals.next(reader)?.is_none() {
        return Ok(false);
    }
    if let Some(explanation) = explain_last(alloc, refusals)? {
        write_block(path, &explanation, writer)?;
    }
    Ok(true)
}

/// Writes an explanation for a path, and an empty line.
#[tactic(auto, using(deb_base::proofs::Writes::puts))]
fn write_block<W: Sink>(path: &[u8], explanation: &Explanation, out: &mut W) -> Result<(), Fault>
    ensures written { Puts (W.held out.old) (W.held out.new) result
        (explained_block path.now (shown_by explanation.now)) }
    ensures fault { IfErr result (λ fault. fault ≡ Fault.Write) }
    ensures counts_failure { W.failures out.new ≡ write_failures_after (W.failures out.old) result }
{
    explanation.write(path, out)?;
    put_all(out, b"\n")
}
