//! Writes why a text is no condition.

ghost use Rattle.std.specs.Prelude.{◌≡◌, IfErr, IfOk, is_none};
ghost use Rattle.deb_base.specs.Devices.{write_failures_after, Puts, WriteFaultIffFailed};
ghost use Rattle.deb_select.specs.Explaining.{WritesLines, answer_lines, code_lines};
ghost use Rattle.deb_select.specs.Explaining.{condition_lines, line_of, place_line, reason_line};
ghost use Rattle.deb_select.specs.Explaining.{refusal_lines, rule_line};
ghost use Rattle.deb_select.specs.Grammar.{condition_refusal};

use crate::cells::push_text;
use crate::condition::Condition;
use crate::reason::{ConditionFault, Reason};
use deb_base::{Fault, Sink, put_all, put_pieces};
use deb_field::Doc;
use itoa::Buffer;
use std::alloc::{AllocError, Global};

/// Writes whether a text is a condition on the paragraphs of a document of this kind, and returns
/// it: the line `ok`, or why it is none, in lines `key: value`.
///
/// The keys are, in this order: `place` (the offset in the text, in bytes from 0), `code` and
/// `name` (only of a value that the field can't have: the number and name of its error code),
/// `reason`, `value` (the text, in which control characters and backslashes are escaped as in a
/// table) and `rule` (the reason in a sentence).
///
/// # Errors
///
/// - `Fault::Memory`: a growth of memory was refused. Nothing was written.
/// - `Fault::Write`: a write failed in this call. A prefix of the lines was written.
pub fn explain_condition<W: Sink>(
    alloc: Global,
    doc: Doc,
    text: &[u8],
    writer: &mut W,
) -> Result<bool, Fault>
    ensures answer { IfOk result (λ good. good ≡ is_none (condition_refusal doc text.now)) }
    ensures written { WritesLines (condition_lines doc text.now) result (W.held writer.old)
        (W.held writer.new) }
    ensures counts_failure { W.failures writer.new ≡ write_failures_after
        (W.failures writer.old) result }
    ensures fault_iff_write_failed { WriteFaultIffFailed (W.failures writer.old)
        (W.failures writer.new) result }
{
    let refusal = refusal_of(alloc, doc, text)?;
    let mut shown = Vec::new(alloc);
    push_text(&mut shown, text)?;
    write_answer(refusal, shown.as_slice(), writer)?;
    Ok(refusal.is_none())
}

/// Returns the first reason why a text is no condition, and its offset, or `None` if it is one.
fn refusal_of(alloc: Global, doc: Doc, text: &[u8]) -> Result<Option<(Reason, usize)>, AllocError>
    ensures { IfOk result (λ refusal. refusal ≡ condition_refusal doc text.now) }
{
    match Condition::read(alloc, doc, text) {
        Ok(_) => Ok(None),
        Err(ConditionFault::Bad { reason, at }) => Ok(Some((reason, at))),
        Err(ConditionFault::Memory) => Err(AllocError),
    }
}

/// Writes the line of a condition, or the lines of a refusal, with the text as it is shown.
#[tactic(auto, unfolding(crate::specs::Explaining::answer_lines))]
fn write_answer<W: Sink>(
    refusal: Option<(Reason, usize)>,
    shown: &[u8],
    writer: &mut W,
) -> Result<(), Fault>
    ensures written { Puts (W.held writer.old) (W.held writer.new) result
        (answer_lines shown.now refusal) }
    ensures fault { IfErr result (λ fault. fault ≡ Fault.Write) }
    ensures counts_failure { W.failures writer.new ≡ write_failures_after
        (W.failures writer.old) result }
{
    match refusal {
        None => put_all(writer, b"ok\n"),
        Some((reason, at)) => write_refusal(reason, at, shown, writer),
    }
}

/// Writes the lines of a reason at an offset, with the text as it is shown.
#[tactic(auto, using(deb_base::proofs::Writes::puts))]
fn write_refusal<W: Sink>(
    reason: Reason,
    at: usize,
    shown: &[u8],
    writer: &mut W,
) -> Result<(), Fault>
    ensures written { Puts (W.held writer.old) (W.held writer.new) result
        (refusal_lines reason at shown.now) }
    ensures fault { IfErr result (λ fault. fault ≡ Fault.Write) }
    ensures counts_failure { W.failures writer.new ≡ write_failures_after
        (W.failures writer.old) result }
{
    write_place(at, writer)?;
    write_code(reason, writer)?;
    write_reason(reason, writer)?;
    write_line(b"value: ", shown, writer)?;
    write_rule(reason, writer)
}

#[tactic(auto, unfolding(crate::specs::Explaining::place_line))]
fn write_place<W: Sink>(at: usize, writer: &mut W) -> Result<(), Fault>
    ensures written { Puts (W.held writer.old) (W.held writer.new) result (place_line at) }
    ensures fault { IfErr result (λ fault. fault ≡ Fault.Write) }
    ensures counts_failure { W.failures writer.new ≡ write_failures_after
        (W.failures writer.old) result }
{
    put_pieces(
        writer,
        &[b"place: ", Buffer::new().format(at).as_bytes(), b"\n"],
    )
}

/// Writes the number and the name of the code of a value that the field can't have.
#[tactic(auto, unfolding(crate::specs::Explaining::code_lines))]
fn write_code<W: Sink>(reason: Reason, writer: &mut W) -> Result<(), Fault>
    ensures written { Puts (W.held writer.old) (W.held writer.new) result (code_lines reason) }
    ensures fault { IfErr result (λ fault. fault ≡ Fault.Write) }
    ensures counts_failure { W.failures writer.new ≡ write_failures_after
        (W.failures writer.old) result }
{
    let Reason::ValueBad(code) = reason else {
        return Ok(());
    };
    put_pieces(
        writer,
        &[
            b"code: ",
            Buffer::new().format(code as u8).as_bytes(),
            b"\nname: ",
            code.name(),
            b"\n",
        ],
    )
}

#[tactic(auto, unfolding(crate::specs::Explaining::reason_line))]
fn write_reason<W: Sink>(reason: Reason, writer: &mut W) -> Result<(), Fault>
    ensures written { Puts (W.held writer.old) (W.held writer.new) result (reason_line reason) }
    ensures fault { IfErr result (λ fault. fault ≡ Fault.Write) }
    ensures counts_failure { W.failures writer.new ≡ write_failures_after
        (W.failures writer.old) result }
{
    put_pieces(writer, &[b"reason: ", reason.name().as_bytes(), b"\n"])
}

/// Writes the line of a text after its key.
#[tactic(auto, using(deb_base::proofs::Writes::puts), unfolding(crate::specs::Explaining::line_of))]
fn write_line<W: Sink>(key: &[u8], text: &[u8], writer: &mut W) -> Result<(), Fault>
    ensures written { Puts (W.held writer.old) (W.held writer.new) result
        (line_of key.now text.now) }
    ensures fault { IfErr result (λ fault. fault ≡ Fault.Write) }
    ensures counts_failure { W.failures writer.new ≡ write_failures_after
        (W.failures writer.old) result }
{
    put_all(writer, key)?;
    put_all(writer, text)?;
    put_all(writer, b"\n")
}

#[tactic(auto, unfolding(crate::specs::Explaining::rule_line))]
fn write_rule<W: Sink>(reason: Reason, writer: &mut W) -> Result<(), Fault>
    ensures written { Puts (W.held writer.old) (W.held writer.new) result (rule_line reason) }
    ensures fault { IfErr result (λ fault. fault ≡ Fault.Write) }
    ensures counts_failure { W.failures writer.new ≡ write_failures_after
        (W.failures writer.old) result }
{
    put_pieces(writer, &[b"rule: ", reason.text().as_bytes(), b"\n"])
}
