//! Why a text isn't a relation or a version, for programs in C.

ghost use Rattle.std.specs.Prelude.{◌≡◌, [], ◌∷◌, IfOk, codes};
ghost use Rattle.deb_explain.specs.Texts.{word_text};
ghost use Rattle.debctl_ffi.specs.Answers.{HasStatus, refusing};
ghost use Rattle.debctl_ffi.specs.Buffers.{buffer};
ghost use Rattle.debctl_ffi.specs.ExplainedTexts.{ExplainedAs, refusal_as};
ghost use Rattle.debctl_ffi.specs.Replies.{IsOutOfMemory, Replies};

use crate::answer::{Answer, no_memory, refused, yes};
use crate::buffer::reply;
use deb_base::{Code, Refusal, VecSink};
use deb_explain::{Cause, Word, explain_word, write_refused_word};
use std::alloc::{AllocError, Global};

/// Writes why a text isn't a relation to the start of `out`, and returns the length of these lines,
/// which are those that the program `debctl explain --relation` writes (Debian Policy 7.1). Status
/// 2: it isn't one, with the code 19 and no line. 0: it is one; `ok` and a newline is written. 4:
/// `out` is too small; `len` is the length that it needs. 5: out of memory.
///
/// Except for status 0 and 2, `out` is unchanged.
#[unsafe(no_mangle)]
pub extern "C" fn deb_explain_relation(
    alloc: Global,
    text: &[u8],
    out: &mut [u8],
    len: &mut usize,
) -> Answer
    ensures answers { Replies (ExplainedAs Word.Relation text.now) IsOutOfMemory
        (buffer out.old out.new len.new) result }
    ensures status { HasStatus result.status (0 ∷ 2 ∷ 4 ∷ 5 ∷ []) }
{
    explain_as(alloc, Word::Relation, text, out, len)
}

/// Writes why a text isn't a version to the start of `out`, and returns the length of these lines,
/// which are those that the program `debctl explain --version-text` writes (Debian Policy 5.6.12).
/// Status 2: it isn't one, with the code 18 and no line. 0: it is one; `ok` and a newline is
/// written. 4: `out` is too small; `len` is the length that it needs. 5: out of memory.
///
/// Except for status 0 and 2, `out` is unchanged.
#[unsafe(no_mangle)]
pub extern "C" fn deb_explain_version(
    alloc: Global,
    text: &[u8],
    out: &mut [u8],
    len: &mut usize,
) -> Answer
    ensures answers { Replies (ExplainedAs Word.Version text.now) IsOutOfMemory
        (buffer out.old out.new len.new) result }
    ensures status { HasStatus result.status (0 ∷ 2 ∷ 4 ∷ 5 ∷ []) }
{
    explain_as(alloc, Word::Version, text, out, len)
}

/// Writes that a text is a relation or a version, or why it isn't.
fn explain_as(alloc: Global, word: Word, text: &[u8], out: &mut [u8], len: &mut usize) -> Answer
    ensures answers { Replies (ExplainedAs word text.now) IsOutOfMemory
        (buffer out.old out.new len.new) result }
    ensures status { HasStatus result.status (0 ∷ 2 ∷ 4 ∷ 5 ∷ []) }
{
    *len = 0;
    match explain_lines(alloc, word, text) {
        Ok((answer, lines)) => reply(answer, &lines, out, len),
        Err(_) => no_memory(),
    }
}

/// The lines that say that a text is a relation or a version, or why it isn't, with the answer that
/// goes with that.
#[tactic(auto, using(crate::proofs::ReadTexts::accepted_as, crate::proofs::ReadTexts::refused_as))]
fn explain_lines(alloc: Global, word: Word, text: &[u8]) -> Result<(Answer, Vec<u8>), AllocError>
    ensures { IfOk result (λ answer. ExplainedAs word text.now answer.0 answer.1.items) }
{
    match explain_word(alloc, word, text)? {
        None => Ok((yes(0), ok_line(alloc)?)),
        Some(cause) => Ok((refused_as(word), lines_of(alloc, word, &cause, text)?)),
    }
}

/// The line of an accepted text.
fn ok_line(alloc: Global) -> Result<Vec<u8>, AllocError>
    ensures { IfOk result (λ line. line.items ≡ codes "ok\n") }
{
    let mut line = Vec::new(alloc);
    line.extend_from_slice(b"ok\n")?;
    Ok(line)
}

/// The lines that say why a text is refused.
#[tactic(auto, using(crate::proofs::Written::written_whole))]
fn lines_of(alloc: Global, word: Word, cause: &Cause, text: &[u8]) -> Result<Vec<u8>, AllocError>
    ensures { IfOk result (λ lines. lines.items ≡ word_text word cause.now text.now) }
{
    let mut sink = VecSink::new(alloc);
    match write_refused_word(word, cause, text, &mut sink) {
        Ok(()) => Ok(sink.into_bytes()),
        Err(_) => Err(AllocError),
    }
}

/// The answer 2: a text isn't a relation, or isn't a version.
fn refused_as(word: Word) -> Answer
    ensures { result ≡ refusing 2 (refusal_as word) }
{
    let code = match word {
        Word::Relation => Code::BadRelation,
        Word::Version => Code::BadVersion,
    };
    refused(&Refusal { code, line: 0 })
}
