//! Why a text is no condition, for programs in C.

ghost use Rattle.std.specs.Prelude.{◌≡◌, ◌∷◌, [], IfOk};
ghost use Rattle.debctl_ffi.specs.Answers.{HasStatus};
ghost use Rattle.debctl_ffi.specs.Buffers.{buffer};
ghost use Rattle.debctl_ffi.specs.Documents.{KindFails};
ghost use Rattle.debctl_ffi.specs.ExplainedConditions.{ExplainsCondition, ExplainsText, is_good};
ghost use Rattle.debctl_ffi.specs.Replies.{Replies};

use crate::answer::{Answer, no_kind, no_memory, unread, yes};
use crate::buffer::reply;
use crate::kind::kind_of;
use deb_base::VecSink;
use deb_field::Doc;
use deb_select::explain_condition;
use std::alloc::{AllocError, Global};

/// Writes why a text is no condition of `deb_select` on documents of a kind to the start of `out`,
/// and returns the length of these lines. Status 2: it is none. 0: it is one; `ok` and a newline is
/// written. 4: `out` is too small; `len` is the length that it needs. 5: out of memory. 6: no such
/// kind.
///
/// Except for status 0 and 2, `out` is unchanged.
#[unsafe(no_mangle)]
pub extern "C" fn deb_explain_condition(
    alloc: Global,
    kind: u8,
    text: &[u8],
    out: &mut [u8],
    len: &mut usize,
) -> Answer
    ensures answers { Replies (ExplainsCondition kind text.now) (KindFails kind)
        (buffer out.old out.new len.new) result }
    ensures status { HasStatus result.status (0 ∷ 2 ∷ 4 ∷ 5 ∷ 6 ∷ []) }
{
    *len = 0;
    let Some(doc) = kind_of(kind) else {
        return no_kind();
    };
    match explained(alloc, doc, text) {
        Ok((answer, lines)) => reply(answer, &lines, out, len),
        Err(AllocError) => no_memory(),
    }
}

/// The lines that say that a text is a condition, or why it is none, with the answer that goes with
/// that.
#[tactic(auto, using(crate::proofs::Written::written_whole))]
fn explained(alloc: Global, doc: Doc, text: &[u8]) -> Result<(Answer, Vec<u8>), AllocError>
    ensures lines { IfOk result (λ found. ExplainsText doc text.now found.0 found.1.items) }
    ensures status { IfOk result (λ found. HasStatus found.0.status (0 ∷ 2 ∷ [])) }
{
    let mut sink = VecSink::new(alloc);
    match explain_condition(alloc, doc, text, &mut sink) {
        Ok(good) => Ok((answer_of(good), sink.into_bytes())),
        Err(_) => Err(AllocError),
    }
}

/// The answer whether a text is a condition.
fn answer_of(good: bool) -> Answer
    ensures { result ≡ is_good good }
{
    if good { yes(0) } else { unread() }
}
