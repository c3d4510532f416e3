//! All refusals of a file, for programs in C.

ghost use Rattle.std.specs.Prelude.{[], ◌∷◌};
ghost use Rattle.debctl_ffi.specs.AllRefusals.{ChecksAll, ExplainsAll};
ghost use Rattle.debctl_ffi.specs.Answers.{HasStatus};
ghost use Rattle.debctl_ffi.specs.Buffers.{buffer};
ghost use Rattle.debctl_ffi.specs.Documents.{KindFails};
ghost use Rattle.debctl_ffi.specs.Replies.{Replies};

use crate::answer::{Answer, no_kind, no_memory};
use crate::buffer::reply;
use crate::kind::kind_of;
use crate::read_refusals::{text_explanations, text_refusals};
use crate::refusal_row::RefusalRow;
use std::alloc::Global;

/// Checks all of a file as a document of a kind, and writes the line and the code of each refusal
/// to the start of `refusals`, in file order, and returns how many there are (Debian Policy 5.1 and
/// 5.3 to 5.6). Status 0: nothing is refused, with the number of paragraphs. 2: some of the file is
/// refused, with its first refusal and the number of paragraphs that pass. 4: `refusals` is too
/// small; `count` is how many there are. 5: out of memory. 6: no such kind.
///
/// Except for status 2, `refusals` is unchanged.
#[unsafe(no_mangle)]
pub extern "C" fn deb_check_all(
    alloc: Global,
    kind: u8,
    text: &[u8],
    refusals: &mut [RefusalRow],
    count: &mut usize,
) -> Answer
    ensures answers { Replies (ChecksAll kind text.now) (KindFails kind)
        (buffer refusals.old refusals.new count.new) result }
    ensures status { HasStatus result.status (0 ∷ 2 ∷ 4 ∷ 5 ∷ 6 ∷ []) }
{
    *count = 0;
    let Some(doc) = kind_of(kind) else {
        return no_kind();
    };
    match text_refusals(alloc, doc, text) {
        Ok((answer, rows)) => reply(answer, &rows, refusals, count),
        Err(_) => no_memory(),
    }
}

/// Writes why a file is refused at each of its refusals to the start of `out`, and returns the
/// length of that text: for each refusal the lines that `deb_explain` writes of it and an empty
/// line, and at the end the line `ok N, M refused` with the number of paragraphs that pass and the
/// number of refusals. Status 0: nothing is refused, with the number of paragraphs. 2: some of the
/// file is refused, with its first refusal and the number of paragraphs that pass. 4: `out` is too
/// small; `len` is the length that it needs. 5: out of memory. 6: no such kind.
///
/// Except for status 0 and 2, `out` is unchanged.
#[unsafe(no_mangle)]
pub extern "C" fn deb_explain_all(
    alloc: Global,
    kind: u8,
    text: &[u8],
    out: &mut [u8],
    len: &mut usize,
) -> Answer
    ensures answers { Replies (ExplainsAll kind text.now) (KindFails kind)
        (buffer out.old out.new len.new) result }
    ensures status { HasStatus result.status (0 ∷ 2 ∷ 4 ∷ 5 ∷ 6 ∷ []) }
{
    *len = 0;
    let Some(doc) = kind_of(kind) else {
        return no_kind();
    };
    match text_explanations(alloc, doc, text) {
        Ok((answer, lines)) => reply(answer, &lines, out, len),
        Err(_) => no_memory(),
    }
}
