//! The functions on files, for programs in C.

ghost use Rattle.std.specs.Prelude.{[], ◌∷◌};
ghost use Rattle.debctl_ffi.specs.Answers.{HasStatus};
ghost use Rattle.debctl_ffi.specs.Buffers.{buffer};
ghost use Rattle.debctl_ffi.specs.Documents.{ChecksFile, ComparesFiles, FileFails, KindFails, Normalises};
ghost use Rattle.debctl_ffi.specs.Explaining.{Explains};
ghost use Rattle.debctl_ffi.specs.Replies.{Replies};

use crate::answer::{Answer, no, no_kind, no_memory, refused, second_refused, yes};
use crate::buffer::reply;
use crate::explanation::explain_text;
use crate::files::{check_text, normalise_text, same_texts};
use crate::kind::kind_of;
use deb_base::Fault;
use deb_control::Side;
use std::alloc::Global;

/// Checks whether a file is accepted as a document of a kind. Status 0: it is, with the number of
/// its paragraphs. 2: it is refused, with its first refusal. 5: out of memory. 6: no such kind.
#[unsafe(no_mangle)]
pub extern "C" fn deb_check(alloc: Global, kind: u8, text: &[u8]) -> Answer
    ensures answers { ChecksFile kind text.now result }
    ensures status { HasStatus result.status (0 ∷ 2 ∷ 5 ∷ 6 ∷ []) }
{
    let Some(doc) = kind_of(kind) else {
        return no_kind();
    };
    match check_text(alloc, doc, text) {
        Ok(count) => yes(count),
        Err(Fault::Refused(refusal)) => refused(&refusal),
        Err(_) => no_memory(),
    }
}

/// Writes the canonical text of a file to the start of `out`, and returns its length. Status 0:
/// done, with the number of the file's paragraphs. 2: the file is refused, with its first refusal.
/// 4: `out` is too small; `len` is the length that it needs. 5: out of memory. 6: no such kind.
///
/// Except for status 0, `out` is unchanged.
#[unsafe(no_mangle)]
pub extern "C" fn deb_normalise(
    alloc: Global,
    kind: u8,
    text: &[u8],
    out: &mut [u8],
    len: &mut usize,
) -> Answer
    ensures answers { Replies (Normalises kind text.now) (FileFails kind text.now)
        (buffer out.old out.new len.new) result }
    ensures status { HasStatus result.status (0 ∷ 2 ∷ 4 ∷ 5 ∷ 6 ∷ []) }
{
    *len = 0;
    let Some(doc) = kind_of(kind) else {
        return no_kind();
    };
    match normalise_text(alloc, doc, text) {
        Ok((count, canonical)) => reply(yes(count), &canonical, out, len),
        Err(Fault::Refused(refusal)) => refused(&refusal),
        Err(_) => no_memory(),
    }
}

/// Writes why a file is refused as a document of a kind to the start of `out`, and returns the
/// length of that text. Status 2: it is refused, with its first refusal. The lines are those that
/// the program `debctl explain` writes after the line of the file's path. 0: it is accepted, with
/// the number of its paragraphs; `ok N` and a newline is written. 4: `out` is too small; `len` is
/// the length that it needs. 5: out of memory. 6: no such kind.
///
/// Except for status 0 and 2, `out` is unchanged.
#[unsafe(no_mangle)]
pub extern "C" fn deb_explain(
    alloc: Global,
    kind: u8,
    text: &[u8],
    out: &mut [u8],
    len: &mut usize,
) -> Answer
    ensures answers { Replies (Explains kind text.now) (KindFails kind)
        (buffer out.old out.new len.new) result }
    ensures status { HasStatus result.status (0 ∷ 2 ∷ 4 ∷ 5 ∷ 6 ∷ []) }
{
    *len = 0;
    let Some(doc) = kind_of(kind) else {
        return no_kind();
    };
    match explain_text(alloc, doc, text) {
        Ok((answer, lines)) => reply(answer, &lines, out, len),
        Err(_) => no_memory(),
    }
}

/// Compares two files by meaning, as documents of a kind. Status 0: they mean the same. 1: they
/// don't. 2: the first is refused, with its first refusal. 3: the first is accepted and the second
/// is refused, with its first refusal. 5: out of memory. 6: no such kind.
#[unsafe(no_mangle)]
pub extern "C" fn deb_same(alloc: Global, kind: u8, text: &[u8], other: &[u8]) -> Answer
    ensures answers { ComparesFiles kind text.now other.now result }
    ensures status { HasStatus result.status (0 ∷ 1 ∷ 2 ∷ 3 ∷ 5 ∷ 6 ∷ []) }
{
    let Some(doc) = kind_of(kind) else {
        return no_kind();
    };
    match same_texts(alloc, doc, text, other) {
        Ok(true) => yes(0),
        Ok(false) => no(),
        Err(side_fault) => match side_fault.fault {
            Fault::Refused(refusal) => match side_fault.side {
                Side::First => refused(&refusal),
                Side::Second => second_refused(&refusal),
            },
            _ => no_memory(),
        },
    }
}
