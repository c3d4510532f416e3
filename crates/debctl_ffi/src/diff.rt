//! What changed between two files, for programs in C.

ghost use Rattle.std.specs.Prelude.{◌≡◌, ◌≤◌, [], ◌∷◌, IfErr, IfNone, IfOk, IfSome};
ghost use Rattle.debctl_ffi.specs.Answers.{HasStatus};
ghost use Rattle.debctl_ffi.specs.Buffers.{buffer};
ghost use Rattle.debctl_ffi.specs.Diffs.{ComparesNothing, DiffFails, Differs, HasDiff, IsDiffRefusal, IsNotCompared, detail_number};
ghost use Rattle.debctl_ffi.specs.Documents.{kind_number};
ghost use Rattle.debctl_ffi.specs.Replies.{Replies};
ghost use Rattle.deb_diff.specs.Kinds.{doc_of};

use crate::answer::{Answer, no, no_kind, no_memory, refused, second_refused, yes};
use crate::buffer::reply;
use deb_base::{Fault, SliceSource, VecSink, VersionText};
use deb_control::{Side, SideFault};
use deb_diff::{Detail, Form, Kind, diff};
use std::alloc::Global;

/// Writes what changed in meaning between two files of a kind, the old one and the new one, to the
/// start of `out`, and returns the length of these lines (Debian Policy 5.1 and 5.3 to 5.6): for
/// each paragraph that was removed, added or changed or has another version a line, and below it
/// the values that differ if `detail` is 1. Status 0: there is none. 1: there is one. 2: the old
/// file is refused, with its first refusal. 3: the old one is accepted and the new one is refused,
/// with its first refusal. 4: `out` is too small; `len` is the length that it needs. 5: out of
/// memory. 6: no such kind, or no such detail.
///
/// Except for status 0 and 1, `out` is unchanged.
#[unsafe(no_mangle)]
#[tactic(auto, using(crate::proofs::AskedNumbers::compares_something))]
pub extern "C" fn deb_diff(
    alloc: Global,
    kind: u8,
    detail: u8,
    text: &[u8],
    other: &[u8],
    out: &mut [u8],
    len: &mut usize,
) -> Answer
    ensures answers { Replies (Differs kind detail text.now other.now)
        (DiffFails kind detail text.now other.now) (buffer out.old out.new len.new) result }
    ensures unknown_kind { ComparesNothing kind detail → result.status ≡ 6 }
    ensures status { HasStatus result.status (0 ∷ 1 ∷ 2 ∷ 3 ∷ 4 ∷ 5 ∷ 6 ∷ []) }
{
    *len = 0;
    let Some(of) = kind_of_files(kind) else {
        return no_kind();
    };
    let Some(how) = detail_of(detail) else {
        return no_kind();
    };
    match diff_texts(alloc, of, how, text, other) {
        Ok((true, lines)) => reply(yes(0), &lines, out, len),
        Ok((false, lines)) => reply(no(), &lines, out, len),
        Err(failed) => match failed.fault {
            Fault::Refused(refusal) => match failed.side {
                Side::First => refused(&refusal),
                Side::Second => second_refused(&refusal),
            },
            _ => no_memory(),
        },
    }
}

/// The kind of two files that has this number, in which any control data is none.
fn kind_of_files(kind: u8) -> Option<Kind>
    ensures some { IfSome result (λ of. kind ≡ kind_number (doc_of of)) }
    ensures none { IfNone result (IsNotCompared kind) }
{
    match kind {
        0 => Some(Kind::Binary),
        1 => Some(Kind::Packages),
        2 => Some(Kind::Source),
        3 => Some(Kind::Sources),
        5 => Some(Kind::Status),
        _ => None,
    }
}

/// The detail of this number.
fn detail_of(detail: u8) -> Option<Detail>
    ensures some { IfSome result (λ how. detail ≡ detail_number how) }
    ensures none { IfNone result (2 ≤ detail) }
{
    match detail {
        0 => Some(Detail::Fields),
        1 => Some(Detail::Values),
        _ => None,
    }
}

/// Whether there is no line, and the lines; or the refusal of a file, or out of memory.
fn diff_texts(
    alloc: Global,
    of: Kind,
    how: Detail,
    text: &[u8],
    other: &[u8],
) -> Result<(bool, Vec<u8>), SideFault>
    ensures ok { IfOk result
        (λ found. HasDiff of how text.now other.now found.0 found.1.items) }
    ensures refused { IfErr result (IsDiffRefusal (doc_of of) text.now other.now) }
{
    let mut sink = VecSink::new(alloc);
    let mut first = SliceSource::new(text);
    let mut second = SliceSource::new(other);
    let form = Form {
        detail: how,
        versions: VersionText::Canonical,
    };
    match diff(alloc, of, form, &mut first, &mut second, &mut sink) {
        Ok(is_empty) => Ok((is_empty, sink.into_bytes())),
        Err(failed) => Err(failed),
    }
}
