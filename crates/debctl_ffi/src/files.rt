//! Readers of files in memory, which never fail.

ghost use Rattle.std.specs.Prelude.{◌≡◌, IfErr, IfOk, Some};
ghost use Rattle.deb_base.specs.Faults.{RefusedOrMemory};
ghost use Rattle.deb_control.specs.Calls.{HasParagraphs};
ghost use Rattle.deb_control.specs.Comparing.{AnswersSame};
ghost use Rattle.deb_control.specs.Documents.{refusal_of};
ghost use Rattle.debctl_ffi.specs.Documents.{HasCanonical, IsSideFault};

use deb_base::{Fault, SliceSource, VecSink};
use deb_control::{SideFault, check, normalise, same};
use deb_field::Doc;
use std::alloc::Global;

/// The number of a file's paragraphs, or its refusal, or out of memory.
pub(crate) fn check_text(alloc: Global, doc: Doc, text: &[u8]) -> Result<u64, Fault>
    ensures ok { IfOk result (HasParagraphs doc text.now) }
    ensures fault { IfErr result
        (λ fault. RefusedOrMemory fault (λ refusal. refusal_of doc text.now ≡ Some refusal)) }
{
    match check(alloc, doc, &mut SliceSource::new(text)) {
        Ok(count) => Ok(count),
        Err(Fault::Refused(refusal)) => Err(Fault::Refused(refusal)),
        Err(Fault::Memory) => Err(Fault::Memory),
        Err(Fault::Read | Fault::Write) => unreachable!(),
    }
}

/// The number of a file's paragraphs and its canonical text, or its refusal, or out of memory.
pub(crate) fn normalise_text(alloc: Global, doc: Doc, text: &[u8]) -> Result<(u64, Vec<u8>), Fault>
    ensures ok { IfOk result (λ answer. HasCanonical doc text.now answer.0 answer.1.items) }
    ensures fault { IfErr result
        (λ fault. RefusedOrMemory fault (λ refusal. refusal_of doc text.now ≡ Some refusal)) }
{
    let mut sink = VecSink::new(alloc);
    match normalise(alloc, doc, &mut SliceSource::new(text), &mut sink) {
        Ok(count) => Ok((count, sink.into_bytes())),
        Err(Fault::Refused(refusal)) => Err(Fault::Refused(refusal)),
        Err(Fault::Memory | Fault::Write) => Err(Fault::Memory),
        Err(Fault::Read) => unreachable!(),
    }
}

/// Whether two files mean the same; or the refusal of the first, or of the second where the first
/// is accepted, or out of memory.
pub(crate) fn same_texts(
    alloc: Global,
    doc: Doc,
    text: &[u8],
    other: &[u8],
) -> Result<bool, SideFault>
    ensures ok { IfOk result (AnswersSame doc text.now other.now) }
    ensures fault { IfErr result (IsSideFault doc text.now other.now) }
{
    let mut first = SliceSource::new(text);
    let mut second = SliceSource::new(other);
    same(alloc, doc, &mut first, &mut second)
}
