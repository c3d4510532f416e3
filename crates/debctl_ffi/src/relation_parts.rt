//! The parts of a relation, for programs in C.

ghost use Rattle.std.specs.Prelude.{[], ◌∷◌};
ghost use Rattle.debctl_ffi.specs.Answers.{HasStatus};
ghost use Rattle.debctl_ffi.specs.Buffers.{buffer};
ghost use Rattle.debctl_ffi.specs.RelationParts.{HasParts};
ghost use Rattle.debctl_ffi.specs.Relations.{RelationFails};
ghost use Rattle.debctl_ffi.specs.Replies.{Replies};

use crate::answer::{Answer, no_memory, refused, yes};
use crate::buffer::reply;
use deb_base::{Code, Refusal};
use deb_relation::RelationFault;
use deb_spelled::{AlternativeSpans, read_alternatives};
use std::alloc::Global;

/// Writes where the parts of each alternative of a relation are in its text to the start of
/// `alternatives`, in the order of the text, and returns how many there are (Debian Policy 7.1).
/// Status 0: done. 2: the text isn't a relation, with the code 19 and no line. 4: `alternatives` is
/// too small; `count` is how many there are. 5: out of memory.
///
/// Except for status 0, `alternatives` is unchanged.
#[unsafe(no_mangle)]
pub extern "C" fn deb_relation_parts(
    alloc: Global,
    text: &[u8],
    alternatives: &mut [AlternativeSpans],
    count: &mut usize,
) -> Answer
    ensures answers { Replies (HasParts text.now) (RelationFails text.now)
        (buffer alternatives.old alternatives.new count.new) result }
    ensures status { HasStatus result.status (0 ∷ 2 ∷ 4 ∷ 5 ∷ []) }
{
    *count = 0;
    match read_alternatives(alloc, text) {
        Ok(found) => reply(yes(0), &found, alternatives, count),
        Err(RelationFault::Bad { .. }) => refused(&Refusal {
            code: Code::BadRelation,
            line: 0,
        }),
        Err(RelationFault::Memory) => no_memory(),
    }
}
