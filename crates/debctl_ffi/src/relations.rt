//! The function on relations, for programs in C.

ghost use Rattle.std.specs.Prelude.{[], ◌∷◌, IfErr, IfOk};
ghost use Rattle.deb_base.specs.Faults.{RefusedOrMemory};
ghost use Rattle.deb_index.specs.Questions.{ParsesRelation, RefusesRelation};
ghost use Rattle.debctl_ffi.specs.Answers.{HasStatus};
ghost use Rattle.debctl_ffi.specs.Buffers.{buffer};
ghost use Rattle.debctl_ffi.specs.Relations.{HasText, IsCanonical, RelationFails};
ghost use Rattle.debctl_ffi.specs.Replies.{Replies};

use crate::answer::{Answer, no_memory, refused, yes};
use crate::buffer::reply;
use deb_base::{Code, Fault, Refusal};
use deb_relation::{RelationFault, RelationText};
use std::alloc::Global;

/// Writes the canonical text of a relation to the start of `out`, and returns its length (Debian
/// Policy 7.1): its groups with a comma and a space between them, in the order of their texts,
/// each with its alternatives in the order of the relation, and ` | ` between them. Status 0:
/// done. 2: the text isn't a relation, with the code 19 and no line. 4: `out` is too small; `len`
/// is the length that it needs. 5: out of memory.
///
/// Except for status 0, `out` is unchanged.
#[unsafe(no_mangle)]
pub extern "C" fn deb_relation_canonical(
    alloc: Global,
    text: &[u8],
    out: &mut [u8],
    len: &mut usize,
) -> Answer
    ensures answers { Replies (IsCanonical text.now) (RelationFails text.now)
        (buffer out.old out.new len.new) result }
    ensures status { HasStatus result.status (0 ∷ 2 ∷ 4 ∷ 5 ∷ []) }
{
    *len = 0;
    match canonical_relation(alloc, text) {
        Ok(canonical) => reply(yes(0), &canonical, out, len),
        Err(Fault::Refused(refusal)) => refused(&refusal),
        Err(_) => no_memory(),
    }
}

/// The canonical text of a relation, or its refusal, or out of memory.
fn canonical_relation(alloc: Global, text: &[u8]) -> Result<Vec<u8>, Fault>
    ensures ok { IfOk result (λ canonical. HasText text.now canonical.items) }
    ensures fault { IfErr result
        (λ fault. RefusedOrMemory fault (RefusesRelation text.now)) }
{
    let relation = parse_relation(alloc, text)?;
    let mut canonical = Vec::new(alloc);
    relation.canon_into(&mut canonical)?;
    Ok(canonical)
}

fn parse_relation(alloc: Global, text: &[u8]) -> Result<RelationText<'_>, Fault>
    ensures { ParsesRelation text.now result }
{
    match RelationText::parse(alloc, text) {
        Ok(relation) => Ok(relation),
        Err(RelationFault::Bad { .. }) => Err(Fault::Refused(Refusal {
            code: Code::BadRelation,
            line: 0,
        })),
        Err(RelationFault::Memory) => Err(Fault::Memory),
    }
}
