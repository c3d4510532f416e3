//! The query, for programs in C.

ghost use Rattle.std.specs.Prelude.{[], ◌∷◌};
ghost use Rattle.deb_index.specs.Questions.{question};
ghost use Rattle.deb_relation.specs.Views.{names_of};
ghost use Rattle.debctl_ffi.specs.Answers.{HasStatus};
ghost use Rattle.debctl_ffi.specs.Buffers.{buffer};
ghost use Rattle.debctl_ffi.specs.Queries.{OfText, QueryFails, Reports};
ghost use Rattle.debctl_ffi.specs.Replies.{Replies};

use crate::answer::{Answer, no, no_memory, refused, yes};
use crate::buffer::reply;
use crate::report::{Detail, report_on};
use deb_base::Fault;
use std::alloc::Global;

/// Writes which packages of an index meet a relation, for a target architecture and with these
/// build profiles active, to the start of `out`, and returns the length of that report (Debian
/// Policy 7.1). Status 0: no group of the relation is unmet. 1: a group is unmet. 4: `out` is too
/// small; `len` is the length that it needs. 5: out of memory.
///
/// Status 2, refused: the relation, with the code 19; else the target or a profile, with 23; else
/// the index, with its first refusal; else a wildcard in an architecture list of the relation, with
/// 22. Except for the index, the line is 0.
///
/// Except for status 0 and 1, `out` is unchanged.
#[unsafe(no_mangle)]
pub extern "C" fn deb_query(
    alloc: Global,
    target: &[u8],
    profiles: &[&[u8]],
    relation: &[u8],
    index: &[u8],
    out: &mut [u8],
    len: &mut usize,
) -> Answer
    ensures answers { let asked = question target.now (names_of profiles.now) relation.now in
        Replies (Reports Detail.Verdicts asked (OfText index.now))
        (QueryFails asked (OfText index.now)) (buffer out.old out.new len.new) result }
    ensures status { HasStatus result.status (0 ∷ 1 ∷ 2 ∷ 4 ∷ 5 ∷ []) }
{
    *len = 0;
    match report_on(alloc, Detail::Verdicts, target, profiles, relation, index) {
        Ok((true, report)) => reply(yes(0), &report, out, len),
        Ok((false, report)) => reply(no(), &report, out, len),
        Err(Fault::Refused(refusal)) => refused(&refusal),
        Err(_) => no_memory(),
    }
}
