//! Whether a set of packages is healthy, for programs in C.

ghost use Rattle.std.specs.Prelude.{◌≡◌, ◌∷◌, [], IfErr, IfNone, IfOk, IfSome, Some};
ghost use Rattle.deb_base.specs.Faults.{RefusedOrMemory};
ghost use Rattle.deb_control.specs.Documents.{refusal_of};
ghost use Rattle.deb_index.specs.Members.{doc_of};
ghost use Rattle.deb_relation.specs.Environments.{environment_of};
ghost use Rattle.debctl_ffi.specs.Answers.{HasStatus};
ghost use Rattle.debctl_ffi.specs.Buffers.{buffer};
ghost use Rattle.debctl_ffi.specs.Health.{AsksNoSet, AsksSet, HasSetLines, IsOfSet, ListsSet};
ghost use Rattle.debctl_ffi.specs.Health.{RefusesSet, SetFails, strength_of};
ghost use Rattle.debctl_ffi.specs.Replies.{Replies};
ghost use Rattle.debctl_ffi.specs.Unmet.{asker, is_set};

use crate::answer::{Answer, no_kind, no_memory, refused, some, yes};
use crate::asker::make_environment;
use crate::buffer::reply;
use deb_base::{Fault, SliceSource, VecSink};
use deb_health::healthy;
use deb_index::Members;
use deb_relation::Env;
use deb_unmet::{Strength, Summary};
use std::alloc::Global;

/// Writes why a set of packages isn't healthy for a target architecture, a line for each reason, to
/// the start of `out`, and returns the length of these lines (Debian Policy 7.2 to 7.5). The set is
/// the packages of an index if `kind` is 1, and the installed packages of a status file if it is 5;
/// what they recommend must be met too if `recommends` isn't 0. Status 0: there is no line, the set
/// is healthy. 1: there is one. With the number of the packages. 4: `out` is too small; `len` is
/// the length that it needs. 5: out of memory. 6: `kind` is another number.
///
/// Status 2, refused: the target, with the code 23 and the line 0; else the file, with its first
/// refusal. Except for status 0 and 1, `out` is unchanged.
#[unsafe(no_mangle)]
#[tactic(auto, using(crate::proofs::AskedNumbers::asks_a_set))]
pub extern "C" fn deb_healthy(
    alloc: Global,
    kind: u8,
    recommends: u8,
    target: &[u8],
    index: &[u8],
    out: &mut [u8],
    len: &mut usize,
) -> Answer
    ensures answers { let by = asker target.now [] index.now in
        Replies (ListsSet kind (IsOfSet (strength_of (is_set recommends)) by)) (SetFails kind by)
        (buffer out.old out.new len.new) result }
    ensures unknown_kind { AsksNoSet kind → result.status ≡ 6 }
    ensures status { HasStatus result.status (0 ∷ 1 ∷ 2 ∷ 4 ∷ 5 ∷ 6 ∷ []) }
{
    *len = 0;
    let Some(members) = members_of(kind) else {
        return no_kind();
    };
    let strength = strength_of(recommends != 0);
    match lines_for(alloc, members, strength, target, index) {
        Ok((summary, lines)) => {
            if summary.is_empty {
                reply(yes(summary.paragraphs), &lines, out, len)
            } else {
                reply(some(summary.paragraphs), &lines, out, len)
            }
        }
        Err(Fault::Refused(refusal)) => refused(&refusal),
        Err(_) => no_memory(),
    }
}

/// Which packages of a file of this kind are a set.
pub(crate) fn members_of(kind: u8) -> Option<Members>
    ensures some { IfSome result (AsksSet kind) }
    ensures none { IfNone result (AsksNoSet kind) }
{
    match kind {
        1 => Some(Members::All),
        5 => Some(Members::Installed),
        _ => None,
    }
}

/// Which fields are asked: Recommends too, or not.
pub(crate) fn strength_of(recommends: bool) -> Strength
    ensures { result ≡ strength_of recommends }
{
    if recommends {
        Strength::Recommends
    } else {
        Strength::Depends
    }
}

/// The lines of a set in memory, and its summary. Else a refusal: of the target; else of the file.
/// Or out of memory.
fn lines_for(
    alloc: Global,
    members: Members,
    strength: Strength,
    target: &[u8],
    index: &[u8],
) -> Result<(Summary, Vec<u8>), Fault>
    ensures ok { IfOk result
        (λ answer. IsOfSet strength (asker target.now [] index.now) members answer.0
        answer.1.items) }
    ensures fault { IfErr result
        (λ fault. RefusedOrMemory fault (RefusesSet members (asker target.now [] index.now))) }
{
    let environment = make_environment(alloc, target, &[])?;
    lines_in(alloc, &environment, members, strength, index)
}

/// The lines of a set in memory for an environment, and its summary; or the refusal of the file, or
/// out of memory.
fn lines_in(
    alloc: Global,
    environment: &Env,
    members: Members,
    strength: Strength,
    index: &[u8],
) -> Result<(Summary, Vec<u8>), Fault>
    ensures ok { IfOk result
        (λ answer. HasSetLines members strength (environment_of environment.now) index.now
        answer.0 answer.1.items) }
    ensures fault { IfErr result
        (λ fault. RefusedOrMemory fault
        (λ refusal. refusal_of (doc_of members) index.now ≡ Some refusal)) }
{
    let mut sink = VecSink::new(alloc);
    let mut source = SliceSource::new(index);
    match healthy(
        alloc,
        environment,
        members,
        strength,
        &mut source,
        &mut sink,
    ) {
        Ok(summary) => Ok((summary, sink.into_bytes())),
        Err(Fault::Refused(refusal)) => Err(Fault::Refused(refusal)),
        Err(Fault::Memory | Fault::Write) => Err(Fault::Memory),
        Err(Fault::Read) => unreachable!(),
    }
}
