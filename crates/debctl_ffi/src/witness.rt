//! A healthy set that contains a package, for programs in C.

ghost use Rattle.std.specs.Prelude.{◌≡◌, ◌∷◌, [], IfErr, IfOk, Some};
ghost use Rattle.deb_base.specs.Faults.{RefusedOrMemory};
ghost use Rattle.deb_control.specs.Documents.{refusal_of};
ghost use Rattle.deb_index.specs.Members.{doc_of};
ghost use Rattle.deb_install.specs.Installing.{asks_by};
ghost use Rattle.deb_relation.specs.Environments.{environment_of};
ghost use Rattle.deb_relation.specs.Views.{names_of};
ghost use Rattle.debctl_ffi.specs.Answers.{HasStatus};
ghost use Rattle.debctl_ffi.specs.Buffers.{buffer};
ghost use Rattle.debctl_ffi.specs.Health.{AsksNoSet, RefusesSet, SetFails};
ghost use Rattle.debctl_ffi.specs.Replies.{Replies};
ghost use Rattle.debctl_ffi.specs.Searches.{search_by, search_of};
ghost use Rattle.debctl_ffi.specs.Unmet.{asker};
ghost use Rattle.debctl_ffi.specs.Witnesses.{HasFoundLines, IsSought, Seeks};

use crate::answer::{Answer, no_kind, no_memory, refused, some, yes};
use crate::asker::make_environment;
use crate::buffer::reply;
use crate::health::{members_of, strength_of};
use crate::installable::budget_of;
use deb_base::{Fault, SliceSource, VecSink};
use deb_install::{InstallRequest, Sought, witness};
use deb_relation::Env;
use std::alloc::Global;

/// Writes a healthy set of packages of a file that contains a package with this name, for a target
/// architecture, a line for each package of the set, to the start of `out`, and returns the length
/// of these lines (Debian Policy 7.2 to 7.5). The set is healthy in every reading of architecture
/// lists. It is one of the first package with the name, in the order of the file, for which the
/// search finds a set. If it finds none, the lines are those of `deb_installable` for the packages
/// with the name, by these searches. `kind`, `recommends`, `essential`, `reasons`, `budget` and
/// `without` are those of `deb_installable`. Status 0: a set is found. 1: none is. With the number
/// of the packages. 4: `out` is too small; `len` is the length that it needs. 5: out of memory. 6:
/// `kind` is another number.
///
/// Status 2, refused: the target, with the code 23 and the line 0; else the file, with its first
/// refusal. Except for status 0 and 1, `out` is unchanged.
#[unsafe(no_mangle)]
#[tactic(auto, using(crate::proofs::AskedNumbers::asks_a_set))]
pub extern "C" fn deb_witness(
    alloc: Global,
    kind: u8,
    recommends: u8,
    essential: u8,
    reasons: u8,
    budget: u32,
    target: &[u8],
    name: &[u8],
    without: &[&[u8]],
    index: &[u8],
    out: &mut [u8],
    len: &mut usize,
) -> Answer
    ensures answers { let by = asker target.now [] index.now in
        let search = search_of recommends essential reasons (name.now ∷ [])
        (names_of without.now) in
        Replies (Seeks kind search by) (SetFails kind by) (buffer out.old out.new len.new) result }
    ensures unknown_kind { AsksNoSet kind → result.status ≡ 6 }
    ensures status { HasStatus result.status (0 ∷ 1 ∷ 2 ∷ 4 ∷ 5 ∷ 6 ∷ []) }
{
    *len = 0;
    let Some(members) = members_of(kind) else {
        return no_kind();
    };
    let request = InstallRequest {
        members,
        strength: strength_of(recommends != 0),
        essential: essential != 0,
        without,
        names: &[name],
        budget: budget_of(budget),
        reasons: reasons != 0,
    };
    match lines_for(alloc, &request, target, index) {
        Ok((sought, lines)) if sought.is_found => reply(yes(sought.paragraphs), &lines, out, len),
        Ok((sought, lines)) => reply(some(sought.paragraphs), &lines, out, len),
        Err(Fault::Refused(refusal)) => refused(&refusal),
        Err(_) => no_memory(),
    }
}

/// What was sought in a file in memory, and the lines. Else a refusal: of the target; else of the
/// file. Or out of memory.
fn lines_for(
    alloc: Global,
    request: &InstallRequest<'_>,
    target: &[u8],
    index: &[u8],
) -> Result<(Sought, Vec<u8>), Fault>
    ensures ok { IfOk result
        (λ answer. IsSought (search_by request.now) (asker target.now [] index.now)
        request.now.members answer.0 answer.1.items) }
    ensures fault { IfErr result
        (λ fault. RefusedOrMemory fault
        (RefusesSet request.now.members (asker target.now [] index.now))) }
{
    let environment = make_environment(alloc, target, &[])?;
    lines_in(alloc, &environment, request, index)
}

/// What was sought in a file in memory for an environment, and the lines; or the refusal of the
/// file, or out of memory.
fn lines_in(
    alloc: Global,
    environment: &Env,
    request: &InstallRequest<'_>,
    index: &[u8],
) -> Result<(Sought, Vec<u8>), Fault>
    ensures ok { IfOk result
        (λ answer. HasFoundLines (asks_by request.now (environment_of environment.now))
        index.now answer.0 answer.1.items) }
    ensures fault { IfErr result
        (λ fault. RefusedOrMemory fault
        (λ refusal. refusal_of (doc_of request.now.members) index.now ≡ Some refusal)) }
{
    let mut sink = VecSink::new(alloc);
    let mut source = SliceSource::new(index);
    match witness(alloc, environment, request, &mut source, &mut sink) {
        Ok(sought) => Ok((sought, sink.into_bytes())),
        Err(Fault::Refused(refusal)) => Err(Fault::Refused(refusal)),
        Err(Fault::Memory | Fault::Write) => Err(Fault::Memory),
        Err(Fault::Read) => unreachable!(),
    }
}
