//! Which packages can't be installed, for programs in C.

ghost use Rattle.std.specs.Prelude.{◌≡◌, ◌∷◌, [], IfErr, IfOk, Some};
ghost use Rattle.deb_base.specs.Faults.{RefusedOrMemory};
ghost use Rattle.deb_control.specs.Documents.{refusal_of};
ghost use Rattle.deb_index.specs.Members.{doc_of};
ghost use Rattle.deb_install.specs.Installing.{asks_by};
ghost use Rattle.deb_relation.specs.Environments.{environment_of};
ghost use Rattle.deb_relation.specs.Views.{names_of};
ghost use Rattle.debctl_ffi.specs.Answers.{HasStatus};
ghost use Rattle.debctl_ffi.specs.Buffers.{buffer};
ghost use Rattle.debctl_ffi.specs.Health.{AsksNoSet, ListsSet, RefusesSet, SetFails};
ghost use Rattle.debctl_ffi.specs.Installable.{HasAnswerLines, IsInstallable};
ghost use Rattle.debctl_ffi.specs.Replies.{Replies};
ghost use Rattle.debctl_ffi.specs.Searches.{search_by, search_of};
ghost use Rattle.debctl_ffi.specs.Unmet.{asker};

use crate::answer::{Answer, no_kind, no_memory, refused, some, yes};
use crate::asker::make_environment;
use crate::buffer::reply;
use crate::health::{members_of, strength_of};
use deb_base::{Fault, SliceSource, VecSink};
use deb_install::{InstallRequest, installable};
use deb_relation::Env;
use deb_solve::Budget;
use deb_unmet::Summary;
use std::alloc::Global;

/// The most steps of the search for one package, if the caller gives no number.
const STEPS: u32 = 100_000;

/// Writes which packages of a file can't be installed on a target architecture, a line for each, to
/// the start of `out`, and returns the length of these lines (Debian Policy 7.2 to 7.5). The
/// packages are those of an index if `kind` is 1, and the installed ones of a status file if it is
/// 5; what they recommend must be met too if `recommends` isn't 0. Status 0: there is no line, each
/// package can be installed. 1: there is one. With the number of the packages. 4: `out` is too
/// small; `len` is the length that it needs. 5: out of memory. 6: `kind` is another number.
///
/// If `essential` isn't 0, a set has to have the essential packages (3.8). It has no package with a
/// name of `without`; such a package has no line. If `reasons` isn't 0, reasons follow the line of
/// an uninstallable package.
///
/// The search for one package takes at most `budget` steps, 100,000 if that is 0; all searches take
/// at most so many, and 100 for each package. A package of which that was too few has the line
/// `undecided`.
///
/// Status 2, refused: the target, with the code 23 and the line 0; else the file, with its first
/// refusal. Except for status 0 and 1, `out` is unchanged.
#[unsafe(no_mangle)]
#[tactic(auto, using(crate::proofs::AskedNumbers::asks_a_set))]
pub extern "C" fn deb_installable(
    alloc: Global,
    kind: u8,
    recommends: u8,
    essential: u8,
    reasons: u8,
    budget: u32,
    target: &[u8],
    without: &[&[u8]],
    index: &[u8],
    out: &mut [u8],
    len: &mut usize,
) -> Answer
    ensures answers { let by = asker target.now [] index.now in
        let search = search_of recommends essential reasons [] (names_of without.now) in
        Replies (ListsSet kind (IsInstallable search by)) (SetFails kind by)
        (buffer out.old out.new len.new) result }
    ensures unknown_kind { AsksNoSet kind → result.status ≡ 6 }
    ensures status { HasStatus result.status (0 ∷ 1 ∷ 2 ∷ 4 ∷ 5 ∷ 6 ∷ []) }
{
    *len = 0;
    let Some(members) = members_of(kind) else {
        return no_kind();
    };
    let request = InstallRequest {
        members,
        strength: strength_of(recommends != 0),
        essential: essential != 0,
        without,
        names: &[],
        budget: budget_of(budget),
        reasons: reasons != 0,
    };
    match lines_for(alloc, &request, target, index) {
        Ok((found, lines)) if found.is_empty => reply(yes(found.paragraphs), &lines, out, len),
        Ok((found, lines)) => reply(some(found.paragraphs), &lines, out, len),
        Err(Fault::Refused(refusal)) => refused(&refusal),
        Err(_) => no_memory(),
    }
}

/// How long the search may take, if this is the most steps for one package.
pub(crate) fn budget_of(steps: u32) -> Budget {
    let one_search = if steps == 0 { STEPS } else { steps };
    Budget { one_search }
}

/// The lines of the packages of a file in memory, and its summary. Else a refusal: of the target;
/// else of the file. Or out of memory.
fn lines_for(
    alloc: Global,
    request: &InstallRequest<'_>,
    target: &[u8],
    index: &[u8],
) -> Result<(Summary, Vec<u8>), Fault>
    ensures ok { IfOk result
        (λ answer. IsInstallable (search_by request.now) (asker target.now [] index.now)
        request.now.members answer.0 answer.1.items) }
    ensures fault { IfErr result
        (λ fault. RefusedOrMemory fault
        (RefusesSet request.now.members (asker target.now [] index.now))) }
{
    let environment = make_environment(alloc, target, &[])?;
    lines_in(alloc, &environment, request, index)
}

/// The lines of the packages of a file in memory for an environment, and its summary; or the
/// refusal of the file, or out of memory.
fn lines_in(
    alloc: Global,
    environment: &Env,
    request: &InstallRequest<'_>,
    index: &[u8],
) -> Result<(Summary, Vec<u8>), Fault>
    ensures ok { IfOk result
        (λ answer. HasAnswerLines (asks_by request.now (environment_of environment.now))
        index.now answer.0 answer.1.items) }
    ensures fault { IfErr result
        (λ fault. RefusedOrMemory fault
        (λ refusal. refusal_of (doc_of request.now.members) index.now ≡ Some refusal)) }
{
    let mut sink = VecSink::new(alloc);
    let mut source = SliceSource::new(index);
    match installable(alloc, environment, request, &mut source, &mut sink) {
        Ok(summary) => Ok((summary, sink.into_bytes())),
        Err(Fault::Refused(refusal)) => Err(Fault::Refused(refusal)),
        Err(Fault::Memory | Fault::Write) => Err(Fault::Memory),
        Err(Fault::Read) => unreachable!(),
    }
}
