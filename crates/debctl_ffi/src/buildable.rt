//! Which source packages can't be built, for programs in C.

ghost use Rattle.std.specs.Prelude.{◌≡◌, ◌∷◌, [], IfErr, IfNone, IfOk, IfSome, List, Some, ℕ};
ghost use Rattle.deb_base.specs.Faults.{RefusedOrMemory};
ghost use Rattle.deb_base.specs.declared.doc.Doc.{Doc};
ghost use Rattle.deb_control.specs.Documents.{refusal_of};
ghost use Rattle.deb_index.specs.declared.members.Members.{Members};
ghost use Rattle.deb_install.specs.BuildFiles.{asks_buildable};
ghost use Rattle.deb_install.specs.ReadPackages.{HoldsFile};
ghost use Rattle.deb_install.specs.SourceKinds.{doc_of};
ghost use Rattle.deb_relation.specs.Environments.{environment_of};
ghost use Rattle.deb_relation.specs.Views.{names_of};
ghost use Rattle.debctl_ffi.specs.Answers.{HasStatus};
ghost use Rattle.debctl_ffi.specs.Buffers.{buffer};
ghost use Rattle.debctl_ffi.specs.Buildable.{AsksNoSources, AsksSources, BuildFails};
ghost use Rattle.debctl_ffi.specs.Buildable.{HasSourceLines, ListsSources, build_search};
ghost use Rattle.debctl_ffi.specs.Replies.{Replies};
ghost use Rattle.debctl_ffi.specs.Unmet.{RefusesAsker, asker};

use crate::answer::{Answer, no_kind, no_memory, refused, second_refused, some, yes};
use crate::asker::make_environment;
use crate::buffer::reply;
use crate::installable::budget_of;
use deb_base::{Fault, SliceSource, VecSink};
use deb_index::Members;
use deb_install::{BuildRequest, Packages, SourceKind, buildable};
use deb_relation::Env;
use deb_unmet::Summary;
use std::alloc::Global;

/// Writes which source packages of a file can't be built with the packages of an index, for a
/// target architecture and with these build profiles active, a line for each, to the start of
/// `out`, and returns the length of these lines (Debian Policy 4.2 and 7.7). The file is an index
/// of source packages if `kind` is 3, and the description of one if it is 2. Status 0: there is no
/// line, each source package can be built. 1: there is one. With the number of the source packages.
/// 4: `out` is too small; `len` is the length that it needs. 5: out of memory. 6: `kind` is another
/// number.
///
/// `essential`, `reasons` and `without` are those of `deb_installable`. The search for one source
/// package takes at most `budget` steps, 100,000 if that is 0; all searches take at most so many,
/// and 100 for each package of both files. A source package of which
/// that was too few has the line `undecided`.
///
/// Status 2, refused: the target or a profile, with the code 23 and the line 0; else the index,
/// with its first refusal. 3: these are accepted and the file is refused, with its first refusal.
/// Except for status 0 and 1, `out` is unchanged.
#[unsafe(no_mangle)]
#[tactic(auto, using(crate::proofs::AskedNumbers::asks_sources))]
pub extern "C" fn deb_buildable(
    alloc: Global,
    kind: u8,
    essential: u8,
    reasons: u8,
    budget: u32,
    target: &[u8],
    profiles: &[&[u8]],
    without: &[&[u8]],
    index: &[u8],
    text: &[u8],
    out: &mut [u8],
    len: &mut usize,
) -> Answer
    ensures answers { let by = asker target.now (names_of profiles.now) index.now in
        let search = build_search essential reasons (names_of without.now) in
        Replies (ListsSources kind search by text.now) (BuildFails kind by text.now)
        (buffer out.old out.new len.new) result }
    ensures unknown_kind { AsksNoSources kind → result.status ≡ 6 }
    ensures status { HasStatus result.status (0 ∷ 1 ∷ 2 ∷ 3 ∷ 4 ∷ 5 ∷ 6 ∷ []) }
{
    *len = 0;
    let Some(kind) = sources_of(kind) else {
        return no_kind();
    };
    let builder = match Builder::read(alloc, target, profiles, index) {
        Ok(builder) => builder,
        Err(Fault::Refused(refusal)) => return refused(&refusal),
        Err(_) => return no_memory(),
    };
    let request = BuildRequest {
        kind,
        essential: essential != 0,
        without,
        budget: budget_of(budget),
        reasons: reasons != 0,
    };
    let answered = builder.lines(alloc, request, text);
    drop(builder);
    match answered {
        Ok((found, lines)) if found.is_empty => reply(yes(found.paragraphs), &lines, out, len),
        Ok((found, lines)) => reply(some(found.paragraphs), &lines, out, len),
        Err(Fault::Refused(refusal)) => second_refused(&refusal),
        Err(_) => no_memory(),
    }
}

/// Which kind of source packages the number asks for.
fn sources_of(kind: u8) -> Option<SourceKind>
    ensures some { IfSome result (AsksSources kind) }
    ensures none { IfNone result (AsksNoSources kind) }
{
    match kind {
        2 => Some(SourceKind::Source),
        3 => Some(SourceKind::Sources),
        _ => None,
    }
}

/// The packages of an index, and the environment for which source packages are built with them.
#[derive(Drop)]
struct Builder {
    packages: Packages,
    environment: Env,
}

impl Builder {
    ghost use Rattle.debctl_ffi.specs.Builders.{IsBuilder};

    /// Reads an index, for a target architecture and with these build profiles active. Else a
    /// refusal: of the target or a profile; else of the index. Or out of memory.
    fn read(
        alloc: Global,
        target: &[u8],
        profiles: &[&[u8]],
        index: &[u8],
    ) -> Result<Builder, Fault>
        ensures ok { IfOk result (IsBuilder (asker target.now (names_of profiles.now) index.now)) }
        ensures fault { IfErr result
            (λ fault. RefusedOrMemory fault
            (RefusesAsker (asker target.now (names_of profiles.now) index.now))) }
    {
        let environment = make_environment(alloc, target, profiles)?;
        let packages = read_packages(alloc, index)?;
        Ok(Builder {
            packages,
            environment,
        })
    }

    /// The lines of a file in memory, and its summary; or its refusal, or out of memory.
    fn lines(
        &self,
        alloc: Global,
        request: BuildRequest<'_>,
        text: &[u8],
    ) -> Result<(Summary, Vec<u8>), Fault>
        ensures ok { (index : List ℕ) → HoldsFile Members.All index self.now.packages
            → IfOk result (λ answer. HasSourceLines
            (asks_buildable Members.All index request.entry (environment_of self.now.environment))
            text.now answer.0 answer.1.items) }
        ensures fault { IfErr result
            (λ fault. RefusedOrMemory fault
            (λ refusal. refusal_of (doc_of request.entry.kind) text.now ≡ Some refusal)) }
    {
        lines_with(alloc, &self.packages, &self.environment, request, text)
    }
}

/// The packages of an index in memory; or its refusal, or out of memory.
fn read_packages(alloc: Global, index: &[u8]) -> Result<Packages, Fault>
    ensures ok { IfOk result (HoldsFile Members.All index.now) }
    ensures fault { IfErr result
        (λ fault. RefusedOrMemory fault
        (λ refusal. refusal_of Doc.Packages index.now ≡ Some refusal)) }
{
    let mut source = SliceSource::new(index);
    match Packages::read(alloc, Members::All, &mut source) {
        Ok(packages) => Ok(packages),
        Err(Fault::Refused(refusal)) => Err(Fault::Refused(refusal)),
        Err(Fault::Memory) => Err(Fault::Memory),
        Err(Fault::Read | Fault::Write) => unreachable!(),
    }
}

/// The lines of a file in memory, and its summary, with these packages in this environment; or its
/// refusal, or out of memory.
fn lines_with(
    alloc: Global,
    packages: &Packages,
    environment: &Env,
    request: BuildRequest<'_>,
    text: &[u8],
) -> Result<(Summary, Vec<u8>), Fault>
    ensures ok { (index : List ℕ) → HoldsFile Members.All index packages.now
        → IfOk result (λ answer. HasSourceLines
        (asks_buildable Members.All index request.entry (environment_of environment.now)) text.now
        answer.0 answer.1.items) }
    ensures fault { IfErr result
        (λ fault. RefusedOrMemory fault
        (λ refusal. refusal_of (doc_of request.entry.kind) text.now ≡ Some refusal)) }
{
    let mut sink = VecSink::new(alloc);
    let mut source = SliceSource::new(text);
    match buildable(
        alloc,
        packages,
        environment,
        request,
        &mut source,
        &mut sink,
    ) {
        Ok(summary) => Ok((summary, sink.into_bytes())),
        Err(Fault::Refused(refusal)) => Err(Fault::Refused(refusal)),
        Err(Fault::Memory | Fault::Write) => Err(Fault::Memory),
        Err(Fault::Read) => unreachable!(),
    }
}
