//! An index in memory with an environment, which is asked what it meets of a file.

ghost use Rattle.std.specs.Prelude.{◌≡◌, IfErr, IfNone, IfOk, IfSome, Some};
ghost use Rattle.deb_base.specs.Faults.{RefusedOrMemory};
ghost use Rattle.deb_control.specs.Documents.{refusal_of};
ghost use Rattle.deb_index.specs.Indexes.{packages_of};
ghost use Rattle.deb_index.specs.Questions.{MakesEnvironment};
ghost use Rattle.deb_relation.specs.Environments.{environment_of};
ghost use Rattle.deb_relation.specs.Views.{names_of};
ghost use Rattle.deb_unmet.specs.Asked.{doc_of};
ghost use Rattle.deb_unmet.specs.Scopes.{plain, scope_of};
ghost use Rattle.debctl_ffi.specs.Unmet.{AsksNothing, HasLines, IsAsked, RefusesAsker, asker};

use crate::report::read_index;
use deb_base::{Code, Fault, Refusal, SliceSource, VecSink, VersionText};
use deb_index::Index;
use deb_relation::{Env, EnvFault};
use deb_unmet::{Asked, Question, Request, SourcesAsked, Strength, Summary, unmet};
use std::alloc::Global;

/// The packages of an index, and the environment for which relations are asked.
#[derive(Drop)]
pub(crate) struct Asker {
    index: Index,
    environment: Env,
}

impl Asker {
    ghost use Rattle.debctl_ffi.specs.Askers.{IsAsker};

    /// Reads an index, for a target architecture and with these build profiles active. Else a
    /// refusal: of the target or a profile; else of the index. Or out of memory.
    pub(crate) fn read(
        alloc: Global,
        target: &[u8],
        profiles: &[&[u8]],
        index: &[u8],
    ) -> Result<Asker, Fault>
        ensures ok { IfOk result (IsAsker (asker target.now (names_of profiles.now) index.now)) }
        ensures fault { IfErr result
            (λ fault. RefusedOrMemory fault
            (RefusesAsker (asker target.now (names_of profiles.now) index.now))) }
    {
        let environment = make_environment(alloc, target, profiles)?;
        let index = read_index(alloc, index)?;
        Ok(Asker { index, environment })
    }

    /// The lines of a file in memory, and its summary; or its refusal, or out of memory.
    pub(crate) fn lines(
        &self,
        alloc: Global,
        asked: Asked,
        text: &[u8],
    ) -> Result<(Summary, Vec<u8>), Fault>
        ensures ok { IfOk result
            (λ answer. HasLines asked (environment_of self.now.environment)
            (plain (packages_of self.now.index)) text.now answer.0 answer.1.items) }
        ensures fault { IfErr result
            (λ fault. RefusedOrMemory fault
            (λ refusal. refusal_of (doc_of asked) text.now ≡ Some refusal)) }
    {
        let question = plain_question(&self.index, &self.environment);
        lines_in(alloc, &question, asked, text)
    }
}

/// Asks an index in an environment, without an old index, and leaves out no name.
pub(crate) fn plain_question<'a>(index: &'a Index, environment: &'a Env) -> Question<'a>
    ensures scope { scope_of result ≡ plain (packages_of index.now) }
    ensures environment { environment_of result.environment.now ≡ environment_of environment.now }
{
    Question {
        index,
        unless: None,
        without: &[],
        environment,
    }
}

/// The lines of a file in memory, and its summary, of this question; or its refusal, or out of
/// memory.
pub(crate) fn lines_in(
    alloc: Global,
    question: &Question<'_>,
    asked: Asked,
    text: &[u8],
) -> Result<(Summary, Vec<u8>), Fault>
    ensures ok { IfOk result
        (λ answer. HasLines asked (environment_of question.now.environment.now)
        (scope_of question.now) text.now answer.0 answer.1.items) }
    ensures fault { IfErr result
        (λ fault. RefusedOrMemory fault
        (λ refusal. refusal_of (doc_of asked) text.now ≡ Some refusal)) }
{
    let mut sink = VecSink::new(alloc);
    let mut source = SliceSource::new(text);
    let request = Request {
        asked,
        versions: VersionText::Canonical,
    };
    match unmet(alloc, question, request, &mut source, &mut sink) {
        Ok(summary) => Ok((summary, sink.into_bytes())),
        Err(Fault::Refused(refusal)) => Err(Fault::Refused(refusal)),
        Err(Fault::Memory | Fault::Write) => Err(Fault::Memory),
        Err(Fault::Read) => unreachable!(),
    }
}

/// The environment of a target architecture and these active profiles; or their refusal, or out of
/// memory.
pub(crate) fn make_environment(
    alloc: Global,
    target: &[u8],
    profiles: &[&[u8]],
) -> Result<Env, Fault>
    ensures { MakesEnvironment target.now (names_of profiles.now) result }
{
    match Env::new(alloc, target, profiles) {
        Ok(environment) => Ok(environment),
        Err(EnvFault::BadEnvironment) => Err(Fault::Refused(Refusal {
            code: Code::BadEnvironment,
            line: 0,
        })),
        Err(EnvFault::Memory) => Err(Fault::Memory),
    }
}

/// What the numbers ask: a kind, and whether Recommends is asked too. Of source packages those are
/// asked that are built for the target.
pub(crate) fn asked_of(kind: u8, recommends: bool) -> Option<Asked>
    ensures some { IfSome result (IsAsked kind recommends) }
    ensures none { IfNone result (AsksNothing kind recommends) }
{
    let strength = if recommends {
        Strength::Recommends
    } else {
        Strength::Depends
    };
    match kind {
        0 => Some(Asked::Binary(strength)),
        1 => Some(Asked::Packages(strength)),
        2 if !recommends => Some(Asked::Source(SourcesAsked::OfTarget)),
        3 if !recommends => Some(Asked::Sources(SourcesAsked::OfTarget)),
        _ => None,
    }
}
