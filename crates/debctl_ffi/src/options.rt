//! Which relations of a file nothing in a loaded index meets, with options, for programs in C.

ghost use Rattle.std.specs.Prelude.{◌≡◌, ◌<◌, ◌+◌, [], ◌∷◌, IfErr, IfNone, IfOk, IfSome, IsFalse, IsTrue};
ghost use base.Fml.{flft};
ghost use denote.Struct.Lending.{lent_at};
ghost use types.Logic.{sem};
ghost use Rattle.deb_relation.specs.Environments.{environment_of};
ghost use Rattle.deb_relation.specs.Views.{names_of};
ghost use Rattle.deb_unmet.specs.Scopes.{old_packages};
ghost use Rattle.debctl_ffi.specs.Answers.{HasStatus};
ghost use Rattle.debctl_ffi.specs.Buffers.{buffer};
ghost use Rattle.debctl_ffi.specs.Loans.{Loans};
ghost use Rattle.debctl_ffi.specs.Loads.{HoldsNone};
ghost use Rattle.debctl_ffi.specs.Options.{AnswersEnvironment, AnswersWanted, HasWanted, IsOld, IsWanted, MakesTarget, MakesWanted, WantedFails, WantsNothing, asked_by, sources_by, strength_by, takes_all_for, unless_number, wanted};
ghost use Rattle.debctl_ffi.specs.Wanting.{wanted_of};
ghost use Rattle.debctl_ffi.specs.contracts.loaded.Loaded.{the_row};
ghost use Rattle.debctl_ffi.specs.declared.loaded.Loaded.{Loaded as LoadedData};

use crate::answer::{Answer, no_index, no_kind, no_memory, refused, second_refused, some, yes};
use crate::asker::{lines_in, make_environment};
use crate::buffer::reply;
use crate::loaded::Loaded;
use deb_base::{Code, Fault, Refusal};
use deb_index::Index;
use deb_relation::{Env, EnvFault};
use deb_unmet::{Asked, Question, SourcesAsked, Strength, Summary};
use std::alloc::Global;

/// Writes the lines of [`crate::index::deb_index_unmet`] for a loaded index, with options: 1
/// Recommends of binary packages, 2 also source packages that aren't built for the target, 4 a
/// group has a line only if `unless`, another loaded index, meets or ignores it in every reading. A
/// binary package whose own architecture can't be a target is asked for `all_for`, unless that is
/// empty. One with a name of `without` isn't asked; `deb_index_without` takes it out of the index.
///
/// Its statuses; 2 also: `all_for` can't be a target; 6 also: the kind has no such option, or
/// `all_for` is for source packages; 7 also: `unless` is asked, and nothing is loaded there.
#[unsafe(no_mangle)]
pub unsafe extern "C" fn deb_index_unmet_with(
    index: *const u8,
    unless: *const u8,
    kind: u8,
    options: u8,
    target: &[u8],
    all_for: &[u8],
    profiles: &[&[u8]],
    without: &[&[u8]],
    file: &[u8],
    out: &mut [u8],
    len: &mut usize,
) -> Answer
    ghost loans: { Loans LoadedData }
    requires* lent { (sem 𝓛 (flft loans.first.lifetime loans.first.share)
        ∗ sem 𝓛 (lent_at the_row index loans.first.value loans.first.lifetime))
        ∗ (sem 𝓛 (flft loans.second.lifetime loans.second.share)
        ∗ sem 𝓛 (lent_at the_row unless loans.second.value loans.second.lifetime)) }
    ensures* shares { sem 𝓛 (flft loans.first.lifetime loans.first.share)
        ∗ sem 𝓛 (flft loans.second.lifetime loans.second.share) }
    ensures answers { AnswersWanted (wanted kind options target.now all_for.now
        (names_of profiles.now) (names_of without.now) file.now)
        loans.first.value loans.second.value (buffer out.old out.new len.new) result }
    ensures status { HasStatus result.status (0 ∷ 1 ∷ 2 ∷ 3 ∷ 4 ∷ 5 ∷ 6 ∷ 7 ∷ []) }
{
    let loaded = &*(index as *const Loaded);
    let old = &*(unless as *const Loaded);
    unmet_with(
        loaded, old, kind, options, target, all_for, profiles, without, file, out, len,
    )
}

/// The answer of [`deb_index_unmet_with`].
fn unmet_with(
    loaded: &Loaded,
    unless: &Loaded,
    kind: u8,
    options: u8,
    target: &[u8],
    all_for: &[u8],
    profiles: &[&[u8]],
    without: &[&[u8]],
    file: &[u8],
    out: &mut [u8],
    len: &mut usize,
) -> Answer
    ensures answers { AnswersWanted (wanted kind options target.now all_for.now
        (names_of profiles.now) (names_of without.now) file.now)
        loaded.now unless.now (buffer out.old out.new len.new) result }
    ensures status { HasStatus result.status (0 ∷ 1 ∷ 2 ∷ 3 ∷ 4 ∷ 5 ∷ 6 ∷ 7 ∷ []) }
{
    *len = 0;
    let wanted = Wanted {
        kind,
        options,
        target,
        all_for,
        profiles,
        without,
        file,
    };
    match lines_with(loaded, unless, &wanted) {
        Ok((summary, lines)) if summary.is_empty => {
            reply(yes(summary.paragraphs), &lines, out, len)
        }
        Ok((summary, lines)) => reply(some(summary.paragraphs), &lines, out, len),
        Err(told) => told,
    }
}

/// The numbers and the words of the call.
#[derive(Clone, Copy)]
pub(crate) struct Wanted<'a> {
    kind: u8,
    options: u8,
    target: &'a [u8],
    all_for: &'a [u8],
    profiles: &'a [&'a [u8]],
    without: &'a [&'a [u8]],
    file: &'a [u8],
}

/// The lines of the file, and its summary; or the answer that says why there are none.
fn lines_with(
    loaded: &Loaded,
    unless: &Loaded,
    wanted: &Wanted<'_>,
) -> Result<(Summary, Vec<u8>), Answer>
    ensures ok { IfOk result (λ found. HasWanted (wanted_of wanted.now) loaded.now unless.now
        found.0 found.1.items) }
    ensures fails { IfErr result (WantedFails (wanted_of wanted.now) loaded.now unless.now) }
    ensures status { IfErr result
        (λ told. HasStatus told.status (0 ∷ 1 ∷ 2 ∷ 3 ∷ 4 ∷ 5 ∷ 6 ∷ 7 ∷ [])) }
{
    let Some((asked, old)) = asked_with(wanted) else {
        return Err(no_kind());
    };
    let Some(index) = &loaded.index else {
        return Err(no_index());
    };
    let Some(unless) = index_of(old, unless) else {
        return Err(no_index());
    };
    let environment = match environment_with(loaded.alloc, wanted) {
        Ok(environment) => environment,
        Err(told) => return Err(told),
    };
    let question = Question {
        index,
        unless,
        without: wanted.without,
        environment: &environment,
    };
    match lines_in(loaded.alloc, &question, asked, wanted.file) {
        Ok(found) => Ok(found),
        Err(Fault::Refused(refusal)) => Err(second_refused(&refusal)),
        Err(_) => Err(no_memory()),
    }
}

/// What is asked, and whether an old index is.
fn asked_with(wanted: &Wanted<'_>) -> Option<(Asked, bool)>
    ensures some { IfSome result
        (λ found. IsWanted (wanted_of wanted.now) found.0 found.1) }
    ensures none { IfNone result (WantsNothing (wanted_of wanted.now)) }
{
    let (options, old) = split_options(wanted.options);
    let Some(asked) = asked_by(wanted.kind, options) else {
        return None;
    };
    if !is_asked_for(asked, wanted.all_for) {
        return None;
    }
    Some((asked, old))
}

/// The options without that of the old index, and that.
fn split_options(options: u8) -> (u8, bool)
    ensures sum { options ≡ result.0 + unless_number result.1 }
    ensures less { IsTrue result.1 → options ≡ result.0 + 4 }
    ensures few { IsFalse result.1 → options < 4 }
{
    if options < 4 {
        (options, false)
    } else {
        (options - 4, true)
    }
}

/// Whether an architecture for packages without one may be given.
fn is_asked_for(asked: Asked, all_for: &[u8]) -> bool
    ensures { result ≡ takes_all_for asked all_for.now }
{
    match asked {
        Asked::Packages(_) | Asked::Binary(_) => true,
        Asked::Sources(_) | Asked::Source(_) => all_for.is_empty(),
    }
}

/// What a kind and options ask.
fn asked_by(kind: u8, options: u8) -> Option<Asked>
    ensures { result ≡ asked_by kind options }
{
    match kind {
        0 => match strength_by(options) {
            Some(strength) => Some(Asked::Binary(strength)),
            None => None,
        },
        1 => match strength_by(options) {
            Some(strength) => Some(Asked::Packages(strength)),
            None => None,
        },
        2 => match sources_by(options) {
            Some(which) => Some(Asked::Source(which)),
            None => None,
        },
        3 => match sources_by(options) {
            Some(which) => Some(Asked::Sources(which)),
            None => None,
        },
        _ => None,
    }
}

fn strength_by(options: u8) -> Option<Strength>
    ensures { result ≡ strength_by options }
{
    match options {
        0 => Some(Strength::Depends),
        1 => Some(Strength::Recommends),
        _ => None,
    }
}

fn sources_by(options: u8) -> Option<SourcesAsked>
    ensures { result ≡ sources_by options }
{
    match options {
        0 => Some(SourcesAsked::OfTarget),
        2 => Some(SourcesAsked::All),
        _ => None,
    }
}

/// The old index, if it is asked; `None` if it is, and nothing is loaded.
#[tactic(auto, using(crate::proofs::OneFile::old_asked))]
fn index_of(old: bool, unless: &Loaded) -> Option<Option<&Index>>
    ensures some { IfSome result (λ found. IsOld old unless.now (old_packages found)) }
    ensures none { IfNone result (IsTrue old × HoldsNone unless.now) }
{
    if !old {
        return Some(None);
    }
    match &unless.index {
        Some(index) => Some(Some(index)),
        None => None,
    }
}

/// The environment, or the answer that says why there is none.
fn environment_with(alloc: Global, wanted: &Wanted<'_>) -> Result<Env, Answer>
    ensures { AnswersEnvironment (wanted_of wanted.now) result }
{
    match make_wanted(alloc, wanted) {
        Ok(environment) => Ok(environment),
        Err(Fault::Refused(refusal)) => Err(refused(&refusal)),
        Err(_) => Err(no_memory()),
    }
}

/// The environment, or its refusal, or out of memory.
fn make_wanted(alloc: Global, wanted: &Wanted<'_>) -> Result<Env, Fault>
    ensures { MakesWanted (wanted_of wanted.now) result }
{
    let environment = make_environment(alloc, wanted.target, wanted.profiles)?;
    match wanted.all_for {
        [] => Ok(environment),
        [_, ..] => for_target(alloc, &environment, wanted.all_for),
    }
}

/// The environment with another target, or its refusal, or out of memory.
fn for_target(alloc: Global, environment: &Env, target: &[u8]) -> Result<Env, Fault>
    ensures { MakesTarget target.now (environment_of environment.now) result }
{
    match environment.for_target(alloc, target) {
        Ok(environment) => Ok(environment),
        Err(EnvFault::BadEnvironment) => Err(Fault::Refused(Refusal {
            code: Code::BadEnvironment,
            line: 0,
        })),
        Err(EnvFault::Memory) => Err(Fault::Memory),
    }
}
