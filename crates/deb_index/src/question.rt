//! Questions to an index: a relation, a target architecture and the active build profiles.

ghost use Rattle.std.specs.Prelude.{◌≡◌, IfErr, IfOk};
ghost use Rattle.std.specs.List.{list_any};
ghost use Rattle.deb_base.specs.Faults.{RefusedOrMemory};
ghost use Rattle.deb_relation.specs.Views.{names_of};
ghost use Rattle.deb_relation.specs.RelationTexts.{text_meaning};
ghost use Rattle.deb_relation.specs.Tests.{has_wildcard, some_wildcard};
ghost use Rattle.deb_relation.specs.Texts.{relation_text};
ghost use Rattle.deb_index.specs.CanonicalTexts.{OfGroup, OfRelation};
ghost use Rattle.deb_index.specs.Questions.{question, MakesEnvironment, ParsesRelation, RefusesWords};

use crate::pieces::{cut_group, next_alternative};
use deb_base::{Code, Fault, Refusal};
use deb_relation::{Env, EnvFault, RelationFault, RelationText};
use std::alloc::{AllocError, Global};

/// A relation, with the target architecture and the build profiles of the query (Debian
/// Policy 7.1).
#[derive(Debug, Drop)]
pub struct Question<'a> {
    pub(crate) relation: RelationText<'a>,
    wildcard: bool,
    pub(crate) environment: Env,
    ghost wildcard_is: { wildcard ≡ some_wildcard (text_meaning relation) },
}

impl<'a> Question<'a> {
    ghost use Rattle.deb_index.specs.Asked.{Asks, relation_asked};

    /// Parses a relation, a target architecture and the names of the build profiles that are
    /// active.
    ///
    /// # Errors
    ///
    /// - `Fault::Refused`: the relation isn't one, with code 19; else the target isn't the name of
    ///   an architecture, or is a wildcard or `all`, or a profile's name isn't one, with code 23.
    ///   The line is 0.
    /// - `Fault::Memory`: a growth of memory was refused.
    pub fn parse(
        alloc: Global,
        target: &[u8],
        profiles: &[&[u8]],
        relation: &'a [u8],
    ) -> Result<Question<'a>, Fault>
        ensures ok { IfOk result
            (Asks (question target.now (names_of profiles.now) relation.now)) }
        ensures fault { IfErr result
            (λ fault. RefusedOrMemory fault
            (RefusesWords (question target.now (names_of profiles.now) relation.now))) }
    {
        let relation = parse_relation(alloc, relation)?;
        let environment = make_environment(alloc, target, profiles)?;
        let wildcard = has_wildcard(alloc, &relation)?;
        Ok(Question {
            relation,
            wildcard,
            environment,
        })
    }

    /// Whether an architecture list of the relation contains a wildcard.
    pub(crate) fn has_wildcard(&self) -> bool
        ensures { result ≡ some_wildcard (relation_asked self.now) }
    {
        self.wildcard
    }

    /// The canonical text of the relation.
    pub(crate) fn text(&self, alloc: Global) -> Result<Vec<u8>, AllocError>
        ensures { IfOk result (λ text. text.items ≡ relation_text (relation_asked self.now)) }
    {
        canonical_text(alloc, &self.relation)
    }
}

fn canonical_text(alloc: Global, relation: &RelationText<'_>) -> Result<Vec<u8>, AllocError>
    ensures { IfOk result (λ text. text.items ≡ relation_text (text_meaning relation.now)) }
{
    let mut text = Vec::with_capacity(alloc, relation.canon_len() as usize)?;
    relation.canon_into(&mut text)?;
    Ok(text)
}

/// Whether an architecture list of a relation contains a wildcard.
fn has_wildcard(alloc: Global, relation: &RelationText<'_>) -> Result<bool, AllocError>
    ensures { IfOk result (λ some. some ≡ some_wildcard (text_meaning relation.now)) }
{
    let text = canonical_text(alloc, relation)?;
    some_wildcard(alloc, &text)
}

/// The same of the relation with a canonical text.
fn some_wildcard(alloc: Global, text: &[u8]) -> Result<bool, AllocError>
    ensures { OfRelation text.now (λ m. IfOk result (λ some. some ≡ some_wildcard m)) }
{
    let mut rest = text;
    while !rest.is_empty() {
        let (group, others) = cut_group(rest);
        let some = group_has_wildcard(alloc, group)?;
        if some {
            return Ok(true);
        }
        rest = others;
    }
    Ok(false)
}

/// The same of the group with a canonical text.
fn group_has_wildcard(alloc: Global, text: &[u8]) -> Result<bool, AllocError>
    ensures { OfGroup text.now (λ group. IfOk result (λ some. some ≡ list_any has_wildcard group)) }
{
    let mut rest = text;
    while !rest.is_empty() {
        let (relation, others) = next_alternative(alloc, rest)?;
        if relation.has_wildcard() {
            return Ok(true);
        }
        rest = others;
    }
    Ok(false)
}

fn parse_relation(alloc: Global, text: &[u8]) -> Result<RelationText<'_>, Fault>
    ensures { ParsesRelation text.now result }
{
    match RelationText::parse(alloc, text) {
        Ok(relation) => Ok(relation),
        Err(RelationFault::Bad { .. }) => Err(refusal(Code::BadRelation)),
        Err(RelationFault::Memory) => Err(Fault::Memory),
    }
}

fn make_environment(alloc: Global, target: &[u8], profiles: &[&[u8]]) -> Result<Env, Fault>
    ensures { MakesEnvironment target.now (names_of profiles.now) result }
{
    match Env::new(alloc, target, profiles) {
        Ok(environment) => Ok(environment),
        Err(EnvFault::BadEnvironment) => Err(refusal(Code::BadEnvironment)),
        Err(EnvFault::Memory) => Err(Fault::Memory),
    }
}

/// The refusal of a question, which has no line.
pub(crate) fn refusal(code: Code) -> Fault
    ensures { result ≡ Fault.Refused (record { code = code; line = 0 }) }
{
    Fault::Refused(Refusal { code, line: 0 })
}
