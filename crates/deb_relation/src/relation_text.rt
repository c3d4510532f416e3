//! A relation without its parts: its canonical text, and what fields ask of it.

ghost use Rattle.std.specs.Prelude.{◌≡◌, ◌++◌, Ok, IfOk, IfErr, OnErr, OnOk, codes, length, map};
ghost use Rattle.std.specs.List.{list_all, list_any};
ghost use Rattle.deb_relation.specs.Bodies.{meaning_in};
ghost use Rattle.deb_relation.specs.KeptTexts.{bytes_of};
ghost use Rattle.deb_relation.specs.Reading.{relation_in};
ghost use Rattle.deb_relation.specs.Summaries.{summary_key};
ghost use Rattle.deb_relation.specs.SummaryViews.{told_of};
ghost use Rattle.deb_relation.specs.Tests.{has_alternatives, only_equals};
ghost use Rattle.deb_relation.specs.Texts.{joined, relation_text, separated};

use crate::fault::{RelationFault, Stop};
use crate::group_summary::{GroupSummary, read_groups};
use crate::in_place::in_place;
use crate::kept_text::KeptText;
use crate::relation::Relation;
use std::alloc::{AllocError, Global};

/// The relation that a body spells, without its parts: its canonical text, which is the body itself
/// if that is canonical, and what fields ask of it (Debian Policy 7.1).
#[derive(Debug, Drop)]
pub struct RelationText<'a> {
    body: &'a [u8],
    text: KeptText<'a>,
    some_alternatives: bool,
    equals_alone: bool,
    ghost read: { relation_in body.now ≡ Ok (meaning_in body.now) },
    ghost written: { bytes_of text ≡ relation_text (meaning_in body.now) },
    ghost alternatives_are: { some_alternatives ≡ has_alternatives (meaning_in body.now) },
    ghost equals_are: { equals_alone ≡ only_equals (meaning_in body.now) },
}

/// Appends the texts of groups, each with a comma before it.
fn append_more_texts(out: &mut Vec<u8>, groups: &[GroupSummary<'_>]) -> Result<(), AllocError>
    ensures { OnOk result
        (out.new.items ≡ out.old.items ++ separated (codes ", ")
        (map summary_key (map told_of groups.now))) }
{
    for group in groups {
        out.extend_from_slice(b", ")?;
        out.extend_from_slice(group.text.bytes())?;
    }
    Ok(())
}

/// The texts of groups with commas between, with room for so many bytes.
fn joined_texts(
    alloc: Global,
    room: usize,
    groups: &[GroupSummary<'_>],
) -> Result<Vec<u8>, AllocError>
    ensures { IfOk result
        (λ text. text.items ≡ joined (codes ", ") (map summary_key (map told_of groups.now))) }
{
    let mut text = Vec::with_capacity(alloc, room)?;
    if let [first, rest @ ..] = groups {
        text.extend_from_slice(first.text.bytes())?;
        append_more_texts(&mut text, rest)?;
    }
    Ok(text)
}

fn some_has_two(groups: &[GroupSummary<'_>]) -> bool
    ensures { result ≡ list_any (λ group. group.has_two) groups.now }
{
    groups.iter().any(|group| group.has_two)
}

fn each_has_only_equals(groups: &[GroupSummary<'_>]) -> bool
    ensures { result ≡ list_all (λ group. group.only_equals) groups.now }
{
    groups.iter().all(|group| group.only_equals)
}

impl<'a> RelationText<'a> {
    ghost use Rattle.deb_relation.specs.Faults.{first_fault};
    ghost use Rattle.deb_relation.specs.Grammar.{SpellsRelation};
    ghost use Rattle.deb_relation.specs.Meaning.{Relation as Meaning};
    ghost use Rattle.deb_relation.specs.RelationTexts.{IsTextRead, text_meaning};
    ghost use Rattle.deb_relation.specs.Relations.{IsRead, Tells};

    /// Parses the relation that a body spells. It accepts the same bodies as [`Relation::parse`],
    /// and returns the same faults.
    ///
    /// It borrows the body, and takes no memory if the body is canonical and has neither
    /// versions nor lists.
    ///
    /// # Errors
    ///
    /// The reason and the offset of the first step that fails, reading from the left; or out of
    /// memory.
    pub fn parse(alloc: Global, body: &'a [u8]) -> Result<RelationText<'a>, RelationFault>
        ensures ok { IfOk result (λ relation. SpellsRelation body.now (text_meaning relation)) }
        ensures accepted { (m : Meaning) → SpellsRelation body.now m → IsTextRead result m }
        ensures refused { IfErr result (Tells (first_fault body.now)) }
    {
        match in_place(body) {
            Some((some_alternatives, equals_alone)) => Ok(RelationText {
                body,
                text: KeptText::Lent(body),
                some_alternatives,
                equals_alone,
            }),
            None => RelationText::read(alloc, body),
        }
    }

    /// The same for any body, which is read group by group.
    #[tactic(auto, using(crate::proofs::Summed::told_fault))]
    fn read(alloc: Global, body: &'a [u8]) -> Result<RelationText<'a>, RelationFault>
        ensures ok { IfOk result (λ relation. SpellsRelation body.now (text_meaning relation)) }
        ensures accepted { (m : Meaning) → SpellsRelation body.now m → IsTextRead result m }
        ensures refused { IfErr result (Tells (first_fault body.now)) }
    {
        match read_groups(alloc, body) {
            Ok((groups, _)) => {
                let groups: &[GroupSummary<'_>] = &groups;
                match joined_texts(alloc, body.len(), groups) {
                    Ok(text) => Ok(RelationText {
                        body,
                        text: KeptText::Owned(text),
                        some_alternatives: some_has_two(groups),
                        equals_alone: each_has_only_equals(groups),
                    }),
                    Err(_) => Err(RelationFault::Memory),
                }
            }
            Err(Stop::Memory) => Err(RelationFault::Memory),
            Err(Stop::Bad { reason, left }) => Err(RelationFault::Bad {
                reason,
                at: body.len().saturating_sub(left),
            }),
        }
    }

    /// Returns the relation with its parts.
    ///
    /// # Errors
    ///
    /// Out of memory only.
    pub fn relation(&self, alloc: Global) -> Result<Relation<'a>, RelationFault>
        ensures { IsRead result (text_meaning self.now) }
    {
        Relation::parse(alloc, self.body)
    }

    /// Returns whether some group has two or more alternatives.
    pub fn has_alternatives(&self) -> bool
        ensures { result ≡ has_alternatives (text_meaning self.now) }
    {
        self.some_alternatives
    }

    /// Returns whether no bound has an operator other than `=`.
    pub fn only_equals(&self) -> bool
        ensures { result ≡ only_equals (text_meaning self.now) }
    {
        self.equals_alone
    }

    /// Returns the length in bytes of the canonical text, which `canon_into` appends.
    pub fn canon_len(&self) -> u64
        ensures { result ≡ length (relation_text (text_meaning self.now)) }
    {
        self.text.bytes().len() as u64
    }

    /// Appends the canonical text to `out`.
    ///
    /// # Errors
    ///
    /// Out of memory; `out` is then unchanged.
    pub fn canon_into(&self, out: &mut Vec<u8>) -> Result<(), AllocError>
        ensures ok { OnOk result
            (out.new.items ≡ out.old.items ++ relation_text (text_meaning self.now)) }
        ensures unchanged { OnErr result (out.new.items ≡ out.old.items) }
    {
        out.extend_from_slice(self.text.bytes())
    }
}
