//! A relation: a set of groups.

ghost use Rattle.std.specs.Prelude.{◌≡◌, ◌++◌, [], Ok, IfOk, IfErr, OnErr, OnOk, codes, length, map};
ghost use Rattle.std.specs.List.{list_all, list_any};
ghost use Rattle.std.specs.Option.{option_map};
ghost use Rattle.deb_relation.specs.Grammar.{set_of};
ghost use Rattle.deb_relation.specs.Groups.{append_piece, group_key, group_of, piece_behind};
ghost use Rattle.deb_relation.specs.Reading.{gather, next_piece, put_piece, relation_in};
ghost use Rattle.deb_relation.specs.Sets.{byte_cmp};
ghost use Rattle.deb_relation.specs.Stops.{Gives, next_of};
ghost use Rattle.deb_relation.specs.Tests.{has_equal_bound, has_two, has_wildcard};
ghost use Rattle.deb_relation.specs.Texts.{group_text, relation_text, separated};

use crate::cursor::{begins, skip_white};
use crate::fault::{Reason, RelationFault, Stop};
use crate::group::Group;
use crate::repeats::{FEW, most_after};
use std::alloc::{AllocError, Global};
use std::cmp::Ordering;

/// A set of groups that must all be met (Debian Policy 7.1).
#[derive(Debug, Drop)]
pub struct Relation<'a> {
    pub(crate) groups: Vec<Group<'a>>,
    text: Vec<u8>,
    ghost written: { text.items ≡ relation_text (map group_of groups.items) },
    ghost spelled: { relation_in (relation_text (map group_of groups.items))
        ≡ Ok (map group_of groups.items) },
}

/// The next piece between commas, a group or white space alone, and what is left after it and its
/// comma.
#[tactic(auto, unfolding(crate::specs::Reading::next_piece))]
fn next_piece(alloc: Global, text: &[u8]) -> Result<Option<(Option<Group<'_>>, &[u8])>, Stop>
    ensures value { Gives result (next_of piece_behind) (next_piece text.now) }
{
    let text = skip_white(text);
    if text.is_empty() {
        return Ok(None);
    }
    if begins(text, b',') {
        return Ok(Some((None, &text[1..])));
    }
    let (group, rest) = Group::read(alloc, text)?;
    if rest.is_empty() {
        return Ok(Some((Some(group), rest)));
    }
    if !begins(rest, b',') {
        return Err(Stop::Bad {
            reason: Reason::Trailing,
            left: rest.len(),
        });
    }
    Ok(Some((Some(group), &rest[1..])))
}

/// Appends a piece's group to groups, if it has one.
fn push_piece<'a>(groups: &mut Vec<Group<'a>>, piece: Option<Group<'a>>) -> Result<(), AllocError>
    ensures { OnOk result (map group_of groups.new.items
        ≡ append_piece (option_map group_of piece.entry) (map group_of groups.old.items)) }
{
    if let Some(group) = piece {
        groups.push(group)?;
    }
    Ok(())
}

/// Two groups, in the byte order of their texts.
fn compare_groups(a: &Group<'_>, b: &Group<'_>) -> Ordering
    ensures { result ≡ byte_cmp (group_key a.now) (group_key b.now) }
{
    a.text.as_slice().cmp(b.text.as_slice())
}

/// Makes groups a set: ascending by their texts, each once.
fn sort_groups(groups: &mut Vec<Group<'_>>) -> Result<(), AllocError>
    ensures { OnOk result
        (map group_of groups.new.items ≡ set_of group_text (map group_of groups.old.items)) }
{
    groups.sort_by(|a, b| compare_groups(a, b))?;
    groups.dedup_by(|a, b| compare_groups(a, b).is_eq());
    Ok(())
}

/// Drops repeats once there are `most` groups, and lets those that are left become twice as many.
fn drop_repeats(groups: &mut Vec<Group<'_>>, most: &mut usize) -> Result<(), AllocError>
    ensures { OnOk result (set_of group_text (map group_of groups.new.items)
        ≡ set_of group_text (map group_of groups.old.items)) }
{
    if groups.len() >= *most {
        sort_groups(groups)?;
        *most = most_after(groups.len());
    }
    Ok(())
}

/// The set of the groups of a whole text, and what is left after it.
fn read_groups(alloc: Global, text: &[u8]) -> Result<(Vec<Group<'_>>, &[u8]), Stop>
    ensures { Gives result (λ p. (map group_of p.0.items, p.1.now))
        (gather next_piece put_piece [] text.now) }
{
    let mut groups = Vec::with_capacity(alloc, 1)?;
    let mut most = FEW;
    let mut rest = text;
    while let Some((piece, behind)) = next_piece(alloc, rest)? {
        push_piece(&mut groups, piece)?;
        drop_repeats(&mut groups, &mut most)?;
        rest = behind;
    }
    sort_groups(&mut groups)?;
    Ok((groups, rest))
}

/// Appends the texts of groups, each with a comma before it.
fn append_more_groups(out: &mut Vec<u8>, groups: &[Group<'_>]) -> Result<(), AllocError>
    ensures { OnOk result
        (out.new.items ≡ out.old.items ++ separated (codes ", ")
        (map group_text (map group_of groups.now))) }
{
    for group in groups {
        out.extend_from_slice(b", ")?;
        out.extend_from_slice(&group.text)?;
    }
    Ok(())
}

/// The text of a relation: its groups with commas between.
fn text_of(alloc: Global, groups: &[Group<'_>]) -> Result<Vec<u8>, AllocError>
    ensures { IfOk result (λ text. text.items ≡ relation_text (map group_of groups.now)) }
{
    let mut text = Vec::new(alloc);
    if let [first, rest @ ..] = groups {
        text.extend_from_slice(&first.text)?;
        append_more_groups(&mut text, rest)?;
    }
    Ok(text)
}

fn some_has_two(groups: &[Group<'_>]) -> bool
    ensures { result ≡ list_any (λ group. has_two (group_of group)) groups.now }
{
    groups.iter().any(|group| group.has_two())
}

fn some_has_wildcard(groups: &[Group<'_>]) -> bool
    ensures { result ≡ list_any (λ group. list_any has_wildcard (group_of group)) groups.now }
{
    groups.iter().any(|group| group.has_wildcard())
}

fn each_has_only_equals(groups: &[Group<'_>]) -> bool
    ensures { result ≡ list_all (λ group. list_all has_equal_bound (group_of group)) groups.now }
{
    groups.iter().all(|group| group.only_equals())
}

impl<'a> Relation<'a> {
    ghost use Rattle.deb_relation.specs.Faults.{first_fault};
    ghost use Rattle.std.specs.List.{AllByRecursion};
    ghost use Rattle.deb_relation.specs.Grammar.{SpellsRelation};
    ghost use Rattle.deb_relation.specs.Laws.{Ascends, HasAscendingSets};
    ghost use Rattle.deb_relation.specs.Meaning.{Relation as Meaning};
    ghost use Rattle.deb_relation.specs.Regular.{IsRegularRelation};
    ghost use Rattle.deb_relation.specs.Relations.{IsRead, Tells, relation_of};
    ghost use Rattle.deb_relation.specs.Tests.{has_alternatives, only_equals, some_wildcard};

    /// Parses a relation: groups with commas between them, of alternatives with bars between them
    /// (Debian Policy 7.1).
    ///
    /// It borrows names and versions from the text. A repeated group is kept once; empty pieces
    /// between commas are ignored.
    ///
    /// # Errors
    ///
    /// The reason and the offset of the first step that fails, reading from the left; or out of
    /// memory.
    #[tactic(auto, using(crate::proofs::Parsed::read_fault))]
    pub fn parse(alloc: Global, text: &'a [u8]) -> Result<Relation<'a>, RelationFault>
        ensures ok { IfOk result (λ relation. SpellsRelation text.now (relation_of relation)) }
        ensures accepted { (m : Meaning) → SpellsRelation text.now m → IsRead result m }
        ensures refused { IfErr result (Tells (first_fault text.now)) }
    {
        match read_groups(alloc, text) {
            Ok((groups, _)) => match text_of(alloc, &groups) {
                Ok(text) => Ok(Relation { groups, text }),
                Err(_) => Err(RelationFault::Memory),
            },
            Err(Stop::Memory) => Err(RelationFault::Memory),
            Err(Stop::Bad { reason, left }) => Err(RelationFault::Bad {
                reason,
                at: text.len().saturating_sub(left),
            }),
        }
    }

    /// Returns the groups, ascending by their canonical texts, each once. So do the names of each
    /// architecture list, the lists of each formula and the items of each list. No group and no
    /// list is empty, and each name and version is valid.
    pub fn groups(&self) -> &[Group<'a>]
        ensures value { map group_of result.now ≡ relation_of self.now }
        ensures ascend { Ascends group_text (relation_of self.now) }
        ensures sets { AllByRecursion (AllByRecursion HasAscendingSets) (relation_of self.now) }
        ensures regular { IsRegularRelation (relation_of self.now) }
    {
        &self.groups
    }

    /// Returns whether some group has two or more alternatives.
    pub fn has_alternatives(&self) -> bool
        ensures { result ≡ has_alternatives (relation_of self.now) }
    {
        some_has_two(&self.groups)
    }

    /// Returns whether an architecture list contains a wildcard (Debian Policy 11.1).
    pub fn has_wildcard(&self) -> bool
        ensures { result ≡ some_wildcard (relation_of self.now) }
    {
        some_has_wildcard(&self.groups)
    }

    /// Returns whether no bound has an operator other than `=`.
    pub fn only_equals(&self) -> bool
        ensures { result ≡ only_equals (relation_of self.now) }
    {
        each_has_only_equals(&self.groups)
    }

    /// Returns the length in bytes of the canonical text, which `canon_into` appends.
    pub fn canon_len(&self) -> u64
        ensures { result ≡ length (relation_text (relation_of self.now)) }
    {
        self.text.len() as u64
    }

    /// Appends the canonical text to `out`: the groups in the byte order of their texts, each once,
    /// with a comma and a space between them.
    ///
    /// # Errors
    ///
    /// Out of memory; `out` is then unchanged.
    pub fn canon_into(&self, out: &mut Vec<u8>) -> Result<(), AllocError>
        ensures ok { OnOk result
            (out.new.items ≡ out.old.items ++ relation_text (relation_of self.now)) }
        ensures unchanged { OnErr result (out.new.items ≡ out.old.items) }
    {
        out.extend_from_slice(&self.text)
    }
}
