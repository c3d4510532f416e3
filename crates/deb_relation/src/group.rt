//! A group of alternatives.

ghost use Rattle.std.specs.Prelude.{◌≡◌, ◌++◌, IfOk, OnErr, OnOk, codes, length, map};
ghost use Rattle.std.specs.List.{list_all, list_any};
ghost use Rattle.deb_relation.specs.Reading.{append, gather, next_alternative, read_group};
ghost use Rattle.deb_relation.specs.Stops.{Gives, next_of};
ghost use Rattle.deb_relation.specs.Texts.{alternative_text, group_text, separated};
ghost use Rattle.deb_relation.specs.Tests.{has_equal_bound, has_wildcard};
ghost use Rattle.deb_relation.specs.Views.{alternative_of};

use crate::alternative::Alternative;
use crate::cursor::{begins, skip_white};
use crate::fault::Stop;
use std::alloc::{AllocError, Global};

/// Alternatives in their order; a package that meets one of them is enough (Debian Policy 7.1).
#[derive(Debug, Drop)]
pub struct Group<'a> {
    pub(crate) alternatives: Vec<Alternative<'a>>,
    pub(crate) text: Vec<u8>,
    ghost written: { text.items ≡ group_text (map alternative_of alternatives.items) },
}

impl<'a> Group<'a> {
    ghost use Rattle.deb_relation.specs.Groups.{group_of};
    ghost use Rattle.deb_relation.specs.Tests.{has_two};

    /// Returns the alternatives in the order of the text, repeats kept.
    pub fn alternatives(&self) -> &[Alternative<'a>]
        ensures { map alternative_of result.now ≡ group_of self.now }
    {
        &self.alternatives
    }

    /// Returns whether there are two or more alternatives.
    pub(crate) fn has_two(&self) -> bool
        ensures { result ≡ has_two (group_of self.now) }
    {
        self.alternatives.len() >= 2
    }

    /// Returns whether an architecture list contains a wildcard (Debian Policy 11.1).
    pub(crate) fn has_wildcard(&self) -> bool
        ensures { result ≡ list_any has_wildcard (group_of self.now) }
    {
        some_has_wildcard(&self.alternatives)
    }

    /// Returns whether no bound has an operator other than `=`.
    pub(crate) fn only_equals(&self) -> bool
        ensures { result ≡ list_all has_equal_bound (group_of self.now) }
    {
        each_has_equal_bound(&self.alternatives)
    }

    /// Returns the length in bytes of the canonical text, which `canon_into` appends.
    pub fn canon_len(&self) -> u64
        ensures { result ≡ length (group_text (group_of self.now)) }
    {
        self.text.len() as u64
    }

    /// Appends the canonical text to `out`: the alternatives in their order, with ` | ` between
    /// them.
    ///
    /// # Errors
    ///
    /// Out of memory; `out` is then unchanged.
    pub fn canon_into(&self, out: &mut Vec<u8>) -> Result<(), AllocError>
        ensures ok { OnOk result (out.new.items ≡ out.old.items ++ group_text (group_of self.now)) }
        ensures unchanged { OnErr result (out.new.items ≡ out.old.items) }
    {
        out.extend_from_slice(&self.text)
    }

    /// The group, and what is left after it and white space.
    #[tactic(auto, unfolding(crate::specs::Reading::read_group))]
    pub(crate) fn read(alloc: Global, text: &'a [u8]) -> Result<(Group<'a>, &'a [u8]), Stop>
        ensures { Gives result (λ p. (group_of p.0, p.1.now)) (read_group text.now) }
    {
        let (first, rest) = Alternative::read(alloc, text)?;
        let mut alternatives = Vec::with_capacity(alloc, 1)?;
        alternatives.push(first)?;
        let (alternatives, rest) = gather_alternatives(alloc, alternatives, rest)?;
        let text = text_of(alloc, &alternatives)?;
        Ok((Group { alternatives, text }, rest))
    }
}

/// The next alternative, and what is left after it and white space.
#[tactic(auto, unfolding(crate::specs::Reading::next_alternative))]
pub(crate) fn next_alternative(
    alloc: Global,
    text: &[u8],
) -> Result<Option<(Alternative<'_>, &[u8])>, Stop>
    ensures value { Gives result (next_of (λ p. (alternative_of p.0, p.1.now)))
        (next_alternative text.now) }
{
    if !begins(text, b'|') {
        return Ok(None);
    }
    let (alternative, rest) = Alternative::read(alloc, skip_white(&text[1..]))?;
    Ok(Some((alternative, rest)))
}

/// Alternatives and those that follow, up to the end of their group.
fn gather_alternatives<'a>(
    alloc: Global,
    mut alternatives: Vec<Alternative<'a>>,
    text: &'a [u8],
) -> Result<(Vec<Alternative<'a>>, &'a [u8]), Stop>
    ensures { Gives result (λ p. (map alternative_of p.0.items, p.1.now))
        (gather next_alternative append (map alternative_of alternatives.entry.items) text.now) }
{
    let mut rest = text;
    while let Some((alternative, behind)) = next_alternative(alloc, rest)? {
        alternatives.push(alternative)?;
        rest = behind;
    }
    Ok((alternatives, rest))
}

/// Appends the texts of alternatives, each with a bar before it.
fn append_more_alternatives(
    out: &mut Vec<u8>,
    alternatives: &[Alternative<'_>],
) -> Result<(), AllocError>
    ensures { OnOk result
        (out.new.items ≡ out.old.items ++ separated (codes " | ")
        (map alternative_text (map alternative_of alternatives.now))) }
{
    for alternative in alternatives {
        out.extend_from_slice(b" | ")?;
        alternative.append_to(out)?;
    }
    Ok(())
}

/// The text of a group: its alternatives with bars between.
#[tactic(auto, unfolding(crate::specs::Texts::group_text))]
fn text_of(alloc: Global, alternatives: &[Alternative<'_>]) -> Result<Vec<u8>, AllocError>
    ensures { IfOk result (λ text. text.items ≡ group_text (map alternative_of alternatives.now)) }
{
    let mut text = Vec::new(alloc);
    if let [first, rest @ ..] = alternatives {
        first.append_to(&mut text)?;
        append_more_alternatives(&mut text, rest)?;
    }
    Ok(text)
}

fn some_has_wildcard(alternatives: &[Alternative<'_>]) -> bool
    ensures { result ≡ list_any
        (λ alternative. has_wildcard (alternative_of alternative)) alternatives.now }
{
    alternatives
        .iter()
        .any(|alternative| alternative.has_wildcard())
}

fn each_has_equal_bound(alternatives: &[Alternative<'_>]) -> bool
    ensures { result ≡ list_all
        (λ alternative. has_equal_bound (alternative_of alternative)) alternatives.now }
{
    alternatives
        .iter()
        .all(|alternative| alternative.has_equal_bound())
}
