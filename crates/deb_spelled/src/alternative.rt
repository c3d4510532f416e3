//! The alternatives of a relation.

ghost use Rattle.std.specs.Prelude.{◌≡◌, ◌<◌, IfErr, IfOk};
ghost use Rattle.std.specs.Option.{option_map};
ghost use Rattle.deb_relation.specs.Faults.{first_fault};
ghost use Rattle.deb_relation.specs.Grammar.{SpellsRelation};
ghost use Rattle.deb_relation.specs.Meaning.{Relation};
ghost use Rattle.deb_relation.specs.Relations.{Tells};
ghost use Rattle.deb_spelled.specs.Alternatives.{alternatives_in, cut_alternative, cut_behind, next_alternative};
ghost use Rattle.deb_spelled.specs.Relations.{HasAlternatives, HasFault, IsCut};

use crate::parts::{cut_architectures, cut_bound, cut_formula, cut_name, cut_qualifier};
use crate::run::{begins, skip_gap, skip_one, skip_white};
use crate::span::Span;
use deb_relation::{RelationFault, RelationText};
use std::alloc::{AllocError, Global};

/// Where the parts of an alternative are in the text of its relation (Debian Policy 7.1).
#[repr(C)]
#[derive(Clone, Copy, Debug, PartialEq, Eq)]
pub struct AlternativeSpans {
    /// The number of its group in the text, from 1. Empty pieces between commas aren't counted.
    pub group: usize,
    /// The name of the package.
    pub name: Span,
    /// The qualifier, without the colon.
    pub qualifier: Span,
    /// The operator of the bound.
    pub operator: Span,
    /// The version of the bound.
    pub version: Span,
    /// What is between the brackets of the architecture list.
    pub architectures: Span,
    /// The restriction formula, from its first `<` to its last `>`.
    pub formula: Span,
}

/// The alternative that a text begins with, and what is left after it.
#[tactic(auto, unfolding(crate::specs::Alternatives::cut_alternative))]
fn cut_alternative(total: usize, group: usize, text: &[u8]) -> (AlternativeSpans, &[u8])
    ensures { cut_behind result ≡ cut_alternative total group text.now }
{
    let (name, rest) = cut_name(total, text);
    let (qualifier, rest) = cut_qualifier(total, rest);
    let (operator, version, rest) = cut_bound(total, rest);
    let (architectures, rest) = cut_architectures(total, rest);
    let (formula, rest) = cut_formula(total, rest);
    let alternative = AlternativeSpans {
        group,
        name,
        qualifier,
        operator,
        version,
        architectures,
        formula,
    };
    (alternative, rest)
}

/// The next alternative and what is left after it, if there is a further one. After a bar it is of
/// the same group as the one before it, else of the next group.
#[tactic(auto, unfolding(crate::specs::Alternatives::next_alternative))]
fn next_alternative(total: usize, group: usize, text: &[u8]) -> Option<(AlternativeSpans, &[u8])>
    requires { group < usize.MAX }
    ensures { option_map cut_behind result ≡ next_alternative total group text.now }
{
    let text = skip_gap(text);
    if text.is_empty() {
        None
    } else if begins(text, b'|') {
        Some(cut_alternative(total, group, skip_white(skip_one(text))))
    } else {
        Some(cut_alternative(total, group + 1, text))
    }
}

/// The alternatives of a text that is a relation.
fn cut_alternatives(alloc: Global, text: &[u8]) -> Result<Vec<AlternativeSpans>, AllocError>
    ensures { IfOk result (λ found. found.items ≡ alternatives_in text.now) }
{
    let mut alternatives = Vec::new(alloc);
    let mut group = 0;
    let mut rest = text;
    for _ in 0..text.len() {
        let Some((alternative, behind)) = next_alternative(text.len(), group, rest) else {
            return Ok(alternatives);
        };
        alternatives.push(alternative)?;
        group = alternative.group;
        rest = behind;
    }
    Ok(alternatives)
}

/// Why a text isn't a relation, or out of memory; none if it is one.
fn fault_in(alloc: Global, text: &[u8]) -> Option<RelationFault>
    ensures { HasFault text.now result }
{
    RelationText::parse(alloc, text).err()
}

/// Returns where the parts of each alternative of a relation are in its text, in the order of the
/// text, repeats kept.
///
/// # Errors
///
/// The reason and the offset of the first step that fails, if the text isn't a relation; or out of
/// memory.
pub fn read_alternatives(alloc: Global, text: &[u8]) -> Result<Vec<AlternativeSpans>, RelationFault>
    ensures ok { IfOk result (λ found. HasAlternatives text.now found.items) }
    ensures accepted { (m : Relation) → SpellsRelation text.now m → IsCut result }
    ensures refused { IfErr result (Tells (first_fault text.now)) }
{
    if let Some(fault) = fault_in(alloc, text) {
        return Err(fault);
    }
    match cut_alternatives(alloc, text) {
        Ok(alternatives) => Ok(alternatives),
        Err(_) => Err(RelationFault::Memory),
    }
}
