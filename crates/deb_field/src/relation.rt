//! The values of relationship fields.

ghost use Rattle.std.specs.Prelude.{◌≡◌, None, IfOk, IfErr};
ghost use Rattle.deb_relation.specs.Meaning.{Relation as RelationMeaning};
ghost use Rattle.deb_relation.specs.RelationTexts.{body_of, text_meaning};
ghost use Rattle.deb_relation.specs.Relations.{IsRead};
ghost use Rattle.deb_relation.specs.Texts.{relation_text};
ghost use Rattle.deb_field.specs.RelationFields.{SpellsRelationship, relation_refusal, relationship_refusal};

use crate::canon::Canon;
use crate::value::ValueFault;
use deb_base::{Code, Relationship};
use deb_relation::{Relation, RelationFault, RelationText};
use std::alloc::{AllocError, Global};

/// The value of a relationship field: a set of groups of alternatives (Debian Policy 7.1).
#[derive(Debug, Drop)]
pub struct RelationField<'a> {
    relationship: Relationship,
    relation: RelationText<'a>,
    ghost allowed: { relation_refusal relationship (text_meaning relation) ≡ None },
}

impl<'a> RelationField<'a> {
    ghost use Rattle.deb_field.specs.Faults.{IsFaultOrMemory};
    ghost use Rattle.deb_field.specs.RelationSpelled.{relation_meaning};
    ghost use Rattle.deb_field.specs.Shown.{sort_of};

    /// Parses a relation in a field of this sort.
    ///
    /// # Errors
    ///
    /// `BadRelation` if the body isn't a relation; else `AlternativesNotAllowed` if a group has two
    /// or more alternatives and the field allows only one; else `ProvidesBound` if a version has an
    /// operator other than `=` and the field allows only that. Or out of memory.
    pub fn parse(
        alloc: Global,
        relationship: Relationship,
        body: &'a [u8],
    ) -> Result<RelationField<'a>, ValueFault>
        ensures ok { IfOk result
            (λ field. SpellsRelationship relationship body.now (relation_meaning field)) }
        ensures sort { IfOk result (λ field. sort_of field ≡ relationship) }
        ensures refused { IfErr result
            (IsFaultOrMemory (relationship_refusal relationship body.now)) }
    {
        match RelationText::parse(alloc, body) {
            Ok(relation) => match refusal_in(relationship, &relation) {
                None => Ok(RelationField {
                    relationship,
                    relation,
                }),
                Some(code) => Err(ValueFault::Refused(code)),
            },
            Err(RelationFault::Bad { .. }) => Err(ValueFault::Refused(Code::BadRelation)),
            Err(RelationFault::Memory) => Err(ValueFault::Memory),
        }
    }

    /// Returns the sort of the field.
    pub fn relationship(&self) -> Relationship
        ensures { result ≡ sort_of self.now }
    {
        self.relationship
    }

    /// Returns the relation with its parts, which are read from the body at each call.
    ///
    /// # Errors
    ///
    /// Out of memory only.
    pub fn relation(&self, alloc: Global) -> Result<Relation<'a>, RelationFault>
        ensures { IsRead result (relation_meaning self.now) }
    {
        self.relation.relation(alloc)
    }
}

impl Canon for RelationField<'_> {
    ghost use Rattle.deb_base.specs.declared.kind.Relationship.{Relationship as Sort};
    ghost use Rattle.deb_field.specs.RelationLaw.{relation_law};
    ghost use Rattle.deb_field.specs.RelationSpelled.{relation_meaning, relation_spelled};
    ghost use Rattle.deb_field.specs.Shown.{sort_of};

    ghost Kinds = { Sort };

    ghost Meaning = { RelationMeaning };

    ghost kind = { sort_of };

    ghost meaning = { relation_meaning };

    ghost Spells = { SpellsRelationship };

    ghost text_of = { relation_text };

    ghost law = { relation_law };

    ghost spelled = { λ field. (body_of field.relation, relation_spelled field) };

    fn canon_len(&self) -> u64 {
        self.relation.canon_len()
    }

    fn canon_into(&self, out: &mut Vec<u8>) -> Result<(), AllocError> {
        self.relation.canon_into(out)
    }
}

/// Returns why a relation isn't allowed in a field of this sort, or None. Alternatives come before
/// operators.
fn refusal_in(relationship: Relationship, relation: &RelationText<'_>) -> Option<Code>
    ensures { result ≡ relation_refusal relationship (text_meaning relation.now) }
{
    if relation.has_alternatives() && !relationship.takes_alternatives() {
        Some(Code::AlternativesNotAllowed)
    } else if !relation.only_equals() && !relationship.takes_all_operators() {
        Some(Code::ProvidesBound)
    } else {
        None
    }
}
