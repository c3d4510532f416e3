//! Laws of relations.
//!
//! Each function here does nothing. Its contract is a law, which holds for all texts, or for all
//! relations.

ghost use Rattle.deb_relation.specs.Laws.{CanonicalTextDecides, CanonicalTextIsBody, CanonicalTextIsShort, CanonicalTextSpells, CanonicalTextStays, FaultsStandInTheirText, GroupsAscend, SetsAscend, SpellsOneRelation, SpellsWhereFaultless};
ghost use Rattle.deb_relation.specs.PlaceLaws.{PlacesAreReached};
ghost use Rattle.deb_relation.specs.Regular.{SpelledIsRegular};
ghost use Rattle.deb_relation.specs.RelationTexts.{RelationTextSpells};
ghost use Rattle.deb_relation.specs.Relations.{RelationSpells};

use crate::relation::Relation;
use crate::relation_text::RelationText;

/// A text spells at most one relation.
pub fn spells_one_relation()
    ensures { SpellsOneRelation }
{}

/// A text spells a relation exactly if no step of its reading fails.
pub fn spells_where_faultless()
    ensures { SpellsWhereFaultless }
{}

/// Each `Relation`, however it was made, is spelled by a text: its canonical one.
pub fn relation_spells(relation: &Relation<'_>)
    ensures { RelationSpells relation.now }
{}

/// Each `RelationText`, however it was made, is spelled by a text: its body.
pub fn relation_text_spells(relation: &RelationText<'_>)
    ensures { RelationTextSpells relation.now }
{}

/// A relation that a text spells has no empty group and no empty list, its names are valid, some
/// text spells each of its versions, and its sets ascend.
pub fn what_is_spelled_is_regular()
    ensures { SpelledIsRegular }
{}

/// The canonical text of a relation is accepted, and spells that relation.
pub fn canonical_text_spells()
    ensures { CanonicalTextSpells }
{}

/// Two relations have the same canonical text exactly if they mean the same.
pub fn canonical_text_decides()
    ensures { CanonicalTextDecides }
{}

/// The canonical text of a relation that canonical text spells is that text.
pub fn canonical_text_stays()
    ensures { CanonicalTextStays }
{}

/// Canonical text is at most twice as long as each spelling of the relation.
pub fn canonical_text_is_short()
    ensures { CanonicalTextIsShort }
{}

/// Canonical text can be the body of a field: it is empty, or one line without blanks at its ends.
pub fn canonical_text_is_body()
    ensures { CanonicalTextIsBody }
{}

/// The groups of a relation that a text spells ascend by their canonical texts, each once.
pub fn groups_ascend()
    ensures { GroupsAscend }
{}

/// The names of each architecture list, the lists of each formula and the items of each list ascend
/// by their texts, each once.
pub fn sets_ascend()
    ensures { SetsAscend }
{}

/// The offset of a fault is within the text, or at its end.
pub fn faults_stand_in_their_text()
    ensures { FaultsStandInTheirText }
{}

/// What comes before the offset of a fault can be continued to a relation, whatever the reason.
pub fn places_are_reached()
    ensures { PlacesAreReached }
{}
