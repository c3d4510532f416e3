//! Laws of the definitions of names. Each function does nothing; its contract is the law.

ghost use Rattle.std.specs.Prelude.{◌≡◌, [], ◌∷◌, codes, map};
ghost use Rattle.deb_base.specs.Kinds.{known_row};
ghost use Rattle.deb_base.specs.Names.{CanonicalNameTellsSameNames, CanonicalNameIsStable, CanonicalNameIsSameName};

use crate::known_fields::rows::{
    ARCHITECTURE, BREAKS, BUILD_DEPENDS, BUILD_DEPENDS_ARCH, BUILD_DEPENDS_INDEP, CONFLICTS,
    DEPENDS, FORMAT, MULTI_ARCH, PACKAGE, PRE_DEPENDS, PROVIDES, RECOMMENDS, SOURCE, STATUS,
    VERSION,
};

/// Two names have the same canonical spelling exactly if they are the same name.
pub fn canonical_name_tells_same_names()
    ensures { CanonicalNameTellsSameNames }
{}

/// The canonical spelling of a canonical spelling is itself.
pub fn canonical_name_is_stable()
    ensures { CanonicalNameIsStable }
{}

/// A name is the same name as its canonical spelling.
pub fn canonical_name_is_same_name()
    ensures { CanonicalNameIsSameName }
{}

/// Each constant of `rows` is the row of the field that it is named after.
#[tactic(auto, unfolding(crate::specs::Kinds::known_row))]
pub fn rows_are_of_their_names()
    ensures { map known_row
        (codes "Architecture" ∷ codes "Breaks" ∷ codes "Build-Depends"
        ∷ codes "Build-Depends-Arch" ∷ codes "Build-Depends-Indep" ∷ codes "Conflicts"
        ∷ codes "Depends" ∷ codes "Format" ∷ codes "Multi-Arch" ∷ codes "Package"
        ∷ codes "Pre-Depends" ∷ codes "Provides" ∷ codes "Recommends" ∷ codes "Source"
        ∷ codes "Status" ∷ codes "Version" ∷ [])
        ≡ ARCHITECTURE ∷ BREAKS ∷ BUILD_DEPENDS ∷ BUILD_DEPENDS_ARCH ∷ BUILD_DEPENDS_INDEP
        ∷ CONFLICTS ∷ DEPENDS ∷ FORMAT ∷ MULTI_ARCH ∷ PACKAGE ∷ PRE_DEPENDS ∷ PROVIDES
        ∷ RECOMMENDS ∷ SOURCE ∷ STATUS ∷ VERSION ∷ [] }
{}
