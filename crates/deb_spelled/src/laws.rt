//! Laws of the parts of relations.
//!
//! Each function here does nothing. Its contract is a law, which holds for all texts.

ghost use Rattle.deb_spelled.specs.Shown.{PartsShowAlternatives};

/// If `deb_relation` reads an alternative at an offset of a text, the parts that are cut there are
/// its name and its qualifier, and spell its operator and its version.
pub fn parts_show_alternatives()
    ensures { PartsShowAlternatives }
{}
