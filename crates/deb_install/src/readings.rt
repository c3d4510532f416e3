//! In which readings of its architecture lists a set has to be healthy.

ghost use Rattle.std.specs.Prelude.{◌≡◌};
ghost use Rattle.deb_install.specs.Candidates.{meets_by};
ghost use Rattle.deb_install.specs.Passing.{counts};

use deb_unmet::Applies;

/// In which readings a set has to be healthy. An architecture list with a wildcard may be read in
/// two ways (`deb_unmet::Applies`), and each list is read by itself.
#[derive(Clone, Copy, Debug, PartialEq, Eq)]
pub enum Readings {
    /// In every reading: what applies in some reading counts against the set.
    Every,
    /// In at least one reading: what applies in some reading counts for the set.
    One,
}

impl Readings {
    /// Returns whether an alternative of Conflicts or Breaks that applies so excludes packages.
    pub(crate) fn counts(self, applies: Applies) -> bool
        ensures { result ≡ counts self applies }
    {
        match self {
            Readings::Every => applies.may(),
            Readings::One => applies.surely(),
        }
    }

    /// Returns whether a package that meets an alternative that applies so meets its group.
    pub(crate) fn meets(self, applies: Applies) -> bool
        ensures { result ≡ meets_by self applies }
    {
        match self {
            Readings::Every => applies.surely(),
            Readings::One => applies.may(),
        }
    }
}
