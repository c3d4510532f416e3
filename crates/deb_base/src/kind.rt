//! The kinds of values. `known_fields` says which field has which kind.

ghost use Rattle.std.specs.Prelude.{◌≡◌};

/// A kind of value: what the body of a field may be, and what it means.
#[derive(Clone, Copy, Debug, PartialEq, Eq)]
pub enum Kind {
    /// The name of a package.
    Name,
    /// The name of a source package, with or without a version in parentheses.
    Source,
    /// A version.
    Version,
    /// The name of an architecture.
    Architecture,
    /// Names of architectures.
    ArchitectureWords,
    /// `yes` or `no`.
    Flag,
    /// `no`, `same`, `foreign` or `allowed`.
    MultiArch,
    /// A number in decimal.
    Number,
    /// Text of one line.
    Line,
    /// Words.
    Folded,
    /// A relationship between packages, in a field of this sort.
    Relation(Relationship),
    /// A body, unchanged.
    Text,
}

/// A sort of relationship fields, named after the best known of them: whether a group may have
/// alternatives, and which operators a version may have (Debian Policy 7.1).
#[derive(Clone, Copy, Debug, PartialEq, Eq)]
pub enum Relationship {
    /// The fields that declare dependencies (Debian Policy 7.2 and 7.7): alternatives, and every
    /// operator.
    Depends,
    /// Breaks, Conflicts, Replaces, Built-Using, and the Build-Conflicts fields (Debian Policy 7.3,
    /// 7.4 and 7.6 to 7.8): no alternatives, and every operator.
    Conflicts,
    /// Provides (Debian Policy 7.5): no alternatives, and only `=`.
    Provides,
}

impl Relationship {
    ghost use Rattle.deb_base.specs.Kinds.{takes_alternatives, takes_all_operators};

    /// Returns whether a group may have two or more alternatives.
    pub fn takes_alternatives(self) -> bool
        ensures { result ≡ takes_alternatives self }
    {
        match self {
            Relationship::Depends => true,
            Relationship::Conflicts | Relationship::Provides => false,
        }
    }

    /// Returns whether a version may have an operator other than `=`.
    pub fn takes_all_operators(self) -> bool
        ensures { result ≡ takes_all_operators self }
    {
        match self {
            Relationship::Depends | Relationship::Conflicts => true,
            Relationship::Provides => false,
        }
    }
}
