//! The operators of bounds on a version.

ghost use Rattle.std.specs.Prelude.{◌≡◌};

use std::cmp::Ordering;

/// How the version of a package must compare with that of a bound (Debian Policy 7.1).
#[derive(Clone, Copy, Debug, PartialEq, Eq)]
pub enum Op {
    /// `<<`: strictly earlier.
    Earlier,
    /// `<=`: earlier or equal.
    EarlierEqual,
    /// `=`: exactly equal, in Debian's order of versions.
    Equal,
    /// `>=`: later or equal.
    LaterEqual,
    /// `>>`: strictly later.
    Later,
}

impl Op {
    ghost use Rattle.deb_relation.specs.Applying.{holds};
    ghost use Rattle.deb_relation.specs.Tests.{is_equal};

    /// Returns whether this is `=`.
    pub(crate) fn is_equal(self) -> bool
        ensures { result ≡ is_equal self }
    {
        matches!(self, Op::Equal)
    }

    /// Returns whether a version that compares so with that of the bound meets it.
    pub fn holds(self, order: Ordering) -> bool
        ensures { result ≡ holds self order }
    {
        match self {
            Op::Earlier => order.is_lt(),
            Op::EarlierEqual => order.is_le(),
            Op::Equal => order.is_eq(),
            Op::LaterEqual => order.is_ge(),
            Op::Later => order.is_gt(),
        }
    }
}
