//! The faults of a text that isn't a relation.

use deb_version::BadVersion;
use std::alloc::{AllocError, AllocFailed};

/// Why a text isn't a relation: the reason of the first step that fails, reading from the left.
#[derive(Clone, Copy, Debug, PartialEq, Eq)]
pub enum Reason {
    /// A name is missing.
    NameExpected,
    /// The name isn't a package name (Debian Policy 5.6.1).
    NameBad,
    /// The text after a colon isn't an architecture name.
    QualifierBad,
    /// The text after an opening parenthesis isn't an operator: `<<`, `<=`, `=`, `>=`, `>>`, or the
    /// obsolete `<` and `>` (Debian Policy 7.1).
    OperatorBad,
    /// The text after an operator isn't a version, for this reason. Its offset counts from the
    /// start of the version.
    Version(BadVersion),
    /// A closing parenthesis is missing, or the text ends within a list.
    Unclosed,
    /// An item of a list isn't the name of an architecture, or of a build profile, after at most
    /// one `!`.
    ItemBad,
    /// An architecture list has items with and without `!`.
    MixedSigns,
    /// A list is empty.
    ListEmpty,
    /// An alternative isn't followed by `,`, `|` or the end of the text.
    Trailing,
}

/// Why a relation wasn't read.
#[derive(Clone, Copy, Debug, PartialEq, Eq)]
pub enum RelationFault {
    /// The text isn't a relation, for this reason. `at` is an offset in the whole text, from 0.
    Bad { reason: Reason, at: usize },
    /// A growth of memory was refused.
    Memory,
}

/// Why reading stops: a step fails with so many bytes left from its offset on, or out of memory.
#[derive(Clone, Copy)]
pub(crate) enum Stop {
    Bad { reason: Reason, left: usize },
    Memory,
}

impl From<AllocError> for Stop {
    ghost use Rattle.deb_relation.specs.declared.fault.Stop.TheVariants.{Memory};
    ghost use Rattle.std.specs.Prelude.{◌≡◌};

    ghost from_gives = { λ _ stop. stop ≡ Memory };

    fn from(_error: AllocError) -> Stop {
        Stop::Memory
    }
}

impl<T: Drop> From<AllocFailed<T>> for Stop {
    ghost use Rattle.deb_relation.specs.declared.fault.Stop.TheVariants.{Memory};
    ghost use Rattle.std.specs.Prelude.{◌≡◌};

    ghost from_gives = { λ _ stop. stop ≡ Memory };

    fn from(_error: AllocFailed<T>) -> Stop {
        Stop::Memory
    }
}
