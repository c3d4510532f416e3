//! Why a query returned no report.

use std::alloc::AllocError;

/// Why a query returned no report.
#[derive(Clone, Copy, Debug, PartialEq, Eq)]
pub enum QueryFault {
    /// An architecture list of the relation contains a wildcard (Debian Policy 11.1).
    Wildcard,
    /// A growth of memory was refused.
    Memory,
}

impl From<AllocError> for QueryFault {
    ghost use Rattle.std.specs.Prelude.{◌≡◌};
    ghost use Rattle.deb_index.specs.declared.fault.QueryFault.TheVariants.{Memory};

    ghost from_gives = { λ _ fault. fault ≡ Memory };

    fn from(_error: AllocError) -> QueryFault {
        QueryFault::Memory
    }
}
