//! Why a group has a line.

/// Why a group has a line.
#[derive(Clone, Copy)]
pub(crate) enum Trouble {
    /// An alternative applies, and no listed package meets one that applies, however the
    /// architecture lists are read.
    Unmet,
    /// That depends on how an architecture list is read (Debian Policy 11.1).
    Unsure,
}
