//! Verdicts on groups.

/// The verdict on a group of alternatives (Debian Policy 7.1).
#[derive(Clone, Copy, Debug, PartialEq, Eq)]
pub enum Verdict {
    /// None of its alternatives applies.
    Ignored,
    /// A listed package meets an alternative that applies.
    Met,
    /// An alternative applies, and no listed package meets one that applies.
    Unmet,
}
