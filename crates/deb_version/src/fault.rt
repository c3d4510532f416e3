//! The faults of a text that isn't a version.

/// Why a text isn't a version: the first of these faults that it has, in this order.
///
/// `at` is the offset in the whole text, from 0, of the first byte of the component that isn't
/// allowed there.
#[derive(Clone, Copy, Debug, PartialEq, Eq)]
pub enum BadVersion {
    /// The text is empty.
    Empty,
    /// The text begins with a colon.
    EpochEmpty,
    /// The text before the first colon contains a byte that isn't a decimal digit.
    EpochNotNumber,
    /// Never returned, since an epoch may have any size.
    EpochTooBig,
    /// The text ends with a hyphen, and the revision is empty.
    RevisionEmpty,
    /// The upstream version, between the epoch and the revision, is empty.
    UpstreamEmpty,
    /// A byte of the upstream version isn't an ASCII letter or digit, `+`, `-`, `.` or `~` (Debian
    /// Policy 5.6.12). It is never a colon: after an epoch a colon is allowed, and a text without
    /// an epoch contains none.
    UpstreamByte { at: usize },
    /// A byte of the revision isn't an ASCII letter or digit, `+`, `.` or `~` (Debian Policy
    /// 5.6.12).
    RevisionByte { at: usize },
}
