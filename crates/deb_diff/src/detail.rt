//! How much is written of what changed.

/// How much is written of a paragraph that was removed, added or changed, or has another version.
#[derive(Clone, Copy, Debug, PartialEq, Eq)]
pub enum Detail {
    /// A line, with the names of the fields that differ.
    Fields,
    /// Under it also the lines of these fields, and all lines of removed and added paragraphs.
    Values,
}
