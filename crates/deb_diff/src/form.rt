//! What the lines have.

use crate::detail::Detail;
use deb_base::VersionText;

/// How much is written of what changed, and which text of a version the lines have.
#[derive(Clone, Copy, Debug, PartialEq, Eq)]
pub struct Form {
    /// How much is written of each paragraph.
    pub detail: Detail,
    /// Which text of its version the line of a paragraph has. The lines of values under it have
    /// canonical texts with either choice.
    pub versions: VersionText,
}
