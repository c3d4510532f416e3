//! Which text of a version is written.

/// Which text of a version is written.
#[derive(Clone, Copy, Debug, PartialEq, Eq)]
pub enum VersionText {
    /// Its canonical text.
    Canonical,
    /// The text by which its file spells it.
    Spelled,
}
