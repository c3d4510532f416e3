//! What is asked for.

use crate::kind::Kind;
use deb_version::Version;

/// Which paragraphs are of one package.
#[derive(Clone, Copy, Debug, PartialEq, Eq)]
pub enum By {
    /// Those with one name.
    Name,
    /// Those with one name and one architecture.
    NameAndArchitecture,
}

/// Which paragraphs are looked for.
#[derive(Clone, Copy, Debug)]
pub struct Request<'a> {
    /// The kind of the files.
    pub kind: Kind,
    /// Which paragraphs are of one package.
    pub by: By,
    /// If there is one, only versions earlier than this one are considered.
    pub before: Option<Version<'a>>,
}
