//! The kinds of files that list packages.

ghost use Rattle.std.specs.Prelude.{◌≡◌};
ghost use Rattle.deb_latest.specs.Entries.{doc_of};

use deb_field::Doc;

/// The kind of the files.
#[derive(Clone, Copy, Debug, PartialEq, Eq)]
pub enum Kind {
    /// Indexes of binary packages (Debian Policy 5.3).
    Packages,
    /// Indexes of source packages (Debian Policy 5.4).
    Sources,
}

impl Kind {
    /// Returns the kind of document.
    pub fn doc(self) -> Doc
        ensures { result ≡ doc_of self }
    {
        match self {
            Kind::Packages => Doc::Packages,
            Kind::Sources => Doc::Sources,
        }
    }
}
