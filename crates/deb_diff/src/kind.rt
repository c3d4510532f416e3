//! Which kinds of files are compared.

ghost use Rattle.std.specs.Prelude.{◌≡◌};
ghost use Rattle.deb_diff.specs.Kinds.{doc_of, is_binary, name_field};

use deb_field::Doc;

/// The kind of two files that are compared.
#[derive(Clone, Copy, Debug, PartialEq, Eq)]
pub enum Kind {
    /// An index of binary packages.
    Packages,
    /// The control file of a binary package.
    Binary,
    /// An index of source packages.
    Sources,
    /// The description of a source package.
    Source,
    /// The status file of dpkg, in which a paragraph may have no version and no architecture.
    Status,
}

impl Kind {
    /// Returns the kind of document.
    pub fn doc(self) -> Doc
        ensures { result ≡ doc_of self }
    {
        match self {
            Kind::Packages => Doc::Packages,
            Kind::Binary => Doc::Binary,
            Kind::Sources => Doc::Sources,
            Kind::Source => Doc::Source,
            Kind::Status => Doc::Status,
        }
    }

    /// Returns whether the files have binary packages.
    pub(crate) fn is_binary(self) -> bool
        ensures { result ≡ is_binary self }
    {
        match self {
            Kind::Packages | Kind::Binary | Kind::Status => true,
            Kind::Sources | Kind::Source => false,
        }
    }

    /// Returns the name of the field that names a package.
    pub(crate) fn name_field(self) -> &'static [u8]
        ensures { result.now ≡ name_field self }
    {
        match self {
            Kind::Packages | Kind::Binary | Kind::Sources | Kind::Status => b"Package",
            Kind::Source => b"Source",
        }
    }
}
