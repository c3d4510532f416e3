//! The kinds of files that describe source packages.

ghost use Rattle.std.specs.Prelude.{◌≡◌};
ghost use Rattle.deb_install.specs.SourceKinds.{doc_of, name_field};

use deb_base::Doc;

/// The kind of a file of source packages.
#[derive(Clone, Copy, Debug, PartialEq, Eq)]
pub enum SourceKind {
    /// An index of source packages (Debian Policy 5.4).
    Sources,
    /// The description of a source package.
    Source,
}

impl SourceKind {
    /// Returns the kind of the document.
    pub(crate) fn doc(self) -> Doc
        ensures { result ≡ doc_of self }
    {
        match self {
            SourceKind::Sources => Doc::Sources,
            SourceKind::Source => Doc::Source,
        }
    }

    /// Returns the name of the field that names a package.
    pub(crate) fn name_field(self) -> &'static [u8]
        ensures { result.now ≡ name_field self }
    {
        match self {
            SourceKind::Sources => b"Package",
            SourceKind::Source => b"Source",
        }
    }
}
