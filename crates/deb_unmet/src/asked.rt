//! Which relations of which kind of file are asked.

ghost use Rattle.std.specs.Prelude.{◌≡◌};
ghost use Rattle.deb_relation.specs.Views.{names_of};
ghost use Rattle.deb_base.specs.Kinds.{known_row};
ghost use Rattle.deb_unmet.specs.Asked.{by_target, doc_of, fields_asked, fields_with, is_binary, is_of_target, name_field, rows_asked, rows_with};

use deb_base::rows::{
    BUILD_DEPENDS, BUILD_DEPENDS_ARCH, BUILD_DEPENDS_INDEP, DEPENDS, PACKAGE, PRE_DEPENDS,
    RECOMMENDS, SOURCE,
};
use deb_base::{KNOWN_FIELDS, VersionText};
use deb_field::Doc;

/// The kind of a file, and which of its relations are asked.
#[derive(Clone, Copy, Debug, PartialEq, Eq)]
pub enum Asked {
    /// An index of binary packages (Debian Policy 5.3 and 7.2).
    Packages(Strength),
    /// The control file of a binary package.
    Binary(Strength),
    /// An index of source packages: Build-Depends, Build-Depends-Arch and Build-Depends-Indep
    /// (Debian Policy 7.7).
    Sources(SourcesAsked),
    /// The description of a source package: the same fields.
    Source(SourcesAsked),
}

/// Which source packages are asked (Debian Policy 5.6.8).
#[derive(Clone, Copy, Debug, PartialEq, Eq)]
pub enum SourcesAsked {
    /// Those whose Architecture has `any`, `all` or the target, or that have no such field; and
    /// those that have another name that may be read as holding the target, as `linux-any`: their
    /// lines say `unsure`.
    OfTarget,
    /// All.
    All,
}

/// Which relations of a binary package are asked (Debian Policy 7.2).
#[derive(Clone, Copy, Debug, PartialEq, Eq)]
pub enum Strength {
    /// Pre-Depends and Depends.
    Depends,
    /// Pre-Depends, Depends and Recommends.
    Recommends,
}

/// What a file is asked, and which text of a version its lines have.
#[derive(Clone, Copy, Debug, PartialEq, Eq)]
pub struct Request {
    /// The kind of the file, and which of its relations are asked.
    pub asked: Asked,
    /// Which text of its version the lines of a paragraph have.
    pub versions: VersionText,
}

impl Asked {
    /// Returns the kind of the file.
    pub fn doc(self) -> Doc
        ensures { result ≡ doc_of self }
    {
        match self {
            Asked::Packages(_) => Doc::Packages,
            Asked::Binary(_) => Doc::Binary,
            Asked::Sources(_) => Doc::Sources,
            Asked::Source(_) => Doc::Source,
        }
    }

    /// Returns the names of the fields that are asked, in the order of their lines.
    pub fn fields(self) -> &'static [&'static [u8]]
        ensures { names_of result.now ≡ fields_asked self }
    {
        match self {
            Asked::Packages(strength) | Asked::Binary(strength) => fields_with(strength),
            Asked::Sources(_) | Asked::Source(_) => BUILD,
        }
    }

    /// Returns whether the file has binary packages.
    pub(crate) fn is_binary(self) -> bool
        ensures { result ≡ is_binary self }
    {
        match self {
            Asked::Packages(_) | Asked::Binary(_) => true,
            Asked::Sources(_) | Asked::Source(_) => false,
        }
    }

    /// Returns whether only source packages that are built for the target are asked.
    pub(crate) fn by_target(self) -> bool
        ensures { result ≡ by_target self }
    {
        match self {
            Asked::Packages(_) | Asked::Binary(_) => false,
            Asked::Sources(which) | Asked::Source(which) => which.is_of_target(),
        }
    }

    /// Returns the rows of the fields that are asked, in the table of fields; one that it doesn't
    /// have if only two are asked.
    #[tactic(auto, unfolding(deb_base::specs::Kinds::known_row))]
    pub(crate) fn rows(self) -> [usize; 3]
        ensures { result ≡ rows_asked self }
    {
        match self {
            Asked::Packages(strength) | Asked::Binary(strength) => rows_with(strength),
            Asked::Sources(_) | Asked::Source(_) => BUILD_ROWS,
        }
    }

    /// Returns the row of the field that names the package, in the table of fields.
    #[tactic(auto, unfolding(deb_base::specs::Kinds::known_row))]
    pub(crate) fn name_row(self) -> usize
        ensures { result ≡ known_row (name_field self) }
    {
        match self {
            Asked::Packages(_) | Asked::Binary(_) | Asked::Sources(_) => PACKAGE,
            Asked::Source(_) => SOURCE,
        }
    }
}

impl SourcesAsked {
    fn is_of_target(self) -> bool
        ensures { result ≡ is_of_target self }
    {
        match self {
            SourcesAsked::OfTarget => true,
            SourcesAsked::All => false,
        }
    }
}

// The rows of the fields in `BUILD`.
const BUILD_ROWS: [usize; 3] = [BUILD_DEPENDS, BUILD_DEPENDS_ARCH, BUILD_DEPENDS_INDEP];

const STRONG: &'static [&'static [u8]] = &[b"Pre-Depends", b"Depends"];

const WITH_RECOMMENDS: &'static [&'static [u8]] = &[b"Pre-Depends", b"Depends", b"Recommends"];

const BUILD: &'static [&'static [u8]] = &[
    b"Build-Depends",
    b"Build-Depends-Arch",
    b"Build-Depends-Indep",
];

fn fields_with(strength: Strength) -> &'static [&'static [u8]]
    ensures { names_of result.now ≡ fields_with strength }
{
    match strength {
        Strength::Depends => STRONG,
        Strength::Recommends => WITH_RECOMMENDS,
    }
}

#[tactic(auto, unfolding(deb_base::specs::Kinds::known_row))]
fn rows_with(strength: Strength) -> [usize; 3]
    ensures { result ≡ rows_with strength }
{
    match strength {
        Strength::Depends => [PRE_DEPENDS, DEPENDS, KNOWN_FIELDS],
        Strength::Recommends => [PRE_DEPENDS, DEPENDS, RECOMMENDS],
    }
}
