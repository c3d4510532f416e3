//! The kinds of documents: the word for each, and which have exactly one paragraph.

ghost use Rattle.std.specs.Prelude.{◌≡◌};
ghost use Rattle.deb_base.specs.Docs.{about_of, doc_named, is_single, word_of};

/// A kind of document.
#[derive(Clone, Copy, Debug, PartialEq, Eq)]
pub enum Doc {
    /// The control file of a binary package: one paragraph (Debian Policy 5.3).
    Binary,
    /// An index of binary packages: any number of paragraphs, also none.
    Packages,
    /// The description of a source package, without its signature: one paragraph (Debian Policy
    /// 5.4).
    Source,
    /// An index of source packages: any number of paragraphs, also none.
    Sources,
    /// The status file of dpkg, the packages that it knows of: any number of paragraphs, also none
    /// (dpkg(1), deb-control(5)).
    Status,
    /// Any control data: any number of paragraphs, also none. No field is required, and no value is
    /// checked: each is a text.
    Any,
}

impl Doc {
    /// All kinds of documents.
    pub const ALL: &'static [Doc] = &[
        Doc::Binary,
        Doc::Packages,
        Doc::Source,
        Doc::Sources,
        Doc::Status,
        Doc::Any,
    ];

    /// Returns the word for the kind, as `--kind` takes it.
    pub fn word(self) -> &'static str
        ensures { result.now ≡ word_of self }
    {
        match self {
            Doc::Binary => "binary",
            Doc::Packages => "packages",
            Doc::Source => "source",
            Doc::Sources => "sources",
            Doc::Status => "status",
            Doc::Any => "any",
        }
    }

    /// Describes such a document in a few words.
    pub fn about(self) -> &'static str
        ensures { result.now ≡ about_of self }
    {
        match self {
            Doc::Binary => "the control file of a binary package",
            Doc::Packages => "an index of binary packages",
            Doc::Source => "the description of a source package",
            Doc::Sources => "an index of source packages",
            Doc::Status => "the status file of dpkg",
            Doc::Any => "any control data; its values aren't checked",
        }
    }

    /// Returns the kind that a word names, or `None`.
    pub fn named(word: &str) -> Option<Doc>
        ensures { result ≡ doc_named word.now }
    {
        for doc in Doc::ALL {
            if doc.word() == word {
                return Some(*doc);
            }
        }
        None
    }
}

/// Returns whether a document of this kind has exactly one paragraph.
pub fn is_single(doc: Doc) -> bool
    ensures { result ≡ is_single doc }
{
    match doc {
        Doc::Binary | Doc::Source => true,
        Doc::Packages | Doc::Sources | Doc::Status | Doc::Any => false,
    }
}
