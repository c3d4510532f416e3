//! Which paragraphs of a file are packages of an index.

ghost use Rattle.std.specs.Prelude.{◌≡◌, codes, is_some};
ghost use Rattle.std.specs.Option.{option_map};
ghost use Rattle.deb_control.specs.CheckedStates.{passing_judged};
ghost use Rattle.deb_syntax.specs.Raw.{field_named};
ghost use Rattle.deb_index.specs.Installed.{has_member_fields, is_installed, is_member_by, status_in};
ghost use Rattle.deb_index.specs.Members.{doc_of, has_seen};
ghost use Rattle.deb_index.specs.VersionSpellings.{body_or_nothing};

use deb_control::CheckedView;
use deb_field::{Doc, Folded};

/// Which paragraphs of a file are packages of an index.
#[derive(Clone, Copy, Debug, PartialEq, Eq)]
pub enum Members {
    /// All paragraphs of an index of packages (Debian Policy 5.3).
    All,
    /// The paragraphs of a status file whose Status has three words, of which the third is
    /// `installed` (dpkg(1)), and which have Version and Architecture.
    Installed,
}

impl Members {
    /// Returns the kind of the file.
    pub fn doc(self) -> Doc
        ensures { result ≡ doc_of self }
    {
        match self {
            Members::All => Doc::Packages,
            Members::Installed => Doc::Status,
        }
    }

    /// Returns whether a paragraph is one of them.
    pub(crate) fn has(self, paragraph: &CheckedView<'_>) -> bool
        ensures { result ≡ has_seen self (passing_judged paragraph.now).seen }
    {
        match self {
            Members::All => true,
            Members::Installed => is_member(paragraph),
        }
    }
}

/// Returns whether a paragraph is of an installed package, with a version and an architecture.
fn is_member(paragraph: &CheckedView<'_>) -> bool
    ensures { result ≡ is_member_by (passing_judged paragraph.now).seen.fields }
{
    is_installed(status_body(paragraph)) && has_member_fields(paragraph)
}

/// Returns whether a paragraph has a version and an architecture.
fn has_member_fields(paragraph: &CheckedView<'_>) -> bool
    ensures { result ≡ has_member_fields (passing_judged paragraph.now).seen.fields }
{
    has_field(paragraph, b"Version") && has_field(paragraph, b"Architecture")
}

/// Returns whether a paragraph has a field with this name, without ASCII case.
fn has_field(paragraph: &CheckedView<'_>, name: &[u8]) -> bool
    ensures { result
        ≡ is_some (field_named name.now (passing_judged paragraph.now).seen.fields) }
{
    match paragraph.get(name) {
        Some(_) => true,
        None => false,
    }
}

/// The body of Status as the file has it; empty if there is no such field.
fn status_body<'a>(paragraph: &CheckedView<'a>) -> &'a [u8]
    ensures { result.now ≡ body_or_nothing
        (field_named (codes "Status") (passing_judged paragraph.now).seen.fields) }
{
    match paragraph.get(b"Status") {
        Some(field) => field.body,
        None => b"",
    }
}

/// Returns whether the text of Status says that the package is installed.
fn is_installed(text: &[u8]) -> bool
    ensures { result ≡ is_installed text.now }
{
    match status_in(text) {
        Some(status) => status == b"installed".as_slice(),
        None => false,
    }
}

/// Returns the status in the text of Status (dpkg(1)): the last of its three words, or `None` if
/// there are fewer words or more.
pub fn status_in(text: &[u8]) -> Option<&[u8]>
    ensures { option_map (λ status. status.now) result ≡ status_in text.now }
{
    let mut words = Folded::new(text).words();
    if words.next().is_none() || words.next().is_none() {
        return None;
    }
    let status = words.next()?;
    match words.next() {
        Some(_) => None,
        None => Some(status),
    }
}
