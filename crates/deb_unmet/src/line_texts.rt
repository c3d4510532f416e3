//! The texts that the lines of a paragraph have of it.

ghost use Rattle.std.specs.Prelude.{◌≡◌, get_or, [], codes, true};
ghost use Rattle.std.specs.Option.{option_map};
ghost use Rattle.deb_control.specs.FieldTexts.{HasTexts};
ghost use Rattle.deb_control.specs.FieldWords.{value_under};
ghost use Rattle.deb_control.specs.ValueFiles.{ValueEntries};
ghost use Rattle.deb_field.specs.Values.{ValueMeaning};
ghost use Rattle.deb_field.specs.Words.{words_of};
ghost use Rattle.deb_relation.specs.Views.{names_of};
ghost use Rattle.deb_unmet.specs.Asked.{by_target, doc_of};
ghost use Rattle.deb_unmet.specs.Fields.{architecture_of};
ghost use Rattle.deb_unmet.specs.Paragraphs.{HasTextsOf, PassesWith, fields_in};
ghost use Rattle.deb_unmet.specs.Spelled.{spelled_in, version_word};
ghost use Rattle.deb_unmet.specs.Tried.{names_under};

use crate::asked::{Asked, Request};
use deb_base::VersionText;
use deb_base::rows::{ARCHITECTURE, VERSION};
use deb_control::{CheckedView, FieldTexts};

/// How many relations are asked at most.
const MOST_ASKED: usize = 3;

/// The texts that lines have of a paragraph.
#[derive(Clone, Copy)]
pub struct LineTexts<'a> {
    /// The name of its package.
    pub name: &'a [u8],
    /// The text of its version that is chosen.
    pub version: &'a [u8],
    /// The architecture of a binary package, and `source` for a source package.
    pub architecture: &'a [u8],
    /// The names in Architecture of a source package, with white space between them, if only those
    /// for the target are asked; `None` if there is no such field.
    pub built_for: Option<&'a [u8]>,
    /// The canonical texts of the relations that are asked, in their order; each is empty if there
    /// is no such relation.
    pub relations: [&'a [u8]; MOST_ASKED],
}

impl<'a> LineTexts<'a> {
    /// Those of a paragraph that was checked, of which these texts are kept.
    pub(crate) fn of(
        request: Request,
        paragraph: &CheckedView<'a>,
        texts: &'a FieldTexts,
    ) -> LineTexts<'a>
        ensures texts { (values : ValueEntries ValueMeaning) → HasTexts texts.now values
            → PassesWith (doc_of request.asked) paragraph.now values
            → HasTextsOf request.asked result values }
        ensures version { (values : ValueEntries ValueMeaning) → HasTexts texts.now values
            → result.version.now ≡ version_word request.versions (fields_in paragraph.now) values }
    {
        let rows = request.asked.rows();
        LineTexts {
            name: texts.word(request.asked.name_row()),
            version: version_of(request.versions, paragraph, texts),
            architecture: architecture_of(request.asked, texts),
            built_for: built_for(request.asked, paragraph),
            relations: [
                texts.relation(rows[0]),
                texts.relation(rows[1]),
                texts.relation(rows[2]),
            ],
        }
    }

    /// Returns the canonical text of the relation that is asked after so many; empty if there is
    /// none.
    pub(crate) fn relation(&self, row: usize) -> &'a [u8]
        ensures { result.now ≡ get_or (names_of self.now.relations) row [] }
    {
        if row < MOST_ASKED {
            self.relations[row]
        } else {
            b""
        }
    }
}

/// Returns the text of the version that the lines have.
fn version_of<'a>(
    versions: VersionText,
    paragraph: &CheckedView<'a>,
    texts: &'a FieldTexts,
) -> &'a [u8]
    ensures { (values : ValueEntries ValueMeaning) → HasTexts texts.now values
        → result.now ≡ version_word versions (fields_in paragraph.now) values }
{
    match versions {
        VersionText::Canonical => texts.word(VERSION),
        VersionText::Spelled => spelled_body(paragraph),
    }
}

/// Returns the text by which the file spells the version of a paragraph; empty if there is none.
pub(crate) fn spelled_body<'a>(paragraph: &CheckedView<'a>) -> &'a [u8]
    ensures { result.now ≡ spelled_in (fields_in paragraph.now) }
{
    match paragraph.get(b"Version") {
        Some(field) => field.body,
        None => b"",
    }
}

/// Returns the architecture of a binary package, and `source` for a source package.
fn architecture_of<'a>(asked: Asked, texts: &'a FieldTexts) -> &'a [u8]
    ensures { (values : ValueEntries ValueMeaning) → HasTexts texts.now values
        → result.now ≡ architecture_of asked values }
{
    if asked.is_binary() {
        texts.word(ARCHITECTURE)
    } else {
        b"source"
    }
}

/// Returns the text of Architecture of a source package, if only those for the target are asked.
fn built_for<'a>(asked: Asked, paragraph: &CheckedView<'a>) -> Option<&'a [u8]>
    ensures { (values : ValueEntries ValueMeaning)
        → PassesWith (doc_of asked) paragraph.now values → by_target asked ≡ true
        → option_map (λ text. words_of text.now) result
        ≡ names_under (value_under (codes "Architecture") values) }
{
    if !asked.by_target() {
        return None;
    }
    match paragraph.get(b"Architecture") {
        Some(field) => Some(field.body),
        None => None,
    }
}
