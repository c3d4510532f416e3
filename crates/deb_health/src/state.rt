//! The line of a package of a status file that is neither installed nor removed.

ghost use Rattle.std.specs.Prelude.{◌≡◌, IfOk, codes};
ghost use Rattle.deb_control.specs.ValueFiles.{ValueEntries};
ghost use Rattle.deb_field.specs.Values.{ValueMeaning};
ghost use Rattle.deb_index.specs.VersionSpellings.{body_or_nothing};
ghost use Rattle.deb_syntax.specs.Raw.{field_named};
ghost use Rattle.deb_unmet.specs.Paragraphs.{fields_in};
ghost use Rattle.deb_unmet.specs.Parts.{GivesValues};
ghost use Rattle.deb_health.specs.States.{is_removed, or_hyphen, state_text, status_or_hyphen};

use deb_base::rows::{ARCHITECTURE, PACKAGE, VERSION};
use deb_control::{CheckedView, FieldTexts};
use deb_index::status_in;
use deb_unmet::append_spaced;
use std::alloc::{AllocError, Global};

/// Returns what the line of a paragraph that isn't a member has after its number; nothing if its
/// package is removed.
pub(crate) fn state_text(
    alloc: Global,
    paragraph: &CheckedView<'_>,
    texts: &FieldTexts,
) -> Result<Vec<u8>, AllocError>
    ensures { (values : ValueEntries ValueMeaning) → GivesValues paragraph.now texts.now values
        → IfOk result (λ text. text.items ≡ state_text values) }
{
    let mut text = Vec::new(alloc);
    let status = status_word(paragraph);
    if is_removed(status) {
        return Ok(text);
    }
    append_spaced(&mut text, texts.word(PACKAGE))?;
    append_spaced(&mut text, or_hyphen(texts.word(VERSION)))?;
    append_spaced(&mut text, or_hyphen(texts.word(ARCHITECTURE)))?;
    append_spaced(&mut text, status)?;
    text.push(b'\n')?;
    Ok(text)
}

/// The status in the text of Status, or a hyphen if that hasn't three words.
fn status_word<'a>(paragraph: &CheckedView<'a>) -> &'a [u8]
    ensures { result.now ≡ status_or_hyphen
        (body_or_nothing (field_named (codes "Status") (fields_in paragraph.now))) }
{
    let Some(field) = paragraph.get(b"Status") else {
        return b"-";
    };
    match status_in(field.body) {
        Some(status) => status,
        None => b"-",
    }
}

/// Returns whether nothing of a package with this status is left but perhaps its configuration.
fn is_removed(status: &[u8]) -> bool
    ensures { result ≡ is_removed status.now }
{
    status == b"not-installed".as_slice() || status == b"config-files".as_slice()
}

/// Returns a word, or a hyphen for none.
fn or_hyphen(word: &[u8]) -> &[u8]
    ensures { result.now ≡ or_hyphen word.now }
{
    if word.is_empty() { b"-" } else { word }
}
