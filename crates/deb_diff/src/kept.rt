//! Paragraphs that are kept until both files have been read.

ghost use Rattle.std.specs.Prelude.{◌≡◌, ◌++◌, drop, length, take, IfOk};
ghost use Rattle.std.specs.Option.{option_map};
ghost use Rattle.deb_control.specs.FieldWords.{value_under, word_in, word_under};
ghost use Rattle.deb_control.specs.ValueFiles.{ValueEntries};
ghost use Rattle.deb_field.specs.ValueMeanings.{value_meaning};
ghost use Rattle.deb_field.specs.Values.{ValueMeaning};
ghost use Rattle.deb_diff.specs.Items.{architecture_of, item_of};
ghost use Rattle.deb_diff.specs.Kepts.{HasValues, IsKept, after_name, after_version, architecture_in, fields_in, marked, name_in, printed_in, spelling_in, unmarked, version_in};
ghost use Rattle.deb_diff.specs.Spelled.{spelled_in};

use crate::kind::Kind;
use deb_base::VersionText;
use deb_control::CheckedText;
use deb_field::Value;
use deb_version::CanonicalVersion;
use std::alloc::{AllocError, Global};

/// A paragraph: its number in its file, counted from 1, its words, and its canonical text. Its
/// words are its package or source, its canonical version, a space and the version as the file
/// spells it if that is another text, and its architecture. They follow one another, since a vector
/// for each would take a tenth of a usual paragraph's memory.
#[derive(Drop)]
pub(crate) struct Kept {
    pub(crate) number: u64,
    name_len: u32,
    spelled_len: u32,
    version_len: usize,
    words: Vec<u8>,
    pub(crate) text: Vec<u8>,
}

impl Kept {
    /// Returns the package or source.
    pub(crate) fn name(&self) -> &[u8]
        ensures { result.now ≡ name_in self.now }
    {
        first_bytes(&self.words, self.name_len as usize)
    }

    /// Returns the canonical version.
    pub(crate) fn version(&self) -> &[u8]
        ensures { result.now ≡ version_in self.now }
    {
        first_bytes(self.words_after_name(), self.version_len)
    }

    /// Returns the version as the file spells it.
    fn spelled(&self) -> &[u8]
        ensures { result.now ≡ spelling_in self.now }
    {
        unmarked(
            self.version(),
            first_bytes(self.words_after_version(), self.spelled_len as usize),
        )
    }

    /// Returns one of the two texts of the version.
    pub(crate) fn printed(&self, versions: VersionText) -> &[u8]
        ensures { result.now ≡ printed_in versions self.now }
    {
        match versions {
            VersionText::Canonical => self.version(),
            VersionText::Spelled => self.spelled(),
        }
    }

    /// Returns the architecture.
    pub(crate) fn architecture(&self) -> &[u8]
        ensures { result.now ≡ architecture_in self.now }
    {
        other_bytes(self.words_after_version(), self.spelled_len as usize)
    }

    fn words_after_name(&self) -> &[u8]
        ensures { result.now ≡ after_name self.now }
    {
        other_bytes(&self.words, self.name_len as usize)
    }

    fn words_after_version(&self) -> &[u8]
        ensures { result.now ≡ after_version self.now }
    {
        other_bytes(self.words_after_name(), self.version_len)
    }
}

/// Returns the version as the file spells it: the canonical one if nothing is marked, and else what
/// follows the mark.
fn unmarked<'a>(version: &'a [u8], marked: &'a [u8]) -> &'a [u8]
    ensures { result.now ≡ unmarked version.now marked.now }
{
    if marked.is_empty() {
        version
    } else {
        other_bytes(marked, 1)
    }
}

/// Returns the first bytes of a text, at most so many.
fn first_bytes(text: &[u8], count: usize) -> &[u8]
    ensures { result.now ≡ take count text.now }
{
    if count < text.len() {
        &text[..count]
    } else {
        text
    }
}

/// Returns all but the first bytes of a text.
fn other_bytes(text: &[u8], count: usize) -> &[u8]
    ensures { result.now ≡ drop count text.now }
{
    if count < text.len() {
        &text[count..]
    } else {
        b""
    }
}

/// Keeps a paragraph.
pub(crate) fn keep(
    alloc: Global,
    kind: Kind,
    number: u64,
    paragraph: &CheckedText<'_>,
) -> Result<Kept, AllocError>
    ensures { (values : ValueEntries ValueMeaning) → HasValues paragraph.now values
        → IfOk result
        (λ kept. IsKept kept (item_of kind number (fields_in paragraph.now) values)) }
{
    let name = word(alloc, kind.name_field(), paragraph)?;
    let version = word(alloc, b"Version", paragraph)?;
    let architecture = architecture_of(alloc, kind, paragraph)?;
    let marked = marked_spelling(alloc, &version, paragraph)?;
    let words = joined(alloc, &name, &version, &marked, &architecture)?;
    let name_len = short_len(&name)?;
    let spelled_len = short_len(&marked)?;
    let text = Vec::from_slice(alloc, paragraph.canonical_text())?;
    Ok(Kept {
        number,
        name_len,
        spelled_len,
        version_len: version.len(),
        words,
        text,
    })
}

/// Returns the length of a text, or an error if a `u32` can't hold it. The words of a paragraph are
/// far shorter.
fn short_len(text: &[u8]) -> Result<u32, AllocError>
    ensures { IfOk result (λ len. len ≡ length text.now) }
{
    u32::try_from(text.len()).map_err(|_| AllocError)
}

/// Returns nothing if the file spells the version by this canonical text, and else a space and the
/// text by which it does.
fn marked_spelling(
    alloc: Global,
    version: &[u8],
    paragraph: &CheckedText<'_>,
) -> Result<Vec<u8>, AllocError>
    ensures { IfOk result
        (λ made. made.items ≡ marked version.now (spelled_in (fields_in paragraph.now))) }
{
    let mut made = Vec::new(alloc);
    let spelled = spelled_in(paragraph);
    if *version != *spelled {
        made.push(b' ')?;
        made.extend_from_slice(spelled)?;
    }
    Ok(made)
}

/// Returns the text by which the file spells the version.
fn spelled_in<'a>(paragraph: &CheckedText<'a>) -> &'a [u8]
    ensures { result.now ≡ spelled_in (fields_in paragraph.now) }
{
    match paragraph.get(b"Version") {
        Some(field) => field.body,
        None => b"",
    }
}

/// Returns four texts, one after another.
fn joined(
    alloc: Global,
    one: &[u8],
    two: &[u8],
    three: &[u8],
    four: &[u8],
) -> Result<Vec<u8>, AllocError>
    ensures { IfOk result
        (λ made. made.items ≡ one.now ++ (two.now ++ (three.now ++ four.now))) }
{
    let count = one
        .len()
        .saturating_add(two.len())
        .saturating_add(three.len())
        .saturating_add(four.len());
    let mut made = Vec::with_capacity(alloc, count)?;
    made.extend_from_slice(one)?;
    made.extend_from_slice(two)?;
    made.extend_from_slice(three)?;
    made.extend_from_slice(four)?;
    Ok(made)
}

/// Returns the architecture of a binary package, and `source` for a source package.
fn architecture_of(
    alloc: Global,
    kind: Kind,
    paragraph: &CheckedText<'_>,
) -> Result<Vec<u8>, AllocError>
    ensures { (values : ValueEntries ValueMeaning) → HasValues paragraph.now values
        → IfOk result (λ made. made.items ≡ architecture_of kind values) }
{
    if kind.is_binary() {
        word(alloc, b"Architecture", paragraph)
    } else {
        Vec::from_slice(alloc, b"source")
    }
}

/// Returns the name, the version or the architecture in a field.
fn word(alloc: Global, name: &[u8], paragraph: &CheckedText<'_>) -> Result<Vec<u8>, AllocError>
    ensures { (values : ValueEntries ValueMeaning) → HasValues paragraph.now values
        → IfOk result (λ made. made.items ≡ word_under name.now values) }
{
    match value_of(alloc, paragraph, name)? {
        Some(value) => word_in(alloc, &value),
        None => Ok(Vec::new(alloc)),
    }
}

fn word_in(alloc: Global, value: &Value<'_>) -> Result<Vec<u8>, AllocError>
    ensures { IfOk result (λ made. made.items ≡ word_in (value_meaning value.now)) }
{
    match value {
        Value::Name(name) => Vec::from_slice(alloc, name.bytes()),
        Value::Source(source) => Vec::from_slice(alloc, source.name()),
        Value::Version(version) => {
            let kept = CanonicalVersion::of(alloc, version)?;
            Vec::from_slice(alloc, kept.text())
        }
        Value::Architecture(name) => Vec::from_slice(alloc, name.bytes()),
        _ => Ok(Vec::new(alloc)),
    }
}

/// Returns the value of a field, without ASCII case.
fn value_of<'a>(
    alloc: Global,
    paragraph: &CheckedText<'a>,
    name: &[u8],
) -> Result<Option<Value<'a>>, AllocError>
    ensures { (values : ValueEntries ValueMeaning) → HasValues paragraph.now values
        → IfOk result (λ value. option_map value_meaning value ≡ value_under name.now values) }
{
    paragraph.value(alloc, name)
}
