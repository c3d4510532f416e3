//! The line of JSON of a paragraph (RFC 8259).

ghost use Rattle.std.specs.Prelude.{◌≡◌, ◌++◌, ◌∷◌, ◌==◌, if◌then◌else◌, [], cond, nat_le};
ghost use Rattle.std.specs.Prelude.{IfOk, OnOk, Some, None, flat_map};
ghost use Rattle.std.specs.Option.{option_map};
ghost use Rattle.std.specs.Char.{to_ascii_lowercase, to_ascii_uppercase};
ghost use Rattle.deb_base.specs.Names.{canonical_name};
ghost use Rattle.deb_control.specs.CheckedStates.{doc_judged, passing_judged};
ghost use Rattle.deb_control.specs.Paragraphs.{value_in, values_in, AreValuesOf};
ghost use Rattle.deb_control.specs.ValueFiles.{ValueEntries};
ghost use Rattle.deb_field.specs.Shown.{number_value};
ghost use Rattle.deb_field.specs.SourceNames.{source_meaning};
ghost use Rattle.deb_field.specs.ValueMeanings.{value_meaning};
ghost use Rattle.deb_field.specs.Values.{ValueMeaning};
ghost use Rattle.deb_version.specs.Canonical.{version_text};
ghost use Rattle.deb_version.specs.Parts.{value_of};
ghost use Rattle.deb_version.specs.Version.{meaning_of};
ghost use Rattle.json.specs.Token.{key, string};
ghost use Rattle.deb_relation.specs.Views.{names_of};
ghost use Rattle.deb_select.specs.FieldBodies.{body_named};
ghost use Rattle.deb_select.specs.JsonLines.{most_exact};
ghost use Rattle.deb_select.specs.JsonTokens.{entry_tokens, json_line, number_tokens};
ghost use Rattle.deb_select.specs.JsonTokens.{paragraph_tokens, source_tokens, spelled_tokens};
ghost use Rattle.deb_select.specs.JsonTokens.{strings_tokens, text_tokens, value_tokens};
ghost use Rattle.deb_select.specs.JsonTokens.{version_member};

use crate::json_relation::put_relation;
use deb_control::{CheckedView, TypedField};
use deb_field::{Number, SourceName, Value};
use deb_version::Version;
use json::Writer;
use simdutf8::basic::from_utf8;
use std::alloc::{AllocError, Global};

/// The greatest number that each reader of JSON reads as it is: 2^53.
const MOST_EXACT: u64 = 9_007_199_254_740_992;

/// How many bytes most versions have at most.
const VERSION_ROOM: usize = 32;

/// Returns the line of JSON of a paragraph, with its newline. Takes room for so many bytes at
/// first.
///
/// # Errors
///
/// Out of memory.
pub(crate) fn json_line(
    alloc: Global,
    room: usize,
    paragraph: &CheckedView<'_>,
) -> Result<Vec<u8>, AllocError>
    ensures { (values : ValueEntries ValueMeaning)
        → AreValuesOf (doc_judged paragraph.now) (passing_judged paragraph.now).seen values
        → IfOk result
        (λ line. line.items ≡ json_line (passing_judged paragraph.now).seen.first
        (passing_judged paragraph.now).seen.fields values) }
{
    let fields = paragraph.typed_fields(alloc)?;
    let mut out = Writer::new(Vec::with_capacity(alloc, room)?);
    put_fields_of(alloc, &mut out, paragraph, &fields)?;
    let mut line = out.into_inner();
    line.push(b'\n')?;
    Ok(line)
}

/// Writes the object of a paragraph with these fields: the number of its first line, and them.
fn put_fields_of(
    alloc: Global,
    out: &mut Writer,
    paragraph: &CheckedView<'_>,
    fields: &[TypedField<'_>],
) -> Result<(), AllocError>
    ensures tokens { OnOk result (out.new.tokens ≡ out.old.tokens
        ++ paragraph_tokens (passing_judged paragraph.now).seen.first
        (passing_judged paragraph.now).seen.fields (values_in fields.now)) }
    ensures before { OnOk result (out.new.before ≡ out.old.before) }
{
    out.begin_object()?;
    out.key("line")?;
    out.u64(paragraph.first_line())?;
    out.key("fields")?;
    out.begin_object()?;
    put_fields(alloc, out, paragraph, fields)?;
    out.end_object()?;
    out.end_object()
}

/// Writes fields of a paragraph as members.
fn put_fields(
    alloc: Global,
    out: &mut Writer,
    paragraph: &CheckedView<'_>,
    fields: &[TypedField<'_>],
) -> Result<(), AllocError>
    ensures tokens { OnOk result (out.new.tokens ≡ out.old.tokens
        ++ flat_map (entry_tokens (passing_judged paragraph.now).seen.fields)
        (values_in fields.now)) }
    ensures before { OnOk result (out.new.before ≡ out.old.before) }
{
    for field in fields {
        put_field(alloc, out, paragraph, field)?;
    }
    Ok(())
}

/// Writes a field of a paragraph as a member.
fn put_field(
    alloc: Global,
    out: &mut Writer,
    paragraph: &CheckedView<'_>,
    field: &TypedField<'_>,
) -> Result<(), AllocError>
    ensures tokens { OnOk result (out.new.tokens ≡ out.old.tokens
        ++ entry_tokens (passing_judged paragraph.now).seen.fields (value_in field.now)) }
    ensures before { OnOk result (out.new.before ≡ out.old.before) }
{
    match field.raw.id.canonical_name() {
        Some(name) => put_member(alloc, out, paragraph, name, &field.value),
        None => {
            let name = canonical_name(alloc, field.raw.name)?;
            put_member(alloc, out, paragraph, name.as_slice(), &field.value)
        }
    }
}

/// Writes the value of the field with this canonical name of a paragraph as a member.
fn put_member(
    alloc: Global,
    out: &mut Writer,
    paragraph: &CheckedView<'_>,
    name: &[u8],
    value: &Value<'_>,
) -> Result<(), AllocError>
    ensures tokens { OnOk result (out.new.tokens ≡ out.old.tokens
        ++ entry_tokens (passing_judged paragraph.now).seen.fields
        (name.now, value_meaning value.now)) }
    ensures before { OnOk result (out.new.before ≡ out.old.before) }
{
    put_key(out, name)?;
    put_value(alloc, out, paragraph, name, value)
}

/// Writes the value of the field with this name of a paragraph, in the form that its kind has in
/// JSON.
fn put_value(
    alloc: Global,
    out: &mut Writer,
    paragraph: &CheckedView<'_>,
    name: &[u8],
    value: &Value<'_>,
) -> Result<(), AllocError>
    ensures tokens { OnOk result (out.new.tokens ≡ out.old.tokens
        ++ value_tokens (body_named name.now (passing_judged paragraph.now).seen.fields)
        (value_meaning value.now)) }
    ensures before { OnOk result (out.new.before ≡ out.old.before) }
{
    match value {
        Value::Name(name) => put_text(out, name.bytes()),
        Value::Source(source) => put_source(alloc, out, source),
        Value::Version(version) => put_spelled(alloc, out, version, body_named(paragraph, name)),
        Value::Architecture(name) => put_text(out, name.bytes()),
        Value::ArchitectureWords(names) => {
            let words: Vec<&[u8]> = names.names().collect(alloc)?;
            put_strings(out, words.as_slice())
        }
        Value::Flag(flag) => put_text(out, flag.word()),
        Value::MultiArch(word) => put_text(out, word.word()),
        Value::Number(number) => put_number(out, number),
        Value::Line(line) => put_text(out, line.bytes()),
        Value::Folded(folded) => {
            let words: Vec<&[u8]> = folded.words().collect(alloc)?;
            put_strings(out, words.as_slice())
        }
        Value::Relation(field) => put_relation(alloc, out, field),
        Value::Text(text) => put_text(out, text.bytes()),
    }
}

/// Returns the body of the field with this name as it is in the file, or nothing if there is no
/// such field.
fn body_named<'a>(paragraph: &CheckedView<'a>, name: &[u8]) -> &'a [u8]
    ensures { result.now ≡ body_named name.now (passing_judged paragraph.now).seen.fields }
{
    match paragraph.get(name) {
        Some(field) => field.body,
        None => b"",
    }
}

/// Writes the object of a version: its canonical text, and the body that spells it.
fn put_spelled(
    alloc: Global,
    out: &mut Writer,
    version: &Version<'_>,
    body: &[u8],
) -> Result<(), AllocError>
    ensures tokens { OnOk result (out.new.tokens ≡ out.old.tokens
        ++ spelled_tokens body.now (meaning_of version.now)) }
    ensures before { OnOk result (out.new.before ≡ out.old.before) }
{
    out.begin_object()?;
    out.key("canonical")?;
    put_version(alloc, out, version)?;
    out.key("spelled")?;
    put_text(out, body)?;
    out.end_object()
}

/// Writes the name of a source package, and the version if there is one.
fn put_source(alloc: Global, out: &mut Writer, source: &SourceName<'_>) -> Result<(), AllocError>
    ensures tokens { OnOk result (out.new.tokens ≡ out.old.tokens
        ++ source_tokens (source_meaning source.now)) }
    ensures before { OnOk result (out.new.before ≡ out.old.before) }
{
    out.begin_object()?;
    out.key("name")?;
    put_text(out, source.name())?;
    put_version_member(alloc, out, source.version())?;
    out.end_object()
}

/// Writes the version as a member, if there is one.
fn put_version_member(
    alloc: Global,
    out: &mut Writer,
    version: Option<Version<'_>>,
) -> Result<(), AllocError>
    ensures tokens { OnOk result (out.new.tokens ≡ out.old.tokens
        ++ version_member (option_map meaning_of version.entry)) }
    ensures before { OnOk result (out.new.before ≡ out.old.before) }
{
    if let Some(version) = version {
        out.key("version")?;
        put_version(alloc, out, &version)?;
    }
    Ok(())
}

/// Writes the canonical text of a version as a string.
pub(crate) fn put_version(
    alloc: Global,
    out: &mut Writer,
    version: &Version<'_>,
) -> Result<(), AllocError>
    ensures tokens { OnOk result (out.new.tokens ≡ out.old.tokens
        ++ text_tokens (version_text (meaning_of version.now))) }
    ensures before { OnOk result (out.new.before ≡ out.old.before) }
{
    let mut text = Vec::with_capacity(alloc, VERSION_ROOM)?;
    version.canon_into(&mut text)?;
    put_text(out, text.as_slice())
}

/// Writes a number, or its digits as a string if it is greater than 2^53.
fn put_number(out: &mut Writer, number: &Number<'_>) -> Result<(), AllocError>
    ensures tokens { OnOk result (out.new.tokens ≡ out.old.tokens
        ++ number_tokens (number_value number.now)) }
    ensures before { OnOk result (out.new.before ≡ out.old.before) }
{
    let digits = number.digits();
    match exact_number(digits) {
        Some(n) => out.u64(n),
        None => put_text(out, digits),
    }
}

/// Returns the number that digits are, or `None` if it is greater than 2^53.
fn exact_number(digits: &[u8]) -> Option<u64>
    ensures { result ≡ cond (nat_le (value_of digits.now) most_exact) (Some (value_of digits.now))
        None }
{
    let mut value: u64 = 0;
    for digit in digits {
        value = 10 * value + u64::from(digit.saturating_sub(b'0'));
        if value > MOST_EXACT {
            return None;
        }
    }
    Some(value)
}

/// Writes texts as an array of strings.
pub(crate) fn put_strings(out: &mut Writer, texts: &[&[u8]]) -> Result<(), AllocError>
    ensures tokens { OnOk result (out.new.tokens ≡ out.old.tokens
        ++ strings_tokens (names_of texts.now)) }
    ensures before { OnOk result (out.new.before ≡ out.old.before) }
{
    out.begin_array()?;
    put_texts(out, texts)?;
    out.end_array()
}

/// Writes texts as strings.
fn put_texts(out: &mut Writer, texts: &[&[u8]]) -> Result<(), AllocError>
    ensures tokens { OnOk result (out.new.tokens ≡ out.old.tokens
        ++ flat_map text_tokens (names_of texts.now)) }
    ensures before { OnOk result (out.new.before ≡ out.old.before) }
{
    for text in texts {
        put_text(out, *text)?;
    }
    Ok(())
}

/// Writes a text as a string. Each text of a file that is read is UTF-8; of another this says that
/// memory is out.
pub(crate) fn put_text(out: &mut Writer, text: &[u8]) -> Result<(), AllocError>
    ensures tokens { OnOk result (out.new.tokens ≡ out.old.tokens ++ string text.now ∷ []) }
    ensures before { OnOk result (out.new.before ≡ out.old.before) }
{
    match from_utf8(text) {
        Ok(text) => out.string(text),
        Err(_) => Err(AllocError),
    }
}

/// Writes a text as a key, as `put_text` does.
fn put_key(out: &mut Writer, text: &[u8]) -> Result<(), AllocError>
    ensures tokens { OnOk result (out.new.tokens ≡ out.old.tokens ++ key text.now ∷ []) }
    ensures before { OnOk result (out.new.before ≡ out.old.before) }
{
    match from_utf8(text) {
        Ok(text) => out.key(text),
        Err(_) => Err(AllocError),
    }
}

/// Returns the canonical spelling of a field's name: each letter that is first or follows a hyphen
/// in upper case, the others in lower case.
fn canonical_name(alloc: Global, name: &[u8]) -> Result<Vec<u8>, AllocError>
    ensures { IfOk result (λ text. text.items ≡ canonical_name name.now) }
{
    let mut text = Vec::with_capacity(alloc, name.len())?;
    let mut before = b'-';
    for byte in name {
        text.push(canonical_byte(before, *byte))?;
        before = *byte;
    }
    Ok(text)
}

/// Returns a byte of a name as the canonical spelling has it after the byte `before`. A name's
/// first byte is spelled as one after a hyphen.
fn canonical_byte(before: u8, byte: u8) -> u8
    ensures { result
        ≡ (if before == 45 then to_ascii_uppercase byte else to_ascii_lowercase byte) }
{
    if before == b'-' {
        byte.to_ascii_uppercase()
    } else {
        byte.to_ascii_lowercase()
    }
}
