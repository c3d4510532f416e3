//! Checks the bytes of one paragraph, and finds its fields.

ghost use Rattle.std.specs.Prelude.{◌≡◌, ℕ, false, ◌+◌, ◌-◌, ◌^◌, ◌<◌, ◌≤◌, List, [], ◌∷◌, ◌++◌, length, take, drop, slice_index, slice_range, if◌then◌else◌, ◌↔◌, IsTrue, IsFalse, IsUtf8, Some, IfSome, IfNone, IfOk, IfErr, OnOk};
ghost use Rattle.std.specs.List.{list_all, prefix_len};
ghost use Rattle.memchr.specs.Find.{IsFirstByte, is_byte};
ghost use Rattle.deb_base.specs.FieldNames.{colon, is_name, is_name_byte};
ghost use Rattle.deb_base.specs.Kinds.{known_row};
ghost use Rattle.deb_base.specs.KnownFields.{row_of, IsAtFront};
ghost use Rattle.deb_base.specs.Bodies.{newline, pieces_of};
ghost use Rattle.deb_syntax.specs.Fields.{Field, has_name};
ghost use Rattle.deb_syntax.specs.LineEnds.{piece_ends};
ghost use Rattle.deb_syntax.specs.Judging.{begins_comment, is_named, field_line, judged, line_judged};
ghost use Rattle.deb_syntax.specs.FieldSpans.{begun_fields, fields_at, lies_within, LastGoesOn, StandsAt, IsFaultOf};

use crate::field_name::{is_name, name_bytes};
use crate::field_span::FieldSpan;
use crate::seen_names::{Names, add};
use deb_base::{Code, Fault, FieldId, NameAtFront, Refusal, begins_with_blank};
use memchr::memchr;
use simdutf8::is_utf8;
use std::alloc::Global;

/// How the first line of an armoured message or signature begins.
const ARMOUR: &[u8] = b"-----BEGIN PGP";

/// A line of the text.
#[derive(Clone, Copy)]
struct Line {
    /// Its number.
    number: u64,
    /// Where it begins.
    start: usize,
    /// Where it ends, without its newline.
    end: usize,
}

/// Finds where the fields of a paragraph are, or the first refusal of one of its lines (Debian
/// Policy 5.1; deb822(5), "Syntax").
///
/// `text` is the paragraph's lines with a newline between two of them, `ends` is where each of them
/// ends in it, and `first_line` is the number of the first. After Ok `spans` holds the spans of
/// the fields in the text, and no others; after an error it may hold anything.
///
/// Refused: a line isn't UTF-8 (`NotUtf8`), begins an armoured message (`Armour`) or a comment
/// (`Comment`), is a continuation line without a field above it (`StrayContinuation`), has no colon
/// (`NoColon`), or no name before its colon (`BadFieldName`) or one that stood before
/// (`DuplicateField`). Memory: a growth of `spans`, or of the set of names, was refused.
#[tactic(auto, using(crate::proofs::Judgements::judging))]
pub(crate) fn judge(
    alloc: Global,
    text: &[u8],
    ends: &[u32],
    first_line: u64,
    spans: &mut Vec<FieldSpan>,
) -> Result<(), Fault>
    requires ends { ends.now ≡ piece_ends text.now }
    requires small { length text.now < 2 ^ 32 }
    requires lines { first_line + length ends.now ≤ 2 ^ 32 }
    ensures ok { OnOk result
        (judged first_line (pieces_of text.now) ≡ Ok (fields_at text.now spans.new.items)) }
    ensures within { OnOk result (IsTrue (list_all (lies_within text.now)
        spans.new.items)) }
    ensures fault { IfErr result (IsFaultOf (judged first_line (pieces_of text.now))) }
{
    spans.clear();
    let checked = utf8_front(text);
    let mut names = Names::new(alloc);
    let mut number = first_line;
    let mut start = 0;
    for end in ends {
        let end = *end as usize;
        let line = Line { number, start, end };
        if !is_line_utf8(text, line, checked) {
            return Err(refused(Code::NotUtf8, line));
        }
        judge_line(text, line, spans, &mut names)?;
        start = end + 1;
        number += 1;
    }
    Ok(())
}

/// Checks the whole text at once: returns its length if it is UTF-8, and else 0.
fn utf8_front(text: &[u8]) -> usize
    ensures { 0 < result → IsUtf8 text.now }
{
    if is_utf8(text) { text.len() } else { 0 }
}

/// Whether a line is UTF-8. A line within the first `checked` bytes isn't checked again.
fn is_line_utf8(text: &[u8], line: Line, checked: usize) -> bool
    requires after { line.start ≤ line.end }
    requires within { line.end ≤ length text.now }
    requires known { line.end ≤ checked → IsUtf8 (slice_range text.now line.start line.end) }
    ensures { IsTrue result ↔ IsUtf8 (slice_range text.now line.start line.end) }
{
    line.end <= checked || is_utf8(&text[line.start..line.end])
}

/// Judges one line, which is UTF-8, after the lines before it.
#[tactic(auto, using(crate::proofs::Judgements::judging, crate::proofs::FieldSpanLemmas::going_on))]
fn judge_line<'a>(
    text: &'a [u8],
    line: Line,
    spans: &mut Vec<FieldSpan>,
    names: &mut Names<'a>,
) -> Result<(), Fault>
    requires after { line.start ≤ line.end }
    requires within { line.end ≤ length text.now }
    requires newline { 0 < line.start → slice_index text.now (line.start - 1) ≡ newline }
    requires stands { StandsAt text.now line.start spans.old.items names.old }
    requires utf8 { IsUtf8 (slice_range text.now line.start line.end) }
    requires small { length text.now < 2 ^ 32 }
    requires number { line.number < 2 ^ 32 }
    ensures ok { let content = slice_range text.now line.start line.end in
        OnOk result (line_judged line.number (begun_fields text.now spans.old.items) content
        ≡ Ok (begun_fields text.now spans.new.items)) }
    ensures stands { OnOk result (StandsAt text.now (line.end + 1) spans.new.items names.new) }
    ensures fault { let content = slice_range text.now line.start line.end in
        IfErr result (IsFaultOf
        (line_judged line.number (begun_fields text.now spans.old.items) content)) }
{
    if begins_with_blank(&text[line.start..line.end]) {
        continue_field(line, spans)
    } else {
        begin_field(text, line, spans, names)
    }
}

/// The refusal of a line.
fn refused(code: Code, line: Line) -> Fault
    ensures { result ≡ Fault.Refused (record { code = code; line = line.number }) }
{
    Fault::Refused(Refusal {
        code,
        line: line.number,
    })
}

/// Gives a continuation line to the last field.
#[tactic(auto, using(crate::proofs::FieldSpanLemmas::going_on))]
fn continue_field(line: Line, spans: &mut Vec<FieldSpan>) -> Result<(), Fault>
    requires { line.end < 2 ^ 32 }
    ensures ok { OnOk result (LastGoesOn line.end spans.old.items spans.new.items) }
    ensures stray { IfErr result (λ fault. (spans.old.items ≡ [])
        × (fault ≡ Fault.Refused (record { code = Code.StrayContinuation; line = line.number }))) }
{
    let count = spans.len();
    if count == 0 {
        return Err(refused(Code::StrayContinuation, line));
    }
    spans[count - 1].end = line.end as u32;
    Ok(())
}

/// Begins the field of a line that is no continuation line.
#[tactic(auto, using(crate::proofs::FieldLines::beginning))]
fn begin_field<'a>(
    text: &'a [u8],
    line: Line,
    spans: &mut Vec<FieldSpan>,
    names: &mut Names<'a>,
) -> Result<(), Fault>
    requires after { line.start ≤ line.end }
    requires within { line.end ≤ length text.now }
    requires stands { StandsAt text.now line.start spans.old.items names.old }
    requires small { length text.now < 2 ^ 32 }
    requires number { line.number < 2 ^ 32 }
    ensures ok { let content = slice_range text.now line.start line.end in
        OnOk result (field_line line.number (begun_fields text.now spans.old.items) content
        ≡ Ok (begun_fields text.now spans.new.items)) }
    ensures stands { OnOk result (StandsAt text.now (line.end + 1) spans.new.items names.new) }
    ensures fault { let content = slice_range text.now line.start line.end in
        IfErr result (IsFaultOf
        (field_line line.number (begun_fields text.now spans.old.items) content)) }
{
    let content = &text[line.start..line.end];
    let front = name_of(content, &text[line.start..], line)?;
    let name = &content[..front.len];
    if !add(names, text, spans.as_slice(), name, front.id)? {
        return Err(refused(Code::DuplicateField, line));
    }
    let span = FieldSpan {
        line: line.number as u32,
        start: line.start as u32,
        colon: (line.start + front.len) as u32,
        end: line.end as u32,
        id: front.id,
    };
    spans.push(span)?;
    Ok(())
}

/// The name in a line that begins a field, perhaps one that stood before. The line begins the rest
/// of the text.
#[tactic(auto, using(crate::proofs::FieldLines::naming))]
fn name_of(content: &[u8], rest: &[u8], line: Line) -> Result<NameAtFront, Fault>
    requires { content.now ≡ take (length content.now) rest.now }
    ensures within { IfOk result (λ front. front.len < length content.now) }
    ensures id { IfOk result (λ front. row_of front.id ≡ known_row (take front.len content.now)) }
    ensures ok { IfOk result (λ front. (fields : List Field) →
        let name = take front.len content.now in
        field_line line.number fields content.now ≡ (if has_name name fields
        then Err (record { code = Code.DuplicateField; line = line.number })
        else Ok (fields ++ record {
          name = name;
          line = line.number;
          body = drop (front.len + 1) content.now;
        } ∷ []))) }
    ensures refused { IfErr result (λ fault. (fields : List Field) →
        IsFaultOf (field_line line.number fields content.now) fault) }
{
    match name_at_front(content, rest) {
        Some(front) => Ok(front),
        None => Err(refused(no_name(content), line)),
    }
}

/// The name at the start of a line, if it is one and a colon follows it. The line begins the rest
/// of the text.
#[tactic(auto, using(crate::proofs::FieldLines::naming))]
fn name_at_front(content: &[u8], rest: &[u8]) -> Option<NameAtFront>
    requires { content.now ≡ take (length content.now) rest.now }
    ensures some { IfSome result (IsAtFront content.now) }
    ensures none { IfNone result
        (is_named content.now (prefix_len is_name_byte content.now) ≡ false) }
{
    match FieldId::near_front(rest) {
        Some(front) if front.len < content.len() => return Some(front),
        _ => {}
    }
    let known = FieldId::at_front(content);
    if known.is_some() {
        return known;
    }
    let len = name_bytes(content);
    if !is_named(content, len) {
        return None;
    }
    Some(NameAtFront {
        id: FieldId::of(&content[..len]),
        len,
    })
}

/// Whether the first bytes of a line, which are all the bytes of a name at its start, are a name
/// that a colon follows.
fn is_named(content: &[u8], len: usize) -> bool
    requires { IsTrue (list_all is_name_byte (take len content.now)) }
    ensures { result ≡ is_named content.now len }
{
    content.get(len) == Some(&b':') && is_name(content, len)
}

/// Why a line that begins no field is refused: the first reason in the order of the refusals.
#[cold]
#[tactic(auto, using(crate::proofs::FieldLines::naming))]
fn no_name(content: &[u8]) -> Code
    requires { (k : ℕ) → IsFirstByte (is_byte colon) content.now (Some k)
        → IsFalse (is_name (take k content.now)) }
    ensures { (n : ℕ) (fields : List Field) →
        field_line n fields content.now ≡ Err (record { code = result; line = n }) }
{
    if content.starts_with(ARMOUR) {
        return Code::Armour;
    }
    if begins_comment(content) {
        return Code::Comment;
    }
    match memchr(b':', content) {
        None => Code::NoColon,
        Some(_) => Code::BadFieldName,
    }
}

/// Whether the first byte is `#`.
fn begins_comment(line: &[u8]) -> bool
    ensures { result ≡ begins_comment line.now }
{
    matches!(line, [b'#', ..])
}
