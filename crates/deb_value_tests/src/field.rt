//! Tests of values: one of each kind and a long one, with their canonical text.

use crate::appended::is_appended;
use deb_base::is_body;
use deb_field::*;
use std::alloc::Global;

/// A kind of document, a field and its body, and the canonical text of its value.
struct Row(Doc, &'static str, &'static str, &'static str);

const ROWS: [Row; 16] = [
    Row(Doc::Packages, "pACKAGE", "libstdc++6", "libstdc++6"),
    Row(Doc::Packages, "Source", "aa(1.)", "aa (1.0)"),
    Row(Doc::Packages, "Version", "0:1.00-0", "1.0"),
    Row(Doc::Binary, "Architecture", "linux-any", "linux-any"),
    Row(
        Doc::Source,
        "Architecture",
        "any \t all\n\ti386",
        "any all i386",
    ),
    Row(Doc::Binary, "Essential", "yes", "yes"),
    Row(Doc::Packages, "Multi-Arch", "foreign", "foreign"),
    Row(Doc::Packages, "Installed-Size", "007", "7"),
    Row(Doc::Packages, "Maintainer", "Aa  <a@b>", "Aa  <a@b>"),
    Row(Doc::Source, "Binary", "\n aa,\n\tbb", "aa, bb"),
    Row(Doc::Packages, "Depends", "bb|aa, aa,bb|aa", "aa, bb | aa"),
    Row(Doc::Packages, "Depends", ",", ""),
    Row(Doc::Packages, "Provides", "vv (= 01), ww", "vv (= 1), ww"),
    Row(Doc::Packages, "Description", "short  \n .", "short  \n ."),
    Row(Doc::Status, "Status", "install  ok", "install  ok"),
    Row(Doc::Status, "Architecture", "linux-any", "linux-any"),
];

/// Whether a body's value has this canonical text, after what is there; None where a call
/// fails.
fn has_text(alloc: Global, doc: Doc, name: &str, body: &[u8], canonical: &[u8]) -> Option<bool> {
    if !is_body(body) {
        return None;
    }
    let value = Value::parse(alloc, doc, name.as_bytes(), body).ok()?;
    is_text_of(alloc, &value, canonical)
}

fn is_text_of(alloc: Global, value: &Value<'_>, canonical: &[u8]) -> Option<bool> {
    let mut out = vec![in alloc; b'='; 2_000].ok()?;
    value.canon_into(&mut out).ok()?;
    Some(is_appended(&out, canonical, value.canon_len()))
}

#[test]
fn one_value_of_each_kind(rt: HostRuntime) {
    for Row(doc, name, body, canonical) in &ROWS {
        let is_right = has_text(
            rt.alloc(),
            *doc,
            name,
            body.as_bytes(),
            canonical.as_bytes(),
        );
        assert!(rt; is_right == Some(true), "{name}");
    }
}

/// A field, and the start, the piece that comes ten thousand times and the end of a body that is
/// its own canonical text.
struct Long(Doc, &'static str, &'static str, &'static str, &'static str);

const LONG: [Long; 11] = [
    Long(Doc::Packages, "Package", "a", "a", ""),
    Long(Doc::Packages, "Source", "a", "a", " (1)"),
    Long(Doc::Packages, "Source", "aa (", "1.", "1)"),
    Long(Doc::Packages, "Version", "1", ".1", "-1"),
    Long(Doc::Packages, "Architecture", "a", "a", ""),
    Long(Doc::Source, "Architecture", "any", " all", ""),
    Long(Doc::Packages, "Size", "1", "0", ""),
    Long(Doc::Packages, "Maintainer", "a", "  b", ""),
    Long(Doc::Packages, "Uploaders", "a", " b", ""),
    Long(Doc::Packages, "Depends", "aa", " | aa", ""),
    Long(Doc::Packages, "Description", "a", "\n  b \t", "\n c"),
];

/// The body of a row.
fn long_body(alloc: Global, row: &Long) -> Option<Vec<u8>> {
    let Long(_, _, front, piece, end) = row;
    let mut body = Vec::new(alloc);
    body.extend_from_slice(front.as_bytes()).ok()?;
    for _ in 0..10_000 {
        body.extend_from_slice(piece.as_bytes()).ok()?;
    }
    body.extend_from_slice(end.as_bytes()).ok()?;
    Some(body)
}

#[test]
fn long_values(rt: HostRuntime) {
    for row in &LONG {
        assert!(rt; is_long_value(rt.alloc(), row) == Some(true), "{}", row.1);
    }
}

fn is_long_value(alloc: Global, row: &Long) -> Option<bool> {
    let body = long_body(alloc, row)?;
    has_text(alloc, row.0, row.1, &body, &body)
}

/// The sort of a relationship field; None where the field is of another kind, or a call fails.
fn sort_of(alloc: Global, name: &str) -> Option<Relationship> {
    let body = b"aa";
    if !is_body(body) {
        return None;
    }
    let value = Value::parse(alloc, Doc::Packages, name.as_bytes(), body).ok()?;
    match &value {
        Value::Relation(field) => Some(field.relationship()),
        _ => None,
    }
}

#[test]
fn sorts_of_relationships(rt: HostRuntime) {
    for (name, wanted) in [
        ("Depends", Relationship::Depends),
        ("Conflicts", Relationship::Conflicts),
        ("Provides", Relationship::Provides),
    ] {
        assert!(rt; sort_of(rt.alloc(), name) == Some(wanted), "{name}");
    }
}

/// What follows a text where it is there, else all bytes; None where it should be there and
/// isn't.
fn behind<'a>(bytes: &'a [u8], text: &[u8], is_there: bool) -> Option<&'a [u8]> {
    if !is_there {
        return Some(bytes);
    }
    if bytes.get(..text.len())? != text {
        return None;
    }
    bytes.get(text.len()..)
}

/// Appends the canonical text twice to a list without room. Whether the list then has what each
/// call appended, and nothing of a call that had no memory.
fn has_each_or_none(alloc: Global, value: &Value<'_>, canonical: &[u8]) -> Option<bool> {
    let mut out = Vec::new(alloc);
    let first = value.canon_into(&mut out).is_ok();
    let second = value.canon_into(&mut out).is_ok();
    are_texts(&out, canonical, [first, second])
}

/// Whether a list has a text twice, once or not at all.
fn are_texts(out: &[u8], text: &[u8], are_there: [bool; 2]) -> Option<bool> {
    let rest = behind(out, text, are_there[0])?;
    Some(behind(rest, text, are_there[1])?.is_empty())
}

/// Asks this of a row's value so often that a growth refused late is one of `canon_into`.
fn each_or_none(alloc: Global, row: Row) -> Option<bool> {
    let Row(doc, name, body, canonical) = row;
    if !is_body(body.as_bytes()) {
        return None;
    }
    let value = Value::parse(alloc, doc, name.as_bytes(), body.as_bytes()).ok()?;
    for _ in 0..150 {
        if !has_each_or_none(alloc, &value, canonical.as_bytes())? {
            return Some(false);
        }
    }
    Some(true)
}

#[test]
fn want_of_memory_in_a_name(rt: HostRuntime) {
    let row = Row(Doc::Packages, "Package", "libstdc++6-dev", "libstdc++6-dev");
    assert!(rt; each_or_none(rt.alloc(), row) == Some(true));
}

#[test]
fn want_of_memory_in_a_source_name(rt: HostRuntime) {
    let row = Row(Doc::Packages, "Source", "aa(1.1.1.1.1)", "aa (1.1.1.1.1)");
    assert!(rt; each_or_none(rt.alloc(), row) == Some(true));
}

#[test]
fn want_of_memory_in_a_version(rt: HostRuntime) {
    let row = Row(Doc::Packages, "Version", "1:1.0.0.0.00", "1:1.0.0.0.0");
    assert!(rt; each_or_none(rt.alloc(), row) == Some(true));
}

#[test]
fn want_of_memory_in_an_architecture(rt: HostRuntime) {
    let row = Row(Doc::Binary, "Architecture", "linux-any", "linux-any");
    assert!(rt; each_or_none(rt.alloc(), row) == Some(true));
}

#[test]
fn want_of_memory_in_a_list_of_architectures(rt: HostRuntime) {
    let row = Row(
        Doc::Source,
        "Architecture",
        "any \t all\n\ti386",
        "any all i386",
    );
    assert!(rt; each_or_none(rt.alloc(), row) == Some(true));
}

#[test]
fn want_of_memory_in_a_flag(rt: HostRuntime) {
    let row = Row(Doc::Binary, "Essential", "yes", "yes");
    assert!(rt; each_or_none(rt.alloc(), row) == Some(true));
}

#[test]
fn want_of_memory_in_a_multi_arch(rt: HostRuntime) {
    let row = Row(Doc::Packages, "Multi-Arch", "foreign", "foreign");
    assert!(rt; each_or_none(rt.alloc(), row) == Some(true));
}

#[test]
fn want_of_memory_in_a_number(rt: HostRuntime) {
    let row = Row(Doc::Packages, "Size", "0012345678901", "12345678901");
    assert!(rt; each_or_none(rt.alloc(), row) == Some(true));
}

#[test]
fn want_of_memory_in_a_line(rt: HostRuntime) {
    let row = Row(Doc::Packages, "Maintainer", "Aa  <a@b>", "Aa  <a@b>");
    assert!(rt; each_or_none(rt.alloc(), row) == Some(true));
}

#[test]
fn want_of_memory_in_a_folded_list(rt: HostRuntime) {
    let row = Row(
        Doc::Source,
        "Binary",
        "\n aa,\n\tbbbbbbbbb",
        "aa, bbbbbbbbb",
    );
    assert!(rt; each_or_none(rt.alloc(), row) == Some(true));
}

#[test]
fn want_of_memory_in_a_relation(rt: HostRuntime) {
    let row = Row(Doc::Packages, "Depends", "bb|aa, aa,bb|aa", "aa, bb | aa");
    assert!(rt; each_or_none(rt.alloc(), row) == Some(true));
}

#[test]
fn want_of_memory_in_a_text(rt: HostRuntime) {
    let row = Row(Doc::Packages, "Description", "short  \n .", "short  \n .");
    assert!(rt; each_or_none(rt.alloc(), row) == Some(true));
}
