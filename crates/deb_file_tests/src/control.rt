//! Tests of files of each kind of document: each call once, short and long, in pieces of several
//! sizes, and what the returned paragraphs contain.

mod comparing;
mod failing;
mod given;
mod memory;

use crate::long::long_text;
use deb_base::{Code, Fault, Input, Output, Refusal};
use deb_control::{Checked, Paragraph, check, normalise};
use deb_devices::{Pieces, SIZES};
use deb_field::Doc;
use deb_syntax::{Paragraphs, Raw};
use std::alloc::Global;
use std::test::Fail;

/// A kind of document, a file, how many paragraphs it has or the code and the line of its refusal,
/// and what is written of it.
#[derive(Drop)]
struct Row<'a>(Doc, &'a [u8], Result<u64, (Code, u64)>, &'a [u8]);

const ROWS: [Row<'static>; 6] = [
    Row(Doc::Packages, b" \n\t \n ", Ok(0), b""),
    Row(
        Doc::Packages,
        b"\n\t\nvERSION: 01.0-0\npackage:aa\nArchitecture: all\nX: a\n \tb \n c \n \t\n\n\
        Package: bb\nVersion: 1\nArchitecture: any\nDepends: zz | aa,\n bb (>=1)\n\n",
        Ok(2),
        b"Architecture: all\nPackage: aa\nVersion: 1.0\nX: a\n \tb \n c\n\n\
        Architecture: any\nDepends: bb (>= 1), zz | aa\nPackage: bb\nVersion: 1\n",
    ),
    Row(
        Doc::Packages,
        b"Package: aa\nVersion: 1\nArchitecture: all\n\nPackage: bb\nSize: 1k\n\n#\n",
        Err((Code::BadNumber, 6)),
        b"Architecture: all\nPackage: aa\nVersion: 1\n",
    ),
    Row(
        Doc::Binary,
        b"Package: aa\nVersion: 1\nArchitecture: all\n\nPackage: bb\n",
        Err((Code::TooManyParagraphs, 5)),
        b"Architecture: all\nPackage: aa\nVersion: 1\n",
    ),
    Row(
        Doc::Source,
        b"\nSource: aa\nVersion: 1\nFiles:\n ab 1 c",
        Err((Code::MissingField, 2)),
        b"",
    ),
    Row(
        Doc::Status,
        b"Package: aa\nStatus: x\nVersion: 01\n\nstatus:  a  b\npackage: bb\n",
        Ok(2),
        b"Package: aa\nStatus: x\nVersion: 1\n\nPackage: bb\nStatus: a  b\n",
    ),
];

/// What a row's answer is to the calls.
fn answer_of(answer: Result<u64, (Code, u64)>) -> Result<u64, Fault> {
    match answer {
        Ok(count) => Ok(count),
        Err((code, line)) => Err(refusal_at(code, line)),
    }
}

/// The fault of a refusal.
fn refusal_at(code: Code, line: u64) -> Fault {
    Fault::Refused(Refusal { code, line })
}

#[test]
fn files_in_pieces(rt: HostRuntime) {
    for row in &ROWS {
        for size in SIZES {
            assert!(rt; is_right(rt.alloc(), row, size), "pieces of {size}");
        }
    }
}

/// Whether each call answers and writes what it should of a file, in pieces of a size.
fn is_right(alloc: Global, row: &Row<'_>, size: usize) -> bool {
    checks(alloc, row, size) && normalises(alloc, row, size) && gives(alloc, row, size)
}

fn checks(alloc: Global, row: &Row<'_>, size: usize) -> bool {
    let Row(doc, file, answer, _) = row;
    let found = check(alloc, *doc, &mut Input::new(Pieces::new(file, size, 0)));
    found == answer_of(*answer)
}

fn normalises(alloc: Global, row: &Row<'_>, size: usize) -> bool {
    let Row(doc, file, answer, written) = row;
    let mut held = Vec::new(alloc);
    let found = normalise_pieces(alloc, *doc, &mut Pieces::new(file, size, 0), &mut held);
    found == answer_of(*answer) && held.as_slice() == *written
}

fn gives(alloc: Global, row: &Row<'_>, size: usize) -> bool {
    let Row(doc, file, answer, written) = row;
    let mut given = Vec::new(alloc);
    let found = read_all(alloc, *doc, &mut Pieces::new(file, size, 0), &mut given);
    found == Some(answer_of(*answer)) && given.as_slice() == *written
}

fn normalise_pieces(
    alloc: Global,
    doc: Doc,
    reader: &mut Pieces<'_>,
    held: &mut Vec<u8>,
) -> Result<u64, Fault> {
    let mut out = Output::new(&mut *held);
    normalise(alloc, doc, &mut Input::new(&mut *reader), &mut out)
}

/// Reads a file to its end, and returns how many paragraphs it has, or to a fault. Their canonical
/// texts are appended, with an empty line between them. None if the last answer isn't repeated.
fn read_all(
    alloc: Global,
    doc: Doc,
    reader: &mut Pieces<'_>,
    text: &mut Vec<u8>,
) -> Option<Result<u64, Fault>> {
    let mut checked = Checked::new(alloc, doc);
    for count in 0..u64::MAX {
        let found = next_text(&mut checked, reader, count, text);
        if found != Ok(true) {
            return repeated(&mut checked, reader, found, text, count);
        }
    }
    None
}

/// The last answer of all, once so many paragraphs were given, if each later one is it.
fn repeated(
    checked: &mut Checked,
    reader: &mut Pieces<'_>,
    last: Result<bool, Fault>,
    text: &mut Vec<u8>,
    count: u64,
) -> Option<Result<u64, Fault>> {
    if !repeats(checked, reader, last, text) {
        return None;
    }
    match last {
        Ok(_) => Some(Ok(count)),
        Err(fault) => Some(Err(fault)),
    }
}

/// Whether the last answer is given again, twice, without a read.
fn repeats(
    checked: &mut Checked,
    reader: &mut Pieces<'_>,
    last: Result<bool, Fault>,
    text: &mut Vec<u8>,
) -> bool {
    let calls = reader.calls;
    for _ in 0..2 {
        if next_text(checked, reader, 0, text) != last {
            return false;
        }
    }
    reader.calls == calls
}

/// Whether there is a next paragraph, whose canonical text is appended.
fn next_text(
    checked: &mut Checked,
    reader: &mut Pieces<'_>,
    count: u64,
    text: &mut Vec<u8>,
) -> Result<bool, Fault> {
    match checked.next(&mut Input::new(&mut *reader)) {
        Ok(Some(paragraph)) => append(text, count, paragraph.canonical_text()),
        Ok(None) => Ok(false),
        Err(fault) => Err(fault),
    }
}

fn append(text: &mut Vec<u8>, count: u64, canonical: &[u8]) -> Result<bool, Fault> {
    if count > 0 {
        text.push(b'\n')?;
    }
    text.extend_from_slice(canonical)?;
    Ok(true)
}

/// A paragraph of 16,777,216 bytes, and as many in its canonical text, which is the same.
#[test]
fn a_long_paragraph(rt: HostRuntime) -> Result<(), Fail> {
    let front = b"Architecture: all\nPackage: aa\nVersion: 1\nX: ";
    let file = long_text(rt.alloc(), front, 16_777_215, b"\n")?;
    assert!(rt; is_right(rt.alloc(), &Row(Doc::Packages, &file, Ok(1), &file), 65_536));
    assert!(rt; typed_len(rt.alloc(), Doc::Binary, &file) == Some(Ok(16_777_216)));
    Ok(())
}

/// The length of the canonical text of a file's first paragraph, or its refusal; None if there is
/// no paragraph.
fn typed_len(alloc: Global, doc: Doc, file: &[u8]) -> Option<Result<u64, Fault>> {
    let mut paragraphs = Paragraphs::new(alloc);
    match paragraphs.next(&mut Input::new(file)) {
        Ok(Some(raw)) => Some(built_len(alloc, doc, &raw)),
        _ => None,
    }
}

fn built_len(alloc: Global, doc: Doc, raw: &Raw<'_>) -> Result<u64, Fault> {
    Ok(Paragraph::build(alloc, doc, raw)?.canon_len())
}

#[test]
fn typed_paragraphs(rt: HostRuntime) {
    for (doc, text, wanted) in [
        (Doc::Packages, PACKAGE, Ok(41)),
        (Doc::Source, PACKAGE, Err((Code::MissingField, 1))),
        (
            Doc::Binary,
            b"\nPackage: aa\nSize: 1k",
            Err((Code::BadNumber, 3)),
        ),
    ] {
        assert!(rt; typed_len(rt.alloc(), doc, text) == Some(answer_of(wanted)));
    }
}

/// A paragraph whose canonical text has 41 bytes.
const PACKAGE: &[u8] = b"PACKAGE:aa\nVersion: 1-0\nArchitecture:  all";
