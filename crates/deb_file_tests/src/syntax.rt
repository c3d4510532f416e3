//! Tests of paragraphs and their fields, as a caller reads them: in pieces of several sizes, with
//! and without `begins` before each `next`.

mod failing;
mod raw;

use crate::long::long_text;
use deb_base::{Code, Fault, Input, Refusal};
use deb_devices::{Pieces, SIZES};
use deb_syntax::{Paragraphs, Raw};
use std::alloc::Global;
use std::test::Fail;

/// Reads a file to its end, and returns how many lines it has, or to a fault. A line `@N` is shown
/// for each paragraph, where N is its first line, and one for each of its fields: its line, its
/// name, and its body or a long one's length. None if something else doesn't hold.
fn read_all(
    alloc: Global,
    reader: &mut Pieces<'_>,
    begins: bool,
    told: &mut String,
) -> Option<Result<u64, Fault>> {
    let mut paragraphs = Paragraphs::new(alloc);
    let is_empty = paragraphs.held() == 0;
    for _ in 0..u64::MAX {
        let found = next_asked(&mut paragraphs, reader, begins, told);
        if !matches!(found, Some(Ok(Some(_)))) {
            return last_of(&mut paragraphs, reader, found, is_empty, told);
        }
    }
    None
}

/// What `next` answers, with or without `begins` before it; None if something else doesn't hold.
fn next_asked(
    paragraphs: &mut Paragraphs,
    reader: &mut Pieces<'_>,
    begins: bool,
    told: &mut String,
) -> Option<Result<Option<u64>, Fault>> {
    if paragraphs.lines() != 0 {
        return None;
    }
    if begins {
        next_begun(paragraphs, reader, told)
    } else {
        next_within(paragraphs, reader, told)
    }
}

/// How many lines the file has, or its fault, if each later answer is the last one.
fn last_of(
    paragraphs: &mut Paragraphs,
    reader: &mut Pieces<'_>,
    found: Option<Result<Option<u64>, Fault>>,
    is_empty: bool,
    told: &mut String,
) -> Option<Result<u64, Fault>> {
    let last = found?;
    if is_empty && repeats(paragraphs, reader, last, told) {
        Some(lines_of(paragraphs, last))
    } else {
        None
    }
}

/// What `next` answers after `begins`.
fn next_begun(
    paragraphs: &mut Paragraphs,
    reader: &mut Pieces<'_>,
    told: &mut String,
) -> Option<Result<Option<u64>, Fault>> {
    let first = begins(paragraphs, reader);
    let is_begun = is_within(paragraphs, reader) && begins(paragraphs, reader) == first;
    let found = next_within(paragraphs, reader, told)?;
    if is_begun && begins_so(first, found) {
        Some(found)
    } else {
        None
    }
}

/// What `next` answers, if what should hold when it returns does.
fn next_within(
    paragraphs: &mut Paragraphs,
    reader: &mut Pieces<'_>,
    told: &mut String,
) -> Option<Result<Option<u64>, Fault>> {
    let found = next_line(paragraphs, reader, told);
    if is_within(paragraphs, reader) {
        Some(found)
    } else {
        None
    }
}

/// Whether the buffer, and the room that each read was given, have as few bytes as they may at a
/// return.
fn is_within(paragraphs: &Paragraphs, reader: &Pieces<'_>) -> bool {
    paragraphs.held() <= 16_842_752 && reader.longest <= 65_536
}

/// Whether the last answer is given again, twice, by each call and without a read.
fn repeats(
    paragraphs: &mut Paragraphs,
    reader: &mut Pieces<'_>,
    last: Result<Option<u64>, Fault>,
    told: &mut String,
) -> bool {
    let (calls, lines) = (reader.calls, paragraphs.lines());
    for _ in 0..2 {
        let next = next_line(paragraphs, reader, told);
        let first = begins(paragraphs, reader);
        if next != last || first != last || paragraphs.lines() != lines {
            return false;
        }
    }
    reader.calls == calls
}

/// How many lines the file has, after the last answer.
fn lines_of(paragraphs: &Paragraphs, last: Result<Option<u64>, Fault>) -> Result<u64, Fault> {
    last?;
    Ok(paragraphs.lines())
}

fn begins(paragraphs: &mut Paragraphs, reader: &mut Pieces<'_>) -> Result<Option<u64>, Fault> {
    paragraphs.begins(&mut Input::new(&mut *reader))
}

/// The first line of the next paragraph, which is reported.
fn next_line(
    paragraphs: &mut Paragraphs,
    reader: &mut Pieces<'_>,
    told: &mut String,
) -> Result<Option<u64>, Fault> {
    match paragraphs.next(&mut Input::new(&mut *reader)) {
        Ok(Some(raw)) => tell(told, &raw),
        Ok(None) => Ok(None),
        Err(fault) => Err(fault),
    }
}

fn tell(told: &mut String, raw: &Raw<'_>) -> Result<Option<u64>, Fault> {
    let first_line = raw.first_line();
    writeln!(told, "@{first_line}").or(Err(Fault::Memory))?;
    for field in raw.fields() {
        tell_field(told, field.line, field.name, field.body)?;
    }
    Ok(Some(first_line))
}

fn tell_field(told: &mut String, line: u64, name: &[u8], body: &[u8]) -> Result<(), Fault> {
    let name = name.escape_ascii();
    let len = body.len();
    if len < 1_000 {
        let body = body.escape_ascii();
        writeln!(told, "{line} {name}: {body}").or(Err(Fault::Memory))
    } else {
        writeln!(told, "{line} {name}: {len} bytes").or(Err(Fault::Memory))
    }
}

/// Whether `next` may answer so after an answer of `begins`.
fn begins_so(first: Result<Option<u64>, Fault>, found: Result<Option<u64>, Fault>) -> bool {
    match first {
        Ok(Some(line)) => begins_at(found, line),
        Err(Fault::Refused(refusal)) => refusal.code == Code::FileTooLong && found == first,
        _ => found == first,
    }
}

/// Whether `next` may answer so where a paragraph begins in a line.
fn begins_at(found: Result<Option<u64>, Fault>, line: u64) -> bool {
    match found {
        Ok(Some(found)) => line == found,
        Ok(None) => false,
        Err(Fault::Refused(refusal)) => line <= refusal.line,
        Err(_) => true,
    }
}

/// A file, what is shown of its paragraphs, and how many lines it has or the code and the line of
/// its refusal.
struct Row(&'static [u8], &'static str, Result<u64, (Code, u64)>);

const ROWS: [Row; 6] = [
    Row(b"", "", Ok(0)),
    Row(b"\n \t\n", "", Ok(2)),
    Row(
        b"\nvERSION:\t01 \nX: \n  y \n\n \nA:b:c\r\n #d",
        "@2\n2 vERSION: 01\n3 X: \\n  y\n@7\n7 A: b:c\\r\\n #d\n",
        Ok(8),
    ),
    Row(b"A: 1\n\nB: 2\n\t", "@1\n1 A: 1\n@3\n3 B: 2\n", Ok(4)),
    Row(
        b"A: 1\n\n\nB: 2\nb: 3\n\nC",
        "@1\n1 A: 1\n",
        Err((Code::DuplicateField, 5)),
    ),
    Row(
        b"A: 1\n \nX: caf\xc3",
        "@1\n1 A: 1\n",
        Err((Code::NotUtf8, 3)),
    ),
];

#[test]
fn files_in_pieces(rt: HostRuntime) {
    for Row(file, told, end) in &ROWS {
        for size in SIZES {
            assert!(rt;
                is_told(rt.alloc(), file, size, told, *end),
                "pieces of {size}"
            );
        }
    }
}

/// What the reading of a file answers at last.
fn end_of(end: Result<u64, (Code, u64)>) -> Result<u64, Fault> {
    match end {
        Ok(lines) => Ok(lines),
        Err((code, line)) => Err(Fault::Refused(Refusal { code, line })),
    }
}

/// Whether this is reported of a file, and answered at last, with `begins` and without it.
fn is_told(
    alloc: Global,
    file: &[u8],
    size: usize,
    told: &str,
    end: Result<u64, (Code, u64)>,
) -> bool {
    is_read(
        alloc,
        &mut Pieces::new(file, size, 0),
        false,
        told,
        end_of(end),
    ) && is_read(
        alloc,
        &mut Pieces::new(file, size, 0),
        true,
        told,
        end_of(end),
    )
}

fn is_read(
    alloc: Global,
    reader: &mut Pieces<'_>,
    begins: bool,
    wanted: &str,
    end: Result<u64, Fault>,
) -> bool {
    let mut told = String::new(alloc);
    read_all(alloc, reader, begins, &mut told) == Some(end) && told.as_str() == wanted
}

/// A paragraph of the most bytes, and one of a byte more.
#[test]
fn long_paragraphs(rt: HostRuntime) -> Result<(), Fail> {
    let mut file = long_text(rt.alloc(), b"A: ", 16_777_215, b"\n")?;
    let told = "@1\n1 A: 16777212 bytes\n";
    assert!(rt; is_told(rt.alloc(), &file, 65_536, told, Ok(1)));
    file.push(b' ')?;
    assert!(rt; is_told(rt.alloc(), &file, 65_536, told, Ok(2)));
    file.push(b'x')?;
    let end = Err((Code::ParagraphTooLong, 2));
    assert!(rt; is_told(rt.alloc(), &file, 65_536, "", end));
    Ok(())
}
