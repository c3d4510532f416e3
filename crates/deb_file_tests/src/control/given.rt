//! Tests of the values of a returned paragraph.

use super::*;
use deb_control::{CheckedText, Paragraph};
use deb_field::{Canon, Value};
use std::alloc::AllocError;

const FILE: &[u8] = b"\nSOURCE:bb (01)\nPackage: aa\nVersion: 1\nArchitecture: all\n\n \n\
    version:\t2-0 \nX:\n y \n z \npackage:bb\narchitecture: any";

/// The canonical text of a paragraph's version, and its own.
struct Shown(&'static [u8], &'static [u8]);

const SHOWN: [Shown; 2] = [
    Shown(
        b"1",
        b"Architecture: all\nPackage: aa\nSource: bb (1)\nVersion: 1\n",
    ),
    Shown(
        b"2",
        b"Architecture: any\nPackage: bb\nVersion: 2\nX:\n y \n z\n",
    ),
];

#[test]
fn paragraphs_that_are_given(rt: HostRuntime) {
    for size in SIZES {
        assert!(rt; gives_all(rt.alloc(), size), "pieces of {size}");
    }
}

/// Whether the paragraphs of the file are given, and no more.
fn gives_all(alloc: Global, size: usize) -> bool {
    let mut input = Input::new(Pieces::new(FILE, size, 0));
    let mut checked = Checked::new(alloc, Doc::Packages);
    gives_next(alloc, &mut checked, &mut input, &SHOWN[0])
        && gives_next(alloc, &mut checked, &mut input, &SHOWN[1])
        && matches!(checked.next(&mut input), Ok(None))
}

fn gives_next(
    alloc: Global,
    checked: &mut Checked,
    input: &mut Input<Pieces<'_>>,
    shown: &Shown,
) -> bool {
    match checked.next(input) {
        Ok(Some(paragraph)) => {
            has_values(alloc, &paragraph, shown.0)
                && is_whole_text(alloc, paragraph.paragraph(alloc), shown.1)
        }
        _ => false,
    }
}

/// A source description with a body of ten thousand bytes: its value, its typed paragraph, and that
/// one's text.
#[test]
fn a_long_body_of_a_source(rt: HostRuntime) -> Result<(), Fail> {
    let body = long_text(rt.alloc(), b"", 10_000, b"")?;
    let front = b"Format: 1.0\nSource: aa\nVersion: 1\nX: ";
    let file = long_text(rt.alloc(), front, 10_037, b"\n")?;
    assert!(rt; has_body(rt.alloc(), &file, &body));
    Ok(())
}

fn has_body(alloc: Global, file: &[u8], body: &[u8]) -> bool {
    let mut checked = Checked::new(alloc, Doc::Source);
    match checked.next(&mut Input::new(file)) {
        Ok(Some(paragraph)) => {
            is_text_of(alloc, paragraph.value(alloc, b"x"), body)
                && is_whole_text(alloc, paragraph.paragraph(alloc), file)
        }
        _ => false,
    }
}

/// Whether single values are right.
fn has_values(alloc: Global, paragraph: &CheckedText<'_>, version: &[u8]) -> bool {
    matches!(paragraph.value(alloc, b"pACKAGE"), Ok(Some(Value::Name(_))))
        && matches!(paragraph.value(alloc, b"Absent"), Ok(None))
        && is_text_of(alloc, paragraph.value(alloc, b"VERSION"), version)
}

/// Whether a value was found, and has this canonical text.
fn is_text_of(alloc: Global, found: Result<Option<Value<'_>>, AllocError>, text: &[u8]) -> bool {
    match found {
        Ok(Some(value)) => {
            value.canon_len() == text.len() as u64 && has_text(alloc, &value, text) == Some(true)
        }
        _ => false,
    }
}

fn has_text(alloc: Global, value: &Value<'_>, text: &[u8]) -> Option<bool> {
    let mut out = Vec::new(alloc);
    value.canon_into(&mut out).ok()?;
    Some(out.as_slice() == text)
}

/// Whether there is a typed paragraph with this text, which is appended after a thousand bytes.
fn is_whole_text(alloc: Global, found: Result<Paragraph<'_>, AllocError>, text: &[u8]) -> bool {
    match found {
        Ok(typed) => {
            typed.canon_len() == text.len() as u64 && appends(alloc, &typed, text) == Some(true)
        }
        Err(_) => false,
    }
}

fn appends(alloc: Global, typed: &Paragraph<'_>, text: &[u8]) -> Option<bool> {
    let mut out = vec![in alloc; b'='; 1_000].ok()?;
    typed.canon_into(&mut out).ok()?;
    Some(out.get(1_000..) == Some(text))
}
