//! Tests of a paragraph with many fields, and of a caller's loop that is proved from the clauses of
//! `next`.

ghost use Rattle.std.specs.Prelude.{◌≡◌, ℕ, List, Some, length, IfOk};
ghost use Rattle.deb_syntax.specs.Lines.{paragraphs_of};

use deb_base::{Fault, Input, Source};
use deb_syntax::{Paragraphs, Raw};
use std::alloc::Global;
use std::io::Write;
use std::test::Fail;

/// The line of the field that is found by a name.
fn line_of(paragraph: &Raw<'_>, name: &[u8]) -> Option<u64> {
    Some(paragraph.get(name)?.line)
}

#[test]
fn a_hundred_thousand_fields(rt: HostRuntime) -> Result<(), Fail> {
    let text = many_fields(rt.alloc()).ok_or("memory")?;
    assert!(rt; has_many(rt.alloc(), &text));
    Ok(())
}

fn many_fields(alloc: Global) -> Option<Vec<u8>> {
    let mut text = Vec::new(alloc);
    for i in 0..100_000u32 {
        write!(text, "F{i}: x\n").ok()?;
    }
    text.extend_from_slice(b"last:").ok()?;
    Some(text)
}

fn has_many(alloc: Global, text: &[u8]) -> bool {
    let mut paragraphs = Paragraphs::new(alloc);
    match paragraphs.next(&mut Input::new(text)) {
        Ok(Some(paragraph)) => {
            paragraph.len() == 100_001 && line_of(&paragraph, b"LAST") == Some(100_001)
        }
        _ => false,
    }
}

/// How many paragraphs a file has: what all the answers of `next` together say of it.
fn count_paragraphs<R: Source>(alloc: Global, reader: &mut R) -> Result<u64, Fault>
    ensures { (text : List ℕ) → R.left reader.old ≡ Some text
        → IfOk result (λ n. n ≡ length (paragraphs_of text)) }
{
    let mut paragraphs = Paragraphs::new(alloc);
    for count in 0..u64::MAX {
        let Some(_) = paragraphs.next(reader)? else {
            return Ok(count);
        };
    }
    Err(Fault::Memory)
}

#[test]
fn paragraphs_are_counted(rt: HostRuntime) {
    let rows: [(&[u8], u64); 4] = [
        (b"", 0),
        (b"\n\n", 0),
        (b"A: 1\nB: 2\n", 1),
        (b"A: 1\n\nA: 1\n \nA: 1", 3),
    ];
    for (file, wanted) in rows {
        let counted = count_paragraphs(rt.alloc(), &mut Input::new(file));
        assert!(rt; counted == Ok(wanted), "{file:?}");
    }
}
