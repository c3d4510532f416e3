//! Tests of out of memory. `rt try --test --fail-alloc 200 -- want_of_memory` refuses the 200th
//! growth of each test and no other.

use super::*;

/// Each growth is one of `next`.
#[test]
fn want_of_memory_is_for_good(rt: HostRuntime) {
    for _ in 0..200 {
        assert!(rt; gives_or_wants(rt.alloc()));
    }
}

/// Whether a paragraph is given, or memory is wanted again and again, and nothing is read then.
fn gives_or_wants(alloc: Global) -> bool {
    let mut reader = Pieces::new(PACKAGE, 7, 0);
    let mut checked = Checked::new(alloc, Doc::Packages);
    if next_fault(&mut checked, &mut reader).is_none() {
        return true;
    }
    let calls = reader.calls;
    let again = next_fault(&mut checked, &mut reader);
    again == Some(Fault::Memory) && reader.calls == calls
}

fn next_fault(checked: &mut Checked, reader: &mut Pieces<'_>) -> Option<Fault> {
    checked.next(&mut Input::new(&mut *reader)).err()
}

/// Each second growth is one of `canon_into`.
#[test]
fn want_of_memory_leaves_what_stands_before_a_paragraph(rt: HostRuntime) {
    assert!(rt; appends_or_leaves(rt.alloc()));
}

/// The same with one growth before it, so that in one of the two it is one of `canon_into` that is
/// refused.
#[test]
fn want_of_memory_a_growth_later(rt: HostRuntime) -> Result<(), Fail> {
    let spent = vec![in rt.alloc(); b'='; 1]?;
    assert!(rt; appends_or_leaves(rt.alloc()) && spent.len() == 1);
    Ok(())
}

/// Whether the canonical text is appended to lists, and where memory was wanted nothing.
fn appends_or_leaves(alloc: Global) -> bool {
    let mut paragraphs = Paragraphs::new(alloc);
    match paragraphs.next(&mut Input::new(PACKAGE)) {
        Ok(Some(raw)) => appends_raw(alloc, &raw),
        _ => false,
    }
}

fn appends_raw(alloc: Global, raw: &Raw<'_>) -> bool {
    match Paragraph::build(alloc, Doc::Packages, raw) {
        Ok(typed) => appends_typed(alloc, &typed),
        Err(_) => false,
    }
}

fn appends_typed(alloc: Global, typed: &Paragraph<'_>) -> bool {
    for _ in 0..150 {
        if has_all_or_none(alloc, typed) == Some(false) {
            return false;
        }
    }
    true
}

/// Whether the canonical text is after what stood there, or nothing where memory was wanted;
/// None where the list itself has no memory.
fn has_all_or_none(alloc: Global, typed: &Paragraph<'_>) -> Option<bool> {
    let mut out = vec![in alloc; b'='; 3].ok()?;
    let wanted: &[u8] = match typed.canon_into(&mut out) {
        Ok(()) => b"===Architecture: all\nPackage: aa\nVersion: 1\n",
        Err(_) => b"===",
    };
    Some(out.as_slice() == wanted)
}
