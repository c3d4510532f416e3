//! Tests of readers that fail or never end, of how much is read, and of out of memory.

use super::*;
use deb_devices::Endless;

const FILE: &[u8] = b"A: 1\n\n \nB: 2\n c\n\nC: 3\n\t\n\nD: 4";

const TOLD: &str = "@1\n1 A: 1\n@4\n4 B: 2\\n c\n@7\n7 C: 3\n@10\n10 D: 4\n";

/// The reader fails once, at each of its calls, and would then go on.
#[test]
fn a_failed_read_is_no_end(rt: HostRuntime) {
    for size in SIZES {
        for begins in [false, true] {
            for failing in 0..calls_of(rt.alloc(), size, begins).saturating_add(1) {
                let is_right = is_told_of(rt.alloc(), size, begins, failing);
                assert!(rt; is_right, "call {failing} in pieces of {size}, {begins}");
            }
        }
    }
}

/// How many calls there are if none fails.
fn calls_of(alloc: Global, size: usize, begins: bool) -> u64 {
    let mut told = String::new(alloc);
    let mut reader = Pieces::new(FILE, size, 0);
    let _ = read_all(alloc, &mut reader, begins, &mut told);
    reader.calls
}

/// Whether the one call that fails is the last one, and a prefix is reported; all if none does.
fn is_told_of(alloc: Global, size: usize, begins: bool, failing: u64) -> bool {
    let mut told = String::new(alloc);
    let mut reader = Pieces::new(FILE, size, failing);
    let end = read_all(alloc, &mut reader, begins, &mut told);
    if failing == 0 {
        return end == Some(Ok(10)) && told.as_str() == TOLD;
    }
    end == Some(Err(Fault::Read)) && reader.calls == failing && TOLD.starts_with(told.as_str())
}

/// At most one piece is taken after the blank line that ends a paragraph, and after a paragraph's
/// first line.
#[test]
fn one_piece_is_taken_ahead(rt: HostRuntime) -> Result<(), Fail> {
    let file = long_text(rt.alloc(), b"A: 1\n\nB: ", 300_009, b"\n\nC: 3\n")?;
    for size in SIZES {
        assert!(rt;
            takes_one_piece(rt.alloc(), &file, size),
            "pieces of {size}"
        );
    }
    Ok(())
}

/// The number of a paragraph's first line, and the most bytes that are taken when it is known, and
/// after the paragraph.
const TAKEN: [(u64, usize, usize); 3] = [
    (1, 5 + 65_536, 6 + 65_536),
    (3, 300_010 + 65_536, 300_011 + 65_536),
    (5, 300_016 + 65_536, 300_016 + 65_536),
];

fn takes_one_piece(alloc: Global, file: &[u8], size: usize) -> bool {
    let mut reader = Pieces::new(file, size, 0);
    let mut paragraphs = Paragraphs::new(alloc);
    for (line, at_line, behind) in TAKEN {
        let first = begins(&mut paragraphs, &mut reader);
        let is_begun = first == Ok(Some(line)) && taken(file, &reader) <= at_line;
        let found = paragraphs.advance(&mut Input::new(&mut reader));
        if !is_begun || found != Ok(true) || taken(file, &reader) > behind {
            return false;
        }
    }
    true
}

/// How many bytes are taken of a file.
fn taken(file: &[u8], reader: &Pieces<'_>) -> usize {
    file.len().saturating_sub(reader.rest.len())
}

/// What precedes a byte that comes for ever, the byte, and the line that is cut off.
struct Cut(&'static [u8], u8, u64);

const CUTS: [Cut; 3] = [
    Cut(b"", b'\n', 4_294_967_296),
    Cut(b"", b' ', 1),
    Cut(b"A: 1\n", b'x', 2),
];

#[test]
fn files_without_end_are_refused(rt: HostRuntime) {
    for cut in &CUTS {
        assert!(rt; is_cut_off(rt.alloc(), cut), "{} for ever", cut.1);
    }
}

fn is_cut_off(alloc: Global, cut: &Cut) -> bool {
    let Cut(front, byte, line) = cut;
    let mut reader = Endless::new(front, *byte);
    let mut paragraphs = Paragraphs::new(alloc);
    let end = paragraphs.advance(&mut Input::new(&mut reader));
    end == Err(too_long(*line))
        && reader.given <= 4_294_967_295 + 65_536
        && paragraphs.held() <= 16_842_752
}

fn too_long(line: u64) -> Fault {
    let code = Code::FileTooLong;
    Fault::Refused(Refusal { code, line })
}

/// Each growth is one of `advance`, and one in all is refused.
#[test]
fn want_of_memory_is_for_good(rt: HostRuntime) {
    for _ in 0..200 {
        assert!(rt; reads_or_wants(rt.alloc()));
    }
}

/// Whether a paragraph is read, or memory is wanted again and again, and nothing is read then.
fn reads_or_wants(alloc: Global) -> bool {
    let mut reader = Pieces::new(FILE, 7, 0);
    let mut paragraphs = Paragraphs::new(alloc);
    if paragraphs.advance(&mut Input::new(&mut reader)) == Ok(true) {
        return true;
    }
    let calls = reader.calls;
    let wanted = wants(&mut paragraphs, &mut reader) && wants(&mut paragraphs, &mut reader);
    wanted && reader.calls == calls && paragraphs.lines() == 0
}

/// Whether each call is out of memory.
fn wants(paragraphs: &mut Paragraphs, reader: &mut Pieces<'_>) -> bool {
    let next = paragraphs.next(&mut Input::new(&mut *reader)).err();
    let first = begins(paragraphs, reader);
    let found = paragraphs.advance(&mut Input::new(&mut *reader));
    next == Some(Fault::Memory) && first == Err(Fault::Memory) && found == Err(Fault::Memory)
}
