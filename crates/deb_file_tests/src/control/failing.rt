//! Tests of readers and writers that fail: what is returned, and what was written by then.

use super::*;
use deb_devices::{Slow, Then};

/// Three paragraphs. The first two are closed by a blank line: with its newline they have 42 and 92
/// bytes.
const FILE: &[u8] = b"Package: aa\nVersion: 1\nArchitecture: all\n\n\
    version:01.0-0\nPackage: bb\nArchitecture: amd64\n \t\n\n\
    Package: cc\nArchitecture: all\nVersion: 3";

const TEXT: &[u8] = b"Architecture: all\nPackage: aa\nVersion: 1\n\n\
    Architecture: amd64\nPackage: bb\nVersion: 1.0\n\n\
    Architecture: all\nPackage: cc\nVersion: 3\n";

/// How many bytes of the canonical text may be written, and how many of the file have to be read
/// for that.
const FRONTS: [(usize, usize); 3] = [(0, 0), (41, 42), (87, 92)];

/// The reader fails once, at each of its calls, and would then go on.
#[test]
fn a_failed_read_leaves_whole_paragraphs(rt: HostRuntime) {
    for size in SIZES {
        for failing in 1..calls_of(rt.alloc(), size).saturating_add(1) {
            let is_right = is_cut_off(rt.alloc(), size, failing)
                && is_told_by_check(rt.alloc(), size, failing)
                && is_told_by_next(rt.alloc(), size, failing);
            assert!(rt; is_right, "call {failing} of {size} bytes");
        }
    }
}

/// How many reads there are where none fails.
fn calls_of(alloc: Global, size: usize) -> u64 {
    let mut reader = Pieces::new(FILE, size, 0);
    let mut held = Vec::new(alloc);
    let _ = normalise_pieces(alloc, Doc::Packages, &mut reader, &mut held);
    reader.calls
}

/// Whether the failed read is reported and the last one, and whole paragraphs were written, each of
/// which was read with the blank line after it.
fn is_cut_off(alloc: Global, size: usize, failing: u64) -> bool {
    let mut reader = Pieces::new(FILE, size, failing);
    let mut held = Vec::new(alloc);
    let answer = normalise_pieces(alloc, Doc::Packages, &mut reader, &mut held);
    let taken = FILE.len().saturating_sub(reader.rest.len());
    answer == Err(Fault::Read) && reader.calls == failing && is_front(&held, taken)
}

fn is_front(held: &[u8], taken: usize) -> bool {
    for (written, read) in FRONTS {
        if held.len() == written && taken >= read {
            return TEXT.starts_with(held);
        }
    }
    false
}

/// Whether `check` returns it.
fn is_told_by_check(alloc: Global, size: usize, failing: u64) -> bool {
    let mut reader = Pieces::new(FILE, size, failing);
    let checked = check(alloc, Doc::Packages, &mut Input::new(&mut reader));
    checked == Err(Fault::Read) && reader.calls == failing
}

/// Whether `next` does, also when it is called again, though the reader would go on.
fn is_told_by_next(alloc: Global, size: usize, failing: u64) -> bool {
    let mut reader = Pieces::new(FILE, size, failing);
    let mut text = Vec::new(alloc);
    let given = read_all(alloc, Doc::Packages, &mut reader, &mut text);
    given == Some(Err(Fault::Read)) && reader.calls == failing
}

/// The writer fails after so many good calls, or takes nothing from then on.
#[test]
fn a_failed_write_leaves_a_prefix(rt: HostRuntime) {
    for most in [1, 7, 65_536] {
        for calls in 0..140u8 {
            for then in [Then::Fails, Then::TakesNone] {
                let writer = Slow::new(rt.alloc(), most, u64::from(calls), then);
                assert!(rt; writes(rt.alloc(), writer), "{calls} calls of {most} bytes");
            }
        }
    }
}

/// Whether all is written, or a prefix up to the one bad write, which is reported.
fn writes(alloc: Global, mut writer: Slow) -> bool {
    let mut out = Output::new(&mut writer);
    let answer = normalise(alloc, Doc::Packages, &mut Input::new(FILE), &mut out);
    let held = writer.held.as_slice();
    if writer.failures == 0 {
        return answer == Ok(3) && held == TEXT;
    }
    answer == Err(Fault::Write)
        && writer.failures == 1
        && TEXT.starts_with(held)
        && held.len() < TEXT.len()
}
