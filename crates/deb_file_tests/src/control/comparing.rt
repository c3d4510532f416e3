//! Tests of pairs of files: whether they mean the same, and which of them is refused or can't be
//! read.

use super::*;
use deb_control::{Side, SideFault, same};

/// Three paragraphs.
const FILE: &[u8] = b"Package: aa\nVersion: 1\nArchitecture: all\n\n\
    version:01.0-0\nPackage: bb\nArchitecture: amd64\nX:\n y\n\n\
    Package: cc\nArchitecture: all\nVersion: 3";

/// The same ones in another spelling.
const SPELLED: &[u8] = b"\n \nARCHITECTURE:all\npackage: aa\nVersion: 0:1\n\t\n\n\
    X: \n y\t\nArchitecture:  amd64\nPackage: bb\nVersion: 1.0\n\n\
    Version: 03-0\npackage: cc \narchitecture: all\n\n";

/// Other ones, where the last line of the last one is refused.
const LAST_LINE: &[u8] = b"Package: dd\nVersion: 1\nArchitecture: all\n\n\
    Package: bb\nVersion: 1.0\nArchitecture: amd64\nSize: 1k";

/// A file that is refused at its second line.
const AT_ONCE: &[u8] = b"Package: aa\nVersion: 1_\n\nPackage: bb\n";

/// Two files, and what is answered of them, or which one is refused with the code and the line.
struct Pair(
    &'static [u8],
    &'static [u8],
    Result<bool, (Side, Code, u64)>,
);

const PAIRS: [Pair; 6] = [
    Pair(FILE, SPELLED, Ok(true)),
    Pair(b"\n \n", b"", Ok(true)),
    Pair(FILE, b"", Ok(false)),
    Pair(FILE, LAST_LINE, Err((Side::Second, Code::BadNumber, 8))),
    Pair(LAST_LINE, AT_ONCE, Err((Side::First, Code::BadNumber, 8))),
    Pair(FILE, AT_ONCE, Err((Side::Second, Code::BadVersion, 2))),
];

/// What a pair's answer is to the call.
fn answer_of_pair(answer: Result<bool, (Side, Code, u64)>) -> Result<bool, SideFault> {
    match answer {
        Ok(is_same) => Ok(is_same),
        Err((side, code, line)) => at(side, refusal_at(code, line)),
    }
}

fn at(side: Side, fault: Fault) -> Result<bool, SideFault> {
    Err(SideFault { side, fault })
}

/// Each pair, in pieces of other sizes.
#[test]
fn pairs_of_files(rt: HostRuntime) {
    for pair in &PAIRS {
        for (size, other) in [(1, 65_536), (7, 2), (65_536, 3)] {
            assert!(rt; compares(rt.alloc(), pair, size, other), "pieces of {size}");
        }
    }
}

fn compares(alloc: Global, pair: &Pair, size: usize, other_size: usize) -> bool {
    let Pair(file, other, wanted) = pair;
    let mut reader = Pieces::new(file, size, 0);
    let mut other = Pieces::new(other, other_size, 0);
    same_pieces(alloc, &mut reader, &mut other) == answer_of_pair(*wanted)
}

fn same_pieces(
    alloc: Global,
    file: &mut Pieces<'_>,
    other: &mut Pieces<'_>,
) -> Result<bool, SideFault> {
    let mut other = Input::new(&mut *other);
    same(
        alloc,
        Doc::Packages,
        &mut Input::new(&mut *file),
        &mut other,
    )
}

/// A paragraph of 16,777,216 bytes, and itself.
#[test]
fn a_long_pair(rt: HostRuntime) -> Result<(), Fail> {
    let front = b"Package: aa\nVersion: 1\nArchitecture: all\nX: ";
    let file = long_text(rt.alloc(), front, 16_777_215, b"\n")?;
    let mut reader = Pieces::new(&file, 65_536, 0);
    let mut other = Pieces::new(&file, 65_536, 0);
    assert!(rt; same_pieces(rt.alloc(), &mut reader, &mut other) == Ok(true));
    Ok(())
}

/// A reader that fails once, at each of its calls: that is reported with its side, and no reader is
/// called again. A refusal of the second file that was seen gives way to it.
#[test]
fn one_of_two_cant_be_read(rt: HostRuntime) {
    for size in [3, 7, 65_536] {
        let (first, second) = calls_of(rt.alloc(), size);
        for failing in 1..first.saturating_add(1) {
            assert!(rt;
                tells_first(rt.alloc(), FILE, SPELLED, size, failing),
                "call {failing}"
            );
            assert!(rt;
                tells_first(rt.alloc(), FILE, AT_ONCE, size, failing),
                "call {failing}"
            );
        }
        for failing in 1..second.saturating_add(1) {
            assert!(rt; tells_second(rt.alloc(), size, failing), "call {failing}");
        }
    }
}

/// How many calls of each reader there are.
fn calls_of(alloc: Global, size: usize) -> (u64, u64) {
    let mut reader = Pieces::new(FILE, size, 0);
    let mut other = Pieces::new(SPELLED, size, 0);
    let _ = same_pieces(alloc, &mut reader, &mut other);
    (reader.calls, other.calls)
}

/// Whether a failed call of the first reader is its last one, and returned.
fn tells_first(alloc: Global, file: &[u8], other: &[u8], size: usize, failing: u64) -> bool {
    let mut reader = Pieces::new(file, size, failing);
    let mut other = Pieces::new(other, size, 0);
    let answer = same_pieces(alloc, &mut reader, &mut other);
    answer == at(Side::First, Fault::Read) && reader.calls == failing
}

/// The same of the second reader.
fn tells_second(alloc: Global, size: usize, failing: u64) -> bool {
    let mut reader = Pieces::new(FILE, size, 0);
    let mut other = Pieces::new(SPELLED, size, failing);
    let answer = same_pieces(alloc, &mut reader, &mut other);
    answer == at(Side::Second, Fault::Read) && other.calls == failing
}
