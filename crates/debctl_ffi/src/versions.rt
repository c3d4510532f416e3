//! The functions on versions, for programs in C.

ghost use Rattle.std.specs.Prelude.{◌≡◌, [], ◌∷◌};
ghost use Rattle.debctl_ffi.specs.Answers.{HasStatus, refusing};
ghost use Rattle.debctl_ffi.specs.Buffers.{buffer};
ghost use Rattle.debctl_ffi.specs.Replies.{Replies};
ghost use Rattle.debctl_ffi.specs.Versions.{Compares, IsCanonical, IsKey, IsNoVersion, IsVersion, VersionFails, bad_version, comparing};

use crate::answer::{Answer, no_memory, refused, yes};
use crate::buffer::reply;
use deb_base::{Code, Refusal};
use deb_version::Version;
use std::alloc::Global;
use std::cmp::Ordering;

/// The answer of a comparison of two versions.
#[repr(C)]
#[derive(Clone, Copy, Debug, PartialEq, Eq)]
pub struct Comparison {
    /// 0: both are versions; 2: the first isn't one; 3: the first is one, and the second isn't.
    pub status: u8,
    /// The code of the refusal, 18, if a text isn't a version, else 0.
    pub code: u8,
    /// -1 if the first is earlier, 0 if they are equal, 1 if it is later; also 0 if a text isn't a
    /// version.
    pub order: i8,
}

/// Compares two versions in Debian's order (Debian Policy 5.6.12). No memory is taken.
#[unsafe(no_mangle)]
pub extern "C" fn deb_version_compare(left: &[u8], right: &[u8]) -> Comparison
    ensures compared { result.status ≡ 0 → Compares left.now right.now result }
    ensures first_refused { result.status ≡ 2 → IsNoVersion left.now
        × (result ≡ comparing 2 18 Ordering.Equal) }
    ensures second_refused { result.status ≡ 3 → IsVersion left.now × IsNoVersion right.now
        × (result ≡ comparing 3 18 Ordering.Equal) }
    ensures status { HasStatus result.status (0 ∷ 2 ∷ 3 ∷ []) }
{
    let Ok(left) = Version::parse(left) else {
        return compared(2, 18, Ordering::Equal);
    };
    let Ok(right) = Version::parse(right) else {
        return compared(3, 18, Ordering::Equal);
    };
    compared(0, 0, left.cmp(&right))
}

/// The answer of a comparison.
fn compared(status: u8, code: u8, order: Ordering) -> Comparison
    ensures { result ≡ comparing status code order }
{
    let order = match order {
        Ordering::Less => -1,
        Ordering::Equal => 0,
        Ordering::Greater => 1,
    };
    Comparison {
        status,
        code,
        order,
    }
}

/// Writes the canonical text of a version to the start of `out`, and returns its length. Status 0:
/// done. 2: the text isn't a version, with the code 18 and no line. 4: `out` is too small; `len` is
/// the length that it needs. 5: out of memory.
///
/// Except for status 0, `out` is unchanged.
#[unsafe(no_mangle)]
pub extern "C" fn deb_version_canonical(
    alloc: Global,
    text: &[u8],
    out: &mut [u8],
    len: &mut usize,
) -> Answer
    ensures answers { Replies (IsCanonical text.now) (VersionFails text.now)
        (buffer out.old out.new len.new) result }
    ensures status { HasStatus result.status (0 ∷ 2 ∷ 4 ∷ 5 ∷ []) }
{
    *len = 0;
    let Ok(version) = Version::parse(text) else {
        return not_a_version();
    };
    let mut canonical = Vec::new(alloc);
    if version.canon_into(&mut canonical).is_err() {
        return no_memory();
    }
    reply(yes(0), &canonical, out, len)
}

/// Writes the key of a version to the start of `out`, and returns its length: bytes whose order is
/// Debian's order of versions, and that are the same exactly if the versions are equal
/// (deb-version(7), "Sorting algorithm"). Status 0: done. 2: the text isn't a version, with the
/// code 18 and no line. 4: `out` is too small; `len` is the length that it needs. 5: out of
/// memory.
///
/// Except for status 0, `out` is unchanged.
#[unsafe(no_mangle)]
pub extern "C" fn deb_version_key(
    alloc: Global,
    text: &[u8],
    out: &mut [u8],
    len: &mut usize,
) -> Answer
    ensures answers { Replies (IsKey text.now) (VersionFails text.now)
        (buffer out.old out.new len.new) result }
    ensures status { HasStatus result.status (0 ∷ 2 ∷ 4 ∷ 5 ∷ []) }
{
    *len = 0;
    let Ok(version) = Version::parse(text) else {
        return not_a_version();
    };
    let mut key = Vec::new(alloc);
    if version.key_into(&mut key).is_err() {
        return no_memory();
    }
    reply(yes(0), &key, out, len)
}

/// The answer 2: a text isn't a version.
fn not_a_version() -> Answer
    ensures { result ≡ refusing 2 bad_version }
{
    refused(&Refusal {
        code: Code::BadVersion,
        line: 0,
    })
}
