//! Tests of versions: the first fault of a text that isn't one, canonical text and keys of short
//! and long ones, and versions as keys of sets and maps, and sorted by std.

use crate::appended::is_appended;
use deb_version::{BadVersion, Version};
use indexmap::IndexMap;
use std::alloc::Global;
use std::collections::{BTreeMap, HashSet};
use std::test::Fail;

/// A text, and the first fault that it has.
struct Refused(&'static str, BadVersion);

const REFUSED: [Refused; 20] = [
    Refused("", BadVersion::Empty),
    Refused(":1", BadVersion::EpochEmpty),
    Refused("a:1", BadVersion::EpochNotNumber),
    Refused("+1:1", BadVersion::EpochNotNumber),
    // an epoch may have any size, and a fault after it is found
    Refused("2147483648:", BadVersion::UpstreamEmpty),
    Refused("2147483648:1_", BadVersion::UpstreamByte { at: 12 }),
    Refused("1-", BadVersion::RevisionEmpty),
    Refused("2:1-", BadVersion::RevisionEmpty),
    Refused("1:", BadVersion::UpstreamEmpty),
    Refused("-1", BadVersion::UpstreamEmpty),
    Refused("1.0_2", BadVersion::UpstreamByte { at: 3 }),
    Refused("1.0 ", BadVersion::UpstreamByte { at: 3 }),
    Refused("12:1_2-3", BadVersion::UpstreamByte { at: 4 }),
    Refused("1.0-a_b", BadVersion::RevisionByte { at: 5 }),
    Refused("1:2-3:4", BadVersion::RevisionByte { at: 5 }),
    // of several faults the first is answered
    Refused(":-", BadVersion::EpochEmpty),
    Refused("a:1-", BadVersion::EpochNotNumber),
    Refused("1:-", BadVersion::RevisionEmpty),
    Refused("-_", BadVersion::UpstreamEmpty),
    Refused("1_-_", BadVersion::UpstreamByte { at: 1 }),
];

#[test]
fn texts_that_are_no_versions(rt: HostRuntime) {
    for Refused(text, fault) in &REFUSED {
        let found = Version::parse(text.as_bytes()).err();
        assert!(rt; found == Some(*fault), "{text}: {found:?}");
    }
}

/// Whether a version has this canonical text, after what is there; None where a call fails.
fn has_text(alloc: Global, text: &[u8], canonical: &[u8]) -> Option<bool> {
    let version = Version::parse(text).ok()?;
    let mut out = vec![in alloc; b'='; 2_000].ok()?;
    version.canon_into(&mut out).ok()?;
    Some(is_appended(&out, canonical, version.canon_len()))
}

#[test]
fn canonical_text(rt: HostRuntime) {
    assert!(rt; has_text(rt.alloc(), b"00:1:02-0", b"0:1:2") == Some(true));
    assert!(rt; has_text(rt.alloc(), b"01.0-a00-00", b"1.0-a-0") == Some(true));
}

/// Whether a version has this key, after what is in the list; None where a call fails.
fn has_key(alloc: Global, text: &[u8], key: &[u8]) -> Option<bool> {
    let version = Version::parse(text).ok()?;
    let mut out = vec![in alloc; b'='; 2_000].ok()?;
    version.key_into(&mut out).ok()?;
    Some(out.get(2_000..) == Some(key))
}

#[test]
fn version_keys(rt: HostRuntime) {
    let with_tilde = b"\x01\x00\x02\x011\xae\x02\x00\x01rc\x02\x011\x02\x02\x00\x02";
    assert!(rt; has_key(rt.alloc(), b"0:1.00~rc01-0", with_tilde) == Some(true));
    let with_epoch = b"\x01\x012\x02\x011\xae\x02\x00\x02\x02\x013\x02";
    assert!(rt; has_key(rt.alloc(), b"2:1.0-3", with_epoch) == Some(true));
}

/// A long number, as a version.
const NINES: [u8; 515] = [b'9'; 515];

/// Whether the key of a version of so many nines begins with these bytes; None where a call fails.
fn begins_key(alloc: Global, count: usize, begin: &[u8]) -> Option<bool> {
    let version = Version::parse(NINES.get(..count)?).ok()?;
    let mut out = Vec::new(alloc);
    version.key_into(&mut out).ok()?;
    Some(out.starts_with(begin))
}

#[test]
fn keys_of_long_numbers(rt: HostRuntime) {
    assert!(rt; begins_key(rt.alloc(), 239, b"\x01\x00\x02\xef99") == Some(true));
    assert!(rt; begins_key(rt.alloc(), 240, b"\x01\x00\x02\xf0\xf099") == Some(true));
    assert!(rt; begins_key(rt.alloc(), 515, b"\x01\x00\x02\xf1\x02\x0399") == Some(true));
}

/// Spellings of one version, and of one with a long epoch.
const SPELLINGS: [&[u8]; 4] = [b"1.01", b"1.1", b"0:1.1-0", b"01.001"];

const LONG_EPOCHS: [&[u8]; 2] = [b"99999999999999999999:1", b"00099999999999999999999:1-0"];

/// Whether spellings are one element of a set; None where a call fails.
fn are_one_element(alloc: Global, spellings: &[&[u8]]) -> Option<bool> {
    let mut set = HashSet::new(alloc);
    for text in spellings {
        set.insert(Version::parse(text).ok()?).ok()?;
    }
    Some(set.len() == 1)
}

/// Whether they are one key of a sorted map.
fn are_one_sorted_key(alloc: Global, spellings: &[&[u8]]) -> Option<bool> {
    let mut tree = BTreeMap::new(alloc);
    for text in spellings {
        tree.insert(Version::parse(text).ok()?, 0).ok()?;
    }
    Some(tree.len() == 1)
}

/// Whether they are one key of an index.
fn are_one_indexed_key(alloc: Global, spellings: &[&[u8]]) -> Option<bool> {
    let mut index = IndexMap::new(alloc);
    for text in spellings {
        index.insert(Version::parse(text).ok()?, 0).ok()?;
    }
    Some(index.len() == 1)
}

#[test]
fn keys(rt: HostRuntime) {
    for spellings in [SPELLINGS.as_slice(), &LONG_EPOCHS] {
        assert!(rt; are_one_element(rt.alloc(), spellings) == Some(true));
        assert!(rt; are_one_sorted_key(rt.alloc(), spellings) == Some(true));
        assert!(rt; are_one_indexed_key(rt.alloc(), spellings) == Some(true));
    }
}

/// Versions in their order.
const ASCENDING: [&[u8]; 6] = [b"1.0~rc1", b"1.0", b"1.0-1", b"1.9", b"1.10", b"1:0"];

/// The versions in the opposite order.
fn descending(alloc: Global) -> Option<Vec<Version<'static>>> {
    let mut versions = Vec::new(alloc);
    for text in ASCENDING.iter().rev() {
        versions.push(Version::parse(text).ok()?).ok()?;
    }
    Some(versions)
}

/// Whether versions have these texts, in their order.
fn have_texts(versions: &[Version<'_>], texts: &[&[u8]]) -> bool {
    for (version, text) in versions.iter().zip(texts) {
        if Version::parse(text) != Ok(*version) {
            return false;
        }
    }
    versions.len() == texts.len()
}

/// Whether std's sort puts them into that order; None where a call fails.
fn are_sorted(alloc: Global) -> Option<bool> {
    let mut versions = descending(alloc)?;
    let is_sorted = versions.sort().is_ok();
    Some(is_sorted && have_texts(&versions, &ASCENDING) && ascend(&versions))
}

/// Whether the first version is earlier than the second one.
fn ascend(versions: &[Version<'_>]) -> bool {
    match versions {
        [first, second, ..] => first < second,
        _ => false,
    }
}

#[test]
fn sorting(rt: HostRuntime) {
    assert!(rt; are_sorted(rt.alloc()) == Some(true));
}

/// So many zeros, and a million digits after them.
fn long_version(alloc: Global, zeros: usize, last: u8) -> Option<Vec<u8>> {
    let mut text = vec![in alloc; b'0'; zeros].ok()?;
    text.extend_from_slice(b"7:").ok()?;
    text.resize(zeros.checked_add(1_000_001)?, b'7').ok()?;
    text.push(last).ok()?;
    Some(text)
}

#[test]
fn canonical_text_of_a_long_version(rt: HostRuntime) -> Result<(), Fail> {
    let text = long_version(rt.alloc(), 1_000_000, b'7').ok_or("memory")?;
    let canonical = long_version(rt.alloc(), 0, b'7').ok_or("memory")?;
    assert!(rt; has_text(rt.alloc(), &text, &canonical) == Some(true));
    Ok(())
}

/// Appends the canonical text to a list with room for the epoch alone, which is written by then.
/// Whether the list then has the text, or after out of memory what it had before.
fn has_all_or_none(alloc: Global, version: &Version<'_>) -> Option<bool> {
    let mut out = Vec::with_capacity(alloc, 8).ok()?;
    out.extend_from_slice(b"====").ok()?;
    let wanted: &[u8] = match version.canon_into(&mut out) {
        Ok(()) => b"====1:1.0.0.0.0.0.0.0.0.0",
        Err(_) => b"====",
    };
    Some(out.as_slice() == wanted)
}

/// Each second growth is one of `canon_into`.
#[test]
fn want_of_memory_leaves_what_stands_before_a_version(rt: HostRuntime) -> Result<(), Fail> {
    let version = Version::parse(b"1:1.0.0.0.0.0.0.0.0.0")?;
    for _ in 0..150 {
        assert!(rt; has_all_or_none(rt.alloc(), &version) == Some(true));
    }
    Ok(())
}
