//! Tests of relations: the first step that fails and its offset, and canonical text of short and
//! long ones; and a long environment.

use crate::appended::is_appended;
use deb_relation::{Env, Group, Reason, Relation, RelationFault};
use deb_version::BadVersion;
use std::alloc::{AllocError, Global};
use std::test::Fail;

/// A text, and the reason and the offset of the step that fails.
struct Refused(&'static str, Reason, usize);

const REFUSED: [Refused; 63] = [
    // names
    Refused("a", Reason::NameBad, 0),
    Refused("${misc:Depends}", Reason::NameBad, 0),
    Refused("Aa", Reason::NameBad, 0),
    Refused("a_b", Reason::NameBad, 0),
    Refused("+a", Reason::NameBad, 0),
    Refused(" , a!", Reason::NameBad, 3),
    Refused("aa\r", Reason::NameBad, 0),
    Refused("aa\0", Reason::NameBad, 0),
    Refused("aa\u{e9}", Reason::NameBad, 0),
    Refused("aa | , bb", Reason::NameExpected, 5),
    Refused("| aa", Reason::NameExpected, 0),
    Refused("aa |", Reason::NameExpected, 4),
    Refused("aa | ", Reason::NameExpected, 5),
    Refused("(= 1)", Reason::NameExpected, 0),
    Refused(",:any", Reason::NameExpected, 1),
    Refused("aa |, bb", Reason::NameExpected, 4),
    Refused(":any", Reason::NameExpected, 0),
    // qualifiers
    Refused("aa:", Reason::QualifierBad, 3),
    Refused("aa: any", Reason::QualifierBad, 3),
    Refused("aa:Any", Reason::QualifierBad, 3),
    Refused("aa:a.b", Reason::QualifierBad, 3),
    Refused("aa:any:any", Reason::Trailing, 6),
    Refused("aa :any", Reason::Trailing, 3),
    Refused("\taa\n:any", Reason::Trailing, 4),
    // bounds
    Refused("aa (1.0)", Reason::OperatorBad, 4),
    Refused("aa (== 1)", Reason::OperatorBad, 4),
    Refused("aa (=< 1)", Reason::OperatorBad, 4),
    Refused("aa (<> 1)", Reason::OperatorBad, 4),
    Refused("aa (<", Reason::Version(BadVersion::Empty), 5),
    Refused("aa (=> 1)", Reason::OperatorBad, 4),
    Refused("aa (<>= 1)", Reason::OperatorBad, 4),
    Refused("aa (", Reason::OperatorBad, 4),
    Refused("aa ()", Reason::OperatorBad, 4),
    Refused(
        "aa (>= 1_0)",
        Reason::Version(BadVersion::UpstreamByte { at: 1 }),
        7,
    ),
    Refused("aa (>= 1", Reason::Unclosed, 8),
    Refused("aa (>= 1 2)", Reason::Unclosed, 9),
    Refused("aa (>= )", Reason::Version(BadVersion::Empty), 7),
    Refused("aa (>=", Reason::Version(BadVersion::Empty), 6),
    Refused(
        "aa (>= 1,2)",
        Reason::Version(BadVersion::UpstreamByte { at: 1 }),
        7,
    ),
    Refused(
        "aa (= 2147483648:1_)",
        Reason::Version(BadVersion::UpstreamByte { at: 12 }),
        6,
    ),
    Refused("aa (= 1) (= 2)", Reason::Trailing, 9),
    // lists
    Refused("aa [amd64 !i386]", Reason::MixedSigns, 10),
    Refused("aa [!amd64 i386]", Reason::MixedSigns, 11),
    Refused("aa [amd64 I386]", Reason::ItemBad, 10),
    Refused("aa [amd64 !I386]", Reason::ItemBad, 10),
    Refused("aa [!]", Reason::ItemBad, 4),
    Refused("aa [x !y", Reason::MixedSigns, 6),
    Refused("aa [amd64,i386]", Reason::ItemBad, 4),
    Refused("aa [! amd64]", Reason::ItemBad, 4),
    Refused("aa []", Reason::ListEmpty, 4),
    Refused("aa [ ", Reason::Unclosed, 5),
    Refused("aa [", Reason::Unclosed, 4),
    Refused("aa [x] [y]", Reason::Trailing, 7),
    Refused("aa <!>", Reason::ItemBad, 4),
    Refused("aa <!!x>", Reason::ItemBad, 4),
    Refused("aa <x", Reason::Unclosed, 5),
    Refused("aa < >", Reason::ListEmpty, 5),
    // after an alternative
    Refused("aa bb", Reason::Trailing, 3),
    Refused("aa)", Reason::Trailing, 2),
    Refused("aa]", Reason::Trailing, 2),
    Refused("aa>", Reason::Trailing, 2),
    Refused("aa [x] (= 1)", Reason::Trailing, 7),
    Refused("aa <x> [y]", Reason::Trailing, 7),
];

#[test]
fn texts_that_are_no_relations(rt: HostRuntime) {
    for Refused(text, reason, at) in &REFUSED {
        let found = Relation::parse(rt.alloc(), text.as_bytes()).err();
        let wanted = RelationFault::Bad {
            reason: *reason,
            at: *at,
        };
        assert!(rt; found == Some(wanted), "{text}: {found:?}");
    }
}

/// The longest row that is accepted.
const LONGEST: &[u8] =
    b"bb (>=1.0)|aa,, cc [i386 amd64 i386] <!x y> <z>,cc [amd64 i386] <z> <y !x> ,";

/// The step that fails in the first `len` bytes of that row, worked out by hand.
fn prefix_fault(len: usize) -> Option<(Reason, usize)> {
    match len {
        1 => Some((Reason::NameBad, 0)),
        4 => Some((Reason::OperatorBad, 4)),
        5 | 6 => Some((Reason::Version(BadVersion::Empty), len)),
        11 => Some((Reason::NameExpected, 11)),
        12 => Some((Reason::NameBad, 11)),
        17 => Some((Reason::NameBad, 16)),
        39 => Some((Reason::ItemBad, 38)),
        49 => Some((Reason::NameBad, 48)),
        72 => Some((Reason::ItemBad, 71)),
        7..=9 | 20..=35 | 38 | 40..=42 | 45 | 46 | 52..=62 | 65 | 66 | 69..=71 | 73 => {
            Some((Reason::Unclosed, len))
        }
        _ => None,
    }
}

/// The reason and the offset of the step that fails, or None.
fn fault_in(alloc: Global, text: &[u8]) -> Option<(Reason, usize)> {
    match Relation::parse(alloc, text) {
        Err(RelationFault::Bad { reason, at }) => Some((reason, at)),
        _ => None,
    }
}

#[test]
fn prefixes_of_a_relation(rt: HostRuntime) {
    for len in 0..=LONGEST.len() {
        let found = fault_in(rt.alloc(), &LONGEST[..len.min(LONGEST.len())]);
        assert!(rt; found == prefix_fault(len), "{len} bytes: {found:?}");
    }
}

/// Whether a relation has this canonical text, after what is there; None where a call fails.
fn has_text(alloc: Global, text: &[u8], canonical: &[u8]) -> Option<bool> {
    let relation = Relation::parse(alloc, text).ok()?;
    is_text_of(alloc, &relation, canonical)
}

fn is_text_of(alloc: Global, relation: &Relation<'_>, canonical: &[u8]) -> Option<bool> {
    let mut out = vec![in alloc; b'='; 2_000].ok()?;
    relation.canon_into(&mut out).ok()?;
    Some(is_appended(&out, canonical, relation.canon_len()))
}

#[test]
fn canonical_text(rt: HostRuntime) {
    let canonical: &[u8] = b"bb (>= 1.0) | aa, cc [amd64 i386] <!x y> <z>";
    assert!(rt; has_text(rt.alloc(), LONGEST, canonical) == Some(true));
    assert!(rt; has_text(rt.alloc(), b" , ,", b"") == Some(true));
}

/// The same of the groups of a relation.
fn groups_have_texts(alloc: Global, text: &[u8], canonical: [&[u8]; 2]) -> Option<bool> {
    let relation = Relation::parse(alloc, text).ok()?;
    match relation.groups() {
        [first, second] => are_texts_of(alloc, first, second, canonical),
        _ => None,
    }
}

fn are_texts_of(
    alloc: Global,
    first: &Group<'_>,
    second: &Group<'_>,
    canonical: [&[u8]; 2],
) -> Option<bool> {
    let is_first = group_has_text(alloc, first, canonical[0])?;
    let is_second = group_has_text(alloc, second, canonical[1])?;
    Some(is_first && is_second)
}

fn group_has_text(alloc: Global, group: &Group<'_>, canonical: &[u8]) -> Option<bool> {
    let mut out = vec![in alloc; b'='; 2_000].ok()?;
    group.canon_into(&mut out).ok()?;
    Some(is_appended(&out, canonical, group.canon_len()))
}

#[test]
fn groups_in_the_order_of_their_texts(rt: HostRuntime) {
    let texts: [&[u8]; 2] = [b"bb (>= 1.0) | aa", b"cc [amd64 i386] <!x y> <z>"];
    assert!(rt; groups_have_texts(rt.alloc(), LONGEST, texts) == Some(true));
}

/// All 17,576 names of three letters, each at the index of its distance from this number.
fn names(alloc: Global, from: u32, between: &[u8]) -> Option<Vec<u8>> {
    let mut text = Vec::new(alloc);
    for n in 0..17_576u32 {
        let front: &[u8] = if n > 0 { between } else { b"" };
        append_name(&mut text, front, from.abs_diff(n)).ok()?;
    }
    Some(text)
}

fn append_name(text: &mut Vec<u8>, front: &[u8], n: u32) -> Result<(), AllocError> {
    text.extend_from_slice(front)?;
    text.extend_from_slice(&[letter(n / 676), letter(n / 26), letter(n)])
}

fn letter(n: u32) -> u8 {
    b'a'.wrapping_add((n % 26) as u8)
}

/// Each group is twice, in descending order and then in ascending order.
#[test]
fn many_groups(rt: HostRuntime) {
    assert!(rt; are_many_groups(rt.alloc()) == Some(true));
}

fn are_many_groups(alloc: Global) -> Option<bool> {
    let canonical = names(alloc, 0, b", ")?;
    let text = twice(alloc, &canonical)?;
    has_text(alloc, &text, &canonical)
}

/// The names in descending order, and then a text.
fn twice(alloc: Global, ascending: &[u8]) -> Option<Vec<u8>> {
    let mut text = names(alloc, 17_575, b",")?;
    append_after(&mut text, b",", ascending).ok()?;
    Some(text)
}

fn append_after(text: &mut Vec<u8>, front: &[u8], end: &[u8]) -> Result<(), AllocError> {
    text.extend_from_slice(front)?;
    text.extend_from_slice(end)
}

#[test]
fn many_alternatives(rt: HostRuntime) {
    assert!(rt; are_many_alternatives(rt.alloc()) == Some(true));
}

fn are_many_alternatives(alloc: Global) -> Option<bool> {
    let text = names(alloc, 17_575, b" | ")?;
    has_text(alloc, &text, &text)
}

/// Appends what opens a list, all names and what ends it.
fn append_list(
    text: &mut Vec<u8>,
    alloc: Global,
    front: &[u8],
    between: &[u8],
    end: &[u8],
) -> Option<()> {
    let names = names(alloc, 0, between)?;
    text.extend_from_slice(front).ok()?;
    append_after(text, &names, end).ok()
}

/// A list of all names as architectures, one of all as profiles, and as many of one profile.
fn long_lists(alloc: Global) -> Option<Vec<u8>> {
    let mut text = Vec::new(alloc);
    append_list(&mut text, alloc, b"aa [", b" ", b"]")?;
    append_list(&mut text, alloc, b" <", b" ", b"> <")?;
    append_list(&mut text, alloc, b"", b"> <", b">")?;
    Some(text)
}

#[test]
fn an_alternative_of_long_lists(rt: HostRuntime) {
    assert!(rt; are_long_lists(rt.alloc()) == Some(true));
}

fn are_long_lists(alloc: Global) -> Option<bool> {
    let text = long_lists(alloc)?;
    has_text(alloc, &text, &text)
}

/// A target of ten thousand bytes, and a thousand profiles.
#[test]
fn a_long_environment(rt: HostRuntime) -> Result<(), Fail> {
    let name = vec![in rt.alloc(); b'a'; 10_000]?;
    assert!(rt; is_long(rt.alloc(), &name));
    Ok(())
}

/// Whether an environment has this name as its target, and as its last profile of a thousand.
fn is_long(alloc: Global, name: &[u8]) -> bool {
    let mut profiles = [b"nodoc".as_slice(); 1_000];
    profiles[999] = name;
    match Env::new(alloc, name, &profiles) {
        Ok(environment) => {
            environment.target() == name && environment.active(b"nodoc") && environment.active(name)
        }
        Err(_) => false,
    }
}

/// Appends the canonical text twice to a list without room. Whether the list has after each call
/// what was appended, and after out of memory what it had before.
fn has_all_or_none(alloc: Global, relation: &Relation<'_>) -> bool {
    let mut out = Vec::new(alloc);
    let first = relation.canon_into(&mut out).is_ok();
    if out.as_slice() != text_of(first, false) {
        return false;
    }
    let second = relation.canon_into(&mut out).is_ok();
    out.as_slice() == text_of(first, second)
}

/// What a list has after two calls that each appended the text or didn't.
fn text_of(first: bool, second: bool) -> &'static [u8] {
    match (first, second) {
        (true, true) => b"bb | aabb | aa",
        (true, false) | (false, true) => b"bb | aa",
        (false, false) => b"",
    }
}

/// Each growth after the first ones is one of `canon_into`.
#[test]
fn want_of_memory_leaves_what_stands_before_a_relation(rt: HostRuntime) -> Result<(), Fail> {
    let relation = Relation::parse(rt.alloc(), b"bb|aa")?;
    assert!(rt; have_all_or_none(rt.alloc(), &relation));
    Ok(())
}

fn have_all_or_none(alloc: Global, relation: &Relation<'_>) -> bool {
    for _ in 0..150 {
        if !has_all_or_none(alloc, relation) {
            return false;
        }
    }
    true
}

/// The same of a group.
fn group_has_all_or_none(alloc: Global, group: &Group<'_>) -> bool {
    let mut out = Vec::new(alloc);
    let first = group.canon_into(&mut out).is_ok();
    if out.as_slice() != text_of(first, false) {
        return false;
    }
    let second = group.canon_into(&mut out).is_ok();
    out.as_slice() == text_of(first, second)
}

#[test]
fn want_of_memory_leaves_what_stands_before_a_group(rt: HostRuntime) -> Result<(), Fail> {
    let relation = Relation::parse(rt.alloc(), b"bb|aa")?;
    assert!(rt; groups_have_all_or_none(rt.alloc(), relation.groups()));
    Ok(())
}

fn groups_have_all_or_none(alloc: Global, groups: &[Group<'_>]) -> bool {
    let [group] = groups else {
        return false;
    };
    for _ in 0..150 {
        if !group_has_all_or_none(alloc, group) {
            return false;
        }
    }
    true
}
