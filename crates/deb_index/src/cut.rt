//! Cuts the canonical text of Provides into the entries that provide a name.

ghost use Rattle.std.specs.Prelude.{◌≡◌, ◌<◌, ◌≤◌, ◌^◌, ◌==◌, ◌&&◌, not, drop, length, IfSome, OnOk};
ghost use Rattle.std.specs.List.{prefix_len};
ghost use Rattle.std.specs.Option.{option_map};
ghost use Rattle.deb_relation.specs.Meaning.{Alternative, Group, Relation};
ghost use Rattle.deb_relation.specs.Regular.{IsRegular, IsRegularGroup, IsRegularRelation};
ghost use Rattle.deb_relation.specs.Texts.{group_text, relation_text};
ghost use Rattle.deb_index.specs.Entries.{AppendsEntries, BehindName, HasNoFault, IsEntry, IsVersionPlace};
ghost use Rattle.deb_index.specs.Listed.{provided_by, provisions_of};
ghost use Rattle.deb_index.specs.Spans.{part};

use crate::entry::Entry;
use crate::span::part;
use std::alloc::AllocError;

/// How many bytes come before the first one that is this byte.
pub(crate) fn before(text: &[u8], byte: u8) -> usize
    ensures value { result ≡ prefix_len (λ b. not (b == byte)) text.now }
    ensures bound { result ≤ length text.now }
{
    text.iter().take_while(|other| **other != byte).count()
}

/// How many bytes the name has that an alternative begins with.
fn name_len(text: &[u8]) -> usize
    ensures value { result ≡ prefix_len (λ b. not (b == 32) && not (b == 58)) text.now }
    ensures bound { result ≤ length text.now }
{
    text.iter()
        .take_while(|byte| **byte != b' ' && **byte != b':')
        .count()
}

/// The offsets of the version in what follows the name of an alternative, if that is nothing or a
/// bound alone. Of nothing they are those of the empty text at the start.
fn version_offsets(after: &[u8]) -> Option<(usize, usize)>
    ensures within { IfSome result (λ p. (p.0 ≤ p.1) × (p.1 ≤ length after.now)) }
    ensures offsets { (a : Alternative) (others : Group) → IsRegular a
        → BehindName a others after.now → IsVersionPlace a others after.now result }
    ensures faultless { (a : Alternative) (others : Group) → IsRegular a
        → BehindName a others after.now
        → IfSome result (λ p. HasNoFault (part p.0 p.1 after.now)) }
{
    if after.is_empty() {
        return Some((0, 0));
    }
    if after.len() < 2 {
        return None;
    }
    let open = before(after, b'(');
    if open != 1 {
        return None;
    }
    let rest = &after[2..];
    let close = before(rest, b')');
    if close + 1 != rest.len() {
        return None;
    }
    let space = before(rest, b' ');
    if space < close {
        Some((space + 3, close + 2))
    } else {
        None
    }
}

/// The entry between two offsets of a text, if it is a name alone or with a version.
fn plain_entry(text: &[u8], start: usize, end: usize, number: u32) -> Option<Entry>
    requires in_order { start ≤ end }
    requires within { end ≤ length text.now }
    requires short { length text.now < 2 ^ 32 }
    ensures { (group : Group) → IsRegularGroup group → part start end text.now ≡ group_text group
        → IsEntry text.now number result (provided_by group) }
{
    let group = part(text, start, end);
    let (name, after) = group.split_at(name_len(group));
    match version_offsets(after) {
        Some((from, to)) => Some(Entry {
            start: start as u32,
            name_end: (start + name.len()) as u32,
            version: (start + name.len() + from) as u32,
            end: (start + name.len() + to) as u32,
            number,
        }),
        None => None,
    }
}

/// Appends the entry between two offsets of a text, if it is a name alone or with a version.
fn append_entry(
    text: &[u8],
    start: usize,
    end: usize,
    number: u32,
    entries: &mut Vec<Entry>,
) -> Result<(), AllocError>
    requires in_order { start ≤ end }
    requires within { end ≤ length text.now }
    requires short { length text.now < 2 ^ 32 }
    ensures { (group : Group) → IsRegularGroup group → part start end text.now ≡ group_text group
        → OnOk result (AppendsEntries text.now number entries.old.items entries.new.items
        (provided_by group)) }
{
    match plain_entry(text, start, end, number) {
        Some(entry) => {
            entries.push(entry)?;
            Ok(())
        }
        None => Ok(()),
    }
}

/// Appends the entries of a canonical relation that are a name alone or with a version. The
/// relation is the end of a text from an offset on. Out of memory is also returned if an entry
/// can't hold the offsets of the text.
pub(crate) fn append_entries(
    text: &[u8],
    offset: usize,
    number: u32,
    entries: &mut Vec<Entry>,
) -> Result<(), AllocError>
    ensures { (m : Relation) → IsRegularRelation m → drop offset text.now ≡ relation_text m
        → OnOk result (AppendsEntries text.now number entries.old.items entries.new.items
        (provisions_of m)) }
{
    if text.len() > u32::MAX as usize {
        return Err(AllocError);
    }
    let mut start = offset;
    while start < text.len() {
        let end = start + before(&text[start..], b',');
        append_entry(text, start, end, number, entries)?;
        start = end + 2;
    }
    Ok(())
}
