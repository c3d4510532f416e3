//! Ranks of paragraphs among those of one name and architecture, the latest version first.

ghost use Rattle.std.specs.Prelude.{◌≡◌, map, IfOk};
ghost use Rattle.std.specs.List.Sorted.{IsPermutation, IsSortedBy};
ghost use Rattle.std.specs.Option.{option_map};
ghost use Rattle.deb_version.specs.Version.{meaning_of};
ghost use Rattle.deb_diff.specs.Places.{comes_first, place_among, placing_cmp, placing_in, placing_of_ranked};
ghost use Rattle.deb_diff.specs.Ranks.{latest_first, rank, series_cmp, version_of, versions_cmp};

use crate::kept::Kept;
use deb_version::{Version, VersionText};
use itoa::Buffer;
use std::alloc::{AllocError, Global};
use std::cmp::Ordering;

/// What decides on the rank of a paragraph.
#[derive(Clone, Copy)]
pub(crate) struct Ranked<'a> {
    name: &'a [u8],
    architecture: &'a [u8],
    version: Option<Version<'a>>,
    number: u64,
}

/// Returns the place of each of these paragraphs among those that are left.
pub(crate) fn places(
    alloc: Global,
    kept: &[&Kept],
    left: &[&Kept],
) -> Result<Vec<Vec<u8>>, AllocError>
    ensures { IfOk result (λ keys. map (λ k. k.items) keys.items
        ≡ map (λ k. place_among (map (λ l. placing_in l.now) left.now) k.now) kept.now) }
{
    let sorted = sort_ranked(alloc, left)?;
    places_among(alloc, kept, &sorted)
}

/// Returns the places of paragraphs, given the entries of those that are left, in order.
fn places_among(
    alloc: Global,
    kept: &[&Kept],
    sorted: &[Ranked<'_>],
) -> Result<Vec<Vec<u8>>, AllocError>
    requires { IsSortedBy comes_first sorted.now }
    ensures { IfOk result (λ keys. map (λ k. k.items) keys.items
        ≡ map (λ k. place_among (map placing_of_ranked sorted.now) k.now) kept.now) }
{
    let mut keys = Vec::with_capacity(alloc, kept.len())?;
    for paragraph in kept {
        keys.push(place(alloc, sorted, *paragraph)?)?;
    }
    Ok(keys)
}

/// Returns the entries of paragraphs, in order.
fn sort_ranked<'a>(alloc: Global, left: &[&'a Kept]) -> Result<Vec<Ranked<'a>>, AllocError>
    ensures permutes { IfOk result (λ sorted. IsPermutation
        (map (λ l. placing_in l.now) left.now) (map placing_of_ranked sorted.items)) }
    ensures sorted { IfOk result (λ sorted. IsSortedBy comes_first sorted.items) }
{
    let mut entries = entries(alloc, left)?;
    entries.sort_by(|entry, other| compare(entry, other))?;
    Ok(entries)
}

fn entries<'a>(alloc: Global, left: &[&'a Kept]) -> Result<Vec<Ranked<'a>>, AllocError>
    ensures { IfOk result (λ entries. map placing_of_ranked entries.items
        ≡ map (λ l. placing_in l.now) left.now) }
{
    let mut entries = Vec::with_capacity(alloc, left.len())?;
    for kept in left {
        entries.push(ranked_of(*kept))?;
    }
    Ok(entries)
}

fn ranked_of(kept: &Kept) -> Ranked<'_>
    ensures { placing_of_ranked result ≡ placing_in kept.now }
{
    Ranked {
        name: kept.name(),
        architecture: kept.architecture(),
        version: version_of(kept.version()),
        number: kept.number,
    }
}

/// Returns the version that a text is, if it is one.
fn version_of(text: &[u8]) -> Option<Version<'_>>
    ensures { option_map meaning_of result ≡ version_of text.now }
{
    match VersionText::parse(text) {
        Ok(version) => Some(version.version()),
        Err(_) => None,
    }
}

/// Returns the order of two texts by their versions.
pub(crate) fn compare_versions(one: &[u8], other: &[u8]) -> Ordering
    ensures { result ≡ versions_cmp one.now other.now }
{
    version_of(one).cmp(&version_of(other))
}

/// Returns the order of two entries: by name and architecture, then the latest version first.
fn compare(entry: &Ranked<'_>, other: &Ranked<'_>) -> Ordering
    ensures { result ≡ placing_cmp (placing_of_ranked entry.now) (placing_of_ranked other.now) }
{
    let order = compare_series(entry, other);
    if order.is_ne() {
        return order;
    }
    compare_latest(entry, other)
}

fn compare_series(entry: &Ranked<'_>, other: &Ranked<'_>) -> Ordering
    ensures { result ≡ series_cmp (placing_of_ranked entry.now) (placing_of_ranked other.now) }
{
    let order = entry.name.cmp(other.name);
    if order.is_ne() {
        return order;
    }
    entry.architecture.cmp(other.architecture)
}

fn compare_latest(entry: &Ranked<'_>, other: &Ranked<'_>) -> Ordering
    ensures { result ≡ latest_first (placing_of_ranked entry.now) (placing_of_ranked other.now) }
{
    let order = other.version.cmp(&entry.version);
    if order.is_ne() {
        return order;
    }
    entry.number.cmp(&other.number)
}

/// Returns the place of a paragraph, given the entries of those that are left, in order.
fn place(alloc: Global, sorted: &[Ranked<'_>], kept: &Kept) -> Result<Vec<u8>, AllocError>
    requires { IsSortedBy comes_first sorted.now }
    ensures { IfOk result (λ key. key.items
        ≡ place_among (map placing_of_ranked sorted.now) kept.now) }
{
    let mut buffer = Buffer::new();
    let rank = rank(sorted, &ranked_of(kept)) as u64;
    let mut key = Vec::new(alloc);
    key.extend_from_slice(kept.name())?;
    key.push(b' ')?;
    key.extend_from_slice(kept.architecture())?;
    key.push(b' ')?;
    key.extend_from_slice(buffer.format(rank).as_bytes())?;
    Ok(key)
}

/// Returns how many entries go before one.
fn rank(sorted: &[Ranked<'_>], entry: &Ranked<'_>) -> usize
    requires { IsSortedBy comes_first sorted.now }
    ensures { result ≡ rank (map placing_of_ranked sorted.now) (placing_of_ranked entry.now) }
{
    let earlier = sorted.partition_point(|other| compare(other, entry).is_lt());
    let others = sorted.partition_point(|other| compare_series(other, entry).is_lt());
    earlier.saturating_sub(others)
}
