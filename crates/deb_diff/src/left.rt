//! Paragraphs that wait, and what they are paired by.

ghost use Rattle.std.specs.Prelude.{◌≡◌, length, map, IfOk};
ghost use Rattle.std.specs.Option.{is_none};
ghost use Rattle.deb_diff.specs.Lefts.{release_in};
ghost use Rattle.deb_diff.specs.Places.{place_in};
ghost use Rattle.deb_diff.specs.Pools.{pick, waiting_in};

use crate::kept::Kept;
use crate::ranks::places;
use std::alloc::{AllocError, Global};

/// Returns the paragraphs that wait.
pub(crate) fn waiting<'a>(
    alloc: Global,
    kept: &'a [Kept],
    waits: &[bool],
) -> Result<Vec<&'a Kept>, AllocError>
    requires { length waits.now ≡ length kept.now }
    ensures { IfOk result
        (λ left. map (λ k. k.now) left.items ≡ map (λ e. e.1) (pick 0 kept.now waits.now)) }
{
    let mut left = Vec::new(alloc);
    for (number, paragraph) in kept.iter().enumerate() {
        if waits[number] {
            left.push(paragraph)?;
        }
    }
    Ok(left)
}

/// Returns the name, the version and the architecture of each paragraph.
pub(crate) fn releases(alloc: Global, kept: &[&Kept]) -> Result<Vec<Vec<u8>>, AllocError>
    ensures { IfOk result
        (λ keys. map (λ k. k.items) keys.items ≡ map (λ k. release_in k.now) kept.now) }
{
    let mut keys = Vec::with_capacity(alloc, kept.len())?;
    for paragraph in kept {
        keys.push(release(alloc, *paragraph)?)?;
    }
    Ok(keys)
}

fn release(alloc: Global, kept: &Kept) -> Result<Vec<u8>, AllocError>
    ensures { IfOk result (λ key. key.items ≡ release_in kept.now) }
{
    let mut key = Vec::new(alloc);
    key.extend_from_slice(kept.name())?;
    key.push(b' ')?;
    key.extend_from_slice(kept.version())?;
    key.push(b' ')?;
    key.extend_from_slice(kept.architecture())?;
    Ok(key)
}

/// Returns the places of paragraphs, each among those of them that wait.
pub(crate) fn places_by(
    alloc: Global,
    kept: &[&Kept],
    waits: &[bool],
) -> Result<Vec<Vec<u8>>, AllocError>
    requires { length waits.now ≡ length kept.now }
    ensures { IfOk result (λ keys. map (λ k. k.items) keys.items ≡ map
        (λ k. place_in (waiting_in (map (λ k. k.now) kept.now) waits.now) k.now) kept.now) }
{
    let left = lent_waiting(alloc, kept, waits)?;
    places(alloc, kept, &left)
}

/// Returns those of some borrowed paragraphs that wait.
fn lent_waiting<'a>(
    alloc: Global,
    kept: &[&'a Kept],
    waits: &[bool],
) -> Result<Vec<&'a Kept>, AllocError>
    requires { length waits.now ≡ length kept.now }
    ensures { IfOk result (λ left. left.items ≡ waiting_in kept.now waits.now) }
{
    let mut left = Vec::new(alloc);
    for (number, paragraph) in kept.iter().enumerate() {
        if waits[number] {
            left.push(*paragraph)?;
        }
    }
    Ok(left)
}

/// Returns which paragraphs have no partner.
pub(crate) fn without_partner(
    alloc: Global,
    found: &[Option<usize>],
) -> Result<Vec<bool>, AllocError>
    ensures { IfOk result (λ waits. waits.items ≡ map is_none found.now) }
{
    let mut waits = Vec::with_capacity(alloc, found.len())?;
    for partner in found {
        waits.push(partner.is_none())?;
    }
    Ok(waits)
}

/// Lends each key.
pub(crate) fn lent<'a>(alloc: Global, keys: &'a [Vec<u8>]) -> Result<Vec<&'a [u8]>, AllocError>
    ensures { IfOk result (λ lent. map (λ k. k.now) lent.items ≡ map (λ k. k.items) keys.now) }
{
    let mut lent = Vec::with_capacity(alloc, keys.len())?;
    for key in keys {
        lent.push(key.as_slice())?;
    }
    Ok(lent)
}
