//! Pairs old paragraphs with new ones by their releases, then by their places.

ghost use Rattle.std.specs.Prelude.{◌≡◌, List, length, map, IfOk};
ghost use Rattle.deb_diff.specs.Items.{Item};
ghost use Rattle.deb_diff.specs.Kepts.{AreKept};
ghost use Rattle.deb_diff.specs.Pairings.{PairsByRelease, PairsByPlace};

use crate::became::{Became, all_became};
use crate::both::all_wait;
use crate::kept::Kept;
use crate::left::{lent, places_by, releases, without_partner};
use crate::partners::partners;
use crate::pool::Pool;
use std::alloc::{AllocError, Global};

/// The partners of old paragraphs, and which new ones have none.
#[derive(Drop)]
pub(crate) struct Partners {
    pub(crate) found: Vec<Option<usize>>,
    pub(crate) waits: Vec<bool>,
}

/// Pairs old paragraphs with new ones of the same release.
pub(crate) fn by_release(
    alloc: Global,
    old: &[&Kept],
    new: &[&Kept],
) -> Result<Partners, AllocError>
    ensures pairs { (items others : List Item) → AreKept (map (λ k. k.now) old.now) items
        → AreKept (map (λ k. k.now) new.now) others
        → IfOk result (PairsByRelease items others) }
    ensures found { IfOk result (λ partners. length partners.found.items ≡ length old.now) }
    ensures waits { IfOk result (λ partners. length partners.waits.items ≡ length new.now) }
{
    let releases_of_new = releases(alloc, new)?;
    let keys = lent(alloc, &releases_of_new)?;
    let waits = all_wait(alloc, new.len())?;
    let mut pool = Pool::of(alloc, &keys, waits)?;
    let releases_of_old = releases(alloc, old)?;
    let wanted = lent(alloc, &releases_of_old)?;
    let found = partners(alloc, &mut pool, &wanted)?;
    let waits = pool.into_waits();
    Ok(Partners { found, waits })
}

/// What became of old paragraphs, and which new ones were added.
#[derive(Drop)]
pub(crate) struct Outcome {
    pub(crate) became: Vec<Became>,
    pub(crate) waits: Vec<bool>,
}

/// Pairs old paragraphs that have no partner with new ones that wait, by their places among these.
pub(crate) fn by_place(
    alloc: Global,
    old: &[&Kept],
    new: &[&Kept],
    found: &[Option<usize>],
    waits: Vec<bool>,
) -> Result<Outcome, AllocError>
    requires found { length found.now ≡ length old.now }
    requires waits { length waits.items ≡ length new.now }
    ensures pairs { (items others : List Item) → AreKept (map (λ k. k.now) old.now) items
        → AreKept (map (λ k. k.now) new.now) others
        → IfOk result (PairsByPlace items others found.now waits.items) }
    ensures became { IfOk result (λ outcome. length outcome.became.items ≡ length found.now) }
    ensures waits { IfOk result (λ outcome. length outcome.waits.items ≡ length new.now) }
{
    let places_of_new = places_by(alloc, new, &waits)?;
    let keys = lent(alloc, &places_of_new)?;
    let mut pool = Pool::of(alloc, &keys, waits)?;
    let waits_of_old = without_partner(alloc, found)?;
    let places_of_old = places_by(alloc, old, &waits_of_old)?;
    let wanted = lent(alloc, &places_of_old)?;
    let became = all_became(alloc, found, &wanted, &mut pool)?;
    let waits = pool.into_waits();
    Ok(Outcome { became, waits })
}
