//! What became of old paragraphs.

ghost use Rattle.std.specs.Prelude.{◌≡◌, ℕ, List, length, map, IfOk};
ghost use Rattle.deb_diff.specs.Items.{Item};
ghost use Rattle.deb_diff.specs.Pools.{IsPoolOf};
ghost use Rattle.deb_diff.specs.Walks.{Becomes, BecomesOne};

use crate::pool::Pool;
use std::alloc::{AllocError, Global};

/// What became of an old paragraph: nothing, the new one with a number that has its release, or
/// one that has its place.
#[derive(Clone, Copy)]
pub(crate) enum Became {
    Nothing,
    Changed(usize),
    Upgraded(usize),
}

/// Returns what became of old paragraphs, given their partners by release and their places. Takes
/// those that they were upgraded to away from the pool.
pub(crate) fn all_became(
    alloc: Global,
    partners: &[Option<usize>],
    keys: &[&[u8]],
    pool: &mut Pool<'_>,
) -> Result<Vec<Became>, AllocError>
    requires { length keys.now ≡ length partners.now }
    ensures becomes { (items : List Item) (key : Item → List ℕ) → IsPoolOf (map key items) pool.old
        → IfOk result (λ made. Becomes items key partners.now (map (λ k. k.now) keys.now) pool.old
        made.items pool.new) }
    ensures made { IfOk result (λ made. length made.items ≡ length partners.now) }
    ensures waits { length pool.new.waits.items ≡ length pool.old.waits.items }
{
    let mut made = Vec::with_capacity(alloc, partners.len())?;
    for (number, partner) in partners.iter().enumerate() {
        made.push(became_of(*partner, keys[number], pool))?;
    }
    Ok(made)
}

/// Returns what became of one.
fn became_of(partner: Option<usize>, key: &[u8], pool: &mut Pool<'_>) -> Became
    ensures becomes { (items : List Item) (key_of : Item → List ℕ)
        → IsPoolOf (map key_of items) pool.old
        → BecomesOne items key_of partner key.now pool.old result pool.new }
    ensures waits { length pool.new.waits.items ≡ length pool.old.waits.items }
{
    if let Some(number) = partner {
        return Became::Changed(number);
    }
    match pool.take(key) {
        Some(number) => Became::Upgraded(number),
        None => Became::Nothing,
    }
}
