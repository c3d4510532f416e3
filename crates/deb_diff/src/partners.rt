//! Pairs elements with those of a pool.

ghost use Rattle.std.specs.Prelude.{◌≡◌, List, ℕ, length, map, OnOk, IfOk};
ghost use Rattle.deb_diff.specs.Items.{Item};
ghost use Rattle.deb_diff.specs.Partners.{Pairs};
ghost use Rattle.deb_diff.specs.Pools.{IsPoolOf};

use crate::pool::Pool;
use std::alloc::{AllocError, Global};

/// Takes the partner of each of these keys away from the pool, in their order, and returns its
/// number, or none.
pub(crate) fn partners(
    alloc: Global,
    pool: &mut Pool<'_>,
    keys: &[&[u8]],
) -> Result<Vec<Option<usize>>, AllocError>
    ensures pairs { (items : List Item) (key : Item → List ℕ) → IsPoolOf (map key items) pool.old
        → IfOk result (λ found. Pairs items key (map (λ k. k.now) keys.now) pool.old found.items
        pool.new) }
    ensures found { IfOk result (λ found. length found.items ≡ length keys.now) }
    ensures waits { length pool.new.waits.items ≡ length pool.old.waits.items }
{
    let mut found = Vec::with_capacity(alloc, keys.len())?;
    for key in keys {
        found.push(pool.take(*key))?;
    }
    Ok(found)
}
