//! Elements of a list that aren't paired yet.

ghost use Rattle.std.specs.Prelude.{◌≡◌, ℕ, List, length, map, IfOk};
ghost use Rattle.deb_diff.specs.Items.{Item};
ghost use Rattle.deb_diff.specs.Pools.{IsPoolOf, Takes, numbers_of, pick};
ghost use Rattle.deb_diff.specs.Waiting.{numbers_under};

use crate::waiting::Waiting;
use std::alloc::{AllocError, Global};

/// The elements of a list that aren't paired yet, and their numbers by their keys.
#[derive(Drop)]
pub(crate) struct Pool<'a> {
    waiting: Waiting<'a>,
    waits: Vec<bool>,
}

impl<'a> Pool<'a> {
    /// A pool of the elements with these keys that wait.
    pub(crate) fn of(
        alloc: Global,
        keys: &[&'a [u8]],
        waits: Vec<bool>,
    ) -> Result<Pool<'a>, AllocError>
        requires { length waits.items ≡ length keys.now }
        ensures pool { IfOk result (λ pool. IsPoolOf (map (λ k. k.now) keys.now) pool) }
        ensures waits { IfOk result (λ pool. pool.waits.items ≡ waits.items) }
    {
        let waiting = waiting_of(alloc, keys, &waits)?;
        Ok(Pool { waiting, waits })
    }

    /// Takes the earliest element with a key away, and returns its number.
    pub(crate) fn take(&mut self, key: &[u8]) -> Option<usize>
        ensures takes { (items : List Item) (key_of : Item → List ℕ)
            → IsPoolOf (map key_of items) self.old
            → Takes items key_of key.now self.old result self.new }
        ensures count { length self.new.waits.items ≡ length self.old.waits.items }
    {
        let Some(number) = self.waiting.take(key) else {
            return None;
        };
        if number < self.waits.len() {
            self.waits[number] = false;
        }
        Some(number)
    }

    /// Returns which elements wait.
    pub(crate) fn into_waits(self) -> Vec<bool>
        ensures { result.items ≡ self.entry.waits.items }
    {
        self.waits
    }
}

/// Returns the numbers of the elements that wait, under their keys.
fn waiting_of<'a>(
    alloc: Global,
    keys: &[&'a [u8]],
    waits: &[bool],
) -> Result<Waiting<'a>, AllocError>
    requires { length waits.now ≡ length keys.now }
    ensures { IfOk result (λ waiting. (key : List ℕ) → numbers_under waiting key
        ≡ numbers_of key (pick 0 (map (λ k. k.now) keys.now) waits.now)) }
{
    let mut waiting = Waiting::new(alloc);
    for (number, key) in keys.iter().enumerate() {
        if waits[number] {
            waiting.push(alloc, *key, number)?;
        }
    }
    Ok(waiting)
}
