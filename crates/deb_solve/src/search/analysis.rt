//! What follows from a conflict for other sets.

ghost use Rattle.std.specs.Prelude.{◌≡◌, IfOk, IfSome};
ghost use Rattle.deb_solve.specs.Refuting.{IsNogood};

use super::{Cause, Conflict, Next, Outcome, Search};
use crate::health::row_of;
use crate::refuter::{Learned, Pivot, Reason, Refuter};
use std::alloc::{AllocError, Global};

/// The package of a list that entered the set last, and the latest of the others.
#[derive(Clone, Copy)]
struct Latest {
    package: u32,
    other: u32,
    /// The level of the other.
    level: u32,
}

impl Search<'_> {
    /// Derives a list from a conflict, and goes back to where it says something new.
    pub(super) fn analyse(
        &mut self,
        alloc: Global,
        known: &mut Refuter<'_>,
        conflict: Conflict,
    ) -> Result<Next, AllocError>
        ensures { known.new.universe.now ≡ known.old.universe.now }
    {
        let Some(list) = self.derive(alloc, known, conflict)? else {
            return Ok(Next::End(Outcome::Ended));
        };
        self.learn(alloc, known, &list)
    }

    /// Returns a list with only one package at its highest level.
    fn derive(
        &mut self,
        alloc: Global,
        known: &Refuter<'_>,
        conflict: Conflict,
    ) -> Result<Option<Vec<u32>>, AllocError>
        ensures { IfOk result (λ made. IfSome made
            (λ list. IsNogood known.now.universe.now list.items)) }
    {
        let Some(mut list) = self.list_of(alloc, known, conflict)? else {
            return Ok(None);
        };
        for _ in 0..self.value.len() {
            self.look(list.len());
            let Some(pivot) = self.pivot_of(&list) else {
                break;
            };
            self.note_pivot(alloc, known, pivot)?;
            let Some(next) = known.resolve(alloc, &list, pivot, &self.reason, &mut self.draft)?
            else {
                return Ok(None);
            };
            list = next;
        }
        Ok(Some(list))
    }

    /// Returns the list of packages that conflict.
    fn list_of(
        &mut self,
        alloc: Global,
        known: &Refuter<'_>,
        conflict: Conflict,
    ) -> Result<Option<Vec<u32>>, AllocError>
        ensures { IfOk result (λ made. IfSome made
            (λ list. IsNogood known.now.universe.now list.items)) }
    {
        match conflict {
            Conflict::Both { by, at } => {
                self.uses.add_exclusion(by, at);
                known.list_of(alloc, by, Reason::Excluded { by, at })
            }
            Conflict::List(number) => known.list_of(alloc, 0, Reason::Derived(number)),
            Conflict::Unmet(group) => self.list_of_unmet(alloc, known, group),
        }
    }

    fn list_of_unmet(
        &mut self,
        alloc: Global,
        known: &Refuter<'_>,
        group: u32,
    ) -> Result<Option<Vec<u32>>, AllocError>
        ensures { IfOk result (λ made. IfSome made
            (λ list. IsNogood known.now.universe.now list.items)) }
    {
        let Cause::Need { member, at } = self.needer_of(group) else {
            return Ok(None);
        };
        let Some(candidate) = row_of(&known.universe.groups, group).first().copied() else {
            return Ok(None);
        };
        let reason = self.reason_of(candidate);
        let Some(list) = known.list_of(alloc, candidate, reason)? else {
            return Ok(None);
        };
        let pivot = Pivot {
            member,
            at,
            candidate,
        };
        self.note_reason(alloc, known, candidate)?;
        self.note_pivot(alloc, known, pivot)?;
        known.resolve(alloc, &list, pivot, &self.reason, &mut self.draft)
    }

    /// Returns the latest package of a list and the need that it's there for, unless it's the only
    /// one of its level.
    fn pivot_of(&self, list: &[u32]) -> Option<Pivot> {
        let latest = self.latest(list)?;
        if latest.level < self.level_of(latest.package) {
            return None;
        }
        match self.cause_of(latest.package) {
            Cause::Chosen => None,
            Cause::Need { member, at } => Some(Pivot {
                member,
                at,
                candidate: latest.package,
            }),
        }
    }

    /// Returns the two latest packages of a list; of a list of one, that one, and level 0.
    fn latest(&self, list: &[u32]) -> Option<Latest> {
        let mut latest = Latest {
            package: list.first().copied()?,
            other: u32::MAX,
            level: 0,
        };
        for package in list.iter().skip(1) {
            if self.place_of(*package) > self.place_of(latest.package) {
                latest.other = latest.package;
                latest.level = self.level_of(latest.package);
                latest.package = *package;
            } else if latest.other == u32::MAX
                || self.place_of(*package) > self.place_of(latest.other)
            {
                latest.other = *package;
                latest.level = self.level_of(*package);
            }
        }
        Some(latest)
    }

    /// Keeps a list, and leaves out of the set what it then rules out.
    fn learn(
        &mut self,
        alloc: Global,
        known: &mut Refuter<'_>,
        list: &[u32],
    ) -> Result<Next, AllocError>
        requires { IsNogood known.old.universe.now list.now }
        ensures { known.new.universe.now ≡ known.old.universe.now }
    {
        let Some(latest) = self.latest(list) else {
            return Ok(Next::End(Outcome::Ended));
        };
        if latest.level >= self.level_of(latest.package) {
            return Ok(Next::End(Outcome::Ended));
        }
        match known.keep(list)? {
            Learned::Out(package) => {
                self.undo(0);
                self.prune_after(alloc, package, known)?;
                Ok(Next::Level(0))
            }
            Learned::List(number) => {
                self.watch(latest.package, latest.other)?;
                self.undo(latest.level);
                self.put_out(latest.package, Reason::Derived(number), latest.level)?;
                Ok(Next::Level(latest.level))
            }
        }
    }
}
