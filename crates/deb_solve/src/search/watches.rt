//! Derived lists: one package of each has to stay out of the set. Each list waits for two of its
//! packages, those that aren't in the set as long as there are two.

use super::{Conflict, Search, Value, Watch};
use crate::refuter::{Reason, Refuter};
use crate::tables::{narrow, number_or, put};
use std::alloc::AllocError;

/// What a list does when a package that it waits for enters the set.
#[derive(Clone, Copy)]
enum Visit {
    /// It still waits for the package.
    Stays,
    /// It waits for another package in place of it.
    Moves(u32),
    /// All of its packages are in the set.
    Fails,
}

/// Returns the other watch of a list.
fn partner(watch: u32) -> u32 {
    watch ^ 1
}

impl Search<'_> {
    /// Begins to watch the next list, by two of its packages.
    pub(super) fn watch(&mut self, one: u32, other: u32) -> Result<(), AllocError> {
        self.add_watch(one)?;
        self.add_watch(other)
    }

    fn add_watch(&mut self, package: u32) -> Result<(), AllocError> {
        let watch = narrow(self.watches.len());
        let next = u32::MAX;
        self.watches.push(Watch { package, next })?;
        self.link(watch, package);
        Ok(())
    }

    /// Begins again without derived lists.
    pub(super) fn forget_lists(&mut self) {
        self.undo(0);
        self.watches.clear();
        for package in 0..narrow(self.first_watch.len()) {
            put(&mut self.first_watch, package, u32::MAX);
        }
    }

    /// Lets a watch wait for a package.
    fn link(&mut self, watch: u32, package: u32) {
        let next = number_or(&self.first_watch, package, u32::MAX);
        if (watch as usize) < self.watches.len() {
            self.watches[watch as usize] = Watch { package, next };
        }
        put(&mut self.first_watch, package, watch);
    }

    /// Takes the watch after another one, or the first, out of those for a package.
    fn unlink(&mut self, package: u32, before: Option<u32>, next: u32) {
        match before {
            None => put(&mut self.first_watch, package, next),
            Some(before) => {
                if (before as usize) < self.watches.len() {
                    let package = self.watches[before as usize].package;
                    self.watches[before as usize] = Watch { package, next };
                }
            }
        }
    }

    /// Goes over the lists that wait for a package, which is in the set.
    pub(super) fn visit_watches(
        &mut self,
        known: &Refuter<'_>,
        package: u32,
        level: u32,
    ) -> Result<Option<Conflict>, AllocError> {
        let mut before = None;
        let mut watch = number_or(&self.first_watch, package, u32::MAX);
        for _ in 0..self.watches.len() {
            let Some(found) = self.watches.get(watch as usize).copied() else {
                break;
            };
            self.look(1);
            match self.visit(known, watch, level)? {
                Visit::Stays => before = Some(watch),
                Visit::Moves(other) => {
                    self.unlink(package, before, found.next);
                    self.link(watch, other);
                }
                Visit::Fails => return Ok(Some(Conflict::List(watch / 2))),
            }
            watch = found.next;
        }
        Ok(None)
    }

    /// Looks for another package that a list can wait for. If there is none, the package of the
    /// other watch is put out of the set.
    fn visit(&mut self, known: &Refuter<'_>, watch: u32, level: u32) -> Result<Visit, AllocError> {
        let other = match self.watches.get(partner(watch) as usize) {
            Some(other) => other.package,
            None => return Ok(Visit::Stays),
        };
        let value = self.value_of(other);
        if value == Value::Out {
            return Ok(Visit::Stays);
        }
        for package in known.list(watch / 2).unwrap_or(&[]) {
            self.look(1);
            if *package != other && self.value_of(*package) != Value::In {
                return Ok(Visit::Moves(*package));
            }
        }
        if value == Value::In {
            return Ok(Visit::Fails);
        }
        self.put_out(other, Reason::Derived(watch / 2), level)?;
        Ok(Visit::Stays)
    }
}
