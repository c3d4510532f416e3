//! The packages that need what nothing can meet.

ghost use Rattle.std.specs.Prelude.{◌≡◌};

use super::Search;
use crate::health::row_of;
use crate::refuter::Refuter;
use crate::tables::{narrow, put};
use std::alloc::{AllocError, Global};

impl Search<'_> {
    /// Finds each package that needs a group that nothing can meet.
    pub(crate) fn prune_all(
        &mut self,
        alloc: Global,
        known: &mut Refuter<'_>,
    ) -> Result<(), AllocError>
        ensures { known.new.universe.now ≡ known.old.universe.now }
    {
        let mut queue = Vec::new(alloc);
        for package in 0..narrow(self.value.len()) {
            if let Some(at) = self.unmet_need(known, package) {
                self.prune(known, package, at, &mut queue)?;
            }
        }
        self.prune_from(&mut queue, known)
    }

    /// Does so after one package was found to be out.
    pub(super) fn prune_after(
        &mut self,
        alloc: Global,
        package: u32,
        known: &mut Refuter<'_>,
    ) -> Result<(), AllocError>
        ensures { known.new.universe.now ≡ known.old.universe.now }
    {
        let mut queue = Vec::new(alloc);
        self.drop_candidate(package, &mut queue)?;
        self.prune_from(&mut queue, known)
    }

    /// Returns the index of a need of a package that nothing can meet.
    fn unmet_need(&self, known: &Refuter<'_>, package: u32) -> Option<u32> {
        for (at, group) in row_of(&known.universe.needs, package).iter().enumerate() {
            if self.live_of(*group) == 0 {
                return Some(narrow(at));
            }
        }
        None
    }

    fn prune(
        &mut self,
        known: &mut Refuter<'_>,
        package: u32,
        at: u32,
        queue: &mut Vec<u32>,
    ) -> Result<(), AllocError>
        ensures { known.new.universe.now ≡ known.old.universe.now }
    {
        if !known.is_out(package) && known.prune(package, at) {
            self.uses.add_pruned(package, at);
            self.drop_candidate(package, queue)?;
        }
        Ok(())
    }

    /// A package is out: its groups have one candidate less. Those that have none join the queue.
    fn drop_candidate(&mut self, package: u32, queue: &mut Vec<u32>) -> Result<(), AllocError> {
        self.lose(package);
        for group in self.tables.met_by.rows_with(package) {
            let left = self.live_of(*group).wrapping_sub(1);
            put(&mut self.live, *group, left);
            if left == 0 {
                queue.push(*group)?;
            }
        }
        Ok(())
    }

    /// Goes over groups without candidates.
    fn prune_from(
        &mut self,
        queue: &mut Vec<u32>,
        known: &mut Refuter<'_>,
    ) -> Result<(), AllocError>
        ensures { known.new.universe.now ≡ known.old.universe.now }
    {
        let tables = self.tables;
        for next in 0..self.live.len() {
            let Some(group) = queue.get(next).copied() else {
                return Ok(());
            };
            for package in tables.needers.rows_with(group) {
                if known.is_out(*package) {
                    continue;
                }
                if let Some(at) = self.unmet_need(known, *package) {
                    self.prune(known, *package, at, queue)?;
                }
            }
        }
        Ok(())
    }
}
