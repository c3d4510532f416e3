//! Which facts of a universe a search used. Nothing depends on what it notes.

use super::Search;
use crate::health::row_of;
use crate::refuter::{Pivot, Reason, Refuter};
use crate::tables::{narrow, number_or, put};
use crate::universe::Universe;
use std::alloc::{AllocError, Global};

/// What a search used: of a universe in which no two needs have the same group.
#[derive(Drop)]
pub(crate) struct Uses {
    groups: Vec<bool>,
    /// The exclusions, row after row.
    exclusions: Vec<bool>,
    /// Where the exclusions of each package start.
    starts: Vec<u32>,
    /// Of each package that was pruned the index of the need that nothing meets.
    pruned_at: Vec<u32>,
}

impl Uses {
    /// Notes nothing.
    pub(crate) fn none(alloc: Global) -> Self {
        Uses {
            groups: Vec::new(alloc),
            exclusions: Vec::new(alloc),
            starts: Vec::new(alloc),
            pruned_at: Vec::new(alloc),
        }
    }

    fn of(alloc: Global, universe: &Universe) -> Result<Self, AllocError> {
        let mut starts = Vec::new(alloc);
        let mut total = 0u32;
        for package in 0..narrow(universe.needs.len()) {
            starts.push(total)?;
            let row = row_of(&universe.excludes, package);
            total = total.saturating_add(narrow(row.len()));
        }
        Ok(Uses {
            groups: vec![in alloc; false; universe.groups.len()]?,
            exclusions: vec![in alloc; false; total as usize]?,
            starts,
            pruned_at: vec![in alloc; u32::MAX; universe.needs.len()]?,
        })
    }

    /// Returns whether a need was used, by its group.
    pub(crate) fn has_group(&self, group: u32) -> bool {
        has_mark(&self.groups, group)
    }

    /// Returns whether an exclusion was used.
    pub(crate) fn has_exclusion(&self, by: u32, at: u32) -> bool {
        has_mark(&self.exclusions, self.place_of(by, at))
    }

    fn place_of(&self, by: u32, at: u32) -> u32 {
        number_or(&self.starts, by, u32::MAX).saturating_add(at)
    }

    fn is_off(&self) -> bool {
        self.pruned_at.is_empty()
    }

    pub(super) fn add_exclusion(&mut self, by: u32, at: u32) {
        let place = self.place_of(by, at);
        mark(&mut self.exclusions, place);
    }

    pub(super) fn add_pruned(&mut self, package: u32, at: u32) {
        put(&mut self.pruned_at, package, at);
    }
}

fn has_mark(marks: &[bool], number: u32) -> bool {
    match marks.get(number as usize) {
        Some(mark) => *mark,
        None => false,
    }
}

fn mark(marks: &mut Vec<bool>, number: u32) {
    if (number as usize) < marks.len() {
        marks[number as usize] = true;
    }
}

impl Search<'_> {
    /// Begins to note what is used.
    pub(crate) fn note_uses(
        &mut self,
        alloc: Global,
        universe: &Universe,
    ) -> Result<(), AllocError> {
        self.uses = Uses::of(alloc, universe)?;
        Ok(())
    }

    /// Notes a need, and what rules out the other packages that can meet it.
    pub(super) fn note_pivot(
        &mut self,
        alloc: Global,
        known: &Refuter<'_>,
        pivot: Pivot,
    ) -> Result<(), AllocError> {
        if self.uses.is_off() {
            return Ok(());
        }
        let needs = row_of(&known.universe.needs, pivot.member);
        let group = number_or(needs, pivot.at, u32::MAX);
        mark(&mut self.uses.groups, group);
        for candidate in row_of(&known.universe.groups, group) {
            if *candidate != pivot.candidate {
                self.note_reason(alloc, known, *candidate)?;
            }
        }
        Ok(())
    }

    /// Notes why a package isn't in the set.
    pub(super) fn note_reason(
        &mut self,
        alloc: Global,
        known: &Refuter<'_>,
        package: u32,
    ) -> Result<(), AllocError> {
        match self.reason_of(package) {
            Reason::Excluded { by, at } => self.uses.add_exclusion(by, at),
            Reason::Derived(_) => {}
            Reason::Out => self.note_out(alloc, known, package)?,
        }
        Ok(())
    }

    /// Notes why a package is out, if it was pruned: a need of it, and of each package that could
    /// meet that.
    pub(crate) fn note_out(
        &mut self,
        alloc: Global,
        known: &Refuter<'_>,
        package: u32,
    ) -> Result<(), AllocError> {
        if self.uses.is_off() {
            return Ok(());
        }
        let mut stack = vec![in alloc; package]?;
        for _ in 0..u32::MAX {
            let Some(next) = stack.pop() else {
                break;
            };
            let at = number_or(&self.uses.pruned_at, next, u32::MAX);
            let group = number_or(row_of(&known.universe.needs, next), at, u32::MAX);
            if !self.uses.has_group(group) {
                mark(&mut self.uses.groups, group);
                stack.extend_from_slice(row_of(&known.universe.groups, group))?;
            }
        }
        Ok(())
    }
}
