//! A set that grows by whole packages with what they need. `health` checks it.

use crate::health::row_of;
use crate::refuter::Refuter;
use crate::search::Search;
use crate::tables::{number_or, put};
use crate::universe::Universe;
use std::alloc::{AllocError, Global};

/// All growths look at most at this many times the numbers of the universe.
const NUMBERS: usize = 32;

/// A set of packages.
#[derive(Drop)]
pub(crate) struct Growth {
    is_member: Vec<bool>,
    /// Of each package how many numbers of rows say that it and a member exclude one another.
    blocks: Vec<u32>,
    pub(crate) members: Vec<u32>,
    /// Groups that several packages can meet.
    choices: Vec<u32>,
    /// How many numbers all growths may still look at.
    left: usize,
}

impl Growth {
    pub(crate) fn new(alloc: Global, universe: &Universe) -> Result<Self, AllocError> {
        let count = universe.needs.len();
        Ok(Growth {
            is_member: vec![in alloc; false; count]?,
            blocks: vec![in alloc; 0u32; count]?,
            members: Vec::new(alloc),
            choices: Vec::new(alloc),
            left: universe
                .size()
                .saturating_add(count)
                .saturating_mul(NUMBERS),
        })
    }

    /// Begins again with these packages.
    pub(crate) fn begin(
        &mut self,
        known: &Refuter<'_>,
        search: &Search<'_>,
        members: &[u32],
    ) -> Result<(), AllocError> {
        let count = self.is_member.len();
        self.look(count);
        self.leave_from(known, search, 0);
        for member in members {
            self.join(known, search, *member)?;
        }
        Ok(())
    }

    /// Adds a package and what it needs, by the first packages that can meet it, or nothing.
    pub(crate) fn add(
        &mut self,
        known: &Refuter<'_>,
        search: &Search<'_>,
        package: u32,
    ) -> Result<(), AllocError> {
        if self.left == 0 || self.is_member(package) || self.is_blocked(known, package) {
            return Ok(());
        }
        let start = self.members.len();
        self.choices.clear();
        self.join(known, search, package)?;
        if !self.complete(known, search, start)? {
            self.leave_from(known, search, start);
        }
        Ok(())
    }

    /// Adds what the members from an index on need; returns whether all of it could be added.
    fn complete(
        &mut self,
        known: &Refuter<'_>,
        search: &Search<'_>,
        start: usize,
    ) -> Result<bool, AllocError> {
        let mut at = start;
        let mut next = 0usize;
        for _ in 0..u32::MAX {
            let is_met = if let Some(member) = self.members.get(at).copied() {
                at = at.saturating_add(1);
                self.meet_single(known, search, member)?
            } else if let Some(group) = self.choices.get(next).copied() {
                next = next.saturating_add(1);
                self.meet(known, search, group)?
            } else {
                return Ok(true);
            };
            if !is_met || self.left == 0 {
                return Ok(false);
            }
        }
        Ok(false)
    }

    /// Meets the groups of a member that only one package can meet, and keeps the others.
    fn meet_single(
        &mut self,
        known: &Refuter<'_>,
        search: &Search<'_>,
        member: u32,
    ) -> Result<bool, AllocError> {
        for group in row_of(&known.universe.needs, member) {
            let candidates = row_of(&known.universe.groups, *group);
            self.look(1);
            if search.is_choice(*group) {
                if !self.some_member(candidates) {
                    self.choices.push(*group)?;
                }
            } else if !self.meet(known, search, *group)? {
                return Ok(false);
            }
        }
        Ok(true)
    }

    /// Adds the first package that can meet a group, if no member does; returns whether one does.
    fn meet(
        &mut self,
        known: &Refuter<'_>,
        search: &Search<'_>,
        group: u32,
    ) -> Result<bool, AllocError> {
        let candidates = row_of(&known.universe.groups, group);
        if self.some_member(candidates) {
            return Ok(true);
        }
        for candidate in candidates {
            self.look(1);
            if !self.is_blocked(known, *candidate) {
                self.join(known, search, *candidate)?;
                return Ok(true);
            }
        }
        Ok(false)
    }

    fn is_member(&self, package: u32) -> bool {
        match self.is_member.get(package as usize) {
            Some(is_member) => *is_member,
            None => false,
        }
    }

    fn some_member(&mut self, packages: &[u32]) -> bool {
        for package in packages {
            self.look(1);
            if self.is_member(*package) {
                return true;
            }
        }
        false
    }

    fn is_blocked(&self, known: &Refuter<'_>, package: u32) -> bool {
        (package as usize) >= self.is_member.len()
            || known.is_out(package)
            || number_or(&self.blocks, package, 0) > 0
    }

    /// Notes that the growth looks at so many numbers.
    fn look(&mut self, numbers: usize) {
        self.left = self.left.saturating_sub(numbers);
    }

    fn set_member(&mut self, package: u32, is_member: bool) {
        if (package as usize) < self.is_member.len() {
            self.is_member[package as usize] = is_member;
        }
    }

    fn join(
        &mut self,
        known: &Refuter<'_>,
        search: &Search<'_>,
        package: u32,
    ) -> Result<(), AllocError> {
        self.members.push(package)?;
        self.set_member(package, true);
        self.block(row_of(&known.universe.excludes, package), 1);
        self.block(search.tables.excluders.rows_with(package), 1);
        Ok(())
    }

    /// Adds a number to the blocks of packages.
    fn block(&mut self, packages: &[u32], number: u32) {
        self.look(packages.len());
        for package in packages {
            let blocks = number_or(&self.blocks, *package, 0);
            put(&mut self.blocks, *package, blocks.wrapping_add(number));
        }
    }

    /// Takes the members from an index on out.
    fn leave_from(&mut self, known: &Refuter<'_>, search: &Search<'_>, start: usize) {
        for at in start..self.members.len() {
            if let Some(member) = self.members.get(at).copied() {
                self.set_member(member, false);
                self.block(row_of(&known.universe.excludes, member), u32::MAX);
                self.block(search.tables.excluders.rows_with(member), u32::MAX);
            }
        }
        self.members.truncate(start);
    }
}
