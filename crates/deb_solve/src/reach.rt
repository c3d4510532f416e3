//! The facts that can be reached from a package. Nothing depends on which they are.

use crate::facts::Fact;
use crate::health::row_of;
use crate::parts::candidates_of;
use crate::tables::{narrow, number_or, put};
use crate::universe::Universe;
use std::alloc::{AllocError, Global};

/// No more facts are reached when they have so many numbers.
const NUMBERS: usize = 2_000_000;

/// Packages that are reached from one, the nearest first.
#[derive(Drop)]
pub(crate) struct Reach {
    packages: Vec<u32>,
    /// Where a package is in `packages`, if it's there.
    places: Vec<u32>,
    /// The needs of the first packages.
    needs: Vec<Fact>,
    /// How many packages have their needs there.
    done: usize,
    /// How many numbers the needs have.
    numbers: usize,
}

impl Reach {
    pub(crate) fn new(alloc: Global, universe: &Universe) -> Result<Self, AllocError> {
        Ok(Reach {
            packages: Vec::new(alloc),
            places: vec![in alloc; 0u32; universe.needs.len()]?,
            needs: Vec::new(alloc),
            done: 0,
            numbers: 0,
        })
    }

    /// Begins with one package.
    pub(crate) fn begin(&mut self, number: u32) -> Result<(), AllocError> {
        self.packages.clear();
        self.needs.clear();
        self.done = 0;
        self.numbers = 0;
        self.add(number)
    }

    fn has(&self, package: u32) -> bool {
        let place = number_or(&self.places, package, u32::MAX);
        match self.packages.get(place as usize) {
            Some(found) => *found == package,
            None => false,
        }
    }

    /// Adds a package, if it's listed.
    fn add(&mut self, package: u32) -> Result<(), AllocError> {
        if (package as usize) < self.places.len() && !self.has(package) {
            put(&mut self.places, package, narrow(self.packages.len()));
            self.packages.push(package)?;
        }
        Ok(())
    }

    /// Returns whether all needs of all packages are there.
    pub(crate) fn is_whole(&self) -> bool {
        self.done >= self.packages.len()
    }

    /// Adds the needs of more packages, until so many have theirs.
    pub(crate) fn grow(&mut self, universe: &Universe, count: usize) -> Result<(), AllocError> {
        for at in self.done..count {
            let Some(member) = self.packages.get(at).copied() else {
                break
            };
            if self.numbers > NUMBERS {
                break;
            }
            for need in 0..narrow(row_of(&universe.needs, member).len()) {
                let fact = Fact::Needs { member, at: need };
                self.needs.push(fact)?;
                let candidates = candidates_of(universe, fact);
                self.numbers = self.numbers.saturating_add(candidates.len());
                for candidate in candidates {
                    self.add(*candidate)?;
                }
            }
            self.done = at.saturating_add(1);
        }
        Ok(())
    }

    /// Returns the needs, and the exclusions of packages that are there.
    pub(crate) fn facts(
        &self,
        alloc: Global,
        universe: &Universe,
    ) -> Result<Vec<Fact>, AllocError> {
        let mut facts = self.needs.to_vec(alloc)?;
        for by in &self.packages {
            for (at, other) in row_of(&universe.excludes, *by).iter().enumerate() {
                if facts.len() > NUMBERS {
                    return Ok(facts);
                }
                if self.has(*other) {
                    facts.push(Fact::Excludes {
                        by: *by,
                        at: narrow(at),
                    })?;
                }
            }
        }
        Ok(facts)
    }
}
