//! The search for few facts that rule a package out. Nothing that it finds is trusted.

use crate::budget::Budget;
use crate::facts::Fact;
use crate::parts::{Locals, part_of};
use crate::reach::Reach;
use crate::reasoning::{Refutation, refute};
use crate::tables::{narrow, number_or, put};
use crate::universe::Universe;
use std::alloc::{AllocError, Global};

/// No more facts than this are returned.
const MOST: usize = 10_000;

/// The making of a universe counts a step for each so many numbers.
const NUMBERS: usize = 100;

/// The search for facts that rule a package out.
#[derive(Drop)]
pub(crate) struct Finder<'u> {
    universe: &'u Universe,
    number: u32,
    /// How many steps are left.
    steps: u32,
}

impl<'u> Finder<'u> {
    pub(crate) fn new(universe: &'u Universe, number: u32, budget: Budget) -> Self {
        Finder {
            universe,
            number,
            steps: budget.one_search,
        }
    }

    /// Returns facts that rule the package out, with none that can be left out if the steps are
    /// enough to find that out.
    pub(crate) fn find(
        &mut self,
        alloc: Global,
        locals: &mut Locals,
        reach: &mut Reach,
    ) -> Result<Option<Vec<Fact>>, AllocError> {
        let Some(found) = self.first(alloc, locals, reach)? else {
            return Ok(None);
        };
        let mut facts = self.used_again(alloc, locals, found)?;
        let mut size = facts.len() / 2;
        for _ in 0..32 {
            if size == 0 {
                break;
            }
            facts = self.without(alloc, locals, facts, size)?;
            size /= 2;
        }
        Ok(if facts.len() > MOST {
            None
        } else {
            Some(facts)
        })
    }

    /// Returns facts that the search used to rule the package out. It knows the needs of the
    /// nearest packages alone, and those of four times as many if that isn't enough.
    fn first(
        &mut self,
        alloc: Global,
        locals: &mut Locals,
        reach: &mut Reach,
    ) -> Result<Option<Vec<Fact>>, AllocError> {
        reach.begin(self.number)?;
        let mut count = 1usize;
        for _ in 0..32 {
            reach.grow(self.universe, count)?;
            let facts = reach.facts(alloc, self.universe)?;
            let used = self.used(alloc, locals, &facts)?;
            if used.is_some() {
                return Ok(used);
            }
            if reach.is_whole() || self.steps == 0 {
                break;
            }
            count = count.saturating_mul(4);
        }
        Ok(None)
    }

    /// Returns those of some facts that a search used to rule the package out.
    fn used(
        &mut self,
        alloc: Global,
        locals: &mut Locals,
        facts: &[Fact],
    ) -> Result<Option<Vec<Fact>>, AllocError> {
        let Some(part) = part_of(alloc, self.universe, locals, self.number, facts)? else {
            return Ok(None);
        };
        let refutation = refute(alloc, &part, self.steps)?;
        let made = narrow(part.size() / NUMBERS).saturating_add(1);
        self.steps = self
            .steps
            .saturating_sub(made.saturating_add(refutation.steps));
        if refutation.is_out {
            Ok(Some(used_by(alloc, locals, facts, &refutation)?))
        } else {
            Ok(None)
        }
    }

    /// Leaves out what a search doesn't use, as long as there is such a fact.
    fn used_again(
        &mut self,
        alloc: Global,
        locals: &mut Locals,
        facts: Vec<Fact>,
    ) -> Result<Vec<Fact>, AllocError> {
        let mut facts = facts;
        for _ in 0..8 {
            let Some(used) = self.used(alloc, locals, &facts)? else {
                break;
            };
            let is_fewer = used.len() < facts.len();
            facts = used;
            if !is_fewer {
                break;
            }
        }
        Ok(facts)
    }

    /// Leaves out so many facts in a row wherever it can, the last ones first.
    fn without(
        &mut self,
        alloc: Global,
        locals: &mut Locals,
        facts: Vec<Fact>,
        size: usize,
    ) -> Result<Vec<Fact>, AllocError> {
        let mut facts = facts;
        let mut end = facts.len();
        for _ in 0..facts.len() {
            if end == 0 || self.steps == 0 {
                break;
            }
            let start = end.saturating_sub(size);
            let rest = rest_of(alloc, &facts, start, end)?;
            end = start;
            if let Some(used) = self.used(alloc, locals, &rest)? {
                facts = used;
                end = end.min(facts.len());
            }
        }
        Ok(facts)
    }
}

/// Returns the facts outside of a range of indices.
fn rest_of(
    alloc: Global,
    facts: &[Fact],
    start: usize,
    end: usize,
) -> Result<Vec<Fact>, AllocError> {
    let mut rest = Vec::new(alloc);
    for (at, fact) in facts.iter().enumerate() {
        if at < start || at >= end {
            rest.push(*fact)?;
        }
    }
    Ok(rest)
}

/// Returns the facts that a search used. In its universe the group of a need has the number of the
/// fact, and the exclusions of a package are in the order of the facts.
fn used_by(
    alloc: Global,
    locals: &Locals,
    facts: &[Fact],
    refutation: &Refutation,
) -> Result<Vec<Fact>, AllocError> {
    let mut passed = vec![in alloc; 0u32; locals.len()]?;
    let mut used = Vec::new(alloc);
    for (number, fact) in facts.iter().enumerate() {
        let is_used = match fact {
            Fact::Needs { .. } => refutation.uses.has_group(narrow(number)),
            Fact::Excludes { by, .. } => {
                let package = locals.number_of(*by).unwrap_or(u32::MAX);
                let at = number_or(&passed, package, 0);
                put(&mut passed, package, at.saturating_add(1));
                refutation.uses.has_exclusion(package, at)
            }
        };
        if is_used {
            used.push(*fact)?;
        }
    }
    Ok(used)
}
