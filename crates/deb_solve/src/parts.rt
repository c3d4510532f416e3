//! A universe that says only some facts of another one, with its packages numbered from 0.

ghost use Rattle.std.specs.Prelude.{◌≡◌, All, IfOk, IfSome, IsTrue, OnOk, Some, slice_get, slice_index};
ghost use Rattle.deb_solve.specs.Parts.{AddsCandidate, Covers, IsExclusion, IsNeed, IsPart, Pairwise, candidates};
ghost use Rattle.deb_solve.specs.Reasons.{excluded};

use crate::facts::Fact;
use crate::health::row_of;
use crate::rows::Rows;
use crate::tables::{narrow, number_or, put};
use crate::universe::Universe;
use std::alloc::{AllocError, Global};

/// New numbers of packages.
#[derive(Drop)]
pub(crate) struct Locals {
    /// The package with each new number.
    ids: Vec<u32>,
    /// Where a package is in `ids`, if it's there: nothing depends on that being so.
    places: Vec<u32>,
}

impl Locals {
    pub(crate) fn new(alloc: Global, universe: &Universe) -> Result<Self, AllocError> {
        Ok(Locals {
            ids: Vec::new(alloc),
            places: vec![in alloc; 0u32; universe.needs.len()]?,
        })
    }

    /// Returns how many packages have a new number.
    pub(crate) fn len(&self) -> usize {
        self.ids.len()
    }

    /// Returns the new number of a package, if it has one.
    pub(crate) fn number_of(&self, id: u32) -> Option<u32>
        ensures { IfSome result (λ number. slice_get self.now.ids.items number ≡ Some id) }
    {
        let place = number_or(&self.places, id, u32::MAX);
        if has_at(&self.ids, place, id) {
            Some(place)
        } else {
            None
        }
    }

    /// Gives a package a new number, if it's listed and has none.
    fn add(&mut self, package: u32) -> Result<(), AllocError> {
        if (package as usize) < self.places.len() && self.number_of(package).is_none() {
            put(&mut self.places, package, narrow(self.ids.len()));
            self.ids.push(package)?;
        }
        Ok(())
    }

    /// Numbers a package, and those that facts speak of.
    fn begin(
        &mut self,
        universe: &Universe,
        number: u32,
        facts: &[Fact],
    ) -> Result<(), AllocError> {
        self.ids.clear();
        self.add(number)?;
        for fact in facts {
            match fact {
                Fact::Needs { member, .. } => self.add(*member)?,
                Fact::Excludes { by, at } => {
                    self.add(*by)?;
                    self.add(other_of(universe, *by, *at))?;
                }
            }
            for candidate in candidates_of(universe, *fact) {
                self.add(*candidate)?;
            }
        }
        Ok(())
    }
}

fn has_at(numbers: &[u32], at: u32, number: u32) -> bool
    ensures { IsTrue result → slice_get numbers.now at ≡ Some number }
{
    match numbers.get(at as usize) {
        Some(found) => *found == number,
        None => false,
    }
}

fn number_at(numbers: &[u32], at: u32) -> u32
    ensures { result ≡ slice_index numbers.now at }
{
    match numbers.get(at as usize) {
        Some(number) => *number,
        None => 0,
    }
}

/// Returns the packages that can meet the need of a fact.
pub(crate) fn candidates_of(universe: &Universe, fact: Fact) -> &[u32]
    ensures { result.now ≡ candidates universe.now fact }
{
    match fact {
        Fact::Needs { member, at } => {
            let group = number_at(row_of(&universe.needs, member), at);
            row_of(&universe.groups, group)
        }
        Fact::Excludes { .. } => &[],
    }
}

/// Returns the package at an index of those that another one excludes.
fn other_of(universe: &Universe, by: u32, at: u32) -> u32
    ensures { result ≡ excluded universe.now by at }
{
    number_at(row_of(&universe.excludes, by), at)
}

/// Makes the universe of facts, in which the package has the number 0. A group has the number of
/// the fact that needs it.
pub(crate) fn part_of(
    alloc: Global,
    universe: &Universe,
    locals: &mut Locals,
    number: u32,
    facts: &[Fact],
) -> Result<Option<Universe>, AllocError>
    ensures { IfOk result (λ made. IfSome made
        (λ part. IsPart universe.now number facts.now locals.new.ids.items part)) }
{
    locals.begin(universe, number, facts)?;
    if !has_at(&locals.ids, 0, number) {
        return Ok(None);
    }
    let Some(groups) = groups_of(alloc, universe, locals, facts)? else {
        return Ok(None);
    };
    let links = Links::of(alloc, locals, facts)?;
    let needs = needs_of(alloc, locals, &links, facts)?;
    let excludes = excludes_of(alloc, universe, locals, &links, facts)?;
    Ok(Some(Universe {
        needs,
        groups,
        excludes,
    }))
}

/// Returns the group of each fact by the new numbers, or none if a candidate has none.
fn groups_of(
    alloc: Global,
    universe: &Universe,
    locals: &Locals,
    facts: &[Fact],
) -> Result<Option<Rows>, AllocError>
    ensures { IfOk result (λ made. IfSome made (λ groups.
        Pairwise (λ fact. Covers universe.now locals.now.ids.items (candidates universe.now fact))
        facts.now groups)) }
{
    let mut groups = Rows::new(alloc);
    let mut row = Vec::new(alloc);
    for fact in facts {
        if !add_candidates(universe, locals, candidates_of(universe, *fact), &mut row)? {
            return Ok(None);
        }
        groups.push_row(&row)?;
    }
    Ok(Some(groups))
}

/// Makes a row of the new numbers of candidates; returns whether each has one.
fn add_candidates(
    universe: &Universe,
    locals: &Locals,
    candidates: &[u32],
    row: &mut Vec<u32>,
) -> Result<bool, AllocError>
    ensures { IfOk result (λ yes. IsTrue yes
        → Covers universe.now locals.now.ids.items candidates.now row.new.items) }
{
    row.clear();
    for candidate in candidates {
        if !add_candidate(universe, locals, *candidate, row)? {
            return Ok(false);
        }
    }
    Ok(true)
}

/// Adds the new number of a candidate, unless that isn't listed; returns whether it has one.
fn add_candidate(
    universe: &Universe,
    locals: &Locals,
    candidate: u32,
    row: &mut Vec<u32>,
) -> Result<bool, AllocError>
    ensures { IfOk result (λ yes. IsTrue yes → AddsCandidate universe.now locals.now.ids.items
        row.old.items row.new.items candidate) }
{
    if (candidate as usize) >= universe.needs.len() {
        return Ok(true);
    }
    let Some(number) = locals.number_of(candidate) else {
        return Ok(false);
    };
    row.push(number)?;
    Ok(true)
}

/// Returns for each package the facts that it needs something.
fn needs_of(
    alloc: Global,
    locals: &Locals,
    links: &Links,
    facts: &[Fact],
) -> Result<Rows, AllocError>
    ensures { IfOk result (λ needs.
        Pairwise (λ id. All (IsNeed facts.now id)) locals.now.ids.items needs) }
{
    let mut needs = Rows::new(alloc);
    let mut about = Vec::new(alloc);
    let mut row = Vec::new(alloc);
    for (number, id) in locals.ids.iter().enumerate() {
        links.collect(narrow(number), &mut about)?;
        add_needs(facts, &about, *id, &mut row)?;
        needs.push_row(&row)?;
    }
    Ok(needs)
}

/// Makes a row of those facts that are needs of a package.
fn add_needs(facts: &[Fact], about: &[u32], id: u32, row: &mut Vec<u32>) -> Result<(), AllocError>
    ensures { OnOk result (All (IsNeed facts.now id) row.new.items) }
{
    row.clear();
    for fact in about {
        if is_need(facts, *fact, id) {
            row.push(*fact)?;
        }
    }
    Ok(())
}

/// Returns whether the fact with a number is a need of a package.
fn is_need(facts: &[Fact], fact: u32, id: u32) -> bool
    ensures { IsTrue result → IsNeed facts.now id fact }
{
    match facts.get(fact as usize) {
        Some(Fact::Needs { member, .. }) => *member == id,
        _ => false,
    }
}

/// Returns for each package the packages that it excludes, by the facts.
fn excludes_of(
    alloc: Global,
    universe: &Universe,
    locals: &Locals,
    links: &Links,
    facts: &[Fact],
) -> Result<Rows, AllocError>
    ensures { IfOk result (λ excludes.
        Pairwise (λ id. All (IsExclusion universe.now facts.now locals.now.ids.items id))
        locals.now.ids.items excludes) }
{
    let mut excludes = Rows::new(alloc);
    let mut about = Vec::new(alloc);
    let mut row = Vec::new(alloc);
    for (number, id) in locals.ids.iter().enumerate() {
        links.collect(narrow(number), &mut about)?;
        add_exclusions(universe, locals, facts, &about, *id, &mut row)?;
        excludes.push_row(&row)?;
    }
    Ok(excludes)
}

/// Makes a row of the packages that a package excludes by some facts.
fn add_exclusions(
    universe: &Universe,
    locals: &Locals,
    facts: &[Fact],
    about: &[u32],
    id: u32,
    row: &mut Vec<u32>,
) -> Result<(), AllocError>
    ensures { OnOk result (All (IsExclusion universe.now facts.now locals.now.ids.items id)
        row.new.items) }
{
    row.clear();
    for fact in about {
        if let Some(number) = exclusion_of(universe, locals, facts, *fact, id) {
            row.push(number)?;
        }
    }
    Ok(())
}

/// Returns the package that a package excludes by the fact with a number.
fn exclusion_of(
    universe: &Universe,
    locals: &Locals,
    facts: &[Fact],
    fact: u32,
    id: u32,
) -> Option<u32>
    ensures { IfSome result
        (λ number. IsExclusion universe.now facts.now locals.now.ids.items id number) }
{
    match facts.get(fact as usize) {
        Some(Fact::Excludes { by, at }) => {
            if *by != id {
                return None;
            }
            locals.number_of(other_of(universe, *by, *at))
        }
        _ => None,
    }
}

/// The facts about each package. Nothing depends on which they are.
#[derive(Drop)]
struct Links {
    first: Vec<u32>,
    /// Of each fact the next one about its package.
    next: Vec<u32>,
}

impl Links {
    fn of(alloc: Global, locals: &Locals, facts: &[Fact]) -> Result<Self, AllocError> {
        let mut first = vec![in alloc; u32::MAX; locals.ids.len()]?;
        let mut next = vec![in alloc; u32::MAX; facts.len()]?;
        for (at, fact) in facts.iter().enumerate().rev() {
            let package = match fact {
                Fact::Needs { member, .. } => *member,
                Fact::Excludes { by, .. } => *by,
            };
            if let Some(number) = locals.number_of(package) {
                let later = number_or(&first, number, u32::MAX);
                put(&mut next, narrow(at), later);
                put(&mut first, number, narrow(at));
            }
        }
        Ok(Links { first, next })
    }

    /// Makes a list of the facts about a package.
    fn collect(&self, package: u32, about: &mut Vec<u32>) -> Result<(), AllocError> {
        about.clear();
        let mut fact = number_or(&self.first, package, u32::MAX);
        for _ in 0..self.next.len() {
            if (fact as usize) >= self.next.len() {
                break;
            }
            about.push(fact)?;
            fact = number_or(&self.next, fact, u32::MAX);
        }
        Ok(())
    }
}
