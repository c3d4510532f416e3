//! Lists of packages that no healthy set contains, each derived from the universe by checked steps.
//! The search chooses the steps, and isn't trusted.

ghost use Rattle.std.specs.Prelude.{◌≡◌, ℕ, true, [], ◌∷◌, All, IfOk, IfSome, IsTrue, OnOk, Some, slice_get};
ghost use Rattle.std.specs.List.{list_all};
ghost use Rattle.deb_solve.specs.Health.{is_among};
ghost use Rattle.deb_solve.specs.Marks.{marked};
ghost use Rattle.deb_solve.specs.Refuting.{AddsOthers, IsNogood, IsOut, IsUnmet, Leads, RulesOut};

use crate::health::{is_marked, row_of};
use crate::rows::Rows;
use crate::tables::{narrow, number_or, put};
use crate::universe::Universe;
use std::alloc::{AllocError, Global};
use std::mem;

/// The derived lists keep four times as many numbers as the universe, and this many more.
const SPARE: usize = 1_000_000;

/// Why a package isn't in a set together with certain others.
#[derive(Clone, Copy)]
pub(crate) enum Reason {
    /// This package excludes the one at this index of its row.
    Excluded { by: u32, at: u32 },
    /// It is in the derived list with this number.
    Derived(u32),
    /// No healthy set contains it.
    Out,
}

/// A package, the index of a group in its row of needs, and a package that meets the group.
#[derive(Clone, Copy)]
pub(crate) struct Pivot {
    pub(crate) member: u32,
    pub(crate) at: u32,
    pub(crate) candidate: u32,
}

/// What is known after a list was kept.
#[derive(Clone, Copy)]
pub(crate) enum Learned {
    /// No healthy set contains this package.
    Out(u32),
    /// No healthy set contains all packages of the derived list with this number.
    List(u32),
}

/// A list that is being made.
#[derive(Drop)]
pub(crate) struct Draft {
    list: Vec<u32>,
    /// Where a number is in the list, if it's there: nothing depends on that being so.
    places: Vec<u32>,
    /// How many numbers were looked at.
    pub(crate) looked: usize,
}

impl Draft {
    pub(crate) fn new(alloc: Global, count: usize) -> Result<Self, AllocError> {
        Ok(Draft {
            list: Vec::new(alloc),
            places: vec![in alloc; 0u32; count]?,
            looked: 0,
        })
    }

    fn has(&self, number: u32) -> bool
        ensures { IsTrue result → is_among self.now.list.items number ≡ true }
    {
        let place = number_or(&self.places, number, u32::MAX);
        match number_at(&self.list, place) {
            Some(found) => found == number,
            None => false,
        }
    }

    /// Appends the numbers of another list that the list doesn't have, except the candidate.
    fn add_others(&mut self, others: &[u32], candidate: u32) -> Result<(), AllocError>
        ensures { OnOk result (AddsOthers self.old.list.items self.new.list.items
            others.now candidate) }
    {
        for number in others {
            self.add_other(*number, candidate)?;
        }
        Ok(())
    }

    fn add_other(&mut self, number: u32, candidate: u32) -> Result<(), AllocError>
        ensures { OnOk result (AddsOthers self.old.list.items self.new.list.items
            (number ∷ []) candidate) }
    {
        self.looked = self.looked.saturating_add(1);
        if number == candidate {
            return Ok(());
        }
        if !self.has(number) {
            put(&mut self.places, number, narrow(self.list.len()));
            self.list.push(number)?;
        }
        Ok(())
    }
}

/// What was derived from a universe.
#[derive(Drop)]
pub(crate) struct Refuter<'u> {
    pub(crate) universe: &'u Universe,
    lists: Rows,
    out: Vec<bool>,
    /// The groups that no healthy set meets.
    unmet: Vec<bool>,
    ghost derived: { All (IsNogood universe.now) lists },
    ghost are_out: { (p : ℕ) → marked out.items p ≡ true → IsOut universe.now p },
    ghost are_unmet: { (g : ℕ) → marked unmet.items g ≡ true → IsUnmet universe.now g },
}

impl<'u> Refuter<'u> {
    pub(crate) fn new(alloc: Global, universe: &'u Universe) -> Result<Self, AllocError>
        ensures { IfOk result (λ known. known.universe.now ≡ universe.now) }
    {
        let out = vec![in alloc; false; universe.needs.len()]?;
        let unmet = vec![in alloc; false; universe.groups.len()]?;
        Ok(Refuter {
            universe,
            lists: Rows::new(alloc),
            out,
            unmet,
        })
    }

    /// Returns whether it is known that no healthy set contains a package.
    pub(crate) fn is_out(&self, number: u32) -> bool
        ensures value { result ≡ marked self.now.out.items number }
        ensures out { IsTrue result → IsOut self.now.universe.now number }
    {
        is_marked(&self.out, number)
    }

    /// Returns the derived list with a number.
    pub(crate) fn list(&self, number: u32) -> Option<&[u32]>
        ensures { IfSome result (λ list. IsNogood self.now.universe.now list.now) }
    {
        self.lists.row(number)
    }

    /// Returns whether the derived lists keep as many numbers as they may.
    pub(crate) fn is_full(&self) -> bool {
        let most = self.universe.size().saturating_mul(4).saturating_add(SPARE);
        self.lists.size() >= most
    }

    /// Forgets the derived lists.
    pub(crate) fn forget(&mut self, alloc: Global)
        ensures { self.new.universe.now ≡ self.old.universe.now }
    {
        self.lists = Rows::new(alloc);
    }

    /// Notes that a package is out if all packages are that meet one of its groups; returns whether
    /// they are.
    pub(crate) fn prune(&mut self, member: u32, at: u32) -> bool
        ensures { self.new.universe.now ≡ self.old.universe.now }
    {
        let Some(group) = number_at(row_of(&self.universe.needs, member), at) else {
            return false;
        };
        let unmet = self.is_unmet(group);
        if unmet {
            self.mark_out(member);
        }
        unmet
    }

    /// Returns whether all packages are out that meet a group.
    fn is_unmet(&mut self, group: u32) -> bool
        ensures same { self.new.universe.now ≡ self.old.universe.now }
        ensures unmet { IsTrue result → IsUnmet self.old.universe.now group }
    {
        if is_marked(&self.unmet, group) {
            return true;
        }
        let universe = self.universe;
        let all = self.all_out(row_of(&universe.groups, group));
        if all {
            self.mark_unmet(group);
        }
        all
    }

    fn all_out(&self, candidates: &[u32]) -> bool
        ensures { result ≡ list_all (marked self.now.out.items) candidates.now }
    {
        candidates.iter().all(|candidate| self.is_out(*candidate))
    }

    fn mark_out(&mut self, number: u32)
        requires { IsOut self.old.universe.now number }
        ensures { self.new.universe.now ≡ self.old.universe.now }
    {
        if (number as usize) < self.out.len() {
            self.out[number as usize] = true;
        }
    }

    fn mark_unmet(&mut self, group: u32)
        requires { IsUnmet self.old.universe.now group }
        ensures { self.new.universe.now ≡ self.old.universe.now }
    {
        if (group as usize) < self.unmet.len() {
            self.unmet[group as usize] = true;
        }
    }

    /// Returns the list that a reason names.
    pub(crate) fn list_of(
        &self,
        alloc: Global,
        candidate: u32,
        reason: Reason,
    ) -> Result<Option<Vec<u32>>, AllocError>
        ensures { IfOk result (λ made. IfSome made
            (λ list. IsNogood self.now.universe.now list.items)) }
    {
        match reason {
            Reason::Excluded { by, at } => match excluded(self.universe, by, at) {
                Some(other) => Ok(Some(pair(alloc, by, other)?)),
                None => Ok(None),
            },
            Reason::Derived(number) => match self.list(number) {
                Some(list) => Ok(Some(list.to_vec(alloc)?)),
                None => Ok(None),
            },
            Reason::Out => {
                if self.is_out(candidate) {
                    Ok(Some(vec![in alloc; candidate]?))
                } else {
                    Ok(None)
                }
            }
        }
    }

    /// Returns the list that follows from a list and a need: the member, and the others of the
    /// lists that rule out the packages that meet its group. The given list rules out the pivot's.
    pub(crate) fn resolve(
        &self,
        alloc: Global,
        nogood: &[u32],
        pivot: Pivot,
        reasons: &[Reason],
        draft: &mut Draft,
    ) -> Result<Option<Vec<u32>>, AllocError>
        requires { IsNogood self.now.universe.now nogood.now }
        ensures { IfOk result (λ made. IfSome made
            (λ list. IsNogood self.now.universe.now list.items)) }
    {
        let Some(candidates) = candidates_of(self.universe, pivot.member, pivot.at) else {
            return Ok(None);
        };
        draft.list = vec![in alloc; pivot.member]?;
        put(&mut draft.places, pivot.member, 0);
        for candidate in candidates {
            if !self.rule_out_by(draft, nogood, pivot, *candidate, reasons)? {
                return Ok(None);
            }
        }
        Ok(Some(mem::replace(&mut draft.list, Vec::new(alloc))))
    }

    /// Adds to a list the others of what rules a candidate out: the given list if it's the pivot's,
    /// else the one that its reason names. Returns whether that does.
    fn rule_out_by(
        &self,
        draft: &mut Draft,
        nogood: &[u32],
        pivot: Pivot,
        candidate: u32,
        reasons: &[Reason],
    ) -> Result<bool, AllocError>
        requires { IsNogood self.now.universe.now nogood.now }
        ensures { IfOk result (λ yes. IsTrue yes → RulesOut self.now.universe.now
            draft.old.list.items draft.new.list.items candidate) }
    {
        if candidate == pivot.candidate {
            draft.add_others(nogood, candidate)?;
            return Ok(true);
        }
        let Some(reason) = reasons.get(candidate as usize) else {
            return Ok(false);
        };
        self.rule_out(draft, candidate, *reason)
    }

    /// Adds to a list the others of the one that a reason names; returns whether it rules the
    /// candidate out.
    fn rule_out(
        &self,
        draft: &mut Draft,
        candidate: u32,
        reason: Reason,
    ) -> Result<bool, AllocError>
        ensures { IfOk result (λ yes. IsTrue yes → RulesOut self.now.universe.now
            draft.old.list.items draft.new.list.items candidate) }
    {
        match reason {
            Reason::Excluded { by, at } => {
                let Some(other) = excluded(self.universe, by, at) else {
                    return Ok(false);
                };
                draft.add_others(&[by, other], candidate)?;
                Ok(true)
            }
            Reason::Derived(number) => {
                let Some(nogood) = self.list(number) else {
                    return Ok(false);
                };
                draft.add_others(nogood, candidate)?;
                Ok(true)
            }
            Reason::Out => Ok(self.is_out(candidate)),
        }
    }

    /// Keeps a list; of a list of one package, that the package is out.
    pub(crate) fn keep(&mut self, list: &[u32]) -> Result<Learned, AllocError>
        requires { IsNogood self.old.universe.now list.now }
        ensures { self.new.universe.now ≡ self.old.universe.now }
    {
        if list.len() == 1 {
            self.mark_out(list[0]);
            return Ok(Learned::Out(list[0]));
        }
        let number = self.lists.len();
        if number > 0xffff_ffff {
            return Err(AllocError);
        }
        self.lists.push_row(list)?;
        Ok(Learned::List(number as u32))
    }
}

/// Returns the packages that meet a group of a member.
fn candidates_of(universe: &Universe, member: u32, at: u32) -> Option<&[u32]>
    ensures { IfSome result (λ candidates. Leads universe.now (member ∷ []) candidates.now) }
{
    let Some(group) = number_at(row_of(&universe.needs, member), at) else {
        return None;
    };
    Some(row_of(&universe.groups, group))
}

/// Returns the package at an index of those that a package excludes.
fn excluded(universe: &Universe, by: u32, at: u32) -> Option<u32>
    ensures { IfSome result (λ other. IsNogood universe.now (by ∷ other ∷ [])) }
{
    let Some(other) = number_at(row_of(&universe.excludes, by), at) else {
        return None;
    };
    Some(other)
}

fn number_at(numbers: &[u32], at: u32) -> Option<u32>
    ensures { IfSome result (λ number. slice_get numbers.now at ≡ Some number) }
{
    numbers.get(at as usize).copied()
}

/// Returns a list of two packages; of one, if they are the same.
fn pair(alloc: Global, one: u32, other: u32) -> Result<Vec<u32>, AllocError>
    ensures { IfOk result (λ list. AddsOthers (one ∷ []) list.items (other ∷ []) one) }
{
    let mut list = vec![in alloc; one]?;
    if other != one {
        list.push(other)?;
    }
    Ok(list)
}
