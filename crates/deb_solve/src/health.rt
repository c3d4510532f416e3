//! Whether packages can be installed together.

ghost use Rattle.std.specs.Prelude.{◌≡◌, ◌↔◌, ℕ, false, true, length, IfOk, IsTrue};
ghost use Rattle.std.specs.List.{list_all, list_any};
ghost use Rattle.deb_solve.specs.Health.{IsHealthy, fits, is_among, is_met, row};
ghost use Rattle.deb_solve.specs.Marks.{AreMarks, marked};

use crate::rows::Rows;
use crate::tables::{narrow, number_or, put};
use crate::universe::Universe;
use std::alloc::{AllocError, Global};

/// Returns whether these packages can be installed together.
///
/// # Errors
/// - Out of memory: it takes one byte for each package of the universe, and four for each group.
pub fn is_healthy(alloc: Global, universe: &Universe, members: &[u32]) -> Result<bool, AllocError>
    ensures { IfOk result (λ yes. IsTrue yes ↔ IsHealthy universe.now (is_among members.now)) }
{
    let mut marks = Marks::new(alloc, universe)?;
    Ok(marks.is_healthy(universe, members))
}

/// A mark for each package of a universe. None is set before a set is checked, nor afterwards.
#[derive(Drop)]
pub(crate) struct Marks {
    marks: Vec<bool>,
    /// Where the package is in the row of a group that met it last: nothing depends on that.
    hints: Vec<u32>,
    ghost are_unset: { (p : ℕ) → marked marks.items p ≡ false },
}

impl Marks {
    pub(crate) fn new(alloc: Global, universe: &Universe) -> Result<Self, AllocError>
        ensures { IfOk result (λ made. length made.marks.items ≡ length universe.now.needs) }
    {
        Ok(Marks {
            marks: vec![in alloc; false; universe.needs.len()]?,
            hints: vec![in alloc; 0u32; universe.groups.len()]?,
        })
    }

    /// Returns whether these packages can be installed together. It goes over the rows of each of
    /// them, and at most twice over that of each group that they need.
    pub(crate) fn is_healthy(&mut self, universe: &Universe, members: &[u32]) -> bool
        ensures yes { IsTrue result → IsHealthy universe.now (is_among members.now) }
        ensures no { length self.old.marks.items ≡ length universe.now.needs
            → IsHealthy universe.now (is_among members.now) → IsTrue result }
    {
        if self.marks.len() != universe.needs.len() {
            return false;
        }
        set_marks(&mut self.marks, members);
        let fit = all_fit(universe, &self.marks, &mut self.hints, members);
        unset_marks(&mut self.marks, members);
        fit
    }
}

fn set_marks(marks: &mut Vec<bool>, numbers: &[u32])
    requires { (p : ℕ) → marked marks.old.items p ≡ false }
    ensures { AreMarks marks.new.items numbers.now (length marks.old.items) }
{
    for number in numbers {
        if (*number as usize) < marks.len() {
            marks[*number as usize] = true;
        }
    }
}

fn unset_marks(marks: &mut Vec<bool>, numbers: &[u32])
    requires { AreMarks marks.old.items numbers.now (length marks.old.items) }
    ensures { (p : ℕ) → marked marks.new.items p ≡ false }
{
    for number in numbers {
        if (*number as usize) < marks.len() {
            marks[*number as usize] = false;
        }
    }
}

fn all_fit(universe: &Universe, set: &[bool], hints: &mut Vec<u32>, members: &[u32]) -> bool
    ensures { result ≡ list_all (fits universe.now (marked set.now)) members.now }
{
    for member in members {
        if !fits(universe, set, hints, *member) {
            return false;
        }
    }
    true
}

fn fits(universe: &Universe, set: &[bool], hints: &mut Vec<u32>, member: u32) -> bool
    ensures { result ≡ fits universe.now (marked set.now) member }
{
    (member as usize) < universe.needs.len()
        && all_met(universe, set, hints, row_of(&universe.needs, member))
        && !some_marked(set, row_of(&universe.excludes, member))
}

fn all_met(universe: &Universe, set: &[bool], hints: &mut Vec<u32>, groups: &[u32]) -> bool
    ensures { result ≡ list_all (is_met universe.now (marked set.now)) groups.now }
{
    for group in groups {
        if !is_met(universe, set, hints, *group) {
            return false;
        }
    }
    true
}

fn is_met(universe: &Universe, set: &[bool], hints: &mut Vec<u32>, group: u32) -> bool
    ensures { result ≡ is_met universe.now (marked set.now) group }
{
    let packages = row_of(&universe.groups, group);
    if has_mark_at(set, packages, number_or(hints, group, 0)) {
        return true;
    }
    let met = some_marked(set, packages);
    if met {
        put(hints, group, place_of_mark(set, packages));
    }
    met
}

fn has_mark_at(set: &[bool], packages: &[u32], at: u32) -> bool
    ensures { IsTrue result → list_any (marked set.now) packages.now ≡ true }
{
    match packages.get(at as usize) {
        Some(number) => is_marked(set, *number),
        None => false,
    }
}

fn place_of_mark(set: &[bool], packages: &[u32]) -> u32 {
    match packages.iter().position(|number| is_marked(set, *number)) {
        Some(at) => narrow(at),
        None => u32::MAX,
    }
}

fn some_marked(set: &[bool], packages: &[u32]) -> bool
    ensures { result ≡ list_any (marked set.now) packages.now }
{
    packages.iter().any(|number| is_marked(set, *number))
}

/// Returns whether a number has a mark.
pub(crate) fn is_marked(marks: &[bool], number: u32) -> bool
    ensures { result ≡ marked marks.now number }
{
    match marks.get(number as usize) {
        Some(mark) => *mark,
        None => false,
    }
}

/// Returns the row with a number; none is an empty row.
pub(crate) fn row_of(rows: &Rows, number: u32) -> &[u32]
    ensures { result.now ≡ row rows.now number }
{
    match rows.row(number) {
        Some(row) => row,
        None => &[],
    }
}
