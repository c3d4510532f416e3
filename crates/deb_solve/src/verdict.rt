//! Which packages of a universe can be installed.

ghost use Rattle.std.specs.Prelude.{◌≡◌, IfOk, length};
ghost use Rattle.deb_solve.specs.Health.{IsHealthy, IsInstallable, is_among};
ghost use Rattle.deb_solve.specs.Verdicts.{AreTrue, AreVerdicts, NoneIsInstallable};

use crate::budget::Budget;
use crate::growth::Growth;
use crate::health::Marks;
use crate::refuter::Refuter;
use crate::search::{Outcome, Search};
use crate::tables::{Tables, narrow};
use crate::universe::Universe;
use std::alloc::{AllocError, Global};

/// A growth that adds fewer packages than this is a poor one.
const FEW: usize = 500;

/// After this number of poor growths in a row no set grows.
const MOST_POOR: u32 = 8;

/// Whether a package can be installed.
#[derive(Clone, Copy, PartialEq, Eq)]
pub enum Verdict {
    /// A healthy set contains it.
    Installable,
    /// No healthy set contains it.
    Uninstallable,
    /// The budget was spent before the search found out.
    Undecided,
}

/// The searches so far.
#[derive(Drop)]
struct Searches<'t> {
    search: Search<'t>,
    growth: Growth,
    marks: Marks,
    poor: u32,
    budget: Budget,
    packages: u32,
}

impl Searches<'_> {
    /// Returns the steps that the next search may take.
    fn steps_left(&self) -> u32 {
        self.budget.steps_left(self.packages, self.search.steps)
    }
}

/// Finds which packages of a universe can be installed: returns a verdict for each.
///
/// # Errors
/// - Out of memory.
pub fn solve(alloc: Global, universe: &Universe, budget: Budget) -> Result<Vec<Verdict>, AllocError>
    ensures { IfOk result (λ verdicts. AreVerdicts universe.now verdicts.items) }
{
    let mut verdicts = vec![in alloc; Verdict::Undecided; universe.needs.len()]?;
    let mut known = Refuter::new(alloc, universe)?;
    let tables = Tables::of(alloc, universe)?;
    let mut searches = Searches {
        search: Search::new(alloc, &tables, &known)?,
        growth: Growth::new(alloc, universe)?,
        marks: Marks::new(alloc, universe)?,
        poor: 0,
        budget,
        packages: narrow(verdicts.len()),
    };
    searches.search.prune_all(alloc, &mut known)?;
    for number in 0..narrow(verdicts.len()) {
        decide(
            alloc,
            universe,
            &mut searches,
            &mut known,
            &mut verdicts,
            number,
        )?;
    }
    refuse_all(&known, &mut verdicts);
    Ok(verdicts)
}

/// Searches for a set with a package that has no verdict, and for others that can be in it.
fn decide(
    alloc: Global,
    universe: &Universe,
    searches: &mut Searches<'_>,
    known: &mut Refuter<'_>,
    verdicts: &mut Vec<Verdict>,
    number: u32,
) -> Result<(), AllocError>
    requires { AreTrue universe.now verdicts.old.items }
    ensures are_true { AreTrue universe.now verdicts.new.items }
    ensures each { length verdicts.new.items ≡ length verdicts.old.items }
    ensures same { known.new.universe.now ≡ known.old.universe.now }
{
    if !is_undecided(verdicts, number) || known.is_out(number) {
        return Ok(());
    }
    let steps = searches.steps_left();
    if searches.search.run(alloc, known, number, steps)? == Outcome::Ended {
        return Ok(());
    }
    let members = searches.search.members(alloc)?;
    accept(universe, &mut searches.marks, &members, verdicts);
    if searches.poor >= MOST_POOR {
        return Ok(());
    }
    grow(searches, known, verdicts, &members)?;
    accept(
        universe,
        &mut searches.marks,
        &searches.growth.members,
        verdicts,
    );
    Ok(())
}

fn is_undecided(verdicts: &[Verdict], number: u32) -> bool {
    match verdicts.get(number as usize) {
        Some(Verdict::Undecided) => true,
        _ => false,
    }
}

/// Adds to a set each package without a verdict that can be installed with it.
fn grow(
    searches: &mut Searches<'_>,
    known: &Refuter<'_>,
    verdicts: &[Verdict],
    members: &[u32],
) -> Result<(), AllocError> {
    searches.search.undo(0);
    searches.growth.begin(known, &searches.search, members)?;
    for number in 0..narrow(verdicts.len()) {
        if is_undecided(verdicts, number) {
            searches.growth.add(known, &searches.search, number)?;
        }
    }
    let added = searches.growth.members.len().saturating_sub(members.len());
    searches.poor = if added < FEW {
        searches.poor.saturating_add(1)
    } else {
        0
    };
    Ok(())
}

/// Notes that the packages of a set are installable, if the set is healthy.
fn accept(universe: &Universe, marks: &mut Marks, members: &[u32], verdicts: &mut Vec<Verdict>)
    requires { AreTrue universe.now verdicts.old.items }
    ensures are_true { AreTrue universe.now verdicts.new.items }
    ensures each { length verdicts.new.items ≡ length verdicts.old.items }
{
    let healthy = marks.is_healthy(universe, members);
    if healthy {
        accept_all(universe, members, verdicts);
    }
}

fn accept_all(universe: &Universe, members: &[u32], verdicts: &mut Vec<Verdict>)
    requires is_healthy { IsHealthy universe.now (is_among members.now) }
    requires are_true { AreTrue universe.now verdicts.old.items }
    ensures are_true { AreTrue universe.now verdicts.new.items }
    ensures each { length verdicts.new.items ≡ length verdicts.old.items }
{
    for member in members {
        allow(universe, *member, verdicts);
    }
}

/// Notes that a package is installable.
fn allow(universe: &Universe, number: u32, verdicts: &mut Vec<Verdict>)
    requires installable { IsInstallable universe.now number }
    requires are_true { AreTrue universe.now verdicts.old.items }
    ensures are_true { AreTrue universe.now verdicts.new.items }
    ensures each { length verdicts.new.items ≡ length verdicts.old.items }
{
    if (number as usize) < verdicts.len() {
        verdicts[number as usize] = Verdict::Installable;
    }
}

/// Notes of each package that is out that it isn't installable.
fn refuse_all(known: &Refuter<'_>, verdicts: &mut Vec<Verdict>)
    requires { AreTrue known.now.universe.now verdicts.old.items }
    ensures are_true { AreTrue known.now.universe.now verdicts.new.items }
    ensures each { length verdicts.new.items ≡ length verdicts.old.items }
{
    for number in 0..narrow(verdicts.len()) {
        refuse(known, number, verdicts);
    }
}

/// Notes that a package isn't installable, if it is out.
pub(crate) fn refuse(known: &Refuter<'_>, number: u32, verdicts: &mut Vec<Verdict>)
    requires { AreTrue known.now.universe.now verdicts.old.items }
    ensures are_true { AreTrue known.now.universe.now verdicts.new.items }
    ensures each { length verdicts.new.items ≡ length verdicts.old.items }
    ensures none { NoneIsInstallable verdicts.old.items → NoneIsInstallable verdicts.new.items }
{
    if (number as usize) < verdicts.len() && known.is_out(number) {
        verdicts[number as usize] = Verdict::Uninstallable;
    }
}
