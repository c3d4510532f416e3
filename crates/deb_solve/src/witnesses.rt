//! A set of packages to install together with one of some packages.

ghost use Rattle.std.specs.Prelude.{◌≡◌, IfOk, IfSome, IsTrue};
ghost use Rattle.deb_solve.specs.Verdicts.{AreRefusals, HasWitness, IsSetWith, IsWitness};

use crate::budget::Budget;
use crate::health::is_healthy;
use crate::refuter::Refuter;
use crate::search::{Outcome, Search};
use crate::tables::{Tables, narrow};
use crate::universe::Universe;
use crate::verdict::{Verdict, refuse};
use std::alloc::{AllocError, Global};

/// What was found in the search for a set of packages.
#[derive(Drop)]
pub enum SetOrVerdicts {
    /// A healthy set that contains one of the packages that are wanted: the packages of the set.
    Set(Vec<u32>),
    /// No set: a verdict for each package of the universe. None of them is `Installable`.
    Refused(Vec<Verdict>),
}

/// Looks for a healthy set that contains one of these packages, for each of them in order until
/// there is a set.
///
/// # Errors
/// - Out of memory.
pub fn witness(
    alloc: Global,
    universe: &Universe,
    wanted: &[u32],
    budget: Budget,
) -> Result<SetOrVerdicts, AllocError>
    ensures { IfOk result (IsWitness universe.now wanted.now) }
{
    let mut known = Refuter::new(alloc, universe)?;
    let tables = Tables::of(alloc, universe)?;
    let mut search = Search::new(alloc, &tables, &known)?;
    search.prune_all(alloc, &mut known)?;
    set_or_verdicts(alloc, &mut search, &mut known, wanted, budget)
}

/// Looks for the set with what is known of the universe.
fn set_or_verdicts(
    alloc: Global,
    search: &mut Search<'_>,
    known: &mut Refuter<'_>,
    wanted: &[u32],
    budget: Budget,
) -> Result<SetOrVerdicts, AllocError>
    ensures { IfOk result (IsWitness known.old.universe.now wanted.now) }
{
    match first_set(alloc, search, known, wanted, budget)? {
        Some(members) => Ok(SetOrVerdicts::Set(members)),
        None => Ok(SetOrVerdicts::Refused(refusals(alloc, known)?)),
    }
}

/// Returns the first set that the search finds for one of these packages, if it is healthy.
fn first_set(
    alloc: Global,
    search: &mut Search<'_>,
    known: &mut Refuter<'_>,
    wanted: &[u32],
    budget: Budget,
) -> Result<Option<Vec<u32>>, AllocError>
    ensures same { known.new.universe.now ≡ known.old.universe.now }
    ensures set { IfOk result (λ found. IfSome found
        (λ members. HasWitness known.old.universe.now wanted.now members.items)) }
{
    let packages = narrow(known.universe.needs.len());
    for number in wanted {
        let steps = budget.steps_left(packages, search.steps);
        if search.run(alloc, known, *number, steps)? == Outcome::Found {
            let members = search.members(alloc)?;
            if is_witness(alloc, known.universe, *number, &members)? {
                return Ok(Some(members));
            }
        }
    }
    Ok(None)
}

/// Returns whether a list contains a package, and its set is healthy.
fn is_witness(
    alloc: Global,
    universe: &Universe,
    number: u32,
    members: &[u32],
) -> Result<bool, AllocError>
    ensures { IfOk result (λ yes. IsTrue yes → IsSetWith universe.now number members.now) }
{
    if members.contains(&number) {
        is_healthy(alloc, universe, members)
    } else {
        Ok(false)
    }
}

/// Returns a verdict for each package: `Uninstallable` for one that is out, else `Undecided`.
fn refusals(alloc: Global, known: &Refuter<'_>) -> Result<Vec<Verdict>, AllocError>
    ensures { IfOk result (λ verdicts. AreRefusals known.now.universe.now verdicts.items) }
{
    let mut verdicts = vec![in alloc; Verdict::Undecided; known.universe.needs.len()]?;
    for number in 0..narrow(verdicts.len()) {
        refuse(known, number, &mut verdicts);
    }
    Ok(verdicts)
}
