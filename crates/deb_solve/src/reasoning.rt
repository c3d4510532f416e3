//! Why a package can't be installed: a few facts of the universe that rule it out.
//!
//! The search for them isn't trusted. `parts` makes a universe that says only the facts that were
//! found, and the package counts only if no healthy set of that universe contains it.

ghost use Rattle.std.specs.Prelude.{◌≡◌, IfOk, IfSome, IsTrue};
ghost use Rattle.deb_solve.specs.Reasons.{AreReasons};
ghost use Rattle.deb_solve.specs.Refuting.{IsOut};

use crate::budget::Budget;
use crate::facts::{Fact, are_facts};
use crate::finder::Finder;
use crate::parts::{Locals, part_of};
use crate::reach::Reach;
use crate::refuter::Refuter;
use crate::search::{Search, Uses};
use crate::tables::Tables;
use crate::universe::Universe;
use std::alloc::{AllocError, Global};
use std::mem;

/// Finds why packages of a universe can't be installed. It keeps tables from one call to the next,
/// so that a call looks at the facts near its package alone.
#[derive(Drop)]
pub struct Reasoner {
    locals: Locals,
    reach: Reach,
}

impl Reasoner {
    /// Makes the tables for a universe.
    ///
    /// # Errors
    /// - Out of memory: they take eight bytes for each package.
    pub fn new(alloc: Global, universe: &Universe) -> Result<Self, AllocError> {
        Ok(Reasoner {
            locals: Locals::new(alloc, universe)?,
            reach: Reach::new(alloc, universe)?,
        })
    }

    /// Looks for a few facts of the universe that show that a package isn't installable: no set of
    /// listed packages that respects them contains it. Returns none if the search finds none. The
    /// needs of the package come first, then those of the packages that meet them, and so on; the
    /// exclusions come last.
    ///
    /// # Errors
    /// - Out of memory.
    pub fn reasons(
        &mut self,
        alloc: Global,
        universe: &Universe,
        number: u32,
        budget: Budget,
    ) -> Result<Option<Vec<Fact>>, AllocError>
        ensures { IfOk result (λ found. IfSome found
            (λ facts. AreReasons universe.now number facts.items)) }
    {
        let mut finder = Finder::new(universe, number, budget);
        let Some(facts) = finder.find(alloc, &mut self.locals, &mut self.reach)? else {
            return Ok(None);
        };
        if !suffice(alloc, universe, &mut self.locals, number, &facts, budget)? {
            return Ok(None);
        }
        Ok(Some(facts))
    }
}

/// Returns whether facts show that a package isn't installable, if a search finds that out.
fn suffice(
    alloc: Global,
    universe: &Universe,
    locals: &mut Locals,
    number: u32,
    facts: &[Fact],
    budget: Budget,
) -> Result<bool, AllocError>
    ensures { IfOk result (λ yes. IsTrue yes → AreReasons universe.now number facts.now) }
{
    if !are_facts(universe, facts) {
        return Ok(false);
    }
    let Some(part) = part_of(alloc, universe, locals, number, facts)? else {
        return Ok(false);
    };
    let refutation = refute(alloc, &part, budget.one_search)?;
    Ok(refutation.is_out)
}

/// How a search for a set with the first package of a universe ended.
#[derive(Drop)]
pub(crate) struct Refutation {
    /// Whether it's known that no healthy set contains the package.
    pub(crate) is_out: bool,
    pub(crate) steps: u32,
    pub(crate) uses: Uses,
}

/// Searches for a healthy set with the first package of a universe.
pub(crate) fn refute(
    alloc: Global,
    universe: &Universe,
    steps: u32,
) -> Result<Refutation, AllocError>
    ensures { IfOk result (λ refutation. IsTrue refutation.is_out → IsOut universe.now 0) }
{
    let mut known = Refuter::new(alloc, universe)?;
    let tables = Tables::of(alloc, universe)?;
    let mut search = Search::new(alloc, &tables, &known)?;
    search_for_first(alloc, &mut search, &mut known, steps)?;
    Ok(Refutation {
        is_out: known.is_out(0),
        steps: search.steps,
        uses: mem::replace(&mut search.uses, Uses::none(alloc)),
    })
}

/// Searches for a healthy set with the first package, and notes what it uses.
fn search_for_first(
    alloc: Global,
    search: &mut Search<'_>,
    known: &mut Refuter<'_>,
    steps: u32,
) -> Result<(), AllocError>
    ensures { known.new.universe.now ≡ known.old.universe.now }
{
    search.note_uses(alloc, known.universe)?;
    search.prune_all(alloc, known)?;
    let _ = search.run(alloc, known, 0, steps)?;
    search.note_out(alloc, known, 0)
}
