//! The search for a set with a package, or for a derivation that there is none. Nothing that it
//! finds is trusted: `health` checks a set, and `refuter` each step of a derivation.
//!
//! `pruning` finds the packages that need what nothing can meet; `state` keeps which packages are
//! in the set and why, `propagation` finds what follows from that, and `analysis` learns from a
//! conflict. `uses` notes which needs and exclusions that takes.

ghost use Rattle.std.specs.Prelude.{◌≡◌};

mod analysis;
mod propagation;
mod pruning;
mod state;
mod uses;
mod watches;

use crate::health::row_of;
use crate::refuter::{Draft, Reason, Refuter};
use crate::tables::{Tables, narrow};
use std::alloc::{AllocError, Global};
pub(crate) use uses::Uses;

/// A step counts once more for each time that it looks at so many numbers.
const NUMBERS: usize = 1000;

/// Whether a package is in the set.
#[derive(Clone, Copy, PartialEq, Eq)]
enum Value {
    Open,
    In,
    Out,
}

/// Why a package is in the set, or a group has to be met.
#[derive(Clone, Copy)]
enum Cause {
    Chosen,
    /// This package needs it: it's at this index of its row.
    Need { member: u32, at: u32 },
}

/// Why the packages in the set can't all be.
#[derive(Clone, Copy)]
enum Conflict {
    /// The package excludes the one at this index of its row, and both are in the set.
    Both { by: u32, at: u32 },
    /// All packages of the derived list with this number are in the set.
    List(u32),
    /// No package that meets this group can be in the set.
    Unmet(u32),
}

/// How a search ended.
#[derive(Clone, Copy, PartialEq, Eq)]
pub(crate) enum Outcome {
    /// The packages in the set are one with the package.
    Found,
    /// The package is out, or the steps are spent.
    Ended,
}

/// A package that a derived list waits for, and the next one that waits for it.
#[derive(Clone, Copy)]
struct Watch {
    package: u32,
    next: u32,
}

/// The state of a search.
#[derive(Drop)]
pub(crate) struct Search<'t> {
    pub(crate) tables: &'t Tables,
    value: Vec<Value>,
    level: Vec<u32>,
    /// The index of each package in the trail.
    place: Vec<u32>,
    reason: Vec<Reason>,
    cause: Vec<Cause>,
    trail: Vec<u32>,
    /// How much of the trail propagation has gone over.
    head: usize,
    /// Of each group the need that it's active for.
    needer: Vec<Cause>,
    active: Vec<u32>,
    active_level: Vec<u32>,
    /// Of each group the number of packages that meet it and aren't known to be out of the set.
    live: Vec<u32>,
    /// Two for each derived list.
    watches: Vec<Watch>,
    /// Of each package the first list that waits for it.
    first_watch: Vec<u32>,
    /// Of each level the index in `active` before which each group is met.
    met_before: Vec<usize>,
    /// For the lists that are derived.
    draft: Draft,
    pub(crate) uses: Uses,
    /// How many steps all searches took.
    pub(crate) steps: u32,
    /// How many numbers they looked at that no step is counted for yet.
    looked: usize,
}

impl<'t> Search<'t> {
    pub(crate) fn new(
        alloc: Global,
        tables: &'t Tables,
        known: &Refuter<'_>,
    ) -> Result<Self, AllocError> {
        let mut search = Search {
            tables,
            value: Vec::new(alloc),
            level: Vec::new(alloc),
            place: Vec::new(alloc),
            reason: Vec::new(alloc),
            cause: Vec::new(alloc),
            trail: Vec::new(alloc),
            head: 0,
            needer: Vec::new(alloc),
            active: Vec::new(alloc),
            active_level: Vec::new(alloc),
            live: Vec::new(alloc),
            watches: Vec::new(alloc),
            first_watch: Vec::new(alloc),
            met_before: Vec::new(alloc),
            draft: Draft::new(alloc, known.universe.needs.len())?,
            uses: Uses::none(alloc),
            steps: 0,
            looked: 0,
        };
        search.add_packages(known.universe.needs.len())?;
        search.add_groups(known)?;
        Ok(search)
    }

    fn add_packages(&mut self, count: usize) -> Result<(), AllocError> {
        self.value.resize(count, Value::Open)?;
        self.level.resize(count, 0)?;
        self.place.resize(count, 0)?;
        self.reason.resize(count, Reason::Out)?;
        self.cause.resize(count, Cause::Chosen)?;
        self.first_watch.resize(count, u32::MAX)
    }

    fn add_groups(&mut self, known: &Refuter<'_>) -> Result<(), AllocError> {
        for group in 0..narrow(known.universe.groups.len()) {
            let live = self.listed(row_of(&known.universe.groups, group));
            self.live.push(live)?;
            self.needer.push(Cause::Chosen)?;
        }
        Ok(())
    }

    /// Returns how many of these packages are listed.
    fn listed(&self, packages: &[u32]) -> u32 {
        let mut listed = 0u32;
        for package in packages {
            if (*package as usize) < self.value.len() {
                listed = listed.saturating_add(1);
            }
        }
        listed
    }

    /// Looks for a set with a package. If it finds one, that is in the set until the next search.
    pub(crate) fn run(
        &mut self,
        alloc: Global,
        known: &mut Refuter<'_>,
        package: u32,
        steps: u32,
    ) -> Result<Outcome, AllocError>
        ensures { known.new.universe.now ≡ known.old.universe.now }
    {
        let mut level = 0u32;
        let most = self.steps.saturating_add(steps);
        self.undo(0);
        for _ in 0..steps {
            if self.steps >= most {
                break;
            }
            self.steps = self.steps.saturating_add(1);
            if known.is_full() {
                known.forget(alloc);
                self.forget_lists();
                level = 0;
            }
            if level == 0 {
                if known.is_out(package) {
                    return Ok(Outcome::Ended);
                }
                level = 1;
                self.begin(package)?;
            }
            let next = self.step(alloc, known, level)?;
            self.count_looked();
            match next {
                Next::Level(next) => level = next,
                Next::End(outcome) => return Ok(outcome),
            }
        }
        Ok(Outcome::Ended)
    }

    /// Counts more steps for the numbers that were looked at.
    fn count_looked(&mut self) {
        let looked = self.looked.saturating_add(self.draft.looked);
        self.steps = self.steps.saturating_add(narrow(looked / NUMBERS));
        self.looked = looked % NUMBERS;
        self.draft.looked = 0;
    }

    /// Notes that the search looks at so many numbers.
    fn look(&mut self, numbers: usize) {
        self.looked = self.looked.saturating_add(numbers);
    }

    fn begin(&mut self, package: u32) -> Result<(), AllocError> {
        self.met_before.clear();
        self.met_before.push(0)?;
        self.put_in(package, Cause::Chosen, 1)
    }

    /// Finds what follows from the set, and then chooses a package or learns from a conflict.
    fn step(
        &mut self,
        alloc: Global,
        known: &mut Refuter<'_>,
        level: u32,
    ) -> Result<Next, AllocError>
        ensures { known.new.universe.now ≡ known.old.universe.now }
    {
        match self.propagate(known, level)? {
            None => self.choose(known, level),
            Some(conflict) => self.analyse(alloc, known, conflict),
        }
    }

    /// Puts a package that meets the first unmet group into the set.
    fn choose(&mut self, known: &Refuter<'_>, level: u32) -> Result<Next, AllocError> {
        let from = self.met_before.last().copied().unwrap_or(0);
        for at in from..self.active.len() {
            let group = self.active.get(at).copied().unwrap_or(u32::MAX);
            if let Some(candidate) = self.open_candidate(known, group) {
                let next = level.saturating_add(1);
                self.met_before.push(at)?;
                self.put_in(candidate, Cause::Chosen, next)?;
                return Ok(Next::Level(next));
            }
        }
        Ok(Next::End(Outcome::Found))
    }

    /// Returns the first package that can meet a group, or none if a package of the set meets it.
    fn open_candidate(&mut self, known: &Refuter<'_>, group: u32) -> Option<u32> {
        let mut open = None;
        for candidate in row_of(&known.universe.groups, group) {
            self.look(1);
            match self.value_of(*candidate) {
                Value::In => return None,
                Value::Out => {}
                Value::Open => {
                    if open.is_none() {
                        open = Some(*candidate);
                    }
                }
            }
        }
        open
    }

    /// Returns the packages in the set, in the order in which they came.
    pub(crate) fn members(&self, alloc: Global) -> Result<Vec<u32>, AllocError> {
        let mut members = Vec::new(alloc);
        for member in &self.trail {
            if self.value_of(*member) == Value::In {
                members.push(*member)?;
            }
        }
        Ok(members)
    }
}

/// What a search does next.
#[derive(Clone, Copy)]
enum Next {
    Level(u32),
    End(Outcome),
}
