//! Which packages of a universe can be installed. A universe has numbers in place of packages, and
//! says what each needs and excludes.
//!
//! ```text
//! let mut universe = Universe { needs: Rows::new(alloc), .. };
//! universe.needs.push_row(&[0])?; // package 0 needs group 0
//! universe.groups.push_row(&[1, 2])?; // package 1 or 2 meets group 0
//! universe.excludes.push_row(&[])?; // package 0 excludes none
//! let budget = Budget { one_search: 100_000 };
//! let verdicts = solve(alloc, &universe, budget)?;
//! verdicts[0]; // Verdict::Installable, Uninstallable or Undecided
//! ```
//!
//! - An `Installable` package is in a healthy set, and an `Uninstallable` one in none.
//! - [`Reasoner`] finds a few facts of the universe that rule a package out.
//! - The search isn't trusted: a healthy set is checked ([`is_healthy`]), and so is each step of a
//!   derivation.
#![tactic(auto)]

mod budget;
mod facts;
mod finder;
mod growth;
mod health;
mod parts;
mod reach;
mod reasoning;
mod refuter;
mod rows;
mod search;
mod tables;
mod universe;
mod verdict;
mod witnesses;

pub use budget::Budget;
pub use facts::Fact;
pub use health::is_healthy;
pub use reasoning::Reasoner;
pub use rows::Rows;
pub use universe::Universe;
pub use verdict::{Verdict, solve};
pub use witnesses::{SetOrVerdicts, witness};
