//! Of each package of several files the paragraph with the latest version (Debian Policy 5.3, 5.4
//! and 5.6.12).
//!
//! ```text
//! let request = Request { kind: Kind::Packages, by: By::Name, before: None };
//! let latest = Latest::new(alloc, &request)?;
//! let latest = latest.read(&mut first)?.read(&mut second)?;
//! let mut winners = Winners::new(alloc, latest.winners()?, latest.count());
//! winners.write(&mut first_again, &mut writer)?;
//! winners.write(&mut second_again, &mut writer)?;
//! ```
//!
//! `Latest` finds the numbers of these paragraphs, counted through all files, and `Winners` writes
//! them as the files spell them. `specs/` defines which they are, and `laws` has the theorems about
//! that.
#![tactic(auto)]

mod bests;
mod kind;
mod latest;
pub mod laws;
mod request;
mod winners;
mod words;

pub use kind::Kind;
pub use latest::Latest;
pub use request::{By, Request};
pub use winners::Winners;
