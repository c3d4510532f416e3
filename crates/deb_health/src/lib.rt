//! Whether a set of packages is consistent: what each depends on is there, and none excludes
//! another (Debian Policy 7.2 to 7.5); and that no package of a status file is installed in part.
//!
//! ```text
//! let environment = Env::new(alloc, b"amd64", &[])?;
//! let strength = Strength::Depends;
//! let summary = healthy(alloc, &environment, Members::All, strength, &mut packages, &mut writer)?;
//! summary.is_empty; // no line was written
//! ```
//!
//! `specs/` defines which lines a package has; `laws` has the theorems about these definitions.
#![tactic(auto)]

mod excluding;
mod kept;
pub mod laws;
mod lines;
mod members;
mod state;
mod together;

pub use excluding::is_spoken_of;
pub use kept::Kept;
pub use members::healthy;
pub use together::are_together;
