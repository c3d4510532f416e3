//! Which packages of an index can be installed (Debian Policy 7.2 to 7.5).
//!
//! A set of packages is healthy if what each of them depends on is in the set, and none excludes
//! another. A package is installable if a healthy set contains it. A request can ask that the set
//! has the essential packages, and leave out packages.
//!
//! ```text
//! let environment = Env::new(alloc, b"amd64", &[])?;
//! let request = InstallRequest {
//!     members: Members::All,
//!     strength: Strength::Depends,
//!     essential: false,
//!     without: &[],
//!     names: &[],
//!     budget,
//!     reasons: false,
//! };
//! let summary = installable(alloc, &environment, &request, &mut packages, &mut writer)?;
//! summary.is_empty; // no line was written: each package can be installed
//! ```
//!
//! - A package without a line is installable, and one that is `uninstallable` isn't.
//! - The set of a package is found by its number, over rows of numbers that are proved to be what
//!   the packages need and exclude.
//! - `specs/` defines what is installable; `laws` has the theorems about these definitions.
#![tactic(auto)]

mod answer;
mod builds;
mod essential;
mod essential_names;
mod exclusions;
mod explaining;
mod groups;
mod kept;
mod kept_source;
mod known;
pub mod laws;
mod needs;
mod packages;
mod readings;
mod reason_lines;
mod reasons;
mod row_texts;
mod source_explaining;
mod source_kind;
mod source_lines;
mod source_reading;
mod source_reason_lines;
mod source_reasons;
mod source_rows;
mod sure_groups;
mod universe;
mod verdicts;
mod witnesses;

pub use answer::Answer;
pub use builds::{BuildRequest, buildable};
pub use packages::Packages;
pub use readings::Readings;
pub use source_kind::SourceKind;
pub use verdicts::{InstallRequest, installable};
pub use witnesses::{Sought, witness};
