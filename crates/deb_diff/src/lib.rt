//! What changed in meaning between two files of Debian control data (Debian Policy 5.1 and 5.3 to
//! 5.6).
//!
//! ```text
//! let form = Form { detail: Detail::Fields, versions: VersionText::Canonical };
//! let unchanged = diff(alloc, Kind::Packages, form, &mut old, &mut new, &mut writer)?;
//! ```
//!
//! `diff` writes a line for each paragraph that was removed, added or changed, or has another
//! version, and returns whether there is none. `specs/` defines what changed and the lines that say
//! so; `laws` has the theorems about these definitions.
#![tactic(auto)]

mod all_lines;
mod became;
mod both;
mod cut;
mod detail;
mod differing;
mod fates;
mod form;
mod kept;
mod kind;
pub mod laws;
mod left;
mod lines;
mod pairing;
mod partners;
mod pool;
mod ranks;
mod reading;
mod sides;
mod values;
mod waiting;
mod writing;

pub use detail::Detail;
pub use form::Form;
pub use kind::Kind;
pub use writing::diff;
