//! Which dependencies of a file nothing in an index meets (Debian Policy 7.1, 7.2 and 7.7).
//!
//! ```text
//! let index = Index::read(alloc, &mut packages)?;
//! let environment = Env::new(alloc, b"amd64", &[])?;
//! let (index, environment) = (&index, &environment);
//! let question = Question { index, unless: None, without: &[], environment };
//! let asked = Asked::Sources(SourcesAsked::OfTarget);
//! let request = Request { asked, versions: VersionText::Canonical };
//! let summary = unmet(alloc, &question, request, &mut sources, &mut writer)?;
//! summary.is_empty; // no line was written
//! ```
//!
//! `specs/` defines which groups have a line and what it contains; `laws` has the theorems about
//! these definitions.
#![tactic(auto)]

mod applying;
mod asked;
mod asking;
mod group;
mod in_itself;
mod kept;
pub mod laws;
mod line_texts;
mod lines;
mod own;
mod own_lines;
mod paragraph;
mod plain;
mod question;
mod trouble;
mod trying;

pub use applying::{Applies, applies_by};
pub use asked::{Asked, Request, SourcesAsked, Strength};
pub use asking::{Summary, unmet};
pub use in_itself::write_in_itself;
pub use kept::KeptParagraph;
pub use line_texts::LineTexts;
pub use lines::{append_lines, own_environment, own_or};
pub use own::{OwnQuestion, OwnRequest, unmet_in_itself};
pub use own_lines::OwnLines;
pub use paragraph::{Paragraph, append_spaced};
pub use question::Question;
