//! Files of Debian control data as documents of a kind: what a file means, which files are
//! accepted, why others are refused, and the canonical text of what a file means (Debian Policy 5.1
//! and 5.3 to 5.6).
//!
//! The definitions are in `specs/`, and `laws` has the theorems about them. Values are used only
//! through the law of their canonical text. A `Paragraph` has the values of one paragraph:
//!
//! ```
//! let raw = paragraphs.next(&mut reader)?.ok_or("no paragraph")?;
//! let paragraph = Paragraph::build(alloc, Doc::Packages, &raw)?;
//! paragraph.canon_into(&mut out)?;
//! ```
//!
//! [`check`] returns the first refusal of a file. [`Refusals`] reads all, one for each run of lines
//! that is refused, and [`check_all`] writes a line for each and a last one with the counts.
#![tactic(auto)]

mod alike;
mod beside;
mod canon_text;
mod checked;
mod checked_text;
mod checked_view;
mod checker;
mod checking;
mod comparing;
mod field;
mod field_texts;
mod find;
pub mod laws;
mod name;
mod next_refusal;
mod normalising;
mod paragraph;
mod paragraph_check;
mod refusals;
mod side;
mod summary;
mod totals;
mod typed_field;
pub mod value_laws;
mod visitor;

pub use checked::Checked;
pub use checked_text::CheckedText;
pub use checked_view::CheckedView;
pub use checking::{check, check_all};
pub use comparing::same;
pub use field_texts::FieldTexts;
pub use normalising::normalise;
pub use paragraph::Paragraph;
pub use refusals::{Refusals, RefusedRun};
pub use side::{Side, SideFault};
pub use summary::Summary;
pub use typed_field::TypedField;
pub use visitor::{FieldVisitor, NoVisitor};
