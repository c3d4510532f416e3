//! The values of Debian control fields: the kind of each field's value, its meaning, its canonical
//! text, and why a body is refused.
//!
//! - [`kind_of`] finds the kind of a field by its name, without ASCII case (Debian Policy 5.1,
//!   5.6).
//! - [`Value::parse`] reads a body as a value of that kind; [`Value`] has one variant for each
//!   kind, with a type of its own. Values borrow the body, and only relations take memory.
//! - [`Canon`] writes canonical text: two bodies of a field have equal canonical text exactly if
//!   they mean the same, and canonical text is a body that spells the same value.
//!
//! ```text
//! let value = Value::parse(alloc, Doc::Packages, b"Depends", b"bb, aa (>=1.)")?;
//! value.canon_into(&mut out)?; // aa (>= 1.0), bb
//! ```
#![tactic(auto)]

mod canon;
mod flag;
mod folded;
pub mod laws;
mod names;
mod number;
mod one_line;
mod relation;
mod source;
mod source_canon;
mod text;
mod value;
mod value_canon;
mod version;
mod words;

pub use canon::Canon;
pub use deb_base::{Doc, FieldId, Kind, Relationship, is_single, kind_of, required};
pub use flag::{Flag, MultiArch};
pub use folded::{ArchitectureWords, Folded};
pub use names::{ArchitectureName, PackageName};
pub use number::Number;
pub use relation::RelationField;
pub use source::SourceName;
pub use text::{Line, Text};
pub use value::{Value, ValueFault};
pub use version::parse_version;
pub use words::Words;
