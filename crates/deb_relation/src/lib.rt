//! Debian relationship fields: what they mean, their canonical text, and which alternatives apply.
//!
//! ```
//! let relation = Relation::parse(rt.alloc(), b"bb (>=1.)|aa,, cc [i386 amd64],bb(>=1.0)|aa")?;
//! let mut canonical = Vec::new(rt.alloc());
//! relation.canon_into(&mut canonical)?;
//! assert_eq!(rt; canonical.as_slice(), b"bb (>= 1.0) | aa, cc [amd64 i386]".as_slice());
//!
//! let fault = Relation::parse(rt.alloc(), b"aa (== 1)").err();
//! let reason = Reason::OperatorBad;
//! assert_eq!(rt; fault, Some(RelationFault::Bad { reason, at: 4 }));
//! ```
//!
//! A relation means a set of groups (Debian Policy 7.1). [`Relation::parse`] returns what a text
//! means, or the reason and the offset of the first step that fails. The groups ascend by their
//! canonical texts, each once, and so do the lists within them.
#![tactic(auto)]

mod alternative;
mod architectures;
mod asked;
mod bound;
mod cursor;
mod environment;
mod fault;
mod formula;
mod group;
mod group_summary;
mod in_place;
mod items;
mod kept_text;
pub mod laws;
mod list_order;
mod lists;
mod name;
mod name_byte;
mod name_run;
mod operator;
mod profile_list;
mod relation;
mod relation_text;
mod repeats;

pub use alternative::Alternative;
pub use environment::{Env, EnvFault};
pub use fault::{Reason, RelationFault};
pub use group::Group;
pub use operator::Op;
pub use relation::Relation;
pub use relation_text::RelationText;
