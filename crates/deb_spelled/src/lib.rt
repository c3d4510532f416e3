//! The alternatives of a Debian relationship field as they are spelled (Debian Policy 7.1).
//!
//! ```
//! let text = b"aa (<< 01.0) | bb:any, cc [!i386] <!nocheck>";
//! let alternatives = read_alternatives(rt.alloc(), text)?;
//! assert_eq!(rt; alternatives.len(), 3);
//! assert_eq!(rt; alternatives[0].version, Span { start: 7, length: 4 });
//! ```
//!
//! [`read_alternatives`] returns where the parts of each alternative are in the text, in the order
//! of the text. `specs/Parts.antt` says where each part begins and ends.
#![tactic(auto)]

mod alternative;
pub mod laws;
mod parts;
mod run;
mod span;

pub use alternative::{AlternativeSpans, read_alternatives};
pub use span::Span;
