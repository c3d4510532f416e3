//! Reads the rows of a text that this library wrote: of a report on a relation, of the lines of
//! `deb_unmet`, `deb_diff`, `deb_health` and `deb_install`, and of explanations.
//!
//! ```
//! let text = b"met hello\n 1 hello 2.10 amd64\n";
//! let mut count = 0;
//! let outcome = read_rows(Form::Report, text, &mut rows, &mut count);
//! assert_eq!(rt; outcome, Outcome::Read);
//! rows[1].kind; // RowKind::Package as u8
//! rows[1].cells[2]; // 2.10: Span { start: 19, length: 4 }
//! ```
//!
//! - [`read_rows`] reads a text exactly if it consists of lines of its [`Form`]; a table has a
//!   [`Row`] for each.
//! - A row is printed in one way, and a text has one list of rows at most ([`laws`]).
//! - It takes no memory, and reads the text twice.
#![tactic(auto)]

mod cell;
mod form;
mod kind;
pub mod laws;
mod line;
mod reading;
mod row;

pub use form::Form;
pub use kind::RowKind;
pub use reading::{Outcome, read_rows};
pub use row::{CELLS, Row, Span};
