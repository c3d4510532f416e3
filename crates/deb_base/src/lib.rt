//! The types and functions that every crate of this repository uses: error codes, faults, the
//! devices that bytes are read from and written to, names without ASCII case, the kinds of
//! documents, the fields that are known by name with the kinds of their values, the bodies of
//! fields, and the spaces and tabs at their ends.
//!
//! - A refusal has one of 23 codes and the number of a line, and is printed as
//!   `line 3: 7 DuplicateField`.
//! - A [`Source`] and a [`Sink`] count their failed calls, so that a caller knows whether a read or
//!   a write failed. [`Input`] and [`Output`] are over std's readers and writers, [`SliceSource`]
//!   and [`VecSink`] over memory.
//! - [`put_all`] writes all of its bytes, and [`put_pieces`] all of its pieces. If a write fails,
//!   they return that error after writing a prefix.
//! - [`read_text`] reads a whole file, up to a limit.
//!
//! In this crate only [`read_text`] and a write to a [`VecSink`] take memory.
//!
//! ```text
//! let mut out = Output::new(io::writer(&rt));
//! let refusal = Refusal { code: Code::DuplicateField, line: 3 };
//! refusal.write_line(&mut out)?; // line 3: 7 DuplicateField
//! put_all(&mut out, b"ok 2\n")?;
//! ```
#![tactic(auto)]

mod blank;
mod body;
mod code;
mod device;
mod doc;
mod fault;
mod input;
mod kind;
mod known_fields;
pub mod laws;
mod memory;
mod names;
mod output;
mod package_names;
mod put;
mod reading;
mod refusal;
mod version_text;

pub use blank::{
    begins_with_blank, is_blank_byte, is_only_blanks, trimmed, without_trailing_blanks,
};
pub use body::{FILE_LIMIT, PARAGRAPH_LIMIT, is_body};
pub use code::Code;
pub use device::{Failed, Sink, Source};
pub use doc::{Doc, is_single};
pub use fault::Fault;
pub use input::Input;
pub use kind::{Kind, Relationship};
pub use known_fields::{
    FieldId, KNOWN_FIELDS, NameAtFront, kind_of, required, required_fields, rows,
};
pub use memory::{SliceSource, VecSink};
pub use names::same_name;
pub use output::Output;
pub use package_names::{is_arch_name, is_package_name, is_profile_name, is_wildcard};
pub use put::{put_all, put_pieces};
pub use reading::{PIECE_LIMIT, read_text};
pub use refusal::Refusal;
pub use version_text::VersionText;
