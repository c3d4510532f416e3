//! The library for programs in C, and in every language that calls C; `include/debctl.h` declares
//! it.
//!
//! Each function takes texts in memory and returns its answer by value; it writes a text to a
//! buffer of the caller. Only a loaded index (`index`) is kept between calls, in memory of the
//! caller. The answers are those of the crates that this one depends on, and the clauses repeat
//! their promises.
//!
//! ```c
//! struct deb_comparison found = deb_version_compare(left, left_length, right, right_length);
//! if (found.status == DEB_YES && found.order < 0)
//!     puts("the first is earlier");
//! ```
#![tactic(auto)]

mod all_refusals;
mod answer;
mod asker;
mod blank_lines;
mod buffer;
mod buildable;
mod condition_explanation;
mod details;
mod diff;
mod documents;
mod explanation;
mod feed;
mod field;
mod fields;
mod files;
mod health;
mod index;
mod installable;
mod kept;
mod kind;
mod latest;
pub mod laws;
mod library;
mod loaded;
mod long_line;
mod more;
mod options;
mod pieces;
mod query;
mod query_why;
mod read_fields;
mod read_refusals;
mod reader;
mod reading;
mod refusal_row;
mod relation_parts;
mod relations;
mod report;
mod rows;
mod run_scan;
mod select;
mod text_explanation;
mod unmet;
mod version_parts;
mod versions;
mod witness;
