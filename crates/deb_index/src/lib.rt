//! Reads an index of packages, and finds which of them meet a relation (Debian Policy 7.1 and 7.5).
//!
//! ```text
//! let index = Index::read(alloc, &mut reader)?;
//! let question = Question::parse(alloc, b"amd64", &[], b"vv (>= 2) | ww, bb [!amd64]")?;
//! let report = index.ask(alloc, &question)?;
//! report.all_met(); // no group is unmet
//! ```
//!
//! `Index::read` accepts exactly the files that are indexes of packages, and the index lists their
//! packages. For each group of a relation the report has whether it is ignored, met or unmet, and
//! which packages meet it. This is a function of what the file, the relation and the environment
//! mean, which replacing them by their canonical text doesn't change (`laws`).
#![tactic(auto)]

mod answer;
mod answer_store;
mod by_name;
mod candidates;
mod crowds;
mod cut;
mod entry;
mod fault;
mod index;
mod judging;
mod keeper;
mod kept_text;
pub mod laws;
mod members;
mod names;
mod offer;
mod package;
mod paragraph;
mod pieces;
mod provisions;
mod query;
mod question;
mod reason;
mod report;
mod report_text;
mod shown;
mod span;
mod store;
mod verdict;
mod why;
mod why_lines;
mod without;

pub use answer::{Answer, Answers, Found, FoundPackages};
pub use fault::QueryFault;
pub use index::Index;
pub use keeper::{Keeper, NoKeeper};
pub use members::{Members, status_in};
pub use package::Package;
pub use pieces::{cut_group, next_alternative, only_alternative};
pub use question::Question;
pub use report::Report;
pub use verdict::Verdict;
pub use why::{DetailedAnswer, DetailedAnswers, DetailedReport};
