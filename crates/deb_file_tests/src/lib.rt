//! Tests of the libraries that read documents, by their public functions: what rows over the
//! program can't show. Each call once when it succeeds, short and long; the values of paragraphs;
//! devices that take or return a few bytes a call, and fail; and out of memory.
//!
//! They are in a crate of their own so that the gate proves those crates only once, and not again
//! with their tests.
#![tactic(auto)]

#[cfg(test)]
mod control;
#[cfg(test)]
mod diff;
#[cfg(test)]
mod long;
#[cfg(test)]
mod refusals;
#[cfg(test)]
mod syntax;
