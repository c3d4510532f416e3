//! Tests of the libraries that check values and arguments, by their public functions.
//!
//! They show what no row over the program can: that each call that takes memory returns its exact
//! answer if there is memory, for a short and for a long argument; at which offset a version or a
//! relation is refused, and why; how devices are called; and that `out` is unchanged after out of
//! memory.
#![tactic(auto)]

#[cfg(test)]
mod appended;
#[cfg(test)]
mod base;
#[cfg(test)]
mod field;
#[cfg(test)]
mod relation;
#[cfg(test)]
mod version;
#[cfg(test)]
mod words;
