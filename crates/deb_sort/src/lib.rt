//! Sorts the lines of a file, each a Debian version, in Debian's order (deb-version(7)).
//!
//! ```
//! let mut source = Input::new(b"1.10\n1.9\n1.10~rc1\n1.09".as_slice());
//! let mut held = Vec::new(alloc);
//! sort(alloc, &mut source, false, &mut Output::new(&mut held))?;
//! assert_eq!(rt; held.as_slice(), b"1.9\n1.09\n1.10~rc1\n1.10\n".as_slice());
//! ```
//!
//! - [`sort`] writes the lines of the file in Debian's order or in reverse order. They keep their
//!   spelling, and lines of equal versions keep their order.
//! - It refuses the first line that isn't a version, with its number, and then writes nothing.
//! - The whole file is held in memory, with a slice and a number for each line. Neighbours that are
//!   spelled alike are sorted as one.
#![tactic(auto)]

mod cut;
mod equal_lines;
mod sorting;

pub use sorting::sort;
