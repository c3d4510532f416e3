//! Reads the paragraphs of a Debian control file and their fields, as Debian Policy 5.1 and
//! deb822(5) define them.
//!
//! ```
//! let mut reader = Input::new(b"Package: hello\nversion: 2.10-3\n".as_slice());
//! let mut paragraphs = Paragraphs::new(alloc);
//! let paragraph = paragraphs.next(&mut reader)?.ok_or("no paragraph")?;
//! assert_eq!(rt; paragraph.get(b"Version").map(|field| field.body), Some(b"2.10-3".as_slice()));
//! ```
//!
//! - `next` returns exactly the next paragraph of the file's bytes, whatever the pieces in which
//!   they are read, and `None` only if there is no further one.
//! - A file is refused exactly if the grammar doesn't spell it within the limits.
//! - An error repeats at each later call, and a failed read is never taken for the end.
#![tactic(auto)]

mod ending;
mod field_name;
mod field_span;
mod file_cursor;
mod first;
mod folded_name;
mod judge;
pub mod laws;
mod line;
mod newline;
mod paragraphs;
mod raw;
mod read_buffer;
mod seen_names;

pub use paragraphs::Paragraphs;
pub use raw::{Fields, Raw, RawField};
