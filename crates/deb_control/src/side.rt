//! Faults of a call that reads two files.

use deb_base::Fault;

/// One of two files that a call reads.
#[derive(Clone, Copy, Debug, PartialEq, Eq)]
pub enum Side {
    /// The first one.
    First,
    /// The second one.
    Second,
}

/// Why a call that reads two files returned no answer, and which file it was.
#[derive(Clone, Copy, Debug, PartialEq, Eq)]
pub struct SideFault {
    /// The file that is refused, couldn't be read, or was being read when memory ran out.
    pub side: Side,
    /// The fault of that file.
    pub fault: Fault,
}
