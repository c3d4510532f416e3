//! A row of the table of refusals.

ghost use Rattle.std.specs.Prelude.{◌≡◌};
ghost use Rattle.debctl_ffi.specs.AllRefusals.{row_of};

use deb_base::Refusal;

/// One refusal of a file.
#[repr(C)]
#[derive(Clone, Copy, Debug, PartialEq, Eq)]
pub struct RefusalRow {
    /// The number of its line in the file, from 1.
    pub line: u64,
    /// The number of its code, from 1 to 23.
    pub code: u8,
}

/// The row of a refusal.
pub(crate) fn row_of(refusal: &Refusal) -> RefusalRow
    ensures { result ≡ row_of refusal.now }
{
    RefusalRow {
        line: refusal.line,
        code: refusal.number(),
    }
}
