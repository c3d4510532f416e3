//! A device that opens files by their paths.

ghost use Rattle.std.specs.Prelude.{◌≡◌, ℕ, List, Option, IfOk, Result};
ghost use Rattle.deb_base.specs.Devices.{failures_after};
ghost use Rattle.debctl_commands.specs.declared.unopened.Unopened.{Unopened};

use crate::unopened::Unopened;
use deb_base::Source;

/// Opens files by their paths.
pub trait Opens {
    /// The reader of an opened file.
    type Reader: Source + Drop;

    /// The bytes of the file of a path, or `None` if they aren't known.
    ghost text: { Self → List ℕ → Option (List ℕ) };

    /// The number of failed openings, up to 2^64 - 1.
    ghost failures: { Self → ℕ };

    /// What opening a path may return, and the files after it. Nothing else is known of it, so it
    /// shows which paths were opened, how often and in which order.
    ghost opens: { Self → List ℕ → Result Self.Reader Unopened → Self → Type 0 };

    /// Opens the file of a path, and returns a reader of all its bytes.
    ///
    /// # Errors
    ///
    /// Why it can't be opened. The count of failed openings is then one more, up to its last value.
    /// The bytes of the files don't change.
    fn open(&mut self, path: &[u8]) -> Result<Self::Reader, Unopened>
        ensures text { IfOk result (λ reader. Self.Reader.left reader ≡ text self.old path.now) }
        ensures unchanged { text self.new ≡ text self.old }
        ensures opens { opens self.old path.now result self.new }
        ensures counts_failure { failures self.new ≡ failures_after (failures self.old) result };
}
