//! The devices that bytes are read from and written to.

ghost use Rattle.std.specs.Prelude.{◌≡◌, ℕ, ◌≤◌, List, Option, IsErr};
ghost use Rattle.std.specs.Io.KnownBytes.{ReadConsumes, WriteAppends};
ghost use Rattle.deb_base.specs.Devices.{last_count, failures_after, ReadsWithin, TakesSome};

/// A call of a device failed. It doesn't say why.
#[derive(Clone, Copy, Debug, PartialEq, Eq)]
pub struct Failed;

/// A device that bytes are read from.
pub trait Source {
    /// The bytes that are left, or `None` if the device doesn't say which.
    ghost left: { Self → Option (List ℕ) };

    /// The number of failed calls, up to 2^64 - 1.
    ghost failures: { Self → ℕ };

    /// Reads at most as many bytes as the buffer has room for, into its start, and returns their
    /// number. With room in the buffer, 0 is the end: no byte is left. The rest of the buffer may
    /// change.
    ///
    /// # Errors
    ///
    /// `Failed`: no byte was taken, and the count of failed calls is one more. Once it is 2^64 - 1
    /// it stays, and every call fails. A device whose bytes are known stays one after a failure.
    fn read(&mut self, buffer: &mut [u8]) -> Result<usize, Failed>
        ensures within { ReadsWithin result buffer.new }
        ensures bytes { ReadConsumes (left self.old) (left self.new) result buffer.new }
        ensures counts_failure { failures self.new ≡ failures_after (failures self.old) result }
        ensures exhausted { failures self.old ≡ last_count → IsErr result };

    ghost counts_to_last: { (device : Self) → failures device ≤ last_count };
}

/// A device that bytes are written to.
pub trait Sink {
    /// The bytes that were written, or `None` if the device doesn't say which.
    ghost held: { Self → Option (List ℕ) };

    /// The number of failed calls, up to 2^64 - 1.
    ghost failures: { Self → ℕ };

    /// Writes a prefix of the bytes, and returns its length: at least 1, if there is a byte to
    /// write.
    ///
    /// # Errors
    ///
    /// `Failed`: no byte was written, and the count of failed calls is one more. Once it is
    /// 2^64 - 1 it stays, and every call fails. A device whose bytes are known stays one after a
    /// failure.
    fn write(&mut self, bytes: &[u8]) -> Result<usize, Failed>
        ensures takes_some { TakesSome result bytes.now }
        ensures bytes { WriteAppends (held self.old) (held self.new) result bytes.now }
        ensures counts_failure { failures self.new ≡ failures_after (failures self.old) result }
        ensures exhausted { failures self.old ≡ last_count → IsErr result };

    ghost counts_to_last: { (device : Self) → failures device ≤ last_count };
}
