//! A source over a reader of std.

ghost use Rattle.std.specs.Prelude.{◌≡◌, ◌≤◌};
ghost use Rattle.deb_base.specs.Devices.{last_count};

use crate::{Failed, Source};
use std::io::Read;

/// A source over a reader of std. Its bytes are exactly the reader's, and each error of the reader
/// is a failure, also one of kind `Interrupted`.
///
/// Once 2^64 - 1 reads have failed, the reader isn't called again.
#[derive(Drop)]
pub struct Input<R> {
    reader: R,
    failures: u64,
    ghost counts_to_last: { failures ≤ last_count },
}

impl<R: Read> Input<R> {
    /// Returns the source over a reader, with no failed read.
    pub fn new(reader: R) -> Input<R>
        ensures left { ⟦<Input<R> as Source>⟧.left result ≡ R.remaining reader }
        ensures failures { ⟦<Input<R> as Source>⟧.failures result ≡ 0 }
    {
        Input {
            reader,
            failures: 0,
        }
    }
}

impl<R: Read> Source for Input<R> {
    ghost left = { λ input. R.remaining input.reader };

    ghost failures = { λ input. input.failures };

    fn read(&mut self, buffer: &mut [u8]) -> Result<usize, Failed> {
        if self.failures == u64::MAX {
            return Err(Failed);
        }
        match self.reader.read(buffer) {
            Ok(count) => Ok(count),
            Err(_) => {
                self.failures += 1;
                Err(Failed)
            }
        }
    }

    ghost counts_to_last = { λ input. input.counts_to_last };
}
