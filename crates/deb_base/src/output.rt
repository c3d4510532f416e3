//! A sink over a writer of std.

ghost use Rattle.std.specs.Prelude.{◌≡◌, ◌≤◌};
ghost use Rattle.deb_base.specs.Devices.{last_count};

use crate::{Failed, Sink};
use std::io::Write;

/// A sink over a writer of std. Its bytes are exactly the writer's. Each error of the writer is a
/// failure, also one of kind `Interrupted`, and so is a write that takes none of some bytes.
///
/// Once 2^64 - 1 writes have failed, the writer isn't called again. Nothing is flushed.
#[derive(Drop)]
pub struct Output<W> {
    writer: W,
    failures: u64,
    ghost counts_to_last: { failures ≤ last_count },
}

impl<W: Write> Output<W> {
    /// Returns the sink over a writer, with no failed write.
    pub fn new(writer: W) -> Output<W>
        ensures held { ⟦<Output<W> as Sink>⟧.held result ≡ W.contents writer }
        ensures failures { ⟦<Output<W> as Sink>⟧.failures result ≡ 0 }
    {
        Output {
            writer,
            failures: 0,
        }
    }
}

impl<W: Write> Sink for Output<W> {
    ghost held = { λ output. W.contents output.writer };

    ghost failures = { λ output. output.failures };

    fn write(&mut self, bytes: &[u8]) -> Result<usize, Failed> {
        if self.failures == u64::MAX {
            return Err(Failed);
        }
        match self.writer.write(bytes) {
            Ok(taken) if taken > 0 || bytes.is_empty() => Ok(taken),
            _ => {
                self.failures += 1;
                Err(Failed)
            }
        }
    }

    ghost counts_to_last = { λ output. output.counts_to_last };
}
