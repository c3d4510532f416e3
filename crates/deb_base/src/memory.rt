//! Devices in memory: a source over borrowed bytes, and a sink that keeps what is written.

ghost use Rattle.std.specs.Prelude.{◌≡◌, ◌≤◌, [], Some};
ghost use Rattle.deb_base.specs.Devices.{last_count};
ghost use Rattle.deb_base.specs.Memory.{none_counts_to_last};

use crate::{Failed, Sink, Source};
use std::alloc::Global;

/// A source over bytes in memory. No read of it fails.
#[derive(Clone, Copy, Debug)]
pub struct SliceSource<'a> {
    rest: &'a [u8],
}

impl<'a> SliceSource<'a> {
    /// Returns the source of these bytes.
    pub fn new(bytes: &'a [u8]) -> SliceSource<'a>
        ensures left { ⟦<SliceSource<'a> as Source>⟧.left result ≡ Some bytes.now }
        ensures failures { ⟦<SliceSource<'a> as Source>⟧.failures result ≡ 0 }
    {
        SliceSource { rest: bytes }
    }
}

impl Source for SliceSource<'_> {
    ghost left = { λ source. Some source.rest.now };

    ghost failures = { λ source. 0 };

    fn read(&mut self, buffer: &mut [u8]) -> Result<usize, Failed> {
        let count = self.rest.len().min(buffer.len());
        buffer[..count].copy_from_slice(&self.rest[..count]);
        self.rest = &self.rest[count..];
        Ok(count)
    }

    ghost counts_to_last = { λ source. none_counts_to_last };
}

/// A sink that keeps in memory what is written to it. Each write takes all of its bytes, and fails
/// if a growth of memory is refused.
#[derive(Debug, Drop)]
pub struct VecSink {
    bytes: Vec<u8>,
    failures: u64,
    ghost counts_to_last: { failures ≤ last_count },
}

impl VecSink {
    /// Returns an empty sink, with no failed write.
    pub fn new(alloc: Global) -> VecSink
        ensures held { ⟦<VecSink as Sink>⟧.held result ≡ Some [] }
        ensures failures { ⟦<VecSink as Sink>⟧.failures result ≡ 0 }
    {
        VecSink {
            bytes: Vec::new(alloc),
            failures: 0,
        }
    }

    /// Returns what was written.
    pub fn bytes(&self) -> &[u8]
        ensures { ⟦<VecSink as Sink>⟧.held self.now ≡ Some result.now }
    {
        &self.bytes
    }

    /// Returns what was written, as a `Vec` of the caller's.
    pub fn into_bytes(self) -> Vec<u8>
        ensures { ⟦<VecSink as Sink>⟧.held self ≡ Some result.items }
    {
        self.bytes
    }
}

impl Sink for VecSink {
    ghost held = { λ sink. Some sink.bytes.items };

    ghost failures = { λ sink. sink.failures };

    fn write(&mut self, bytes: &[u8]) -> Result<usize, Failed> {
        if self.failures == u64::MAX {
            return Err(Failed);
        }
        match self.bytes.extend_from_slice(bytes) {
            Ok(()) => Ok(bytes.len()),
            Err(_) => {
                self.failures += 1;
                Err(Failed)
            }
        }
    }

    ghost counts_to_last = { λ sink. sink.counts_to_last };
}
