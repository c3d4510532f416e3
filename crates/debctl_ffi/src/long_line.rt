//! Bytes of a line that are only counted.

ghost use Rattle.std.specs.Prelude.{◌≡◌, ◌==◌, ◌++◌, ◌<◌, ◌≤◌, length, replicate, take};
ghost use Rattle.debctl_ffi.specs.LongLines.{line_byte};

/// So many bytes, each `x`.
#[derive(Clone, Copy)]
pub(crate) struct CountedBytes {
    count: u64,
}

impl CountedBytes {
    /// So many bytes.
    pub(crate) fn new(count: u64) -> CountedBytes
        ensures { result.count ≡ count }
    {
        CountedBytes { count }
    }

    /// Whether there is no further byte.
    pub(crate) fn is_empty(&self) -> bool
        ensures { result ≡ (self.now.count == 0) }
    {
        self.count == 0
    }

    /// Writes the next bytes to the start of a buffer, and returns their number.
    pub(crate) fn take(&mut self, buffer: &mut [u8]) -> usize
        ensures within { result ≤ length buffer.new }
        ensures taken { replicate self.old.count line_byte
            ≡ take result buffer.new ++ replicate self.new.count line_byte }
        ensures some { result ≡ 0 → 0 < length buffer.new → self.old.count ≡ 0 }
    {
        let mut at = 0;
        while at < buffer.len() && self.count > 0 {
            buffer[at] = b'x';
            self.count -= 1;
            at += 1;
        }
        at
    }
}
