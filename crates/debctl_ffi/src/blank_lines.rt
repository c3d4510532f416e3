//! Blank lines that are only counted (Debian Policy 5.1).

ghost use Rattle.std.specs.Prelude.{◌≡◌, ◌==◌, ◌-◌, ◌∷◌, ◌++◌, ◌<◌, ◌≤◌, ◌*◌, length, take};
ghost use Rattle.debctl_ffi.specs.Blanks.{AreBlankLines, blank_text, blank_text_from, share_of};

use deb_base::{PARAGRAPH_LIMIT, is_only_blanks};
use memchr::memchr;

/// Blank lines at the start of a text.
#[derive(Clone, Copy)]
pub(crate) struct BlankLines {
    /// How many bytes they have, with their newlines.
    pub(crate) bytes: usize,
    /// How many they are.
    pub(crate) lines: u64,
}

/// The blank lines at the start of a text.
pub(crate) fn blank_lines(text: &[u8]) -> BlankLines
    ensures within { result.bytes ≤ length text.now }
    ensures few { result.lines ≤ result.bytes }
    ensures blank { AreBlankLines (take result.bytes text.now) result.lines
        (result.bytes - result.lines) }
{
    let mut bytes = 0;
    let mut lines = 0;
    while let Some(length) = memchr(b'\n', &text[bytes..]) {
        if length >= PARAGRAPH_LIMIT || !is_only_blanks(&text[bytes..][..length]) {
            break;
        }
        bytes += length + 1;
        lines += 1;
    }
    BlankLines { bytes, lines }
}

/// The bytes of blank lines of which only the numbers of lines and of spaces are known.
#[derive(Clone, Copy)]
pub(crate) struct BlankText {
    /// How many spaces the first line has.
    first: u32,
    /// How many lines there are.
    lines: u32,
    /// How many spaces the others have.
    spaces: u32,
}

impl BlankText {
    /// So many lines, with so many spaces.
    pub(crate) fn new(lines: u32, spaces: u32) -> BlankText
        ensures { blank_text_from result.first result.lines result.spaces
            ≡ blank_text lines spaces }
    {
        let first = share(lines, spaces);
        BlankText {
            first,
            lines,
            spaces: spaces - first,
        }
    }

    /// Whether there is no further byte.
    pub(crate) fn is_empty(&self) -> bool
        ensures { result ≡ (self.now.lines == 0) }
    {
        self.lines == 0
    }

    /// The next byte.
    pub(crate) fn next(&mut self) -> u8
        requires { 0 < self.old.lines }
        ensures { blank_text_from self.old.first self.old.lines self.old.spaces
            ≡ result ∷ blank_text_from self.new.first self.new.lines self.new.spaces }
    {
        if self.first > 0 {
            self.first -= 1;
            return b' ';
        }
        self.lines -= 1;
        self.first = share(self.lines, self.spaces);
        self.spaces -= self.first;
        b'\n'
    }

    /// Writes the next bytes to the start of a buffer, and returns their number.
    pub(crate) fn take(&mut self, buffer: &mut [u8]) -> usize
        ensures within { result ≤ length buffer.new }
        ensures taken { blank_text_from self.old.first self.old.lines self.old.spaces
            ≡ take result buffer.new
            ++ blank_text_from self.new.first self.new.lines self.new.spaces }
        ensures some { result ≡ 0 → 0 < length buffer.new → self.old.lines ≡ 0 }
    {
        let mut at = 0;
        while at < buffer.len() && self.lines > 0 {
            buffer[at] = self.next();
            at += 1;
        }
        at
    }
}

/// How many spaces the first of so many lines has.
fn share(lines: u32, spaces: u32) -> u32
    ensures value { result ≡ share_of lines spaces }
    ensures few { result ≤ spaces }
{
    let most = if spaces as u64 <= lines as u64 * 1024 {
        1024
    } else {
        16_777_215
    };
    spaces.min(most)
}
