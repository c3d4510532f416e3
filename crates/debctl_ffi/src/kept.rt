//! The bytes that a reader was fed and that weren't read (Debian Policy 5.1). Of blank lines only
//! their numbers are kept, and of a line that is longer than a paragraph may be how many bytes it
//! has.

ghost use Rattle.std.specs.Prelude.{◌≡◌, ◌==◌, ◌||◌, ◌*◌, ◌<◌, ◌≤◌, ◌+◌, ◌++◌, [], false, true, ℕ, IsTrue, IfOk, IfSome, drop, length, take};
ghost use Rattle.deb_base.specs.Bodies.{HasNoNewline};
ghost use Rattle.debctl_ffi.specs.Blanks.{is_closing};

use crate::blank_lines::{BlankText, blank_lines};
use crate::long_line::CountedBytes;
use deb_base::{PARAGRAPH_LIMIT, is_only_blanks};
use memchr::{memchr, memrchr};
use std::alloc::{AllocError, Global};

/// Bytes of a file, and among them blank lines and bytes of a long line that are only counted.
#[derive(Drop)]
pub(crate) struct Kept {
    bytes: Vec<u8>,
    /// How many of the bytes come before the blank lines that are only counted.
    front: usize,
    /// How many these are.
    lines: u32,
    /// How many spaces and tabs they have together.
    spaces: u32,
    /// How many of the bytes come between the blank lines and the bytes of the long line.
    between: usize,
    /// How many bytes of this line are only counted.
    long: u64,
    ghost within: { front + between ≤ length bytes.items },
    ghost few: { spaces ≤ lines * 16777215 },
    ghost closing: { IsTrue ((lines == 0) || is_closing (take front bytes.items)) },
}

impl Kept {
    ghost use Rattle.std.specs.Prelude.{◌⊎◌};
    ghost use Rattle.debctl_ffi.specs.Blanks.{DropsBlanks, blank_text};
    ghost use Rattle.debctl_ffi.specs.KeptTexts.{held_text, kept_text};
    ghost use Rattle.debctl_ffi.specs.LongLines.{ChangesLongLine, with_long};

    /// These bytes.
    pub(crate) fn new(bytes: Vec<u8>) -> Kept
        ensures { kept_text result ≡ bytes.items }
    {
        Kept {
            bytes,
            front: 0,
            lines: 0,
            spaces: 0,
            between: 0,
            long: 0,
        }
    }

    /// How many bytes are held.
    pub(crate) fn len(&self) -> usize {
        self.bytes.len()
    }

    /// The last byte, if there is one.
    pub(crate) fn last(&self) -> &[u8] {
        if self.long > 0 && self.bytes.len() == self.front + self.between {
            return b"x";
        }
        &self.bytes[self.bytes.len().saturating_sub(1)..]
    }

    /// All bytes, as a source gives them.
    pub(crate) fn held(&self) -> Held<'_>
        ensures { held_text result ≡ kept_text self.now }
    {
        let later = &self.bytes[self.front..];
        Held {
            front: Part::new(&self.bytes[..self.front]),
            blanks: BlankText::new(self.lines, self.spaces),
            between: Part::new(&later[..self.between]),
            long: CountedBytes::new(self.long),
            back: Part::new(&later[self.between..]),
        }
    }

    /// Appends bytes.
    pub(crate) fn push(&mut self, text: &[u8]) -> Result<(), AllocError>
        ensures { IfOk result (λ _. kept_text self.new ≡ kept_text self.old ++ text.now) }
    {
        self.bytes.extend_from_slice(text)?;
        Ok(())
    }

    /// Only counts the blank lines that come after others, up to the last byte.
    pub(crate) fn drop_blanks(&mut self, alloc: Global) -> Result<(), AllocError>
        ensures { IfOk result (λ _. (kept_text self.new ≡ kept_text self.old)
            ⊎ DropsBlanks (kept_text self.old) (kept_text self.new)) }
    {
        if self.long > 0 {
            return Ok(());
        }
        let Some(front) = self.blanks_at() else {
            return Ok(());
        };
        let open = &self.bytes[front..];
        let blank = blank_lines(without_last(open));
        if blank.lines == 0 {
            return Ok(());
        }
        let lines = (self.lines as u64).saturating_add(blank.lines);
        let spaces = (self.spaces as u64).saturating_add(blank.bytes as u64 - blank.lines);
        if lines > u32::MAX as u64 || spaces > u32::MAX as u64 {
            return Ok(());
        }
        let bytes = joined(alloc, &self.bytes[..front], &open[blank.bytes..])?;
        *self = Kept {
            bytes,
            front,
            lines: lines as u32,
            spaces: spaces as u32,
            between: 0,
            long: 0,
        };
        Ok(())
    }

    /// Only counts the bytes of the line that hasn't ended, if it is longer than a paragraph may
    /// be.
    pub(crate) fn drop_line(&mut self, alloc: Global) -> Result<(), AllocError>
        ensures { IfOk result (λ _. (kept_text self.new ≡ kept_text self.old)
            ⊎ ChangesLongLine (kept_text self.old) (kept_text self.new)) }
    {
        let later = &self.bytes[self.front..];
        let Some(from) = self.line_from(later) else {
            return Ok(());
        };
        let long = self.long.saturating_add((later.len() - from) as u64);
        if long < PARAGRAPH_LIMIT as u64 || long == u64::MAX {
            return Ok(());
        }
        let bytes = joined(alloc, &self.bytes[..self.front], &later[..from])?;
        *self = Kept {
            bytes,
            front: self.front,
            lines: self.lines,
            spaces: self.spaces,
            between: from,
            long,
        };
        Ok(())
    }

    /// From where on the bytes after the blank lines belong to the line that hasn't ended and may
    /// be only counted: from its beginning, or from those on that are only counted.
    fn line_from(&self, later: &[u8]) -> Option<usize>
        ensures within { IfSome result (λ n. n ≤ length later.now) }
        ensures line { IfSome result (λ n. HasNoNewline (drop n later.now)) }
        ensures same { IfSome result (λ n. with_long self.now.between self.now.long later.now
            ≡ with_long n self.now.long later.now) }
    {
        let from = line_start(later);
        if self.long == 0 {
            return Some(from);
        }
        if from > self.between || self.between > later.len() {
            return None;
        }
        Some(self.between)
    }

    /// Where blank lines may be left out: after those that are, or after a blank line.
    fn blanks_at(&self) -> Option<usize>
        ensures within { IfSome result (λ n. n ≤ length self.now.bytes.items) }
        ensures closing { IfSome result (λ n. is_closing (take n self.now.bytes.items) ≡ true) }
        ensures text { IfSome result (λ n. take self.now.front self.now.bytes.items
            ++ (blank_text self.now.lines self.now.spaces
            ++ drop self.now.front self.now.bytes.items)
            ≡ take n self.now.bytes.items
            ++ (blank_text self.now.lines self.now.spaces ++ drop n self.now.bytes.items)) }
    {
        if self.lines > 0 {
            return Some(self.front);
        }
        closing_len(&self.bytes)
    }
}

/// Bytes that are read one after another.
#[derive(Clone, Copy)]
pub(crate) struct Part<'a> {
    bytes: &'a [u8],
}

impl<'a> Part<'a> {
    /// These bytes.
    pub(crate) fn new(bytes: &'a [u8]) -> Part<'a>
        ensures { result.bytes.now ≡ bytes.now }
    {
        Part { bytes }
    }

    /// Writes the next bytes to the start of a buffer, and returns their number.
    pub(crate) fn take(&mut self, buffer: &mut [u8]) -> usize
        ensures within { result ≤ length buffer.new }
        ensures taken { self.old.bytes.now ≡ take result buffer.new ++ self.new.bytes.now }
        ensures some { result ≡ 0 → 0 < length buffer.new → self.old.bytes.now ≡ [] }
    {
        let count = self.bytes.len().min(buffer.len());
        buffer[..count].copy_from_slice(&self.bytes[..count]);
        self.bytes = &self.bytes[count..];
        count
    }
}

/// The bytes of `Kept`, as a source gives them.
#[derive(Clone, Copy)]
pub(crate) struct Held<'a> {
    front: Part<'a>,
    blanks: BlankText,
    between: Part<'a>,
    long: CountedBytes,
    back: Part<'a>,
}

impl Held<'_> {
    ghost use Rattle.debctl_ffi.specs.KeptTexts.{held_text};

    /// Whether there is no further byte.
    pub(crate) fn is_empty(&self) -> bool
        ensures empty { result ≡ true → held_text self.now ≡ [] }
        ensures some { result ≡ false → 0 < length (held_text self.now) }
    {
        self.front.bytes.is_empty()
            && self.blanks.is_empty()
            && self.between.bytes.is_empty()
            && self.long.is_empty()
            && self.back.bytes.is_empty()
    }

    /// Writes the next bytes to the start of a buffer, and returns their number.
    pub(crate) fn take(&mut self, buffer: &mut [u8]) -> usize
        ensures within { result ≤ length buffer.new }
        ensures taken { held_text self.old ≡ take result buffer.new ++ held_text self.new }
        ensures some { result ≡ 0 → 0 < length buffer.new → held_text self.old ≡ [] }
    {
        if !self.front.bytes.is_empty() {
            return self.front.take(buffer);
        }
        if !self.blanks.is_empty() {
            return self.blanks.take(buffer);
        }
        if !self.between.bytes.is_empty() {
            return self.between.take(buffer);
        }
        if !self.long.is_empty() {
            return self.long.take(buffer);
        }
        self.back.take(buffer)
    }
}

/// A text without its last byte.
fn without_last(text: &[u8]) -> &[u8]
    ensures { (k : ℕ) → k ≤ length result.now
        → (take k result.now ≡ take k text.now) × (k ≤ length text.now) }
{
    &text[..text.len().saturating_sub(1)]
}

/// Where the line begins that hasn't ended.
fn line_start(text: &[u8]) -> usize
    ensures within { result ≤ length text.now }
    ensures line { HasNoNewline (drop result text.now) }
{
    match memrchr(b'\n', text) {
        Some(at) => at + 1,
        None => 0,
    }
}

/// Two texts, one after the other.
pub(crate) fn joined(alloc: Global, front: &[u8], rest: &[u8]) -> Result<Vec<u8>, AllocError>
    ensures { IfOk result (λ bytes. bytes.items ≡ front.now ++ rest.now) }
{
    let mut bytes = Vec::new(alloc);
    bytes.extend_from_slice(front)?;
    bytes.extend_from_slice(rest)?;
    Ok(bytes)
}

/// How many bytes a text has up to its second newline, if a blank line ends there.
fn closing_len(text: &[u8]) -> Option<usize>
    ensures within { IfSome result (λ n. n ≤ length text.now) }
    ensures closing { IfSome result (λ n. is_closing (take n text.now) ≡ true) }
{
    let first = memchr(b'\n', text)?;
    let rest = &text[first + 1..];
    let second = memchr(b'\n', rest)?;
    if second >= PARAGRAPH_LIMIT || !is_only_blanks(&rest[..second]) {
        return None;
    }
    Some(first + 1 + (second + 1))
}
