//! The unread bytes of a file that is read in pieces, up to the limit of a file.

ghost use Rattle.deb_base.specs.Bodies.{file_limit};
ghost use Rattle.std.specs.Prelude.{◌≡◌, ◌+◌, ◌<◌, ◌≤◌, ◌^◌, vec_len, length};

use crate::read_buffer::ReadBuffer;
use deb_base::{FILE_LIMIT, Fault, PARAGRAPH_LIMIT, Source};
use std::alloc::Global;

/// How the unread bytes that may be looked at end.
#[derive(Clone, Copy)]
pub(crate) enum End {
    /// The reader has more.
    More,
    /// The file ends.
    Eof,
    /// The first byte follows that the file has too many.
    Limit,
}

/// The unread bytes that may be looked at, and what follows them.
#[derive(Clone, Copy)]
pub(crate) struct Visible<'a> {
    pub(crate) bytes: &'a [u8],
    pub(crate) ends: End,
}

/// A file that is read by pieces: its unread bytes, and how much of it has passed.
#[derive(Drop)]
pub(crate) struct FileCursor {
    buffer: ReadBuffer,
    /// How many bytes and lines of the file have passed.
    bytes: u64,
    lines: u64,
    /// Whether a read has returned the file's end.
    ended: bool,
    ghost few: { lines ≤ bytes },
    ghost small: { bytes < 2 ^ 32 },
}

impl FileCursor {
    ghost use Rattle.std.specs.Prelude.{[], false, IsFalse, slice_range};
    ghost use Rattle.deb_syntax.specs.Cursors.{cursor_state, buffer_of, start_of, TakesPiece, Sees};
    ghost use Rattle.deb_syntax.specs.Cursors.{PassesOn, KeepsFirst};

    /// A file before its first read. Takes no memory.
    pub(crate) fn new(alloc: Global) -> FileCursor
        ensures { cursor_state result ≡ record {
          unread = [];
          held = 0;
          bytes = 0;
          lines = 0;
          ended = false;
        } }
    {
        FileCursor {
            buffer: ReadBuffer::new(alloc),
            bytes: 0,
            lines: 0,
            ended: false,
        }
    }

    /// The length in bytes of the buffer.
    pub(crate) fn held(&self) -> usize
        ensures value { result ≡ (cursor_state self.now).held }
        ensures small { result ≤ 16842752 }
    {
        self.buffer.held()
    }

    /// How many lines of the file have passed.
    pub(crate) fn lines(&self) -> u64
        ensures { result ≡ (cursor_state self.now).lines }
    {
        self.lines
    }

    /// Whether a read has returned the file's end.
    pub(crate) fn ended(&self) -> bool
        ensures { result ≡ (cursor_state self.now).ended }
    {
        self.ended
    }

    /// The unread bytes.
    pub(crate) fn unread(&self) -> &[u8]
        ensures { result.now ≡ (cursor_state self.now).unread }
    {
        self.buffer.unread()
    }

    /// Where the unread bytes begin in the buffer.
    pub(crate) fn start(&self) -> usize
        ensures { result ≡ start_of self.now }
    {
        self.buffer.start()
    }

    /// Bytes of the buffer, also such as have passed.
    pub(crate) fn slice(&self, from: usize, to: usize) -> &[u8]
        requires ordered { from ≤ to }
        requires within { to ≤ (cursor_state self.now).held }
        ensures { result.now ≡ slice_range (buffer_of self.now) from to }
    {
        self.buffer.slice(from, to)
    }

    /// The unread bytes that may be looked at, where `overlong_len` bytes of the file are among
    /// them that aren't kept.
    #[tactic(auto, unfolding(deb_base::specs::Bodies::file_limit))]
    pub(crate) fn visible(&self, overlong_len: u64) -> Visible<'_>
        requires { (cursor_state self.now).bytes + overlong_len ≤ file_limit }
        ensures { Sees (cursor_state self.now) overlong_len result }
    {
        let unread = self.buffer.unread();
        let room = FILE_LIMIT - self.bytes - overlong_len;
        if room < unread.len() as u64 {
            Visible {
                bytes: &unread[..room as usize],
                ends: End::Limit,
            }
        } else if self.ended {
            Visible {
                bytes: unread,
                ends: End::Eof,
            }
        } else {
            Visible {
                bytes: unread,
                ends: End::More,
            }
        }
    }

    /// Takes one piece of the reader after the unread bytes, which don't end the file yet.
    pub(crate) fn fill<R: Source>(&mut self, reader: &mut R) -> Result<(), Fault>
        requires more { IsFalse (cursor_state self.old).ended }
        requires short { length (cursor_state self.old).unread ≤ PARAGRAPH_LIMIT }
        ensures { TakesPiece (cursor_state self.old) (record
            { bytes = R.left reader.old; failures = R.failures reader.old }) result
            (cursor_state self.new) (record {
              bytes = R.left reader.new;
              failures = R.failures reader.new;
            }) }
    {
        let count = self.buffer.fill(reader)?;
        self.ended = count == 0;
        Ok(())
    }

    /// Passes the first `skip` unread bytes, which are so many bytes and lines of the file.
    #[tactic(auto, unfolding(deb_base::specs::Bodies::file_limit))]
    pub(crate) fn consume(&mut self, skip: usize, bytes: u64, lines: u64)
        requires skip { skip ≤ length (cursor_state self.old).unread }
        requires bytes { (cursor_state self.old).bytes + bytes ≤ file_limit }
        requires lines { lines ≤ bytes }
        ensures passes { PassesOn (cursor_state self.old) skip bytes lines (cursor_state self.new) }
        ensures buffer { buffer_of self.new ≡ buffer_of self.old }
        ensures start { start_of self.new ≡ start_of self.old + skip }
    {
        self.buffer.consume(skip);
        self.bytes += bytes;
        self.lines += lines;
    }

    /// Forgets the unread bytes after the first `count`.
    pub(crate) fn truncate(&mut self, count: usize)
        requires { count ≤ length (cursor_state self.old).unread }
        ensures keeps { KeepsFirst (cursor_state self.old) count (cursor_state self.new) }
        ensures buffer { buffer_of self.new ≡ buffer_of self.old }
        ensures start { start_of self.new ≡ start_of self.old }
    {
        self.buffer.truncate(count);
    }
}
