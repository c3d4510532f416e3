//! Reads the lines of a file one after another, where those of a paragraph are kept (Debian Policy
//! 5.1).

ghost use Rattle.std.specs.Prelude.{◌≡◌, ◌+◌, ◌<◌, ◌≤◌, ◌^◌, ◌++◌, ℕ, List, length, drop, IfOk, IfErr, IfSome, IfNone, IsTrue};
ghost use Rattle.deb_base.specs.Bodies.{HasNoNewline, is_blank, file_limit};
ghost use Rattle.deb_base.specs.Devices.{read_failures_after};
ghost use Rattle.deb_base.specs.Reading.{IsMemoryOrRead, piece_limit};
ghost use Rattle.deb_syntax.specs.Cursors.{cursor_state, had, Takes};
ghost use Rattle.deb_syntax.specs.NextLines.{Describes, DropsLong, IsEndedLine, IsNear, IsNewline, IsNextLine, KeepsCounts};

use crate::file_cursor::{End, FileCursor};
use crate::newline::first_newline;
use deb_base::{Fault, PARAGRAPH_LIMIT, Source, begins_with_blank, is_only_blanks};

/// The line after the bytes that are kept.
#[derive(Clone, Copy, Debug)]
pub(crate) enum NextLine {
    /// It is blank, and has so many bytes with its newline. The unread bytes go on at `next`.
    Blank { bytes: u64, next: usize },
    /// It isn't blank, and is kept too: it ends at `end`, and the unread bytes go on at `next`.
    Whole { end: usize, next: usize },
    /// It isn't blank, and with it as many bytes would be kept as a paragraph may have, or more. It
    /// has `len` bytes, and is dropped; at `end` its newline follows, or nothing.
    Overlong { len: u64, end: usize },
    /// It goes on beyond what a file may have.
    Cut,
    /// There is none: the file ends.
    Ended,
}

/// The part of a line that was dropped, since it is too long to be kept.
#[derive(Clone, Copy, Debug)]
struct Dropped {
    len: u64,
    /// Whether all of its bytes are spaces and tabs.
    blank: bool,
}

impl Dropped {
    /// The same line with more of its bytes.
    #[inline(always)]
    fn with(self, part: &[u8]) -> Dropped
        requires { self.len + length part.now < 2 ^ 64 }
        ensures describes { (bytes : List ℕ) → Describes self bytes
            → Describes result (bytes ++ part.now) }
        ensures len { result.len ≡ self.len + length part.now }
    {
        Dropped {
            len: self.len + part.len() as u64,
            blank: self.blank && is_only_blanks(part),
        }
    }

    /// Whether the line is blank if these are its bytes.
    #[inline(always)]
    #[tactic(auto, unfolding(deb_base::specs::Bodies::paragraph_limit))]
    fn is_blank(self) -> bool
        ensures { (bytes : List ℕ) → Describes self bytes → result ≡ is_blank bytes }
    {
        self.len < PARAGRAPH_LIMIT as u64 && self.blank
    }
}

/// Reads the line after the first `kept` unread bytes, which stay.
///
/// A line with which they would be as many as a paragraph may have is dropped as it is read.
#[inline(always)]
pub(crate) fn next_line<R: Source>(
    cursor: &mut FileCursor,
    kept: usize,
    reader: &mut R,
) -> Result<NextLine, Fault>
    requires within { kept ≤ length (cursor_state cursor.old).unread }
    requires short { kept ≤ PARAGRAPH_LIMIT }
    requires room { (cursor_state cursor.old).bytes + kept ≤ file_limit }
    requires near { IsNear (drop kept (cursor_state cursor.old).unread) }
    requires reach { had (cursor_state cursor.old) ≤ file_limit + piece_limit }
    ensures line { IfOk result (λ line. IsNextLine kept (cursor_state cursor.old)
        (R.left reader.old) line (cursor_state cursor.new) (R.left reader.new)) }
    ensures counts { KeepsCounts (cursor_state cursor.old) (R.left reader.old)
        (cursor_state cursor.new) (R.left reader.new) }
    ensures reads_at_most { Takes (had (cursor_state cursor.old)) (R.left reader.old)
        (file_limit + piece_limit) (R.left reader.new) }
    ensures fault { IfErr result IsMemoryOrRead }
    ensures fault_iff_device_failed { R.failures reader.new
        ≡ read_failures_after (R.failures reader.old) result }
    ensures source_untouched { IsTrue (cursor_state cursor.old).ended → reader.new ≡ reader.old }
{
    let nothing = Dropped {
        len: 0,
        blank: true,
    };
    // Most lines are there at once.
    let there = cursor.visible(0).bytes;
    if let Some(end) = newline_from(there, kept) {
        return Ok(ended_line(&there[kept..end], kept, nothing, 1));
    }
    let mut dropped = nothing;
    let mut seen = kept;
    'pieces: loop {
        let visible = cursor.visible(dropped.len);
        match newline_from(visible.bytes, seen) {
            Some(end) => return Ok(ended_line(&visible.bytes[kept..end], kept, dropped, 1)),
            None => {}
        }
        match visible.ends {
            End::Limit => return Ok(NextLine::Cut),
            End::Eof => return Ok(ended_line(&visible.bytes[kept..], kept, dropped, 0)),
            End::More => {}
        }
        dropped = drop_long(cursor, kept, dropped);
        seen = cursor.unread().len();
        cursor.fill(reader)?;
    }
}

/// Where the first newline is from `seen` on.
#[inline(always)]
fn newline_from(bytes: &[u8], seen: usize) -> Option<usize>
    requires { seen ≤ length bytes.now }
    ensures found { IfSome result (λ end. IsNewline bytes.now seen end) }
    ensures none { IfNone result (HasNoNewline (drop seen bytes.now)) }
{
    let more = first_newline(&bytes[seen..])?;
    Some(seen + more)
}

/// What a line is that ends with these bytes, those of it that are unread, and has a newline of so
/// many bytes: 1, or 0 if the file ends with it.
#[inline(always)]
fn ended_line(part: &[u8], kept: usize, dropped: Dropped, newline: usize) -> NextLine
    requires len { kept + (dropped.len + length part.now) + 1 < 2 ^ 64 }
    requires newline { newline ≤ 1 }
    ensures { (bytes : List ℕ) → Describes dropped bytes
        → IsEndedLine (bytes ++ part.now) kept (length part.now) newline result }
{
    let end = kept + part.len();
    // Most lines are short, and begin with a byte that isn't blank.
    if dropped.len == 0 && !part.is_empty() && !begins_with_blank(part) && end < PARAGRAPH_LIMIT {
        return NextLine::Whole {
            end,
            next: end + newline,
        };
    }
    let line = dropped.with(part);
    let bytes = line.len + newline as u64;
    if bytes == 0 {
        NextLine::Ended
    } else if line.is_blank() {
        NextLine::Blank {
            bytes,
            next: end + newline,
        }
    } else if kept as u64 + line.len < PARAGRAPH_LIMIT as u64 {
        NextLine::Whole {
            end,
            next: end + newline,
        }
    } else {
        NextLine::Overlong { len: line.len, end }
    }
}

/// Drops what is unread of a line after the first `kept` bytes, if with it they are as many as a
/// paragraph may have.
#[inline(never)]
fn drop_long(cursor: &mut FileCursor, kept: usize, dropped: Dropped) -> Dropped
    requires within { kept ≤ length (cursor_state cursor.old).unread }
    requires len { length (cursor_state cursor.old).unread + dropped.len < 2 ^ 64 }
    ensures { DropsLong kept (cursor_state cursor.old) dropped (cursor_state cursor.new) result }
{
    let unread = cursor.unread();
    if unread.len() as u64 + dropped.len < PARAGRAPH_LIMIT as u64 {
        return dropped;
    }
    let longer = dropped.with(&unread[kept..]);
    cursor.truncate(kept);
    longer
}
