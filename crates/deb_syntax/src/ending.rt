//! Finds the end of the next paragraph (Debian Policy 5.1).

ghost use Rattle.std.specs.Prelude.{◌≡◌, ◌+◌, ℕ, List, [], take, IfOk, IfErr, IsTrue};
ghost use Rattle.deb_base.specs.Bodies.{file_limit};
ghost use Rattle.deb_base.specs.Devices.{read_failures_after};
ghost use Rattle.deb_base.specs.Faults.{IsReadersFault};
ghost use Rattle.deb_base.specs.Reading.{piece_limit};
ghost use Rattle.deb_syntax.specs.Ahead.{At, IsExtentOf, KeepsLine, SameCounts};
ghost use Rattle.deb_syntax.specs.Cursors.{cursor_state, had, Takes};
ghost use Rattle.deb_syntax.specs.Judged.{IsRefusalOfLength};
ghost use Rattle.deb_syntax.specs.LineEnds.{piece_ends};
ghost use Rattle.deb_syntax.specs.Resuming.{IsExtentAhead};

use crate::file_cursor::FileCursor;
use crate::line::{NextLine, next_line};
use deb_base::{Code, Fault, Refusal, Source};

/// Where the paragraph ends that begins the unread bytes.
#[derive(Clone, Copy, Debug)]
pub(crate) struct Extent {
    /// Where its last line ends, without its newline.
    pub(crate) end: usize,
    /// How many unread bytes pass with it and with the blank line after it.
    pub(crate) skip: usize,
    /// How many bytes of the file those are, with such as aren't kept.
    pub(crate) bytes: u64,
    /// How many lines.
    pub(crate) lines: u64,
}

/// Where the paragraph ends that begins the unread bytes; its first line ends at `end`, and they go
/// on at `next`. After Ok `ends` holds where each of its lines ends, without its newline.
///
/// Refused: with a line that isn't blank its lines are too long (`ParagraphTooLong`, at that line),
/// or the file is too long and no blank line after the paragraph is in sight (`FileTooLong`, at
/// the line that is cut off). Memory: a growth of `ends`, or of the buffer, was refused.
pub(crate) fn paragraph_extent<R: Source>(
    cursor: &mut FileCursor,
    end: usize,
    next: usize,
    reader: &mut R,
    ends: &mut Vec<u32>,
) -> Result<Extent, Fault>
    requires line { KeepsLine end next (cursor_state cursor.old) }
    ensures found { IfOk result (λ extent. IsExtentOf extent (cursor_state cursor.new)) }
    ensures ahead { (text : List ℕ) → At text [] (cursor_state cursor.old) (R.left reader.old)
        → IsExtentAhead text (cursor_state cursor.old) result (cursor_state cursor.new)
        (R.left reader.new) }
    ensures ends { IfOk result (λ extent.
        ends.new.items ≡ piece_ends (take extent.end (cursor_state cursor.new).unread)) }
    ensures same { SameCounts (cursor_state cursor.old) (cursor_state cursor.new) }
    ensures reads_at_most { Takes (had (cursor_state cursor.old)) (R.left reader.old)
        (file_limit + piece_limit) (R.left reader.new) }
    ensures fault { IfErr result (λ fault. IsReadersFault fault IsRefusalOfLength) }
    ensures fault_iff_device_failed { R.failures reader.new
        ≡ read_failures_after (R.failures reader.old) result }
    ensures source_untouched { IsTrue (cursor_state cursor.old).ended → reader.new ≡ reader.old }
{
    ends.clear();
    let (mut last, mut kept) = (end, next);
    let code = 'walk: loop {
        ends.push(last as u32)?;
        match next_line(cursor, kept, reader)? {
            NextLine::Whole { end, next } => {
                last = end;
                kept = next;
            }
            NextLine::Blank { bytes, next } => {
                return Ok(Extent {
                    end: last,
                    skip: next,
                    bytes: kept as u64 + bytes,
                    lines: ends.len() as u64 + 1,
                });
            }
            NextLine::Ended => {
                return Ok(Extent {
                    end: last,
                    skip: kept,
                    bytes: kept as u64,
                    lines: ends.len() as u64,
                });
            }
            NextLine::Overlong { .. } => break Code::ParagraphTooLong,
            NextLine::Cut => break Code::FileTooLong,
        }
    };
    let line = cursor.lines() + ends.len() as u64 + 1;
    Err(Fault::Refused(Refusal { code, line }))
}
