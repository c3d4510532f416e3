//! Finds the first line that isn't blank (Debian Policy 5.1).

ghost use Rattle.std.specs.Prelude.{◌≡◌, ◌+◌, ◌≤◌, ◌==◌, ℕ, List, [], length, take, IfErr, IsTrue};
ghost use Rattle.std.specs.List.{list_all};
ghost use Rattle.deb_base.specs.Bodies.{file_limit, newline};
ghost use Rattle.deb_base.specs.Devices.{read_failures_after};
ghost use Rattle.deb_base.specs.Faults.{IsReadersFault};
ghost use Rattle.deb_base.specs.Reading.{piece_limit};
ghost use Rattle.deb_syntax.specs.Ahead.{At, HasFirst, IsFirst};
ghost use Rattle.deb_syntax.specs.Cursors.{cursor_state, had, PassesOn, Takes};
ghost use Rattle.deb_syntax.specs.Judged.{IsRefusalOfLength};
ghost use Rattle.deb_syntax.specs.NextLines.{IsNear};

use crate::file_cursor::FileCursor;
use crate::line::{NextLine, next_line};
use deb_base::{Code, Fault, Refusal, Source};

/// The first line ahead that isn't blank.
#[derive(Clone, Copy, Debug)]
pub(crate) enum FirstLine {
    /// There is none: the file has ended.
    NoMore,
    /// It begins the unread bytes and ends at `end`, and these go on at `next`.
    Buffered { end: usize, next: usize },
    /// It is as long as a paragraph may be, or longer, and none of its bytes are kept: its newline
    /// begins the unread bytes, or there are none.
    TooLong { len: u64 },
}

/// Passes blank lines, and goes along the first other line to its end.
///
/// Refused: the file is too long, and no line that isn't blank ends within what it may have
/// (`FileTooLong`).
pub(crate) fn first_line<R: Source>(
    cursor: &mut FileCursor,
    reader: &mut R,
) -> Result<FirstLine, Fault>
    requires near { IsNear (cursor_state cursor.old).unread }
    requires reach { had (cursor_state cursor.old) ≤ file_limit + piece_limit }
    ensures found { HasFirst result (cursor_state cursor.new) }
    ensures ahead { (text : List ℕ) → At text [] (cursor_state cursor.old) (R.left reader.old)
        → IsFirst text (cursor_state cursor.old) result (cursor_state cursor.new)
        (R.left reader.new) }
    ensures reads_at_most { Takes (had (cursor_state cursor.old)) (R.left reader.old)
        (file_limit + piece_limit) (R.left reader.new) }
    ensures fault { IfErr result (λ fault. IsReadersFault fault IsRefusalOfLength) }
    ensures fault_iff_device_failed { R.failures reader.new
        ≡ read_failures_after (R.failures reader.old) result }
    ensures end_stays { IsTrue (cursor_state cursor.old).ended
        → IsTrue (cursor_state cursor.new).ended }
    ensures source_untouched { IsTrue (cursor_state cursor.old).ended → reader.new ≡ reader.old }
{
    'walk: loop {
        match next_line(cursor, 0, reader)? {
            NextLine::Blank { bytes, next } => {
                cursor.consume(next, bytes, 1);
                pass_newlines(cursor);
            }
            NextLine::Whole { end, next } => return Ok(FirstLine::Buffered { end, next }),
            NextLine::Overlong { len, end } => {
                cursor.consume(end, 0, 0);
                return Ok(FirstLine::TooLong { len });
            }
            NextLine::Cut => {
                return Err(Fault::Refused(Refusal {
                    code: Code::FileTooLong,
                    line: cursor.lines() + 1,
                }));
            }
            NextLine::Ended => return Ok(FirstLine::NoMore),
        }
    }
}

/// Passes the newlines that the unread bytes begin with, each of which is an empty line.
fn pass_newlines(cursor: &mut FileCursor)
    ensures { (count : ℕ) × (count ≤ length (cursor_state cursor.old).unread)
        × IsTrue (list_all (λ b. b == newline) (take count (cursor_state cursor.old).unread))
        × PassesOn (cursor_state cursor.old) count count count (cursor_state cursor.new) }
{
    let count = newlines(cursor.visible(0).bytes);
    cursor.consume(count, count as u64, count as u64);
}

/// How many newlines the text begins with.
fn newlines(text: &[u8]) -> usize
    ensures within { result ≤ length text.now }
    ensures all { IsTrue (list_all (λ b. b == newline) (take result text.now)) }
{
    let mut count = 0;
    while count < text.len() && text[count] == b'\n' {
        count += 1;
    }
    count
}
