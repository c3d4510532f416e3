//! The reader of paragraphs (Debian Policy 5.1; deb822(5)).

ghost use Rattle.std.specs.Prelude.{◌≡◌, ◌+◌, ◌≤◌, ◌⊎◌, ℕ, List, [], Some, None, Err, true, false, length, option_map, Option, IsTrue, IfErr, IfOk, IfSome, OnOk};
ghost use Rattle.deb_base.specs.Bodies.{file_limit, pieces_of};
ghost use Rattle.deb_base.specs.Reading.{piece_limit};
ghost use Rattle.deb_syntax.specs.Ahead.{At, KeepsLine, passed_of};
ghost use Rattle.deb_syntax.specs.NextLines.{IsNear};
ghost use Rattle.deb_syntax.specs.Cursors.{cursor_state, buffer_of, had, Takes};
ghost use Rattle.deb_syntax.specs.Answers.{next_answer};
ghost use Rattle.deb_syntax.specs.Judged.{lines_standing, IsRefusalOfLength};
ghost use Rattle.deb_syntax.specs.Passing.{CanBeJudged, EndsLines};
ghost use Rattle.deb_syntax.specs.Resuming.{AnswersFault, HasPassed, is_resumable};
ghost use Rattle.deb_syntax.specs.CurrentParagraphs.{HidesLong, stands_within};
ghost use Rattle.deb_base.specs.Devices.{read_failures_after};
ghost use Rattle.deb_base.specs.Faults.{IsReadersFault};
ghost use Rattle.deb_syntax.specs.Reading.{IsRefusalOfText, state_from};

use crate::ending::paragraph_extent;
use crate::field_span::FieldSpan;
use crate::file_cursor::FileCursor;
use crate::first::{FirstLine, first_line};
use crate::judge::judge;
use crate::raw::Raw;
use deb_base::{Code, FILE_LIMIT, Fault, Refusal, Source};
use std::alloc::Global;

/// Where a paragraph's bytes begin and end in the buffer, and the number of its first line.
#[derive(Clone, Copy)]
pub(crate) struct CurrentParagraph {
    pub(crate) from: usize,
    pub(crate) to: usize,
    pub(crate) first_line: u64,
}

/// Reads the paragraphs of a file, one after another (Debian Policy 5.1).
///
/// A file has at most 4,294,967,295 bytes, and the lines of a paragraph, with their newlines, at
/// most 16,777,216. Each call takes the file's reader: the file is what was read so far, followed
/// by what that reader has left. It is read in pieces of at most 65,536 bytes. One paragraph and
/// the rest of one piece are held. After a read that returns no byte the reader isn't read again.
#[derive(Drop)]
pub struct Paragraphs {
    cursor: FileCursor,
    /// How many bytes of the first unread line aren't kept, since it is longer than a paragraph may
    /// be.
    overlong_len: u64,
    /// Whether it was answered that no paragraph follows.
    finished: bool,
    /// Returns the paragraph that the last `advance` or `next` found, or `None` if it found none or
    /// failed, or if `begins` was called since.
    current: Option<CurrentParagraph>,
    /// Where the lines are of the paragraph that the last `advance` or `next` judged, or `None` if
    /// it judged none, or if `begins` was called since.
    judged: Option<CurrentParagraph>,
    spans: Vec<FieldSpan>,
    /// Where each line of the paragraph ends, while it is judged.
    ends: Vec<u32>,
    fault: Option<Fault>,
    ghost near: { IsNear (cursor_state cursor).unread },
    ghost reach: { (cursor_state cursor).bytes + overlong_len + length (cursor_state cursor).unread
        ≤ 4295032831 },
    ghost hides: { HidesLong overlong_len (cursor_state cursor) },
    ghost stands: { IsTrue (stands_within (buffer_of cursor) spans.items current) },
    ghost judges: { IsTrue (stands_within (buffer_of cursor) [] judged) },
}

impl Paragraphs {
    ghost use Rattle.std.specs.Prelude.{IfNone, IsFalse, IsSome, ◌↔◌};
    ghost use Rattle.std.specs.Borrow.{sem};
    ghost use Rattle.std.specs.Io.BufRead.{Rests};
    ghost use Rattle.deb_syntax.specs.contracts.paragraphs.Paragraphs.{the_row};
    ghost use Rattle.deb_syntax.specs.Reading.{moment_of, Fits, FindsFirst, KeepsErrors};
    ghost use Rattle.deb_syntax.specs.Passing.{JudgesPassed, Passes, pass_answer};
    ghost use Rattle.deb_syntax.specs.Reading.{Advances, Begins, passed_count};
    ghost use Rattle.deb_syntax.specs.Paragraphs.{state_of, seen_of, answer_of, advance_answer};
    ghost use Rattle.deb_syntax.specs.Paragraphs.{ShowsFirst, IsQuiet};
    ghost use Rattle.deb_syntax.specs.Judged.{line_judged, ShowsJudged};
    ghost use Rattle.deb_syntax.specs.Paragraphs.{judged_last};

    /// Returns a reader of paragraphs that has read nothing: the file is what its source has left.
    /// Takes no memory.
    pub fn new(alloc: Global) -> Paragraphs
        ensures state { state_of result
            ≡ record {
              unread = [];
              held = 0;
              bytes = 0;
              lines = 0;
              overlong_len = 0;
              ended = false;
              finished = false;
              current = None;
              fault = None;
            } }
        ensures fits { (text : List ℕ) → Fits text [] (state_of result) (Some text) }
    {
        Paragraphs {
            cursor: FileCursor::new(alloc),
            overlong_len: 0,
            finished: false,
            current: None,
            judged: None,
            spans: Vec::new(alloc),
            ends: Vec::new(alloc),
            fault: None,
        }
    }

    /// Returns the length of the buffer in bytes: at most 16,842,752, a paragraph of the most bytes
    /// and one piece. No other list of bytes is held.
    pub fn held(&self) -> usize
        ensures value { result ≡ (state_of self.now).held }
        ensures bounded { result ≤ 16842752 }
    {
        self.cursor.held()
    }

    /// Returns the number of lines of the file, once a call has returned that no paragraph follows,
    /// and 0 before that. At most 4,294,967,295: a line has at least one byte, and a file at most
    /// that many.
    pub fn lines(&self) -> u64
        ensures finished { (state_of self.now).finished ≡ true
            → result ≡ (state_of self.now).lines }
        ensures unfinished { (state_of self.now).finished ≡ false → result ≡ 0 }
        ensures bounded { result ≤ FILE_LIMIT }
    {
        if self.finished {
            self.cursor.lines()
        } else {
            0
        }
    }

    /// Returns the paragraph that the last `advance` or `next` found, or `None` if it found none or
    /// failed, or if `begins` was called since.
    pub fn current(&self) -> Option<Raw<'_>>
        ensures { option_map seen_of result ≡ (state_of self.now).current }
    {
        let at = self.current?;
        Some(Raw::new(
            self.cursor.slice(at.from, at.to),
            self.spans.as_slice(),
            at.first_line,
        ))
    }

    /// Returns the lines of the paragraph that the last `advance` or `next` found or refused a line
    /// of, or that the last `pass` passed, as they are in the file, with the newlines between them.
    /// `None` if there is no such paragraph.
    pub fn text(&self) -> Option<&[u8]>
        ensures { option_map (λ text. pieces_of text.now) result
            ≡ option_map (λ p. p.lines) (judged_last self.now) }
    {
        let at = self.judged?;
        Some(self.cursor.slice(at.from, at.to))
    }

    /// Returns the line of a number, counted from 1, without its newline, of the paragraph that the
    /// last `advance` or `next` found or refused a line of. `None` if that has no such
    /// line, or if there is no such paragraph.
    pub fn line(&self, number: u64) -> Option<&[u8]>
        ensures { option_map (λ line. line.now) result ≡ line_judged number (judged_last self.now) }
    {
        let at = self.judged?;
        if number < at.first_line {
            return None;
        }
        self.cursor
            .slice(at.from, at.to)
            .split(|byte| *byte == b'\n')
            .nth((number - at.first_line) as usize)
    }

    /// Returns the line at which the next paragraph begins, counted from 1, or `None` if there is
    /// no further one. Blank lines before it are passed; `next` afterwards returns what it would
    /// have returned before. After `None`, every later call returns `None`.
    ///
    /// # Errors
    ///
    /// After an error every later call returns the same error, and reads nothing.
    ///
    /// - `Fault::Refused`: the file is too long, and no line of a further paragraph ends within the
    ///   limit (`FileTooLong`, at the line that is cut off).
    /// - `Fault::Memory`: a growth of memory was refused.
    /// - `Fault::Read`: a read of `reader` failed in this call.
    #[tactic(auto, using(crate::proofs::Advancing::begins_err))]
    pub fn begins<R: Source>(&mut self, reader: &mut R) -> Result<Option<u64>, Fault>
        ensures passes { KeepsErrors Begins (moment_of (state_of self.old) (R.left reader.old)
            (R.failures reader.old)) result (moment_of (state_of self.new) (R.left reader.new)
            (R.failures reader.new)) }
        ensures judged { IfNone (state_of self.old).fault (judged_last self.new ≡ None) }
        ensures source_untouched { IsQuiet (state_of self.old) → reader.new ≡ reader.old }
    {
        if let Some(fault) = self.fault {
            return Err(fault);
        }
        let answer = self.find_line(reader);
        if let Err(fault) = answer {
            self.fault = Some(fault);
        }
        answer
    }

    /// Returns the next paragraph of the file, or `None` if there is no further one. After `None`,
    /// every later call returns `None`. Once the paragraph is no longer borrowed, the reader is as
    /// `advance` leaves it.
    ///
    /// # Errors
    ///
    /// After an error every later call returns the same error, and reads nothing.
    ///
    /// - `Fault::Refused`: the file is refused, for the first of these. The paragraph's lines are
    ///   too long (`ParagraphTooLong`, at the line that takes them past the limit). The file is too
    ///   long, and no blank line after the paragraph was seen before that (`FileTooLong`, at the
    ///   line that is cut off). A line is refused, the first such one: it isn't UTF-8, begins a
    ///   signed message or a comment, continues no field, has no colon, or the text before its
    ///   colon isn't a field name or is one that the paragraph already has. After the last
    ///   paragraph: the file is too long.
    /// - `Fault::Memory`: a growth of memory was refused.
    /// - `Fault::Read`: a read of `reader` failed in this call.
    pub fn next<'a, R: Source>(&'a mut self, reader: &mut R) -> Result<Option<Raw<'a>>, Fault>
        ensures* after { sem 𝓛 (Rests the_row self.entry
            (λ new. KeepsErrors Advances (moment_of (state_of self.old) (R.left reader.old)
            (R.failures reader.old)) (answer_of result) (moment_of (state_of new)
            (R.left reader.new) (R.failures reader.new)))) }
        ensures source_untouched { IsQuiet (state_of self.old) → reader.new ≡ reader.old }
    {
        if self.advance(reader)? {
            Ok(self.current())
        } else {
            Ok(None)
        }
    }

    /// Moves to the next paragraph, which `current` then returns, and returns whether there is one.
    ///
    /// # Errors
    ///
    /// Those of `next`.
    #[tactic(auto, using(crate::proofs::Advancing::advance_err))]
    pub fn advance<R: Source>(&mut self, reader: &mut R) -> Result<bool, Fault>
        ensures passes { KeepsErrors Advances (moment_of (state_of self.old) (R.left reader.old)
            (R.failures reader.old)) (advance_answer (state_of self.new) result)
            (moment_of (state_of self.new) (R.left reader.new) (R.failures reader.new)) }
        ensures found { IfOk result (λ found. IsTrue found ↔ IsSome (state_of self.new).current) }
        ensures judged { IfNone (state_of self.old).fault ((text passed : List ℕ)
            → Fits text passed (state_of self.old) (R.left reader.old)
            → ShowsJudged text (passed_count passed)
            (advance_answer (state_of self.new) result) (judged_last self.new)) }
        ensures judged_passed { IfNone (state_of self.old).fault ((text passed : List ℕ)
            → Fits text passed (state_of self.old) (R.left reader.old)
            → IfSome (judged_last self.new)
            (λ p. HasPassed text passed p (state_of self.new) (R.left reader.new))) }
        ensures repeats { IsSome (state_of self.old).fault → self.new ≡ self.old }
        ensures source_untouched { IsQuiet (state_of self.old) → reader.new ≡ reader.old }
    {
        if let Some(fault) = self.fault {
            return Err(fault);
        }
        let answer = self.find(reader);
        if let Err(fault) = answer {
            self.fault = Some(fault);
        }
        answer
    }

    /// Passes the next paragraph without judging its lines, and returns whether there is one.
    /// `text` then returns its lines, and `current` returns `None`.
    ///
    /// # Errors
    ///
    /// After an error every later call returns the same error, and reads nothing.
    ///
    /// - `Fault::Refused`: the paragraph's lines are too long (`ParagraphTooLong`, at the line that
    ///   takes them past the limit), or the file is too long, and no blank line after the
    ///   paragraph was found before that (`FileTooLong`, at the line that is cut off). After the
    ///   last paragraph: the file is too long.
    /// - `Fault::Memory`: a growth of memory was refused.
    /// - `Fault::Read`: a read of `reader` failed in this call.
    #[tactic(auto, using(crate::proofs::PassingOn::pass_err))]
    pub fn pass<R: Source>(&mut self, reader: &mut R) -> Result<bool, Fault>
        ensures passes { KeepsErrors Passes (moment_of (state_of self.old) (R.left reader.old)
            (R.failures reader.old)) (pass_answer (judged_last self.new) result)
            (moment_of (state_of self.new) (R.left reader.new) (R.failures reader.new)) }
        ensures found { IfNone (state_of self.old).fault
            (IfOk result (λ found. IsTrue found ↔ IsSome (judged_last self.new))) }
        ensures repeats { IsSome (state_of self.old).fault → self.new ≡ self.old }
        ensures source_untouched { IsQuiet (state_of self.old) → reader.new ≡ reader.old }
    {
        if let Some(fault) = self.fault {
            return Err(fault);
        }
        let answer = self.pass_on(reader);
        if let Err(fault) = answer {
            self.fault = Some(fault);
        }
        answer
    }

    /// Forgets the error if `advance` or `next` refused a line of a paragraph, so that the next
    /// call reads on. Returns whether there was such an error. After `advance` the next call
    /// returns what follows that paragraph (`judged_passed` there); no clause of `next` says so.
    /// Otherwise it changes nothing: an error of memory or of a read, and a paragraph or a file
    /// that is too long, repeat. Reads nothing.
    pub fn resume(&mut self) -> bool
        ensures resumed { result ≡ is_resumable (state_of self.old).fault (judged_last self.old) }
        ensures goes_on { IsTrue result
            → state_of self.new ≡ record (state_of self.old) { fault = None } }
        ensures fits { (text passed : List ℕ) (left : Option (List ℕ))
            → Fits text passed (state_of self.old) left
            → Fits text passed (state_of self.new) left }
        ensures judged { judged_last self.new ≡ judged_last self.old }
        ensures unchanged { IsFalse result → self.new ≡ self.old }
    {
        match self.fault {
            Some(Fault::Refused(_)) if self.judged.is_some() => {
                self.fault = None;
                true
            }
            _ => false,
        }
    }

    /// Returns the number of the first line of the paragraph that the last `advance` or `next`
    /// found or refused a line of. `None` if there is no such paragraph.
    pub fn first_line(&self) -> Option<u64>
        ensures { result ≡ option_map (λ p. p.first) (judged_last self.now) }
    {
        let at = self.judged?;
        Some(at.first_line)
    }

    /// Leaves the paragraph that was found last: `current` then returns `None`. Reads nothing, and
    /// changes nothing else.
    pub fn leave(&mut self)
        ensures left { state_of self.new ≡ record (state_of self.old) { current = None } }
        ensures fits { (text passed : List ℕ) (left : Option (List ℕ))
            → Fits text passed (state_of self.old) left
            → Fits text passed (state_of self.new) left }
        ensures judged { judged_last self.new ≡ judged_last self.old }
    {
        self.current = None;
    }

    /// The line at which the next paragraph begins.
    fn find_line<R: Source>(&mut self, reader: &mut R) -> Result<Option<u64>, Fault>
        ensures begins { Begins (moment_of (state_of self.old) (R.left reader.old)
            (R.failures reader.old)) result (moment_of (state_of self.new) (R.left reader.new)
            (R.failures reader.new)) }
        ensures judged { self.new.judged ≡ None }
        ensures source_untouched { IsTrue (state_of self.old).ended ⊎ IsTrue
            (state_of self.old).finished
            → reader.new ≡ reader.old }
        ensures kept { self.new.fault ≡ self.old.fault }
    {
        match self.find_first(reader) {
            Ok(FirstLine::NoMore) => Ok(None),
            Ok(FirstLine::Buffered { .. }) => Ok(Some(self.cursor.lines() + 1)),
            Ok(FirstLine::TooLong { .. }) => Ok(Some(self.cursor.lines() + 1)),
            Err(fault) => Err(fault),
        }
    }

    /// Finds the next paragraph and passes it.
    fn find<R: Source>(&mut self, reader: &mut R) -> Result<bool, Fault>
        ensures advances { Advances (moment_of (state_of self.old) (R.left reader.old)
            (R.failures reader.old)) (advance_answer (state_of self.new) result)
            (moment_of (state_of self.new) (R.left reader.new) (R.failures reader.new)) }
        ensures found { IfOk result (λ found. IsTrue found ↔ IsSome (state_of self.new).current) }
        ensures judged { (text passed : List ℕ)
            → Fits text passed (state_of self.old) (R.left reader.old)
            → ShowsJudged text (passed_count passed)
            (advance_answer (state_of self.new) result) (judged_last self.new) }
        ensures judged_passed { (text passed : List ℕ)
            → Fits text passed (state_of self.old) (R.left reader.old)
            → IfSome (judged_last self.new)
            (λ p. HasPassed text passed p (state_of self.new) (R.left reader.new)) }
        ensures source_untouched { IsTrue (state_of self.old).ended ⊎ IsTrue
            (state_of self.old).finished
            → reader.new ≡ reader.old }
        ensures kept { self.new.fault ≡ self.old.fault }
    {
        match self.pass_on(reader) {
            Ok(true) => self.judge_passed(),
            Ok(false) => Ok(false),
            Err(fault) => Err(fault),
        }
    }

    /// Passes the next paragraph.
    fn pass_on<R: Source>(&mut self, reader: &mut R) -> Result<bool, Fault>
        ensures passes { Passes (moment_of (state_of self.old) (R.left reader.old)
            (R.failures reader.old)) (pass_answer (judged_last self.new) result)
            (moment_of (state_of self.new) (R.left reader.new) (R.failures reader.new)) }
        ensures found { IfOk result (λ found. IsTrue found ↔ IsSome (judged_last self.new)) }
        ensures none { IfErr result (λ _. judged_last self.new ≡ None) }
        ensures judgeable { IfSome (judged_last self.new) CanBeJudged }
        ensures ends { EndsLines self.new.ends.items (buffer_of self.new.cursor) self.new.judged }
        ensures source_untouched { IsTrue (state_of self.old).ended ⊎ IsTrue
            (state_of self.old).finished
            → reader.new ≡ reader.old }
        ensures kept { self.new.fault ≡ self.old.fault }
    {
        match self.find_first(reader) {
            Ok(FirstLine::NoMore) => Ok(false),
            Ok(FirstLine::TooLong { .. }) => Err(Fault::Refused(Refusal {
                code: Code::ParagraphTooLong,
                line: self.cursor.lines() + 1,
            })),
            Ok(FirstLine::Buffered { end, next }) => match self.pass_end(end, next, reader) {
                Ok(()) => Ok(true),
                Err(fault) => Err(fault),
            },
            Err(fault) => Err(fault),
        }
    }

    /// Judges the paragraph that has passed, if there is one. Without a refusal it is then the
    /// current one.
    fn judge_passed(&mut self) -> Result<bool, Fault>
        requires judgeable { IfSome (judged_last self.old) CanBeJudged }
        requires ends { EndsLines self.old.ends.items (buffer_of self.old.cursor) self.old.judged }
        requires none { (state_of self.old).current ≡ None }
        ensures judges { JudgesPassed (state_of self.old) (judged_last self.old) result
            (state_of self.new) }
        ensures judged { judged_last self.new ≡ judged_last self.old }
    {
        let Some(at) = self.judged else {
            return Ok(false);
        };
        let text = self.cursor.slice(at.from, at.to);
        let alloc = *self.spans.allocator();
        match judge(
            alloc,
            text,
            self.ends.as_slice(),
            at.first_line,
            &mut self.spans,
        ) {
            Ok(()) => {
                self.current = Some(at);
                Ok(true)
            }
            Err(fault) => Err(fault),
        }
    }

    /// Passes blank lines up to the first other line. From then on there is no current paragraph.
    fn find_first<R: Source>(&mut self, reader: &mut R) -> Result<FirstLine, Fault>
        ensures first { (text passed : List ℕ)
            → Fits text passed (state_of self.old) (R.left reader.old)
            → FindsFirst text passed result (state_of self.new) (R.left reader.new) }
        ensures shows { ShowsFirst result self.new.overlong_len self.new.finished
            (cursor_state self.new.cursor) }
        ensures none { (state_of self.new).current ≡ None }
        ensures judged { self.new.judged ≡ None }
        ensures ended { IsTrue (state_of self.old).finished → result ≡ Ok FirstLine.NoMore }
        ensures reads_at_most { Takes (had (cursor_state self.old.cursor) + self.old.overlong_len)
            (R.left reader.old) (file_limit + piece_limit) (R.left reader.new) }
        ensures fault { IfErr result (λ fault. IsReadersFault fault IsRefusalOfLength) }
        ensures fault_iff_device_failed { R.failures reader.new
            ≡ read_failures_after (R.failures reader.old) result }
        ensures source_untouched { IsTrue (state_of self.old).ended ⊎ IsTrue
            (state_of self.old).finished
            → reader.new ≡ reader.old }
        ensures end_stays { IsTrue (state_of self.old).ended → IsTrue (state_of self.new).ended }
        ensures kept { self.new.fault ≡ self.old.fault }
    {
        self.current = None;
        self.judged = None;
        if self.finished {
            return Ok(FirstLine::NoMore);
        }
        if self.overlong_len > 0 {
            return Ok(FirstLine::TooLong {
                len: self.overlong_len,
            });
        }
        match first_line(&mut self.cursor, reader) {
            Ok(FirstLine::NoMore) => {
                self.finished = true;
                Ok(FirstLine::NoMore)
            }
            Ok(FirstLine::Buffered { end, next }) => Ok(FirstLine::Buffered { end, next }),
            Ok(FirstLine::TooLong { len }) => {
                self.overlong_len = len;
                Ok(FirstLine::TooLong { len })
            }
            Err(fault) => {
                // Nothing that is unread is asked for again.
                self.cursor.truncate(0);
                Err(fault)
            }
        }
    }

    /// Finds the end of the paragraph that begins the unread bytes, and passes it.
    fn pass_end<R: Source>(&mut self, end: usize, next: usize, reader: &mut R) -> Result<(), Fault>
        requires no_overlong { self.old.overlong_len ≡ 0 }
        requires unfinished { self.old.finished ≡ false }
        requires none { self.old.current ≡ None }
        requires unjudged { self.old.judged ≡ None }
        requires line { KeepsLine end next (cursor_state self.old.cursor) }
        ensures passes { OnOk result ((text passed : List ℕ)
            → Fits text passed (state_of self.old) (R.left reader.old)
            → IfSome (judged_last self.new)
            (λ p. HasPassed text passed p (state_of self.new) (R.left reader.new))) }
        ensures refused { (text passed : List ℕ)
            → Fits text passed (state_of self.old) (R.left reader.old)
            → IfErr result (λ fault. IsReadersFault fault
            (λ refusal. next_answer text (passed_count passed) ≡ Err refusal)) }
        ensures found { OnOk result (IsSome (judged_last self.new)) }
        ensures judgeable { IfSome (judged_last self.new) CanBeJudged }
        ensures ends { EndsLines self.new.ends.items (buffer_of self.new.cursor) self.new.judged }
        ensures unjudged { IfErr result (λ _. self.new.judged ≡ None) }
        ensures none { self.new.current ≡ None }
        ensures unfinished { self.new.finished ≡ false }
        ensures no_overlong { self.new.overlong_len ≡ 0 }
        ensures reads_at_most { Takes (had (cursor_state self.old.cursor) + self.old.overlong_len)
            (R.left reader.old) (file_limit + piece_limit) (R.left reader.new) }
        ensures fault { IfErr result (λ fault. IsReadersFault fault IsRefusalOfLength) }
        ensures fault_iff_device_failed { R.failures reader.new
            ≡ read_failures_after (R.failures reader.old) result }
        ensures source_untouched { IsTrue (state_of self.old).ended → reader.new ≡ reader.old }
        ensures kept { self.new.fault ≡ self.old.fault }
    {
        match pass_paragraph(&mut self.cursor, end, next, reader, &mut self.ends) {
            Ok(paragraph) => {
                self.judged = Some(paragraph);
                Ok(())
            }
            Err(fault) => {
                // Nothing that is unread is asked for again.
                self.cursor.truncate(0);
                Err(fault)
            }
        }
    }
}

/// Finds the end of the paragraph that begins the unread bytes, and passes it. Then `ends` holds
/// where its lines end.
fn pass_paragraph<R: Source>(
    cursor: &mut FileCursor,
    end: usize,
    next: usize,
    reader: &mut R,
    ends: &mut Vec<u32>,
) -> Result<CurrentParagraph, Fault>
    requires line { KeepsLine end next (cursor_state cursor.old) }
    ensures stands { IfOk result (λ at. IsTrue (stands_within (buffer_of cursor.new) []
        (Some at))) }
    ensures judgeable { IfOk result (λ at. CanBeJudged (lines_standing (buffer_of cursor.new)
        at)) }
    ensures ends { IfOk result (λ at. EndsLines ends.new.items (buffer_of cursor.new) (Some at)) }
    ensures near { OnOk result (length (cursor_state cursor.new).unread ≤ piece_limit) }
    ensures passes { (text : List ℕ) → At text [] (cursor_state cursor.old) (R.left reader.old)
        → IfOk result (λ at. HasPassed text (passed_of text (cursor_state cursor.old))
        (lines_standing (buffer_of cursor.new) at) (state_from (cursor_state cursor.new) 0 false
        None None) (R.left reader.new)) }
    ensures refused { (text : List ℕ) → At text [] (cursor_state cursor.old) (R.left reader.old)
        → IfErr result (AnswersFault text (cursor_state cursor.old)) }
    ensures reads_at_most { Takes (had (cursor_state cursor.old)) (R.left reader.old)
        (file_limit + piece_limit) (R.left reader.new) }
    ensures fault { IfErr result (λ fault. IsReadersFault fault IsRefusalOfLength) }
    ensures fault_iff_device_failed { R.failures reader.new
        ≡ read_failures_after (R.failures reader.old) result }
    ensures source_untouched { IsTrue (cursor_state cursor.old).ended → reader.new ≡ reader.old }
{
    let extent = paragraph_extent(cursor, end, next, reader, ends)?;
    let (from, first_line) = (cursor.start(), cursor.lines() + 1);
    cursor.consume(extent.skip, extent.bytes, extent.lines);
    Ok(CurrentParagraph {
        from,
        to: from + extent.end,
        first_line,
    })
}
