//! A reader that is fed a file in pieces: what its memory holds, and what it returns.

ghost use Rattle.std.specs.Prelude.{◌≡◌, ◌++◌, [], ◌∷◌, ℕ, List, IfOk, false, length, true};
ghost use Rattle.deb_base.specs.declared.doc.Doc.{Doc as DocData};
ghost use Rattle.deb_control.specs.Calls.{IfRefused};
ghost use Rattle.deb_syntax.specs.Answers.{Seen};
ghost use Rattle.debctl_ffi.specs.Answers.{HasStatus, plain};
ghost use Rattle.debctl_ffi.specs.Buffers.{buffer};
ghost use Rattle.debctl_ffi.specs.Fields.{Numbered, RepliesTables, room};
ghost use Rattle.debctl_ffi.specs.Tables.{HasTables};

use crate::answer::{Answer, no_kind, no_memory, no_room, refused, yes};
use crate::field::{FieldSpan, Tables};
use crate::fields::give_tables;
use crate::kept::Kept;
use crate::kind::kind_of;
use crate::pieces::{LastPiece, Piece};
use crate::reading::{read_all, read_some};
use crate::run_scan::{RunScan, ended_runs};
use deb_base::{FILE_LIMIT, Fault};
use deb_control::Checked;
use deb_field::Doc;
use std::alloc::{AllocError, Global};

/// After how many further bytes a reader looks for those that it need only count.
const STEP: usize = 1 << 20;

/// What the memory of a reader holds.
#[derive(Drop)]
pub struct Reader {
    pub(crate) alloc: Global,
    pub(crate) checked: Checked,
    /// How many paragraphs were read.
    pub(crate) count: u64,
    /// The fields of those that the last call read.
    pub(crate) tables: Tables,
    /// The bytes that were fed and not read.
    pub(crate) kept: Kept,
    /// How many bytes were fed.
    pub(crate) fed: u64,
    /// What is known of these, without the last one.
    pub(crate) scan: RunScan,
    /// Whether the file has ended.
    pub(crate) ended: bool,
    /// The answer of the last call.
    pub(crate) answer: Answer,
}

impl Reader {
    ghost use Rattle.debctl_ffi.specs.Feeds.{Feeds, FeedsOn, IsFed, RefusesOn, ShowNext, Starts};
    ghost use Rattle.debctl_ffi.specs.Feeds.{TakesLast, TakesPiece};
    ghost use Rattle.debctl_ffi.specs.Unmet.{is_set};

    /// A reader that was fed nothing. The answer is 0, or 6 if no kind has the number.
    pub(crate) fn start(alloc: Global, kind: u8, answer: &mut Answer) -> Reader
        ensures { Starts kind answer.new result }
    {
        match kind_of(kind) {
            Some(doc) => {
                *answer = yes(0);
                Reader::new(alloc, doc, yes(0))
            }
            None => {
                *answer = no_kind();
                Reader::new(alloc, Doc::Any, no_kind())
            }
        }
    }

    /// A reader that was fed nothing.
    fn new(alloc: Global, doc: Doc, answer: Answer) -> Reader
        ensures fed { answer.status ≡ 0 → IsFed doc [] [] result }
        ensures kept { result.answer ≡ answer }
        ensures shows { ShowNext 0 [] result.tables }
    {
        Reader {
            alloc,
            checked: Checked::new(alloc, doc),
            count: 0,
            tables: Tables::new(alloc),
            kept: Kept::new(Vec::new(alloc)),
            fed: 0,
            scan: RunScan::new(),
            ended: false,
            answer,
        }
    }

    /// Takes the next piece of the file, and reads the paragraphs that end in it. After an error,
    /// and after the last piece, it takes none, and the answer is the same again.
    pub(crate) fn feed(self, text: &[u8], is_last: u8, answer: &mut Answer) -> Reader
        ensures { FeedsOn self text.now (is_set is_last) answer.new result }
    {
        let mut reader = self;
        reader.tables.clear();
        if reader.answer.status != 0 || reader.ended {
            *answer = reader.answer;
            return reader;
        }
        let next = reader.take(text, is_last);
        reader.answer = next;
        *answer = next;
        reader
    }

    /// Takes the next piece, and returns the answer, which is to be kept.
    fn take(&mut self, text: &[u8], is_last: u8) -> Answer
        ensures { (doc : DocData) (fed : List ℕ) (given : List Seen)
            → IsFed doc fed given self.old → ShowNext (length given) [] self.old.tables
            → Feeds doc fed given text.now (is_set is_last) result
            (record self.new { answer = result }) }
    {
        match self.read(text, is_last) {
            Ok(()) => yes(self.count),
            Err(Fault::Refused(refusal)) => refused(&refusal),
            Err(_) => {
                self.tables.clear();
                no_memory()
            }
        }
    }

    /// Takes the next piece, and reads the paragraphs that end in it.
    fn read(&mut self, text: &[u8], is_last: u8) -> Result<(), Fault>
        ensures piece { (doc : DocData) (fed : List ℕ) (given : List Seen)
            → IsFed doc fed given self.old → ShowNext (length given) [] self.old.tables
            → is_set is_last ≡ false
            → IfOk result (λ _. TakesPiece doc fed given text.now self.new) }
        ensures last { (doc : DocData) (fed : List ℕ) (given : List Seen)
            → IsFed doc fed given self.old → ShowNext (length given) [] self.old.tables
            → is_set is_last ≡ true
            → IfOk result (λ _. TakesLast doc fed given text.now self.new) }
        ensures refused { (doc : DocData) (fed : List ℕ) (given : List Seen)
            → IsFed doc fed given self.old → ShowNext (length given) [] self.old.tables
            → IfRefused result
            (λ refusal. RefusesOn doc (fed ++ text.now) given refusal self.new.tables) }
    {
        if is_last != 0 {
            return self.take_last(text);
        }
        match self.take_piece(text) {
            Ok(()) => match self.shorten(text.len()) {
                Ok(()) => Ok(()),
                Err(AllocError) => Err(Fault::Memory),
            },
            Err(fault) => Err(fault),
        }
    }

    /// Looks once in [`STEP`] bytes for those that need only be counted: blank lines, and the bytes
    /// of a line that is longer than a paragraph may be.
    fn shorten(&mut self, fed: usize) -> Result<(), AllocError>
        ensures fed { (doc : DocData) (fed : List ℕ) (given : List Seen)
            → IsFed doc fed given self.old → IfOk result (λ _. IsFed doc fed given self.new) }
        ensures tables { self.new.tables ≡ self.old.tables }
    {
        if self.kept.len() % STEP >= fed {
            return Ok(());
        }
        match self.drop_blanks() {
            Ok(()) => self.drop_line(),
            Err(AllocError) => Err(AllocError),
        }
    }

    /// Keeps of a line that is longer than a paragraph may be only how many bytes it has.
    fn drop_line(&mut self) -> Result<(), AllocError>
        ensures fed { (doc : DocData) (fed : List ℕ) (given : List Seen)
            → IsFed doc fed given self.old → IfOk result (λ _. IsFed doc fed given self.new) }
        ensures tables { self.new.tables ≡ self.old.tables }
    {
        self.kept.drop_line(self.alloc)
    }

    /// Keeps of the blank lines that weren't read only how many they are.
    fn drop_blanks(&mut self) -> Result<(), AllocError>
        ensures fed { (doc : DocData) (fed : List ℕ) (given : List Seen)
            → IsFed doc fed given self.old → IfOk result (λ _. IsFed doc fed given self.new) }
        ensures tables { self.new.tables ≡ self.old.tables }
    {
        if !self.scan.is_between() {
            return Ok(());
        }
        self.kept.drop_blanks(self.alloc)
    }

    /// Takes a piece that ends the file, and reads what is left.
    fn take_last(&mut self, text: &[u8]) -> Result<(), Fault>
        ensures ok { (doc : DocData) (fed : List ℕ) (given : List Seen)
            → IsFed doc fed given self.old → ShowNext (length given) [] self.old.tables
            → IfOk result (λ _. TakesLast doc fed given text.now self.new) }
        ensures refused { (doc : DocData) (fed : List ℕ) (given : List Seen)
            → IsFed doc fed given self.old → ShowNext (length given) [] self.old.tables
            → IfRefused result
            (λ refusal. RefusesOn doc (fed ++ text.now) given refusal self.new.tables) }
    {
        self.ended = true;
        read_all(
            &mut self.checked,
            &mut LastPiece::new(self.kept.held(), text),
            &mut self.count,
            &mut self.tables,
        )
    }

    /// Takes a piece that doesn't end the file, and reads the paragraphs that end in it. A file
    /// that is too long is read to the end of the piece, and refused.
    fn take_piece(&mut self, text: &[u8]) -> Result<(), Fault>
        ensures ok { (doc : DocData) (fed : List ℕ) (given : List Seen)
            → IsFed doc fed given self.old → ShowNext (length given) [] self.old.tables
            → IfOk result (λ _. TakesPiece doc fed given text.now self.new) }
        ensures refused { (doc : DocData) (fed : List ℕ) (given : List Seen)
            → IsFed doc fed given self.old → ShowNext (length given) [] self.old.tables
            → IfRefused result
            (λ refusal. RefusesOn doc (fed ++ text.now) given refusal self.new.tables) }
    {
        let fed = self.fed.saturating_add(text.len() as u64);
        if fed > FILE_LIMIT {
            return self.take_last(text);
        }
        self.fed = fed;
        if text.is_empty() {
            return Ok(());
        }
        let runs = ended_runs(&mut self.scan, self.kept.last(), text);
        if runs == 0 {
            self.kept.push(text)?;
            return Ok(());
        }
        let mut source = Piece::new(self.kept.held(), text);
        read_some(
            &mut self.checked,
            &mut source,
            runs,
            &mut self.count,
            &mut self.tables,
        )?;
        let rest = source.rest(self.alloc)?;
        self.kept = Kept::new(rest);
        Ok(())
    }

    /// The answer of [`crate::feed::deb_reader_fields`].
    pub(crate) fn fields(
        &self,
        spans: &mut [FieldSpan],
        span_count: &mut usize,
        names: &mut [u8],
        names_length: &mut usize,
        values: &mut [u8],
        values_length: &mut usize,
    ) -> Answer
        ensures tables { (shown : List Numbered) → HasTables self.now.tables shown
            → RepliesTables (plain 0) shown
            (room (buffer spans.old spans.new span_count.new)
            (buffer names.old names.new names_length.new)
            (buffer values.old values.new values_length.new)) result }
        ensures status { HasStatus result.status (0 ∷ 4 ∷ []) }
    {
        *span_count = self.tables.spans.len();
        *names_length = self.tables.names.len();
        *values_length = self.tables.values.len();
        if give_tables(&self.tables, spans, names, values) {
            yes(0)
        } else {
            no_room()
        }
    }
}

/// Frees what a reader holds.
pub(crate) fn discard(reader: Reader) {
    drop(reader);
}
