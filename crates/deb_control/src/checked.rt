//! Reads the paragraphs of a document, and checks them one after another.

ghost use Rattle.std.specs.Prelude.{◌≡◌, ◌==◌, ℕ, List, [], Option, Some, None, Ok, true, IfNone, IfErr, IfOk, IfSome, IsFalse, IsSome, IsTrue};
ghost use Rattle.deb_base.specs.Bodies.{pieces_of};
ghost use Rattle.deb_base.specs.Codes.{number_of};
ghost use Rattle.deb_syntax.specs.Paragraphs.{judged_last, seen_of, state_of};
ghost use Rattle.deb_syntax.specs.Reading.{Fits};
ghost use Rattle.deb_control.specs.Checking.{current_answer, is_found, is_sound, passing_seen, text_built};
ghost use Rattle.deb_control.specs.Documents.{rules_of};
ghost use Rattle.deb_control.specs.Refusals.{built};
ghost use Rattle.deb_control.specs.Resuming.{is_inside, is_none_or_refusal};
ghost use Rattle.deb_control.specs.Visiting.{PassesKeeping, PassesVisiting};

use crate::beside::Beside;
use crate::canon_text::CanonText;
use crate::checked_text::CheckedText;
use crate::checked_view::CheckedView;
use crate::checker::ParagraphChecker;
use crate::find::find;
use crate::totals::Totals;
use crate::visitor::FieldVisitor;
use deb_base::{Code, Fault, Source};
use deb_field::{Doc, is_single};
use deb_syntax::{Paragraphs, Raw};
use std::alloc::{AllocError, Global};
use std::mem;

/// Reads the paragraphs of a document of a kind, one after another, and returns those that pass
/// every rule of the kind (Debian Policy 5.1 and 5.3 to 5.6).
///
/// Each call takes the file's reader, as those of `Paragraphs` do. It holds one paragraph and its
/// canonical text; of earlier ones only their number and the length of their canonical text.
#[derive(Drop)]
pub struct Checked {
    paragraphs: Paragraphs,
    doc: Doc,
    totals: Totals,
    fault: Option<Fault>,
    /// The canonical text of the paragraph that `next` found last.
    canon: CanonText,
    alloc: Global,
    ghost inside: { IsTrue (is_inside fault (state_of paragraphs).fault) },
    ghost sound: { IsTrue (is_sound fault (state_of paragraphs).fault) },
    ghost found: { IsTrue (is_found fault doc (state_of paragraphs).current) },
}

impl Checked {
    ghost use Rattle.std.specs.Borrow.{sem};
    ghost use Rattle.std.specs.Io.BufRead.{Rests};
    ghost use Rattle.std.specs.Option.{option_map};
    ghost use Rattle.deb_control.specs.contracts.checked.Checked.{the_row};
    ghost use Rattle.deb_control.specs.Checking.{FitsChecked, ChecksOn, IsQuietChecked};
    ghost use Rattle.deb_control.specs.CheckedStates.{checked_state, checked_moment};
    ghost use Rattle.deb_control.specs.CheckedStates.{checked_answer, doc_judged, doc_of, doc_read};
    ghost use Rattle.deb_control.specs.CheckedStates.{lines_checked, passing_judged, passing_of};
    ghost use Rattle.deb_control.specs.CheckedStates.{refused_last};
    ghost use Rattle.deb_control.specs.Calls.{IfRefused};
    ghost use Rattle.deb_control.specs.Refusals.{Answered};
    ghost use Rattle.deb_control.specs.Refused.{lines_given};
    ghost use Rattle.deb_control.specs.Resuming.{FitsRefused, refuses_paragraph, resumed, resumes};
    ghost use Rattle.deb_syntax.specs.Judged.{line_judged};

    /// Returns a reader of checked paragraphs that has read nothing: the file is what its source
    /// has left. Takes no memory.
    pub fn new(alloc: Global, doc: Doc) -> Checked
        ensures doc { doc_read result ≡ doc }
        ensures sound { (checked_state result).fault ≡ None }
        ensures none { (checked_state result).count ≡ 0 }
        ensures fits { (text : List ℕ)
            → FitsChecked doc text [] (checked_state result) (Some text) }
    {
        Checked {
            paragraphs: Paragraphs::new(alloc),
            doc,
            totals: Totals::none(),
            fault: None,
            canon: CanonText::new(alloc),
            alloc,
        }
    }

    /// The kind of document that it reads.
    pub(crate) fn doc(&self) -> Doc
        ensures { result ≡ doc_read self.now }
    {
        self.doc
    }

    /// Returns the next paragraph of the file, if it passes, or `None` if there is no further one
    /// and none is missing. After `None` nothing is read.
    ///
    /// # Errors
    ///
    /// After an error every later call returns the same error, and reads nothing.
    ///
    /// - `Fault::Refused`: the file is refused. If this kind of document has exactly one paragraph:
    ///   there is none (`NoParagraph`, at the line after the last one), or there is a second one
    ///   (`TooManyParagraphs`, at its first line, whatever it contains). Otherwise the first of
    ///   these for the next paragraph: what `Paragraphs::next` refuses; what `Paragraph::build`
    ///   refuses; with this paragraph the canonical text of the file has more than 4,294,967,295
    ///   bytes (`FileTooLong`, at the paragraph's first line).
    /// - `Fault::Memory`: a growth of memory was refused.
    /// - `Fault::Read`: a read of `reader` failed in this call.
    pub fn next<'a, R: Source>(
        &'a mut self,
        reader: &mut R,
    ) -> Result<Option<CheckedText<'a>>, Fault>
        ensures doc { IfOk result
            (λ given. IfSome given (λ accepted. doc_of accepted ≡ doc_read self.old)) }
        ensures* after { sem 𝓛
            (Rests the_row self.entry
            (λ new. ChecksOn (doc_read self.old)
            (checked_moment self.old (R.left reader.old) (R.failures reader.old))
            (checked_answer result) (checked_moment new (R.left reader.new) (R.failures reader.new))
            × (doc_read new ≡ doc_read self.old))) }
        ensures source_untouched { IsQuietChecked (checked_state self.old) → reader.new ≡
            reader.old }
    {
        self.next_beside(None, reader)
    }

    /// Returns the next paragraph, as `next` does, sooner if it is spelled as this one.
    pub(crate) fn next_beside<'a, R: Source>(
        &'a mut self,
        other: Option<CheckedText<'_>>,
        reader: &mut R,
    ) -> Result<Option<CheckedText<'a>>, Fault>
        ensures doc { IfOk result
            (λ given. IfSome given (λ accepted. doc_of accepted ≡ self.old.doc)) }
        ensures* after { sem 𝓛
            (Rests the_row self.entry
            (λ new. ChecksOn self.old.doc
            (checked_moment self.old (R.left reader.old) (R.failures reader.old))
            (checked_answer result) (checked_moment new (R.left reader.new) (R.failures reader.new))
            × (new.doc ≡ self.old.doc))) }
        ensures source_untouched { IsQuietChecked (checked_state self.old) → reader.new ≡
            reader.old }
    {
        if self.step(other, reader)? {
            Ok(self.accepted())
        } else {
            Ok(None)
        }
    }

    /// Moves past the next paragraph of the file, and returns whether there is one: whether `next`
    /// would return a paragraph. Shows its values to the visitor, and doesn't build its canonical
    /// text.
    ///
    /// # Errors
    ///
    /// Those of `next`; `Fault::Memory` also if the visitor is out of memory. After an error every
    /// later call returns the same error, and reads nothing.
    pub fn advance<R: Source, V: FieldVisitor>(
        &mut self,
        visitor: &mut V,
        reader: &mut R,
    ) -> Result<bool, Fault>
        ensures passes { PassesVisiting V.Visited visitor.new (doc_read self.old)
            (checked_moment self.old (R.left reader.old) (R.failures reader.old)) result
            (checked_moment self.new (R.left reader.new) (R.failures reader.new)) }
        ensures doc { doc_read self.new ≡ doc_read self.old }
        ensures lines { IfNone (checked_state self.old).fault
            ((text : List ℕ) (answered : List Answered) → FitsChecked (doc_read self.old) text
            answered (checked_state self.old) (R.left reader.old) → IfRefused result
            (λ _. lines_checked self.new ≡ lines_given (rules_of (doc_read self.old)) text
            answered)) }
        ensures lines_found { IfNone (checked_state self.old).fault
            ((text : List ℕ) (answered : List Answered) → FitsChecked (doc_read self.old) text
            answered (checked_state self.old) (R.left reader.old) → IfOk result
            (λ _. lines_checked self.new ≡ lines_given (rules_of (doc_read self.old)) text
            answered)) }
        ensures refused { IfNone (checked_state self.old).fault
            ((text : List ℕ) (answered : List Answered) → FitsChecked (doc_read self.old) text
            answered (checked_state self.old) (R.left reader.old) → IfErr result
            (λ fault. IfSome (lines_checked self.new) (λ _. FitsRefused (doc_read self.old) text
            answered fault (checked_state self.new) (R.left reader.new)))) }
        ensures repeats { IsSome (checked_state self.old).fault → self.new ≡ self.old }
        ensures source_untouched { IsQuietChecked (checked_state self.old) → reader.new ≡
            reader.old }
    {
        self.go(visitor, reader)
    }

    /// Goes on after the paragraph that `advance` or `next` refused: forgets that error, so that
    /// the next call returns what follows that paragraph, as if its lines were blank. It counts
    /// neither as a paragraph nor with the canonical text of the file. Returns whether there was
    /// such an error. Otherwise it changes nothing: these errors repeat. Reads nothing.
    ///
    /// - A paragraph whose lines are too long, and a file that is too long, also if only its
    ///   canonical text is.
    /// - Each refusal of a kind of document that has exactly one paragraph.
    /// - `Fault::Memory` and `Fault::Read`.
    pub fn resume(&mut self) -> bool
        ensures resumed { result ≡ resumes (doc_read self.old) (checked_state self.old).fault
            (lines_checked self.old) }
        ensures goes_on { IsTrue result
            → checked_state self.new ≡ resumed (checked_state self.old) }
        ensures fits { (text : List ℕ) (answered : List Answered) (left : Option (List ℕ))
            → FitsChecked (doc_read self.old) text answered (checked_state self.old) left
            → FitsChecked (doc_read self.old) text answered (checked_state self.new) left }
        ensures doc { doc_read self.new ≡ doc_read self.old }
        ensures lines { lines_checked self.new ≡ lines_checked self.old }
        ensures unchanged { IsFalse result → self.new ≡ self.old }
    {
        let resumes = !is_single(self.doc) && self.refuses_paragraph();
        if resumes {
            go_on(&mut self.paragraphs);
            self.fault = None;
        }
        resumes
    }

    /// Whether the error is a refusal of a paragraph whose lines were judged, by itself.
    fn refuses_paragraph(&self) -> bool
        ensures { result ≡ refuses_paragraph self.now.fault (lines_checked self.now) }
    {
        match self.fault {
            Some(Fault::Refused(refusal)) => {
                self.paragraphs.first_line().is_some() && !is_file_too_long(refusal.code)
            }
            _ => false,
        }
    }

    /// Returns the paragraph that the last `advance` or `next` found, or `None` if it found none or
    /// failed.
    pub fn current(&self) -> Option<CheckedView<'_>>
        ensures seen { option_map (λ judged. (passing_judged judged).seen) result
            ≡ (checked_state self.now).current }
        ensures doc { IfSome result (λ judged. doc_judged judged ≡ doc_read self.now) }
    {
        if self.fault.is_some() {
            return None;
        }
        let raw = self.paragraphs.current()?;
        Some(CheckedView::new(self.doc, raw))
    }

    /// Returns the paragraph at which the file is refused, after a refusal: the one whose value,
    /// lack of a field, or canonical text is refused. `None` if the refusal isn't of a paragraph,
    /// or is of its lines, or of a second paragraph whatever it contains.
    pub fn refused(&self) -> Option<Raw<'_>>
        ensures { option_map seen_of result ≡ refused_last (checked_state self.now) }
    {
        match self.fault {
            Some(Fault::Refused(_)) => self.paragraphs.current(),
            _ => None,
        }
    }

    /// Returns the lines of the paragraph that the last `advance` found, or at which it refused the
    /// file, as they are in the file, with the newlines between them. `None` if there is no such
    /// paragraph.
    pub fn text(&self) -> Option<&[u8]>
        ensures { option_map (λ text. pieces_of text.now) result
            ≡ option_map (λ p. p.lines) (lines_checked self.now) }
    {
        self.paragraphs.text()
    }

    /// Returns the line of a number, counted from 1, without its newline, of the paragraph that the
    /// last `advance` found, or at which it refused the file. `None` if that has no such line, or
    /// if there is no such paragraph.
    pub fn line(&self, number: u64) -> Option<&[u8]>
        ensures { option_map (λ line. line.now) result
            ≡ line_judged number (lines_checked self.now) }
    {
        self.paragraphs.line(number)
    }

    /// Moves past the next paragraph, as `advance` does, and has it checked.
    fn go<R: Source, C: ParagraphChecker>(
        &mut self,
        checker: &mut C,
        reader: &mut R,
    ) -> Result<bool, Fault>
        ensures passes { PassesKeeping (C.Keeps checker.new self.old.doc) self.old.doc
            (checked_moment self.old (R.left reader.old) (R.failures reader.old)) result
            (checked_moment self.new (R.left reader.new) (R.failures reader.new)) }
        ensures doc { self.new.doc ≡ self.old.doc }
        ensures lines { IfNone (checked_state self.old).fault
            ((text : List ℕ) (answered : List Answered) → FitsChecked self.old.doc text
            answered (checked_state self.old) (R.left reader.old) → IfRefused result
            (λ _. lines_checked self.new ≡ lines_given (rules_of self.old.doc) text
            answered)) }
        ensures lines_found { IfNone (checked_state self.old).fault
            ((text : List ℕ) (answered : List Answered) → FitsChecked self.old.doc text
            answered (checked_state self.old) (R.left reader.old) → IfOk result
            (λ _. lines_checked self.new ≡ lines_given (rules_of self.old.doc) text
            answered)) }
        ensures refused { IfNone (checked_state self.old).fault
            ((text : List ℕ) (answered : List Answered) → FitsChecked self.old.doc text
            answered (checked_state self.old) (R.left reader.old) → IfErr result
            (λ fault. IfSome (lines_checked self.new) (λ _. FitsRefused self.old.doc text
            answered fault (checked_state self.new) (R.left reader.new)))) }
        ensures repeats { IsSome (checked_state self.old).fault → self.new ≡ self.old }
        ensures source_untouched { IsQuietChecked (checked_state self.old) → reader.new ≡
            reader.old }
    {
        if let Some(fault) = self.fault {
            return Err(fault);
        }
        match find(
            self.alloc,
            self.doc,
            &mut self.paragraphs,
            &mut self.totals,
            checker,
            reader,
        ) {
            Ok(found) => Ok(found),
            Err(fault) => {
                self.fault = Some(fault);
                Err(fault)
            }
        }
    }

    /// Goes on to the next paragraph, which `accepted` then returns with its canonical text, and
    /// returns whether there is one.
    fn step<R: Source>(
        &mut self,
        other: Option<CheckedText<'_>>,
        reader: &mut R,
    ) -> Result<bool, Fault>
        ensures checks { ChecksOn self.old.doc
            (checked_moment self.old (R.left reader.old) (R.failures reader.old))
            (current_answer self.old.doc (checked_state self.new).current result)
            (checked_moment self.new (R.left reader.new) (R.failures reader.new)) }
        ensures text { result ≡ Ok true → IfSome (checked_state self.new).current
            (λ seen. self.new.canon.text.items ≡ text_built (built (rules_of self.old.doc) seen)) }
        ensures doc { self.new.doc ≡ self.old.doc }
        ensures source_untouched { IsQuietChecked (checked_state self.old) → reader.new ≡
            reader.old }
    {
        let canon = mem::replace(&mut self.canon, CanonText::new(self.alloc));
        let mut beside = Beside { other, canon };
        let found = self.go(&mut beside, reader);
        self.canon = mem::replace(&mut beside.canon, CanonText::new(self.alloc));
        found
    }

    /// The paragraph that was given last, whose canonical text was built, or `None` if the last
    /// answer was none.
    fn accepted(&self) -> Option<CheckedText<'_>>
        requires text { IfSome (checked_state self.now).current
            (λ seen. self.now.canon.text.items ≡ text_built (built (rules_of self.now.doc) seen)) }
        ensures passing { option_map passing_of result
            ≡ option_map (passing_seen self.now.doc) (checked_state self.now).current }
        ensures doc { IfSome result (λ accepted. doc_of accepted ≡ self.now.doc) }
    {
        let judged = self.current()?;
        Some(CheckedText::new(judged, self.canon.text.as_slice()))
    }
}

/// Goes on after the paragraph that was judged last.
fn go_on(paragraphs: &mut Paragraphs)
    requires inside { IsTrue (is_none_or_refusal (state_of paragraphs.old).fault) }
    requires judged { IsSome (judged_last paragraphs.old) }
    ensures state { state_of paragraphs.new
        ≡ record (state_of paragraphs.old) { current = None; fault = None } }
    ensures fits { (text passed : List ℕ) (left : Option (List ℕ))
        → Fits text passed (state_of paragraphs.old) left
        → Fits text passed (state_of paragraphs.new) left }
    ensures judged { judged_last paragraphs.new ≡ judged_last paragraphs.old }
{
    paragraphs.resume();
    paragraphs.leave();
}

/// Whether a code is that of a file that is too long.
fn is_file_too_long(code: Code) -> bool
    ensures { result ≡ (number_of code == 9) }
{
    matches!(code, Code::FileTooLong)
}
