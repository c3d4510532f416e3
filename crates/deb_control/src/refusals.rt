//! Reads the refusals of a file, one after another.

ghost use Rattle.std.specs.Prelude.{◌≡◌, ℕ, List, [], Option, None, Some, Ok, Err, IfErr, IfOk, IfSome, IsTrue};
ghost use Rattle.std.specs.Option.{option_map};
ghost use Rattle.deb_base.specs.Bodies.{file_limit};
ghost use Rattle.deb_base.specs.Devices.{read_failures_after};
ghost use Rattle.deb_base.specs.Reading.{IsMemoryOrRead, TakesNoMore};
ghost use Rattle.deb_control.specs.CheckedStates.{checked_state};
ghost use Rattle.deb_control.specs.Positions.{is_sound_at, position_after};
ghost use Rattle.deb_control.specs.SeenRefusals.{SeenRefusal};

use crate::checked::Checked;
use crate::next_refusal::next_refusal;
use crate::summary::Summary;
use deb_base::{Fault, Refusal, Source};
use deb_field::Doc;
use deb_syntax::Raw;
use std::alloc::Global;

/// What a reader of refusals returned last.
#[derive(Clone, Copy)]
pub(crate) enum Position {
    /// Nothing yet.
    Start,
    /// This refusal.
    At(Refusal),
    /// That no further one follows.
    End,
    /// This error.
    Failed(Fault),
}

/// A run of lines that is refused, as a `Refusals` reads it.
#[derive(Clone, Copy)]
pub struct RefusedRun<'a> {
    /// The kind of document as which the file is read.
    pub doc: Doc,
    /// The code and the line of the refusal.
    pub refusal: Refusal,
    /// The line of the run that has the refusal's number, without its newline: that of
    /// `Checked::line`.
    pub line: Option<&'a [u8]>,
    /// The paragraph, if its lines aren't refused: that of `Checked::refused`.
    pub paragraph: Option<Raw<'a>>,
}

/// Reads the refusals of a document of a kind, one after another: one for each run of lines that is
/// refused, in the order of the file (Debian Policy 5.1 and 5.3 to 5.6).
///
/// A run that is refused counts neither as a paragraph nor with the canonical text of the file:
/// what follows it is checked as if its lines were blank. Nothing is checked after a paragraph
/// whose lines are too long, after the file, or its canonical text, is too long, and after the
/// first refusal of a kind of document that has exactly one paragraph.
///
/// Each call takes the file's reader, as those of `Checked` do. It holds one paragraph.
#[derive(Drop)]
pub struct Refusals {
    checked: Checked,
    summary: Summary,
    position: Position,
    ghost sound: { IsTrue (is_sound_at position (checked_state checked).fault) },
}

impl Refusals {
    ghost use Rattle.deb_control.specs.GivenRefusals.{GivesNext, GoesOn, HasGiven, IsLastOf};
    ghost use Rattle.deb_control.specs.GivenRefusals.{failure_of, given_last, has_ended};
    ghost use Rattle.deb_control.specs.GivenRefusals.{shown_by_run, summary_of};

    /// Returns a reader of refusals that has read nothing: the file is what its source has left.
    /// Takes no memory.
    pub fn new(alloc: Global, doc: Doc) -> Refusals
        ensures starts { (text : List ℕ) → HasGiven doc text result (Some text) [] }
        ensures sound { failure_of result ≡ None }
    {
        Refusals {
            checked: Checked::new(alloc, doc),
            summary: Summary {
                passed: 0,
                refused: 0,
            },
            position: Position::Start,
        }
    }

    /// Returns the next refusal of the file, or `None` if no further one follows. After `None` it
    /// returns `None` again, and reads nothing.
    ///
    /// The file is read once, at most 4,295,032,831 bytes of it: a file of the most bytes and one
    /// piece.
    ///
    /// # Errors
    ///
    /// After an error every later call returns the same error, and reads nothing.
    ///
    /// - `Fault::Memory`: a growth of memory was refused.
    /// - `Fault::Read`: a read of `reader` failed in this call.
    pub fn next<R: Source>(&mut self, reader: &mut R) -> Result<Option<Refusal>, Fault>
        ensures gives { (doc : Doc) (text : List ℕ) (done : List SeenRefusal)
            → HasGiven doc text self.old (R.left reader.old) done
            → GivesNext doc text result self.new (R.left reader.new) done }
        ensures reads_at_most { (doc : Doc) (text : List ℕ) (done : List SeenRefusal)
            → HasGiven doc text self.old (R.left reader.old) done
            → TakesNoMore text file_limit (R.left reader.new) }

        // Whether or not the reader's bytes are known.
        ensures fault { IfErr result IsMemoryOrRead }
        ensures last { IfOk result (λ given. given_last self.new ≡ given) }
        ensures keeps { IfErr result (λ fault. failure_of self.new ≡ Some fault) }
        ensures sound { IfOk result (λ _. failure_of self.new ≡ None) }
        ensures counts_read_failure { failure_of self.old ≡ None
            → R.failures reader.new ≡ read_failures_after (R.failures reader.old) result }
        ensures repeats { IfSome (failure_of self.old) (λ fault. (result ≡ Err fault)
            × ((self.new ≡ self.old) × (reader.new ≡ reader.old))) }
        ensures ended { IsTrue (has_ended self.old) → (result ≡ Ok None)
            × ((self.new ≡ self.old) × (reader.new ≡ reader.old)) }
    {
        match self.position {
            Position::Start => self.find(reader),
            Position::At(_) => {
                if self.checked.resume() {
                    return self.find(reader);
                }
                self.position = Position::End;
                Ok(None)
            }
            Position::End => Ok(None),
            Position::Failed(fault) => Err(fault),
        }
    }

    /// Returns how many paragraphs passed and how many runs of lines were refused so far. These are
    /// the counts of the whole file once `next` returned `None`.
    pub fn summary(&self) -> Summary
        ensures { result ≡ summary_of self.now }
    {
        self.summary
    }

    /// Returns the run of lines that `next` refused last, or `None` if that returned none or an
    /// error, or wasn't called. `deb_explain::explain_last` returns what its refusal is about.
    pub fn refused(&self) -> Option<RefusedRun<'_>>
        ensures refusal { option_map (λ run. run.refusal) result ≡ given_last self.now }
        ensures shows { (doc : Doc) (text : List ℕ) (left : Option (List ℕ))
            (done : List SeenRefusal) → HasGiven doc text self.now left done → IfSome result
            (λ run. (run.doc ≡ doc) × IsLastOf (shown_by_run run) done) }
    {
        let Position::At(refusal) = self.position else {
            return None;
        };
        Some(RefusedRun {
            doc: self.checked.doc(),
            refusal,
            line: self.checked.line(refusal.line),
            paragraph: self.checked.refused(),
        })
    }

    /// Goes on to the next refusal, or to the end.
    fn find<R: Source>(&mut self, reader: &mut R) -> Result<Option<Refusal>, Fault>
        requires sound { (checked_state self.old.checked).fault ≡ None }
        ensures gives { (doc : Doc) (text : List ℕ) (done : List SeenRefusal)
            → GoesOn doc text self.old.checked self.old.summary (R.left reader.old) done
            → GivesNext doc text result self.new (R.left reader.new) done }
        ensures reads_at_most { (doc : Doc) (text : List ℕ) (done : List SeenRefusal)
            → GoesOn doc text self.old.checked self.old.summary (R.left reader.old) done
            → TakesNoMore text file_limit (R.left reader.new) }
        ensures fault { IfErr result IsMemoryOrRead }
        ensures position { self.new.position ≡ position_after result }
        ensures counts_read_failure { R.failures reader.new ≡ read_failures_after
            (R.failures reader.old) result }
    {
        let found = next_refusal(&mut self.checked, &mut self.summary, reader);
        self.position = position_after(found);
        found
    }
}

fn position_after(found: Result<Option<Refusal>, Fault>) -> Position
    ensures { result ≡ position_after found }
{
    match found {
        Ok(Some(refusal)) => Position::At(refusal),
        Ok(None) => Position::End,
        Err(fault) => Position::Failed(fault),
    }
}
