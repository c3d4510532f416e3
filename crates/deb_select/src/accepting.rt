//! Writes the selected paragraphs of a file, and goes on after those that are refused.

ghost use Rattle.std.specs.Prelude.{◌≡◌, ◌+◌, ◌-◌, ◌<◌, ◌^◌, ℕ, List, [], None, Ok, Option, Some};
ghost use Rattle.std.specs.Prelude.{true, IfErr, IfOk};
ghost use Rattle.deb_base.specs.Bodies.{file_limit};
ghost use Rattle.deb_base.specs.Devices.{AppendsFront, read_failures_after, ReadFaultIffFailed};
ghost use Rattle.deb_base.specs.Reading.{TakesNoMore};
ghost use Rattle.deb_control.specs.AllRefusals.{file_lines};
ghost use Rattle.deb_control.specs.Calls.{IfCutOff, IfWriteFailed};
ghost use Rattle.deb_control.specs.CheckedStates.{checked_state, doc_read};
ghost use Rattle.deb_control.specs.WrittenRefusals.{IsNoRefusal, WritesAll, WritesFirst};
ghost use Rattle.deb_select.specs.AcceptedWalks.{FitsWalk, Sinks, StepsOn, Walked, outcome_after};
ghost use Rattle.deb_select.specs.AcceptedWalks.{sinks};
ghost use Rattle.deb_select.specs.Accepting.{CountsWriteFailure, WriteFaultIffOneFailed};
ghost use Rattle.deb_select.specs.Accepting.{WritesAccepted, WritesFirstAccepted};
ghost use Rattle.deb_select.specs.Accepting.{WritesPartAccepted, sink_failures};
ghost use Rattle.deb_select.specs.Forms.{form_shown};
ghost use Rattle.deb_select.specs.Selecting.{Request};
ghost use Rattle.deb_select.specs.Selections.{HasConditions};

use crate::form::Form;
use crate::selection::Selection;
use crate::writing::{Outcome, Put};
use deb_base::{Fault, Sink, Source};
use deb_control::{Checked, NoVisitor, Summary};
use deb_field::Doc;
use std::alloc::Global;

/// What a call has selected of the paragraphs that pass, and how many passed.
#[derive(Clone, Copy)]
pub struct Accepted {
    /// What was selected and written.
    pub outcome: Outcome,
    /// How many paragraphs passed, and how many runs of lines were refused.
    pub summary: Summary,
}

/// A walk over the paragraphs of a file, with what was done so far.
#[derive(Drop)]
struct Walk {
    checked: Checked,
    summary: Summary,
    outcome: Outcome,
}

impl Selection {
    /// Reads a file, and writes each selected paragraph of those that pass, as `write` does. It
    /// goes on after a run of lines that is refused, as `check_all` does: it writes to `reports` a
    /// line `line N: CODE NAME` for each of them, and then a last line `ok N, M refused`.
    ///
    /// One paragraph at a time is held in memory. At most 4,295,032,831 bytes are read: a file of
    /// the most bytes, and one piece. Promises about the text of the file hold for a reader whose
    /// bytes are known.
    ///
    /// # Errors
    ///
    /// - `Fault::Memory`: a growth of memory was refused; `Fault::Read`: a read failed in this
    ///   call. The selected ones of the first paragraphs that pass were written, and the lines of
    ///   the first refusals.
    /// - `Fault::Write`: a write to `writer` or to `reports` failed in this call. Prefixes of what
    ///   belongs there were written.
    pub fn write_accepted<R: Source, W: Sink, E: Sink>(
        &self,
        form: &Form,
        begun: bool,
        reader: &mut R,
        writer: &mut W,
        reports: &mut E,
    ) -> Result<Accepted, Fault>
        ensures ok { (asked : Request) (text : List ℕ) → asked.form ≡ form_shown form.now
            → asked.begun ≡ begun → HasConditions asked.kind asked.selection self.now
            → R.left reader.old ≡ Some text
            → IfOk result (λ done. WritesAccepted asked text done.outcome (W.held writer.old)
            (W.held writer.new)) }
        ensures reported { (asked : Request) (text : List ℕ)
            → HasConditions asked.kind asked.selection self.now → R.left reader.old ≡ Some text
            → IfOk result (λ done. WritesAll asked.kind text done.summary (E.held reports.old)
            (E.held reports.new)) }
        ensures cut_off { (asked : Request) (text : List ℕ) → asked.form ≡ form_shown form.now
            → asked.begun ≡ begun → HasConditions asked.kind asked.selection self.now
            → R.left reader.old ≡ Some text
            → IfCutOff result (WritesFirstAccepted asked text (W.held writer.old)
            (W.held writer.new)) }
        ensures reported_first { (asked : Request) (text : List ℕ)
            → HasConditions asked.kind asked.selection self.now → R.left reader.old ≡ Some text
            → IfCutOff result (WritesFirst asked.kind text (E.held reports.old)
            (E.held reports.new)) }
        ensures write { (asked : Request) (text : List ℕ) → asked.form ≡ form_shown form.now
            → asked.begun ≡ begun → HasConditions asked.kind asked.selection self.now
            → R.left reader.old ≡ Some text
            → IfWriteFailed result (WritesPartAccepted asked text (W.held writer.old)
            (W.held writer.new)) }
        ensures reported_part { (asked : Request) (text : List ℕ)
            → HasConditions asked.kind asked.selection self.now → R.left reader.old ≡ Some text
            → IfWriteFailed result (AppendsFront (E.held reports.old) (E.held reports.new)
            (file_lines asked.kind text)) }
        ensures reads_at_most { (text : List ℕ) → R.left reader.old ≡ Some text
            → TakesNoMore text file_limit (R.left reader.new) }

        // Whether or not the reader's bytes are known.
        ensures fault { IfErr result IsNoRefusal }
        ensures counts_read_failure { R.failures reader.new ≡ read_failures_after
            (R.failures reader.old) result }
        ensures counts_write_failure { CountsWriteFailure
            (sink_failures (W.failures writer.old) (E.failures reports.old))
            (sink_failures (W.failures writer.new) (E.failures reports.new)) result }
        ensures fault_iff_read_failed { ReadFaultIffFailed (R.failures reader.old)
            (R.failures reader.new) result }
        ensures fault_iff_write_failed { WriteFaultIffOneFailed
            (sink_failures (W.failures writer.old) (E.failures reports.old))
            (sink_failures (W.failures writer.new) (E.failures reports.new)) result }
    {
        let mut walk = Walk::new(self.alloc, self.doc, begun);
        for _ in 0..u64::MAX {
            if !self.step(form, &mut walk, reader, writer, reports)? {
                walk.summary.write_line(reports)?;
                return Ok(Accepted {
                    outcome: walk.outcome,
                    summary: walk.summary,
                });
            }
        }
        // No file has so many runs of lines.
        Err(Fault::Memory)
    }

    /// Goes on to the next run of lines, and writes it if it passes and is selected, or its line if
    /// it is refused. Returns whether another one may follow.
    fn step<R: Source, W: Sink, E: Sink>(
        &self,
        form: &Form,
        walk: &mut Walk,
        reader: &mut R,
        writer: &mut W,
        reports: &mut E,
    ) -> Result<bool, Fault>
        requires sound { (checked_state walk.old.checked).fault ≡ None }
        ensures steps { (asked : Request) (text : List ℕ) (before : Sinks)
            → asked.form ≡ form_shown form.now → HasConditions asked.kind asked.selection self.now
            → Walked asked text walk.old (R.left reader.old) before
            (sinks (W.held writer.old) (E.held reports.old))
            → StepsOn asked text result walk.new (R.left reader.new) before
            (sinks (W.held writer.new) (E.held reports.new)) }
        ensures reads_at_most { (text : List ℕ) → FitsWalk text walk.old (R.left reader.old)
            → TakesNoMore text file_limit (R.left reader.new) }
        ensures fits { (text : List ℕ) → FitsWalk text walk.old (R.left reader.old)
            → result ≡ Ok true → FitsWalk text walk.new (R.left reader.new) }
        ensures sound { result ≡ Ok true → (checked_state walk.new.checked).fault ≡ None }
        ensures fault { IfErr result IsNoRefusal }
        ensures counts_read_failure { R.failures reader.new ≡ read_failures_after
            (R.failures reader.old) result }
        ensures counts_write_failure { CountsWriteFailure
            (sink_failures (W.failures writer.old) (E.failures reports.old))
            (sink_failures (W.failures writer.new) (E.failures reports.new)) result }
    {
        match walk.checked.advance(&mut NoVisitor, reader) {
            Ok(true) => {
                let put = self.put(form, walk.outcome.begun, &walk.checked, writer)?;
                walk.count(put);
                Ok(true)
            }
            Ok(false) => Ok(false),
            Err(Fault::Refused(refusal)) => {
                refusal.write_line(reports)?;
                Ok(walk.leave())
            }
            Err(Fault::Memory) => Err(Fault::Memory),
            Err(Fault::Read) => Err(Fault::Read),
            Err(Fault::Write) => unreachable!(),
        }
    }
}

impl Walk {
    ghost use Rattle.std.specs.Prelude.{IsTrue};
    ghost use Rattle.deb_control.specs.Checking.{FitsChecked};
    ghost use Rattle.deb_control.specs.CheckedStates.{lines_checked};
    ghost use Rattle.deb_control.specs.Refusals.{Answered};
    ghost use Rattle.deb_control.specs.Resuming.{resumed, resumes};

    /// Returns a walk that has read nothing.
    fn new(alloc: Global, doc: Doc, begun: bool) -> Walk
        ensures doc { doc_read result.checked ≡ doc }
        ensures sound { (checked_state result.checked).fault ≡ None }
        ensures fits { (text : List ℕ)
            → FitsChecked doc text [] (checked_state result.checked) (Some text) }
        ensures summary { result.summary ≡ record { passed = 0; refused = 0 } }
        ensures outcome { result.outcome ≡ record { count = 0; begun = begun; full = true } }
    {
        Walk {
            checked: Checked::new(alloc, doc),
            summary: Summary {
                passed: 0,
                refused: 0,
            },
            outcome: Outcome {
                count: 0,
                begun,
                full: true,
            },
        }
    }

    /// Counts a paragraph that passes.
    fn count(&mut self, put: Put)
        ensures checked { self.new.checked ≡ self.old.checked }
        ensures passed { self.old.summary.passed < 2 ^ 64 - 1
            → self.new.summary ≡ record self.old.summary { passed = self.old.summary.passed + 1 } }
        ensures outcome { self.old.outcome.count < 2 ^ 64 - 1
            → self.new.outcome ≡ outcome_after self.old.outcome put }
    {
        self.summary.passed = self.summary.passed.saturating_add(1);
        self.outcome = outcome_after(self.outcome, put);
    }

    /// Counts a run of lines that is refused, and goes on after it. Returns whether that can be.
    fn leave(&mut self) -> bool
        ensures refused { self.old.summary.refused < 2 ^ 64 - 1 → self.new.summary
            ≡ record self.old.summary { refused = self.old.summary.refused + 1 } }
        ensures outcome { self.new.outcome ≡ self.old.outcome }
        ensures resumed { result ≡ resumes (doc_read self.old.checked)
            (checked_state self.old.checked).fault (lines_checked self.old.checked) }
        ensures goes_on { IsTrue result
            → checked_state self.new.checked ≡ resumed (checked_state self.old.checked) }
        ensures fits { (text : List ℕ) (answered : List Answered) (left : Option (List ℕ))
            → FitsChecked (doc_read self.old.checked) text answered
            (checked_state self.old.checked) left
            → FitsChecked (doc_read self.old.checked) text answered
            (checked_state self.new.checked) left }
        ensures doc { doc_read self.new.checked ≡ doc_read self.old.checked }
    {
        self.summary.refused = self.summary.refused.saturating_add(1);
        self.checked.resume()
    }
}

/// Returns an outcome after one more paragraph that passes.
fn outcome_after(done: Outcome, put: Put) -> Outcome
    ensures { done.count < 2 ^ 64 - 1 → result ≡ outcome_after done put }
{
    let added = u64::from(put.selected);
    Outcome {
        count: done.count.saturating_add(added),
        begun: put.begun,
        full: done.full && put.full,
    }
}
