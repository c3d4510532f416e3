//! Finds the next paragraph of a document, and checks it.

ghost use Rattle.std.specs.Prelude.{◌≡◌, ◌≤◌, ◌==◌, ◌&&◌, ℕ, List, not, Option, None, Some, Ok, Err, false, true, is_some, length, IfOk, IfErr, IfSome, IsTrue};
ghost use Rattle.deb_base.specs.Faults.{RefusedOrMemory};
ghost use Rattle.deb_syntax.specs.Answers.{Seen};
ghost use Rattle.deb_syntax.specs.Paragraphs.{judged_last, state_of, seen_of, IsQuiet};
ghost use Rattle.deb_base.specs.Docs.{is_single as is_one};
ghost use Rattle.deb_control.specs.Calls.{IfRefused};
ghost use Rattle.deb_control.specs.Checking.{is_found, Checks, FitsChecked, Passing, passing_seen};
ghost use Rattle.deb_control.specs.Documents.{rules_of};
ghost use Rattle.deb_control.specs.Finding.{moment_from, AddsPassing, RefusesSeen, end_answer, given_answer, seen_found};
ghost use Rattle.deb_control.specs.Refusals.{Answered};
ghost use Rattle.deb_control.specs.Refused.{lines_given};
ghost use Rattle.deb_control.specs.Resuming.{FitsRefused, is_inside};
ghost use Rattle.deb_control.specs.Visiting.{HoldsFound};

use crate::checker::ParagraphChecker;
use crate::paragraph_check::refused;
use crate::totals::Totals;
use deb_base::{Code, Fault, Source};
use deb_field::{Doc, is_single};
use deb_syntax::{Paragraphs, Raw};
use std::alloc::Global;

/// Finds the next paragraph, has it checked, and counts it if it passes.
pub(crate) fn find<R: Source, C: ParagraphChecker>(
    alloc: Global,
    doc: Doc,
    paragraphs: &mut Paragraphs,
    totals: &mut Totals,
    checker: &mut C,
    reader: &mut R,
) -> Result<bool, Fault>
    requires sound { (state_of paragraphs.old).fault ≡ None }
    ensures checks { (shown shown_now : Option Seen) (kept kept_now : Option Fault) → Checks doc
        (moment_from shown kept paragraphs.old totals.old (R.left reader.old)
        (R.failures reader.old))
        (given_answer (passing_seen doc (seen_found (state_of paragraphs.new).current)) result)
        (moment_from shown_now kept_now paragraphs.new totals.new (R.left reader.new)
        (R.failures reader.new)) }
    ensures sound { IfOk result (λ _. (state_of paragraphs.new).fault ≡ None) }
    ensures found { IfOk result
        (λ gives. IsTrue (is_found None doc (state_of paragraphs.new).current)) }
    ensures gives { IfOk result (λ gives. gives ≡ is_some (state_of paragraphs.new).current) }
    ensures keeps { result ≡ Ok true
        → HoldsFound (C.Keeps checker.new doc) (state_of paragraphs.new).current }
    ensures lines { (shown : Option Seen) (kept : Option Fault) (text : List ℕ)
        (answered : List Answered) → FitsChecked doc text answered
        (moment_from shown kept paragraphs.old totals.old (R.left reader.old)
        (R.failures reader.old)).state (R.left reader.old) → IfRefused result
        (λ _. judged_last paragraphs.new ≡ lines_given (rules_of doc) text answered) }
    ensures lines_found { (shown : Option Seen) (kept : Option Fault) (text : List ℕ)
        (answered : List Answered) → FitsChecked doc text answered
        (moment_from shown kept paragraphs.old totals.old (R.left reader.old)
        (R.failures reader.old)).state (R.left reader.old) → IfOk result
        (λ _. judged_last paragraphs.new ≡ lines_given (rules_of doc) text answered) }
    ensures inside { IfErr result
        (λ fault. IsTrue (is_inside (Some fault) (state_of paragraphs.new).fault)) }
    ensures refused { (shown shown_now : Option Seen) (kept kept_now : Option Fault)
        (text : List ℕ) (answered : List Answered) → FitsChecked doc text answered
        (moment_from shown kept paragraphs.old totals.old (R.left reader.old)
        (R.failures reader.old)).state (R.left reader.old) → IfErr result
        (λ fault. IfSome (judged_last paragraphs.new) (λ _. FitsRefused doc text answered fault
        (moment_from shown_now kept_now paragraphs.new totals.new (R.left reader.new)
        (R.failures reader.new)).state (R.left reader.new))) }
    ensures source_untouched { IsQuiet (state_of paragraphs.old) → reader.new ≡ reader.old }
{
    if is_complete(doc, totals) {
        return none_follows(paragraphs, reader);
    }
    paragraphs.advance(reader)?;
    match paragraphs.current() {
        None => end(doc, totals, paragraphs.lines()),
        Some(raw) => pass(alloc, doc, &raw, totals, checker),
    }
}

/// Whether a document of the kind has all the paragraphs that it may have.
fn is_complete(doc: Doc, totals: &Totals) -> bool
    ensures { result ≡ (is_one doc && not (totals.now.paragraphs == 0)) }
{
    is_single(doc) && totals.paragraphs != 0
}

/// Returns that no paragraph follows the one that a document has, or refuses a second one.
fn none_follows<R: Source>(paragraphs: &mut Paragraphs, reader: &mut R) -> Result<bool, Fault>
    requires sound { (state_of paragraphs.old).fault ≡ None }
    ensures checks { (shown shown_now : Option Seen) (kept kept_now : Option Fault) (doc : Doc)
        (totals : Totals) (given : Passing) → (is_one doc && not (totals.paragraphs == 0)) ≡ true
        → Checks doc
        (moment_from shown kept paragraphs.old totals (R.left reader.old) (R.failures reader.old))
        (given_answer given result)
        (moment_from shown_now kept_now paragraphs.new totals (R.left reader.new)
        (R.failures reader.new)) }
    ensures sound { IfOk result (λ _. (state_of paragraphs.new).fault ≡ None) }
    ensures none { IfOk result
        (λ gives. (gives ≡ false) × ((state_of paragraphs.new).current ≡ None)) }
    ensures unjudged { judged_last paragraphs.new ≡ None }
    ensures inside { IfErr result
        (λ fault. IsTrue (is_inside (Some fault) (state_of paragraphs.new).fault)) }
    ensures source_untouched { IsQuiet (state_of paragraphs.old) → reader.new ≡ reader.old }
{
    match paragraphs.begins(reader)? {
        None => Ok(false),
        Some(line) => Err(refused(Code::TooManyParagraphs, line)),
    }
}

/// Returns that no paragraph follows, or refuses a file that lacks the one that is required.
fn end(doc: Doc, totals: &Totals, lines: u64) -> Result<bool, Fault>
    requires few { lines ≤ 4295032831 }
    ensures answer { result ≡ end_answer doc totals.now lines }
    ensures none { IfOk result (λ gives. gives ≡ false) }
{
    if is_single(doc) && totals.paragraphs == 0 {
        return Err(refused(Code::NoParagraph, lines + 1));
    }
    Ok(false)
}

/// Checks a paragraph, and counts it if it passes.
fn pass<C: ParagraphChecker>(
    alloc: Global,
    doc: Doc,
    raw: &Raw<'_>,
    totals: &mut Totals,
    checker: &mut C,
) -> Result<bool, Fault>
    ensures ok { IfOk result
        (λ gives. (gives ≡ true) × AddsPassing doc (seen_of raw.now) totals.old totals.new) }
    ensures fault { IfErr result
        (λ fault. RefusedOrMemory fault (RefusesSeen doc (seen_of raw.now) totals.old)) }
    ensures unchanged { IfErr result (λ fault. totals.new ≡ totals.old) }
    ensures keeps { IfOk result (λ _. C.Keeps checker.new doc (seen_of raw.now)) }
{
    let length = checker.check(alloc, doc, raw)?;
    let Some(more) = totals.with(length) else {
        return Err(refused(Code::FileTooLong, raw.first_line()));
    };
    *totals = more;
    Ok(true)
}
