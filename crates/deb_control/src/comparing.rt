//! Compares two files by meaning.

ghost use Rattle.std.specs.Prelude.{◌≡◌, ℕ, List, [], None, Some, IfOk, IfErr};
ghost use Rattle.deb_base.specs.Bodies.{file_limit};
ghost use Rattle.deb_base.specs.Devices.{read_failures_after, ReadFaultIffFailed};
ghost use Rattle.deb_base.specs.Faults.{IsReadersFault};
ghost use Rattle.deb_base.specs.Reading.{TakesNoMore};
ghost use Rattle.deb_control.specs.Calls.{IfRefused};
ghost use Rattle.deb_control.specs.Checking.{FitsChecked, IsRefusalOfDocument};
ghost use Rattle.deb_control.specs.CheckedStates.{checked_state};
ghost use Rattle.deb_control.specs.Comparing.{Agrees, RefusesSecond, AnswersSame};
ghost use Rattle.deb_control.specs.Documents.{refusal_of};
ghost use Rattle.deb_control.specs.ReadingOn.{ReadsOn, shown};
ghost use Rattle.deb_control.specs.Sides.{of_first, of_second};

use crate::checked::Checked;
use crate::checking::count_rest;
use crate::side::{Side, SideFault};
use deb_base::{Fault, Source};
use deb_field::Doc;
use std::alloc::Global;

/// Reads two files as documents of a kind, and returns whether they mean the same: the same
/// paragraphs in the same order, each with equal values under equal names, whatever the order and
/// the case of the names (Debian Policy 5.1 and 5.3 to 5.6). This is exactly if their canonical
/// texts are equal, which is what it compares.
///
/// One paragraph of each file is held at a time. After a difference it reads both files to their
/// ends before it returns, and if the second one is refused, the first one.
///
/// At most 4,295,032,831 bytes are read from each reader: a file of the most bytes, and one piece.
/// Promises about the text of a file hold for a reader whose bytes are known.
///
/// # Errors
///
/// - `Fault::Refused` with `Side::First`: the first file isn't accepted; with `Side::Second`: the
///   first file is accepted, and the second one isn't. This is the first refusal of that file.
/// - `Fault::Memory`: a growth of memory was refused, at the file of that side.
/// - `Fault::Read`: a read of the reader of that side failed in this call.
pub fn same<R: Source, S: Source>(
    alloc: Global,
    doc: Doc,
    first: &mut R,
    second: &mut S,
) -> Result<bool, SideFault>
    ensures ok { (text other : List ℕ) → R.left first.old ≡ Some text
        → S.left second.old ≡ Some other → IfOk result (AnswersSame doc text other) }
    ensures first { (text : List ℕ) → R.left first.old ≡ Some text
        → IfRefused (of_first result) (λ refusal. refusal_of doc text ≡ Some refusal) }
    ensures second { (text other : List ℕ) → R.left first.old ≡ Some text
        → S.left second.old ≡ Some other
        → IfRefused (of_second result) (RefusesSecond doc text other) }
    ensures first_reads_at_most { (text : List ℕ) → R.left first.old ≡ Some text
        → TakesNoMore text file_limit (R.left first.new) }
    ensures second_reads_at_most { (text : List ℕ) → S.left second.old ≡ Some text
        → TakesNoMore text file_limit (S.left second.new) }

    // Whether or not the bytes of the readers are known.
    ensures fault { IfErr result (λ told. IsReadersFault told.fault IsRefusalOfDocument) }
    ensures counts_first_failure { R.failures first.new
        ≡ read_failures_after (R.failures first.old) (of_first result) }
    ensures counts_second_failure { S.failures second.new
        ≡ read_failures_after (S.failures second.old) (of_second result) }
    ensures fault_iff_first_failed { ReadFaultIffFailed (R.failures first.old)
        (R.failures first.new)
        (of_first result) }
    ensures fault_iff_second_failed { ReadFaultIffFailed (S.failures second.old)
        (S.failures second.new)
        (of_second result) }
{
    let mut one = Checked::new(alloc, doc);
    let mut other = Checked::new(alloc, doc);
    compare(&mut one, first, &mut other, second)
}

/// Compares two files as `same` does. Nothing of them has been read before.
fn compare<R: Source, S: Source>(
    one: &mut Checked,
    first: &mut R,
    other: &mut Checked,
    second: &mut S,
) -> Result<bool, SideFault>
    requires sound { (checked_state one.now).fault ≡ None }
    requires other_sound { (checked_state other.now).fault ≡ None }
    requires doc { other.now.doc ≡ one.now.doc }
    requires none { (checked_state one.now).count ≡ 0 }
    ensures same { (text text_too : List ℕ)
        → FitsChecked one.old.doc text [] (checked_state one.old) (R.left first.old)
        → FitsChecked one.old.doc text_too [] (checked_state other.old) (S.left second.old)
        → IfOk result (AnswersSame one.old.doc text text_too) }
    ensures refused { (text text_too : List ℕ)
        → FitsChecked one.old.doc text [] (checked_state one.old) (R.left first.old)
        → FitsChecked one.old.doc text_too [] (checked_state other.old) (S.left second.old)
        → IfRefused (of_second result) (RefusesSecond one.old.doc text text_too) }

    ensures first { ReadsOn one.old (shown (R.left first.old) (R.failures first.old))
        (of_first result) one.new (shown (R.left first.new) (R.failures first.new)) }
    ensures second_reads_at_most { (text : List ℕ)
        → FitsChecked one.old.doc text [] (checked_state other.old) (S.left second.old)
        → TakesNoMore text file_limit (S.left second.new) }
    ensures counts_second_failure { S.failures second.new
        ≡ read_failures_after (S.failures second.old) (of_second result) }
    ensures fault { IfErr result (λ told. IsReadersFault told.fault IsRefusalOfDocument) }
{
    match agree(one, first, other, second) {
        Ok(true) => Ok(true),
        Ok(false) => {
            if let Err(fault) = count_rest(one, first) {
                return Err(at_first(fault));
            }
            if let Err(fault) = count_rest(other, second) {
                return Err(at_second(fault));
            }
            Ok(false)
        }
        Err(told) => match told.side {
            Side::First => Err(at_first(told.fault)),
            Side::Second => match told.fault {
                Fault::Refused(refusal) => {
                    if let Err(fault) = count_rest(one, first) {
                        return Err(at_first(fault));
                    }
                    Err(at_second(Fault::Refused(refusal)))
                }
                Fault::Memory | Fault::Read | Fault::Write => Err(at_second(told.fault)),
            },
        },
    }
}

/// Returns whether the paragraphs of two files that haven't been read have the same canonical
/// texts, one after another. Stops at the first difference, or at a fault.
fn agree<R: Source, S: Source>(
    one: &mut Checked,
    first: &mut R,
    other: &mut Checked,
    second: &mut S,
) -> Result<bool, SideFault>
    requires sound { (checked_state one.now).fault ≡ None }
    requires other_sound { (checked_state other.now).fault ≡ None }
    requires doc { other.now.doc ≡ one.now.doc }
    requires none { (checked_state one.now).count ≡ 0 }
    ensures agrees { (text text_too : List ℕ)
        → FitsChecked one.old.doc text [] (checked_state one.old) (R.left first.old)
        → FitsChecked one.old.doc text_too [] (checked_state other.old) (S.left second.old)
        → IfOk result (Agrees one.old.doc text text_too) }

    ensures first { ReadsOn one.old (shown (R.left first.old) (R.failures first.old))
        (of_first result) one.new (shown (R.left first.new) (R.failures first.new)) }
    ensures second { ReadsOn other.old (shown (S.left second.old) (S.failures second.old))
        (of_second result) other.new (shown (S.left second.new) (S.failures second.new)) }
    ensures fault { IfErr result (λ told. IsReadersFault told.fault IsRefusalOfDocument) }
{
    for _ in 0..u64::MAX {
        let left = match one.next(first) {
            Ok(left) => left,
            Err(fault) => return Err(at_first(fault)),
        };
        let right = match other.next_beside(left, second) {
            Ok(right) => right,
            Err(fault) => return Err(at_second(fault)),
        };
        let Some(left) = left else {
            return Ok(right.is_none());
        };
        let Some(right) = right else {
            return Ok(false);
        };
        if left.canonical_text() != right.canonical_text() {
            return Ok(false);
        }
    }
    // No file has so many paragraphs.
    unreachable!()
}

fn at_first(fault: Fault) -> SideFault
    ensures { result ≡ record { side = Side.First; fault = fault } }
{
    SideFault {
        side: Side::First,
        fault,
    }
}

fn at_second(fault: Fault) -> SideFault
    ensures { result ≡ record { side = Side.Second; fault = fault } }
{
    SideFault {
        side: Side::Second,
        fault,
    }
}
