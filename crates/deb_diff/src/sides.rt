//! Reads both files, one after the other.

ghost use Rattle.std.specs.Prelude.{◌≡◌, ℕ, List, Some, length, IfOk, IfErr};
ghost use Rattle.deb_base.specs.Bodies.{file_limit};
ghost use Rattle.deb_base.specs.Devices.{read_failures_after};
ghost use Rattle.deb_base.specs.Faults.{IsReadersFault};
ghost use Rattle.deb_base.specs.Reading.{TakesNoMore};
ghost use Rattle.deb_base.specs.declared.refusal.Refusal.{Refusal};
ghost use Rattle.deb_control.specs.Calls.{IfRefused};
ghost use Rattle.deb_control.specs.Checking.{IsRefusalOfDocument};
ghost use Rattle.deb_control.specs.Comparing.{RefusesSecond};
ghost use Rattle.deb_control.specs.Documents.{refusal_of};
ghost use Rattle.deb_control.specs.Sides.{of_first, of_second};
ghost use Rattle.deb_diff.specs.Both.{IsAcceptedFile, ReadsBoth};
ghost use Rattle.deb_diff.specs.Kinds.{doc_of};

use crate::both::{Others, read_new, read_old};
use crate::kept::Kept;
use crate::kind::Kind;
use deb_base::{Fault, Source};
use deb_control::{Side, SideFault};
use std::alloc::Global;

/// What was read of both files.
#[derive(Drop)]
pub(crate) struct Read {
    /// All paragraphs of the old file.
    pub(crate) old: Vec<Kept>,
    /// What isn't in both files.
    pub(crate) others: Others,
}

/// Reads both files, the old one first.
pub(crate) fn read_both<R: Source, S: Source>(
    alloc: Global,
    kind: Kind,
    first: &mut R,
    second: &mut S,
) -> Result<Read, SideFault>
    ensures ok { (text other : List ℕ) → R.left first.old ≡ Some text
        → S.left second.old ≡ Some other → IfOk result (ReadsBoth kind text other) }
    ensures waits { IfOk result
        (λ read. length read.others.waits.items ≡ length read.old.items) }
    ensures first { (text : List ℕ) → R.left first.old ≡ Some text
        → IfRefused (of_first result) (λ refusal. refusal_of (doc_of kind) text ≡ Some refusal) }
    ensures second { (text other : List ℕ) → R.left first.old ≡ Some text
        → S.left second.old ≡ Some other
        → IfRefused (of_second result) (RefusesSecond (doc_of kind) text other) }
    ensures first_reads_at_most { (text : List ℕ) → R.left first.old ≡ Some text
        → TakesNoMore text file_limit (R.left first.new) }
    ensures second_reads_at_most { (text : List ℕ) → S.left second.old ≡ Some text
        → TakesNoMore text file_limit (S.left second.new) }
    ensures fault { IfErr result (λ told. IsReadersFault told.fault IsRefusalOfDocument) }
    ensures first_accepted { (text : List ℕ) → R.left first.old ≡ Some text
        → IfOk result (λ _. IsAcceptedFile kind text) }
    ensures second_untouched_if_first { IfErr result
        (λ told. told.side ≡ Side.First → second.new ≡ second.old) }
    ensures first_accepted_if_second { (text : List ℕ) → R.left first.old ≡ Some text
        → IfErr result (λ told. told.side ≡ Side.Second → IsAcceptedFile kind text) }
    ensures second_untouched_if_refused { (text : List ℕ) (refusal : Refusal)
        → R.left first.old ≡ Some text → refusal_of (doc_of kind) text ≡ Some refusal
        → second.new ≡ second.old }
    ensures counts_first_failure { R.failures first.new
        ≡ read_failures_after (R.failures first.old) (of_first result) }
    ensures counts_second_failure { S.failures second.new
        ≡ read_failures_after (S.failures second.old) (of_second result) }
{
    match read_old(alloc, kind, first) {
        Ok(old) => match read_new(alloc, kind, &old, second) {
            Ok(others) => Ok(Read { old, others }),
            Err(fault) => Err(at_second(fault)),
        },
        Err(fault) => Err(at_first(fault)),
    }
}

fn at_first(fault: Fault) -> SideFault
    ensures { result ≡ record { side = Side.First; fault = fault } }
{
    SideFault {
        side: Side::First,
        fault,
    }
}

pub(crate) fn at_second(fault: Fault) -> SideFault
    ensures { result ≡ record { side = Side.Second; fault = fault } }
{
    SideFault {
        side: Side::Second,
        fault,
    }
}
