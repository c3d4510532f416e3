//! The conditions of `select`, and the usage error for a text that is none.

ghost use Rattle.std.specs.Prelude.{◌≡◌, ◌⊎◌, ◌+◌, ◌++◌, ◌∷◌, [], IfErr, IfOk, map, string_bytes};
ghost use Rattle.std.specs.Prelude.{Bool, List};
ghost use Rattle.deb_base.specs.Devices.{write_failures_after, Puts};
ghost use Rattle.deb_base.specs.declared.doc.Doc.{Doc as DocKind};
ghost use Rattle.deb_select.specs.Conditions.{ConditionMeaning, SelectionMeaning};
ghost use Rattle.deb_select.specs.Grammar.{condition_refusal, SpellsCondition};
ghost use Rattle.deb_select.specs.Reads.{Tells};
ghost use Rattle.deb_select.specs.Selections.{HasConditions};
ghost use Rattle.debctl_commands.specs.SelectConditions.{condition_line, is_negated};
ghost use Rattle.debctl_commands.specs.SelectConditions.{AddsCondition};
ghost use Rattle.debctl_commands.specs.SelectConditions.{numbered, HasTexts, ReportsConditions};
ghost use Rattle.debctl_commands.specs.SelectConditions.{TellsBad};

use crate::reporting::{FAULT_STATUS, report_fault};
use deb_base::{Fault, Sink, put_pieces};
use deb_field::Doc;
use deb_select::{Condition, ConditionFault, Reason, Selection};
use debctl_args::Picks;
use itoa::Buffer;
use std::alloc::Global;

/// Why the texts of `--where` can't be asked.
#[derive(Clone, Copy)]
pub enum ConditionsFault {
    /// The one with this number, counted from 1, is no condition, for this reason at this offset in
    /// bytes.
    Bad {
        number: u64,
        reason: Reason,
        at: usize,
    },
    /// A growth of memory was refused.
    Memory,
}

/// Reads the texts as conditions on the paragraphs of a document of this kind.
///
/// # Errors
///
/// The first text that is no condition; or out of memory.
pub(crate) fn read_conditions(
    alloc: Global,
    doc: Doc,
    picks: Picks,
    texts: &[String],
) -> Result<Selection, ConditionsFault>
    ensures ok { IfOk result (HasTexts doc (is_negated picks) (map string_bytes texts.now)) }
    ensures bad { IfErr result (TellsBad doc (map string_bytes texts.now)) }
{
    let mut selection = Selection::new(alloc, doc, is_negated(picks));
    let mut number = 0;
    for text in texts {
        number += 1;
        match add_condition(alloc, selection, doc, text.as_bytes()) {
            Ok(more) => selection = more,
            Err(fault) => return Err(numbered(number, fault)),
        }
    }
    Ok(selection)
}

/// Whether what the conditions select is left out.
fn is_negated(picks: Picks) -> bool
    ensures { result ≡ is_negated picks }
{
    match picks {
        Picks::Matching => false,
        Picks::Others => true,
    }
}

/// Returns a selection with one more condition, which a text spells.
fn add_condition(
    alloc: Global,
    selection: Selection,
    doc: Doc,
    text: &[u8],
) -> Result<Selection, ConditionFault>
    ensures ok { (meaning : SelectionMeaning) → HasConditions doc meaning selection
        → IfOk result (AddsCondition doc meaning text.now) }
    ensures refused { IfErr result (Tells (condition_refusal doc text.now)) }
{
    match Condition::read(alloc, doc, text) {
        Ok(condition) => match selection.with(condition) {
            Ok(more) => Ok(more),
            Err(_) => Err(ConditionFault::Memory),
        },
        Err(fault) => Err(fault),
    }
}

/// Returns the fault of the text with this number.
fn numbered(number: u64, fault: ConditionFault) -> ConditionsFault
    ensures { result ≡ numbered number fault }
{
    match fault {
        ConditionFault::Bad { reason, at } => ConditionsFault::Bad { number, reason, at },
        ConditionFault::Memory => ConditionsFault::Memory,
    }
}

/// Writes the usage error for a text that is no condition, or the line of that fault, and returns
/// the status.
pub(crate) fn report_conditions<E: Sink>(fault: ConditionsFault, err: &mut E) -> u8
    ensures { ReportsConditions E.held E.failures err.old err.new fault result }
{
    match fault {
        ConditionsFault::Bad { number, reason, at } => {
            let _ = put_condition_line(number, reason, at, err);
            FAULT_STATUS
        }
        ConditionsFault::Memory => report_fault(&Fault::Memory, err),
    }
}

/// Writes the usage error for a text that is no condition.
#[tactic(auto, unfolding(crate::specs::SelectConditions::condition_line))]
fn put_condition_line<E: Sink>(
    number: u64,
    reason: Reason,
    at: usize,
    err: &mut E,
) -> Result<(), Fault>
    ensures written { Puts (E.held err.old) (E.held err.new) result
        (condition_line number reason at) }
    ensures fault { IfErr result (λ fault. fault ≡ Fault.Write) }
    ensures counts_failure { E.failures err.new ≡ write_failures_after (E.failures err.old) result }
{
    put_pieces(
        err,
        &[
            b"usage: --where ",
            Buffer::new().format(number).as_bytes(),
            b", column ",
            Buffer::new().format(column_of(at)).as_bytes(),
            b": ",
            reason.text().as_bytes(),
            b"\n",
        ],
    )
}

/// Returns the column of an offset, counted from 1.
fn column_of(at: usize) -> u128
    ensures { result ≡ at + 1 }
{
    at as u128 + 1
}
