//! Reads the paragraphs of a file that follow those that were read before.

ghost use Rattle.std.specs.Prelude.{◌≡◌, [], ℕ, List, IfOk, None};
ghost use Rattle.deb_control.specs.Calls.{IfRefused};
ghost use Rattle.deb_control.specs.CheckedStates.{checked_state, doc_read};
ghost use Rattle.deb_syntax.specs.Answers.{Seen};
ghost use Rattle.debctl_ffi.specs.Feeds.{Reading, ReadsNext, ReadsOn, ReadsToEnd, Refuses, RefusesOn};

use crate::field::Tables;
use deb_base::{Fault, Source};
use deb_control::{Checked, NoVisitor};

/// Reads so many paragraphs, or all if there are fewer, and appends their fields.
pub(crate) fn read_some<R: Source>(
    checked: &mut Checked,
    reader: &mut R,
    most: u64,
    count: &mut u64,
    tables: &mut Tables,
) -> Result<(), Fault>
    ensures reads { (text : List ℕ) (given : List Seen)
        → Reading (doc_read checked.old) text given []
        (checked_state checked.old) (R.left reader.old) tables.old count.old
        → IfOk result (λ _. ReadsOn (doc_read checked.old) text given
        (checked_state checked.new) (R.left reader.new) tables.new count.new) }
    ensures refused { (text : List ℕ) (given : List Seen)
        → Reading (doc_read checked.old) text given []
        (checked_state checked.old) (R.left reader.old) tables.old count.old
        → IfRefused result
        (λ refusal. RefusesOn (doc_read checked.old) text given refusal tables.new) }
    ensures doc { doc_read checked.new ≡ doc_read checked.old }
{
    for _ in 0..most {
        if !read_next(checked, reader, count, tables)? {
            return Ok(());
        }
    }
    Ok(())
}

/// Reads all paragraphs, and appends their fields.
pub(crate) fn read_all<R: Source>(
    checked: &mut Checked,
    reader: &mut R,
    count: &mut u64,
    tables: &mut Tables,
) -> Result<(), Fault>
    ensures reads { (text : List ℕ) (given : List Seen)
        → Reading (doc_read checked.old) text given []
        (checked_state checked.old) (R.left reader.old) tables.old count.old
        → IfOk result
        (λ _. ReadsToEnd (doc_read checked.old) text given tables.new count.new) }
    ensures refused { (text : List ℕ) (given : List Seen)
        → Reading (doc_read checked.old) text given []
        (checked_state checked.old) (R.left reader.old) tables.old count.old
        → IfRefused result
        (λ refusal. RefusesOn (doc_read checked.old) text given refusal tables.new) }
{
    for _ in 0..u64::MAX {
        if !read_next(checked, reader, count, tables)? {
            return Ok(());
        }
    }
    // No file has so many paragraphs.
    Err(Fault::Memory)
}

/// Reads the next paragraph, and appends its fields. Returns whether there is one.
fn read_next<R: Source>(
    checked: &mut Checked,
    reader: &mut R,
    count: &mut u64,
    tables: &mut Tables,
) -> Result<bool, Fault>
    ensures reads { (text : List ℕ) (given fresh : List Seen)
        → Reading (doc_read checked.old) text given fresh
        (checked_state checked.old) (R.left reader.old) tables.old count.old
        → IfOk result (λ some. ReadsNext (doc_read checked.old) text given fresh some
        (checked_state checked.new) (R.left reader.new) tables.new count.new) }
    ensures refused { (text : List ℕ) (given fresh : List Seen)
        → Reading (doc_read checked.old) text given fresh
        (checked_state checked.old) (R.left reader.old) tables.old count.old
        → IfRefused result
        (λ refusal. Refuses (doc_read checked.old) text given fresh refusal tables.new) }
    ensures doc { doc_read checked.new ≡ doc_read checked.old }
{
    if !checked.advance(&mut NoVisitor, reader)? {
        return Ok(false);
    }
    let Some(paragraph) = checked.current() else {
        unreachable!()
    };
    let number = count.saturating_add(1);
    tables.push(number, &paragraph)?;
    *count = number;
    Ok(true)
}
