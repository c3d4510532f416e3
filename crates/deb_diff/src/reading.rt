//! Reads the paragraphs of a file that another file doesn't have.

ghost use Rattle.std.specs.Prelude.{◌≡◌, ℕ, List, Some, length, map, IfOk, IfErr, OnOk};
ghost use Rattle.deb_base.specs.Bodies.{file_limit};
ghost use Rattle.deb_base.specs.Devices.{read_failures_after};
ghost use Rattle.deb_base.specs.Faults.{IsReadersFault};
ghost use Rattle.deb_base.specs.Reading.{TakesNoMore};
ghost use Rattle.deb_control.specs.Calls.{IfRefused};
ghost use Rattle.deb_control.specs.Checking.{IsRefusalOfDocument};
ghost use Rattle.deb_control.specs.Documents.{refusal_of};
ghost use Rattle.deb_control.specs.ValueFiles.{ValueEntries};
ghost use Rattle.deb_field.specs.Values.{ValueMeaning};
ghost use Rattle.deb_diff.specs.Items.{Item, item_of, whole};
ghost use Rattle.deb_diff.specs.Kepts.{HasValues, fields_in};
ghost use Rattle.deb_diff.specs.Kinds.{doc_of};
ghost use Rattle.deb_diff.specs.Pools.{IsPoolOf};
ghost use Rattle.deb_diff.specs.Sifting.{Sifts, SiftsFile};

use crate::kept::{Kept, keep};
use crate::kind::Kind;
use crate::pool::Pool;
use deb_base::{Fault, Source};
use deb_control::{Checked, CheckedText};
use std::alloc::{AllocError, Global};

/// Reads a file. Takes each of its paragraphs away from the pool, by its canonical text, and
/// returns those that weren't there. The errors are those of `deb_control::check`.
pub(crate) fn read_others<R: Source>(
    alloc: Global,
    kind: Kind,
    pool: &mut Pool<'_>,
    reader: &mut R,
) -> Result<Vec<Kept>, Fault>
    ensures waits { length pool.new.waits.items ≡ length pool.old.waits.items }
    ensures ok { (text : List ℕ) (others : List Item) → R.left reader.old ≡ Some text
        → IsPoolOf (map whole others) pool.old
        → IfOk result (λ kept. SiftsFile kind text others pool.old pool.new kept.items) }
    ensures refused { (text : List ℕ) → R.left reader.old ≡ Some text
        → IfRefused result (λ refusal. refusal_of (doc_of kind) text ≡ Some refusal) }
    ensures reads_at_most { (text : List ℕ) → R.left reader.old ≡ Some text
        → TakesNoMore text file_limit (R.left reader.new) }

    // Whether or not the reader's bytes are known.
    ensures fault { IfErr result (λ fault. IsReadersFault fault IsRefusalOfDocument) }
    ensures counts_failure { R.failures reader.new ≡ read_failures_after
        (R.failures reader.old) result }
{
    let mut checked = Checked::new(alloc, kind.doc());
    let mut kept = Vec::new(alloc);
    for count in 0..u64::MAX {
        let Some(paragraph) = checked.next(reader)? else {
            return Ok(kept);
        };
        sift(alloc, kind, count + 1, &paragraph, pool, &mut kept)?;
    }
    // No file has so many paragraphs.
    unreachable!()
}

/// Takes a paragraph away from the pool, or else keeps it.
fn sift(
    alloc: Global,
    kind: Kind,
    number: u64,
    paragraph: &CheckedText<'_>,
    pool: &mut Pool<'_>,
    kept: &mut Vec<Kept>,
) -> Result<(), AllocError>
    ensures waits { length pool.new.waits.items ≡ length pool.old.waits.items }
    ensures sifts { (values : ValueEntries ValueMeaning) (others : List Item)
        → HasValues paragraph.now values → IsPoolOf (map whole others) pool.old
        → OnOk result (Sifts (item_of kind number (fields_in paragraph.now) values) others
        pool.old pool.new kept.old.items kept.new.items) }
{
    if pool.take(paragraph.canonical_text()).is_none() {
        kept.push(keep(alloc, kind, number, paragraph)?)?;
    }
    Ok(())
}
