//! Reads the fields of a file in memory.

ghost use Rattle.std.specs.Prelude.{◌≡◌, [], ℕ, List, IfErr, IfOk, Some};
ghost use Rattle.deb_base.specs.Devices.{read_failures_after};
ghost use Rattle.deb_base.specs.Faults.{IsReadersFault, RefusedOrMemory};
ghost use Rattle.deb_control.specs.Calls.{HasParagraphs, IfRefused};
ghost use Rattle.deb_control.specs.Checking.{IsRefusalOfDocument};
ghost use Rattle.deb_control.specs.Documents.{refusal_of};
ghost use Rattle.debctl_ffi.specs.Tables.{HasTables, ShowFields};

use crate::field::Tables;
use deb_base::{Fault, SliceSource, Source};
use deb_control::{Checked, NoVisitor};
use deb_field::Doc;
use std::alloc::Global;

/// Appends the fields of a file in memory to empty tables: of all paragraphs, and returns their
/// number; or of those before the first that fails, and returns the refusal of the file. Or out of
/// memory.
pub(crate) fn read_text_fields(
    alloc: Global,
    doc: Doc,
    text: &[u8],
    tables: &mut Tables,
) -> Result<u64, Fault>
    requires empty { HasTables tables.old [] }
    ensures ok { IfOk result (HasParagraphs doc text.now) }
    ensures shown { IfOk result (λ count. ShowFields doc text.now tables.new) }
    ensures fault { IfErr result
        (λ fault. RefusedOrMemory fault (λ refusal. refusal_of doc text.now ≡ Some refusal)) }
    ensures shown_before { IfErr result
        (λ fault. RefusedOrMemory fault (λ refusal. ShowFields doc text.now tables.new)) }
{
    match read_fields(alloc, doc, &mut SliceSource::new(text), tables) {
        Ok(count) => Ok(count),
        Err(Fault::Refused(refusal)) => Err(Fault::Refused(refusal)),
        Err(Fault::Memory) => Err(Fault::Memory),
        Err(Fault::Read | Fault::Write) => unreachable!(),
    }
}

/// Appends the fields of a file to empty tables, and returns the number of its paragraphs.
fn read_fields<R: Source>(
    alloc: Global,
    doc: Doc,
    reader: &mut R,
    tables: &mut Tables,
) -> Result<u64, Fault>
    requires empty { HasTables tables.old [] }
    ensures ok { (text : List ℕ) → R.left reader.old ≡ Some text
        → IfOk result (HasParagraphs doc text) }
    ensures shown { (text : List ℕ) → R.left reader.old ≡ Some text
        → IfOk result (λ count. ShowFields doc text tables.new) }
    ensures refused { (text : List ℕ) → R.left reader.old ≡ Some text
        → IfRefused result (λ refusal. refusal_of doc text ≡ Some refusal) }
    ensures shown_before { (text : List ℕ) → R.left reader.old ≡ Some text
        → IfRefused result (λ refusal. ShowFields doc text tables.new) }
    ensures fault { IfErr result (λ fault. IsReadersFault fault IsRefusalOfDocument) }
    ensures counts_read_failure { R.failures reader.new ≡ read_failures_after
        (R.failures reader.old) result }
{
    let mut checked = Checked::new(alloc, doc);
    for count in 0..u64::MAX {
        if !checked.advance(&mut NoVisitor, reader)? {
            return Ok(count);
        }
        let Some(paragraph) = checked.current() else {
            unreachable!()
        };
        tables.push(count + 1, &paragraph)?;
    }
    // No file has so many paragraphs.
    unreachable!()
}
