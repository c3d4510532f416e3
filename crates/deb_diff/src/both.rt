//! Reads two files, and keeps what isn't in both.

ghost use Rattle.std.specs.Prelude.{◌≡◌, ℕ, List, Some, true, length, map, IfOk, IfErr};
ghost use Rattle.std.specs.List.{list_all};
ghost use Rattle.deb_base.specs.Bodies.{file_limit};
ghost use Rattle.deb_base.specs.Devices.{read_failures_after};
ghost use Rattle.deb_base.specs.Faults.{IsReadersFault};
ghost use Rattle.deb_base.specs.Reading.{TakesNoMore};
ghost use Rattle.deb_control.specs.Calls.{IfRefused};
ghost use Rattle.deb_control.specs.Checking.{IsRefusalOfDocument};
ghost use Rattle.deb_control.specs.Documents.{refusal_of};
ghost use Rattle.deb_diff.specs.Both.{ReadsAll, ReadsNew};
ghost use Rattle.deb_diff.specs.Items.{Item};
ghost use Rattle.deb_diff.specs.Kepts.{AreKept};
ghost use Rattle.deb_diff.specs.Kinds.{doc_of};

use crate::kept::Kept;
use crate::kind::Kind;
use crate::pool::Pool;
use crate::reading::read_others;
use deb_base::{Fault, Source};
use std::alloc::{AllocError, Global};

/// What two files don't have in common.
#[derive(Drop)]
pub(crate) struct Others {
    /// Which paragraphs of the old file the new one doesn't have.
    pub(crate) waits: Vec<bool>,
    /// The paragraphs of the new file that the old one doesn't have.
    pub(crate) new: Vec<Kept>,
}

/// Reads the old file, and returns all its paragraphs. The errors are those of
/// `deb_control::check`.
pub(crate) fn read_old<R: Source>(
    alloc: Global,
    kind: Kind,
    reader: &mut R,
) -> Result<Vec<Kept>, Fault>
    ensures ok { (text : List ℕ) → R.left reader.old ≡ Some text
        → IfOk result (λ kept. ReadsAll kind text kept.items) }
    ensures refused { (text : List ℕ) → R.left reader.old ≡ Some text
        → IfRefused result (λ refusal. refusal_of (doc_of kind) text ≡ Some refusal) }
    ensures reads_at_most { (text : List ℕ) → R.left reader.old ≡ Some text
        → TakesNoMore text file_limit (R.left reader.new) }
    ensures fault { IfErr result (λ fault. IsReadersFault fault IsRefusalOfDocument) }
    ensures counts_failure { R.failures reader.new ≡ read_failures_after
        (R.failures reader.old) result }
{
    let mut pool = Pool::of(alloc, &[], Vec::new(alloc))?;
    read_others(alloc, kind, &mut pool, reader)
}

/// Reads the new file, and returns what isn't in both. The errors are those of
/// `deb_control::check`.
pub(crate) fn read_new<R: Source>(
    alloc: Global,
    kind: Kind,
    old: &[Kept],
    reader: &mut R,
) -> Result<Others, Fault>
    ensures ok { (text : List ℕ) (items : List Item) → R.left reader.old ≡ Some text
        → AreKept old.now items → IfOk result (λ others. ReadsNew kind text items others) }
    ensures waits { IfOk result (λ others. length others.waits.items ≡ length old.now) }
    ensures refused { (text : List ℕ) → R.left reader.old ≡ Some text
        → IfRefused result (λ refusal. refusal_of (doc_of kind) text ≡ Some refusal) }
    ensures reads_at_most { (text : List ℕ) → R.left reader.old ≡ Some text
        → TakesNoMore text file_limit (R.left reader.new) }
    ensures fault { IfErr result (λ fault. IsReadersFault fault IsRefusalOfDocument) }
    ensures counts_failure { R.failures reader.new ≡ read_failures_after
        (R.failures reader.old) result }
{
    let texts = texts_of(alloc, old)?;
    let waits = all_wait(alloc, old.len())?;
    let mut pool = Pool::of(alloc, &texts, waits)?;
    match read_others(alloc, kind, &mut pool, reader) {
        Ok(new) => Ok(Others {
            waits: pool.into_waits(),
            new,
        }),
        Err(fault) => Err(fault),
    }
}

/// Returns the texts of paragraphs.
fn texts_of<'a>(alloc: Global, kept: &'a [Kept]) -> Result<Vec<&'a [u8]>, AllocError>
    ensures { IfOk result
        (λ texts. map (λ t. t.now) texts.items ≡ map (λ k. k.text.items) kept.now) }
{
    let mut texts = Vec::with_capacity(alloc, kept.len())?;
    for paragraph in kept {
        texts.push(paragraph.text.as_slice())?;
    }
    Ok(texts)
}

/// Says of so many paragraphs that they wait.
pub(crate) fn all_wait(alloc: Global, count: usize) -> Result<Vec<bool>, AllocError>
    ensures count { IfOk result (λ waits. length waits.items ≡ count) }
    ensures all { IfOk result (λ waits. list_all (λ wait. wait) waits.items ≡ true) }
{
    let mut waits = Vec::with_capacity(alloc, count)?;
    for _ in 0..count {
        waits.push(true)?;
    }
    Ok(waits)
}
