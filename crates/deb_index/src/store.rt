//! What an index keeps of its packages: bytes, entries of Provides and records, in three lists.

ghost use Rattle.std.specs.Prelude.{◌≡◌, ◌-◌, ◌<◌, ◌++◌, ◌∷◌, [], length, Some, IfOk, OnOk};
ghost use Rattle.std.specs.List.{All, slice_get};
ghost use Rattle.deb_index.specs.Entries.{IsIn};
ghost use Rattle.deb_index.specs.Kept.{line_of, listed_of, spelling_of};
ghost use Rattle.deb_index.specs.Listed.{Listed};
ghost use Rattle.deb_index.specs.PackageBuilder.{KeepsPackage, texts_kept};
ghost use Rattle.deb_index.specs.Spans.{part};
ghost use Rattle.deb_index.specs.Stores.{IsKept, IsStore, KeepsOneMore, lines_in, listed_in, spellings_in};
ghost use Rattle.deb_index.specs.VersionSpellings.{text_besides};
ghost use Rattle.deb_version.specs.Grammar.{SpellsVersion};

use crate::cut::append_entries;
use crate::entry::Entry;
use crate::package::Package;
use crate::paragraph::PackageBuilder;
use crate::provisions::Provisions;
use crate::span::part;
use deb_field::MultiArch;
use std::alloc::{AllocError, Global};

/// A package: the offsets at which its texts and the entries of its Provides are in the lists of
/// the store, which are shorter than 2^32, and the line at which its paragraph starts. Provides
/// follows the architecture.
#[derive(Clone, Copy, Debug)]
pub(crate) struct Record {
    pub(crate) start: u32,
    pub(crate) name_end: u32,
    pub(crate) version_end: u32,
    pub(crate) besides_end: u32,
    pub(crate) architecture_end: u32,
    pub(crate) first: u32,
    pub(crate) entries_end: u32,
    pub(crate) line: u32,
    pub(crate) multi_arch: Option<MultiArch>,
}

/// The packages of an index, one after another. One buffer contains the texts of each: the name,
/// the canonical version, the text by which the file spells that unless it is the same, the
/// architecture and Provides, in this order.
#[derive(Debug, Drop)]
pub(crate) struct Store {
    pub(crate) bytes: Vec<u8>,
    pub(crate) entries: Vec<Entry>,
    pub(crate) records: Vec<Record>,
    /// How many packages each file has.
    pub(crate) files: Vec<u64>,
}

impl Store {
    /// No package, and no file.
    pub(crate) fn new(alloc: Global) -> Store
        ensures kept { IsStore result }
        ensures listed { listed_in result ≡ [] }
        ensures lines { lines_in result ≡ [] }
        ensures spellings { spellings_in result ≡ [] }
        ensures files { result.files.items ≡ [] }
    {
        Store {
            bytes: Vec::new(alloc),
            entries: Vec::new(alloc),
            records: Vec::new(alloc),
            files: Vec::new(alloc),
        }
    }

    /// Appends a package, whose paragraph spells its version by a text and starts at a line of the
    /// file.
    pub(crate) fn push(
        &mut self,
        kept: &PackageBuilder,
        spelled: &[u8],
        line: u64,
    ) -> Result<(), AllocError>
        ensures kept { (p : Listed) → KeepsPackage (texts_kept kept.now) p
            → SpellsVersion spelled.now p.version → IsStore self.old
            → OnOk result (KeepsOneMore self.old self.new p spelled.now) }
        ensures line { OnOk result (lines_in self.new ≡ lines_in self.old ++ line ∷ []) }
        ensures files { self.new.files ≡ self.old.files }
    {
        let start = offset(self.bytes.len())?;
        self.bytes.extend_from_slice(kept.name())?;
        let name_end = offset(self.bytes.len())?;
        self.bytes.extend_from_slice(kept.version())?;
        let version_end = offset(self.bytes.len())?;
        self.bytes
            .extend_from_slice(text_besides(kept.version(), spelled))?;
        let besides_end = offset(self.bytes.len())?;
        self.bytes.extend_from_slice(kept.architecture())?;
        let architecture_end = offset(self.bytes.len())?;
        self.bytes.extend_from_slice(kept.provides())?;
        let first = offset(self.entries.len())?;
        let number = offset(self.records.len() + 1)?;
        let provides = architecture_end as usize;
        append_entries(&self.bytes, provides, number, &mut self.entries)?;
        self.records.push(Record {
            start,
            name_end,
            version_end,
            besides_end,
            architecture_end,
            first,
            entries_end: offset(self.entries.len())?,
            line: offset(line as usize)?,
            multi_arch: kept.multi_arch,
        })?;
        Ok(())
    }

    /// Counts the packages of a file that ends here, where so many were before it.
    pub(crate) fn end_file(&mut self, before: usize) -> Result<(), AllocError>
        ensures files { OnOk result (self.new.files.items
            ≡ self.old.files.items ++ (length self.old.records.items - before) ∷ []) }
        ensures bytes { self.new.bytes ≡ self.old.bytes }
        ensures entries { self.new.entries ≡ self.old.entries }
        ensures records { self.new.records ≡ self.old.records }
    {
        let count = self.records.len().saturating_sub(before);
        self.files.push(count as u64)?;
        Ok(())
    }

    /// The name of a package.
    pub(crate) fn name(&self, of: &Record) -> &[u8]
        ensures { result.now ≡ part of.now.start of.now.name_end self.now.bytes.items }
    {
        part(&self.bytes, of.start as usize, of.name_end as usize)
    }

    /// The canonical text of the version of a package.
    pub(crate) fn version(&self, of: &Record) -> &[u8]
        ensures { result.now ≡ part of.now.name_end of.now.version_end self.now.bytes.items }
    {
        part(&self.bytes, of.name_end as usize, of.version_end as usize)
    }

    /// The entries of the Provides of a package.
    pub(crate) fn entries(&self, of: &Record) -> &[Entry]
        ensures { result.now ≡ part of.now.first of.now.entries_end self.now.entries.items }
    {
        part(&self.entries, of.first as usize, of.entries_end as usize)
    }

    /// What a package provides.
    pub(crate) fn provisions(&self, of: &Record) -> Provisions<'_>
        requires entries { All (IsIn self.now.bytes.items) self.now.entries.items }
        requires kept { IsKept self.now.bytes.items self.now.entries.items of.now }
        ensures text { result.text.now ≡ self.now.bytes.items }
        ensures entries { result.entries.now
            ≡ part of.now.first of.now.entries_end self.now.entries.items }
    {
        Provisions {
            text: &self.bytes,
            entries: self.entries(of),
        }
    }

    /// The package at an index.
    pub(crate) fn package(&self, index: usize) -> Package<'_>
        requires kept { IsStore self.now }
        requires within { index < length self.now.records.items }
        ensures listed { slice_get (listed_in self.now) index ≡ Some (listed_of result) }
        ensures line { slice_get (lines_in self.now) index ≡ Some (line_of result) }
        ensures spelling { slice_get (spellings_in self.now) index ≡ Some (spelling_of result) }
    {
        let record = &self.records[index];
        let bytes = self.bytes.as_slice();
        Package {
            name: self.name(record),
            version: self.version(record),
            besides: part(
                bytes,
                record.version_end as usize,
                record.besides_end as usize,
            ),
            architecture: part(
                bytes,
                record.besides_end as usize,
                record.architecture_end as usize,
            ),
            line: record.line,
            multi_arch: record.multi_arch,
            provisions: self.provisions(record),
        }
    }
}

/// What is kept of a text that spells a version besides the canonical text: nothing if it is that.
fn text_besides<'a>(canonical: &[u8], text: &'a [u8]) -> &'a [u8]
    ensures { result.now ≡ text_besides canonical.now text.now }
{
    if text == canonical { b"" } else { text }
}

/// The offset or length in 32 bits, or out of memory if it has more.
pub(crate) fn offset(len: usize) -> Result<u32, AllocError>
    ensures { IfOk result (λ offset. offset ≡ len) }
{
    u32::try_from(len).map_err(|_| AllocError)
}
