//! An index without the packages of some names.

ghost use Rattle.std.specs.Prelude.{◌≡◌, ◌+◌, ◌++◌, ◌∷◌, [], length, map, not, IfOk, OnOk};
ghost use Rattle.std.specs.List.{list_any};
ghost use Rattle.std.specs.Str.{bytes_eq};
ghost use Rattle.deb_relation.specs.Applying.{is_among};
ghost use Rattle.deb_relation.specs.Views.{name_key, names_of};
ghost use Rattle.deb_index.specs.Renumbering.{CopiesLeft, left_in, with_entries, with_number};
ghost use Rattle.deb_index.specs.Stores.{IsStore, lines_in, listed_in, name_by, spellings_in};
ghost use Rattle.deb_index.specs.Without.{counts_left, left_beside, without};

use crate::entry::Entry;
use crate::index::Index;
use crate::span::cut;
use crate::store::{Record, Store, offset};
use std::alloc::{AllocError, Global};

impl Index {
    ghost use Rattle.deb_index.specs.Indexes.{counts_of, lines_of, packages_of, spellings_of};

    /// Returns the index without the packages that have one of these names, as their Package
    /// (Debian Policy 5.6.7). The others keep their order, and so are numbered anew. Each file is
    /// still one of the index, with the packages that are left. A package that provides one of the
    /// names is left out for its own name only. A name that no package has changes nothing.
    ///
    /// # Errors
    ///
    /// Out of memory. It leaves no index.
    pub fn without(self, alloc: Global, names: &[&[u8]]) -> Result<Index, AllocError>
        ensures packages { IfOk result (λ index. packages_of index
            ≡ without (names_of names.now) (packages_of self)) }
        ensures lines { IfOk result (λ index. lines_of index
            ≡ left_beside (names_of names.now) (packages_of self) (lines_of self)) }
        ensures spellings { IfOk result (λ index. spellings_of index
            ≡ left_beside (names_of names.now) (packages_of self) (spellings_of self)) }
        ensures counts { IfOk result (λ index. counts_of index
            ≡ counts_left (names_of names.now) (counts_of self) (packages_of self)) }
    {
        let mut store = self.into_store();
        store.leave_out(alloc, names)?;
        Index::of(alloc, store)
    }
}

impl Store {
    /// Leaves out the packages of these names.
    fn leave_out(&mut self, alloc: Global, names: &[&[u8]]) -> Result<(), AllocError>
        requires kept { IsStore self.old }
        ensures kept { OnOk result (IsStore self.new) }
        ensures listed { OnOk result (listed_in self.new
            ≡ without (names_of names.now) (listed_in self.old)) }
        ensures lines { OnOk result (lines_in self.new
            ≡ left_beside (names_of names.now) (listed_in self.old) (lines_in self.old)) }
        ensures spellings { OnOk result (spellings_in self.new
            ≡ left_beside (names_of names.now) (listed_in self.old) (spellings_in self.old)) }
        ensures files { OnOk result (self.new.files.items
            ≡ counts_left (names_of names.now) self.old.files.items (listed_in self.old)) }
    {
        let files = self.counts_left(alloc, names)?;
        let mut entries = Vec::new(alloc);
        let mut records = Vec::new(alloc);
        self.append_left(names, &mut entries, &mut records)?;
        self.entries = entries;
        self.records = records;
        self.files = files;
        Ok(())
    }

    /// Appends the packages that have none of these names, with their entries, to others.
    fn append_left(
        &self,
        names: &[&[u8]],
        entries: &mut Vec<Entry>,
        records: &mut Vec<Record>,
    ) -> Result<(), AllocError>
        requires kept { IsStore self.now }
        requires entries { entries.old.items ≡ [] }
        requires records { records.old.items ≡ [] }
        ensures { OnOk result (CopiesLeft (names_of names.now) self.now
            entries.new.items records.new.items) }
    {
        for record in &self.records {
            if self.is_left(record, names) {
                append_package(record, self.entries(record), entries, records)?;
            }
        }
        Ok(())
    }

    /// How many packages of each file have none of these names.
    fn counts_left(&self, alloc: Global, names: &[&[u8]]) -> Result<Vec<u64>, AllocError>
        ensures { IfOk result (λ counts. counts.items
            ≡ counts_left (names_of names.now) self.now.files.items (listed_in self.now)) }
    {
        let mut counts = Vec::new(alloc);
        let mut rest = self.records.as_slice();
        for &count in &self.files {
            let (own, others) = cut(rest, count as usize);
            counts.push(self.count_left(own, names))?;
            rest = others;
        }
        Ok(counts)
    }

    /// How many of these packages have none of these names.
    fn count_left(&self, records: &[Record], names: &[&[u8]]) -> u64
        ensures { result
            ≡ length (left_in (names_of names.now) self.now.bytes.items records.now) }
    {
        records
            .iter()
            .filter(|record| self.is_left(record, names))
            .count() as u64
    }

    /// Whether a package has none of these names.
    fn is_left(&self, record: &Record, names: &[&[u8]]) -> bool
        ensures { result
            ≡ not (is_among (name_by self.now.bytes.items record.now) (names_of names.now)) }
    {
        !is_among(self.name(record), names)
    }
}

/// Appends a package, which has these entries, as the next one.
fn append_package(
    record: &Record,
    own: &[Entry],
    entries: &mut Vec<Entry>,
    records: &mut Vec<Record>,
) -> Result<(), AllocError>
    ensures entries { OnOk result (entries.new.items
        ≡ entries.old.items ++ map (with_number (length records.old.items + 1)) own.now) }
    ensures records { OnOk result (records.new.items ≡ records.old.items
        ++ with_entries (length entries.old.items) (length entries.new.items) record.now ∷ []) }
{
    let first = offset(entries.len())?;
    let number = offset(records.len() + 1)?;
    append_numbered(own, number, entries)?;
    records.push(Record {
        first,
        entries_end: offset(entries.len())?,
        ..*record
    })?;
    Ok(())
}

/// Appends entries with the number of their package.
fn append_numbered(own: &[Entry], number: u32, entries: &mut Vec<Entry>) -> Result<(), AllocError>
    ensures { OnOk result (entries.new.items
        ≡ entries.old.items ++ map (with_number number) own.now) }
{
    for entry in own {
        entries.push(Entry { number, ..*entry })?;
    }
    Ok(())
}

/// Whether a name is among names.
fn is_among(name: &[u8], names: &[&[u8]]) -> bool
    ensures { result ≡ is_among name.now (names_of names.now) }
{
    some_is(names, name)
}

fn some_is(names: &[&[u8]], name: &[u8]) -> bool
    ensures { result ≡ list_any (λ other. bytes_eq (name_key other) name.now) names.now }
{
    names.iter().any(|other| *other == name)
}
