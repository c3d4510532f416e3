//! A map from names to the numbers of packages.

ghost use Rattle.std.specs.Prelude.{◌≡◌, ◌++◌, [], ◌∷◌, ℕ, List, map, Some, if◌then◌else◌, IfOk, OnOk};
ghost use Rattle.std.specs.List.{list_any};
ghost use Rattle.std.specs.Str.{bytes_eq};
ghost use Rattle.deb_index.specs.Entries.{provision_at};
ghost use Rattle.deb_index.specs.Maps.{EndInLast, PutsLast, list_under, numbers_under, numbers_with, put_last};
ghost use Rattle.deb_index.specs.Named.{has_name, numbers_of, provides};
ghost use Rattle.deb_index.specs.Stores.{listed_in};

use crate::crowds::FEW;
use crate::entry::Entry;
use crate::store::Store;
use indexmap::{IndexMap, IndexSet};
use std::alloc::{AllocError, Global};
use std::slice;

/// Lists of numbers under names, each of at least two.
type Lists = IndexMap<Vec<u8>, Vec<u64>>;

/// The numbers of packages under names: under each name in ascending order and each once.
///
/// Most names have one number, which takes no list.
#[derive(Debug, Drop)]
pub(crate) struct Names {
    /// The last number under each name.
    last: IndexMap<Vec<u8>, u64>,
    /// All numbers under the names that have several.
    lists: Lists,
}

impl Names {
    /// The numbers of the packages that have a name, under that name.
    pub(crate) fn own(alloc: Global, store: &Store) -> Result<Names, AllocError>
        ensures { IfOk result (λ names. (name : List ℕ)
            → numbers_under names name
            ≡ numbers_of (has_name name) (listed_in store.now)) }
    {
        let mut names = Names::with_capacity(alloc, store.records.len())?;
        for (index, record) in store.records.iter().enumerate() {
            names.put(alloc, store.name(record), index as u64 + 1)?;
        }
        Ok(names)
    }

    /// The numbers of the packages that provide a name, under that name.
    pub(crate) fn provided(alloc: Global, store: &Store) -> Result<Names, AllocError>
        ensures { IfOk result (λ names. (name : List ℕ)
            → numbers_under names name
            ≡ numbers_of (provides name) (listed_in store.now)) }
    {
        let mut names = Names::with_capacity(alloc, store.entries.len())?;
        for (index, record) in store.records.iter().enumerate() {
            let entries = store.entries(record);
            names.put_provided(alloc, &store.bytes, entries, index as u64 + 1)?;
        }
        Ok(names)
    }

    /// The numbers under a name. No memory is taken.
    pub(crate) fn of(&self, name: &[u8]) -> &[u64]
        ensures { result.now ≡ numbers_under self.now name.now }
    {
        if let Some(numbers) = self.lists.get(name) {
            return numbers.as_slice();
        }
        match self.last.get(name) {
            Some(number) => slice::from_ref(number),
            None => &[],
        }
    }

    /// Appends the names under which there are many numbers.
    pub(crate) fn append_crowded(
        &self,
        alloc: Global,
        names: &mut IndexSet<Vec<u8>>,
    ) -> Result<(), AllocError> {
        for (name, numbers) in self.lists.iter() {
            if numbers.len() > FEW {
                names.insert(Vec::from_slice(alloc, name)?)?;
            }
        }
        Ok(())
    }

    /// No number is under any name, and there is room for as many names.
    fn with_capacity(alloc: Global, count: usize) -> Result<Names, AllocError>
        ensures none { IfOk result (λ names. (name : List ℕ) → numbers_under names name ≡ []) }
        ensures lists { IfOk result EndInLast }
    {
        let last = IndexMap::with_capacity(alloc, count)?;
        Ok(Names {
            last,
            lists: IndexMap::new(alloc),
        })
    }

    /// Puts a number under each of these provided names.
    fn put_provided(
        &mut self,
        alloc: Global,
        text: &[u8],
        entries: &[Entry],
        number: u64,
    ) -> Result<(), AllocError>
        requires { EndInLast self.old }
        ensures lists { OnOk result (EndInLast self.new) }
        ensures put { OnOk result ((name : List ℕ) → numbers_under self.new name
            ≡ (if list_any (λ p. bytes_eq p.name name) (map (provision_at text.now) entries.now)
            then put_last number (numbers_under self.old name)
            else numbers_under self.old name)) }
    {
        for entry in entries {
            self.put(alloc, entry.name(text), number)?;
        }
        Ok(())
    }

    /// Appends a number to those under a name, unless it is the last of them.
    fn put(&mut self, alloc: Global, name: &[u8], number: u64) -> Result<(), AllocError>
        requires { EndInLast self.old }
        ensures { OnOk result (PutsLast name.now number self.old self.new) }
    {
        let key = Vec::from_slice(alloc, name)?;
        let before = self.last.insert(key, number)?.unwrap_or(number);
        if before == number {
            return Ok(());
        }
        append_number(alloc, &mut self.lists, name, before, number)
    }
}

/// Appends a number to the list under a name. If there is none, it is begun with the number before.
fn append_number(
    alloc: Global,
    lists: &mut Lists,
    name: &[u8],
    before: u64,
    number: u64,
) -> Result<(), AllocError>
    ensures { OnOk result ((other : List ℕ) → list_under lists.new other
        ≡ (if bytes_eq name.now other
        then Some (numbers_with (list_under lists.old name.now) (Some before) ++ number ∷ [])
        else list_under lists.old other)) }
{
    if let Some(numbers) = lists.get_mut(name) {
        push(numbers, number)?;
        return Ok(());
    }
    let numbers = pair(alloc, before, number)?;
    lists.insert(Vec::from_slice(alloc, name)?, numbers)?;
    Ok(())
}

/// Appends a number to others.
fn push(numbers: &mut Vec<u64>, number: u64) -> Result<(), AllocError>
    ensures { OnOk result (numbers.new.items ≡ numbers.old.items ++ number ∷ []) }
{
    numbers.push(number)?;
    Ok(())
}

/// The list of two numbers.
fn pair(alloc: Global, first: u64, second: u64) -> Result<Vec<u64>, AllocError>
    ensures { IfOk result (λ numbers. numbers.items ≡ first ∷ second ∷ []) }
{
    Vec::from_slice(alloc, &[first, second])
}
