//! Names that many packages have or provide, with the versions in order, so that those that meet a
//! bound are neighbours.

ghost use Rattle.std.specs.Prelude.{◌≡◌, ℕ, List, IfOk, IfSome, Some};
ghost use Rattle.std.specs.List.{filter};
ghost use Rattle.std.specs.Option.{option_map};
ghost use Rattle.std.specs.Ordering.{is_eq};
ghost use Rattle.deb_relation.specs.Views.{lent_bound_of};
ghost use Rattle.deb_index.specs.Crowds.{AreCrowds};
ghost use Rattle.deb_index.specs.Maps.{list_under, numbers_under};
ghost use Rattle.deb_index.specs.Named.{has_name, numbers_of, provides};
ghost use Rattle.deb_index.specs.Offers.{standing};
ghost use Rattle.deb_index.specs.Stores.{IsStore, listed_in};

use crate::entry::Entry;
use crate::names::Names;
use crate::offer::Packages;
use crate::store::Store;
use deb_relation::Op;
use deb_version::Version;
use indexmap::{IndexMap, IndexSet};
use std::alloc::{AllocError, Global};

/// A name that more packages have or provide, or a package provides more often, is crowded: few
/// candidates are asked one after another.
pub(crate) const FEW: usize = 16;

/// Crowded names, and the versions under each, in order.
#[derive(Debug, Drop)]
pub(crate) struct Crowds {
    offers: IndexMap<Vec<u8>, Vec<u32>>,
}

impl Crowds {
    /// The crowded names of packages, and their versions.
    pub(crate) fn of(
        alloc: Global,
        store: &Store,
        named: &Names,
        provided: &Names,
    ) -> Result<Crowds, AllocError>
        requires kept { IsStore store.now }
        requires named { (name : List ℕ) → numbers_under named.now name
            ≡ numbers_of (has_name name) (listed_in store.now) }
        requires provided { (name : List ℕ) → numbers_under provided.now name
            ≡ numbers_of (provides name) (listed_in store.now) }
        ensures { IfOk result (AreCrowds store.now) }
    {
        let names = crowded(alloc, store, named, provided)?;
        let packages = Packages { store };
        let mut offers = IndexMap::with_capacity(alloc, names.len())?;
        for name in names {
            let under = packages.offers(alloc, &name, named.of(&name), provided.of(&name))?;
            offers.insert(name, under)?;
        }
        Ok(Crowds { offers })
    }

    /// The versions under a name that meet a bound; `None` if the name isn't crowded.
    pub(crate) fn meeting(
        &self,
        store: &Store,
        name: &[u8],
        bound: (Op, &Version<'_>),
    ) -> Option<&[u32]>
        requires kept { IsStore store.now }
        requires offers { AreCrowds store.now self.now }
        ensures { IfSome result (λ found. option_map
            (filter (λ offer. is_eq (standing store.now (lent_bound_of bound.entry) offer)))
            (list_under self.now.offers name.now) ≡ Some found.now) }
    {
        let offers = self.offers.get(name)?.as_slice();
        let packages = Packages { store };
        let start = offers.partition_point(|offer| packages.standing(*offer, bound).is_lt());
        let rest = &offers[start..];
        let count = rest.partition_point(|offer| packages.standing(*offer, bound).is_le());
        Some(&rest[..count])
    }
}

/// The names that many packages have or provide, or that one provides often. Which they are decides
/// on the time that an answer takes, and on no answer.
fn crowded(
    alloc: Global,
    store: &Store,
    named: &Names,
    provided: &Names,
) -> Result<IndexSet<Vec<u8>>, AllocError> {
    let mut names = IndexSet::new(alloc);
    named.append_crowded(alloc, &mut names)?;
    provided.append_crowded(alloc, &mut names)?;
    for record in &store.records {
        append_often(alloc, &store.bytes, store.entries(record), &mut names)?;
    }
    Ok(names)
}

/// Appends the names of which there are many entries.
fn append_often(
    alloc: Global,
    text: &[u8],
    entries: &[Entry],
    names: &mut IndexSet<Vec<u8>>,
) -> Result<(), AllocError> {
    for (index, entry) in entries.iter().enumerate() {
        let name = entry.name(text);
        if let Some(other) = entries.get(index + FEW)
            && other.name(text) == name
        {
            names.insert(Vec::from_slice(alloc, name)?)?;
        }
    }
    Ok(())
}
