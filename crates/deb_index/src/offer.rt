//! The versions in which packages have or provide names, as numbers.

ghost use Rattle.std.specs.Prelude.{◌≡◌, ◌-◌, ◌≤◌, ◌++◌, length, map, IfOk, OnOk};
ghost use Rattle.std.specs.List.{All, list_any};
ghost use Rattle.std.specs.Option.{option_map};
ghost use Rattle.deb_version.specs.Version.{meaning_of};
ghost use Rattle.deb_relation.specs.Views.{lent_bound_of};
ghost use Rattle.deb_index.specs.Crowds.{AppendsOffers, AreOffers, provides_passing};
ghost use Rattle.deb_index.specs.Named.{AreNumbers, has_name, numbers_of, passes_at, provides};
ghost use Rattle.deb_index.specs.Offers.{number_of, offer_cmp, offered, side, standing};
ghost use Rattle.deb_index.specs.Stores.{IsStore, listed_in};

use crate::entry::version_of;
use crate::store::{Store, offset};
use deb_relation::Op;
use deb_version::Version;
use std::alloc::{AllocError, Global};
use std::cmp::Ordering;

/// The packages of a store. An offer is a version in which one has or provides a name, as a number:
/// first, from 0 on, are those of the packages' own versions, then those of the versions of the
/// entries in the list of the store.
#[derive(Clone, Copy, Debug)]
pub(crate) struct Packages<'a> {
    pub(crate) store: &'a Store,
    ghost kept: { IsStore store.now },
}

impl<'a> Packages<'a> {
    /// The versions in which packages have or provide a name, in order. The numbers are those of
    /// the packages that have it, and of those that provide it.
    pub(crate) fn offers(
        &self,
        alloc: Global,
        name: &[u8],
        having: &[u64],
        providing: &[u64],
    ) -> Result<Vec<u32>, AllocError>
        requires having { having.now
            ≡ numbers_of (has_name name.now) (listed_in self.now.store.now) }
        requires providing { providing.now
            ≡ numbers_of (provides name.now) (listed_in self.now.store.now) }
        ensures { IfOk result
            (λ offers. AreOffers self.now.store.now name.now offers.items) }
    {
        let mut offers = Vec::new(alloc);
        append_own(having, &mut offers)?;
        self.append_provided(name, providing, &mut offers)?;
        offers.sort_unstable_by(|one, other| self.compare(*one, *other));
        offers.shrink_to_fit();
        Ok(offers)
    }

    /// The number of the package of an offer, counted from 1.
    pub(crate) fn number(&self, offer: u32) -> u64
        ensures { result ≡ number_of self.now.store.now offer }
    {
        let store = self.store;
        let offer = offer as usize;
        if offer < store.records.len() {
            return offer as u64 + 1;
        }
        match store.entries.get(offer - store.records.len()) {
            Some(entry) => u64::from(entry.number),
            None => 0,
        }
    }

    /// Whether an offer comes before those that meet a bound, is one of them, or comes behind them.
    pub(crate) fn standing(&self, offer: u32, bound: (Op, &Version<'_>)) -> Ordering
        ensures { result ≡ standing self.now.store.now (lent_bound_of bound.entry) offer }
    {
        match self.version(offer) {
            Some(version) => side(bound.0, version.cmp(bound.1)),
            None => Ordering::Less,
        }
    }

    /// The order of the versions of two offers.
    fn compare(&self, one: u32, other: u32) -> Ordering
        ensures { result ≡ offer_cmp self.now.store.now one other }
    {
        self.version(one).cmp(&self.version(other))
    }

    /// The version of an offer, or `None` if there is none.
    fn version(&self, offer: u32) -> Option<Version<'a>>
        ensures { option_map meaning_of result ≡ offered self.now.store.now offer }
    {
        let store = self.store;
        let offer = offer as usize;
        if offer < store.records.len() {
            return Some(version_of(store.version(&store.records[offer])));
        }
        let entry = store.entries.get(offer - store.records.len())?;
        let text = entry.version(&store.bytes);
        if text.is_empty() {
            return None;
        }
        Some(version_of(text))
    }

    /// Appends the versions in which packages of these numbers provide a name.
    fn append_provided(
        &self,
        name: &[u8],
        numbers: &[u64],
        offers: &mut Vec<u32>,
    ) -> Result<(), AllocError>
        requires { AreNumbers (listed_in self.now.store.now) numbers.now }
        ensures { OnOk result (AppendsOffers self.now.store.now offers.old.items offers.new.items
            (λ test. list_any
            (λ k. passes_at (provides_passing name.now (test k)) (listed_in self.now.store.now) k)
            numbers.now)) }
    {
        for &number in numbers {
            self.append_named(name, number, offers)?;
        }
        Ok(())
    }

    /// Appends the versions in which a package provides a name.
    fn append_named(
        &self,
        name: &[u8],
        number: u64,
        offers: &mut Vec<u32>,
    ) -> Result<(), AllocError>
        requires from_one { 1 ≤ number }
        requires within { number ≤ length (listed_in self.now.store.now) }
        ensures { OnOk result (AppendsOffers self.now.store.now offers.old.items offers.new.items
            (λ test. passes_at
            (provides_passing name.now (test number)) (listed_in self.now.store.now) number)) }
    {
        let store = self.store;
        let record = &store.records[number as usize - 1];
        let (start, entries) = store.provisions(record).find(name);
        let first = store.records.len() + record.first as usize + start;
        for (index, entry) in entries.iter().enumerate() {
            if !entry.version(&store.bytes).is_empty() {
                offers.push(offset(first + index)?)?;
            }
        }
        Ok(())
    }
}

/// Appends the own versions of packages of these numbers.
fn append_own(numbers: &[u64], offers: &mut Vec<u32>) -> Result<(), AllocError>
    requires { All (λ k. 1 ≤ k) numbers.now }
    ensures { OnOk result (offers.new.items
        ≡ offers.old.items ++ map (λ k. k - 1) numbers.now) }
{
    for &number in numbers {
        offers.push(offset(number as usize - 1)?)?;
    }
    Ok(())
}

/// Whether a version that compares so with that of a bound comes before those that meet the bound,
/// is one of them, or comes behind them.
fn side(operator: Op, order: Ordering) -> Ordering
    ensures { result ≡ side operator order }
{
    if operator.holds(order) {
        return Ordering::Equal;
    }
    match operator {
        Op::Earlier | Op::EarlierEqual => Ordering::Greater,
        Op::Equal => order,
        Op::LaterEqual | Op::Later => Ordering::Less,
    }
}
