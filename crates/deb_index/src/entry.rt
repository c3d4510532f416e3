//! The entries of Provides that provide a name, as offsets in a text.

ghost use Rattle.std.specs.Prelude.{◌≡◌, None};
ghost use Rattle.std.specs.Option.{option_map};
ghost use Rattle.deb_relation.specs.Sets.{byte_cmp};
ghost use Rattle.deb_relation.specs.Views.{alternative_of, lent_bound_of};
ghost use Rattle.deb_version.specs.Faults.{first_fault};
ghost use Rattle.deb_version.specs.Places.{version_in};
ghost use Rattle.deb_version.specs.Version.{meaning_of};
ghost use Rattle.deb_index.specs.Entries.{entry_name, entry_version, provision_at, version_kept, HasNoFault, IsFaultless};
ghost use Rattle.deb_index.specs.Meeting.{meets_bound, provided_meets_bound, provision_meets};

use crate::span::part;
use deb_relation::{Alternative, Op};
use deb_version::Version;
use std::cmp::Ordering;

/// The offsets at which the name and the version of an entry of Provides (Debian Policy 7.5) are in
/// a text that is shorter than 2^32, and the number of its package, counted from 1. The version is
/// empty if the entry has none.
#[derive(Clone, Copy, Debug)]
pub(crate) struct Entry {
    pub(crate) start: u32,
    pub(crate) name_end: u32,
    pub(crate) version: u32,
    pub(crate) end: u32,
    pub(crate) number: u32,
}

impl Entry {
    /// The name.
    pub(crate) fn name<'a>(&self, text: &'a [u8]) -> &'a [u8]
        ensures { result.now ≡ entry_name text.now self.now }
    {
        part(text, self.start as usize, self.name_end as usize)
    }

    /// The canonical text of the version; empty if there is none.
    pub(crate) fn version<'a>(&self, text: &'a [u8]) -> &'a [u8]
        ensures { result.now ≡ entry_version text.now self.now }
    {
        part(text, self.version as usize, self.end as usize)
    }

    /// Whether the name is that of an alternative, and meets its bound.
    pub(crate) fn meets(&self, text: &[u8], alternative: &Alternative<'_>) -> bool
        requires { IsFaultless text.now self.now }
        ensures { result
            ≡ provision_meets (alternative_of alternative.now) (provision_at text.now self.now) }
    {
        self.name(text) == alternative.name()
            && provided_meets_bound(alternative.bound(), self.version(text))
    }

    /// The byte order of the name and another.
    pub(crate) fn compare_name(&self, text: &[u8], name: &[u8]) -> Ordering
        ensures { result ≡ byte_cmp (entry_name text.now self.now) name.now }
    {
        self.name(text).cmp(name)
    }
}

/// Whether a provided name with this version, or none, meets a bound.
fn provided_meets_bound(bound: Option<(Op, &Version<'_>)>, version: &[u8]) -> bool
    requires { HasNoFault version.now }
    ensures { result ≡ provided_meets_bound (option_map lent_bound_of bound.entry)
        (version_kept version.now) }
{
    match bound {
        None => true,
        Some(_) => !version.is_empty() && meets_bound(bound, version),
    }
}

/// Whether the version of a text without fault meets a bound.
pub(crate) fn meets_bound(bound: Option<(Op, &Version<'_>)>, version: &[u8]) -> bool
    requires { first_fault version.now ≡ None }
    ensures { result
        ≡ meets_bound (option_map lent_bound_of bound.entry) (version_in version.now) }
{
    match bound {
        None => true,
        Some((operator, wanted)) => operator.holds(version_of(version).cmp(wanted)),
    }
}

/// The version that a text without fault is.
pub(crate) fn version_of(text: &[u8]) -> Version<'_>
    requires { first_fault text.now ≡ None }
    ensures { meaning_of result ≡ version_in text.now }
{
    match Version::parse(text) {
        Ok(version) => version,
        Err(_) => unreachable!(),
    }
}
