//! The packages of an index.

ghost use Rattle.std.specs.Prelude.{◌≡◌, None};
ghost use Rattle.std.specs.Option.{option_copied};
ghost use Rattle.std.specs.Str.{bytes_eq};
ghost use Rattle.deb_relation.specs.Environments.{environment_of};
ghost use Rattle.deb_relation.specs.Views.{alternative_of};
ghost use Rattle.deb_version.specs.Canonical.{version_text};
ghost use Rattle.deb_version.specs.Faults.{first_fault};
ghost use Rattle.deb_version.specs.Places.{version_in};
ghost use Rattle.deb_index.specs.Meeting.{effective, is_allowed, is_foreign, meets, meets_by_name, meets_qualifier, multi_arch_or_no};
ghost use Rattle.deb_index.specs.VersionSpellings.{spelling_or};

use crate::entry::meets_bound;
use crate::provisions::Provisions;
use deb_field::MultiArch;
use deb_relation::{Alternative, Env};

/// What an index keeps of a package. It borrows the bytes of the index.
#[derive(Clone, Copy, Debug)]
pub struct Package<'a> {
    pub(crate) name: &'a [u8],
    pub(crate) version: &'a [u8],
    /// The text by which the file spells the version; empty if it is the canonical one.
    pub(crate) besides: &'a [u8],
    pub(crate) architecture: &'a [u8],
    pub(crate) line: u32,
    pub(crate) multi_arch: Option<MultiArch>,
    pub(crate) provisions: Provisions<'a>,
    ghost faultless: { first_fault version.now ≡ None },
    ghost canonical: { version_text (version_in version.now) ≡ version.now },
    ghost is_version: { first_fault (spelling_or version.now besides.now) ≡ None },
    ghost equal: { version_text (version_in (spelling_or version.now besides.now))
        ≡ version.now },
}

impl<'a> Package<'a> {
    ghost use Rattle.deb_index.specs.Kept.{line_of, listed_of, spelling_of};

    /// Returns the name.
    pub fn name(&self) -> &'a [u8]
        ensures { result.now ≡ (listed_of self.now).name }
    {
        self.name
    }

    /// Returns the canonical text of the version.
    pub fn version(&self) -> &'a [u8]
        ensures { result.now ≡ version_text (listed_of self.now).version }
    {
        self.version
    }

    /// Returns the text by which the file spells the version: the body of Version, without the
    /// spaces and tabs at both ends.
    pub fn spelled_version(&self) -> &'a [u8]
        ensures text { result.now ≡ spelling_of self.now }
        ensures is_version { first_fault result.now ≡ None }
        ensures equal { version_text (version_in result.now)
            ≡ version_text (listed_of self.now).version }
    {
        if self.besides.is_empty() {
            self.version
        } else {
            self.besides
        }
    }

    /// Returns the architecture, which may be `all`.
    pub fn architecture(&self) -> &'a [u8]
        ensures { result.now ≡ (listed_of self.now).architecture }
    {
        self.architecture
    }

    /// Returns the value of Multi-Arch, or `None` if the paragraph hasn't this field.
    pub fn multi_arch(&self) -> Option<MultiArch>
        ensures { result ≡ (listed_of self.now).multi_arch }
    {
        self.multi_arch
    }

    /// Returns the line at which its paragraph starts in the file, counted from 1.
    pub fn line(&self) -> u64
        ensures { result ≡ line_of self.now }
    {
        u64::from(self.line)
    }

    /// Whether this meets an alternative, by name and by qualifier (Debian Policy 7.1).
    pub(crate) fn meets(&self, alternative: &Alternative<'_>, environment: &Env) -> bool
        ensures { result ≡ meets (environment_of environment.now)
            (alternative_of alternative.now) (listed_of self.now) }
    {
        self.meets_by_name(alternative)
            && self.meets_qualifier(alternative.qualifier(), environment)
    }

    /// Whether this has the name in a version that meets the bound, or provides it so (7.5).
    pub(crate) fn meets_by_name(&self, alternative: &Alternative<'_>) -> bool
        ensures { result
            ≡ meets_by_name (alternative_of alternative.now) (listed_of self.now) }
    {
        (self.name == alternative.name() && meets_bound(alternative.bound(), self.version))
            || self.provisions.meet(alternative)
    }

    /// Whether this is of the architecture that a qualifier asks, or of a Multi-Arch that serves.
    pub(crate) fn meets_qualifier(&self, qualifier: Option<&[u8]>, environment: &Env) -> bool
        ensures { result ≡ meets_qualifier (environment_of environment.now)
            (option_copied qualifier.entry) (listed_of self.now) }
    {
        let Some(qualifier) = qualifier else {
            return self.is_of(environment, environment.target()) || self.is_foreign();
        };
        if qualifier == b"any".as_slice() {
            self.is_allowed()
        } else if qualifier == b"native".as_slice() {
            self.is_of(environment, environment.target())
        } else {
            self.is_of(environment, qualifier)
        }
    }

    /// Whether this counts as a package of an architecture: one of `all` counts as native.
    fn is_of(&self, environment: &Env, architecture: &[u8]) -> bool
        ensures { result ≡ bytes_eq (effective (environment_of environment.now).native
            self.now.architecture.now) architecture.now }
    {
        if self.architecture == b"all".as_slice() {
            environment.native() == architecture
        } else {
            self.architecture == architecture
        }
    }

    fn is_foreign(&self) -> bool
        ensures { result ≡ is_foreign (multi_arch_or_no self.now.multi_arch) }
    {
        matches!(self.multi_arch, Some(MultiArch::Foreign))
    }

    fn is_allowed(&self) -> bool
        ensures { result ≡ is_allowed (multi_arch_or_no self.now.multi_arch) }
    {
        matches!(self.multi_arch, Some(MultiArch::Allowed))
    }
}
