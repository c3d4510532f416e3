//! Why a listed package that has or provides the name of an alternative doesn't meet it.

ghost use Rattle.std.specs.Prelude.{◌≡◌, map};
ghost use Rattle.std.specs.List.{list_any};
ghost use Rattle.std.specs.Option.{is_some, option_copied, option_map};
ghost use Rattle.deb_relation.specs.Environments.{environment_of};
ghost use Rattle.deb_relation.specs.Views.{alternative_of, lent_bound_of};
ghost use Rattle.deb_index.specs.Entries.{entry_version, provision_at, version_kept};
ghost use Rattle.deb_index.specs.Kept.{listed_of};
ghost use Rattle.deb_index.specs.Reasons.{has_version, provides_version, reason, reason_of_bound, reason_of_operator, reason_of_qualifier};
ghost use Rattle.deb_index.specs.Why.{reason_words};

use crate::entry::Entry;
use crate::package::Package;
use crate::provisions::Provisions;
use deb_relation::{Alternative, Env, Op};
use deb_version::Version;

/// Which of the conditions of meeting an alternative fails: of the name's version, or of the
/// qualifier (Debian Policy 7.1 and 7.5).
#[derive(Clone, Copy, Debug)]
pub(crate) enum Reason {
    /// The operator is `>=`.
    IsEarlier,
    /// The operator is `<=`.
    IsLater,
    /// The operator is `=`.
    IsAnother,
    /// The operator is `>>`.
    IsNotLater,
    /// The operator is `<<`.
    IsNotEarlier,
    /// The package provides the name without a version only, and there is a bound.
    HasNoVersion,
    /// The qualifier, if there is one, isn't `any`.
    IsOfAnotherArchitecture,
    /// The qualifier is `any`.
    IsNotAllowed,
}

impl Reason {
    /// The words that the report has for it.
    pub(crate) fn words(&self) -> &[u8]
        ensures { result.now ≡ reason_words self.now }
    {
        match self {
            Reason::IsEarlier => b"is earlier",
            Reason::IsLater => b"is later",
            Reason::IsAnother => b"is another version",
            Reason::IsNotLater => b"isn't later",
            Reason::IsNotEarlier => b"isn't earlier",
            Reason::HasNoVersion => b"is provided without a version",
            Reason::IsOfAnotherArchitecture => b"is of another architecture",
            Reason::IsNotAllowed => b"isn't Multi-Arch: allowed",
        }
    }
}

impl Package<'_> {
    /// Why this doesn't meet an alternative whose name it has or provides; `None` if it does.
    pub(crate) fn reason(&self, alternative: &Alternative<'_>, environment: &Env) -> Option<Reason>
        ensures { result ≡ reason (environment_of environment.now)
            (alternative_of alternative.now) (listed_of self.now) }
    {
        if !self.meets_by_name(alternative) {
            let versioned = self.has_version(alternative.name());
            return Some(reason_of_bound(alternative.bound(), versioned));
        }
        let qualifier = alternative.qualifier();
        if !self.meets_qualifier(qualifier, environment) {
            return Some(reason_of_qualifier(qualifier));
        }
        None
    }

    /// Whether this has the name, or provides it in some version.
    fn has_version(&self, name: &[u8]) -> bool
        ensures { result ≡ has_version name.now (listed_of self.now) }
    {
        self.name == name || self.provisions.have_version(name)
    }
}

impl Provisions<'_> {
    /// Whether some entry of a name has a version.
    fn have_version(&self, name: &[u8]) -> bool
        ensures { result ≡ list_any (provides_version name.now)
            (map (provision_at self.now.text.now) self.now.entries.now) }
    {
        some_has_version(self.text, self.named(name))
    }
}

/// Whether some entry has a version.
fn some_has_version(text: &[u8], entries: &[Entry]) -> bool
    ensures { result ≡ list_any
        (λ entry. is_some (version_kept (entry_version text.now entry))) entries.now }
{
    entries.iter().any(|entry| entry.has_version(text))
}

impl Entry {
    /// Whether the entry has a version.
    fn has_version(&self, text: &[u8]) -> bool
        ensures { result ≡ is_some (version_kept (entry_version text.now self.now)) }
    {
        !self.version(text).is_empty()
    }
}

/// The reason by a bound, for a name that has a version or has none.
fn reason_of_bound(bound: Option<(Op, &Version<'_>)>, versioned: bool) -> Reason
    ensures { result ≡ reason_of_bound (option_map lent_bound_of bound.entry) versioned }
{
    match bound {
        Some((operator, _)) if versioned => reason_of_operator(operator),
        _ => Reason::HasNoVersion,
    }
}

/// The reason by an operator.
fn reason_of_operator(operator: Op) -> Reason
    ensures { result ≡ reason_of_operator operator }
{
    match operator {
        Op::Earlier => Reason::IsNotEarlier,
        Op::EarlierEqual => Reason::IsLater,
        Op::Equal => Reason::IsAnother,
        Op::LaterEqual => Reason::IsEarlier,
        Op::Later => Reason::IsNotLater,
    }
}

/// The reason by a qualifier.
fn reason_of_qualifier(qualifier: Option<&[u8]>) -> Reason
    ensures { result ≡ reason_of_qualifier (option_copied qualifier.entry) }
{
    match qualifier {
        Some(name) if name == b"any".as_slice() => Reason::IsNotAllowed,
        _ => Reason::IsOfAnotherArchitecture,
    }
}
