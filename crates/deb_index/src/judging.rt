//! Verdicts on groups, without memory.

ghost use Rattle.std.specs.Prelude.{◌≡◌, ◌&&◌, map};
ghost use Rattle.std.specs.List.{list_any};
ghost use Rattle.std.specs.Option.{option_copied};
ghost use Rattle.deb_relation.specs.Applying.{applies};
ghost use Rattle.deb_relation.specs.Environments.{environment_of};
ghost use Rattle.deb_relation.specs.Groups.{group_of};
ghost use Rattle.deb_relation.specs.Views.{alternative_of};
ghost use Rattle.deb_index.specs.Crowds.{is_of};
ghost use Rattle.deb_index.specs.Indexes.{number_in, packages_of};
ghost use Rattle.deb_index.specs.Meeting.{meets};
ghost use Rattle.deb_index.specs.Named.{AreNumbers, passes_at};
ghost use Rattle.deb_index.specs.Reports.{group_verdict, some_applies};

use crate::index::Index;
use crate::verdict::Verdict;
use deb_relation::{Alternative, Env, Group};

impl Index {
    /// Returns the verdict on a group: what `query` reports of it, without the packages that meet
    /// it. Takes no memory, and stops at the first package that meets the group.
    ///
    /// A wildcard in an architecture list is compared as any other name; `query` refuses it.
    pub fn verdict(&self, group: &Group<'_>, environment: &Env) -> Verdict
        ensures { result ≡ group_verdict (environment_of environment.now) (packages_of self.now)
            (group_of group.now) }
    {
        if !some_applies(group.alternatives(), environment) {
            Verdict::Ignored
        } else if is_met(self, group.alternatives(), environment) {
            Verdict::Met
        } else {
            Verdict::Unmet
        }
    }

    /// Returns whether some package meets an alternative, whether or not the alternative applies.
    /// Takes no memory, asks only packages that have or provide its name, and stops at the first
    /// one that meets it.
    pub fn meets(&self, alternative: &Alternative<'_>, environment: &Env) -> bool
        ensures { result ≡ list_any
            (meets (environment_of environment.now) (alternative_of alternative.now))
            (packages_of self.now) }
    {
        if let Some(offers) = self.offers(alternative) {
            return some_is_of(self, offers, alternative.qualifier(), environment);
        }
        let name = alternative.name();
        some_meets(self, self.packages(name), alternative, environment)
            || some_meets(self, self.providers(name), alternative, environment)
    }

    /// Whether the package of a number meets a qualifier.
    pub(crate) fn is_of(&self, number: u64, qualifier: Option<&[u8]>, environment: &Env) -> bool
        ensures { result ≡ is_of (environment_of environment.now)
            (option_copied qualifier.entry) (packages_of self.now) number }
    {
        match self.package(number) {
            Some(package) => package.meets_qualifier(qualifier, environment),
            None => false,
        }
    }
}

/// Whether some alternative applies.
fn some_applies(group: &[Alternative<'_>], environment: &Env) -> bool
    ensures { result
        ≡ some_applies (environment_of environment.now) (map alternative_of group.now) }
{
    some_is_asked(group, environment)
}

fn some_is_asked(group: &[Alternative<'_>], environment: &Env) -> bool
    ensures { result ≡ list_any
        (λ a. applies (alternative_of a) (environment_of environment.now)) group.now }
{
    group
        .iter()
        .any(|alternative| alternative.applies(environment))
}

/// Whether a package meets an alternative that applies.
fn is_met(index: &Index, group: &[Alternative<'_>], environment: &Env) -> bool
    ensures { result ≡ list_any
        (λ a. applies (alternative_of a) (environment_of environment.now)
        && list_any (meets (environment_of environment.now) (alternative_of a))
        (packages_of index.now)) group.now }
{
    group.iter().any(|alternative| {
        alternative.applies(environment) && index.meets(alternative, environment)
    })
}

/// Whether the package of some offer meets a qualifier.
fn some_is_of(index: &Index, offers: &[u32], qualifier: Option<&[u8]>, environment: &Env) -> bool
    ensures { result ≡ list_any
        (λ o. is_of (environment_of environment.now) (option_copied qualifier.entry)
        (packages_of index.now) (number_in index.now o)) offers.now }
{
    offers.iter().any(|offer| index.is_of(index.number(*offer), qualifier, environment))
}

/// Whether the package of some number meets an alternative.
fn some_meets(
    index: &Index,
    candidates: &[u64],
    alternative: &Alternative<'_>,
    environment: &Env,
) -> bool
    requires { AreNumbers (packages_of index.now) candidates.now }
    ensures { result ≡ list_any
        (passes_at
        (meets (environment_of environment.now) (alternative_of alternative.now))
        (packages_of index.now))
        candidates.now }
{
    for &number in candidates {
        if index.numbered(number).meets(alternative, environment) {
            return true;
        }
    }
    false
}
