//! Whether alternatives apply, with architecture lists that may be read in two ways.

ghost use Rattle.std.specs.Prelude.{◌≡◌, ◌==◌, ◌&&◌, ◌||◌, not};
ghost use Rattle.std.specs.List.{list_any};
ghost use Rattle.std.specs.Option.{option_map};
ghost use Rattle.std.specs.Str.{bytes_eq};
ghost use Rattle.deb_relation.specs.Applying.{is_among};
ghost use Rattle.deb_relation.specs.Environments.{environment_of};
ghost use Rattle.deb_relation.specs.Views.{alternative_of, lent_list_of, name_key, names_of};
ghost use Rattle.deb_unmet.specs.Readings.{applies_by, decided, is_open, list_applies, may, named_applies, surely};

use deb_base::is_wildcard;
use deb_relation::{Alternative, Env};

/// Whether an alternative applies, over all readings of its architecture list.
#[derive(Clone, Copy)]
pub enum Applies {
    /// It applies in every reading.
    Surely,
    /// It applies in one reading and not in another.
    Maybe,
    /// It applies in no reading.
    Never,
}

/// Returns whether an alternative applies to an environment (Debian Policy 7.1 and 11.1).
pub fn applies_by(alternative: &Alternative<'_>, environment: &Env) -> Applies
    ensures { result
        ≡ applies_by (environment_of environment.now) (alternative_of alternative.now) }
{
    if alternative.formula_applies(environment) {
        list_applies(alternative.architectures(), environment.target())
    } else {
        Applies::Never
    }
}

/// Returns whether an architecture list applies to a target.
fn list_applies(list: Option<(bool, &[&[u8]])>, target: &[u8]) -> Applies
    ensures { result ≡ list_applies (option_map lent_list_of list.entry) target.now }
{
    match list {
        None => Applies::Surely,
        Some((negated, names)) => named_applies(negated, names, target),
    }
}

/// Returns whether a list of names applies to a target.
fn named_applies(negated: bool, names: &[&[u8]], target: &[u8]) -> Applies
    ensures { result ≡ named_applies negated (names_of names.now) target.now }
{
    if is_among(target, names) {
        decided(!negated)
    } else if some_is_open(names) {
        Applies::Maybe
    } else {
        decided(negated)
    }
}

fn decided(applies: bool) -> Applies
    ensures { result ≡ decided applies }
{
    if applies {
        Applies::Surely
    } else {
        Applies::Never
    }
}

pub(crate) fn is_among(name: &[u8], names: &[&[u8]]) -> bool
    ensures { result ≡ is_among name.now (names_of names.now) }
{
    some_is(names, name)
}

fn some_is(names: &[&[u8]], name: &[u8]) -> bool
    ensures { result ≡ list_any (λ other. bytes_eq (name_key other) name.now) names.now }
{
    names.iter().any(|other| *other == name)
}

fn some_is_open(names: &[&[u8]]) -> bool
    ensures { result ≡ list_any is_open (names_of names.now) }
{
    some_name_is_open(names)
}

fn some_name_is_open(names: &[&[u8]]) -> bool
    ensures { result ≡ list_any (λ name. is_open (name_key name)) names.now }
{
    names.iter().any(|name| is_open(*name))
}

/// Returns whether a name that isn't the target may be read as holding it.
pub(crate) fn is_open(name: &[u8]) -> bool
    ensures { result ≡ is_open name.now }
{
    is_wildcard(name) || has_hyphen(name)
}

fn has_hyphen(name: &[u8]) -> bool
    ensures { result ≡ list_any (λ byte. byte == 45) name.now }
{
    name.iter().any(|byte| *byte == b'-')
}

impl Applies {
    /// Returns whether it applies in every reading.
    pub fn surely(self) -> bool
        ensures { result ≡ surely self }
    {
        match self {
            Applies::Surely => true,
            Applies::Maybe | Applies::Never => false,
        }
    }

    /// Returns whether it applies in some reading.
    pub fn may(self) -> bool
        ensures { result ≡ may self }
    {
        match self {
            Applies::Surely | Applies::Maybe => true,
            Applies::Never => false,
        }
    }
}
