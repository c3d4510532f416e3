//! Groups of one alternative that has at most a bound, which the first package of its name meets:
//! most groups of an index are so, and these are found without parsing them.
//!
//! `false` or `None` says nothing of a group: it is then read alternative by alternative.

ghost use Rattle.std.specs.Prelude.{◌≡◌, ◌≤◌, ◌++◌, length, IfSome, IsTrue, None, codes};
ghost use Rattle.std.specs.Option.{option_map};
ghost use Rattle.std.specs.Str.{bytes_eq};
ghost use Rattle.deb_version.specs.Version.{meaning_of};
ghost use Rattle.deb_relation.specs.Environments.{environment_of};
ghost use Rattle.deb_relation.specs.Grammar.{SpellsBound};
ghost use Rattle.deb_relation.specs.Texts.{operator_text};
ghost use Rattle.deb_relation.specs.Views.{bound_of};
ghost use Rattle.deb_index.specs.CanonicalTexts.{OfGroup};
ghost use Rattle.deb_index.specs.Indexes.{packages_of};
ghost use Rattle.deb_index.specs.Kept.{listed_of};
ghost use Rattle.deb_index.specs.Meeting.{effective, meets, meets_bound};
ghost use Rattle.deb_unmet.specs.Plain.{plain};
ghost use Rattle.deb_unmet.specs.Troubles.{is_met, trouble};

use crate::question::Candidates;
use deb_base::is_package_name;
use deb_index::Package;
use deb_relation::{Env, Op};
use deb_version::Version;

/// Returns whether the group with a canonical text is one alternative, a name alone or with a
/// bound, that the first package of this name meets.
pub(crate) fn is_plainly_met(question: &Candidates<'_>, group: &[u8]) -> bool
    ensures { OfGroup group.now (λ g. IsTrue result
        → trouble (environment_of question.now.environment.now)
        (packages_of question.now.index.now) g ≡ None) }
{
    let (name, after) = group.split_at(len_before_space(group));
    match plain_bound(after) {
        Some(bound) => is_package_name(name) && first_meets(question, name, &bound),
        None => false,
    }
}

/// How many bytes come before the first space.
fn len_before_space(text: &[u8]) -> usize
    ensures { result ≤ length text.now }
{
    text.iter().take_while(|byte| **byte != b' ').count()
}

/// The bound that follows a name, or none if nothing follows it.
fn plain_bound(after: &[u8]) -> Option<Option<(Op, Version<'_>)>>
    ensures { IfSome result (λ bound. SpellsBound after.now (option_map bound_of bound)) }
{
    if after.is_empty() {
        return Some(None);
    }
    let (operator, rest) = cut_operator(after)?;
    let version = cut_close(rest)?;
    match Version::parse(version) {
        Ok(version) => Some(Some((operator, version))),
        Err(_) => None,
    }
}

/// The operator of a bound, and what follows it and its space.
fn cut_operator(text: &[u8]) -> Option<(Op, &[u8])>
    ensures { IfSome result
        (λ p. text.now ≡ codes " (" ++ (operator_text p.0 ++ (codes " " ++ p.1.now))) }
{
    match text {
        [b' ', b'(', b'>', b'=', b' ', rest @ ..] => Some((Op::LaterEqual, rest)),
        [b' ', b'(', b'=', b' ', rest @ ..] => Some((Op::Equal, rest)),
        [b' ', b'(', b'<', b'<', b' ', rest @ ..] => Some((Op::Earlier, rest)),
        [b' ', b'(', b'<', b'=', b' ', rest @ ..] => Some((Op::EarlierEqual, rest)),
        [b' ', b'(', b'>', b'>', b' ', rest @ ..] => Some((Op::Later, rest)),
        _ => None,
    }
}

/// What comes before a parenthesis that ends a text.
fn cut_close(text: &[u8]) -> Option<&[u8]>
    ensures { IfSome result (λ version. text.now ≡ version.now ++ codes ")") }
{
    match text {
        [version @ .., b')'] => Some(version),
        _ => None,
    }
}

/// Whether the first package of this name meets the bound. Others aren't asked, since many may have
/// the name.
fn first_meets(question: &Candidates<'_>, name: &[u8], bound: &Option<(Op, Version<'_>)>) -> bool
    ensures { IsTrue result → IsTrue (is_met (environment_of question.now.environment.now)
        (packages_of question.now.index.now) (plain name.now (option_map bound_of bound.now))) }
{
    let Some(number) = question.index.packages(name).first() else {
        return false;
    };
    match question.index.package(*number) {
        Some(candidate) => meets(&candidate, name, bound, question.environment),
        None => false,
    }
}

/// Whether a package has this name, meets the bound, and is of the target.
fn meets(
    candidate: &Package<'_>,
    name: &[u8],
    bound: &Option<(Op, Version<'_>)>,
    environment: &Env,
) -> bool
    ensures { IsTrue result → IsTrue (meets (environment_of environment.now)
        (plain name.now (option_map bound_of bound.now)) (listed_of candidate.now)) }
{
    candidate.name() == name
        && is_of(candidate.architecture(), environment)
        && meets_bound(candidate, bound)
}

/// Whether an architecture counts as the target: `all` counts as the native one.
fn is_of(architecture: &[u8], environment: &Env) -> bool
    ensures { IsTrue result → IsTrue (bytes_eq
        (effective (environment_of environment.now).native architecture.now)
        (environment_of environment.now).target) }
{
    if architecture == b"all".as_slice() {
        environment.native() == environment.target()
    } else {
        architecture == environment.target()
    }
}

/// Whether the version of a package meets a bound.
fn meets_bound(candidate: &Package<'_>, bound: &Option<(Op, Version<'_>)>) -> bool
    ensures { IsTrue result
        → IsTrue (meets_bound (option_map bound_of bound.now) (listed_of candidate.now).version) }
{
    let Some((operator, wanted)) = bound else {
        return true;
    };
    match version_of(candidate) {
        Some(version) => operator.holds(version.cmp(wanted)),
        None => false,
    }
}

/// The version of a package.
fn version_of<'a>(candidate: &Package<'a>) -> Option<Version<'a>>
    ensures { IfSome result
        (λ version. meaning_of version ≡ (listed_of candidate.now).version) }
{
    match Version::parse(candidate.version()) {
        Ok(version) => Some(version),
        Err(_) => None,
    }
}
