//! The bound on a version: an operator and a version, in parentheses.

ghost use Rattle.std.specs.Prelude.{◌≡◌, ◌++◌, OnOk, codes};
ghost use Rattle.deb_relation.specs.Texts.{bound_text, operator_text};
ghost use Rattle.std.specs.Option.{option_map};
ghost use Rattle.deb_version.specs.Version.{meaning_of};
ghost use Rattle.deb_relation.specs.Reading.{operator_of, read_bound, read_bound_behind, read_close, read_operator, read_version};
ghost use Rattle.deb_relation.specs.Stops.{Gives};
ghost use Rattle.deb_relation.specs.Tests.{bound_is_equal};
ghost use Rattle.deb_relation.specs.Views.{bound_of};

use crate::cursor::{begins, cut_before, cut_operator, skip_white};
use crate::fault::{Reason, Stop};
use crate::operator::Op;
use deb_version::Version;
use std::alloc::AllocError;

/// The operator that a run is; the former `<` and `>` are `<=` and `>=`.
fn operator_of(run: &[u8]) -> Option<Op>
    ensures { result ≡ operator_of run.now }
{
    if run == b"<<".as_slice() {
        Some(Op::Earlier)
    } else if run == b"<=".as_slice() || run == b"<".as_slice() {
        Some(Op::EarlierEqual)
    } else if run == b"=".as_slice() {
        Some(Op::Equal)
    } else if run == b">=".as_slice() || run == b">".as_slice() {
        Some(Op::LaterEqual)
    } else if run == b">>".as_slice() {
        Some(Op::Later)
    } else {
        None
    }
}

/// The operator, and what is left after it and white space.
#[tactic(auto, unfolding(crate::specs::Reading::read_operator))]
fn read_operator(text: &[u8]) -> Result<(Op, &[u8]), Stop>
    ensures { Gives result (λ p. (p.0, p.1.now)) (read_operator text.now) }
{
    let (run, behind) = cut_operator(text);
    match operator_of(run) {
        Some(operator) => Ok((operator, skip_white(behind))),
        None => Err(Stop::Bad {
            reason: Reason::OperatorBad,
            left: text.len(),
        }),
    }
}

/// The version, and what is left after it and white space.
#[tactic(auto, unfolding(crate::specs::Reading::read_version))]
fn read_version(text: &[u8]) -> Result<(Version<'_>, &[u8]), Stop>
    ensures { Gives result (λ p. (meaning_of p.0, p.1.now)) (read_version text.now) }
{
    let (run, behind) = cut_before(text, b')');
    match Version::parse(run) {
        Ok(version) => Ok((version, skip_white(behind))),
        Err(fault) => Err(Stop::Bad {
            reason: Reason::Version(fault),
            left: text.len(),
        }),
    }
}

/// What follows a bound's opening parenthesis and white space, and what is left after it and
/// white space.
#[tactic(auto, unfolding(crate::specs::Reading::read_bound_behind))]
fn read_bound_behind(text: &[u8]) -> Result<((Op, Version<'_>), &[u8]), Stop>
    ensures { Gives result (λ p. (bound_of p.0, p.1.now)) (read_bound_behind text.now) }
{
    let (operator, rest) = read_operator(text)?;
    let (version, rest) = read_version(rest)?;
    if !begins(rest, b')') {
        return Err(Stop::Bad {
            reason: Reason::Unclosed,
            left: rest.len(),
        });
    }
    Ok(((operator, version), skip_white(&rest[1..])))
}

/// The bound, or nothing; and what is left after it and white space.
#[tactic(auto, unfolding(crate::specs::Reading::read_bound))]
pub(crate) fn read_bound(text: &[u8]) -> Result<(Option<(Op, Version<'_>)>, &[u8]), Stop>
    ensures { Gives result (λ p. (option_map bound_of p.0, p.1.now)) (read_bound text.now) }
{
    if !begins(text, b'(') {
        return Ok((None, text));
    }
    let (bound, rest) = read_bound_behind(skip_white(&text[1..]))?;
    Ok((Some(bound), rest))
}

/// Whether the bound, if there is one, has the operator `=`.
pub(crate) fn bound_is_equal(bound: &Option<(Op, Version<'_>)>) -> bool
    ensures { result ≡ bound_is_equal (option_map bound_of bound.now) }
{
    match bound {
        Some((operator, _)) => operator.is_equal(),
        None => true,
    }
}

/// What precedes the version of a bound.
fn bound_front(operator: Op) -> &'static [u8]
    ensures { result.now ≡ codes " (" ++ (operator_text operator ++ codes " ") }
{
    match operator {
        Op::Earlier => b" (<< ",
        Op::EarlierEqual => b" (<= ",
        Op::Equal => b" (= ",
        Op::LaterEqual => b" (>= ",
        Op::Later => b" (>> ",
    }
}

/// Appends the text of a bound with a space before it, or nothing.
pub(crate) fn append_bound(
    out: &mut Vec<u8>,
    bound: &Option<(Op, Version<'_>)>,
) -> Result<(), AllocError>
    ensures { OnOk result
        (out.new.items ≡ out.old.items ++ bound_text (option_map bound_of bound.now)) }
{
    if let Some((operator, version)) = bound {
        out.extend_from_slice(bound_front(*operator))?;
        version.canon_into(out)?;
        out.push(b')')?;
    }
    Ok(())
}
