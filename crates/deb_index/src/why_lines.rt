//! The lines with the reasons for which a group is unmet or ignored.

ghost use Rattle.std.specs.Prelude.{◌≡◌, ◌++◌, [], ◌∷◌, IfOk, OnOk};
ghost use Rattle.std.specs.List.{flat_map, list_any};
ghost use Rattle.std.specs.Option.{option_map};
ghost use Rattle.std.specs.Str.{bytes_eq};
ghost use Rattle.deb_relation.specs.Applying.{is_among};
ghost use Rattle.deb_relation.specs.Environments.{environment_of};
ghost use Rattle.deb_relation.specs.Meaning.{Alternative as Meaning};
ghost use Rattle.deb_relation.specs.Relations.{relation_of};
ghost use Rattle.deb_relation.specs.Views.{alternative_of, lent_list_of, name_key, names_of};
ghost use Rattle.deb_index.specs.CanonicalTexts.{OfGroup};
ghost use Rattle.deb_index.specs.Detailed.{AppendsBelow};
ghost use Rattle.deb_index.specs.Indexes.{packages_of};
ghost use Rattle.deb_index.specs.Reported.{found_of};
ghost use Rattle.deb_index.specs.ShownVersions.{shown_by};
ghost use Rattle.deb_index.specs.Why.{alternative_lines, asked_lines, line_unless_met, list_lines, lines_below, names_system, nameless_line, system_line, system_lines};

use crate::answer::Found;
use crate::by_name::numbers_under;
use crate::pieces::{next_alternative, only_alternative};
use crate::reason::Reason;
use crate::shown::{Versions, file_mark, file_place};
use crate::verdict::Verdict;
use deb_relation::{Alternative, Env, Relation};
use itoa::Buffer;
use std::alloc::{AllocError, Global};

/// Appends the lines below that of a group with a verdict, and returns how many bytes they have.
pub(crate) fn append_below(
    alloc: Global,
    versions: Versions<'_>,
    group: &[u8],
    environment: &Env,
    verdict: Verdict,
    out: &mut Vec<u8>,
) -> Result<usize, AllocError>
    ensures { OfGroup group.now (λ g. IfOk result (AppendsBelow out.old.items out.new.items
        (lines_below (shown_by versions.entry) (environment_of environment.now)
        (packages_of versions.entry.index.now) g verdict))) }
{
    if matches!(verdict, Verdict::Met) {
        return Ok(0);
    }
    let before = out.len();
    append_all(alloc, versions, group, environment, out)?;
    Ok(out.len().saturating_sub(before))
}

/// Appends the lines of the alternatives of the group with a canonical text.
fn append_all(
    alloc: Global,
    versions: Versions<'_>,
    group: &[u8],
    environment: &Env,
    out: &mut Vec<u8>,
) -> Result<(), AllocError>
    ensures { OfGroup group.now (λ g. OnOk result (out.new.items
        ≡ out.old.items ++ flat_map
        (alternative_lines (shown_by versions.entry) (environment_of environment.now)
        (packages_of versions.entry.index.now)) g)) }
{
    let mut rest = group;
    while !rest.is_empty() {
        let (relation, others) = next_alternative(alloc, rest)?;
        append_only(alloc, versions, &relation, environment, out)?;
        rest = others;
    }
    Ok(())
}

/// Appends the lines of the only alternative of a relation.
fn append_only(
    alloc: Global,
    versions: Versions<'_>,
    relation: &Relation<'_>,
    environment: &Env,
    out: &mut Vec<u8>,
) -> Result<(), AllocError>
    ensures { (a : Meaning) → relation_of relation.now ≡ (a ∷ []) ∷ [] → OnOk result
        (out.new.items ≡ out.old.items ++ alternative_lines (shown_by versions.entry)
        (environment_of environment.now) (packages_of versions.entry.index.now) a) }
{
    match only_alternative(relation) {
        Some(alternative) => append_alternative(alloc, versions, alternative, environment, out),
        None => Ok(()),
    }
}

/// Appends the lines of an alternative.
fn append_alternative(
    alloc: Global,
    versions: Versions<'_>,
    alternative: &Alternative<'_>,
    environment: &Env,
    out: &mut Vec<u8>,
) -> Result<(), AllocError>
    ensures { OnOk result (out.new.items
        ≡ out.old.items ++ alternative_lines (shown_by versions.entry)
        (environment_of environment.now) (packages_of versions.entry.index.now)
        (alternative_of alternative.now)) }
{
    if alternative.applies(environment) {
        append_asked(alloc, versions, alternative, environment, out)
    } else {
        append_systems(alloc, alternative, environment.target(), out)
    }
}

/// Appends a line for each package that has or provides the name of an alternative and doesn't
/// meet it, or the line that no package has this name.
fn append_asked(
    alloc: Global,
    versions: Versions<'_>,
    alternative: &Alternative<'_>,
    environment: &Env,
    out: &mut Vec<u8>,
) -> Result<(), AllocError>
    ensures { OnOk result (out.new.items
        ≡ out.old.items ++ asked_lines (shown_by versions.entry) (environment_of environment.now)
        (packages_of versions.entry.index.now) (alternative_of alternative.now)) }
{
    let index = versions.index;
    let text = alternative.text(alloc)?;
    let numbers = numbers_under(alloc, index, alternative.name())?;
    if numbers.is_empty() {
        return append_nameless(&text, out);
    }
    for &number in &numbers {
        let package = index.numbered(number);
        let reason = package.reason(alternative, environment);
        append_reason(&text, &Found { number, package }, versions, reason, out)?;
    }
    Ok(())
}

/// Appends the line that no package has the name of an alternative with this text.
fn append_nameless(text: &[u8], out: &mut Vec<u8>) -> Result<(), AllocError>
    ensures { OnOk result (out.new.items ≡ out.old.items ++ nameless_line text.now) }
{
    append_pieces(&[b" ", text, b": no package has this name\n"], out)
}

/// Appends the line of a package that doesn't meet an alternative with this text; nothing if there
/// is no reason.
fn append_reason<'a>(
    text: &[u8],
    found: &Found<'a>,
    versions: Versions<'a>,
    reason: Option<Reason>,
    out: &mut Vec<u8>,
) -> Result<(), AllocError>
    ensures { OnOk result (out.new.items
        ≡ out.old.items ++ line_unless_met (shown_by versions.entry) text.now
        (found_of found.now) reason) }
{
    let Some(reason) = reason else {
        return Ok(());
    };
    let mut number = Buffer::new();
    let mut place = Buffer::new();
    let package = found.package;
    let file = versions.file(found);
    append_pieces(
        &[
            b" ",
            text,
            b": ",
            number.format(found.number).as_bytes(),
            b" ",
            package.name(),
            b" ",
            versions.of(found),
            b" ",
            package.architecture(),
            b" ",
            reason.words(),
            file_mark(file),
            file_place(file, &mut place),
            b"\n",
        ],
        out,
    )
}

/// Appends a line for each item that names an architecture with its system, if the architecture
/// list has no `!` and doesn't contain the target.
fn append_systems(
    alloc: Global,
    alternative: &Alternative<'_>,
    target: &[u8],
    out: &mut Vec<u8>,
) -> Result<(), AllocError>
    ensures { OnOk result (out.new.items
        ≡ out.old.items ++ system_lines target.now (alternative_of alternative.now)) }
{
    let text = alternative.text(alloc)?;
    append_list(&text, target, alternative.architectures(), out)
}

/// Appends the lines of an architecture list, for an alternative with this text.
fn append_list(
    text: &[u8],
    target: &[u8],
    list: Option<(bool, &[&[u8]])>,
    out: &mut Vec<u8>,
) -> Result<(), AllocError>
    ensures { OnOk result (out.new.items
        ≡ out.old.items ++ list_lines text.now target.now (option_map lent_list_of list.entry)) }
{
    let Some((negated, names)) = list else {
        return Ok(());
    };
    if negated {
        return Ok(());
    }
    if is_among(target, names) {
        return Ok(());
    }
    append_names(text, target, names, out)
}

/// Appends a line for each of these names that names a system.
fn append_names(
    text: &[u8],
    target: &[u8],
    names: &[&[u8]],
    out: &mut Vec<u8>,
) -> Result<(), AllocError>
    ensures { OnOk result (out.new.items
        ≡ out.old.items ++ flat_map (system_line text.now target.now) (names_of names.now)) }
{
    for name in names {
        append_system(text, target, name, out)?;
    }
    Ok(())
}

/// Appends the line of a name that names a system; nothing for another name.
fn append_system(
    text: &[u8],
    target: &[u8],
    name: &[u8],
    out: &mut Vec<u8>,
) -> Result<(), AllocError>
    ensures { OnOk result (out.new.items
        ≡ out.old.items ++ system_line text.now target.now name.now) }
{
    if !names_system(name) {
        return Ok(());
    }
    append_pieces(
        &[
            b" ",
            text,
            b": ",
            name,
            b" isn't the target ",
            target,
            b"\n",
        ],
        out,
    )
}

/// Whether the name of an architecture contains a hyphen.
fn names_system(name: &[u8]) -> bool
    ensures { result ≡ names_system name.now }
{
    name.iter().any(|byte| *byte == b'-')
}

/// Whether a name is among names.
fn is_among(name: &[u8], names: &[&[u8]]) -> bool
    ensures { result ≡ is_among name.now (names_of names.now) }
{
    some_is(names, name)
}

fn some_is(names: &[&[u8]], name: &[u8]) -> bool
    ensures { result ≡ list_any (λ other. bytes_eq (name_key other) name.now) names.now }
{
    names.iter().any(|other| *other == name)
}

/// Appends the pieces.
fn append_pieces(pieces: &[&[u8]], out: &mut Vec<u8>) -> Result<(), AllocError>
    ensures { OnOk result
        (out.new.items ≡ out.old.items ++ flat_map (λ piece. piece.now) pieces.now) }
{
    for piece in pieces {
        out.extend_from_slice(piece)?;
    }
    Ok(())
}
