//! Groups as a field needs them: their canonical texts and two tests, without their parts.

ghost use Rattle.std.specs.Prelude.{◌≡◌, ◌||◌, ◌++◌, ◌∷◌, [], IfSome, Ok, OnOk, codes, map};
ghost use Rattle.std.specs.Option.{option_map};
ghost use Rattle.std.specs.Ordering.{is_eq};
ghost use Rattle.deb_relation.specs.Grammar.{set_of};
ghost use Rattle.deb_relation.specs.Reading.{append, begins, gather, is_at_end, mapped, next_alternative};
ghost use Rattle.deb_relation.specs.Sets.{byte_cmp};
ghost use Rattle.deb_relation.specs.Stops.{Gives, next_of};
ghost use Rattle.deb_relation.specs.Summaries.{append_summary, next_summary, put_summary, read_summary, summary_key, summary_of};
ghost use Rattle.deb_relation.specs.SummaryViews.{told_behind, told_key, told_of};
ghost use Rattle.deb_relation.specs.Texts.{alternative_text};
ghost use Rattle.deb_relation.specs.Views.{alternative_of};

use crate::alternative::Alternative;
use crate::cursor::{begins, skip_white};
use crate::fault::{Reason, Stop};
use crate::group::next_alternative;
use crate::in_place::cut_group;
use crate::kept_text::KeptText;
use crate::repeats::{FEW, most_after};
use std::alloc::{AllocError, Global};
use std::cmp::Ordering;

/// A group's canonical text, whether it has two alternatives or more, and whether no bound of it
/// has an operator other than `=`.
#[derive(Debug, Drop)]
pub(crate) struct GroupSummary<'a> {
    pub(crate) text: KeptText<'a>,
    pub(crate) has_two: bool,
    pub(crate) only_equals: bool,
}

/// Whether a text ends, or goes on with a comma.
fn ends_piece(text: &[u8]) -> bool
    ensures { result ≡ (is_at_end text.now || begins 44 text.now) }
{
    text.is_empty() || begins(text, b',')
}

/// The group, and what is left after it and white space, where it is canonical and has no lists.
fn cut_summary(text: &[u8]) -> Option<(GroupSummary<'_>, &[u8])>
    ensures { IfSome result (λ p. read_summary text.now ≡ Ok (told_of p.0, p.1.now)) }
{
    let (front, has_two, only_equals, behind) = cut_group(text)?;
    let rest = skip_white(behind);
    if !ends_piece(rest) {
        return None;
    }
    let group = GroupSummary {
        text: KeptText::Lent(front),
        has_two,
        only_equals,
    };
    Some((group, rest))
}

/// Appends a bar and the text of an alternative.
fn append_next(out: &mut Vec<u8>, alternative: &Alternative<'_>) -> Result<(), AllocError>
    ensures { OnOk result (out.new.items
        ≡ out.old.items ++ (codes " | " ++ alternative_text (alternative_of alternative.now))) }
{
    out.extend_from_slice(b" | ")?;
    alternative.append_to(out)
}

/// The group of a first alternative and those that follow, and what is left after it. It keeps the
/// text of each alternative, and drops its parts.
fn gather_alternatives<'a>(
    alloc: Global,
    first: &Alternative<'_>,
    text: &'a [u8],
) -> Result<(GroupSummary<'a>, &'a [u8]), Stop>
    ensures { Gives result (λ p. (told_of p.0, p.1.now)) (mapped summary_of
        (gather next_alternative append (alternative_of first.now ∷ []) text.now)) }
{
    let mut joined = first.text(alloc)?;
    let mut has_two = false;
    let mut only_equals = first.has_equal_bound();
    let mut rest = text;
    while let Some((alternative, behind)) = next_alternative(alloc, rest)? {
        append_next(&mut joined, &alternative)?;
        has_two = true;
        only_equals &= alternative.has_equal_bound();
        rest = behind;
    }
    let group = GroupSummary {
        text: KeptText::Owned(joined),
        has_two,
        only_equals,
    };
    Ok((group, rest))
}

/// The group, read part by part, and what is left after it and white space.
#[tactic(auto, unfolding(crate::specs::Reading::read_group, crate::specs::Summaries::read_summary))]
fn read_parts(alloc: Global, text: &[u8]) -> Result<(GroupSummary<'_>, &[u8]), Stop>
    ensures { Gives result (λ p. (told_of p.0, p.1.now)) (read_summary text.now) }
{
    let (first, rest) = Alternative::read(alloc, text)?;
    gather_alternatives(alloc, &first, rest)
}

/// The group, and what is left after it and white space.
fn read_group(alloc: Global, text: &[u8]) -> Result<(GroupSummary<'_>, &[u8]), Stop>
    ensures { Gives result (λ p. (told_of p.0, p.1.now)) (read_summary text.now) }
{
    match cut_summary(text) {
        Some(read) => Ok(read),
        None => read_parts(alloc, text),
    }
}

/// The next piece between commas, a group or white space alone, and what is left after it and its
/// comma.
#[tactic(auto, unfolding(crate::specs::Summaries::next_summary))]
fn next_piece(alloc: Global, text: &[u8]) -> Result<Option<(Option<GroupSummary<'_>>, &[u8])>, Stop>
    ensures value { Gives result (next_of told_behind) (next_summary text.now) }
{
    let text = skip_white(text);
    if text.is_empty() {
        return Ok(None);
    }
    if begins(text, b',') {
        return Ok(Some((None, &text[1..])));
    }
    let (group, rest) = read_group(alloc, text)?;
    if rest.is_empty() {
        return Ok(Some((Some(group), rest)));
    }
    if !begins(rest, b',') {
        return Err(Stop::Bad {
            reason: Reason::Trailing,
            left: rest.len(),
        });
    }
    Ok(Some((Some(group), &rest[1..])))
}

/// Appends a piece's group to groups, if it has one.
fn push_piece<'a>(
    groups: &mut Vec<GroupSummary<'a>>,
    piece: Option<GroupSummary<'a>>,
) -> Result<(), AllocError>
    ensures { OnOk result (map told_of groups.new.items
        ≡ append_summary (option_map told_of piece.entry) (map told_of groups.old.items)) }
{
    if let Some(group) = piece {
        groups.push(group)?;
    }
    Ok(())
}

/// Two groups, in the byte order of their texts.
fn compare_groups(a: &GroupSummary<'_>, b: &GroupSummary<'_>) -> Ordering
    ensures { result ≡ byte_cmp (told_key a.now) (told_key b.now) }
{
    a.text.bytes().cmp(b.text.bytes())
}

/// Whether two groups have the same text.
fn same_group(a: &GroupSummary<'_>, b: &GroupSummary<'_>) -> bool
    ensures { result ≡ is_eq (byte_cmp (told_key a.now) (told_key b.now)) }
{
    a.text.bytes() == b.text.bytes()
}

/// Makes groups a set: ascending by their texts, each once.
fn sort_groups(groups: &mut Vec<GroupSummary<'_>>) -> Result<(), AllocError>
    ensures { OnOk result
        (map told_of groups.new.items ≡ set_of summary_key (map told_of groups.old.items)) }
{
    groups.sort_by(|a, b| compare_groups(a, b))?;
    groups.dedup_by(|a, b| same_group(a, b));
    Ok(())
}

/// Drops repeats once there are `most` groups, and lets those that are left become twice as many.
fn drop_repeats(groups: &mut Vec<GroupSummary<'_>>, most: &mut usize) -> Result<(), AllocError>
    ensures { OnOk result (set_of summary_key (map told_of groups.new.items)
        ≡ set_of summary_key (map told_of groups.old.items)) }
{
    if groups.len() >= *most {
        sort_groups(groups)?;
        *most = most_after(groups.len());
    }
    Ok(())
}

/// The set of the groups of a whole text, and what is left after it.
pub(crate) fn read_groups(
    alloc: Global,
    text: &[u8],
) -> Result<(Vec<GroupSummary<'_>>, &[u8]), Stop>
    ensures { Gives result (λ p. (map told_of p.0.items, p.1.now))
        (gather next_summary put_summary [] text.now) }
{
    let mut groups = Vec::with_capacity(alloc, 16)?;
    let mut most = FEW;
    let mut rest = text;
    while let Some((piece, behind)) = next_piece(alloc, rest)? {
        push_piece(&mut groups, piece)?;
        drop_repeats(&mut groups, &mut most)?;
        rest = behind;
    }
    sort_groups(&mut groups)?;
    Ok((groups, rest))
}
