//! Relations in JSON: groups of alternatives with their parts (Debian Policy 7.1).

ghost use Rattle.std.specs.Prelude.{◌≡◌, ◌≤◌, ◌==◌, ◌++◌, ◌∷◌, ℕ, List, [], codes, drop, length};
ghost use Rattle.std.specs.Prelude.{map, not, IfOk, IfSome, IsSome, OnOk, flat_map};
ghost use Rattle.std.specs.List.{prefix_len};
ghost use Rattle.std.specs.Option.{option_copied, option_map};
ghost use Rattle.deb_field.specs.RelationSpelled.{relation_meaning};
ghost use Rattle.deb_relation.specs.Grammar.{SpellsRelation};
ghost use Rattle.deb_relation.specs.Groups.{group_of};
ghost use Rattle.deb_relation.specs.Meaning.{Group as GroupMeaning, Relation as RelationMeaning};
ghost use Rattle.deb_relation.specs.Regular.{IsRegularGroup};
ghost use Rattle.deb_relation.specs.Texts.{group_text, item_text, operator_text, relation_text};
ghost use Rattle.deb_relation.specs.Texts.{signed_text};
ghost use Rattle.deb_relation.specs.Views.{alternative_of, item_of, items_of, lent_bound_of};
ghost use Rattle.deb_relation.specs.Views.{lent_list_of, names_of, restrictions_of};
ghost use Rattle.json.specs.Token.{string};
ghost use Rattle.deb_select.specs.JsonTokens.{alternative_tokens, architectures_member};
ghost use Rattle.deb_select.specs.JsonTokens.{bound_members, formula_member, group_tokens};
ghost use Rattle.deb_select.specs.JsonTokens.{list_tokens, qualifier_member, relation_tokens};
ghost use Rattle.deb_select.specs.JsonTokens.{text_tokens};

use crate::json_line::{put_text, put_version};
use deb_field::{Canon, RelationField};
use deb_relation::{Alternative, Group, Op, Relation};
use deb_version::Version;
use json::Writer;
use memchr::memchr;
use std::alloc::{AllocError, Global};

/// The most bytes of canonical text for which all groups of a relation are read at once, which is
/// faster. Those of a longer one are read one at a time, and a longer group in chunks of its
/// alternatives, since short groups and alternatives take more than 20 bytes of memory for each
/// byte of text.
const LONG: u64 = 65_536;

/// Writes a relation as an array of its groups.
pub(crate) fn put_relation(
    alloc: Global,
    out: &mut Writer,
    field: &RelationField<'_>,
) -> Result<(), AllocError>
    ensures tokens { OnOk result (out.new.tokens ≡ out.old.tokens
        ++ relation_tokens (relation_meaning field.now)) }
    ensures before { OnOk result (out.new.before ≡ out.old.before) }
{
    out.begin_array()?;
    put_groups_of(alloc, out, field)?;
    out.end_array()
}

/// Writes the groups of a relation.
fn put_groups_of(
    alloc: Global,
    out: &mut Writer,
    field: &RelationField<'_>,
) -> Result<(), AllocError>
    ensures tokens { OnOk result (out.new.tokens ≡ out.old.tokens
        ++ flat_map group_tokens (relation_meaning field.now)) }
    ensures before { OnOk result (out.new.before ≡ out.old.before) }
{
    if field.canon_len() > LONG {
        return put_one_by_one(alloc, out, field);
    }
    let Ok(relation) = field.relation(alloc) else {
        return Err(AllocError);
    };
    put_groups(alloc, out, relation.groups())
}

/// Writes the groups of a relation, each of which is read when the one before it has been written.
fn put_one_by_one(
    alloc: Global,
    out: &mut Writer,
    field: &RelationField<'_>,
) -> Result<(), AllocError>
    ensures tokens { OnOk result (out.new.tokens ≡ out.old.tokens
        ++ flat_map group_tokens (relation_meaning field.now)) }
    ensures before { OnOk result (out.new.before ≡ out.old.before) }
{
    let text = text_of_pieces(alloc, field)?;
    put_pieces(alloc, out, text.as_slice())
}

/// Returns the canonical text of a relation with a comma and a space before it, so that they stand
/// before each group.
fn text_of_pieces(alloc: Global, field: &RelationField<'_>) -> Result<Vec<u8>, AllocError>
    ensures { IfOk result
        (λ text. text.items ≡ codes ", " ++ relation_text (relation_meaning field.now)) }
{
    let len = field.canon_len() as usize;
    let mut text = Vec::with_capacity(alloc, len.saturating_add(2))?;
    text.extend_from_slice(b", ")?;
    field.canon_into(&mut text)?;
    Ok(text)
}

/// Writes the groups of a canonical text that has a comma and a space before each group.
///
/// Each group of canonical text is spelled canonically and comes after the one before it. That is
/// tested here rather than proved, and a text that fails the test is refused as if memory were
/// wanting.
fn put_pieces(alloc: Global, out: &mut Writer, text: &[u8]) -> Result<(), AllocError>
    ensures tokens { OnOk result ((m : RelationMeaning) → SpellsRelation (relation_text m) m
        → text.now ≡ codes ", " ++ relation_text m
        → out.new.tokens ≡ out.old.tokens ++ flat_map group_tokens m) }
    ensures before { OnOk result (out.new.before ≡ out.old.before) }
{
    let mut last: &[u8] = &[];
    let mut rest = text;
    while let Some((piece, behind)) = cut_piece(rest) {
        if !last.cmp(piece).is_lt() {
            return Err(AllocError);
        }
        put_only_group(alloc, out, piece)?;
        last = piece;
        rest = behind;
    }
    if rest.is_empty() {
        Ok(())
    } else {
        Err(AllocError)
    }
}

/// Cuts a text that begins with a comma and a space: returns the piece before the next comma, and
/// the text from there on.
fn cut_piece(text: &[u8]) -> Option<(&[u8], &[u8])>
    ensures pieces { IfSome result
        (λ cut. text.now ≡ codes ", " ++ (cut.0.now ++ cut.1.now)) }
    ensures first { IfSome result
        (λ cut. length cut.0.now ≡ prefix_len (λ b. not (b == 44)) (drop 2 text.now)) }
    ensures some { (rest : List ℕ) → text.now ≡ codes ", " ++ rest → IsSome result }
{
    if let [b',', b' ', pieces @ ..] = text {
        Some(pieces.split_at(len_before_comma(pieces)))
    } else {
        None
    }
}

/// Returns how many bytes come before the first comma.
fn len_before_comma(text: &[u8]) -> usize
    ensures value { result ≡ prefix_len (λ b. not (b == 44)) text.now }
    ensures bound { result ≤ length text.now }
{
    text.iter().take_while(|byte| **byte != b',').count()
}

/// Writes the one group that a piece is the canonical text of.
fn put_only_group(alloc: Global, out: &mut Writer, piece: &[u8]) -> Result<(), AllocError>
    ensures tokens { OnOk result ((group : GroupMeaning) × IsRegularGroup group
        × (group_text group ≡ piece.now)
        × (out.new.tokens ≡ out.old.tokens ++ group_tokens group)) }
    ensures before { OnOk result (out.new.before ≡ out.old.before) }
{
    out.begin_array()?;
    put_chunks(alloc, out, piece)?;
    out.end_array()
}

/// Writes the alternatives of the one group that a piece is the canonical text of. A long piece is
/// read in chunks, each when the one before it has been written.
fn put_chunks(alloc: Global, out: &mut Writer, piece: &[u8]) -> Result<(), AllocError>
    ensures tokens { OnOk result ((group : GroupMeaning) × IsRegularGroup group
        × (group_text group ≡ piece.now)
        × (out.new.tokens ≡ out.old.tokens ++ flat_map alternative_tokens group)) }
    ensures before { OnOk result (out.new.before ≡ out.old.before) }
{
    let mut rest = piece;
    while let Some((chunk, behind)) = cut_chunk(rest) {
        put_chunk(alloc, out, chunk)?;
        rest = behind;
    }
    put_chunk(alloc, out, rest)
}

/// Cuts a text at the first bar after its first `LONG` bytes: returns what comes before the bar and
/// its spaces, and what follows them. Returns `None` if there is no such bar.
fn cut_chunk(text: &[u8]) -> Option<(&[u8], &[u8])>
    ensures { IfSome result
        (λ cut. text.now ≡ cut.0.now ++ (codes " | " ++ cut.1.now)) }
{
    let (first, bar) = text.split_at(chunk_len(text));
    match (first, bar) {
        ([chunk @ .., b' '], [b'|', b' ', behind @ ..]) => Some((chunk, behind)),
        _ => None,
    }
}

/// Returns how many bytes come before the first bar after the first `LONG` bytes. Without such a
/// bar, these are `LONG` bytes, or all of a shorter text.
fn chunk_len(text: &[u8]) -> usize
    ensures { result ≤ length text.now }
{
    let len = text.len().min(LONG as usize);
    match memchr(b'|', &text[len..]) {
        Some(more) => len + more,
        None => len,
    }
}

/// Writes the alternatives of the one group that a text is the canonical text of.
fn put_chunk(alloc: Global, out: &mut Writer, text: &[u8]) -> Result<(), AllocError>
    ensures tokens { OnOk result ((group : GroupMeaning) × IsRegularGroup group
        × (group_text group ≡ text.now)
        × (out.new.tokens ≡ out.old.tokens ++ flat_map alternative_tokens group)) }
    ensures before { OnOk result (out.new.before ≡ out.old.before) }
{
    let Ok(relation) = Relation::parse(alloc, text) else {
        return Err(AllocError);
    };
    let [group] = relation.groups() else {
        return Err(AllocError);
    };
    let mut canonical = Vec::with_capacity(alloc, text.len())?;
    group.canon_into(&mut canonical)?;
    if canonical.as_slice() != text {
        return Err(AllocError);
    }
    put_alternatives(alloc, out, group.alternatives())
}

/// Writes groups.
fn put_groups(alloc: Global, out: &mut Writer, groups: &[Group<'_>]) -> Result<(), AllocError>
    ensures tokens { OnOk result (out.new.tokens ≡ out.old.tokens
        ++ flat_map group_tokens (map group_of groups.now)) }
    ensures before { OnOk result (out.new.before ≡ out.old.before) }
{
    for group in groups {
        put_group(alloc, out, group)?;
    }
    Ok(())
}

/// Writes a group as an array of its alternatives.
fn put_group(alloc: Global, out: &mut Writer, group: &Group<'_>) -> Result<(), AllocError>
    ensures tokens { OnOk result (out.new.tokens ≡ out.old.tokens
        ++ group_tokens (group_of group.now)) }
    ensures before { OnOk result (out.new.before ≡ out.old.before) }
{
    out.begin_array()?;
    put_alternatives(alloc, out, group.alternatives())?;
    out.end_array()
}

/// Writes alternatives.
fn put_alternatives(
    alloc: Global,
    out: &mut Writer,
    alternatives: &[Alternative<'_>],
) -> Result<(), AllocError>
    ensures tokens { OnOk result (out.new.tokens ≡ out.old.tokens
        ++ flat_map alternative_tokens (map alternative_of alternatives.now)) }
    ensures before { OnOk result (out.new.before ≡ out.old.before) }
{
    for alternative in alternatives {
        put_alternative(alloc, out, alternative)?;
    }
    Ok(())
}

/// Writes an alternative as an object with the parts that it has.
fn put_alternative(
    alloc: Global,
    out: &mut Writer,
    alternative: &Alternative<'_>,
) -> Result<(), AllocError>
    ensures tokens { OnOk result (out.new.tokens ≡ out.old.tokens
        ++ alternative_tokens (alternative_of alternative.now)) }
    ensures before { OnOk result (out.new.before ≡ out.old.before) }
{
    out.begin_object()?;
    out.key("name")?;
    put_text(out, alternative.name())?;
    put_qualifier(out, alternative.qualifier())?;
    put_bound(alloc, out, alternative.bound())?;
    put_architectures(alloc, out, alternative.architectures())?;
    put_formula(alloc, out, alternative.formula())?;
    out.end_object()
}

/// Writes the qualifier, if there is one.
fn put_qualifier(out: &mut Writer, qualifier: Option<&[u8]>) -> Result<(), AllocError>
    ensures tokens { OnOk result (out.new.tokens ≡ out.old.tokens
        ++ qualifier_member (option_copied qualifier.entry)) }
    ensures before { OnOk result (out.new.before ≡ out.old.before) }
{
    if let Some(qualifier) = qualifier {
        out.key("qualifier")?;
        put_text(out, qualifier)?;
    }
    Ok(())
}

/// Writes the operator and the version, if there are any.
fn put_bound(
    alloc: Global,
    out: &mut Writer,
    bound: Option<(Op, &Version<'_>)>,
) -> Result<(), AllocError>
    ensures tokens { OnOk result (out.new.tokens ≡ out.old.tokens
        ++ bound_members (option_map lent_bound_of bound.entry)) }
    ensures before { OnOk result (out.new.before ≡ out.old.before) }
{
    if let Some((operator, version)) = bound {
        out.key("operator")?;
        out.string(operator_text(operator))?;
        out.key("version")?;
        put_version(alloc, out, version)?;
    }
    Ok(())
}

/// Returns an operator as it is spelled.
fn operator_text(operator: Op) -> &'static str
    ensures { result.now ≡ operator_text operator }
{
    match operator {
        Op::Earlier => "<<",
        Op::EarlierEqual => "<=",
        Op::Equal => "=",
        Op::LaterEqual => ">=",
        Op::Later => ">>",
    }
}

/// Writes the architectures, each with its `!`, if there are any.
fn put_architectures(
    alloc: Global,
    out: &mut Writer,
    architectures: Option<(bool, &[&[u8]])>,
) -> Result<(), AllocError>
    ensures tokens { OnOk result (out.new.tokens ≡ out.old.tokens
        ++ architectures_member (option_map lent_list_of architectures.entry)) }
    ensures before { OnOk result (out.new.before ≡ out.old.before) }
{
    if let Some((negated, names)) = architectures {
        out.key("architectures")?;
        out.begin_array()?;
        put_names(alloc, out, negated, names)?;
        out.end_array()?;
    }
    Ok(())
}

/// Writes names as strings, each with a `!` or none with it.
fn put_names(
    alloc: Global,
    out: &mut Writer,
    negated: bool,
    names: &[&[u8]],
) -> Result<(), AllocError>
    ensures tokens { OnOk result (out.new.tokens ≡ out.old.tokens
        ++ flat_map text_tokens (map (signed_text negated) (names_of names.now))) }
    ensures before { OnOk result (out.new.before ≡ out.old.before) }
{
    for name in names {
        put_signed(alloc, out, negated, *name)?;
    }
    Ok(())
}

/// Writes the restriction lists, if there are any.
fn put_formula(
    alloc: Global,
    out: &mut Writer,
    formula: &[Vec<(bool, &[u8])>],
) -> Result<(), AllocError>
    ensures tokens { OnOk result (out.new.tokens ≡ out.old.tokens
        ++ formula_member (map restrictions_of formula.now)) }
    ensures before { OnOk result (out.new.before ≡ out.old.before) }
{
    if formula.is_empty() {
        return Ok(());
    }
    out.key("restrictions")?;
    out.begin_array()?;
    put_lists(alloc, out, formula)?;
    out.end_array()
}

/// Writes restriction lists.
fn put_lists(
    alloc: Global,
    out: &mut Writer,
    lists: &[Vec<(bool, &[u8])>],
) -> Result<(), AllocError>
    ensures tokens { OnOk result (out.new.tokens ≡ out.old.tokens
        ++ flat_map list_tokens (map restrictions_of lists.now)) }
    ensures before { OnOk result (out.new.before ≡ out.old.before) }
{
    for list in lists {
        put_list(alloc, out, list.as_slice())?;
    }
    Ok(())
}

/// Writes a restriction list as an array of strings.
fn put_list(alloc: Global, out: &mut Writer, list: &[(bool, &[u8])]) -> Result<(), AllocError>
    ensures tokens { OnOk result (out.new.tokens ≡ out.old.tokens
        ++ list_tokens (items_of list.now)) }
    ensures before { OnOk result (out.new.before ≡ out.old.before) }
{
    out.begin_array()?;
    put_items(alloc, out, list)?;
    out.end_array()
}

/// Writes the items of a restriction list as strings, each with its `!`.
fn put_items(alloc: Global, out: &mut Writer, items: &[(bool, &[u8])]) -> Result<(), AllocError>
    ensures tokens { OnOk result (out.new.tokens ≡ out.old.tokens
        ++ flat_map text_tokens (map item_text (items_of items.now))) }
    ensures before { OnOk result (out.new.before ≡ out.old.before) }
{
    for item in items {
        put_signed(alloc, out, item.0, item.1)?;
    }
    Ok(())
}

/// Writes a name as a string, with a `!` before it or not.
fn put_signed(alloc: Global, out: &mut Writer, negated: bool, name: &[u8]) -> Result<(), AllocError>
    ensures tokens { OnOk result (out.new.tokens ≡ out.old.tokens
        ++ string (signed_text negated name.now) ∷ []) }
    ensures before { OnOk result (out.new.before ≡ out.old.before) }
{
    if !negated {
        return put_text(out, name);
    }
    let mut text = Vec::with_capacity(alloc, name.len())?;
    text.push(b'!')?;
    text.extend_from_slice(name)?;
    put_text(out, text.as_slice())
}
