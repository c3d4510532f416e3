//! The groups that have a row of numbers in one reading: an alternative of each surely applies.

ghost use Rattle.std.specs.Prelude.{◌≡◌, ◌++◌, ◌∷◌, [], IfOk, OnOk, cond, get_or, map};
ghost use Rattle.std.specs.List.{flat_map};
ghost use Rattle.deb_control.specs.FieldWords.{groups_of, value_under};
ghost use Rattle.deb_control.specs.ValueFiles.{ValueEntries};
ghost use Rattle.deb_field.specs.Values.{ValueMeaning};
ghost use Rattle.deb_index.specs.CanonicalTexts.{OfGroup, OfRelation};
ghost use Rattle.deb_relation.specs.Environments.{environment_of};
ghost use Rattle.deb_relation.specs.Texts.{group_text};
ghost use Rattle.deb_relation.specs.Views.{names_of};
ghost use Rattle.deb_unmet.specs.Asked.{fields_with};
ghost use Rattle.deb_unmet.specs.Paragraphs.{HasTextsOf};
ghost use Rattle.deb_unmet.specs.declared.asked.Asked.TheVariants.{Packages};
ghost use Rattle.deb_unmet.specs.declared.asked.Strength.TheVariants as strengths;
ghost use Rattle.deb_install.specs.Explaining.{sure_groups};
ghost use Rattle.deb_install.specs.Rows.{some_surely_applies};

use crate::needs::{Needing, some_surely_applies};
use crate::universe::relation;
use deb_index::cut_group;
use deb_unmet::{LineTexts, Strength};
use std::alloc::{AllocError, Global};

/// Returns the canonical texts of those that a package with these texts needs.
pub(crate) fn sure_texts<'a>(
    alloc: Global,
    needing: &Needing<'_>,
    strength: Strength,
    texts: &LineTexts<'a>,
) -> Result<Vec<&'a [u8]>, AllocError>
    ensures { (values : ValueEntries ValueMeaning) → HasTextsOf (Packages strength) texts.now values
        → IfOk result (λ found. names_of found.items ≡ map group_text
        (sure_groups (environment_of needing.now.environment.now)
        (flat_map (λ field. groups_of (value_under field values)) (fields_with strength)))) }
{
    let mut found = Vec::new(alloc);
    append_sure(alloc, &mut found, needing, relation(texts, 0))?;
    append_sure(alloc, &mut found, needing, relation(texts, 1))?;
    append_recommended(alloc, &mut found, needing, strength, texts)?;
    Ok(found)
}

/// Appends those of Recommends, if they are asked.
fn append_recommended<'a>(
    alloc: Global,
    out: &mut Vec<&'a [u8]>,
    needing: &Needing<'_>,
    strength: Strength,
    texts: &LineTexts<'a>,
) -> Result<(), AllocError>
    ensures none { strength ≡ strengths.Depends
        → OnOk result (names_of out.new.items ≡ names_of out.old.items) }
    ensures some { strength ≡ strengths.Recommends → OfRelation
        (get_or (names_of texts.now.relations) 2 []) (λ m. OnOk result (names_of out.new.items
        ≡ names_of out.old.items ++ map group_text
        (sure_groups (environment_of needing.now.environment.now) m))) }
{
    match strength {
        Strength::Depends => Ok(()),
        Strength::Recommends => append_sure(alloc, out, needing, relation(texts, 2)),
    }
}

/// Appends those of the relation with a canonical text.
pub(crate) fn append_sure<'a>(
    alloc: Global,
    out: &mut Vec<&'a [u8]>,
    needing: &Needing<'_>,
    text: &'a [u8],
) -> Result<(), AllocError>
    ensures { OfRelation text.now (λ m. OnOk result (names_of out.new.items
        ≡ names_of out.old.items ++ map group_text
        (sure_groups (environment_of needing.now.environment.now) m))) }
{
    let mut rest = text;
    while !rest.is_empty() {
        let (group, others) = cut_group(rest);
        append_if_sure(alloc, out, needing, group)?;
        rest = others;
    }
    Ok(())
}

/// Appends the canonical text of a group, if an alternative surely applies.
fn append_if_sure<'a>(
    alloc: Global,
    out: &mut Vec<&'a [u8]>,
    needing: &Needing<'_>,
    group: &'a [u8],
) -> Result<(), AllocError>
    ensures { OfGroup group.now (λ g. OnOk result (names_of out.new.items
        ≡ names_of out.old.items ++ cond
        (some_surely_applies (environment_of needing.now.environment.now) g)
        (group_text g ∷ []) [])) }
{
    if some_surely_applies(alloc, needing, group)? {
        out.push(group)?;
    }
    Ok(())
}
