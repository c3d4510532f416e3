//! The lines of facts that rule a package out.

ghost use Rattle.std.specs.Prelude.{◌≡◌, ◌++◌, OnOk, slice_index};
ghost use Rattle.deb_control.specs.Documents.{Meaning};
ghost use Rattle.deb_health.specs.Lines.{line_at};
ghost use Rattle.deb_index.specs.Indexes.{packages_of};
ghost use Rattle.deb_index.specs.Kept.{listed_of};
ghost use Rattle.deb_solve.specs.Health.{row};
ghost use Rattle.deb_solve.specs.Reasons.{needed};
ghost use Rattle.deb_install.specs.Explaining.{HoldsFor, fact_lines, need_of, reason_of, row_at};
ghost use Rattle.deb_install.specs.Explaining.{text_words};
ghost use Rattle.deb_install.specs.ReasonLines.{exclusion_line, line_with, need_words, number_words};
ghost use Rattle.deb_install.specs.ReasonLines.{reason_line};
ghost use Rattle.deb_install.specs.Universes.{setting_of};

use crate::answer::{append_package, append_words};
use crate::explaining::Explaining;
use crate::row_texts::{RowText, row_text_at};
use deb_index::{Index, Package};
use deb_solve::{Fact, Rows};
use deb_unmet::append_spaced;
use itoa::Buffer;
use std::alloc::{AllocError, Global};

/// Appends the lines of facts.
pub(crate) fn append_facts(
    alloc: Global,
    out: &mut Vec<u8>,
    explaining: &Explaining<'_>,
    facts: &[Fact],
) -> Result<(), AllocError>
    ensures { (meaning : Meaning) → HoldsFor meaning explaining.now → OnOk result (out.new.items
        ≡ out.old.items ++ fact_lines (setting_of explaining.now.listing.now meaning)
        explaining.now.universe.now facts.now) }
{
    for fact in facts {
        append_fact(alloc, out, explaining, *fact)?;
    }
    Ok(())
}

/// Appends the line of a fact.
fn append_fact(
    alloc: Global,
    out: &mut Vec<u8>,
    explaining: &Explaining<'_>,
    fact: Fact,
) -> Result<(), AllocError>
    ensures { (meaning : Meaning) → HoldsFor meaning explaining.now → OnOk result (out.new.items
        ≡ out.old.items ++ reason_line (packages_of explaining.now.listing.now.index.now)
        (reason_of (setting_of explaining.now.listing.now meaning) explaining.now.universe.now
        fact)) }
{
    match fact {
        Fact::Needs { member, at } => append_need(alloc, out, explaining, member, at),
        Fact::Excludes { by, at } => {
            let excluded = number_at(row_of(&explaining.universe.excludes, by), at);
            append_exclusion(out, explaining.listing.index, by, excluded)
        }
    }
}

/// Appends the line of what the row at this index asks for, of the package with this number.
pub(crate) fn append_need(
    alloc: Global,
    out: &mut Vec<u8>,
    explaining: &Explaining<'_>,
    member: u32,
    at: u32,
) -> Result<(), AllocError>
    ensures { (meaning : Meaning) → HoldsFor meaning explaining.now → OnOk result (out.new.items
        ≡ out.old.items ++ reason_line (packages_of explaining.now.listing.now.index.now)
        (need_of member (row_at (setting_of explaining.now.listing.now meaning) member at)
        (row explaining.now.universe.now.groups
        (needed explaining.now.universe.now member at)))) }
{
    let text = row_text_at(alloc, explaining, member, at)?;
    let group = number_at(row_of(&explaining.universe.needs, member), at);
    let candidates = row_of(&explaining.universe.groups, group);
    match explaining.listing.index.package(u64::from(member)) {
        Some(package) => append_need_line(out, u64::from(member), &package, text, candidates),
        None => Ok(()),
    }
}

/// Appends the line of what a row with these numbers asks for.
fn append_need_line(
    out: &mut Vec<u8>,
    number: u64,
    package: &Package<'_>,
    text: RowText<'_>,
    candidates: &[u32],
) -> Result<(), AllocError>
    ensures { OnOk result (out.new.items ≡ out.old.items
        ++ line_with (text_words text.entry candidates.now) (number, listed_of «package».now)) }
{
    append_words(out, number, package)?;
    append_row_words(out, text, candidates)
}

/// Appends the words of what a row with these numbers asks for.
fn append_row_words(
    out: &mut Vec<u8>,
    text: RowText<'_>,
    candidates: &[u32],
) -> Result<(), AllocError>
    ensures { OnOk result (out.new.items ≡ out.old.items
        ++ text_words text.entry candidates.now) }
{
    match text {
        RowText::Group(text) => append_need_words(out, text, b"", candidates),
        RowText::Name(name) => append_need_words(out, name, b" (Essential)", candidates),
        RowText::LeftOut => out.extend_from_slice(b" is left out\n"),
    }
}

/// Appends a text and a mark, and then the numbers of packages.
pub(crate) fn append_need_words(
    out: &mut Vec<u8>,
    text: &[u8],
    mark: &[u8],
    candidates: &[u32],
) -> Result<(), AllocError>
    ensures { OnOk result (out.new.items ≡ out.old.items
        ++ need_words (text.now ++ mark.now) candidates.now) }
{
    out.extend_from_slice(b" needs ")?;
    out.extend_from_slice(text)?;
    out.extend_from_slice(mark)?;
    out.push(b':')?;
    append_numbers(out, candidates)?;
    out.push(b'\n')?;
    Ok(())
}

/// Appends the numbers of packages, or a word if there are none.
fn append_numbers(out: &mut Vec<u8>, numbers: &[u32]) -> Result<(), AllocError>
    ensures { OnOk result (out.new.items ≡ out.old.items ++ number_words numbers.now) }
{
    if numbers.is_empty() {
        return out.extend_from_slice(b" none");
    }
    for &number in numbers {
        let mut buffer = Buffer::new();
        append_spaced(out, buffer.format(number).as_bytes())?;
    }
    Ok(())
}

/// Appends the line of a package that excludes another one.
pub(crate) fn append_exclusion(
    out: &mut Vec<u8>,
    index: &Index,
    by: u32,
    excluded: u32,
) -> Result<(), AllocError>
    ensures { OnOk result (out.new.items ≡ out.old.items
        ++ line_at (λ p. line_at (exclusion_line p) (packages_of index.now) excluded)
        (packages_of index.now) by) }
{
    let Some(package) = index.package(u64::from(by)) else {
        return Ok(());
    };
    let Some(other) = index.package(u64::from(excluded)) else {
        return Ok(());
    };
    append_words(out, u64::from(by), &package)?;
    out.extend_from_slice(b" excludes")?;
    append_package(out, u64::from(excluded), &other)
}

/// Returns the row with this number; empty if there is none.
pub(crate) fn row_of(rows: &Rows, number: u32) -> &[u32]
    ensures { result.now ≡ row rows.now number }
{
    match rows.row(number) {
        Some(row) => row,
        None => &[],
    }
}

/// Returns the number at an index of a row; 0 if there is none, which no package has.
pub(crate) fn number_at(row: &[u32], at: u32) -> u32
    ensures { result ≡ slice_index row.now at }
{
    match row.get(at as usize) {
        Some(number) => *number,
        None => 0,
    }
}
