//! Lines of a package of a set.

ghost use Rattle.std.specs.Prelude.{◌≡◌, ◌++◌, ◌&&◌, List, [], OnOk, codes, cond, false, ltb, not};
ghost use Rattle.std.specs.Option.{option_map_or};
ghost use Rattle.deb_control.specs.FieldWords.{word_under};
ghost use Rattle.deb_control.specs.ValueFiles.{ValueEntries};
ghost use Rattle.deb_field.specs.Values.{ValueMeaning};
ghost use Rattle.deb_index.specs.Indexes.{packages_of};
ghost use Rattle.deb_index.specs.Kept.{listed_of};
ghost use Rattle.deb_index.specs.Named.{package_at};
ghost use Rattle.deb_index.specs.ReportText.{canonical_version, package_line};
ghost use Rattle.deb_relation.specs.Environments.{environment_of};
ghost use Rattle.deb_syntax.specs.Fields.{Field};
ghost use Rattle.deb_unmet.specs.Fields.{environment_for};
ghost use Rattle.deb_unmet.specs.Paragraphs.{HasTextsOf, heading_in};
ghost use Rattle.deb_unmet.specs.declared.asked.Asked.TheVariants.{Packages};
ghost use Rattle.deb_health.specs.Kept.{HoldsMember};
ghost use Rattle.deb_health.specs.Lines.{duplicate_line, duplicate_lines, exclusion_lines, line_at, member_lines};
ghost use Rattle.deb_health.specs.Together.{are_together};

use crate::excluding::{Negative, append_exclusions};
use crate::kept::Kept;
use crate::together::are_together;
use deb_base::VersionText;
use deb_index::{Index, Package};
use deb_relation::Env;
use deb_unmet::{
    Asked, Paragraph, Question, Strength, append_lines, append_spaced, own_environment, own_or,
};
use itoa::Buffer;
use std::alloc::{AllocError, Global};

/// The packages of a set, and what they are asked.
#[derive(Clone, Copy)]
pub(crate) struct Set<'a> {
    pub(crate) index: &'a Index,
    pub(crate) environment: &'a Env,
    pub(crate) strength: Strength,
}

/// Appends the lines of the package with this number, of which this is kept.
pub(crate) fn append_member<'a>(
    alloc: Global,
    out: &mut Vec<u8>,
    set: &Set<'a>,
    number: u64,
    kept: &Kept,
) -> Result<(), AllocError>
    ensures { (fields : List Field) (values : ValueEntries ValueMeaning)
        → HoldsMember fields values kept.now → OnOk result (out.new.items ≡ out.old.items
        ++ member_lines set.now.strength (environment_of set.now.environment.now)
        (packages_of set.now.index.now) number (word_under (codes "Version") values) values) }
{
    let paragraph = Paragraph {
        asked: Asked::Packages(set.strength),
        number,
        texts: &kept.unmet.line_texts(VersionText::Canonical),
    };
    let unless: Option<&'a Index> = None;
    let question = Question {
        index: set.index,
        unless,
        without: &[],
        environment: set.environment,
    };
    append_lines(alloc, out, &question, &paragraph)?;
    append_negatives(alloc, out, set, &paragraph, kept)?;
    append_duplicates(out, set, &paragraph)
}

/// Appends the lines of Conflicts and Breaks.
fn append_negatives(
    alloc: Global,
    out: &mut Vec<u8>,
    set: &Set<'_>,
    paragraph: &Paragraph<'_>,
    kept: &Kept,
) -> Result<(), AllocError>
    ensures { (fields : List Field) (values : ValueEntries ValueMeaning)
        → HasTextsOf paragraph.now.asked paragraph.now.texts.now values
        → HoldsMember fields values kept.now → paragraph.now.asked ≡ Packages set.now.strength
        → OnOk result (out.new.items ≡ out.old.items ++ exclusion_lines
        (environment_for (Packages set.now.strength) (environment_of set.now.environment.now)
        values) (environment_of set.now.environment.now).native (packages_of set.now.index.now)
        (heading_in paragraph.now) values) }
{
    let own = own_environment(
        alloc,
        paragraph.asked,
        set.environment,
        paragraph.texts.architecture,
    )?;
    let environment = own_or(own.as_ref(), set.environment);
    let asked = Negative {
        index: set.index,
        environment,
        target: set.environment.native(),
        paragraph: &*paragraph,
        field: b"Conflicts",
    };
    append_exclusions(alloc, out, &asked, &kept.conflicts)?;
    let asked = Negative {
        field: b"Breaks",
        ..asked
    };
    append_exclusions(alloc, out, &asked, &kept.breaks)
}

/// Appends a line for each later package of the same name that can't be installed together with
/// this one.
fn append_duplicates(
    out: &mut Vec<u8>,
    set: &Set<'_>,
    paragraph: &Paragraph<'_>,
) -> Result<(), AllocError>
    ensures { OnOk result (out.new.items ≡ out.old.items ++ duplicate_lines
        (environment_of set.now.environment.now).native (packages_of set.now.index.now)
        (heading_in paragraph.now) paragraph.now.number) }
{
    let Some(package) = set.index.package(paragraph.number) else {
        return Ok(());
    };
    for &number in set.index.packages(package.name()) {
        append_if_duplicate(out, set, paragraph, &package, number)?;
    }
    Ok(())
}

/// Appends the line of the package with this number, which has the same name, if it comes later and
/// can't be installed together with this one.
fn append_if_duplicate(
    out: &mut Vec<u8>,
    set: &Set<'_>,
    paragraph: &Paragraph<'_>,
    own: &Package<'_>,
    number: u64,
) -> Result<(), AllocError>
    ensures { OnOk result (out.new.items ≡ out.old.items ++ cond (option_map_or
        (λ q. not (are_together (environment_of set.now.environment.now).native
        (listed_of own.now) q)) (package_at number (packages_of set.now.index.now)) false
        && ltb paragraph.now.number number) (line_at (duplicate_line (heading_in paragraph.now))
        (packages_of set.now.index.now) number) []) }
{
    let Some(other) = set.index.package(number) else {
        return Ok(());
    };
    if !are_together(set.environment.native(), own, &other) && paragraph.number < number {
        append_duplicate(out, paragraph, number, &other)?;
    }
    Ok(())
}

/// Appends the line of a later package of the same name.
fn append_duplicate(
    out: &mut Vec<u8>,
    paragraph: &Paragraph<'_>,
    number: u64,
    other: &Package<'_>,
) -> Result<(), AllocError>
    ensures { OnOk result (out.new.items ≡ out.old.items
        ++ duplicate_line (heading_in paragraph.now) (number, listed_of other.now)) }
{
    let mut buffer = Buffer::new();
    out.extend_from_slice(b"duplicate")?;
    paragraph.append_heading(out)?;
    out.extend_from_slice(b"with")?;
    append_spaced(out, buffer.format(number).as_bytes())?;
    append_spaced(out, other.version())?;
    append_spaced(out, other.architecture())?;
    out.push(b'\n')?;
    Ok(())
}

/// Appends what a line ends with: the number, the name, the version and the architecture of a
/// package.
pub(crate) fn append_package(
    out: &mut Vec<u8>,
    number: u64,
    other: &Package<'_>,
) -> Result<(), AllocError>
    ensures { OnOk result (out.new.items
        ≡ out.old.items ++ package_line canonical_version (number, listed_of other.now)) }
{
    let mut buffer = Buffer::new();
    append_spaced(out, buffer.format(number).as_bytes())?;
    append_spaced(out, other.name())?;
    append_spaced(out, other.version())?;
    append_spaced(out, other.architecture())?;
    out.push(b'\n')?;
    Ok(())
}
