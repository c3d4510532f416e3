//! What is known of whether each package can be installed, and its line.

ghost use Rattle.std.specs.Prelude.{◌≡◌, ◌++◌, ◌<◌, ◌^◌, ◌-◌, ◌==◌, ◌||◌, length, slice_index_or, IfOk, OnOk};
ghost use Rattle.deb_index.specs.Indexes.{packages_of};
ghost use Rattle.deb_index.specs.Kept.{listed_of};
ghost use Rattle.deb_index.specs.ReportText.{canonical_version, package_line};
ghost use Rattle.deb_health.specs.Lines.{line_at};
ghost use Rattle.deb_solve.specs.declared.verdict.Verdict.TheVariants as solved;
ghost use Rattle.std.specs.List.{list_any};
ghost use Rattle.std.specs.Str.{bytes_eq};
ghost use Rattle.deb_relation.specs.Applying.{is_among};
ghost use Rattle.deb_relation.specs.Views.{name_key, names_of};
ghost use Rattle.deb_install.specs.Answers.{answer_at, answer_by, answer_line, answer_lines};
ghost use Rattle.deb_install.specs.Answers.{asked_line, is_asked, names_in};
ghost use Rattle.deb_install.specs.ReasonLines.{package_words};

use deb_index::{Index, Package};
use deb_solve::Verdict;
use deb_unmet::append_spaced;
use itoa::Buffer;
use std::alloc::{AllocError, Global};

/// The names of packages that are asked, where no name means all, and of those that are left out.
#[derive(Clone, Copy)]
pub(crate) struct Names<'a> {
    pub(crate) asked: &'a [&'a [u8]],
    pub(crate) without: &'a [&'a [u8]],
}

/// What is known of whether a package can be installed.
#[derive(Clone, Copy, Debug, PartialEq, Eq)]
pub enum Answer {
    /// In every reading of architecture lists a healthy set contains it.
    Installable,
    /// In no reading a healthy set contains it.
    Uninstallable,
    /// A healthy set contains it in one reading, and not in every one.
    Unsure,
    /// Nothing: the budget was spent.
    Undecided,
}

/// Returns the lines of the packages of an index that are asked, by verdicts in every reading and
/// in one.
pub(crate) fn lines_of(
    alloc: Global,
    index: &Index,
    names: &Names<'_>,
    every: &[Verdict],
    one: &[Verdict],
) -> Result<Vec<u8>, AllocError>
    ensures { IfOk result (λ text. text.items ≡ answer_lines (names_in names.now)
        (answer_at every.now one.now) (packages_of index.now)) }
{
    let mut text = Vec::new(alloc);
    for count in 0..index.len() {
        let answer = answer_at(every, one, count + 1);
        append_answer(&mut text, names, answer, index, count as u64 + 1)?;
    }
    Ok(text)
}

/// Returns whether a package with this name is asked: its name isn't left out, and is one of these,
/// or there are none.
pub(crate) fn is_asked(names: &Names<'_>, name: &[u8]) -> bool
    ensures { result ≡ is_asked (names_in names.now) name.now }
{
    !is_among(name, names.without) && is_empty_or_has(names.asked, name)
}

fn is_empty_or_has(names: &[&[u8]], name: &[u8]) -> bool
    ensures { result
        ≡ ((length names.now == 0) || is_among name.now (names_of names.now)) }
{
    names.is_empty() || is_among(name, names)
}

/// Returns whether a name is one of these.
pub(crate) fn is_among(name: &[u8], names: &[&[u8]]) -> bool
    ensures { result ≡ is_among name.now (names_of names.now) }
{
    some_is(names, name)
}

fn some_is(names: &[&[u8]], name: &[u8]) -> bool
    ensures { result ≡ list_any (λ other. bytes_eq (name_key other) name.now) names.now }
{
    names.iter().any(|other| *other == name)
}

/// Returns the answer of the package with a number.
pub(crate) fn answer_at(every: &[Verdict], one: &[Verdict], number: usize) -> Answer
    ensures { result ≡ answer_at every.now one.now number }
{
    answer_by(verdict_at(every, number), verdict_at(one, number))
}

fn verdict_at(verdicts: &[Verdict], number: usize) -> Verdict
    ensures { result ≡ slice_index_or «verdicts».now number solved.Undecided }
{
    match verdicts.get(number) {
        Some(verdict) => *verdict,
        None => Verdict::Undecided,
    }
}

/// Returns the answer by the verdict in every reading and the one in one reading.
fn answer_by(every: Verdict, one: Verdict) -> Answer
    ensures { result ≡ answer_by every one }
{
    match every {
        Verdict::Installable => Answer::Installable,
        Verdict::Undecided => Answer::Undecided,
        Verdict::Uninstallable => match one {
            Verdict::Installable => Answer::Unsure,
            Verdict::Uninstallable => Answer::Uninstallable,
            Verdict::Undecided => Answer::Undecided,
        },
    }
}

/// Appends the line of the package with this number, if it is asked and has one.
pub(crate) fn append_answer(
    out: &mut Vec<u8>,
    names: &Names<'_>,
    answer: Answer,
    index: &Index,
    number: u64,
) -> Result<(), AllocError>
    ensures { OnOk result (out.new.items ≡ out.old.items
        ++ line_at (asked_line (names_in names.now) answer) (packages_of index.now) number) }
{
    match index.package(number) {
        Some(package) => append_asked(out, names, answer, number, &package),
        None => Ok(()),
    }
}

/// Appends the line of a package, if it is asked and has one.
fn append_asked(
    out: &mut Vec<u8>,
    names: &Names<'_>,
    answer: Answer,
    number: u64,
    package: &Package<'_>,
) -> Result<(), AllocError>
    ensures { OnOk result (out.new.items ≡ out.old.items
        ++ asked_line (names_in names.now) answer (number, listed_of «package».now)) }
{
    if is_asked(names, package.name()) {
        append_line(out, answer, number, package)
    } else {
        Ok(())
    }
}

/// Appends the line of a package, if it has one.
fn append_line(
    out: &mut Vec<u8>,
    answer: Answer,
    number: u64,
    package: &Package<'_>,
) -> Result<(), AllocError>
    ensures { OnOk result (out.new.items
        ≡ out.old.items ++ answer_line answer (number, listed_of «package».now)) }
{
    match answer {
        Answer::Installable => Ok(()),
        Answer::Uninstallable => append_with(out, b"uninstallable", number, package),
        Answer::Unsure => append_with(out, b"unsure", number, package),
        Answer::Undecided => append_with(out, b"undecided", number, package),
    }
}

/// Appends a line that begins with a word.
fn append_with(
    out: &mut Vec<u8>,
    word: &[u8],
    number: u64,
    package: &Package<'_>,
) -> Result<(), AllocError>
    ensures { OnOk result (out.new.items ≡ out.old.items
        ++ (word.now ++ package_line canonical_version (number, listed_of «package».now))) }
{
    out.extend_from_slice(word)?;
    append_package(out, number, package)
}

/// Appends the line of a package that `query` has for one that it finds.
pub(crate) fn append_package(
    out: &mut Vec<u8>,
    number: u64,
    package: &Package<'_>,
) -> Result<(), AllocError>
    ensures { OnOk result (out.new.items ≡ out.old.items
        ++ package_line canonical_version (number, listed_of «package».now)) }
{
    append_words(out, number, package)?;
    out.push(b'\n')?;
    Ok(())
}

/// Appends the number, the name, the version and the architecture of a package, each after a space.
pub(crate) fn append_words(
    out: &mut Vec<u8>,
    number: u64,
    package: &Package<'_>,
) -> Result<(), AllocError>
    ensures { OnOk result (out.new.items ≡ out.old.items
        ++ package_words (number, listed_of «package».now)) }
{
    let mut buffer = Buffer::new();
    append_spaced(out, buffer.format(number).as_bytes())?;
    append_spaced(out, package.name())?;
    append_spaced(out, package.version())?;
    append_spaced(out, package.architecture())
}
