//! The lines of the packages of an index, with reasons.

ghost use Rattle.std.specs.Prelude.{[], IfOk, OnOk, cond, map};
ghost use Rattle.deb_control.specs.Documents.{Meaning};
ghost use Rattle.deb_health.specs.Lines.{line_at};
ghost use Rattle.deb_index.specs.Indexes.{packages_of};
ghost use Rattle.deb_install.specs.Answers.{answer_at, is_asked, names_in};
ghost use Rattle.deb_install.specs.Explaining.{AppendsExplained, Explain, HasExplained, HoldsFor};
ghost use Rattle.deb_install.specs.Explaining.{fact_lines, reason_of};
ghost use Rattle.deb_install.specs.ReasonLines.{reason_lines};
ghost use Rattle.deb_install.specs.Universes.{setting_of};

use crate::answer::{Answer, Names, answer_at, append_answer, is_asked};
use crate::kept::KeptMember;
use crate::reason_lines::append_facts;
use crate::universe::Listing;
use deb_solve::{Budget, Fact, Reasoner, Universe, Verdict};
use std::alloc::{AllocError, Global};

/// What packages are explained by.
#[derive(Clone, Copy)]
pub(crate) struct Explaining<'a> {
    /// The packages, in one reading.
    pub(crate) listing: &'a Listing<'a>,
    /// What is kept of them.
    pub(crate) kept: &'a [KeptMember],
    /// The names of the essential packages, if they are asked.
    pub(crate) essential: &'a [&'a [u8]],
    /// What the packages need and exclude.
    pub(crate) universe: &'a Universe,
    /// The names of those that are asked.
    pub(crate) names: Names<'a>,
    pub(crate) budget: Budget,
}

/// Returns the lines of the packages that are asked, by verdicts in every reading and in one, with
/// reasons.
pub(crate) fn explained_lines(
    alloc: Global,
    explaining: &Explaining<'_>,
    every: &[Verdict],
    one: &[Verdict],
) -> Result<Vec<u8>, AllocError>
    ensures { (meaning : Meaning) → HoldsFor meaning explaining.now → IfOk result (λ text.
        HasExplained (setting_of explaining.now.listing.now meaning) explaining.now.universe.now
        (names_in explaining.now.names) (answer_at every.now one.now) text.items) }
{
    let mut reasoner = Reasoner::new(alloc, explaining.universe)?;
    let mut text = Vec::new(alloc);
    let index = explaining.listing.index;
    for count in 0..index.len() {
        let answer = answer_at(every, one, count + 1);
        let number = count as u64 + 1;
        append_answer(&mut text, &explaining.names, answer, index, number)?;
        append_explained(alloc, &mut text, &mut reasoner, explaining, answer, number)?;
    }
    Ok(text)
}

/// Appends the reasons of the package with this number, if it is asked and uninstallable.
fn append_explained(
    alloc: Global,
    out: &mut Vec<u8>,
    reasoner: &mut Reasoner,
    explaining: &Explaining<'_>,
    answer: Answer,
    number: u64,
) -> Result<(), AllocError>
    ensures { (meaning : Meaning) → HoldsFor meaning explaining.now → OnOk result
        (AppendsExplained explaining.now.universe.now number (λ found. line_at
        (λ p. cond (is_asked (names_in explaining.now.names) p.1.name) (reason_lines
        (packages_of explaining.now.listing.now.index.now) answer (map (reason_of
        (setting_of explaining.now.listing.now meaning) explaining.now.universe.now) found)) [])
        (packages_of explaining.now.listing.now.index.now) number) out.old.items
        out.new.items) }
{
    match answer {
        Answer::Uninstallable => append_if_asked(alloc, out, reasoner, explaining, number),
        _ => Ok(()),
    }
}

/// Appends the reasons of the package with this number, if it is asked.
fn append_if_asked(
    alloc: Global,
    out: &mut Vec<u8>,
    reasoner: &mut Reasoner,
    explaining: &Explaining<'_>,
    number: u64,
) -> Result<(), AllocError>
    ensures { (meaning : Meaning) → HoldsFor meaning explaining.now → OnOk result
        (AppendsExplained explaining.now.universe.now number (λ found. line_at
        (λ p. cond (is_asked (names_in explaining.now.names) p.1.name) (fact_lines
        (setting_of explaining.now.listing.now meaning) explaining.now.universe.now found) [])
        (packages_of explaining.now.listing.now.index.now) number) out.old.items
        out.new.items) }
{
    match explaining.listing.index.package(number) {
        Some(package) if is_asked(&explaining.names, package.name()) => {
            append_reasons(alloc, out, reasoner, explaining, number)
        }
        _ => Ok(()),
    }
}

/// Appends the reasons of the package with this number.
fn append_reasons(
    alloc: Global,
    out: &mut Vec<u8>,
    reasoner: &mut Reasoner,
    explaining: &Explaining<'_>,
    number: u64,
) -> Result<(), AllocError>
    ensures { (meaning : Meaning) → HoldsFor meaning explaining.now → OnOk result
        (AppendsExplained explaining.now.universe.now number (fact_lines
        (setting_of explaining.now.listing.now meaning) explaining.now.universe.now)
        out.old.items out.new.items) }
{
    let facts = facts_of(alloc, reasoner, explaining, number)?;
    append_facts(alloc, out, explaining, &facts)
}

/// Returns facts that rule out the package with this number; none if the search finds none.
pub(crate) fn facts_of(
    alloc: Global,
    reasoner: &mut Reasoner,
    explaining: &Explaining<'_>,
    number: u64,
) -> Result<Vec<Fact>, AllocError>
    ensures { IfOk result (λ found. Explain explaining.now.universe.now number found.items) }
{
    let Ok(number) = u32::try_from(number) else {
        return Ok(Vec::new(alloc));
    };
    match reasoner.reasons(alloc, explaining.universe, number, explaining.budget)? {
        Some(facts) => Ok(facts),
        None => Ok(Vec::new(alloc)),
    }
}
