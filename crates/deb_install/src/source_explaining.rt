//! The lines of source packages, with reasons.

ghost use Rattle.std.specs.Prelude.{◌≡◌, ◌+◌, length, IfOk, OnOk, map};
ghost use Rattle.deb_control.specs.Documents.{Meaning};
ghost use Rattle.deb_index.specs.Indexes.{packages_of};
ghost use Rattle.deb_install.specs.Answers.{answer_at};
ghost use Rattle.deb_install.specs.Explaining.{AppendsExplained, Explain};
ghost use Rattle.deb_install.specs.SourceExplaining.{HasSourcesExplained, HoldsForSources, setting_for};
ghost use Rattle.deb_install.specs.SourceExplaining.{source_fact_lines, source_reason_of, universe_for};
ghost use Rattle.deb_install.specs.SourceReasonLines.{source_reason_lines};
ghost use Rattle.deb_install.specs.declared.source_kind.SourceKind.{SourceKind};

use crate::answer::{Answer, answer_at};
use crate::explaining::{Explaining, facts_of};
use crate::kept_source::KeptSource;
use crate::source_lines::append_answer;
use crate::source_reason_lines::append_source_facts;
use deb_solve::{Fact, Reasoner, Verdict};
use std::alloc::{AllocError, Global};

/// What source packages are explained by.
#[derive(Clone, Copy)]
pub(crate) struct SourceExplaining<'a> {
    /// The packages, and a universe of them and then of the source packages.
    pub(crate) packages: &'a Explaining<'a>,
    /// What is kept of the source packages.
    pub(crate) sources: &'a [KeptSource],
}

/// Returns the lines of source packages, by verdicts in every reading and in one, with reasons.
pub(crate) fn explained_sources(
    alloc: Global,
    explaining: &SourceExplaining<'_>,
    every: &[Verdict],
    one: &[Verdict],
) -> Result<Vec<u8>, AllocError>
    ensures { (kind : SourceKind) (meaning others : Meaning)
        → HoldsForSources kind meaning others explaining.now → IfOk result (λ text.
        HasSourcesExplained kind (setting_for explaining.now meaning) others
        (universe_for explaining.now) (answer_at every.now one.now) text.items) }
{
    let mut reasoner = Reasoner::new(alloc, explaining.packages.universe)?;
    let mut text = Vec::new(alloc);
    for count in 0..explaining.sources.len() {
        let answer = answer_at(every, one, count);
        let number = count as u64 + 1;
        append_answer(&mut text, answer, number, &explaining.sources[count])?;
        append_explained(alloc, &mut text, &mut reasoner, explaining, answer, number)?;
    }
    Ok(text)
}

/// Appends the reasons of the source package with this number, if it is uninstallable.
fn append_explained(
    alloc: Global,
    out: &mut Vec<u8>,
    reasoner: &mut Reasoner,
    explaining: &SourceExplaining<'_>,
    answer: Answer,
    number: u64,
) -> Result<(), AllocError>
    ensures { (kind : SourceKind) (meaning others : Meaning)
        → HoldsForSources kind meaning others explaining.now → OnOk result
        (AppendsExplained (universe_for explaining.now)
        (length (packages_of explaining.now.packages.now.listing.now.index.now) + number)
        (λ found. source_reason_lines kind
        (packages_of explaining.now.packages.now.listing.now.index.now) others answer
        (map (source_reason_of (setting_for explaining.now meaning) others
        (universe_for explaining.now)) found)) out.old.items out.new.items) }
{
    match answer {
        Answer::Uninstallable => append_reasons(alloc, out, reasoner, explaining, number),
        _ => Ok(()),
    }
}

/// Appends the reasons of the source package with this number.
fn append_reasons(
    alloc: Global,
    out: &mut Vec<u8>,
    reasoner: &mut Reasoner,
    explaining: &SourceExplaining<'_>,
    number: u64,
) -> Result<(), AllocError>
    ensures { (kind : SourceKind) (meaning others : Meaning)
        → HoldsForSources kind meaning others explaining.now → OnOk result
        (AppendsExplained (universe_for explaining.now)
        (length (packages_of explaining.now.packages.now.listing.now.index.now) + number)
        (source_fact_lines kind (setting_for explaining.now meaning) others
        (universe_for explaining.now)) out.old.items out.new.items) }
{
    let facts = facts_of_source(alloc, reasoner, explaining.packages, number)?;
    append_source_facts(alloc, out, explaining, &facts)
}

/// Returns facts that rule out the source package with this number, which comes after the packages;
/// none if the search finds none.
fn facts_of_source(
    alloc: Global,
    reasoner: &mut Reasoner,
    packages: &Explaining<'_>,
    number: u64,
) -> Result<Vec<Fact>, AllocError>
    ensures { IfOk result (λ found. Explain packages.now.universe.now
        (length (packages_of packages.now.listing.now.index.now) + number) found.items) }
{
    match (packages.listing.index.len() as u64).checked_add(number) {
        Some(place) => facts_of(alloc, reasoner, packages, place),
        None => Ok(Vec::new(alloc)),
    }
}
