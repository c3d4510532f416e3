//! Reports on an index in memory.

ghost use Rattle.std.specs.Prelude.{◌≡◌, ◌-◌, ◌++◌, ◌∷◌, [], length, IfErr, IfOk, Some};
ghost use Rattle.deb_base.specs.Faults.{RefusedOrMemory};
ghost use Rattle.deb_base.specs.declared.doc.Doc.{Doc};
ghost use Rattle.deb_control.specs.Documents.{refusal_of};
ghost use Rattle.deb_index.specs.Asked.{environment_asked, relation_asked};
ghost use Rattle.deb_index.specs.Detailed.{details_of};
ghost use Rattle.deb_index.specs.Files.{ListsAfter};
ghost use Rattle.deb_index.specs.FirstLines.{first_lines};
ghost use Rattle.deb_index.specs.Indexes.{counts_of, lines_of, packages_of};
ghost use Rattle.deb_index.specs.Listing.{ListsAll};
ghost use Rattle.deb_index.specs.Questions.{question, RefusesQuery};
ghost use Rattle.deb_index.specs.Without.{counts_left, left_beside, without};
ghost use Rattle.deb_index.specs.declared.members.Members.TheVariants.{All};
ghost use Rattle.deb_index.specs.ReportText.{report_text_by};
ghost use Rattle.deb_index.specs.Reported.{report_of};
ghost use Rattle.deb_index.specs.ShownVersions.{counts_detailed, counts_reported};
ghost use Rattle.deb_index.specs.Why.{detailed_text_by};
ghost use Rattle.deb_relation.specs.Views.{names_of};
ghost use Rattle.debctl_ffi.specs.Queries.{RefusesAsked, RefusesKept, ReportsKept, ReportsOn, ReportsOver, in_files, kept_by};

use deb_base::{Fault, SliceSource, VecSink, VersionText};
use deb_index::{DetailedReport, Index, Question, Report};
use std::alloc::{AllocError, Global};

/// How much a report says.
#[derive(Clone, Copy)]
pub(crate) enum Detail {
    /// Whether each group is met, and by which packages.
    Verdicts,
    /// Also why a group is unmet or ignored.
    Reasons,
}

/// The report of a relation on an index, and whether no group is unmet. Else a refusal: of the
/// relation; else of the target or a profile; else of the index; else of a wildcard in an
/// architecture list. Or out of memory.
pub(crate) fn report_on(
    alloc: Global,
    detail: Detail,
    target: &[u8],
    profiles: &[&[u8]],
    relation: &[u8],
    index: &[u8],
) -> Result<(bool, Vec<u8>), Fault>
    ensures ok { IfOk result
        (λ answer. ReportsOn detail (question target.now (names_of profiles.now) relation.now)
        index.now answer.0 answer.1.items) }
    ensures fault { IfErr result
        (λ fault. RefusedOrMemory fault
        (RefusesQuery All (question target.now (names_of profiles.now) relation.now)
        index.now)) }
{
    let question = Question::parse(alloc, target, profiles, relation)?;
    let index = read_index(alloc, index)?;
    report_over(alloc, detail, &index, &question)
}

/// The report of a relation on an index that is read, of one file or several, and whether no group
/// is unmet. Else a refusal: of the relation; else of the target or a profile; else of a wildcard.
/// Or out of memory.
pub(crate) fn report_in(
    alloc: Global,
    detail: Detail,
    target: &[u8],
    profiles: &[&[u8]],
    relation: &[u8],
    index: &Index,
) -> Result<(bool, Vec<u8>), Fault>
    ensures ok { IfOk result
        (λ answer. ReportsKept detail (question target.now (names_of profiles.now) relation.now)
        (kept_by index.now) answer.0 answer.1.items) }
    ensures fault { IfErr result
        (λ fault. RefusedOrMemory fault
        (RefusesKept (question target.now (names_of profiles.now) relation.now))) }
{
    let question = Question::parse(alloc, target, profiles, relation)?;
    report_over(alloc, detail, index, &question)
}

/// The report of a question to an index, and whether no group is unmet. Else the refusal of a
/// wildcard in an architecture list, or out of memory.
fn report_over(
    alloc: Global,
    detail: Detail,
    index: &Index,
    question: &Question<'_>,
) -> Result<(bool, Vec<u8>), Fault>
    ensures ok { IfOk result
        (λ answer. ReportsOver detail (kept_by index.now) (relation_asked question.now)
        (environment_asked question.now) answer.0 answer.1.items) }
    ensures fault { IfErr result
        (λ fault. RefusedOrMemory fault (RefusesAsked (relation_asked question.now))) }
{
    match detail {
        Detail::Verdicts => verdicts_over(alloc, index, question),
        Detail::Reasons => reasons_over(alloc, index, question),
    }
}

/// The report without reasons.
fn verdicts_over(
    alloc: Global,
    index: &Index,
    question: &Question<'_>,
) -> Result<(bool, Vec<u8>), Fault>
    ensures ok { IfOk result
        (λ answer. ReportsOver Detail.Verdicts (kept_by index.now) (relation_asked question.now)
        (environment_asked question.now) answer.0 answer.1.items) }
    ensures fault { IfErr result
        (λ fault. RefusedOrMemory fault (RefusesAsked (relation_asked question.now))) }
{
    let report = index.ask(alloc, question)?;
    let text = text_of(alloc, &report)?;
    Ok((report.all_met(), text))
}

/// The report with reasons.
#[tactic(auto, using(deb_index::proofs::Reasoned::changes_no_answer))]
fn reasons_over(
    alloc: Global,
    index: &Index,
    question: &Question<'_>,
) -> Result<(bool, Vec<u8>), Fault>
    ensures ok { IfOk result
        (λ answer. ReportsOver Detail.Reasons (kept_by index.now) (relation_asked question.now)
        (environment_asked question.now) answer.0 answer.1.items) }
    ensures fault { IfErr result
        (λ fault. RefusedOrMemory fault (RefusesAsked (relation_asked question.now))) }
{
    let report = index.ask_why_with_files(alloc, question, VersionText::Canonical)?;
    let text = detailed_text_of(alloc, &report)?;
    Ok((report.all_met(), text))
}

/// Reads an index in memory.
pub(crate) fn read_index(alloc: Global, text: &[u8]) -> Result<Index, Fault>
    ensures ok { IfOk result (λ index. ListsAll text.now (packages_of index)) }
    ensures lines { IfOk result (λ index. lines_of index ≡ first_lines text.now) }
    ensures counts { IfOk result
        (λ index. counts_of index ≡ length (packages_of index) ∷ []) }
    ensures fault { IfErr result
        (λ fault. RefusedOrMemory fault
        (λ refusal. refusal_of Doc.Packages text.now ≡ Some refusal)) }
{
    match Index::read(alloc, &mut SliceSource::new(text)) {
        Ok(index) => Ok(index),
        Err(Fault::Refused(refusal)) => Err(Fault::Refused(refusal)),
        Err(Fault::Memory) => Err(Fault::Memory),
        Err(Fault::Read | Fault::Write) => unreachable!(),
    }
}

/// Reads one more file in memory, whose packages follow those of an index.
pub(crate) fn read_more(alloc: Global, index: Index, text: &[u8]) -> Result<Index, Fault>
    ensures ok { IfOk result
        (λ more. ListsAfter All text.now (packages_of index) (packages_of more)) }
    ensures lines { IfOk result
        (λ more. lines_of more ≡ lines_of index ++ first_lines text.now) }
    ensures counts { IfOk result (λ more. counts_of more ≡ counts_of index
        ++ (length (packages_of more) - length (packages_of index)) ∷ []) }
    ensures fault { IfErr result
        (λ fault. RefusedOrMemory fault
        (λ refusal. refusal_of Doc.Packages text.now ≡ Some refusal)) }
{
    match index.read_more(alloc, &mut SliceSource::new(text)) {
        Ok(index) => Ok(index),
        Err(Fault::Refused(refusal)) => Err(Fault::Refused(refusal)),
        Err(Fault::Memory) => Err(Fault::Memory),
        Err(Fault::Read | Fault::Write) => unreachable!(),
    }
}

/// An index without the packages of these names, or out of memory.
pub(crate) fn without(alloc: Global, index: Index, names: &[&[u8]]) -> Result<Index, Fault>
    ensures packages { IfOk result
        (λ left. packages_of left ≡ without (names_of names.now) (packages_of index)) }
    ensures lines { IfOk result (λ left. lines_of left
        ≡ left_beside (names_of names.now) (packages_of index) (lines_of index)) }
    ensures counts { IfOk result (λ left. counts_of left
        ≡ counts_left (names_of names.now) (counts_of index) (packages_of index)) }
    ensures memory { IfErr result (λ fault. fault ≡ Fault.Memory) }
{
    match index.without(alloc, names) {
        Ok(left) => Ok(left),
        Err(AllocError) => Err(Fault::Memory),
    }
}

/// The text of a report, or out of memory.
fn text_of(alloc: Global, report: &Report<'_>) -> Result<Vec<u8>, Fault>
    ensures ok { IfOk result (λ text. text.items
        ≡ report_text_by (in_files (counts_reported report.now)) (report_of report.now)) }
    ensures memory { IfErr result (λ fault. fault ≡ Fault.Memory) }
{
    let mut sink = VecSink::new(alloc);
    if report
        .write_with_files(VersionText::Canonical, &mut sink)
        .is_err()
    {
        return Err(Fault::Memory);
    }
    Ok(sink.into_bytes())
}

/// The text of a report with reasons, or out of memory.
fn detailed_text_of(alloc: Global, report: &DetailedReport<'_>) -> Result<Vec<u8>, Fault>
    ensures ok { IfOk result (λ text. text.items
        ≡ detailed_text_by (in_files (counts_detailed report.now)) (details_of report.now)) }
    ensures memory { IfErr result (λ fault. fault ≡ Fault.Memory) }
{
    let mut sink = VecSink::new(alloc);
    if report
        .write_with_files(VersionText::Canonical, &mut sink)
        .is_err()
    {
        return Err(Fault::Memory);
    }
    Ok(sink.into_bytes())
}
