//! Reports with reasons: for each group that is unmet or ignored, why it is.

ghost use Rattle.std.specs.Prelude.{◌≡◌, Err, IfErr, IfOk, IsTrue, map};
ghost use Rattle.deb_base.specs.Devices.{write_failures_after, Puts, WriteFaultIffFailed};
ghost use Rattle.deb_relation.specs.Environments.{environment_of};
ghost use Rattle.deb_relation.specs.Tests.{some_wildcard};
ghost use Rattle.deb_index.specs.Asked.{environment_asked, relation_asked};
ghost use Rattle.deb_index.specs.CanonicalTexts.{IsCanonical, OfRelation};
ghost use Rattle.deb_index.specs.Detailed.{DetailsOf, DetailsOfBy, detailed_of, details_left, details_of, first_len};
ghost use Rattle.deb_index.specs.Indexes.{counts_of, packages_of, spellings_of};
ghost use Rattle.deb_index.specs.Questions.{wildcard};
ghost use Rattle.deb_index.specs.Reports.{all_met};
ghost use Rattle.deb_index.specs.Reported.{answer_of};
ghost use Rattle.deb_index.specs.ReportText.{version_shown, with_files};
ghost use Rattle.deb_index.specs.ShownVersions.{counts_detailed, files_by, shown_by, spellings_detailed, version_by};
ghost use Rattle.deb_index.specs.Why.{answer_in, detailed_answer_text, detailed_report_by, detailed_text, detailed_text_by};

use crate::answer::{Answer, Answers};
use crate::answer_store::AnswerStore;
use crate::index::Index;
use crate::pieces::cut_group;
use crate::question::{Question, refusal};
use crate::report::{Report, append_answer};
use crate::report_text::write_answer;
use crate::shown::Versions;
use crate::span::cut;
use crate::why_lines::append_below;
use deb_base::{Code, Fault, Sink, VersionText, put_all};
use deb_relation::Env;
use std::alloc::{AllocError, Global};

/// The answer for a group, and the lines that say why it is unmet or ignored.
#[derive(Clone, Copy, Debug)]
pub struct DetailedAnswer<'a> {
    pub(crate) answer: Answer<'a>,
    pub(crate) reasons: &'a [u8],
}

impl<'a> DetailedAnswer<'a> {
    /// Returns the answer.
    pub fn answer(&self) -> Answer<'a>
        ensures { answer_of result ≡ (detailed_of self.now).answer }
    {
        self.answer
    }

    /// Returns the lines with the reasons, as [`DetailedReport::write`] writes them; empty if the
    /// group is met.
    pub fn reasons(&self) -> &'a [u8]
        ensures { result.now ≡ (detailed_of self.now).reasons }
    {
        self.reasons
    }
}

/// The remaining answers of a report with reasons, in the order of the groups' canonical texts.
#[derive(Clone, Copy, Debug)]
pub struct DetailedAnswers<'a> {
    pub(crate) answers: Answers<'a>,
    pub(crate) reasons: &'a [u8],
    pub(crate) lens: &'a [usize],
}

impl<'a> Iterator for DetailedAnswers<'a> {
    ghost use Rattle.std.specs.Iterator.{item_count, YieldsFirstBy};
    ghost use Rattle.deb_index.specs.Detailed.{details_left};

    type Item = DetailedAnswer<'a>;

    ghost next_gives = { YieldsFirstBy detailed_of details_left };

    ghost remaining = { item_count details_left };

    fn next(&mut self) -> Option<DetailedAnswer<'a>> {
        let answer = self.answers.next()?;
        let (first, lens) = cut(self.lens, 1);
        let (reasons, rest) = cut(self.reasons, first_len(first));
        self.lens = lens;
        self.reasons = rest;
        Some(DetailedAnswer { answer, reasons })
    }
}

/// The first of some lengths, or 0.
fn first_len(lens: &[usize]) -> usize
    ensures { result ≡ first_len lens.now }
{
    match lens {
        [first, ..] => *first,
        [] => 0,
    }
}

/// The report of an index on a relation, with the reasons for which groups are unmet or ignored.
#[derive(Debug, Drop)]
pub struct DetailedReport<'a> {
    pub(crate) report: Report<'a>,
    /// The lines of all groups, one after another.
    pub(crate) reasons: Vec<u8>,
    /// How many bytes of the lines are those of each group.
    pub(crate) lens: Vec<usize>,
}

impl Index {
    /// Reports on a question, as [`Index::ask`] does, and says for each group that is unmet or
    /// ignored why it is.
    ///
    /// # Errors
    ///
    /// - `Fault::Refused`: an architecture list of the relation contains a wildcard. The code is
    ///   22, and the line 0.
    /// - `Fault::Memory`: a growth of memory was refused.
    pub fn ask_why(
        &self,
        alloc: Global,
        question: &Question<'_>,
    ) -> Result<DetailedReport<'_>, Fault>
        ensures reports { DetailsOf (packages_of self.now) (relation_asked question.now)
            (environment_asked question.now) result }
        ensures wildcard { IsTrue (some_wildcard (relation_asked question.now))
            → result ≡ Err (Fault.Refused wildcard) }
    {
        self.ask_why_with(alloc, question, VersionText::Canonical)
    }

    /// Reports as [`Index::ask_why`] does, with this text of each version in the reasons.
    ///
    /// # Errors
    ///
    /// Those of `ask_why`.
    pub fn ask_why_with(
        &self,
        alloc: Global,
        question: &Question<'_>,
        versions: VersionText,
    ) -> Result<DetailedReport<'_>, Fault>
        ensures reports { DetailsOfBy (version_by versions self.now) (packages_of self.now)
            (relation_asked question.now) (environment_asked question.now) result }
        ensures spellings { IfOk result
            (λ reported. spellings_detailed reported ≡ spellings_of self.now) }
        ensures counts { IfOk result
            (λ reported. counts_detailed reported ≡ counts_of self.now) }
        ensures wildcard { IsTrue (some_wildcard (relation_asked question.now))
            → result ≡ Err (Fault.Refused wildcard) }
    {
        let versions = Versions {
            index: self,
            chosen: versions,
            files: false,
        };
        DetailedReport::answering(alloc, versions, question)
    }

    /// Reports as [`Index::ask_why_with`] does. If the index has more than one file, the lines of
    /// packages among the reasons end with the package's file, such as
    /// ` aa (>= 2): 3 aa 1.0 amd64 is earlier @2`.
    ///
    /// # Errors
    ///
    /// Those of `ask_why`.
    pub fn ask_why_with_files(
        &self,
        alloc: Global,
        question: &Question<'_>,
        versions: VersionText,
    ) -> Result<DetailedReport<'_>, Fault>
        ensures reports { DetailsOfBy (files_by versions self.now) (packages_of self.now)
            (relation_asked question.now) (environment_asked question.now) result }
        ensures spellings { IfOk result
            (λ reported. spellings_detailed reported ≡ spellings_of self.now) }
        ensures counts { IfOk result
            (λ reported. counts_detailed reported ≡ counts_of self.now) }
        ensures wildcard { IsTrue (some_wildcard (relation_asked question.now))
            → result ≡ Err (Fault.Refused wildcard) }
    {
        let versions = Versions {
            index: self,
            chosen: versions,
            files: true,
        };
        DetailedReport::answering(alloc, versions, question)
    }
}

impl<'a> DetailedReport<'a> {
    /// Returns the answer for each group with its reasons, in the order of the groups' canonical
    /// texts.
    pub fn answers(&self) -> DetailedAnswers<'_>
        ensures { details_left result ≡ details_of self.now }
    {
        DetailedAnswers {
            answers: self.report.answers(),
            reasons: &self.reasons,
            lens: &self.lens,
        }
    }

    /// Returns whether no group is unmet.
    pub fn all_met(&self) -> bool
        ensures { result ≡ all_met (map answer_in (details_of self.now)) }
    {
        self.report.all_met()
    }

    /// Writes the report as [`crate::Report::write`] does, and below the line of each group that
    /// is unmet or ignored the lines that say why, in the order of its alternatives.
    ///
    /// - Below `unmet`, for an alternative that applies: a line for each package that has or
    ///   provides its name, such as ` aa (>= 2): 3 aa 1.0 amd64 is earlier`, or
    ///   ` aa (>= 2): no package has this name`.
    /// - For an alternative whose architecture list has no `!` and doesn't contain the target: a
    ///   line for each item with a hyphen, such as
    ///   ` aa [linux-amd64]: linux-amd64 isn't the target amd64`.
    ///
    /// Takes no memory.
    ///
    /// # Errors
    ///
    /// `Fault::Write` only: a write failed in this call, and a prefix of the report was written
    /// before it.
    pub fn write<W: Sink>(&self, out: &mut W) -> Result<(), Fault>
        ensures written { Puts (W.held out.old) (W.held out.new) result
            (detailed_text (details_of self.now)) }
        ensures fault { IfErr result (λ fault. fault ≡ Fault.Write) }
        ensures counts_failure { W.failures out.new ≡ write_failures_after (W.failures out.old)
            result }
        ensures fault_iff_write_failed { WriteFaultIffFailed (W.failures out.old)
            (W.failures out.new) result }
    {
        self.write_with(VersionText::Canonical, out)
    }

    /// Writes the report as [`DetailedReport::write`] does, with this text of each version below
    /// the line of a group that is met. The reasons have the text for which
    /// [`Index::ask_why_with`] was asked.
    ///
    /// # Errors
    ///
    /// `Fault::Write` only: a write failed in this call, and a prefix of the report was written
    /// before it.
    pub fn write_with<W: Sink>(&self, versions: VersionText, out: &mut W) -> Result<(), Fault>
        ensures written { Puts (W.held out.old) (W.held out.new) result
            (detailed_text_by (version_shown versions (spellings_detailed self.now))
            (details_of self.now)) }
        ensures fault { IfErr result (λ fault. fault ≡ Fault.Write) }
        ensures counts_failure { W.failures out.new ≡ write_failures_after (W.failures out.old)
            result }
        ensures fault_iff_write_failed { WriteFaultIffFailed (W.failures out.old)
            (W.failures out.new) result }
    {
        let versions = Versions {
            index: self.report.index,
            chosen: versions,
            files: false,
        };
        write_all(self.answers(), versions, out)
    }

    /// Writes the report as [`DetailedReport::write_with`] does. If the index has more than one
    /// file, the line of a package below that of a met group ends with its file, as by
    /// [`Report::write_with_files`]. The reasons name files if [`Index::ask_why_with_files`] was
    /// asked.
    ///
    /// # Errors
    ///
    /// `Fault::Write` only: a write failed in this call, and a prefix of the report was written
    /// before it.
    pub fn write_with_files<W: Sink>(&self, versions: VersionText, out: &mut W) -> Result<(), Fault>
        ensures written { Puts (W.held out.old) (W.held out.new) result
            (detailed_text_by (with_files (counts_detailed self.now)
            (version_shown versions (spellings_detailed self.now))) (details_of self.now)) }
        ensures fault { IfErr result (λ fault. fault ≡ Fault.Write) }
        ensures counts_failure { W.failures out.new ≡ write_failures_after (W.failures out.old)
            result }
        ensures fault_iff_write_failed { WriteFaultIffFailed (W.failures out.old)
            (W.failures out.new) result }
    {
        let versions = Versions {
            index: self.report.index,
            chosen: versions,
            files: true,
        };
        write_all(self.answers(), versions, out)
    }

    /// Reports on a question, as [`Index::ask_why`] does.
    fn answering(
        alloc: Global,
        versions: Versions<'a>,
        question: &Question<'_>,
    ) -> Result<DetailedReport<'a>, Fault>
        ensures reports { DetailsOfBy (shown_by versions.entry)
            (packages_of versions.entry.index.now) (relation_asked question.now)
            (environment_asked question.now) result }
        ensures spellings { IfOk result (λ reported. spellings_detailed reported
            ≡ spellings_of versions.entry.index.now) }
        ensures counts { IfOk result
            (λ reported. counts_detailed reported ≡ counts_of versions.entry.index.now) }
        ensures wildcard { IsTrue (some_wildcard (relation_asked question.now))
            → result ≡ Err (Fault.Refused wildcard) }
    {
        if question.has_wildcard() {
            return Err(refusal(Code::Wildcard));
        }
        let text = question.text(alloc)?;
        let report = DetailedReport::of(alloc, versions, &text, &question.environment)?;
        Ok(report)
    }

    /// Returns the answers for the groups of the relation with a canonical text, over the packages
    /// of an index, with their reasons.
    fn of(
        alloc: Global,
        versions: Versions<'a>,
        text: &[u8],
        environment: &Env,
    ) -> Result<DetailedReport<'a>, AllocError>
        requires { IsCanonical text.now }
        ensures details { OfRelation text.now (λ m. IfOk result
            (λ reported. details_of reported ≡ detailed_report_by (shown_by versions.entry)
            (packages_of versions.entry.index.now) m (environment_of environment.now))) }
        ensures spellings { IfOk result (λ reported. spellings_detailed reported
            ≡ spellings_of versions.entry.index.now) }
        ensures counts { IfOk result
            (λ reported. counts_detailed reported ≡ counts_of versions.entry.index.now) }
    {
        let index = versions.index;
        let mut answers = AnswerStore::with_capacity(alloc, text.len())?;
        let mut reasons = Vec::new(alloc);
        let mut lens = Vec::new(alloc);
        let mut rest = text;
        while !rest.is_empty() {
            let (group, others) = cut_group(rest);
            let verdict = append_answer(alloc, index, group, environment, &mut answers)?;
            lens.push(append_below(alloc, versions, group, environment, verdict, &mut reasons)?)?;
            rest = others;
        }
        let report = Report { index, answers };
        Ok(DetailedReport {
            report,
            reasons,
            lens,
        })
    }
}

fn write_all<W: Sink>(
    answers: DetailedAnswers<'_>,
    versions: Versions<'_>,
    out: &mut W,
) -> Result<(), Fault>
    ensures written { Puts (W.held out.old) (W.held out.new) result
        (detailed_text_by (shown_by versions.entry) (details_left answers.entry)) }
    ensures fault { IfErr result (λ fault. fault ≡ Fault.Write) }
    ensures counts_failure { W.failures out.new ≡ write_failures_after (W.failures out.old) result }
{
    for answer in answers {
        write_one(&answer, versions, out)?;
    }
    Ok(())
}

/// Writes what the report has of a group, and then the reasons.
#[tactic(auto, using(deb_base::proofs::Writes::puts))]
fn write_one<W: Sink>(
    answer: &DetailedAnswer<'_>,
    versions: Versions<'_>,
    out: &mut W,
) -> Result<(), Fault>
    ensures written { Puts (W.held out.old) (W.held out.new) result
        (detailed_answer_text (shown_by versions.entry) (detailed_of answer.now)) }
    ensures fault { IfErr result (λ fault. fault ≡ Fault.Write) }
    ensures counts_failure { W.failures out.new ≡ write_failures_after (W.failures out.old) result }
{
    write_answer(&answer.answer, versions, out)?;
    put_all(out, answer.reasons)
}
