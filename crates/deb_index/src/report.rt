//! Reports: which groups of a relation the packages of an index meet. `report_text` writes them.

ghost use Rattle.std.specs.Prelude.{◌≡◌, ◌++◌, ◌==◌, [], ◌∷◌, IfOk, OnOk, cond, length, not};
ghost use Rattle.std.specs.List.{list_all};
ghost use Rattle.deb_relation.specs.Environments.{environment_of};
ghost use Rattle.deb_relation.specs.Meaning.{Relation as Meaning};
ghost use Rattle.deb_index.specs.AnswerStores.{HasAnswers};
ghost use Rattle.deb_index.specs.CanonicalTexts.{IsCanonical, OfGroup, OfRelation};
ghost use Rattle.deb_index.specs.Indexes.{counts_of, packages_of, spellings_of};
ghost use Rattle.deb_index.specs.Named.{AreNumbers};
ghost use Rattle.deb_index.specs.Reports.{all_met, group_verdict, is_unmet, report};

use crate::answer::Answers;
use crate::answer_store::{AnswerSpan, AnswerStore};
use crate::candidates::numbers_meeting;
use crate::index::Index;
use crate::pieces::cut_group;
use crate::verdict::Verdict;
use deb_relation::Env;
use std::alloc::{AllocError, Global};

/// The report of an index on a relation: for each of its groups, in their order, whether it is met
/// and by which packages (Debian Policy 7.1).
#[derive(Debug, Drop)]
pub struct Report<'a> {
    pub(crate) index: &'a Index,
    pub(crate) answers: AnswerStore,
    ghost listed: { AreNumbers (packages_of index.now) answers.numbers.items },
}

impl<'a> Report<'a> {
    ghost use Rattle.deb_index.specs.Reported.{answers_left, report_of};
    ghost use Rattle.deb_index.specs.ShownVersions.{counts_reported, spellings_reported};

    /// Returns the answer for each group, in the order of the groups' canonical texts.
    pub fn answers(&self) -> Answers<'_>
        ensures { answers_left result ≡ report_of self.now }
    {
        Answers {
            index: self.index,
            texts: &self.answers.texts,
            numbers: &self.answers.numbers,
            spans: &self.answers.spans,
        }
    }

    /// Returns whether no group is unmet.
    pub fn all_met(&self) -> bool
        ensures { result ≡ all_met (report_of self.now) }
    {
        none_unmet(&self.answers.spans)
    }

    /// Returns the answers for the groups of the relation with a canonical text, over the packages
    /// of an index.
    pub(crate) fn of(
        alloc: Global,
        index: &'a Index,
        text: &[u8],
        environment: &Env,
    ) -> Result<Report<'a>, AllocError>
        requires { IsCanonical text.now }
        ensures report { OfRelation text.now (λ m. IfOk result
            (λ reported. report_of reported ≡ report (packages_of index.now) m
            (environment_of environment.now))) }
        ensures spellings { IfOk result
            (λ reported. spellings_reported reported ≡ spellings_of index.now) }
        ensures counts { IfOk result
            (λ reported. counts_reported reported ≡ counts_of index.now) }
    {
        let mut answers = AnswerStore::with_capacity(alloc, text.len())?;
        let mut rest = text;
        while !rest.is_empty() {
            let (group, others) = cut_group(rest);
            append_answer(alloc, index, group, environment, &mut answers)?;
            rest = others;
        }
        Ok(Report { index, answers })
    }
}

/// Appends the answer for the group with a canonical text, over the packages of an index, and
/// returns the verdict.
pub(crate) fn append_answer(
    alloc: Global,
    index: &Index,
    group: &[u8],
    environment: &Env,
    answers: &mut AnswerStore,
) -> Result<Verdict, AllocError>
    ensures verdict { OfGroup group.now (λ g. IfOk result
        (λ verdict. verdict ≡ group_verdict (environment_of environment.now)
        (packages_of index.now) g)) }
    ensures appended { OfGroup group.now (λ g. (groups : Meaning)
        → HasAnswers (environment_of environment.now) (packages_of index.now) groups answers.old
        → OnOk result (HasAnswers (environment_of environment.now) (packages_of index.now)
        (groups ++ g ∷ []) answers.new)) }
{
    let (applies, numbers) = numbers_meeting(alloc, index, group, environment)?;
    let verdict = verdict_of(applies, &numbers);
    answers.push(group, verdict, &numbers)?;
    Ok(verdict)
}

/// Returns the verdict on a group, given whether an alternative applies and the numbers of the
/// packages that meet it.
fn verdict_of(applies: bool, numbers: &[u64]) -> Verdict
    ensures { result ≡ cond applies
        (cond (length numbers.now == 0) Verdict.Unmet Verdict.Met) Verdict.Ignored }
{
    if !applies {
        Verdict::Ignored
    } else if numbers.is_empty() {
        Verdict::Unmet
    } else {
        Verdict::Met
    }
}

fn none_unmet(answers: &[AnswerSpan]) -> bool
    ensures { result ≡ list_all (λ answer. not (is_unmet answer.verdict)) answers.now }
{
    answers
        .iter()
        .all(|answer| !matches!(answer.verdict, Verdict::Unmet))
}
