//! Queries: which packages of an index meet a relation.

ghost use Rattle.std.specs.Prelude.{◌≡◌, Err, IfErr, IfOk, IsTrue};
ghost use Rattle.deb_relation.specs.Environments.{environment_of};
ghost use Rattle.deb_relation.specs.Relations.{relation_of};
ghost use Rattle.deb_relation.specs.Tests.{some_wildcard};
ghost use Rattle.deb_relation.specs.Texts.{relation_text};
ghost use Rattle.deb_index.specs.Asked.{environment_asked, relation_asked};
ghost use Rattle.deb_index.specs.Indexes.{counts_of, packages_of, spellings_of};
ghost use Rattle.deb_index.specs.Questions.{ReportsOf, wildcard};
ghost use Rattle.deb_index.specs.Reports.{report};
ghost use Rattle.deb_index.specs.Reported.{report_of};
ghost use Rattle.deb_index.specs.ShownVersions.{counts_reported, spellings_reported};

use crate::fault::QueryFault;
use crate::index::Index;
use crate::question::{Question, refusal};
use crate::report::Report;
use deb_base::{Code, Fault};
use deb_relation::{Env, Relation};
use std::alloc::{AllocError, Global};

impl Index {
    /// Reports on a relation in an environment: for each group, in the order of the groups'
    /// canonical texts, whether it is ignored, because none of its alternatives applies; met,
    /// because a package meets one that applies, and by which packages; or unmet (Debian Policy
    /// 7.1).
    ///
    /// # Errors
    ///
    /// `Wildcard` exactly if an architecture list of the relation contains a wildcard, with or
    /// without memory; else out of memory.
    pub fn query(
        &self,
        alloc: Global,
        relation: &Relation<'_>,
        environment: &Env,
    ) -> Result<Report<'_>, QueryFault>
        ensures ok { IfOk result
            (λ reported. report_of reported ≡ report (packages_of self.now)
            (relation_of relation.now) (environment_of environment.now)) }
        ensures spellings { IfOk result
            (λ reported. spellings_reported reported ≡ spellings_of self.now) }
        ensures counts { IfOk result
            (λ reported. counts_reported reported ≡ counts_of self.now) }
        ensures wildcard { IsTrue (some_wildcard (relation_of relation.now))
            → result ≡ Err QueryFault.Wildcard }
        ensures refused { IfErr result
            (λ fault. fault ≡ QueryFault.Wildcard
            → IsTrue (some_wildcard (relation_of relation.now))) }
    {
        if relation.has_wildcard() {
            return Err(QueryFault::Wildcard);
        }
        let text = canonical_text(alloc, relation)?;
        let report = Report::of(alloc, self, &text, environment)?;
        Ok(report)
    }

    /// Reports on a question, as [`Index::query`] does on its relation in its environment.
    ///
    /// # Errors
    ///
    /// - `Fault::Refused`: an architecture list of the relation contains a wildcard. The code is
    ///   22, and the line 0.
    /// - `Fault::Memory`: a growth of memory was refused.
    pub fn ask(&self, alloc: Global, question: &Question<'_>) -> Result<Report<'_>, Fault>
        ensures reports { ReportsOf (packages_of self.now) (relation_asked question.now)
            (environment_asked question.now) result }
        ensures spellings { IfOk result
            (λ reported. spellings_reported reported ≡ spellings_of self.now) }
        ensures counts { IfOk result
            (λ reported. counts_reported reported ≡ counts_of self.now) }
        ensures wildcard { IsTrue (some_wildcard (relation_asked question.now))
            → result ≡ Err (Fault.Refused wildcard) }
    {
        if question.has_wildcard() {
            return Err(refusal(Code::Wildcard));
        }
        let text = question.text(alloc)?;
        let report = Report::of(alloc, self, &text, &question.environment)?;
        Ok(report)
    }
}

fn canonical_text(alloc: Global, relation: &Relation<'_>) -> Result<Vec<u8>, AllocError>
    ensures { IfOk result (λ text. text.items ≡ relation_text (relation_of relation.now)) }
{
    let mut text = Vec::with_capacity(alloc, relation.canon_len() as usize)?;
    relation.canon_into(&mut text)?;
    Ok(text)
}
