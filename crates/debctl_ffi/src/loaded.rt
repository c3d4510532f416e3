//! An index that is read once and asked often: what its memory holds, and the answers from it.

ghost use Rattle.std.specs.Prelude.{◌≡◌, [], ◌∷◌, IfOk};
ghost use Rattle.deb_index.specs.Kept.{listed_of};
ghost use Rattle.deb_index.specs.Named.{has_name, provides};
ghost use Rattle.deb_index.specs.Questions.{question};
ghost use Rattle.deb_relation.specs.Views.{names_of};
ghost use Rattle.deb_unmet.specs.declared.asked.Asked.{Asked};
ghost use Rattle.debctl_ffi.specs.Answers.{HasStatus};
ghost use Rattle.debctl_ffi.specs.Buffers.{buffer};
ghost use Rattle.debctl_ffi.specs.Loads.{package_words};
ghost use Rattle.debctl_ffi.specs.Unmet.{AsksNothing, IsAsked, asker, is_set};

use crate::answer::{Answer, no, no_index, no_kind, no_memory, refused, second_refused, some, yes};
use crate::asker::{asked_of, lines_in, make_environment, plain_question};
use crate::buffer::reply;
use crate::report::{Detail, read_index, read_more, report_in, without};
use deb_base::Fault;
use deb_index::{Index, Package};
use std::alloc::{AllocError, Global};

/// What the memory of a loaded index holds: the index, or none if it wasn't accepted.
#[derive(Drop)]
pub struct Loaded {
    pub(crate) alloc: Global,
    pub(crate) index: Option<Index>,
}

impl Loaded {
    ghost use Rattle.debctl_ffi.specs.Loads.{AsksFile, AsksFiles, AsksNumbers, AsksPackage};
    ghost use Rattle.debctl_ffi.specs.Loads.{AsksQuery, AsksUnmet, HoldsNone, IsLoading};
    ghost use Rattle.debctl_ffi.specs.Loads.{IsLoadingMore, IsWithout, Keeps};

    /// Reads an index. The answer is 0 with the number of packages, 2 with the refusal, or 5.
    pub(crate) fn read(alloc: Global, text: &[u8], answer: &mut Answer) -> Loaded
        ensures { IsLoading text.now answer.new result }
    {
        Loaded::keep(alloc, read_index(alloc, text), answer)
    }

    /// The answer of [`crate::more::deb_index_read_more`], and what is loaded then.
    pub(crate) fn read_more(self, text: &[u8], answer: &mut Answer) -> Loaded
        ensures { IsLoadingMore text.now answer.new self result }
    {
        let alloc = self.alloc;
        match self.index {
            Some(index) => Loaded::keep(alloc, read_more(alloc, index, text), answer),
            None => Loaded::none(alloc, no_index(), answer),
        }
    }

    /// The answer of [`crate::more::deb_index_without`], and what is loaded then.
    pub(crate) fn without(self, names: &[&[u8]], answer: &mut Answer) -> Loaded
        ensures { IsWithout (names_of names.now) answer.new self result }
    {
        let alloc = self.alloc;
        match self.index {
            Some(index) => Loaded::keep(alloc, without(alloc, index, names), answer),
            None => Loaded::none(alloc, no_index(), answer),
        }
    }

    /// Loads an index that was made. The answer is 0 with the number of packages; else 2 with the
    /// refusal, or 5, and nothing is loaded.
    fn keep(alloc: Global, made: Result<Index, Fault>, answer: &mut Answer) -> Loaded
        ensures { Keeps made answer.new result }
    {
        match made {
            Ok(index) => {
                *answer = yes(index.len() as u64);
                Loaded {
                    alloc,
                    index: Some(index),
                }
            }
            Err(Fault::Refused(refusal)) => Loaded::none(alloc, refused(&refusal), answer),
            Err(_) => Loaded::none(alloc, no_memory(), answer),
        }
    }

    /// Loads nothing, with this answer.
    fn none(alloc: Global, told: Answer, answer: &mut Answer) -> Loaded
        ensures told { answer.new ≡ told }
        ensures none { HoldsNone result }
    {
        *answer = told;
        Loaded { alloc, index: None }
    }

    /// The answer of [`crate::more::deb_index_file`].
    pub(crate) fn file_of(&self, number: u64, file: &mut usize) -> Answer
        ensures answers { AsksFile number self.now file.new result }
        ensures none_held { HoldsNone self.now → result.status ≡ 7 }
        ensures status { HasStatus result.status (0 ∷ 1 ∷ 7 ∷ []) }
    {
        *file = 0;
        let Some(index) = &self.index else {
            return no_index();
        };
        let Some(place) = index.file_of(number) else {
            return no();
        };
        *file = place;
        yes(0)
    }

    /// The answer of [`crate::index::deb_index_query`].
    pub(crate) fn query(
        &self,
        target: &[u8],
        profiles: &[&[u8]],
        relation: &[u8],
        out: &mut [u8],
        len: &mut usize,
    ) -> Answer
        ensures answers { AsksQuery Detail.Verdicts
            (question target.now (names_of profiles.now) relation.now) self.now
            (buffer out.old out.new len.new) result }
        ensures files { AsksFiles Detail.Verdicts
            (question target.now (names_of profiles.now) relation.now) self.now
            (buffer out.old out.new len.new) result }
        ensures none_held { HoldsNone self.now → result.status ≡ 7 }
        ensures status { HasStatus result.status (0 ∷ 1 ∷ 2 ∷ 4 ∷ 5 ∷ 7 ∷ []) }
    {
        self.report(Detail::Verdicts, target, profiles, relation, out, len)
    }

    /// The answer of [`crate::query_why::deb_index_query_why`].
    pub(crate) fn query_why(
        &self,
        target: &[u8],
        profiles: &[&[u8]],
        relation: &[u8],
        out: &mut [u8],
        len: &mut usize,
    ) -> Answer
        ensures answers { AsksQuery Detail.Reasons
            (question target.now (names_of profiles.now) relation.now) self.now
            (buffer out.old out.new len.new) result }
        ensures files { AsksFiles Detail.Reasons
            (question target.now (names_of profiles.now) relation.now) self.now
            (buffer out.old out.new len.new) result }
        ensures none_held { HoldsNone self.now → result.status ≡ 7 }
        ensures status { HasStatus result.status (0 ∷ 1 ∷ 2 ∷ 4 ∷ 5 ∷ 7 ∷ []) }
    {
        self.report(Detail::Reasons, target, profiles, relation, out, len)
    }

    /// The answer of a query, with or without reasons.
    fn report(
        &self,
        detail: Detail,
        target: &[u8],
        profiles: &[&[u8]],
        relation: &[u8],
        out: &mut [u8],
        len: &mut usize,
    ) -> Answer
        ensures answers { AsksQuery detail
            (question target.now (names_of profiles.now) relation.now) self.now
            (buffer out.old out.new len.new) result }
        ensures files { AsksFiles detail
            (question target.now (names_of profiles.now) relation.now) self.now
            (buffer out.old out.new len.new) result }
        ensures none_held { HoldsNone self.now → result.status ≡ 7 }
        ensures status { HasStatus result.status (0 ∷ 1 ∷ 2 ∷ 4 ∷ 5 ∷ 7 ∷ []) }
    {
        *len = 0;
        let Some(index) = &self.index else {
            return no_index();
        };
        match report_in(self.alloc, detail, target, profiles, relation, index) {
            Ok((true, report)) => reply(yes(0), &report, out, len),
            Ok((false, report)) => reply(no(), &report, out, len),
            Err(Fault::Refused(refusal)) => refused(&refusal),
            Err(_) => no_memory(),
        }
    }

    /// The answer of [`crate::index::deb_index_unmet`].
    #[tactic(auto, using(crate::proofs::AskedNumbers::asks_something))]
    pub(crate) fn unmet(
        &self,
        kind: u8,
        recommends: u8,
        target: &[u8],
        profiles: &[&[u8]],
        file: &[u8],
        out: &mut [u8],
        len: &mut usize,
    ) -> Answer
        ensures answers { AsksUnmet kind (is_set recommends)
            (asker target.now (names_of profiles.now)) file.now self.now
            (buffer out.old out.new len.new) result }
        ensures none_held { (asks : Asked) → IsAsked kind (is_set recommends) asks
            → HoldsNone self.now → result.status ≡ 7 }
        ensures unknown_kind { AsksNothing kind (is_set recommends) → result.status ≡ 6 }
        ensures status { HasStatus result.status (0 ∷ 1 ∷ 2 ∷ 3 ∷ 4 ∷ 5 ∷ 6 ∷ 7 ∷ []) }
    {
        *len = 0;
        let Some(asked) = asked_of(kind, recommends != 0) else {
            return no_kind();
        };
        let Some(index) = &self.index else {
            return no_index();
        };
        let environment = match make_environment(self.alloc, target, profiles) {
            Ok(environment) => environment,
            Err(Fault::Refused(refusal)) => return refused(&refusal),
            Err(_) => return no_memory(),
        };
        let question = plain_question(index, &environment);
        match lines_in(self.alloc, &question, asked, file) {
            Ok((summary, lines)) => {
                if summary.is_empty {
                    reply(yes(summary.paragraphs), &lines, out, len)
                } else {
                    reply(some(summary.paragraphs), &lines, out, len)
                }
            }
            Err(Fault::Refused(refusal)) => second_refused(&refusal),
            Err(_) => no_memory(),
        }
    }

    /// The answer of [`crate::index::deb_index_packages`].
    pub(crate) fn packages(&self, name: &[u8], numbers: &mut [u64], count: &mut usize) -> Answer
        ensures answers { AsksNumbers (has_name name.now) self.now
            (buffer numbers.old numbers.new count.new) result }
        ensures none_held { HoldsNone self.now → result.status ≡ 7 }
        ensures status { HasStatus result.status (0 ∷ 4 ∷ 7 ∷ []) }
    {
        *count = 0;
        let Some(index) = &self.index else {
            return no_index();
        };
        reply(yes(0), index.packages(name), numbers, count)
    }

    /// The answer of [`crate::index::deb_index_providers`].
    pub(crate) fn providers(&self, name: &[u8], numbers: &mut [u64], count: &mut usize) -> Answer
        ensures answers { AsksNumbers (provides name.now) self.now
            (buffer numbers.old numbers.new count.new) result }
        ensures none_held { HoldsNone self.now → result.status ≡ 7 }
        ensures status { HasStatus result.status (0 ∷ 4 ∷ 7 ∷ []) }
    {
        *count = 0;
        let Some(index) = &self.index else {
            return no_index();
        };
        reply(yes(0), index.providers(name), numbers, count)
    }

    /// The answer of [`crate::index::deb_index_package`].
    pub(crate) fn package_at(&self, number: u64, out: &mut [u8], len: &mut usize) -> Answer
        ensures answers { AsksPackage number self.now (buffer out.old out.new len.new) result }
        ensures none_held { HoldsNone self.now → result.status ≡ 7 }
        ensures status { HasStatus result.status (0 ∷ 1 ∷ 4 ∷ 5 ∷ 7 ∷ []) }
    {
        *len = 0;
        let Some(index) = &self.index else {
            return no_index();
        };
        let Some(found) = index.package(number) else {
            return no();
        };
        match words_of(self.alloc, &found) {
            Ok(words) => reply(yes(0), &words, out, len),
            Err(AllocError) => no_memory(),
        }
    }
}

/// The name, the version and the architecture of a package, with a space between.
fn words_of(alloc: Global, found: &Package<'_>) -> Result<Vec<u8>, AllocError>
    ensures { IfOk result (λ words. words.items ≡ package_words (listed_of found.now)) }
{
    let mut words = Vec::new(alloc);
    words.extend_from_slice(found.name())?;
    words.extend_from_slice(b" ")?;
    words.extend_from_slice(found.version())?;
    words.extend_from_slice(b" ")?;
    words.extend_from_slice(found.architecture())?;
    Ok(words)
}

/// Frees what is loaded.
pub(crate) fn discard(loaded: Loaded) {
    drop(loaded);
}
