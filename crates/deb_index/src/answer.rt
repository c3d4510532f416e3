//! Answers for groups: views of what a report keeps.

ghost use Rattle.std.specs.Prelude.{◌≡◌};
ghost use Rattle.deb_index.specs.Indexes.{packages_of};
ghost use Rattle.deb_index.specs.Named.{AreNumbers};

use crate::answer_store::AnswerSpan;
use crate::index::Index;
use crate::package::Package;
use crate::span::cut;
use crate::verdict::Verdict;

/// A listed package that meets a group.
#[derive(Clone, Copy, Debug)]
pub struct Found<'a> {
    pub(crate) number: u64,
    pub(crate) package: Package<'a>,
}

impl<'a> Found<'a> {
    ghost use Rattle.deb_index.specs.Kept.{listed_of};
    ghost use Rattle.deb_index.specs.Reported.{found_of};

    /// Returns its number in the index, counted from 1.
    pub fn number(&self) -> u64
        ensures { result ≡ (found_of self.now).0 }
    {
        self.number
    }

    /// Returns what the index keeps of it.
    pub fn package(&self) -> Package<'a>
        ensures { listed_of result ≡ (found_of self.now).1 }
    {
        self.package
    }
}

/// The remaining packages that meet a group, in ascending order of their numbers.
#[derive(Clone, Copy, Debug)]
pub struct FoundPackages<'a> {
    pub(crate) index: &'a Index,
    pub(crate) numbers: &'a [u64],
    ghost listed: { AreNumbers (packages_of index.now) numbers.now },
}

impl<'a> Iterator for FoundPackages<'a> {
    ghost use Rattle.std.specs.Iterator.{item_count, YieldsFirstBy};
    ghost use Rattle.deb_index.specs.Reported.{found_left, found_of};

    type Item = Found<'a>;

    ghost next_gives = { YieldsFirstBy found_of found_left };

    ghost remaining = { item_count found_left };

    fn next(&mut self) -> Option<Found<'a>> {
        let index = self.index;
        let (&number, numbers) = self.numbers.split_first()?;
        let package = index.numbered(number);
        *self = FoundPackages { index, numbers };
        Some(Found { number, package })
    }
}

/// The answer for a group: its canonical text, the verdict, and the packages that meet it.
#[derive(Clone, Copy, Debug)]
pub struct Answer<'a> {
    pub(crate) text: &'a [u8],
    pub(crate) verdict: Verdict,
    pub(crate) packages: FoundPackages<'a>,
}

impl<'a> Answer<'a> {
    ghost use Rattle.deb_index.specs.Reported.{answer_of, found_left};

    /// Returns the canonical text of the group.
    pub fn text(&self) -> &'a [u8]
        ensures { result.now ≡ (answer_of self.now).text }
    {
        self.text
    }

    /// Returns whether the group is ignored, met or unmet.
    pub fn verdict(&self) -> Verdict
        ensures { result ≡ (answer_of self.now).verdict }
    {
        self.verdict
    }

    /// Returns the listed packages that meet an alternative of the group that applies, in ascending
    /// order of their numbers, without repeats.
    pub fn packages(&self) -> FoundPackages<'a>
        ensures { found_left result ≡ (answer_of self.now).packages }
    {
        self.packages
    }
}

/// The remaining answers of a report, in the order of the groups' canonical texts.
#[derive(Clone, Copy, Debug)]
pub struct Answers<'a> {
    pub(crate) index: &'a Index,
    pub(crate) texts: &'a [u8],
    pub(crate) numbers: &'a [u64],
    pub(crate) spans: &'a [AnswerSpan],
    ghost listed: { AreNumbers (packages_of index.now) numbers.now },
}

impl<'a> Iterator for Answers<'a> {
    ghost use Rattle.std.specs.Iterator.{item_count, YieldsFirstBy};
    ghost use Rattle.deb_index.specs.Reported.{answer_of, answers_left};

    type Item = Answer<'a>;

    ghost next_gives = { YieldsFirstBy answer_of answers_left };

    ghost remaining = { item_count answers_left };

    fn next(&mut self) -> Option<Answer<'a>> {
        let index = self.index;
        let (span, spans) = self.spans.split_first()?;
        let (text, texts) = cut(self.texts, span.text_len as usize);
        let (found, numbers) = cut(self.numbers, span.found_len as usize);
        *self = Answers {
            index,
            texts,
            numbers,
            spans,
        };
        Some(Answer {
            text,
            verdict: span.verdict,
            packages: FoundPackages {
                index,
                numbers: found,
            },
        })
    }
}
