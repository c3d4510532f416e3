//! What a report keeps of its answers: texts, numbers of packages and lengths, in three lists.

ghost use Rattle.std.specs.Prelude.{◌≡◌, [], IfOk, OnOk};
ghost use Rattle.deb_index.specs.AnswerStores.{AppendsAnswer, IsEmpty};

use crate::store::offset;
use crate::verdict::Verdict;
use std::alloc::{AllocError, Global};

/// An answer: how many bytes of the texts and how many of the numbers are its own, after those of
/// the answers before it.
#[derive(Clone, Copy, Debug)]
pub(crate) struct AnswerSpan {
    pub(crate) text_len: u32,
    pub(crate) found_len: u32,
    pub(crate) verdict: Verdict,
}

/// The answers of a report, one after another: the canonical texts of their groups, and the numbers
/// of the packages that meet them.
#[derive(Debug, Drop)]
pub(crate) struct AnswerStore {
    pub(crate) texts: Vec<u8>,
    pub(crate) numbers: Vec<u64>,
    pub(crate) spans: Vec<AnswerSpan>,
}

impl AnswerStore {
    /// No answer, and room for so many bytes of text.
    pub(crate) fn with_capacity(alloc: Global, text_len: usize) -> Result<AnswerStore, AllocError>
        ensures { IfOk result IsEmpty }
    {
        let texts = Vec::with_capacity(alloc, text_len)?;
        Ok(AnswerStore {
            texts,
            numbers: Vec::new(alloc),
            spans: Vec::new(alloc),
        })
    }

    /// Appends the answer for a group with this text that packages with these numbers meet. Out of
    /// memory is also returned if the span can't hold a length.
    pub(crate) fn push(
        &mut self,
        group: &[u8],
        verdict: Verdict,
        numbers: &[u64],
    ) -> Result<(), AllocError>
        ensures { OnOk result
            (AppendsAnswer self.old self.new group.now verdict numbers.now) }
    {
        let text_len = offset(group.len())?;
        let found_len = offset(numbers.len())?;
        self.texts.extend_from_slice(group)?;
        self.numbers.extend_from_slice(numbers)?;
        self.spans.push(AnswerSpan {
            text_len,
            found_len,
            verdict,
        })?;
        Ok(())
    }
}
