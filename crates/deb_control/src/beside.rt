//! Writes the canonical text of a paragraph beside another one.

ghost use Rattle.deb_control.specs.CanonTexts.{HasTextOf};

use crate::canon_text::CanonText;
use crate::checked_text::CheckedText;
use crate::checker::ParagraphChecker;
use deb_base::Fault;
use deb_field::Doc;
use deb_syntax::Raw;
use std::alloc::Global;

/// A canonical text, and the paragraph beside it, if there is one: a paragraph that is spelled as
/// that one has its text, and isn't read once more.
#[derive(Drop)]
pub(crate) struct Beside<'a> {
    pub(crate) other: Option<CheckedText<'a>>,
    pub(crate) canon: CanonText,
}

impl ParagraphChecker for Beside<'_> {
    ghost Keeps = { λ beside doc seen. HasTextOf beside.canon doc seen };

    fn check(&mut self, alloc: Global, doc: Doc, paragraph: &Raw<'_>) -> Result<u64, Fault> {
        if let Some(other) = self.other {
            if let Some(text) = other.text_beside(doc, paragraph) {
                self.canon.set(text)?;
                return Ok(text.len() as u64);
            }
        }
        self.canon.check(alloc, doc, paragraph)
    }
}
