//! Checks one paragraph, and keeps something of it.

ghost use Rattle.std.specs.Prelude.{◌≡◌, ◌≤◌, Err, IfErr, IfOk, IsTrue, length};
ghost use Rattle.deb_base.specs.Faults.{RefusedOrMemory};
ghost use Rattle.deb_base.specs.declared.doc.Doc.{Doc};
ghost use Rattle.deb_syntax.specs.Answers.{Seen};
ghost use Rattle.deb_syntax.specs.Paragraphs.{seen_of};
ghost use Rattle.deb_control.specs.Checking.{is_judged, text_built};
ghost use Rattle.deb_control.specs.Documents.{rules_of};
ghost use Rattle.deb_control.specs.Refusals.{built};
ghost use Rattle.deb_control.specs.Visiting.{VisitsValues};

use crate::paragraph_check::check_paragraph;
use crate::visitor::FieldVisitor;
use deb_base::{Fault, PARAGRAPH_LIMIT};
use deb_field::Doc;
use deb_syntax::Raw;
use std::alloc::Global;

/// Checks a paragraph by itself, and keeps something of one that passes.
pub(crate) trait ParagraphChecker {
    /// This is kept of a paragraph of a kind of document.
    ghost Keeps: { Self → Doc → Seen → Type 0 };

    /// Returns the length of the paragraph's canonical text.
    ///
    /// # Errors
    ///
    /// Those of `Paragraph::build`; `Fault::Memory` also if there is no memory for what is kept.
    fn check(&mut self, alloc: Global, doc: Doc, paragraph: &Raw<'_>) -> Result<u64, Fault>
        ensures length { IfOk result
            (λ n. n ≡ length (text_built (built (rules_of doc) (seen_of paragraph.now)))) }
        ensures short { IfOk result (λ n. n ≤ PARAGRAPH_LIMIT) }
        ensures passes { IfOk result (λ n. IsTrue (is_judged doc (seen_of paragraph.now))) }
        ensures keeps { IfOk result (λ n. Keeps self.new doc (seen_of paragraph.now)) }
        ensures fault { IfErr result
            (λ fault. RefusedOrMemory fault
            (λ refusal. built (rules_of doc) (seen_of paragraph.now) ≡ Err refusal)) };
}

impl<V: FieldVisitor> ParagraphChecker for V {
    ghost Keeps = { λ visitor doc seen. VisitsValues V.Visited visitor doc seen };

    fn check(&mut self, alloc: Global, doc: Doc, paragraph: &Raw<'_>) -> Result<u64, Fault> {
        check_paragraph(alloc, doc, paragraph, self)
    }
}
