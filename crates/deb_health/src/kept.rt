//! What is kept of a package until the whole set is read.

ghost use Rattle.std.specs.Prelude.{◌≡◌, IfOk};
ghost use Rattle.deb_control.specs.FieldTexts.{HasTexts};
ghost use Rattle.deb_control.specs.ValueFiles.{ValueEntries};
ghost use Rattle.deb_field.specs.Values.{ValueMeaning};
ghost use Rattle.deb_unmet.specs.Paragraphs.{fields_in};
ghost use Rattle.deb_health.specs.Kept.{HoldsMember};

use deb_base::rows::{BREAKS, CONFLICTS};
use deb_control::{CheckedView, FieldTexts};
use deb_unmet::KeptParagraph;
use std::alloc::{AllocError, Global};

/// What is kept of a package: what its lines about unmet groups have, and the canonical texts of
/// Conflicts and Breaks.
#[derive(Drop)]
pub struct Kept {
    /// What its lines about unmet groups have.
    pub unmet: KeptParagraph,
    /// The canonical text of Conflicts; empty if there is none.
    pub conflicts: Vec<u8>,
    /// The canonical text of Breaks; empty if there is none.
    pub breaks: Vec<u8>,
}

impl Kept {
    /// Returns that of a paragraph that was checked.
    ///
    /// # Errors
    ///
    /// Out of memory.
    pub fn of(
        alloc: Global,
        paragraph: &CheckedView<'_>,
        texts: &FieldTexts,
    ) -> Result<Kept, AllocError>
        ensures { (values : ValueEntries ValueMeaning) → HasTexts texts.now values
            → IfOk result (HoldsMember (fields_in paragraph.now) values) }
    {
        let unmet = KeptParagraph::of(alloc, paragraph, texts)?;
        let conflicts = copied(alloc, texts.relation(CONFLICTS))?;
        let breaks = copied(alloc, texts.relation(BREAKS))?;
        Ok(Kept {
            unmet,
            conflicts,
            breaks,
        })
    }
}

/// Returns a copy of a text; an empty one takes no memory.
fn copied(alloc: Global, text: &[u8]) -> Result<Vec<u8>, AllocError>
    ensures { IfOk result (λ copy. copy.items ≡ text.now) }
{
    let mut copy = Vec::new(alloc);
    copy.extend_from_slice(text)?;
    Ok(copy)
}
