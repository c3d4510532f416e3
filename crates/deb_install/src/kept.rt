//! What is kept of the members of a file until all of them are read.

ghost use Rattle.std.specs.Prelude.{◌≡◌, [], IfOk, codes};
ghost use Rattle.deb_control.specs.FieldTexts.{HasTexts};
ghost use Rattle.deb_control.specs.ValueFiles.{ValueEntries};
ghost use Rattle.deb_field.specs.Values.{ValueMeaning};
ghost use Rattle.deb_health.specs.Kept.{HoldsMember};
ghost use Rattle.deb_index.specs.VersionSpellings.{body_or_nothing};
ghost use Rattle.deb_syntax.specs.Raw.{field_named};
ghost use Rattle.deb_unmet.specs.Paragraphs.{fields_in};
ghost use Rattle.deb_install.specs.Keeping.{HoldsGiven, is_marked_by};

use deb_control::{CheckedView, FieldTexts};
use deb_health::Kept;
use deb_index::Keeper;
use std::alloc::{AllocError, Global};

/// What is kept of a member.
#[derive(Drop)]
pub(crate) struct KeptMember {
    pub(crate) texts: Kept,
    /// Whether the field Essential says yes.
    pub(crate) is_marked: bool,
}

impl KeptMember {
    /// Returns that of a paragraph that was checked.
    fn of(
        alloc: Global,
        paragraph: &CheckedView<'_>,
        texts: &FieldTexts,
    ) -> Result<KeptMember, AllocError>
        ensures texts { (values : ValueEntries ValueMeaning) → HasTexts texts.now values
            → IfOk result (λ kept. HoldsMember (fields_in paragraph.now) values kept.texts) }
        ensures marked { IfOk result (λ kept. kept.is_marked
            ≡ is_marked_by (fields_in paragraph.now)) }
    {
        let texts = Kept::of(alloc, paragraph, texts)?;
        Ok(KeptMember {
            texts,
            is_marked: is_marked(paragraph),
        })
    }
}

/// Returns whether the field Essential of a paragraph says yes.
fn is_marked(paragraph: &CheckedView<'_>) -> bool
    ensures { result ≡ is_marked_by (fields_in paragraph.now) }
{
    essential_body(paragraph) == b"yes".as_slice()
}

/// Returns the body of the field Essential; empty if there is no such field.
fn essential_body<'a>(paragraph: &CheckedView<'a>) -> &'a [u8]
    ensures { result.now
        ≡ body_or_nothing (field_named (codes "Essential") (fields_in paragraph.now)) }
{
    match paragraph.get(b"Essential") {
        Some(field) => field.body,
        None => b"",
    }
}

/// What is kept of the members, in their order.
#[derive(Drop)]
pub(crate) struct KeptMembers {
    alloc: Global,
    pub(crate) members: Vec<KeptMember>,
}

impl KeptMembers {
    /// Nothing is kept.
    pub(crate) fn new(alloc: Global) -> KeptMembers
        ensures { result.members.items ≡ [] }
    {
        KeptMembers {
            alloc,
            members: Vec::new(alloc),
        }
    }

    /// Returns what is kept of the members.
    pub(crate) fn into_members(self) -> Vec<KeptMember>
        ensures { result.items ≡ self.members.items }
    {
        self.members
    }
}

impl Keeper for KeptMembers {
    ghost Keeps = { λ members kept given. HoldsGiven members kept.members.items given };

    fn keep(&mut self, paragraph: &CheckedView<'_>, texts: &FieldTexts) -> Result<(), AllocError> {
        let kept = KeptMember::of(self.alloc, paragraph, texts)?;
        self.members.push(kept)?;
        Ok(())
    }

    fn pass_over(
        &mut self,
        _paragraph: &CheckedView<'_>,
        _texts: &FieldTexts,
    ) -> Result<(), AllocError> {
        Ok(())
    }
}
