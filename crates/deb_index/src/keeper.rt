//! What is kept of the paragraphs of a file besides the packages of its index.

ghost use Rattle.std.specs.Prelude.{◌≡◌, ◌++◌, ◌∷◌, [], List, OnOk, false, true};
ghost use Rattle.deb_control.specs.CheckedStates.{passing_judged};
ghost use Rattle.deb_control.specs.FieldTexts.{KeepsTexts};
ghost use Rattle.deb_control.specs.Visiting.{VisitsValues};
ghost use Rattle.deb_syntax.specs.Answers.{Seen};
ghost use Rattle.deb_index.specs.Members.{doc_of, has_seen};

use crate::members::Members;
use deb_control::{CheckedView, FieldTexts};
use std::alloc::AllocError;

/// Keeps something of each paragraph of a file while its index is read.
pub trait Keeper {
    ghost use Rattle.deb_index.specs.declared.members.Members.{Members};

    /// This is kept of these paragraphs of a file with these members.
    ghost Keeps: { Members → Self → List Seen → Type 0 };

    /// Keeps something of one more paragraph, which is a member. `texts` has its words and
    /// relations.
    ///
    /// # Errors
    ///
    /// Out of memory.
    fn keep(&mut self, paragraph: &CheckedView<'_>, texts: &FieldTexts) -> Result<(), AllocError>
        ensures { (members : Members) (given : List Seen) (seen : Seen)
            → Keeps members self.old given
            → VisitsValues KeepsTexts texts.now (doc_of members) seen
            → (passing_judged paragraph.now).seen ≡ seen → has_seen members seen ≡ true
            → OnOk result (Keeps members self.new (given ++ seen ∷ [])) };

    /// Keeps something of one more paragraph, which isn't a member.
    ///
    /// # Errors
    ///
    /// Out of memory.
    fn pass_over(
        &mut self,
        paragraph: &CheckedView<'_>,
        texts: &FieldTexts,
    ) -> Result<(), AllocError>
        ensures { (members : Members) (given : List Seen) (seen : Seen)
            → Keeps members self.old given
            → VisitsValues KeepsTexts texts.now (doc_of members) seen
            → (passing_judged paragraph.now).seen ≡ seen → has_seen members seen ≡ false
            → OnOk result (Keeps members self.new (given ++ seen ∷ [])) };
}

/// Keeps nothing, and takes no memory.
#[derive(Clone, Copy)]
pub struct NoKeeper;

impl Keeper for NoKeeper {
    ghost Keeps = { λ members keeper given. Unit {0} };

    fn keep(
        &mut self,
        _paragraph: &CheckedView<'_>,
        _texts: &FieldTexts,
    ) -> Result<(), AllocError> {
        Ok(())
    }

    fn pass_over(
        &mut self,
        _paragraph: &CheckedView<'_>,
        _texts: &FieldTexts,
    ) -> Result<(), AllocError> {
        Ok(())
    }
}
