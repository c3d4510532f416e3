//! What is written of each paragraph of a file over its own packages, and what is kept for it.

ghost use Rattle.std.specs.Prelude.{◌≡◌, ◌^◌, ◌-◌, ◌<◌, ◌+◌, ◌++◌, ℕ, List, [], IfOk, OnOk, cond};
ghost use Rattle.deb_control.specs.FieldTexts.{HasTexts};
ghost use Rattle.deb_control.specs.ValueFiles.{ValueEntries};
ghost use Rattle.deb_field.specs.Values.{ValueMeaning};
ghost use Rattle.deb_index.specs.Indexes.{packages_of};
ghost use Rattle.deb_syntax.specs.Fields.{Field};
ghost use Rattle.deb_unmet.specs.Files.{lines_of};
ghost use Rattle.deb_unmet.specs.Own.{OwnAsks, asks_over};
ghost use Rattle.deb_unmet.specs.Paragraphs.{fields_in};
ghost use Rattle.deb_unmet.specs.Parts.{AreParts, GivesValues, IsOther, is_of_member};

use deb_control::{CheckedView, FieldTexts};
use deb_index::{Index, Keeper, Members};
use std::alloc::{AllocError, Global};

/// Lines of the paragraphs of a file over all of its packages, for [`crate::write_in_itself`].
pub trait OwnLines {
    /// What is kept of a member until the whole file is read.
    type Kept: Drop;

    /// This is kept of fields that have these values.
    ghost Holds: { List Field → ValueEntries ValueMeaning → Self.Kept → Type 0 };

    /// Which paragraphs of a file are its packages, which text of a version the lines have, which
    /// packages they are over, the lines of a member, and what the line of another paragraph ends
    /// with.
    ghost asks: { Self → OwnAsks };

    /// Returns which paragraphs of a file are its packages.
    fn members(&self) -> Members
        ensures { result ≡ (asks self.now).members };

    /// Returns the index of the packages that the lines are over, of the index of all packages that
    /// were read.
    ///
    /// # Errors
    ///
    /// Out of memory.
    fn over(&self, alloc: Global, index: Index) -> Result<Index, AllocError>
        ensures { IfOk result (λ rest. packages_of rest
            ≡ (asks self.now).over (packages_of index)) };

    /// Returns what is kept of a member. `texts` has its words and relations.
    ///
    /// # Errors
    ///
    /// Out of memory.
    fn keep(
        alloc: Global,
        paragraph: &CheckedView<'_>,
        texts: &FieldTexts,
    ) -> Result<Self::Kept, AllocError>
        ensures { (values : ValueEntries ValueMeaning) → HasTexts texts.now values
            → IfOk result (Holds (fields_in paragraph.now) values) };

    /// Returns what the line of a paragraph of a status file that isn't a member has after its
    /// number: a space, a text and a newline; empty if there is no line.
    ///
    /// # Errors
    ///
    /// Out of memory.
    fn keep_other(
        alloc: Global,
        paragraph: &CheckedView<'_>,
        texts: &FieldTexts,
    ) -> Result<Vec<u8>, AllocError>
        ensures { (values : ValueEntries ValueMeaning) → GivesValues paragraph.now texts.now values
            → IfOk result (λ text. IsOther asks values text.items) };

    /// Appends the lines of a member of which this is kept. `index` has the packages that they are
    /// over, and `number` counts the members from 1.
    ///
    /// # Errors
    ///
    /// Out of memory.
    fn append(
        &self,
        alloc: Global,
        out: &mut Vec<u8>,
        index: &Index,
        number: u64,
        kept: &Self::Kept,
    ) -> Result<(), AllocError>
        ensures { (fields : List Field) (values : ValueEntries ValueMeaning)
            → Holds fields values kept.now → OnOk result (out.new.items ≡ out.old.items ++ lines_of
            (asks_over (asks self.now) (packages_of index.now)) number fields values) };
}

/// What is kept of one paragraph.
#[derive(Drop)]
pub(crate) enum Part<K> {
    /// Of a member.
    Member(K),
    /// Of another paragraph: what its line has after its number; empty if there is none.
    Other(Vec<u8>),
}

impl<K> Part<K> {
    /// Returns how many members there are up to this paragraph, if there are so many before it.
    pub(crate) fn counted(&self, before: u64) -> u64
        requires { before < 2 ^ 64 - 1 }
        ensures { result ≡ cond (is_of_member self.now) (before + 1) before }
    {
        match self {
            Part::Member(_) => before + 1,
            Part::Other(_) => before,
        }
    }
}

/// What is kept of the paragraphs of a file, in their order.
#[derive(Drop)]
pub(crate) struct KeptLines<L: OwnLines> {
    pub(crate) alloc: Global,
    pub(crate) parts: Vec<Part<L::Kept>>,
}

impl<L: OwnLines> KeptLines<L> {
    /// Nothing is kept.
    pub(crate) fn new(alloc: Global) -> KeptLines<L>
        ensures { result.parts.items ≡ [] }
    {
        KeptLines {
            alloc,
            parts: Vec::new(alloc),
        }
    }
}

impl<L: OwnLines> Keeper for KeptLines<L> {
    ghost Keeps = { λ members kept given. AreParts members L.Holds (IsOther L.asks)
        kept.parts.items given };

    fn keep(&mut self, paragraph: &CheckedView<'_>, texts: &FieldTexts) -> Result<(), AllocError> {
        let kept = L::keep(self.alloc, paragraph, texts)?;
        self.parts.push(Part::Member(kept))?;
        Ok(())
    }

    fn pass_over(
        &mut self,
        paragraph: &CheckedView<'_>,
        texts: &FieldTexts,
    ) -> Result<(), AllocError> {
        let text = L::keep_other(self.alloc, paragraph, texts)?;
        self.parts.push(Part::Other(text))?;
        Ok(())
    }
}
