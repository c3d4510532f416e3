//! Keeps the values of a paragraph that an index needs, while the paragraph is checked.

ghost use Rattle.std.specs.Prelude.{◌≡◌, ◌==◌, codes, cond};
ghost use Rattle.deb_base.specs.Kinds.{known_row};
ghost use Rattle.deb_base.specs.KnownFields.{row_of};
ghost use Rattle.deb_field.specs.ValueMeanings.{value_meaning};
ghost use Rattle.deb_index.specs.PackageBuilder.{KeepsVisited, multi_arch_in, texts_kept};

use deb_base::rows::{ARCHITECTURE, MULTI_ARCH, PACKAGE, PROVIDES, VERSION};
use deb_control::{FieldTexts, FieldVisitor};
use deb_field::{MultiArch, Value};
use deb_syntax::RawField;
use std::alloc::{AllocError, Global};

/// What is kept of the fields of a paragraph while it is checked.
#[derive(Drop)]
pub(crate) struct PackageBuilder {
    pub(crate) texts: FieldTexts,
    pub(crate) multi_arch: Option<MultiArch>,
}

#[tactic(auto, unfolding(deb_base::specs::Kinds::known_row))]
impl PackageBuilder {
    /// Nothing is kept.
    pub(crate) fn new(alloc: Global) -> PackageBuilder {
        PackageBuilder {
            texts: FieldTexts::new(alloc),
            multi_arch: None,
        }
    }

    /// Returns the name of the package.
    pub(crate) fn name(&self) -> &[u8]
        ensures { result.now ≡ (texts_kept self.now).name }
    {
        self.texts.word(PACKAGE)
    }

    /// Returns the canonical text of its version.
    pub(crate) fn version(&self) -> &[u8]
        ensures { result.now ≡ (texts_kept self.now).version }
    {
        self.texts.word(VERSION)
    }

    /// Returns its architecture.
    pub(crate) fn architecture(&self) -> &[u8]
        ensures { result.now ≡ (texts_kept self.now).architecture }
    {
        self.texts.word(ARCHITECTURE)
    }

    /// Returns the canonical text of its Provides; empty if the field is absent.
    pub(crate) fn provides(&self) -> &[u8]
        ensures { result.now ≡ (texts_kept self.now).provides }
    {
        self.texts.relation(PROVIDES)
    }
}

impl FieldVisitor for PackageBuilder {
    ghost Visited = { KeepsVisited };

    fn start(&mut self) {
        self.texts.start();
        self.multi_arch = None;
    }

    #[inline(always)]
    fn visit(&mut self, field: &RawField<'_>, value: &Value<'_>) -> Result<(), AllocError> {
        self.multi_arch = with_multi_arch(self.multi_arch, field, value);
        self.texts.visit(field, value)?;
        Ok(())
    }
}

/// Returns the word of Multi-Arch after one more field.
#[tactic(auto, unfolding(deb_base::specs::Kinds::known_row))]
fn with_multi_arch(
    before: Option<MultiArch>,
    field: &RawField<'_>,
    value: &Value<'_>,
) -> Option<MultiArch>
    ensures { result ≡ cond (row_of field.now.id == known_row (codes "Multi-Arch"))
        (multi_arch_in (value_meaning value.now)) before }
{
    if field.id.row() != MULTI_ARCH {
        return before;
    }
    match value {
        Value::MultiArch(word) => Some(*word),
        _ => None,
    }
}
