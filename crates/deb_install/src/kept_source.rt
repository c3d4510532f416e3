//! What is kept of a source package until all of them are read.

ghost use Rattle.std.specs.Prelude.{◌≡◌, IfOk};
ghost use Rattle.deb_base.specs.Kinds.{known_row};
ghost use Rattle.deb_control.specs.FieldTexts.{HasTexts, relation_at, word_at};
ghost use Rattle.deb_control.specs.ValueFiles.{ValueEntries};
ghost use Rattle.deb_field.specs.Values.{ValueMeaning};
ghost use Rattle.deb_install.specs.KeptSources.{HoldsBuild, HoldsSource};

use crate::source_kind::SourceKind;
use deb_base::FieldId;
use deb_control::FieldTexts;
use std::alloc::{AllocError, Global};

/// What is kept of a source package: the texts of its line, and what it needs and excludes.
#[derive(Drop)]
pub(crate) struct KeptSource {
    pub(crate) name: Vec<u8>,
    /// The canonical text of its version.
    pub(crate) version: Vec<u8>,
    pub(crate) build: KeptBuild,
}

/// The canonical texts of the relations of a source package; each is empty if there is no such
/// relation.
#[derive(Drop)]
pub(crate) struct KeptBuild {
    pub(crate) depends: Vec<u8>,
    pub(crate) depends_arch: Vec<u8>,
    pub(crate) depends_indep: Vec<u8>,
    pub(crate) conflicts: Vec<u8>,
    pub(crate) conflicts_arch: Vec<u8>,
    pub(crate) conflicts_indep: Vec<u8>,
}

impl KeptSource {
    /// Returns that of a paragraph with these texts.
    pub(crate) fn of(
        alloc: Global,
        kind: SourceKind,
        texts: &FieldTexts,
    ) -> Result<KeptSource, AllocError>
        ensures { (values : ValueEntries ValueMeaning) → HasTexts texts.now values
            → IfOk result (HoldsSource kind values) }
    {
        let name = word(alloc, texts, kind.name_field())?;
        let version = word(alloc, texts, b"Version")?;
        let build = KeptBuild::of(alloc, texts)?;
        Ok(KeptSource {
            name,
            version,
            build,
        })
    }
}

impl KeptBuild {
    /// Returns those of a paragraph with these texts.
    fn of(alloc: Global, texts: &FieldTexts) -> Result<KeptBuild, AllocError>
        ensures { (values : ValueEntries ValueMeaning) → HasTexts texts.now values
            → IfOk result (HoldsBuild values) }
    {
        let depends = relation(alloc, texts, b"Build-Depends")?;
        let depends_arch = relation(alloc, texts, b"Build-Depends-Arch")?;
        let depends_indep = relation(alloc, texts, b"Build-Depends-Indep")?;
        let conflicts = relation(alloc, texts, b"Build-Conflicts")?;
        let conflicts_arch = relation(alloc, texts, b"Build-Conflicts-Arch")?;
        let conflicts_indep = relation(alloc, texts, b"Build-Conflicts-Indep")?;
        Ok(KeptBuild {
            depends,
            depends_arch,
            depends_indep,
            conflicts,
            conflicts_arch,
            conflicts_indep,
        })
    }
}

/// Returns a copy of the word of a field.
fn word(alloc: Global, texts: &FieldTexts, name: &[u8]) -> Result<Vec<u8>, AllocError>
    ensures { IfOk result (λ copy. copy.items ≡ word_at texts.now (known_row name.now)) }
{
    copied(alloc, texts.word(FieldId::of(name).row()))
}

/// Returns a copy of the canonical text of a relation.
fn relation(alloc: Global, texts: &FieldTexts, name: &[u8]) -> Result<Vec<u8>, AllocError>
    ensures { IfOk result (λ copy. copy.items ≡ relation_at texts.now (known_row name.now)) }
{
    copied(alloc, texts.relation(FieldId::of(name).row()))
}

/// Returns a copy of a text; an empty one takes no memory.
fn copied(alloc: Global, text: &[u8]) -> Result<Vec<u8>, AllocError>
    ensures { IfOk result (λ copy. copy.items ≡ text.now) }
{
    let mut copy = Vec::new(alloc);
    copy.extend_from_slice(text)?;
    Ok(copy)
}
