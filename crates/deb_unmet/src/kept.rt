//! What is kept of a paragraph of an index until the whole index is read.

ghost use Rattle.std.specs.Prelude.{◌≡◌, List, [], ◌∷◌, drop, length, take, IfOk};
ghost use Rattle.std.specs.List.{concat};
ghost use Rattle.deb_control.specs.FieldTexts.{HasTexts};
ghost use Rattle.deb_control.specs.ValueFiles.{ValueEntries};
ghost use Rattle.deb_field.specs.Values.{ValueMeaning};
ghost use Rattle.deb_syntax.specs.Fields.{Field};
ghost use Rattle.deb_unmet.specs.KeptParagraphs.{HoldsTexts, lens_in, paragraph_texts, texts_in, texts_kept};
ghost use Rattle.deb_unmet.specs.Paragraphs.{HasTextsOf, fields_in};
ghost use Rattle.deb_unmet.specs.Spelled.{version_word};
ghost use Rattle.deb_unmet.specs.declared.asked.Asked.TheVariants.{Packages};
ghost use Rattle.deb_unmet.specs.declared.asked.Strength.{Strength};

use crate::line_texts::{LineTexts, spelled_body};
use deb_base::VersionText;
use deb_base::rows::{ARCHITECTURE, DEPENDS, PACKAGE, PRE_DEPENDS, RECOMMENDS, VERSION};
use deb_control::{CheckedView, FieldTexts};
use std::alloc::{AllocError, Global};

/// The texts that are kept of a paragraph: its name, its version as its canonical text and as the
/// file spells it, its architecture, and the canonical texts of its relations.
#[derive(Clone, Copy)]
struct KeptTexts<'a> {
    name: &'a [u8],
    version: &'a [u8],
    spelled: &'a [u8],
    architecture: &'a [u8],
    pre_depends: &'a [u8],
    depends: &'a [u8],
    recommends: &'a [u8],
}

impl<'a> KeptTexts<'a> {
    /// Those of a paragraph that was checked.
    fn of(paragraph: &CheckedView<'a>, texts: &'a FieldTexts) -> KeptTexts<'a>
        ensures { (values : ValueEntries ValueMeaning) → HasTexts texts.now values
            → texts_in result ≡ paragraph_texts (fields_in paragraph.now) values }
    {
        KeptTexts {
            name: texts.word(PACKAGE),
            version: texts.word(VERSION),
            spelled: spelled_body(paragraph),
            architecture: texts.word(ARCHITECTURE),
            pre_depends: texts.relation(PRE_DEPENDS),
            depends: texts.relation(DEPENDS),
            recommends: texts.relation(RECOMMENDS),
        }
    }

    /// The lengths of all but the last.
    fn lens(&self) -> Result<TextLens, AllocError>
        ensures { IfOk result (λ lens. lens_in lens ≡ length self.now.name.now
            ∷ length self.now.version.now ∷ length self.now.spelled.now
            ∷ length self.now.architecture.now ∷ length self.now.pre_depends.now
            ∷ length self.now.depends.now ∷ []) }
    {
        Ok(TextLens {
            name: len_of(self.name)?,
            version: len_of(self.version)?,
            spelled: len_of(self.spelled)?,
            architecture: len_of(self.architecture)?,
            pre_depends: len_of(self.pre_depends)?,
            depends: len_of(self.depends)?,
        })
    }

    /// All of them, one after another.
    fn joined(&self, alloc: Global) -> Result<Vec<u8>, AllocError>
        ensures { IfOk result (λ bytes. bytes.items ≡ concat (texts_in self.now)) }
    {
        let mut bytes = Vec::with_capacity(alloc, self.len())?;
        bytes.extend_from_slice(self.name)?;
        bytes.extend_from_slice(self.version)?;
        bytes.extend_from_slice(self.spelled)?;
        bytes.extend_from_slice(self.architecture)?;
        bytes.extend_from_slice(self.pre_depends)?;
        bytes.extend_from_slice(self.depends)?;
        bytes.extend_from_slice(self.recommends)?;
        Ok(bytes)
    }

    /// How many bytes they have together.
    fn len(&self) -> usize {
        let words = self.name.len().saturating_add(self.version.len());
        let words = words
            .saturating_add(self.spelled.len())
            .saturating_add(self.architecture.len());
        let relations = self.pre_depends.len().saturating_add(self.depends.len());
        words
            .saturating_add(relations)
            .saturating_add(self.recommends.len())
    }
}

/// The lengths of the texts that are kept of a paragraph; that of the last is left.
#[derive(Clone, Copy)]
pub(crate) struct TextLens {
    pub(crate) name: u32,
    pub(crate) version: u32,
    pub(crate) spelled: u32,
    pub(crate) architecture: u32,
    pub(crate) pre_depends: u32,
    pub(crate) depends: u32,
}

/// The length of a text in 32 bits, or out of memory if it has more.
fn len_of(text: &[u8]) -> Result<u32, AllocError>
    ensures { IfOk result (λ len. len ≡ length text.now) }
{
    u32::try_from(text.len()).map_err(|_| AllocError)
}

/// What is kept of a paragraph for its lines: the texts one after another.
#[derive(Drop)]
pub struct KeptParagraph {
    pub(crate) bytes: Vec<u8>,
    pub(crate) lens: TextLens,
}

impl KeptParagraph {
    /// Returns what is kept of a paragraph that was checked. `texts` has its words and relations.
    ///
    /// # Errors
    ///
    /// Out of memory.
    pub fn of(
        alloc: Global,
        paragraph: &CheckedView<'_>,
        texts: &FieldTexts,
    ) -> Result<KeptParagraph, AllocError>
        ensures { (values : ValueEntries ValueMeaning) → HasTexts texts.now values
            → IfOk result (HoldsTexts (fields_in paragraph.now) values) }
    {
        let kept = KeptTexts::of(paragraph, texts);
        let lens = kept.lens()?;
        let bytes = kept.joined(alloc)?;
        Ok(KeptParagraph { bytes, lens })
    }

    fn texts(&self) -> KeptTexts<'_>
        ensures { texts_in result ≡ texts_kept self.now }
    {
        let (name, rest) = cut(&self.bytes, self.lens.name);
        let (version, rest) = cut(rest, self.lens.version);
        let (spelled, rest) = cut(rest, self.lens.spelled);
        let (architecture, rest) = cut(rest, self.lens.architecture);
        let (pre_depends, rest) = cut(rest, self.lens.pre_depends);
        let (depends, recommends) = cut(rest, self.lens.depends);
        KeptTexts {
            name,
            version,
            spelled,
            architecture,
            pre_depends,
            depends,
            recommends,
        }
    }

    /// Returns the texts that its lines have, with this text of its version.
    pub fn line_texts(&self, versions: VersionText) -> LineTexts<'_>
        ensures texts { (fields : List Field) (values : ValueEntries ValueMeaning)
            (strength : Strength) → HoldsTexts fields values self.now
            → HasTextsOf (Packages strength) result values }
        ensures version { (fields : List Field) (values : ValueEntries ValueMeaning)
            → HoldsTexts fields values self.now
            → result.version.now ≡ version_word versions fields values }
    {
        let texts = self.texts();
        LineTexts {
            name: texts.name,
            version: match versions {
                VersionText::Canonical => texts.version,
                VersionText::Spelled => texts.spelled,
            },
            architecture: texts.architecture,
            built_for: None,
            relations: [texts.pre_depends, texts.depends, texts.recommends],
        }
    }
}

/// The first bytes, and the others; fewer if there are fewer.
fn cut(bytes: &[u8], len: u32) -> (&[u8], &[u8])
    ensures first { result.0.now ≡ take len bytes.now }
    ensures rest { result.1.now ≡ drop len bytes.now }
{
    bytes.split_at((len as usize).min(bytes.len()))
}
