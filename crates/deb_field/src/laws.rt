//! Laws of values. Each function does nothing; its contract is the law.

ghost use Rattle.std.specs.Prelude.{ℕ, List};
ghost use Rattle.deb_base.specs.declared.doc.Doc.{Doc};
ghost use Rattle.deb_version.specs.Canonical.{digits_of, version_text};
ghost use Rattle.deb_version.specs.Grammar.{SpellsVersion};
ghost use Rattle.deb_version.specs.Parts.{Meaning as VersionMeaning};
ghost use Rattle.deb_relation.specs.Meaning.{Relation as RelationMeaning};
ghost use Rattle.deb_relation.specs.Texts.{relation_text};
ghost use Rattle.deb_field.specs.CanonLaw.{CanonLaw, OneText, RefusalLaw};
ghost use Rattle.deb_field.specs.Flags.{flag_text, SpellsFlag, multi_arch_text, SpellsMultiArch};
ghost use Rattle.deb_base.specs.Kinds.{FieldsOfAnyAreTexts, KindGoesByName, KindOfCanonicalName};
ghost use Rattle.deb_field.specs.Numbers.{SpellsNumber};
ghost use Rattle.deb_field.specs.RelationFields.{SpellsRelationship};
ghost use Rattle.deb_field.specs.Sources.{SourceMeaning, SpellsSource, source_text};
ghost use Rattle.deb_field.specs.Texts.{text_itself, SpellsArchitecture, SpellsLine, SpellsName, SpellsText};
ghost use Rattle.deb_field.specs.ValueCodes.{RefusalsAreOfValues};
ghost use Rattle.deb_field.specs.Values.{ValueMeaning, SpellsKind, SpellsValue, kind_refusal, value_refusal, value_text};
ghost use Rattle.deb_field.specs.Words.{words_text, SpellsArchitectures, SpellsFolded};
ghost use Rattle.deb_field.specs.declared.flag.Flag.{Flag as FlagWord};
ghost use Rattle.deb_field.specs.declared.flag.MultiArch.{MultiArch as MultiArchWord};
ghost use Rattle.deb_base.specs.declared.kind.Kind.{Kind as FieldKind};
ghost use Rattle.deb_base.specs.declared.kind.Relationship.{Relationship};

/// In a field, and as one of a kind, a body spells at most one value; and the canonical text of a
/// value that is spelled is a body that spells it, at most twice as long as each other one.
pub fn values_have_canonical_text()
    ensures of_fields { (doc : Doc) (name : List ℕ)
        → CanonLaw ValueMeaning (SpellsValue doc name) value_text }
    ensures of_kinds { (kind : FieldKind) → CanonLaw ValueMeaning (SpellsKind kind) value_text }
{}

/// The same of each kind's own values.
pub fn kinds_have_canonical_text()
    ensures names { CanonLaw (List ℕ) SpellsName text_itself }
    ensures sources { CanonLaw SourceMeaning SpellsSource source_text }
    ensures versions { CanonLaw VersionMeaning SpellsVersion version_text }
    ensures architectures { CanonLaw (List ℕ) SpellsArchitecture text_itself }
    ensures architecture_words { CanonLaw (List (List ℕ)) SpellsArchitectures words_text }
    ensures flags { CanonLaw FlagWord SpellsFlag flag_text }
    ensures multi_archs { CanonLaw MultiArchWord SpellsMultiArch multi_arch_text }
    ensures numbers { CanonLaw ℕ SpellsNumber digits_of }
    ensures lines { CanonLaw (List ℕ) SpellsLine text_itself }
    ensures folded { CanonLaw (List (List ℕ)) SpellsFolded words_text }
    ensures relations { (sort : Relationship)
        → CanonLaw RelationMeaning (SpellsRelationship sort) relation_text }
    ensures texts { CanonLaw (List ℕ) SpellsText text_itself }
{}

/// The canonical texts of two values of a kind are equal exactly if the values are equal.
pub fn canonical_text_tells_values()
    ensures of_fields { (doc : Doc) (name : List ℕ)
        → OneText ValueMeaning (SpellsValue doc name) value_text }
    ensures of_kinds { (kind : FieldKind) → OneText ValueMeaning (SpellsKind kind) value_text }
{}

/// The same of each kind's own values.
pub fn kinds_have_one_text()
    ensures names { OneText (List ℕ) SpellsName text_itself }
    ensures sources { OneText SourceMeaning SpellsSource source_text }
    ensures versions { OneText VersionMeaning SpellsVersion version_text }
    ensures architectures { OneText (List ℕ) SpellsArchitecture text_itself }
    ensures architecture_words { OneText (List (List ℕ)) SpellsArchitectures words_text }
    ensures flags { OneText FlagWord SpellsFlag flag_text }
    ensures multi_archs { OneText MultiArchWord SpellsMultiArch multi_arch_text }
    ensures numbers { OneText ℕ SpellsNumber digits_of }
    ensures lines { OneText (List ℕ) SpellsLine text_itself }
    ensures folded { OneText (List (List ℕ)) SpellsFolded words_text }
    ensures relations { (sort : Relationship)
        → OneText RelationMeaning (SpellsRelationship sort) relation_text }
    ensures texts { OneText (List ℕ) SpellsText text_itself }
{}

/// A body has a refusal, in a field and as a value of a kind, exactly if it spells no value.
pub fn bodies_are_spelled_or_refused()
    ensures of_fields { (doc : Doc) (name : List ℕ)
        → RefusalLaw ValueMeaning (SpellsValue doc name) (value_refusal doc name) }
    ensures of_kinds { (kind : FieldKind)
        → RefusalLaw ValueMeaning (SpellsKind kind) (kind_refusal kind) }
{}

/// The code of a refusal is one of values: from `NotOneLine` (13) to `ProvidesBound` (21).
pub fn refusals_are_of_values()
    ensures { RefusalsAreOfValues }
{}

/// The kind of a field depends only on its name without case, so the canonical spelling of the name
/// has the same kind. What spells a value of the field, and what is refused, depends only on its
/// kind.
pub fn kinds_go_by_names()
    ensures same { KindGoesByName }
    ensures canonical { KindOfCanonicalName }
{}

/// Under `Doc::Any` each field is a text.
pub fn fields_of_any_are_texts()
    ensures { FieldsOfAnyAreTexts }
{}
