//! Laws of the grammar of versions, of Debian's order of versions, and of their canonical text and
//! keys.
//!
//! Each function here does nothing. Its contract is a law, which holds for all texts, or for the
//! meanings of all versions.

ghost use Rattle.deb_version.specs.CanonicalLaws.{CanonicalTextSpells, CanonicalTextDecides, CanonicalTextStays, CanonicalTextIsShort, EqualVersionsHaveOneText};
ghost use Rattle.deb_version.specs.GrammarLaws.{SpellsOneVersion, SpellsWhereFaultless, HasOneListOfParts, ComponentsSpell, AllowedComponentsStand, EpochHasAnySize, VersionSpells};
ghost use Rattle.deb_version.specs.KeyLaws.{EqualVersionsHaveOneKey, KeyIsShort, KeysMayBeFollowed, KeysSortAsVersions, KeysSortAsVersionsSpelled};
ghost use Rattle.deb_version.specs.OrderLaws.{EqualCompareAlike, EqualOnlyIfSame, EqualOnlyIfSameSpelled, EqualTransitive, EqualVersionsHashEqually, FirstDifferenceDecides, GreaterOrEqualTransitive, LessOrEqualTransitive, LessTransitive, Reflexive, Reversed, Total, TotalOrder};
ghost use Rattle.deb_version.specs.PlaceLaws.{RevisionBytesStop, UpstreamBytesStop};

use crate::version::Version;

/// A text spells at most one version.
pub fn spells_one_version()
    ensures { SpellsOneVersion }
{}

/// A text spells a version exactly if it has none of the faults of `BadVersion`.
pub fn spells_where_faultless()
    ensures { SpellsWhereFaultless }
{}

/// A text has exactly one list of parts, which are texts without digits and numbers by turns.
pub fn has_one_list_of_parts()
    ensures { HasOneListOfParts }
{}

/// The epoch, the upstream version and the revision of a text spell it, and allowed ones are the
/// components of their spelling.
pub fn components_stand()
    ensures spell { ComponentsSpell }
    ensures stand { AllowedComponentsStand }
{}

/// An epoch may have any size: no text has the fault `EpochTooBig`.
pub fn epoch_has_any_size()
    ensures { EpochHasAnySize }
{}

/// What comes before a byte that `UpstreamByte` or `RevisionByte` reports can be continued to a
/// version. No version begins with that and the byte, unless the byte is a colon in the revision
/// and a hyphen follows later.
pub fn bad_bytes_stop()
    ensures upstream { UpstreamBytesStop }
    ensures revision { RevisionBytesStop }
{}

/// Each `Version`, however it was made, spells a text with its meaning: the text of its components.
pub fn version_spells(version: Version<'_>)
    ensures { VersionSpells version.entry }
{}

/// Each version equals itself.
pub fn order_is_reflexive()
    ensures { Reflexive }
{}

/// Of two versions one is earlier than or equal to the other, and swapping them reverses the
/// answer.
pub fn order_is_total()
    ensures total { Total }
    ensures reversed { Reversed }
    ensures total_order { TotalOrder }
{}

/// Earlier, earlier or equal, later or equal, and equal are each transitive.
pub fn order_is_transitive()
    ensures less { LessTransitive }
    ensures less_or_equal { LessOrEqualTransitive }
    ensures greater_or_equal { GreaterOrEqualTransitive }
    ensures equal { EqualTransitive }
{}

/// Equal versions compare alike with every third version.
pub fn equal_versions_compare_alike()
    ensures { EqualCompareAlike }
{}

/// Versions are equal only if they mean the same.
pub fn equal_versions_mean_the_same()
    ensures parts_of_texts { EqualOnlyIfSame }
    ensures spelled { EqualOnlyIfSameSpelled }
{}

/// Equal versions feed a hasher alike, so they hash equally by each hasher.
pub fn equal_versions_hash_equally()
    ensures { EqualVersionsHashEqually }
{}

/// At the first difference of two texts without digits, a tilde sorts first, then the end of a
/// text, then letters, then all other bytes (deb-version(7), "Sorting algorithm").
pub fn first_difference_decides()
    ensures { FirstDifferenceDecides }
{}

/// The canonical text of a version is accepted, and spells that version.
pub fn canonical_text_spells()
    ensures { CanonicalTextSpells }
{}

/// Two versions have the same canonical text exactly if they mean the same.
pub fn canonical_text_decides()
    ensures { CanonicalTextDecides }
{}

/// The canonical text of what canonical text spells is that text.
pub fn canonical_text_stays()
    ensures { CanonicalTextStays }
{}

/// Canonical text is at most twice as long as each spelling of the version.
pub fn canonical_text_is_short()
    ensures { CanonicalTextIsShort }
{}

/// Two versions are equal in Debian's order exactly if they have the same canonical text.
pub fn equal_versions_have_one_text()
    ensures { EqualVersionsHaveOneText }
{}

/// The order of the bytes of two keys is Debian's order of the versions.
pub fn keys_sort_as_versions()
    ensures parts_of_texts { KeysSortAsVersions }
    ensures spelled { KeysSortAsVersionsSpelled }
{}

/// Bytes that follow the keys of two versions decide only if the versions are equal, so a key may
/// be a part of a longer one.
pub fn keys_may_be_followed()
    ensures { KeysMayBeFollowed }
{}

/// Two versions are equal in Debian's order exactly if they have the same key.
pub fn equal_versions_have_one_key()
    ensures { EqualVersionsHaveOneKey }
{}

/// The key of a version that a text of n bytes spells has at most 2n + 8 bytes.
pub fn key_is_short()
    ensures { KeyIsShort }
{}
