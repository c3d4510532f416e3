//! What an index keeps of a package, as a paragraph in canonical text.

ghost use Rattle.std.specs.Prelude.{◌≡◌, ◌++◌, ◌∷◌, cond, map, OnOk};
ghost use Rattle.std.specs.List.{All, flat_map};
ghost use Rattle.deb_control.specs.Canonical.{behind_colon, field_text, paragraph_text};
ghost use Rattle.deb_index.specs.Entries.{IsFaultless, provision_at};
ghost use Rattle.deb_index.specs.KeptEntries.{entry_text, later_entry};
ghost use Rattle.deb_index.specs.KeptTexts.{kept_text, multi_arch_entries, provides_entries};

use crate::entry::{Entry, version_of};
use crate::package::Package;
use crate::provisions::Provisions;
use deb_field::MultiArch;
use std::alloc::{AllocError, Global};

impl<'a> Package<'a> {
    ghost use Rattle.deb_index.specs.Kept.{listed_of};

    /// Appends what the index keeps of the package, as a paragraph in canonical text: the fields
    /// Architecture, Multi-Arch if the package has it, Package, Provides if it provides a name, and
    /// Version. Provides contains the entries that provide a name: those without a qualifier, an
    /// architecture list and a formula.
    ///
    /// # Errors
    ///
    /// Out of memory.
    pub fn details_into(&self, alloc: Global, out: &mut Vec<u8>) -> Result<(), AllocError>
        ensures { OnOk result
            (out.new.items ≡ out.old.items ++ kept_text (listed_of self.now)) }
    {
        append_field(b"Architecture", self.architecture, out)?;
        append_multi_arch(self.multi_arch, out)?;
        append_field(b"Package", self.name, out)?;
        append_provides(alloc, &self.provisions, out)?;
        append_field(b"Version", self.version, out)
    }
}

/// Appends the field Multi-Arch, if there is one.
fn append_multi_arch(value: Option<MultiArch>, out: &mut Vec<u8>) -> Result<(), AllocError>
    ensures { OnOk result
        (out.new.items ≡ out.old.items ++ paragraph_text (multi_arch_entries value)) }
{
    match value {
        Some(word) => append_field(b"Multi-Arch", word.word(), out),
        None => Ok(()),
    }
}

/// Appends the field Provides, if a name is provided.
fn append_provides(
    alloc: Global,
    provisions: &Provisions<'_>,
    out: &mut Vec<u8>,
) -> Result<(), AllocError>
    ensures { OnOk result (out.new.items ≡ out.old.items ++ paragraph_text (provides_entries
        (map (provision_at provisions.now.text.now) provisions.now.entries.now))) }
{
    let text = provisions.text;
    let Some((first, others)) = provisions.entries.split_first() else {
        return Ok(());
    };
    let mut canonical = Vec::new(alloc);
    append_entry(text, first, &mut canonical)?;
    append_others(text, others, &mut canonical)?;
    append_field(b"Provides", &canonical, out)
}

/// Appends entries, each with a comma before it.
fn append_others(text: &[u8], entries: &[Entry], out: &mut Vec<u8>) -> Result<(), AllocError>
    requires { All (IsFaultless text.now) entries.now }
    ensures { OnOk result
        (out.new.items ≡ out.old.items ++ flat_map (later_entry text.now) entries.now) }
{
    for entry in entries {
        append_later(text, entry, out)?;
    }
    Ok(())
}

/// Appends a comma and an entry.
fn append_later(text: &[u8], entry: &Entry, out: &mut Vec<u8>) -> Result<(), AllocError>
    requires { IsFaultless text.now entry.now }
    ensures { OnOk result (out.new.items ≡ out.old.items ++ later_entry text.now entry.now) }
{
    out.extend_from_slice(b", ")?;
    append_entry(text, entry, out)
}

/// Appends an entry: its name, and its version if it has one.
fn append_entry(text: &[u8], entry: &Entry, out: &mut Vec<u8>) -> Result<(), AllocError>
    requires { IsFaultless text.now entry.now }
    ensures { OnOk result (out.new.items ≡ out.old.items ++ entry_text text.now entry.now) }
{
    out.extend_from_slice(entry.name(text))?;
    let version = entry.version(text);
    if version.is_empty() {
        return Ok(());
    }
    out.extend_from_slice(b" (= ")?;
    version_of(version).canon_into(out)?;
    out.extend_from_slice(b")")?;
    Ok(())
}

/// Appends a field with its canonical body.
fn append_field(name: &[u8], body: &[u8], out: &mut Vec<u8>) -> Result<(), AllocError>
    ensures { OnOk result (out.new.items ≡ out.old.items ++ field_text (name.now, body.now)) }
{
    out.extend_from_slice(name)?;
    out.push(b':')?;
    if is_spaced(body) {
        out.push(b' ')?;
    }
    out.extend_from_slice(body)?;
    out.push(b'\n')?;
    Ok(())
}

/// Whether a space separates a body from the colon before it.
fn is_spaced(body: &[u8]) -> bool
    ensures { behind_colon body.now ≡ cond result (32 ∷ body.now) body.now }
{
    match body.first() {
        Some(byte) => *byte != b'\n',
        None => false,
    }
}
