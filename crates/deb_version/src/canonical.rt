//! Writes the canonical text of a version, and computes its length.

ghost use Rattle.std.specs.Prelude.{◌≡◌, ◌+◌, ◌*◌, ◌≤◌, ◌==◌, ◌++◌, length, IsTrue, OnOk, OnErr, if◌then◌else◌};
ghost use Rattle.std.specs.Option.{option_copied, option_map};
ghost use Rattle.deb_version.specs.Cuts.{cut_of};
ghost use Rattle.deb_version.specs.Parts.{part_of, value_of, parts_of};
ghost use Rattle.deb_version.specs.Canonical.{digits_of, ends_in_letter, last_digits_of, component_text, is_no_revision, canonical_epoch, canonical_revision, version_text, Extends};
ghost use Rattle.deb_version.specs.Grammar.{spelling};
ghost use Rattle.deb_version.specs.Version.{components_of, meaning_of};

use crate::component::canonical_component;
use crate::cut::Cut;
use crate::run::without_zeros;
use crate::version::Version;
use std::alloc::AllocError;

impl Version<'_> {
    /// Returns the length in bytes of the canonical text, which `canon_into` appends. It is at most
    /// twice the length of the text that was parsed. Takes no memory.
    pub fn canon_len(&self) -> u64
        ensures value { result ≡ length (version_text (meaning_of self.now)) }
        ensures short { result ≤ 2 * length (spelling (components_of self.now)) }
    {
        let mut len = component_len(self.upstream);
        if let Some(epoch) = self.written_epoch() {
            len += epoch.len() as u64 + 1;
        }
        if let Some(revision) = self.written_revision() {
            len += component_len(revision) + 1;
        }
        len
    }

    /// Appends the canonical text to `out`. Two versions have the same canonical text exactly if
    /// they are equal in Debian's order (deb-version(7), "Sorting algorithm").
    ///
    /// Numbers are written without leading zeros. At the end of the upstream version and of the
    /// revision the number 0 is left out exactly if a letter comes before it. An epoch of 0 is
    /// written only if the upstream version contains a colon, and a revision of 0 only if the
    /// upstream version contains a hyphen.
    ///
    /// # Errors
    ///
    /// Out of memory; `out` is then unchanged.
    pub fn canon_into(&self, out: &mut Vec<u8>) -> Result<(), AllocError>
        ensures ok { OnOk result
            (out.new.items ≡ out.old.items ++ version_text (meaning_of self.now)) }
        ensures unchanged { OnErr result (out.new.items ≡ out.old.items) }
    {
        let len = out.len();
        let written = self.append_to(out);
        if written.is_err() {
            out.truncate(len);
        }
        written
    }

    /// Appends the canonical text, or a prefix of it if it runs out of memory.
    fn append_to(&self, out: &mut Vec<u8>) -> Result<(), AllocError>
        ensures ok { OnOk result
            (out.new.items ≡ out.old.items ++ version_text (meaning_of self.now)) }
        ensures begun { OnErr result (Extends out.old.items out.new.items) }
    {
        if let Some(epoch) = self.written_epoch() {
            out.extend_from_slice(epoch)?;
            out.push(b':')?;
        }
        append_component(self.upstream, out)?;
        if let Some(revision) = self.written_revision() {
            out.push(b'-')?;
            append_component(revision, out)?;
        }
        Ok(())
    }

    /// The digits of the epoch, if canonical text has one: it isn't 0, or the upstream version
    /// contains a colon.
    fn written_epoch(&self) -> Option<&[u8]>
        ensures { option_copied result ≡ canonical_epoch (meaning_of self.now) }
    {
        // Without an epoch the upstream version has no colon.
        let Some(epoch) = self.epoch else {
            return None;
        };
        let digits = without_zeros(epoch);
        if !digits.is_empty() {
            Some(digits)
        } else if self.upstream.contains(&b':') {
            Some(b"0")
        } else {
            None
        }
    }

    /// The revision, if canonical text has one: it doesn't mean the same as an absent one, or the
    /// upstream version contains a hyphen.
    fn written_revision(&self) -> Option<&[u8]>
        ensures { option_map (λ revision. component_text (parts_of revision)) (option_copied result)
            ≡ canonical_revision (meaning_of self.now) }
    {
        let revision = self.revision.unwrap_or(b"0");
        if is_no_revision(revision) && !self.upstream.contains(&b'-') {
            None
        } else {
            Some(revision)
        }
    }
}

/// How many bytes the canonical text of a component has.
fn component_len(component: &[u8]) -> u64
    ensures value { result ≡ length (component_text (parts_of component.now)) }
    ensures bound { result ≤ length component.now + 1 }
{
    if is_canonical(component) {
        return component.len() as u64;
    }
    let mut len = 0;
    let mut rest = component;
    loop {
        let (cut, after) = Cut::first(rest);
        len += cut.text.len() as u64 + canonical_digits(cut, after.is_empty()).len() as u64;
        if after.is_empty() {
            return len;
        }
        rest = after;
    }
}

/// Appends the canonical text of a component, or a prefix of it if it runs out of memory.
fn append_component(component: &[u8], out: &mut Vec<u8>) -> Result<(), AllocError>
    ensures ok { OnOk result
        (out.new.items ≡ out.old.items ++ component_text (parts_of component.now)) }
    ensures begun { OnErr result (Extends out.old.items out.new.items) }
{
    if is_canonical(component) {
        return out.extend_from_slice(component);
    }
    let mut rest = component;
    loop {
        let (cut, after) = Cut::first(rest);
        out.extend_from_slice(cut.text)?;
        out.extend_from_slice(canonical_digits(cut, after.is_empty()))?;
        if after.is_empty() {
            return Ok(());
        }
        rest = after;
    }
}

/// Whether a component is spelled as its canonical text, as most are; `false` says nothing.
fn is_canonical(component: &[u8]) -> bool
    ensures { IsTrue result → component_text (parts_of component.now) ≡ component.now }
{
    matches!(canonical_component(component), Some(len) if len == component.len())
}

/// The number of a cut without leading zeros; in the last cut the number 0 is left out exactly if
/// the cut's text ends in a letter.
pub(crate) fn canonical_digits(cut: Cut<'_>, is_last: bool) -> &[u8]
    ensures { result.now ≡
        (if is_last then last_digits_of (part_of (cut_of cut.entry)) else digits_of
        (value_of cut.entry.run.now)) }
{
    let digits = without_zeros(cut.run);
    if !digits.is_empty() {
        digits
    } else if is_last && ends_in_letter(cut.text) {
        b""
    } else {
        b"0"
    }
}

fn ends_in_letter(text: &[u8]) -> bool
    ensures { result ≡ ends_in_letter text.now }
{
    text.last().is_some_and(|b| b.is_ascii_alphabetic())
}

/// Whether a revision means the same as an absent one: it consists of zeros.
pub(crate) fn is_no_revision(revision: &[u8]) -> bool
    ensures { result ≡ is_no_revision (parts_of revision.now) }
{
    without_zeros(revision).is_empty()
}
