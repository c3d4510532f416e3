//! A version that owns its text.

ghost use Rattle.std.specs.Prelude.{◌≡◌, None, IfOk};
ghost use Rattle.deb_version.specs.Canonical.{version_text};
ghost use Rattle.deb_version.specs.Faults.{first_fault};
ghost use Rattle.deb_version.specs.Version.{meaning_of};
ghost use Rattle.deb_version.specs.Places.{version_in};

use crate::version::Version;
use std::alloc::{AllocError, Global};

/// A version that owns its canonical text (Debian Policy 5.6.12).
#[derive(Debug, Drop)]
pub struct CanonicalVersion {
    text: Vec<u8>,
    ghost faultless: { first_fault text.items ≡ None },
    ghost canonical: { version_text (version_in text.items) ≡ text.items },
}

impl CanonicalVersion {
    ghost use Rattle.deb_version.specs.Kept.{kept_version};

    /// Copies the canonical text of a version.
    ///
    /// # Errors
    ///
    /// Out of memory.
    pub fn of(alloc: Global, version: &Version<'_>) -> Result<CanonicalVersion, AllocError>
        ensures { IfOk result (λ kept. kept_version kept ≡ meaning_of version.now) }
    {
        let mut text = Vec::with_capacity(alloc, version.canon_len() as usize)?;
        version.canon_into(&mut text)?;
        Ok(CanonicalVersion { text })
    }

    /// Returns the version, which borrows the text. Takes no memory.
    pub fn version(&self) -> Version<'_>
        ensures { meaning_of result ≡ kept_version self.now }
    {
        Version::of_faultless(&self.text)
    }

    /// Returns the canonical text.
    pub fn text(&self) -> &[u8]
        ensures { result.now ≡ version_text (kept_version self.now) }
    {
        &self.text
    }
}
