//! A text that is a version, without its components.

ghost use Rattle.std.specs.Prelude.{◌≡◌, ◌↔◌, Some, None, IfOk, IfErr, IsOk};
ghost use Rattle.deb_version.specs.Faults.{first_fault};
ghost use Rattle.deb_version.specs.Version.{meaning_of};
ghost use Rattle.deb_version.specs.Places.{version_in};

use crate::fault::BadVersion;
use crate::version::Version;

/// A text that is a version (Debian Policy 5.6.12). It is one slice, from which the version is cut
/// when it is needed: for lists of many versions.
#[derive(Clone, Copy, Debug)]
pub struct VersionText<'a> {
    text: &'a [u8],
    ghost faultless: { first_fault text.now ≡ None },
}

impl<'a> VersionText<'a> {
    ghost use Rattle.deb_version.specs.Kept.{text_of};

    /// Checks a text. Takes no memory.
    ///
    /// # Errors
    ///
    /// Those of [`Version::parse`].
    pub fn parse(text: &'a [u8]) -> Result<VersionText<'a>, BadVersion>
        ensures ok { IfOk result (λ checked. text_of checked ≡ text.now) }
        ensures refused { IfErr result (λ fault. first_fault text.now ≡ Some fault) }
        ensures faultless { IsOk result ↔ (first_fault text.now ≡ None) }
    {
        match Version::parse(text) {
            Ok(_) => Ok(VersionText { text }),
            Err(fault) => Err(fault),
        }
    }

    /// Returns the text, as it was given.
    pub fn text(&self) -> &'a [u8]
        ensures { result.now ≡ text_of self.now }
    {
        self.text
    }

    /// Returns the version, which borrows the text. Takes no memory, and checks no byte again.
    pub fn version(&self) -> Version<'a>
        ensures { meaning_of result ≡ version_in (text_of self.now) }
    {
        Version::of_faultless(self.text)
    }
}
