//! Versions.

ghost use Rattle.std.specs.Prelude.{◌≡◌, Some, None, IfOk, IfErr};
ghost use Rattle.deb_field.specs.Versions.{version_refusal};
ghost use Rattle.deb_version.specs.Grammar.{SpellsVersion, spelling};
ghost use Rattle.deb_version.specs.Canonical.{version_text};
ghost use Rattle.deb_version.specs.Parts.{Meaning as VersionMeaning};
ghost use Rattle.deb_version.specs.Version.{meaning_of, components_of};

use crate::canon::Canon;
use crate::one_line::refusal_of_line;
use deb_base::Code;
use deb_version::Version;
use std::alloc::AllocError;

impl Canon for Version<'_> {
    ghost use Rattle.deb_field.specs.VersionLaw.{version_law, version_spelled};

    ghost Kinds = { Unit {0} };

    ghost Meaning = { VersionMeaning };

    ghost kind = { λ _. tt };

    ghost meaning = { meaning_of };

    ghost Spells = { λ _. SpellsVersion };

    ghost text_of = { version_text };

    ghost law = { λ _. version_law };

    ghost spelled = { λ v. (spelling (components_of v), version_spelled v) };

    fn canon_len(&self) -> u64 {
        self.canon_len()
    }

    fn canon_into(&self, out: &mut Vec<u8>) -> Result<(), AllocError> {
        self.canon_into(out)
    }
}

/// Parses a body as a version (Debian Policy 5.6.12).
///
/// # Errors
///
/// `NotOneLine` for a body of more than one line, else `BadVersion` if it is no version.
pub fn parse_version(body: &[u8]) -> Result<Version<'_>, Code>
    ensures ok { IfOk result (λ v. SpellsVersion body.now (meaning_of v)) }
    ensures refused { IfErr result (λ code. version_refusal body.now ≡ Some code) }
{
    match Version::parse(body) {
        Ok(version) => Ok(version),
        Err(_) => Err(refusal_of_line(body, Code::BadVersion)),
    }
}
