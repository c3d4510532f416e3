//! Parses a version into its components.

ghost use Rattle.std.specs.Prelude.{◌^◌, ◌<◌, length, IsTrue, option_copied};
ghost use Rattle.deb_version.specs.Grammar.{components_with, are_components, spelling};

use crate::components::Pieces;
use crate::fault::BadVersion;

/// A Debian version number, which borrows its text (Debian Policy 5.6.12).
#[derive(Clone, Copy, Debug)]
pub struct Version<'a> {
    pub(crate) epoch: Option<&'a [u8]>,
    pub(crate) upstream: &'a [u8],
    pub(crate) revision: Option<&'a [u8]>,
    ghost well_formed: { IsTrue
        (are_components (components_with (option_copied epoch) upstream.now
        (option_copied revision))) },
    ghost short: { length
        (spelling (components_with (option_copied epoch) upstream.now (option_copied revision)))
        < 2 ^ 63 },
}

impl<'a> Version<'a> {
    ghost use Rattle.std.specs.Prelude.{◌≡◌, ◌↔◌, Some, None, IfOk, IfErr, IsOk, IsOkAnd};
    ghost use Rattle.deb_version.specs.Parts.{Meaning};
    ghost use Rattle.deb_version.specs.Grammar.{SpellsVersion};
    ghost use Rattle.deb_version.specs.Faults.{first_fault};
    ghost use Rattle.deb_version.specs.Places.{version_in};
    ghost use Rattle.deb_version.specs.Version.{components_of, meaning_of};

    /// Parses a version, `[epoch:]upstream[-revision]` (Debian Policy 5.6.12).
    ///
    /// The epoch ends at the first colon, and may have any size. The revision follows the last
    /// hyphen after that. The version borrows the text, and takes no memory.
    ///
    /// # Errors
    ///
    /// The first fault of the text, in the order of [`BadVersion`].
    pub fn parse(text: &'a [u8]) -> Result<Version<'a>, BadVersion>
        ensures ok { IfOk result (λ v. SpellsVersion text.now (meaning_of v)) }
        ensures spelled { IfOk result (λ v. text.now ≡ spelling (components_of v)) }
        ensures accepted { (m : Meaning) → SpellsVersion text.now m
            → IsOkAnd result (λ v. meaning_of v ≡ m) }
        ensures refused { IfErr result (λ e. first_fault text.now ≡ Some e) }
        ensures faultless { IsOk result ↔ (first_fault text.now ≡ None) }
    {
        match Pieces::judged(text) {
            Ok(pieces) => Ok(Version {
                epoch: pieces.epoch,
                upstream: pieces.upstream,
                revision: pieces.revision,
            }),
            Err(fault) => Err(fault),
        }
    }

    // The version that a text without fault spells, which is cut, and not judged again.
    pub(crate) fn of_faultless(text: &'a [u8]) -> Version<'a>
        requires { first_fault text.now ≡ None }
        ensures { meaning_of result ≡ version_in text.now }
    {
        let Pieces {
            epoch,
            upstream,
            revision,
        } = Pieces::of(text);
        Version {
            epoch,
            upstream,
            revision,
        }
    }
}
