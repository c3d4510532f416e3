//! Values that are the name of a package or of an architecture.

ghost use Rattle.std.specs.Prelude.{◌≡◌, ℕ, List, Some, IfOk, IfErr, IsTrue, refl};
ghost use Rattle.deb_base.specs.PackageNames.{is_package_name, is_arch_name};
ghost use Rattle.deb_field.specs.Texts.{SpellsName, name_refusal, SpellsArchitecture, architecture_refusal, text_itself};

use crate::canon::Canon;
use crate::one_line::refusal_of_line;
use deb_base::{Code, is_arch_name, is_package_name};
use std::alloc::AllocError;

/// The name of a package (Debian Policy 5.6.1). It means its bytes.
#[derive(Clone, Copy, Debug)]
pub struct PackageName<'a> {
    bytes: &'a [u8],
    ghost well_formed: { IsTrue (is_package_name bytes.now) },
}

impl<'a> PackageName<'a> {
    ghost use Rattle.deb_field.specs.Shown.{package_name};

    /// Parses the name of a package.
    ///
    /// # Errors
    ///
    /// `NotOneLine` for a body of more than one line, else `BadName` if it isn't the name of a
    /// package.
    pub fn parse(body: &'a [u8]) -> Result<PackageName<'a>, Code>
        ensures ok { IfOk result (λ name. SpellsName body.now (package_name name)) }
        ensures refused { IfErr result (λ code. name_refusal body.now ≡ Some code) }
    {
        if !is_package_name(body) {
            return Err(refusal_of_line(body, Code::BadName));
        }
        Ok(PackageName { bytes: body })
    }

    /// Returns the bytes of the name.
    pub fn bytes(&self) -> &'a [u8]
        ensures { result.now ≡ package_name self.now }
    {
        self.bytes
    }
}

impl Canon for PackageName<'_> {
    ghost use Rattle.deb_field.specs.Shown.{package_name};
    ghost use Rattle.deb_field.specs.TextLaws.{itself_law};

    ghost Kinds = { Unit {0} };

    ghost Meaning = { List ℕ };

    ghost kind = { λ _. tt };

    ghost meaning = { package_name };

    ghost Spells = { λ _. SpellsName };

    ghost text_of = { text_itself };

    ghost law = { λ _. itself_law is_package_name };

    ghost spelled = { λ name. (package_name name, (refl, name.well_formed)) };

    fn canon_len(&self) -> u64 {
        self.bytes.len() as u64
    }

    fn canon_into(&self, out: &mut Vec<u8>) -> Result<(), AllocError> {
        out.extend_from_slice(self.bytes)
    }
}

/// The name of an architecture (Debian Policy 5.6.8), or a wildcard (11.1). It means its bytes.
#[derive(Clone, Copy, Debug)]
pub struct ArchitectureName<'a> {
    bytes: &'a [u8],
    ghost well_formed: { IsTrue (is_arch_name bytes.now) },
}

impl<'a> ArchitectureName<'a> {
    ghost use Rattle.deb_field.specs.Shown.{architecture_name};

    /// Parses the name of an architecture.
    ///
    /// # Errors
    ///
    /// `NotOneLine` for a body of more than one line, else `BadArchitecture` if it isn't the name
    /// of an architecture.
    pub fn parse(body: &'a [u8]) -> Result<ArchitectureName<'a>, Code>
        ensures ok { IfOk result (λ name. SpellsArchitecture body.now (architecture_name name)) }
        ensures refused { IfErr result (λ code. architecture_refusal body.now ≡ Some code) }
    {
        if !is_arch_name(body) {
            return Err(refusal_of_line(body, Code::BadArchitecture));
        }
        Ok(ArchitectureName { bytes: body })
    }

    /// Returns the bytes of the name.
    pub fn bytes(&self) -> &'a [u8]
        ensures { result.now ≡ architecture_name self.now }
    {
        self.bytes
    }
}

impl Canon for ArchitectureName<'_> {
    ghost use Rattle.deb_field.specs.Shown.{architecture_name};
    ghost use Rattle.deb_field.specs.TextLaws.{itself_law};

    ghost Kinds = { Unit {0} };

    ghost Meaning = { List ℕ };

    ghost kind = { λ _. tt };

    ghost meaning = { architecture_name };

    ghost Spells = { λ _. SpellsArchitecture };

    ghost text_of = { text_itself };

    ghost law = { λ _. itself_law is_arch_name };

    ghost spelled = { λ name. (architecture_name name, (refl, name.well_formed)) };

    fn canon_len(&self) -> u64 {
        self.bytes.len() as u64
    }

    fn canon_into(&self, out: &mut Vec<u8>) -> Result<(), AllocError> {
        out.extend_from_slice(self.bytes)
    }
}
