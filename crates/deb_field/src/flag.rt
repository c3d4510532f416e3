//! The values of Essential and of Multi-Arch: one of a few words.

ghost use Rattle.std.specs.Prelude.{◌≡◌, Some, IfOk, IfErr, refl};
ghost use Rattle.std.specs.Str.{bytes_eq};
ghost use Rattle.deb_field.specs.Flags.{flag_text, SpellsFlag, flag_refusal, multi_arch_text, SpellsMultiArch, multi_arch_refusal};

use crate::canon::Canon;
use crate::one_line::refusal_of_line;
use deb_base::Code;
use std::alloc::AllocError;

/// The value of the field Essential (Debian Policy 5.6.9).
#[derive(Clone, Copy, Debug, PartialEq, Eq)]
pub enum Flag {
    /// `yes`
    Yes,
    /// `no`
    No,
}

impl Flag {
    /// Parses a body: `yes` or `no`, in lower case.
    ///
    /// # Errors
    ///
    /// `NotOneLine` for a body of more than one line, else `BadWord` if it is neither word.
    pub fn parse(body: &[u8]) -> Result<Flag, Code>
        ensures ok { IfOk result (λ flag. SpellsFlag body.now flag) }
        ensures refused { IfErr result (λ code. flag_refusal body.now ≡ Some code) }
    {
        if is_word(body, b"yes") {
            Ok(Flag::Yes)
        } else if is_word(body, b"no") {
            Ok(Flag::No)
        } else {
            Err(refusal_of_line(body, Code::BadWord))
        }
    }

    /// Returns the word of the flag.
    pub fn word(self) -> &'static [u8]
        ensures { result.now ≡ flag_text self }
    {
        match self {
            Flag::Yes => b"yes",
            Flag::No => b"no",
        }
    }
}

impl Canon for Flag {
    ghost use Rattle.deb_field.specs.declared.flag.Flag.{Flag};
    ghost use Rattle.deb_field.specs.FlagLaws.{flag_law};

    ghost Kinds = { Unit {0} };

    ghost Meaning = { Flag };

    ghost kind = { λ _. tt };

    ghost meaning = { λ flag. flag };

    ghost Spells = { λ _. SpellsFlag };

    ghost text_of = { flag_text };

    ghost law = { λ _. flag_law };

    ghost spelled = { λ flag. (flag_text flag, refl) };

    fn canon_len(&self) -> u64 {
        self.word().len() as u64
    }

    fn canon_into(&self, out: &mut Vec<u8>) -> Result<(), AllocError> {
        out.extend_from_slice(self.word())
    }
}

/// The value of the field Multi-Arch (deb-control(5)).
#[derive(Clone, Copy, Debug, PartialEq, Eq)]
pub enum MultiArch {
    /// `no`
    No,
    /// `same`
    Same,
    /// `foreign`
    Foreign,
    /// `allowed`
    Allowed,
}

impl MultiArch {
    /// Parses a body: `no`, `same`, `foreign` or `allowed`, in lower case.
    ///
    /// # Errors
    ///
    /// `NotOneLine` for a body of more than one line, else `BadWord` if it is none of the words.
    pub fn parse(body: &[u8]) -> Result<MultiArch, Code>
        ensures ok { IfOk result (λ word. SpellsMultiArch body.now word) }
        ensures refused { IfErr result (λ code. multi_arch_refusal body.now ≡ Some code) }
    {
        if is_word(body, b"no") {
            Ok(MultiArch::No)
        } else if is_word(body, b"same") {
            Ok(MultiArch::Same)
        } else if is_word(body, b"foreign") {
            Ok(MultiArch::Foreign)
        } else if is_word(body, b"allowed") {
            Ok(MultiArch::Allowed)
        } else {
            Err(refusal_of_line(body, Code::BadWord))
        }
    }

    /// Returns the word.
    pub fn word(self) -> &'static [u8]
        ensures { result.now ≡ multi_arch_text self }
    {
        match self {
            MultiArch::No => b"no",
            MultiArch::Same => b"same",
            MultiArch::Foreign => b"foreign",
            MultiArch::Allowed => b"allowed",
        }
    }
}

impl Canon for MultiArch {
    ghost use Rattle.deb_field.specs.declared.flag.MultiArch.{MultiArch};
    ghost use Rattle.deb_field.specs.FlagLaws.{multi_arch_law};

    ghost Kinds = { Unit {0} };

    ghost Meaning = { MultiArch };

    ghost kind = { λ _. tt };

    ghost meaning = { λ word. word };

    ghost Spells = { λ _. SpellsMultiArch };

    ghost text_of = { multi_arch_text };

    ghost law = { λ _. multi_arch_law };

    ghost spelled = { λ word. (multi_arch_text word, refl) };

    fn canon_len(&self) -> u64 {
        self.word().len() as u64
    }

    fn canon_into(&self, out: &mut Vec<u8>) -> Result<(), AllocError> {
        out.extend_from_slice(self.word())
    }
}

/// Whether a body is this word.
fn is_word(body: &[u8], word: &[u8]) -> bool
    ensures { result ≡ bytes_eq body.now word.now }
{
    body == word
}
