//! Folded fields, and lists of architectures.

ghost use Rattle.std.specs.Prelude.{◌≡◌, List, ℕ, Some, IfOk, IfErr, IsTrue, refl};
ghost use Rattle.std.specs.List.{list_all};
ghost use Rattle.deb_base.specs.PackageNames.{is_arch_name};
ghost use Rattle.deb_field.specs.Words.{SpellsFolded, SpellsArchitectures, architectures_refusal, words_of, words_text};

use crate::canon::Canon;
use crate::words::{Words, words_into, words_len};
use deb_base::{Code, is_arch_name};
use std::alloc::AllocError;

/// A body whose line ends mean nothing: it means its words, in order (Debian Policy 5.1).
#[derive(Clone, Copy, Debug)]
pub struct Folded<'a> {
    body: &'a [u8],
}

impl<'a> Folded<'a> {
    ghost use Rattle.deb_field.specs.Shown.{folded_words, words_left};

    /// Returns the words of a body. Every body is folded.
    pub fn new(body: &'a [u8]) -> Folded<'a>
        ensures { SpellsFolded body.now (folded_words result) }
    {
        Folded { body }
    }

    /// Returns the words, in order.
    pub fn words(&self) -> Words<'a>
        ensures { words_left result ≡ folded_words self.now }
    {
        Words::of(self.body)
    }
}

impl Canon for Folded<'_> {
    ghost use Rattle.deb_field.specs.Shown.{folded_words};
    ghost use Rattle.deb_field.specs.WordLaws.{folded_law};

    ghost Kinds = { Unit {0} };

    ghost Meaning = { List (List ℕ) };

    ghost kind = { λ _. tt };

    ghost meaning = { folded_words };

    ghost Spells = { λ _. SpellsFolded };

    ghost text_of = { words_text };

    ghost law = { λ _. folded_law };

    ghost spelled = { λ folded. (folded.body.now, refl) };

    fn canon_len(&self) -> u64 {
        words_len(self.body)
    }

    fn canon_into(&self, out: &mut Vec<u8>) -> Result<(), AllocError> {
        words_into(self.body, out)
    }
}

/// Names of architectures, in order; there may be none (Debian Policy 5.6.8).
#[derive(Clone, Copy, Debug)]
pub struct ArchitectureWords<'a> {
    body: &'a [u8],
    ghost well_formed: { IsTrue (list_all is_arch_name (words_of body.now)) },
}

impl<'a> ArchitectureWords<'a> {
    ghost use Rattle.deb_field.specs.Shown.{architectures_named, words_left};

    /// Parses names of architectures, with white space between them.
    ///
    /// # Errors
    ///
    /// `BadArchitecture` if a word of the body isn't the name of an architecture.
    pub fn parse(body: &'a [u8]) -> Result<ArchitectureWords<'a>, Code>
        ensures ok { IfOk result
            (λ names. SpellsArchitectures body.now (architectures_named names)) }
        ensures refused { IfErr result (λ code. architectures_refusal body.now ≡ Some code) }
    {
        if !are_arch_names(body) {
            return Err(Code::BadArchitecture);
        }
        Ok(ArchitectureWords { body })
    }

    /// Returns the names, in order.
    pub fn names(&self) -> Words<'a>
        ensures { words_left result ≡ architectures_named self.now }
    {
        Words::of(self.body)
    }
}

impl Canon for ArchitectureWords<'_> {
    ghost use Rattle.deb_field.specs.Shown.{architectures_named};
    ghost use Rattle.deb_field.specs.WordLaws.{architectures_law};

    ghost Kinds = { Unit {0} };

    ghost Meaning = { List (List ℕ) };

    ghost kind = { λ _. tt };

    ghost meaning = { architectures_named };

    ghost Spells = { λ _. SpellsArchitectures };

    ghost text_of = { words_text };

    ghost law = { λ _. architectures_law };

    ghost spelled = { λ names. (names.body.now, (refl, names.well_formed)) };

    fn canon_len(&self) -> u64 {
        words_len(self.body)
    }

    fn canon_into(&self, out: &mut Vec<u8>) -> Result<(), AllocError> {
        words_into(self.body, out)
    }
}

/// Whether each word of a body is the name of an architecture.
fn are_arch_names(body: &[u8]) -> bool
    ensures { result ≡ list_all is_arch_name (words_of body.now) }
{
    Words::of(body).all(|name| is_arch_name(name))
}
