//! Text values: of any number of lines, or of one line.

ghost use Rattle.std.specs.Prelude.{◌≡◌, ℕ, List, Some, IfOk, IfErr, IsTrue, refl};
ghost use Rattle.deb_field.specs.LineBegins.{begins_with_newline};
ghost use Rattle.deb_field.specs.Texts.{SpellsText, SpellsLine, text_itself, is_one_line, one_line_refusal};

use crate::canon::Canon;
use crate::one_line::holds_newline;
use deb_base::Code;
use std::alloc::AllocError;

/// A body, unchanged, of any number of lines. It means its bytes.
#[derive(Clone, Copy, Debug)]
pub struct Text<'a> {
    bytes: &'a [u8],
}

impl<'a> Text<'a> {
    ghost use Rattle.deb_field.specs.Shown.{text_bytes};

    /// Returns the text of a body. Every body is one.
    pub fn new(body: &'a [u8]) -> Text<'a>
        ensures { SpellsText body.now (text_bytes result) }
    {
        Text { bytes: body }
    }

    /// Returns the bytes of the text.
    pub fn bytes(&self) -> &'a [u8]
        ensures { result.now ≡ text_bytes self.now }
    {
        self.bytes
    }

    /// Returns whether the first byte is a newline.
    pub fn begins_with_newline(&self) -> bool
        ensures { result ≡ begins_with_newline (text_bytes self.now) }
    {
        matches!(self.bytes, [b'\n', ..])
    }
}

impl Canon for Text<'_> {
    ghost use Rattle.deb_field.specs.Shown.{text_bytes};
    ghost use Rattle.deb_field.specs.TextLaws.{itself_law};
    ghost use Rattle.deb_field.specs.Texts.{is_any_text};

    ghost Kinds = { Unit {0} };

    ghost Meaning = { List ℕ };

    ghost kind = { λ _. tt };

    ghost meaning = { text_bytes };

    ghost Spells = { λ _. SpellsText };

    ghost text_of = { text_itself };

    ghost law = { λ _. itself_law is_any_text };

    ghost spelled = { λ text. (text_bytes text, (refl, refl)) };

    fn canon_len(&self) -> u64 {
        self.bytes.len() as u64
    }

    fn canon_into(&self, out: &mut Vec<u8>) -> Result<(), AllocError> {
        out.extend_from_slice(self.bytes)
    }
}

/// A body of one line. It means its bytes.
#[derive(Clone, Copy, Debug)]
pub struct Line<'a> {
    bytes: &'a [u8],
    ghost one_line: { IsTrue (is_one_line bytes.now) },
}

impl<'a> Line<'a> {
    ghost use Rattle.deb_field.specs.Shown.{line_bytes};

    /// Parses a body of one line, which may be empty.
    ///
    /// # Errors
    ///
    /// `NotOneLine` for a body of more lines.
    pub fn parse(body: &'a [u8]) -> Result<Line<'a>, Code>
        ensures ok { IfOk result (λ line. SpellsLine body.now (line_bytes line)) }
        ensures refused { IfErr result (λ code. one_line_refusal body.now ≡ Some code) }
    {
        if holds_newline(body) {
            return Err(Code::NotOneLine);
        }
        Ok(Line { bytes: body })
    }

    /// Returns the bytes of the line.
    pub fn bytes(&self) -> &'a [u8]
        ensures { result.now ≡ line_bytes self.now }
    {
        self.bytes
    }
}

impl Canon for Line<'_> {
    ghost use Rattle.deb_field.specs.Shown.{line_bytes};
    ghost use Rattle.deb_field.specs.TextLaws.{itself_law};

    ghost Kinds = { Unit {0} };

    ghost Meaning = { List ℕ };

    ghost kind = { λ _. tt };

    ghost meaning = { line_bytes };

    ghost Spells = { λ _. SpellsLine };

    ghost text_of = { text_itself };

    ghost law = { λ _. itself_law is_one_line };

    ghost spelled = { λ line. (line_bytes line, (refl, line.one_line)) };

    fn canon_len(&self) -> u64 {
        self.bytes.len() as u64
    }

    fn canon_into(&self, out: &mut Vec<u8>) -> Result<(), AllocError> {
        out.extend_from_slice(self.bytes)
    }
}
