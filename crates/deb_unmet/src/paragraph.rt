//! A paragraph as its lines name it.

ghost use Rattle.std.specs.Prelude.{◌≡◌, ◌++◌, ◌∷◌, OnOk};
ghost use Rattle.deb_unmet.specs.Paragraphs.{heading_in};

use crate::asked::Asked;
use crate::line_texts::LineTexts;
use itoa::Buffer;
use std::alloc::AllocError;

/// A paragraph whose lines are written.
#[derive(Clone, Copy)]
pub struct Paragraph<'a> {
    /// What its file is asked.
    pub asked: Asked,
    /// Its number in its file, counted from 1.
    pub number: u64,
    /// The texts that its lines have of it.
    pub texts: &'a LineTexts<'a>,
}

impl Paragraph<'_> {
    /// Appends the heading of the paragraph's lines: its number, package, version and architecture,
    /// each after a space, and a space.
    ///
    /// # Errors
    ///
    /// Out of memory.
    pub fn append_heading(&self, out: &mut Vec<u8>) -> Result<(), AllocError>
        ensures { OnOk result (out.new.items ≡ out.old.items ++ heading_in self.now) }
    {
        let mut buffer = Buffer::new();
        append_spaced(out, buffer.format(self.number).as_bytes())?;
        append_spaced(out, self.texts.name)?;
        append_spaced(out, self.texts.version)?;
        append_spaced(out, self.texts.architecture)?;
        out.push(b' ')?;
        Ok(())
    }
}

/// Appends a space and a text.
///
/// # Errors
///
/// Out of memory.
pub fn append_spaced(out: &mut Vec<u8>, text: &[u8]) -> Result<(), AllocError>
    ensures { OnOk result (out.new.items ≡ out.old.items ++ 32 ∷ text.now) }
{
    out.push(b' ')?;
    out.extend_from_slice(text)
}
