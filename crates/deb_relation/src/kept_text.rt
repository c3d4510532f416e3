//! Canonical text: borrowed from a body that has it, and kept otherwise.

ghost use Rattle.std.specs.Prelude.{◌≡◌};
ghost use Rattle.deb_relation.specs.KeptTexts.{bytes_of};

/// A text that a body lends, or a text of its own.
#[derive(Debug, Drop)]
pub(crate) enum KeptText<'a> {
    Lent(&'a [u8]),
    Owned(Vec<u8>),
}

impl KeptText<'_> {
    /// The bytes of the text.
    pub(crate) fn bytes(&self) -> &[u8]
        ensures { result.now ≡ bytes_of self.now }
    {
        match self {
            KeptText::Lent(text) => text,
            KeptText::Owned(text) => text,
        }
    }
}
