//! Counts the paragraphs of a file that were returned, and the length of their canonical text.

ghost use Rattle.std.specs.Prelude.{◌≡◌, ◌+◌, ◌≤◌, ◌<◌, Some, None, IfSome, IfNone};
ghost use Rattle.deb_control.specs.Totals.{bytes_with};
ghost use Rattle.deb_base.specs.declared.body.TheConstants.{FILE_LIMIT};

use deb_base::{FILE_LIMIT, PARAGRAPH_LIMIT};

/// How many paragraphs were given, and how long their canonical text is as a file.
#[derive(Clone, Copy)]
pub(crate) struct Totals {
    pub(crate) paragraphs: u64,
    pub(crate) bytes: u64,
    ghost within: { bytes ≤ FILE_LIMIT },
    ghost few: { paragraphs ≤ bytes + 1 },
}

impl Totals {
    /// Nothing was given.
    pub(crate) fn none() -> Totals
        ensures paragraphs { result.paragraphs ≡ 0 }
        ensures bytes { result.bytes ≡ 0 }
    {
        Totals {
            paragraphs: 0,
            bytes: 0,
        }
    }

    /// With a further paragraph, whose canonical text has this length; or `None` where the file's
    /// has too many bytes then.
    pub(crate) fn with(self, length: u64) -> Option<Totals>
        requires { length ≤ PARAGRAPH_LIMIT }
        ensures some { IfSome result
            (λ totals. (totals.paragraphs ≡ self.paragraphs + 1)
            × (totals.bytes ≡ bytes_with self.paragraphs self.bytes length)) }
        ensures none { IfNone result (FILE_LIMIT < bytes_with self.paragraphs self.bytes length) }
    {
        let separator = u64::from(self.paragraphs > 0);
        let bytes = self.bytes + separator + length;
        if bytes > FILE_LIMIT {
            return None;
        }
        Some(Totals {
            paragraphs: self.paragraphs + 1,
            bytes,
        })
    }
}
