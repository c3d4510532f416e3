//! The types of an explanation: whether a file is accepted, or what its refusal is about.

use crate::cause::Cause;
use deb_base::Refusal;

/// The answer for a file.
#[derive(Debug, Drop)]
pub enum Explained {
    /// The file is accepted, with this number of paragraphs.
    Accepted(u64),
    /// The file is refused, for this reason.
    Refused(Explanation),
}

/// Why a file is refused.
#[derive(Debug, Drop)]
pub struct Explanation {
    /// The code and the line, counted from 1, that `deb_control::check` returns.
    pub refusal: Refusal,
    /// What the refusal is about.
    pub subject: Subject,
}

/// What a refusal is about. Texts are copies of bytes of the file.
#[derive(Debug, Drop)]
pub enum Subject {
    /// The file or a paragraph as a whole: its length, or the number of paragraphs. There are no
    /// details.
    Whole,
    /// The line that is refused, without its newline.
    Line(Vec<u8>),
    /// The text before the colon of the line that is refused: not a field name, or one that the
    /// paragraph already has.
    Name(Vec<u8>),
    /// A required field that is missing: the first that the paragraph lacks, in the order of the
    /// table (Debian Policy 5.3 and 5.4).
    Missing(&'static [u8]),
    /// The field whose value is refused.
    Field(RefusedField),
}

/// A field whose value is refused.
#[derive(Debug, Drop)]
pub struct RefusedField {
    /// The name as spelled in the file.
    pub name: Vec<u8>,
    /// The column at which the body begins in its line, counted from 1.
    pub column: usize,
    /// The body, without the spaces and tabs at its ends, but with its line ends.
    pub body: Vec<u8>,
    /// What is wrong in the body; only for versions and relations.
    pub cause: Option<Cause>,
}
