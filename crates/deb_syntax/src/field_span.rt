//! The spans of a paragraph's fields in its bytes.

use deb_base::FieldId;

/// Where a field is in the bytes of its paragraph. The file has fewer than 2^32 bytes.
#[derive(Clone, Copy)]
pub(crate) struct FieldSpan {
    /// The number of the field's first line.
    pub(crate) line: u32,
    /// Where the field's first line, and so its name, begins.
    pub(crate) start: u32,
    /// Where the colon after the name is.
    pub(crate) colon: u32,
    /// Where the last line that belongs to the field ends, without its newline.
    pub(crate) end: u32,
    /// Which field of the table it is.
    pub(crate) id: FieldId,
}
