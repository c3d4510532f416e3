//! A row of a table, and where its cells are.

/// The most cells of a row.
pub const CELLS: usize = 10;

/// A part of a text.
#[repr(C)]
#[derive(Clone, Copy, Debug, PartialEq, Eq)]
pub struct Span {
    /// The offset of its first byte.
    pub start: usize,
    /// The number of its bytes.
    pub length: usize,
}

/// The part of a text that no cell is.
pub(crate) const NO_SPAN: Span = Span {
    start: 0,
    length: 0,
};

/// A line of a text: the number of its kind, and where its cells are in the text.
#[repr(C)]
#[derive(Clone, Copy, Debug)]
pub struct Row {
    /// The number of its kind.
    pub kind: u8,
    /// How many cells it has.
    pub cell_count: u8,
    /// Its cells, and after them spans of length 0 at 0.
    pub cells: [Span; CELLS],
}
