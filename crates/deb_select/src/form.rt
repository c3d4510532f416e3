//! What is written of each paragraph that is selected.

/// What is written of each paragraph that is selected.
#[derive(Drop)]
pub enum Form {
    /// Its lines as they are in the file. An empty line stands between two paragraphs.
    Paragraphs,
    /// The lines of the fields with these names, in the order of the names. A paragraph without any
    /// of them leaves nothing, and no empty line.
    Fields(Vec<Vec<u8>>),
    /// One line: the canonical texts of the fields with these names, with a tab between two.
    Table(Vec<Vec<u8>>),
    /// One line of JSON (RFC 8259): an object with the number of the first line of the paragraph,
    /// and with its fields, each in the form that its kind has in JSON.
    Json,
    /// Nothing: the paragraphs are counted alone.
    Nothing,
}
