//! What a call appends to a list of two thousand bytes.

/// Whether a list has a text of this length after two thousand bytes.
pub fn is_appended(out: &[u8], text: &[u8], len: u64) -> bool {
    len == text.len() as u64 && out.get(2_000..) == Some(text)
}
