//! Long texts.

use std::alloc::{AllocError, Global};

/// A text that is continued to so many bytes by `x`, and then has an end.
pub fn long_text(
    alloc: Global,
    front: &[u8],
    len: usize,
    end: &[u8],
) -> Result<Vec<u8>, AllocError> {
    let mut text = Vec::new(alloc);
    text.extend_from_slice(front)?;
    text.resize(len, b'x')?;
    text.extend_from_slice(end)?;
    Ok(text)
}
