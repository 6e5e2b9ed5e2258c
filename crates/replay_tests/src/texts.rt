//! Texts and lines that have the same part many times.
use std::alloc::{AllocError, Global};

/// Adds a part to a text this many times.
pub fn add_times(text: &mut Vec<u8>, part: &[u8], times: usize) -> Result<(), AllocError> {
    for _ in 0..times {
        text.extend_from_slice(part)?;
    }
    Ok(())
}

/// A text that is this part, this many times.
pub fn repeated(alloc: Global, part: &[u8], times: usize) -> Result<Vec<u8>, AllocError> {
    let mut text = Vec::new(alloc);
    add_times(&mut text, part, times)?;
    Ok(text)
}
