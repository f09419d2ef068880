//! Reads and lines of equal letters.
use std::alloc::{AllocError, Global};

/// Appends so many equal letters, a tab, a count and a line feed.
pub fn push_line(text: &mut Vec<u8>, letter: u8, k: usize, count: &str) -> Result<(), AllocError> {
    for _ in 0..k {
        text.push(letter)?;
    }
    text.push(b'\t')?;
    text.extend_from_slice(count.as_bytes())?;
    text.push(b'\n')?;
    Ok(())
}

/// A read of so many equal letters.
pub fn equal(alloc: Global, letter: u8, length: usize) -> Result<Vec<u8>, AllocError> {
    let mut read = Vec::new(alloc);
    read.resize(length, letter)?;
    Ok(read)
}
