//! Prefix files, written out.
use std::alloc::{AllocError, Global};

/// A prefix file: the values of the table, each with how many entries have it in a row, and the first ten numbers of the header.
pub fn prefix_file(
    alloc: Global,
    table: &[(u64, u64)],
    header: [u32; 10],
) -> Result<Vec<u8>, AllocError> {
    let mut bytes = Vec::new(alloc);
    bytes.extend_from_slice(b"KMCP")?;
    for (value, times) in table {
        for _i in 0..*times {
            bytes.extend_from_slice(&value.to_le_bytes())?;
        }
    }
    for number in &header {
        bytes.extend_from_slice(&number.to_le_bytes())?;
    }
    bytes.extend_from_slice(&[0; 24])?;
    bytes.extend_from_slice(b"\x40\0\0\0KMCP")?;
    Ok(bytes)
}
