// The bytes of rows.
use std::alloc::{AllocError, Global};

// A row: the first and the last code point of a range, and its value.
pub type Row = (u32, u32, u16);

// The bytes of rows, by Rust's own conversions.
pub fn bytes_of(alloc: Global, rows: &[Row]) -> Result<Vec<u8>, AllocError> {
    let mut bytes = Vec::new(alloc);
    for (first, last, value) in rows {
        bytes.extend_from_slice(&first.to_le_bytes())?;
        bytes.extend_from_slice(&last.to_le_bytes())?;
        bytes.extend_from_slice(&value.to_le_bytes())?;
    }
    Ok(bytes)
}
