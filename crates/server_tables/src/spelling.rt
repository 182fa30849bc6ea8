//! Bytes, as the lines of the files spell them.

use std::alloc::Global;

/// The bytes that stand in hexadecimal, `-` for none.
pub fn bytes_of(alloc: Global, spelling: &str) -> Option<Vec<u8>> {
    if spelling == "-" {
        Some(Vec::new(alloc))
    } else {
        hex::decode(alloc, spelling).ok()
    }
}
