//! Parts of files, files with other bytes in one place, and files with more bytes at the end.

use std::alloc::{AllocError, Global};

/// Returns the bytes from `from` up to, but not including, `to`; none if they aren't all there.
pub fn part(bytes: &[u8], from: usize, to: usize) -> &[u8] {
    bytes.get(from..to).unwrap_or(&[])
}

/// Overwrites the bytes from `at` on, as far as there are any.
fn patch(bytes: &mut [u8], at: usize, with: &[u8]) {
    for (to, from) in bytes.iter_mut().skip(at).zip(with) {
        *to = *from;
    }
}

/// Returns the bytes with those from `at` on overwritten.
pub fn patched(alloc: Global, bytes: &[u8], at: usize, with: &[u8]) -> Result<Vec<u8>, AllocError> {
    let mut out = Vec::from_slice(alloc, bytes)?;
    patch(&mut out, at, with);
    Ok(out)
}

/// Returns the bytes with more behind them.
pub fn joined(alloc: Global, bytes: &[u8], more: &[u8]) -> Result<Vec<u8>, AllocError> {
    let mut out = Vec::from_slice(alloc, bytes)?;
    out.extend_from_slice(more)?;
    Ok(out)
}

/// Returns the bytes with `count` times the same byte behind them.
pub fn filled(alloc: Global, bytes: &[u8], byte: u8, count: u32) -> Result<Vec<u8>, AllocError> {
    let mut out = Vec::from_slice(alloc, bytes)?;
    out.resize(bytes.len().saturating_add(count as usize), byte)?;
    Ok(out)
}
