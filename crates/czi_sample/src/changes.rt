//! Bytes that are written over others.

use czi_num::write_bytes;
use std::alloc::{AllocError, Global};

/// Bytes at a place.
pub type Part = (usize, &'static [u8]);

/// Writes a part over bytes, where it fits.
pub(crate) fn put_at(bytes: &mut [u8], at: usize, part: &[u8]) -> Result<(), AllocError> {
    if part.len() > bytes.len() || at > bytes.len() - part.len() {
        return Err(AllocError);
    }
    write_bytes(bytes, at, part);
    Ok(())
}

/// Writes parts over bytes, one after another.
pub fn put(bytes: &mut [u8], parts: &[Part]) -> Result<(), AllocError> {
    for (at, part) in parts {
        put_at(bytes, *at, part)?;
    }
    Ok(())
}

/// Bytes in a file of so many, cut or followed by zeros, with parts written over them.
pub fn changed(
    alloc: Global,
    bytes: &[u8],
    len: usize,
    parts: &[Part],
) -> Result<Vec<u8>, AllocError> {
    let mut file = Vec::from_slice(alloc, bytes)?;
    file.resize(len, 0)?;
    put(&mut file, parts)?;
    Ok(file)
}
