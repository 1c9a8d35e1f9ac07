//! Files that are made of parts, and the crashes that are tried.

use czi_rig::Pick;
pub(crate) use czi_sample::Part;
use czi_sample::{changed, put};
use std::alloc::{AllocError, Global};
use std::process::Abort;

/// The content of each kind that a crash may leave.
pub(crate) static PICKS: [Pick; 4] = [
    Pick::Old,
    Pick::New,
    Pick::Fill(0x57, true),
    Pick::Fill(0x5a, false),
];

/// Zeros with these parts, and with the changes over them.
pub(crate) fn file_of(
    _rt: &impl Abort,
    alloc: Global,
    len: usize,
    parts: &[Part],
    changes: &[Part],
) -> Result<Vec<u8>, AllocError> {
    let mut bytes = changed(alloc, b"", len, parts)?;
    put(&mut bytes, changes)?;
    Ok(bytes)
}
