//! Images of documents.

use czi_image::{Index, read_index};
use czi_rig::MemRig;
pub(crate) use czi_sample::Part;
use czi_sample::{ATTACHED, changed, image_of};
use std::alloc::{AllocError, Global};
use std::test::Fail;

/// An image of so many bytes, with changes, that shows a document of one subblock, one attachment and metadata. They stand where
/// `ATTACHED` says.
pub(crate) fn document(alloc: Global, len: usize, changes: &[Part]) -> Result<Vec<u8>, AllocError> {
    changed(alloc, &image_of(alloc, &ATTACHED)?, len, changes)
}

/// The index of an image that isn't refused.
pub(crate) fn index_in(alloc: Global, image: &[u8]) -> Result<Index, Fail> {
    let mut rig = MemRig::new(alloc, image, b"")?;
    read_index(alloc, &mut rig).map_err(|_| Fail::new("refused"))
}
