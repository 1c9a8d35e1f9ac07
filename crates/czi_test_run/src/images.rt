//! Images for tests.

pub(crate) use czi_sample::Part;
use czi_sample::{Segment, TILE, changed, image_of};
use std::alloc::{AllocError, Global};

/// The document without subblocks.
pub(crate) const PLAIN: &[Segment] = &[Segment::Directory(0)];

/// The same, followed by 100 bytes that are no segment.
pub(crate) const TAILED: &[Segment] = &[Segment::Directory(0), Segment::Raw(&[0xFF; 100])];

/// The document of one subblock, as `czi_sample::ONE_TILE`.
pub(crate) const ONE_SUBBLOCK: &[Segment] = &[Segment::Deleted(128), TILE, Segment::Directory(96)];

/// The document without subblocks in so many bytes, with changes.
pub(crate) fn empty_document(
    alloc: Global,
    len: usize,
    changes: &[Part],
) -> Result<Vec<u8>, AllocError> {
    changed(alloc, &image_of(alloc, PLAIN)?, len, changes)
}

/// The document with one subblock in so many bytes, with changes.
pub(crate) fn one_tile(alloc: Global, len: usize, changes: &[Part]) -> Result<Vec<u8>, AllocError> {
    changed(alloc, &image_of(alloc, ONE_SUBBLOCK)?, len, changes)
}
