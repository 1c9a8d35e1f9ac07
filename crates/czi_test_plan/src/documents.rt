//! Documents over which edits are planned, as their indexes.

use czi_image::{Index, read_index};
use czi_rig::MemRig;
use czi_sample::{Part, Segment, TILE, changed, image_of, many_tiles};
use std::alloc::Global;
use std::test::Fail;

/// The document without subblocks, in 704 bytes: the directory at 544 has no room.
pub(crate) const EMPTY: &[Segment] = &[Segment::Directory(0)];

/// The document of one subblock, in 1280 bytes: 160 bytes at 544 are DELETED, the subblock stands at 704 and the directory at
/// 1024.
pub(crate) const ONE: &[Segment] = &[Segment::Deleted(128), TILE, Segment::Directory(96)];

/// A document of three subblocks of 320 bytes, from 544 on, of one dimension that starts at 0, 1 and 2. Their directory stands at 1504,
/// and the document has 1824 bytes.
pub(crate) const THREE: &[Segment] = &[
    Segment::Tile(b"X0:1", b"ABCDEFGH"),
    Segment::Tile(b"X1:1", b"ABCDEFGH"),
    Segment::Tile(b"X2:1", b"ABCDEFGH"),
    Segment::Directory(160),
];

// The index of an image in so many bytes, with changes.
fn index_of(alloc: Global, image: &[u8], len: usize, changes: &[Part]) -> Result<Index, Fail> {
    let image = changed(alloc, image, len, changes)?;
    let mut rig = MemRig::new(alloc, &image, b"")?;
    let index = read_index(alloc, &mut rig).ok().ok_or("refused")?;
    Ok(index)
}

/// The index of the document of these segments.
pub(crate) fn index_in(alloc: Global, segments: &[Segment]) -> Result<Index, Fail> {
    let image = image_of(alloc, segments)?;
    index_of(alloc, &image, image.len(), &[])
}

/// The same in so many bytes, with changes.
pub(crate) fn index_with(
    alloc: Global,
    segments: &[Segment],
    len: usize,
    changes: &[Part],
) -> Result<Index, Fail> {
    index_of(alloc, &image_of(alloc, segments)?, len, changes)
}

/// The index of a document of 720 subblocks of 320 bytes, which begin at X = 0, 4, 8 and so on, in so many bytes and with changes. Its
/// directory stands at 230,944; without changes it has no room, and the document 297,344 bytes.
pub(crate) fn many(alloc: Global, len: usize, changes: &[Part]) -> Result<Index, Fail> {
    index_of(alloc, &many_tiles(alloc, 720)?, len, changes)
}
