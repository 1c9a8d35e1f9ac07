//! Images that several tests use.

use crate::sample::Sample;
use crate::segment::Segment;
use std::alloc::{AllocError, Global};

/// The dimensions of the one subblock: its entry has 92 bytes.
const DIMS: &[u8] = b"C0,X0:4,Y0:2";

/// The pixels of the one subblock.
pub const PIXELS: &[u8] = b"ABCDEFGH";

/// The one subblock: a segment of 320 bytes.
pub const TILE: Segment<'static> = Segment::Tile(DIMS, PIXELS);

/// The document without subblocks, in 704 bytes: the directory stands at 544 and has no room.
pub static EMPTY: [Segment<'static>; 1] = [Segment::Directory(0)];

/// The document of one subblock, in 1280 bytes: 160 bytes at 544 are DELETED, the subblock stands at 704, and the directory
/// at 1024.
pub static ONE_TILE: [Segment<'static>; 3] = [Segment::Deleted(128), TILE, Segment::Directory(96)];

/// The same in 2304 bytes, with room for more entries.
pub static ONE_TILE_WITH_ROOM: [Segment<'static>; 3] = [
    Segment::Deleted(128),
    TILE,
    Segment::Directory(1120),
];

/// A document of one subblock, one attachment and metadata, in 2093 bytes, with no padding. The directory stands at 544 and
/// its entry at 704, the subblock at 768, the attachment directory at 1088 and its entry at 1376, the attachment at 1504, and
/// the metadata at 1800, which isn't on the walk.
pub static ATTACHED: [Segment<'static>; 9] = [
    Segment::Directory(52),
    Segment::Raw(&[0; 12]),
    Segment::Tile(b"X0", PIXELS),
    Segment::AttDir(128),
    Segment::Attachment(b"TXT", b"notes", b"four"),
    Segment::Unpadded,
    Segment::Raw(&[0; 4]),
    Segment::Metadata(b"<xml>", b""),
    Segment::Unpadded,
];

/// The image of these segments.
pub fn image_of(alloc: Global, segments: &[Segment]) -> Result<Vec<u8>, AllocError> {
    let mut sample = Sample::new(alloc)?;
    for segment in segments {
        sample.push(alloc, segment)?;
    }
    sample.build()
}

/// A document of so many subblocks of 320 bytes in a row, which begin at X = 0, 4, 8 and so on, with the directory behind them. It
/// has no room for more.
pub fn many_tiles(alloc: Global, count: u16) -> Result<Vec<u8>, AllocError> {
    let mut sample = Sample::new(alloc)?;
    for i in 0..count {
        let dims = format!(in alloc; "C0,X{}:4,Y0:2", 4 * u32::from(i))?;
        sample.push(alloc, &Segment::Tile(dims.as_bytes(), PIXELS))?;
    }
    sample.push(alloc, &Segment::Directory(92 * usize::from(count)))?;
    sample.build()
}
