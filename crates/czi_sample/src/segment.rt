//! What a sample of an image is made of.

/// A subblock: what its directory entry says, and its contents.
#[derive(Clone, Copy)]
pub struct Subblock<'a> {
    /// The pixel type's code.
    pub pixel: i32,
    /// The compression's code.
    pub compression: i32,
    /// The dimensions, as `C0,X0:4,Y0:2`.
    pub dims: &'a [u8],
    /// The metadata.
    pub meta: &'a [u8],
    /// The pixels.
    pub pixels: &'a [u8],
    /// The attachment.
    pub tail: &'a [u8],
}

/// A segment, or bytes that are none, behind what stands already.
#[derive(Clone, Copy)]
pub enum Segment<'a> {
    /// The directory of subblocks, with room for so many bytes of entries.
    Directory(usize),
    /// A subblock of pixel type 0 without metadata and attachment: its dimensions and its pixels.
    Tile(&'a [u8], &'a [u8]),
    /// A subblock.
    Subblock(Subblock<'a>),
    /// The directory of attachments, with room for so many bytes of entries.
    AttDir(usize),
    /// An attachment: its type, its name and its bytes.
    Attachment(&'a [u8], &'a [u8], &'a [u8]),
    /// The metadata: the XML, and what is attached to it.
    Metadata(&'a [u8], &'a [u8]),
    /// A DELETED segment with so many bytes of data.
    Deleted(usize),
    /// A segment with this id and so many bytes of data.
    Foreign(&'a [u8; 16], usize),
    /// Bytes that are no segment.
    Raw(&'a [u8]),
    /// The padding of the segment before is taken away: its AllocatedSize is its UsedSize.
    Unpadded,
}
