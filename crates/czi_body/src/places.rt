//! Where things stand in the data of subblocks and of the metadata, in bytes from the data's front.

/// MetadataSize of a subblock, in four bytes.
pub(crate) const META_SIZE: usize = 0;

/// XmlSize of the metadata, in four bytes.
pub(crate) const XML_SIZE: usize = 0;

/// AttachmentSize of either, in four bytes.
pub(crate) const TAIL_SIZE: usize = 4;

/// DataSize of a subblock, in eight bytes.
pub(crate) const PIXELS_SIZE: usize = 8;

/// A subblock's own directory entry, behind the three sizes.
pub(crate) const OWN_ENTRY: usize = 16;

/// The number of dimension records in it, in four bytes.
pub(crate) const OWN_COUNT: usize = 44;
