//! The numbers of the format, places and lengths in bytes, and how much a document and what an edit brings may hold.

/// The place of FileGuid in the file.
pub const FILE_GUID: usize = 64;

/// The place of FilePart in the file.
pub const FILE_PART: usize = 80;

/// The place of DirectoryPosition in the file.
pub const DIRECTORY_POSITION: usize = 84;

/// The place of MetadataPosition in the file.
pub const METADATA_POSITION: usize = 92;

/// The place of UpdatePending in the file.
pub const UPDATE_PENDING: usize = 100;

/// The place of AttachmentDirectoryPosition in the file.
pub const ATTDIR_POSITION: usize = 104;

/// How long the front of the file header is that has all of its fields.
pub const HEADER_FRONT: usize = 112;

/// How long the segment of a new file header is: 32 bytes of its own header, and 512 of data.
pub const FILE_HEADER_LEN: usize = 544;

/// How long the image of an empty document is: a file header, and a directory without entries.
pub const EMPTY_LEN: usize = 704;

/// The least data of the file header's segment.
pub const LEAST_HEADER_DATA: usize = 80;

/// How long the data of a directory is before its entries.
pub const DIRECTORY_FRONT: usize = 128;

/// How long the data of an attachment directory is before its entries.
pub const ATTDIR_FRONT: usize = 256;

/// How far behind the front of a directory's segment its entries begin: its header and the front of its data.
pub const DIRECTORY_ENTRIES: u64 = 160;

/// How far behind the front of an attachment directory's segment its entries begin.
pub const ATTDIR_ENTRIES: u64 = 288;

/// The place in their data at which the contents of an attachment and of the metadata begin, and the least one
/// for those of a subblock.
pub const CONTENTS: usize = 256;

/// How far behind the front of their segments the contents of an attachment and of the metadata begin.
pub const CONTENTS_PLACE: u64 = 288;

/// How long an attachment entry is.
pub const A1_LEN: usize = 128;

/// How long the longest directory entry of a subblock is, which has 40 dimensions.
pub const LONGEST_ENTRY: usize = 832;

/// The most subblocks of a document: 2^20.
pub const MOST_SUBBLOCKS: usize = 1_048_576;

/// The most attachments of a document: 2^12.
pub const MOST_ATTACHMENTS: usize = 4_096;

/// The most metadata bytes of a subblock, and the most XML bytes of the metadata: 2^24.
pub const TEXT_LIMIT: usize = 16_777_216;

/// The most pixel bytes of a subblock, the most bytes of an attachment, and the most bytes that are attached
/// to a subblock or to the metadata: 2^26. What an image holds already may be longer.
pub const DATA_LIMIT: usize = 67_108_864;
