//! Where the fields of the ZISRAW format and of the journal stand.

/// AllocatedSize in a segment, in eight bytes.
pub const ALLOCATED: usize = 16;

/// UsedSize in a segment, in eight bytes.
pub const USED: usize = 24;

/// FileGuid in the image.
pub const FILE_GUID: usize = 64;

/// FilePart in the image, in four bytes.
pub const FILE_PART: usize = 80;

/// DirectoryPosition in the image, in eight bytes.
pub const DIRECTORY_POSITION: usize = 84;

/// MetadataPosition in the image, in eight bytes.
pub const METADATA_POSITION: usize = 92;

/// UpdatePending in the image, in four bytes.
pub const UPDATE_PENDING: usize = 100;

/// AttachmentDirectoryPosition in the image, in eight bytes.
pub const ATTACHMENTS_POSITION: usize = 104;

/// EntryCount in either directory, in four bytes.
pub const COUNT: usize = 32;

/// The entries in a directory of subblocks.
pub const ENTRIES: usize = 160;

/// FilePosition in an entry of a subblock, in eight bytes.
pub const POSITION: usize = 6;

/// FilePart in an entry of a subblock, in four bytes.
pub const ENTRY_PART: usize = 14;

/// DimensionCount in an entry of a subblock, in four bytes.
pub const DIMENSIONS: usize = 28;

/// MetadataSize in a subblock, in four bytes.
pub const META_SIZE: usize = 32;

/// AttachmentSize in a subblock or in the metadata, in four bytes.
pub const TAIL_SIZE: usize = 36;

/// DataSize in a subblock, in eight bytes.
pub const PIXELS_SIZE: usize = 40;

/// DimensionCount of a subblock's own entry in the subblock, in four bytes.
pub const OWN_DIMENSIONS: usize = 76;

/// The entries in a directory of attachments.
pub const ATTACHMENT_ENTRIES: usize = 288;

/// FilePosition in an entry of an attachment, in eight bytes.
pub const ATTACHMENT_POSITION: usize = 12;

/// DataSize in an attachment, in four bytes.
pub const DATA_SIZE: usize = 32;

/// XmlSize in the metadata, in four bytes.
pub const XML_SIZE: usize = 32;

/// The selector in a journal.
pub const SELECTOR_BYTE: usize = 1;

/// Slot A in a journal.
pub const SLOT_A: usize = 64;

/// Slot B in a journal. Its record begins with the version.
pub const SLOT_B: usize = 262_208;

/// The image's GUID in a record.
pub const RECORD_GUID: usize = 4;

/// The committed length in a record, in eight bytes.
pub const RECORD_LENGTH: usize = 20;

/// How many links a record has, in four bytes.
pub const RECORD_COUNT: usize = 28;

/// The first link in a record.
pub const RECORD_LINKS: usize = 32;
