//! Ids of segments.

/// The id of a segment: 16 bytes, ASCII padded with zero bytes.
#[derive(Clone, Copy, PartialEq, Eq)]
pub enum SegId {
    /// `ZISRAWFILE`: the file header.
    File,
    /// `ZISRAWDIRECTORY`: the directory of subblocks.
    Directory,
    /// `ZISRAWSUBBLOCK`: a subblock.
    Subblock,
    /// `ZISRAWMETADATA`: the metadata.
    Metadata,
    /// `ZISRAWATTACH`: an attachment.
    Attachment,
    /// `ZISRAWATTDIR`: the directory of attachments.
    AttDir,
    /// `DELETED`: a segment that is no longer used.
    Deleted,
    /// An id that is none of these.
    Other([u8; 16]),
}

const FILE: [u8; 16] = *b"ZISRAWFILE\0\0\0\0\0\0";

const DIRECTORY: [u8; 16] = *b"ZISRAWDIRECTORY\0";

const SUBBLOCK: [u8; 16] = *b"ZISRAWSUBBLOCK\0\0";

const METADATA: [u8; 16] = *b"ZISRAWMETADATA\0\0";

const ATTACHMENT: [u8; 16] = *b"ZISRAWATTACH\0\0\0\0";

const ATT_DIR: [u8; 16] = *b"ZISRAWATTDIR\0\0\0\0";

const DELETED: [u8; 16] = *b"DELETED\0\0\0\0\0\0\0\0\0";

impl SegId {
    ghost use Rattle.std.specs.Prelude.{◌≡◌};
    ghost use Rattle.czi_seg.specs.View.{id_bytes, seg_id};

    /// The id with these bytes. It is `Other` exactly where the bytes are none of the seven ids that the
    /// format names.
    #[tactic(auto, unfolding(crate::specs::View::seg_id, czi_format::specs::Segment::file_id, czi_format::specs::Segment::directory_id, czi_format::specs::Segment::subblock_id, czi_format::specs::Segment::metadata_id, czi_format::specs::Segment::attachment_id, czi_format::specs::Segment::attdir_id, czi_format::specs::Segment::deleted_id))]
    pub fn from_bytes(id: [u8; 16]) -> SegId
        ensures value { result ≡ seg_id id }
        ensures bytes { id_bytes result ≡ id }
    {
        if id == FILE {
            SegId::File
        } else if id == DIRECTORY {
            SegId::Directory
        } else if id == SUBBLOCK {
            SegId::Subblock
        } else if id == METADATA {
            SegId::Metadata
        } else if id == ATTACHMENT {
            SegId::Attachment
        } else if id == ATT_DIR {
            SegId::AttDir
        } else if id == DELETED {
            SegId::Deleted
        } else {
            SegId::Other(id)
        }
    }

    /// The id's bytes.
    #[tactic(auto, unfolding(czi_format::specs::Segment::file_id, czi_format::specs::Segment::directory_id, czi_format::specs::Segment::subblock_id, czi_format::specs::Segment::metadata_id, czi_format::specs::Segment::attachment_id, czi_format::specs::Segment::attdir_id, czi_format::specs::Segment::deleted_id))]
    pub fn to_bytes(&self) -> [u8; 16]
        ensures { result ≡ id_bytes self.now }
    {
        match *self {
            SegId::File => FILE,
            SegId::Directory => DIRECTORY,
            SegId::Subblock => SUBBLOCK,
            SegId::Metadata => METADATA,
            SegId::Attachment => ATTACHMENT,
            SegId::AttDir => ATT_DIR,
            SegId::Deleted => DELETED,
            SegId::Other(id) => id,
        }
    }
}
