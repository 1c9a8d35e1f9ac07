//! What the two directories say of subblocks and attachments, and lists of bytes.

ghost use Rattle.std.specs.Prelude.{◌≡◌, IfOk};

use crate::dimensions::Dims;
use std::alloc::AllocError;

/// What a directory entry (DirectoryEntryDV) says of a subblock, its position aside.
#[derive(PartialEq, Eq, Drop)]
pub struct EntryInfo {
    /// The pixel type's code.
    pub pixel: i32,
    /// The compression's code.
    pub compression: i32,
    /// The pyramid type.
    pub pyramid: u8,
    /// Five bytes that the format leaves open, kept as they are stored.
    pub spare: [u8; 5],
    /// The dimensions.
    pub dims: Dims,
}

impl EntryInfo {
    ghost use Rattle.czi_doc.specs.View.{info_of};

    /// The same values once more, or want of memory.
    pub fn try_copy(&self) -> Result<EntryInfo, AllocError>
        ensures { IfOk result (λ i. info_of i ≡ info_of self.now) }
    {
        let dims = self.dims.try_copy()?;
        Ok(EntryInfo {
            pixel: self.pixel,
            compression: self.compression,
            pyramid: self.pyramid,
            spare: self.spare,
            dims,
        })
    }
}

/// What an attachment directory entry (AttachmentEntryA1) says of an attachment, its position aside.
#[derive(Clone, Copy, PartialEq, Eq)]
pub struct AttInfo {
    /// The content's GUID, in the stored order of its bytes.
    pub guid: [u8; 16],
    /// The content's type, padded with zero bytes.
    pub kind: [u8; 8],
    /// The attachment's name, padded with zero bytes.
    pub name: [u8; 80],
}

/// A list of bytes.
#[derive(PartialEq, Eq, Drop)]
pub struct Bytes {
    list: Vec<u8>,
}

impl Bytes {
    ghost use Rattle.czi_doc.specs.View.{bytes_of};

    /// The bytes of a list.
    pub fn new(list: Vec<u8>) -> Bytes
        ensures { bytes_of result ≡ list.items }
    {
        Bytes { list }
    }

    /// The bytes.
    pub fn as_slice(&self) -> &[u8]
        ensures { result.now ≡ bytes_of self.now }
    {
        self.list.as_slice()
    }
}
