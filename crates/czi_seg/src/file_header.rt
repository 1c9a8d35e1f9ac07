//! The file header.

ghost use Rattle.std.specs.Prelude.{◌≡◌, ℕ, ◌≤◌, ◌++◌, ◌↔◌, List, pos, IfOk, IfErr, length};
ghost use Rattle.czi_format.specs.Bytes.{bytes_at, i32_at};
ghost use Rattle.czi_format.specs.Live.{file_header_bytes, front_head, has_header_sizes, header_fields, header_with};
ghost use Rattle.czi_format.specs.HeaderRules.{HeaderRefusal, header_rules};
ghost use Rattle.czi_seg.specs.View.{header_of};
ghost use Rattle.czi_seg.specs.HeaderView.{ReadsHeader, TellsHeaderRule, SaysOfHeader, fault_of, head_of};

use crate::header::{SegHeader, read_header, write_header};
use crate::id::SegId;
use czi_format::{
    ATTDIR_POSITION, DIRECTORY_POSITION, FILE_HEADER_LEN, FILE_PART, HEADER_FRONT,
    LEAST_HEADER_DATA, METADATA_POSITION, UPDATE_PENDING,
};
use czi_num::{read_bytes, read_i32, read_i64, write_bytes, write_i32, write_i64};

/// The file header of the first part of a file: the segment at place 0.
#[derive(Clone, Copy, PartialEq, Eq)]
pub struct FileHeader {
    /// The first 52 bytes of its data: the version, eight reserved bytes, PrimaryFileGuid, FileGuid and
    /// FilePart.
    pub identity: [u8; 52],
    /// DirectoryPosition: the place of the directory of subblocks, or 0 where there is none.
    pub directory: i64,
    /// MetadataPosition: the place of the metadata, or 0 where there is none.
    pub metadata: i64,
    /// UpdatePending: not 0 while a writer is at work.
    pub pending: i32,
    /// AttachmentDirectoryPosition: the place of the directory of attachments, or 0 where there is none.
    pub attachments: i64,
    /// AllocatedSize: how many bytes of data the segment has.
    pub allocated: u64,
}

/// Why no file header was read.
#[derive(Clone, Copy, PartialEq, Eq)]
pub enum HeaderFault {
    /// There are fewer than 112 bytes.
    Short,
    /// The id isn't `ZISRAWFILE`.
    BadId,
    /// A size is negative, AllocatedSize is under 80, or UsedSize is neither 0 nor from 80 to AllocatedSize.
    BadSizes,
    /// FilePart, which isn't 0: the file is one of several.
    MultiPart(i32),
}

impl FileHeader {
    /// FileGuid, in the stored order of its bytes.
    pub fn guid(&self) -> [u8; 16]
        ensures { result ≡ bytes_at self.now.identity 32 16 }
    {
        read_bytes(&self.identity, 32)
    }
}

/// The file header at the front of the bytes. Whether its extent lies in them isn't looked at.
///
/// It is refused by the first of these rules that fails: there are 112 bytes (`Short`), the id is
/// `ZISRAWFILE` (`BadId`), AllocatedSize is at least 80 and UsedSize is 0 or from 80 to AllocatedSize
/// (`BadSizes`), and FilePart is 0 (`MultiPart`).
pub fn read_file_header(bytes: &[u8]) -> Result<FileHeader, HeaderFault>
    ensures read { IfOk result (ReadsHeader bytes.now) }
    ensures refused { (refusal : HeaderRefusal) → (result ≡ Err (fault_of refusal)) ↔ (header_rules bytes.now ≡ Err refusal) }
    ensures says { IfErr result (SaysOfHeader bytes.now) }
{
    let header = read_segment(bytes)?;
    Ok(FileHeader {
        identity: read_bytes(bytes, 32),
        directory: read_i64(bytes, DIRECTORY_POSITION),
        metadata: read_i64(bytes, METADATA_POSITION),
        pending: read_i32(bytes, UPDATE_PENDING),
        attachments: read_i64(bytes, ATTDIR_POSITION),
        allocated: header.allocated,
    })
}

/// The segment of the file header at the front of the bytes, after all rules.
#[tactic(auto, unfolding(czi_format::specs::HeaderRules::header_rules, czi_format::specs::Segment::file_id))]
fn read_segment(bytes: &[u8]) -> Result<SegHeader, HeaderFault>
    ensures passes { IfOk result (λ header. header_rules bytes.now ≡ Ok (header_fields bytes.now (header_of 0 header))) }
    ensures long { IfOk result (λ _. HEADER_FRONT ≤ length bytes.now) }
    ensures refused { IfErr result (TellsHeaderRule bytes.now) }
{
    if bytes.len() < HEADER_FRONT {
        return Err(HeaderFault::Short);
    }
    if read_bytes::<16>(bytes, 0) != *b"ZISRAWFILE\0\0\0\0\0\0" {
        return Err(HeaderFault::BadId);
    }
    let Some(header) = read_header(&read_bytes(bytes, 0)) else {
        return Err(HeaderFault::BadSizes)
    };
    if !has_header_sizes(&header) {
        return Err(HeaderFault::BadSizes);
    }
    let part = read_i32(bytes, FILE_PART);
    if part != 0 {
        return Err(HeaderFault::MultiPart(part));
    }
    Ok(header)
}

/// At least 80 bytes of data, and sound sizes. A UsedSize of 0 reads as AllocatedSize.
fn has_header_sizes(header: &SegHeader) -> bool
    ensures { result ≡ has_header_sizes (header_of 0 header.now) }
{
    let least = LEAST_HEADER_DATA as u64;
    least <= header.allocated
        && (header.used == 0 || (least <= header.used && header.used <= header.allocated))
}

/// The 544 bytes of a file header with 512 bytes of data, all of them used.
pub fn write_file_header(h: &FileHeader) -> [u8; FILE_HEADER_LEN]
    requires allocated { h.now.allocated ≡ 512 }
    requires first { i32_at h.now.identity 48 ≡ pos 0 }
    ensures written { result ≡ file_header_bytes (head_of h.now) }
    ensures reads_back { (rest : List ℕ) → header_rules (result ++ rest) ≡ Ok (header_with (head_of h.now)) }
    ensures head_back { (rest : List ℕ) → front_head (result ++ rest) ≡ head_of h.now }
{
    let mut bytes = [0u8; FILE_HEADER_LEN];
    let segment = SegHeader {
        id: SegId::File,
        allocated: 512,
        used: 512,
    };
    write_bytes(&mut bytes, 0, &write_header(&segment));
    write_bytes(&mut bytes, 32, &h.identity);
    write_i64(&mut bytes, DIRECTORY_POSITION, h.directory);
    write_i64(&mut bytes, METADATA_POSITION, h.metadata);
    write_i32(&mut bytes, UPDATE_PENDING, h.pending);
    write_i64(&mut bytes, ATTDIR_POSITION, h.attachments);
    bytes
}
