//! The bytes of an empty document.

ghost use Rattle.std.specs.Prelude.{◌≡◌};
ghost use Rattle.czi_format.specs.Empty.{empty_identity, empty_image};

use czi_format::{DIRECTORY_FRONT, EMPTY_LEN, FILE_HEADER_LEN};
use czi_num::{write_bytes, write_i32};
use czi_seg::{FileHeader, SegHeader, SegId, write_file_header, write_header};

/// The identity of a file of its own: version 1.0, the GUID as PrimaryFileGuid and as FileGuid, and FilePart 0.
fn empty_identity(guid: &[u8; 16]) -> [u8; 52]
    ensures { result ≡ empty_identity guid.now }
{
    let mut identity = [0u8; 52];
    write_i32(&mut identity, 0, 1);
    write_bytes(&mut identity, 16, guid);
    write_bytes(&mut identity, 32, guid);
    identity
}

/// The 704 bytes of the empty document with a GUID, in its stored order: a file header, and right behind it a directory
/// without entries.
pub fn empty_image(guid: &[u8; 16]) -> [u8; EMPTY_LEN]
    ensures { result ≡ empty_image guid.now }
{
    let mut bytes = [0u8; EMPTY_LEN];
    let header = FileHeader {
        identity: empty_identity(guid),
        directory: FILE_HEADER_LEN as i64,
        metadata: 0,
        pending: 0,
        attachments: 0,
        allocated: 512,
    };
    write_bytes(&mut bytes, 0, &write_file_header(&header));
    let directory = SegHeader {
        id: SegId::Directory,
        allocated: DIRECTORY_FRONT as u64,
        used: DIRECTORY_FRONT as u64,
    };
    write_bytes(&mut bytes, FILE_HEADER_LEN, &write_header(&directory));
    bytes
}
