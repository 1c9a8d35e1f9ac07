//! The data of new attachment segments, put into a region of memory.

ghost use Rattle.std.specs.Prelude.{◌≡◌, ◌≤◌, ◌+◌, ◌++◌, length, pos, replicate};
ghost use Rattle.czi_format.specs.Bytes.{i32_bytes};
ghost use Rattle.czi_format.specs.Data.{attachment_data};
ghost use Rattle.czi_format.specs.Entry.{IsA1, a1_bytes};
ghost use Rattle.czi_format.specs.Span.{round32};
ghost use Rattle.czi_num.specs.Padding.{fill};
ghost use Rattle.czi_region.specs.Pieces.{PutsPiece, room};
ghost use Rattle.czi_doc.specs.View.{att_of};
ghost use Rattle.czi_att.specs.Staged.{att_length};

use crate::entry::write_a1;
use czi_doc::{AttInfo, DATA_LIMIT};
use czi_format::CONTENTS;
use czi_num::{round32, write_bytes, write_u32};
use czi_region::{Piece, Region, whole_piece};

/// The place of DataSize in the data, in four bytes.
const DATA_SIZE: usize = 0;

/// The place of the attachment's own entry in the data.
const OWN_ENTRY: usize = 16;

/// How long the data of an attachment of `n` bytes is, padded to a multiple of 32. `n` is within the limit of
/// an edit.
pub fn att_size(n: usize) -> usize
    requires { n ≤ DATA_LIMIT }
    ensures value { result ≡ round32 (att_length n) }
    ensures reaches { att_length n ≤ result }
{
    round32((CONTENTS + n) as u64) as usize
}

/// Puts the data of an attachment into the region as one piece: its own entry with the place of its segment,
/// its bytes, each at its place, and zeros up to a multiple of 32. The region has room for as many bytes as
/// `att_size` says.
pub fn stage_att(region: &mut Region, info: &AttInfo, position: i64, bytes: &[u8]) -> Piece
    requires bytes { length bytes.now ≤ DATA_LIMIT }
    requires room { round32 (att_length (length bytes.now)) ≤ room region.old }
    ensures staged { PutsPiece region.old region.new result (attachment_data (record { info = att_of info.now; position = position }) bytes.now (fill (att_length (length bytes.now)))) }
    ensures own { IsA1 (record { info = att_of info.now; position = position }) }
    ensures size { result.len ≡ round32 (att_length (length bytes.now)) }
{
    let len = att_size(bytes.len());
    let front = region.put(&att_front(info, position, bytes.len()));
    region.put(bytes);
    region.zeros(len - (CONTENTS + bytes.len()));
    whole_piece();
    Piece { at: front.at, len }
}

/// What stands before the bytes in the data of an attachment.
fn att_front(info: &AttInfo, position: i64, size: usize) -> [u8; CONTENTS]
    requires { size ≤ DATA_LIMIT }
    ensures own { IsA1 (record { info = att_of info.now; position = position }) }
    ensures written { result ≡ i32_bytes (pos size) ++ (replicate 12 0 ++ (a1_bytes (record { info = att_of info.now; position = position }) ++ replicate 112 0)) }
{
    let mut front = [0; CONTENTS];
    write_u32(&mut front, DATA_SIZE, size as u32);
    write_bytes(&mut front, OWN_ENTRY, &write_a1(info, position));
    front
}
