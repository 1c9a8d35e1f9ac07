//! Headers of segments.

ghost use Rattle.std.specs.Prelude.{◌≡◌, ℕ, ◌+◌, ◌^◌, ◌≤◌, ◌++◌, List, Some, IfSome, option_map};
ghost use Rattle.czi_format.specs.Bytes.{bytes_at};
ghost use Rattle.czi_format.specs.Partial.{natural};
ghost use Rattle.czi_format.specs.Segment.{header_at, header_bytes};
ghost use Rattle.czi_seg.specs.View.{header_of, seg_id};

use crate::id::SegId;
use czi_num::{read_bytes, read_i64, write_bytes, write_u64};

/// The header of a segment, with both sizes as they are stored.
#[derive(Clone, Copy, PartialEq, Eq)]
pub struct SegHeader {
    /// The segment's id.
    pub id: SegId,
    /// AllocatedSize: how many bytes stand behind the header.
    pub allocated: u64,
    /// UsedSize: how many of them are used.
    pub used: u64,
}

/// The header in 32 bytes, or none exactly where one of its two sizes is negative.
///
/// The 32 bytes at a place of an image are read as the header at that place.
#[tactic(auto, unfolding(czi_format::specs::Segment::header_at))]
pub fn read_header(bytes: &[u8; 32]) -> Option<SegHeader>
    ensures read { option_map (header_of 0) result ≡ header_at bytes.now 0 }
    ensures anywhere { (image : List ℕ) (at : ℕ) → bytes_at image at 32 ≡ bytes.now → option_map (header_of at) result ≡ header_at image at }
    ensures id { IfSome result (λ h. h.id ≡ seg_id (bytes_at bytes.now 0 16)) }
{
    let allocated = natural(read_i64(bytes, 16))?;
    let used = natural(read_i64(bytes, 24))?;
    Some(SegHeader {
        id: SegId::from_bytes(read_bytes(bytes, 0)),
        allocated,
        used,
    })
}

/// A number that isn't negative.
fn natural(stored: i64) -> Option<u64>
    ensures { result ≡ natural stored }
{
    if stored < 0 {
        None
    } else {
        Some(stored as u64)
    }
}

/// The 32 bytes of a header.
pub fn write_header(h: &SegHeader) -> [u8; 32]
    requires allocated { h.now.allocated ≤ 2 ^ 62 }
    requires used { h.now.used ≤ 2 ^ 62 }
    ensures written { result ≡ header_bytes (header_of 0 h.now) }
    ensures reads_back { (rest : List ℕ) → header_at (result ++ rest) 0 ≡ Some (header_of 0 h.now) }
{
    let mut bytes = [0u8; 32];
    write_bytes(&mut bytes, 0, &h.id.to_bytes());
    write_u64(&mut bytes, 16, h.allocated);
    write_u64(&mut bytes, 24, h.used);
    bytes
}
