//! The fronts of subblock data and of metadata data.

ghost use Rattle.std.specs.Prelude.{◌≡◌, ◌+◌, ◌≤◌, option_map, IfSome};
ghost use Rattle.czi_format.specs.Contents.{meta_head, sub_head};
ghost use Rattle.czi_format.specs.Partial.{natural};
ghost use Rattle.czi_body.specs.View.{meta_head_of, sub_head_of};

use crate::places::{META_SIZE, OWN_COUNT, OWN_ENTRY, PIXELS_SIZE, TAIL_SIZE, XML_SIZE};
use czi_format::CONTENTS;
use czi_num::{read_i32, read_i64};

/// The front of subblock data: how long its contents are, in bytes, and where they begin in the data.
///
/// The contents are the metadata, the pixels and the attachment, one behind the other.
#[derive(Clone, Copy, PartialEq, Eq)]
pub struct SubHead {
    /// MetadataSize.
    pub meta: u32,
    /// DataSize.
    pub pixels: u64,
    /// AttachmentSize.
    pub tail: u32,
    /// The place in the data at which the contents begin.
    pub begin: u64,
}

/// The front of subblock data, of which the first 48 bytes are looked at: three sizes and the number of
/// dimension records of the subblock's own directory entry.
///
/// None exactly where a size is negative or that number isn't 0 to 40.
#[tactic(auto, unfolding(czi_format::specs::Contents::sub_head))]
pub fn read_sub_head(bytes: &[u8; 48]) -> Option<SubHead>
    ensures read { option_map sub_head_of result ≡ sub_head bytes.now }
    ensures begin { IfSome result (λ h. (256 ≤ h.begin) × (h.begin ≤ 848)) }
{
    let meta = natural_32(read_i32(bytes, META_SIZE))?;
    let tail = natural_32(read_i32(bytes, TAIL_SIZE))?;
    let pixels = natural_64(read_i64(bytes, PIXELS_SIZE))?;
    let own = natural_32(read_i32(bytes, OWN_COUNT))?;
    if own > 40 {
        return None;
    }
    let begin = (OWN_ENTRY + 32 + 20 * own as usize).max(CONTENTS) as u64;
    Some(SubHead {
        meta,
        pixels,
        tail,
        begin,
    })
}

/// The front of metadata data: how long its contents are, in bytes. They begin at place 256 of the data.
#[derive(Clone, Copy, PartialEq, Eq)]
pub struct MetaHead {
    /// XmlSize.
    pub xml: u32,
    /// AttachmentSize.
    pub tail: u32,
}

/// The front of metadata data, or none exactly where a size is negative.
#[tactic(auto, unfolding(czi_format::specs::Contents::meta_head))]
pub fn read_meta_head(bytes: &[u8; 8]) -> Option<MetaHead>
    ensures { option_map meta_head_of result ≡ meta_head bytes.now }
{
    let xml = natural_32(read_i32(bytes, XML_SIZE))?;
    let tail = natural_32(read_i32(bytes, TAIL_SIZE))?;
    Some(MetaHead { xml, tail })
}

/// A number of four bytes that isn't negative.
fn natural_32(stored: i32) -> Option<u32>
    ensures { result ≡ natural stored }
{
    if stored < 0 {
        None
    } else {
        Some(stored as u32)
    }
}

/// A number of eight bytes that isn't negative.
fn natural_64(stored: i64) -> Option<u64>
    ensures { result ≡ natural stored }
{
    if stored < 0 {
        None
    } else {
        Some(stored as u64)
    }
}
