//! Items that an undo brings back, made from their held segments. Nothing here takes memory.

ghost use Rattle.std.specs.Prelude.{◌≡◌, ◌+◌, ◌^◌, ◌≤◌, length, Some, IsSome};
ghost use Rattle.czi_doc.specs.View.{att_of, info_of, records};
ghost use Rattle.czi_format.specs.Segment.{attachment_id, header_at, metadata_id, subblock_id};
ghost use Rattle.czi_seg.specs.View.{header_of};
ghost use Rattle.czi_plan.specs.Undoing.{BeginsAsKind, IsAttachmentBack, IsMetadataOf, IsSoundHeld, IsTileBack};

use crate::plan::Records;
use czi_doc::{AttInfo, Dim, Dims, EntryInfo};
use czi_image::{AttItem, MetaItem, Tile};
use czi_seg::{SegHeader, read_header};
use czi_undo::HeldSegment;

/// The header that a held segment had.
fn header_back(held: &HeldSegment) -> SegHeader
    requires { IsSome (header_at held.now.head 0) }
    ensures { header_at held.now.head 0 ≡ Some (header_of 0 result) }
{
    read_header(&held.head).unwrap()
}

/// Records once more, in memory that there is for them.
fn list_in(records: &[Dim], memory: Records) -> Vec<Dim>
    requires { length records.now ≤ 40 }
    ensures { result.items ≡ records.now }
{
    let mut list = memory.list;
    list.clear();
    let _ = list.extend_from_slice(records);
    list
}

/// Dimensions once more, in memory that there is for them.
fn dims_in(dims: &Dims, memory: Records) -> Dims
    ensures { records result ≡ records dims.now }
{
    Dims::new(list_in(dims.list(), memory)).unwrap()
}

/// What an entry says once more, in memory that there is for its dimensions.
fn info_in(info: &EntryInfo, memory: Records) -> EntryInfo
    ensures { info_of result ≡ info_of info.now }
{
    EntryInfo {
        pixel: info.pixel,
        compression: info.compression,
        pyramid: info.pyramid,
        spare: info.spare,
        dims: dims_in(&info.dims, memory),
    }
}

/// The subblock of a held segment.
pub fn tile_back(info: &EntryInfo, held: &HeldSegment, memory: Records) -> Tile
    requires sound { IsSoundHeld subblock_id held.now }
    requires ends { held.now.span.at + held.now.span.len ≤ 2 ^ 62 }
    ensures { IsTileBack info.now held.now result }
{
    Tile {
        info: info_in(info, memory),
        span: held.span,
        head: header_back(held),
        walked: held.walked,
        begin: held.begin,
        meta: held.sizes[0],
        pixels: held.sizes[1],
        tail: held.sizes[2],
    }
}

/// The attachment of a held segment.
pub fn attachment_back(info: &AttInfo, held: &HeldSegment) -> AttItem
    requires sound { IsSoundHeld attachment_id held.now }
    requires begins { BeginsAsKind held.now }
    requires ends { held.now.span.at + held.now.span.len ≤ 2 ^ 62 }
    ensures { IsAttachmentBack info.now held.now result }
{
    AttItem {
        info: *info,
        span: held.span,
        head: header_back(held),
        walked: held.walked,
        size: held.sizes[0],
    }
}

/// The metadata of a held segment.
pub fn metadata_back(held: &HeldSegment) -> MetaItem
    requires sound { IsSoundHeld metadata_id held.now }
    requires begins { BeginsAsKind held.now }
    requires ends { held.now.span.at + held.now.span.len ≤ 2 ^ 62 }
    ensures { IsMetadataOf held.now result }
{
    MetaItem {
        span: held.span,
        head: header_back(held),
        walked: held.walked,
        xml: held.sizes[0],
        tail: held.sizes[1],
    }
}
