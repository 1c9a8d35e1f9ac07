//! The walk of an image whose live segments are known, with what it shows beside them.

ghost use Rattle.std.specs.Prelude.{◌≡◌, ◌^◌, ◌≤◌, List, map, take, IfOk};
ghost use Rattle.std.specs.Option.{ForSome};
ghost use Rattle.czi_format.specs.Segment.{Segment};
ghost use Rattle.czi_format.specs.Walk.{IsWalk};
ghost use Rattle.czi_num.specs.Span.{span_of};
ghost use Rattle.czi_rig.specs.State.{seen_of};
ghost use Rattle.czi_rig.specs.Quiet.{Untouched};
ghost use Rattle.czi_spans.specs.Apart.{first_of};
ghost use Rattle.czi_rig.specs.Faults.{Faults, fault_at};
ghost use Rattle.czi_walk.specs.Devices.{walk_device};
ghost use Rattle.czi_walk.specs.Marks.{AreLive};
ghost use Rattle.czi_walk.specs.Survey.{Shows, AreFree};
ghost use Rattle.czi_walk.specs.View.{segment_of, IsRow, EndBy, Knows};

use crate::fault::WalkFault;
use crate::marks::{count_unknown, deleted_extents, walk_end};
use crate::walking::walk_known;
use czi_num::Span;
use czi_rig::{File, Rig};
use czi_seg::SegHeader;
use std::alloc::{AllocError, Global};

/// A walk, and what it shows beside the live segments.
#[derive(Drop)]
pub struct Survey {
    /// The extents and headers of the walk's segments, in order of place.
    pub walk: Vec<(Span, SegHeader)>,
    /// The extents of `DELETED` segments, in order of place, that edits may write over.
    pub extents: Vec<Span>,
    /// How many segments of the walk are neither live nor `DELETED`.
    pub unknown: u64,
    /// Where the walk ends, in bytes.
    pub walk_end: u64,
}

/// The spans of items, in their order.
pub fn spans_of(alloc: Global, items: &[(Span, SegHeader)]) -> Result<Vec<Span>, AllocError>
    ensures { IfOk result (λ v. map span_of v.items ≡ map first_of items.now) }
{
    let mut spans = Vec::with_capacity(alloc, items.len())?;
    for item in items {
        spans.push(item.0)?;
    }
    Ok(spans)
}

/// Walks over the image's first `length` bytes, where the live segments are known in order of place, with their extents.
///
/// # Errors
///
/// `Memory`, or `Device` where a read of the image failed.
pub fn walk_and_mark<R: Rig>(
    alloc: Global,
    rig: &mut R,
    length: u64,
    live: &[(Span, SegHeader)],
    spans: &[Span],
) -> Result<Survey, WalkFault>
    requires small { length ≤ 2 ^ 62 }
    requires row { IsRow live.now }
    requires inside { EndBy length live.now }
    requires spans { map span_of spans.now ≡ map first_of live.now }
    requires in_image { ForSome (seen_of (R.state rig.old) File.Image) (λ image. Knows length image live.now) }
    ensures walk { IfOk result (λ s. ForSome (seen_of (R.state rig.old) File.Image) (λ image. IsWalk (take length image) (map segment_of s.walk.items))) }
    ensures row { IfOk result (λ s. IsRow s.walk.items) }
    ensures inside { IfOk result (λ s. EndBy length s.walk.items) }
    ensures shows { IfOk result (λ s. (segments : List Segment) → AreLive spans.now segments → Shows segments s) }
    ensures free { IfOk result (λ s. AreFree length spans.now s.extents.items) }
    ensures ends { IfOk result (λ s. s.walk_end ≤ length) }
    ensures untouched { Untouched R.Rig rig.old rig.new }
    ensures cause { Faults (fault_at walk_device result) (R.state rig.old) (R.state rig.new) }
{
    let walk = walk_known(alloc, rig, length, live)?;
    let extents = deleted_extents(alloc, &walk, spans)?;
    let unknown = count_unknown(&walk, spans);
    let end = walk_end(&walk);
    Ok(Survey {
        walk,
        extents,
        unknown,
        walk_end: end,
    })
}
