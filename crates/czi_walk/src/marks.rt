//! What a walk shows beside the live segments.

ghost use Rattle.std.specs.Prelude.{◌≡◌, ℕ, ◌≤◌, List, map, filter, length, IfOk, IsTrue, IsFalse, bytes_eq};
ghost use Rattle.std.specs.List.{AllByRecursion, list_any};
ghost use Rattle.czi_format.specs.Span.{end_of, is_aligned, meets};
ghost use Rattle.czi_format.specs.Segment.{Segment, extent, deleted_id};
ghost use Rattle.czi_format.specs.Walk.{walk_end};
ghost use Rattle.czi_format.specs.Layout.{is_walked, is_free, is_unknown};
ghost use Rattle.czi_num.specs.Span.{span_of};
ghost use Rattle.czi_seg.specs.View.{id_bytes};
ghost use Rattle.czi_spans.specs.Apart.{AreApart, first_of};
ghost use Rattle.czi_walk.specs.View.{segment_of, IsRow, HasExtent, EndBy};
ghost use Rattle.czi_walk.specs.Marks.{AreLive, is_free_item, is_unknown_item};

use czi_num::Span;
use czi_seg::{SegHeader, SegId};
use czi_spans::{find_place, has_place, meets_any};
use std::alloc::{AllocError, Global};

const DELETED: [u8; 16] = *b"DELETED\0\0\0\0\0\0\0\0\0";

/// Whether a walk stands on the segment at a place.
pub fn is_walked(walk: &[(Span, SegHeader)], at: u64) -> bool
    requires { AreApart 0 (map first_of walk.now) }
    ensures { (s : Segment) → s.at ≡ at → result ≡ is_walked (map segment_of walk.now) s }
{
    find_place(walk, at).is_some()
}

/// Where a walk ends: at the end of its last segment, or at 0.
pub fn walk_end(walk: &[(Span, SegHeader)]) -> u64
    requires { AllByRecursion HasExtent walk.now }
    ensures value { result ≡ walk_end 0 (map segment_of walk.now) }
    ensures inside { (size : ℕ) → EndBy size walk.now → result ≤ size }
{
    if walk.is_empty() {
        return 0;
    }
    let last = &walk[walk.len() - 1];
    last.0.at + last.0.len
}

/// The bytes of the id `DELETED`.
#[tactic(auto, unfolding(czi_format::specs::Segment::deleted_id))]
fn is_deleted(id: &SegId) -> bool
    ensures { result ≡ bytes_eq (id_bytes id.now) deleted_id }
{
    id.to_bytes() == DELETED
}

/// A DELETED segment that begins and ends at multiples of 32 and meets no live one.
fn is_free(live: &[Span], item: &(Span, SegHeader)) -> bool
    requires { AreApart 0 (map span_of live.now) }
    ensures { result ≡ is_free_item (map span_of live.now) item.now }
{
    is_deleted(&item.1.id)
        && item.0.at % 32 == 0
        && item.0.len % 32 == 0
        && !meets_any(live, &item.0)
}

/// Neither live nor DELETED.
fn is_unknown(live: &[Span], item: &(Span, SegHeader)) -> bool
    requires { AreApart 0 (map span_of live.now) }
    ensures { result ≡ is_unknown_item (map span_of live.now) item.now }
{
    !is_deleted(&item.1.id) && !has_place(live, item.0.at)
}

/// The DELETED extents: those of the walk's DELETED segments that begin and end at multiples of 32 and meet no live segment.
/// The live extents are given in order.
pub fn deleted_extents(
    alloc: Global,
    walk: &[(Span, SegHeader)],
    live: &[Span],
) -> Result<Vec<Span>, AllocError>
    requires row { IsRow walk.now }
    requires live { AreApart 0 (map span_of live.now) }
    ensures free { IfOk result (λ v. (segments : List Segment) → AreLive live.now segments
        → map span_of v.items ≡ map extent (filter (is_free segments) (map segment_of walk.now))) }
    ensures apart { IfOk result (λ v. AreApart 0 (map span_of v.items)) }
    ensures aligned { IfOk result (λ v. AllByRecursion (λ s. IsTrue (is_aligned s)) (map span_of v.items)) }
    ensures clear { IfOk result (λ v. AllByRecursion (λ s. IsFalse (list_any (meets s) (map span_of live.now))) (map span_of v.items)) }
    ensures inside { IfOk result (λ v. (size : ℕ) → EndBy size walk.now → AllByRecursion (λ s. end_of s ≤ size) (map span_of v.items)) }
{
    let mut extents = Vec::new(alloc);
    for item in walk {
        if is_free(live, item) {
            extents.push(item.0)?;
        }
    }
    Ok(extents)
}

/// How many items are unknown.
fn count_items(walk: &[(Span, SegHeader)], live: &[Span]) -> usize
    requires { AreApart 0 (map span_of live.now) }
    ensures { result ≡ length (filter (is_unknown_item (map span_of live.now)) walk.now) }
{
    walk.iter().filter(|item| is_unknown(live, item)).count()
}

/// How many segments of the walk are unknown: neither live nor DELETED. The live extents are given in order.
pub fn count_unknown(walk: &[(Span, SegHeader)], live: &[Span]) -> u64
    requires { AreApart 0 (map span_of live.now) }
    ensures { (segments : List Segment) → AreLive live.now segments → result ≡ length (filter (is_unknown segments) (map segment_of walk.now)) }
{
    count_items(walk, live) as u64
}
