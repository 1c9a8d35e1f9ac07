//! Whether an inverse fits an index and a map, which its plan asks for. Nothing here takes memory.

ghost use Rattle.std.specs.Prelude.{◌≡◌, ◌↔◌, false, ℕ, ◌+◌, ◌<◌, ◌≤◌, map, IsTrue, option_map, option_to_list};
ghost use Rattle.std.specs.List.{list_any};
ghost use Rattle.czi_format.specs.Span.{LiesInOne, end_of, meets};
ghost use Rattle.czi_image.specs.Spans.{directory_span, header_span, meta_item_span};
ghost use Rattle.czi_machine.specs.Cover.{cover};
ghost use Rattle.czi_num.specs.Span.{span_of};
ghost use Rattle.czi_seg.specs.View.{id_bytes};
ghost use Rattle.czi_spans.specs.Apart.{AreApart};
ghost use Rattle.czi_plan.specs.Conditions.{IsLeft, IsMapOf, live_of};
ghost use Rattle.czi_plan.specs.Fits.{IsAllHeld, single_meets};
ghost use Rattle.czi_plan.specs.Undoing.{BeginsAsKind, HeldFits, InverseFits, IsSoundHeld, PartFits, size_in};

use crate::freeing::{Listed, is_usable};
use czi_format::{CONTENTS_PLACE, MOST_ATTACHMENTS, MOST_SUBBLOCKS};
use czi_image::{DirItem, Index, MetaItem};
use czi_num::{Span, meets};
use czi_seg::{SegHeader, SegId, read_header};
use czi_space::Map;
use czi_spans::meets_any;
use czi_undo::{HeldSegment, Inverse, Part};

/// Whether an extent has all places of a span.
fn has_all_of(extent: &Span, span: &Span) -> bool
    ensures { IsTrue result ↔ (extent.now.at ≤ span.now.at) × (end_of (span_of span.now) ≤ end_of (span_of extent.now)) }
{
    extent.at <= span.at && span.at + span.len <= extent.at + extent.len
}

/// Whether one of the extents, which rise, has all places of a span. It searches by halves.
fn lies_in_one(span: &Span, extents: &[Span]) -> bool
    requires some { 0 < span.now.len }
    requires rising { AreApart 0 (map span_of extents.now) }
    ensures { IsTrue result ↔ LiesInOne (span_of span.now) (map span_of extents.now) }
{
    let i = extents.partition_point(|extent| extent.at + extent.len <= span.at);
    i < extents.len() && has_all_of(&extents[i], span)
}

/// How far the held spans that begin at or before a place reach past it: to the place itself where none has it.
fn held_to(held: &[Span], place: u64) -> u64
    ensures covered { (q : ℕ) → place ≤ q → q < result → 1 ≤ cover (map span_of held.now) q }
    ensures further { 1 ≤ cover (map span_of held.now) place → place < result }
{
    let mut end = place;
    for span in held {
        if span.at <= place {
            end = end.max(span.at + span.len);
        }
    }
    end
}

/// Whether each place of a span is held. Mostly one held span has them all, and one turn tells it.
fn is_all_held(span: &Span, held: &[Span]) -> bool
    ensures { IsTrue result ↔ IsAllHeld (span_of span.now) (map span_of held.now) }
{
    let end = span.at + span.len;
    let mut place = span.at;
    while place < end {
        let next = held_to(held, place);
        if next <= place {
            return false;
        }
        place = next;
    }
    true
}

/// Whether the file header meets a span.
fn meets_header(index: &Index, span: &Span) -> bool
    ensures { result ≡ meets (span_of span.now) (header_span index.now.header) }
{
    let header = Span {
        at: 0,
        len: 32 + index.header.allocated,
    };
    meets(span, &header)
}

/// Whether a directory meets a span.
fn meets_directory(directory: &Option<DirItem>, span: &Span) -> bool
    ensures { result ≡ list_any (meets (span_of span.now)) (option_to_list (option_map directory_span directory.now)) }
{
    match directory {
        Some(item) => meets(span, &item.span),
        None => false,
    }
}

/// Whether the metadata meets a span.
fn meets_metadata(metadata: &Option<MetaItem>, span: &Span) -> bool
    ensures { result ≡ list_any (meets (span_of span.now)) (option_to_list (option_map meta_item_span metadata.now)) }
{
    match metadata {
        Some(item) => meets(span, &item.span),
        None => false,
    }
}

/// Whether one of the items of a directory meets a span.
fn meets_items<I: Listed>(items: &[I], span: &Span) -> bool
    ensures { result ≡ list_any (λ i. meets (span_of span.now) (I.place i).span) items.now }
{
    items.iter().any(|item| meets(span, &item.span()))
}

/// Whether the file header, a directory or the metadata meets a span.
fn meets_single(index: &Index, span: &Span) -> bool
    ensures { result ≡ single_meets (span_of span.now) index.now }
{
    meets_header(index, span)
        || meets_directory(&index.directory, span)
        || meets_directory(&index.attdir, span)
        || meets_metadata(&index.metadata, span)
}

/// Whether a live segment meets a span.
fn meets_live(index: &Index, span: &Span) -> bool
    ensures { result ≡ list_any (meets (span_of span.now)) (live_of index.now) }
{
    meets_single(index, span)
        || meets_items(&index.tiles, span)
        || meets_items(&index.attachments, span)
}

/// Whether a span lies in one of the DELETED extents of a map, and is held.
fn lies_held(space: &Map, span: &Span) -> bool
    requires { 0 < span.now.len }
    ensures { IsTrue result ↔ LiesInOne (span_of span.now) space.now.extents × IsAllHeld (span_of span.now) space.now.held }
{
    lies_in_one(span, space.extents()) && is_all_held(span, space.held())
}

/// Whether a span ends at or below the length, and meets no DELETED extent and no live one.
fn is_clear(index: &Index, space: &Map, span: &Span) -> bool
    ensures { IsTrue result ↔ (end_of (span_of span.now) ≤ index.now.length) × (list_any (meets (span_of span.now)) space.now.extents ≡ false) × (list_any (meets (span_of span.now)) (live_of index.now) ≡ false) }
{
    span.at + span.len <= index.length
        && !meets_any(space.extents(), span)
        && !meets_live(index, span)
}

/// Whether a segment that is walked, or isn't, can be live again.
///
/// What can be used again lies in a DELETED extent, and no live segment meets one. Another segment may lie anywhere, and the
/// live ones stand in no order of place: it is compared with each.
fn is_left(index: &Index, space: &Map, span: &Span, walked: bool) -> bool
    requires of_index { IsMapOf index.now space.now }
    requires some { 0 < span.now.len }
    ensures { IsTrue result ↔ IsLeft index.now space.now (record { span = span_of span.now; walked = walked }) }
{
    if is_usable(span, walked) {
        lies_held(space, span)
    } else {
        is_clear(index, space, span)
    }
}

/// Whether the contents of a held segment lie in it, past its header.
fn holds_contents(held: &HeldSegment) -> bool
    ensures { IsTrue result ↔ (held.now.span.at + 32 ≤ held.now.begin) × (held.now.begin + size_in held.now 0 + size_in held.now 1 + size_in held.now 2 ≤ end_of (span_of held.now.span)) }
{
    let end = held.span.at + held.span.len;
    if held.begin < held.span.at + 32 || held.begin > end {
        return false;
    }
    let room = end - held.begin;
    let [first, second, third] = held.sizes;
    first <= room && second <= room - first && third <= room - first - second
}

/// Whether a header has an id and sound sizes, and gives an extent.
fn gives_extent(id: SegId, header: &SegHeader, span: &Span) -> bool
    ensures { IsTrue result ↔ (id_bytes header.now.id ≡ id_bytes id) × (header.now.used ≤ header.now.allocated) × (span.now.len ≡ 32 + header.now.allocated) }
{
    header.id.to_bytes() == id.to_bytes()
        && header.used <= header.allocated
        && span.len >= 32
        && span.len - 32 == header.allocated
}

/// Whether a held segment is one of a kind: its header has that id and sound sizes, and gives its extent, in which the contents
/// lie.
fn is_sound_held(id: SegId, held: &HeldSegment) -> bool
    ensures { IsTrue result ↔ IsSoundHeld (id_bytes id) held.now }
{
    let Some(header) = read_header(&held.head) else {
        return false;
    };
    gives_extent(id, &header, &held.span) && holds_contents(held)
}

/// Whether a held segment is one of a kind, and can be live again.
fn held_fits(id: SegId, index: &Index, space: &Map, held: &HeldSegment) -> bool
    requires { IsMapOf index.now space.now }
    ensures { IsTrue result ↔ HeldFits (id_bytes id) index.now space.now held.now }
{
    is_sound_held(id, held) && is_left(index, space, &held.span, held.walked)
}

/// Whether the contents of a held segment have the place that those of an attachment and of metadata have.
fn begins_as_kind(held: &HeldSegment) -> bool
    ensures { IsTrue result ↔ BeginsAsKind held.now }
{
    held.begin == held.span.at + CONTENTS_PLACE
}

/// Whether a held segment, whose contents have a place of their own, is one of a kind and can be live again.
fn item_fits(id: SegId, index: &Index, space: &Map, held: &HeldSegment) -> bool
    requires { IsMapOf index.now space.now }
    ensures { IsTrue result ↔ HeldFits (id_bytes id) index.now space.now held.now × BeginsAsKind held.now }
{
    held_fits(id, index, space, held) && begins_as_kind(held)
}

/// Whether one inverse fits.
fn part_fits(index: &Index, space: &Map, part: &Part) -> bool
    requires { IsMapOf index.now space.now }
    ensures { IsTrue result ↔ PartFits index.now space.now part.now }
{
    let (tiles, attachments) = (index.tiles.len(), index.attachments.len());
    match part {
        Part::DropSub { place } => (*place as usize) < tiles,
        Part::PutSub { place, held, .. } => {
            (*place as usize) < tiles && held_fits(SegId::Subblock, index, space, held)
        }
        Part::InsertSub { place, held, .. } => {
            (*place as usize) <= tiles
                && tiles < MOST_SUBBLOCKS
                && held_fits(SegId::Subblock, index, space, held)
        }
        Part::DropAtt { place } => (*place as usize) < attachments,
        Part::PutAtt { place, held, .. } => {
            (*place as usize) < attachments && item_fits(SegId::Attachment, index, space, held)
        }
        Part::InsertAtt { place, held, .. } => {
            (*place as usize) <= attachments
                && attachments < MOST_ATTACHMENTS
                && item_fits(SegId::Attachment, index, space, held)
        }
        Part::NoMeta => index.metadata.is_some(),
        Part::PutMeta { held } => item_fits(SegId::Metadata, index, space, held),
        Part::Same => true,
    }
}

/// Whether an inverse fits an index and a map, so that it can be planned: it is that of a single edit, its place is in range, the
/// list that it gives is within its limit, metadata that go are there, and the segment that it brings is one of its kind and can
/// be live again.
///
/// It takes no memory. It goes through the live segments only where that segment can't be used again (`is_left`).
pub fn inverse_fits(index: &Index, space: &Map, inverse: &Inverse) -> bool
    requires of_index { IsMapOf index.now space.now }
    ensures { IsTrue result ↔ InverseFits index.now space.now inverse.now }
{
    match inverse.parts.as_slice() {
        [part] => part_fits(index, space, part),
        _ => false,
    }
}
