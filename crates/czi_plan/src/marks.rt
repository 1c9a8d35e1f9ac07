//! The links of a plan: pointers of the file header, headers of segments, and what is written of a directory that lies
//! where it lay.

ghost use Rattle.std.specs.Prelude.{◌≡◌, ℕ, ◌+◌, ◌*◌, ◌^◌, ◌<◌, ◌≤◌, ◌++◌, ◌∷◌, [], map, filter, length, sum_by, pos, vec_len, vec_capacity};
ghost use Rattle.std.specs.List.{AllByRecursion, list_any};
ghost use Rattle.czi_format.specs.Bytes.{i32_bytes, i64_bytes};
ghost use Rattle.czi_format.specs.Segment.{header_bytes};
ghost use Rattle.czi_format.specs.Space.{deleted_after, same_span, without};
ghost use Rattle.czi_format.specs.Span.{span_le, sorted};
ghost use Rattle.czi_links.specs.Record.{AreRising};
ghost use Rattle.czi_num.specs.Span.{span_of};
ghost use Rattle.czi_region.specs.Pieces.{IsPiece, bytes_of};
ghost use Rattle.czi_region.specs.declared.block.Region.{Region as TheRegion};
ghost use Rattle.czi_seg.specs.View.{header_of, id_bytes};
ghost use Rattle.czi_space.specs.State.{AreExtents};
ghost use Rattle.czi_plan.specs.Geometry.{AreFreed, AreUsed, is_touched};
ghost use Rattle.czi_plan.specs.Marks.{AddsMarks, AreInOrder, ArePut, AreSized, CanHold, CanLink, CanPut, IsMarked, IsThere, bytes_in_mark, deleted_mark, headers_for, is_new, marks_of, patch_marks, pointer_mark};
ghost use Rattle.czi_links.specs.declared.numbers.TheConstants.{FIRST_PLACE};

use crate::plan::EditPlan;
use crate::spare::put;
use crate::touching::touched_after;
use czi_links::Links;
use czi_num::{Span, write_i32, write_i64};
use czi_region::{Piece, Region};
use czi_seg::{SegHeader, SegId, write_header};
use czi_space::Map;
use czi_spans::sort_items;

/// Bytes that a link puts. They take no memory of their own.
#[derive(Clone, Copy)]
pub enum MarkBytes {
    /// The header of a segment.
    Header([u8; 32]),
    /// A position or a size.
    Pointer([u8; 8]),
    /// A count.
    Number([u8; 4]),
    /// A piece of the region.
    Staged(Piece),
}

/// Bytes that a link puts, with the span of their places.
pub type Mark = (Span, MarkBytes);

impl MarkBytes {
    /// The bytes.
    fn get<'a>(&'a self, region: &'a Region) -> &'a [u8]
        requires { IsThere region.now self.now }
        ensures { result.now ≡ bytes_in_mark region.now self.now }
    {
        match self {
            MarkBytes::Header(bytes) => bytes,
            MarkBytes::Pointer(bytes) => bytes,
            MarkBytes::Number(bytes) => bytes,
            MarkBytes::Staged(piece) => region.get(piece),
        }
    }
}

/// The position of a segment, or a size, at a place.
pub fn mark_pointer(place: u64, at: u64, marks: &mut Vec<Mark>)
    requires room { vec_len marks.old < vec_capacity marks.old }
    requires place { place + 8 ≤ 2 ^ 63 }
    requires small { at < 2 ^ 63 }
    ensures marks { (r : TheRegion) → AddsMarks r marks.old.items marks.new.items (pointer_mark place at ∷ []) }
    ensures len { vec_len marks.new ≡ vec_len marks.old + 1 }
    ensures capacity { vec_capacity marks.old ≤ vec_capacity marks.new }
{
    let mut bytes = [0u8; 8];
    write_i64(&mut bytes, 0, at as i64);
    put(
        marks,
        (Span { at: place, len: 8 }, MarkBytes::Pointer(bytes)),
    );
}

/// The header of a segment at a place.
pub fn mark_header(at: u64, header: &SegHeader, marks: &mut Vec<Mark>)
    requires room { vec_len marks.old < vec_capacity marks.old }
    requires small { at ≤ 2 ^ 62 }
    requires id { length (id_bytes header.now.id) ≡ 16 }
    requires allocated { header.now.allocated ≤ 2 ^ 62 }
    requires used { header.now.used ≤ 2 ^ 62 }
    ensures marks { (r : TheRegion) → AddsMarks r marks.old.items marks.new.items (record { place = at; bytes = header_bytes (header_of at header.now) } ∷ []) }
    ensures len { vec_len marks.new ≡ vec_len marks.old + 1 }
    ensures capacity { vec_capacity marks.old ≤ vec_capacity marks.new }
{
    let bytes = write_header(header);
    put(marks, (Span { at, len: 32 }, MarkBytes::Header(bytes)));
}

/// A count at a place.
fn mark_count(place: u64, count: usize, marks: &mut Vec<Mark>)
    requires room { vec_len marks.old < vec_capacity marks.old }
    requires place { place + 4 ≤ 2 ^ 63 }
    requires count { count < 2 ^ 31 }
    ensures marks { (r : TheRegion) → AddsMarks r marks.old.items marks.new.items (record { place = place; bytes = i32_bytes (pos count) } ∷ []) }
    ensures len { vec_len marks.new ≡ vec_len marks.old + 1 }
    ensures capacity { vec_capacity marks.old ≤ vec_capacity marks.new }
{
    let mut bytes = [0u8; 4];
    write_i32(&mut bytes, 0, count as i32);
    put(
        marks,
        (Span { at: place, len: 4 }, MarkBytes::Number(bytes)),
    );
}

/// What is written of a directory at a place that lists other entries, where it has room for them: its UsedSize, its
/// EntryCount, and the entries that change, a piece of the region, which begin at `from` in its data.
pub fn mark_patch(
    at: u64,
    used: usize,
    count: usize,
    from: usize,
    entries: Piece,
    marks: &mut Vec<Mark>,
)
    requires room { vec_len marks.old + 3 ≤ vec_capacity marks.old }
    requires used { used < 2 ^ 62 }
    requires count { count < 2 ^ 31 }
    requires ends { at + 64 + from + entries.len ≤ 2 ^ 63 }
    ensures marks { (r : TheRegion) → IsPiece r entries → AddsMarks r marks.old.items marks.new.items (patch_marks at used count from (bytes_of r entries)) }
    ensures len { vec_len marks.new ≤ vec_len marks.old + 3 }
    ensures capacity { vec_capacity marks.old ≤ vec_capacity marks.new }
{
    mark_pointer(at + 24, used as u64, marks);
    mark_count(at + 32, count, marks);
    if entries.len > 0 {
        let span = Span {
            at: at + 32 + from as u64,
            len: entries.len as u64,
        };
        put(marks, (span, MarkBytes::Staged(entries)));
    }
}

/// The header of a DELETED segment that covers a span.
fn mark_deleted(span: &Span, marks: &mut Vec<Mark>)
    requires room { vec_len marks.old < vec_capacity marks.old }
    requires long { 32 ≤ span.now.len }
    requires ends { span.now.at + span.now.len ≤ 2 ^ 62 }
    ensures marks { (r : TheRegion) → AddsMarks r marks.old.items marks.new.items (deleted_mark (span_of span.now) ∷ []) }
    ensures len { vec_len marks.new ≡ vec_len marks.old + 1 }
    ensures capacity { vec_capacity marks.old ≤ vec_capacity marks.new }
{
    let header = SegHeader {
        id: SegId::Deleted,
        allocated: span.len - 32,
        used: 0,
    };
    mark_header(span.at, &header, marks);
}

/// Whether a span is one of the extents.
fn is_among(extents: &[Span], span: &Span) -> bool
    requires { (to : ℕ) × AreExtents 0 to (map span_of extents.now) }
    ensures { result ≡ list_any (same_span (span_of span.now)) (map span_of extents.now) }
{
    let i = extents.partition_point(|extent| extent.at < span.at);
    i < extents.len() && extents[i] == *span
}

/// Appends the headers of those extents that weren't there before.
fn mark_new(before: &[Span], after: &[Span], marks: &mut Vec<Mark>)
    requires rise { (to : ℕ) × AreExtents 0 to (map span_of before.now) }
    requires long { AllByRecursion IsMarked (map span_of after.now) }
    requires room { vec_len marks.old + length (filter (is_new (map span_of before.now)) (map span_of after.now)) ≤ vec_capacity marks.old }
    ensures marks { (r : TheRegion) → AddsMarks r marks.old.items marks.new.items (map deleted_mark (filter (is_new (map span_of before.now)) (map span_of after.now))) }
    ensures len { vec_len marks.new ≡ vec_len marks.old + length (filter (is_new (map span_of before.now)) (map span_of after.now)) }
    ensures capacity { vec_capacity marks.old ≤ vec_capacity marks.new }
{
    for extent in after {
        if !is_among(before, extent) {
            mark_deleted(extent, marks);
        }
    }
}

/// Appends the headers of the DELETED extents that are there after a plan and weren't before it. Each of these touches a
/// span that is used or freed.
fn mark_deleted_after(
    space: &Map,
    used: &[Span],
    freed: &[Span],
    touched: &mut Map,
    marks: &mut Vec<Mark>,
)
    requires used { AreUsed space.now.length (map span_of used.now) space.now.extents }
    requires freed { AreFreed space.now.length (map span_of freed.now) (without (map span_of used.now) space.now.extents) }
    requires in_order { sorted span_le (map span_of freed.now) ≡ map span_of freed.now }
    requires long { AllByRecursion IsMarked (deleted_after (map span_of used.now) (map span_of freed.now) space.now.extents) }
    requires spare { length (filter (is_touched (map span_of used.now) (map span_of freed.now)) space.now.extents) + (2 * length used.now + 2 * length freed.now) ≤ touched.old.spare }
    requires room { vec_len marks.old + (2 * length used.now + length freed.now) ≤ vec_capacity marks.old }
    ensures marks { (r : TheRegion) → AddsMarks r marks.old.items marks.new.items (map deleted_mark (filter (is_new space.now.extents) (deleted_after (map span_of used.now) (map span_of freed.now) space.now.extents))) }
    ensures len { vec_len marks.new ≤ vec_len marks.old + (2 * length used.now + length freed.now) }
    ensures capacity { vec_capacity marks.old ≤ vec_capacity marks.new }
{
    touched_after(space, used, freed, touched);
    mark_new(space.extents(), touched.extents(), marks);
}

/// Appends the headers of spans that can't be used again.
fn mark_dead(dead: &[Span], marks: &mut Vec<Mark>)
    requires long { AllByRecursion IsMarked (map span_of dead.now) }
    requires room { vec_len marks.old + length dead.now ≤ vec_capacity marks.old }
    ensures marks { (r : TheRegion) → AddsMarks r marks.old.items marks.new.items (map deleted_mark (map span_of dead.now)) }
{
    for span in dead {
        mark_deleted(span, marks);
    }
}

/// Puts marks, which stand one behind another, as links.
fn push_links(marks: &[Mark], region: &Region, links: &mut Links)
    requires sized { AreSized region.now marks.now }
    requires empty { links.old.links ≡ [] }
    requires spare { length marks.now ≤ links.old.spare_links }
    requires room { sum_by (λ b. length b.bytes) (marks_of region.now marks.now) ≤ links.old.spare_bytes }
    requires rise { AreRising FIRST_PLACE (marks_of region.now marks.now) }
    ensures { links.new.links ≡ marks_of region.now marks.now }
{
    for (span, bytes) in marks {
        links.push(span.at, bytes.get(region));
    }
}

/// Puts marks as links, in order of place.
fn put_marks(marks: &mut [Mark], region: &Region, links: &mut Links)
    requires sized { AreSized region.now marks.old }
    requires can { CanPut (marks_of region.now marks.old) }
    requires empty { links.old.links ≡ [] }
    requires spare { length marks.old ≤ links.old.spare_links }
    requires room { sum_by (λ b. length b.bytes) (marks_of region.now marks.old) ≤ links.old.spare_bytes }
    ensures { ArePut (marks_of region.now marks.old) links.new.links }
{
    sort_items(marks);
    push_links(marks, region, links);
}

/// Puts the links of a plan: its marks, the headers of new DELETED extents, and those of spans that can't be used again.
/// It takes no memory.
pub fn link(space: &Map, region: &Region, out: &mut EditPlan)
    requires in_order { sorted span_le (map span_of out.old.freed.items) ≡ map span_of out.old.freed.items }
    requires sized { AreSized region.now out.old.marks.items }
    requires can { CanLink space.now.length (map span_of out.old.used.items) (map span_of out.old.freed.items) (map span_of out.old.dead.items) space.now.extents (marks_of region.now out.old.marks.items) }
    requires empty { out.old.links.links ≡ [] }
    requires memory { CanHold (marks_of region.now out.old.marks.items) (headers_for (map span_of out.old.used.items) (map span_of out.old.freed.items) (map span_of out.old.dead.items)) out.old }
    ensures linked { AreInOrder (marks_of region.now out.old.marks.items) (map span_of out.old.used.items) (map span_of out.old.freed.items) (map span_of out.old.dead.items) space.now.extents out.new.links.links }
    ensures others { out.new ≡ record out.old { links = out.new.links; marks = out.new.marks; touched = out.new.touched } }
{
    mark_deleted_after(
        space,
        &out.used,
        &out.freed,
        &mut out.touched,
        &mut out.marks,
    );
    mark_dead(&out.dead, &mut out.marks);
    put_marks(&mut out.marks, region, &mut out.links);
}
