//! The plan of one act on the attachments, once places were found for what it brings and for their directory.

ghost use Rattle.std.specs.Prelude.{◌≡◌, ℕ, ◌+◌, ◌-◌, ◌^◌, ◌<◌, ◌≤◌, ◌++◌, ◌∷◌, ◌||◌, [], Ok, length, map, max, nat_lt, vec_len, vec_capacity};
ghost use Rattle.czi_format.specs.Document.{Attachment};
ghost use Rattle.czi_format.specs.Space.{fit, use_span};
ghost use Rattle.czi_image.specs.Applied.{walks_on};
ghost use Rattle.czi_image.specs.Change.{AreWithin, act_of};
ghost use Rattle.czi_image.specs.View.{att_item_of};
ghost use Rattle.czi_machine.specs.Places.{attachment_need};
ghost use Rattle.czi_machine.specs.Puts.{IsAttachment};
ghost use Rattle.czi_num.specs.Span.{span_of};
ghost use Rattle.czi_machine.specs.Change.{Change};
ghost use Rattle.czi_region.specs.Pieces.{room};
ghost use Rattle.czi_region.specs.declared.block.Region.{Region as TheRegion};
ghost use Rattle.czi_space.specs.State.{space_of};
ghost use Rattle.czi_plan.specs.Attaching.{IsItemOf, att_padded, attachment_in};
ghost use Rattle.czi_plan.specs.Bringing.{IsSeat, act_at};
ghost use Rattle.czi_plan.specs.Changing.{Begins, IsNew, IsStaged, Origin, Stages, Starts, edited, new_marks, range_after, size_after, tiles_before, tiles_behind, tiles_brought};
ghost use Rattle.czi_plan.specs.Conditions.{IsMapOf};
ghost use Rattle.czi_plan.specs.Kind.{of_attachments};
ghost use Rattle.czi_plan.specs.Listing.{HasRoomFor, IsPlace, region_size};
ghost use Rattle.czi_plan.specs.Marks.{AddsMarks, AreMarks, head_mark};
ghost use Rattle.czi_plan.specs.Need.{HasActMemory, HasSpare, KeepsMemory, WritesOne, need_of_lists};

use crate::attachments::{att_parts, list_attachments};
use crate::bringing::Seat;
use crate::directory::position_of;
use crate::freeing::release_left;
use crate::marks::{link, mark_header};
use crate::placing::walks_at;
use crate::plan::EditPlan;
use crate::spare::put;
use czi_att::stage_att;
use czi_doc::{AttInfo, DATA_LIMIT};
use czi_format::{CONTENTS, MOST_ATTACHMENTS};
use czi_image::{Act, AttItem, Index};
use czi_num::Span;
use czi_region::Region;
use czi_seg::{SegHeader, SegId};
use czi_space::Map;

/// Plans an act on the attachments once what it brings is staged, and it is known what becomes of their directory. It takes no
/// memory.
pub fn stage_attachment_act(
    index: &Index,
    space: &Map,
    act: Act<AttItem>,
    region: &mut Region,
    out: &mut EditPlan,
)
    requires of_index { IsMapOf index.now space.now }
    requires within { AreWithin (act ∷ []) (length index.now.attachments.items) }
    requires few { length (tiles_before act index.now.attachments.items ++ (tiles_brought act ++ tiles_behind act index.now.attachments.items)) ≤ MOST_ATTACHMENTS }
    requires begins { (o : Origin (Change Attachment)) × Begins of_attachments index.now space.now region.old act o out.old.change.attdir out.old }
    requires marks { (r : TheRegion) → AreMarks r out.old.marks.items (new_marks of_attachments act) }
    requires room { HasRoomFor out.old.change.attdir (range_after of_attachments act index.now) (room region.old) }
    requires writes_room { vec_len out.old.writes < vec_capacity out.old.writes }
    requires memory { HasActMemory out.old }
    ensures region { region_size region.new ≡ region_size region.old }
    ensures stages { (o : Origin (Change Attachment)) → Begins of_attachments index.now space.now region.old act o out.old.change.attdir out.old → Stages of_attachments index.now space.now act o region.new out.old.change.attdir out.new }
{
    let parts = att_parts(&act, &index.attachments);
    list_attachments(index, &parts, region, out);
    release_left(
        parts.leaving,
        &out.change.attdir,
        &index.attdir,
        &mut out.held,
        &mut out.freed,
        &mut out.dead,
    );
    link(space, region, out);
    put(&mut out.change.attachments, act);
}

/// The item of a new attachment in a span.
pub fn new_attachment(index: &Index, info: &AttInfo, size: usize, span: Span) -> AttItem
    requires small { size ≤ DATA_LIMIT }
    requires long { span.len ≡ 32 + att_padded size }
    requires ends { span.at + span.len ≤ 2 ^ 62 }
    ensures item { IsItemOf info.now size span result }
    ensures walked { result.walked ≡ (nat_lt span.at index.now.length || walks_on index.now) }
{
    let head = SegHeader {
        id: SegId::Attachment,
        allocated: span.len - 32,
        used: (CONTENTS + size) as u64,
    };
    AttItem {
        info: *info,
        span,
        head,
        walked: walks_at(index, span.at),
        size: size as u64,
    }
}

/// Plans what a new attachment writes: its data are one write, from a piece of the region, and its header is a link. It takes
/// no memory.
fn stage_attachment(item: &AttItem, bytes: &[u8], region: &mut Region, out: &mut EditPlan)
    requires bytes { length bytes.now ≤ DATA_LIMIT }
    requires item { IsItemOf item.now.info (length bytes.now) item.now.span item.now }
    requires long { item.now.span.len ≡ 32 + att_padded (length bytes.now) }
    requires room { item.now.span.len - 32 ≤ room region.old }
    requires no_writes { out.old.writes.items ≡ [] }
    requires writes_room { vec_len out.old.writes < vec_capacity out.old.writes }
    requires used_room { vec_len out.old.used < vec_capacity out.old.used }
    requires marks_room { vec_len out.old.marks < vec_capacity out.old.marks }
    ensures says { IsAttachment (att_item_of item.now) (attachment_in item.now.info bytes.now) }
    ensures staged { IsStaged of_attachments region.new (attachment_in item.now.info bytes.now) item.now out.new.writes.items }
    ensures used { out.new.used.items ≡ out.old.used.items ++ item.now.span ∷ [] }
    ensures end { out.new.length ≡ max out.old.length (item.now.span.at + item.now.span.len) }
    ensures others { out.new ≡ record out.old { writes = out.new.writes; used = out.new.used; length = out.new.length; marks = out.new.marks } }
    ensures marks { (r : TheRegion) → AddsMarks r out.old.marks.items out.new.marks.items (head_mark (att_item_of item.now).segment ∷ []) }
    ensures left { room region.new + (item.now.span.len - 32) ≡ room region.old }
    ensures writes { WritesOne out.old out.new }
    ensures memory { KeepsMemory out.old out.new }
{
    let position = position_of(item.span.at);
    let piece = stage_att(region, &item.info, position, bytes);
    put(&mut out.writes, (item.span.at + 32, piece));
    put(&mut out.used, item.span);
    out.length = out.length.max(item.span.at + item.span.len);
    mark_header(item.span.at, &item.head, &mut out.marks);
}

/// Plans what a new attachment writes and changes, once places were found for it and for the directory, and there is memory for
/// all of it.
pub fn stage_attached(
    index: &Index,
    space: &Map,
    seat: Seat,
    item: &AttItem,
    bytes: &[u8],
    region: &mut Region,
    out: &mut EditPlan,
)
    requires bytes { length bytes.now ≤ DATA_LIMIT }
    requires starts { Starts of_attachments space.now [] out.old }
    requires no_writes { out.old.writes.items ≡ [] }
    requires no_marks { out.old.marks.items ≡ [] }
    requires of_index { IsMapOf index.now space.now }
    requires seat { IsSeat seat (length index.now.attachments.items) (MOST_ATTACHMENTS) }
    requires item { IsItemOf item.now.info (length bytes.now) item.now.span item.now }
    requires walked { item.now.walked ≡ (nat_lt item.now.span.at index.now.length || walks_on index.now) }
    requires fits { fit (space_of space.now) (attachment_need (attachment_in item.now.info bytes.now)) ≡ Ok (record { span = span_of item.now.span; space = use_span (space_of space.now) (span_of item.now.span) }) }
    requires place { IsPlace index.now index.now.attdir (size_after of_attachments (act_at seat item.now) index.now) (range_after of_attachments (act_at seat item.now) index.now) (use_span (space_of space.now) (span_of item.now.span)) out.old.change.attdir }
    requires room { (left : ℕ) → left + (item.now.span.len - 32) ≡ room region.old → HasRoomFor out.old.change.attdir (range_after of_attachments (act_at seat item.now) index.now) left }
    requires own { item.now.span.len - 32 ≤ room region.old }
    requires spare { HasSpare (need_of_lists 1 1 0 2) out.old }
    ensures { Stages of_attachments index.now space.now (act_at seat item.now) (edited (act_of (act_at seat (attachment_in item.now.info bytes.now)))) region.new out.old.change.attdir out.new }
{
    stage_attachment(item, bytes, region, out);
    let act = seat.act(*item);
    stage_attachment_act(index, space, act, region, out);
}
