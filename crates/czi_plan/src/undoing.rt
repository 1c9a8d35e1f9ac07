//! The plan of an inverse: what it takes away goes, and what it brings back is linked where it lies. It takes no memory.

ghost use Rattle.std.specs.Prelude.{◌≡◌, ◌+◌, ◌^◌, ◌<◌, ◌≤◌, ◌++◌, ◌∷◌, [], false, length, map, sum, true, vec_len, vec_capacity, IfErr, IfSome, IsNone, OnErr, OnOk, Vec};
ghost use Rattle.std.specs.Global.{Global as TheGlobal};
ghost use Rattle.std.specs.List.{AllByRecursion};
ghost use Rattle.czi_format.specs.Entry.{entry_len as len_of};
ghost use Rattle.czi_format.specs.Segment.{attachment_id, header_bytes, metadata_id, subblock_id};
ghost use Rattle.czi_format.specs.Space.{fit};
ghost use Rattle.czi_image.specs.Change.{AreWithin};
ghost use Rattle.czi_image.specs.View.{att_item_of, meta_item_of, tile_of};
ghost use Rattle.czi_image.specs.declared.change.Act.{Act as CodeAct};
ghost use Rattle.czi_image.specs.declared.change.Setting.TheVariants.{To};
ghost use Rattle.czi_image.specs.declared.types.Tile.{Tile as CodeTile};
ghost use Rattle.czi_num.specs.Span.{span_of};
ghost use Rattle.czi_region.specs.Pieces.{room};
ghost use Rattle.czi_region.specs.declared.block.Region.{Region as TheRegion};
ghost use Rattle.czi_seg.specs.View.{header_of, id_bytes};
ghost use Rattle.czi_space.specs.State.{space_of};
ghost use Rattle.czi_plan.specs.Changing.{IsBack, Stages, returned, back_entries, entries_in, front_entries, middle_entries, new_marks, range_after, size_after, tiles_before, tiles_behind, tiles_brought, used_in};
ghost use Rattle.czi_plan.specs.Conditions.{IsEmpty, IsMapOf};
ghost use Rattle.czi_plan.specs.Directory.{need_of};
ghost use Rattle.czi_plan.specs.Kind.{IsOfKind, of_attachments, of_subblocks};
ghost use Rattle.czi_plan.specs.Listing.{AreSizes, fits_in_place, region_size};
ghost use Rattle.czi_plan.specs.Marks.{AddsMarks, AreMarks};
ghost use Rattle.czi_plan.specs.Need.{HasActMemory, HasMetadataMemory, KeepsMemory, directory_room, of_subblocks as is_of_subblocks};
ghost use Rattle.czi_plan.specs.Placing.{HasNoPlace, IsFull};
ghost use Rattle.czi_plan.specs.Plan.{usable_of};
ghost use Rattle.czi_plan.specs.Undoing.{IsTileAct, PartFits};
ghost use Rattle.czi_plan.specs.Setting.{IsMetadataBack, StagesMetadata, metadata_brought, metadata_marks, metadata_used};

use crate::attachment_acts::stage_attachment_act;
use crate::attachments::{att_parts, att_sizes};
use crate::bringing::Seat;
use crate::changing::stage_act;
use crate::freeing::is_usable;
use crate::listing::plan_directory;
use crate::marks::{link, mark_header, mark_pointer};
use crate::metadata::release_metadata;
use crate::plan::{EditPlan, PlanFault, Records};
use crate::returning::tile_back;
use crate::spare::put;
use crate::tiles::{Sizes, sizes_after};
use czi_dv::entry_len;
use czi_format::{METADATA_POSITION, MOST_ATTACHMENTS, MOST_SUBBLOCKS};
use czi_image::{Act, AttItem, Index, MetaItem, Setting, Tile};
use czi_num::Span;
use czi_region::Region;
use czi_seg::SegHeader;
use czi_space::Map;
use czi_undo::Part;

/// Links a segment that comes back: its header is a link, and its span is used where it can be used again.
fn link_back(span: &Span, walked: bool, head: &SegHeader, out: &mut EditPlan)
    requires used_room { vec_len out.old.used < vec_capacity out.old.used }
    requires marks_room { vec_len out.old.marks < vec_capacity out.old.marks }
    requires small { span.now.at ≤ 2 ^ 62 }
    requires id { length (id_bytes head.now.id) ≡ 16 }
    requires allocated { head.now.allocated ≤ 2 ^ 62 }
    requires used { head.now.used ≤ 2 ^ 62 }
    ensures used { map span_of out.new.used.items ≡ map span_of out.old.used.items ++ usable_of (record { span = span_of span.now; walked = walked } ∷ []) }
    ensures marks { (r : TheRegion) → AddsMarks r out.old.marks.items out.new.marks.items (record { place = span.now.at; bytes = header_bytes (header_of span.now.at head.now) } ∷ []) }
    ensures others { out.new ≡ record out.old { used = out.new.used; marks = out.new.marks } }
    ensures memory { KeepsMemory out.old out.new }
{
    mark_header(span.at, head, &mut out.marks);
    if is_usable(span, walked) {
        put(&mut out.used, *span);
    }
}

/// Links the subblock that an act brings back.
fn link_tile(act: &Act<Tile>, out: &mut EditPlan)
    requires no_used { out.old.used.items ≡ [] }
    requires no_marks { out.old.marks.items ≡ [] }
    requires back { AllByRecursion (λ t. IsOfKind subblock_id (tile_of t).segment) (tiles_brought act.now) }
    requires memory { HasActMemory out.old }
    ensures used { map span_of out.new.used.items ≡ used_in of_subblocks act.now returned }
    ensures marks { (r : TheRegion) → AreMarks r out.new.marks.items (new_marks of_subblocks act.now) }
    ensures others { out.new ≡ record out.old { used = out.new.used; marks = out.new.marks } }
    ensures kept { HasActMemory out.new }
{
    match act {
        Act::Out(_) => {}
        Act::Put(_, tile) => link_back(&tile.span, tile.walked, &tile.head, out),
        Act::Into(_, tile) => link_back(&tile.span, tile.walked, &tile.head, out),
    }
}

/// Links the attachment that an act brings back.
fn link_attachment(act: &Act<AttItem>, out: &mut EditPlan)
    requires no_used { out.old.used.items ≡ [] }
    requires no_marks { out.old.marks.items ≡ [] }
    requires back { AllByRecursion (λ i. IsOfKind attachment_id (att_item_of i).segment) (tiles_brought act.now) }
    requires memory { HasActMemory out.old }
    ensures used { map span_of out.new.used.items ≡ used_in of_attachments act.now returned }
    ensures marks { (r : TheRegion) → AreMarks r out.new.marks.items (new_marks of_attachments act.now) }
    ensures others { out.new ≡ record out.old { used = out.new.used; marks = out.new.marks } }
    ensures kept { HasActMemory out.new }
{
    match act {
        Act::Out(_) => {}
        Act::Put(_, item) => link_back(&item.span, item.walked, &item.head, out),
        Act::Into(_, item) => link_back(&item.span, item.walked, &item.head, out),
    }
}

/// How long the parts of the directory's data are after an inverse that changes the subblocks.
fn tile_sizes(index: &Index, space: &Map, part: &Part) -> Sizes
    requires kind { is_of_subblocks part.now ≡ true }
    requires fits { PartFits index.now space.now part.now }
    ensures sizes { (a : CodeAct CodeTile) → IsTileAct part.now a → AreSizes of_subblocks result (front_entries of_subblocks a index.now.tiles.items) (middle_entries of_subblocks a index.now.tiles.items) (back_entries of_subblocks a index.now.tiles.items) }
    ensures bound { result.front + result.middle + result.back ≤ 2 ^ 40 }
{
    let (tiles, total) = (&index.tiles, index.entries_len());
    match part {
        Part::DropSub { place } => {
            let i = *place as usize;
            sizes_after(tiles, total, i, i + 1, 0)
        }
        Part::PutSub { place, info, .. } => {
            Seat::Over(*place as usize).sizes(tiles, total, entry_len(info))
        }
        Part::InsertSub { place, info, .. } => {
            Seat::Before(*place as usize).sizes(tiles, total, entry_len(info))
        }
        _ => unreachable!(),
    }
}

/// What an inverse that changes the subblocks does with them. The dimensions of one that comes back stand in memory that there is
/// for them.
fn tile_act(index: &Index, space: &Map, part: &Part, dimensions: &mut Vec<Records>) -> Act<Tile>
    requires kind { is_of_subblocks part.now ≡ true }
    requires fits { PartFits index.now space.now part.now }
    requires memory { 1 ≤ vec_len dimensions.old }
    ensures { IsTileAct part.now result }
{
    match part {
        Part::DropSub { place } => Act::Out(*place as usize),
        Part::PutSub { place, info, held } => {
            let memory = dimensions.pop().unwrap();
            Act::Put(*place as usize, tile_back(info, held, memory))
        }
        Part::InsertSub { place, info, held } => {
            let memory = dimensions.pop().unwrap();
            Act::Into(*place as usize, tile_back(info, held, memory))
        }
        _ => unreachable!(),
    }
}

/// Plans an inverse that changes the subblocks: it brings back what lies in the image, or takes away. Its directory goes where its
/// need fits first, where it isn't changed in place. Where it has no place nothing is planned, and no memory is used up.
pub fn plan_tiles(
    index: &Index,
    space: &Map,
    part: &Part,
    region: &mut Region,
    out: &mut EditPlan,
) -> Result<(), PlanFault>
    requires empty { IsEmpty out.old }
    requires of_index { IsMapOf index.now space.now }
    requires kind { is_of_subblocks part.now ≡ true }
    requires fits { PartFits index.now space.now part.now }
    requires room { (a : CodeAct CodeTile) → IsTileAct part.now a → directory_room (size_after of_subblocks a index.now) ≤ room region.old }
    requires writes_room { vec_len out.old.writes < vec_capacity out.old.writes }
    requires memory { HasActMemory out.old }
    requires dimensions { 1 ≤ vec_len out.old.dimensions }
    ensures stages { OnOk result ((a : CodeAct CodeTile) × IsTileAct part.now a × Stages of_subblocks index.now space.now a returned region.new out.new.change.directory out.new) }
    ensures full { IfErr result (λ fault. (a : CodeAct CodeTile) → IsTileAct part.now a → (fits_in_place index.now.directory (size_after of_subblocks a index.now) (range_after of_subblocks a index.now) ≡ false) × IsFull fault (fit (space_of space.now) (need_of (size_after of_subblocks a index.now)))) }
    ensures never { IfErr result HasNoPlace }
    ensures left { OnErr result ((region.new ≡ region.old) × (out.new ≡ record out.old { length = out.new.length })) }
    ensures region { region_size region.new ≡ region_size region.old }
{
    out.length = space.length();
    let sizes = tile_sizes(index, space, part);
    let (size, range) = (sizes.total(), sizes.middle);
    out.change.directory = plan_directory(index, space, &[], &index.directory, size, range)?;
    let act = tile_act(index, space, part, &mut out.dimensions);
    link_tile(&act, out);
    stage_act(index, space, act, &sizes, region, out);
    Ok(())
}

/// Plans an act on the attachments, as `plan_tiles` does one on the subblocks.
pub fn plan_attachments(
    index: &Index,
    space: &Map,
    act: Act<AttItem>,
    region: &mut Region,
    out: &mut EditPlan,
) -> Result<(), PlanFault>
    requires empty { IsEmpty out.old }
    requires of_index { IsMapOf index.now space.now }
    requires within { AreWithin (act ∷ []) (length index.now.attachments.items) }
    requires few { length (tiles_before act index.now.attachments.items ++ (tiles_brought act ++ tiles_behind act index.now.attachments.items)) ≤ MOST_ATTACHMENTS }
    requires back { AllByRecursion (IsBack of_attachments index.now space.now) (tiles_brought act) }
    requires room { directory_room (size_after of_attachments act index.now) ≤ room region.old }
    requires writes_room { vec_len out.old.writes < vec_capacity out.old.writes }
    requires memory { HasActMemory out.old }
    ensures stages { OnOk result (Stages of_attachments index.now space.now act returned region.new out.new.change.attdir out.new) }
    ensures full { IfErr result (λ fault. (fits_in_place index.now.attdir (size_after of_attachments act index.now) (range_after of_attachments act index.now) ≡ false) × IsFull fault (fit (space_of space.now) (need_of (size_after of_attachments act index.now)))) }
    ensures never { IfErr result HasNoPlace }
    ensures left { OnErr result ((region.new ≡ region.old) × (out.new ≡ record out.old { length = out.new.length })) }
    ensures region { region_size region.new ≡ region_size region.old }
{
    out.length = space.length();
    let parts = att_parts(&act, &index.attachments);
    let sizes = att_sizes(&parts);
    let (size, range) = (sizes.total(), sizes.middle);
    out.change.attdir = plan_directory(index, space, &[], &index.attdir, size, range)?;
    link_attachment(&act, out);
    stage_attachment_act(index, space, act, region, out);
    Ok(())
}

/// Links metadata that come back, and the pointer to them, which is 0 where there are none any more.
fn link_setting(brought: &Option<MetaItem>, out: &mut EditPlan)
    requires no_used { out.old.used.items ≡ [] }
    requires no_marks { out.old.marks.items ≡ [] }
    requires back { AllByRecursion (λ i. IsOfKind metadata_id (meta_item_of i).segment) (metadata_brought (To brought.now)) }
    requires memory { HasMetadataMemory out.old }
    ensures used { map span_of out.new.used.items ≡ metadata_used (To brought.now) returned }
    ensures marks { (r : TheRegion) → AreMarks r out.new.marks.items (metadata_marks (To brought.now)) }
    ensures others { out.new ≡ record out.old { used = out.new.used; marks = out.new.marks } }
    ensures kept { HasMetadataMemory out.new }
{
    let pointer = METADATA_POSITION as u64;
    match brought {
        None => mark_pointer(pointer, 0, &mut out.marks),
        Some(item) => {
            mark_pointer(pointer, item.span.at, &mut out.marks);
            link_back(&item.span, item.walked, &item.head, out);
        }
    }
}

/// Links what a setting of the metadata brings back, if it isn't that they stay.
fn link_metadata(setting: &Setting<MetaItem>, out: &mut EditPlan)
    requires no_used { out.old.used.items ≡ [] }
    requires no_marks { out.old.marks.items ≡ [] }
    requires back { AllByRecursion (λ i. IsOfKind metadata_id (meta_item_of i).segment) (metadata_brought setting.now) }
    requires memory { HasMetadataMemory out.old }
    ensures used { map span_of out.new.used.items ≡ metadata_used setting.now returned }
    ensures marks { (r : TheRegion) → AreMarks r out.new.marks.items (metadata_marks setting.now) }
    ensures others { out.new ≡ record out.old { used = out.new.used; marks = out.new.marks } }
    ensures kept { HasMetadataMemory out.new }
{
    match setting {
        Setting::Same => {}
        Setting::To(brought) => link_setting(brought, out),
    }
}

/// Plans that the metadata are those of a segment that comes back, or none, or stay.
pub fn plan_setting(
    index: &Index,
    space: &Map,
    setting: Setting<MetaItem>,
    region: &Region,
    out: &mut EditPlan,
)
    requires empty { IsEmpty out.old }
    requires of_index { IsMapOf index.now space.now }
    requires back { AllByRecursion (IsMetadataBack index.now space.now) (metadata_brought setting) }
    requires memory { HasMetadataMemory out.old }
    ensures { StagesMetadata index.now space.now setting returned region.now out.new }
{
    out.length = space.length();
    link_metadata(&setting, out);
    release_metadata(
        &setting,
        &index.metadata,
        &mut out.held,
        &mut out.freed,
        &mut out.dead,
    );
    link(space, region, out);
    out.change.metadata = setting;
}
