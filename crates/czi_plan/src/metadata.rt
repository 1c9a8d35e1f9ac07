//! The plan of a setting of the metadata.

ghost use Rattle.std.specs.Prelude.{◌≡◌, ◌+◌, ◌-◌, ◌^◌, ◌<◌, ◌≤◌, ◌++◌, ◌∷◌, [], Ok, Some, length, map, max, option_map, option_to_list, vec_len, vec_capacity, IfErr, OnOk};
ghost use Rattle.czi_format.specs.Space.{fit, use_span};
ghost use Rattle.czi_format.specs.Span.{span_le, sorted};
ghost use Rattle.czi_image.specs.Change.{IsNone};
ghost use Rattle.czi_image.specs.Holds.{meta_item_place};
ghost use Rattle.czi_image.specs.Spans.{meta_item_span};
ghost use Rattle.czi_image.specs.Change.{setting_of};
ghost use Rattle.czi_machine.specs.Change.{set_omitted};
ghost use Rattle.czi_machine.specs.Edit.{to_metadata};
ghost use Rattle.czi_machine.specs.Places.{metadata_need};
ghost use Rattle.czi_num.specs.Span.{span_of};
ghost use Rattle.czi_region.specs.Pieces.{bytes_put, room};
ghost use Rattle.czi_region.specs.declared.block.Region.{Region as TheRegion};
ghost use Rattle.czi_space.specs.State.{space_of};
ghost use Rattle.czi_image.specs.declared.change.Setting.TheVariants.{To};
ghost use Rattle.czi_image.specs.declared.types.MetaItem.{MetaItem};
ghost use Rattle.czi_plan.specs.Attaching.{metadata_in};
ghost use Rattle.czi_plan.specs.Changing.{edited};
ghost use Rattle.czi_plan.specs.Conditions.{IsEmpty, IsMapOf};
ghost use Rattle.czi_plan.specs.Does.{Does, HasNoPlan};
ghost use Rattle.czi_plan.specs.Marks.{AreMarks};
ghost use Rattle.czi_plan.specs.Need.{HasMetadataMemory, HasSpare, need_of_lists};
ghost use Rattle.czi_plan.specs.Plan.{IsBrief, IsPlan, dead_of, usable_of};
ghost use Rattle.czi_plan.specs.Setting.{IsMetaItemOf, IsPlacedIn, IsStagedIn, StagesMetadata, metadata_marks, metadata_of};

use crate::freeing::release;
use crate::marks::{link, mark_header, mark_pointer};
use crate::need::need_of_edit;
use crate::new_metadata::NewMetadata;
use crate::placing::place;
use crate::plan::{EditPlan, PlanFault};
use crate::spare::{put, put_all};
use czi_body::stage_meta;
use czi_doc::{DATA_LIMIT, TEXT_LIMIT};
use czi_format::METADATA_POSITION;
use czi_image::{Index, MetaItem, Setting};
use czi_num::Span;
use czi_region::Region;
use czi_space::Map;

/// Plans what new metadata write: their data are one write, from a piece of the region, and their header and the pointer
/// to it are links. It takes no memory.
fn stage_metadata(new: &NewMetadata, item: &MetaItem, region: &mut Region, out: &mut EditPlan)
    requires item { IsMetaItemOf (metadata_of new.now) item.now.span item.now }
    requires long { item.now.span.len ≡ metadata_need (metadata_of new.now) }
    requires room { item.now.span.len - 32 ≤ room region.old }
    requires no_marks { out.old.marks.items ≡ [] }
    requires no_writes { out.old.writes.items ≡ [] }
    requires no_used { out.old.used.items ≡ [] }
    requires writes_room { vec_len out.old.writes < vec_capacity out.old.writes }
    requires memory { HasMetadataMemory out.old }
    ensures staged { IsStagedIn region.new (metadata_of new.now) item.now out.new.writes.items }
    ensures used { map span_of out.new.used.items ≡ meta_item_span item.now ∷ [] }
    ensures end { out.new.length ≡ max out.old.length (item.now.span.at + item.now.span.len) }
    ensures others { out.new ≡ record out.old { writes = out.new.writes; used = out.new.used; length = out.new.length; marks = out.new.marks } }
    ensures marks { (r : TheRegion) → AreMarks r out.new.marks.items (metadata_marks (To (Some item.now))) }
    ensures kept { HasMetadataMemory out.new }
{
    let piece = stage_meta(region, new.xml, new.tail);
    put(&mut out.writes, (item.span.at + 32, piece));
    put(&mut out.used, item.span);
    out.length = out.length.max(item.span.at + item.span.len);
    mark_pointer(METADATA_POSITION as u64, item.span.at, &mut out.marks);
    mark_header(item.span.at, &item.head, &mut out.marks);
}

/// Frees metadata for which there are others, or none, and holds them.
pub fn release_metadata(
    setting: &Setting<MetaItem>,
    old: &Option<MetaItem>,
    held: &mut Vec<Span>,
    freed: &mut Vec<Span>,
    dead: &mut Vec<Span>,
)
    requires no_held { held.old.items ≡ [] }
    requires no_freed { freed.old.items ≡ [] }
    requires no_dead { dead.old.items ≡ [] }
    requires held_room { 1 ≤ vec_capacity held.old }
    requires freed_room { 1 ≤ vec_capacity freed.old }
    requires dead_room { 1 ≤ vec_capacity dead.old }
    ensures held { map span_of held.new.items ≡ usable_of (option_to_list (option_map meta_item_place (set_omitted (setting_of setting.now) old.now))) }
    ensures freed { freed.new.items ≡ held.new.items }
    ensures dead { map span_of dead.new.items ≡ dead_of (option_to_list (option_map meta_item_place (set_omitted (setting_of setting.now) old.now))) }
{
    if let (Setting::To(_), Some(item)) = (setting, old) {
        release(&item.span, item.walked, held, dead);
    }
    put_all(freed, held);
}

/// Plans what new metadata write and change, once a place was found for them, and there is memory for all of it.
fn stage_setting(
    index: &Index,
    space: &Map,
    new: &NewMetadata,
    span: Span,
    region: &mut Region,
    out: &mut EditPlan,
)
    requires empty { IsNone out.old.change }
    requires no_writes { out.old.writes.items ≡ [] }
    requires no_links { out.old.links.links ≡ [] }
    requires no_used { out.old.used.items ≡ [] }
    requires no_freed { out.old.freed.items ≡ [] }
    requires no_held { out.old.held.items ≡ [] }
    requires no_marks { out.old.marks.items ≡ [] }
    requires no_dead { out.old.dead.items ≡ [] }
    requires length { out.old.length ≡ space.now.length }
    requires of_index { IsMapOf index.now space.now }
    requires fits { fit (space_of space.now) (metadata_need (metadata_of new.now)) ≡ Ok (record { span = span_of span; space = use_span (space_of space.now) (span_of span) }) }
    requires ends { span.at + span.len ≤ 2 ^ 62 }
    requires room { span.len - 32 ≤ room region.old }
    requires spare { HasSpare (need_of_lists 1 0 0 1) out.old }
    ensures { (i : MetaItem) × StagesMetadata index.now space.now (To (Some i)) (edited (metadata_of new.now)) region.new out.new }
{
    let item = new.item(index, span);
    stage_metadata(new, &item, region, out);
    let setting = Setting::To(Some(item));
    release_metadata(
        &setting,
        &index.metadata,
        &mut out.held,
        &mut out.freed,
        &mut out.dead,
    );
    link(space, region, out);
    out.change.metadata = setting;
}

/// Plans a setting of the metadata, to this XML and this attachment.
///
/// The metadata go where their need fits first. Their data are one write, from a piece of the region, into which each
/// payload is copied once; their header and MetadataPosition are links, and so are the headers of new DELETED extents.
/// The span of the old metadata, where there are some, is freed and held, or has a DELETED header of its own where it
/// can't be used again. No directory changes.
///
/// # Errors
///
/// `Full` exactly where the metadata have no place, and else `Memory`. Nothing is said of `region` and `out` then.
pub fn plan_set_meta(
    index: &Index,
    space: &Map,
    xml: &[u8],
    tail: &[u8],
    region: &mut Region,
    out: &mut EditPlan,
) -> Result<(), PlanFault>
    requires empty { IsEmpty out.old }
    requires reset { bytes_put region.old ≡ [] }
    requires of_index { IsMapOf index.now space.now }
    requires xml { length xml.now ≤ TEXT_LIMIT }
    requires tail { length tail.now ≤ DATA_LIMIT }
    ensures plan { OnOk result (IsPlan index.now space.now region.new out.new) }
    ensures does { OnOk result (Does index.now space.now region.new out.new (to_metadata (metadata_in xml.now tail.now))) }
    ensures held { OnOk result (length out.new.held.items ≤ 1) }
    ensures brief { OnOk result (IsBrief out.new) }
    ensures full { IfErr result (HasNoPlan index.now space.now (to_metadata (metadata_in xml.now tail.now))) }
{
    let new = NewMetadata { xml, tail };
    out.length = space.length();
    let span = place(space, &[], 32 + new.data_len() as u64)?;
    out.reserve(&need_of_edit(0))?;
    region.ensure(new.data_len())?;
    stage_setting(index, space, &new, span, region, out);
    Ok(())
}
