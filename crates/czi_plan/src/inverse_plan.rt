//! The plan of an inverse.

ghost use Rattle.std.specs.Prelude.{◌≡◌, ◌≤◌, false, length, map, IfErr, IfSome, IsNone, OnErr, OnOk};
ghost use Rattle.czi_image.specs.Summary.{entries_len};
ghost use Rattle.czi_image.specs.View.{tile_of};
ghost use Rattle.czi_region.specs.Pieces.{room};
ghost use Rattle.czi_plan.specs.Conditions.{IsEmpty, IsMapOf};
ghost use Rattle.czi_plan.specs.Listing.{region_size};
ghost use Rattle.czi_plan.specs.Need.{HasSpare, need_by, of_attachments, of_subblocks, region_by};
ghost use Rattle.czi_plan.specs.Placing.{HasNoPlace};
ghost use Rattle.czi_plan.specs.Plan.{IsBrief, IsPlan};
ghost use Rattle.czi_plan.specs.Undoing.{HasNoUndo, InverseFits, IsAttachmentAct, IsMetadataSetting, PartFits, Undoes};

use crate::need::of_subblocks;
use crate::plan::{EditPlan, PlanFault};
use crate::returning::{attachment_back, metadata_back};
use crate::undoing::{plan_attachments, plan_setting, plan_tiles};
use czi_image::{Act, AttItem, Index, MetaItem, Setting};
use czi_region::Region;
use czi_space::Map;
use czi_undo::{Inverse, Part};

/// What an inverse does with the attachments, if it changes them.
fn attachment_act(index: &Index, space: &Map, part: &Part) -> Option<Act<AttItem>>
    requires fits { PartFits index.now space.now part.now }
    ensures none { IsNone result → of_attachments part.now ≡ false }
    ensures act { IfSome result (IsAttachmentAct part.now) }
{
    match part {
        Part::DropAtt { place } => Some(Act::Out(*place as usize)),
        Part::PutAtt { place, info, held } => {
            Some(Act::Put(*place as usize, attachment_back(info, held)))
        }
        Part::InsertAtt { place, info, held } => {
            Some(Act::Into(*place as usize, attachment_back(info, held)))
        }
        _ => None,
    }
}

/// What an inverse that changes no list does with the metadata.
fn metadata_setting(index: &Index, space: &Map, part: &Part) -> Setting<MetaItem>
    requires fits { PartFits index.now space.now part.now }
    requires no_subblocks { of_subblocks part.now ≡ false }
    requires no_attachments { of_attachments part.now ≡ false }
    ensures { IsMetadataSetting part.now result }
{
    match part {
        Part::NoMeta => Setting::To(None),
        Part::PutMeta { held } => Setting::To(Some(metadata_back(held))),
        _ => Setting::Same,
    }
}

/// Plans an inverse: the document becomes again what it was before the edit that it undoes.
///
/// What left then comes back where it lies: its header is a link, and nothing else of it is written. What came then goes, and is
/// held no more. The directory is changed in place where it has room, and else a new one goes where its need fits first, outside
/// all that is held. It takes no memory: what it needs was made room for before (`need_of_inverse`).
///
/// # Errors
///
/// `Full` exactly where the directory isn't changed in place and a new one has no place. The region and the plan with its memory
/// are then as they were, but for the plan's length.
pub fn plan_inverse(
    index: &Index,
    space: &Map,
    inverse: &Inverse,
    region: &mut Region,
    out: &mut EditPlan,
) -> Result<(), PlanFault>
    requires empty { IsEmpty out.old }
    requires of_index { IsMapOf index.now space.now }
    requires fits { InverseFits index.now space.now inverse.now }
    requires spare { HasSpare (need_by inverse.now.parts.items (entries_len (map tile_of index.now.tiles.items)) (length index.now.attachments.items)) out.old }
    requires room { region_by inverse.now.parts.items (entries_len (map tile_of index.now.tiles.items)) (length index.now.attachments.items) ≤ room region.old }
    ensures plan { OnOk result (IsPlan index.now space.now region.new out.new) }
    ensures undoes { OnOk result (Undoes index.now space.now inverse.now region.new out.new) }
    ensures held { OnOk result (length out.new.held.items ≤ 1) }
    ensures brief { OnOk result (IsBrief out.new) }
    ensures full { IfErr result (HasNoUndo index.now space.now inverse.now) }
    ensures never { IfErr result HasNoPlace }
    ensures left { OnErr result ((region.new ≡ region.old) × (out.new ≡ record out.old { length = out.new.length })) }
    ensures region { region_size region.new ≡ region_size region.old }
{
    let part = &inverse.parts[0];
    if of_subblocks(part) {
        return plan_tiles(index, space, part, region, out);
    }
    if let Some(act) = attachment_act(index, space, part) {
        return plan_attachments(index, space, act, region, out);
    }
    let setting = metadata_setting(index, space, part);
    plan_setting(index, space, setting, region, out);
    Ok(())
}
