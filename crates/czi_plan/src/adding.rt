//! The plan of an addition.

ghost use Rattle.std.specs.Prelude.{◌≡◌, ◌^◌, ◌<◌, ◌≤◌, ◌∷◌, [], length, IfErr, OnOk};
ghost use Rattle.czi_image.specs.declared.change.Act.TheVariants.{Into};
ghost use Rattle.czi_image.specs.declared.types.Tile.{Tile};
ghost use Rattle.czi_machine.specs.Change.{into};
ghost use Rattle.czi_machine.specs.Edit.{in_subblocks};
ghost use Rattle.czi_region.specs.Pieces.{bytes_put};
ghost use Rattle.czi_plan.specs.Bringing.{subblock_in};
ghost use Rattle.czi_plan.specs.Conditions.{IsEmpty, IsMapOf};
ghost use Rattle.czi_plan.specs.Does.{Does, HasNoPlan};
ghost use Rattle.czi_plan.specs.Plan.{IsBrief, IsPlan};

use crate::bringing::{Seat, plan_brought};
use crate::plan::{EditPlan, PlanFault};
use crate::subblock::NewSubblock;
use czi_doc::{DATA_LIMIT, EntryInfo, TEXT_LIMIT};
use czi_format::MOST_SUBBLOCKS;
use czi_image::Index;
use czi_region::Region;
use czi_space::Map;

/// Plans the addition of a subblock, which comes behind all others.
///
/// The subblock goes where its need fits first, and then the directory is planned in the space that is left, as for a
/// removal: in place where it has room for one entry more, of which nothing but that entry is written. The subblock's
/// data are one write, from a piece of the region, into which each payload is copied once, and its header is a link.
/// Of the subblocks only the numbers of their keys are scanned.
///
/// # Errors
///
/// `Full` exactly where the subblock or a new directory has no place, and else `Memory`. Nothing is said of `region` and
/// `out` then.
pub fn plan_add(
    index: &Index,
    space: &Map,
    info: &EntryInfo,
    meta: &[u8],
    pixels: &[u8],
    tail: &[u8],
    region: &mut Region,
    out: &mut EditPlan,
) -> Result<(), PlanFault>
    requires empty { IsEmpty out.old }
    requires reset { bytes_put region.old ≡ [] }
    requires of_index { IsMapOf index.now space.now }
    requires few { length index.now.tiles.items < MOST_SUBBLOCKS }
    requires meta { length meta.now ≤ TEXT_LIMIT }
    requires pixels { length pixels.now ≤ DATA_LIMIT }
    requires tail { length tail.now ≤ DATA_LIMIT }
    ensures plan { OnOk result (IsPlan index.now space.now region.new out.new) }
    ensures does { OnOk result (Does index.now space.now region.new out.new (in_subblocks (into (length index.now.tiles.items) (subblock_in info.now meta.now pixels.now tail.now)))) }
    ensures held { OnOk result (length out.new.held.items ≤ 1) }
    ensures brief { OnOk result (IsBrief out.new) }
    ensures full { IfErr result (HasNoPlan index.now space.now (in_subblocks (into (length index.now.tiles.items) (subblock_in info.now meta.now pixels.now tail.now)))) }
{
    let new = NewSubblock::new(info, meta, pixels, tail);
    let seat = Seat::Before(index.tiles.len());
    plan_brought(index, space, seat, &new, region, out)
}
