//! The plan of a replacement.

ghost use Rattle.std.specs.Prelude.{◌≡◌, ℕ, ◌<◌, ◌≤◌, ◌∷◌, [], Some, length, map, IfErr, OnOk, IsSome};
ghost use Rattle.czi_doc.specs.View.{dims_of};
ghost use Rattle.czi_image.specs.View.{tile_of};
ghost use Rattle.czi_image.specs.declared.change.Act.TheVariants.{Put};
ghost use Rattle.czi_image.specs.declared.types.Tile.{Tile};
ghost use Rattle.czi_machine.specs.Change.{put};
ghost use Rattle.czi_machine.specs.Edit.{in_subblocks};
ghost use Rattle.czi_region.specs.Pieces.{bytes_put};
ghost use Rattle.czi_plan.specs.Bringing.{subblock_in};
ghost use Rattle.czi_plan.specs.Conditions.{IsEmpty, IsMapOf};
ghost use Rattle.czi_plan.specs.Does.{Does, HasNoPlan};
ghost use Rattle.czi_plan.specs.Plan.{IsBrief, IsPlan};
ghost use Rattle.czi_plan.specs.Search.{tile_with};

use crate::bringing::{Seat, plan_brought};
use crate::plan::{EditPlan, PlanFault};
use crate::search::tile_with;
use crate::subblock::NewSubblock;
use czi_doc::{DATA_LIMIT, EntryInfo, TEXT_LIMIT};
use czi_image::Index;
use czi_region::Region;
use czi_space::Map;

/// Plans the replacement of the subblock at a place of the directory, as `plan_replace` does.
///
/// # Errors
///
/// `Full` exactly where the subblock or a new directory has no place, and else `Memory`. Nothing is said of `region` and
/// `out` then.
pub fn plan_replace_at(
    index: &Index,
    space: &Map,
    i: usize,
    info: &EntryInfo,
    meta: &[u8],
    pixels: &[u8],
    tail: &[u8],
    region: &mut Region,
    out: &mut EditPlan,
) -> Result<(), PlanFault>
    requires empty { IsEmpty out.old }
    requires reset { bytes_put region.old ≡ [] }
    requires of_index { IsMapOf index.now space.now }
    requires inside { i < length index.now.tiles.items }
    requires meta { length meta.now ≤ TEXT_LIMIT }
    requires pixels { length pixels.now ≤ DATA_LIMIT }
    requires tail { length tail.now ≤ DATA_LIMIT }
    ensures plan { OnOk result (IsPlan index.now space.now region.new out.new) }
    ensures does { OnOk result (Does index.now space.now region.new out.new (in_subblocks (put i (subblock_in info.now meta.now pixels.now tail.now)))) }
    ensures held { OnOk result (length out.new.held.items ≤ 1) }
    ensures brief { OnOk result (IsBrief out.new) }
    ensures full { IfErr result (HasNoPlan index.now space.now (in_subblocks (put i (subblock_in info.now meta.now pixels.now tail.now)))) }
{
    let new = NewSubblock::new(info, meta, pixels, tail);
    plan_brought(index, space, Seat::Over(i), &new, region, out)
}

/// Plans the replacement of the first subblock that has the key of the new one's dimensions. The new one stands in its
/// place in the directory, and lies elsewhere: the old one's span is held.
///
/// The subblock goes where its need fits first, and then the directory is planned in the space that is left, as for a
/// removal. Where it is changed in place and the new entry is as long as the old one, only that entry is written. The
/// subblock's data are one write, from a piece of the region, into which each payload is copied once, and its header is
/// a link. Of the subblocks only the numbers of their keys are scanned.
///
/// # Errors
///
/// `Full` exactly where the subblock or a new directory has no place, and else `Memory`. Nothing is said of `region` and
/// `out` then.
pub fn plan_replace(
    index: &Index,
    space: &Map,
    info: &EntryInfo,
    meta: &[u8],
    pixels: &[u8],
    tail: &[u8],
    region: &mut Region,
    out: &mut EditPlan,
) -> Result<(), PlanFault>
    requires empty { IsEmpty out.old }
    requires reset { bytes_put region.old ≡ [] }
    requires of_index { IsMapOf index.now space.now }
    requires some { IsSome (tile_with (dims_of info.now.dims) (map tile_of index.now.tiles.items)) }
    requires meta { length meta.now ≤ TEXT_LIMIT }
    requires pixels { length pixels.now ≤ DATA_LIMIT }
    requires tail { length tail.now ≤ DATA_LIMIT }
    ensures plan { OnOk result (IsPlan index.now space.now region.new out.new) }
    ensures does { OnOk result ((i : ℕ) → tile_with (dims_of info.now.dims) (map tile_of index.now.tiles.items) ≡ Some i → Does index.now space.now region.new out.new (in_subblocks (put i (subblock_in info.now meta.now pixels.now tail.now)))) }
    ensures held { OnOk result (length out.new.held.items ≤ 1) }
    ensures brief { OnOk result (IsBrief out.new) }
    ensures full { IfErr result (λ fault. (i : ℕ) → tile_with (dims_of info.now.dims) (map tile_of index.now.tiles.items) ≡ Some i → HasNoPlan index.now space.now (in_subblocks (put i (subblock_in info.now meta.now pixels.now tail.now))) fault) }
{
    let i = tile_with(index, &info.dims).unwrap();
    plan_replace_at(index, space, i, info, meta, pixels, tail, region, out)
}
