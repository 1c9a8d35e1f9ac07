//! The plan of a removal.

ghost use Rattle.std.specs.Prelude.{◌≡◌, ℕ, ◌<◌, ◌≤◌, ◌∷◌, [], Some, length, map, IfErr, OnOk, IsSome};
ghost use Rattle.czi_doc.specs.View.{dims_of};
ghost use Rattle.czi_image.specs.View.{tile_of};
ghost use Rattle.czi_image.specs.declared.change.Act.TheVariants.{Out};
ghost use Rattle.czi_machine.specs.Change.{out as taken_out};
ghost use Rattle.czi_machine.specs.Edit.{in_subblocks};
ghost use Rattle.czi_region.specs.Pieces.{bytes_put, room};
ghost use Rattle.czi_plan.specs.Changing.{Stages, Starts, edited, back_entries, front_entries, middle_entries, range_after, size_after};
ghost use Rattle.czi_plan.specs.Conditions.{IsEmpty, IsMapOf};
ghost use Rattle.czi_plan.specs.Does.{Does, HasNoPlan};
ghost use Rattle.czi_plan.specs.Listing.{AreSizes, HasRoomFor, IsPlace};
ghost use Rattle.czi_plan.specs.Need.{HasSpare, need_of_lists};
ghost use Rattle.czi_plan.specs.Plan.{IsBrief, IsPlan};
ghost use Rattle.czi_plan.specs.Search.{tile_with};
ghost use Rattle.czi_space.specs.State.{space_of};
ghost use Rattle.czi_plan.specs.Kind.{of_subblocks};

use crate::changing::{stage_act, take_memory};
use crate::listing::plan_directory;
use crate::plan::{EditPlan, PlanFault};
use crate::search::tile_with;
use crate::tiles::{Sizes, sizes_after};
use czi_doc::Dims;
use czi_image::{Act, Index};
use czi_region::Region;
use czi_space::Map;

/// Plans what the removal of the subblock at a place writes, once it is known what becomes of the directory. It takes no memory.
fn stage_removal(
    index: &Index,
    space: &Map,
    i: usize,
    sizes: &Sizes,
    region: &mut Region,
    out: &mut EditPlan,
)
    requires starts { Starts of_subblocks space.now [] out.old }
    requires no_writes { out.old.writes.items ≡ [] }
    requires no_marks { out.old.marks.items ≡ [] }
    requires of_index { IsMapOf index.now space.now }
    requires inside { i < length index.now.tiles.items }
    requires sizes { AreSizes of_subblocks sizes.now (front_entries of_subblocks (Out i) index.now.tiles.items) (middle_entries of_subblocks (Out i) index.now.tiles.items) (back_entries of_subblocks (Out i) index.now.tiles.items) }
    requires place { IsPlace index.now index.now.directory (size_after of_subblocks (Out i) index.now) (range_after of_subblocks (Out i) index.now) (space_of space.now) out.old.change.directory }
    requires room { HasRoomFor out.old.change.directory sizes.now.middle (room region.old) }
    requires spare { HasSpare (need_of_lists 1 1 0 1) out.old }
    ensures { Stages of_subblocks index.now space.now (Out i) (edited (taken_out i)) region.new out.old.change.directory out.new }
{
    stage_act(index, space, Act::Out(i), sizes, region, out);
}

/// Plans the removal of the subblock at a place of the directory, as `plan_remove` does.
///
/// # Errors
///
/// `Full` exactly where the directory isn't changed in place and a new one has no place, and else `Memory`. Nothing is
/// said of `region` and `out` then.
pub fn plan_remove_at(
    index: &Index,
    space: &Map,
    i: usize,
    region: &mut Region,
    out: &mut EditPlan,
) -> Result<(), PlanFault>
    requires empty { IsEmpty out.old }
    requires reset { bytes_put region.old ≡ [] }
    requires of_index { IsMapOf index.now space.now }
    requires inside { i < length index.now.tiles.items }
    ensures plan { OnOk result (IsPlan index.now space.now region.new out.new) }
    ensures does { OnOk result (Does index.now space.now region.new out.new (in_subblocks (taken_out i))) }
    ensures held { OnOk result (length out.new.held.items ≤ 1) }
    ensures brief { OnOk result (IsBrief out.new) }
    ensures full { IfErr result (HasNoPlan index.now space.now (in_subblocks (taken_out i))) }
{
    out.length = space.length();
    let sizes = sizes_after(&index.tiles, index.entries_len(), i, i + 1, 0);
    let (size, range) = (sizes.total(), sizes.middle);
    out.change.directory = plan_directory(index, space, &[], &index.directory, size, range)?;
    let change = out.change.directory;
    take_memory(0, range, change, region, out)?;
    stage_removal(index, space, i, &sizes, region, out);
    Ok(())
}

/// Plans the removal of the first subblock that has the key of these dimensions.
///
/// The directory is changed in place where it has room for the entries of the others and those behind the subblock are
/// at most 65,536 bytes: its UsedSize, its EntryCount and these entries are links. Else a new directory, with room for
/// more, goes where its need fits first: its data are one write, from a piece of the region, and DirectoryPosition and
/// its header are links. The headers of new DELETED extents are links too, and a DELETED header for each freed span that
/// can't be used again. Of the free extents only those are read that a span that is used or freed touches, which are
/// found by halves; where there is a new directory first fit goes through them in turn. No list of them is copied. Of
/// the subblocks only the numbers of their keys are scanned.
///
/// # Errors
///
/// `Full` exactly where the directory isn't changed in place and a new one has no place, and else `Memory`. Nothing is
/// said of `region` and `out` then.
pub fn plan_remove(
    index: &Index,
    space: &Map,
    dims: &Dims,
    region: &mut Region,
    out: &mut EditPlan,
) -> Result<(), PlanFault>
    requires empty { IsEmpty out.old }
    requires reset { bytes_put region.old ≡ [] }
    requires of_index { IsMapOf index.now space.now }
    requires some { IsSome (tile_with (dims_of dims.now) (map tile_of index.now.tiles.items)) }
    ensures plan { OnOk result (IsPlan index.now space.now region.new out.new) }
    ensures does { OnOk result ((i : ℕ) → tile_with (dims_of dims.now) (map tile_of index.now.tiles.items) ≡ Some i → Does index.now space.now region.new out.new (in_subblocks (taken_out i))) }
    ensures held { OnOk result (length out.new.held.items ≤ 1) }
    ensures brief { OnOk result (IsBrief out.new) }
    ensures full { IfErr result (λ fault. (i : ℕ) → tile_with (dims_of dims.now) (map tile_of index.now.tiles.items) ≡ Some i → HasNoPlan index.now space.now (in_subblocks (taken_out i)) fault) }
{
    let i = tile_with(index, dims).unwrap();
    plan_remove_at(index, space, i, region, out)
}
