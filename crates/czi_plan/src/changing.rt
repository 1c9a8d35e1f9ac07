//! The plan of one act on the subblocks, once places were found for what it brings and for the directory.

ghost use Rattle.std.specs.Prelude.{◌≡◌, ℕ, List, ◌+◌, ◌^◌, ◌<◌, ◌≤◌, ◌++◌, ◌∷◌, [], length, map, vec_len, vec_capacity, OnOk};
ghost use Rattle.czi_format.specs.Document.{Subblock};
ghost use Rattle.czi_image.specs.Change.{AreWithin};
ghost use Rattle.czi_machine.specs.Change.{Change};
ghost use Rattle.czi_region.specs.Pieces.{bytes_put, room};
ghost use Rattle.czi_region.specs.declared.block.Region.{Region as TheRegion};
ghost use Rattle.czi_plan.specs.Changing.{Begins, Origin, Stages, back_entries, front_entries, middle_entries, new_marks, range_after, tiles_before, tiles_behind, tiles_brought};
ghost use Rattle.czi_plan.specs.Conditions.{IsMapOf};
ghost use Rattle.czi_plan.specs.Listing.{AreSizes, HasRoomFor, region_size};
ghost use Rattle.czi_plan.specs.Marks.{AreMarks};
ghost use Rattle.czi_plan.specs.Need.{HasActMemory, HasSpare, PlansSame, need_of_lists};
ghost use Rattle.czi_plan.specs.Kind.{of_subblocks};

use crate::freeing::release_left;
use crate::listing::list_tiles;
use crate::marks::link;
use crate::need::need_of_edit;
use crate::plan::EditPlan;
use crate::spare::put;
use crate::tiles::{Sizes, brought_tiles, listing_of, parts_of};
use czi_format::MOST_SUBBLOCKS;
use czi_image::{Act, DirectoryChange, Index, Tile};
use czi_region::Region;
use czi_space::Map;
use std::alloc::AllocError;

/// Takes all the memory that an edit of a list wants, which puts so many bytes into a region and then a directory: room in the
/// region, and in the plan.
pub fn take_memory(
    len: usize,
    range: usize,
    change: DirectoryChange,
    region: &mut Region,
    out: &mut EditPlan,
) -> Result<(), AllocError>
    requires reset { bytes_put region.old ≡ [] }
    requires small { len ≤ 2 ^ 40 }
    requires short { range ≤ 2 ^ 40 }
    ensures own { OnOk result (len ≤ room region.new) }
    ensures room { OnOk result ((left : ℕ) → left + len ≡ room region.new → HasRoomFor change range left) }
    ensures same { PlansSame out.old out.new }
    ensures spare { OnOk result (HasSpare (need_of_lists 1 1 0 2) out.new) }
{
    out.reserve(&need_of_edit(1))?;
    make_room(len, range, &change, region)
}

/// Makes room in a region for so many bytes, and behind them for the range of a directory that is changed in place, or for the
/// data of a new one.
fn make_room(
    len: usize,
    range: usize,
    change: &DirectoryChange,
    region: &mut Region,
) -> Result<(), AllocError>
    requires reset { bytes_put region.old ≡ [] }
    requires small { len ≤ 2 ^ 40 }
    requires short { range ≤ 2 ^ 40 }
    ensures own { OnOk result (len ≤ room region.new) }
    ensures room { OnOk result ((left : ℕ) → left + len ≡ room region.new → HasRoomFor change.now range left) }
    ensures empty { bytes_put region.new ≡ [] }
{
    let more = match change {
        DirectoryChange::New(directory) => (directory.span.len - 32) as usize,
        DirectoryChange::Patched => range,
        DirectoryChange::Kept => 0,
    };
    region.ensure(len + more)
}

/// Plans an act once what it brings is staged, and it is known what becomes of the directory: what the directory lists,
/// what leaves, the links, and the change of the index. It takes no memory.
pub fn stage_act(
    index: &Index,
    space: &Map,
    act: Act<Tile>,
    sizes: &Sizes,
    region: &mut Region,
    out: &mut EditPlan,
)
    requires of_index { IsMapOf index.now space.now }
    requires within { AreWithin (act ∷ []) (length index.now.tiles.items) }
    requires few { length (tiles_before act index.now.tiles.items ++ (tiles_brought act ++ tiles_behind act index.now.tiles.items)) ≤ MOST_SUBBLOCKS }
    requires sizes { AreSizes of_subblocks sizes.now (front_entries of_subblocks act index.now.tiles.items) (middle_entries of_subblocks act index.now.tiles.items) (back_entries of_subblocks act index.now.tiles.items) }
    requires begins { (o : Origin (Change Subblock)) × Begins of_subblocks index.now space.now region.old act o out.old.change.directory out.old }
    requires marks { (r : TheRegion) → AreMarks r out.old.marks.items (new_marks of_subblocks act) }
    requires room { HasRoomFor out.old.change.directory (range_after of_subblocks act index.now) (room region.old) }
    requires writes_room { vec_len out.old.writes < vec_capacity out.old.writes }
    requires memory { HasActMemory out.old }
    ensures region { region_size region.new ≡ region_size region.old }
    ensures stages { (o : Origin (Change Subblock)) → Begins of_subblocks index.now space.now region.old act o out.old.change.directory out.old → Stages of_subblocks index.now space.now act o region.new out.old.change.directory out.new }
{
    let brought = brought_tiles(&act, &index.tiles);
    let parts = parts_of(&act, brought, &index.tiles);
    let listing = listing_of(&parts);
    list_tiles(index, &listing, sizes, region, out);
    release_left(
        parts.leaving,
        &out.change.directory,
        &index.directory,
        &mut out.held,
        &mut out.freed,
        &mut out.dead,
    );
    link(space, region, out);
    put(&mut out.change.tiles, act);
}
