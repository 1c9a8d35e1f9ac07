//! The plan of an edit that brings a subblock.

ghost use Rattle.std.specs.Prelude.{◌≡◌, ℕ, ◌+◌, ◌-◌, ◌*◌, ◌^◌, ◌≤◌, ◌∷◌, ◌||◌, [], Ok, length, map, nat_lt, sum, IfErr, IfOk, OnOk};
ghost use Rattle.czi_format.specs.Entry.{entry_len, info_len};
ghost use Rattle.czi_format.specs.Space.{fit, use_span};
ghost use Rattle.czi_format.specs.Document.{Subblock};
ghost use Rattle.czi_image.specs.Change.{act_of};
ghost use Rattle.czi_image.specs.declared.types.Tile.{Tile};
ghost use Rattle.czi_machine.specs.Edit.{in_subblocks};
ghost use Rattle.czi_machine.specs.Places.{subblock_need};
ghost use Rattle.czi_num.specs.Span.{span_of};
ghost use Rattle.czi_image.specs.Applied.{walks_on};
ghost use Rattle.czi_region.specs.Pieces.{bytes_put, room};
ghost use Rattle.czi_space.specs.State.{space_of};
ghost use Rattle.czi_plan.specs.Bringing.{AreSizesOf, IsSeat, IsTileOf, act_at, subblock_of};
ghost use Rattle.czi_plan.specs.Changing.{Stages, Starts, edited};
ghost use Rattle.czi_plan.specs.Conditions.{IsEmpty, IsMapOf};
ghost use Rattle.czi_plan.specs.Does.{Does, HasNoPlan};
ghost use Rattle.czi_plan.specs.Directory.{entries_of};
ghost use Rattle.czi_plan.specs.Listing.{HasRoomFor, IsPlace};
ghost use Rattle.czi_plan.specs.Need.{HasSpare, need_of_lists};
ghost use Rattle.czi_plan.specs.Plan.{IsBrief, IsPlan};
ghost use Rattle.czi_plan.specs.Kind.{of_subblocks};

use crate::changing::{stage_act, take_memory};
use crate::listing::plan_directory;
use crate::placing::place;
use crate::plan::{EditPlan, PlanFault};
use crate::staging::{new_tile, stage_subblock};
use crate::subblock::NewSubblock;
use crate::tiles::{Sizes, sizes_after};
use czi_dv::entry_len;
use czi_format::{LONGEST_ENTRY, MOST_SUBBLOCKS};
use czi_image::{Act, Index, Tile};
use czi_num::Span;
use czi_region::Region;
use czi_space::Map;

/// Where a new item comes in the order of its directory.
#[derive(Clone, Copy, PartialEq, Eq)]
pub enum Seat {
    /// In the place of another one, which leaves.
    Over(usize),
    /// Before the one at a place, or behind all others.
    Before(usize),
}

/// A new subblock for which there is a place.
#[derive(Clone, Copy)]
struct Incoming<'a> {
    new: &'a NewSubblock<'a>,
    seat: Seat,
    span: Span,
    sizes: Sizes,
}

impl Seat {
    /// What an item does with the others that comes there.
    pub fn act<T>(self, item: T) -> Act<T>
        ensures { result ≡ act_at self item }
    {
        match self {
            Seat::Over(i) => Act::Put(i, item),
            Seat::Before(i) => Act::Into(i, item),
        }
    }

    /// How long the parts of the directory's data are once an entry of so many bytes comes there.
    pub fn sizes(self, tiles: &[Tile], total: usize, entry: usize) -> Sizes
        requires total { total ≡ sum (map entry_len (entries_of tiles.now)) }
        requires most { total ≤ LONGEST_ENTRY * length tiles.now }
        requires few { length tiles.now ≤ MOST_SUBBLOCKS }
        requires seat { IsSeat self (length tiles.now) (MOST_SUBBLOCKS) }
        requires small { entry ≤ LONGEST_ENTRY }
        ensures sizes { (s : Subblock) → info_len s.info ≡ entry → AreSizesOf of_subblocks result (act_at self s) tiles.now }
        ensures bound { result.front + result.middle + result.back ≤ 2 ^ 40 }
    {
        match self {
            Seat::Over(i) => sizes_after(tiles, total, i, i + 1, entry),
            Seat::Before(i) => sizes_after(tiles, total, i, i, entry),
        }
    }
}

/// Plans what a new subblock writes and changes, once places were found for it and for the directory, and there is memory for
/// all of it.
fn stage_brought(
    index: &Index,
    space: &Map,
    incoming: &Incoming,
    tile: Tile,
    region: &mut Region,
    out: &mut EditPlan,
)
    requires starts { Starts of_subblocks space.now [] out.old }
    requires no_writes { out.old.writes.items ≡ [] }
    requires no_marks { out.old.marks.items ≡ [] }
    requires of_index { IsMapOf index.now space.now }
    requires seat { IsSeat incoming.now.seat (length index.now.tiles.items) (MOST_SUBBLOCKS) }
    requires fits { fit (space_of space.now) (subblock_need (subblock_of incoming.now.new.now)) ≡ Ok (record { span = span_of incoming.now.span; space = use_span (space_of space.now) (span_of incoming.now.span) }) }
    requires ends { incoming.now.span.at + incoming.now.span.len ≤ 2 ^ 62 }
    requires sizes { AreSizesOf of_subblocks incoming.now.sizes (act_at incoming.now.seat (subblock_of incoming.now.new.now)) index.now.tiles.items }
    requires place { IsPlace index.now index.now.directory (incoming.now.sizes.front + incoming.now.sizes.middle + incoming.now.sizes.back) incoming.now.sizes.middle (use_span (space_of space.now) (span_of incoming.now.span)) out.old.change.directory }
    requires tile { IsTileOf (subblock_of incoming.now.new.now) incoming.now.span tile }
    requires walked { tile.walked ≡ (nat_lt tile.span.at index.now.length || walks_on index.now) }
    requires room { (left : ℕ) → left + (incoming.now.span.len - 32) ≡ room region.old → HasRoomFor out.old.change.directory incoming.now.sizes.middle left }
    requires own { incoming.now.span.len - 32 ≤ room region.old }
    requires spare { HasSpare (need_of_lists 1 1 0 2) out.old }
    ensures { Stages of_subblocks index.now space.now (act_at incoming.now.seat tile) (edited (act_of (act_at incoming.now.seat (subblock_of incoming.now.new.now)))) region.new out.old.change.directory out.new }
{
    stage_subblock(incoming.new, &tile, region, out);
    let act = incoming.seat.act(tile);
    stage_act(index, space, act, &incoming.sizes, region, out);
}

/// Plans an edit that brings a subblock: its place is found, then that of the directory in the space that is left, and
/// only then memory is asked for, all at once.
pub fn plan_brought(
    index: &Index,
    space: &Map,
    seat: Seat,
    new: &NewSubblock,
    region: &mut Region,
    out: &mut EditPlan,
) -> Result<(), PlanFault>
    requires empty { IsEmpty out.old }
    requires reset { bytes_put region.old ≡ [] }
    requires of_index { IsMapOf index.now space.now }
    requires seat { IsSeat seat (length index.now.tiles.items) (MOST_SUBBLOCKS) }
    ensures plan { OnOk result (IsPlan index.now space.now region.new out.new) }
    ensures does { OnOk result (Does index.now space.now region.new out.new (in_subblocks (act_of (act_at seat (subblock_of new.now))))) }
    ensures held { OnOk result (length out.new.held.items ≤ 1) }
    ensures brief { OnOk result (IsBrief out.new) }
    ensures full { IfErr result (HasNoPlan index.now space.now (in_subblocks (act_of (act_at seat (subblock_of new.now))))) }
{
    out.length = space.length();
    let span = place(space, &[], 32 + new.data_len() as u64)?;
    let sizes = seat.sizes(&index.tiles, index.entries_len(), entry_len(new.info));
    let (size, range) = (sizes.total(), sizes.middle);
    out.change.directory = plan_directory(index, space, &[span], &index.directory, size, range)?;
    let incoming = Incoming {
        new,
        seat,
        span,
        sizes,
    };
    let change = out.change.directory;
    take_memory(new.data_len(), range, change, region, out)?;
    let tile = new_tile(index, new, span)?;
    stage_brought(index, space, &incoming, tile, region, out);
    Ok(())
}
