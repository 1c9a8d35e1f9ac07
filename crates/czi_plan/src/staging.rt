//! A new subblock: its tile, its data as a piece of a region, and its header.

ghost use Rattle.std.specs.Prelude.{◌≡◌, ◌+◌, ◌-◌, ◌^◌, ◌<◌, ◌≤◌, ◌++◌, ◌∷◌, ◌||◌, [], map, max, nat_lt, vec_len, vec_capacity, IfOk};
ghost use Rattle.czi_image.specs.Applied.{walks_on};
ghost use Rattle.czi_image.specs.View.{tile_of};
ghost use Rattle.czi_machine.specs.Places.{subblock_need};
ghost use Rattle.czi_machine.specs.Puts.{IsSubblock};
ghost use Rattle.czi_region.specs.Pieces.{room};
ghost use Rattle.czi_region.specs.declared.block.Region.{Region as TheRegion};
ghost use Rattle.czi_plan.specs.Bringing.{IsTileOf, subblock_of};
ghost use Rattle.czi_plan.specs.Changing.{IsStaged};
ghost use Rattle.czi_plan.specs.Marks.{AddsMarks, head_mark};
ghost use Rattle.czi_plan.specs.Need.{KeepsMemory, WritesOne};
ghost use Rattle.czi_plan.specs.Kind.{of_subblocks};

use crate::directory::write_tile;
use crate::marks::mark_header;
use crate::placing::walks_at;
use crate::plan::EditPlan;
use crate::spare::put;
use crate::subblock::NewSubblock;
use czi_body::stage_sub;
use czi_dv::entry_len;
use czi_format::LONGEST_ENTRY;
use czi_image::{Index, Tile};
use czi_num::Span;
use czi_region::Region;
use czi_seg::{SegHeader, SegId};
use std::alloc::AllocError;

/// The tile of a new subblock in a span.
pub fn new_tile(index: &Index, new: &NewSubblock, span: Span) -> Result<Tile, AllocError>
    requires long { span.len ≡ subblock_need (subblock_of new.now) }
    requires ends { span.at + span.len ≤ 2 ^ 62 }
    ensures tile { IfOk result (IsTileOf (subblock_of new.now) span) }
    ensures walked { IfOk result (λ t. t.walked ≡ (nat_lt t.span.at index.now.length || walks_on index.now)) }
{
    let head = SegHeader {
        id: SegId::Subblock,
        allocated: span.len - 32,
        used: new.used() as u64,
    };
    Ok(Tile {
        info: new.info.try_copy()?,
        span,
        head,
        walked: walks_at(index, span.at),
        begin: span.at + 32 + new.begin() as u64,
        meta: new.meta.len() as u64,
        pixels: new.pixels.len() as u64,
        tail: new.tail.len() as u64,
    })
}

/// Plans what a new subblock writes: its data are one write, from a piece of the region, and its header is a link. It takes no
/// memory.
pub fn stage_subblock(new: &NewSubblock, tile: &Tile, region: &mut Region, out: &mut EditPlan)
    requires tile { IsTileOf (subblock_of new.now) tile.now.span tile.now }
    requires long { tile.now.span.len ≡ subblock_need (subblock_of new.now) }
    requires room { tile.now.span.len - 32 ≤ room region.old }
    requires no_writes { out.old.writes.items ≡ [] }
    requires writes_room { vec_len out.old.writes < vec_capacity out.old.writes }
    requires used_room { vec_len out.old.used < vec_capacity out.old.used }
    requires marks_room { vec_len out.old.marks < vec_capacity out.old.marks }
    ensures item { IsSubblock (tile_of tile.now) (subblock_of new.now) }
    ensures staged { IsStaged of_subblocks region.new (subblock_of new.now) tile.now out.new.writes.items }
    ensures used { out.new.used.items ≡ out.old.used.items ++ tile.now.span ∷ [] }
    ensures end { out.new.length ≡ max out.old.length (tile.now.span.at + tile.now.span.len) }
    ensures others { out.new ≡ record out.old { writes = out.new.writes; used = out.new.used; length = out.new.length; marks = out.new.marks } }
    ensures marks { (r : TheRegion) → AddsMarks r out.old.marks.items out.new.marks.items (head_mark (tile_of tile.now).segment ∷ []) }
    ensures left { room region.new + (tile.now.span.len - 32) ≡ room region.old }
    ensures writes { WritesOne out.old out.new }
    ensures memory { KeepsMemory out.old out.new }
{
    let mut own = [0u8; LONGEST_ENTRY];
    let entry = &mut own[..entry_len(&tile.info)];
    write_tile(tile, entry);
    let piece = stage_sub(region, entry, new.meta, new.pixels, new.tail);
    put(&mut out.writes, (tile.span.at + 32, piece));
    put(&mut out.used, tile.span);
    out.length = out.length.max(tile.span.at + tile.span.len);
    mark_header(tile.span.at, &tile.head, &mut out.marks);
}
