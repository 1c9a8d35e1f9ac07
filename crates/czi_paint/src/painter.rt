//! Paints a region of an image, row by row.

ghost use Rattle.std.specs.Prelude.{◌≡◌, ◌≤◌, ◌^◌};
ghost use Rattle.std.specs.List.{All};
ghost use Rattle.czi_paint.specs.Patches.{EndsBelow, FitsRow};
ghost use Rattle.czi_paint.specs.Sweep.{HasEntered};

use crate::fault::PaintError;
use crate::length::too_long;
use crate::patch::Patch;
use crate::patches::patches_of;
use crate::rows::paint_row;
use crate::sweep::Sweep;
use czi_doc::Query;
use czi_image::Tile;
use czi_rig::{Failed, File, Rig};
use czi_tiles::{TileGrid, select};
use std::alloc::Global;

/// Paints a region of an image, row by row from the top. Each chosen tile that has pixels in a row is read once for it, into
/// its place there; a row looks at no others.
#[derive(Drop)]
pub struct Painter {
    /// What the chosen tiles show, in painting order.
    patches: Vec<Patch>,
    /// Which of them have the row that is next.
    sweep: Sweep,
    size: u64,
    w: u32,
    h: u32,
    next: u32,
    pub ghost some: { 1 ≤ size },
    pub ghost fit: { All (FitsRow w) patches.items },
    pub ghost small: { All (EndsBelow (2 ^ 62) size) patches.items },
    pub ghost entered: { HasEntered patches.items next sweep },
}

impl Painter {
    ghost use Rattle.std.specs.Prelude.{◌⊎◌, ◌<◌, length, map, MatchResult, None, OnOk, OnErr};
    ghost use Rattle.std.specs.Option.{ForSome};
    ghost use Rattle.czi_rig.specs.State.{seen_of};
    ghost use Rattle.czi_rig.specs.Faults.{Faults, failed_at, image};
    ghost use Rattle.czi_rig.specs.Quiet.{Untouched};
    ghost use Rattle.czi_doc.specs.QueryView.{query_of};
    ghost use Rattle.czi_tiles.specs.Chosen.{tile_dims};
    ghost use Rattle.czi_paint.specs.Painted.{HasMoved, HasRow, IsNextRow, LiesIn, Paints, row_len};
    ghost use Rattle.czi_paint.specs.Refusing.{Tells, chosen_cause, tiles_refusal};
    ghost use Rattle.czi_tiles.specs.Grid.{IsGrid};
    ghost use Rattle.czi_format.specs.Painting.{chosen};

    /// A painter of a region over the tiles of a directory; or the first cause not to paint it: that it is too long, and
    /// then over the chosen tiles in painting order.
    pub fn new(alloc: Global, tiles: &[Tile], query: &Query) -> Result<Painter, PaintError>
        requires few { length tiles.now < 2 ^ 32 }
        ensures { MatchResult result
            (λ painter. (tiles_refusal (query_of query.now) tiles.now ≡ None) × Paints (query_of query.now) tiles.now 0 painter)
            (λ error. (error ≡ PaintError.Memory) ⊎ Tells (tiles_refusal (query_of query.now) tiles.now) error) }
    {
        if let Some(error) = too_long(query) {
            return Err(error);
        }
        let places = select(alloc, tiles, query)?;
        Painter::of_places(alloc, tiles, query, &places)
    }

    /// The same through a grid of the tiles.
    pub fn with_grid(
        alloc: Global,
        tiles: &[Tile],
        grid: &TileGrid,
        query: &Query,
    ) -> Result<Painter, PaintError>
        requires few { length tiles.now < 2 ^ 32 }
        requires built { IsGrid tiles.now grid.now }
        ensures { MatchResult result
            (λ painter. (tiles_refusal (query_of query.now) tiles.now ≡ None) × Paints (query_of query.now) tiles.now 0 painter)
            (λ error. (error ≡ PaintError.Memory) ⊎ Tells (tiles_refusal (query_of query.now) tiles.now) error) }
    {
        if let Some(error) = too_long(query) {
            return Err(error);
        }
        let places = grid.select(alloc, tiles, query)?;
        Painter::of_places(alloc, tiles, query, &places)
    }

    /// A painter of the chosen tiles, which stand at these places, in painting order.
    fn of_places(
        alloc: Global,
        tiles: &[Tile],
        query: &Query,
        places: &[u32],
    ) -> Result<Painter, PaintError>
        requires { places.now ≡ map (λ t. t.0) (chosen tile_dims (query_of query.now) tiles.now) }
        ensures { MatchResult result
            (λ painter. (chosen_cause (query_of query.now) tiles.now ≡ None) × Paints (query_of query.now) tiles.now 0 painter)
            (λ error. (error ≡ PaintError.Memory) ⊎ Tells (chosen_cause (query_of query.now) tiles.now) error) }
    {
        let patches = patches_of(alloc, tiles, query, places)?;
        let sweep = Sweep::new(alloc, &patches)?;
        Ok(Painter {
            patches,
            sweep,
            size: query.pixel.bytes(),
            w: query.w,
            h: query.h,
            next: 0,
        })
    }

    /// The next row as stored bytes. After `Failed` the same row is next.
    pub fn row<R: Rig>(&mut self, rig: &mut R, out: &mut [u8]) -> Result<(), Failed>
        requires left { HasRow self.old }
        requires width { length out.old ≡ row_len self.old }
        requires in_file { ForSome (seen_of (R.state rig.old) File.Image) (λ image. LiesIn (length image) self.old) }
        ensures row { OnOk result (ForSome (seen_of (R.state rig.old) File.Image) (λ image. IsNextRow self.old image out.new)) }
        ensures next { OnOk result (HasMoved self.old self.new) }
        ensures failed { OnErr result (self.new ≡ self.old) }
        ensures untouched { Untouched R.Rig rig.old rig.new }
        ensures cause { Faults (failed_at result image) (R.state rig.old) (R.state rig.new) }
    {
        paint_row(
            &self.patches,
            self.sweep.active(),
            self.size,
            self.w as u64,
            self.next as u64,
            rig,
            out,
        )?;
        self.next += 1;
        self.sweep.enter(&self.patches, self.next as u64);
        Ok(())
    }
}
