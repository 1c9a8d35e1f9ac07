//! The tiles of a directory by the cells of the image in which they stand.

ghost use Rattle.std.specs.Prelude.{◌≡◌, map, IfOk};
ghost use Rattle.std.specs.List.Sorted.{IsNonDecreasingBy};

use crate::among::turns_among;
use crate::axis::{keys_of, widest_axis};
use crate::cell::Cell;
use crate::cells::add_tile;
use crate::levels::TOP;
use crate::painted::in_painting_order;
use crate::places::push_keys;
use czi_doc::Query;
use czi_image::Tile;
use std::alloc::{AllocError, Global};

/// The tiles of a directory by the cells of the image in which they stand. A cell is a square of 4096 by 4096 logical pixels, or of
/// a side 32, 32^2, 32^3 or 32^4 times as long: a tile stands in the smallest cells of which it meets at most 64.
///
/// A search takes searches by halves for each row of cells that a region meets and some tile stands in, and a test of each tile
/// that stands in a cell which the region meets.
#[derive(Drop)]
pub struct TileGrid {
    /// The dimension in which tiles that start elsewhere stand on other sheets.
    axis: [u8; 4],
    cells: Vec<Cell>,
    pub ghost sorted: { IsNonDecreasingBy (λ c. c.number) cells.items },
}

impl TileGrid {
    ghost use Rattle.std.specs.Prelude.{◌<◌, ◌^◌, List, length};
    ghost use Rattle.czi_image.specs.declared.types.Tile.{Tile};
    ghost use Rattle.czi_format.specs.Painting.{chosen};
    ghost use Rattle.czi_doc.specs.QueryView.{query_of};
    ghost use Rattle.czi_tiles.specs.Chosen.{tile_dims};
    ghost use Rattle.czi_tiles.specs.Grid.{IsCandidates, IsGrid};

    /// The grid of the tiles of a directory.
    pub fn build(alloc: Global, tiles: &[Tile]) -> Result<TileGrid, AllocError>
        requires { length tiles.now < 2 ^ 32 }
        ensures { IfOk result (λ grid. IsGrid tiles.now grid) }
    {
        let axis = widest_axis(tiles);
        let mut cells = Vec::new(alloc);
        for (i, tile) in tiles.iter().enumerate() {
            add_tile(&mut cells, axis, tile.info.dims.list(), i as u32)?;
        }
        cells.sort_unstable_by_key(|cell| cell.number);
        Ok(TileGrid { axis, cells })
    }

    /// Places of the directory, in order, among which all chosen tiles are.
    fn candidates(&self, alloc: Global, query: &Query) -> Result<Vec<u32>, AllocError>
        ensures { IfOk result (λ places. (tiles : List Tile) → IsGrid tiles self.now → IsCandidates (query_of query.now) tiles places.items) }
    {
        let keys = keys_of(&query.plane, self.axis);
        let mut places = Vec::new(alloc);
        for level in 0..TOP + 1 {
            push_keys(&self.cells, level, keys, query, &mut places)?;
        }
        places.sort_unstable();
        Ok(places)
    }

    /// The places of the chosen tiles, in painting order.
    pub fn select(
        &self,
        alloc: Global,
        tiles: &[Tile],
        query: &Query,
    ) -> Result<Vec<u32>, AllocError>
        requires few { length tiles.now < 2 ^ 32 }
        requires built { IsGrid tiles.now self.now }
        ensures { IfOk result (λ places. places.items ≡ map (λ t. t.0) (chosen tile_dims (query_of query.now) tiles.now)) }
    {
        let candidates = self.candidates(alloc, query)?;
        let turns = turns_among(alloc, tiles, query, &candidates)?;
        let places = in_painting_order(alloc, turns)?;
        Ok(places)
    }
}
