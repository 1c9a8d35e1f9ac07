//! The chosen tiles, by a look at each.

ghost use Rattle.std.specs.Prelude.{◌≡◌, ◌<◌, ◌^◌, length, map, IfOk};
ghost use Rattle.czi_format.specs.Painting.{chosen};
ghost use Rattle.czi_doc.specs.QueryView.{query_of};
ghost use Rattle.czi_tiles.specs.Chosen.{chosen_turns, tile_dims, turn_of};

use crate::among::push_chosen;
use crate::painted::in_painting_order;
use crate::turn::Turn;
use czi_doc::Query;
use czi_image::Tile;
use std::alloc::{AllocError, Global};

/// The turns of the chosen tiles, by their places.
fn all_turns(alloc: Global, tiles: &[Tile], query: &Query) -> Result<Vec<Turn>, AllocError>
    requires few { length tiles.now < 2 ^ 32 }
    ensures { IfOk result (λ turns. map turn_of turns.items ≡ chosen_turns (query_of query.now) 0 tiles.now) }
{
    let mut turns = Vec::new(alloc);
    for at in 0..tiles.len() {
        push_chosen(&mut turns, tiles, query, at)?;
    }
    Ok(turns)
}

/// The places of the chosen tiles, in painting order. It looks at each tile; for more than one region a grid serves better.
pub fn select(alloc: Global, tiles: &[Tile], query: &Query) -> Result<Vec<u32>, AllocError>
    requires few { length tiles.now < 2 ^ 32 }
    ensures { IfOk result (λ places. places.items ≡ map (λ t. t.0) (chosen tile_dims (query_of query.now) tiles.now)) }
{
    let turns = all_turns(alloc, tiles, query)?;
    let places = in_painting_order(alloc, turns)?;
    Ok(places)
}
