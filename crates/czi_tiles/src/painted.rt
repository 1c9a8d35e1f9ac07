//! The chosen tiles in painting order.

ghost use Rattle.std.specs.Prelude.{◌≡◌, List, map, IfOk};
ghost use Rattle.czi_image.specs.declared.types.Tile.{Tile};
ghost use Rattle.czi_format.specs.Painting.{Query, chosen};
ghost use Rattle.czi_tiles.specs.Chosen.{chosen_turns, tile_dims, turn_of};

use crate::turn::Turn;
use std::alloc::{AllocError, Global};

/// The places of turns.
fn places_of(alloc: Global, turns: &[Turn]) -> Result<Vec<u32>, AllocError>
    ensures { IfOk result (λ places. places.items ≡ map (λ t. t.place) turns.now) }
{
    let mut places = Vec::with_capacity(alloc, turns.len())?;
    for turn in turns {
        places.push(turn.place)?;
    }
    Ok(places)
}

/// The places of the chosen tiles, whose turns these are, in painting order.
pub(crate) fn in_painting_order(alloc: Global, mut turns: Vec<Turn>) -> Result<Vec<u32>, AllocError>
    ensures { IfOk result (λ places. (q : Query) (tiles : List Tile) → map turn_of turns.items ≡ chosen_turns q 0 tiles
        → places.items ≡ map (λ t. t.0) (chosen tile_dims q tiles)) }
{
    turns.sort_unstable();
    let places = places_of(alloc, &turns)?;
    Ok(places)
}
