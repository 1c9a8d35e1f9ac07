//! The chosen tiles among some places of the directory.

ghost use Rattle.std.specs.Prelude.{◌≡◌, ◌<◌, ◌^◌, length, map, IfOk, OnOk};
ghost use Rattle.std.specs.List.{All};
ghost use Rattle.std.specs.List.Sorted.{IsNonDecreasing};
ghost use Rattle.czi_doc.specs.QueryView.{query_of};
ghost use Rattle.czi_tiles.specs.Chosen.{chosen_turns, turn_of};
ghost use Rattle.czi_tiles.specs.Candidates.{AddsTurn, HasChosen};

use crate::covering::covered_by;
use crate::turn::{Turn, start_in_m};
use czi_doc::Query;
use czi_image::Tile;
use std::alloc::{AllocError, Global};

/// Adds the turn of a tile at a place, where it is chosen.
pub(crate) fn push_chosen(
    turns: &mut Vec<Turn>,
    tiles: &[Tile],
    query: &Query,
    at: usize,
) -> Result<(), AllocError>
    requires few { length tiles.now < 2 ^ 32 }
    requires inside { at < length tiles.now }
    ensures { OnOk result (AddsTurn (query_of query.now) tiles.now at (map turn_of turns.old.items) (map turn_of turns.new.items)) }
{
    let dims = tiles[at].info.dims.list();
    if covered_by(query, dims).is_some() {
        turns.push(Turn {
            m: start_in_m(dims),
            place: at as u32,
        })?;
    }
    Ok(())
}

/// The turns of the chosen tiles, by their places: of tiles that stand at these places, in order.
pub(crate) fn turns_among(
    alloc: Global,
    tiles: &[Tile],
    query: &Query,
    places: &[u32],
) -> Result<Vec<Turn>, AllocError>
    requires few { length tiles.now < 2 ^ 32 }
    requires there { All (λ k. k < length tiles.now) places.now }
    requires rising { IsNonDecreasing places.now }
    requires all { HasChosen (query_of query.now) tiles.now places.now }
    ensures { IfOk result (λ turns. map turn_of turns.items ≡ chosen_turns (query_of query.now) 0 tiles.now) }
{
    let mut turns = Vec::new(alloc);
    let mut next = 0;
    for place in places {
        let at = *place as usize;
        if next <= at {
            push_chosen(&mut turns, tiles, query, at)?;
            next = at + 1;
        }
    }
    Ok(turns)
}
