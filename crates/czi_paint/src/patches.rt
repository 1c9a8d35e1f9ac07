//! What the chosen tiles show of a region.

ghost use Rattle.std.specs.Prelude.{◌≡◌, ◌⊎◌, map, MatchResult, None};
ghost use Rattle.czi_format.specs.Painting.{chosen};
ghost use Rattle.czi_doc.specs.QueryView.{query_of};
ghost use Rattle.czi_tiles.specs.Chosen.{tile_dims};
ghost use Rattle.czi_paint.specs.Patched.{ArePatches};
ghost use Rattle.czi_paint.specs.Refusing.{Tells, chosen_cause};
ghost use Rattle.czi_paint.specs.declared.fault.PaintError.{PaintError};

use crate::fault::PaintError;
use crate::patch::Patch;
use crate::patching::patch_of;
use czi_doc::Query;
use czi_image::Tile;
use std::alloc::Global;

/// What the chosen tiles show of a region, which stand at these places, in painting order; or the first cause not to paint one
/// of them.
pub(crate) fn patches_of(
    alloc: Global,
    tiles: &[Tile],
    query: &Query,
    places: &[u32],
) -> Result<Vec<Patch>, PaintError>
    requires { places.now ≡ map (λ t. t.0) (chosen tile_dims (query_of query.now) tiles.now) }
    ensures { MatchResult result
        (λ patches. (chosen_cause (query_of query.now) tiles.now ≡ None) × ArePatches (query_of query.now) (chosen tile_dims (query_of query.now) tiles.now) patches.items)
        (λ error. (error ≡ PaintError.Memory) ⊎ Tells (chosen_cause (query_of query.now) tiles.now) error) }
{
    let mut patches = Vec::with_capacity(alloc, places.len())?;
    for place in places {
        let tile = &tiles[*place as usize];
        let patch = patch_of(query, tile, *place as u64)?;
        patches.push(patch)?;
    }
    Ok(patches)
}
