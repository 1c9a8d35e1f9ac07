//! What a chosen tile shows of a region, or why it can't be painted.

ghost use Rattle.std.specs.Prelude.{◌≡◌, true, MatchOption, MatchResult, None, nat_lt};
ghost use Rattle.std.specs.List.{list_any};
ghost use Rattle.std.specs.Ordering.{int_eq};
ghost use Rattle.czi_format.specs.Painting.{is_chosen, pixel_types};
ghost use Rattle.czi_doc.specs.QueryView.{query_of, type_of};
ghost use Rattle.czi_tiles.specs.Chosen.{tile_dims, tile_info};
ghost use Rattle.czi_tiles.specs.Covered.{IsCovering};
ghost use Rattle.czi_paint.specs.Patched.{IsPatch};
ghost use Rattle.czi_format.specs.PaintRefusals.{cause_of, needed};
ghost use Rattle.czi_paint.specs.Refusing.{Tells};

use crate::fault::PaintError;
use crate::patch::Patch;
use czi_doc::{Pixel, Query};
use czi_image::Tile;
use czi_tiles::{Covering, covered_by};

/// Whether a code is one of a pixel type that can be painted.
fn can_paint(code: i32) -> bool
    ensures { result ≡ list_any (λ t. int_eq t.code code) pixel_types }
{
    Pixel::of_code(code).is_some()
}

/// Whether a code is that of a pixel type.
fn has_code(pixel: &Pixel, code: i32) -> bool
    ensures { result ≡ int_eq code (type_of pixel.now).code }
{
    code == pixel.code()
}

/// Whether a tile has fewer bytes than its pixels need.
fn is_short(query: &Query, tile: &Tile, part: &Covering) -> bool
    requires { IsCovering (query_of query.now) (tile_dims tile.now) part.now }
    ensures { result ≡ nat_lt tile.now.pixels (needed (query_of query.now).pixel.size (tile_dims tile.now)) }
{
    let needed = part.width as u128 * part.height as u128 * query.pixel.bytes() as u128;
    (tile.pixels as u128) < needed
}

/// Why a chosen tile at a place in the directory can't be painted.
fn cause(query: &Query, tile: &Tile, part: &Covering, place: u64) -> Option<PaintError>
    requires { IsCovering (query_of query.now) (tile_dims tile.now) part.now }
    ensures { MatchOption result (cause_of (query_of query.now) place (tile_info tile.now) tile.now.pixels ≡ None)
        (λ error. Tells (cause_of (query_of query.now) place (tile_info tile.now) tile.now.pixels) error) }
{
    if tile.info.compression != 0 {
        return Some(PaintError::Compressed(place));
    }
    if !can_paint(tile.info.pixel) {
        return Some(PaintError::Kind(place));
    }
    if !has_code(&query.pixel, tile.info.pixel) {
        return Some(PaintError::Mixed(place));
    }
    if is_short(query, tile, part) {
        return Some(PaintError::ShortData(place));
    }
    None
}

/// What a chosen tile at a place in the directory shows of a region.
pub(crate) fn patch_of(query: &Query, tile: &Tile, place: u64) -> Result<Patch, PaintError>
    requires { is_chosen (query_of query.now) (tile_dims tile.now) ≡ true }
    ensures { MatchResult result
        (λ patch. (cause_of (query_of query.now) place (tile_info tile.now) tile.now.pixels ≡ None) × IsPatch (query_of query.now) tile.now patch)
        (λ error. Tells (cause_of (query_of query.now) place (tile_info tile.now) tile.now.pixels) error) }
{
    let Some(part) = covered_by(query, tile.info.dims.list()) else {
        unreachable!()
    };
    if let Some(error) = cause(query, tile, &part, place) {
        return Err(error);
    }
    Ok(Patch {
        columns: part.columns,
        rows: part.rows,
        place: tile.begin + tile.meta,
        width: part.width as u64,
    })
}
