//! The dimension beside X and Y by which a grid parts its tiles.

ghost use Rattle.std.specs.Prelude.{◌≡◌, ◌≤◌, ◌<◌, ◌^◌, List, Some, map, true, IfSome};
ghost use Rattle.czi_format.specs.Entry.{Dim as Dimension};
ghost use Rattle.czi_doc.specs.View.{dim_of};
ghost use Rattle.czi_doc.specs.QueryView.{plane_of};
ghost use Rattle.czi_format.specs.Painting.{in_plane};
ghost use Rattle.czi_tiles.specs.Cells.{key, start_in};

use crate::belonging::first_named;
use crate::cell::Range;
use crate::levels::{SHEETS, key};
use czi_doc::{Dim, Plane};
use czi_image::Tile;

/// Where a tile with these dimensions starts in one of a name.
pub(crate) fn start_in(dims: &[Dim], name: [u8; 4]) -> Option<i32>
    ensures { result ≡ start_in name (map dim_of dims.now) }
{
    match first_named(dims, name) {
        Some(dim) => Some(dim.start),
        None => None,
    }
}

/// Where the tiles of a plane start in a dimension, if it says so.
fn start_of_plane(plane: &Plane, axis: [u8; 4]) -> Option<i32>
    ensures { IfSome result (λ start. (dims : List Dimension) → in_plane (plane_of plane.now) dims ≡ true → start_in axis dims ≡ Some start) }
{
    let items = plane.list();
    for item in items {
        if item.0 == axis {
            return Some(item.1);
        }
    }
    None
}

/// The keys of the tiles of a plane, from a first to a last one.
pub(crate) fn keys_of(plane: &Plane, axis: [u8; 4]) -> Range
    ensures asked { (dims : List Dimension) → in_plane (plane_of plane.now) dims ≡ true → (result.first ≤ key (start_in axis dims)) × (key (start_in axis dims) ≤ result.last) }
    ensures small { (result.first < 2 ^ 19) × (result.last < 2 ^ 19) }
{
    match start_of_plane(plane, axis) {
        Some(start) => {
            let one = key(Some(start));
            Range {
                first: one,
                last: one,
            }
        }
        None => Range {
            first: 0,
            last: SHEETS - 1,
        },
    }
}

/// The dimensions that planes don't name.
const APART: [[u8; 4]; 4] = [*b"X\0\0\0", *b"Y\0\0\0", *b"M\0\0\0", *b"S\0\0\0"];

/// How far apart tiles start in a dimension.
fn spread(tiles: &[Tile], name: [u8; 4]) -> u64 {
    let mut least = i32::MAX;
    let mut most = i32::MIN;
    for tile in tiles {
        if let Some(start) = start_in(tile.info.dims.list(), name) {
            least = least.min(start);
            most = most.max(start);
        }
    }
    (most as i64 - least as i64).max(0) as u64
}

/// A dimension of the first tile, of those that planes name, in which tiles start farthest apart: T, Z or C for most images. Whichever it
/// is, a grid finds the same tiles.
pub(crate) fn widest_axis(tiles: &[Tile]) -> [u8; 4] {
    let mut widest = *b"T\0\0\0";
    let mut most = 0;
    if let Some(first) = tiles.first() {
        for dim in first.info.dims.list() {
            let found = spread(tiles, dim.name);
            if found > most && !APART.contains(&dim.name) {
                widest = dim.name;
                most = found;
            }
        }
    }
    widest
}
