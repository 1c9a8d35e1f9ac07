//! What a tile covers of a region.

ghost use Rattle.std.specs.Prelude.{◌≡◌, ◌≤◌, ℕ, List, ◌<◌, map, is_some, IfSome};
ghost use Rattle.czi_doc.specs.View.{dim_of};
ghost use Rattle.czi_format.specs.Painting.{is_chosen};
ghost use Rattle.czi_doc.specs.QueryView.{query_of};
ghost use Rattle.czi_tiles.specs.Covered.{IsCovering, IsWindow};

use crate::belonging::{first_named, in_layer, in_plane, in_scene};
use crate::window::Window;
use czi_doc::{Dim, Query};

/// The part of a region that a tile covers.
#[derive(Clone, Copy, PartialEq, Eq)]
pub struct Covering {
    /// The columns.
    pub columns: Window,
    /// The rows.
    pub rows: Window,
    /// How many pixels a stored row of the tile has.
    pub width: u32,
    /// How many stored rows it has.
    pub height: u32,
}

/// What a tile with these dimensions covers of a region, where it is chosen.
pub fn covered_by(query: &Query, dims: &[Dim]) -> Option<Covering>
    ensures chosen { is_some result ≡ is_chosen (query_of query.now) (map dim_of dims.now) }
    ensures covers { IfSome result (IsCovering (query_of query.now) (map dim_of dims.now)) }
{
    if !in_plane(dims, &query.plane) || !in_scene(dims, query.scene) {
        return None;
    }
    let x = first_named(dims, *b"X\0\0\0")?;
    let y = first_named(dims, *b"Y\0\0\0")?;
    if !in_layer(&x, &y, query.layer) {
        return None;
    }
    let columns = window(&x, query.x, query.layer, query.w);
    let rows = window(&y, query.y, query.layer, query.h);
    if columns.count == 0 || rows.count == 0 {
        return None;
    }
    Some(Covering {
        columns,
        rows,
        width: x.stored_size().unsigned_abs(),
        height: y.stored_size().unsigned_abs(),
    })
}

/// The window of a dimension over `n` pixels from a point on.
fn window(dim: &Dim, origin: i32, layer: u32, n: u32) -> Window
    requires { 1 ≤ layer }
    ensures { IsWindow layer (dim_of dim.now) origin n result }
{
    Window::of(dim.start, dim.size, dim.stored_size(), origin, layer, n)
}
