//! Where a tile belongs: plane, scene and layer.

ghost use Rattle.std.specs.Prelude.{◌≡◌, ◌≤◌, ◌^◌, ◌*ℤ◌, ◌-ℤ◌, pos, map, option_map};
ghost use Rattle.std.specs.Int.RustNames.{unsigned_abs};
ghost use Rattle.czi_doc.specs.View.{dim_of};
ghost use Rattle.czi_format.specs.Painting.{first_named, has_start, in_layer, in_plane, in_scene, is_reduced, is_whole};
ghost use Rattle.czi_doc.specs.QueryView.{plane_of};

use czi_doc::{Dim, Plane};

/// The first dimension with a name.
pub(crate) fn first_named(dims: &[Dim], name: [u8; 4]) -> Option<Dim>
    ensures { option_map dim_of result ≡ first_named name (map dim_of dims.now) }
{
    for dim in dims {
        if dim.name == name {
            return Some(*dim);
        }
    }
    None
}

/// Whether there is a dimension with a name, and the first one starts there.
fn has_start(dims: &[Dim], name: [u8; 4], start: i32) -> bool
    ensures { result ≡ has_start (map dim_of dims.now) (record { name = name; start = start }) }
{
    match first_named(dims, name) {
        Some(dim) => dim.start == start,
        None => false,
    }
}

/// Whether a tile is in a plane.
pub(crate) fn in_plane(dims: &[Dim], plane: &Plane) -> bool
    ensures { result ≡ in_plane (plane_of plane.now) (map dim_of dims.now) }
{
    let items = plane.list();
    for item in items {
        if !has_start(dims, item.0, item.1) {
            return false;
        }
    }
    true
}

/// Whether a tile is in a scene, where one is asked for.
pub(crate) fn in_scene(dims: &[Dim], scene: Option<i32>) -> bool
    ensures { result ≡ in_scene scene (map dim_of dims.now) }
{
    match scene {
        Some(start) => has_start(dims, *b"S\0\0\0", start),
        None => true,
    }
}

/// Whether each stored pixel of a dimension is one logical pixel.
fn is_whole(dim: &Dim) -> bool
    ensures { result ≡ is_whole (dim_of dim.now) }
{
    dim.size == dim.stored_size()
}

/// Whether the size of a dimension is its stored size so many times over, by less than one stored pixel.
fn is_reduced(dim: &Dim, layer: u32) -> bool
    requires { layer ≤ 2 ^ 16 }
    ensures { result ≡ is_reduced layer (dim_of dim.now) }
{
    excess(dim.size, dim.stored_size(), layer).unsigned_abs() < layer as u64
}

/// How many logical pixels a stored size stands for.
fn enlarged(stored: i32, layer: u32) -> i64
    requires { layer ≤ 2 ^ 16 }
    ensures value { result ≡ stored *ℤ pos layer }
    ensures small { unsigned_abs result ≤ 2 ^ 47 }
{
    stored as i64 * layer as i64
}

/// By how many logical pixels a size is greater than that.
fn excess(size: i32, stored: i32, layer: u32) -> i64
    requires { layer ≤ 2 ^ 16 }
    ensures { result ≡ size -ℤ stored *ℤ pos layer }
{
    size as i64 - enlarged(stored, layer)
}

/// Whether a tile with these X and Y belongs to a layer.
pub(crate) fn in_layer(x: &Dim, y: &Dim, layer: u32) -> bool
    requires { layer ≤ 2 ^ 16 }
    ensures { result ≡ in_layer layer (dim_of x.now) (dim_of y.now) }
{
    let whole = is_whole(x) && is_whole(y);
    if layer == 1 || whole {
        return layer == 1 && whole;
    }
    is_reduced(x, layer) && is_reduced(y, layer)
}
