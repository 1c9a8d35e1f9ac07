//! The subblock with a key. Two lists of dimensions have one key where each name and start stands as often in the one as
//! in the other, and the sizes of the first X and of the first Y are the same.

ghost use Rattle.std.specs.Prelude.{◌≡◌, ◌≢◌, ◌<◌, ◌≤◌, ℕ, map, count_by, find, length, IsTrue, MatchOption, bytes_eq, slice_index};
ghost use Rattle.std.specs.List.{AllByRecursion};
ghost use Rattle.czi_doc.specs.View.{dim_of, dims_of};
ghost use Rattle.czi_doc.specs.declared.dimensions.Dim.{Dim};
ghost use Rattle.czi_format.specs.Key.{axis, axis_le, key, sizes};
ghost use Rattle.czi_format.specs.Span.{sorted};
ghost use Rattle.czi_image.specs.View.{tile_of};
ghost use Rattle.czi_machine.specs.Edit.{same_key, same_sizes};
ghost use Rattle.czi_plan.specs.Search.{has_axis, tile_with};

use czi_doc::{Dim, Dims};
use czi_image::{Index, Tile};

/// Whether two dimensions have one name and start.
fn has_axis(dim: &Dim, other: &Dim) -> bool
    ensures { result ≡ has_axis dim.now other.now }
{
    dim.name == other.name && dim.start == other.start
}

/// How many of the dimensions have the name and start of one.
fn times(dims: &[Dim], dim: &Dim) -> usize
    ensures count { result ≡ count_by (has_axis dim.now) dims.now }
    ensures bound { result ≤ length dims.now }
{
    let mut count = 0;
    for other in dims {
        if has_axis(dim, other) {
            count += 1;
        }
    }
    count
}

/// Whether each of some dimensions stands as often in one list as in another.
fn stand_alike(some: &[Dim], own: &[Dim], wanted: &[Dim]) -> bool
    ensures there { IsTrue result → AllByRecursion (λ d. count_by (has_axis d) own.now ≡ count_by (has_axis d) wanted.now) some.now }
    ensures back { ((d : Dim) → count_by (has_axis d) own.now ≡ count_by (has_axis d) wanted.now) → IsTrue result }
{
    for dim in some {
        let here = times(own, dim);
        let there = times(wanted, dim);
        if here != there {
            return false;
        }
    }
    true
}

/// The size and the stored size of the first dimension with a name, 0 and 0 where there is none.
fn sizes_of(dims: &[Dim], name: &[u8; 4]) -> (i32, i32)
    ensures { record { size = result.0; stored = result.1 } ≡ sizes (find (λ d. bytes_eq d.name name.now) (map dim_of dims.now)) }
{
    for dim in dims {
        if dim.name == *name {
            return (dim.size, dim.stored_size());
        }
    }
    (0, 0)
}

/// Whether the sorted names and starts of two lists of dimensions are the same.
fn have_axes(own: &[Dim], wanted: &[Dim]) -> bool
    ensures there { IsTrue result → sorted axis_le (map axis (map dim_of own.now)) ≡ sorted axis_le (map axis (map dim_of wanted.now)) }
    ensures back { sorted axis_le (map axis (map dim_of own.now)) ≡ sorted axis_le (map axis (map dim_of wanted.now)) → IsTrue result }
{
    stand_alike(own, own, wanted) && stand_alike(wanted, own, wanted)
}

/// Whether the first dimensions with a name have the same sizes.
fn have_sizes(own: &[Dim], wanted: &[Dim], name: &[u8; 4]) -> bool
    ensures { result ≡ same_sizes (sizes (find (λ d. bytes_eq d.name name.now) (map dim_of own.now))) (sizes (find (λ d. bytes_eq d.name name.now) (map dim_of wanted.now))) }
{
    let (size, stored) = sizes_of(own, name);
    let (wanted_size, wanted_stored) = sizes_of(wanted, name);
    size == wanted_size && stored == wanted_stored
}

/// Whether two lists of dimensions make one key.
fn have_one_key(own: &[Dim], wanted: &[Dim]) -> bool
    ensures { result ≡ same_key (key (map dim_of own.now)) (key (map dim_of wanted.now)) }
{
    have_sizes(own, wanted, b"X\0\0\0")
        && have_sizes(own, wanted, b"Y\0\0\0")
        && have_axes(own, wanted)
}

/// Whether a subblock has the key of these dimensions.
fn has_key(tile: &Tile, dims: &Dims) -> bool
    ensures { result ≡ same_key (key (tile_of tile.now).entry.info.dims) (key (dims_of dims.now)) }
{
    have_one_key(tile.info.dims.list(), dims.list())
}

/// The first place from one on where a number stands.
fn place_from(numbers: &[u32], number: u32, from: usize) -> Option<usize>
    requires { from ≤ length numbers.now }
    ensures { MatchOption result
        ((k : ℕ) → from ≤ k → k < length numbers.now → slice_index numbers.now k ≢ number)
        (λ i. (from ≤ i) × (i < length numbers.now) × ((k : ℕ) → from ≤ k → k < i → slice_index numbers.now k ≢ number)) }
{
    for i in from..numbers.len() {
        if numbers[i] == number {
            return Some(i);
        }
    }
    None
}

/// The place of the first subblock that has the key of these dimensions.
///
/// It looks through the numbers of the keys, and compares dimensions only where the number is the same.
pub fn tile_with(index: &Index, dims: &Dims) -> Option<usize>
    ensures { result ≡ tile_with (dims_of dims.now) (map tile_of index.now.tiles.items) }
{
    let number = dims.key_number();
    let numbers = index.key_numbers();
    let mut from = 0;
    while let Some(i) = place_from(numbers, number, from) {
        if has_key(&index.tiles[i], dims) {
            return Some(i);
        }
        from = i + 1;
    }
    None
}
