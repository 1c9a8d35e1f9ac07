//! When the chosen tiles of a region are painted.

ghost use Rattle.std.specs.Prelude.{◌≡◌, map};
ghost use Rattle.czi_doc.specs.View.{dim_of};
ghost use Rattle.czi_format.specs.Painting.{start_in_m};

use crate::belonging::first_named;
use czi_doc::Dim;

/// When a chosen tile is painted: by where it starts in M, without M first, and then by its place in the directory.
#[derive(Clone, Copy, PartialEq, Eq, PartialOrd, Ord)]
pub(crate) struct Turn {
    /// Where it starts in M.
    pub(crate) m: Option<i32>,
    /// Its place in the directory.
    pub(crate) place: u32,
}

/// Where a tile with these dimensions starts in M.
pub(crate) fn start_in_m(dims: &[Dim]) -> Option<i32>
    ensures { result ≡ start_in_m (map dim_of dims.now) }
{
    match first_named(dims, *b"M\0\0\0") {
        Some(dim) => Some(dim.start),
        None => None,
    }
}
