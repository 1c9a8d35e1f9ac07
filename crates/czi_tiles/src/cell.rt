//! Cells of a grid over an image: squares of logical pixels, on levels of growing size.

ghost use Rattle.std.specs.Prelude.{◌≡◌, ◌<◌, ◌^◌};

/// That a tile stands in a cell.
#[derive(Clone, Copy, PartialEq, Eq)]
pub struct Cell {
    /// The cell's number, level by level and row by row.
    pub(crate) number: u64,
    /// The tile's place in the directory.
    pub(crate) place: u32,
}

/// Cells from a first to a last one, of a row or a column of cells.
#[derive(Clone, Copy, PartialEq, Eq)]
pub(crate) struct Range {
    pub(crate) first: u64,
    pub(crate) last: u64,
    pub ghost near: { first < 2 ^ 21 },
    pub ghost small: { last < 2 ^ 21 },
}
