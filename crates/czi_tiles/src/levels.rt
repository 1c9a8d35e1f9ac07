//! Levels of cells, and the cells of a row or a column of pixels.

ghost use Rattle.std.specs.Prelude.{◌≡◌, ◌≤◌, ◌<◌, ◌^◌, ◌*◌, ◌+ℤ◌, ◌≤ℤ◌, ◌<ℤ◌, ℕ, ℤ, pos, IfSome, IfNone};
ghost use Rattle.czi_format.specs.Painting.{point};
ghost use Rattle.czi_tiles.specs.Cells.{cell_of, key, number_of, sheet_of, side};

use crate::cell::Range;

/// The last level. No tile meets more than four of its cells, since no size is longer than their side.
pub(crate) const TOP: u64 = 4;

/// How many cells a row has, and how many rows there are, at most.
pub(crate) const CELLS_IN_A_ROW: u64 = 2_097_152;

/// How many logical pixels a cell of a level has, across and down.
fn side(level: u64) -> u64
    requires { level ≤ 4 }
    ensures value { result ≡ side level }
    ensures least { 4096 ≤ result }
{
    match level {
        0 => 4096,
        1 => 131_072,
        2 => 4_194_304,
        3 => 134_217_728,
        _ => 4_294_967_296,
    }
}

/// How many sheets a level has.
pub(crate) const SHEETS: u64 = 524_288;

/// A number for where a tile starts in a dimension, below that of the sheets.
pub(crate) fn key(start: Option<i32>) -> u64
    ensures value { result ≡ key start }
    ensures small { result < 2 ^ 19 }
{
    match start {
        Some(start) => 1 + shifted(start) % (SHEETS - 1),
        None => 0,
    }
}

/// The sheet of a level and a key.
pub(crate) fn sheet(level: u64, key: u64) -> u64
    requires level { level ≤ 4 }
    requires key { key < 2 ^ 19 }
    ensures value { result ≡ sheet_of level key }
    ensures small { result < 5 * 2 ^ 19 }
{
    level * SHEETS + key
}

/// The number of a cell, sheet by sheet and row by row.
pub(crate) fn number(sheet: u64, row: u64, column: u64) -> u64
    requires sheet { sheet < 5 * 2 ^ 19 }
    requires row { row ≤ 2 ^ 21 }
    requires column { column ≤ 2 ^ 21 }
    ensures { result ≡ number_of sheet row column }
{
    (sheet * CELLS_IN_A_ROW + row) * CELLS_IN_A_ROW + column
}

/// How far a point lies behind the least one.
fn shifted(p: i32) -> u64
    ensures value { pos result ≡ p +ℤ pos (2 ^ 31) }
    ensures small { result < 2 ^ 32 }
{
    (p as i64 + 2_147_483_648) as u64
}

/// The cells of a dimension with this start and size, where it covers a point.
pub(crate) fn cells_of(level: u64, start: i32, size: i32) -> Option<Range>
    requires { level ≤ 4 }
    ensures within { IfSome result (λ r. (p : ℤ) → start ≤ℤ p → p <ℤ (start +ℤ size) → (r.first ≤ cell_of level p) × (cell_of level p ≤ r.last)) }
    ensures empty { IfNone result (size ≤ℤ pos 0) }
    ensures rising { IfSome result (λ r. r.first ≤ r.last) }
{
    if size <= 0 {
        return None;
    }
    let from = shifted(start);
    let side = side(level);
    Some(Range {
        first: from / side,
        last: (from + size as u64 - 1) / side,
    })
}

/// The cells that the points of a row or a column of `n` pixels meet, of those that tiles can stand in.
pub(crate) fn cells_met(level: u64, origin: i32, layer: u32, n: u32) -> Range
    requires level { level ≤ 4 }
    requires layer { layer ≤ 2 ^ 16 }
    requires some { 1 ≤ n }
    ensures { (i : ℕ) → i < n → cell_of level (point origin layer i) < 2 ^ 21 → (result.first ≤ cell_of level (point origin layer i)) × (cell_of level (point origin layer i) ≤ result.last) }
{
    let from = shifted(origin);
    let to = from + (n as u64 - 1) * layer as u64;
    let side = side(level);
    Range {
        first: from / side,
        last: (to / side).min(CELLS_IN_A_ROW - 1),
    }
}
