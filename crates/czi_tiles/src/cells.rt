//! In which cells a tile stands.

ghost use Rattle.std.specs.Prelude.{◌≤◌, ◌<◌, ◌*◌, ◌^◌, map, OnOk};
ghost use Rattle.czi_doc.specs.View.{dim_of};
ghost use Rattle.czi_tiles.specs.Cells.{AddsCells, AddsRow, AddsTile};

use crate::axis::start_in;
use crate::belonging::first_named;
use crate::cell::{Cell, Range};
use crate::levels::{TOP, cells_of, key, number, sheet};
use czi_doc::Dim;
use std::alloc::AllocError;

/// Adds a tile to cells of a row.
fn add_row(
    cells: &mut Vec<Cell>,
    sheet: u64,
    row: u64,
    columns: Range,
    place: u32,
) -> Result<(), AllocError>
    requires sheet { sheet < 5 * 2 ^ 19 }
    requires row { row < 2 ^ 21 }
    ensures { OnOk result (AddsRow sheet row columns.first columns.last place cells.old.items cells.new.items) }
{
    for column in columns.first..columns.last + 1 {
        cells.push(Cell {
            number: number(sheet, row, column),
            place,
        })?;
    }
    Ok(())
}

/// Adds a tile to cells of a sheet.
fn add_cells(
    cells: &mut Vec<Cell>,
    sheet: u64,
    rows: Range,
    columns: Range,
    place: u32,
) -> Result<(), AllocError>
    requires { sheet < 5 * 2 ^ 19 }
    ensures { OnOk result (AddsCells sheet rows.first rows.last columns.first columns.last place cells.old.items cells.new.items) }
{
    for row in rows.first..rows.last + 1 {
        add_row(cells, sheet, row, columns, place)?;
    }
    Ok(())
}

/// In how many cells a tile stands at most, below the last level.
const MOST_CELLS: u64 = 64;

/// Whether a tile with these X and Y meets few cells of a level.
fn meets_few(level: u64, x: &Dim, y: &Dim) -> bool
    requires { level ≤ 4 }
{
    let Some(columns) = cells_of(level, x.start, x.size) else {
        return true;
    };
    let Some(rows) = cells_of(level, y.start, y.size) else {
        return true;
    };
    (columns.last - columns.first + 1) * (rows.last - rows.first + 1) <= MOST_CELLS
}

/// The first level on which a tile with these X and Y meets few cells.
fn level_of(x: &Dim, y: &Dim) -> u64
    ensures { result ≤ 4 }
{
    for level in 0..TOP {
        if meets_few(level, x, y) {
            return level;
        }
    }
    TOP
}

/// Adds a tile with these dimensions to the cells in which it stands.
pub(crate) fn add_tile(
    cells: &mut Vec<Cell>,
    axis: [u8; 4],
    dims: &[Dim],
    place: u32,
) -> Result<(), AllocError>
    ensures { OnOk result (AddsTile axis (map dim_of dims.now) place cells.old.items cells.new.items) }
{
    let Some(x) = first_named(dims, *b"X\0\0\0") else {
        return Ok(());
    };
    let Some(y) = first_named(dims, *b"Y\0\0\0") else {
        return Ok(());
    };
    let level = level_of(&x, &y);
    let Some(columns) = cells_of(level, x.start, x.size) else {
        return Ok(());
    };
    let Some(rows) = cells_of(level, y.start, y.size) else {
        return Ok(());
    };
    let sheet = sheet(level, key(start_in(dims, axis)));
    add_cells(cells, sheet, rows, columns, place)?;
    Ok(())
}
