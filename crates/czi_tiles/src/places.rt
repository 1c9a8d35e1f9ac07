//! The places of the tiles that stand in the cells of a region.

ghost use Rattle.std.specs.Prelude.{◌≤◌, ◌<◌, ◌+◌, ◌*◌, ◌^◌, ℕ, OnOk};
ghost use Rattle.std.specs.List.{Contains};
ghost use Rattle.std.specs.List.Sorted.{IsNonDecreasingBy};
ghost use Rattle.czi_doc.specs.QueryView.{query_of};
ghost use Rattle.czi_tiles.specs.declared.cell.Cell.{Cell as Stands};
ghost use Rattle.czi_tiles.specs.Cells.{number_of, AddsAll, AddsKeys, AddsMet, AddsPlaces};

use crate::cell::{Cell, Range};
use crate::levels::{CELLS_IN_A_ROW, SHEETS, TOP, cells_met, number, sheet};
use czi_doc::Query;
use std::alloc::AllocError;

/// How many cells a sheet has.
const CELLS_IN_A_SHEET: u64 = CELLS_IN_A_ROW * CELLS_IN_A_ROW;

/// Adds the places of the tiles that stand in cells from a first to a last number.
fn push_places(
    cells: &[Cell],
    first: u64,
    last: u64,
    places: &mut Vec<u32>,
) -> Result<(), AllocError>
    requires { IsNonDecreasingBy (λ c. c.number) cells.now }
    ensures { OnOk result (AddsPlaces cells.now first last places.old.items places.new.items) }
{
    let from = cells.partition_point(|cell| cell.number < first);
    let to = cells.partition_point(|cell| cell.number <= last);
    for i in from..to {
        places.push(cells[i].place)?;
    }
    Ok(())
}

/// The first row of cells of a sheet behind this one in which a tile stands, or one that isn't before it.
fn next_row(cells: &[Cell], sheet: u64, row: u64) -> u64
    requires sorted { IsNonDecreasingBy (λ c. c.number) cells.now }
    requires sheet { sheet < 5 * 2 ^ 19 }
    requires row { row < 2 ^ 21 }
    ensures behind { row < result }
    ensures none { (r : ℕ) (c : Stands) → row < r → Contains cells.now c → number_of sheet r 0 ≤ c.number → c.number < number_of sheet (r + 1) 0 → result ≤ r }
{
    let behind = number(sheet, row + 1, 0);
    let at = cells.partition_point(|cell| cell.number < behind);
    if at == cells.len() {
        return CELLS_IN_A_ROW;
    }
    cells[at].number / CELLS_IN_A_ROW - sheet * CELLS_IN_A_ROW
}

/// Adds the places of the tiles that stand in cells of a sheet.
fn push_all(
    cells: &[Cell],
    sheet: u64,
    rows: Range,
    columns: Range,
    places: &mut Vec<u32>,
) -> Result<(), AllocError>
    requires sorted { IsNonDecreasingBy (λ c. c.number) cells.now }
    requires sheet { sheet < 5 * 2 ^ 19 }
    ensures { OnOk result (AddsAll cells.now sheet rows.first rows.last columns.first columns.last places.old.items places.new.items) }
{
    let mut row = rows.first;
    while row <= rows.last {
        let first = number(sheet, row, columns.first);
        let last = number(sheet, row, columns.last);
        push_places(cells, first, last, places)?;
        row = next_row(cells, sheet, row);
    }
    Ok(())
}

/// Adds the places of the tiles that stand in the cells of a sheet that a region meets.
fn push_met(
    cells: &[Cell],
    level: u64,
    sheet: u64,
    query: &Query,
    places: &mut Vec<u32>,
) -> Result<(), AllocError>
    requires sorted { IsNonDecreasingBy (λ c. c.number) cells.now }
    requires level { level ≤ 4 }
    requires sheet { sheet < 5 * 2 ^ 19 }
    ensures { OnOk result (AddsMet (query_of query.now) cells.now level sheet places.old.items places.new.items) }
{
    let columns = cells_met(level, query.x, query.layer, query.w);
    let rows = cells_met(level, query.y, query.layer, query.h);
    push_all(cells, sheet, rows, columns, places)?;
    Ok(())
}

/// The first sheet behind this one in which a tile stands, or one that isn't before it.
fn next_sheet(cells: &[Cell], sheet: u64) -> u64
    requires sorted { IsNonDecreasingBy (λ c. c.number) cells.now }
    requires sheet { sheet < 5 * 2 ^ 19 }
    ensures behind { sheet < result }
    ensures none { (s : ℕ) (c : Stands) → sheet < s → Contains cells.now c → number_of s 0 0 ≤ c.number → c.number < number_of (s + 1) 0 0 → result ≤ s }
{
    let behind = (sheet + 1) * CELLS_IN_A_SHEET;
    let at = cells.partition_point(|cell| cell.number < behind);
    if at == cells.len() {
        return (TOP + 1) * SHEETS;
    }
    cells[at].number / CELLS_IN_A_SHEET
}

/// Adds the places of the tiles that stand in the cells of a level that a region meets, with keys from a first to a last one.
pub(crate) fn push_keys(
    cells: &[Cell],
    level: u64,
    keys: Range,
    query: &Query,
    places: &mut Vec<u32>,
) -> Result<(), AllocError>
    requires sorted { IsNonDecreasingBy (λ c. c.number) cells.now }
    requires level { level ≤ 4 }
    requires keys { (keys.first < 2 ^ 19) × (keys.last < 2 ^ 19) }
    ensures { OnOk result (AddsKeys (query_of query.now) cells.now level keys.first keys.last places.old.items places.new.items) }
{
    let last = sheet(level, keys.last);
    let mut at = sheet(level, keys.first);
    while at <= last {
        push_met(cells, level, at, query, places)?;
        at = next_sheet(cells, at);
    }
    Ok(())
}
