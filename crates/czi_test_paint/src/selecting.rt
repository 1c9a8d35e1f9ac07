//! `czi_tiles`: which tiles are selected, through a grid and without one.

use crate::asked::{Asked, MOSAIC, opened, query};
use czi_doc::Pixel;
use czi_sample::Segment;
use czi_tiles::{TileGrid, select};
use std::alloc::Global;
use std::process::Abort;
use std::test::Fail;

// Tiles that are reduced 65536 times, of which one lies far from the other and from the first rows.
const REDUCED: [Segment; 4] = [
    Segment::Directory(216),
    Segment::Tile(b"X-2147483648:4194304:64,Y2143289344:4194304:64", b""),
    Segment::Tile(b"X0:4194304:64,Y0:4194304:64", b""),
    Segment::Tile(b"X0:64,Y0:64", b""),
];

// Tiles of one place in planes that are far apart in Z, one of which has no Z, and one of a scene far away.
const STACK: [Segment; 6] = [
    Segment::Directory(560),
    Segment::Tile(b"Z-7,C0,X0:2,Y0:1", b"AB"),
    Segment::Tile(b"C1,Z900,X0:2,Y0:1", b"CD"),
    Segment::Tile(b"C0,X0:2,Y0:1", b"EF"),
    Segment::Tile(b"Z900,C0,S5000,X0:2,Y0:1", b"GH"),
    Segment::Tile(b"Z900,C0,X0:70000,Y0:70000", b""),
];

// Tiles at the edges of the plane, and some that meet more than 64 of the smallest cells.
const EDGES: [Segment; 6] = [
    Segment::Directory(512),
    Segment::Tile(b"X0:2,Y0:1,M5", b"AB"),
    Segment::Tile(b"X1:2,Y0:1,M3", b"CD"),
    Segment::Tile(b"X-100:1000000,Y0:1000000", b""),
    Segment::Tile(b"X2147483647:2147483647,Y0:1,M9", b""),
    Segment::Tile(b"X3:1,Y-2147483648:2147483647", b""),
];

// An image, what is asked for, and the places of the tiles that are chosen.
type Row = (&'static [Segment<'static>], Asked, &'static [u32]);

static ROWS: [Row; 12] = [
    (
        &MOSAIC,
        (Pixel::Gray8, 1, (0, 0), (4, 1), None, b""),
        &[1, 0],
    ),
    (
        &EDGES,
        (Pixel::Gray8, 1, (0, 0), (4, 1), None, b""),
        &[2, 1, 0],
    ),
    (
        &EDGES,
        (Pixel::Gray8, 1, (2_147_483_647, 0), (4, 1), None, b""),
        &[3],
    ),
    (
        &EDGES,
        (Pixel::Gray8, 1, (-200, 0), (4_000_000_000, 1), None, b""),
        &[2, 1, 0, 3],
    ),
    (
        &REDUCED,
        (
            Pixel::Gray8,
            65_536,
            (-2_147_483_648, -2_147_483_648),
            (65_536, 65_536),
            None,
            b"",
        ),
        &[0, 1],
    ),
    (
        &REDUCED,
        (
            Pixel::Gray8,
            65_536,
            (4_194_303, 4_194_303),
            (1, 1),
            None,
            b"",
        ),
        &[1],
    ),
    (
        &REDUCED,
        (Pixel::Gray8, 1, (-1, -1), (2, 2), None, b""),
        &[2],
    ),
    (
        &STACK,
        (Pixel::Gray8, 1, (0, 0), (1, 1), None, b""),
        &[0, 1, 2, 3, 4],
    ),
    (
        &STACK,
        (Pixel::Gray8, 1, (0, 0), (1, 1), None, b"C0"),
        &[0, 2, 3, 4],
    ),
    (
        &STACK,
        (Pixel::Gray8, 1, (0, 0), (1, 1), None, b"C0,Z900"),
        &[3, 4],
    ),
    (
        &STACK,
        (Pixel::Gray8, 1, (0, 0), (1, 1), Some(5000), b"Z900"),
        &[3],
    ),
    (&STACK, (Pixel::Gray8, 1, (0, 0), (1, 1), None, b"Z8"), &[]),
];

fn check_row(rt: &impl Abort, alloc: Global, (segments, asked, chosen): &Row) -> Result<(), Fail> {
    let query = query(alloc, asked)?;
    let (_rig, index) = opened(alloc, segments)?;
    let grid = TileGrid::build(alloc, &index.tiles)?;
    let places = grid.select(alloc, &index.tiles, &query)?;
    assert!(rt; places.as_slice() == *chosen);
    assert!(rt; select(alloc, &index.tiles, &query)?.as_slice() == *chosen);
    Ok(())
}

#[test]
fn tiles_are_selected_in_painting_order(rt: HostRuntime) -> Result<(), Fail> {
    for row in ROWS.iter() {
        check_row(&rt, rt.alloc(), row)?;
    }
    Ok(())
}
