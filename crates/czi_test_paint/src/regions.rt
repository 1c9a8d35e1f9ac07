//! `czi_paint` and `czi_report`: regions as PNM files.

ghost use Rattle.std.specs.Prelude.{◌≡◌, length};
ghost use Rattle.std.specs.Option.{ForSome};
ghost use Rattle.czi_rig.specs.declared.file.File.TheVariants.{Image};
ghost use Rattle.czi_rig.specs.State.{seen_of};
ghost use Rattle.czi_rig.specs.MemRig.{state_in};
ghost use Rattle.czi_doc.specs.QueryView.{query_of};
ghost use Rattle.czi_paint.specs.Painted.{Paints};

use crate::asked::{Asked, MOSAIC, STAIRS, opened, query};
use crate::rows::push_rows;
use czi_doc::{Pixel, Query};
use czi_image::Index;
use czi_paint::Painter;
use czi_report::pnm_head;
use czi_rig::MemRig;
use czi_sample::{Segment, Subblock};
use czi_tiles::TileGrid;
use std::alloc::Global;
use std::process::Abort;
use std::test::Fail;

// A subblock of one pixel.
const PIXEL: Subblock = Subblock {
    pixel: 0,
    compression: 0,
    dims: b"X0:1,Y0:1",
    meta: b"",
    pixels: b"",
    tail: b"",
};

// An image, what is asked for, and the PNM file.
type Row = (&'static [Segment<'static>], Asked, &'static [u8]);

static ROWS: [Row; 11] = [
    (
        &MOSAIC,
        (Pixel::Gray8, 1, (0, 0), (4, 1), None, b""),
        b"P5\n4 1\n255\n\x41\x42\x44\x00",
    ),
    (
        &MOSAIC,
        (Pixel::Gray8, 1, (-8, 0), (2, 1), None, b""),
        b"P5\n2 1\n255\n\x00\x00",
    ),
    (
        &[
            Segment::Directory(92),
            Segment::Tile(b"X0:5:3,Y0:1", b"abc"),
        ],
        (Pixel::Gray8, 2, (0, 0), (4, 1), None, b""),
        b"P5\n4 1\n255\n\x61\x62\x63\x00",
    ),
    (
        &[
            Segment::Directory(92),
            Segment::Tile(b"X0:5:3,Y0:1", b"abc"),
        ],
        (Pixel::Gray8, 1, (0, 0), (4, 1), None, b""),
        b"P5\n4 1\n255\n\x00\x00\x00\x00",
    ),
    (
        &[
            Segment::Directory(92),
            Segment::Tile(b"X0:5:3,Y0:1", b"abc"),
        ],
        (Pixel::Gray8, 2, (-3, 0), (4, 2), None, b""),
        b"P5\n4 2\n255\n\x00\x00\x61\x62\x00\x00\x00\x00",
    ),
    (
        &[
            Segment::Directory(92),
            Segment::Subblock(Subblock {
                pixel: 3,
                pixels: b"\x01\x02\x03",
                ..PIXEL
            }),
        ],
        (Pixel::Bgr24, 1, (0, 0), (1, 1), None, b""),
        b"P6\n1 1\n255\n\x03\x02\x01",
    ),
    (
        &[
            Segment::Directory(92),
            Segment::Subblock(Subblock {
                pixel: 1,
                pixels: b"\x34\x12",
                ..PIXEL
            }),
        ],
        (Pixel::Gray16, 1, (0, 0), (1, 1), None, b""),
        b"P5\n1 1\n65535\n\x12\x34",
    ),
    (
        &[
            Segment::Directory(92),
            Segment::Subblock(Subblock {
                pixel: 4,
                pixels: b"\x01\x02\x03\x04\x05\x06",
                ..PIXEL
            }),
        ],
        (Pixel::Bgr48, 1, (0, 0), (2, 1), None, b""),
        b"P6\n2 1\n65535\n\x06\x05\x04\x03\x02\x01\x00\x00\x00\x00\x00\x00",
    ),
    (
        &[
            Segment::Directory(224),
            Segment::Tile(b"C0,S1,X0:2,Y0:1", b"AB"),
            Segment::Tile(b"C1,S1,X0:2,Y0:1", b"CD"),
        ],
        (Pixel::Gray8, 1, (0, 0), (3, 1), Some(1), b"C0"),
        b"P5\n3 1\n255\n\x41\x42\x00",
    ),
    (
        &[
            Segment::Directory(224),
            Segment::Tile(b"C0,S1,X0:2,Y0:1", b"AB"),
            Segment::Tile(b"C1,S1,X0:2,Y0:1", b"CD"),
        ],
        (Pixel::Gray8, 1, (0, 0), (3, 1), Some(2), b"C1"),
        b"P5\n3 1\n255\n\x00\x00\x00",
    ),
    (
        &STAIRS,
        (Pixel::Gray8, 1, (0, 0), (5, 7), None, b""),
        b"P5\n5 7\n255\nab\0\0\0cdAB\0efCDSghEF\0y\0\0\0\0z\0\0\0\0\0\0\0\0\0",
    ),
];

// The PNM file of a region of an image that a rig has.
fn file(
    alloc: Global,
    rig: &mut MemRig,
    index: &Index,
    query: &Query,
    painter: &mut Painter,
) -> Result<Vec<u8>, Fail>
    requires paints { Paints (query_of query.now) index.now.tiles.items 0 painter.old }
    requires in_file { ForSome (seen_of (state_in rig.old) Image) (λ image. index.now.length ≡ length image) }
{
    let mut out = Vec::new(alloc);
    pnm_head(query, &mut out)?;
    push_rows(alloc, index, query, painter, rig, &mut out)?;
    Ok(out)
}

// The same by a look at each tile, and how many calls it takes.
fn plain_file(alloc: Global, segments: &[Segment], query: &Query) -> Result<(Vec<u8>, u64), Fail> {
    let (mut rig, index) = opened(alloc, segments)?;
    let before = rig.calls();
    let mut painter = Painter::new(alloc, &index.tiles, query).map_err(|_| Fail::new(
        "not painted",
    ))?;
    let file = file(alloc, &mut rig, &index, query, &mut painter)?;
    Ok((file, rig.calls().saturating_sub(before)))
}

// The same through a grid.
fn grid_file(alloc: Global, segments: &[Segment], query: &Query) -> Result<Vec<u8>, Fail> {
    let (mut rig, index) = opened(alloc, segments)?;
    let grid = TileGrid::build(alloc, &index.tiles)?;
    let mut painter = Painter::with_grid(alloc, &index.tiles, &grid, query).map_err(|_| Fail::new(
        "not painted",
    ))?;
    file(alloc, &mut rig, &index, query, &mut painter)
}

fn check_row(rt: &impl Abort, alloc: Global, (segments, asked, told): &Row) -> Result<(), Fail> {
    let query = query(alloc, asked)?;
    let (plain, _) = plain_file(alloc, segments, &query)?;
    assert!(rt; plain.as_slice() == *told);
    assert!(rt; grid_file(alloc, segments, &query)?.as_slice() == *told);
    Ok(())
}

#[test]
fn regions_are_told_as_pnm_files(rt: HostRuntime) -> Result<(), Fail> {
    for row in ROWS.iter() {
        check_row(&rt, rt.alloc(), row)?;
    }
    Ok(())
}

// An image, what is asked for, and how many reads it takes.
type Reads = (&'static [Segment<'static>], Asked, u64);

static READS: [Reads; 4] = [
    (&MOSAIC, (Pixel::Gray8, 1, (0, 0), (4, 1), None, b""), 2),
    (&STAIRS, (Pixel::Gray8, 1, (0, 0), (5, 7), None, b""), 11),
    (&STAIRS, (Pixel::Gray8, 1, (2, 2), (1, 2), None, b""), 3),
    (&STAIRS, (Pixel::Gray8, 1, (0, 6), (5, 9), None, b""), 0),
];

fn check_reads(
    rt: &impl Abort,
    alloc: Global,
    (segments, asked, reads): &Reads,
) -> Result<(), Fail> {
    let query = query(alloc, asked)?;
    let (_, calls) = plain_file(alloc, segments, &query)?;
    assert!(rt; calls == *reads);
    Ok(())
}

#[test]
fn a_row_takes_a_read_for_each_tile_that_it_shows(rt: HostRuntime) -> Result<(), Fail> {
    for row in READS.iter() {
        check_reads(&rt, rt.alloc(), row)?;
    }
    Ok(())
}
