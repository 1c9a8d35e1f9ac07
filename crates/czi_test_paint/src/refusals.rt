//! `czi_paint`: why regions aren't painted.

use crate::asked::{Asked, opened, query};
use czi_doc::Pixel;
use czi_paint::{PaintError, Painter};
use czi_sample::{Segment, Subblock};
use std::alloc::Global;
use std::process::Abort;
use std::test::Fail;

const TILE: Subblock = Subblock {
    pixel: 0,
    compression: 0,
    dims: b"X0:4,Y0:2",
    meta: b"",
    pixels: b"ABCDEFGH",
    tail: b"",
};

// A compressed tile, of so many bytes.
const COMPRESSED: Subblock = Subblock {
    compression: 4,
    pixels: b"xyz",
    ..TILE
};

const FOUR_BY_TWO: Asked = (Pixel::Gray8, 1, (0, 0), (4, 2), None, b"");

// An image, what is asked for, and why it isn't painted.
type Row = (&'static [Segment<'static>], Asked, PaintError);

static ROWS: [Row; 6] = [
    (
        &[Segment::Directory(92), Segment::Subblock(COMPRESSED)],
        FOUR_BY_TWO,
        PaintError::Compressed(0),
    ),
    (
        &[
            Segment::Directory(184),
            Segment::Subblock(Subblock {
                dims: b"X0:4,Y0:2,M5",
                ..COMPRESSED
            }),
            Segment::Subblock(Subblock {
                dims: b"X0:4,Y0:2,M3",
                ..COMPRESSED
            }),
        ],
        FOUR_BY_TWO,
        PaintError::Compressed(1),
    ),
    (
        &[
            Segment::Directory(92),
            Segment::Subblock(Subblock { pixel: 9, ..TILE }),
        ],
        FOUR_BY_TWO,
        PaintError::Kind(0),
    ),
    (
        &[Segment::Directory(92), Segment::Subblock(TILE)],
        (Pixel::Gray16, 1, (0, 0), (4, 2), None, b""),
        PaintError::Mixed(0),
    ),
    (
        &[
            Segment::Directory(92),
            Segment::Subblock(Subblock {
                pixels: b"ABCDEFG",
                ..TILE
            }),
        ],
        FOUR_BY_TWO,
        PaintError::ShortData(0),
    ),
    (
        &[Segment::Directory(92), Segment::Subblock(COMPRESSED)],
        (Pixel::Gray8, 1, (0, 0), (16_385, 16_385), None, b""),
        PaintError::TooLong {
            bytes: 268_468_225,
            limit: 268_435_456,
        },
    ),
];

fn check_row(rt: &impl Abort, alloc: Global, (segments, asked, error): &Row) -> Result<(), Fail> {
    let query = query(alloc, asked)?;
    let (_rig, index) = opened(alloc, segments)?;
    let refused = match Painter::new(alloc, &index.tiles, &query) {
        Ok(_) => false,
        Err(refusal) => refusal == *error,
    };
    assert!(rt; refused);
    Ok(())
}

#[test]
fn regions_are_refused_for_their_first_cause(rt: HostRuntime) -> Result<(), Fail> {
    for row in ROWS.iter() {
        check_row(&rt, rt.alloc(), row)?;
    }
    Ok(())
}
