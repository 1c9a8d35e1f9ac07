//! Tests of the plan that sets the metadata.

use crate::documents::{ONE, index_in};
use crate::plans::{first_write, map_of, pairs_of, places_of};
use czi_image::Index;
use czi_plan::{EditPlan, plan_set_meta};
use czi_region::{Piece, Region};
use czi_sample::{Segment, TILE};
use std::alloc::Global;
use std::test::Fail;

const XML: &[u8] = b"<a/>";

const TAIL: &[u8] = b"z";

// What is planned: the length, what is used, what is freed, and the links' places and lengths.
struct Row {
    segments: &'static [Segment<'static>],
    length: u64,
    used: &'static [(u64, u64)],
    freed: &'static [(u64, u64)],
    links: &'static [(u64, usize)],
}

// The document of one subblock with these segments behind it.
const HOLE: &[Segment] = &[
    Segment::Deleted(128),
    TILE,
    Segment::Directory(96),
    Segment::Deleted(288),
];

const LARGER_HOLE: &[Segment] = &[
    Segment::Deleted(128),
    TILE,
    Segment::Directory(96),
    Segment::Deleted(384),
];

const OLD: &[Segment] = &[
    Segment::Deleted(128),
    TILE,
    Segment::Directory(96),
    Segment::Metadata(b"<b/>", b""),
];

const UNPADDED: &[Segment] = &[
    Segment::Deleted(128),
    TILE,
    Segment::Directory(96),
    Segment::Metadata(b"<b/>", b""),
    Segment::Unpadded,
];

static ROWS: [Row; 5] = [
    // there were none: behind the document, since the hole of 160 bytes is too short; into a hole, and into one with more room
    Row {
        segments: ONE,
        length: 1600,
        used: &[(1280, 320)],
        freed: &[],
        links: &[(92, 8), (1280, 32)],
    },
    Row {
        segments: HOLE,
        length: 1600,
        used: &[(1280, 320)],
        freed: &[],
        links: &[(92, 8), (1280, 32)],
    },
    Row {
        segments: LARGER_HOLE,
        length: 1696,
        used: &[(1280, 320)],
        freed: &[],
        links: &[(92, 8), (1280, 32), (1600, 32)],
    },
    // the old ones are freed and held; or they can't be used again, and have a header of their own
    Row {
        segments: OLD,
        length: 1920,
        used: &[(1600, 320)],
        freed: &[(1280, 320)],
        links: &[(92, 8), (1280, 32), (1600, 32)],
    },
    Row {
        segments: UNPADDED,
        length: 1920,
        used: &[(1600, 320)],
        freed: &[],
        links: &[(92, 8), (1280, 32), (1600, 32)],
    },
];

// The plan that sets them, and the bytes of its first write.
fn planned(alloc: Global, index: &Index) -> Result<(EditPlan, Vec<u8>), Fail> {
    let map = map_of(alloc, index)?;
    let mut region = Region::new(alloc);
    let mut plan = EditPlan::new(alloc);
    match plan_set_meta(index, &map, XML, TAIL, &mut region, &mut plan) {
        Ok(()) => {}
        Err(_) => return Err(Fail::from("no plan")),
    }
    let bytes = first_write(alloc, &region, &plan)?;
    Ok((plan, bytes))
}

#[test]
fn the_metadata_go_where_they_fit_and_the_old_ones_leave(rt: HostRuntime) -> Result<(), Fail> {
    let alloc = rt.alloc();
    for row in ROWS.iter() {
        let index = index_in(alloc, row.segments)?;
        let (plan, _) = planned(alloc, &index)?;
        let used = pairs_of(alloc, plan.used.as_slice())?;
        let freed = pairs_of(alloc, plan.freed.as_slice())?;
        let places = places_of(alloc, &plan)?;
        assert!(rt; plan.length == row.length && used.as_slice() == row.used);
        assert!(rt; freed.as_slice() == row.freed);
        assert!(rt; plan.held.as_slice() == plan.freed.as_slice());
        assert!(rt; places.as_slice() == row.links);
    }
    Ok(())
}

#[test]
fn the_metadata_are_one_write_and_the_used_size_has_no_padding(
    rt: HostRuntime,
) -> Result<(), Fail> {
    let alloc = rt.alloc();
    let index = index_in(alloc, ONE)?;
    let (plan, bytes) = planned(alloc, &index)?;
    let write = [(1312, Piece { at: 0, len: 288 })];
    assert!(rt; plan.writes.as_slice() == write.as_slice() && bytes.len() == 288);
    assert!(rt;
        bytes.starts_with(&[4, 0, 0, 0, 1, 0, 0, 0, 0]) && bytes[256..].starts_with(b"<a/>z\0")
    );
    assert!(rt; plan.links.count() == 2);
    let (_, head) = plan.links.link(1);
    assert!(rt; head.starts_with(b"ZISRAWMETADATA\0\0\x20\x01\0\0\0\0\0\0\x05\x01\0\0\0\0\0\0"));
    Ok(())
}
