//! `czi_walk`: where the walk goes, and what it shows beside the live segments.

ghost use Rattle.std.specs.Prelude.{IfOk};
ghost use Rattle.czi_walk.specs.View.{IsRow};

use czi_num::Span;
use czi_rig::{File, MemRig};
use czi_seg::{SegHeader, SegId};
use czi_walk::{
    Survey, WalkFault, count_unknown, deleted_extents, is_walked, spans_of, walk, walk_and_mark,
    walk_end, walk_known,
};
use std::alloc::{AllocError, Global};
use std::process::Abort;
use std::test::Fail;

const FILE: [u8; 16] = *b"ZISRAWFILE\0\0\0\0\0\0";

const DIRECTORY: [u8; 16] = *b"ZISRAWDIRECTORY\0";

const SUBBLOCK: [u8; 16] = *b"ZISRAWSUBBLOCK\0\0";

const DELETED: [u8; 16] = *b"DELETED\0\0\0\0\0\0\0\0\0";

const FOREIGN: [u8; 16] = *b"~ 0123456789abc!";

// A place, the id of the segment there, and its size.
type Header = (usize, [u8; 16], u64);

// Puts a header of 32 bytes at a place: an id and twice the same size.
fn put_header(image: &mut [u8], header: &Header) {
    let (at, id, allocated) = header;
    let at = *at;
    if at < 1000 && at + 32 <= image.len() {
        image[at..at + 16].copy_from_slice(id);
        image[at + 16..at + 24].copy_from_slice(&allocated.to_le_bytes());
        image[at + 24..at + 32].copy_from_slice(&allocated.to_le_bytes());
    }
}

// An image of zeros with these headers.
fn image_of(alloc: Global, length: usize, headers: &[Header]) -> Result<Vec<u8>, AllocError> {
    let mut image = vec![in alloc; 0u8; length]?;
    for header in headers {
        put_header(&mut image, header);
    }
    Ok(image)
}

// The walk of an image, how often it read, and how often a second walk did that knows all segments of the first. It finds
// the same.
fn walk_twice(
    rt: &impl Abort,
    alloc: Global,
    image: &[u8],
) -> Result<(Vec<(Span, SegHeader)>, u64, u64), Fail>
    ensures { IfOk result (λ r. IsRow r.0.items) }
{
    let mut rig = MemRig::new(alloc, image, b"")?;
    let length = rig.content(File::Image).len() as u64;
    assert!(rt; length <= 1000);
    let Ok(first) = walk(alloc, &mut rig, length) else {
        return Err(Fail::new("no walk"));
    };
    let reads = rig.calls();
    let Ok(second) = walk_known(alloc, &mut rig, length, &first) else {
        return Err(Fail::new("no second walk"));
    };
    assert!(rt; first.as_slice() == second.as_slice());
    Ok((first, reads, rig.calls().saturating_sub(reads)))
}

// The walk of an image with its marks, where no segment is known to be live.
fn survey_of(rt: &impl Abort, alloc: Global, image: &[u8]) -> Result<Survey, Fail> {
    let mut rig = MemRig::new(alloc, image, b"")?;
    let length = rig.content(File::Image).len() as u64;
    assert!(rt; length <= 1000);
    walk_and_mark(alloc, &mut rig, length, &[], &[]).map_err(|_| Fail::new("no survey"))
}

// An image, the places of its walk, where it ends, how often it reads, and how often where its segments are known.
struct Row {
    length: usize,
    headers: &'static [Header],
    places: &'static [u64],
    end: u64,
    reads: u64,
    again: u64,
}

#[rattlefmt::skip]
static WALKS: [Row; 14] = [
    Row { length: 704, headers: &[(0, FILE, 512), (544, DIRECTORY, 128)], places: &[0, 544], end: 704, reads: 2, again: 0 },
    Row { length: 800, headers: &[(0, FILE, 512), (544, DIRECTORY, 160), (736, DELETED, 32)], places: &[0, 544, 736], end: 800, reads: 3, again: 0 },
    Row { length: 840, headers: &[(0, FILE, 512), (544, DIRECTORY, 160), (736, DELETED, 32)], places: &[0, 544, 736], end: 800, reads: 4, again: 1 },
    Row { length: 799, headers: &[(0, FILE, 512), (544, DIRECTORY, 160), (736, DELETED, 32)], places: &[0, 544], end: 736, reads: 3, again: 1 },
    Row { length: 736, headers: &[(0, FILE, 500), (544, DIRECTORY, 160)], places: &[0, 544], end: 736, reads: 3, again: 1 },
    Row { length: 600, headers: &[(0, FILE, 500), (532, FOREIGN, 0), (564, DIRECTORY, 4)], places: &[0, 532, 564], end: 600, reads: 3, again: 0 },
    Row { length: 736, headers: &[(0, FILE, 512), (544, *b"ZISRAW\x1FIRECTORY\0", 160)], places: &[0], end: 544, reads: 2, again: 1 },
    Row { length: 736, headers: &[(0, FILE, 512), (544, *b"ZISRAW\x7FIRECTORY\0", 160)], places: &[0], end: 544, reads: 2, again: 1 },
    Row { length: 736, headers: &[(0, FILE, 512), (544, *b"ZISRAW\0DIRECTORY", 160)], places: &[0], end: 544, reads: 2, again: 1 },
    Row { length: 736, headers: &[(0, FILE, 512), (544, [0; 16], 160)], places: &[0], end: 544, reads: 2, again: 1 },
    Row { length: 736, headers: &[(0, FILE, 512), (544, DIRECTORY, 161)], places: &[0], end: 544, reads: 2, again: 1 },
    Row { length: 736, headers: &[(0, FILE, 512), (544, DIRECTORY, 1 << 63)], places: &[0], end: 544, reads: 2, again: 1 },
    Row { length: 736, headers: &[(32, FILE, 512)], places: &[], end: 0, reads: 1, again: 1 },
    Row { length: 31, headers: &[], places: &[], end: 0, reads: 0, again: 0 },
];

// Whether this is the header of the segment that was found.
fn is_header(header: &Header, found: &(Span, SegHeader)) -> bool {
    let (at, id, allocated) = header;
    *at as u64 == found.0.at && *id == found.1.id.to_bytes() && *allocated == found.1.allocated
}

// Whether one of the headers is that of the segment that was found.
fn has_header(headers: &[Header], found: &(Span, SegHeader)) -> bool {
    headers.iter().any(|header| is_header(header, found))
}

// The walk found these places, each with its header.
fn check_found(rt: &impl Abort, row: &Row, found: &[(Span, SegHeader)]) {
    assert!(rt; found.len() == row.places.len());
    for (item, at) in found.iter().zip(row.places) {
        assert!(rt;
            item.0.at == *at && has_header(row.headers, item),
            "at {at}"
        );
    }
}

fn check_walk(rt: &impl Abort, alloc: Global, row: &Row) -> Result<(), Fail> {
    let image = image_of(alloc, row.length, row.headers)?;
    let (found, reads, again) = walk_twice(rt, alloc, &image)?;
    check_found(rt, row, &found);
    assert!(rt; walk_end(&found) == row.end && reads == row.reads && again == row.again);
    Ok(())
}

#[test]
fn the_walk_goes_from_end_to_end_or_to_the_next_multiple_of_32(
    rt: HostRuntime,
) -> Result<(), Fail> {
    for row in WALKS.iter() {
        check_walk(&rt, rt.alloc(), row)?;
    }
    Ok(())
}

static MARKED: [Header; 7] = [
    (0, FILE, 512),
    (544, DELETED, 32),
    (608, DELETED, 20),
    (672, FOREIGN, 32),
    (736, DELETED, 96),
    (864, SUBBLOCK, 4),
    (928, DELETED, 0),
];

// The places at which segments are looked for, and whether the walk stands on one there.
static WALKED: [(u64, bool); 5] = [
    (0, true),
    (544, true),
    (768, false),
    (864, true),
    (960, false),
];

// What the walk shows beside two live segments, and how much of it is unknown where none is live.
fn check_marks(rt: &impl Abort, alloc: Global, found: &[(Span, SegHeader)]) -> Result<(), Fail>
    requires { IsRow found.now }
{
    let live = [Span { at: 0, len: 544 }, Span { at: 768, len: 64 }];
    let extents = deleted_extents(alloc, found, &live)?;
    let free = [Span { at: 544, len: 64 }, Span { at: 928, len: 32 }];
    assert!(rt; extents.as_slice() == free.as_slice());
    assert!(rt; count_unknown(found, &live) == 2 && count_unknown(found, &[]) == 3);
    Ok(())
}

// The segments have their spans, and one of them is the foreign one.
fn check_segments(rt: &impl Abort, alloc: Global, found: &[(Span, SegHeader)]) -> Result<(), Fail> {
    let span = Span { at: 672, len: 64 };
    let header = SegHeader {
        id: SegId::Other(FOREIGN),
        allocated: 32,
        used: 32,
    };
    assert!(rt; found.iter().any(|item| item.0 == span && item.1 == header));
    assert!(rt; spans_of(alloc, found)?.len() == 7);
    Ok(())
}

// Where the walk stands on a segment.
fn check_walked(rt: &impl Abort, found: &[(Span, SegHeader)])
    requires { IsRow found.now }
{
    for (at, walked) in WALKED.iter() {
        assert!(rt; is_walked(found, *at) == *walked, "at {at}");
    }
}

#[test]
fn deleted_and_unknown_segments_are_told_apart(rt: HostRuntime) -> Result<(), Fail> {
    let image = image_of(rt.alloc(), 960, &MARKED)?;
    let (found, _, _) = walk_twice(&rt, rt.alloc(), &image)?;
    assert!(rt; found.len() == 7 && walk_end(&found) == 960);
    check_marks(&rt, rt.alloc(), &found)?;
    check_walked(&rt, &found);
    check_segments(&rt, rt.alloc(), &found)
}

static DELETED_ONES: [Header; 4] = [
    (0, FILE, 512),
    (544, DELETED, 32),
    (608, DELETED, 20),
    (672, DELETED, 96),
];

#[test]
fn without_live_segments_each_deleted_one_at_multiples_of_32_is_free(
    rt: HostRuntime,
) -> Result<(), Fail> {
    let image = image_of(rt.alloc(), 800, &DELETED_ONES)?;
    let survey = survey_of(&rt, rt.alloc(), &image)?;
    let free = [Span { at: 544, len: 64 }, Span { at: 672, len: 128 }];
    assert!(rt; survey.extents.as_slice() == free.as_slice());
    assert!(rt; survey.walk.len() == 4 && survey.unknown == 1 && survey.walk_end == 800);
    Ok(())
}

// How many segments a walk finds whose call with this number fails.
fn found_without(
    rt: &impl Abort,
    alloc: Global,
    image: &[u8],
    number: u64,
) -> Result<Result<usize, WalkFault>, Fail> {
    let mut rig = MemRig::new(alloc, image, b"")?;
    rig.fail_call(number)?;
    let length = rig.content(File::Image).len() as u64;
    assert!(rt; length <= 1000);
    Ok(walk(alloc, &mut rig, length).map(|found| found.len()))
}

#[test]
fn a_failed_read_stops_the_walk(rt: HostRuntime) -> Result<(), Fail> {
    let image = image_of(rt.alloc(), 800, &[(0, FILE, 512), (544, DIRECTORY, 224)])?;
    for number in 0..2 {
        let found = found_without(&rt, rt.alloc(), &image, number)?;
        assert!(rt; found == Err(WalkFault::Device), "call {number}");
    }
    assert!(rt; found_without(&rt, rt.alloc(), &image, 2)? == Ok(2));
    Ok(())
}
