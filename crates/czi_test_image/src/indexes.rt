//! `czi_image`: what an index holds of an image, and after a subblock was taken out.

ghost use Rattle.std.specs.Prelude.{◌≡◌, ◌≤◌, ◌^◌, IfOk};
ghost use Rattle.czi_test_image.specs.Removal.{IsRemoval};

use crate::documents::{document, index_in};
use czi_image::{Act, Change, DirItem, DirectoryChange, ImageFault, Index, read_index};
use czi_num::Span;
use czi_rig::MemRig;
use czi_sample::{Segment, image_of, many_tiles};
use std::alloc::{AllocError, Global};
use std::process::Abort;
use std::test::Fail;

// An image, where its walk ends, how many segments of it are unknown, and the place and the length of each free extent.
type Beside = (
    &'static [Segment<'static>],
    (u64, u64),
    &'static [(u64, u64)],
);

static BESIDE: [Beside; 3] = [
    (&[Segment::Directory(0)], (704, 0), &[]),
    (
        &[Segment::Directory(0), Segment::Raw(&[0xFF; 100])],
        (704, 0),
        &[],
    ),
    (
        &[
            Segment::Directory(0),
            Segment::Deleted(32),
            Segment::Foreign(b"FOREIGN\0\0\0\0\0\0\0\0\0", 1),
            Segment::Raw(&[0]),
        ],
        (801, 1),
        &[(704, 64)],
    ),
];

// The index has a directory on the walk, with this extent.
fn check_directory(rt: &impl Abort, index: &Index, at: u64, len: u64) -> Result<(), Fail> {
    let directory = index.directory.ok_or("no directory")?;
    assert!(rt; directory.span.at == at && directory.span.len == len && directory.walked);
    Ok(())
}

// The free extents are these.
fn check_extents(rt: &impl Abort, extents: &[Span], free: &[(u64, u64)]) {
    assert!(rt; extents.len() == free.len());
    for (extent, (at, len)) in extents.iter().zip(free) {
        assert!(rt; extent.at == *at && extent.len == *len, "at {at}");
    }
}

fn check_beside(
    rt: &impl Abort,
    alloc: Global,
    (segments, (walk_end, unknown), free): &Beside,
) -> Result<(), Fail> {
    let image = image_of(alloc, segments)?;
    let index = index_in(alloc, &image)?;
    assert!(rt; index.length == image.len() as u64 && index.walk_end == *walk_end);
    assert!(rt; index.unknown == *unknown);
    check_extents(rt, &index.extents, free);
    assert!(rt; index.tiles.is_empty() && index.attachments.is_empty() && index.metadata.is_none());
    check_directory(rt, &index, 544, 160)
}

#[test]
fn the_walk_shows_what_lies_beside_the_live_segments(rt: HostRuntime) -> Result<(), Fail> {
    for row in BESIDE.iter() {
        check_beside(&rt, rt.alloc(), row)?;
    }
    Ok(())
}

// The only subblock of the document.
fn check_tile(rt: &impl Abort, index: &Index) {
    assert!(rt; index.tiles.len() == 1);
    let tile = &index.tiles[0];
    assert!(rt; tile.walked && tile.span.at == 768 && tile.span.len == 320);
    assert!(rt; tile.begin == 1056 && tile.meta == 0 && tile.pixels == 8 && tile.tail == 0);
    assert!(rt; tile.head.allocated == 288 && tile.head.used == 264);
    check_summary(rt, index);
}

// The number of the only subblock's key and how long its entry is: it has one dimension, X from 0 on.
fn check_summary(rt: &impl Abort, index: &Index) {
    assert!(rt; index.key_numbers() == [0x6E5E_C158].as_slice() && index.entries_len() == 52);
}

// Its only attachment.
fn check_attachment(rt: &impl Abort, index: &Index) {
    assert!(rt; index.attachments.len() == 1);
    let item = &index.attachments[0];
    assert!(rt; item.walked && item.span.at == 1504 && item.span.len == 292 && item.size == 4);
}

// Its metadata.
fn check_metadata(rt: &impl Abort, index: &Index) -> Result<(), Fail> {
    let metadata = index.metadata.ok_or("no metadata")?;
    assert!(rt; metadata.span.at == 1800 && metadata.span.len == 293 && !metadata.walked);
    assert!(rt; metadata.xml == 5 && metadata.tail == 0);
    Ok(())
}

#[test]
fn a_document_is_read_by_one_read_each(rt: HostRuntime) -> Result<(), Fail> {
    let image = document(rt.alloc(), 2093, &[])?;
    let mut rig = MemRig::new(rt.alloc(), &image, b"")?;
    let index = read_index(rt.alloc(), &mut rig).map_err(|_| "refused")?;
    assert!(rt; rig.calls() == 12 && index.walk_end == 1796 && index.unknown == 0);
    check_tile(&rt, &index);
    check_attachment(&rt, &index);
    check_metadata(&rt, &index)
}

// The device's fault is answered where the call with this number fails.
fn check_failing(rt: &impl Abort, alloc: Global, image: &[u8], number: u64) -> Result<(), Fail> {
    let mut rig = MemRig::new(alloc, image, b"")?;
    rig.fail_call(number)?;
    let fault = read_index(alloc, &mut rig).err();
    assert!(rt; fault == Some(ImageFault::Device), "call {number}");
    Ok(())
}

#[test]
fn a_failed_call_is_answered(rt: HostRuntime) -> Result<(), Fail> {
    let image = document(rt.alloc(), 2093, &[])?;
    for number in 0..12 {
        check_failing(&rt, rt.alloc(), &image, number)?;
    }
    Ok(())
}

// Two subblocks, at 832 and at 1152, and 64 free bytes behind them. The directory stands at 544.
static TWO: [Segment; 4] = [
    Segment::Directory(128),
    Segment::Tile(b"X0", b"ABCDEFGH"),
    Segment::Tile(b"X0", b"ABCDE"),
    Segment::Deleted(32),
];

// The number of the subblock that goes, and the place of the one that stays.
static OTHERS: [(usize, u64); 2] = [(0, 1152), (1, 832)];

// A directory of 192 bytes.
fn directory_at(at: u64) -> DirItem
    requires { at ≤ 2 ^ 20 }
    ensures at { result.span.at ≡ at }
    ensures len { result.span.len ≡ 192 }
{
    let span = Span { at, len: 192 };
    DirItem { span, walked: true }
}

// The change that takes a subblock out.
fn removal(alloc: Global, i: usize, directory: DirectoryChange) -> Result<Change, AllocError>
    ensures { IfOk result (IsRemoval i directory) }
{
    let mut change = Change::new(alloc);
    change.directory = directory;
    change.tiles.push(Act::Out(i))?;
    Ok(change)
}

// The index without the subblock at a place: its directory stands behind the image, and nothing is free.
fn removed_at_end(alloc: Global, mut index: Index, i: usize) -> Result<Index, Fail> {
    index.reserve(1, 0, 0)?;
    if i >= index.tiles.len() || index.length > 4096 {
        return Err(Fail::new("no such subblock"));
    }
    let directory = directory_at(index.length);
    let length = index.length + 192;
    let change = removal(alloc, i, DirectoryChange::New(directory))?;
    index.apply(change, &[], length);
    Ok(index)
}

// The same with the directory where it stood.
fn removed_in_place(alloc: Global, mut index: Index, i: usize) -> Result<Index, Fail> {
    index.reserve(1, 0, 0)?;
    if i >= index.tiles.len() {
        return Err(Fail::new("no such subblock"));
    }
    let length = index.length;
    let change = removal(alloc, i, DirectoryChange::Patched)?;
    index.apply(change, &[], length);
    Ok(index)
}

// The index of the image with the two subblocks.
fn check_both(rt: &impl Abort, index: &Index) {
    assert!(rt; index.length == 1536 && index.walk_end == 1536 && index.tiles.len() == 2);
    check_extents(rt, &index.extents, &[(1472, 64)]);
}

// The index of an image of this length has one subblock, at this place, and its directory lies here.
fn check_other(
    rt: &impl Abort,
    index: &Index,
    other: u64,
    length: u64,
    (at, len): (u32, u64),
) -> Result<(), Fail> {
    assert!(rt; index.tiles.len() == 1 && index.header.directory == i64::from(at));
    let tile = &index.tiles[0];
    assert!(rt; tile.span.at == other && tile.span.len == 320);
    assert!(rt; index.length == length && index.walk_end == length && index.unknown == 0);
    assert!(rt; index.extents.is_empty());
    check_summary(rt, index);
    check_directory(rt, index, u64::from(at), len)
}

#[test]
fn a_subblock_is_taken_out(rt: HostRuntime) -> Result<(), Fail> {
    let image = image_of(rt.alloc(), &TWO)?;
    for (i, other) in OTHERS.iter() {
        let index = index_in(rt.alloc(), &image)?;
        check_both(&rt, &index);
        let index = removed_at_end(rt.alloc(), index, *i)?;
        check_other(&rt, &index, *other, 1728, (1536, 192))?;
        let index = index_in(rt.alloc(), &image)?;
        let index = removed_in_place(rt.alloc(), index, *i)?;
        check_other(&rt, &index, *other, 1536, (544, 288))?;
    }
    Ok(())
}

#[test]
fn ten_thousand_subblocks_are_read(rt: HostRuntime) -> Result<(), Fail> {
    let image = many_tiles(rt.alloc(), 10_000)?;
    let index = index_in(rt.alloc(), &image)?;
    assert!(rt; index.tiles.len() == 10_000 && index.entries_len() == 920_000);
    assert!(rt;
        index
            .tiles
            .iter()
            .all(|tile| tile.walked && tile.span.len == 320)
    );
    check_directory(&rt, &index, 3_200_544, 920_160)
}
