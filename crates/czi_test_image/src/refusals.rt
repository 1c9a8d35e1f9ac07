//! `czi_image`: what breaks each rule of reading, with the place and the values that are told, and which of two broken rules
//! is told.

use crate::documents::{Part, document};
use czi_image::{ImageFault, read_index};
use czi_rig::MemRig;
use czi_sample::places::*;
use czi_sample::put;
use std::alloc::{AllocError, Global};
use std::process::Abort;
use std::test::Fail;

// Where the document has its directory and the entry in it, the subblock, the attachment directory and the entry in it, the
// attachment, and the metadata.
const DIRECTORY: usize = 544;

const ENTRY: usize = 704;

const TILE: usize = 768;

const ATTDIR: usize = 1088;

const A1: usize = 1376;

const ATTACHMENT: usize = 1504;

const METADATA_AT: usize = 1800;

// What is told of an image in which no segments overlap.
enum Told {
    MultiPart(i32),
    Pending(i32),
    BadDirectory(i64),
    TooMany(i64, u64),
    BadEntry(i64),
    BadSegment(i64),
    BadAttachment(i64),
    NotCzi,
}

// The fault that says so.
fn fault_of(told: &Told) -> ImageFault {
    match told {
        Told::NotCzi => ImageFault::NotCzi,
        Told::MultiPart(part) => ImageFault::MultiPart(*part),
        Told::Pending(value) => ImageFault::Pending(*value),
        Told::BadDirectory(at) => ImageFault::BadDirectory(*at),
        Told::TooMany(at, count) => ImageFault::TooMany(*at, *count),
        Told::BadEntry(at) => ImageFault::BadEntry(*at),
        Told::BadSegment(at) => ImageFault::BadSegment(*at),
        Told::BadAttachment(at) => ImageFault::BadAttachment(*at),
    }
}

// Bytes that are written over the document, and what is told then.
type Row = (&'static [Part], Told);

// What breaks no rule.
#[rattlefmt::skip]
static SOUND: [&[Part]; 8] = [
    &[],
    &[(USED, &[0, 0])],
    &[(DIRECTORY_POSITION, &[0, 0])],
    &[(METADATA_POSITION, &[0, 0])],
    &[(ATTACHMENTS_POSITION, &[0, 0])],
    &[(DIRECTORY + USED, &[0])],
    &[(TILE + PIXELS_SIZE, &[32])],
    &[(TILE + OWN_DIMENSIONS, &[0])],
];

// ZISRAWFILE at 0: the id, AllocatedSize and UsedSize, and the extent.
#[rattlefmt::skip]
static NO_HEADER: [&[Part]; 7] = [
    &[(0, b"X")],
    &[(ALLOCATED, &[79, 0])],
    &[(ALLOCATED + 7, &[0x80])],
    &[(ALLOCATED, &[0x0E, 8])],
    &[(USED, &[79, 0])],
    &[(USED, &[1, 2])],
    &[(USED + 7, &[0x80])],
];

// The lengths of fronts of the document that have no file header.
static SHORT: [usize; 6] = [0, 1, 32, 111, 112, 543];

// FilePart, UpdatePending.
#[rattlefmt::skip]
static VALUES: [Row; 6] = [
    (&[(FILE_PART, &[1])], Told::MultiPart(1)),
    (&[(FILE_PART, &[0xFF; 4])], Told::MultiPart(-1)),
    (&[(FILE_PART + 3, &[0x7F])], Told::MultiPart(0x7F00_0000)),
    (&[(UPDATE_PENDING, &[1])], Told::Pending(1)),
    (&[(UPDATE_PENDING, &[0xFF; 4])], Told::Pending(-1)),
    (&[(UPDATE_PENDING + 3, &[0x7F])], Told::Pending(0x7F00_0000)),
];

// DirectoryPosition, and the directory there: the id, the sizes, the extent, EntryCount.
#[rattlefmt::skip]
static DIRECTORIES: [Row; 11] = [
    (&[(DIRECTORY_POSITION, &[0xFF; 8])], Told::BadDirectory(-1)),
    (&[(DIRECTORY_POSITION, &[0x8E, 7])], Told::BadDirectory(1934)),
    (&[(DIRECTORY_POSITION, &[0x21, 2])], Told::BadDirectory(545)),
    (&[(DIRECTORY, b"X")], Told::BadDirectory(544)),
    (&[(DIRECTORY + ALLOCATED, &[127]), (DIRECTORY + USED, &[127])], Told::BadDirectory(544)),
    (&[(DIRECTORY + ALLOCATED, &[0xEE, 5])], Told::BadDirectory(544)),
    (&[(DIRECTORY + ALLOCATED + 7, &[0x80])], Told::BadDirectory(544)),
    (&[(DIRECTORY + USED, &[181])], Told::BadDirectory(544)),
    (&[(DIRECTORY + USED + 7, &[0x80])], Told::BadDirectory(544)),
    (&[(DIRECTORY + COUNT + 3, &[0x80])], Told::BadDirectory(544)),
    (&[(DIRECTORY + COUNT, &[1, 0, 0x10])], Told::TooMany(544, 1_048_577)),
];

// The entries of the directory: DV, FilePart, DimensionCount, and that they end within it.
#[rattlefmt::skip]
static ENTRIES: [Row; 8] = [
    (&[(ENTRY, b"X")], Told::BadEntry(704)),
    (&[(ENTRY + ENTRY_PART, &[1])], Told::BadEntry(704)),
    (&[(ENTRY + ENTRY_PART, &[0xFF; 4])], Told::BadEntry(704)),
    (&[(ENTRY + DIMENSIONS, &[0])], Told::BadEntry(704)),
    (&[(ENTRY + DIMENSIONS, &[41])], Told::BadEntry(704)),
    (&[(ENTRY + DIMENSIONS, &[0xFF; 4])], Told::BadEntry(704)),
    (&[(DIRECTORY + COUNT, &[2])], Told::BadEntry(756)),
    (&[(DIRECTORY + COUNT, &[0, 0, 0x10])], Told::BadEntry(756)),
];

// The subblock at an entry's position: the id, the sizes, the extent, DimensionCount of its own entry, its contents.
#[rattlefmt::skip]
static SUBBLOCKS: [Row; 17] = [
    (&[(ENTRY + POSITION, &[0; 8])], Told::BadSegment(0)),
    (&[(ENTRY + POSITION, &[0xFF; 8])], Told::BadSegment(-1)),
    (&[(ENTRY + POSITION, &[0x0E, 7])], Told::BadSegment(1806)),
    (&[(TILE, b"X")], Told::BadSegment(768)),
    (&[(TILE + ALLOCATED, &[0x0E, 5])], Told::BadSegment(768)),
    (&[(TILE + ALLOCATED + 7, &[0x80])], Told::BadSegment(768)),
    (&[(TILE + USED, &[0x21, 1])], Told::BadSegment(768)),
    (&[(TILE + USED + 7, &[0x80])], Told::BadSegment(768)),
    (&[(TILE + META_SIZE, &[25])], Told::BadSegment(768)),
    (&[(TILE + META_SIZE + 3, &[0x80])], Told::BadSegment(768)),
    (&[(TILE + TAIL_SIZE, &[25])], Told::BadSegment(768)),
    (&[(TILE + TAIL_SIZE + 3, &[0x80])], Told::BadSegment(768)),
    (&[(TILE + PIXELS_SIZE, &[33])], Told::BadSegment(768)),
    (&[(TILE + PIXELS_SIZE + 7, &[0x80])], Told::BadSegment(768)),
    (&[(TILE + OWN_DIMENSIONS, &[25])], Told::BadSegment(768)),
    (&[(TILE + ALLOCATED, &[0x0D, 5]), (TILE + OWN_DIMENSIONS, &[41])], Told::BadSegment(768)),
    (&[(TILE + OWN_DIMENSIONS + 3, &[0x80])], Told::BadSegment(768)),
];

// AttachmentDirectoryPosition, the attachment directory there, and its entries.
#[rattlefmt::skip]
static ATTACHMENT_DIRECTORY: [Row; 12] = [
    (&[(ATTACHMENTS_POSITION, &[0xFF; 8])], Told::BadAttachment(-1)),
    (&[(ATTACHMENTS_POSITION, &[0x0E, 7])], Told::BadAttachment(1806)),
    (&[(ATTDIR, b"X")], Told::BadAttachment(1088)),
    (&[(ATTDIR + ALLOCATED, &[0x7F, 1]), (ATTDIR + USED, &[0x7F, 1])], Told::BadAttachment(1088)),
    (&[(ATTDIR + ALLOCATED, &[0xCE, 3])], Told::BadAttachment(1088)),
    (&[(ATTDIR + ALLOCATED + 7, &[0x80])], Told::BadAttachment(1088)),
    (&[(ATTDIR + USED, &[0x81, 1])], Told::BadAttachment(1088)),
    (&[(ATTDIR + USED + 7, &[0x80])], Told::BadAttachment(1088)),
    (&[(ATTDIR + COUNT, &[2])], Told::BadAttachment(1088)),
    (&[(ATTDIR + COUNT + 3, &[0x80])], Told::BadAttachment(1088)),
    (&[(A1, b"B")], Told::BadAttachment(1376)),
    (&[(ATTDIR + ALLOCATED, &[0, 2]), (ATTDIR + COUNT, &[2])], Told::BadAttachment(1504)),
];

// The attachment at an entry's position: the id, the sizes, the extent, DataSize.
#[rattlefmt::skip]
static ATTACHMENTS: [Row; 10] = [
    (&[(A1 + ATTACHMENT_POSITION, &[0; 8])], Told::BadAttachment(0)),
    (&[(A1 + ATTACHMENT_POSITION, &[0xFF; 8])], Told::BadAttachment(-1)),
    (&[(A1 + ATTACHMENT_POSITION, &[0x0E, 7])], Told::BadAttachment(1806)),
    (&[(ATTACHMENT, b"X")], Told::BadAttachment(1504)),
    (&[(ATTACHMENT + ALLOCATED, &[0x2E, 2])], Told::BadAttachment(1504)),
    (&[(ATTACHMENT + ALLOCATED + 7, &[0x80])], Told::BadAttachment(1504)),
    (&[(ATTACHMENT + USED, &[5, 1])], Told::BadAttachment(1504)),
    (&[(ATTACHMENT + USED + 7, &[0x80])], Told::BadAttachment(1504)),
    (&[(ATTACHMENT + DATA_SIZE, &[5])], Told::BadAttachment(1504)),
    (&[(ATTACHMENT + DATA_SIZE + 3, &[0x80])], Told::BadAttachment(1504)),
];

// MetadataPosition, and the metadata there: the id, the sizes, the extent, its contents.
#[rattlefmt::skip]
static METADATA: [Row; 12] = [
    (&[(METADATA_POSITION, &[0xFF; 8])], Told::BadSegment(-1)),
    (&[(METADATA_POSITION, &[0x0E, 7])], Told::BadSegment(1806)),
    (&[(METADATA_POSITION, &[0x20, 2])], Told::BadSegment(544)),
    (&[(METADATA_AT, b"X")], Told::BadSegment(1800)),
    (&[(METADATA_AT + ALLOCATED, &[6, 1])], Told::BadSegment(1800)),
    (&[(METADATA_AT + ALLOCATED + 7, &[0x80])], Told::BadSegment(1800)),
    (&[(METADATA_AT + USED, &[6, 1])], Told::BadSegment(1800)),
    (&[(METADATA_AT + USED + 7, &[0x80])], Told::BadSegment(1800)),
    (&[(METADATA_AT + XML_SIZE, &[6])], Told::BadSegment(1800)),
    (&[(METADATA_AT + XML_SIZE + 3, &[0x80])], Told::BadSegment(1800)),
    (&[(METADATA_AT + TAIL_SIZE, &[1])], Told::BadSegment(1800)),
    (&[(METADATA_AT + TAIL_SIZE + 3, &[0x80])], Told::BadSegment(1800)),
];

// The places and the lengths of the first two neighbours that meet.
#[rattlefmt::skip]
static OVERLAPS: [(&[Part], [u64; 4]); 4] = [
    (&[(ATTACHMENT + ALLOCATED, &[32])], [1504, 320, 1800, 293]),
    (&[(TILE + ALLOCATED, &[0x21]), (ATTACHMENT + ALLOCATED, &[32])], [768, 321, 1088, 416]),
    (&[(ALLOCATED, &[1, 2]), (ATTACHMENT + ALLOCATED, &[32])], [0, 545, 544, 212]),
    (&[(TILE + ALLOCATED, &[0x0D, 5]), (TILE + OWN_DIMENSIONS, &[40])], [768, 1325, 1088, 416]),
];

// What breaks each rule alone, in the order of the rules, but for the last.
#[rattlefmt::skip]
static RULES: [Row; 12] = [
    (&[(0, b"X")], Told::NotCzi),
    (&[(FILE_PART, &[1])], Told::MultiPart(1)),
    (&[(UPDATE_PENDING, &[1])], Told::Pending(1)),
    (&[(DIRECTORY, b"X")], Told::BadDirectory(544)),
    (&[(DIRECTORY + COUNT, &[1, 0, 0x10])], Told::TooMany(544, 1_048_577)),
    (&[(ENTRY, b"X")], Told::BadEntry(704)),
    (&[(TILE, b"X")], Told::BadSegment(768)),
    (&[(ATTDIR, b"X")], Told::BadAttachment(1088)),
    (&[(ATTDIR + ALLOCATED, &[0x80, 1, 8]), (ATTDIR + COUNT, &[1, 0x10])], Told::TooMany(1088, 4097)),
    (&[(A1, b"X")], Told::BadAttachment(1376)),
    (&[(ATTACHMENT, b"X")], Told::BadAttachment(1504)),
    (&[(METADATA_AT, b"X")], Told::BadSegment(1800)),
];

// What breaks the last rule alone, which is on overlaps.
static MEETING: [Part; 1] = [(ATTACHMENT + ALLOCATED, &[32])];

// As many attachments as may be.
static MOST: [Part; 2] = [
    (ATTDIR + ALLOCATED, &[0x80, 1, 8]),
    (ATTDIR + COUNT, &[0, 0x10]),
];

// What is told of an image.
fn fault_in(alloc: Global, image: &[u8]) -> Result<Option<ImageFault>, AllocError> {
    let mut rig = MemRig::new(alloc, image, b"")?;
    Ok(read_index(alloc, &mut rig).err())
}

// What is told of the document, in a file of so many bytes, with bytes of it written over, and more of them over these.
fn refusal(
    alloc: Global,
    len: usize,
    changes: &[Part],
    more: &[Part],
) -> Result<Option<ImageFault>, AllocError> {
    let mut image = document(alloc, len, changes)?;
    put(&mut image, more)?;
    fault_in(alloc, &image)
}

#[test]
fn a_sound_document_is_not_refused(rt: HostRuntime) -> Result<(), Fail> {
    for changes in SOUND.iter() {
        assert!(rt; refusal(rt.alloc(), 2093, changes, &[])?.is_none());
    }
    Ok(())
}

// The front of the document, of so many bytes, has no file header.
fn check_short(rt: &impl Abort, alloc: Global, len: usize) -> Result<(), Fail> {
    let image = document(alloc, len, &[])?;
    assert!(rt;
        fault_in(alloc, &image)? == Some(ImageFault::NotCzi),
        "{len} bytes"
    );
    Ok(())
}

#[test]
fn an_image_without_a_file_header_is_no_czi(rt: HostRuntime) -> Result<(), Fail> {
    for changes in NO_HEADER.iter() {
        let fault = refusal(rt.alloc(), 2093, changes, &[])?;
        assert!(rt; fault == Some(ImageFault::NotCzi));
    }
    for len in SHORT.iter() {
        check_short(&rt, rt.alloc(), *len)?;
    }
    Ok(())
}

// Each row of a table is told.
fn check_rows(rt: &impl Abort, alloc: Global, rows: &[Row]) -> Result<(), Fail> {
    for (i, (changes, told)) in rows.iter().enumerate() {
        let fault = refusal(alloc, 2093, changes, &[])?;
        assert!(rt; fault == Some(fault_of(told)), "row {i}");
    }
    Ok(())
}

#[test]
fn a_broken_rule_refuses_with_its_place_and_values(rt: HostRuntime) -> Result<(), Fail> {
    check_rows(&rt, rt.alloc(), &VALUES)?;
    check_rows(&rt, rt.alloc(), &DIRECTORIES)?;
    check_rows(&rt, rt.alloc(), &ENTRIES)?;
    check_rows(&rt, rt.alloc(), &SUBBLOCKS)?;
    check_rows(&rt, rt.alloc(), &ATTACHMENT_DIRECTORY)?;
    check_rows(&rt, rt.alloc(), &ATTACHMENTS)?;
    check_rows(&rt, rt.alloc(), &METADATA)
}

// The overlap of a row is told.
fn check_overlap(
    rt: &impl Abort,
    alloc: Global,
    row: &(&'static [Part], [u64; 4]),
) -> Result<(), Fail> {
    let Some(ImageFault::Overlap(one, two)) = refusal(alloc, 2093, row.0, &[])? else {
        return Err(Fail::new("no overlap"));
    };
    assert!(rt; [one.at, one.len, two.at, two.len] == row.1);
    Ok(())
}

#[test]
fn the_first_two_live_segments_that_meet_refuse(rt: HostRuntime) -> Result<(), Fail> {
    for row in OVERLAPS.iter() {
        check_overlap(&rt, rt.alloc(), row)?;
    }
    Ok(())
}

// A row is told where its rule alone is broken, and where another one is broken before it was.
fn check_first(rt: &impl Abort, alloc: Global, row: &Row, later: &[Row]) -> Result<(), Fail> {
    let want = Some(fault_of(&row.1));
    assert!(rt; refusal(alloc, 600_000, row.0, &[])? == want);
    assert!(rt; refusal(alloc, 600_000, &MEETING, row.0)? == want);
    for (changes, _) in later {
        assert!(rt; refusal(alloc, 600_000, changes, row.0)? == want);
    }
    Ok(())
}

#[test]
fn the_first_broken_rule_refuses(rt: HostRuntime) -> Result<(), Fail> {
    for (i, row) in RULES.iter().enumerate() {
        check_first(&rt, rt.alloc(), row, &RULES[i + 1..])?;
    }
    Ok(())
}

#[test]
fn as_many_attachments_as_may_be_are_read(rt: HostRuntime) -> Result<(), Fail> {
    let fault = refusal(rt.alloc(), 600_000, &MOST, &[])?;
    assert!(rt; fault == Some(ImageFault::BadAttachment(1504)));
    Ok(())
}
