//! Tests of the top call: its words, and what it says of images.

use crate::devices::check_files;
use crate::images::{ONE_SUBBLOCK, PLAIN, TAILED};
use crate::outcomes::{NO_TILES, ONE, TILE as LISTED, check_said, outcome};
use crate::scripts::one_tile_rig;
use czi_rig::MemRig;
use czi_sample::places::*;
use czi_sample::{Part, Segment, TILE, changed, image_of};
use std::alloc::{AllocError, Global};
use std::process::Abort;
use std::test::Fail;

// The command says this of the image, and both files stay as they are.
fn check_told(
    rt: &impl Abort,
    alloc: Global,
    image: &[u8],
    command: &str,
    said: &[u8],
) -> Result<(), Fail> {
    let mut rig = MemRig::new(alloc, image, b"")?;
    let status = outcome(alloc, &["F", command], b"", &mut rig)?;
    assert!(rt; status == 0 && rig.said() == said);
    check_files(rt, &rig, image, b"");
    Ok(())
}

const OTHER: &[Segment] = &[
    Segment::Directory(0),
    Segment::Foreign(b"OTHER\0\0\0\0\0\0\0\0\0\0\0", 0),
    Segment::Raw(&[0; 4]),
];

// What is said of images.
static TOLD: [(&[Segment], &str, &[u8]); 11] = [
    (PLAIN, "list", NO_TILES),
    (
        PLAIN,
        "info",
        b"length 704\n\
        guid 00112233-4455-6677-8899-aabbccddeeff\n\
        directory 544 160\n\
        tiles 0\n\
        attdir none\n\
        attachments 0\n\
        metadata none\n",
    ),
    (TAILED, "list", NO_TILES),
    (PLAIN, "map", b"length 704\nruns 0\nheld 0\n"),
    (PLAIN, "check", b"check live=2 runs=0 unknown=0 tail=0\n"),
    (TAILED, "check", b"check live=2 runs=0 unknown=0 tail=100\n"),
    (OTHER, "check", b"check live=2 runs=0 unknown=1 tail=4\n"),
    (ONE_SUBBLOCK, "list", LISTED),
    (ONE_SUBBLOCK, "info", ONE),
    (
        ONE_SUBBLOCK,
        "map",
        b"length 1280\nruns 1\nrun 544 160\nheld 0\n",
    ),
    (
        ONE_SUBBLOCK,
        "check",
        b"check live=3 runs=1 unknown=0 tail=0\n",
    ),
];

#[test]
fn images_are_listed_and_told_of(rt: HostRuntime) -> Result<(), Fail> {
    for (segments, command, said) in TOLD.iter() {
        let image = image_of(rt.alloc(), segments)?;
        check_told(&rt, rt.alloc(), &image, command, said)?;
    }
    Ok(())
}

// Where the directory stands, and its second entry behind one of 92 bytes.
const DIRECTORY: usize = 544;

const ONE_DIRECTORY: usize = 1024;

const TWO_DIRECTORY: usize = 1344;

const SECOND: usize = ENTRIES + 92;

const TWO: &[Segment] = &[Segment::Deleted(128), TILE, TILE, Segment::Directory(192)];

// The first rules that refuse images in so many bytes, with these changes: of the last two, an entry names another segment, and
// two entries name the same subblock.
#[rattlefmt::skip]
static REFUSED: [(&[Segment], usize, &[Part], &[u8]); 10] = [
    (PLAIN, 0, &[], b"refused notczi\n"),
    (PLAIN, 704, &[(FILE_PART, &[0xFF; 4]), (UPDATE_PENDING, &[1])], b"refused multipart -1\n"),
    (PLAIN, 704, &[(UPDATE_PENDING, &[1]), (DIRECTORY + COUNT, &[0xFF; 4])], b"refused pending 1\n"),
    (PLAIN, 600, &[], b"refused directory 544\n"),
    (PLAIN, 704, &[(DIRECTORY + COUNT, &[1, 0, 16, 0])], b"refused many 544 1048577\n"),
    (PLAIN, 704, &[(DIRECTORY + COUNT, &[1])], b"refused entry 704\n"),
    (PLAIN, 704, &[(ATTACHMENTS_POSITION, &[0x20, 2])], b"refused attachment 544\n"),
    (PLAIN, 704, &[(METADATA_POSITION, &[0x20, 2])], b"refused segment 544\n"),
    (ONE_SUBBLOCK, 1280, &[(ONE_DIRECTORY + ENTRIES + POSITION, &[0x20, 2])], b"refused segment 544\n"),
    (TWO, 1696, &[(TWO_DIRECTORY + SECOND + POSITION, &[0xC0, 2])], b"refused overlap 704 320 704 320\n"),
];

#[test]
fn images_are_refused_by_the_first_rule(rt: HostRuntime) -> Result<(), Fail> {
    let alloc = rt.alloc();
    for (segments, len, changes, said) in REFUSED.iter() {
        let image = changed(alloc, &image_of(alloc, segments)?, *len, changes)?;
        check_said(&rt, alloc, "list", (&image, b""), (2, said))?;
    }
    Ok(())
}

const USAGE: &[u8] = b"usage: czi_tool FILE COMMAND [name=value ...]\n";

// A rig over the document without subblocks.
fn empty_rig(alloc: Global) -> Result<MemRig, AllocError> {
    MemRig::new(alloc, &image_of(alloc, PLAIN)?, b"")
}

// Words that are no command.
static OTHER_WORDS: [&[&str]; 15] = [
    &[],
    &["F"],
    &["", "list"],
    &["-F", "list"],
    &["F", "-list"],
    &["F", "--help"],
    &["F", "frob"],
    &["F", "listing"],
    &["F", "list", "x=1"],
    &["F", "create"],
    &["F", "create", "guid="],
    &["F", "create", "guid=0011"],
    &["F", "create", "GUID=00112233-4455-6677-8899-aabbccddeeff"],
    &[
        "F",
        "create",
        "guid=00112233-4455-6677-8899-aabbccddeeff",
        "x=1",
    ],
    &["F", "list", "--"],
];

/// The words are no command: the usage line is said, and no file is asked.
pub(crate) fn check_usage(rt: &impl Abort, alloc: Global, words: &[&str]) -> Result<(), Fail> {
    let mut rig = empty_rig(alloc)?;
    let status = outcome(alloc, words, b"", &mut rig)?;
    assert!(rt; status == 1 && rig.said() == USAGE && rig.calls() == 1);
    Ok(())
}

#[test]
fn other_words_get_the_usage_line(rt: HostRuntime) -> Result<(), Fail> {
    for words in OTHER_WORDS.iter() {
        check_usage(&rt, rt.alloc(), words)?;
    }
    Ok(())
}

// Calls of `info` that fail, and the status that follows.
static FAILED_CALLS: [(u64, u8); 7] = [(0, 4), (1, 5), (2, 5), (3, 4), (8, 4), (9, 6), (10, 0)];

fn check_failed(rt: &impl Abort, alloc: Global, number: u64, status: u8) -> Result<(), Fail> {
    let mut rig = one_tile_rig(alloc, number)?;
    let answer = outcome(alloc, &["F", "info"], b"", &mut rig)?;
    assert!(rt; answer == status, "call {number}");
    let said = rig.said();
    assert!(rt; ONE.starts_with(said) && (said.len() == ONE.len()) == (status == 0));
    Ok(())
}

#[test]
fn a_failed_call_ends_the_run(rt: HostRuntime) -> Result<(), Fail> {
    for (number, status) in FAILED_CALLS.iter() {
        check_failed(&rt, rt.alloc(), *number, *status)?;
    }
    Ok(())
}
