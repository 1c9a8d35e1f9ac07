//! Tests of attachments and of the metadata: what scripts say and leave, and what crashes in each call leave.

use crate::adding::check_each_crash;
use crate::devices::{NEVER, failing_rig};
use crate::images::PLAIN;
use crate::outcomes::{check_said, outcome, ran, rig_of};
use crate::wide::told;
use czi_rig::File;
use czi_sample::places::*;
use czi_sample::{Part, Sample, Segment, changed, image_of};
use std::alloc::{AllocError, Global};
use std::process::Abort;
use std::test::Fail;

// It attaches, attaches and detaches again what can't be, brings other bytes for the attachment, and detaches it.
const SCRIPT: &[u8] =
    b"attach guid=00112233-4455-6677-8899-aabbccddeeff type=TXT name=EventList data=5\nhello\n\
    info\n\
    attach guid=00112233-4455-6677-8899-aabbccddeeff type=TXT name=EventList data=5\nhello\n\
    reattach guid=00112233-4455-6677-8899-aabbccddeeff type=TXT name=EventList data=2\nhi\n\
    info\n\
    reattach guid=00112233-4455-6677-8899-aabbccddeeff type=TXT name=Nope data=2\nhi\n\
    detach name=Nope\n\
    detach name=EventList\n\
    map\n\
    check\n";

// What it says.
const REPLIES: &[u8] = b"ok 1\n\
    length 2464\n\
    guid 00112233-4455-6677-8899-aabbccddeeff\n\
    directory 544 160\n\
    tiles 0\n\
    attdir 1024 1440\n\
    attachments 1\n\
    attachment 0 704 320 guid=00112233-4455-6677-8899-aabbccddeeff type=TXT name=EventList data=5\n\
    metadata none\n\
    no duplicate 0\n\
    ok 2\n\
    length 2784\n\
    guid 00112233-4455-6677-8899-aabbccddeeff\n\
    directory 544 160\n\
    tiles 0\n\
    attdir 1024 1440\n\
    attachments 1\n\
    attachment 0 2464 320 guid=00112233-4455-6677-8899-aabbccddeeff type=TXT name=EventList data=2\n\
    metadata none\n\
    no key\n\
    no key\n\
    ok 3\n\
    length 2784\n\
    runs 0\n\
    held 2\n\
    held 704 320\n\
    held 2464 320\n\
    check live=3 runs=2 unknown=0 tail=0\n";

// What `info` says then.
const DETACHED: &[u8] = b"length 2784\n\
    guid 00112233-4455-6677-8899-aabbccddeeff\n\
    directory 544 160\n\
    tiles 0\n\
    attdir 1024 1440\n\
    attachments 0\n\
    metadata none\n";

#[test]
fn attachments_come_change_and_go(rt: HostRuntime) -> Result<(), Fail> {
    let alloc = rt.alloc();
    let rig = ran(&rt, alloc, PLAIN, SCRIPT, (0, REPLIES))?;
    let files = (rig.content(File::Image), rig.content(File::Journal));
    check_said(&rt, alloc, "info", files, (0, DETACHED))
}

// An attachment whose directory has room, and the metadata.
const ROOMY: &[Segment] = &[
    Segment::Directory(0),
    Segment::Attachment(b"TXT", b"notes", b"four"),
    Segment::AttDir(1152),
    Segment::Metadata(b"<xml>", b"tail"),
];

// The same without padding, and the directory without room. The metadata isn't on the walk.
const UNPADDED: &[Segment] = &[
    Segment::Directory(0),
    Segment::AttDir(128),
    Segment::Attachment(b"TXT", b"notes", b"four"),
    Segment::Unpadded,
    Segment::Raw(&[0; 4]),
    Segment::Metadata(b"<xml>", b""),
    Segment::Unpadded,
];

// Scripts of one edit that is accepted, over images: the directory of attachments is new, is placed anew or is changed where it
// lies, and the metadata is new or replaced.
static EDITS: [(&[Segment], &[u8]); 9] = [
    (
        PLAIN,
        b"attach guid=00112233-4455-6677-8899-aabbccddeeff type=TXT name=EventList data=5\nhello\n",
    ),
    (
        UNPADDED,
        b"attach guid=00112233-4455-6677-8899-aabbccddeeff type=TXT name=EventList data=5\nhello\n",
    ),
    (
        ROOMY,
        b"attach guid=00112233-4455-6677-8899-aabbccddeeff type=TXT name=EventList data=5\nhello\n",
    ),
    (
        UNPADDED,
        b"reattach guid=ffeeddcc-bbaa-9988-7766-554433221100 type=BIN name=notes data=2\nhi\n",
    ),
    (
        ROOMY,
        b"reattach guid=ffeeddcc-bbaa-9988-7766-554433221100 type=BIN name=notes data=2\nhi\n",
    ),
    (UNPADDED, b"detach name=notes\n"),
    (PLAIN, b"meta xml=5 att=3\n<new>abc\n"),
    (UNPADDED, b"meta xml=5 att=3\n<new>abc\n"),
    (ROOMY, b"meta xml=0 att=0\n\n"),
];

// A crash in any call of the script leaves what `info` says before, or what it says after.
fn check_edit(
    rt: &impl Abort,
    alloc: Global,
    segments: &[Segment],
    script: &[u8],
) -> Result<(), Fail> {
    let image = image_of(alloc, segments)?;
    let rig = ran(rt, alloc, segments, script, (0, b"ok 1\n"))?;
    let old = told(rt, alloc, (&image, b""), b"length ")?;
    let files = (rig.content(File::Image), rig.content(File::Journal));
    let new = told(rt, alloc, files, b"length ")?;
    assert!(rt; old != new);
    check_each_crash(rt, alloc, &rig, ("info", &old, &new))
}

#[test]
fn a_crash_in_any_call_leaves_an_attachment_added_or_not(rt: HostRuntime) -> Result<(), Fail> {
    for (segments, script) in EDITS[..3].iter() {
        check_edit(&rt, rt.alloc(), segments, script)?;
    }
    Ok(())
}

#[test]
fn a_crash_in_any_call_leaves_an_attachment_changed_or_not(rt: HostRuntime) -> Result<(), Fail> {
    for (segments, script) in EDITS[3..6].iter() {
        check_edit(&rt, rt.alloc(), segments, script)?;
    }
    Ok(())
}

#[test]
fn a_crash_in_any_call_leaves_the_metadata_replaced_or_not(rt: HostRuntime) -> Result<(), Fail> {
    for (segments, script) in EDITS[6..].iter() {
        check_edit(&rt, rt.alloc(), segments, script)?;
    }
    Ok(())
}

// A call of the script fails: a file's or the output's status follows, and what is left is the document before or after.
fn check_failing(
    rt: &impl Abort,
    alloc: Global,
    (segments, script): (&[Segment], &[u8]),
    failing: u64,
    (old, new): (&[u8], &[u8]),
) -> Result<(), Fail> {
    let mut rig = rig_of(alloc, segments, failing)?;
    let status = outcome(alloc, &["F", "edit"], script, &mut rig)?;
    assert!(rt; status == 4 || status == 5 || status == 6, "call {failing}");
    let files = (rig.content(File::Image), rig.content(File::Journal));
    let left = told(rt, alloc, files, b"length ")?;
    assert!(rt;
        left.as_slice() == old || left.as_slice() == new,
        "call {failing}"
    );
    Ok(())
}

fn check_each_failing(
    rt: &impl Abort,
    alloc: Global,
    segments: &[Segment],
    script: &[u8],
) -> Result<(), Fail> {
    let image = image_of(alloc, segments)?;
    let rig = ran(rt, alloc, segments, script, (0, b"ok 1\n"))?;
    let old = told(rt, alloc, (&image, b""), b"length ")?;
    let files = (rig.content(File::Image), rig.content(File::Journal));
    let new = told(rt, alloc, files, b"length ")?;
    for failing in 0..rig.calls() {
        check_failing(rt, alloc, (segments, script), failing, (&old, &new))?;
    }
    Ok(())
}

#[test]
fn a_failed_call_leaves_the_edit_done_or_not(rt: HostRuntime) -> Result<(), Fail> {
    for (segments, script) in EDITS.iter() {
        check_each_failing(&rt, rt.alloc(), segments, script)?;
    }
    Ok(())
}

// How many bytes of entries the directory has room for, how many attachments there are, an edit, and the front of what `info`
// says then.
type Border = (usize, u32, &'static [u8], &'static [u8]);

static BORDERS: [Border; 5] = [
    // The new entry lacks a byte of room, or just fits.
    (
        255,
        1,
        b"attach guid=00112233-4455-6677-8899-aabbccddeeff type=TXT name=EventList data=5\nhello\n",
        b"length 3456\nguid 00112233-4455-6677-8899-aabbccddeeff\ndirectory 544 160\ntiles 0\nattdir 1888 1568\nattachments 2\n",
    ),
    (
        256,
        1,
        b"attach guid=00112233-4455-6677-8899-aabbccddeeff type=TXT name=EventList data=5\nhello\n",
        b"length 1888\nguid 00112233-4455-6677-8899-aabbccddeeff\ndirectory 544 160\ntiles 0\nattdir 1024 544\nattachments 2\n",
    ),
    // 512 entries behind the one that goes are 65,536 bytes; 513 are too many.
    (
        65_664,
        513,
        b"detach name=0\n",
        b"length 230816\nguid 00112233-4455-6677-8899-aabbccddeeff\ndirectory 544 160\ntiles 0\nattdir 164864 65952\nattachments 512\n",
    ),
    (
        65_792,
        514,
        b"detach name=0\n",
        b"length 313696\nguid 00112233-4455-6677-8899-aabbccddeeff\ndirectory 544 160\ntiles 0\nattdir 231264 82432\nattachments 513\n",
    ),
    (
        65_792,
        514,
        b"detach name=1\n",
        b"length 231264\nguid 00112233-4455-6677-8899-aabbccddeeff\ndirectory 544 160\ntiles 0\nattdir 165184 66080\nattachments 513\n",
    ),
];

/// A document of so many attachments of 320 bytes in a row, named by their numbers, with their directory behind them.
pub(crate) fn many_attachments(
    alloc: Global,
    count: u32,
    room: usize,
) -> Result<Vec<u8>, AllocError> {
    let mut sample = Sample::new(alloc)?;
    sample.push(alloc, &Segment::Directory(0))?;
    for i in 0..count {
        let name = format!(in alloc; "{i}")?;
        sample.push(alloc, &Segment::Attachment(b"TXT", name.as_bytes(), b"x"))?;
    }
    sample.push(alloc, &Segment::AttDir(room))?;
    sample.build()
}

fn check_border(
    rt: &impl Abort,
    alloc: Global,
    (room, count, script, front): &Border,
) -> Result<(), Fail> {
    let image = many_attachments(alloc, *count, *room)?;
    let mut rig = failing_rig(alloc, &image, NEVER)?;
    let status = outcome(alloc, &["F", "edit"], script, &mut rig)?;
    assert!(rt; status == 0 && rig.said() == b"ok 1\n".as_slice());
    let files = (rig.content(File::Image), rig.content(File::Journal));
    let _ = told(rt, alloc, files, front)?;
    Ok(())
}

#[test]
fn a_directory_is_changed_where_it_lies_up_to_a_border(rt: HostRuntime) -> Result<(), Fail> {
    for border in BORDERS.iter() {
        check_border(&rt, rt.alloc(), border)?;
    }
    Ok(())
}

// Two attachments at 704 and 1024 in 2144 bytes. Their directory at 1344 has room for four entries, of 128 bytes from 1632 on.
static TWO: [Segment; 4] = [
    Segment::Directory(0),
    Segment::Attachment(b"TXT", b"one", b"1"),
    Segment::Attachment(b"TXT", b"two", b"2"),
    Segment::AttDir(512),
];

const DIRECTORY: usize = 1344;

const FIRST: usize = DIRECTORY + ATTACHMENT_ENTRIES;

const SECOND: usize = FIRST + 128;

const THIRD: usize = SECOND + 128;

const RESERVED: usize = 2;

const PART: usize = 20;

const CONTENT_GUID: usize = 24;

const KIND: usize = 40;

const NAME: usize = 48;

// What another program has written there: no UsedSize, and other bytes where this one writes zeros.
static FOREIGN: [Part; 7] = [
    (DIRECTORY + USED, &[0; 8]),
    (DIRECTORY + COUNT + 4, &[5; 4]),
    (FIRST + RESERVED, &[9; 10]),
    (FIRST + PART, &[7; 4]),
    (SECOND + RESERVED, &[8; 10]),
    (SECOND + PART, &[6; 4]),
    (THIRD + 200, &[3; 4]),
];

// The header of a DELETED segment of 320 bytes.
const DELETED: &[u8] = b"DELETED\0\0\0\0\0\0\0\0\0\x20\x01\0\0\0\0\0\0\0\0\0\0\0\0\0\0";

// An edit, and what it changes of those bytes: the sizes, and of the entries those that don't stand already.
static KEPT: [(&[u8], &[Part]); 4] = [
    (
        b"attach guid=00112233-4455-6677-8899-aabbccddeeff type=TXT name=new data=1\n3\n",
        &[
            (DIRECTORY + USED, &[0x80, 2]),
            (DIRECTORY + COUNT, &[3]),
            (THIRD, b"A1"),
            (THIRD + ATTACHMENT_POSITION, &[0x60, 8]),
            (
                THIRD + CONTENT_GUID,
                b"\x33\x22\x11\x00\x55\x44\x77\x66\x88\x99\xAA\xBB\xCC\xDD\xEE\xFF",
            ),
            (THIRD + KIND, b"TXT"),
            (THIRD + NAME, b"new"),
        ],
    ),
    (
        b"reattach guid=00112233-4455-6677-8899-aabbccddeeff type=TXT name=one data=1\n3\n",
        &[
            (704, DELETED),
            (DIRECTORY + USED, &[0, 2]),
            (FIRST + RESERVED, &[0; 10]),
            (FIRST + ATTACHMENT_POSITION, &[0x60, 8]),
            (FIRST + PART, &[0; 4]),
        ],
    ),
    (
        b"detach name=two\n",
        &[
            (1024, DELETED),
            (DIRECTORY + USED, &[0x80, 1]),
            (DIRECTORY + COUNT, &[1]),
        ],
    ),
    // The second entry is written over the first, and also stays where it was, past UsedSize.
    (
        b"detach name=one\n",
        &[
            (704, DELETED),
            (DIRECTORY + USED, &[0x80, 1]),
            (DIRECTORY + COUNT, &[1]),
            (FIRST + RESERVED, &[0; 10]),
            (FIRST + ATTACHMENT_POSITION, &[0, 4]),
            (FIRST + PART, &[0; 4]),
            (FIRST + NAME, b"two"),
        ],
    ),
];

fn check_kept(rt: &impl Abort, alloc: Global, script: &[u8], parts: &[Part]) -> Result<(), Fail> {
    let foreign = changed(alloc, &image_of(alloc, &TWO)?, 2144, &FOREIGN)?;
    let mut rig = failing_rig(alloc, &foreign, NEVER)?;
    let status = outcome(alloc, &["F", "edit"], script, &mut rig)?;
    assert!(rt; status == 0 && rig.said() == b"ok 1\n".as_slice());
    let want = changed(alloc, &foreign, 2144, parts)?;
    assert!(rt; rig.content(File::Image).starts_with(&want));
    Ok(())
}

#[test]
fn bytes_of_others_stay_where_nothing_is_changed(rt: HostRuntime) -> Result<(), Fail> {
    for (script, parts) in KEPT.iter() {
        check_kept(&rt, rt.alloc(), script, parts)?;
    }
    Ok(())
}
