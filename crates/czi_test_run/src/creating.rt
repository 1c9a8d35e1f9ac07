//! A document that is created from nothing, and used.

use crate::calls::number_of;
use crate::devices::{NEVER, check_files, failing_rig};
use crate::images::PLAIN;
use crate::outcomes::{NO_TILES, TILE, check_said, outcome};
use czi_rig::{Call, File, MemRig, Pick};
use czi_sample::image_of;
use std::alloc::Global;
use std::process::Abort;
use std::test::Fail;

const GUID: &str = "guid=00112233-4455-6677-8899-aabbccddeeff";

const CREATE: &[&str] = &["F", "create", GUID];

const CREATED: &[u8] = b"created 704\n";

const ADDED: &[u8] = b"add pixel=0 dims=C0,X0:4,Y0:2 meta=0 data=8 att=0\nABCDEFGH\n";

// A run of the words answers so.
fn check_run(
    rt: &impl Abort,
    alloc: Global,
    rig: &mut MemRig,
    (words, script): (&[&str], &[u8]),
    (status, said): (u8, &[u8]),
) -> Result<(), Fail> {
    let before = rig.said().len();
    let answer = outcome(alloc, words, script, rig)?;
    assert!(rt; answer == status && before <= rig.said().len() && &rig.said()[before..] == said);
    Ok(())
}

#[test]
fn a_document_is_created_once_and_then_edited(rt: HostRuntime) -> Result<(), Fail> {
    let alloc = rt.alloc();
    let mut rig = MemRig::new(alloc, b"", b"")?;
    check_run(&rt, alloc, &mut rig, (CREATE, b""), (0, CREATED))?;
    let made = image_of(alloc, PLAIN)?;
    check_files(&rt, &rig, &made, b"");
    check_run(
        &rt,
        alloc,
        &mut rig,
        (CREATE, b""),
        (2, b"refused notempty 704\n"),
    )?;
    check_files(&rt, &rig, &made, b"");
    check_run(
        &rt,
        alloc,
        &mut rig,
        (&["F", "edit"], ADDED),
        (0, b"ok 1\n"),
    )?;
    check_run(&rt, alloc, &mut rig, (&["F", "list"], b""), (0, TILE))
}

// The GUID in each form that is read.
static GUIDS: [&str; 4] = [
    "guid=00112233445566778899aabbccddeeff",
    "guid={00112233-4455-6677-8899-AABBCCDDEEFF}",
    "guid=urn:uuid:00112233-4455-6677-8899-aabbccddeeff",
    GUID,
];

#[test]
fn the_guid_is_read_in_each_of_its_forms(rt: HostRuntime) -> Result<(), Fail> {
    let alloc = rt.alloc();
    let made = image_of(alloc, PLAIN)?;
    for guid in GUIDS.iter() {
        let mut rig = MemRig::new(alloc, b"", b"")?;
        check_run(
            &rt,
            alloc,
            &mut rig,
            (&["F", "create", guid], b""),
            (0, CREATED),
        )?;
        check_files(&rt, &rig, &made, b"");
    }
    Ok(())
}

static PICKS: [Pick; 4] = [
    Pick::Old,
    Pick::New,
    Pick::Fill(0x57, true),
    Pick::Fill(0xFF, false),
];

// What `list` says of what a crash in the call leaves: the empty document, or that it is none.
fn check_crash(
    rt: &impl Abort,
    alloc: Global,
    rig: &MemRig,
    (number, pick): (u64, Pick),
    is_there: bool,
) -> Result<(), Fail> {
    assert!(rt; number < rig.calls());
    let (image, journal) = rig.crash(number, pick)?;
    let (status, said) = if is_there {
        (0, NO_TILES)
    } else {
        (2, b"refused notczi\n" as &[u8])
    };
    check_said(rt, alloc, "list", (&image, &journal), (status, said))
}

// The write of the byte that makes the image a document is the last of two at the front.
fn last_write(rig: &MemRig) -> Result<u64, Fail> {
    let first = number_of(rig, Call::Write(File::Image, 0, 1))?;
    for number in first.saturating_add(1)..rig.calls() {
        if rig.call(number) == Call::Write(File::Image, 0, 1) {
            return Ok(number);
        }
    }
    Err(Fail::new("no such call"))
}

#[test]
fn a_crash_in_any_call_leaves_the_document_or_none(rt: HostRuntime) -> Result<(), Fail> {
    let alloc = rt.alloc();
    let mut rig = MemRig::new(alloc, b"", b"")?;
    check_run(&rt, alloc, &mut rig, (CREATE, b""), (0, CREATED))?;
    let last = last_write(&rig)?;
    for number in 0..rig.calls() {
        let within = number <= last.saturating_add(1);
        for pick in PICKS.iter() {
            let is_there = number >= last && (!within || *pick == Pick::New);
            check_crash(&rt, alloc, &rig, (number, *pick), is_there)?;
        }
    }
    Ok(())
}

// The call that fails, and the status and what is said.
static FAILED: [(Call, u8, &[u8]); 6] = [
    (Call::Sync(File::Image), 4, b""),
    (Call::Sync(File::Journal), 5, b""),
    (Call::Len(File::Image), 4, b""),
    (Call::Len(File::Journal), 5, b""),
    (Call::Write(File::Image, 1, 703), 4, b""),
    (Call::Say, 6, b"create"),
];

#[test]
fn a_failed_call_ends_the_creation(rt: HostRuntime) -> Result<(), Fail> {
    let alloc = rt.alloc();
    let mut whole = MemRig::new(alloc, b"", b"")?;
    check_run(&rt, alloc, &mut whole, (CREATE, b""), (0, CREATED))?;
    for (call, status, said) in FAILED.iter() {
        let mut rig = failing_rig(alloc, b"", number_of(&whole, *call)?)?;
        check_run(&rt, alloc, &mut rig, (CREATE, b""), (*status, said))?;
    }
    let mut rig = failing_rig(alloc, b"", NEVER)?;
    check_run(&rt, alloc, &mut rig, (CREATE, b""), (0, CREATED))
}
