//! `czi_creation`: what creating makes of two files, and what a crash inside it leaves.

use crate::files::{PICKS, Part, file_of};
use czi_creation::{CreationFault, begin, make};
use czi_opening::{ImageRefusal, OpenError, open};
use czi_rig::{Call, File, MemRig, Rig};
use std::alloc::Global;
use std::process::Abort;
use std::test::Fail;

// A GUID in its stored order.
static GUID: [u8; 16] = [7; 16];

// The empty document with that GUID.
static EMPTY: [Part; 10] = [
    (0, b"ZISRAWFILE"),
    (16, &[0, 2]),
    (24, &[0, 2]),
    (32, &[1]),
    (48, &[7; 16]),
    (64, &[7; 16]),
    (84, &[0x20, 2]),
    (544, b"ZISRAWDIRECTORY"),
    (560, &[128]),
    (568, &[128]),
];

// A journal whose slot A has a record without links, for an image of 704 bytes.
static JOURNAL: [Part; 4] = [(0, &[0x5a]), (64, &[1]), (68, &[7; 16]), (84, &[0xc0, 2])];

// An empty image beside that journal, with some bytes of it written over.
fn beside(rt: &impl Abort, alloc: Global, changes: &[Part]) -> Result<MemRig, Fail> {
    let journal = file_of(rt, alloc, 524352, &JOURNAL, changes)?;
    Ok(MemRig::new(alloc, &[], &journal)?)
}

// Creates the empty document.
fn create<R: Rig>(rig: &mut R) -> Result<(), CreationFault> {
    begin(rig)?;
    make(rig, &GUID)
}

// The image is the empty document.
fn check_created(rt: &impl Abort, alloc: Global, rig: &MemRig) -> Result<(), Fail> {
    let want = file_of(rt, alloc, 704, &EMPTY, &[])?;
    assert!(rt; rig.content(File::Image) == want.as_slice());
    Ok(())
}

#[test]
fn an_empty_image_becomes_the_empty_document(rt: HostRuntime) -> Result<(), Fail> {
    let alloc = rt.alloc();
    let mut rig = MemRig::new(alloc, &[], &[])?;
    assert!(rt; create(&mut rig) == Ok(()));
    check_created(&rt, alloc, &rig)?;
    assert!(rt; rig.content(File::Journal).is_empty());
    assert!(rt; create(&mut rig) == Err(CreationFault::NotEmpty(704)));
    check_created(&rt, alloc, &rig)
}

// The journal, with these bytes written over, is then this long.
fn check_journal(
    rt: &impl Abort,
    alloc: Global,
    changes: &[Part],
    length: usize,
) -> Result<(), Fail> {
    let mut rig = beside(rt, alloc, changes)?;
    assert!(rt; create(&mut rig) == Ok(()));
    check_created(rt, alloc, &rig)?;
    assert!(rt; rig.content(File::Journal).len() == length);
    Ok(())
}

#[test]
fn a_journal_that_counts_is_sealed(rt: HostRuntime) -> Result<(), Fail> {
    let alloc = rt.alloc();
    check_journal(&rt, alloc, &[], 1)?;
    check_journal(&rt, alloc, &[(64, &[9])], 1)?;
    check_journal(&rt, alloc, &[(84, &[9, 0])], 1)?;
    check_journal(&rt, alloc, &[(0, &[0x5b])], 524352)
}

// These files open, to an image of 704 bytes, or they are refused as they may be.
fn check_left(rt: &impl Abort, alloc: Global, image: &[u8], journal: &[u8]) -> Result<(), Fail> {
    let mut rig = MemRig::new(alloc, image, journal)?;
    let fits = match open(alloc, &mut rig) {
        Ok(opened) => opened.index.length == 704 && opened.index.tiles.is_empty(),
        Err(OpenError::Refused(refusal)) => refusal == ImageRefusal::NotCzi,
        Err(OpenError::ImageShort { have, need }) => have == 0 && need == 704,
        Err(_) => false,
    };
    assert!(rt; fits);
    Ok(())
}

// So do those that a crash inside a call leaves.
fn check_stops(rt: &impl Abort, alloc: Global, rig: &MemRig, number: u64) -> Result<(), Fail> {
    assert!(rt; number < rig.calls());
    for pick in PICKS.iter() {
        let (image, journal) = rig.crash(number, *pick)?;
        check_left(rt, alloc, &image, &journal)?;
    }
    Ok(())
}

// The fault of a creation in which this call fails.
fn fault_of(call: Call) -> CreationFault {
    match call {
        Call::Len(File::Image) | Call::Write(File::Image, _, _) | Call::Sync(File::Image) => {
            CreationFault::Image
        }
        _ => CreationFault::Journal,
    }
}

// So do those that a creation leaves in which a call fails.
fn check_failure(rt: &impl Abort, alloc: Global, number: u64, call: Call) -> Result<(), Fail> {
    let mut rig = beside(rt, alloc, &[])?;
    rig.fail_call(number)?;
    assert!(rt; create(&mut rig) == Err(fault_of(call)), "in {number}");
    check_left(
        rt,
        alloc,
        rig.content(File::Image),
        rig.content(File::Journal),
    )
}

#[test]
fn no_stop_of_a_creation_leaves_half_a_document(rt: HostRuntime) -> Result<(), Fail> {
    let mut rig = beside(&rt, rt.alloc(), &[])?;
    assert!(rt; create(&mut rig) == Ok(()));
    for number in 0..rig.calls() {
        check_stops(&rt, rt.alloc(), &rig, number)?;
        check_failure(&rt, rt.alloc(), number, rig.call(number))?;
    }
    Ok(())
}
