//! `czi_opening`: what opening makes of two files, and what a crash inside it leaves.

ghost use Rattle.std.specs.Prelude.{IfOk};
ghost use Rattle.std.specs.Option.{ForSome};
ghost use Rattle.czi_rig.specs.Disk.{Everywhere};
ghost use Rattle.czi_rig.specs.State.{known};
ghost use Rattle.czi_opening.specs.Answers.{IsJournal};

use crate::files::{PICKS, Part};
use czi_journal::{Journal, Slot};
use czi_opening::{ImageRefusal, OpenError, close, open};
use czi_rig::{Call, File, MemRig, Rig};
use czi_sample::places::*;
use czi_sample::{EMPTY, GUID, Link, changed, image_of, journal_of, put};
use std::alloc::{AllocError, Global};
use std::process::Abort;
use std::test::Fail;

// The pointer to the directory of the document without subblocks.
static LINKS: [Link; 1] = [(DIRECTORY_POSITION as u64, &[0x20, 2])];

// That document in 800 bytes without the pointer, with changes.
fn image_with(alloc: Global, changes: &[Part]) -> Result<Vec<u8>, AllocError> {
    let mut image = changed(
        alloc,
        &image_of(alloc, &EMPTY)?,
        800,
        &[(DIRECTORY_POSITION, &[0, 0])],
    )?;
    put(&mut image, changes)?;
    Ok(image)
}

// A journal that commits 704 bytes and the pointer, with changes.
fn journal_with(alloc: Global, changes: &[Part]) -> Result<Vec<u8>, AllocError> {
    let journal = journal_of(alloc, 704, &LINKS)?;
    changed(alloc, &journal, journal.len(), changes)
}

// That image, 96 bytes longer than the journal commits, beside that journal.
fn two_files(alloc: Global, in_image: &[Part], in_journal: &[Part]) -> Result<MemRig, AllocError> {
    let image = image_with(alloc, in_image)?;
    MemRig::new(alloc, &image, &journal_with(alloc, in_journal)?)
}

// The image once it is opened: 704 bytes, and the file header points at the directory.
fn check_recovered(rt: &impl Abort, alloc: Global, rig: &MemRig) -> Result<(), Fail> {
    let want = image_of(alloc, &EMPTY)?;
    assert!(rt; rig.content(File::Image) == want.as_slice());
    Ok(())
}

// Opens that image beside that journal, which then is armed.
fn open_armed<R: Rig>(rt: &impl Abort, alloc: Global, rig: &mut R) -> Result<Journal, Fail>
    ensures { IfOk result (λ journal. ForSome (known (R.state rig.new) File.Journal) (Everywhere (IsJournal journal))) }
{
    let Ok(opened) = open(alloc, rig) else {
        return Err(Fail::new("not opened"));
    };
    let directory = opened.index.directory.ok_or("no directory")?;
    assert!(rt; opened.index.length == 704 && directory.span.at == 544);
    assert!(rt; opened.links.count() == 0);
    assert!(rt; opened.journal.armed && opened.journal.selected == Slot::B);
    Ok(opened.journal)
}

// Two files open, and the image is then the recovered one.
fn check_opens(rt: &impl Abort, alloc: Global, image: &[u8], journal: &[u8]) -> Result<(), Fail> {
    let mut rig = MemRig::new(alloc, image, journal)?;
    let _ = open_armed(rt, alloc, &mut rig)?;
    check_recovered(rt, alloc, &rig)
}

#[test]
fn a_void_journal_leaves_the_image(rt: HostRuntime) -> Result<(), Fail> {
    let alloc = rt.alloc();
    let mut rig = two_files(alloc, &[], &[(0, &[0])])?;
    let Ok(opened) = open(alloc, &mut rig) else {
        return Err(Fail::new("not opened"));
    };
    assert!(rt; opened.index.directory.is_none() && opened.index.length == 800);
    assert!(rt; !opened.journal.armed);
    let image = image_with(alloc, &[])?;
    assert!(rt; rig.content(File::Image) == image.as_slice());
    let calls = rig.calls();
    assert!(rt; close(&mut rig, opened.journal).is_ok() && rig.calls() == calls);
    Ok(())
}

#[test]
fn a_journal_that_counts_is_recovered(rt: HostRuntime) -> Result<(), Fail> {
    let alloc = rt.alloc();
    let mut rig = two_files(alloc, &[(UPDATE_PENDING, &[1])], &[])?;
    let journal = open_armed(&rt, alloc, &mut rig)?;
    check_recovered(&rt, alloc, &rig)?;
    let stands = journal_with(alloc, &[])?;
    assert!(rt; rig.content(File::Journal) == stands.as_slice());
    assert!(rt; close(&mut rig, journal).is_ok());
    assert!(rt; rig.content(File::Journal) == [0].as_slice());
    Ok(())
}

// Opening is refused with some bytes of the image and of the journal written over, and the image is then left as it was, or
// isn't.
fn check_refusal(
    rt: &impl Abort,
    alloc: Global,
    in_image: &[Part],
    in_journal: &[Part],
    error: OpenError,
    kept: bool,
) -> Result<(), Fail> {
    let mut rig = two_files(alloc, in_image, in_journal)?;
    assert!(rt; open(alloc, &mut rig).err() == Some(error));
    let image = image_with(alloc, in_image)?;
    assert!(rt; (rig.content(File::Image) == image.as_slice()) == kept);
    Ok(())
}

#[test]
fn each_refusal_has_its_values(rt: HostRuntime) -> Result<(), Fail> {
    let alloc = rt.alloc();
    let short = OpenError::ImageShort {
        have: 800,
        need: 801,
    };
    let foreign = OpenError::ForeignJournal {
        journal: [9; 16],
        image: GUID,
    };
    let part = OpenError::Refused(ImageRefusal::MultiPart(3));
    let pending = OpenError::Refused(ImageRefusal::Pending(1));
    let version = OpenError::JournalVersion(2);
    let bad = OpenError::BadJournal(262228);
    check_refusal(&rt, alloc, &[], &[(SLOT_B, &[2])], version, true)?;
    check_refusal(
        &rt,
        alloc,
        &[],
        &[(SLOT_B + RECORD_LENGTH, &[9, 0])],
        bad,
        true,
    )?;
    // too short, and of another: the length is told first
    let changes: [Part; 2] = [
        (SLOT_B + RECORD_LENGTH, &[0x21, 3]),
        (SLOT_B + RECORD_GUID, &[9]),
    ];
    check_refusal(&rt, alloc, &[], &changes, short, true)?;
    check_refusal(
        &rt,
        alloc,
        &[],
        &[(SLOT_B + RECORD_GUID, &[9; 16])],
        foreign,
        true,
    )?;
    check_refusal(&rt, alloc, &[(FILE_PART, &[3])], &[], part, false)?;
    check_refusal(
        &rt,
        alloc,
        &[(UPDATE_PENDING, &[1])],
        &[(0, &[0])],
        pending,
        true,
    )?;
    Ok(())
}

// A crash inside a call of an opening leaves files that open.
fn check_stops(rt: &impl Abort, alloc: Global, rig: &MemRig, number: u64) -> Result<(), Fail> {
    assert!(rt; number < rig.calls());
    for pick in PICKS.iter() {
        let (image, journal) = rig.crash(number, *pick)?;
        check_opens(rt, alloc, &image, &journal)?;
    }
    Ok(())
}

// The error of an opening in which this call fails.
fn error_of(call: Call) -> OpenError {
    match call {
        Call::Len(File::Journal) | Call::Read(File::Journal, _, _) | Call::Sync(File::Journal) => {
            OpenError::JournalDevice
        }
        _ => OpenError::ImageDevice,
    }
}

// An opening in which a call fails leaves files that open.
fn check_failure(rt: &impl Abort, alloc: Global, number: u64, call: Call) -> Result<(), Fail> {
    let mut rig = two_files(alloc, &[], &[])?;
    rig.fail_call(number)?;
    assert!(rt;
        open(alloc, &mut rig).err() == Some(error_of(call)),
        "in {number}"
    );
    check_opens(
        rt,
        alloc,
        rig.content(File::Image),
        rig.content(File::Journal),
    )
}

#[test]
fn any_stop_of_an_opening_can_be_opened(rt: HostRuntime) -> Result<(), Fail> {
    let mut rig = two_files(rt.alloc(), &[], &[])?;
    assert!(rt; open(rt.alloc(), &mut rig).is_ok());
    for number in 0..rig.calls() {
        check_stops(&rt, rt.alloc(), &rig, number)?;
        check_failure(&rt, rt.alloc(), number, rig.call(number))?;
    }
    Ok(())
}
