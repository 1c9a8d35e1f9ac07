//! Tests of the engine.

ghost use Rattle.std.specs.Prelude.{IsFalse};
ghost use Rattle.czi_rig.specs.MemRig.{state_in};
ghost use Rattle.czi_engine.specs.Standing.{StandsOnRig};

use crate::devices::check_files;
use czi_doc::{EntryInfo, read_dims};
use czi_engine::{EditError, Engine, ImageRefusal, OpenError};
use czi_image::{Index, Tile};
use czi_num::Span;
use czi_rig::{File, MemRig};
use czi_sample::places::*;
use czi_sample::{
    EMPTY, GUID, Link, ONE_TILE, ONE_TILE_WITH_ROOM, PIXELS, Part, Segment, changed, image_of,
    journal_of,
};
use std::alloc::{AllocError, Global};
use std::process::Abort;
use std::test::Fail;

// An image of 704 bytes: 160 bytes at 544 are DELETED.
static IMAGE: [Segment; 1] = [Segment::Deleted(128)];

// What its journal writes over the pointer to the directory.
static LINKS: [Link; 1] = [(DIRECTORY_POSITION as u64, &[0, 0])];

// That image in so many bytes, with changes.
fn image_in(alloc: Global, len: usize, changes: &[Part]) -> Result<Vec<u8>, AllocError> {
    changed(alloc, &image_of(alloc, &IMAGE)?, len, changes)
}

// A rig over an image, and no journal.
fn rig_of(alloc: Global, segments: &[Segment]) -> Result<MemRig, AllocError> {
    MemRig::new(alloc, &image_of(alloc, segments)?, b"")
}

// The engine stands on an image of this length, after so many edits.
fn check_standing(rt: &impl Abort, engine: &Engine, length: u64, number: u64) {
    assert!(rt; engine.length() == length && engine.number() == number && !engine.down());
}

// The image has no subblock and no directory, and these spans are free.
fn check_empty(rt: &impl Abort, engine: &Engine, free: &[Span]) -> Result<(), Fail> {
    let runs = engine.map().runs()?;
    assert!(rt; runs.as_slice() == free && engine.map().held().is_empty());
    assert!(rt; engine.entries().is_empty() && engine.index().directory.is_none());
    Ok(())
}

#[test]
fn an_empty_document_is_opened_and_closed(rt: HostRuntime) -> Result<(), Fail> {
    let alloc = rt.alloc();
    let mut rig = rig_of(alloc, &IMAGE)?;
    let Ok(engine) = Engine::open(alloc, &mut rig) else {
        return Err(Fail::new("not opened"));
    };
    check_standing(&rt, &engine, 704, 0);
    check_empty(&rt, &engine, &[Span { at: 544, len: 160 }])?;
    let calls = rig.calls();
    let sealed = engine.seal(&mut rig);
    assert!(rt; sealed.is_ok() && rig.calls() == calls);
    Ok(())
}

// A rig whose image is longer than its journal says, with another pointer to the directory and an update pending.
fn recoverable(alloc: Global, journal: &[u8]) -> Result<MemRig, AllocError> {
    let changes: [Part; 2] = [(DIRECTORY_POSITION, &[9]), (UPDATE_PENDING, &[1])];
    MemRig::new(alloc, &image_in(alloc, 800, &changes)?, journal)
}

// The engine on these files is opened, opened again and sealed: the journal stays until then.
fn check_recovered(
    rt: &impl Abort,
    alloc: Global,
    rig: &mut MemRig,
    image: &[u8],
    journal: &[u8],
) -> Result<(), Fail> {
    let Ok(mut engine) = Engine::open(alloc, rig) else {
        return Err(Fail::new("not opened"));
    };
    check_files(rt, rig, image, journal);
    let Ok(()) = engine.reopen(rig) else {
        return Err(Fail::new("not opened again"));
    };
    check_standing(rt, &engine, 704, 0);
    let sealed = engine.seal(rig);
    assert!(rt; sealed.is_ok());
    check_files(rt, rig, image, &[0]);
    Ok(())
}

#[test]
fn a_journal_that_counts_is_recovered_and_sealed(rt: HostRuntime) -> Result<(), Fail> {
    let alloc = rt.alloc();
    let image = image_of(alloc, &IMAGE)?;
    let journal = journal_of(alloc, 704, &LINKS)?;
    let mut rig = recoverable(alloc, &journal)?;
    check_recovered(&rt, alloc, &mut rig, &image, &journal)
}

// The image of 800 bytes beside the journal, both with changes, isn't opened for this reason.
fn check_refused(
    rt: &impl Abort,
    alloc: Global,
    in_image: &[Part],
    in_journal: &[Part],
    why: OpenError,
) -> Result<(), Fail> {
    let image = image_in(alloc, 800, in_image)?;
    let journal = journal_of(alloc, 704, &LINKS)?;
    let journal = changed(alloc, &journal, journal.len(), in_journal)?;
    let mut rig = MemRig::new(alloc, &image, &journal)?;
    let opened = Engine::open(alloc, &mut rig);
    assert!(rt; opened.err() == Some(why));
    Ok(())
}

#[test]
fn each_refusal_is_told(rt: HostRuntime) -> Result<(), Fail> {
    let alloc = rt.alloc();
    let version = OpenError::JournalVersion(2);
    check_refused(&rt, alloc, &[], &[(SLOT_B, &[2])], version)?;
    let bad = OpenError::BadJournal(262228);
    check_refused(&rt, alloc, &[], &[(SLOT_B + RECORD_LENGTH, &[9, 0])], bad)?;
    let short = OpenError::ImageShort {
        have: 800,
        need: 801,
    };
    check_refused(
        &rt,
        alloc,
        &[],
        &[(SLOT_B + RECORD_LENGTH, &[0x21, 3])],
        short,
    )?;
    let foreign = OpenError::ForeignJournal {
        journal: [9; 16],
        image: GUID,
    };
    check_refused(
        &rt,
        alloc,
        &[],
        &[(SLOT_B + RECORD_GUID, &[9; 16])],
        foreign,
    )?;
    let pending = OpenError::Refused(ImageRefusal::Pending(1));
    check_refused(&rt, alloc, &[(UPDATE_PENDING, &[1])], &[(0, &[0])], pending)
}

// The next call of the rig fails: the engine is down after it, and up again once it is opened again.
fn check_down(
    rt: &impl Abort,
    alloc: Global,
    engine: &mut Engine,
    rig: &mut MemRig,
) -> Result<(), Fail> {
    rig.fail_call(rig.calls())?;
    let failed = engine.reopen(rig);
    assert!(rt; failed == Err(OpenError::ImageDevice) && engine.down());
    let again = engine.reopen(rig);
    assert!(rt; again.is_ok() && !engine.down());
    Ok(())
}

#[test]
fn an_engine_is_down_until_it_is_opened_again(rt: HostRuntime) -> Result<(), Fail> {
    let alloc = rt.alloc();
    let mut rig = rig_of(alloc, &IMAGE)?;
    let Ok(mut engine) = Engine::open(alloc, &mut rig) else {
        return Err(Fail::new("not opened"));
    };
    check_down(&rt, alloc, &mut engine, &mut rig)
}

// The first removal is accepted. The second finds no key, and makes no call.
fn check_removal(
    rt: &impl Abort,
    alloc: Global,
    engine: &mut Engine,
    rig: &mut MemRig,
) -> Result<(), Fail>
    requires stands { StandsOnRig (state_in rig.old) engine.old.state }
    requires up { IsFalse engine.old.state.down }
{
    let dims = read_dims(alloc, b"C0,X0:4,Y0:2").ok().ok_or("no dims")?;
    let Ok(number) = engine.remove(rig, &dims) else {
        return Err(Fail::new("not removed"));
    };
    let calls = rig.calls();
    let again = engine.remove(rig, &dims);
    assert!(rt; number == 1 && again == Err(EditError::NoKey) && rig.calls() == calls);
    Ok(())
}

// What is free and what is held back once the subblock is removed.
fn check_held(rt: &impl Abort, engine: &Engine) -> Result<(), Fail> {
    let free = [Span { at: 544, len: 160 }];
    let held = [Span { at: 704, len: 320 }];
    let runs = engine.map().runs()?;
    assert!(rt; engine.entries().is_empty() && runs.as_slice() == free.as_slice());
    assert!(rt; engine.map().held() == held.as_slice());
    Ok(())
}

// The directory lies where it lay, with so many bytes.
fn check_directory(rt: &impl Abort, engine: &Engine, len: u64) -> Result<(), Fail> {
    let directory = engine.index().directory.ok_or("no directory")?;
    assert!(rt; directory.span.at == 1024 && directory.span.len == len);
    Ok(())
}

// The subblock of this image is removed: its directory has so many bytes, and stays.
fn check_removed(
    rt: &impl Abort,
    alloc: Global,
    segments: &[Segment],
    directory: u64,
) -> Result<(), Fail> {
    let mut rig = rig_of(alloc, segments)?;
    let len = rig.content(File::Image).len() as u64;
    let Ok(mut engine) = Engine::open(alloc, &mut rig) else {
        return Err(Fail::new("not opened"));
    };
    assert!(rt; engine.entries().len() == 1);
    check_directory(rt, &engine, directory)?;
    check_removal(rt, alloc, &mut engine, &mut rig)?;
    check_standing(rt, &engine, len, 1);
    check_directory(rt, &engine, directory)?;
    check_held(rt, &engine)
}

#[test]
fn a_removal_holds_the_subblock_back(rt: HostRuntime) -> Result<(), Fail> {
    check_removed(&rt, rt.alloc(), &ONE_TILE, 256)?;
    check_removed(&rt, rt.alloc(), &ONE_TILE_WITH_ROOM, 1280)
}

// An engine over the document without subblocks, once one was added.
fn added(alloc: Global, rig: &mut MemRig) -> Result<Engine, Fail> {
    let dims = read_dims(alloc, b"C0,X0:4,Y0:2").ok().ok_or("no dims")?;
    let info = EntryInfo {
        pixel: 0,
        compression: 0,
        pyramid: 0,
        spare: [0; 5],
        dims,
    };
    let Ok(mut engine) = Engine::open(alloc, rig) else {
        return Err(Fail::new("not opened"));
    };
    match engine.add(rig, &info, b"", PIXELS, b"") {
        Ok(1) => Ok(engine),
        _ => Err(Fail::new("not added")),
    }
}

fn same_tiles(one: &[Tile], other: &[Tile]) -> bool {
    one.len() == other.len()
        && one.iter().zip(other).all(|(a, b)| {
            a.info == b.info
                && (a.span, a.head, a.walked) == (b.span, b.head, b.walked)
                && (a.begin, a.meta, a.pixels, a.tail) == (b.begin, b.meta, b.pixels, b.tail)
        })
}

// What two indexes hold, and where it lies.
fn check_same(rt: &impl Abort, one: &Index, other: &Index) {
    assert!(rt; one.header == other.header && one.length == other.length);
    assert!(rt; one.directory == other.directory && same_tiles(&one.tiles, &other.tiles));
    assert!(rt; one.attdir == other.attdir && one.attachments == other.attachments);
    assert!(rt; one.metadata == other.metadata && one.extents == other.extents);
    assert!(rt; one.unknown == other.unknown && one.walk_end == other.walk_end);
}

// An engine is opened again: the files stay, and its index is that of an engine that is opened afresh.
fn check_reopened(
    rt: &impl Abort,
    alloc: Global,
    engine: &mut Engine,
    rig: &mut MemRig,
) -> Result<(), Fail> {
    let image = Vec::from_slice(alloc, rig.content(File::Image))?;
    let journal = Vec::from_slice(alloc, rig.content(File::Journal))?;
    assert!(rt; engine.reopen(rig).is_ok());
    check_files(rt, rig, &image, &journal);
    let mut beside = MemRig::new(alloc, &image, &journal)?;
    let Ok(fresh) = Engine::open(alloc, &mut beside) else {
        return Err(Fail::new("not opened"));
    };
    check_same(rt, engine.index(), fresh.index());
    assert!(rt; fresh.map().runs()? == engine.map().runs()?);
    Ok(())
}

#[test]
fn an_engine_is_opened_again_after_an_addition(rt: HostRuntime) -> Result<(), Fail> {
    let alloc = rt.alloc();
    let mut rig = rig_of(alloc, &EMPTY)?;
    let mut engine = added(alloc, &mut rig)?;
    check_standing(&rt, &engine, 2304, 1);
    check_reopened(&rt, alloc, &mut engine, &mut rig)?;
    check_standing(&rt, &engine, 2304, 1);
    Ok(())
}
