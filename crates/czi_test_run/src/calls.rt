//! Tests of a crash and of a failure in each call of a script.

use crate::devices::NEVER;
use crate::outcomes::{NO_TILES, TILE, check_said, outcome};
use crate::scripts::{REPLIES, SCRIPT, one_tile_rig};
use czi_rig::{Call, File, MemRig, Pick};
use std::alloc::Global;
use std::process::Abort;
use std::test::Fail;

/// The number of the first such call.
pub(crate) fn number_of(rig: &MemRig, call: Call) -> Result<u64, Fail> {
    for number in 0..rig.calls() {
        if rig.call(number) == call {
            return Ok(number);
        }
    }
    Err(Fail::new("no such call"))
}

// A run of the script.
fn whole_run(rt: &impl Abort, alloc: Global) -> Result<MemRig, Fail> {
    let mut rig = one_tile_rig(alloc, NEVER)?;
    let status = outcome(alloc, &["F", "edit"], SCRIPT, &mut rig)?;
    assert!(rt; status == 0);
    Ok(rig)
}

/// The write of the byte that commits the removal.
pub(crate) const SELECTOR: Call = Call::Write(File::Journal, 1, 1);

static PICKS: [Pick; 4] = [
    Pick::Old,
    Pick::New,
    Pick::Fill(0x57, true),
    Pick::Fill(0xFF, false),
];

/// A command, and what it says of the document before a script and after it.
pub(crate) type Told<'a> = (&'a str, &'a [u8], &'a [u8]);

// What the command says of what a crash in the call leaves.
fn check_crash(
    rt: &impl Abort,
    alloc: Global,
    rig: &MemRig,
    (number, pick): (u64, Pick),
    (command, said): (&str, &[u8]),
) -> Result<(), Fail> {
    assert!(rt; number < rig.calls());
    let (image, journal) = rig.crash(number, pick)?;
    check_said(rt, alloc, command, (&image, &journal), (0, said))
}

/// The same for each pick, where the call with the number `selector` commits.
pub(crate) fn check_crashes(
    rt: &impl Abort,
    alloc: Global,
    rig: &MemRig,
    (number, selector): (u64, u64),
    (command, old, new): Told,
) -> Result<(), Fail> {
    let within = number <= selector.saturating_add(1);
    for pick in PICKS.iter() {
        let before = number < selector || (within && *pick != Pick::New);
        let said = if before { old } else { new };
        check_crash(rt, alloc, rig, (number, *pick), (command, said))?;
    }
    Ok(())
}

#[test]
fn a_crash_in_any_call_leaves_the_document_before_or_after(rt: HostRuntime) -> Result<(), Fail> {
    let alloc = rt.alloc();
    let rig = whole_run(&rt, alloc)?;
    let selector = number_of(&rig, SELECTOR)?;
    for number in 0..rig.calls() {
        check_crashes(
            &rt,
            alloc,
            &rig,
            (number, selector),
            ("list", TILE, NO_TILES),
        )?;
    }
    Ok(())
}

// A call in which the run crashes, and what `list` then answers without the journal.
static ALONE: [(Call, u8, &[u8]); 3] = [
    (SELECTOR, 0, TILE),
    (Call::Write(File::Image, 1048, 8), 2, b"refused pending 1\n"),
    (Call::Say, 0, NO_TILES),
];

fn check_alone(
    rt: &impl Abort,
    alloc: Global,
    rig: &MemRig,
    call: Call,
    want: (u8, &[u8]),
) -> Result<(), Fail> {
    let number = number_of(rig, call)?;
    assert!(rt; number < rig.calls());
    let (image, _) = rig.crash(number, Pick::Fill(0x57, true))?;
    check_said(rt, alloc, "list", (&image, b""), want)
}

#[test]
fn the_image_alone_says_that_it_waits_for_its_journal(rt: HostRuntime) -> Result<(), Fail> {
    let alloc = rt.alloc();
    let rig = whole_run(&rt, alloc)?;
    for (call, status, said) in ALONE.iter() {
        check_alone(&rt, alloc, &rig, *call, (*status, said))?;
    }
    Ok(())
}

// The call that fails, the status and what is said, and what `list` says then.
static FAILED: [(Call, u8, &[u8], &[u8]); 6] = [
    (Call::Sync(File::Image), 4, b"", TILE),
    // The journal is armed.
    (Call::Write(File::Journal, 0, 1), 5, b"", TILE),
    (SELECTOR, 5, b"", NO_TILES),
    (Call::Write(File::Image, 544, 32), 4, b"", NO_TILES),
    (Call::Say, 6, b"ok ", NO_TILES),
    // The journal is sealed.
    (Call::Cut(File::Journal, 1), 5, REPLIES, NO_TILES),
];

/// What `list` says of what a run has left.
pub(crate) fn check_listed(
    rt: &impl Abort,
    alloc: Global,
    rig: &MemRig,
    said: &[u8],
) -> Result<(), Fail> {
    let files = (rig.content(File::Image), rig.content(File::Journal));
    check_said(rt, alloc, "list", files, (0, said))
}

/// A run of a script in which a call fails, and what `list` says then.
pub(crate) fn check_failed(
    rt: &impl Abort,
    alloc: Global,
    rig: &mut MemRig,
    script: &[u8],
    (status, said): (u8, &[u8]),
    listed: &[u8],
) -> Result<(), Fail> {
    let answer = outcome(alloc, &["F", "edit"], script, rig)?;
    assert!(rt; answer == status && rig.said() == said);
    check_listed(rt, alloc, rig, listed)
}

#[test]
fn a_failed_call_stops_the_script(rt: HostRuntime) -> Result<(), Fail> {
    let alloc = rt.alloc();
    let whole = whole_run(&rt, alloc)?;
    for (call, status, said, listed) in FAILED.iter() {
        let failing = number_of(&whole, *call)?;
        let mut rig = one_tile_rig(alloc, failing)?;
        check_failed(&rt, alloc, &mut rig, SCRIPT, (*status, said), listed)?;
    }
    Ok(())
}
