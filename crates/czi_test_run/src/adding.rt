//! Tests of subblocks that are added and replaced: what scripts say and leave, and what crashes and failures in each call leave.

use crate::calls::{SELECTOR, Told, check_crashes, check_failed, check_listed, number_of};
use crate::devices::{NEVER, check_files};
use crate::images::{PLAIN, TAILED};
use crate::outcomes::{NO_TILES, TILE, outcome, outcome_over, ran, rig_of};
use crate::scripts::{Misfit, NONE, check_misfit};
use czi_rig::{Call, File, MemRig, Pick};
use czi_sample::places::*;
use czi_sample::{ONE_TILE, ONE_TILE_WITH_ROOM, Part, Segment, image_of};
use std::alloc::Global;
use std::process::Abort;
use std::test::Fail;

// It adds the one tile.
const ADD: &[u8] = b"add pixel=0 dims=C0,X0:4,Y0:2 meta=0 data=8 att=0\nABCDEFGH\n";

// It breaks off behind that.
const BROKEN_OFF: &[u8] = b"add pixel=0 dims=C0,X0:4,Y0:2 meta=0 data=8 att=0\nABCDEFGH\nbad\n";

// A script: the image that it edits, the status and what is said, and what `list` says afterwards.
type Row = (
    &'static [Segment<'static>],
    &'static [u8],
    u8,
    &'static [u8],
    &'static [u8],
);

static ROWS: [Row; 9] = [
    // The subblock goes behind the directory, which has no room, and the new one with room for more behind that.
    (
        PLAIN,
        b"add pixel=0 dims=C0,X0:4,Y0:2 meta=0 data=8 att=0\nABCDEFGH\nlist\nmap\ncheck\n",
        0,
        b"ok 1\ntiles 1\ntile 0 704 pixel=0 comp=0 dims=C0:1:1,X0:4:4,Y0:2:2\nlength 2304\nruns 1\nrun 544 160\nheld 0\ncheck live=3 runs=1 unknown=0 tail=0\n",
        TILE,
    ),
    // Another subblock has the key.
    (
        PLAIN,
        b"add pixel=0 dims=C0,X0:4,Y0:2 meta=0 data=8 att=0\nABCDEFGH\nadd pixel=3 comp=1 dims=Y0:2,C0,X0:4 meta=0 data=8 att=0\nABCDEFGH\nmap\n",
        0,
        b"ok 1\nno duplicate 0\nlength 2304\nruns 1\nrun 544 160\nheld 0\n",
        TILE,
    ),
    // The span of a removed subblock is held back, and so the next one goes past the end.
    (
        PLAIN,
        b"add pixel=0 dims=C0,X0:4,Y0:2 meta=0 data=8 att=0\nABCDEFGH\nremove dims=C0,X0:4,Y0:2\nadd pixel=0 dims=C1,X0:4,Y0:2 meta=0 data=8 att=0\nABCDEFGH\nmap\n",
        0,
        b"ok 1\nok 2\nok 3\nlength 2624\nruns 1\nrun 544 160\nheld 1\nheld 704 320\n",
        b"tiles 1\ntile 0 2304 pixel=0 comp=0 dims=C1:1:1,X0:4:4,Y0:2:2\n",
    ),
    // The new subblock doesn't take the place of the old one, and the directory stays.
    (
        PLAIN,
        b"add pixel=0 dims=C0,X0:4,Y0:2 meta=0 data=8 att=0\nABCDEFGH\nreplace pixel=1 dims=C0,X0:4,Y0:2 meta=100 data=16 att=0\n01234567890123456789012345678901234567890123456789012345678901234567890123456789012345678901234567890123456789abcdef\nmap\n",
        0,
        b"ok 1\nok 2\nlength 2720\nruns 1\nrun 544 160\nheld 1\nheld 704 320\n",
        b"tiles 1\ntile 0 2304 pixel=1 comp=0 dims=C0:1:1,X0:4:4,Y0:2:2\n",
    ),
    // The first of three is removed: the others close up, and the directory has room for all of them.
    (
        PLAIN,
        b"add pixel=0 dims=C0,X0:4,Y0:2 meta=0 data=8 att=0\nABCDEFGH\nadd pixel=0 dims=C1,X0:4,Y0:2 meta=0 data=8 att=0\nABCDEFGH\nadd pixel=0 dims=C2,X0:4,Y0:2 meta=0 data=8 att=0\nABCDEFGH\nremove dims=C0,X0:4,Y0:2\nmap\n",
        0,
        b"ok 1\nok 2\nok 3\nok 4\nlength 2944\nruns 1\nrun 544 160\nheld 1\nheld 704 320\n",
        b"tiles 2\ntile 0 2304 pixel=0 comp=0 dims=C1:1:1,X0:4:4,Y0:2:2\ntile 1 2624 pixel=0 comp=0 dims=C2:1:1,X0:4:4,Y0:2:2\n",
    ),
    (
        PLAIN,
        b"add pixel=0 comp=4 dims=X0:4,Y0:2 meta=0 data=3 att=0\nxyz\nremove dims=X0:4,Y0:2\nreplace pixel=0 dims=X0:4,Y0:2 meta=0 data=3 att=0\nxyz\n",
        0,
        b"ok 1\nok 2\nno key\n",
        NO_TILES,
    ),
    (
        TAILED,
        b"check\nadd pixel=0 dims=C0,X0:4,Y0:2 meta=0 data=8 att=0\nABCDEFGH\nmap\n",
        0,
        b"check live=2 runs=0 unknown=0 tail=100\nok 1\nlength 2432\nruns 1\nrun 544 160\nheld 0\n",
        b"tiles 1\ntile 0 832 pixel=0 comp=0 dims=C0:1:1,X0:4:4,Y0:2:2\n",
    ),
    // The second payload is cut short, or its line feed is missing.
    (
        PLAIN,
        b"add pixel=0 dims=C0,X0:4,Y0:2 meta=0 data=8 att=0\nABCDEFGH\nadd pixel=0 dims=C1,X0:4,Y0:2 meta=0 data=8 att=0\nABC",
        3,
        b"ok 1\nscript 2 cut\n",
        TILE,
    ),
    (
        PLAIN,
        b"add pixel=0 dims=C0,X0:4,Y0:2 meta=0 data=8 att=0\nABCDEFGH\nadd pixel=0 dims=C1,X0:4,Y0:2 meta=0 data=8 att=0\nABCDEFGHI\n",
        3,
        b"ok 1\nscript 2 tail\n",
        TILE,
    ),
];

#[test]
fn subblocks_are_added_and_replaced(rt: HostRuntime) -> Result<(), Fail> {
    let alloc = rt.alloc();
    for (segments, script, status, said, listed) in ROWS.iter() {
        let rig = ran(&rt, alloc, segments, script, (*status, said))?;
        check_listed(&rt, alloc, &rig, listed)?;
    }
    Ok(())
}

// A line, how long its payload is, and what is said of it: the payload is read, and not kept.
static LONG: [(&[u8], usize, &[u8]); 4] = [
    (
        b"add pixel=0 dims=C0,X0:4,Y0:2 meta=16777217 data=0 att=0\n",
        16_777_217,
        b"no long 16777217 16777216\ntiles 0\n",
    ),
    (
        b"attach guid=00112233-4455-6677-8899-aabbccddeeff type=TXT name=EventList data=67108865\n",
        67_108_865,
        b"no long 67108865 67108864\ntiles 0\n",
    ),
    (b"meta xml=0 att=0\n", 0, b"ok 1\ntiles 0\n"),
    (
        b"meta xml=16777217 att=0\n",
        16_777_217,
        b"no long 16777217 16777216\ntiles 0\n",
    ),
];

fn check_long(
    rt: &impl Abort,
    alloc: Global,
    line: &[u8],
    len: usize,
    said: &[u8],
) -> Result<(), Fail> {
    let mut script = Vec::from_slice(alloc, line)?;
    script.resize(line.len().saturating_add(len), b'a')?;
    script.extend_from_slice(b"\nlist\n")?;
    let _ = ran(rt, alloc, PLAIN, &script, (0, said))?;
    Ok(())
}

#[test]
fn a_payload_past_its_limit_is_read_and_refused(rt: HostRuntime) -> Result<(), Fail> {
    for (line, len, said) in LONG.iter() {
        check_long(&rt, rt.alloc(), line, *len, said)?;
    }
    Ok(())
}

// These bytes stand at a place.
fn stand_at(bytes: &[u8], at: usize, part: &[u8]) -> bool {
    at <= bytes.len() && bytes[at..].starts_with(part)
}

// What of the journal an addition leaves: slot B is selected, with the length 2304 and four links, the first of which is at
// place 84.
static COMMITTED: [Part; 2] = [
    (SELECTOR_BYTE, &[1]),
    (
        SLOT_B + RECORD_LENGTH,
        &[0, 9, 0, 0, 0, 0, 0, 0, 4, 0, 0, 0, 84, 0, 0, 0],
    ),
];

#[test]
fn an_addition_is_written_and_committed(rt: HostRuntime) -> Result<(), Fail> {
    let alloc = rt.alloc();
    let rig = ran(&rt, alloc, PLAIN, BROKEN_OFF, (3, b"ok 1\nscript 2 word\n"))?;
    let image = image_of(alloc, &ONE_TILE_WITH_ROOM)?;
    let journal = rig.content(File::Journal);
    assert!(rt; rig.content(File::Image) == image.as_slice() && journal.len() == 524_352);
    for (at, part) in COMMITTED.iter() {
        assert!(rt; stand_at(journal, *at, part));
    }
    Ok(())
}

// A run of the script that adds the one tile.
fn whole_run(rt: &impl Abort, alloc: Global) -> Result<MemRig, Fail> {
    ran(rt, alloc, PLAIN, ADD, (0, b"ok 1\n"))
}

/// What a crash in each call of a run leaves: its document before, or the one after.
pub(crate) fn check_each_crash(
    rt: &impl Abort,
    alloc: Global,
    rig: &MemRig,
    told: Told,
) -> Result<(), Fail> {
    let selector = number_of(rig, SELECTOR)?;
    for number in 0..rig.calls() {
        check_crashes(rt, alloc, rig, (number, selector), told)?;
    }
    Ok(())
}

#[test]
fn a_crash_in_any_call_leaves_the_addition_done_or_not(rt: HostRuntime) -> Result<(), Fail> {
    let alloc = rt.alloc();
    let rig = whole_run(&rt, alloc)?;
    check_each_crash(&rt, alloc, &rig, ("list", NO_TILES, TILE))
}

const REPLACED: &[u8] = b"tiles 1\ntile 0 1280 pixel=1 comp=0 dims=C0:1:1,X0:4:4,Y0:2:2\n";

#[test]
fn a_crash_in_any_call_leaves_the_old_subblock_or_the_new_one(rt: HostRuntime) -> Result<(), Fail> {
    let alloc = rt.alloc();
    let mut rig = rig_of(alloc, &ONE_TILE, NEVER)?;
    let script = b"replace pixel=1 dims=C0,X0:4,Y0:2 meta=0 data=8 att=0\nabcdefgh\n";
    let status = outcome(alloc, &["F", "edit"], script, &mut rig)?;
    assert!(rt; status == 0 && rig.said() == b"ok 1\n".as_slice());
    check_each_crash(&rt, alloc, &rig, ("list", TILE, REPLACED))
}

// The second write of byte 100, which says that the links are on the disk.
fn cleared(rig: &MemRig) -> Result<u64, Fail> {
    let first = number_of(rig, PENDING)?;
    for number in first.saturating_add(1)..rig.calls() {
        if rig.call(number) == PENDING {
            return Ok(number);
        }
    }
    Err(Fail::new("no such call"))
}

const PENDING: Call = Call::Write(File::Image, 100, 1);

#[test]
fn a_recovery_that_is_stopped_recovers_again(rt: HostRuntime) -> Result<(), Fail> {
    let alloc = rt.alloc();
    let rig = whole_run(&rt, alloc)?;
    let number = cleared(&rig)?;
    assert!(rt; number < rig.calls());
    let (image, journal) = rig.crash(number, Pick::Fill(0x57, true))?;
    let mut again = MemRig::new(alloc, &image, &journal)?;
    let status = outcome(alloc, &["F", "list"], b"", &mut again)?;
    assert!(rt; status == 0 && again.said() == TILE);
    for number in 0..again.calls() {
        check_crashes(&rt, alloc, &again, (number, 0), ("list", TILE, TILE))?;
    }
    Ok(())
}

// How long the image is made, what is written over the image and over the journal, and what `list` answers then. Slot B is
// selected: its record has the length 2304 and four links, the last of which ends at 262392.
static MISFITS: [Misfit; 5] = [
    (2304, NONE, NONE, 0, TILE),
    (1000, NONE, NONE, 2, b"refused short 1000 2304\n"),
    (
        2304,
        (FILE_GUID, &[0; 16]),
        NONE,
        2,
        b"refused foreign 00112233-4455-6677-8899-aabbccddeeff 00000000-0000-0000-0000-000000000000\n",
    ),
    (2304, NONE, (SLOT_B, &[9]), 2, b"refused version 9\n"),
    (
        2304,
        NONE,
        (SLOT_B + RECORD_COUNT, &[5]),
        2,
        b"refused journal 262392\n",
    ),
];

#[test]
fn a_journal_of_an_addition_refuses_what_does_not_fit(rt: HostRuntime) -> Result<(), Fail> {
    let alloc = rt.alloc();
    let rig = ran(&rt, alloc, PLAIN, BROKEN_OFF, (3, b"ok 1\nscript 2 word\n"))?;
    for misfit in MISFITS.iter() {
        check_misfit(&rt, alloc, &rig, misfit)?;
    }
    Ok(())
}

// The number of the first write of a file.
fn first_write(rig: &MemRig, file: File) -> Result<u64, Fail> {
    for number in 0..rig.calls() {
        if let Call::Write(written, _, _) = rig.call(number) {
            if written == file {
                return Ok(number);
            }
        }
    }
    Err(Fail::new("no such call"))
}

// An addition in which the call with this number fails.
fn check_addition_failed(
    rt: &impl Abort,
    alloc: Global,
    failing: u64,
    want: (u8, &[u8]),
    listed: &[u8],
) -> Result<(), Fail> {
    let mut rig = rig_of(alloc, PLAIN, failing)?;
    check_failed(rt, alloc, &mut rig, ADD, want, listed)
}

#[test]
fn a_failed_call_stops_the_addition(rt: HostRuntime) -> Result<(), Fail> {
    let alloc = rt.alloc();
    let whole = whole_run(&rt, alloc)?;
    let (image, journal) = (
        first_write(&whole, File::Image)?,
        first_write(&whole, File::Journal)?,
    );
    check_addition_failed(&rt, alloc, image, (4, b""), NO_TILES)?;
    check_addition_failed(&rt, alloc, journal, (5, b""), NO_TILES)?;
    let say = number_of(&whole, Call::Say)?;
    check_addition_failed(&rt, alloc, say, (6, b"ok "), TILE)?;
    let mut rig = rig_of(alloc, PLAIN, NEVER)?;
    let status = outcome_over(alloc, &["F", "edit"], ADD, 0, &mut rig)?;
    let image = image_of(alloc, PLAIN)?;
    assert!(rt; status == 7 && rig.said() == b"".as_slice());
    check_files(&rt, &rig, &image, b"");
    Ok(())
}
