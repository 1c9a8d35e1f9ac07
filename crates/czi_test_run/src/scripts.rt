//! Tests of scripts: what they say and leave, and what an input or a journal that is wrong makes of them.

use crate::devices::{NEVER, check_files, failing_rig};
use crate::images::{ONE_SUBBLOCK, Part, one_tile};
use crate::outcomes::{NO_TILES, ONE, TILE, check_said, outcome_over, ran};
use czi_rig::{File, MemRig};
use czi_sample::changed;
use czi_sample::places::*;
use std::alloc::{AllocError, Global};
use std::process::Abort;
use std::test::Fail;

/// It removes the one tile, lists what is left, and removes it again.
pub(crate) const SCRIPT: &[u8] = b"remove dims=C0,X0:4,Y0:2\n\
    list\n\
    remove dims=C0,X0:4,Y0:2\n";

/// What it says.
pub(crate) const REPLIES: &[u8] = b"ok 1\ntiles 0\nno key\n";

// What `info` says once the tile is removed.
const REMOVED: &[u8] = b"length 1280\n\
    guid 00112233-4455-6677-8899-aabbccddeeff\n\
    directory 1024 256\n\
    tiles 0\n\
    attdir none\n\
    attachments 0\n\
    metadata none\n";

/// A rig over the document with one tile, whose call with this number fails.
pub(crate) fn one_tile_rig(alloc: Global, failing: u64) -> Result<MemRig, AllocError> {
    let image = one_tile(alloc, 1280, &[])?;
    failing_rig(alloc, &image, failing)
}

// Scripts, the status and what is said, how long the journal is then, and what `info` says.
static SCRIPTS: [(&[u8], u8, &[u8], usize, &[u8]); 14] = [
    (SCRIPT, 0, REPLIES, 1, REMOVED),
    (
        b"remove dims=C0,X0:4,Y0:2\nmap\ncheck\n",
        0,
        b"ok 1\nlength 1280\nruns 1\nrun 544 160\nheld 1\nheld 704 320\ncheck live=2 runs=1 unknown=0 tail=0\n",
        1,
        REMOVED,
    ),
    (
        b"remove dims=Y0:2,C0,X0:4\nremove dims=C1,X0:4,Y0:2\n",
        0,
        b"ok 1\nno key\n",
        1,
        REMOVED,
    ),
    (b"", 0, b"", 0, ONE),
    (b"list\n", 0, TILE, 0, ONE),
    (
        b"region pixel=0 layer=1 x=0 y=0 w=4 h=2\nregion pixel=0 layer=1 x=2 y=1 w=3 h=2 plane=C0\n",
        0,
        b"P5\n4 2\n255\nABCDEFGHP5\n3 2\n255\nGH\0\0\0\0",
        0,
        ONE,
    ),
    (
        b"region pixel=1 layer=1 x=0 y=0 w=4 h=2\nregion pixel=0 layer=1 x=0 y=0 w=16385 h=16385\n",
        0,
        b"no mixed 0\nno long 268468225 268435456\n",
        0,
        ONE,
    ),
    (
        b"region pixel=0 layer=1 x=0 y=0 w=4 h=1\nremove dims=C0,X0:4,Y0:2\nregion pixel=0 layer=1 x=0 y=0 w=4 h=1\n",
        0,
        b"P5\n4 1\n255\nABCDok 1\nP5\n4 1\n255\n\0\0\0\0",
        1,
        REMOVED,
    ),
    (b"undo\n", 0, b"no nothing\n", 0, ONE),
    (
        b"remove dims=C0,X0:4,Y0:2\nundo\nundo\nmap\n",
        0,
        b"ok 1\nok 2\nno nothing\nlength 1280\nruns 1\nrun 544 160\nheld 0\n",
        1,
        ONE,
    ),
    (b"repack\n", 3, b"script 1 later\n", 0, ONE),
    (b"list", 3, b"script 1 cut\n", 0, ONE),
    (
        b"remove dims=C0,X0:4,Y0:2\nbad\n",
        3,
        b"ok 1\nscript 2 word\n",
        524_352,
        REMOVED,
    ),
    (
        b"remove dims=C0,X0,Y0:2\nremove dims=C0 X0:4,Y0:2\n",
        3,
        b"no key\nscript 2 field\n",
        0,
        ONE,
    ),
];

#[test]
fn scripts_are_run(rt: HostRuntime) -> Result<(), Fail> {
    let alloc = rt.alloc();
    for (script, status, said, journal, after) in SCRIPTS.iter() {
        let rig = ran(&rt, alloc, ONE_SUBBLOCK, script, (*status, said))?;
        check_left(&rt, alloc, &rig, *journal, after)?;
    }
    Ok(())
}

// The journal that a run has left is so long, and `info` says this of what it has left.
fn check_left(
    rt: &impl Abort,
    alloc: Global,
    rig: &MemRig,
    journal_len: usize,
    said: &[u8],
) -> Result<(), Fail> {
    let journal = rig.content(File::Journal);
    assert!(rt; journal.len() == journal_len);
    check_said(
        rt,
        alloc,
        "info",
        (rig.content(File::Image), journal),
        (0, said),
    )
}

// A run of the script over an input whose call with this number fails.
fn input_failed(rt: &impl Abort, alloc: Global, failing: u64, said: &[u8]) -> Result<MemRig, Fail> {
    let mut rig = one_tile_rig(alloc, NEVER)?;
    let status = outcome_over(alloc, &["F", "edit"], SCRIPT, failing, &mut rig)?;
    assert!(rt; status == 7 && rig.said() == said);
    Ok(rig)
}

#[test]
fn a_failed_input_stops_the_script(rt: HostRuntime) -> Result<(), Fail> {
    let alloc = rt.alloc();
    let image = one_tile(alloc, 1280, &[])?;
    let rig = input_failed(&rt, alloc, 0, b"")?;
    check_files(&rt, &rig, &image, b"");
    let _ = input_failed(&rt, alloc, 1, REPLIES)?;
    Ok(())
}

/// Nothing is written over a file.
pub(crate) const NONE: Part = (0, b"");

/// How long the image is made, what is written over the image and over the journal, and what `list` answers then.
pub(crate) type Misfit = (usize, Part, Part, u8, &'static [u8]);

static MISFITS: [Misfit; 6] = [
    (1280, NONE, NONE, 0, NO_TILES),
    (1000, NONE, NONE, 2, b"refused short 1000 1280\n"),
    (
        1280,
        (FILE_GUID, &[0; 16]),
        NONE,
        2,
        b"refused foreign 00112233-4455-6677-8899-aabbccddeeff 00000000-0000-0000-0000-000000000000\n",
    ),
    (1280, NONE, (SLOT_B, &[9]), 2, b"refused version 9\n"),
    (
        1280,
        NONE,
        (SLOT_B + RECORD_COUNT, &[4]),
        2,
        b"refused journal 262320\n",
    ),
    (
        1280,
        NONE,
        (SLOT_B + RECORD_LENGTH, &[111, 0]),
        2,
        b"refused journal 262228\n",
    ),
];

/// What `list` answers of the files that a run has left, once they were changed.
pub(crate) fn check_misfit(
    rt: &impl Abort,
    alloc: Global,
    rig: &MemRig,
    (len, in_image, in_journal, status, said): &Misfit,
) -> Result<(), Fail> {
    let image = changed(alloc, rig.content(File::Image), *len, &[*in_image])?;
    let journal = rig.content(File::Journal);
    let journal = changed(alloc, journal, journal.len(), &[*in_journal])?;
    check_said(rt, alloc, "list", (&image, &journal), (*status, said))
}

// The journal counts after a script that breaks off. Slot B is selected: its record has three links, of 32, 8 and 4 bytes.
#[test]
fn a_journal_that_counts_refuses_what_does_not_fit(rt: HostRuntime) -> Result<(), Fail> {
    let alloc = rt.alloc();
    let script = b"remove dims=C0,X0:4,Y0:2\nbad\n";
    let want = (3, b"ok 1\nscript 2 word\n".as_slice());
    let rig = ran(&rt, alloc, ONE_SUBBLOCK, script, want)?;
    for misfit in MISFITS.iter() {
        check_misfit(&rt, alloc, &rig, misfit)?;
    }
    Ok(())
}
