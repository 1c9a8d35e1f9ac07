//! Tests of the session, with an editor that counts.

use crate::counter::Counter;
use crate::devices::{NEVER, failing_input, failing_rig};
use czi_rig::{File, MemRig, MemSource};
use czi_script::{Command, Kind};
use czi_session::{Ended, Stop, edit, one};
use std::alloc::Global;
use std::process::Abort;
use std::test::Fail;

// How a run is to end, what it is to have said, and how long the image is to be then.
type Want = (Ended, &'static [u8], usize);

// The run has said this, and the image is so long.
fn check_left(rt: &impl Abort, rig: &MemRig, said: &[u8], len: usize) {
    assert!(rt; rig.said() == said && rig.content(File::Image).len() == len);
}

// Runs a script on a counter over an image of two bytes. The calls with these numbers of the rig and of the input fail.
fn check(
    rt: &impl Abort,
    alloc: Global,
    script: &[u8],
    (rig_call, input_call): (u64, u64),
    (ended, said, len): &Want,
) -> Result<(), Fail> {
    let mut rig = failing_rig(alloc, b"II", rig_call)?;
    let mut input = failing_input(alloc, script, input_call)?;
    let end = edit::<Counter, MemRig, MemSource>(alloc, &mut rig, &mut input);
    assert!(rt; end == *ended);
    check_left(rt, &rig, said, *len);
    Ok(())
}

#[rattlefmt::skip]
static SCRIPTS: [(&[u8], Want); 7] = [
    (b"", (Ended::Done, b"", 2)),
    (b"list\n", (Ended::Done, b"ok\n", 3)),
    (b"list\nremove dims=C0\ninfo\n", (Ended::Done, b"ok\nok\nok\n", 5)),
    (b"list\nlost\nlist\n", (Ended::Stopped(Stop::Script(2, Kind::Word)), b"ok\nscript 2 word\n", 3)),
    (b"list\ninfo\ninfo x=1\n", (Ended::Stopped(Stop::Script(3, Kind::Field)), b"ok\nok\nscript 3 field\n", 4)),
    (b"repack\n", (Ended::Stopped(Stop::Script(1, Kind::Later)), b"script 1 later\n", 2)),
    (b"list\nlis", (Ended::Stopped(Stop::Script(2, Kind::Cut)), b"ok\nscript 2 cut\n", 3)),
];

#[test]
fn each_script_ends_as_it_reads(rt: HostRuntime) -> Result<(), Fail> {
    for (script, want) in SCRIPTS.iter() {
        check(&rt, rt.alloc(), script, (NEVER, NEVER), want)?;
    }
    Ok(())
}

static FAILED_CALLS: [(u64, Want); 7] = [
    (0, (Ended::Stopped(Stop::Image), b"", 2)),
    (1, (Ended::Stopped(Stop::Journal), b"", 2)),
    (2, (Ended::Stopped(Stop::Image), b"", 2)),
    (4, (Ended::Stopped(Stop::Image), b"", 3)),
    (5, (Ended::Stopped(Stop::Output), b"ok", 3)),
    (9, (Ended::Stopped(Stop::Output), b"ok\nok", 4)),
    (10, (Ended::Done, b"ok\nok\n", 4)),
];

#[test]
fn each_failed_call_ends_the_run(rt: HostRuntime) -> Result<(), Fail> {
    for (failing, want) in FAILED_CALLS.iter() {
        check(&rt, rt.alloc(), b"list\ninfo\n", (*failing, NEVER), want)?;
    }
    Ok(())
}

static FAILED_INPUTS: [(u64, Want); 2] = [
    (0, (Ended::Stopped(Stop::Input), b"", 2)),
    (1, (Ended::Stopped(Stop::Input), b"ok\nok\n", 4)),
];

#[test]
fn a_failed_input_ends_the_run(rt: HostRuntime) -> Result<(), Fail> {
    for (failing, want) in FAILED_INPUTS.iter() {
        check(&rt, rt.alloc(), b"list\ninfo\n", (NEVER, *failing), want)?;
    }
    Ok(())
}

// Does one command alone, on a counter over an image of two bytes. The call with this number of the rig fails.
fn check_one(
    rt: &impl Abort,
    alloc: Global,
    command: &Command,
    failing: u64,
    (ended, said, len): &Want,
) -> Result<(), Fail> {
    let mut rig = failing_rig(alloc, b"II", failing)?;
    let end = one::<Counter, MemRig>(alloc, &mut rig, command);
    assert!(rt; end == *ended);
    check_left(rt, &rig, said, *len);
    Ok(())
}

#[test]
fn one_command_is_done_alone(rt: HostRuntime) -> Result<(), Fail> {
    let alloc = rt.alloc();
    check_one(
        &rt,
        alloc,
        &Command::List,
        NEVER,
        &(Ended::Done, b"ok\n", 3),
    )?;
    let unsaid: Want = (Ended::Stopped(Stop::Output), b"ok", 3);
    check_one(&rt, alloc, &Command::Info, 5, &unsaid)
}
