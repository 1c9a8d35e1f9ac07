// The calls that were made on a rig in memory, and those that are to fail.
ghost use Rattle.std.specs.Prelude.{◌≡◌, is_err, take, length, IfOk, OnErr, MatchResult};
ghost use Rattle.czi_rig.specs.Replay.{landed};
ghost use Rattle.czi_rig.specs.Outcome.{Noted, IsTold, Starves, Made};

use crate::schedule::is_to_fail;
use crate::{Call, Failed};
use std::alloc::{AllocError, Global};
use std::collections::BTreeSet;

/// A call that was made, with the bytes that it was to write or say, and whether it has failed.
#[derive(Drop)]
pub(crate) struct Event {
    pub(crate) call: Call,
    pub(crate) bytes: Vec<u8>,
    pub(crate) failed: bool,
}

/// All calls that were made, the numbers of those that are to fail, and how many calls found no memory.
#[derive(Drop)]
pub(crate) struct Log {
    pub(crate) calls: Vec<Event>,
    pub(crate) to_fail: BTreeSet<u64>,
    pub(crate) starved: u64,
}

/// Adds a call, and tells whether it is to fail.
fn note(alloc: Global, log: &mut Log, call: Call, bytes: &[u8]) -> Result<bool, AllocError>
    ensures noted { IfOk result (λ failed. Noted call bytes.now failed log.old.calls.items log.new.calls.items) }
    ensures told { IfOk result (λ failed. IsTold failed log.old) }
    ensures err { OnErr result (log.new.calls.items ≡ log.old.calls.items) }
    ensures starved { log.new.starved ≡ log.old.starved }
    ensures to_fail { log.new.to_fail ≡ log.old.to_fail }
{
    let failed = is_to_fail(&log.to_fail, log.calls.len() as u64);
    let bytes = Vec::from_slice(alloc, bytes)?;
    log.calls.push(Event {
        call,
        bytes,
        failed,
    })?;
    Ok(failed)
}

/// A call that finds no memory is a fault, and is counted as such alone.
pub(crate) fn starve(log: &mut Log, faults: &mut u64)
    ensures { Starves log.old log.new faults.old faults.new }
{
    log.starved = log.starved.saturating_add(1);
    *faults = faults.saturating_add(1);
}

/// Begins a call: it is added, and tells whether it fails, or it finds no memory.
pub(crate) fn begin(
    alloc: Global,
    log: &mut Log,
    faults: &mut u64,
    call: Call,
    bytes: &[u8],
) -> Result<bool, Failed>
    ensures { MatchResult result (λ failed. Made call bytes.now failed log.old log.new faults.old faults.new) (λ _. Starves log.old log.new faults.old faults.new) }
{
    match note(alloc, log, call, bytes) {
        Ok(false) => Ok(false),
        Ok(true) => {
            *faults = faults.saturating_add(1);
            Ok(true)
        }
        Err(_) => {
            starve(log, faults);
            Err(Failed)
        }
    }
}

/// The answer of a call that was added.
pub(crate) fn ended(failed: bool) -> Result<(), Failed>
    ensures { is_err result ≡ failed }
{
    if failed { Err(Failed) } else { Ok(()) }
}

/// The bytes that a call of a write or a `say` gets done: all of them, or where it fails the first half.
pub(crate) fn part_done(bytes: &[u8], failed: bool) -> &[u8]
    ensures { result.now ≡ landed failed bytes.now }
{
    let n = bytes.len();
    if failed { &bytes[..n - n / 2] } else { bytes }
}
