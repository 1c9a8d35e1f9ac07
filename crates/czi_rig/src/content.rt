// The content of a file of a rig in memory, and what the calls do to it.
ghost use Rattle.std.specs.Prelude.{◌≡◌, ◌+◌, ◌≤◌, ◌^◌, ◌++◌, length, is_err, take, drop, IfOk, OnOk, vec_len, vec_capacity, [], List};
ghost use Rattle.czi_rig.specs.Disk.{overwritten};
ghost use Rattle.czi_rig.specs.Replay.{landed, cut_to};
ghost use Rattle.czi_rig.specs.Outcome.{Outcome};

use crate::log::{Log, begin, ended, part_done, starve};
use crate::{Call, Failed};
use std::alloc::{AllocError, Global};

/// What a file had at first, what it has, and how often a call on it has failed.
#[derive(Drop)]
pub(crate) struct Content {
    pub(crate) first: Vec<u8>,
    pub(crate) bytes: Vec<u8>,
    pub(crate) faults: u64,
}

/// A file with this content. More than 2^62 bytes are too much memory.
pub(crate) fn begun_with(alloc: Global, bytes: &[u8]) -> Result<Content, AllocError>
    ensures first { IfOk result (λ content. content.first.items ≡ bytes.now) }
    ensures bytes { IfOk result (λ content. content.bytes.items ≡ bytes.now) }
    ensures faults { IfOk result (λ content. content.faults ≡ 0) }
    ensures small { OnOk result (length bytes.now ≤ 2 ^ 62) }
{
    if bytes.len() > 1 << 62 {
        return Err(AllocError);
    }
    Ok(Content {
        first: Vec::from_slice(alloc, bytes)?,
        bytes: Vec::from_slice(alloc, bytes)?,
        faults: 0,
    })
}

/// Puts bytes over what is there and past the end.
pub(crate) fn overwrite(content: &mut Vec<u8>, at: usize, bytes: &[u8])
    requires in_content { at ≤ vec_len content.old }
    requires room { at + length bytes.now ≤ vec_capacity content.old }
    ensures { content.new.items ≡ overwritten at bytes.now content.old.items }
{
    let inside = bytes.len().min(content.len() - at);
    content[at..at + inside].copy_from_slice(&bytes[..inside]);
    match content.extend_from_slice(&bytes[inside..]) {
        Ok(()) => {}
        Err(_) => unreachable!(),
    }
}

/// The length to which a cut brings a file: the one that was asked for, or where it fails half way to it.
pub(crate) fn length_cut(len: usize, failed: bool, old: usize) -> usize
    ensures { result ≡ cut_to len failed old }
{
    if failed {
        len + old.saturating_sub(len) / 2
    } else {
        len
    }
}

/// A write. One that fails puts the first half of its bytes.
pub(crate) fn write(
    alloc: Global,
    content: &mut Content,
    log: &mut Log,
    call: Call,
    at: usize,
    bytes: &[u8],
) -> Result<(), Failed>
    requires in_content { at ≤ vec_len content.old.bytes }
    requires small { at + length bytes.now ≤ 2 ^ 62 }
    ensures outcome { Outcome call bytes.now result log.old log.new content.old.faults content.new.faults content.old.bytes.items content.new.bytes.items (overwritten at (landed (is_err result) bytes.now) content.old.bytes.items) }
    ensures first { content.new.first ≡ content.old.first }
{
    let more = (at + bytes.len()).saturating_sub(content.bytes.len());
    if content.bytes.try_reserve(more).is_err() {
        starve(log, &mut content.faults);
        return Err(Failed);
    }
    let failed = begin(alloc, log, &mut content.faults, call, bytes)?;
    overwrite(&mut content.bytes, at, part_done(bytes, failed));
    ended(failed)
}

/// A cut. One that fails comes half way.
pub(crate) fn cut(
    alloc: Global,
    content: &mut Content,
    log: &mut Log,
    call: Call,
    len: usize,
) -> Result<(), Failed>
    requires in_content { len ≤ vec_len content.old.bytes }
    ensures outcome { Outcome call [] result log.old log.new content.old.faults content.new.faults content.old.bytes.items content.new.bytes.items (take (cut_to len (is_err result) (length content.old.bytes.items)) content.old.bytes.items) }
    ensures first { content.new.first ≡ content.old.first }
{
    let failed = begin(alloc, log, &mut content.faults, call, &[])?;
    let to = length_cut(len, failed, content.bytes.len());
    content.bytes.truncate(to);
    ended(failed)
}

/// A call that leaves the content.
pub(crate) fn touch(
    alloc: Global,
    content: &mut Content,
    log: &mut Log,
    call: Call,
) -> Result<(), Failed>
    ensures outcome { Outcome call [] result log.old log.new content.old.faults content.new.faults content.old.bytes.items content.new.bytes.items content.old.bytes.items }
    ensures first { content.new.first ≡ content.old.first }
{
    let failed = begin(alloc, log, &mut content.faults, call, &[])?;
    ended(failed)
}

/// A call that tells the length.
pub(crate) fn measure(
    alloc: Global,
    content: &mut Content,
    log: &mut Log,
    call: Call,
) -> Result<u64, Failed>
    ensures outcome { Outcome call [] result log.old log.new content.old.faults content.new.faults content.old.bytes.items content.new.bytes.items content.old.bytes.items }
    ensures first { content.new.first ≡ content.old.first }
    ensures len { IfOk result (λ n. n ≡ length content.old.bytes.items) }
{
    match touch(alloc, content, log, call) {
        Ok(()) => Ok(content.bytes.len() as u64),
        Err(failed) => Err(failed),
    }
}

/// A read. One that fails leaves `into`.
pub(crate) fn read(
    alloc: Global,
    content: &mut Content,
    log: &mut Log,
    call: Call,
    at: usize,
    into: &mut [u8],
) -> Result<(), Failed>
    requires in_content { at + length into.old ≤ vec_len content.old.bytes }
    ensures outcome { Outcome call [] result log.old log.new content.old.faults content.new.faults content.old.bytes.items content.new.bytes.items content.old.bytes.items }
    ensures first { content.new.first ≡ content.old.first }
    ensures bytes { OnOk result (into.new ≡ take (length into.old) (drop at content.old.bytes.items)) }
{
    touch(alloc, content, log, call)?;
    let end = at + into.len();
    into.copy_from_slice(&content.bytes[at..end]);
    Ok(())
}

/// A `say`. One that fails says the first half of its bytes.
pub(crate) fn speak(
    alloc: Global,
    said: &mut Vec<u8>,
    log: &mut Log,
    faults: &mut u64,
    bytes: &[u8],
) -> Result<(), Failed>
    ensures { Outcome Call.Say bytes.now result log.old log.new faults.old faults.new said.old.items said.new.items (said.old.items ++ landed (is_err result) bytes.now) }
{
    if said.try_reserve(bytes.len()).is_err() {
        starve(log, faults);
        return Err(Failed);
    }
    let failed = begin(alloc, log, faults, Call::Say, bytes)?;
    match said.extend_from_slice(part_done(bytes, failed)) {
        Ok(()) => ended(failed),
        Err(_) => unreachable!(),
    }
}
