//! `czi_rig`: a device and an input in memory.

use czi_rig::{Call, Failed, File, MemRig, MemSource, Pick, Rig, Source};
use std::alloc::Global;
use std::process::Abort;
use std::test::Fail;

// A write that meets its condition.
fn write(rt: &impl Abort, rig: &mut MemRig, f: File, at: u64, bytes: &[u8]) -> Result<(), Failed> {
    let len = rig.content(f).len() as u64;
    assert!(rt; at <= len && len < 1000 && bytes.len() < 1000);
    rig.write_at(f, at, bytes)
}

// A cut that meets its condition.
fn cut(rt: &impl Abort, rig: &mut MemRig, f: File, len: u64) -> Result<(), Failed> {
    let old = rig.content(f).len() as u64;
    assert!(rt; len <= old && old < 1000);
    rig.cut(f, len)
}

// A read of one byte that meets its condition.
fn read_one(rt: &impl Abort, rig: &mut MemRig, f: File, at: u64) -> Result<(), Failed> {
    let len = rig.content(f).len() as u64;
    assert!(rt; at < len && len < 1000);
    rig.read_at(f, at, &mut [0; 1])
}

// The call with this number of the list that the tests walk.
fn call(rt: &impl Abort, rig: &mut MemRig, number: u64) -> Result<(), Failed> {
    match number {
        0 => write(rt, rig, File::Image, 2, b"XYZ"),
        1 => cut(rt, rig, File::Image, 1),
        2 => write(rt, rig, File::Journal, 0, b"M"),
        3 => rig.sync(File::Image),
        4 => rig.say(b"done"),
        5 => rig.len(File::Journal).map(|_| ()),
        _ => read_one(rt, rig, File::Journal, 1),
    }
}

// What these calls are.
static CALLS: [Call; 7] = [
    Call::Write(File::Image, 2, 3),
    Call::Cut(File::Image, 1),
    Call::Write(File::Journal, 0, 1),
    Call::Sync(File::Image),
    Call::Say,
    Call::Len(File::Journal),
    Call::Read(File::Journal, 1, 1),
];

// Makes the first calls of the list, each of which succeeds.
fn make_calls(rt: &impl Abort, rig: &mut MemRig, count: u64) {
    for number in 0..count {
        assert!(rt; call(rt, rig, number).is_ok(), "call {number}");
    }
}

// Two files of four and two bytes.
fn two_files(alloc: Global) -> Result<MemRig, Fail> {
    Ok(MemRig::new(alloc, b"abcd", b"jk")?)
}

fn check_content(rt: &impl Abort, rig: &MemRig, image: &[u8], journal: &[u8], said: &[u8]) {
    assert!(rt; rig.content(File::Image) == image);
    assert!(rt; rig.content(File::Journal) == journal);
    assert!(rt; rig.said() == said);
}

fn check_calls(rt: &impl Abort, rig: &MemRig) {
    assert!(rt; rig.calls() == 7);
    for (number, made) in CALLS.iter().enumerate() {
        assert!(rt; rig.call(number as u64) == *made, "call {number}");
    }
}

#[test]
fn calls_are_done_and_told(rt: HostRuntime) -> Result<(), Fail> {
    let mut rig = two_files(rt.alloc())?;
    make_calls(&rt, &mut rig, 7);
    check_calls(&rt, &rig);
    check_content(&rt, &rig, b"a", b"Mk", b"done");
    Ok(())
}

// What a crash inside a call leaves of image and journal, by a pick.
struct Left {
    number: u64,
    pick: Pick,
    image: &'static [u8],
    journal: &'static [u8],
}

#[rattlefmt::skip]
static LEFT: [Left; 16] = [
    Left { number: 0, pick: Pick::Old, image: b"abcd", journal: b"jk" },
    Left { number: 0, pick: Pick::New, image: b"abXYZ", journal: b"jk" },
    Left { number: 0, pick: Pick::Fill(b'?', true), image: b"ab???", journal: b"jk" },
    Left { number: 0, pick: Pick::Fill(b'?', false), image: b"ab??", journal: b"jk" },
    Left { number: 1, pick: Pick::Old, image: b"abcd", journal: b"jk" },
    Left { number: 1, pick: Pick::New, image: b"a", journal: b"jk" },
    Left { number: 1, pick: Pick::Fill(b'?', true), image: b"a????", journal: b"jk" },
    Left { number: 1, pick: Pick::Fill(b'?', false), image: b"a", journal: b"jk" },
    Left { number: 2, pick: Pick::Old, image: b"abcd", journal: b"jk" },
    Left { number: 2, pick: Pick::New, image: b"a", journal: b"Mk" },
    Left { number: 2, pick: Pick::Fill(b'?', true), image: b"a????", journal: b"?k" },
    Left { number: 3, pick: Pick::Old, image: b"abcd", journal: b"jk" },
    Left { number: 3, pick: Pick::Fill(b'?', true), image: b"a????", journal: b"?k" },
    Left { number: 4, pick: Pick::Old, image: b"a", journal: b"jk" },
    Left { number: 4, pick: Pick::Fill(b'?', true), image: b"a", journal: b"?k" },
    Left { number: 6, pick: Pick::Fill(b'?', false), image: b"a", journal: b"?k" },
];

fn check_left(rt: &impl Abort, rig: &MemRig, row: &Left, index: usize) -> Result<(), Fail> {
    assert!(rt; row.number < rig.calls());
    let (image, journal) = rig.crash(row.number, row.pick)?;
    let same = image.as_slice() == row.image && journal.as_slice() == row.journal;
    assert!(rt; same, "row {index}");
    Ok(())
}

#[test]
fn crash_leaves_the_picked_content(rt: HostRuntime) -> Result<(), Fail> {
    let mut rig = two_files(rt.alloc())?;
    make_calls(&rt, &mut rig, 7);
    for (index, row) in LEFT.iter().enumerate() {
        check_left(&rt, &rig, row, index)?;
    }
    Ok(())
}

// A call that fails: what it leaves of image and journal and what was said, and what a crash in this call or in the next
// one leaves of the image at most.
struct Torn {
    number: u64,
    image: &'static [u8],
    journal: &'static [u8],
    said: &'static [u8],
    left: &'static [u8],
}

#[rattlefmt::skip]
static TORN: [Torn; 7] = [
    Torn { number: 0, image: b"abXY", journal: b"jk", said: b"", left: b"ab???" },
    Torn { number: 1, image: b"abX", journal: b"jk", said: b"", left: b"a????" },
    Torn { number: 2, image: b"a", journal: b"Mk", said: b"", left: b"a????" },
    Torn { number: 3, image: b"a", journal: b"Mk", said: b"", left: b"a????" },
    Torn { number: 4, image: b"a", journal: b"Mk", said: b"do", left: b"a" },
    Torn { number: 5, image: b"a", journal: b"Mk", said: b"done", left: b"a" },
    Torn { number: 6, image: b"a", journal: b"Mk", said: b"done", left: b"a" },
];

// A rig on which the call with this number is the last one, and has failed.
fn failed_at(rt: &impl Abort, alloc: Global, number: u64) -> Result<MemRig, Fail> {
    let mut rig = two_files(alloc)?;
    rig.fail_call(9)?;
    rig.fail_call(number)?;
    make_calls(rt, &mut rig, number);
    assert!(rt; call(rt, &mut rig, number) == Err(Failed), "call {number}");
    Ok(rig)
}

// The image after a crash inside this call, where it is longest.
fn check_open(rt: &impl Abort, rig: &MemRig, inside: u64, image: &[u8]) -> Result<(), Fail> {
    assert!(rt; inside < rig.calls());
    let left = rig.crash(inside, Pick::Fill(b'?', true))?;
    assert!(rt; left.0.as_slice() == image, "in {inside}");
    Ok(())
}

fn check_torn(rt: &impl Abort, alloc: Global, row: &Torn) -> Result<(), Fail> {
    let mut rig = failed_at(rt, alloc, row.number)?;
    check_content(rt, &rig, row.image, row.journal, row.said);
    assert!(rt; rig.sync(File::Journal).is_ok() && rig.starved() == 0);
    check_open(rt, &rig, row.number, row.left)?;
    check_open(rt, &rig, row.number.saturating_add(1), row.left)
}

#[test]
fn call_that_is_to_fail_tears(rt: HostRuntime) -> Result<(), Fail> {
    for row in TORN.iter() {
        check_torn(&rt, rt.alloc(), row)?;
    }
    Ok(())
}

// What the calls of an input give that fail where `None` stands.
static TAKEN: [Option<&'static [u8]>; 5] = [Some(b"ab"), None, Some(b"c"), Some(b""), None];

fn check_take(rt: &impl Abort, source: &mut MemSource, want: Option<&[u8]>, number: usize) {
    let mut two = [0; 2];
    let right = match source.take(&mut two) {
        Ok(n) => want == Some(&two[..n]),
        Err(Failed) => want.is_none(),
    };
    assert!(rt; right, "call {number}");
}

#[test]
fn source_gives_pieces_and_fails_where_told(rt: HostRuntime) -> Result<(), Fail> {
    let mut source = MemSource::new(rt.alloc(), b"abc")?;
    source.fail_call(4)?;
    source.fail_call(1)?;
    for (number, want) in TAKEN.iter().enumerate() {
        check_take(&rt, &mut source, *want, number);
    }
    Ok(())
}

// With one allocation that fails: each call is done and counted, or it has found no memory and did nothing.
#[test]
fn call_is_done_or_finds_no_memory(rt: HostRuntime) -> Result<(), Fail> {
    let mut rig = MemRig::new(rt.alloc(), b"abcd", b"efgh")?;
    let written = write(&rt, &mut rig, File::Image, 4, b"0123456789abcdef");
    let starved = rig.starved();
    assert!(rt; written.is_ok() == (starved == 0));
    assert!(rt; rig.calls().saturating_add(starved) == 1);
    assert!(rt; rig.content(File::Image).len() == if starved == 0 { 20 } else { 4 });
    let said = rig.say(b"hello");
    assert!(rt; said.is_ok() == (rig.starved() == starved));
    assert!(rt; rig.calls().saturating_add(rig.starved()) == 2);
    Ok(())
}
