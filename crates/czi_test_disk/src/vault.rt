//! `czi_vault`: commits, recoveries, and what a crash inside them leaves.

ghost use Rattle.std.specs.Prelude.{◌≡◌, IfOk};
ghost use Rattle.czi_links.specs.Record.{EndWithin, encoded_len};

use crate::files::PICKS;
use czi_journal::{Slot, create, probe, seal};
use czi_links::{Links, SLOT_LEN, SlotHead};
use czi_rig::{Call, File, MemRig, Pick};
use czi_sample::journal_of;
use czi_vault::{commit, prefill, recover, settle};
use std::alloc::Global;
use std::process::Abort;
use std::test::Fail;

const HEAD: SlotHead = SlotHead {
    guid: [0; 16],
    length: 128,
};

// An image of zeros, but for two bytes at place 112.
fn image_with(bytes: &[u8; 2]) -> [u8; 128] {
    let mut image = [0; 128];
    image[112..114].copy_from_slice(bytes);
    image
}

// The link that puts `AB` there.
fn one_link(rt: &impl Abort, alloc: Global) -> Result<Links, Fail>
    ensures len { IfOk result (λ links. encoded_len links.links ≡ 46) }
    ensures ends { IfOk result (λ links. EndWithin 128 links.links) }
{
    let mut links = Links::new(alloc);
    links.reserve(1, 2)?;
    links.push(112, b"AB");
    assert!(rt; links.encoded_len() == 46);
    Ok(links)
}

// The image that two files stand for.
fn opened(rt: &impl Abort, alloc: Global, image: &[u8], journal: &[u8]) -> Result<Vec<u8>, Fail> {
    let mut rig = MemRig::new(alloc, image, journal)?;
    let mut links = Links::new(alloc);
    match probe(alloc, &mut rig, &mut links) {
        Ok(None) => {}
        Ok(Some((_, head))) => {
            assert!(rt; head.length <= image.len() as u64);
            assert!(rt; recover(&mut rig, &links, &head).is_ok());
        }
        Err(_) => return Err(Fail::new("not probed")),
    }
    Ok(rig.content(File::Image).to_vec(alloc)?)
}

// The files that a crash inside a call leaves stand for an image of zeros, but for these bytes.
fn check_stop(
    rt: &impl Abort,
    alloc: Global,
    rig: &MemRig,
    number: u64,
    pick: Pick,
    bytes: &[u8; 2],
) -> Result<(), Fail> {
    assert!(rt; number < rig.calls());
    let (image, journal) = rig.crash(number, pick)?;
    let found = opened(rt, alloc, &image, &journal)?;
    assert!(rt;
        found.as_slice() == image_with(bytes).as_slice(),
        "in {number}"
    );
    Ok(())
}

// Arms a journal beside an image of zeros, commits the link and seals the journal.
fn committed(rt: &impl Abort, alloc: Global) -> Result<MemRig, Fail> {
    let mut rig = MemRig::new(alloc, &[0; 128], b"")?;
    let mut buffer = vec![in alloc; 0u8; SLOT_LEN]?;
    let Ok(mut journal) = create(&mut rig, &HEAD, &mut buffer) else {
        return Err(Fail::new("not armed"));
    };
    let links = one_link(rt, alloc)?;
    let Ok(()) = commit(&mut rig, &mut journal, &links, &HEAD, &mut buffer) else {
        return Err(Fail::new("not committed"));
    };
    assert!(rt; journal.selected == Slot::B);
    assert!(rt; rig.content(File::Image) == image_with(b"AB").as_slice());
    assert!(rt; rig.content(File::Journal).get(1) == Some(&1));
    assert!(rt; seal(&mut rig, journal).is_ok());
    Ok(rig)
}

// Arming, the six steps of a commit, sealing.
static CALLS: [Call; 24] = [
    Call::Len(File::Journal),
    Call::Write(File::Journal, 0, 1),
    Call::Sync(File::Journal),
    Call::Write(File::Journal, 1, 63),
    Call::Write(File::Journal, 64, 262144),
    Call::Write(File::Journal, 262208, 262144),
    Call::Sync(File::Journal),
    Call::Write(File::Journal, 0, 1),
    Call::Sync(File::Journal),
    Call::Write(File::Journal, 262208, 46),
    Call::Sync(File::Journal),
    Call::Write(File::Journal, 1, 1),
    Call::Sync(File::Journal),
    Call::Write(File::Image, 100, 1),
    Call::Sync(File::Image),
    Call::Write(File::Image, 112, 2),
    Call::Sync(File::Image),
    Call::Len(File::Image),
    Call::Write(File::Image, 100, 1),
    Call::Sync(File::Image),
    Call::Write(File::Journal, 0, 1),
    Call::Sync(File::Journal),
    Call::Cut(File::Journal, 1),
    Call::Sync(File::Journal),
];

// The selector counts once it is synced, or where its write was done.
fn bytes_after(number: u64, pick: Pick) -> &'static [u8; 2] {
    if number >= 13 || number >= 11 && pick == Pick::New {
        b"AB"
    } else {
        b"\0\0"
    }
}

fn check_call(
    rt: &impl Abort,
    alloc: Global,
    rig: &MemRig,
    number: u64,
    made: Call,
) -> Result<(), Fail> {
    assert!(rt; number < rig.calls());
    assert!(rt; rig.call(number) == made, "call {number}");
    for pick in PICKS.iter() {
        check_stop(rt, alloc, rig, number, *pick, bytes_after(number, *pick))?;
    }
    Ok(())
}

#[test]
fn any_stop_leaves_the_old_or_the_new_image(rt: HostRuntime) -> Result<(), Fail> {
    let rig = committed(&rt, rt.alloc())?;
    assert!(rt; rig.calls() == CALLS.len() as u64);
    for (number, made) in CALLS.iter().enumerate() {
        check_call(&rt, rt.alloc(), &rig, number as u64, *made)?;
    }
    Ok(())
}

// Recovers an image that is longer than its journal commits, as a crash right after the commit leaves it.
fn recovered(rt: &impl Abort, alloc: Global) -> Result<MemRig, Fail> {
    let journal = journal_of(alloc, HEAD.length, &[(112, b"AB")])?;
    let links = one_link(rt, alloc)?;
    let mut rig = MemRig::new(alloc, &[0; 160], &journal)?;
    assert!(rt; recover(&mut rig, &links, &HEAD).is_ok());
    Ok(rig)
}

#[test]
fn any_stop_of_a_recovery_can_be_recovered(rt: HostRuntime) -> Result<(), Fail> {
    let rig = recovered(&rt, rt.alloc())?;
    assert!(rt; rig.content(File::Image) == image_with(b"AB").as_slice());
    assert!(rt; rig.calls() == 9);
    assert!(rt; rig.call(5) == Call::Cut(File::Image, 128));
    for number in 0..9 {
        for pick in PICKS.iter() {
            check_stop(&rt, rt.alloc(), &rig, number, *pick, b"AB")?;
        }
    }
    Ok(())
}

#[test]
fn new_bytes_are_written_and_synced(rt: HostRuntime) -> Result<(), Fail> {
    let mut rig = MemRig::new(rt.alloc(), &[0; 128], b"")?;
    rig.fail_call(2)?;
    assert!(rt; prefill(&mut rig, 128, b"new").is_ok());
    assert!(rt; settle(&mut rig).is_ok());
    let image = rig.content(File::Image);
    assert!(rt; image.len() == 131 && image.get(128..) == Some(b"new".as_slice()));
    assert!(rt; settle(&mut rig).is_err());
    Ok(())
}
