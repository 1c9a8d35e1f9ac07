//! `czi_commit`: the steps of a command.

ghost use Rattle.std.specs.Prelude.{◌≡◌, ◌+◌, ◌^◌, ◌≤◌, false, length, take, drop, IfOk, IsTrue, OnOk};
ghost use Rattle.std.specs.Option.{ForSome};
ghost use Rattle.czi_rig.specs.Disk.{Everywhere, IsAtRest};
ghost use Rattle.czi_rig.specs.State.{known, seen_of};
ghost use Rattle.czi_opening.specs.Answers.{IsJournal};
ghost use Rattle.czi_commit.specs.Made.{Fits, IsStaged, step_of};

use crate::files::Part;
use czi_commit::carry_out;
use czi_journal::{Journal, Slot};
use czi_links::{Links, SLOT_LEN, SlotHead};
use czi_plan::EditPlan;
use czi_region::Region;
use czi_rig::{File, MemRig, Rig};
use czi_sample::places::*;
use std::alloc::Global;
use std::process::Abort;
use std::test::Fail;

// What the file header says of an image of moderate length.
fn head_of(image: &[u8]) -> Result<SlotHead, Fail>
    ensures len { IfOk result (λ head. head.length ≡ length image.now) }
    ensures guid { IfOk result (λ head. head.guid ≡ take 16 (drop 64 image.now)) }
    ensures least { IfOk result (λ head. 112 ≤ head.length) }
    ensures greatest { IfOk result (λ head. head.length ≤ 2 ^ 20) }
{
    if image.len() < 112 || image.len() > 1 << 20 {
        return Err(Fail::new("no such image"));
    }
    let mut guid = [0; 16];
    guid.copy_from_slice(&image[64..80]);
    Ok(SlotHead {
        guid,
        length: image.len() as u64,
    })
}

// A plan, and the region of its pieces.
#[derive(Drop)]
struct Planned {
    region: Region,
    plan: EditPlan,
}

// A plan of one write at or behind the end of this file, which the image then ends with, and one link of two
// bytes at place 112.
fn plan_of(
    alloc: Global,
    file: &SlotHead,
    place: u64,
    bytes: &[u8],
    link: [u8; 2],
) -> Result<Planned, Fail>
    requires header { 114 ≤ file.now.length }
    requires behind { file.now.length ≤ place }
    requires near { place ≤ file.now.length + 64 }
    requires small { place + length bytes.now ≤ 2 ^ 20 }
    ensures staged { IfOk result (λ p. IsStaged p.region p.plan) }
    ensures fits { IfOk result (λ p. Fits file.now.length (step_of file.now p.region p.plan)) }
{
    let mut region = Region::new(alloc);
    region.ensure(bytes.len())?;
    let piece = region.put(bytes);
    let mut plan = EditPlan::new(alloc);
    plan.writes.push((place, piece))?;
    plan.links.reserve(1, 2)?;
    plan.links.push(112, &link);
    if plan.links.encoded_len() > SLOT_LEN {
        return Err(Fail::new("too long"));
    }
    plan.length = place + bytes.len() as u64;
    Ok(Planned { region, plan })
}

// Carries out such a plan.
fn append<R: Rig>(
    alloc: Global,
    rig: &mut R,
    journal: &mut Journal,
    file: &SlotHead,
    place: u64,
    bytes: &[u8],
    link: [u8; 2],
) -> Result<(), Fail>
    requires rest { ForSome (known (R.state rig.old) File.Image) IsAtRest }
    requires whole { ForSome (seen_of (R.state rig.old) File.Image) (λ seen. length seen ≡ file.now.length) }
    requires guid { ForSome (seen_of (R.state rig.old) File.Image) (λ seen. take 16 (drop 64 seen) ≡ file.now.guid) }
    requires journal { ForSome (known (R.state rig.old) File.Journal) (Everywhere (IsJournal journal.old)) }
    requires idle { journal.old.armed ≡ false → ForSome (known (R.state rig.old) File.Journal) IsAtRest }
    requires header { 114 ≤ file.now.length }
    requires behind { file.now.length ≤ place }
    requires near { place ≤ file.now.length + 64 }
    requires small { place + length bytes.now ≤ 2 ^ 20 }
    ensures rest { OnOk result (ForSome (known (R.state rig.new) File.Image) IsAtRest) }
    ensures journal { OnOk result (ForSome (known (R.state rig.new) File.Journal) (Everywhere (IsJournal journal.new))) }
    ensures armed { OnOk result (IsTrue journal.new.armed) }
{
    let planned = plan_of(alloc, file, place, bytes, link)?;
    let mut buffer = vec![in alloc; 0u8; SLOT_LEN]?;
    match carry_out(
        rig,
        journal,
        file,
        &planned.region,
        &planned.plan,
        &mut buffer,
    ) {
        Ok(()) => Ok(()),
        Err(_) => Err(Fail::new("not carried out")),
    }
}

// Whether these bytes stand at a place.
fn has(content: &[u8], place: usize, bytes: &[u8]) -> bool {
    match content.get(place..) {
        Some(rest) => rest.starts_with(bytes),
        None => false,
    }
}

fn check_bytes(rt: &impl Abort, content: &[u8], parts: &[Part]) {
    for (place, bytes) in parts.iter() {
        assert!(rt; has(content, *place, bytes), "at {place}");
    }
}

// Armed with A, then B was written and selected.
static ONE_IMAGE: [Part; 5] = [
    (UPDATE_PENDING, b"\0"),
    (112, b"ab"),
    (127, b"\x01"),
    (128, &[0; 32]),
    (160, b"new"),
];

static ONE_JOURNAL: [Part; 2] = [(0, b"\x5a\x01"), (SLOT_B + RECORD_LENGTH, b"\xa3\0")];

// Then A was.
static TWO_IMAGE: [Part; 2] = [(112, b"cd"), (160, b"newer")];

static TWO_JOURNAL: [Part; 2] = [(0, b"\x5a\0"), (SLOT_A + RECORD_LENGTH, b"\xa5\0")];

fn check_files(rt: &impl Abort, rig: &MemRig, len: usize, image: &[Part], journal: &[Part]) {
    assert!(rt; rig.content(File::Image).len() == len);
    assert!(rt; rig.content(File::Journal).len() == 524352);
    check_bytes(rt, rig.content(File::Image), image);
    check_bytes(rt, rig.content(File::Journal), journal);
}

#[test]
fn two_commands_one_after_another(rt: HostRuntime) -> Result<(), Fail> {
    let alloc = rt.alloc();
    let mut image = [0; 128];
    image[64] = 7;
    image[127] = 1;
    let mut rig = MemRig::new(alloc, &image, b"")?;
    let mut journal = Journal {
        armed: false,
        selected: Slot::A,
    };
    let file = head_of(rig.content(File::Image))?;
    assert!(rt; file.length == 128);
    append(alloc, &mut rig, &mut journal, &file, 160, b"new", *b"ab")?;
    check_files(&rt, &rig, 163, &ONE_IMAGE, &ONE_JOURNAL);
    assert!(rt; journal.armed && journal.selected == Slot::B);

    let file = head_of(rig.content(File::Image))?;
    assert!(rt; file.length == 163);
    append(alloc, &mut rig, &mut journal, &file, 163, b"er", *b"cd")?;
    check_files(&rt, &rig, 165, &TWO_IMAGE, &TWO_JOURNAL);
    assert!(rt; journal.armed && journal.selected == Slot::A);
    Ok(())
}
