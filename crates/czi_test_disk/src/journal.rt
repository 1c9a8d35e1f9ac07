//! `czi_journal`: which record a journal holds.

use crate::files::Part;
use czi_journal::{Journal, JournalFault, Slot, probe};
use czi_links::{Links, SlotHead};
use czi_rig::MemRig;
use czi_sample::places::*;
use czi_sample::{GUID, Link, changed, journal_of};
use std::alloc::{AllocError, Global};
use std::process::Abort;
use std::test::Fail;

const HEAD: SlotHead = SlotHead {
    guid: GUID,
    length: 1280,
};

// The links of a record of 184 bytes.
static FOUR_LINKS: [Link; 4] = [
    (84, &[0x41; 8]),
    (544, &[0x42; 32]),
    (704, &[0x43; 32]),
    (1024, &[0x44; 32]),
];

// An armed journal whose slot B is selected and has this record, with changes.
fn four_links(alloc: Global, changes: &[Part]) -> Result<Vec<u8>, AllocError> {
    let journal = journal_of(alloc, HEAD.length, &FOUR_LINKS)?;
    changed(alloc, &journal, journal.len(), changes)
}

#[test]
fn short_journal_is_void(rt: HostRuntime) -> Result<(), Fail> {
    let mut rig = MemRig::new(rt.alloc(), b"", &[0x5a])?;
    let mut links = Links::new(rt.alloc());
    assert!(rt; probe(rt.alloc(), &mut rig, &mut links) == Ok(None));
    Ok(())
}

#[test]
fn selected_slot_is_read(rt: HostRuntime) -> Result<(), Fail> {
    let journal = four_links(rt.alloc(), &[])?;
    let mut rig = MemRig::new(rt.alloc(), b"", &journal)?;
    let mut links = Links::new(rt.alloc());
    let stands = Journal {
        armed: true,
        selected: Slot::B,
    };
    assert!(rt; probe(rt.alloc(), &mut rig, &mut links) == Ok(Some((stands, HEAD))));
    assert!(rt; links.count() == 4);
    let (place, bytes) = links.link(0);
    assert!(rt; place == 84 && bytes == [0x41; 8].as_slice());
    Ok(())
}

// A change of that journal, and the refusal, or `None` where the journal is then void.
static BROKEN: [(Part, Option<JournalFault>); 7] = [
    // another mark
    ((0, &[0x59]), None),
    // slot A, which holds no record
    ((SELECTOR_BYTE, &[0]), Some(JournalFault::Version(0))),
    ((SELECTOR_BYTE, &[2]), Some(JournalFault::Version(0))),
    // slot B: version, committed length, a fifth link of no bytes, a link over the GUIDs
    ((SLOT_B, &[9]), Some(JournalFault::Version(9))),
    (
        (SLOT_B + RECORD_LENGTH + 7, &[0x80]),
        Some(JournalFault::BadRecord(262228)),
    ),
    (
        (SLOT_B + RECORD_COUNT, &[5]),
        Some(JournalFault::BadRecord(262392)),
    ),
    (
        (SLOT_B + RECORD_LINKS, &[83]),
        Some(JournalFault::BadRecord(262240)),
    ),
];

fn check_broken(
    rt: &impl Abort,
    alloc: Global,
    change: Part,
    want: Option<JournalFault>,
) -> Result<(), Fail> {
    let journal = four_links(alloc, &[change])?;
    let mut rig = MemRig::new(alloc, b"", &journal)?;
    let mut links = Links::new(alloc);
    match probe(alloc, &mut rig, &mut links) {
        Ok(found) => assert!(rt; found.is_none() && want.is_none(), "at {}", change.0),
        Err(fault) => assert!(rt; want == Some(fault), "at {}", change.0),
    }
    Ok(())
}

#[test]
fn first_broken_field_is_named(rt: HostRuntime) -> Result<(), Fail> {
    for (change, want) in BROKEN.iter() {
        check_broken(&rt, rt.alloc(), *change, *want)?;
    }
    Ok(())
}
