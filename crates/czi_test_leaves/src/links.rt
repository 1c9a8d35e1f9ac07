use czi_links::{LinkFault, Links, SlotHead, decode};
use czi_num::write_u32;
use std::alloc::{AllocError, Global};
use std::process::Abort;
use std::test::Fail;

static GUID: [u8; 16] = [
    0x33, 0x22, 0x11, 0x00, 0x55, 0x44, 0x77, 0x66, 0x88, 0x99, 0xaa, 0xbb, 0xcc, 0xdd, 0xee, 0xff,
];

/// The record of a commit of four links, 184 bytes, and zeros behind it.
fn four_links(alloc: Global) -> Result<[u8; 240], AllocError> {
    let mut links = Links::new(alloc);
    links.reserve(4, 104)?;
    links.push(84, &1024u64.to_le_bytes());
    links.push(544, &[0x44; 32]);
    links.push(704, &[0x55; 32]);
    links.push(1024, &[0x66; 32]);
    let head = SlotHead {
        guid: GUID,
        length: 1280,
    };
    let mut slot = [0u8; 240];
    let len = links.encoded_len();
    if len <= 240 {
        links.encode(&head, &mut slot[..len]);
    }
    Ok(slot)
}

/// The record of a commit of one link, 46 bytes, and other bytes behind it.
fn one_link(rt: &impl Abort, alloc: Global) -> Result<[u8; 64], AllocError> {
    let mut links = Links::new(alloc);
    links.reserve(1, 8)?;
    links.push(112, &[0x41, 0x42]);
    assert!(rt; links.encoded_len() == 46);
    let head = SlotHead {
        guid: GUID,
        length: 128,
    };
    let mut slot = [0xeeu8; 64];
    links.encode(&head, &mut slot[..46]);
    Ok(slot)
}

#[test]
fn one_link_is_read_again(rt: HostRuntime) -> Result<(), Fail> {
    let slot = one_link(&rt, rt.alloc())?;
    let head = SlotHead {
        guid: GUID,
        length: 128,
    };
    let mut links = Links::new(rt.alloc());
    assert!(rt; decode(&slot, &mut links) == Ok(head));
    assert!(rt; links.count() == 1);
    let (place, bytes) = links.link(0);
    assert!(rt; place == 112 && bytes == [0x41, 0x42].as_slice());
    links.clear();
    assert!(rt; links.count() == 0);
    Ok(())
}

/// Parts of the record of four links: a place of the slot, and the bytes there.
static PARTS: [(usize, &[u8]); 6] = [
    (0, &[1, 0, 0, 0]),
    (
        4,
        &[
            0x33, 0x22, 0x11, 0x00, 0x55, 0x44, 0x77, 0x66, 0x88, 0x99, 0xaa, 0xbb, 0xcc, 0xdd,
            0xee, 0xff,
        ],
    ),
    (20, &[0x00, 0x05, 0, 0, 0, 0, 0, 0, 4, 0, 0, 0]),
    (
        32,
        &[84, 0, 0, 0, 0, 0, 0, 0, 8, 0, 0, 0, 0, 4, 0, 0, 0, 0, 0, 0],
    ),
    (
        52,
        &[
            0x20, 2, 0, 0, 0, 0, 0, 0, 32, 0, 0, 0, 0x44, 0x44, 0x44, 0x44,
        ],
    ),
    (180, &[0x66, 0x66, 0x66, 0x66, 0, 0, 0, 0]),
];

#[test]
fn record_has_the_bytes_of_the_format(rt: HostRuntime) -> Result<(), Fail> {
    let slot = four_links(rt.alloc())?;
    for (place, bytes) in PARTS.iter() {
        check_part(&rt, &slot, *place, bytes);
    }
    Ok(())
}

fn check_part(rt: &impl Abort, slot: &[u8; 240], place: usize, bytes: &[u8]) {
    assert!(rt; place <= 200 && bytes.len() <= 40);
    assert!(rt; &slot[place..place + bytes.len()] == bytes, "at {place}");
}

#[test]
fn four_links_are_read_again(rt: HostRuntime) -> Result<(), Fail> {
    let slot = four_links(rt.alloc())?;
    let mut links = Links::new(rt.alloc());
    let head = SlotHead {
        guid: GUID,
        length: 1280,
    };
    assert!(rt; decode(&slot, &mut links) == Ok(head));
    assert!(rt; links.count() == 4);
    Ok(())
}

/// Numbers that break the record of four links: a place of the slot, what stands there, and the fault.
static BROKEN: [(usize, u32, LinkFault); 9] = [
    (0, 9, LinkFault::Version(9)),
    // a committed length below 112, or above 2^62
    (20, 111, LinkFault::Bad(20)),
    (24, 0x4000_0000, LinkFault::Bad(20)),
    // a fifth link, of no bytes
    (28, 5, LinkFault::Bad(184)),
    // a link over the GUIDs, without a byte, or before the end of the one before
    (32, 83, LinkFault::Bad(32)),
    (40, 0, LinkFault::Bad(32)),
    (52, 91, LinkFault::Bad(52)),
    // the last link past the slot's end, or past the committed length
    (148, 89, LinkFault::Bad(140)),
    (20, 1055, LinkFault::Bad(140)),
];

#[test]
fn first_broken_field_is_named(rt: HostRuntime) -> Result<(), Fail> {
    let slot = four_links(rt.alloc())?;
    for (place, value, fault) in BROKEN.iter() {
        check_broken(&rt, rt.alloc(), &slot, *place, *value, *fault);
    }
    Ok(())
}

fn check_broken(
    rt: &impl Abort,
    alloc: Global,
    slot: &[u8; 240],
    place: usize,
    value: u32,
    fault: LinkFault,
) {
    let mut bad = *slot;
    assert!(rt; place <= 236);
    write_u32(&mut bad, place, value);
    let mut links = Links::new(alloc);
    assert!(rt; decode(slot, &mut links).is_ok());
    assert!(rt; decode(&bad, &mut links) == Err(fault), "at {place}");
    assert!(rt; links.count() == 0);
}
