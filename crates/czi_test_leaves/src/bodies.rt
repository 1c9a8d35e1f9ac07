use crate::edits::edited;
use czi_body::{MetaHead, SubHead, read_meta_head, read_sub_head};
use std::process::Abort;

/// Fronts of subblocks: the bytes that aren't 0, and what is read. The first is a tile of 8 bytes of pixels
/// with three dimension records, the second has 25 records.
static FRONTS: [(&[(usize, u8)], Option<SubHead>); 6] = [
    (
        &[(8, 8), (44, 3)],
        Some(SubHead {
            meta: 0,
            pixels: 8,
            tail: 0,
            begin: 256,
        }),
    ),
    (
        &[(1, 0x10), (4, 7), (8, 8), (12, 1), (44, 25)],
        Some(SubHead {
            meta: 4096,
            pixels: 0x1_0000_0008,
            tail: 7,
            begin: 548,
        }),
    ),
    (
        &[(1, 0x10), (4, 7), (8, 8), (12, 1), (44, 40)],
        Some(SubHead {
            meta: 4096,
            pixels: 0x1_0000_0008,
            tail: 7,
            begin: 848,
        }),
    ),
    (&[(1, 0x10), (4, 7), (8, 8), (12, 1), (44, 41)], None),
    (
        &[(1, 0x10), (4, 7), (8, 8), (12, 1)],
        Some(SubHead {
            meta: 4096,
            pixels: 0x1_0000_0008,
            tail: 7,
            begin: 256,
        }),
    ),
    (&[(1, 0x10), (4, 7), (8, 8), (12, 1), (47, 0x80)], None),
];

/// Fronts with one size that is negative: the byte that isn't 0.
static NEGATIVE: [(usize, u8); 3] = [(3, 0x80), (7, 0xFF), (15, 0x80)];

#[test]
fn fronts_of_subblocks_are_read(rt: HostRuntime) {
    for (edits, head) in FRONTS.iter() {
        check_front(&rt, edits, *head);
    }
}

#[test]
fn negative_sizes_of_subblocks_are_refused(rt: HostRuntime) {
    for edit in NEGATIVE.iter() {
        check_front(&rt, &[*edit], None);
    }
}

fn check_front(rt: &impl Abort, edits: &[(usize, u8)], head: Option<SubHead>) {
    let bytes = edited(rt, &[0; 48], edits);
    assert!(rt; read_sub_head(&bytes) == head);
}

#[test]
fn fronts_of_metadata_are_read(rt: HostRuntime) {
    let head = MetaHead {
        xml: 40000,
        tail: 5,
    };
    assert!(rt; read_meta_head(&[0x40, 0x9C, 0, 0, 5, 0, 0, 0]) == Some(head));
    assert!(rt; read_meta_head(&[0, 0, 0, 0x80, 5, 0, 0, 0]).is_none());
    assert!(rt; read_meta_head(&[0, 0, 0, 0, 5, 0, 0, 0xFF]).is_none());
}
