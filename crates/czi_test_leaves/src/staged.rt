ghost use Rattle.std.specs.Prelude.{◌≡◌, ◌≤◌, ◌+◌, [], length, IfOk};
ghost use Rattle.czi_region.specs.Pieces.{IsPiece, bytes_put, room};

use crate::attachments::{ENTRY, INFO};
use czi_att::{att_size, stage_att};
use czi_body::{meta_size, stage_meta, stage_sub, sub_size};
use czi_region::{Piece, Region};
use std::alloc::{AllocError, Global};
use std::process::Abort;
use std::test::Fail;

/// The own entry of C0,X0:4,Y0:2, whose segment stands at 704.
const TILE: &[u8] = &[
    0x44, 0x56, 0, 0, 0, 0, 0xC0, 0x02, 0, 0, 0, 0, 0, 0, 0, 0, 0, 0, 0, 0, 0, 0, 0, 0, 0, 0, 0, 0,
    3, 0, 0, 0, 0x43, 0, 0, 0, 0, 0, 0, 0, 1, 0, 0, 0, 0, 0, 0, 0, 1, 0, 0, 0, 0x58, 0, 0, 0, 0, 0,
    0, 0, 4, 0, 0, 0, 0, 0, 0, 0, 4, 0, 0, 0, 0x59, 0, 0, 0, 0, 0, 0, 0, 2, 0, 0, 0, 0, 0, 0, 0, 2,
    0, 0, 0,
];

/// As many bytes as an entry of 40 dimensions has.
const LONGEST: &[u8] = &[7; 832];

/// The parts of subblocks: entry, metadata, pixels and attachment, how long their data is, and what stands in
/// it where. All else is 0.
static SUBBLOCKS: [(&[u8], &[u8], &[u8], &[u8], usize, &[(usize, &[u8])]); 3] = [
    (
        TILE,
        b"",
        b"ABCDEFGH",
        b"",
        288,
        &[(8, &[8]), (16, TILE), (256, b"ABCDEFGH")],
    ),
    (
        TILE,
        b"<m/>",
        b"ABCDEFGHIJKLMNOPQRSTUVWXYZ",
        b"ta",
        288,
        &[
            (0, &[4]),
            (4, &[2]),
            (8, &[26]),
            (16, TILE),
            (256, b"<m/>"),
            (260, b"ABCDEFGHIJKLMNOPQRSTUVWXYZ"),
            (286, b"ta"),
        ],
    ),
    (
        LONGEST,
        b"<m/>",
        b"AB",
        b"tail",
        864,
        &[
            (0, &[4]),
            (4, &[4]),
            (8, &[2]),
            (16, LONGEST),
            (848, b"<m/>ABtail"),
        ],
    ),
];

#[test]
fn data_of_subblocks_is_staged(rt: HostRuntime) -> Result<(), Fail> {
    let mut region = Region::new(rt.alloc());
    for (entry, meta, pixels, tail, len, parts) in SUBBLOCKS.iter() {
        region.reset();
        region.ensure(1024)?;
        let earlier = region.put(b"earlier");
        assert!(rt; entry.len() <= 832 && meta.len() < 99 && pixels.len() < 99 && tail.len() < 99);
        assert!(rt; sub_size(entry.len(), meta.len(), pixels.len(), tail.len()) == *len);
        assert!(rt; region.room() >= *len);
        let piece = stage_sub(&mut region, entry, meta, pixels, tail);
        assert!(rt; region.get(&earlier) == b"earlier".as_slice());
        check_data(&rt, region.get(&piece), *len, parts);
    }
    Ok(())
}

/// The data has so many bytes, and these parts stand in it. All else is 0.
fn check_data(rt: &impl Abort, data: &[u8], len: usize, parts: &[(usize, &[u8])]) {
    let mut expected = [0; 1024];
    for (place, bytes) in parts.iter() {
        assert!(rt; *place < 1024 && bytes.len() <= 1024 - *place);
        expected[*place..*place + bytes.len()].copy_from_slice(bytes);
    }
    assert!(rt; len <= 1024 && data == &expected[..len]);
}

/// Lengths at the borders of 32: of the entry, the metadata, the pixels and the attachment, and of the data.
static SIZES: [(usize, usize, usize, usize, usize); 7] = [
    (92, 0, 0, 0, 256),
    (92, 0, 32, 0, 288),
    (92, 1, 30, 2, 320),
    (240, 0, 0, 0, 256),
    (252, 0, 0, 0, 288),
    (832, 7, 8, 1, 864),
    (832, 16777216, 67108864, 67108864, 150995808),
];

#[test]
fn sizes_are_rounded_up(rt: HostRuntime) {
    for (entry, meta, pixels, tail, len) in SIZES.iter() {
        assert!(rt; *entry <= 832 && *meta <= 16777216 && *pixels <= 67108864 && *tail <= 67108864);
        assert!(rt; sub_size(*entry, *meta, *pixels, *tail) == *len);
    }
    assert!(rt; meta_size(0, 0) == 256 && meta_size(31, 1) == 288 && meta_size(31, 2) == 320);
    assert!(rt; att_size(0) == 256 && att_size(32) == 288 && att_size(33) == 320);
}

#[test]
fn data_of_the_metadata_is_staged(rt: HostRuntime) -> Result<(), Fail> {
    let mut region = Region::new(rt.alloc());
    region.ensure(1024)?;
    assert!(rt; region.room() >= 320);
    let piece = stage_meta(&mut region, b"<Metadata/>", b"attached");
    let parts: [(usize, &[u8]); 3] = [(0, &[11]), (4, &[8]), (256, b"<Metadata/>attached")];
    check_data(&rt, region.get(&piece), 288, &parts);
    Ok(())
}

#[test]
fn data_of_an_attachment_is_staged(rt: HostRuntime) -> Result<(), Fail> {
    let mut region = Region::new(rt.alloc());
    region.ensure(1024)?;
    let piece = stage_att(
        &mut region,
        &INFO,
        704,
        b"33 bytes, one past a multiple: 32",
    );
    let parts: [(usize, &[u8]); 3] = [
        (0, &[33]),
        (16, &ENTRY),
        (256, b"33 bytes, one past a multiple: 32"),
    ];
    check_data(&rt, region.get(&piece), 320, &parts);
    Ok(())
}
