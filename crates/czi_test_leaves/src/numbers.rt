use czi_num::{
    Span, meets, read_bytes, read_i32, read_i64, read_u16, read_u32, read_u64, round32,
    write_bytes, write_i32, write_i64, write_u16, write_u32, write_u64,
};
use std::process::Abort;

/// The sizes of a file header's segment, UpdatePending and a FilePosition before the front.
static HEADER: [u8; 32] = [
    0x5A, 0x49, 0x53, 0x52, 0x41, 0x57, 0x46, 0x49, 0x4C, 0x45, 0, 0, 0, 0, 0, 0, 0x00, 0x02, 0, 0,
    0, 0, 0, 0, 0xFE, 0xFF, 0xFF, 0xFF, 0xFF, 0xFF, 0xFF, 0xFF,
];

#[test]
fn numbers_are_read_low_byte_first(rt: HostRuntime) {
    assert!(rt; read_bytes::<10>(&HEADER, 0) == *b"ZISRAWFILE");
    assert!(rt; read_u16(&HEADER, 16) == 512 && read_u16(&HEADER, 0) == 0x495A);
    assert!(rt; read_u32(&HEADER, 4) == 0x49465741);
    assert!(rt; read_u64(&HEADER, 16) == 512);
    assert!(rt; read_u64(&HEADER, 24) == 0xFFFF_FFFF_FFFF_FFFE);
}

#[test]
fn signed_numbers_are_read(rt: HostRuntime) {
    assert!(rt; read_i64(&HEADER, 24) == -2);
    assert!(rt; read_i32(&HEADER, 24) == -2 && read_i32(&HEADER, 16) == 512);
}

#[test]
fn signed_numbers_are_written_in_place(rt: HostRuntime) {
    let mut bytes = [0xAAu8; 12];
    write_i32(&mut bytes, 2, -2);
    assert!(rt;
        bytes
            == [
                0xAA, 0xAA, 0xFE, 0xFF, 0xFF, 0xFF, 0xAA, 0xAA, 0xAA, 0xAA, 0xAA, 0xAA
            ]
    );
    write_i64(&mut bytes, 4, 544);
    assert!(rt; bytes == [0xAA, 0xAA, 0xFE, 0xFF, 0x20, 0x02, 0, 0, 0, 0, 0, 0]);
}

#[test]
fn numbers_are_written_in_place(rt: HostRuntime) {
    let mut bytes = [0xAA, 0xAA, 0xFE, 0xFF, 0x20, 0x02, 0, 0, 0, 0, 0, 0];
    write_u16(&mut bytes, 0, 0x0102);
    write_u32(&mut bytes, 2, 0x0506_0708);
    assert!(rt; bytes == [0x02, 0x01, 0x08, 0x07, 0x06, 0x05, 0, 0, 0, 0, 0, 0]);
    write_u64(&mut bytes, 4, 1 << 63);
    write_bytes(&mut bytes, 0, b"DV");
    assert!(rt; bytes == [0x44, 0x56, 0x08, 0x07, 0, 0, 0, 0, 0, 0, 0, 0x80]);
}

#[test]
fn neighbours_do_not_meet(rt: HostRuntime) {
    let header = Span { at: 0, len: 544 };
    let directory = Span { at: 544, len: 160 };
    let last = Span { at: 703, len: 1 };
    let nothing = Span { at: 600, len: 0 };
    assert!(rt; !meets(&header, &directory));
    assert!(rt; meets(&directory, &last) && meets(&last, &directory));
    assert!(rt; !meets(&directory, &nothing));
    assert!(rt; directory == Span { at: 544, len: 160 });
}

/// Numbers, each with the next multiple of 32.
static ROUNDED: [(u64, u64); 5] = [(0, 0), (1, 32), (32, 32), (308, 320), (592, 608)];

#[test]
fn lengths_are_rounded_up(rt: HostRuntime) {
    for (n, rounded) in ROUNDED.iter() {
        check_rounded(&rt, *n, *rounded);
    }
}

fn check_rounded(rt: &impl Abort, n: u64, rounded: u64) {
    assert!(rt; n <= 1000);
    assert!(rt; round32(n) == rounded, "{n}");
}
