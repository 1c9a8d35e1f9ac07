use crate::edits::edited;
use czi_num::{read_bytes, read_i32};
use czi_seg::{
    FileHeader, HeaderFault, SegHeader, SegId, read_file_header, read_header, write_file_header,
    write_header,
};
use std::process::Abort;

/// The first 112 bytes of a document without items: its directory stands at 544.
static EMPTY: [u8; 112] = [
    0x5A, 0x49, 0x53, 0x52, 0x41, 0x57, 0x46, 0x49, 0x4C, 0x45, 0, 0, 0, 0, 0, 0, 0, 2, 0, 0, 0, 0,
    0, 0, 0, 2, 0, 0, 0, 0, 0, 0, 1, 0, 0, 0, 0, 0, 0, 0, 0, 0, 0, 0, 0, 0, 0, 0, 0x33, 0x22, 0x11,
    0x00, 0x55, 0x44, 0x77, 0x66, 0x88, 0x99, 0xAA, 0xBB, 0xCC, 0xDD, 0xEE, 0xFF, 0x33, 0x22, 0x11,
    0x00, 0x55, 0x44, 0x77, 0x66, 0x88, 0x99, 0xAA, 0xBB, 0xCC, 0xDD, 0xEE, 0xFF, 0, 0, 0, 0, 0x20,
    2, 0, 0, 0, 0, 0, 0, 0, 0, 0, 0, 0, 0, 0, 0, 0, 0, 0, 0, 0, 0, 0, 0, 0, 0, 0, 0,
];

/// Its file header.
static HEADER: FileHeader = FileHeader {
    identity: [
        1, 0, 0, 0, 0, 0, 0, 0, 0, 0, 0, 0, 0, 0, 0, 0, 0x33, 0x22, 0x11, 0x00, 0x55, 0x44, 0x77,
        0x66, 0x88, 0x99, 0xAA, 0xBB, 0xCC, 0xDD, 0xEE, 0xFF, 0x33, 0x22, 0x11, 0x00, 0x55, 0x44,
        0x77, 0x66, 0x88, 0x99, 0xAA, 0xBB, 0xCC, 0xDD, 0xEE, 0xFF, 0, 0, 0, 0,
    ],
    directory: 544,
    metadata: 0,
    pending: 0,
    attachments: 0,
    allocated: 512,
};

/// The GUID in it.
static GUID: [u8; 16] = [
    0x33, 0x22, 0x11, 0x00, 0x55, 0x44, 0x77, 0x66, 0x88, 0x99, 0xAA, 0xBB, 0xCC, 0xDD, 0xEE, 0xFF,
];

/// The front of a file header that is written with its identity.
static WRITTEN: [u8; 112] = [
    0x5A, 0x49, 0x53, 0x52, 0x41, 0x57, 0x46, 0x49, 0x4C, 0x45, 0, 0, 0, 0, 0, 0, 0, 2, 0, 0, 0, 0,
    0, 0, 0, 2, 0, 0, 0, 0, 0, 0, 1, 0, 0, 0, 0, 0, 0, 0, 0, 0, 0, 0, 0, 0, 0, 0, 0x33, 0x22, 0x11,
    0x00, 0x55, 0x44, 0x77, 0x66, 0x88, 0x99, 0xAA, 0xBB, 0xCC, 0xDD, 0xEE, 0xFF, 0x33, 0x22, 0x11,
    0x00, 0x55, 0x44, 0x77, 0x66, 0x88, 0x99, 0xAA, 0xBB, 0xCC, 0xDD, 0xEE, 0xFF, 0, 0, 0, 0, 0xC0,
    2, 0, 0, 0, 0, 0, 0, 0xFF, 0xFF, 0xFF, 0xFF, 0xFF, 0xFF, 0xFF, 0xFF, 1, 0, 0, 0, 0, 4, 0, 0, 0,
    0, 0, 0,
];

#[test]
fn headers_are_read_and_written(rt: HostRuntime) {
    let mut bytes = read_bytes::<32>(&EMPTY, 0);
    let header = SegHeader {
        id: SegId::File,
        allocated: 512,
        used: 512,
    };
    assert!(rt; read_header(&bytes) == Some(header));
    assert!(rt; write_header(&header) == bytes);
    bytes[31] = 0x80;
    assert!(rt; read_header(&bytes).is_none());
    bytes[31] = 0;
    bytes[23] = 0xFF;
    assert!(rt; read_header(&bytes).is_none());
}

/// The ids with their names in the format.
static IDS: [(SegId, [u8; 16]); 8] = [
    (SegId::File, *b"ZISRAWFILE\0\0\0\0\0\0"),
    (SegId::Directory, *b"ZISRAWDIRECTORY\0"),
    (SegId::Subblock, *b"ZISRAWSUBBLOCK\0\0"),
    (SegId::Metadata, *b"ZISRAWMETADATA\0\0"),
    (SegId::Attachment, *b"ZISRAWATTACH\0\0\0\0"),
    (SegId::AttDir, *b"ZISRAWATTDIR\0\0\0\0"),
    (SegId::Deleted, *b"DELETED\0\0\0\0\0\0\0\0\0"),
    (
        SegId::Other(*b"ZISRAWFILE\0\0\0\0\0\x01"),
        *b"ZISRAWFILE\0\0\0\0\0\x01",
    ),
];

#[test]
fn ids_are_the_names_of_the_format(rt: HostRuntime) {
    for (id, name) in IDS.iter() {
        check_id(&rt, id, name);
    }
}

fn check_id(rt: &impl Abort, id: &SegId, name: &[u8; 16]) {
    assert!(rt; SegId::from_bytes(*name) == *id);
    assert!(rt; id.to_bytes() == *name);
}

#[test]
fn a_file_header_is_read(rt: HostRuntime) {
    assert!(rt; read_file_header(&EMPTY) == Ok(HEADER));
    assert!(rt; HEADER.guid() == GUID);
}

#[test]
fn a_file_header_is_written(rt: HostRuntime) {
    let mut header = HEADER;
    header.directory = 704;
    header.metadata = -1;
    header.pending = 1;
    header.attachments = 1024;
    assert!(rt; header.allocated == 512 && read_i32(&header.identity, 48) == 0);
    let bytes = write_file_header(&header);
    let (front, behind) = bytes.split_at(112);
    assert!(rt; front == WRITTEN.as_slice());
    assert!(rt; behind.iter().all(|b| *b == 0));
}

/// What is refused: the changes to the document above, how many bytes there are, and the first rule that
/// fails.
static REFUSALS: [(&[(usize, u8)], usize, HeaderFault); 8] = [
    (&[(80, 2)], 112, HeaderFault::MultiPart(2)),
    (&[(80, 2), (25, 0)], 112, HeaderFault::MultiPart(2)),
    (&[(80, 2), (25, 0), (24, 79)], 112, HeaderFault::BadSizes),
    (
        &[(80, 2), (25, 0), (24, 80), (16, 79), (17, 0)],
        112,
        HeaderFault::BadSizes,
    ),
    (
        &[(80, 2), (25, 0), (24, 80), (16, 80), (17, 0)],
        112,
        HeaderFault::MultiPart(2),
    ),
    (
        &[(80, 2), (25, 0), (24, 81), (16, 80), (17, 0)],
        112,
        HeaderFault::BadSizes,
    ),
    (
        &[(80, 2), (25, 0), (24, 81), (16, 80), (17, 0), (9, b'F')],
        112,
        HeaderFault::BadId,
    ),
    (
        &[(80, 2), (25, 0), (24, 81), (16, 80), (17, 0), (9, b'F')],
        111,
        HeaderFault::Short,
    ),
];

#[test]
fn the_first_rule_that_fails_refuses(rt: HostRuntime) {
    for (edits, len, fault) in REFUSALS.iter() {
        check_refusal(&rt, edits, *len, *fault);
    }
}

fn check_refusal(rt: &impl Abort, edits: &[(usize, u8)], len: usize, fault: HeaderFault) {
    let bytes = edited(rt, &EMPTY, edits);
    assert!(rt; len <= 112);
    assert!(rt; read_file_header(&bytes[..len]).err() == Some(fault));
}
