//! `czi_sample`: each kind of segment, and a slot of the journal, beside their bytes in digits.

use czi_sample::{Part, Segment, Subblock, changed, image_of, journal_of};
use std::test::Fail;

/// A segment of each kind.
static SEGMENTS: [Segment; 8] = [
    Segment::Directory(96),
    Segment::Subblock(Subblock {
        pixel: 3,
        compression: -1,
        dims: b"C0,X-4:4:4,Y0:2:1",
        meta: b"<m>",
        pixels: b"ABCDEFGH",
        tail: b"t",
    }),
    Segment::AttDir(128),
    Segment::Attachment(b"TXT", b"notes", b"four"),
    Segment::Metadata(b"<xml>", b"t"),
    Segment::Deleted(32),
    Segment::Foreign(b"~ 0123456789abc!", 32),
    Segment::Raw(b"tail"),
];

const GUID: &[u8] = b"\x33\x22\x11\x00\x55\x44\x77\x66\x88\x99\xAA\xBB\xCC\xDD\xEE\xFF";

/// The entry of the subblock at 800.
const ENTRY: &[u8] =
    b"DV\x03\0\0\0\x20\x03\0\0\0\0\0\0\0\0\0\0\xFF\xFF\xFF\xFF\0\0\0\0\0\0\x03\0\0\0\
    C\0\0\0\0\0\0\0\x01\0\0\0\0\0\0\0\x01\0\0\0\
    X\0\0\0\xFC\xFF\xFF\xFF\x04\0\0\0\0\0\0\0\x04\0\0\0\
    Y\0\0\0\0\0\0\0\x02\0\0\0\0\0\0\0\x01\0\0\0";

/// The bytes of their image. All else is 0.
static IMAGE: [Part; 45] = [
    (0, b"ZISRAWFILE"),
    (16, &[0, 2]),
    (24, &[0, 2]),
    (32, &[1]),
    (48, GUID),
    (64, GUID),
    (84, &[0x20, 2]),
    (92, &[0x40, 7]),
    (104, &[0x60, 4]),
    (544, b"ZISRAWDIRECTORY"),
    (560, &[224]),
    (568, &[220]),
    (576, &[1]),
    (704, ENTRY),
    (800, b"ZISRAWSUBBLOCK"),
    (816, &[0x20, 1]),
    (824, &[0x0C, 1]),
    (832, &[3]),
    (836, &[1]),
    (840, &[8]),
    (848, ENTRY),
    (1088, b"<m>ABCDEFGHt"),
    (1120, b"ZISRAWATTDIR"),
    (1136, &[0x80, 1]),
    (1144, &[0x80, 1]),
    (1152, &[1]),
    (1408, b"A1"),
    (1420, &[0, 6]),
    (1432, GUID),
    (1448, b"TXT\0\0\0\0\0notes"),
    (1536, b"ZISRAWATTACH"),
    (1552, &[0x20, 1]),
    (1560, &[4, 1]),
    (1568, &[4]),
    (1584, b"A1\0\0\0\0\0\0\0\0\0\0\0\x06"),
    (1608, GUID),
    (1624, b"TXT\0\0\0\0\0notes"),
    (1824, b"four"),
    (1856, b"ZISRAWMETADATA\0\0\x20\x01\0\0\0\0\0\0\x06\x01"),
    (1888, &[5]),
    (1892, &[1]),
    (2144, b"<xml>t"),
    (2176, b"DELETED\0\0\0\0\0\0\0\0\0\x20"),
    (2240, b"~ 0123456789abc!\x20\0\0\0\0\0\0\0\x20"),
    (2304, b"tail"),
];

#[test]
fn an_image_of_each_segment_has_the_bytes_of_the_format(rt: HostRuntime) -> Result<(), Fail> {
    let image = image_of(rt.alloc(), &SEGMENTS)?;
    let digits = changed(rt.alloc(), b"", 2308, &IMAGE)?;
    assert!(rt; image == digits);
    Ok(())
}

/// The bytes of a journal whose slot B has two links.
static JOURNAL: [Part; 8] = [
    (0, &[0x5A, 1]),
    (262_208, &[1]),
    (262_212, GUID),
    (262_228, &[0, 5]),
    (262_236, &[2]),
    (262_240, &[84, 0, 0, 0, 0, 0, 0, 0, 2, 0, 0, 0, 0x20, 2]),
    (262_254, &[0x20, 2, 0, 0, 0, 0, 0, 0, 3]),
    (262_266, b"ABC"),
];

#[test]
fn a_journal_has_the_bytes_of_the_format(rt: HostRuntime) -> Result<(), Fail> {
    let journal = journal_of(rt.alloc(), 1280, &[(84, &[0x20, 2]), (544, b"ABC")])?;
    let digits = changed(rt.alloc(), b"", 524_352, &JOURNAL)?;
    assert!(rt; journal == digits);
    Ok(())
}

#[test]
fn padding_is_taken_away(rt: HostRuntime) -> Result<(), Fail> {
    let segments = [
        Segment::Attachment(b"TXT", b"notes", b"four"),
        Segment::Unpadded,
    ];
    let image = image_of(rt.alloc(), &segments)?;
    assert!(rt; image.len() == 836 && image[560..].starts_with(&[4, 1, 0, 0, 0, 0, 0, 0, 4, 1]));
    assert!(rt; image.ends_with(b"four"));
    Ok(())
}
