use crate::edits::edited;
use czi_att::{read_a1, read_guid, write_a1, write_guid};
use czi_doc::AttInfo;

/// 00112233-4455-6677-8899-aabbccddeeff as it is stored.
static GUID: [u8; 16] = [
    0x33, 0x22, 0x11, 0x00, 0x55, 0x44, 0x77, 0x66, 0x88, 0x99, 0xAA, 0xBB, 0xCC, 0xDD, 0xEE, 0xFF,
];

/// The entry of an attachment at 704 with this GUID, the type TXT and the name EventList.
pub(crate) static ENTRY: [u8; 128] = [
    0x41, 0x31, 0, 0, 0, 0, 0, 0, 0, 0, 0, 0, 0xC0, 2, 0, 0, 0, 0, 0, 0, 0, 0, 0, 0, 0x33, 0x22,
    0x11, 0x00, 0x55, 0x44, 0x77, 0x66, 0x88, 0x99, 0xAA, 0xBB, 0xCC, 0xDD, 0xEE, 0xFF, 0x54, 0x58,
    0x54, 0, 0, 0, 0, 0, 0x45, 0x76, 0x65, 0x6E, 0x74, 0x4C, 0x69, 0x73, 0x74, 0, 0, 0, 0, 0, 0, 0,
    0, 0, 0, 0, 0, 0, 0, 0, 0, 0, 0, 0, 0, 0, 0, 0, 0, 0, 0, 0, 0, 0, 0, 0, 0, 0, 0, 0, 0, 0, 0, 0,
    0, 0, 0, 0, 0, 0, 0, 0, 0, 0, 0, 0, 0, 0, 0, 0, 0, 0, 0, 0, 0, 0, 0, 0, 0, 0, 0, 0, 0, 0, 0, 0,
];

/// What it says.
pub(crate) static INFO: AttInfo = AttInfo {
    guid: [
        0x33, 0x22, 0x11, 0x00, 0x55, 0x44, 0x77, 0x66, 0x88, 0x99, 0xAA, 0xBB, 0xCC, 0xDD, 0xEE,
        0xFF,
    ],
    kind: *b"TXT\0\0\0\0\0",
    name: [
        b'E', b'v', b'e', b'n', b't', b'L', b'i', b's', b't', 0, 0, 0, 0, 0, 0, 0, 0, 0, 0, 0, 0,
        0, 0, 0, 0, 0, 0, 0, 0, 0, 0, 0, 0, 0, 0, 0, 0, 0, 0, 0, 0, 0, 0, 0, 0, 0, 0, 0, 0, 0, 0,
        0, 0, 0, 0, 0, 0, 0, 0, 0, 0, 0, 0, 0, 0, 0, 0, 0, 0, 0, 0, 0, 0, 0, 0, 0, 0, 0, 0, 0,
    ],
};

#[test]
fn an_entry_is_read_and_written(rt: HostRuntime) {
    assert!(rt; read_a1(&ENTRY) == Some((INFO, 704)));
    assert!(rt; write_a1(&INFO, 704) == ENTRY);
}

#[test]
fn spare_bytes_of_an_entry_are_not_looked_at(rt: HostRuntime) {
    let spare = edited(&rt, &ENTRY, &[(2, 7), (20, 1)]);
    assert!(rt; read_a1(&spare) == Some((INFO, 704)));
    let other = edited(&rt, &spare, &[(1, b'2')]);
    assert!(rt; read_a1(&other).is_none());
}

#[test]
fn a_negative_position_is_kept(rt: HostRuntime) {
    let info = AttInfo {
        guid: GUID,
        kind: [0; 8],
        name: [0x41; 80],
    };
    let bytes = write_a1(&info, -2);
    assert!(rt; bytes[12] == 0xFE && bytes[13] == 0xFF && bytes[18] == 0xFF && bytes[19] == 0xFF);
    assert!(rt; read_a1(&bytes) == Some((info, -2)));
}

/// Texts of the GUID above.
static TEXTS: [&str; 4] = [
    "00112233-4455-6677-8899-aabbccddeeff",
    "00112233445566778899AABBCCDDEEFF",
    "{00112233-4455-6677-8899-AaBbCcDdEeFf}",
    "urn:uuid:00112233-4455-6677-8899-aabbccddeeff",
];

/// Texts of no GUID.
static OTHERS: [&str; 3] = [
    "00112233-4455-6677-8899-aabbccddeef",
    "00112233-4455-6677-8899-aabbccddeefg",
    "",
];

#[test]
fn guids_are_read_in_each_form_of_their_text(rt: HostRuntime) {
    for text in TEXTS.iter() {
        assert!(rt; read_guid(text) == Some(GUID), "{text}");
    }
}

#[test]
fn other_texts_are_of_no_guid(rt: HostRuntime) {
    for text in OTHERS.iter() {
        assert!(rt; read_guid(text).is_none(), "{text}");
    }
}

#[test]
fn a_guid_is_written_in_lower_case(rt: HostRuntime) {
    assert!(rt; write_guid(&GUID) == *b"00112233-4455-6677-8899-aabbccddeeff");
}
