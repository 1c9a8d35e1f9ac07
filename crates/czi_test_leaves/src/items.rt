use czi_doc::{
    AttInfo, Bytes, Dim, Dims, EntryInfo, ItemFault, Key, TextFault, equal_keys, read_dims,
    read_integer, read_natural, write_dims, write_name,
};
use std::alloc::{AllocError, Global};
use std::process::Abort;
use std::test::Fail;

/// A record: its name, its start, and its size in pixels and as stored.
type Record = ([u8; 4], i32, i32, i32);

static TILE: [Record; 3] = [
    (*b"C\0\0\0", 0, 1, 1),
    (*b"X\0\0\0", 0, 4, 4),
    (*b"Y\0\0\0", 0, 2, 0),
];

/// Records with the same key.
static OTHER: [Record; 3] = [
    (*b"Y\0\0\0", 0, 2, 2),
    (*b"C\0\0\0", 0, 9, 3),
    (*b"X\0\0\0", 0, 4, 0),
];

/// Records with a lower one.
static NARROW: [Record; 3] = [
    (*b"C\0\0\0", 0, 1, 1),
    (*b"X\0\0\0", 0, 4, 4),
    (*b"Y\0\0\0", 0, 1, 0),
];

fn dim(record: &Record) -> Dim {
    Dim {
        name: record.0,
        start: record.1,
        size: record.2,
        coord: [0; 4],
        stored: record.3,
    }
}

fn dims(alloc: Global, records: &[Record]) -> Result<Dims, Fail> {
    let list = records.iter().map(dim).collect(alloc)?;
    Ok(Dims::new(list).map_err(|_| "refused")?)
}

fn key(alloc: Global, records: &[Record]) -> Result<Key, Fail> {
    let dims = dims(alloc, records)?;
    Ok(Key::of(alloc, &dims)?)
}

/// Numbers of records, each with the length of the list that is made of them, or why none is.
static LENGTHS: [(usize, Result<usize, ItemFault>); 4] = [
    (0, Err(ItemFault::NoDims)),
    (1, Ok(1)),
    (40, Ok(40)),
    (41, Err(ItemFault::ManyDims(41))),
];

#[test]
fn lists_of_one_to_forty(rt: HostRuntime) -> Result<(), Fail> {
    for (records, length) in LENGTHS.iter() {
        check_length(&rt, rt.alloc(), *records, *length)?;
    }
    Ok(())
}

fn check_length(
    rt: &impl Abort,
    alloc: Global,
    records: usize,
    length: Result<usize, ItemFault>,
) -> Result<(), AllocError> {
    let list = vec![in alloc; dim(&TILE[0]); records]?;
    assert!(rt; Dims::new(list).map(|dims| dims.list().len()) == length);
    Ok(())
}

#[test]
fn sizes_as_stored(rt: HostRuntime) {
    assert!(rt; dim(&(*b"C\0\0\0", 0, 1, 1)).stored_size() == 1);
    assert!(rt; dim(&(*b"X\0\0\0", 0, 7, 0)).stored_size() == 7);
}

#[test]
fn written_text(rt: HostRuntime) -> Result<(), Fail> {
    check_written(&rt, rt.alloc(), &TILE, "=C0:1:1,X0:4:4,Y0:2:2")?;
    let foreign = [([b'%', 0x1F, 0xAB, b'~'], -2147483648, 2147483647, -1)];
    let text = "=%25%1f%ab~-2147483648:2147483647:-1";
    check_written(&rt, rt.alloc(), &foreign, text)
}

fn check_written(
    rt: &impl Abort,
    alloc: Global,
    records: &[Record],
    text: &str,
) -> Result<(), Fail> {
    let mut out = vec![in alloc; b'=']?;
    write_dims(&dims(alloc, records)?, &mut out)?;
    assert!(rt; out.as_slice() == text.as_bytes());
    Ok(())
}

#[test]
fn written_name(rt: HostRuntime) -> Result<(), Fail> {
    let mut text = vec![in rt.alloc(); b'=']?;
    write_name(b"Event List\0s", &mut text)?;
    assert!(rt; text.as_slice() == b"=Event%20List".as_slice());
    Ok(())
}

#[test]
fn keys(rt: HostRuntime) -> Result<(), Fail> {
    let a = key(rt.alloc(), &TILE)?;
    let b = key(rt.alloc(), &OTHER)?;
    let c = key(rt.alloc(), &NARROW)?;
    assert!(rt; a == b && c < a);
    equal_keys();
    Ok(())
}

#[test]
fn copies(rt: HostRuntime) -> Result<(), Fail> {
    let dims = dims(rt.alloc(), &TILE)?;
    assert!(rt; dims.try_copy()? == dims);
    let info = EntryInfo {
        pixel: 3,
        compression: 1,
        pyramid: 2,
        spare: [1, 2, 3, 4, 5],
        dims,
    };
    assert!(rt; info.try_copy()? == info);
    Ok(())
}

#[test]
fn copies_of_plain_data(rt: HostRuntime) -> Result<(), Fail> {
    let bytes = Bytes::new(vec![in rt.alloc(); 7, 8]?);
    assert!(rt; bytes.as_slice() == [7, 8].as_slice());
    let att = AttInfo {
        guid: [1; 16],
        kind: *b"CZTIMS\0\0",
        name: [b'a'; 80],
    };
    let copy = att;
    assert!(rt; copy == att);
    Ok(())
}

/// Texts that are read, each with what is written of it.
static TEXTS: [(&str, &str); 4] = [
    ("C0,X0:4,Y0:2", "C0:1:1,X0:4:4,Y0:2:2"),
    (
        "ABCD-2147483648:2147483647:0",
        "ABCD-2147483648:2147483647:2147483647",
    ),
    ("S7", "S7:1:1"),
    ("M-5:-3:-1", "M-5:-3:-1"),
];

#[test]
fn texts_that_are_read(rt: HostRuntime) -> Result<(), Fail> {
    for (text, written) in TEXTS.iter() {
        check_read(&rt, rt.alloc(), text, written)?;
    }
    Ok(())
}

fn check_read(rt: &impl Abort, alloc: Global, text: &str, written: &str) -> Result<(), Fail> {
    let dims = read_dims(alloc, text.as_bytes()).map_err(|_| "refused")?;
    let mut out = Vec::new(alloc);
    write_dims(&dims, &mut out)?;
    assert!(rt; out.as_slice() == written.as_bytes(), "{text}");
    Ok(())
}

/// Texts that aren't read, each with the place of its fault.
static FAULTS: [(&str, usize); 14] = [
    ("", 0),
    ("C", 1),
    ("c0", 0),
    ("ABCDE0", 4),
    ("C-", 2),
    ("C-0", 2),
    ("C00", 2),
    ("C0,", 3),
    ("C0:1:1:1", 6),
    ("C0:", 3),
    ("C2147483648", 1),
    ("C0:-2147483649,!", 3),
    ("C0 ", 2),
    ("X0,Y99999999999999999999999", 4),
];

#[test]
fn places_of_faults(rt: HostRuntime) {
    for (text, place) in FAULTS.iter() {
        check_fault(&rt, rt.alloc(), text, *place);
    }
}

fn check_fault(rt: &impl Abort, alloc: Global, text: &str, place: usize) {
    let fault = read_dims(alloc, text.as_bytes()).err();
    assert!(rt; fault == Some(TextFault::Bad(place)), "{text}");
}

/// Texts, each with the natural below 2^64 and the integer of 32 bits that it is, if it is one.
static NUMBERS: [(&str, Option<u64>, Option<i32>); 12] = [
    ("0", Some(0), Some(0)),
    ("7", Some(7), Some(7)),
    ("-7", None, Some(-7)),
    ("-0", None, None),
    ("07", None, None),
    ("+7", None, None),
    ("", None, None),
    ("7 ", None, None),
    ("2147483648", Some(2_147_483_648), None),
    ("-2147483648", None, Some(-2_147_483_648)),
    (
        "18446744073709551615",
        Some(18_446_744_073_709_551_615),
        None,
    ),
    ("18446744073709551616", None, None),
];

#[test]
fn numbers_of_text(rt: HostRuntime) {
    for (text, natural, integer) in NUMBERS.iter() {
        check_number(&rt, text, *natural, *integer);
    }
}

fn check_number(rt: &impl Abort, text: &str, natural: Option<u64>, integer: Option<i32>) {
    assert!(rt; read_natural(text.as_bytes()) == natural, "{text}");
    assert!(rt; read_integer(text.as_bytes()) == integer, "{text}");
}
