use crate::edits::edited;
use czi_doc::{Dim, Dims, EntryInfo};
use czi_dv::{EntryFault, entry_len, read_entry, write_directory_head, write_entry};
use std::alloc::Global;
use std::process::Abort;
use std::test::Fail;

/// The entry of a Gray8 tile of 4 by 2 pixels in channel 0 whose segment stands at 704.
static TILE: [u8; 92] = [
    0x44, 0x56, 0, 0, 0, 0, 0xC0, 0x02, 0, 0, 0, 0, 0, 0, 0, 0, 0, 0, 0, 0, 0, 0, 2, 9, 8, 7, 6, 5,
    3, 0, 0, 0, 0x43, 0, 0, 0, 0, 0, 0, 0, 1, 0, 0, 0, 0, 0, 0x80, 0x3F, 1, 0, 0, 0, 0x58, 0, 0, 0,
    0xFC, 0xFF, 0xFF, 0xFF, 4, 0, 0, 0, 0, 0, 0, 0, 4, 0, 0, 0, 0x59, 0, 0, 0, 0, 0, 0, 0, 2, 0, 0,
    0, 0, 0, 0, 0, 0, 0, 0, 0,
];

/// Its dimension records.
static RECORDS: [Dim; 3] = [
    Dim {
        name: *b"C\0\0\0",
        start: 0,
        size: 1,
        coord: [0, 0, 0x80, 0x3F],
        stored: 1,
    },
    Dim {
        name: *b"X\0\0\0",
        start: -4,
        size: 4,
        coord: [0; 4],
        stored: 4,
    },
    Dim {
        name: *b"Y\0\0\0",
        start: 0,
        size: 2,
        coord: [0; 4],
        stored: 0,
    },
];

#[test]
fn an_entry_is_read(rt: HostRuntime) -> Result<(), Fail> {
    let (entry, len) = read_entry(rt.alloc(), &TILE).ok().ok_or("refused")?;
    assert!(rt; len == 92 && entry.position == 704);
    check_tile(&rt, &entry.info);
    Ok(())
}

fn check_tile(rt: &impl Abort, info: &EntryInfo) {
    assert!(rt; info.pixel == 0 && info.compression == 0 && info.pyramid == 2);
    assert!(rt; info.spare == [9, 8, 7, 6, 5]);
    assert!(rt; info.dims.list() == RECORDS.as_slice());
}

/// What is refused: the changes to the entry above, how many bytes there are, and the first rule that fails.
static REFUSALS: [(&[(usize, u8)], usize, EntryFault); 8] = [
    (&[], 31, EntryFault::Short),
    (&[], 91, EntryFault::Short),
    (&[(14, 7)], 91, EntryFault::Part(7)),
    (&[(14, 7), (28, 41)], 92, EntryFault::Dims(41)),
    (&[(14, 7), (28, 0)], 92, EntryFault::Dims(0)),
    (
        &[(14, 7), (28, 0), (31, 0x80)],
        92,
        EntryFault::Dims(i32::MIN),
    ),
    (
        &[(14, 7), (28, 0), (31, 0x80), (1, b'W')],
        92,
        EntryFault::Schema,
    ),
    (
        &[(14, 7), (28, 0), (31, 0x80), (1, b'W')],
        31,
        EntryFault::Short,
    ),
];

#[test]
fn the_first_rule_that_fails_refuses(rt: HostRuntime) {
    for (edits, len, fault) in REFUSALS.iter() {
        check_refusal(&rt, rt.alloc(), edits, *len, *fault);
    }
}

fn check_refusal(
    rt: &impl Abort,
    alloc: Global,
    edits: &[(usize, u8)],
    len: usize,
    fault: EntryFault,
) {
    let bytes = edited(rt, &TILE, edits);
    assert!(rt; len <= 92);
    assert!(rt; read_entry(alloc, &bytes[..len]).err() == Some(fault));
}

#[test]
fn forty_records_are_read(rt: HostRuntime) -> Result<(), Fail> {
    let bytes = edited(&rt, &[0; 832], &[(0, b'D'), (1, b'V'), (28, 40)]);
    let (entry, len) = read_entry(rt.alloc(), &bytes).ok().ok_or("refused")?;
    assert!(rt; len == 832);
    assert!(rt; entry.info.dims.list().len() == 40);
    Ok(())
}

#[test]
fn an_entry_is_written(rt: HostRuntime) -> Result<(), Fail> {
    let info = tile(rt.alloc())?;
    assert!(rt; entry_len(&info) == 92);
    let mut out = [0xAAu8; 92];
    write_entry(&info, 704, &mut out);
    assert!(rt; out == TILE);
    Ok(())
}

/// What the entry above says.
fn tile(alloc: Global) -> Result<EntryInfo, Fail> {
    let dims = Dims::new(RECORDS.to_vec(alloc)?).map_err(|_| "refused")?;
    Ok(EntryInfo {
        pixel: 0,
        compression: 0,
        pyramid: 2,
        spare: [9, 8, 7, 6, 5],
        dims,
    })
}

#[test]
fn the_head_of_a_directory_is_written(rt: HostRuntime) {
    let head = write_directory_head(258);
    assert!(rt; &head[..8] == [2, 1, 0, 0, 0, 0, 0, 0].as_slice());
}
