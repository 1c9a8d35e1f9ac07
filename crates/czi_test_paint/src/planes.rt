//! `czi_doc`: planes and queries.

use crate::asked::{Asked, query};
use czi_doc::{Pixel, Plane, read_plane};
use std::alloc::Global;
use std::process::Abort;
use std::test::Fail;

// Plane text, and what it spells, if it is one.
type Row = (&'static [u8], Option<&'static [([u8; 4], i32)]>);

static ROWS: [Row; 11] = [
    (b"C0", Some(&[(*b"C\0\0\0", 0)])),
    (
        b"Z-3,ABCD2147483647,C1",
        Some(&[
            (*b"Z\0\0\0", -3),
            (*b"ABCD", 2_147_483_647),
            (*b"C\0\0\0", 1),
        ]),
    ),
    (b"", None),
    (b"C0,", None),
    (b"C0,C1", None),
    (b"X0", None),
    (b"C0,S1", None),
    (b"C0:1", None),
    (b"C-0", None),
    (b"C2147483648", None),
    (b"ABCDE1", None),
];

fn check_row(rt: &impl Abort, alloc: Global, (text, spelled): &Row) -> Result<(), Fail> {
    let read = match (read_plane(alloc, text)?, spelled) {
        (Some(plane), Some(items)) => plane.list() == *items,
        (None, None) => true,
        _ => false,
    };
    assert!(rt; read);
    Ok(())
}

#[test]
fn plane_text_is_read(rt: HostRuntime) -> Result<(), Fail> {
    for row in ROWS.iter() {
        check_row(&rt, rt.alloc(), row)?;
    }
    Ok(())
}

// A region of all planes and scenes, and one of a scene and a plane.
const COPIED: [Asked; 2] = [
    (Pixel::Gray8, 1, (0, 0), (4, 1), None, b""),
    (Pixel::Gray8, 1, (0, 0), (4, 1), Some(2), b"C0,T7"),
];

fn check_copied(rt: &impl Abort, alloc: Global, asked: &Asked) -> Result<(), Fail> {
    let query = query(alloc, asked)?;
    assert!(rt; query.try_copy()? == query);
    assert!(rt; query.plane.try_copy()? == query.plane);
    Ok(())
}

#[test]
fn planes_and_queries_are_copied(rt: HostRuntime) -> Result<(), Fail> {
    let alloc = rt.alloc();
    for asked in COPIED.iter() {
        check_copied(&rt, alloc, asked)?;
    }
    let items = vec![in alloc; (*b"C\0\0\0", 0), (*b"C\0\0\0", 1)]?;
    assert!(&rt; Plane::new(items).is_none());
    Ok(())
}
