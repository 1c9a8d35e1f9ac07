//! Tests of the plans of additions and replacements.

ghost use Rattle.std.specs.Prelude.{◌≡◌, [], OnOk};
ghost use Rattle.std.specs.List.{AllByRecursion};
ghost use Rattle.czi_region.specs.Pieces.{IsPiece, bytes_put};
ghost use Rattle.czi_plan.specs.Conditions.{IsEmpty, IsMapOf};

use crate::documents::{EMPTY, ONE, THREE, index_in, index_with, many};
use crate::plans::{deleted, first_write, links_of, map_of, pairs_of, places_of};
use czi_doc::{EntryInfo, read_dims};
use czi_image::Index;
use czi_num::Span;
use czi_plan::{EditPlan, PlanFault, plan_add, plan_replace, plan_replace_at, tile_with};
use czi_region::{Piece, Region};
use czi_sample::places::{ALLOCATED, USED};
use czi_sample::{Part, Segment};
use czi_space::Map;
use std::alloc::Global;
use std::test::Fail;

// What is planned with a new subblock.
#[derive(Clone, Copy)]
enum Edit {
    Add,
    Replace,
    ReplaceAt(usize),
}

const PIXELS: &[u8] = b"ABCDEFGH";

const SUBBLOCK_HEAD: &[u8] = b"ZISRAWSUBBLOCK\0\0\x20\x01\0\0\0\0\0\0";

const DIRECTORY_HEAD: &[u8] = b"ZISRAWDIRECTORY\0\xE0\x04\0\0\0\0\0\0";

// The plan that brings a subblock with these dimensions and eight bytes of pixels, and the bytes of its first write.
fn brought(
    alloc: Global,
    index: &Index,
    edit: Edit,
    dims: &[u8],
) -> Result<(EditPlan, Vec<u8>), Fail> {
    let dims = read_dims(alloc, dims).ok().ok_or("no dimensions")?;
    let info = EntryInfo {
        pixel: 0,
        compression: 0,
        pyramid: 0,
        spare: [0; 5],
        dims,
    };
    let map = map_of(alloc, index)?;
    let mut region = Region::new(alloc);
    let mut plan = EditPlan::new(alloc);
    let answer = planned_with(index, &map, edit, &info, &mut region, &mut plan);
    if answer.is_err() {
        return Err(Fail::from("no plan"));
    }
    let bytes = first_write(alloc, &region, &plan)?;
    Ok((plan, bytes))
}

fn planned_with(
    index: &Index,
    map: &Map,
    edit: Edit,
    info: &EntryInfo,
    region: &mut Region,
    out: &mut EditPlan,
) -> Result<(), PlanFault>
    requires empty { IsEmpty out.old }
    requires reset { bytes_put region.old ≡ [] }
    requires of_index { IsMapOf index.now map.now }
    ensures { OnOk result (AllByRecursion (λ w. IsPiece region.new w.1) out.new.writes.items) }
{
    match edit {
        Edit::Add => {
            if index.tiles.len() >= 1_048_576 {
                return Err(PlanFault::Memory);
            }
            plan_add(index, map, info, b"", PIXELS, b"", region, out)
        }
        Edit::Replace => {
            if tile_with(index, &info.dims).is_none() {
                return Err(PlanFault::Memory);
            }
            plan_replace(index, map, info, b"", PIXELS, b"", region, out)
        }
        Edit::ReplaceAt(i) => {
            if i >= index.tiles.len() {
                return Err(PlanFault::Memory);
            }
            plan_replace_at(index, map, i, info, b"", PIXELS, b"", region, out)
        }
    }
}

#[test]
fn a_subblock_comes_to_the_empty_document(rt: HostRuntime) -> Result<(), Fail> {
    let alloc = rt.alloc();
    let index = index_in(alloc, EMPTY)?;
    let (plan, bytes) = brought(alloc, &index, Edit::Add, b"C0,X0:4,Y0:2")?;
    assert_eq!(rt; plan.length, 2304);
    let used = [
        Span { at: 704, len: 320 },
        Span {
            at: 1024,
            len: 1280,
        },
    ];
    assert!(rt; plan.used.as_slice() == used.as_slice());
    assert!(rt; plan.freed.as_slice() == [Span { at: 544, len: 160 }].as_slice());
    assert!(rt; plan.held.is_empty());
    let writes = [
        (736, Piece { at: 0, len: 288 }),
        (1056, Piece { at: 288, len: 1248 }),
    ];
    assert!(rt; plan.writes.as_slice() == writes.as_slice());
    assert_eq!(rt; bytes.len(), 288);
    assert!(rt; bytes[..24].starts_with(b"\0\0\0\0\0\0\0\0\x08\0\0\0\0\0\0\0DV\0\0\0\0\xC0\x02"));
    assert!(rt; bytes[44..64].starts_with(b"\x03\0\0\0C\0\0\0\0\0\0\0\x01\0\0\0\0\0\0\0"));
    assert!(rt; bytes[256..].starts_with(PIXELS));
    assert_eq!(rt; bytes[264..].iter().all(|b| *b == 0), true);
    let links = links_of(alloc, &plan)?;
    assert_eq!(rt; links.len(), 4);
    assert_eq!(rt;
        [links[0].0, links[1].0, links[2].0, links[3].0],
        [84, 544, 704, 1024]
    );
    assert_eq!(rt; links[0].1.as_slice(), [0, 4, 0, 0, 0, 0, 0, 0].as_slice());
    assert_eq!(rt; links[1].1.as_slice(), deleted(128, 0).as_slice());
    assert_eq!(rt; links[2].1.as_slice(), SUBBLOCK_HEAD);
    assert_eq!(rt; links[3].1.as_slice(), DIRECTORY_HEAD);
    Ok(())
}

// A document, of these segments or of many subblocks.
#[derive(Clone, Copy)]
enum Document {
    Of(&'static [Segment<'static>]),
    Many,
}

// What is planned: the length, what is used, what is freed, and the links' places and lengths.
struct Row {
    document: Document,
    len: usize,
    changes: &'static [Part],
    edit: Edit,
    dims: &'static [u8],
    length: u64,
    used: &'static [(u64, u64)],
    freed: &'static [(u64, u64)],
    links: &'static [(u64, usize)],
}

static ROWS: [Row; 7] = [
    // the directory has room to the last byte, and for one byte less
    Row {
        document: Document::Of(EMPTY),
        len: 796,
        changes: &[(544 + ALLOCATED, &[220])],
        edit: Edit::Add,
        dims: b"C0,X0:4,Y0:2",
        length: 1120,
        used: &[(800, 320)],
        freed: &[],
        links: &[(568, 8), (576, 4), (704, 92), (800, 32)],
    },
    Row {
        document: Document::Of(EMPTY),
        len: 795,
        changes: &[(544 + ALLOCATED, &[219])],
        edit: Edit::Add,
        dims: b"C0,X0:4,Y0:2",
        length: 2400,
        used: &[(800, 320), (1120, 1280)],
        freed: &[],
        links: &[(84, 8), (544, 32), (800, 32), (1120, 32)],
    },
    // an entry that is as long is written alone, and else those behind it move
    Row {
        document: Document::Of(ONE),
        len: 1280,
        changes: &[],
        edit: Edit::Replace,
        dims: b"C0,X0:4,Y0:2",
        length: 1600,
        used: &[(1280, 320)],
        freed: &[(704, 320)],
        links: &[(544, 32), (1048, 8), (1056, 4), (1184, 92), (1280, 32)],
    },
    Row {
        document: Document::Of(THREE),
        len: 1856,
        changes: &[(1504 + ALLOCATED, &[0x40, 1])],
        edit: Edit::ReplaceAt(0),
        dims: b"X0:1",
        length: 2176,
        used: &[(1856, 320)],
        freed: &[(544, 320)],
        links: &[(544, 32), (1528, 8), (1536, 4), (1664, 52), (1856, 32)],
    },
    Row {
        document: Document::Of(THREE),
        len: 1856,
        changes: &[(1504 + ALLOCATED, &[0x40, 1])],
        edit: Edit::ReplaceAt(0),
        dims: b"X0:1,Y0:1",
        length: 2176,
        used: &[(1856, 320)],
        freed: &[(544, 320)],
        links: &[(544, 32), (1528, 8), (1536, 4), (1664, 176), (1856, 32)],
    },
    // a range of 65,536 bytes, and of 20 more
    Row {
        document: Document::Many,
        len: 298_048,
        changes: &[(230_944 + ALLOCATED, &[0, 6, 1])],
        edit: Edit::ReplaceAt(12),
        dims: b"A0,B0,C0,D0,E0,F0,G0,H0,I0,J0,K0,L0,M0,N0,O0,P0,Q0,R0,S0,T0,U0,V0,W0",
        length: 298_624,
        used: &[(298_048, 576)],
        freed: &[(4384, 320)],
        links: &[
            (4384, 32),
            (230_968, 8),
            (230_976, 4),
            (232_208, 65_536),
            (298_048, 32),
        ],
    },
    Row {
        document: Document::Many,
        len: 298_048,
        changes: &[(230_944 + ALLOCATED, &[0, 6, 1])],
        edit: Edit::ReplaceAt(12),
        dims: b"A0,B0,C0,D0,E0,F0,G0,H0,I0,J0,K0,L0,M0,N0,O0,P0,Q0,R0,S0,T0,U0,V0,W0,Z0",
        length: 382_144,
        used: &[(298_048, 576), (298_624, 83_520)],
        freed: &[(4384, 320), (230_944, 67_104)],
        links: &[
            (84, 8),
            (4384, 32),
            (230_944, 32),
            (298_048, 32),
            (298_624, 32),
        ],
    },
];

fn index_by(alloc: Global, row: &Row) -> Result<Index, Fail> {
    match row.document {
        Document::Of(segments) => index_with(alloc, segments, row.len, row.changes),
        Document::Many => many(alloc, row.len, row.changes),
    }
}

#[test]
fn a_directory_is_changed_in_place_or_new(rt: HostRuntime) -> Result<(), Fail> {
    let alloc = rt.alloc();
    for row in ROWS.iter() {
        let index = index_by(alloc, row)?;
        let (plan, _) = brought(alloc, &index, row.edit, row.dims)?;
        assert_eq!(rt; plan.length, row.length);
        let used = pairs_of(alloc, plan.used.as_slice())?;
        let freed = pairs_of(alloc, plan.freed.as_slice())?;
        let places = places_of(alloc, &plan)?;
        assert!(rt; used.as_slice() == row.used);
        assert!(rt; freed.as_slice() == row.freed);
        assert!(rt; places.as_slice() == row.links);
    }
    Ok(())
}

#[test]
fn the_used_size_is_that_of_the_new_data(rt: HostRuntime) -> Result<(), Fail> {
    let alloc = rt.alloc();
    let changes: [Part; 2] = [(1504 + ALLOCATED, &[0x40, 1]), (1504 + USED, &[0x40, 1])];
    let index = index_with(alloc, THREE, 1856, &changes)?;
    for (dims, used) in [(b"X0:1".as_slice(), 0x1C), (b"X0:1,Y0:1".as_slice(), 0x30)] {
        let (plan, _) = brought(alloc, &index, Edit::ReplaceAt(1), dims)?;
        let links = links_of(alloc, &plan)?;
        assert!(rt; links.len() >= 3);
        assert_eq!(rt;
            (links[1].0, links[1].1.as_slice()),
            (1528, [used, 1, 0, 0, 0, 0, 0, 0].as_slice())
        );
    }
    Ok(())
}
