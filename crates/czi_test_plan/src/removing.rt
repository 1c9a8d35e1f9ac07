//! Tests of the plans of removals.

ghost use Rattle.std.specs.Prelude.{◌≤◌, ◌^◌};

use crate::documents::{ONE, THREE, index_in, index_with, many};
use crate::plans::{deleted, first_write, links_of, map_of, runs_after};
use czi_doc::read_dims;
use czi_image::Index;
use czi_num::Span;
use czi_plan::{EditPlan, PlanFault, plan_remove, tile_with};
use czi_region::{Piece, Region};
use std::alloc::Global;
use std::test::Fail;

// The plan of a removal, the bytes of its first write, and the free runs afterwards.
#[derive(Drop)]
struct Removal {
    plan: EditPlan,
    bytes: Vec<u8>,
    runs: Vec<Span>,
}

fn planned(alloc: Global, index: &Index, dims: &[u8]) -> Result<Result<Removal, PlanFault>, Fail> {
    let dims = read_dims(alloc, dims).ok().ok_or("no dimensions")?;
    let mut map = map_of(alloc, index)?;
    let Some(_) = tile_with(index, &dims) else {
        return Err(Fail::from("no such subblock"));
    };
    let mut region = Region::new(alloc);
    let mut plan = EditPlan::new(alloc);
    match plan_remove(index, &map, &dims, &mut region, &mut plan) {
        Ok(()) => {}
        Err(fault) => return Ok(Err(fault)),
    }
    let bytes = first_write(alloc, &region, &plan)?;
    let runs = runs_after(&mut map, &plan.used, &plan.freed, &plan.held, plan.length)?;
    Ok(Ok(Removal { plan, bytes, runs }))
}

const DIRECTORY: &[u8] = b"ZISRAWDIRECTORY\0\xA0\x43\x01\0\0\0\0\0";

#[test]
fn the_directory_is_changed_in_place(rt: HostRuntime) -> Result<(), Fail> {
    let alloc = rt.alloc();
    let index = index_in(alloc, ONE)?;
    let Removal {
        mut plan,
        bytes,
        runs,
    } = planned(alloc, &index, b"C0,X0:4,Y0:2")?
        .ok()
        .ok_or("no plan")?;
    assert_eq!(rt; plan.length, 1280);
    assert!(rt; plan.used.is_empty() && plan.writes.is_empty() && bytes.is_empty());
    let item = [Span { at: 704, len: 320 }];
    assert!(rt; plan.freed.as_slice() == item.as_slice());
    assert!(rt; plan.held.as_slice() == item.as_slice());
    assert!(rt; runs.as_slice() == [Span { at: 544, len: 160 }].as_slice());
    let links = links_of(alloc, &plan)?;
    assert_eq!(rt; links.len(), 3);
    assert_eq!(rt;
        (links[0].0, links[0].1.as_slice()),
        (544, deleted(0xC0, 1).as_slice())
    );
    assert_eq!(rt;
        (links[1].0, links[1].1.as_slice()),
        (1048, [128, 0, 0, 0, 0, 0, 0, 0].as_slice())
    );
    assert_eq!(rt;
        (links[2].0, links[2].1.as_slice()),
        (1056, [0, 0, 0, 0].as_slice())
    );
    plan.clear();
    assert!(rt; plan.held.is_empty() && plan.freed.is_empty());
    assert_eq!(rt; plan.links.count(), 0);
    Ok(())
}

#[test]
fn a_freed_span_alone_has_its_own_header(rt: HostRuntime) -> Result<(), Fail> {
    let alloc = rt.alloc();
    let index = index_with(alloc, ONE, 1280, &[(544, b"FOREIGN")])?;
    let Removal { plan, runs, .. } = planned(alloc, &index, b"C0,X0:4,Y0:2")?
        .ok()
        .ok_or("no plan")?;
    assert_eq!(rt; plan.length, 1280);
    assert!(rt; runs.is_empty());
    let links = links_of(alloc, &plan)?;
    assert_eq!(rt; links.len(), 3);
    assert_eq!(rt; [links[0].0, links[1].0, links[2].0], [704, 1048, 1056]);
    assert_eq!(rt; links[0].1.as_slice(), deleted(0x20, 1).as_slice());
    Ok(())
}

// The links of a removal that is done in place.
fn links_without(alloc: Global, index: &Index, dims: &[u8]) -> Result<Vec<(u64, Vec<u8>)>, Fail> {
    let Removal { plan, .. } = planned(alloc, index, dims)?.ok().ok_or("no plan")?;
    let in_place = plan.length == index.length && plan.used.is_empty() && plan.writes.is_empty();
    if !in_place {
        return Err(Fail::from("not in place"));
    }
    let links = links_of(alloc, &plan)?;
    Ok(links)
}

// The place of the entries that are written, and the low bytes of the first one's position.
fn entries_of(links: &[(u64, Vec<u8>)]) -> Option<(u64, u8, u8)> {
    if links.len() < 4 {
        return None;
    }
    let (place, bytes) = &links[3];
    if bytes.len() < 8 {
        return None;
    }
    Some((*place, bytes[6], bytes[7]))
}

#[test]
fn the_entries_behind_move_up(rt: HostRuntime) -> Result<(), Fail> {
    let alloc = rt.alloc();
    let index = index_in(alloc, THREE)?;
    for (dims, at, moved) in [
        (b"X0:1".as_slice(), 544, Some((1664, 0x60, 3))),
        (b"X1:1".as_slice(), 864, Some((1716, 0xA0, 4))),
        (b"X2:1".as_slice(), 1184, None),
    ] {
        let links = links_without(alloc, &index, dims)?;
        assert_eq!(rt; entries_of(links.as_slice()), moved);
        assert!(rt; links.len() >= 3);
        assert_eq!(rt;
            (links[0].0, links[0].1.as_slice()),
            (at, deleted(0x20, 1).as_slice())
        );
        assert_eq!(rt;
            (links[1].0, links[1].1.as_slice()),
            (1528, [0xE8, 0, 0, 0, 0, 0, 0, 0].as_slice())
        );
        assert_eq!(rt;
            (links[2].0, links[2].1.as_slice()),
            (1536, [2, 0, 0, 0].as_slice())
        );
    }
    Ok(())
}

#[test]
fn at_65536_bytes_the_entries_behind_still_move_up(rt: HostRuntime) -> Result<(), Fail> {
    let alloc = rt.alloc();
    let index = many(alloc, 297_344, &[])?;
    let Removal { plan, runs, .. } = planned(alloc, &index, b"C0,X28:4,Y0:2")?
        .ok()
        .ok_or("no plan")?;
    assert_eq!(rt; plan.length, 297_344);
    assert!(rt; plan.used.is_empty() && plan.writes.is_empty() && runs.is_empty());
    let item = [Span { at: 2784, len: 320 }];
    assert!(rt; plan.freed.as_slice() == item.as_slice());
    assert!(rt; plan.held.as_slice() == item.as_slice());
    assert_eq!(rt; plan.links.count(), 4);
    if plan.links.count() == 4 {
        let (place, range) = plan.links.link(3);
        assert_eq!(rt; (place, range.len()), (231_748, 65_504));
    }
    Ok(())
}

#[test]
fn past_65536_bytes_there_is_a_new_directory(rt: HostRuntime) -> Result<(), Fail> {
    let alloc = rt.alloc();
    let index = many(alloc, 297_344, &[])?;
    let Removal { plan, bytes, runs } = planned(alloc, &index, b"C0,X24:4,Y0:2")?
        .ok()
        .ok_or("no plan")?;
    assert_eq!(rt; plan.length, 380_224);
    let new = Span {
        at: 297_344,
        len: 82_880,
    };
    let old = Span {
        at: 230_944,
        len: 66_400,
    };
    let item = Span { at: 2464, len: 320 };
    assert!(rt; plan.used.as_slice() == [new].as_slice());
    assert!(rt; plan.freed.as_slice() == [item, old].as_slice());
    assert!(rt; plan.held.as_slice() == [item].as_slice());
    assert!(rt; runs.as_slice() == [old].as_slice());
    let writes = [(297_376, Piece { at: 0, len: 82_848 })];
    assert!(rt; plan.writes.as_slice() == writes.as_slice());
    assert_eq!(rt; bytes.len(), 82_848);
    assert_eq!(rt; (bytes[0], bytes[1]), (0xCF, 2));
    assert_eq!(rt; (bytes[686], bytes[687]), (0xE0, 0x0A));
    assert_eq!(rt; bytes[66_276..].iter().all(|b| *b == 0), true);
    let links = links_of(alloc, &plan)?;
    assert_eq!(rt; links.len(), 4);
    assert_eq!(rt;
        [links[0].0, links[1].0, links[2].0, links[3].0],
        [84, 2464, 230_944, 297_344]
    );
    assert_eq!(rt;
        links[0].1.as_slice(),
        [0x80, 0x89, 4, 0, 0, 0, 0, 0].as_slice()
    );
    assert_eq!(rt; links[3].1.as_slice(), DIRECTORY);
    Ok(())
}

// The index in a longer file.
fn lengthened(mut index: Index, length: u64) -> Index
    requires longer { index.length ≤ length }
    requires small { length ≤ 2 ^ 62 }
{
    index.length = length;
    index
}

#[test]
fn at_the_limit_there_is_no_place(rt: HostRuntime) -> Result<(), Fail> {
    let alloc = rt.alloc();
    for (length, full) in [(1_099_511_544_896, false), (1_099_511_544_897, true)] {
        let index = many(alloc, 297_344, &[])?;
        if index.length > length {
            return Err(Fail::from("longer"));
        }
        let index = lengthened(index, length);
        let answer = planned(alloc, &index, b"C0,X24:4,Y0:2")?;
        if full {
            let need = 82_880;
            assert!(rt; answer.err() == Some(PlanFault::Full { need, length }));
        } else {
            assert!(rt; answer.is_ok());
        }
    }
    Ok(())
}
