//! Tests of the plans of inverses that take something away.

ghost use Rattle.std.specs.Prelude.{◌≡◌, ◌≤◌, ◌^◌, [], length, map, IfOk, IfSome, OnOk};
ghost use Rattle.czi_image.specs.Summary.{entries_len};
ghost use Rattle.czi_image.specs.View.{tile_of};
ghost use Rattle.czi_region.specs.Pieces.{bytes_put, room};
ghost use Rattle.czi_plan.specs.Conditions.{IsEmpty, IsMapOf};
ghost use Rattle.czi_plan.specs.Need.{HasSpare, need_by, region_by};
ghost use Rattle.czi_plan.specs.Undoing.{InverseFits, PartFits};

use crate::documents::{EMPTY, ONE, index_in, many};
use crate::plans::{map_of, pairs_of, places_of};
use czi_image::Index;
use czi_plan::{EditPlan, PlanFault, need_of_inverse, plan_inverse};
use czi_region::Region;
use czi_sample::{Segment, TILE};
use czi_space::Map;
use czi_undo::{Inverse, Part};
use std::alloc::{AllocError, Global};
use std::test::Fail;

// What an inverse takes away.
#[derive(Clone, Copy)]
enum Away {
    Subblock(u32),
    Attachment(u32),
    Metadata,
    Nothing,
}

// The inverse that takes it away, if it is there.
fn part_of(index: &Index, space: &Map, away: Away) -> Option<Part>
    ensures { IfSome result (PartFits index.now space.now) }
{
    match away {
        Away::Subblock(place) if (place as usize) < index.tiles.len() => {
            Some(Part::DropSub { place })
        }
        Away::Attachment(place) if (place as usize) < index.attachments.len() => {
            Some(Part::DropAtt { place })
        }
        Away::Metadata if index.metadata.is_some() => Some(Part::NoMeta),
        Away::Nothing => Some(Part::Same),
        _ => None,
    }
}

fn inverse_of(alloc: Global, index: &Index, space: &Map, away: Away) -> Result<Inverse, Fail>
    ensures { IfOk result (InverseFits index.now space.now) }
{
    let Some(part) = part_of(index, space, away) else {
        return Err(Fail::from("not there"));
    };
    let inverse = Inverse::single(alloc, part)?;
    Ok(inverse)
}

// Takes what the plan of an inverse needs.
fn take_memory(
    index: &Index,
    inverse: &Inverse,
    region: &mut Region,
    out: &mut EditPlan,
) -> Result<(), AllocError>
    requires empty { IsEmpty out.old }
    requires reset { bytes_put region.old ≡ [] }
    ensures empty { IsEmpty out.new }
    ensures spare { OnOk result (HasSpare (need_by inverse.now.parts.items (entries_len (map tile_of index.now.tiles.items)) (length index.now.attachments.items)) out.new) }
    ensures room { OnOk result (region_by inverse.now.parts.items (entries_len (map tile_of index.now.tiles.items)) (length index.now.attachments.items) ≤ room region.new) }
{
    let need = need_of_inverse(index, inverse);
    out.reserve(&need)?;
    region.ensure(need.region)
}

// Plans an inverse, and where that is refused once more, in the memory that there was.
fn planned_again(
    index: &Index,
    space: &Map,
    inverse: &Inverse,
    region: &mut Region,
    out: &mut EditPlan,
) -> Result<(), PlanFault>
    requires empty { IsEmpty out.old }
    requires of_index { IsMapOf index.now space.now }
    requires fits { InverseFits index.now space.now inverse.now }
    requires spare { HasSpare (need_by inverse.now.parts.items (entries_len (map tile_of index.now.tiles.items)) (length index.now.attachments.items)) out.old }
    requires room { region_by inverse.now.parts.items (entries_len (map tile_of index.now.tiles.items)) (length index.now.attachments.items) ≤ room region.old }
{
    match plan_inverse(index, space, inverse, region, out) {
        Ok(()) => Ok(()),
        Err(_) => plan_inverse(index, space, inverse, region, out),
    }
}

// The answer, and the plan.
fn planned(
    alloc: Global,
    index: &Index,
    away: Away,
) -> Result<(Result<(), PlanFault>, EditPlan), Fail> {
    let map = map_of(alloc, index)?;
    let inverse = inverse_of(alloc, index, &map, away)?;
    let mut region = Region::new(alloc);
    let mut plan = EditPlan::new(alloc);
    take_memory(index, &inverse, &mut region, &mut plan)?;
    let answer = planned_again(index, &map, &inverse, &mut region, &mut plan);
    Ok((answer, plan))
}

// What is planned: the length, what is freed, and the links' places and lengths.
struct Row {
    image: &'static [Segment<'static>],
    away: Away,
    length: u64,
    freed: &'static [(u64, u64)],
    links: &'static [(u64, usize)],
}

const METADATA: &[Segment] = &[
    Segment::Deleted(128),
    TILE,
    Segment::Directory(96),
    Segment::Metadata(b"<b/>", b""),
];

const ATTACHMENT: &[Segment] = &[
    Segment::Directory(0),
    Segment::Attachment(b"TXT", b"notes", b"four"),
    Segment::AttDir(128),
];

static ROWS: [Row; 4] = [
    Row {
        image: ONE,
        away: Away::Subblock(0),
        length: 1280,
        freed: &[(704, 320)],
        links: &[(544, 32), (1048, 8), (1056, 4)],
    },
    Row {
        image: ATTACHMENT,
        away: Away::Attachment(0),
        length: 1440,
        freed: &[(704, 320)],
        links: &[(704, 32), (1048, 8), (1056, 4)],
    },
    Row {
        image: METADATA,
        away: Away::Metadata,
        length: 1600,
        freed: &[(1280, 320)],
        links: &[(92, 8), (1280, 32)],
    },
    Row {
        image: EMPTY,
        away: Away::Nothing,
        length: 704,
        freed: &[],
        links: &[],
    },
];

#[test]
fn what_came_goes_in_place(rt: HostRuntime) -> Result<(), Fail> {
    let alloc = rt.alloc();
    for row in ROWS.iter() {
        let index = index_in(alloc, row.image)?;
        let (answer, plan) = planned(alloc, &index, row.away)?;
        let freed = pairs_of(alloc, plan.freed.as_slice())?;
        let places = places_of(alloc, &plan)?;
        assert!(rt; answer.is_ok() && plan.used.is_empty() && plan.writes.is_empty());
        assert!(rt; plan.length == row.length && freed.as_slice() == row.freed);
        assert!(rt; plan.held.as_slice() == plan.freed.as_slice());
        assert!(rt; places.as_slice() == row.links);
    }
    Ok(())
}

// The index in a longer file.
fn lengthened(mut index: Index, length: u64) -> Index
    requires longer { index.length ≤ length }
    requires small { length ≤ 2 ^ 62 }
{
    index.length = length;
    index
}

#[test]
fn without_a_place_an_undo_leaves_its_memory(rt: HostRuntime) -> Result<(), Fail> {
    let alloc = rt.alloc();
    for (length, end) in [
        (1_099_511_544_896, Some(1_099_511_627_776)),
        (1_099_511_544_897, None),
    ] {
        let index = many(alloc, 297_344, &[])?;
        if index.length > length {
            return Err(Fail::from("longer"));
        }
        let index = lengthened(index, length);
        let (answer, plan) = planned(alloc, &index, Away::Subblock(6))?;
        if let Some(end) = end {
            assert!(rt; answer.is_ok() && plan.length == end);
        } else {
            let need = 82_880;
            assert!(rt; answer.err() == Some(PlanFault::Full { need, length }));
            assert!(rt; plan.used.is_empty() && plan.links.count() == 0);
        }
        assert_eq!(rt; plan.dimensions.len(), 2);
    }
    Ok(())
}
