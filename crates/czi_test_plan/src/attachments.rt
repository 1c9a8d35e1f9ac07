//! Tests of the plans of the edits of attachments.

ghost use Rattle.std.specs.Prelude.{[], ◌≡◌};
ghost use Rattle.czi_region.specs.Pieces.{bytes_put};
ghost use Rattle.czi_plan.specs.Conditions.{IsEmpty, IsMapOf};

use crate::documents::{EMPTY, index_in};
use crate::plans::{map_of, pairs_of, places_of};
use czi_doc::AttInfo;
use czi_image::Index;
use czi_plan::{
    EditPlan, PlanFault, attachment_key, attachment_with, plan_attach, plan_detach, plan_reattach,
};
use czi_region::Region;
use czi_sample::{GUID, Part, Segment, put};
use czi_space::Map;
use std::alloc::{AllocError, Global};
use std::test::Fail;

// What is planned with an attachment of a name.
#[derive(Clone, Copy)]
enum Edit {
    Attach,
    Reattach,
    Detach,
}

fn info_of(name: &[Part]) -> Result<AttInfo, AllocError> {
    let mut info = AttInfo {
        guid: GUID,
        kind: *b"TXT\0\0\0\0\0",
        name: [0; 80],
    };
    put(&mut info.name, name)?;
    Ok(info)
}

fn planned_with(
    index: &Index,
    map: &Map,
    edit: Edit,
    info: &AttInfo,
    region: &mut Region,
    out: &mut EditPlan,
) -> Result<(), PlanFault>
    requires empty { IsEmpty out.old }
    requires reset { bytes_put region.old ≡ [] }
    requires of_index { IsMapOf index.now map.now }
{
    let name = attachment_key(info);
    let there = attachment_with(index, name).is_some();
    match edit {
        Edit::Attach if index.attachments.len() < 4096 => {
            plan_attach(index, map, info, b"hello", region, out)
        }
        Edit::Reattach if there => plan_reattach(index, map, info, b"hello", region, out),
        Edit::Detach if there => plan_detach(index, map, name, region, out),
        _ => Err(PlanFault::Memory),
    }
}

// What is planned: the length, what is used, what is freed, and the links' places and lengths.
struct Row {
    image: &'static [Segment<'static>],
    edit: Edit,
    name: &'static [Part],
    length: u64,
    used: &'static [(u64, u64)],
    freed: &'static [(u64, u64)],
    links: &'static [(u64, usize)],
}

const ROOMY: &[Segment] = &[
    Segment::Directory(0),
    Segment::Attachment(b"TXT", b"notes", b"four"),
    Segment::AttDir(1152),
];

const TIGHT: &[Segment] = &[
    Segment::Directory(0),
    Segment::Attachment(b"TXT", b"notes", b"four"),
    Segment::AttDir(128),
];

static ROWS: [Row; 5] = [
    Row {
        image: EMPTY,
        edit: Edit::Attach,
        name: &[(0, b"EventList")],
        length: 2464,
        used: &[(704, 320), (1024, 1440)],
        freed: &[],
        links: &[(104, 8), (704, 32), (1024, 32)],
    },
    Row {
        image: TIGHT,
        edit: Edit::Attach,
        name: &[(0, b"EventList")],
        length: 3328,
        used: &[(1440, 320), (1760, 1568)],
        freed: &[(1024, 416)],
        links: &[(104, 8), (1024, 32), (1440, 32), (1760, 32)],
    },
    Row {
        image: ROOMY,
        edit: Edit::Attach,
        name: &[(0, b"EventList")],
        length: 2784,
        used: &[(2464, 320)],
        freed: &[],
        links: &[(1048, 8), (1056, 4), (1440, 128), (2464, 32)],
    },
    Row {
        image: ROOMY,
        edit: Edit::Reattach,
        name: &[(0, b"notes")],
        length: 2784,
        used: &[(2464, 320)],
        freed: &[(704, 320)],
        links: &[(704, 32), (1048, 8), (1056, 4), (1312, 128), (2464, 32)],
    },
    Row {
        image: TIGHT,
        edit: Edit::Detach,
        name: &[(0, b"notes\0others")],
        length: 1440,
        used: &[],
        freed: &[(704, 320)],
        links: &[(704, 32), (1048, 8), (1056, 4)],
    },
];

fn planned(alloc: Global, row: &Row) -> Result<EditPlan, Fail> {
    let index = index_in(alloc, row.image)?;
    let map = map_of(alloc, &index)?;
    let info = info_of(row.name)?;
    let mut region = Region::new(alloc);
    let mut plan = EditPlan::new(alloc);
    match planned_with(&index, &map, row.edit, &info, &mut region, &mut plan) {
        Ok(()) => Ok(plan),
        Err(_) => Err(Fail::from("no plan")),
    }
}

#[test]
fn an_attachment_comes_changes_or_goes(rt: HostRuntime) -> Result<(), Fail> {
    let alloc = rt.alloc();
    for row in ROWS.iter() {
        let plan = planned(alloc, row)?;
        let used = pairs_of(alloc, plan.used.as_slice())?;
        let freed = pairs_of(alloc, plan.freed.as_slice())?;
        let places = places_of(alloc, &plan)?;
        assert!(rt; plan.length == row.length && used.as_slice() == row.used);
        assert!(rt; freed.as_slice() == row.freed);
        assert!(rt; places.as_slice() == row.links);
    }
    Ok(())
}
