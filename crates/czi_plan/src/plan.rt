//! A plan, and why there is none.

ghost use Rattle.std.specs.Prelude.{◌≡◌, ◌≤◌, vec_len, vec_capacity, OnOk};
ghost use Rattle.czi_image.specs.Change.{IsNone};
ghost use Rattle.czi_plan.specs.declared.plan.PlanFault.TheVariants.{Memory};

use crate::marks::Mark;
use crate::need::Need;
use czi_doc::Dim;
use czi_image::{Change, DirectoryChange, Setting};
use czi_links::Links;
use czi_num::Span;
use czi_region::Piece;
use czi_space::Map;
use std::alloc::{AllocError, Global};

/// How many records the dimensions of a subblock are at most.
const MOST_RECORDS: usize = 40;

/// The plan of an edit. Places, spans and lengths are in bytes.
#[derive(Drop)]
pub struct EditPlan {
    /// What becomes of the index.
    pub change: Change,
    /// What is written before the commit: pieces of the region, each with its place in the image.
    pub writes: Vec<(u64, Piece)>,
    /// What the commit puts into the image.
    pub links: Links,
    /// The spans of the needs, in their order.
    pub used: Vec<Span>,
    /// The spans that can be used again afterwards, in order of place.
    pub freed: Vec<Span>,
    /// Those of them in which items lay: an undo can bring them back.
    pub held: Vec<Span>,
    /// Memory for the dimensions of subblocks that come back.
    pub dimensions: Vec<Records>,
    /// The image's length afterwards.
    pub length: u64,
    /// The links before they are put in order.
    pub(crate) marks: Vec<Mark>,
    /// The spans that can't be used again: each has a DELETED header of its own.
    pub(crate) dead: Vec<Span>,
    /// The DELETED extents that spans touch, and what becomes of these.
    pub(crate) touched: Map,
    alloc: Global,
}

/// Memory for the dimensions of a subblock: a list with room for 40 records.
#[derive(Drop)]
pub struct Records {
    /// The list.
    pub list: Vec<Dim>,
    pub ghost room: { 40 ≤ vec_capacity list },
}

/// Why an edit has no plan.
#[derive(Clone, Copy, PartialEq, Eq)]
pub enum PlanFault {
    /// A new segment has no place: past the length it would end above 2^40.
    Full {
        /// How many bytes the segment needs.
        need: u64,
        /// The image's length without it.
        length: u64,
    },
    /// There was no memory for the plan.
    Memory,
}

impl From<AllocError> for PlanFault {
    ghost from_gives = { λ _ e. e ≡ Memory };

    fn from(_error: AllocError) -> PlanFault {
        PlanFault::Memory
    }
}

impl EditPlan {
    ghost use Rattle.czi_plan.specs.Conditions.{IsEmpty};
    ghost use Rattle.czi_plan.specs.Need.{HasSpare, PlansSame};

    /// A plan without anything in it. It takes no memory.
    pub fn new(alloc: Global) -> EditPlan
        ensures { IsEmpty result }
    {
        EditPlan {
            change: Change::new(alloc),
            writes: Vec::new(alloc),
            links: Links::new(alloc),
            used: Vec::new(alloc),
            freed: Vec::new(alloc),
            held: Vec::new(alloc),
            dimensions: Vec::new(alloc),
            length: 0,
            marks: Vec::new(alloc),
            dead: Vec::new(alloc),
            touched: Map::of_runs(alloc, Vec::new(alloc), 0),
            alloc,
        }
    }

    /// Takes everything out of the plan. Its memory stays for the next one.
    pub fn clear(&mut self)
        ensures empty { IsEmpty self.new }
        ensures spare { (n : Need) → HasSpare n self.old → HasSpare n self.new }
    {
        clear_change(&mut self.change);
        self.writes.clear();
        self.links.clear();
        self.used.clear();
        self.freed.clear();
        self.held.clear();
        self.marks.clear();
        self.dead.clear();
        self.length = 0;
    }

    /// Makes spare memory for as much as a need says. What is planned stays, also where there is no memory.
    pub fn reserve(&mut self, need: &Need) -> Result<(), AllocError>
        ensures spare { OnOk result (HasSpare need.now self.new) }
        ensures same { PlansSame self.old self.new }
    {
        self.writes.reserve(need.writes)?;
        self.links.reserve(need.links, need.link_bytes)?;
        self.used.reserve(need.spans)?;
        self.freed.reserve(need.spans)?;
        self.held.reserve(need.spans)?;
        self.marks.reserve(need.links)?;
        self.dead.reserve(need.spans)?;
        self.touched.reserve(need.touched)?;
        self.change.tiles.reserve(need.spans)?;
        self.change.attachments.reserve(need.spans)?;
        reserve_records(self.alloc, need.spans, &mut self.dimensions)
    }
}

/// Takes everything out of a change of the index. Its memory stays for the next one.
fn clear_change(change: &mut Change)
    ensures none { IsNone change.new }
    ensures tiles { (vec_len change.new.tiles ≡ 0) × (vec_capacity change.new.tiles ≡ vec_capacity change.old.tiles) }
    ensures attachments { (vec_len change.new.attachments ≡ 0) × (vec_capacity change.new.attachments ≡ vec_capacity change.old.attachments) }
{
    change.directory = DirectoryChange::Kept;
    change.tiles.clear();
    change.attdir = DirectoryChange::Kept;
    change.attachments.clear();
    change.metadata = Setting::Same;
}

/// Makes as many lists for the dimensions of subblocks.
fn reserve_records(
    alloc: Global,
    count: usize,
    dimensions: &mut Vec<Records>,
) -> Result<(), AllocError>
    ensures { OnOk result (count ≤ vec_len dimensions.new) }
{
    for _ in dimensions.len()..count {
        let list = Vec::with_capacity(alloc, MOST_RECORDS)?;
        dimensions.push(Records { list })?;
    }
    Ok(())
}
