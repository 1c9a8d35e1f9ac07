//! Planning an edit that nothing refuses, and taking all memory for it.

ghost use Rattle.std.specs.Prelude.{◌≡◌, ◌≤◌, [], Ok, length, IfErr, OnOk};
ghost use Rattle.czi_machine.specs.Edit.{Edit};
ghost use Rattle.czi_machine.specs.Machine.{after_edit};
ghost use Rattle.czi_plan.specs.Conditions.{IsEmpty, IsMapOf};
ghost use Rattle.czi_plan.specs.Does.{Does, HasNoPlan};
ghost use Rattle.czi_plan.specs.Plan.{IsBrief, IsPlan};
ghost use Rattle.czi_region.specs.Pieces.{bytes_put};
ghost use Rattle.czi_engine.specs.Prepared.{Prepares};
ghost use Rattle.czi_engine.specs.Standing.{FewKept, HasItsMap};
ghost use Rattle.czi_engine.specs.Tasks.{IsAllowed, Means, effect_of};

use crate::engine::Engine;
use crate::error::EditError;
use czi_doc::{AttInfo, EntryInfo};
use czi_image::Index;
use czi_plan::{
    EditPlan, PlanFault, plan_add, plan_attach, plan_detach_at, plan_reattach_at, plan_remove_at,
    plan_replace_at, plan_set_meta,
};
use czi_region::Region;
use czi_space::Map;
use czi_undo::Inverse;

/// What a new subblock holds.
#[derive(Clone, Copy)]
pub(crate) struct Contents<'a> {
    pub(crate) info: &'a EntryInfo,
    pub(crate) meta: &'a [u8],
    pub(crate) pixels: &'a [u8],
    pub(crate) tail: &'a [u8],
}

/// An edit that nothing refuses: what it brings, and the place of the item that it changes.
#[derive(Clone, Copy)]
pub(crate) enum Task<'a> {
    /// A subblock comes behind all others.
    Add(Contents<'a>),
    /// A subblock comes in the place of another one.
    Replace(usize, Contents<'a>),
    /// A subblock goes.
    Remove(usize),
    /// An attachment comes behind all others.
    Attach(&'a AttInfo, &'a [u8]),
    /// An attachment comes in the place of another one.
    Reattach(usize, &'a AttInfo, &'a [u8]),
    /// An attachment goes.
    Detach(usize),
    /// The metadata are this XML and this attachment from now on.
    SetMeta(&'a [u8], &'a [u8]),
}

impl<'a> Task<'a> {
    /// Plans it.
    fn plan(
        self,
        index: &Index,
        map: &Map,
        region: &mut Region,
        out: &mut EditPlan,
    ) -> Result<(), PlanFault>
        requires empty { IsEmpty out.old }
        requires reset { bytes_put region.old ≡ [] }
        requires of_index { IsMapOf index.now map.now }
        requires allowed { IsAllowed self index.now }
        ensures plan { OnOk result (IsPlan index.now map.now region.new out.new) }
        ensures does { OnOk result (Does index.now map.now region.new out.new (effect_of self.entry index.now)) }
        ensures held { OnOk result (length out.new.held.items ≤ 1) }
        ensures brief { OnOk result (IsBrief out.new) }
        ensures full { IfErr result (HasNoPlan index.now map.now (effect_of self.entry index.now)) }
    {
        match self {
            Task::Add(new) => plan_add(
                index, map, new.info, new.meta, new.pixels, new.tail, region, out,
            ),
            Task::Replace(i, new) => plan_replace_at(
                index, map, i, new.info, new.meta, new.pixels, new.tail, region, out,
            ),
            Task::Remove(i) => plan_remove_at(index, map, i, region, out),
            Task::Attach(info, bytes) => plan_attach(index, map, info, bytes, region, out),
            Task::Reattach(i, info, bytes) => {
                plan_reattach_at(index, map, i, info, bytes, region, out)
            }
            Task::Detach(i) => plan_detach_at(index, map, i, region, out),
            Task::SetMeta(xml, tail) => plan_set_meta(index, map, xml, tail, region, out),
        }
    }
}

impl Engine {
    /// Plans an edit, and takes all memory for it. The answer is what undoes it.
    pub(crate) fn prepare(&mut self, task: Task) -> Result<Inverse, EditError>
        requires own_map { HasItsMap self.old.state }
        requires few { FewKept self.old.state.edits }
        requires allowed { IsAllowed task self.old.state.index }
        ensures { (c : Edit) → Means self.old.state c (Ok (effect_of task.entry self.old.state.index)) → Prepares (λ s. after_edit s c) self.old self.new result }
    {
        let state = &self.state;
        let scratch = &mut self.scratch;
        scratch.region.reset();
        scratch.plan.clear();
        task.plan(
            &state.index,
            &state.map,
            &mut scratch.region,
            &mut scratch.plan,
        )?;
        let inverse = task.inverse(scratch.alloc, &state.index)?;
        self.take_memory()?;
        Ok(inverse)
    }
}
