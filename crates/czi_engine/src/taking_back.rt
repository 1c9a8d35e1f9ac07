//! Undoing the newest edit. It takes no memory.

ghost use Rattle.std.specs.Prelude.{◌≡◌, ◌+◌, ◌≤◌, Some, length, map, vec_len, IfErr, IfOk, IsFalse, MatchOption, OnErr, OnOk};
ghost use Rattle.czi_image.specs.Summary.{entries_len};
ghost use Rattle.czi_image.specs.View.{tile_of};
ghost use Rattle.czi_machine.specs.Machine.{after_undo};
ghost use Rattle.czi_plan.specs.Conditions.{IsMapOf};
ghost use Rattle.czi_plan.specs.Plan.{IsBrief, IsPlan};
ghost use Rattle.czi_plan.specs.Need.{undo_room};
ghost use Rattle.czi_plan.specs.Undoing.{InverseFits, Undoes};
ghost use Rattle.czi_region.specs.Pieces.{bytes_put, room};
ghost use Rattle.czi_undo.specs.Bounds.{first_of};
ghost use Rattle.czi_engine.specs.Devices.{undo_fault};
ghost use Rattle.czi_engine.specs.Edited.{Commands};
ghost use Rattle.czi_engine.specs.Prepared.{PreparesUndo};
ghost use Rattle.czi_engine.specs.Standing.{FewKept, HasItsMap, StandsOnRig};
ghost use Rattle.czi_engine.specs.UndoMemory.{FitsAsNewest, HasNoPlaceFor, NoneFits};

use crate::engine::Engine;
use crate::error::UndoError;
use crate::reserve::{SparePlan, UndoMemory};
use czi_image::Index;
use czi_plan::{EditPlan, PlanFault, inverse_fits, plan_inverse};
use czi_region::Region;
use czi_rig::Rig;
use czi_space::Map;
use czi_undo::{Inverse, UndoList};
use std::mem;

/// What undoes the newest edit, if there is one. That of a state always fits.
fn newest_of<'a>(edits: &'a UndoList, index: &Index, map: &Map) -> Option<&'a Inverse>
    requires of_index { IsMapOf index.now map.now }
    ensures { MatchOption result (NoneFits edits.now index.now map.now) (λ inverse. FitsAsNewest inverse.now edits.now index.now map.now) }
{
    let inverse = edits.newest()?;
    if inverse_fits(index, map, inverse) {
        Some(inverse)
    } else {
        None
    }
}

impl UndoMemory {
    /// Plans an inverse in this memory. The region is exchanged for the one in which the plan puts its bytes.
    ///
    /// # Errors
    ///
    /// `Full` exactly where there is no plan. All memory is then as it was.
    pub(crate) fn plan(
        &mut self,
        index: &Index,
        space: &Map,
        inverse: &Inverse,
        region: &mut Region,
    ) -> Result<EditPlan, UndoError>
        requires of_index { IsMapOf index.now space.now }
        requires fits { InverseFits index.now space.now inverse.now }
        requires plans { 1 ≤ vec_len self.old.plans }
        requires room { undo_room (entries_len (map tile_of index.now.tiles.items)) (length index.now.attachments.items) 1 ≤ room self.old.region }
        ensures plan { IfOk result (λ plan. IsPlan index.now space.now region.new plan) }
        ensures undoes { IfOk result (λ plan. Undoes index.now space.now inverse.now region.new plan) }
        ensures brief { IfOk result IsBrief }
        ensures plans { OnOk result (vec_len self.old.plans ≤ vec_len self.new.plans + 1) }
        ensures size { OnOk result (room self.old.region ≤ room region.new + length (bytes_put region.new)) }
        ensures refusal { IfErr result (HasNoPlaceFor index.now space.now inverse.now) }
        ensures left { OnErr result (vec_len self.old.plans ≤ vec_len self.new.plans) }
        ensures room { OnErr result (room self.old.region ≤ room self.new.region) }
    {
        let mut plan = self.plans.pop().unwrap().plan;
        match plan_inverse(index, space, inverse, &mut self.region, &mut plan) {
            Ok(()) => {
                region.reset();
                mem::swap(&mut self.region, region);
                Ok(plan)
            }
            Err(PlanFault::Full { need, length }) => {
                let _ = self.plans.push(SparePlan { plan });
                Err(UndoError::Full { need, length })
            }
            Err(PlanFault::Memory) => unreachable!(),
        }
    }
}

impl Engine {
    /// Plans the undo of the newest edit, in the memory that there is for it. The engine is down until the plan is taken over.
    fn prepare_undo(&mut self) -> Result<(), UndoError>
        requires own_map { HasItsMap self.old.state }
        requires few { FewKept self.old.state.edits }
        requires up { IsFalse self.old.state.down }
        ensures { PreparesUndo self.old self.new result }
    {
        let state = &mut self.state;
        let scratch = &mut self.scratch;
        let Some(inverse) = newest_of(&state.edits, &state.index, &state.map) else {
            return Err(UndoError::Nothing);
        };
        let plan = state
            .undos
            .plan(&state.index, &state.map, inverse, &mut scratch.region)?;
        scratch.plan = plan;
        state.down = true;
        Ok(())
    }

    /// Brings back the document from before the newest edit that isn't undone yet, and answers how many commands were accepted.
    ///
    /// What left the document then is linked again where it lies: its bytes are held back since then, and none of them is written,
    /// but for its header. What came is marked DELETED. The directory is changed in place where it has room, and else a new one is
    /// written. It takes no memory.
    ///
    /// # Errors
    ///
    /// `Nothing` exactly where there is no edit that could be undone; then `Full` exactly where a new directory has no place.
    /// After these both files and the engine are as before. After a device's fault the engine is down.
    pub fn undo<R: Rig>(&mut self, rig: &mut R) -> Result<u64, UndoError>
        requires stands { StandsOnRig (R.state rig.old) self.old.state }
        requires up { IsFalse self.old.state.down }
        ensures { Commands undo_fault R.Rig after_undo rig.old rig.new self.old.state self.new.state result }
    {
        self.prepare_undo()?;
        self.commit_prepared(rig)?;
        self.take_back();
        Ok(self.state.number)
    }
}
