//! Taking a plan over into the engine, once it is committed. Its memory is taken before the first write.

ghost use Rattle.std.specs.Prelude.{◌≡◌, ◌+◌, ◌≤◌, ◌∷◌, drop, length, map, take, IsFalse, IsTrue, OnOk};
ghost use Rattle.czi_image.specs.Applied.{IsChanged};
ghost use Rattle.czi_machine.specs.Machine.{one_more};
ghost use Rattle.czi_num.specs.Span.{span_of};
ghost use Rattle.czi_plan.specs.Plan.{IsBrief, IsPlan, extents_after};
ghost use Rattle.czi_space.specs.State.{Has};
ghost use Rattle.czi_engine.specs.Editing.{AsBefore};
ghost use Rattle.czi_engine.specs.Prepared.{CanKeep, HasMemory, IsUndoing, KeepsAllBut, edits_after};
ghost use Rattle.czi_engine.specs.Standing.{FewKept, HasItsMap, TakeOneBack, held_by, spans_held};
ghost use Rattle.czi_engine.specs.UndoMemory.{LeavesMemory};

use crate::engine::{Engine, EngineState};
use czi_image::Change;
use czi_plan::{EditPlan, room_for_undos, update_map};
use czi_region::Region;
use czi_undo::Inverse;
use std::alloc::{AllocError, Global};
use std::mem;

/// How many spans more the map keeps after an undo at most.
const SPANS_OF_UNDO: usize = 10;

/// How many extents more the index has after an undo at most.
const EXTENTS_OF_UNDO: usize = 8;

impl EngineState {
    /// Takes the oldest inverse off where there are more than may be kept, and gives back what it holds.
    fn forget_oldest(&mut self)
        requires down { IsTrue self.old.down }
        requires held { self.old.map.held ≡ held_by (spans_held self.old) }
        requires ones { TakeOneBack self.old.edits }
        requires few { length self.old.edits ≤ 33 }
        ensures edits { self.new.edits ≡ take 32 self.old.edits }
        ensures map { Has self.new.map self.old.map.extents (held_by (spans_held self.new)) self.old.map.length }
        ensures spare { self.old.map.spare ≤ self.new.map.spare }
        ensures index { self.new.index ≡ self.old.index }
        ensures others { KeepsAllBut self.old self.new }
    {
        let state = self;
        if let Some(oldest) = state.edits.over() {
            if let Some(span) = oldest.holds() {
                state.map.unhold(&span);
            }
        }
    }

    /// Keeps one inverse more. The map holds back what it does.
    fn keep_inverse(&mut self, inverse: Inverse)
        requires down { IsTrue self.old.down }
        requires held { self.old.map.held ≡ held_by (spans_held self.old) }
        requires ones { TakeOneBack (inverse ∷ self.old.edits) }
        requires few { length self.old.edits ≤ 32 }
        requires spare { 1 ≤ self.old.map.spare }
        ensures edits { self.new.edits ≡ edits_after inverse self.old }
        ensures map { Has self.new.map self.old.map.extents (held_by (spans_held self.new)) self.old.map.length }
        ensures spare { self.old.map.spare ≤ self.new.map.spare + 1 }
        ensures index { self.new.index ≡ self.old.index }
        ensures others { KeepsAllBut self.old self.new }
    {
        let held = inverse.holds();
        self.edits.push_reserved(inverse);
        if let Some(span) = held {
            self.map.hold(&span);
        }
        self.forget_oldest();
    }

    /// Takes the newest inverse off, and gives back what it holds.
    fn forget_newest(&mut self)
        requires down { IsTrue self.old.down }
        requires held { self.old.map.held ≡ held_by (spans_held self.old) }
        ensures edits { self.new.edits ≡ drop 1 self.old.edits }
        ensures map { Has self.new.map self.old.map.extents (held_by (spans_held self.new)) self.old.map.length }
        ensures spare { self.old.map.spare ≤ self.new.map.spare }
        ensures index { self.new.index ≡ self.old.index }
        ensures others { KeepsAllBut self.old self.new }
    {
        if let Some(newest) = self.edits.pop() {
            if let Some(span) = newest.holds() {
                self.map.unhold(&span);
            }
        }
    }

    /// Makes map and index those after a plan. It takes no memory.
    fn follow_plan(&mut self, alloc: Global, region: &Region, plan: &mut EditPlan)
        requires down { IsTrue self.old.down }
        requires plan { IsPlan self.old.index self.old.map region.now plan.old }
        requires memory { HasMemory self.old plan.old }
        requires own_map { HasItsMap self.old }
        ensures index { IsChanged plan.old.change self.new.index.extents.items plan.old.length self.old.index self.new.index }
        ensures extents { map span_of self.new.index.extents.items ≡ extents_after plan.old self.old.map.extents }
        ensures map { Has self.new.map (map span_of self.new.index.extents.items) (held_by (spans_held self.old)) self.new.index.length }
        ensures left { LeavesMemory plan.old self.old.index self.new.index self.old.map self.new.map }
        ensures edits { self.new.edits ≡ self.old.edits }
        ensures others { KeepsAllBut self.old self.new }
    {
        let change = mem::replace(&mut plan.change, Change::new(alloc));
        update_map(&mut self.map, &plan.used, &plan.freed, plan.length);
        self.index.apply(change, self.map.extents(), plan.length);
    }
}

impl Engine {
    /// Takes all memory that the engine needs to take its plan over, and to undo what it then can.
    ///
    /// # Errors
    ///
    /// Where there is none. The engine is as it was.
    pub(crate) fn take_memory(&mut self) -> Result<(), AllocError>
        requires own_map { HasItsMap self.old.state }
        requires few { FewKept self.old.state.edits }
        requires brief { IsBrief self.old.scratch.plan }
        ensures memory { OnOk result (HasMemory self.new.state self.new.scratch.plan) }
        ensures keeps { OnOk result (CanKeep self.new.state self.new.scratch.plan) }
        ensures same { AsBefore self.old.state self.new.state }
        ensures scratch { self.new.scratch ≡ self.old.scratch }
    {
        let plan = &self.scratch.plan;
        let (used, freed) = (plan.used.as_slice(), plan.freed.as_slice());
        let spans = 2 * used.len() + 2 * freed.len();
        let state = &mut self.state;
        let undos = state.edits.len() + 1;
        state.map.reserve(spans + 1 + SPANS_OF_UNDO * undos)?;
        let items = undos + 1;
        let extents = spans + EXTENTS_OF_UNDO * undos;
        state.index.reserve(items, items, extents)?;
        let size = room_for_undos(&state.index, items);
        state.undos.grow(self.scratch.alloc, undos, size)
    }

    /// Takes the plan of an edit over, and what undoes it. The engine is up again. It takes no memory.
    pub(crate) fn take_over(&mut self, inverse: Inverse)
        requires down { IsTrue self.old.state.down }
        requires plan { IsPlan self.old.state.index self.old.state.map self.old.scratch.region self.old.scratch.plan }
        requires memory { HasMemory self.old.state self.old.scratch.plan }
        requires keeps { CanKeep self.old.state self.old.scratch.plan }
        requires own_map { HasItsMap self.old.state }
        requires ones { TakeOneBack (inverse ∷ self.old.state.edits) }
        requires few { length self.old.state.edits ≤ 32 }

        ensures index { IsChanged self.old.scratch.plan.change self.new.state.index.extents.items self.old.scratch.plan.length self.old.state.index self.new.state.index }
        ensures extents { map span_of self.new.state.index.extents.items ≡ extents_after self.old.scratch.plan self.old.state.map.extents }
        ensures own_map { HasItsMap self.new.state }
        ensures edits { self.new.state.edits ≡ edits_after inverse self.old.state }
        ensures number { self.new.state.number ≡ one_more self.old.state.number }
        ensures journal { self.new.state.journal ≡ self.old.state.journal }
        ensures up { IsFalse self.new.state.down }
    {
        let state = &mut self.state;
        let scratch = &mut self.scratch;
        state.follow_plan(scratch.alloc, &scratch.region, &mut scratch.plan);
        state.keep_inverse(inverse);
        state.number = state.number.saturating_add(1);
        state.down = false;
    }

    /// Takes the plan of an undo over. The engine is up again, and has its memory for undos back. It takes no memory.
    pub(crate) fn take_back(&mut self)
        requires down { IsTrue self.old.state.down }
        requires plan { IsPlan self.old.state.index self.old.state.map self.old.scratch.region self.old.scratch.plan }
        requires memory { HasMemory self.old.state self.old.scratch.plan }
        requires undoing { IsUndoing self.old }
        requires own_map { HasItsMap self.old.state }

        ensures index { IsChanged self.old.scratch.plan.change self.new.state.index.extents.items self.old.scratch.plan.length self.old.state.index self.new.state.index }
        ensures extents { map span_of self.new.state.index.extents.items ≡ extents_after self.old.scratch.plan self.old.state.map.extents }
        ensures own_map { HasItsMap self.new.state }
        ensures edits { self.new.state.edits ≡ drop 1 self.old.state.edits }
        ensures number { self.new.state.number ≡ one_more self.old.state.number }
        ensures journal { self.new.state.journal ≡ self.old.state.journal }
        ensures up { IsFalse self.new.state.down }
    {
        let state = &mut self.state;
        let scratch = &mut self.scratch;
        state.follow_plan(scratch.alloc, &scratch.region, &mut scratch.plan);
        state.forget_newest();
        state.number = state.number.saturating_add(1);
        scratch.region.reset();
        mem::swap(&mut state.undos.region, &mut scratch.region);
        state.down = false;
    }
}
