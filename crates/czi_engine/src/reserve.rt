//! Memory for the undos to come.

ghost use Rattle.std.specs.Prelude.{◌≡◌, ◌≤◌, [], vec_len, OnOk};
ghost use Rattle.czi_plan.specs.Conditions.{IsEmpty};
ghost use Rattle.czi_plan.specs.Need.{HasSpare, need_of_undo};
ghost use Rattle.czi_region.specs.Pieces.{bytes_put, room};

use czi_plan::{EditPlan, need_of_undo};
use czi_region::Region;
use std::alloc::{AllocError, Global};

/// An empty plan with memory for an undo.
#[derive(Drop)]
pub(crate) struct SparePlan {
    pub(crate) plan: EditPlan,
    pub ghost empty: { IsEmpty plan },
    pub ghost spare: { HasSpare need_of_undo plan },
}

/// What undos take: each a plan of its own, and bytes of one region, one after another.
#[derive(Drop)]
pub(crate) struct UndoMemory {
    pub(crate) plans: Vec<SparePlan>,
    pub(crate) region: Region,
    pub ghost reset: { bytes_put region ≡ [] },
}

/// An empty plan with memory for an undo.
fn spare_plan(alloc: Global) -> Result<SparePlan, AllocError> {
    let mut plan = EditPlan::new(alloc);
    plan.reserve(&need_of_undo())?;
    Ok(SparePlan { plan })
}

impl UndoMemory {
    /// No memory for undos.
    pub(crate) fn new(alloc: Global) -> UndoMemory {
        UndoMemory {
            plans: Vec::new(alloc),
            region: Region::new(alloc),
        }
    }

    /// Makes plans until there are so many.
    fn add_plans(&mut self, alloc: Global, count: usize) -> Result<(), AllocError>
        ensures plans { OnOk result (count ≤ vec_len self.new.plans) }
        ensures more { vec_len self.old.plans ≤ vec_len self.new.plans }
        ensures region { self.new.region ≡ self.old.region }
    {
        for _ in self.plans.len()..count {
            let plan = spare_plan(alloc)?;
            self.plans.push(plan)?;
        }
        Ok(())
    }

    /// Takes memory for so many undos, whose directories have at most so many bytes. What there is stays.
    pub(crate) fn grow(
        &mut self,
        alloc: Global,
        count: usize,
        size: usize,
    ) -> Result<(), AllocError>
        ensures plans { OnOk result (count ≤ vec_len self.new.plans) }
        ensures room { OnOk result (size ≤ room self.new.region) }
        ensures more { vec_len self.old.plans ≤ vec_len self.new.plans }
        ensures kept { room self.old.region ≤ room self.new.region }
    {
        self.add_plans(alloc, count)?;
        self.region.ensure(size)
    }
}
