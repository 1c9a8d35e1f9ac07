//! Which patches have the row that is next, as the rows go on.

ghost use Rattle.std.specs.Prelude.{◌≤◌, ◌+◌, ◌-◌, length};
ghost use Rattle.std.specs.Vec.{vec_len, vec_capacity};

use crate::active::{first_row, join, leave, places};
use crate::patch::Patch;
use std::alloc::{AllocError, Global};

/// Which patches have the row that is next. They are told by their places among the patches. Only `new` takes memory.
#[derive(Drop)]
pub(crate) struct Sweep {
    /// All patches, by their first rows.
    order: Vec<usize>,
    /// How many of these were reached.
    reached: usize,
    /// Those that were reached and go on, in painting order.
    active: Vec<usize>,
    pub ghost room: { vec_len active + (length order.items - reached) ≤ vec_capacity active },
    pub ghost within: { reached ≤ length order.items },
}

impl Sweep {
    ghost use Rattle.std.specs.Prelude.{◌≡◌, IfOk};
    ghost use Rattle.czi_paint.specs.Sweep.{EntersRow, HasEntered};

    /// The patches that have row 0.
    pub(crate) fn new(alloc: Global, patches: &[Patch]) -> Result<Sweep, AllocError>
        ensures { IfOk result (λ sweep. HasEntered patches.now 0 sweep) }
    {
        let mut order = places(alloc, patches.len())?;
        order.sort_unstable_by_key(|at| first_row(patches, *at));
        let active = Vec::with_capacity(alloc, patches.len())?;
        let mut sweep = Sweep {
            order,
            reached: 0,
            active,
        };
        sweep.enter(patches, 0);
        Ok(sweep)
    }

    /// Those that have the row, in painting order.
    pub(crate) fn active(&self) -> &[usize]
        ensures { result.now ≡ self.now.active.items }
    {
        &self.active
    }

    /// Goes on to a row.
    pub(crate) fn enter(&mut self, patches: &[Patch], j: u64)
        ensures { EntersRow patches.now j self.old self.new }
    {
        leave(&mut self.active, patches, j);
        let to = self
            .order
            .partition_point(|at| first_row(patches, *at) <= j);
        if to > self.reached {
            join(&mut self.active, &self.order[self.reached..to]);
            self.reached = to;
        }
    }
}
