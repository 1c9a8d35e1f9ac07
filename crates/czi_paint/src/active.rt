//! Which patches are active, told by their places among the patches.

ghost use Rattle.std.specs.Prelude.{◌≡◌, ◌≤◌, ◌+◌, ◌++◌, filter, length, nat_lt, IfOk};
ghost use Rattle.std.specs.List.{range_with_len};
ghost use Rattle.std.specs.List.Sorted.{IsNonDecreasing, IsPermutation};
ghost use Rattle.std.specs.Vec.{vec_len, vec_capacity};
ghost use Rattle.czi_paint.specs.Meeting.{end_row, first_row};

use crate::patch::Patch;
use std::alloc::{AllocError, Global};

/// The row of the region in which a patch begins.
pub(crate) fn first_row(patches: &[Patch], at: usize) -> u64
    ensures { result ≡ first_row patches.now at }
{
    match patches.get(at) {
        Some(patch) => patch.rows.first,
        None => 0,
    }
}

/// The row behind a patch's last one.
fn end_row(patches: &[Patch], at: usize) -> u64
    ensures { result ≡ end_row patches.now at }
{
    match patches.get(at) {
        Some(patch) => patch.rows.first + patch.rows.count,
        None => 0,
    }
}

/// The first `n` places.
pub(crate) fn places(alloc: Global, n: usize) -> Result<Vec<usize>, AllocError>
    ensures { IfOk result (λ places. places.items ≡ range_with_len 0 n) }
{
    let mut places = Vec::with_capacity(alloc, n)?;
    for at in 0..n {
        places.push(at)?;
    }
    Ok(places)
}

/// The patches that end at or before a row are active no longer.
pub(crate) fn leave(active: &mut Vec<usize>, patches: &[Patch], j: u64)
    ensures left { active.new.items ≡ filter (λ at. nat_lt j (end_row patches.now at)) active.old.items }
    ensures len { vec_len active.new ≤ vec_len active.old }
    ensures capacity { vec_capacity active.new ≡ vec_capacity active.old }
{
    active.retain(|at| j < end_row(patches, *at));
}

/// More patches are active, in painting order.
pub(crate) fn join(active: &mut Vec<usize>, more: &[usize])
    requires room { vec_len active.old + length more.now ≤ vec_capacity active.old }
    ensures joined { IsPermutation (active.old.items ++ more.now) active.new.items }
    ensures rising { IsNonDecreasing active.new.items }
    ensures len { vec_len active.new ≡ vec_len active.old + length more.now }
    ensures capacity { vec_capacity active.new ≡ vec_capacity active.old }
{
    for at in more {
        active.push_reserved(*at);
    }
    active.sort_unstable();
}
