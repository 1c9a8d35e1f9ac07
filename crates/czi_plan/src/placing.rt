//! Where new segments go, and whether the walk stands on them.

ghost use Rattle.std.specs.Prelude.{◌≡◌, ◌^◌, ◌≤◌, ◌||◌, nat_lt, Ok, Err, map, IfOk, IfErr};
ghost use Rattle.czi_format.specs.Space.{fit, use_all, use_span};
ghost use Rattle.czi_format.specs.Span.{end_of};
ghost use Rattle.czi_image.specs.Applied.{walks_on};
ghost use Rattle.czi_num.specs.Span.{span_of};
ghost use Rattle.czi_space.specs.State.{AreExtents, space_of};
ghost use Rattle.czi_plan.specs.Placing.{HasNoPlace, IsFull};

use crate::plan::PlanFault;
use czi_image::Index;
use czi_num::{Span, round32};
use czi_space::{Map, Place};

/// Where a need goes, once some spans were used.
pub fn place(space: &Map, used: &[Span], need: u64) -> Result<Span, PlanFault>
    requires rise { AreExtents 0 space.now.length space.now.extents }
    requires small { space.now.length ≤ 2 ^ 62 }
    ensures placed { IfOk result (λ s. fit (use_all (space_of space.now) (map span_of used.now)) need ≡ Ok (record { span = span_of s; space = use_span (use_all (space_of space.now) (map span_of used.now)) (span_of s) })) }
    ensures ends { IfOk result (λ s. end_of (span_of s) ≤ 2 ^ 62) }
    ensures full { IfErr result (λ fault. IsFull fault (fit (use_all (space_of space.now) (map span_of used.now)) need)) }
    ensures never { IfErr result HasNoPlace }
{
    match space.first_fit_after(need, used) {
        Place::At(at) => Ok(Span { at, len: need }),
        Place::Full { need, length } => Err(PlanFault::Full { need, length }),
    }
}

/// Whether the walk stands on a new segment at a place: behind the length it goes on only where its end and the length
/// are one place, each rounded up to 32.
pub fn walks_at(index: &Index, at: u64) -> bool
    ensures { result ≡ (nat_lt at index.now.length || walks_on index.now) }
{
    let goes_on = round32(index.walk_end) == round32(index.length);
    at < index.length || goes_on
}
