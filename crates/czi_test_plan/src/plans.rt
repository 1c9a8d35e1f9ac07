//! What plans write, use, free and hold.

ghost use Rattle.std.specs.Prelude.{◌≡◌, ◌≤◌, map, IfOk};
ghost use Rattle.std.specs.List.{AllByRecursion};
ghost use Rattle.czi_region.specs.Pieces.{IsPiece};
ghost use Rattle.czi_format.specs.Space.{without};
ghost use Rattle.czi_format.specs.Span.{span_le, sorted};
ghost use Rattle.czi_plan.specs.Conditions.{IsMapOf};
ghost use Rattle.czi_plan.specs.Geometry.{AreFreed, AreUsed};
ghost use Rattle.czi_num.specs.Span.{span_of};
ghost use Rattle.czi_space.specs.State.{AreExtents};

use czi_image::Index;
use czi_num::Span;
use czi_plan::{EditPlan, update_map};
use czi_region::Region;
use czi_space::Map;
use std::alloc::{AllocError, Global};

/// The map of an index, with nothing held back.
pub(crate) fn map_of(alloc: Global, index: &Index) -> Result<Map, AllocError>
    ensures { IfOk result (IsMapOf index.now) }
{
    let extents = index.extents.as_slice().to_vec(alloc)?;
    Ok(Map::of_runs(alloc, extents, index.length))
}

/// The free runs of a map once spans were used and freed, and some of these were held back.
pub(crate) fn runs_after(
    space: &mut Map,
    used: &[Span],
    freed: &[Span],
    held: &[Span],
    image_len: u64,
) -> Result<Vec<Span>, AllocError>
    requires rise { AreExtents 0 space.old.length space.old.extents }
    requires used { AreUsed space.old.length (map span_of used.now) space.old.extents }
    requires freed { AreFreed space.old.length (map span_of freed.now) (without (map span_of used.now) space.old.extents) }
    requires in_order { sorted span_le (map span_of freed.now) ≡ map span_of freed.now }
    requires longer { space.old.length ≤ image_len }
{
    space.reserve(2 * used.len() + 2 * freed.len())?;
    update_map(space, used, freed, image_len);
    for span in held {
        space.reserve(1)?;
        space.hold(span);
    }
    space.runs()
}

/// The bytes of a plan's first write.
pub(crate) fn first_write(
    alloc: Global,
    region: &Region,
    plan: &EditPlan,
) -> Result<Vec<u8>, AllocError>
    requires { AllByRecursion (λ w. IsPiece region.now w.1) plan.now.writes.items }
{
    let writes = plan.writes.as_slice();
    if writes.len() == 0 {
        return Ok(Vec::new(alloc));
    }
    let (_, piece) = writes[0];
    region.get(&piece).to_vec(alloc)
}

/// The links: places, and the first 24 bytes of each.
pub(crate) fn links_of(alloc: Global, plan: &EditPlan) -> Result<Vec<(u64, Vec<u8>)>, AllocError> {
    let mut links = Vec::new(alloc);
    for i in 0..plan.links.count() {
        let (place, bytes) = plan.links.link(i);
        let front = if bytes.len() > 24 {
            &bytes[..24]
        } else {
            bytes
        };
        links.push((place, front.to_vec(alloc)?))?;
    }
    Ok(links)
}

/// The first 24 bytes of the header of a DELETED segment.
pub(crate) fn deleted(allocated: u8, more: u8) -> [u8; 24] {
    let mut head = *b"DELETED\0\0\0\0\0\0\0\0\0\0\0\0\0\0\0\0\0";
    head[16] = allocated;
    head[17] = more;
    head
}

/// The places and lengths of spans.
pub(crate) fn pairs_of(alloc: Global, spans: &[Span]) -> Result<Vec<(u64, u64)>, AllocError> {
    let mut pairs = Vec::new(alloc);
    for span in spans {
        pairs.push((span.at, span.len))?;
    }
    Ok(pairs)
}

/// The places and lengths of a plan's links.
pub(crate) fn places_of(alloc: Global, plan: &EditPlan) -> Result<Vec<(u64, usize)>, AllocError> {
    let mut places = Vec::new(alloc);
    for i in 0..plan.links.count() {
        let (place, bytes) = plan.links.link(i);
        places.push((place, bytes.len()))?;
    }
    Ok(places)
}
