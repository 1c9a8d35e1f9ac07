//! The extents that the spans of a plan touch. All others stay as they are.

ghost use Rattle.std.specs.Prelude.{◌≡◌, ◌+◌, ◌*◌, ◌≤◌, ◌++◌, [], map, filter, length};
ghost use Rattle.std.specs.List.{list_any};
ghost use Rattle.czi_format.specs.Space.{deleted_after, without};
ghost use Rattle.czi_format.specs.Span.{span_le, sorted};
ghost use Rattle.czi_num.specs.Span.{span_of};
ghost use Rattle.czi_space.specs.State.{AreExtents, Has};
ghost use Rattle.czi_plan.specs.Geometry.{AreFreed, AreUsed, is_touched, touches};

use crate::freeing::update_map;
use czi_num::Span;
use czi_space::Map;

/// Whether one of the spans touches a span: they have a place in common, or one begins where the other ends.
fn touches_any(span: &Span, others: &[Span]) -> bool
    ensures { result ≡ list_any (touches (span_of span.now)) (map span_of others.now) }
{
    for other in others {
        if other.at <= span.at + span.len && span.at <= other.at + other.len {
            return true;
        }
    }
    false
}

/// Whether one of the spans that are used or freed touches a span.
fn is_touched(span: &Span, used: &[Span], freed: &[Span]) -> bool
    ensures { result ≡ is_touched (map span_of used.now) (map span_of freed.now) (span_of span.now) }
{
    touches_any(span, used) || touches_any(span, freed)
}

/// Puts the extents that the spans touch behind those of a map. It searches by halves: where no span touches what goes from the first of
/// some extents to the last of them, it looks at none of these.
fn push_touched(extents: &[Span], used: &[Span], freed: &[Span], out: &mut Map)
    requires rise { AreExtents 0 out.old.length (out.old.extents ++ map span_of extents.now) }
    requires spare { length (filter (is_touched (map span_of used.now) (map span_of freed.now)) (map span_of extents.now)) ≤ out.old.spare }
    ensures map { Has out.new (out.old.extents ++ filter (is_touched (map span_of used.now) (map span_of freed.now)) (map span_of extents.now)) out.old.held out.old.length }
    ensures spare { out.old.spare ≤ out.new.spare + length (filter (is_touched (map span_of used.now) (map span_of freed.now)) (map span_of extents.now)) }
{
    if extents.is_empty() {
        return;
    }
    let (first, last) = (extents[0], extents[extents.len() - 1]);
    let hull = Span {
        at: first.at,
        len: last.at + last.len - first.at,
    };
    if !is_touched(&hull, used, freed) {
        return;
    }
    if extents.len() == 1 {
        out.push(&first);
        return;
    }
    let (low, high) = extents.split_at(extents.len() / 2);
    push_touched(low, used, freed, out);
    push_touched(high, used, freed, out);
}

/// Makes a map that of the extents that the spans touch. It holds nothing back.
fn touched(space: &Map, used: &[Span], freed: &[Span], out: &mut Map)
    requires spare { length (filter (is_touched (map span_of used.now) (map span_of freed.now)) space.now.extents) ≤ out.old.spare }
    ensures map { Has out.new (filter (is_touched (map span_of used.now) (map span_of freed.now)) space.now.extents) [] space.now.length }
    ensures rising { AreExtents 0 space.now.length space.now.extents }
    ensures spare { out.old.spare ≤ out.new.spare + length (filter (is_touched (map span_of used.now) (map span_of freed.now)) space.now.extents) }
{
    out.clear(space.length());
    push_touched(space.extents(), used, freed, out);
}

/// Makes a map that of the extents after a plan that its spans touch: those of the extents before it that they touch, and
/// what becomes of these. It looks at no other extents, and takes no memory.
pub fn touched_after(space: &Map, used: &[Span], freed: &[Span], out: &mut Map)
    requires used { AreUsed space.now.length (map span_of used.now) space.now.extents }
    requires freed { AreFreed space.now.length (map span_of freed.now) (without (map span_of used.now) space.now.extents) }
    requires in_order { sorted span_le (map span_of freed.now) ≡ map span_of freed.now }
    requires spare { length (filter (is_touched (map span_of used.now) (map span_of freed.now)) space.now.extents) + (2 * length used.now + 2 * length freed.now) ≤ out.old.spare }
    ensures { out.new.extents ≡ filter (is_touched (map span_of used.now) (map span_of freed.now)) (deleted_after (map span_of used.now) (map span_of freed.now) space.now.extents) }
{
    touched(space, used, freed, out);
    update_map(out, used, freed, space.length());
}
