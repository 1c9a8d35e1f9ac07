//! First fit over extents from which held and used spans are taken out.

ghost use Rattle.std.specs.Prelude.{◌≡◌, ℕ, ◌++◌, ◌∷◌, [], ◌+◌, ◌-◌, ◌≤◌, ◌<◌, ◌^◌, map, max, length, IfOk, OnOk};
ghost use Rattle.czi_format.specs.Space.{without, place_past, use_all};
ghost use Rattle.czi_num.specs.Span.{span_of};
ghost use Rattle.czi_space.specs.State.{place_of, lowest_of, AreExtents, IsInOrder, SkipsTo};

use crate::place::Place;
use czi_num::{Span, meets, round32};
use std::alloc::AllocError;

/// No segment is placed so that it ends past this place.
const LIMIT: u64 = 1 << 40;

/// The lowest place of a part of `run` that meets none of the spans and has `need` bytes.
pub fn lowest(run: &Span, held: &[Span], used: &[Span], need: u64) -> Option<u64>
    ensures { result ≡ lowest_of need (without (map span_of used.now) (without (map span_of held.now) (span_of run.now ∷ []))) }
{
    if run.len < need {
        return None;
    }
    let Some((first, rest)) = held.split_first() else {
        return if used.is_empty() {
            Some(run.at)
        } else {
            lowest(run, used, &[], need)
        };
    };
    if !meets(first, run) {
        return lowest(run, rest, used, need);
    }
    if run.at < first.at {
        let before = Span {
            at: run.at,
            len: first.at - run.at,
        };
        if let Some(at) = lowest(&before, rest, used, need) {
            return Some(at);
        }
    }
    let (from, to) = (first.at + first.len, run.at + run.len);
    if from < to {
        let behind = Span {
            at: from,
            len: to - from,
        };
        return lowest(&behind, rest, used, need);
    }
    None
}

/// The held spans from the first one on that ends past a place.
pub fn ending_past(held: &[Span], place: u64) -> &[Span]
    ensures { SkipsTo place (map span_of held.now) (map span_of result.now) }
{
    for (i, span) in held.iter().enumerate() {
        if span.at + span.len > place {
            let (_, rest) = held.split_at(i);
            return rest;
        }
    }
    &[]
}

/// Appends the parts of `run` that meet none of the spans, which are in order: those behind the run aren't
/// looked at.
pub fn push_parts(run: &Span, held: &[Span], out: &mut Vec<Span>) -> Result<(), AllocError>
    requires { IsInOrder (map span_of held.now) }
    ensures { OnOk result (map span_of out.new.items ≡ map span_of out.old.items ++ without (map span_of held.now) (span_of run.now ∷ [])) }
{
    let Some((first, rest)) = held.split_first() else {
        out.push(*run)?;
        return Ok(());
    };
    if first.at >= run.at + run.len {
        out.push(*run)?;
        return Ok(());
    }
    if !meets(first, run) {
        return push_parts(run, rest, out);
    }
    if run.at < first.at {
        let before = Span {
            at: run.at,
            len: first.at - run.at,
        };
        push_parts(&before, rest, out)?;
    }
    let (from, to) = (first.at + first.len, run.at + run.len);
    if from < to {
        let behind = Span {
            at: from,
            len: to - from,
        };
        push_parts(&behind, rest, out)?;
    }
    Ok(())
}

/// Appends the free runs: the parts of the extents that meet no held span. Both rise, and are gone through side
/// by side.
pub fn push_runs(extents: &[Span], held: &[Span], out: &mut Vec<Span>) -> Result<(), AllocError>
    requires rising { (to : ℕ) × AreExtents 0 to (map span_of extents.now) }
    requires order { IsInOrder (map span_of held.now) }
    ensures { OnOk result (map span_of out.new.items ≡ map span_of out.old.items ++ without (map span_of held.now) (map span_of extents.now)) }
{
    let mut rest = held;
    for extent in extents {
        rest = ending_past(rest, extent.at);
        push_parts(extent, rest, out)?;
    }
    Ok(())
}

/// The place past a length: the length rounded up to 32, where the need ends at or below the limit.
pub fn past(length: u64, need: u64) -> Place
    ensures { place_of result ≡ place_past (record { runs = []; length = length }) need }
{
    if length > LIMIT {
        return Place::Full { need, length };
    }
    let at = round32(length);
    if need <= LIMIT - at {
        Place::At(at)
    } else {
        Place::Full { need, length }
    }
}

/// The length once these spans are used.
pub fn grown(length: u64, used: &[Span]) -> u64
    ensures { result ≡ (use_all (record { runs = []; length = length }) (map span_of used.now)).length }
{
    let mut end = length;
    for span in used {
        end = end.max(span.at + span.len);
    }
    end
}
