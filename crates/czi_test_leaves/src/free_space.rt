ghost use Rattle.std.specs.Prelude.{[], ◌∷◌, ◌≤◌, IfOk, OnOk};
ghost use Rattle.czi_num.specs.Span.{span_of};
ghost use Rattle.czi_space.specs.State.{AreExtents, Has};

use czi_num::Span;
use czi_space::{Map, Place};
use std::alloc::{AllocError, Global};
use std::process::Abort;
use std::test::Fail;

/// A map of one extent, with spare memory for four more.
fn map_of(alloc: Global, extent: Span, length: u64) -> Result<Map, AllocError>
    requires { AreExtents 0 length (span_of extent ∷ []) }
    ensures map { IfOk result (λ m. Has m (span_of extent ∷ []) [] length) }
    ensures spare { IfOk result (λ m. 4 ≤ m.spare) }
{
    let mut map = Map::of_runs(alloc, vec![in alloc; extent]?, length);
    map.reserve(4)?;
    Ok(map)
}

fn check_runs(rt: &impl Abort, map: &Map, wanted: &[Span]) -> Result<(), AllocError> {
    let runs = map.runs()?;
    assert!(rt; runs.as_slice() == wanted);
    Ok(())
}

#[test]
fn runs_and_places(rt: HostRuntime) -> Result<(), Fail> {
    let extent = Span { at: 544, len: 160 };
    let map = map_of(rt.alloc(), extent, 704)?;
    check_runs(&rt, &map, &[extent])?;
    assert!(rt; map.length() == 704);
    assert!(rt; map.first_fit(160) == Place::At(544));
    assert!(rt; map.first_fit(192) == Place::At(704));
    Ok(())
}

#[test]
fn places_beside_taken_spans(rt: HostRuntime) -> Result<(), Fail> {
    let map = map_of(rt.alloc(), Span { at: 544, len: 160 }, 704)?;
    let taken = [Span { at: 544, len: 128 }, Span { at: 704, len: 320 }];
    assert!(rt; map.first_fit_after(64, &taken) == Place::At(1024));
    assert!(rt; map.first_fit_after(32, &taken) == Place::At(672));
    Ok(())
}

#[test]
fn places_at_the_limit(rt: HostRuntime) {
    let length = 1_099_511_627_744;
    let map = Map::of_runs(rt.alloc(), Vec::new(rt.alloc()), length);
    assert!(rt; map.first_fit(64) == Place::Full { need: 64, length });
    assert!(rt; map.first_fit(32) == Place::At(length));
    let length = u64::MAX;
    let long = Map::of_runs(rt.alloc(), Vec::new(rt.alloc()), length);
    assert!(rt; long.first_fit(32) == Place::Full { need: 32, length });
}

#[test]
fn held_and_released(rt: HostRuntime) -> Result<(), Fail> {
    let mut map = map_of(rt.alloc(), Span { at: 544, len: 736 }, 1600)?;
    let old = Span { at: 704, len: 320 };
    map.hold(&old);
    assert!(rt; map.held() == [old].as_slice());
    assert!(rt; map.first_fit(256) == Place::At(1024));
    check_runs(
        &rt,
        &map,
        &[Span { at: 544, len: 160 }, Span { at: 1024, len: 256 }],
    )?;
    map.unhold(&old);
    assert!(rt; map.held().is_empty());
    Ok(())
}

#[test]
fn taken_freed_and_cut(rt: HostRuntime) -> Result<(), Fail> {
    let whole = Span { at: 544, len: 736 };
    let mut map = map_of(rt.alloc(), whole, 1280)?;
    let old = Span { at: 704, len: 320 };
    map.take(&old);
    let parts = [Span { at: 544, len: 160 }, Span { at: 1024, len: 256 }];
    assert!(rt; map.extents() == parts.as_slice());
    map.free(&old);
    assert!(rt; map.extents() == [whole].as_slice());
    map.set_length(2048);
    map.cut(1024);
    assert!(rt; map.extents().is_empty() && map.length() == 1024);
    Ok(())
}
