//! Which pixels of a row or a column of a region a dimension covers.

ghost use Rattle.std.specs.Prelude.{◌≡◌, ℕ, ◌<◌, ◌≤◌, ◌+◌, ◌*◌, ◌^◌, pos, ◌-ℤ◌, ◌≤ℤ◌};
ghost use Rattle.czi_format.specs.Partial.{natural};
ghost use Rattle.czi_format.specs.Painting.{point, stored_pixel};
ghost use Rattle.czi_tiles.specs.Window.{shown_in};

/// The pixels of a row or a column that a dimension covers. They stand one behind another, and so do the stored pixels
/// that they show.
#[derive(Clone, Copy, PartialEq, Eq)]
pub struct Window {
    /// The number of the first pixel that it covers.
    pub first: u64,
    /// How many pixels it covers.
    pub count: u64,
    /// The stored pixel that the first of them shows.
    pub from: u64,
    pub ghost small: { first + count ≤ 2 ^ 32 },
    pub ghost near: { from + count ≤ 2 ^ 33 },
}

impl Window {
    ghost use Rattle.czi_tiles.specs.Window.{shown_in};

    /// No pixel.
    const NONE: Window = Window {
        first: 0,
        count: 0,
        from: 0,
    };

    /// The stored pixel that a pixel of the row or column shows.
    pub fn shown(&self, i: u64) -> Option<u64>
        ensures { result ≡ shown_in self.now.first self.now.count self.now.from i }
    {
        if i < self.first || i >= self.first + self.count {
            return None;
        }
        Some(self.from + (i - self.first))
    }

    /// The window of a dimension with this start, size and stored size over `n` pixels from a point on, in a layer.
    pub fn of(start: i32, size: i32, stored: i32, origin: i32, layer: u32, n: u32) -> Window
        requires { 1 ≤ layer }
        ensures shows { (i : ℕ) → i < n → stored_pixel layer start size stored (point origin layer i) ≡ shown_in result.first result.count result.from i }
        ensures inside { result.first + result.count ≤ n }
        ensures stored { 1 ≤ result.count → pos (result.from + result.count) ≤ℤ stored }
    {
        let (first, behind) = enter(start, origin, layer);
        if size <= 0 || stored <= 0 || first >= n as u64 {
            return Window::NONE;
        }
        let step = layer as u64;
        let from = behind / step;
        let covered = (size as u64).saturating_sub(behind).div_ceil(step);
        let there = (stored as u64).saturating_sub(from);
        Window {
            first,
            count: (n as u64 - first).min(covered.min(there)),
            from,
        }
    }
}

/// The number of the first pixel at or behind a start, and how far it lies behind it.
fn enter(start: i32, origin: i32, layer: u32) -> (u64, u64)
    requires { 1 ≤ layer }
    ensures first { result.0 ≤ 2 ^ 32 }
    ensures behind { result.1 ≤ 2 ^ 32 }
    ensures before { (i : ℕ) → i < result.0 → natural (point origin layer i -ℤ start) ≡ None }
    ensures after { (t : ℕ) → natural (point origin layer (result.0 + t) -ℤ start) ≡ Some (result.1 + t * layer) }
{
    let gap = origin.abs_diff(start) as u64;
    if origin >= start {
        return (0, gap);
    }
    let step = layer as u64;
    let first = gap.div_ceil(step);
    (first, first * step - gap)
}
