ghost use Rattle.std.specs.Prelude.{◌+◌, ◌≤◌, ◌^◌};

/// The `len` places from `at` on, both in bytes.
#[derive(Clone, Copy, Debug, PartialEq, Eq)]
pub struct Span {
    /// The first place.
    pub at: u64,
    /// How many places there are.
    pub len: u64,
    pub ghost within: { at + len ≤ 2 ^ 63 },
}
