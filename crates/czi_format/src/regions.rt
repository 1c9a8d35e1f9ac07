//! How much is painted at once.

/// The most bytes of a region that is painted: 2^28.
pub const REGION_LIMIT: u64 = 268_435_456;
