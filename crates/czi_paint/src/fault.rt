//! Why a region isn't painted.

ghost use Rattle.std.specs.Prelude.{◌≡◌};
ghost use Rattle.czi_paint.specs.declared.fault.PaintError.TheVariants.{Memory};

use std::alloc::{AllocError, AllocFailed};

/// Why a region isn't painted. A place is that of a tile in the directory.
#[derive(Clone, Copy, PartialEq, Eq)]
pub enum PaintError {
    /// The region has this many bytes, which is more than the limit.
    TooLong { bytes: u128, limit: u64 },
    /// The tile is compressed.
    Compressed(u64),
    /// The tile's pixel type is none that can be painted.
    Kind(u64),
    /// The tile's pixel type is another one than the query's.
    Mixed(u64),
    /// The tile has fewer bytes than its pixels need.
    ShortData(u64),
    /// Memory is wanting.
    Memory,
}

impl From<AllocError> for PaintError {
    ghost from_gives = { λ _ error. error ≡ Memory };

    fn from(_error: AllocError) -> PaintError {
        PaintError::Memory
    }
}

impl<T: Drop> From<AllocFailed<T>> for PaintError {
    ghost from_gives = { λ _ error. error ≡ Memory };

    fn from(_error: AllocFailed<T>) -> PaintError {
        PaintError::Memory
    }
}
