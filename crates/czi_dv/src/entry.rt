//! A directory entry, and why bytes are none.

ghost use Rattle.std.specs.Prelude.{◌≡◌};
ghost use Rattle.czi_dv.specs.declared.entry.EntryFault.TheVariants.{Memory};

use czi_doc::EntryInfo;
use std::alloc::AllocError;

/// A directory entry: what it says of a subblock, and where the subblock's segment stands.
#[derive(PartialEq, Eq, Drop)]
pub struct Entry {
    /// What it says of the subblock.
    pub info: EntryInfo,
    /// FilePosition: the place of the subblock's segment in the image.
    pub position: i64,
}

/// Why no directory entry was read.
#[derive(Clone, Copy, PartialEq, Eq)]
pub enum EntryFault {
    /// There are fewer than 32 bytes, or fewer than the dimension records need.
    Short,
    /// The first two bytes aren't `DV`.
    Schema,
    /// DimensionCount, which isn't 1 to 40.
    Dims(i32),
    /// FilePart, which isn't 0.
    Part(i32),
    /// There was no memory for the dimension records.
    Memory,
}

impl From<AllocError> for EntryFault {
    ghost from_gives = { λ _ e. e ≡ Memory };

    fn from(_error: AllocError) -> EntryFault {
        EntryFault::Memory
    }
}
