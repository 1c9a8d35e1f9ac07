//! Why no image is read.

ghost use Rattle.std.specs.Prelude.{◌≡◌};
ghost use Rattle.czi_image.specs.declared.fault.ImageFault.TheVariants.{Memory};
ghost use Rattle.czi_image.specs.WalkFaults.{walk_fault};

use czi_num::Span;
use czi_walk::WalkFault;
use std::alloc::{AllocError, AllocFailed};

/// The first rule of reading that fails, in the order of the variants; or a failed call, or want of memory.
///
/// A place is a position as the image has it, or the place of an entry in the image, in bytes.
#[derive(Clone, Copy, PartialEq, Eq)]
pub enum ImageFault {
    /// No sound file header, `ZISRAWFILE`, stands at 0.
    NotCzi,
    /// FilePart, which isn't 0: the file is one of several.
    MultiPart(i32),
    /// UpdatePending, which isn't 0: a writer was at work.
    Pending(i32),
    /// No sound directory stands at DirectoryPosition.
    BadDirectory(i64),
    /// The directory at this position has so many entries: more than 2^20, or more than 2^12 of attachments.
    TooMany(i64, u64),
    /// No directory entry of a subblock stands at this place.
    BadEntry(i64),
    /// No sound subblock stands at the position of an entry, or no sound metadata at MetadataPosition.
    BadSegment(i64),
    /// No sound attachment directory stands at its position, no entry at this place of it, or no sound
    /// attachment at an entry's position.
    BadAttachment(i64),
    /// Two live segments overlap.
    Overlap(Span, Span),
    /// There is no memory left.
    Memory,
    /// A call on the image's file failed.
    Device,
}

impl From<WalkFault> for ImageFault {
    ghost from_gives = { λ walk fault. fault ≡ walk_fault walk };

    fn from(fault: WalkFault) -> ImageFault {
        match fault {
            WalkFault::Memory => ImageFault::Memory,
            WalkFault::Device => ImageFault::Device,
        }
    }
}

impl From<AllocError> for ImageFault {
    ghost from_gives = { λ _ fault. fault ≡ Memory };

    fn from(_error: AllocError) -> ImageFault {
        ImageFault::Memory
    }
}

impl<T: Drop> From<AllocFailed<T>> for ImageFault {
    ghost from_gives = { λ _ fault. fault ≡ Memory };

    fn from(_error: AllocFailed<T>) -> ImageFault {
        ImageFault::Memory
    }
}
