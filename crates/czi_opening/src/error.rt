//! Why an image isn't opened.

ghost use Rattle.std.specs.Prelude.{◌≡◌};
ghost use Rattle.czi_opening.specs.Steps.{image_error, journal_error};

use czi_image::ImageFault;
use czi_journal::JournalFault;
use czi_num::Span;
use thiserror::Error;

/// The first rule of reading an image that fails, in the order of the variants.
///
/// A place is a position as the image has it, or the place of an entry in the image, in bytes.
#[derive(Clone, Copy, Debug, PartialEq, Eq, Error)]
pub enum ImageRefusal {
    /// No sound file header, `ZISRAWFILE`, stands at 0.
    #[error("no file header of a CZI file stands at 0")]
    NotCzi,
    /// FilePart, which isn't 0: the file is one of several.
    #[error("the file is part {0} of several")]
    MultiPart(i32),
    /// UpdatePending, which isn't 0: a writer was at work.
    #[error("an update is pending: {0}")]
    Pending(i32),
    /// No sound directory stands at DirectoryPosition.
    #[error("no directory stands at {0}")]
    BadDirectory(i64),
    /// The directory at this position has so many entries: more than 2^20, or more than 2^12 of attachments.
    #[error("the directory at {0} has {1} entries")]
    TooMany(i64, u64),
    /// No directory entry of a subblock stands at this place.
    #[error("no directory entry stands at {0}")]
    BadEntry(i64),
    /// No sound subblock stands at the position of an entry, or no sound metadata at MetadataPosition.
    #[error("no segment of its kind stands at {0}")]
    BadSegment(i64),
    /// No sound attachment directory stands at its position, no entry at this place of it, or no sound
    /// attachment at an entry's position.
    #[error("no attachment stands at {0}")]
    BadAttachment(i64),
    /// Two live segments overlap.
    #[error("two live segments overlap")]
    Overlap(Span, Span),
}

/// Why an image isn't opened. The first five are told in the order of the variants.
#[derive(Clone, Copy, Debug, PartialEq, Eq, Error)]
pub enum OpenError {
    /// The record in the journal's selected slot has this version, which isn't 1.
    #[error("the journal has version {0}")]
    JournalVersion(u32),
    /// The field or the link at this place of the journal, in bytes, breaks the grammar of a record, and no
    /// earlier one does.
    #[error("the journal's record breaks off at {0}")]
    BadJournal(u64),
    /// The image has fewer bytes than the record says that it has once it is committed.
    #[error("the image has {have} bytes, and its journal's record needs {need}")]
    ImageShort {
        /// Bytes of the image.
        have: u64,
        /// The committed length, in bytes.
        need: u64,
    },
    /// The record is of an image with another GUID. Both as they are stored.
    #[error("the journal is that of another image")]
    ForeignJournal {
        /// The GUID in the record.
        journal: [u8; 16],
        /// Bytes 64 to 79 of the image.
        image: [u8; 16],
    },
    /// The image, recovered where the journal counts, can't be read.
    #[error("the image can't be read: {0}")]
    Refused(ImageRefusal),
    /// A call on the image failed.
    #[error("a call on the image failed")]
    ImageDevice,
    /// A call on the journal failed.
    #[error("a call on the journal failed")]
    JournalDevice,
    /// There is no memory left.
    #[error("no memory is left")]
    Memory,
}

impl From<ImageFault> for OpenError {
    ghost from_gives = { λ fault error. error ≡ image_error fault };

    fn from(fault: ImageFault) -> OpenError {
        OpenError::Refused(match fault {
            ImageFault::NotCzi => ImageRefusal::NotCzi,
            ImageFault::MultiPart(part) => ImageRefusal::MultiPart(part),
            ImageFault::Pending(value) => ImageRefusal::Pending(value),
            ImageFault::BadDirectory(place) => ImageRefusal::BadDirectory(place),
            ImageFault::TooMany(place, count) => ImageRefusal::TooMany(place, count),
            ImageFault::BadEntry(place) => ImageRefusal::BadEntry(place),
            ImageFault::BadSegment(place) => ImageRefusal::BadSegment(place),
            ImageFault::BadAttachment(place) => ImageRefusal::BadAttachment(place),
            ImageFault::Overlap(first, second) => ImageRefusal::Overlap(first, second),
            ImageFault::Memory => return OpenError::Memory,
            ImageFault::Device => return OpenError::ImageDevice,
        })
    }
}

impl From<JournalFault> for OpenError {
    ghost from_gives = { λ fault error. error ≡ journal_error fault };

    fn from(fault: JournalFault) -> OpenError {
        match fault {
            JournalFault::Version(version) => OpenError::JournalVersion(version),
            JournalFault::BadRecord(place) => OpenError::BadJournal(place),
            JournalFault::Device => OpenError::JournalDevice,
            JournalFault::Memory => OpenError::Memory,
        }
    }
}
