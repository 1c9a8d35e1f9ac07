//! Why an edit or an undo isn't done.

ghost use Rattle.std.specs.Prelude.{◌≡◌};
ghost use Rattle.czi_engine.specs.declared.error.EditError.TheVariants as edits;
ghost use Rattle.czi_engine.specs.Editing.{error_of, undo_error_of, unplanned};

use czi_plan::PlanFault;
use czi_vault::VaultFault;
use std::alloc::AllocError;
use thiserror::Error;

/// Why an edit isn't done, in the order in which the causes are looked for.
#[derive(Clone, Copy, Debug, PartialEq, Eq, Error)]
pub enum EditError {
    /// A piece of what the edit brings is past its limit. It is the first one, in the order of the parameters.
    #[error("a piece of {len} bytes, where the limit is {limit}")]
    TooLong {
        /// How many bytes the piece has.
        len: u64,
        /// How many it may have.
        limit: u64,
    },
    /// No item has the key.
    #[error("no item has the key")]
    NoKey,
    /// An item has the key already: the one at this place of its list, counted from 0.
    #[error("the item at {0} has the key already")]
    Duplicate(u64),
    /// The list has this many items, and may not have more.
    #[error("{0} items, and no room for more")]
    TooMany(u64),
    /// A new segment has no place: past the length it would end above 2^40.
    #[error("no place for {need} bytes, at a length of {length}")]
    Full {
        /// How many bytes the segment needs.
        need: u64,
        /// The image's length without it, in bytes.
        length: u64,
    },
    /// There is no memory left.
    #[error("no memory is left")]
    Memory,
    /// A call on the image failed.
    #[error("a call on the image failed")]
    ImageDevice,
    /// A call on the journal failed.
    #[error("a call on the journal failed")]
    JournalDevice,
}

impl From<AllocError> for EditError {
    ghost from_gives = { λ _ e. e ≡ edits.Memory };

    fn from(_error: AllocError) -> EditError {
        EditError::Memory
    }
}

impl From<PlanFault> for EditError {
    ghost from_gives = { λ fault e. e ≡ unplanned fault };

    fn from(fault: PlanFault) -> EditError {
        match fault {
            PlanFault::Full { need, length } => EditError::Full { need, length },
            PlanFault::Memory => EditError::Memory,
        }
    }
}

impl From<VaultFault> for EditError {
    ghost from_gives = { λ fault e. e ≡ error_of fault };

    fn from(fault: VaultFault) -> EditError {
        match fault {
            VaultFault::Image => EditError::ImageDevice,
            VaultFault::Journal => EditError::JournalDevice,
        }
    }
}

/// Why an undo isn't done, in the order in which the causes are looked for. It takes no memory, and so none is wanting.
#[derive(Clone, Copy, Debug, PartialEq, Eq, Error)]
pub enum UndoError {
    /// There is no edit that could be undone.
    #[error("nothing to undo")]
    Nothing,
    /// The directory has to be written anew, and has no place: past the length it would end above 2^40.
    #[error("no place for {need} bytes, at a length of {length}")]
    Full {
        /// How many bytes the segment needs.
        need: u64,
        /// The image's length without it, in bytes.
        length: u64,
    },
    /// A call on the image failed.
    #[error("a call on the image failed")]
    ImageDevice,
    /// A call on the journal failed.
    #[error("a call on the journal failed")]
    JournalDevice,
}

impl From<VaultFault> for UndoError {
    ghost from_gives = { λ fault e. e ≡ undo_error_of fault };

    fn from(fault: VaultFault) -> UndoError {
        match fault {
            VaultFault::Image => UndoError::ImageDevice,
            VaultFault::Journal => UndoError::JournalDevice,
        }
    }
}
