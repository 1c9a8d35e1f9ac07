//! Why a walk stops early.

ghost use Rattle.std.specs.Prelude.{◌≡◌};
ghost use Rattle.czi_walk.specs.declared.fault.WalkFault.TheVariants.{Memory, Device};

use czi_rig::Failed;
use std::alloc::{AllocError, AllocFailed};

/// Why a walk stops early: memory is wanting, or the device failed, whose count of faults has risen.
#[derive(Clone, Copy, PartialEq, Eq)]
pub enum WalkFault {
    /// Memory is wanting.
    Memory,
    /// A call on the image failed.
    Device,
}

impl From<AllocError> for WalkFault {
    ghost from_gives = { λ _ fault. fault ≡ Memory };

    fn from(_error: AllocError) -> WalkFault {
        WalkFault::Memory
    }
}

impl<T: Drop> From<AllocFailed<T>> for WalkFault {
    ghost from_gives = { λ _ fault. fault ≡ Memory };

    fn from(_error: AllocFailed<T>) -> WalkFault {
        WalkFault::Memory
    }
}

impl From<Failed> for WalkFault {
    ghost from_gives = { λ _ fault. fault ≡ Device };

    fn from(_error: Failed) -> WalkFault {
        WalkFault::Device
    }
}
