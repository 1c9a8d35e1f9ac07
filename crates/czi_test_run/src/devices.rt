//! Rigs and inputs for tests.

use czi_rig::{File, MemRig, MemSource};
use std::alloc::{AllocError, Global};
use std::process::Abort;

/// The number of a call that isn't made.
pub(crate) const NEVER: u64 = u64::MAX;

/// A rig over an image and no journal, whose call with this number fails.
pub(crate) fn failing_rig(alloc: Global, image: &[u8], call: u64) -> Result<MemRig, AllocError> {
    let mut rig = MemRig::new(alloc, image, b"")?;
    rig.fail_call(call)?;
    Ok(rig)
}

/// An input with these bytes, whose call with this number fails.
pub(crate) fn failing_input(
    alloc: Global,
    bytes: &[u8],
    call: u64,
) -> Result<MemSource, AllocError> {
    let mut input = MemSource::new(alloc, bytes)?;
    input.fail_call(call)?;
    Ok(input)
}

/// The rig has these files.
pub(crate) fn check_files(rt: &impl Abort, rig: &MemRig, image: &[u8], journal: &[u8]) {
    assert!(rt; rig.content(File::Image) == image && rig.content(File::Journal) == journal);
}
