//! What runs of the program answer.

use crate::devices::{NEVER, failing_input, failing_rig};
use czi_rig::MemRig;
use czi_sample::{Segment, image_of};
use czi_top::run;
use std::alloc::{AllocError, Global};
use std::process::Abort;
use std::test::Fail;

fn owned(alloc: Global, words: &[&str]) -> Result<Vec<String>, AllocError> {
    let mut owned = Vec::new(alloc);
    for word in words {
        owned.push(String::from_str(alloc, word)?)?;
    }
    Ok(owned)
}

/// What a run of the words answers, over an input whose call with this number fails.
pub(crate) fn outcome_over(
    alloc: Global,
    words: &[&str],
    script: &[u8],
    failing: u64,
    rig: &mut MemRig,
) -> Result<u8, AllocError> {
    let words = owned(alloc, words)?;
    let mut input = failing_input(alloc, script, failing)?;
    Ok(run(alloc, &words, rig, &mut input))
}

/// The same over an input no call of which fails.
pub(crate) fn outcome(
    alloc: Global,
    words: &[&str],
    script: &[u8],
    rig: &mut MemRig,
) -> Result<u8, AllocError> {
    outcome_over(alloc, words, script, NEVER, rig)
}

/// A rig over the image of these segments, whose call with this number fails.
pub(crate) fn rig_of(
    alloc: Global,
    segments: &[Segment],
    failing: u64,
) -> Result<MemRig, AllocError> {
    failing_rig(alloc, &image_of(alloc, segments)?, failing)
}

/// A run of a script over the image of these segments: it ended and said so.
pub(crate) fn ran(
    rt: &impl Abort,
    alloc: Global,
    segments: &[Segment],
    script: &[u8],
    (status, said): (u8, &[u8]),
) -> Result<MemRig, Fail> {
    let mut rig = rig_of(alloc, segments, NEVER)?;
    let answer = outcome(alloc, &["F", "edit"], script, &mut rig)?;
    assert!(rt; answer == status);
    assert!(rt; rig.said() == said);
    Ok(rig)
}

/// What the command says of these files, and the status that it answers.
pub(crate) fn check_said(
    rt: &impl Abort,
    alloc: Global,
    command: &str,
    (image, journal): (&[u8], &[u8]),
    (status, said): (u8, &[u8]),
) -> Result<(), Fail> {
    let mut rig = MemRig::new(alloc, image, journal)?;
    let answer = outcome(alloc, &["F", command], b"", &mut rig)?;
    assert!(rt; answer == status && rig.said() == said);
    Ok(())
}

/// What `list` says of the document without subblocks.
pub(crate) const NO_TILES: &[u8] = b"tiles 0\n";

/// What `list` says of the document with one subblock.
pub(crate) const TILE: &[u8] = b"tiles 1\n\
    tile 0 704 pixel=0 comp=0 dims=C0:1:1,X0:4:4,Y0:2:2\n";

/// What `info` says of the document with one subblock.
pub(crate) const ONE: &[u8] = b"length 1280\n\
    guid 00112233-4455-6677-8899-aabbccddeeff\n\
    directory 1024 256\n\
    tiles 1\n\
    tile 0 704 320 meta=0 data=8 att=0\n\
    attdir none\n\
    attachments 0\n\
    metadata none\n";
