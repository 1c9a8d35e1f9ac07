//! Tests of a removal that writes a new directory, as the entries behind the removed one have more than 65,536 bytes.

use crate::calls::{SELECTOR, check_crashes, number_of};
use crate::devices::{NEVER, failing_rig};
use crate::outcomes::{check_said, outcome};
use czi_rig::{Call, File, MemRig};
use czi_sample::{Sample, Segment, TILE};
use std::alloc::{AllocError, Global};
use std::process::Abort;
use std::test::Fail;

// A subblock with 40 dimensions: its segment is 896 bytes long, and its entry 832.
const OTHER: Segment = Segment::Tile(
    b"A0,A0,A0,A0,A0,A0,A0,A0,A0,A0,A0,A0,A0,A0,A0,A0,A0,A0,A0,A0,A0,A0,A0,A0,A0,A0,A0,A0,A0,A0,A0,A0,A0,A0,A0,A0,A0,A0,A0,A0",
    b"",
);

// A document of 80 subblocks in 137,632 bytes. The directory has room for four bytes more.
fn document(alloc: Global) -> Result<Vec<u8>, AllocError> {
    let mut sample = Sample::new(alloc)?;
    sample.push(alloc, &TILE)?;
    for _ in 0..79u8 {
        sample.push(alloc, &OTHER)?;
    }
    sample.push(alloc, &Segment::Directory(92 + 79 * 832 + 4))?;
    sample.build()
}

// What `info` says of the document first, and once the first subblock is removed.
const WHOLE: &[u8] = b"length 137632\n\
    guid 00112233-4455-6677-8899-aabbccddeeff\n\
    directory 71648 65984\n\
    tiles 80\n\
    tile 0 544 320 meta=0 data=8 att=0\n\
    tile 1 864 896 meta=0 data=0 att=0\n";

const REMOVED: &[u8] = b"length 220000\n\
    guid 00112233-4455-6677-8899-aabbccddeeff\n\
    directory 137632 82368\n\
    tiles 79\n\
    tile 0 864 896 meta=0 data=0 att=0\n";

const SCRIPT: &[u8] = b"remove dims=C0,X0:4,Y0:2\n";

// A run of the script over an image.
fn edited(
    rt: &impl Abort,
    alloc: Global,
    image: &[u8],
    failing: u64,
    (status, said): (u8, &[u8]),
) -> Result<MemRig, Fail> {
    let mut rig = failing_rig(alloc, image, failing)?;
    let answer = outcome(alloc, &["F", "edit"], SCRIPT, &mut rig)?;
    assert!(rt; answer == status && rig.said() == said);
    Ok(rig)
}

/// All that `info` says of these files, which begins so.
pub(crate) fn told(
    rt: &impl Abort,
    alloc: Global,
    (image, journal): (&[u8], &[u8]),
    front: &[u8],
) -> Result<Vec<u8>, Fail> {
    let mut rig = MemRig::new(alloc, image, journal)?;
    let answer = outcome(alloc, &["F", "info"], b"", &mut rig)?;
    assert!(rt; answer == 0 && rig.said().starts_with(front));
    Ok(Vec::from_slice(alloc, rig.said())?)
}

// The data of the new directory.
const DATA: Call = Call::Write(File::Image, 137_664, 82_336);

// Calls in which the run crashes: zeros in front of the data, these, the byte that commits, and the directory's pointer.
static CRASHED: [Call; 4] = [
    Call::Write(File::Image, 137_632, 32),
    DATA,
    SELECTOR,
    Call::Write(File::Image, 84, 8),
];

#[test]
fn a_crash_leaves_the_old_directory_or_the_new_one(rt: HostRuntime) -> Result<(), Fail> {
    let alloc = rt.alloc();
    let image = document(alloc)?;
    let rig = edited(&rt, alloc, &image, NEVER, (0, b"ok 1\n"))?;
    let old = told(&rt, alloc, (&image, b""), WHOLE)?;
    let files = (rig.content(File::Image), rig.content(File::Journal));
    let new = told(&rt, alloc, files, REMOVED)?;
    let selector = number_of(&rig, SELECTOR)?;
    for call in CRASHED.iter() {
        let number = number_of(&rig, *call)?;
        check_crashes(&rt, alloc, &rig, (number, selector), ("info", &old, &new))?;
    }
    Ok(())
}

#[test]
fn a_failed_write_of_data_stops_the_script(rt: HostRuntime) -> Result<(), Fail> {
    let alloc = rt.alloc();
    let image = document(alloc)?;
    let whole = edited(&rt, alloc, &image, NEVER, (0, b"ok 1\n"))?;
    let failing = number_of(&whole, DATA)?;
    let rig = edited(&rt, alloc, &image, failing, (4, b""))?;
    let old = told(&rt, alloc, (&image, b""), WHOLE)?;
    let files = (rig.content(File::Image), rig.content(File::Journal));
    check_said(&rt, alloc, "info", files, (0, &old))
}
