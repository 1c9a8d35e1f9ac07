//! Tests of large documents: the most attachments, and a file of realistic size.

use crate::attaching::many_attachments;
use crate::devices::{NEVER, failing_rig};
use crate::outcomes::outcome;
use czi_sample::{Sample, Segment, Subblock};
use std::alloc::{AllocError, Global};
use std::test::Fail;

const ATTACH: &[u8] =
    b"attach guid=00112233-4455-6677-8899-aabbccddeeff type=TXT name=EventList data=5\nhello\n";

#[test]
fn a_document_has_at_most_4096_attachments(rt: HostRuntime) -> Result<(), Fail> {
    let alloc = rt.alloc();
    let image = many_attachments(alloc, 4096, 4096 * 128)?;
    let mut rig = failing_rig(alloc, &image, NEVER)?;
    let status = outcome(alloc, &["F", "edit"], ATTACH, &mut rig)?;
    assert!(rt; status == 0 && rig.said() == b"no many 4096\n".as_slice());
    let image = many_attachments(alloc, 4095, 4096 * 128)?;
    let mut rig = failing_rig(alloc, &image, NEVER)?;
    let status = outcome(alloc, &["F", "edit"], ATTACH, &mut rig)?;
    assert!(rt; status == 0 && rig.said() == b"ok 1\n".as_slice());
    Ok(())
}

fn filled(alloc: Global, len: usize) -> Result<Vec<u8>, AllocError> {
    vec![in alloc; b'x'; len]
}

// A subblock of 2048 rows of 2048 pixels of two bytes, with 1,000 bytes of metadata.
fn push_tile(
    alloc: Global,
    sample: &mut Sample,
    number: u8,
    pixels: &[u8],
) -> Result<(), AllocError> {
    let meta = filled(alloc, 1000)?;
    let dims = format!(in alloc; "C{number},X0:2048,Y0:2048,Z0,T0,R0,S0,I0,B0")?;
    let subblock = Subblock {
        pixel: 1,
        compression: 0,
        dims: dims.as_bytes(),
        meta: &meta,
        pixels,
        tail: b"",
    };
    sample.push(alloc, &Segment::Subblock(subblock))
}

fn push_tiles(alloc: Global, sample: &mut Sample) -> Result<(), AllocError> {
    let pixels = filled(alloc, 8_388_608)?;
    for number in 0..12u8 {
        push_tile(alloc, sample, number, &pixels)?;
    }
    Ok(())
}

// The document's metadata, its directories and its attachment.
fn push_rest(alloc: Global, sample: &mut Sample) -> Result<(), AllocError> {
    let xml = filled(alloc, 40_000)?;
    sample.push(alloc, &Segment::Metadata(&xml, b""))?;
    sample.push(alloc, &Segment::Directory(2560))?;
    let thumbnail = filled(alloc, 20_000)?;
    let attachment = Segment::Attachment(b"JPG", b"Thumbnail", &thumbnail);
    sample.push(alloc, &attachment)?;
    sample.push(alloc, &Segment::AttDir(128))
}

// A document of 12 large subblocks, with metadata and an attachment.
fn realistic(alloc: Global) -> Result<Vec<u8>, AllocError> {
    let mut sample = Sample::new(alloc)?;
    push_tiles(alloc, &mut sample)?;
    push_rest(alloc, &mut sample)?;
    sample.build()
}

// Other metadata, and no attachment.
fn script(alloc: Global) -> Result<Vec<u8>, AllocError> {
    let line = b"meta xml=50000 att=0\n".as_slice();
    let mut script = Vec::from_slice(alloc, line)?;
    script.resize(line.len().saturating_add(50_000), b'y')?;
    script.extend_from_slice(b"\ndetach name=Thumbnail\nmap\n")?;
    Ok(script)
}

// What `info` says first, what the script says, and what `info` says then.
const TOLD: &[u8] = b"length 100743296\n\
    guid 00112233-4455-6677-8899-aabbccddeeff\n\
    directory 100719872 2720\n\
    tiles 12\n\
    tile 0 544 8389920 meta=1000 data=8388608 att=0\n\
    tile 1 8390464 8389920 meta=1000 data=8388608 att=0\n\
    tile 2 16780384 8389920 meta=1000 data=8388608 att=0\n\
    tile 3 25170304 8389920 meta=1000 data=8388608 att=0\n\
    tile 4 33560224 8389920 meta=1000 data=8388608 att=0\n\
    tile 5 41950144 8389920 meta=1000 data=8388608 att=0\n\
    tile 6 50340064 8389920 meta=1000 data=8388608 att=0\n\
    tile 7 58729984 8389920 meta=1000 data=8388608 att=0\n\
    tile 8 67119904 8389920 meta=1000 data=8388608 att=0\n\
    tile 9 75509824 8389920 meta=1000 data=8388608 att=0\n\
    tile 10 83899744 8389920 meta=1000 data=8388608 att=0\n\
    tile 11 92289664 8389920 meta=1000 data=8388608 att=0\n\
    attdir 100742880 416\n\
    attachments 1\n\
    attachment 0 100722592 20288 guid=00112233-4455-6677-8899-aabbccddeeff type=JPG name=Thumbnail data=20000\n\
    metadata 100679584 40288 xml=40000 att=0\n\
    ok 1\n\
    ok 2\n\
    length 100793600\n\
    runs 0\n\
    held 2\n\
    held 100679584 40288\n\
    held 100722592 20288\n\
    length 100793600\n\
    guid 00112233-4455-6677-8899-aabbccddeeff\n\
    directory 100719872 2720\n\
    tiles 12\n\
    tile 0 544 8389920 meta=1000 data=8388608 att=0\n\
    tile 1 8390464 8389920 meta=1000 data=8388608 att=0\n\
    tile 2 16780384 8389920 meta=1000 data=8388608 att=0\n\
    tile 3 25170304 8389920 meta=1000 data=8388608 att=0\n\
    tile 4 33560224 8389920 meta=1000 data=8388608 att=0\n\
    tile 5 41950144 8389920 meta=1000 data=8388608 att=0\n\
    tile 6 50340064 8389920 meta=1000 data=8388608 att=0\n\
    tile 7 58729984 8389920 meta=1000 data=8388608 att=0\n\
    tile 8 67119904 8389920 meta=1000 data=8388608 att=0\n\
    tile 9 75509824 8389920 meta=1000 data=8388608 att=0\n\
    tile 10 83899744 8389920 meta=1000 data=8388608 att=0\n\
    tile 11 92289664 8389920 meta=1000 data=8388608 att=0\n\
    attdir 100742880 416\n\
    attachments 0\n\
    metadata 100743296 50304 xml=50000 att=0\n";

#[test]
fn a_file_of_realistic_size_is_edited(rt: HostRuntime) -> Result<(), Fail> {
    let alloc = rt.alloc();
    let mut rig = failing_rig(alloc, &realistic(alloc)?, NEVER)?;
    let first = outcome(alloc, &["F", "info"], b"", &mut rig)?;
    let edited = outcome(alloc, &["F", "edit"], &script(alloc)?, &mut rig)?;
    let then = outcome(alloc, &["F", "info"], b"", &mut rig)?;
    assert!(rt; first == 0 && edited == 0 && then == 0);
    assert!(rt; rig.said() == TOLD);
    Ok(())
}
