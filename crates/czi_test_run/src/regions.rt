//! Tests of regions that are painted: as lines of scripts, as words of the command line, and of a large image.

use crate::calls::number_of;
use crate::devices::{NEVER, check_files, failing_rig};
use crate::images::{PLAIN, one_tile};
use crate::outcomes::{outcome, outcome_over, ran};
use crate::top::check_usage;
use czi_rig::{Call, File, MemRig};
use czi_sample::places::UPDATE_PENDING;
use czi_sample::{PIXELS, Sample, Segment};
use std::alloc::{AllocError, Global};
use std::process::Abort;
use std::test::Fail;

// A script that adds tiles to the document without any, what it says, the fields of a region, and the reply to that.
type Row = (
    &'static [u8],
    &'static [u8],
    &'static [&'static str],
    &'static [u8],
);

// Two tiles, of which the second lies over the last column of the first and is painted before it.
const MOSAIC: &[u8] = b"add pixel=0 dims=X0:2,Y0:1,M5 meta=0 data=2 att=0\nAB\n\
    add pixel=0 dims=X1:2,Y0:1,M3 meta=0 data=2 att=0\nCD\n";

// A tile of five columns, of which three are stored.
const REDUCED: &[u8] = b"add pixel=0 dims=X0:5:3,Y0:1 meta=0 data=3 att=0\nabc\n";

const COMPRESSED: &[u8] = b"add pixel=0 comp=4 dims=X0:4,Y0:2 meta=0 data=3 att=0\nxyz\n";

const BGR: &[u8] = b"add pixel=3 dims=X0:1,Y0:1 meta=0 data=3 att=0\n\x01\x02\x03\n";

const WIDE: &[u8] = b"add pixel=1 dims=X0:1,Y0:1 meta=0 data=2 att=0\n\x34\x12\n";

const FOREIGN: &[u8] = b"add pixel=9 dims=X0:1,Y0:1 meta=0 data=1 att=0\nA\n";

const GRAY: &[u8] = b"add pixel=0 dims=X0:1,Y0:1 meta=0 data=1 att=0\nA\n";

const SHORT: &[u8] = b"add pixel=0 dims=X0:4,Y0:2 meta=0 data=7 att=0\nABCDEFG\n";

// Tiles of two channels in one scene.
const CHANNELS: &[u8] = b"add pixel=0 dims=C0,S1,X0:2,Y0:1 meta=0 data=2 att=0\nAB\n\
    add pixel=0 dims=C1,S1,X0:2,Y0:1 meta=0 data=2 att=0\nCD\n";

#[rattlefmt::skip]
static ROWS: [Row; 13] = [
    (COMPRESSED, b"ok 1\n", &["pixel=0", "layer=1", "x=0", "y=0", "w=4", "h=2"], b"no compressed 0\n"),
    (MOSAIC, b"ok 1\nok 2\n", &["pixel=0", "layer=1", "x=0", "y=0", "w=4", "h=1"], b"P5\n4 1\n255\n\x41\x42\x44\x00"),
    (MOSAIC, b"ok 1\nok 2\n", &["pixel=0", "layer=1", "x=-8", "y=0", "w=2", "h=1"], b"P5\n2 1\n255\n\x00\x00"),
    (REDUCED, b"ok 1\n", &["pixel=0", "layer=2", "x=0", "y=0", "w=4", "h=1"], b"P5\n4 1\n255\n\x61\x62\x63\x00"),
    (REDUCED, b"ok 1\n", &["pixel=0", "layer=1", "x=0", "y=0", "w=4", "h=1"], b"P5\n4 1\n255\n\x00\x00\x00\x00"),
    (BGR, b"ok 1\n", &["pixel=3", "layer=1", "x=0", "y=0", "w=1", "h=1"], b"P6\n1 1\n255\n\x03\x02\x01"),
    (WIDE, b"ok 1\n", &["pixel=1", "layer=1", "x=0", "y=0", "w=1", "h=1"], b"P5\n1 1\n65535\n\x12\x34"),
    (FOREIGN, b"ok 1\n", &["pixel=0", "layer=1", "x=0", "y=0", "w=1", "h=1"], b"no kind 0\n"),
    (GRAY, b"ok 1\n", &["pixel=1", "layer=1", "x=0", "y=0", "w=1", "h=1"], b"no mixed 0\n"),
    (SHORT, b"ok 1\n", &["pixel=0", "layer=1", "x=0", "y=0", "w=4", "h=2"], b"no short 0\n"),
    (SHORT, b"ok 1\n", &["pixel=0", "layer=1", "x=0", "y=0", "w=16385", "h=16385"], b"no long 268468225 268435456\n"),
    (CHANNELS, b"ok 1\nok 2\n", &["pixel=0", "layer=1", "x=0", "y=0", "w=3", "h=1", "scene=1", "plane=C1"], b"P5\n3 1\n255\nCD\0"),
    (CHANNELS, b"ok 1\nok 2\n", &["pixel=0", "layer=1", "x=0", "y=0", "w=3", "h=1", "scene=2"], b"P5\n3 1\n255\n\0\0\0"),
];

// The line of a script that asks for a region by these fields.
fn push_line(line: &mut Vec<u8>, fields: &[&str]) -> Result<(), AllocError> {
    line.extend_from_slice(b"region")?;
    for field in fields {
        line.push(b' ')?;
        line.extend_from_slice(field.as_bytes())?;
    }
    line.push(b'\n')?;
    Ok(())
}

// The words that ask for it.
fn words_of<'a>(alloc: Global, fields: &[&'a str]) -> Result<Vec<&'a str>, AllocError> {
    let mut words = vec![in alloc; "F", "region"]?;
    for field in fields {
        words.push(*field)?;
    }
    Ok(words)
}

// The script that makes an image, with the region as its last line.
fn script_of(alloc: Global, adds: &[u8], fields: &[&str]) -> Result<Vec<u8>, AllocError> {
    let mut script = Vec::from_slice(alloc, adds)?;
    push_line(&mut script, fields)?;
    Ok(script)
}

// The region of this image is told so, and both files stay as they are. The input isn't read.
fn check_words(
    rt: &impl Abort,
    alloc: Global,
    image: &[u8],
    fields: &[&str],
    (status, said): (u8, &[u8]),
) -> Result<(), Fail> {
    let mut rig = MemRig::new(alloc, image, b"")?;
    let words = words_of(alloc, fields)?;
    let answer = outcome_over(alloc, &words, b"list\n", 0, &mut rig)?;
    assert!(rt; answer == status && rig.said() == said);
    check_files(rt, &rig, image, b"");
    Ok(())
}

fn check_row(
    rt: &impl Abort,
    alloc: Global,
    (adds, added, fields, reply): &Row,
) -> Result<(), Fail> {
    let mut said = Vec::from_slice(alloc, added)?;
    said.extend_from_slice(reply)?;
    let script = script_of(alloc, adds, fields)?;
    let rig = ran(rt, alloc, PLAIN, &script, (0, &said))?;
    check_words(rt, alloc, rig.content(File::Image), fields, (0, reply))
}

#[test]
fn a_region_is_told_alike_by_a_line_and_by_words(rt: HostRuntime) -> Result<(), Fail> {
    for row in ROWS.iter() {
        check_row(&rt, rt.alloc(), row)?;
    }
    Ok(())
}

// A tile that can't be painted is kept, and can be removed; and a region is painted of what the edits before it have left.
#[rattlefmt::skip]
static SCRIPTS: [(&[u8], &[u8]); 2] = [
    (
        b"add pixel=0 comp=4 dims=X0:4,Y0:2 meta=0 data=3 att=0\nxyz\nregion pixel=0 layer=1 x=0 y=0 w=4 h=2\nremove dims=X0:4,Y0:2\n",
        b"ok 1\nno compressed 0\nok 2\n",
    ),
    (
        b"region pixel=0 layer=1 x=0 y=0 w=2 h=1\nadd pixel=0 dims=X0:2,Y0:1,M5 meta=0 data=2 att=0\nAB\nregion pixel=0 layer=1 x=0 y=0 w=2 h=1\n\
        replace pixel=0 dims=M5,X0:2,Y0:1 meta=0 data=2 att=0\nCD\nregion pixel=0 layer=1 x=0 y=0 w=2 h=1\n",
        b"P5\n2 1\n255\n\0\0ok 1\nP5\n2 1\n255\nABok 2\nP5\n2 1\n255\nCD",
    ),
];

#[test]
fn a_script_goes_on_behind_a_region(rt: HostRuntime) -> Result<(), Fail> {
    for (script, said) in SCRIPTS.iter() {
        ran(&rt, rt.alloc(), PLAIN, script, (0, said))?;
    }
    Ok(())
}

// Words that say no region: each field missing, in another order, twice, an unknown one, more or less than one field in a word,
// and values that are none.
#[rattlefmt::skip]
static OTHER_FIELDS: [&[&str]; 37] = [
    &[],
    &["layer=1", "x=0", "y=0", "w=4", "h=2"],
    &["pixel=0", "x=0", "y=0", "w=4", "h=2"],
    &["pixel=0", "layer=1", "y=0", "w=4", "h=2"],
    &["pixel=0", "layer=1", "x=0", "w=4", "h=2"],
    &["pixel=0", "layer=1", "x=0", "y=0", "h=2"],
    &["pixel=0", "layer=1", "x=0", "y=0", "w=4"],
    &["layer=1", "pixel=0", "x=0", "y=0", "w=4", "h=2"],
    &["pixel=0", "layer=1", "y=0", "x=0", "w=4", "h=2"],
    &["pixel=0", "layer=1", "x=0", "y=0", "h=2", "w=4"],
    &["pixel=0", "layer=1", "x=0", "y=0", "w=4", "h=2", "plane=C0", "scene=1"],
    &["scene=1", "pixel=0", "layer=1", "x=0", "y=0", "w=4", "h=2"],
    &["pixel=0", "pixel=0", "layer=1", "x=0", "y=0", "w=4", "h=2"],
    &["pixel=0", "layer=1", "x=0", "y=0", "w=4", "h=2", "h=2"],
    &["pixel=0", "layer=1", "x=0", "y=0", "w=4", "h=2", "scene=1", "scene=1"],
    &["pixel=0", "layer=1", "x=0", "y=0", "w=4", "h=2", "plane=C0", "plane=C0"],
    &["pixel=0", "layer=1", "x=0", "y=0", "w=4", "h=2", "d=1"],
    &["pixel=0", "layer=1", "x=0", "y=0", "z=0", "w=4", "h=2"],
    &["pixel=0", "layer=1", "x=0", "y=0", "w=4", "h=2", ""],
    &["", "pixel=0", "layer=1", "x=0", "y=0", "w=4", "h=2"],
    &["pixel=0 layer=1", "x=0", "y=0", "w=4", "h=2"],
    &["pixel=0 layer=1 x=0 y=0 w=4 h=2"],
    &[" pixel=0", "layer=1", "x=0", "y=0", "w=4", "h=2"],
    &["pixel=0", "layer=1", "x=0", "y=0", "w=4", "h=2 "],
    &["pixel=0", "layer=1", "x=0", "y=0", "w=4", "h=2", "scene=", "1"],
    &["pixel=9", "layer=1", "x=0", "y=0", "w=4", "h=2"],
    &["pixel=2", "layer=1", "x=0", "y=0", "w=4", "h=2"],
    &["pixel=0", "layer=0", "x=0", "y=0", "w=4", "h=2"],
    &["pixel=0", "layer=65537", "x=0", "y=0", "w=4", "h=2"],
    &["pixel=0", "layer=1", "x=2147483648", "y=0", "w=4", "h=2"],
    &["pixel=0", "layer=1", "x=0", "y=-0", "w=4", "h=2"],
    &["pixel=0", "layer=1", "x=0", "y=0", "w=0", "h=2"],
    &["pixel=0", "layer=1", "x=0", "y=0", "w=4", "h=4294967296"],
    &["pixel=0", "layer=1", "x=0", "y=0", "w=4", "h=02"],
    &["pixel=0", "layer=1", "x=0", "y=0", "w=4", "h=2", "scene=x"],
    &["pixel=0", "layer=1", "x=0", "y=0", "w=4", "h=2", "plane="],
    &["pixel=0", "layer=1", "x=0", "y=0", "w=4", "h=2", "plane=X0"],
];

#[test]
fn other_fields_get_the_usage_line(rt: HostRuntime) -> Result<(), Fail> {
    for fields in OTHER_FIELDS.iter() {
        let words = words_of(rt.alloc(), fields)?;
        check_usage(&rt, rt.alloc(), &words)?;
    }
    check_usage(
        &rt,
        rt.alloc(),
        &[
            "F", "Region", "pixel=0", "layer=1", "x=0", "y=0", "w=4", "h=2",
        ],
    )
}

const FOUR_BY_TWO: &[&str] = &["pixel=0", "layer=1", "x=0", "y=0", "w=4", "h=2"];

#[test]
fn words_of_a_region_on_a_refused_image(rt: HostRuntime) -> Result<(), Fail> {
    let alloc = rt.alloc();
    let pending = one_tile(alloc, 1280, &[(UPDATE_PENDING, &[1])])?;
    check_words(
        &rt,
        alloc,
        &pending,
        FOUR_BY_TWO,
        (2, b"refused pending 1\n"),
    )?;
    check_words(&rt, alloc, b"", FOUR_BY_TWO, (2, b"refused notczi\n"))
}

// Calls of a region's run that fail, the status, and what is said: the read of the rows, and the output.
static FAILED: [(Call, u8, &[u8]); 2] = [
    (Call::Read(File::Image, 992, 4), 4, b"P5\n4 2\n255\n"),
    (Call::Say, 6, b"P5\n4 2"),
];

#[test]
fn a_failed_call_ends_a_region(rt: HostRuntime) -> Result<(), Fail> {
    let alloc = rt.alloc();
    let image = one_tile(alloc, 1280, &[])?;
    let words = words_of(alloc, FOUR_BY_TWO)?;
    let mut whole = failing_rig(alloc, &image, NEVER)?;
    let answer = outcome(alloc, &words, b"", &mut whole)?;
    assert!(rt; answer == 0 && whole.said() == b"P5\n4 2\n255\nABCDEFGH".as_slice());
    for (call, status, said) in FAILED.iter() {
        let mut rig = failing_rig(alloc, &image, number_of(&whole, *call)?)?;
        let answer = outcome(alloc, &words, b"", &mut rig)?;
        assert!(rt; answer == *status && rig.said() == *said);
    }
    Ok(())
}

// How many tiles the large image has, one in each of the smallest cells by which tiles are found.
const MANY: u32 = 131_072;

// The image, the script that asks for the first pixel of each tile, and what is said.
fn many_regions(alloc: Global) -> Result<(Vec<u8>, Vec<u8>, Vec<u8>), AllocError> {
    let mut sample = Sample::new(alloc)?;
    let mut script = Vec::new(alloc);
    let mut said = Vec::new(alloc);
    for number in 0..MANY {
        let x = 4096 * number;
        let dims = format!(in alloc; "C0,X{x}:4,Y0:2")?;
        sample.push(alloc, &Segment::Tile(dims.as_bytes(), PIXELS))?;
        let line = format!(in alloc; "region pixel=0 layer=1 x={x} y=0 w=1 h=1\n")?;
        script.extend_from_slice(line.as_bytes())?;
        said.extend_from_slice(b"P5\n1 1\n255\nA")?;
    }
    sample.push(alloc, &Segment::Directory(92 * MANY as usize))?;
    Ok((sample.build()?, script, said))
}

#[test]
fn each_of_many_tiles_is_found(rt: HostRuntime) -> Result<(), Fail> {
    let alloc = rt.alloc();
    let (image, script, said) = many_regions(alloc)?;
    let mut rig = MemRig::new(alloc, &image, b"")?;
    let status = outcome(alloc, &["F", "edit"], &script, &mut rig)?;
    assert!(rt; status == 0 && rig.said() == said.as_slice());
    Ok(())
}
