//! Regions that are asked for, and the images of which they are.

ghost use Rattle.std.specs.Prelude.{◌≡◌, length, IfOk};
ghost use Rattle.std.specs.Option.{ForSome};
ghost use Rattle.czi_rig.specs.declared.file.File.TheVariants.{Image};
ghost use Rattle.czi_rig.specs.State.{seen_of};
ghost use Rattle.czi_rig.specs.MemRig.{state_in};

use czi_doc::{Pixel, Plane, Query, read_plane};
use czi_image::{Index, read_index};
use czi_rig::MemRig;
use czi_sample::{Segment, image_of};
use std::alloc::Global;
use std::test::Fail;

/// A region: the pixel type, the layer, the first column and row, the width and the height, the scene, and plane text, which is
/// empty where no plane is asked for.
pub(crate) type Asked = (
    Pixel,
    u32,
    (i32, i32),
    (u32, u32),
    Option<i32>,
    &'static [u8],
);

/// A tile of gray pixels of 8 bits that starts at 5 in M, and one behind it that starts at 3 and lies over its last column.
pub(crate) const MOSAIC: [Segment; 3] = [
    Segment::Directory(184),
    Segment::Tile(b"X0:2,Y0:1,M5", b"AB"),
    Segment::Tile(b"X1:2,Y0:1,M3", b"CD"),
];

/// Tiles that begin and end in different rows, in another order than they are painted in.
pub(crate) const STAIRS: [Segment; 5] = [
    Segment::Directory(348),
    Segment::Tile(b"X0:2,Y0:4,M2", b"abcdefgh"),
    Segment::Tile(b"X1:4,Y2:1,M1", b"PQRS"),
    Segment::Tile(b"X0:1,Y3:3", b"xyz"),
    Segment::Tile(b"X2:2,Y1:3,M3", b"ABCDEF"),
];

fn plane(alloc: Global, text: &[u8]) -> Result<Plane, Fail> {
    if text.is_empty() {
        return Ok(Plane::new(Vec::new(alloc)).ok_or("no plane")?);
    }
    Ok(read_plane(alloc, text)?.ok_or("no plane")?)
}

/// The query of a region.
pub(crate) fn query(
    alloc: Global,
    (pixel, layer, (x, y), (w, h), scene, text): &Asked,
) -> Result<Query, Fail> {
    let plane = plane(alloc, text)?;
    if *layer == 0 || *layer > 65_536 {
        return Err(Fail::new("no layer"));
    }
    if *w == 0 || *h == 0 {
        return Err(Fail::new("no pixel"));
    }
    Ok(Query {
        pixel: *pixel,
        layer: *layer,
        x: *x,
        y: *y,
        w: *w,
        h: *h,
        scene: *scene,
        plane,
    })
}

/// A rig with an image of these segments, and what the image holds.
pub(crate) fn opened(alloc: Global, segments: &[Segment]) -> Result<(MemRig, Index), Fail>
    ensures { IfOk result (λ o. ForSome (seen_of (state_in o.0) Image) (λ image. o.1.length ≡ length image)) }
{
    let image = image_of(alloc, segments)?;
    let mut rig = MemRig::new(alloc, &image, b"")?;
    match read_index(alloc, &mut rig) {
        Ok(index) => Ok((rig, index)),
        Err(_) => Err(Fail::new("refused")),
    }
}
