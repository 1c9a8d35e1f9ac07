//! The segment at a place of the image.

ghost use Rattle.std.specs.Prelude.{◌≡◌, ℕ, List, ◌+◌, ◌^◌, ◌≤◌, length, take, option_map, IfOk, IfSome, Some};
ghost use Rattle.std.specs.Option.{ForSome};
ghost use Rattle.czi_format.specs.Bytes.{bytes_at};
ghost use Rattle.czi_format.specs.Segment.{segment_at};
ghost use Rattle.czi_format.specs.Walk.{stands_at, next_from};
ghost use Rattle.czi_rig.specs.State.{seen_of};
ghost use Rattle.czi_rig.specs.Faults.{Faults, device_of, failed_at};
ghost use Rattle.czi_rig.specs.Quiet.{Untouched};
ghost use Rattle.czi_walk.specs.View.{segment_of, IsRow, EndBy, IsAt, IsNext, Knows, named};

use crate::name::is_name;
use czi_num::{Span, round32};
use czi_rig::{Failed, File, Rig};
use czi_seg::{SegHeader, read_header};
use czi_spans::find_place;

/// The segment whose header is these 32 bytes, at a place of an image of this size.
#[tactic(auto, using(crate::proofs::Segments::no_header, crate::proofs::Segments::too_long, crate::proofs::Segments::fits))]
fn segment_in(front: &[u8; 32], at: u64, size: u64) -> Option<(Span, SegHeader)>
    requires inside { at + 32 ≤ size }
    requires small { size ≤ 2 ^ 62 }
    ensures found { (image : List ℕ) → length image ≡ size → bytes_at image at 32 ≡ front.now → option_map segment_of result ≡ segment_at image at }
    ensures place { IfSome result (IsAt at size) }
{
    let header = read_header(front)?;
    if header.allocated > size - 32 - at {
        return None;
    }
    let len = 32 + header.allocated;
    Some((Span { at, len }, header))
}

/// Reads the segment at a place of the image's first `size` bytes.
fn read_segment<R: Rig>(
    rig: &mut R,
    at: u64,
    size: u64,
) -> Result<Option<(Span, SegHeader)>, Failed>
    requires small { size ≤ 2 ^ 62 }
    requires in_image { ForSome (seen_of (R.state rig.old) File.Image) (λ image. size ≤ length image) }
    ensures found { IfOk result (λ found. ForSome (seen_of (R.state rig.old) File.Image) (λ image. option_map segment_of found ≡ segment_at (take size image) at)) }
    ensures place { IfOk result (λ found. IfSome found (IsAt at size)) }
    ensures untouched { Untouched R.Rig rig.old rig.new }
    ensures cause { Faults (failed_at result (device_of File.Image)) (R.state rig.old) (R.state rig.new) }
{
    if size < 32 || size - 32 < at {
        return Ok(None);
    }
    let mut front = [0u8; 32];
    rig.read_at(File::Image, at, &mut front)?;
    Ok(segment_in(&front, at, size))
}

/// The segment, if its id is a name.
fn named(found: Option<(Span, SegHeader)>) -> Option<(Span, SegHeader)>
    ensures value { option_map segment_of result ≡ named (option_map segment_of found) }
    ensures same { IfSome result (λ item. found ≡ Some item) }
{
    let item = found?;
    if is_name(&item.1.id.to_bytes()) {
        Some(item)
    } else {
        None
    }
}

/// The segment of the walk at a place: one whose header is known, or else one that is read.
#[tactic(auto, unfolding(czi_format::specs::Walk::stands_at))]
fn stands_at<R: Rig>(
    rig: &mut R,
    known: &[(Span, SegHeader)],
    at: u64,
    size: u64,
) -> Result<Option<(Span, SegHeader)>, Failed>
    requires small { size ≤ 2 ^ 62 }
    requires row { IsRow known.now }
    requires inside { EndBy size known.now }
    requires in_image { ForSome (seen_of (R.state rig.old) File.Image) (λ image. Knows size image known.now) }
    ensures found { IfOk result (λ found. ForSome (seen_of (R.state rig.old) File.Image) (λ image. option_map segment_of found ≡ stands_at (take size image) at)) }
    ensures place { IfOk result (λ found. IfSome found (IsAt at size)) }
    ensures untouched { Untouched R.Rig rig.old rig.new }
    ensures cause { Faults (failed_at result (device_of File.Image)) (R.state rig.old) (R.state rig.new) }
{
    match find_place(known, at) {
        Some(i) => Ok(named(Some(known[i]))),
        None => Ok(named(read_segment(rig, at, size)?)),
    }
}

/// The segment with which the walk goes on from a place: there, or else at the next multiple of 32.
pub(crate) fn next_from<R: Rig>(
    rig: &mut R,
    known: &[(Span, SegHeader)],
    place: u64,
    size: u64,
) -> Result<Option<(Span, SegHeader)>, Failed>
    requires small { size ≤ 2 ^ 62 }
    requires place { place ≤ size }
    requires row { IsRow known.now }
    requires inside { EndBy size known.now }
    requires in_image { ForSome (seen_of (R.state rig.old) File.Image) (λ image. Knows size image known.now) }
    ensures found { IfOk result (λ found. ForSome (seen_of (R.state rig.old) File.Image) (λ image. option_map segment_of found ≡ next_from (take size image) place)) }
    ensures place { IfOk result (λ found. IfSome found (IsNext place size)) }
    ensures untouched { Untouched R.Rig rig.old rig.new }
    ensures cause { Faults (failed_at result (device_of File.Image)) (R.state rig.old) (R.state rig.new) }
{
    match stands_at(rig, known, place, size)? {
        Some(item) => Ok(Some(item)),
        None if place % 32 == 0 => Ok(None),
        None => stands_at(rig, known, round32(place), size),
    }
}
