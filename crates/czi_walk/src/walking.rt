//! The walk of an image.

ghost use Rattle.std.specs.Prelude.{◌^◌, ◌≤◌, map, take, IfOk};
ghost use Rattle.std.specs.Option.{ForSome};
ghost use Rattle.czi_format.specs.Walk.{IsWalk};
ghost use Rattle.czi_rig.specs.State.{seen_of};
ghost use Rattle.czi_rig.specs.Quiet.{Untouched};
ghost use Rattle.czi_rig.specs.Faults.{Faults, fault_at};
ghost use Rattle.czi_walk.specs.Devices.{walk_device};
ghost use Rattle.czi_walk.specs.View.{segment_of, IsRow, EndBy, HasBytes, Knows};

use crate::fault::WalkFault;
use crate::segment::next_from;
use czi_num::Span;
use czi_rig::{File, Rig};
use czi_seg::SegHeader;
use std::alloc::Global;

/// The walk of the image's first `length` bytes: the extents and headers of the segments that stand one behind another from
/// place 0 on, each at the end of the one before it or at the next multiple of 32. It ends where neither place has one whose
/// id is a name and whose extent lies in these bytes.
///
/// It costs one read of 32 bytes a segment, two where it goes on at a multiple of 32.
///
/// # Errors
///
/// `Memory`, or `Device` where a read of the image failed.
pub fn walk<R: Rig>(
    alloc: Global,
    rig: &mut R,
    length: u64,
) -> Result<Vec<(Span, SegHeader)>, WalkFault>
    requires small { length ≤ 2 ^ 62 }
    requires in_image { ForSome (seen_of (R.state rig.old) File.Image) (HasBytes length) }
    ensures walk { IfOk result (λ v. ForSome (seen_of (R.state rig.old) File.Image) (λ image. IsWalk (take length image) (map segment_of v.items))) }
    ensures row { IfOk result (λ v. IsRow v.items) }
    ensures inside { IfOk result (λ v. EndBy length v.items) }
    ensures untouched { Untouched R.Rig rig.old rig.new }
    ensures cause { Faults (fault_at walk_device result) (R.state rig.old) (R.state rig.new) }
{
    walk_known(alloc, rig, length, &[])
}

/// The same walk, where some segments are known, in order of place: where one of them stands nothing is read.
///
/// # Errors
///
/// `Memory`, or `Device` where a read of the image failed.
pub fn walk_known<R: Rig>(
    alloc: Global,
    rig: &mut R,
    length: u64,
    known: &[(Span, SegHeader)],
) -> Result<Vec<(Span, SegHeader)>, WalkFault>
    requires small { length ≤ 2 ^ 62 }
    requires row { IsRow known.now }
    requires inside { EndBy length known.now }
    requires in_image { ForSome (seen_of (R.state rig.old) File.Image) (λ image. Knows length image known.now) }
    ensures walk { IfOk result (λ v. ForSome (seen_of (R.state rig.old) File.Image) (λ image. IsWalk (take length image) (map segment_of v.items))) }
    ensures row { IfOk result (λ v. IsRow v.items) }
    ensures inside { IfOk result (λ v. EndBy length v.items) }
    ensures untouched { Untouched R.Rig rig.old rig.new }
    ensures cause { Faults (fault_at walk_device result) (R.state rig.old) (R.state rig.new) }
{
    let mut found = Vec::new(alloc);
    let mut place = 0;
    'walk: while let Some(item) = next_from(rig, known, place, length)? {
        place = item.0.at + item.0.len;
        found.push(item)?;
    }
    Ok(found)
}
