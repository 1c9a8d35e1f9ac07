//! Rows of a region.

ghost use Rattle.std.specs.Prelude.{◌≡◌, ◌*◌, ◌^◌, ◌≤◌, length, OnOk};
ghost use Rattle.std.specs.List.{All};
ghost use Rattle.std.specs.Option.{ForSome};
ghost use Rattle.czi_rig.specs.State.{seen_of};
ghost use Rattle.czi_rig.specs.Faults.{Faults, failed_at, image};
ghost use Rattle.czi_rig.specs.Quiet.{Untouched};
ghost use Rattle.czi_paint.specs.Meeting.{AreActive};
ghost use Rattle.czi_paint.specs.Patches.{EndsBelow, FitsRow, patched_row};

use crate::patch::Patch;
use czi_rig::{Failed, File, Rig};

/// Paints row `j` of a region of `w` pixels of `size` bytes: the patches one over another, of which those that have the row
/// are active.
pub(crate) fn paint_row<R: Rig>(
    patches: &[Patch],
    active: &[usize],
    size: u64,
    w: u64,
    j: u64,
    rig: &mut R,
    out: &mut [u8],
) -> Result<(), Failed>
    requires some { 1 ≤ size }
    requires active { AreActive patches.now j active.now }
    requires width { length out.old ≡ w * size }
    requires fit { All (FitsRow w) patches.now }
    requires small { All (EndsBelow (2 ^ 62) size) patches.now }
    requires in_file { ForSome (seen_of (R.state rig.old) File.Image) (λ image. All (EndsBelow (length image) size) patches.now) }
    ensures row { OnOk result (ForSome (seen_of (R.state rig.old) File.Image) (λ image. out.new ≡ patched_row size w image patches.now j)) }
    ensures untouched { Untouched R.Rig rig.old rig.new }
    ensures cause { Faults (failed_at result image) (R.state rig.old) (R.state rig.new) }
{
    out.fill(0);
    let mut next = 0;
    for place in active {
        let at = *place;
        if next <= at {
            patches[at].read_row(size, j, rig, out)?;
            next = at + 1;
        }
    }
    Ok(())
}
