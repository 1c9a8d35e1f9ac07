//! What one tile shows of a region.

ghost use Rattle.std.specs.Prelude.{◌≡◌, ℕ, ◌+◌, ◌*◌, ◌^◌, ◌≤◌, length, OnOk, List};
ghost use Rattle.std.specs.Option.{ForSome};
ghost use Rattle.czi_rig.specs.State.{seen_of};
ghost use Rattle.czi_rig.specs.Faults.{Faults, failed_at, image};
ghost use Rattle.czi_rig.specs.Quiet.{Untouched};
ghost use Rattle.czi_paint.specs.Patches.{EndsBelow, laid_over, patch_span};

use czi_rig::{Failed, File, Rig};
use czi_tiles::Window;

/// The pixels of a region that one tile covers.
#[derive(Clone, Copy, PartialEq, Eq)]
pub(crate) struct Patch {
    /// The columns of the region, and the stored columns.
    pub(crate) columns: Window,
    /// The rows of the region, and the stored rows.
    pub(crate) rows: Window,
    /// The place of the tile's first pixel in the image.
    pub(crate) place: u64,
    /// How many pixels a stored row has.
    pub(crate) width: u64,
}

impl Patch {
    /// Reads what it shows of a row over what stands there. Pixels have `size` bytes.
    pub(crate) fn read_row<R: Rig>(
        &self,
        size: u64,
        j: u64,
        rig: &mut R,
        out: &mut [u8],
    ) -> Result<(), Failed>
        requires some { 1 ≤ size }
        requires fits { (self.now.columns.first + self.now.columns.count) * size ≤ length out.old }
        requires small { EndsBelow (2 ^ 62) size self.now }
        requires in_file { ForSome (seen_of (R.state rig.old) File.Image) (λ image. EndsBelow (length image) size self.now) }
        ensures bytes { OnOk result (ForSome (seen_of (R.state rig.old) File.Image) (λ image.
            out.new ≡ laid_over (patch_span size image self.now j) (self.now.columns.first * size) out.old)) }
        ensures untouched { Untouched R.Rig rig.old rig.new }
        ensures cause { Faults (failed_at result image) (R.state rig.old) (R.state rig.new) }
    {
        let Some(v) = self.rows.shown(j) else {
            return Ok(());
        };
        let at = self.place + (v * self.width + self.columns.from) * size;
        let start = (self.columns.first * size) as usize;
        let len = (self.columns.count * size) as usize;
        rig.read_at(File::Image, at, &mut out[start..start + len])?;
        Ok(())
    }
}
