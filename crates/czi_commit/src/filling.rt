// The new bytes of a plan.
ghost use Rattle.std.specs.Prelude.{◌≡◌, ◌+◌, ◌^◌, ◌≤◌, ℕ, List, length, OnOk, option_map};
ghost use Rattle.std.specs.List.{AllByRecursion};
ghost use Rattle.std.specs.Option.{ForSome};
ghost use Rattle.czi_rig.specs.State.{seen_of, LeavesOther};
ghost use Rattle.czi_rig.specs.Passes.{GoesOn};
ghost use Rattle.czi_rig.specs.Faults.{Faults, device_of, failed_at};
ghost use Rattle.czi_rig.specs.Moments.{devices, Throughout};
ghost use Rattle.czi_region.specs.Pieces.{IsPiece};
ghost use Rattle.czi_vault.specs.Alone.{Keeps, KeepsNow};
ghost use Rattle.czi_vault.specs.Recovered.{with_links, View};
ghost use Rattle.czi_commit.specs.Filled.{AreFree, filled, with_gap, zeros};
ghost use Rattle.czi_plan.specs.Pieces.{AreNear, last_end, bytes_in};
ghost use Rattle.czi_commit.specs.Ready.{JournalCounts};

use czi_region::{Piece, Region};
use czi_rig::{Failed, File, Rig};
use czi_vault::prefill;

/// The longest gap between the end and a write behind it, in bytes.
const MOST_ZEROS: usize = 64;

/// Writes zeros from the image's end up to a place behind it.
fn pad<R: Rig>(rig: &mut R, end: u64, place: u64) -> Result<(), Failed>
    requires near { place ≤ end + 64 }
    requires fits { place ≤ 2 ^ 62 }
    requires whole { ForSome (seen_of (R.state rig.old) File.Image) (λ seen. length seen ≡ end) }

    ensures moments { ForSome (devices (R.state rig.old)) (λ all. (view : View) → KeepsNow view all → JournalCounts all → AreFree view (zeros end place)
        → Throughout R.Rig rig.old rig.new (λ image journal said. Keeps view image journal × (said ≡ all.said))) }
    ensures written { OnOk result (seen_of (R.state rig.new) File.Image ≡ option_map (with_links (zeros end place)) (seen_of (R.state rig.old) File.Image)) }
    ensures other { LeavesOther File.Image (R.state rig.old) (R.state rig.new) }
    ensures goes_on { GoesOn (R.state rig.old) (R.state rig.new) }
    ensures cause { Faults (failed_at result (device_of File.Image)) (R.state rig.old) (R.state rig.new) }
{
    if end >= place {
        return Ok(());
    }
    let zeros = [0; MOST_ZEROS];
    prefill(rig, end, &zeros[..(place - end) as usize])
}

/// Writes bytes, behind zeros that fill the gap before them.
fn put<R: Rig>(rig: &mut R, end: u64, place: u64, bytes: &[u8]) -> Result<(), Failed>
    requires near { place ≤ end + 64 }
    requires fits { place + length bytes.now ≤ 2 ^ 62 }
    requires whole { ForSome (seen_of (R.state rig.old) File.Image) (λ seen. length seen ≡ end) }

    ensures moments { ForSome (devices (R.state rig.old)) (λ all. (view : View) → KeepsNow view all → JournalCounts all → AreFree view (with_gap end (record { place = place; bytes = bytes.now }))
        → Throughout R.Rig rig.old rig.new (λ image journal said. Keeps view image journal × (said ≡ all.said))) }
    ensures written { OnOk result (seen_of (R.state rig.new) File.Image ≡ option_map (with_links (with_gap end (record { place = place; bytes = bytes.now }))) (seen_of (R.state rig.old) File.Image)) }
    ensures other { LeavesOther File.Image (R.state rig.old) (R.state rig.new) }
    ensures goes_on { GoesOn (R.state rig.old) (R.state rig.new) }
    ensures cause { Faults (failed_at result (device_of File.Image)) (R.state rig.old) (R.state rig.new) }
{
    pad(rig, end, place)?;
    prefill(rig, place, bytes)
}

/// Writes pieces of a region into an image of this length, each behind zeros that fill the gap before it. Nothing
/// is synced.
pub(crate) fn fill<R: Rig>(
    rig: &mut R,
    image_len: u64,
    region: &Region,
    writes: &[(u64, Piece)],
) -> Result<(), Failed>
    requires pieces { AllByRecursion (λ w. IsPiece region.now w.1) writes.now }
    requires near { AreNear image_len (bytes_in region.now writes.now) }
    requires small { last_end image_len (bytes_in region.now writes.now) ≤ 2 ^ 62 }
    requires whole { ForSome (seen_of (R.state rig.old) File.Image) (λ seen. length seen ≡ image_len) }

    // While the journal counts in all that a crash may leave, and the bytes go where nothing is needed, the files stand for the same, and so does the image alone.
    ensures moments { ForSome (devices (R.state rig.old)) (λ all. (view : View) → KeepsNow view all → JournalCounts all → AreFree view (filled image_len (bytes_in region.now writes.now))
        → Throughout R.Rig rig.old rig.new (λ image journal said. Keeps view image journal × (said ≡ all.said))) }
    ensures written { OnOk result (seen_of (R.state rig.new) File.Image ≡ option_map (with_links (filled image_len (bytes_in region.now writes.now))) (seen_of (R.state rig.old) File.Image)) }
    ensures other { LeavesOther File.Image (R.state rig.old) (R.state rig.new) }
    ensures goes_on { GoesOn (R.state rig.old) (R.state rig.new) }
    ensures cause { Faults (failed_at result (device_of File.Image)) (R.state rig.old) (R.state rig.new) }
{
    let mut end = image_len;
    for i in 0..writes.len() {
        let (place, piece) = writes[i];
        let bytes = region.get(&piece);
        put(rig, end, place, bytes)?;
        end = end.max(place + bytes.len() as u64);
    }
    Ok(())
}
