ghost use Rattle.std.specs.Prelude.{◌≡◌, ◌+◌, ◌^◌, ◌≤◌, ℕ, List, length, take, OnOk, option_map};
ghost use Rattle.std.specs.Option.{ForSome};
ghost use Rattle.czi_rig.specs.Disk.{Left, Covers, at_rest, begun_cut, IsAtRest};
ghost use Rattle.czi_rig.specs.State.{known, seen_of, LeavesOther};
ghost use Rattle.czi_rig.specs.Passes.{GoesOn};
ghost use Rattle.czi_rig.specs.Faults.{Faults, device_of, failed_at};
ghost use Rattle.czi_rig.specs.Moments.{devices, Throughout, LeavesWith};
ghost use Rattle.czi_links.specs.Record.{EndWithin, record_of};
ghost use Rattle.czi_links.specs.Reading.{Holds};
ghost use Rattle.czi_journal.specs.Journals.{slot_of};
ghost use Rattle.czi_vault.specs.Recovered.{applied, View, Stands, StandsNow};
ghost use Rattle.czi_vault.specs.Puts.{ranges, begun_each, wrote_each};
ghost use Rattle.czi_vault.specs.Alone.{Waits};

use czi_format::UPDATE_PENDING;
use czi_links::{LEAST_LENGTH, Links, SlotHead};
use czi_rig::{Failed, File, Rig, cut_synced, write_synced};

/// Byte 100 of an image that waits for its journal.
const PENDING: u8 = 1;

/// Byte 100 of an image that can be read without its journal.
const READY: u8 = 0;

/// Writes the links over the image, one write each, and syncs.
fn put_links<R: Rig>(rig: &mut R, links: &Links, count: usize) -> Result<(), Failed>
    requires all { count ≡ length links.now.links }
    requires fits { EndWithin (2 ^ 62) links.now.links }
    requires in_file { ForSome (seen_of (R.state rig.old) File.Image) (λ seen. EndWithin (length seen) links.now.links) }

    ensures moments { ForSome (devices (R.state rig.old)) (λ all.
        Throughout R.Rig rig.old rig.new (LeavesWith all File.Image (begun_each links.now.links all.image.durable))) }
    ensures ok { OnOk result (known (R.state rig.new) File.Image ≡ option_map (λ disk. at_rest (wrote_each links.now.links disk).seen) (known (R.state rig.old) File.Image)) }
    ensures other { LeavesOther File.Image (R.state rig.old) (R.state rig.new) }
    ensures goes_on { GoesOn (R.state rig.old) (R.state rig.new) }
    ensures cause { Faults (failed_at result (device_of File.Image)) (R.state rig.old) (R.state rig.new) }
{
    for i in 0..count {
        let (place, bytes) = links.link(i);
        rig.write_at(File::Image, place, bytes)?;
    }
    rig.sync(File::Image)?;
    Ok(())
}

/// Cuts the image to a length where it is longer, and syncs.
fn cut_to<R: Rig>(rig: &mut R, len: u64) -> Result<(), Failed>
    requires fits { len ≤ 2 ^ 62 }
    requires in_file { ForSome (seen_of (R.state rig.old) File.Image) (λ seen. len ≤ length seen) }
    requires synced { ForSome (known (R.state rig.old) File.Image) IsAtRest }

    ensures moments { ForSome (devices (R.state rig.old)) (λ all.
        Throughout R.Rig rig.old rig.new (LeavesWith all File.Image (begun_cut len all.image.durable))) }
    ensures ok { OnOk result (known (R.state rig.new) File.Image ≡ option_map (λ disk. at_rest (take len disk.seen)) (known (R.state rig.old) File.Image)) }
    ensures other { LeavesOther File.Image (R.state rig.old) (R.state rig.new) }
    ensures goes_on { GoesOn (R.state rig.old) (R.state rig.new) }
    ensures cause { Faults (failed_at result (device_of File.Image)) (R.state rig.old) (R.state rig.new) }
{
    if rig.len(File::Image)? > len {
        cut_synced(rig, File::Image, len)?;
    }
    Ok(())
}

/// Makes the image what it and the selected slot stand for: the first `head.length` bytes, with the links written
/// over them and byte 100, the low byte of the file header's UpdatePending, set to 0. It may be done again and
/// again.
///
/// Four steps, each synced before the next: byte 100 is written as 1; each link is written, one write each, also
/// where two stand side by side; the image is cut where it is longer; byte 100 is written as 0.
pub fn recover<R: Rig>(rig: &mut R, links: &Links, head: &SlotHead) -> Result<(), Failed>
    requires least { LEAST_LENGTH ≤ head.now.length }
    requires greatest { head.now.length ≤ 2 ^ 62 }
    requires ends { EndWithin head.now.length links.now.links }
    requires in_file { ForSome (seen_of (R.state rig.old) File.Image) (λ seen. head.now.length ≤ length seen) }

    // Where the selected slot has these links and this head in all that a crash may leave, the files stand for the same at every moment.
    ensures moments { ForSome (devices (R.state rig.old)) (λ all. (view : View) → StandsNow view all
        → ((journal : List ℕ) → Left all.journal.durable journal → slot_of journal ≡ Holds (record_of head.now links.now.links))
        → Throughout R.Rig rig.old rig.new (λ image journal said. Stands view image journal × (said ≡ all.said))) }
    // Where the image was synced and no link covers place 100, each image is pending, or as it was but for byte 100, or done.
    ensures alone { ForSome (devices (R.state rig.old)) (λ all. IsAtRest all.image → (Covers (ranges links.now.links) UPDATE_PENDING → ⊥)
        → Throughout R.Rig rig.old rig.new (λ image journal said. Waits (record_of head.now links.now.links) all.image.seen image)) }
    ensures ok { OnOk result (known (R.state rig.new) File.Image ≡ option_map (λ disk. at_rest (applied (record_of head.now links.now.links) disk.seen)) (known (R.state rig.old) File.Image)) }
    ensures other { LeavesOther File.Image (R.state rig.old) (R.state rig.new) }
    ensures goes_on { GoesOn (R.state rig.old) (R.state rig.new) }
    ensures cause { Faults (failed_at result (device_of File.Image)) (R.state rig.old) (R.state rig.new) }
{
    let count = links.count();
    write_synced(rig, File::Image, UPDATE_PENDING as u64, &[PENDING])?;
    put_links(rig, links, count)?;
    cut_to(rig, head.length)?;
    write_synced(rig, File::Image, UPDATE_PENDING as u64, &[READY])?;
    Ok(())
}
