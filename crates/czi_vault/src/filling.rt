ghost use Rattle.std.specs.Prelude.{◌≡◌, ◌+◌, ◌^◌, ◌≤◌, ℕ, List, length, OnOk, option_map};
ghost use Rattle.std.specs.Option.{ForSome};
ghost use Rattle.czi_rig.specs.Disk.{Left, overwritten, at_rest};
ghost use Rattle.czi_rig.specs.State.{known, seen_of, LeavesOther};
ghost use Rattle.czi_rig.specs.Passes.{GoesOn};
ghost use Rattle.czi_rig.specs.Faults.{Faults, device_of, failed_at};
ghost use Rattle.czi_rig.specs.Moments.{devices, Throughout};
ghost use Rattle.czi_journal.specs.Journals.{Counts};
ghost use Rattle.czi_vault.specs.Alone.{Alone, AloneNow};
ghost use Rattle.czi_vault.specs.Recovered.{View, Stands, StandsNow, IsFree};

use czi_rig::{Failed, File, Rig};

/// Writes bytes to places that nothing needs yet: in a hole, or at or past the end of what the files stand for.
/// Nothing is synced.
pub fn prefill<R: Rig>(rig: &mut R, at: u64, bytes: &[u8]) -> Result<(), Failed>
    requires fits { at + length bytes.now ≤ 2 ^ 62 }
    requires in_file { ForSome (seen_of (R.state rig.old) File.Image) (λ seen. at ≤ length seen) }

    // While the journal counts in all that a crash may leave, and the bytes go into holes or past the end, the files stand for the same.
    ensures moments { ForSome (devices (R.state rig.old)) (λ all. (view : View) → StandsNow view all
        → ((journal : List ℕ) → Left all.journal.durable journal → Counts journal) → IsFree view at (length bytes.now)
        → Throughout R.Rig rig.old rig.new (λ image journal said. Stands view image journal × (said ≡ all.said))) }
    // Each image read alone is pending or has the bytes.
    ensures alone { ForSome (devices (R.state rig.old)) (λ all. (view : View) → StandsNow view all
        → ((journal : List ℕ) → Left all.journal.durable journal → Counts journal) → AloneNow view all → IsFree view at (length bytes.now)
        → Throughout R.Rig rig.old rig.new (λ image journal said. Alone view image)) }
    ensures written { OnOk result (seen_of (R.state rig.new) File.Image ≡ option_map (overwritten at bytes.now) (seen_of (R.state rig.old) File.Image)) }
    ensures other { LeavesOther File.Image (R.state rig.old) (R.state rig.new) }
    ensures goes_on { GoesOn (R.state rig.old) (R.state rig.new) }
    ensures cause { Faults (failed_at result (device_of File.Image)) (R.state rig.old) (R.state rig.new) }
{
    rig.write_at(File::Image, at, bytes)?;
    Ok(())
}

/// Syncs the image.
pub fn settle<R: Rig>(rig: &mut R) -> Result<(), Failed>
    ensures moments { ForSome (devices (R.state rig.old)) (λ all. (view : View) → StandsNow view all
        → Throughout R.Rig rig.old rig.new (λ image journal said. Stands view image journal × (said ≡ all.said))) }
    ensures alone { ForSome (devices (R.state rig.old)) (λ all. (view : View) → AloneNow view all
        → Throughout R.Rig rig.old rig.new (λ image journal said. Alone view image)) }
    ensures ok { OnOk result (known (R.state rig.new) File.Image ≡ option_map at_rest (seen_of (R.state rig.old) File.Image)) }
    ensures other { LeavesOther File.Image (R.state rig.old) (R.state rig.new) }
    ensures goes_on { GoesOn (R.state rig.old) (R.state rig.new) }
    ensures cause { Faults (failed_at result (device_of File.Image)) (R.state rig.old) (R.state rig.new) }
{
    rig.sync(File::Image)?;
    Ok(())
}
