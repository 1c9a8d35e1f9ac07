//! Closing an image that was opened.

ghost use Rattle.std.specs.Prelude.{◌≡◌, false, List, ℕ, OnOk};
ghost use Rattle.std.specs.Option.{ForSome};
ghost use Rattle.czi_journal.specs.Journals.{SaysAsBeforeOrVoid, slot_of};
ghost use Rattle.czi_links.specs.Reading.{Void};
ghost use Rattle.czi_rig.specs.Disk.{Everywhere, IsAtRest, Left};
ghost use Rattle.czi_rig.specs.State.{LeavesOther, known};
ghost use Rattle.czi_rig.specs.Passes.{GoesOn};
ghost use Rattle.czi_rig.specs.Faults.{Faults, device_of, failed_at};
ghost use Rattle.czi_rig.specs.Moments.{devices, Throughout};
ghost use Rattle.czi_rig.specs.Quiet.{Untouched};
ghost use Rattle.czi_vault.specs.Recovered.{Recovered};
ghost use Rattle.czi_opening.specs.Answers.{IsJournal};
ghost use Rattle.czi_opening.specs.Course.{StandsForItself};

use czi_journal::{Journal, seal};
use czi_rig::{Failed, File, Rig};

/// Makes an armed journal void; it is then one byte long. It does nothing to one that isn't armed.
///
/// # Errors
///
/// `Failed` where a call on the journal failed. The journal then counts as before, or is void.
pub fn close<R: Rig>(rig: &mut R, journal: Journal) -> Result<(), Failed>
    requires stands { ForSome (known (R.state rig.old) File.Journal) (Everywhere (IsJournal journal)) }

    // Where the image is at rest and stands for itself, each pair that a crash leaves stands for it.
    ensures moments { ForSome (devices (R.state rig.old)) (λ all. IsAtRest all.image → StandsForItself all
        → Throughout R.Rig rig.old rig.new (λ image journal said. Recovered image journal all.image.seen × (said ≡ all.said))) }
    // It says what it said, or is void; the image is left alone.
    ensures leaves { ForSome (devices (R.state rig.old)) (λ all. Throughout R.Rig rig.old rig.new (λ image j said.
        Left all.image.durable image × SaysAsBeforeOrVoid all.journal.durable j × (said ≡ all.said))) }
    ensures closed { OnOk result (ForSome (known (R.state rig.new) File.Journal) (Everywhere (λ bytes. slot_of bytes ≡ Void))) }
    ensures synced { OnOk result ((journal.armed ≡ false → ForSome (known (R.state rig.old) File.Journal) IsAtRest) → ForSome (known (R.state rig.new) File.Journal) IsAtRest) }
    ensures idle { journal.armed ≡ false → Untouched R.Rig rig.old rig.new }
    ensures other { LeavesOther File.Journal (R.state rig.old) (R.state rig.new) }
    ensures goes_on { GoesOn (R.state rig.old) (R.state rig.new) }
    ensures cause { Faults (failed_at result (device_of File.Journal)) (R.state rig.old) (R.state rig.new) }
{
    if journal.armed {
        seal(rig, journal)
    } else {
        Ok(())
    }
}
