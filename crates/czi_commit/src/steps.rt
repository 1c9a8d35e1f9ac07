// The steps of a command.
ghost use Rattle.std.specs.Prelude.{◌≡◌, ◌^◌, ◌≤◌, ℕ, List, false, length, slice_index, IsTrue, OnOk, option_map};
ghost use Rattle.std.specs.Option.{ForSome};
ghost use Rattle.czi_rig.specs.Disk.{Covers, Everywhere, at_rest, IsAtRest};
ghost use Rattle.czi_rig.specs.State.{known, LeavesOther};
ghost use Rattle.czi_rig.specs.Passes.{GoesOn};
ghost use Rattle.czi_rig.specs.Faults.{Faults, device_of, failed_at, fault_at};
ghost use Rattle.czi_rig.specs.Moments.{devices, Throughout, LeavesNow};
ghost use Rattle.czi_journal.specs.Journals.{CountsWith};
ghost use Rattle.czi_vault.specs.Alone.{HasBytes, Keeps, KeepsNow, KeepsOr};
ghost use Rattle.czi_vault.specs.Devices.{vault_device};
ghost use Rattle.czi_vault.specs.Puts.{ranges};
ghost use Rattle.czi_vault.specs.Recovered.{View, StandsNow, Recovered};
ghost use Rattle.czi_opening.specs.Answers.{IsJournal};
ghost use Rattle.czi_commit.specs.Filled.{AreFree, filled};
ghost use Rattle.czi_commit.specs.Made.{made, step_of};
ghost use Rattle.czi_plan.specs.Pieces.{writes_of};
ghost use Rattle.czi_commit.specs.Ready.{CanCarry, IsReady};
ghost use Rattle.czi_format.specs.declared.numbers.TheConstants.{UPDATE_PENDING};

use crate::filling::fill;
use czi_journal::{Journal, create};
use czi_links::{LEAST_LENGTH, SLOT_LEN, SlotHead};
use czi_plan::EditPlan;
use czi_region::Region;
use czi_rig::{Failed, File, Rig};
use czi_vault::{VaultFault, commit, settle};

/// Arms the journal where it isn't armed, with the image as it is.
fn arm<R: Rig>(
    rig: &mut R,
    journal: &mut Journal,
    file: &SlotHead,
    buffer: &mut [u8],
) -> Result<(), Failed>
    requires journal { ForSome (known (R.state rig.old) File.Journal) (Everywhere (IsJournal journal.old)) }
    requires idle { journal.old.armed ≡ false → ForSome (known (R.state rig.old) File.Journal) IsAtRest }
    requires least { LEAST_LENGTH ≤ file.now.length }
    requires greatest { file.now.length ≤ 2 ^ 62 }
    requires buffer { length buffer.old ≡ SLOT_LEN }

    ensures moments { ForSome (devices (R.state rig.old)) (λ all. (view : View) → KeepsNow view all → IsReady file.now all.image
        → Throughout R.Rig rig.old rig.new (λ image j said. Keeps view image j × (said ≡ all.said))) }
    ensures counts { OnOk result (ForSome (known (R.state rig.new) File.Journal) (Everywhere (CountsWith journal.new.selected))) }
    ensures armed { OnOk result (IsTrue journal.new.armed) }
    ensures other { LeavesOther File.Journal (R.state rig.old) (R.state rig.new) }
    ensures goes_on { GoesOn (R.state rig.old) (R.state rig.new) }
    ensures cause { Faults (failed_at result (device_of File.Journal)) (R.state rig.old) (R.state rig.new) }
{
    if journal.armed {
        return Ok(());
    }
    *journal = create(rig, file, buffer)?;
    Ok(())
}

/// Carries out a plan: arms the journal where it isn't armed, writes the plan's new bytes, with zeros between the
/// image's end and those that begin behind it, syncs the image, and commits the plan's links and length.
///
/// `file` has the image's GUID and its present length; `buffer` has the bytes of a slot.
pub fn carry_out<R: Rig>(
    rig: &mut R,
    journal: &mut Journal,
    file: &SlotHead,
    region: &Region,
    plan: &EditPlan,
    buffer: &mut [u8],
) -> Result<(), VaultFault>
    requires ready { CanCarry (R.state rig.old) journal.old file.now region.now plan.now }
    requires buffer { length buffer.old ≡ SLOT_LEN }

    // At every moment the files stand for what they stood for, or for the new image; and read alone the image waits for the
    // journal, or is the old one, or the new one once the files stand for that.
    ensures moments { ForSome (devices (R.state rig.old)) (λ all. (view : View) → StandsNow view all → HasBytes view all.image.seen → slice_index all.image.seen UPDATE_PENDING ≡ 0
        → (Covers (ranges plan.now.links.links) UPDATE_PENDING → ⊥) → AreFree view (filled file.now.length (writes_of region.now plan.now))
        → Throughout R.Rig rig.old rig.new (λ image j said. KeepsOr view (made file.now.length (step_of file.now region.now plan.now) all.image.seen) image j × (said ≡ all.said))) }
    // From then on for the new image, which is all on the disk.
    ensures committed { OnOk result (ForSome (devices (R.state rig.old)) (λ all. ForSome (devices (R.state rig.new)) (λ now.
        (image j said : List ℕ) → LeavesNow now image j said → Recovered image j (made file.now.length (step_of file.now region.now plan.now) all.image.seen)))) }
    ensures image { OnOk result (known (R.state rig.new) File.Image ≡ option_map (λ disk. at_rest (made file.now.length (step_of file.now region.now plan.now) disk.seen)) (known (R.state rig.old) File.Image)) }
    ensures journal { OnOk result (ForSome (known (R.state rig.new) File.Journal) (Everywhere (IsJournal journal.new))) }
    ensures armed { OnOk result (IsTrue journal.new.armed) }
    ensures said { (R.state rig.new).said ≡ (R.state rig.old).said }
    ensures goes_on { GoesOn (R.state rig.old) (R.state rig.new) }
    ensures cause { Faults (fault_at vault_device result) (R.state rig.old) (R.state rig.new) }
{
    match arm(rig, journal, file, buffer) {
        Ok(()) => {}
        Err(Failed) => return Err(VaultFault::Journal),
    }
    match fill(rig, file.length, region, &plan.writes) {
        Ok(()) => {}
        Err(Failed) => return Err(VaultFault::Image),
    }
    match settle(rig) {
        Ok(()) => {}
        Err(Failed) => return Err(VaultFault::Image),
    }
    let head = SlotHead {
        guid: file.guid,
        length: plan.length,
    };
    commit(rig, journal, &plan.links, &head, buffer)
}
