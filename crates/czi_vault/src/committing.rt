ghost use Rattle.std.specs.Prelude.{◌≡◌, ◌⊎◌, ◌^◌, ◌≤◌, ℕ, List, length, take, drop, IsTrue, OnOk, option_map};
ghost use Rattle.std.specs.Option.{ForSome};
ghost use Rattle.czi_rig.specs.Disk.{Left, Covers, Everywhere, at_rest, IsAtRest};
ghost use Rattle.czi_rig.specs.State.{State, known, seen_of, LeavesOther};
ghost use Rattle.czi_rig.specs.Passes.{GoesOn};
ghost use Rattle.czi_rig.specs.Faults.{Faults, device_of, failed_at, fault_at};
ghost use Rattle.czi_rig.specs.Moments.{devices, Throughout, LeavesNow};
ghost use Rattle.czi_links.specs.Record.{Record, EndWithin, encoded_len, record_of};
ghost use Rattle.czi_links.specs.Reading.{Holds, Spells};
ghost use Rattle.czi_journal.specs.Journals.{other, slot_of, CountsWith, SaysAsBefore};
ghost use Rattle.czi_vault.specs.Recovered.{applied, View, Recovered, StandsNow, StandsOr};
ghost use Rattle.czi_vault.specs.Devices.{vault_device};
ghost use Rattle.czi_vault.specs.Puts.{ranges};
ghost use Rattle.czi_vault.specs.Alone.{AloneNow, HasBytesBut100, KeepsOr};
ghost use Rattle.czi_format.specs.declared.numbers.TheConstants.{UPDATE_PENDING};

use crate::recover;
use czi_format::FILE_GUID;
use czi_journal::{Journal, flip, stage};
use czi_links::{LEAST_LENGTH, Links, SLOT_LEN, SlotHead};
use czi_rig::{Failed, File, Rig};

/// A call on this file failed.
#[derive(Clone, Copy, PartialEq, Eq)]
pub enum VaultFault {
    Image,
    Journal,
}

/// Writes a record to the slot that isn't selected, and selects it.
fn switch<R: Rig>(rig: &mut R, journal: &mut Journal, bytes: &[u8]) -> Result<(), Failed>
    requires armed { IsTrue journal.old.armed }
    requires counts { ForSome (known (R.state rig.old) File.Journal) (Everywhere (CountsWith journal.old.selected)) }
    requires room { length bytes.now ≤ SLOT_LEN }

    ensures moments { ForSome (devices (R.state rig.old)) (λ all. (r : Record) → Spells r bytes.now
        → Throughout R.Rig rig.old rig.new (λ image j said. Left all.image.durable image × (SaysAsBefore all.journal.durable j ⊎ (slot_of j ≡ Holds r)) × (said ≡ all.said))) }
    ensures switched { OnOk result ((r : Record) → Spells r bytes.now → ForSome (known (R.state rig.new) File.Journal) (Everywhere (λ j. slot_of j ≡ Holds r))) }
    ensures counts { OnOk result (ForSome (known (R.state rig.new) File.Journal) (Everywhere (CountsWith journal.new.selected))) }
    ensures named { OnOk result (journal.new ≡ record journal.old { selected = other journal.old.selected }) }
    ensures armed { IsTrue journal.new.armed }
    ensures other { LeavesOther File.Journal (R.state rig.old) (R.state rig.new) }
    ensures goes_on { GoesOn (R.state rig.old) (R.state rig.new) }
    ensures cause { Faults (failed_at result (device_of File.Journal)) (R.state rig.old) (R.state rig.new) }
{
    stage(rig, journal, bytes)?;
    flip(rig, journal)?;
    Ok(())
}

/// Commits the links, and the length of the head: the image becomes the one that it was, cut to that length, with
/// the links written over it and byte 100 set to 0. A crash leaves files that stand for what they stood for, or
/// for that image.
///
/// The record is written to the slot that isn't selected and synced; the selector is written and synced, and this
/// is the commit; then come the steps of `recover`. `buffer` has the bytes of a slot and gets the record; what it
/// holds behind that stays.
pub fn commit<R: Rig>(
    rig: &mut R,
    journal: &mut Journal,
    links: &Links,
    head: &SlotHead,
    buffer: &mut [u8],
) -> Result<(), VaultFault>
    requires armed { IsTrue journal.old.armed }
    requires counts { ForSome (known (R.state rig.old) File.Journal) (Everywhere (CountsWith journal.old.selected)) }
    requires synced { ForSome (known (R.state rig.old) File.Image) IsAtRest }
    requires least { LEAST_LENGTH ≤ head.now.length }
    requires greatest { head.now.length ≤ 2 ^ 62 }
    requires ends { EndWithin head.now.length links.now.links }
    requires in_file { ForSome (seen_of (R.state rig.old) File.Image) (λ seen. head.now.length ≤ length seen) }
    requires guid { ForSome (seen_of (R.state rig.old) File.Image) (λ seen. take 16 (drop FILE_GUID seen) ≡ head.now.guid) }
    requires fits { encoded_len links.now.links ≤ SLOT_LEN }
    requires buffer { length buffer.old ≡ SLOT_LEN }

    // At every moment the files stand for what they stood for, or for the new image.
    ensures moments { ForSome (devices (R.state rig.old)) (λ all. (view : View) → StandsNow view all
        → Throughout R.Rig rig.old rig.new (λ image j said. StandsOr view (applied (record_of head.now links.now.links) all.image.seen) image j × (said ≡ all.said))) }
    // Each image read alone is pending or has the old bytes; or it is the new one, and then the files stand for it.
    ensures alone { ForSome (devices (R.state rig.old)) (λ all. (view : View) → StandsNow view all → AloneNow view all → HasBytesBut100 view all.image.seen → (Covers (ranges links.now.links) UPDATE_PENDING → ⊥)
        → Throughout R.Rig rig.old rig.new (λ image j said. KeepsOr view (applied (record_of head.now links.now.links) all.image.seen) image j × (said ≡ all.said))) }
    // From then on for the new image, which is all on the disk.
    ensures committed { OnOk result (ForSome (devices (R.state rig.old)) (λ all. ForSome (devices (R.state rig.new)) (λ now.
        (image j said : List ℕ) → LeavesNow now image j said → Recovered image j (applied (record_of head.now links.now.links) all.image.seen)))) }
    ensures image { OnOk result (known (R.state rig.new) File.Image ≡ option_map (λ disk. at_rest (applied (record_of head.now links.now.links) disk.seen)) (known (R.state rig.old) File.Image)) }
    ensures counts { OnOk result (ForSome (known (R.state rig.new) File.Journal) (Everywhere (CountsWith journal.new.selected))) }
    ensures named { OnOk result (journal.new ≡ record journal.old { selected = other journal.old.selected }) }
    ensures armed { IsTrue journal.new.armed }
    ensures said { (R.state rig.new).said ≡ (R.state rig.old).said }
    ensures goes_on { GoesOn (R.state rig.old) (R.state rig.new) }
    ensures cause { Faults (fault_at vault_device result) (R.state rig.old) (R.state rig.new) }
{
    let record = &mut buffer[..links.encoded_len()];
    links.encode(head, record);
    match switch(rig, journal, record) {
        Ok(()) => {}
        Err(Failed) => return Err(VaultFault::Journal),
    }
    match recover(rig, links, head) {
        Ok(()) => Ok(()),
        Err(Failed) => Err(VaultFault::Image),
    }
}
