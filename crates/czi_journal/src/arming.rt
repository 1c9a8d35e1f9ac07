ghost use Rattle.std.specs.Prelude.{◌≡◌, ◌⊎◌, ◌+◌, ◌^◌, ◌<◌, ◌≤◌, List, ℕ, [], length, take, drop, slice_index, true, OnOk, IfOk};
ghost use Rattle.std.specs.Option.{ForSome};
ghost use Rattle.czi_rig.specs.Disk.{Left, Everywhere, IsAtRest};
ghost use Rattle.czi_rig.specs.State.{known, seen_of, LeavesOther};
ghost use Rattle.czi_rig.specs.Passes.{GoesOn};
ghost use Rattle.czi_rig.specs.Faults.{Faults, device_of, failed_at};
ghost use Rattle.czi_rig.specs.Moments.{devices, Throughout};
ghost use Rattle.czi_links.specs.Record.{Record, record_of};
ghost use Rattle.czi_links.specs.Reading.{Void, Holds, Spells};
ghost use Rattle.czi_journal.specs.Journals.{slot_of, CountsWith, IsUnmarked, IsFilled, IsVoidOr};

use crate::journal::{JOURNAL_LEN, Journal, MARK, SLOT_A, SLOT_B, Slot};
use czi_links::{LEAST_LENGTH, SLOT_LEN, SlotHead};
use czi_rig::{Failed, File, Rig, write_synced};

/// A journal of at least so many bytes could count, if its byte 0 were torn.
const LONG: u64 = JOURNAL_LEN;

/// Arms a void journal: slot A gets the record of the head without links, and is selected. What slot B gets isn't
/// said. `buffer` has the bytes of a slot; what it then holds isn't said.
///
/// A torn byte could make a long void journal count over whatever stands in its slots. So byte 0 is written last,
/// once all others are synced, and a long journal keeps its byte 0 until then; a short one gets 0 first.
pub fn create<R: Rig>(rig: &mut R, head: &SlotHead, buffer: &mut [u8]) -> Result<Journal, Failed>
    requires least { LEAST_LENGTH ≤ head.now.length }
    requires greatest { head.now.length ≤ 2 ^ 62 }
    requires whole { length buffer.old ≡ SLOT_LEN }
    requires synced { ForSome (known (R.state rig.old) File.Journal) IsAtRest }
    requires void { ForSome (seen_of (R.state rig.old) File.Journal) (λ seen. slot_of seen ≡ Void) }

    // Each journal that a crash leaves is void, or says the record.
    ensures moments { ForSome (devices (R.state rig.old)) (λ all.
        Throughout R.Rig rig.old rig.new (λ image j said. Left all.image.durable image × IsVoidOr (record_of head.now []) j × (said ≡ all.said))) }
    ensures created { OnOk result (ForSome (known (R.state rig.new) File.Journal) (Everywhere (λ j. slot_of j ≡ Holds (record_of head.now [])))) }
    ensures counts { IfOk result (λ journal. ForSome (known (R.state rig.new) File.Journal) (Everywhere (CountsWith journal.selected))) }
    ensures named { IfOk result (λ journal. journal ≡ record { armed = true; selected = Slot.A }) }
    ensures synced { OnOk result (ForSome (known (R.state rig.new) File.Journal) IsAtRest) }
    ensures other_file { LeavesOther File.Journal (R.state rig.old) (R.state rig.new) }
    ensures goes_on { GoesOn (R.state rig.old) (R.state rig.new) }
    ensures cause { Faults (failed_at result (device_of File.Journal)) (R.state rig.old) (R.state rig.new) }
{
    buffer.fill(0);
    head.encode(buffer);
    arm(rig, buffer)
}

/// Makes byte 0 of a short journal 0. A long one keeps it: a torn byte could make it count.
fn clear<R: Rig>(rig: &mut R) -> Result<(), Failed>
    requires synced { ForSome (known (R.state rig.old) File.Journal) IsAtRest }
    requires void { ForSome (seen_of (R.state rig.old) File.Journal) (λ seen. slot_of seen ≡ Void) }

    ensures moments { ForSome (devices (R.state rig.old)) (λ all. Throughout R.Rig rig.old rig.new (λ image j said.
        Left all.image.durable image × (slot_of j ≡ Void) × (said ≡ all.said))) }
    ensures synced { OnOk result (ForSome (known (R.state rig.new) File.Journal) IsAtRest) }
    ensures unmarked { OnOk result (ForSome (seen_of (R.state rig.new) File.Journal) IsUnmarked) }
    ensures other_file { LeavesOther File.Journal (R.state rig.old) (R.state rig.new) }
    ensures goes_on { GoesOn (R.state rig.old) (R.state rig.new) }
    ensures cause { Faults (failed_at result (device_of File.Journal)) (R.state rig.old) (R.state rig.new) }
{
    if rig.len(File::Journal)? >= LONG {
        return Ok(());
    }
    write_synced(rig, File::Journal, 0, &[0])
}

/// Writes all but byte 0, with this slot A.
fn fill<R: Rig>(rig: &mut R, slot: &[u8]) -> Result<(), Failed>
    requires whole { length slot.now ≡ SLOT_LEN }
    requires synced { ForSome (known (R.state rig.old) File.Journal) IsAtRest }
    requires unmarked { ForSome (seen_of (R.state rig.old) File.Journal) IsUnmarked }

    ensures moments { ForSome (devices (R.state rig.old)) (λ all. Throughout R.Rig rig.old rig.new (λ image j said.
        Left all.image.durable image × (slot_of j ≡ Void) × (said ≡ all.said))) }
    ensures synced { OnOk result (ForSome (known (R.state rig.new) File.Journal) IsAtRest) }
    ensures filled { OnOk result (ForSome (seen_of (R.state rig.new) File.Journal) (IsFilled slot.now)) }
    ensures other_file { LeavesOther File.Journal (R.state rig.old) (R.state rig.new) }
    ensures goes_on { GoesOn (R.state rig.old) (R.state rig.new) }
    ensures cause { Faults (failed_at result (device_of File.Journal)) (R.state rig.old) (R.state rig.new) }
{
    rig.write_at(File::Journal, 1, &[0; 63])?;
    rig.write_at(File::Journal, SLOT_A, slot)?;
    rig.write_at(File::Journal, SLOT_B, slot)?;
    rig.sync(File::Journal)?;
    Ok(())
}

/// Arms a void journal. `slot` is a whole slot that begins with the bytes of a record.
fn arm<R: Rig>(rig: &mut R, slot: &[u8]) -> Result<Journal, Failed>
    requires whole { length slot.now ≡ SLOT_LEN }
    requires synced { ForSome (known (R.state rig.old) File.Journal) IsAtRest }
    requires void { ForSome (seen_of (R.state rig.old) File.Journal) (λ seen. slot_of seen ≡ Void) }

    // Each journal that a crash leaves is void, or says the record.
    ensures moments { ForSome (devices (R.state rig.old)) (λ all. (r : Record) → Spells r slot.now
        → Throughout R.Rig rig.old rig.new (λ image j said. Left all.image.durable image × IsVoidOr r j × (said ≡ all.said))) }
    ensures created { OnOk result ((r : Record) → Spells r slot.now → ForSome (known (R.state rig.new) File.Journal) (Everywhere (λ j. slot_of j ≡ Holds r))) }
    ensures counts { IfOk result (λ journal. ForSome (known (R.state rig.new) File.Journal) (Everywhere (CountsWith journal.selected))) }
    ensures named { IfOk result (λ journal. journal ≡ record { armed = true; selected = Slot.A }) }
    ensures synced { OnOk result (ForSome (known (R.state rig.new) File.Journal) IsAtRest) }
    ensures other_file { LeavesOther File.Journal (R.state rig.old) (R.state rig.new) }
    ensures goes_on { GoesOn (R.state rig.old) (R.state rig.new) }
    ensures cause { Faults (failed_at result (device_of File.Journal)) (R.state rig.old) (R.state rig.new) }
{
    clear(rig)?;
    fill(rig, slot)?;
    write_synced(rig, File::Journal, 0, &[MARK])?;
    Ok(Journal {
        armed: true,
        selected: Slot::A,
    })
}
