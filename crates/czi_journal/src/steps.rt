ghost use Rattle.std.specs.Prelude.{◌≡◌, ◌+◌, ◌^◌, ◌≤◌, List, ℕ, length, IsTrue, OnOk, OnErr};
ghost use Rattle.std.specs.Option.{ForSome};
ghost use Rattle.czi_rig.specs.Disk.{Left, Everywhere, IsAtRest};
ghost use Rattle.czi_rig.specs.State.{known, seen_of, LeavesOther};
ghost use Rattle.czi_rig.specs.Passes.{GoesOn};
ghost use Rattle.czi_rig.specs.Faults.{Faults, device_of, failed_at};
ghost use Rattle.czi_rig.specs.Moments.{devices, Throughout};
ghost use Rattle.czi_links.specs.Record.{Record};
ghost use Rattle.czi_links.specs.Reading.{Void, Holds, Spells};
ghost use Rattle.czi_journal.specs.Journals.{other, slot_in, slot_of, Counts, CountsWith, SaysAsBefore, SaysAsBeforeOr, SaysAsBeforeOrVoid};

use crate::journal::Journal;
use czi_links::SLOT_LEN;
use czi_rig::{Failed, File, Rig, cut_synced, write_synced};

/// Writes a record to the front of the slot that isn't selected, and syncs.
pub fn stage<R: Rig>(rig: &mut R, journal: &Journal, bytes: &[u8]) -> Result<(), Failed>
    requires armed { IsTrue journal.now.armed }
    requires counts { ForSome (known (R.state rig.old) File.Journal) (Everywhere (CountsWith journal.now.selected)) }
    requires room { length bytes.now ≤ SLOT_LEN }

    // Each journal that a crash leaves says what it said.
    ensures moments { ForSome (devices (R.state rig.old)) (λ all. Throughout R.Rig rig.old rig.new (λ image j said.
        Left all.image.durable image × SaysAsBefore all.journal.durable j × (said ≡ all.said))) }
    // The other slot then has the record, and the journal counts as before.
    ensures staged { OnOk result ((r : Record) → Spells r bytes.now →
        ForSome (known (R.state rig.new) File.Journal) (Everywhere (λ j. slot_in (other journal.now.selected) j ≡ Holds r))) }
    ensures counts { OnOk result (ForSome (known (R.state rig.new) File.Journal) (Everywhere (CountsWith journal.now.selected))) }
    ensures synced { OnOk result (ForSome (known (R.state rig.new) File.Journal) IsAtRest) }
    ensures other_file { LeavesOther File.Journal (R.state rig.old) (R.state rig.new) }
    ensures goes_on { GoesOn (R.state rig.old) (R.state rig.new) }
    ensures cause { Faults (failed_at result (device_of File.Journal)) (R.state rig.old) (R.state rig.new) }
{
    write_synced(rig, File::Journal, journal.selected.other().place(), bytes)?;
    Ok(())
}

/// Selects the slot that isn't selected, and syncs.
pub fn flip<R: Rig>(rig: &mut R, journal: &mut Journal) -> Result<(), Failed>
    requires armed { IsTrue journal.old.armed }
    requires counts { ForSome (known (R.state rig.old) File.Journal) (Everywhere (CountsWith journal.old.selected)) }

    // Each journal that a crash leaves says what it said, or what its other slot said.
    ensures moments { ForSome (devices (R.state rig.old)) (λ all. Throughout R.Rig rig.old rig.new (λ image j said.
        Left all.image.durable image × SaysAsBeforeOr (other journal.old.selected) all.journal.durable j × (said ≡ all.said))) }
    ensures flipped { OnOk result (ForSome (seen_of (R.state rig.old) File.Journal) (λ before.
        ForSome (known (R.state rig.new) File.Journal) (Everywhere (λ j. slot_of j ≡ slot_in (other journal.old.selected) before)))) }
    ensures counts { OnOk result (ForSome (known (R.state rig.new) File.Journal) (Everywhere (CountsWith journal.new.selected))) }
    ensures named { OnOk result (journal.new ≡ record journal.old { selected = other journal.old.selected }) }
    ensures unchanged { OnErr result (journal.new ≡ journal.old) }
    ensures synced { OnOk result (ForSome (known (R.state rig.new) File.Journal) IsAtRest) }
    ensures other_file { LeavesOther File.Journal (R.state rig.old) (R.state rig.new) }
    ensures goes_on { GoesOn (R.state rig.old) (R.state rig.new) }
    ensures cause { Faults (failed_at result (device_of File.Journal)) (R.state rig.old) (R.state rig.new) }
{
    let next = journal.selected.other();
    write_synced(rig, File::Journal, 1, &[next.selector()])?;
    journal.selected = next;
    Ok(())
}

/// Makes a journal that counts void, and cuts it to one byte. The record isn't looked at, nor which slot the
/// journal names, so that one whose record can't be read can be sealed too.
///
/// Byte 0 is 0 on the disk before the cut: a cut to nothing would let a crash leave any byte there.
pub fn seal<R: Rig>(rig: &mut R, _journal: Journal) -> Result<(), Failed>
    requires counts { ForSome (known (R.state rig.old) File.Journal) (Everywhere Counts) }

    // Each journal that a crash leaves says what it said, or is void.
    ensures moments { ForSome (devices (R.state rig.old)) (λ all. Throughout R.Rig rig.old rig.new (λ image j said.
        Left all.image.durable image × SaysAsBeforeOrVoid all.journal.durable j × (said ≡ all.said))) }
    ensures sealed { OnOk result (ForSome (known (R.state rig.new) File.Journal) (Everywhere (λ j. slot_of j ≡ Void))) }
    ensures synced { OnOk result (ForSome (known (R.state rig.new) File.Journal) IsAtRest) }
    ensures other_file { LeavesOther File.Journal (R.state rig.old) (R.state rig.new) }
    ensures goes_on { GoesOn (R.state rig.old) (R.state rig.new) }
    ensures cause { Faults (failed_at result (device_of File.Journal)) (R.state rig.old) (R.state rig.new) }
{
    write_synced(rig, File::Journal, 0, &[0])?;
    cut_synced(rig, File::Journal, 1)?;
    Ok(())
}
