ghost use Rattle.std.specs.Prelude.{◌≡◌, ◌+◌, ◌≤◌, ℕ, List, [], length, drop, take, IfOk, IfSome, OnErr};
ghost use Rattle.std.specs.Option.{ForSome};
ghost use Rattle.czi_rig.specs.State.{seen_of, SameAll};
ghost use Rattle.czi_rig.specs.Passes.{GoesOn};
ghost use Rattle.czi_rig.specs.Faults.{Faults, device_of, failed_at, fault_at};
ghost use Rattle.czi_rig.specs.Moments.{devices, LeavesNow, Throughout};
ghost use Rattle.czi_links.specs.Record.{record_of};
ghost use Rattle.czi_links.specs.Reading.{IsRead, read};
ghost use Rattle.czi_journal.specs.Devices.{journal_device};
ghost use Rattle.czi_journal.specs.Journals.{behind, slot_of};
ghost use Rattle.czi_journal.specs.Probing.{IsEmptied, IsProbed, IsSelection, IsSlotAnswer};

use crate::journal::{JOURNAL_LEN, Journal, MARK, SLOT_B, Slot};
use czi_links::{LinkFault, Links, SLOT_LEN, SlotHead, decode};
use czi_rig::{Failed, File, Rig};
use std::alloc::{AllocError, Global};

/// Why a journal that counts can't be read.
#[derive(Clone, Copy, PartialEq, Eq)]
pub enum JournalFault {
    /// The selected slot's record has this version, which isn't 1.
    Version(u32),
    /// The field or the link at this place of the journal, in bytes, breaks the grammar of a record, and no
    /// earlier one does.
    BadRecord(u64),
    /// A call on the journal failed.
    Device,
    /// There is no memory for a slot, or for its links.
    Memory,
}

impl From<AllocError> for JournalFault {
    ghost use Rattle.std.specs.Prelude.{◌≡◌};
    ghost use Rattle.czi_journal.specs.declared.probing.JournalFault.TheVariants.{Memory};

    ghost from_gives = { λ _ fault. fault ≡ Memory };

    fn from(_: AllocError) -> JournalFault {
        JournalFault::Memory
    }
}

impl From<Failed> for JournalFault {
    ghost use Rattle.std.specs.Prelude.{◌≡◌};
    ghost use Rattle.czi_journal.specs.declared.probing.JournalFault.TheVariants.{Device};

    ghost from_gives = { λ _ fault. fault ≡ Device };

    fn from(_: Failed) -> JournalFault {
        JournalFault::Device
    }
}

/// Reads the journal: where it stands, and the head of the selected slot's record, whose links are put into
/// `links` in place of those there. `None` means that it is void. `links` has none after `None` and after an
/// error.
///
/// It leaves both files, and what a crash leaves of them, as they were.
pub fn probe<R: Rig>(
    alloc: Global,
    rig: &mut R,
    links: &mut Links,
) -> Result<Option<(Journal, SlotHead)>, JournalFault>
    // `None` where it is void, the record where it holds one, or else the refusal of the first field that breaks the grammar.
    ensures answer { ForSome (seen_of (R.state rig.old) File.Journal) (λ seen. IsProbed seen links.new.links result) }
    ensures rules { IfOk result (λ found. IfSome found (λ f. IsRead (record_of f.1 links.new.links))) }
    ensures emptied { IsEmptied links.new.links result }

    ensures same { SameAll (R.state rig.old) (R.state rig.new) }
    ensures moments { ForSome (devices (R.state rig.old)) (λ all. Throughout R.Rig rig.old rig.new (LeavesNow all)) }
    ensures goes_on { GoesOn (R.state rig.old) (R.state rig.new) }
    ensures cause { Faults (fault_at journal_device result) (R.state rig.old) (R.state rig.new) }
{
    links.clear();
    let Some(selected) = selected_slot(rig)? else {
        return Ok(None);
    };
    let mut slot = vec![in alloc; 0u8; SLOT_LEN]?;
    rig.read_at(File::Journal, selected.place(), &mut slot)?;
    let head = decode_at(selected.place(), &slot, links)?;
    let journal = Journal {
        armed: true,
        selected,
    };
    Ok(Some((journal, head)))
}

/// The selected slot, where the journal counts. Its record isn't looked at.
pub fn selected_slot<R: Rig>(rig: &mut R) -> Result<Option<Slot>, Failed>
    ensures answer { IfOk result (λ slot. ForSome (seen_of (R.state rig.old) File.Journal) (λ seen. IsSelection seen slot)) }
    ensures same { SameAll (R.state rig.old) (R.state rig.new) }
    ensures moments { ForSome (devices (R.state rig.old)) (λ all. Throughout R.Rig rig.old rig.new (LeavesNow all)) }
    ensures goes_on { GoesOn (R.state rig.old) (R.state rig.new) }
    ensures cause { Faults (failed_at result (device_of File.Journal)) (R.state rig.old) (R.state rig.new) }
{
    if rig.len(File::Journal)? < JOURNAL_LEN {
        return Ok(None);
    }
    let mut head = [0u8; 2];
    rig.read_at(File::Journal, 0, &mut head)?;
    Ok(selection(head))
}

/// The slot that the first two bytes of a journal select, where they let it count.
fn selection(head: [u8; 2]) -> Option<Slot>
    ensures { (seen : List ℕ) → JOURNAL_LEN ≤ length seen → head ≡ take 2 (drop 0 seen) → IsSelection seen result }
{
    if head[0] != MARK {
        return None;
    }
    Some(if head[1] == Slot::B.selector() {
        Slot::B
    } else {
        Slot::A
    })
}

/// The record of the slot that begins at a place of the journal. The place that is refused is one of the journal.
fn decode_at(place: u64, slot: &[u8], links: &mut Links) -> Result<SlotHead, JournalFault>
    requires place { place ≤ SLOT_B }
    requires whole { length slot.now ≡ SLOT_LEN }
    ensures answer { IsSlotAnswer (behind place (read slot.now)) links.new.links result }
    ensures rules { IfOk result (λ head. IsRead (record_of head links.new.links)) }
    ensures emptied { OnErr result (links.new.links ≡ []) }
{
    match decode(slot, links) {
        Ok(head) => Ok(head),
        Err(LinkFault::Version(version)) => Err(JournalFault::Version(version)),
        Err(LinkFault::Bad(within)) => Err(JournalFault::BadRecord(place + within)),
        Err(LinkFault::Memory) => Err(JournalFault::Memory),
    }
}
