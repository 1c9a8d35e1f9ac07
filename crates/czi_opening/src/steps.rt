//! The steps of an opening.

ghost use Rattle.std.specs.Prelude.{◌≡◌, ◌≤◌, IfOk, IfErr, OnOk, option_map};
ghost use Rattle.std.specs.Option.{ForSome};
ghost use Rattle.czi_image.specs.Holds.{Indexes};
ghost use Rattle.czi_journal.specs.Journals.{slot_of};
ghost use Rattle.czi_links.specs.Reading.{Holds, IsRead};
ghost use Rattle.czi_links.specs.Record.{record_of};
ghost use Rattle.czi_rig.specs.Disk.{Everywhere, IsAtRest, at_rest};
ghost use Rattle.czi_rig.specs.State.{LeavesOther, known, seen_of};
ghost use Rattle.czi_rig.specs.Passes.{GoesOn};
ghost use Rattle.czi_rig.specs.Faults.{Faults, fault_at};
ghost use Rattle.czi_rig.specs.Moments.{devices, Throughout};
ghost use Rattle.czi_rig.specs.Quiet.{AddsNothing, Untouched};
ghost use Rattle.czi_vault.specs.Recovered.{applied};
ghost use Rattle.czi_opening.specs.Answers.{AreRecovered, IsJournal, Tells};
ghost use Rattle.czi_opening.specs.Devices.{open_device};
ghost use Rattle.czi_opening.specs.Course.{Stays};
ghost use Rattle.czi_opening.specs.Steps.{CanBeOf, IfNotOf, IsDevice, IsNotOf, RefusesImage};

use crate::error::OpenError;
use czi_format::FILE_GUID;
use czi_image::{Index, read_index};
use czi_journal::{Journal, Slot, probe};
use czi_links::{LEAST_LENGTH, Links, SlotHead};
use czi_rig::{Failed, File, Rig};
use czi_vault::recover;
use std::alloc::Global;

/// Syncs both files.
pub(crate) fn sync_both<R: Rig>(rig: &mut R) -> Result<(), OpenError>
    ensures image { OnOk result (known (R.state rig.new) File.Image ≡ option_map at_rest (seen_of (R.state rig.old) File.Image)) }
    ensures journal { OnOk result (known (R.state rig.new) File.Journal ≡ option_map at_rest (seen_of (R.state rig.old) File.Journal)) }
    ensures kept { seen_of (R.state rig.new) File.Journal ≡ seen_of (R.state rig.old) File.Journal }
    ensures device { IfErr result IsDevice }
    ensures moments { AddsNothing R.Rig rig.old rig.new }
    ensures said { (R.state rig.new).said ≡ (R.state rig.old).said }
    ensures goes_on { GoesOn (R.state rig.old) (R.state rig.new) }
    ensures cause { Faults (fault_at open_device result) (R.state rig.old) (R.state rig.new) }
{
    if rig.sync(File::Image).is_err() {
        return Err(OpenError::ImageDevice);
    }
    if rig.sync(File::Journal).is_err() {
        return Err(OpenError::JournalDevice);
    }
    Ok(())
}

/// Whether the image is long enough for a record, and has its GUID.
fn check<R: Rig>(rig: &mut R, head: &SlotHead) -> Result<(), OpenError>
    requires least { LEAST_LENGTH ≤ head.now.length }

    ensures passed { OnOk result (ForSome (seen_of (R.state rig.old) File.Image) (CanBeOf head.now.guid head.now.length)) }
    ensures refused { IfErr result (λ error. ForSome (seen_of (R.state rig.old) File.Image) (λ image. IsNotOf head.now.guid head.now.length image error)) }
    ensures untouched { Untouched R.Rig rig.old rig.new }
    ensures cause { Faults (fault_at open_device result) (R.state rig.old) (R.state rig.new) }
{
    let Ok(have) = rig.len(File::Image) else {
        return Err(OpenError::ImageDevice);
    };
    let need = head.length;
    if have < need {
        return Err(OpenError::ImageShort { have, need });
    }
    let mut image = [0u8; 16];
    let Ok(()) = rig.read_at(File::Image, FILE_GUID as u64, &mut image) else {
        return Err(OpenError::ImageDevice);
    };
    let journal = head.guid;
    if journal != image {
        return Err(OpenError::ForeignJournal { journal, image });
    }
    Ok(())
}

/// Makes the image what it and the journal's record stand for.
fn bring_back<R: Rig>(rig: &mut R, links: &Links, head: &SlotHead) -> Result<(), OpenError>
    requires image { ForSome (known (R.state rig.old) File.Image) IsAtRest }
    requires journal { ForSome (known (R.state rig.old) File.Journal) IsAtRest }
    requires holds { ForSome (seen_of (R.state rig.old) File.Journal) (λ journal. slot_of journal ≡ Holds (record_of head.now links.now.links)) }
    requires rules { IsRead (record_of head.now links.now.links) }

    ensures passed { OnOk result (ForSome (seen_of (R.state rig.old) File.Image) (CanBeOf head.now.guid head.now.length)) }
    ensures restored { OnOk result (known (R.state rig.new) File.Image ≡ option_map (λ disk. at_rest (applied (record_of head.now links.now.links) disk.seen)) (known (R.state rig.old) File.Image)) }
    ensures refused { IfErr result (λ error. ForSome (seen_of (R.state rig.old) File.Image) (λ image.
        IsNotOf head.now.guid head.now.length image error)) }
    ensures unwritten { IfErr result (IfNotOf (known (R.state rig.old) File.Image) (known (R.state rig.new) File.Image)) }
    ensures moments { ForSome (devices (R.state rig.old)) (λ all. Throughout R.Rig rig.old rig.new (Stays all)) }
    ensures other { LeavesOther File.Image (R.state rig.old) (R.state rig.new) }
    ensures goes_on { GoesOn (R.state rig.old) (R.state rig.new) }
    ensures cause { Faults (fault_at open_device result) (R.state rig.old) (R.state rig.new) }
{
    check(rig, head)?;
    match recover(rig, links, head) {
        Ok(()) => Ok(()),
        Err(Failed) => Err(OpenError::ImageDevice),
    }
}

/// Makes the image the recovered one, and answers where the journal stands. The links that it takes for this are
/// left in `links`.
pub(crate) fn restore<R: Rig>(
    alloc: Global,
    rig: &mut R,
    links: &mut Links,
) -> Result<Journal, OpenError>
    requires image { ForSome (known (R.state rig.old) File.Image) IsAtRest }
    requires journal { ForSome (known (R.state rig.old) File.Journal) IsAtRest }

    ensures restored { OnOk result (ForSome (seen_of (R.state rig.old) File.Image) (λ image. ForSome (seen_of (R.state rig.old) File.Journal) (λ journal.
        AreRecovered image journal (R.state rig.new)))) }
    ensures stands { IfOk result (λ j. ForSome (known (R.state rig.new) File.Journal) (Everywhere (IsJournal j))) }
    ensures synced { OnOk result (ForSome (known (R.state rig.new) File.Image) IsAtRest) }
    ensures refused { IfErr result (λ error. ForSome (seen_of (R.state rig.old) File.Image) (λ image. ForSome (seen_of (R.state rig.old) File.Journal) (λ journal.
        Tells image journal (R.state rig.new) error))) }
    ensures moments { ForSome (devices (R.state rig.old)) (λ all. Throughout R.Rig rig.old rig.new (Stays all)) }
    ensures other { LeavesOther File.Image (R.state rig.old) (R.state rig.new) }
    ensures goes_on { GoesOn (R.state rig.old) (R.state rig.new) }
    ensures cause { Faults (fault_at open_device result) (R.state rig.old) (R.state rig.new) }
{
    match probe(alloc, rig, links)? {
        None => Ok(Journal {
            armed: false,
            selected: Slot::A,
        }),
        Some((journal, head)) => {
            bring_back(rig, links, &head)?;
            Ok(journal)
        }
    }
}

/// The image's index.
pub(crate) fn read_image<R: Rig>(alloc: Global, rig: &mut R) -> Result<Index, OpenError>
    ensures shown { IfOk result (λ x. ForSome (seen_of (R.state rig.old) File.Image) (λ image. Indexes image x)) }
    ensures refused { IfErr result (λ error. ForSome (seen_of (R.state rig.old) File.Image) (λ image. RefusesImage image error)) }
    ensures untouched { Untouched R.Rig rig.old rig.new }
    ensures cause { Faults (fault_at open_device result) (R.state rig.old) (R.state rig.new) }
{
    Ok(read_index(alloc, rig)?)
}
