//! The steps of a creation.

ghost use Rattle.std.specs.Prelude.{◌≡◌, ◌⊎◌, [], None, slice_index, IfErr, OnOk, option_map};
ghost use Rattle.std.specs.Option.{ForSome};
ghost use Rattle.czi_format.specs.Empty.{empty_image};
ghost use Rattle.czi_journal.specs.Journals.{SaysAsBeforeOrVoid, slot_of};
ghost use Rattle.czi_links.specs.Reading.{Void};
ghost use Rattle.czi_rig.specs.Disk.{IsAtRest, Left, at_rest};
ghost use Rattle.czi_rig.specs.State.{LeavesOther, known, seen_of};
ghost use Rattle.czi_rig.specs.Passes.{GoesOn};
ghost use Rattle.czi_rig.specs.Faults.{Faults, device_of, failed_at, fault_at};
ghost use Rattle.czi_rig.specs.Moments.{devices, Throughout};
ghost use Rattle.czi_rig.specs.Quiet.{AddsNothing};
ghost use Rattle.czi_creation.specs.Creates.{OpensOrRefused};
ghost use Rattle.czi_creation.specs.Devices.{creation_device};
ghost use Rattle.czi_creation.specs.Steps.{AreSynced, HasNoFront, IsDevice, TellsLength};

use crate::image::empty_image;
use czi_format::EMPTY_LEN;
use czi_journal::{Journal, seal, selected_slot};
use czi_rig::{Failed, File, Rig, write_synced};

/// Why no document is created.
#[derive(Clone, Copy, PartialEq, Eq)]
pub enum CreationFault {
    /// The image has this many bytes; it has to be empty.
    NotEmpty(u64),
    /// A call on the image failed.
    Image,
    /// A call on the journal failed.
    Journal,
}

/// Syncs both files, and finds out whether the image is empty. Nothing is written.
///
/// # Errors
///
/// `NotEmpty` exactly where it isn't, unless a call fails.
pub fn begin<R: Rig>(rig: &mut R) -> Result<(), CreationFault>
    ensures length { ForSome (seen_of (R.state rig.old) File.Image) (λ image. TellsLength image result) }
    ensures synced { fault_at creation_device result ≡ None → AreSynced (R.state rig.old) (R.state rig.new) }
    ensures empty { OnOk result (ForSome (known (R.state rig.new) File.Image) (λ disk. disk ≡ at_rest [])) }
    ensures journal { OnOk result (ForSome (known (R.state rig.new) File.Journal) IsAtRest) }
    // No moment leaves anything that the start couldn't leave.
    ensures moments { AddsNothing R.Rig rig.old rig.new }
    ensures said { (R.state rig.new).said ≡ (R.state rig.old).said }
    ensures goes_on { GoesOn (R.state rig.old) (R.state rig.new) }
    ensures cause { Faults (fault_at creation_device result) (R.state rig.old) (R.state rig.new) }
{
    if rig.sync(File::Image).is_err() {
        return Err(CreationFault::Image);
    }
    if rig.sync(File::Journal).is_err() {
        return Err(CreationFault::Journal);
    }
    match rig.len(File::Image) {
        Ok(0) => Ok(()),
        Ok(length) => Err(CreationFault::NotEmpty(length)),
        Err(Failed) => Err(CreationFault::Image),
    }
}

/// Makes a journal that counts void. Its record isn't looked at. One that is void is left as it is.
fn seal_old<R: Rig>(rig: &mut R) -> Result<(), Failed>
    requires synced { ForSome (known (R.state rig.old) File.Journal) IsAtRest }

    ensures moments { ForSome (devices (R.state rig.old)) (λ all. Throughout R.Rig rig.old rig.new (λ image j said.
        Left all.image.durable image × SaysAsBeforeOrVoid all.journal.durable j × (said ≡ all.said))) }
    ensures void { OnOk result (ForSome (seen_of (R.state rig.new) File.Journal) (λ j. slot_of j ≡ Void)) }
    ensures synced { OnOk result (ForSome (known (R.state rig.new) File.Journal) IsAtRest) }
    ensures other { LeavesOther File.Journal (R.state rig.old) (R.state rig.new) }
    ensures goes_on { GoesOn (R.state rig.old) (R.state rig.new) }
    ensures cause { Faults (failed_at result (device_of File.Journal)) (R.state rig.old) (R.state rig.new) }
{
    match selected_slot(rig)? {
        None => Ok(()),
        Some(selected) => {
            let journal = Journal {
                armed: true,
                selected,
            };
            seal(rig, journal)
        }
    }
}

/// Writes an image of which the first byte makes it a CZI file: that byte as 0, then all others, then that byte. Each is synced before the next
/// is written.
fn write_image<R: Rig>(rig: &mut R, bytes: &[u8; EMPTY_LEN]) -> Result<(), Failed>
    requires empty { ForSome (known (R.state rig.old) File.Image) (λ disk. disk ≡ at_rest []) }
    requires front { slice_index bytes.now 0 ≡ 0x5A }

    ensures moments { ForSome (devices (R.state rig.old)) (λ all. Throughout R.Rig rig.old rig.new (λ image j said.
        (HasNoFront image ⊎ (image ≡ bytes.now)) × Left all.journal.durable j × (said ≡ all.said))) }
    ensures written { OnOk result (known (R.state rig.new) File.Image ≡ option_map (λ _. at_rest bytes.now) (known (R.state rig.old) File.Image)) }
    ensures other { LeavesOther File.Image (R.state rig.old) (R.state rig.new) }
    ensures goes_on { GoesOn (R.state rig.old) (R.state rig.new) }
    ensures cause { Faults (failed_at result (device_of File.Image)) (R.state rig.old) (R.state rig.new) }
{
    write_synced(rig, File::Image, 0, &[0])?;
    write_synced(rig, File::Image, 1, &bytes[1..])?;
    write_synced(rig, File::Image, 0, &bytes[..1])?;
    Ok(())
}

/// Makes the empty document with a GUID, in its stored order, in an empty image. A journal that counts is made void first, whatever it says.
///
/// It takes no memory.
///
/// # Errors
///
/// `Image` or `Journal`, where a call failed. The files are then refused, or open to the empty document.
pub fn make<R: Rig>(rig: &mut R, guid: &[u8; 16]) -> Result<(), CreationFault>
    requires empty { ForSome (known (R.state rig.old) File.Image) (λ disk. disk ≡ at_rest []) }
    requires synced { ForSome (known (R.state rig.old) File.Journal) IsAtRest }

    ensures moments { ForSome (devices (R.state rig.old)) (λ all. Throughout R.Rig rig.old rig.new (λ image j said.
        OpensOrRefused guid.now all.journal.seen image j × (said ≡ all.said))) }
    ensures made { OnOk result (known (R.state rig.new) File.Image ≡ option_map (λ _. at_rest (empty_image guid.now)) (known (R.state rig.old) File.Image)) }
    ensures void { OnOk result (ForSome (seen_of (R.state rig.new) File.Journal) (λ j. slot_of j ≡ Void)) }
    ensures synced { OnOk result (ForSome (known (R.state rig.new) File.Journal) IsAtRest) }
    ensures device { IfErr result IsDevice }
    ensures said { (R.state rig.new).said ≡ (R.state rig.old).said }
    ensures goes_on { GoesOn (R.state rig.old) (R.state rig.new) }
    ensures cause { Faults (fault_at creation_device result) (R.state rig.old) (R.state rig.new) }
{
    let Ok(()) = seal_old(rig) else {
        return Err(CreationFault::Journal);
    };
    let Ok(()) = write_image(rig, &empty_image(guid)) else {
        return Err(CreationFault::Image);
    };
    Ok(())
}
