//! Opening an image beside its journal.

ghost use Rattle.std.specs.Prelude.{◌≡◌, [], IfOk, IfErr, OnOk};
ghost use Rattle.std.specs.Option.{ForSome};
ghost use Rattle.czi_image.specs.Holds.{Indexes};
ghost use Rattle.czi_rig.specs.Disk.{Everywhere, IsAtRest};
ghost use Rattle.czi_rig.specs.State.{known, seen_of};
ghost use Rattle.czi_rig.specs.Passes.{GoesOn};
ghost use Rattle.czi_rig.specs.Faults.{Faults, fault_at};
ghost use Rattle.czi_rig.specs.Moments.{devices, Throughout};
ghost use Rattle.czi_opening.specs.Answers.{AreRecovered, IsJournal, Tells};
ghost use Rattle.czi_opening.specs.Devices.{open_device};
ghost use Rattle.czi_opening.specs.Course.{OpensFrom, Stays};

use crate::error::OpenError;
use crate::steps::{read_image, restore, sync_both};
use czi_image::Index;
use czi_journal::Journal;
use czi_links::Links;
use czi_rig::{File, Rig};
use std::alloc::Global;

/// What an opening answers.
#[derive(Drop)]
pub struct Opened {
    /// What the image holds.
    pub index: Index,
    /// Where the journal stands. It is armed exactly where it counted.
    pub journal: Journal,
    /// No links. Their memory may be used again.
    pub links: Links,
}

/// Opens an image beside its journal: syncs both files, makes the image the recovered one where the journal
/// counts, and reads its index. The journal isn't written.
///
/// # Errors
///
/// After one of the first four nothing was written, and both files are synced. After `Refused` the image is the
/// recovered one. After `Memory` each pair of files that a crash leaves stands for what they stood for. So it does
/// after a fault of a device, or, where a sync failed, a crash leaves what it could have left before.
pub fn open<R: Rig>(alloc: Global, rig: &mut R) -> Result<Opened, OpenError>
    // The image becomes what both files stood for, the journal stays. Both are on the disk, and stand as it is told.
    ensures recovered { OnOk result (ForSome (seen_of (R.state rig.old) File.Image) (λ image. ForSome (seen_of (R.state rig.old) File.Journal) (λ journal.
        AreRecovered image journal (R.state rig.new)))) }
    ensures shown { IfOk result (λ o. ForSome (seen_of (R.state rig.new) File.Image) (λ image. Indexes image o.index)) }
    ensures stands { IfOk result (λ o. ForSome (known (R.state rig.new) File.Journal) (Everywhere (IsJournal o.journal))) }
    ensures synced { OnOk result (ForSome (known (R.state rig.new) File.Image) IsAtRest × ForSome (known (R.state rig.new) File.Journal) IsAtRest) }
    ensures no_links { IfOk result (λ o. o.links.links ≡ []) }
    // A refusal tells its cause; there is one exactly where the files don't open.
    ensures refused { IfErr result (λ error. ForSome (seen_of (R.state rig.old) File.Image) (λ image. ForSome (seen_of (R.state rig.old) File.Journal) (λ journal.
        Tells image journal (R.state rig.new) error))) }
    // Until both files are synced nothing is left that the start couldn't leave. From then on each pair stands for what the start did.
    ensures moments { ForSome (devices (R.state rig.old)) (λ all. OpensFrom R.Rig rig.old rig.new (Stays all) result) }
    ensures journal { seen_of (R.state rig.new) File.Journal ≡ seen_of (R.state rig.old) File.Journal }
    ensures said { (R.state rig.new).said ≡ (R.state rig.old).said }
    ensures goes_on { GoesOn (R.state rig.old) (R.state rig.new) }
    ensures cause { Faults (fault_at open_device result) (R.state rig.old) (R.state rig.new) }
{
    sync_both(rig)?;
    open_synced(alloc, rig)
}

/// The same of two files that are synced.
fn open_synced<R: Rig>(alloc: Global, rig: &mut R) -> Result<Opened, OpenError>
    requires image { ForSome (known (R.state rig.old) File.Image) IsAtRest }
    requires journal { ForSome (known (R.state rig.old) File.Journal) IsAtRest }

    ensures recovered { OnOk result (ForSome (seen_of (R.state rig.old) File.Image) (λ image. ForSome (seen_of (R.state rig.old) File.Journal) (λ journal.
        AreRecovered image journal (R.state rig.new)))) }
    ensures shown { IfOk result (λ o. ForSome (seen_of (R.state rig.new) File.Image) (λ image. Indexes image o.index)) }
    ensures stands { IfOk result (λ o. ForSome (known (R.state rig.new) File.Journal) (Everywhere (IsJournal o.journal))) }
    ensures synced { OnOk result (ForSome (known (R.state rig.new) File.Image) IsAtRest × ForSome (known (R.state rig.new) File.Journal) IsAtRest) }
    ensures no_links { IfOk result (λ o. o.links.links ≡ []) }
    ensures refused { IfErr result (λ error. ForSome (seen_of (R.state rig.old) File.Image) (λ image. ForSome (seen_of (R.state rig.old) File.Journal) (λ journal.
        Tells image journal (R.state rig.new) error))) }
    ensures moments { ForSome (devices (R.state rig.old)) (λ all. Throughout R.Rig rig.old rig.new (Stays all)) }
    ensures kept { known (R.state rig.new) File.Journal ≡ known (R.state rig.old) File.Journal }
    ensures said { (R.state rig.new).said ≡ (R.state rig.old).said }
    ensures goes_on { GoesOn (R.state rig.old) (R.state rig.new) }
    ensures cause { Faults (fault_at open_device result) (R.state rig.old) (R.state rig.new) }
{
    let mut links = Links::new(alloc);
    let journal = restore(alloc, rig, &mut links)?;
    links.clear();
    let index = read_image(alloc, rig)?;
    Ok(Opened {
        index,
        journal,
        links,
    })
}
