//! Creating an empty document, and the engine that stands on it.

ghost use Rattle.std.specs.Prelude.{◌≡◌, [], None, false, IfErr, IfOk, OnOk, option_map};
ghost use Rattle.std.specs.Option.{ForSome};
ghost use Rattle.czi_creation.specs.Steps.{AreSynced};
ghost use Rattle.czi_engine.specs.Creating.{CreatesFrom, TellsLength, create_device, create_error};
ghost use Rattle.czi_engine.specs.Rests.{RestsOn};
ghost use Rattle.czi_engine.specs.Standing.{IsOf, IsOpened, StandsOnRig};
ghost use Rattle.czi_engine.specs.declared.creating.CreateError.TheVariants as errors;
ghost use Rattle.czi_format.specs.Empty.{empty_image};
ghost use Rattle.czi_image.specs.Holds.{Indexes};
ghost use Rattle.czi_journal.specs.Journals.{slot_of};
ghost use Rattle.czi_links.specs.Reading.{Void};
ghost use Rattle.czi_opening.specs.declared.opening.Opened.{Opened};
ghost use Rattle.czi_rig.specs.Disk.{IsAtRest, at_rest};
ghost use Rattle.czi_rig.specs.State.{known, seen_of};
ghost use Rattle.czi_rig.specs.Passes.{GoesOn};
ghost use Rattle.czi_rig.specs.Faults.{Faults, fault_at};
ghost use Rattle.czi_rig.specs.Moments.{devices};

use crate::engine::Engine;
use czi_creation::{CreationFault, begin, empty_image, make};
use czi_image::{Index, read_index};
use czi_journal::{Journal, Slot};
use czi_links::Links;
use czi_opening::Opened;
use czi_rig::{File, MemRig, Rig};
use std::alloc::{AllocError, Global};
use thiserror::Error;

/// Why no document is created.
#[derive(Clone, Copy, Debug, PartialEq, Eq, Error)]
pub enum CreateError {
    /// The image has this many bytes; it has to be empty.
    #[error("the image has {0} bytes, and has to be empty")]
    NotEmpty(u64),
    /// There is no memory left.
    #[error("no memory is left")]
    Memory,
    /// A call on the image failed.
    #[error("a call on the image failed")]
    ImageDevice,
    /// A call on the journal failed.
    #[error("a call on the journal failed")]
    JournalDevice,
}

impl From<CreationFault> for CreateError {
    ghost from_gives = { λ fault error. error ≡ create_error fault };

    fn from(fault: CreationFault) -> CreateError {
        match fault {
            CreationFault::NotEmpty(length) => CreateError::NotEmpty(length),
            CreationFault::Image => CreateError::ImageDevice,
            CreationFault::Journal => CreateError::JournalDevice,
        }
    }
}

impl From<AllocError> for CreateError {
    ghost from_gives = { λ _ error. error ≡ errors.Memory };

    fn from(_error: AllocError) -> CreateError {
        CreateError::Memory
    }
}

/// The index of an image in memory, where there is memory to read it.
fn index_in_memory(alloc: Global, image: &[u8]) -> Result<Index, AllocError>
    ensures { IfOk result (Indexes image.now) }
{
    let mut rig = MemRig::new(alloc, image, &[])?;
    match read_index(alloc, &mut rig) {
        Ok(index) => Ok(index),
        Err(_) => Err(AllocError),
    }
}

impl Engine {
    /// Creates the empty document with a GUID, in its stored order, in an empty image. A journal that counts is made void,
    /// whatever it says; any other is left as it is. All memory is taken before the first write.
    ///
    /// # Errors
    ///
    /// After `NotEmpty` and `Memory` both files are synced, and as they were. After a fault of a device they are as they were, or,
    /// once both were synced, open to the empty document or are refused: as no CZI file, or for what the old journal says.
    pub fn create<R: Rig>(
        alloc: Global,
        rig: &mut R,
        guid: &[u8; 16],
    ) -> Result<Engine, CreateError>
        ensures length { ForSome (seen_of (R.state rig.old) File.Image) (λ image. TellsLength image result) }
        // The image is the empty document, the journal is void, and the engine stands on them.
        ensures created { OnOk result (known (R.state rig.new) File.Image ≡ option_map (λ _. at_rest (empty_image guid.now)) (known (R.state rig.old) File.Image)) }
        ensures void { OnOk result (ForSome (seen_of (R.state rig.new) File.Journal) (λ journal. slot_of journal ≡ Void)) }
        ensures rests { OnOk result (ForSome (devices (R.state rig.new)) (λ all. RestsOn all (empty_image guid.now))) }
        ensures stands { IfOk result (λ e. StandsOnRig (R.state rig.new) e.state) }
        ensures fresh { IfOk result (λ e. IsOpened (R.state rig.new) e.state) }
        ensures up { IfOk result (λ e. e.state.down ≡ false) }
        ensures no_edits { IfOk result (λ e. (e.state.edits ≡ []) × (e.state.number ≡ 0)) }
        // Where the image isn't empty, or memory is wanting, both files are as they were, and synced.
        ensures kept { IfErr result (λ error. create_device error ≡ None → AreSynced (R.state rig.old) (R.state rig.new)) }
        // Until both files are synced nothing is left that the start couldn't leave. From then on each pair is refused, or opens to the empty document.
        ensures moments { ForSome (devices (R.state rig.old)) (λ all. CreatesFrom R.Rig rig.old rig.new guid.now all result) }
        ensures said { (R.state rig.new).said ≡ (R.state rig.old).said }
        ensures goes_on { GoesOn (R.state rig.old) (R.state rig.new) }
        ensures cause { Faults (fault_at create_device result) (R.state rig.old) (R.state rig.new) }
    {
        begin(rig)?;
        let engine = Engine::of_empty(alloc, guid)?;
        make(rig, guid)?;
        Ok(engine)
    }

    /// The engine of the empty document, which isn't written yet. Its journal is void.
    fn of_empty(alloc: Global, guid: &[u8; 16]) -> Result<Engine, AllocError>
        ensures of { IfOk result (λ e. (o : Opened) × IsOf o e.state × Indexes (empty_image guid.now) o.index × (o.journal.armed ≡ false)) }
        ensures up { IfOk result (λ e. e.state.down ≡ false) }
        ensures no_edits { IfOk result (λ e. (e.state.edits ≡ []) × (e.state.number ≡ 0)) }
    {
        let index = index_in_memory(alloc, &empty_image(guid))?;
        let journal = Journal {
            armed: false,
            selected: Slot::A,
        };
        let opened = Opened {
            index,
            journal,
            links: Links::new(alloc),
        };
        Engine::of(alloc, opened)
    }
}
