//! Opening an engine, opening it again, and closing it.

ghost use Rattle.std.specs.Prelude.{◌≡◌, [], Err, List, ℕ, map, true, false, IfOk, IfErr, OnOk, OnErr, IsFalse};
ghost use Rattle.std.specs.Option.{ForSome};
ghost use Rattle.czi_journal.specs.Journals.{SaysAsBeforeOrVoid, slot_of};
ghost use Rattle.czi_links.specs.Reading.{Void};
ghost use Rattle.czi_num.specs.Span.{span_of};
ghost use Rattle.czi_opening.specs.Answers.{AreRecovered, Tells};
ghost use Rattle.czi_opening.specs.Devices.{open_device};
ghost use Rattle.czi_opening.specs.Course.{OpensFrom, Stays};
ghost use Rattle.czi_rig.specs.Disk.{Everywhere, IsAtRest, Left};
ghost use Rattle.czi_rig.specs.State.{LeavesOther, known, seen_of};
ghost use Rattle.czi_rig.specs.Passes.{GoesOn};
ghost use Rattle.czi_rig.specs.Faults.{Faults, device_of, failed_at, fault_at};
ghost use Rattle.czi_rig.specs.Moments.{devices, Throughout, FromSomeMoment};
ghost use Rattle.czi_rig.specs.Quiet.{Untouched};
ghost use Rattle.czi_space.specs.State.{Has};
ghost use Rattle.czi_vault.specs.Recovered.{Recovered};
ghost use Rattle.czi_engine.specs.Standing.{IsOf, IsOpened, StandsOnRig};

use crate::engine::{Engine, EngineState, Scratch};
use crate::reserve::UndoMemory;
use czi_image::Index;
use czi_links::SLOT_LEN;
use czi_opening::{OpenError, Opened, close, open};
use czi_plan::EditPlan;
use czi_region::Region;
use czi_rig::{Failed, File, Rig};
use czi_space::Map;
use czi_undo::UndoList;
use std::alloc::{AllocError, Global};

/// The map of an index. No span is held back.
fn map_of(alloc: Global, index: &Index) -> Result<Map, AllocError>
    ensures { IfOk result (λ m. Has m (map span_of index.now.extents.items) [] index.now.length) }
{
    let extents = index.extents.as_slice().to_vec(alloc)?;
    Ok(Map::of_runs(alloc, extents, index.length))
}

impl Engine {
    /// Opens an image beside its journal: syncs both files, makes the image the recovered one where the journal
    /// counts, and reads its index. The journal isn't written.
    ///
    /// # Errors
    ///
    /// After one of the first four nothing was written, and both files are synced. After `Refused` the image is the
    /// recovered one. After the others each pair of files that a crash leaves stands for what they stood for.
    pub fn open<R: Rig>(alloc: Global, rig: &mut R) -> Result<Engine, OpenError>
        // The image becomes what both files stood for, the journal stays. Both are on the disk, and the engine stands on them.
        ensures recovered { OnOk result (ForSome (seen_of (R.state rig.old) File.Image) (λ image. ForSome (seen_of (R.state rig.old) File.Journal) (λ journal.
            AreRecovered image journal (R.state rig.new)))) }
        ensures stands { IfOk result (λ e. StandsOnRig (R.state rig.new) e.state) }
        ensures fresh { IfOk result (λ e. IsOpened (R.state rig.new) e.state) }
        ensures up { IfOk result (λ e. e.state.down ≡ false) }
        ensures no_edits { IfOk result (λ e. (e.state.edits ≡ []) × (e.state.number ≡ 0)) }
        // A refusal tells its cause; there is one exactly where the files don't open.
        ensures refused { IfErr result (λ error. ForSome (seen_of (R.state rig.old) File.Image) (λ image. ForSome (seen_of (R.state rig.old) File.Journal) (λ journal.
            Tells image journal (R.state rig.new) error))) }
        // Until both files are synced nothing is left that the start couldn't leave. From then on each pair stands for what the start did.
        ensures moments { OnOk result (ForSome (devices (R.state rig.old)) (λ all. FromSomeMoment R.Rig rig.old rig.new (Stays all))) }
        ensures meanwhile { IfErr result (λ error. ForSome (devices (R.state rig.old)) (λ all. OpensFrom R.Rig rig.old rig.new (Stays all) (Err error))) }
        ensures journal { seen_of (R.state rig.new) File.Journal ≡ seen_of (R.state rig.old) File.Journal }
        ensures said { (R.state rig.new).said ≡ (R.state rig.old).said }
        ensures goes_on { GoesOn (R.state rig.old) (R.state rig.new) }
        ensures cause { Faults (fault_at open_device result) (R.state rig.old) (R.state rig.new) }
    {
        let opened = open(alloc, rig)?;
        match Engine::of(alloc, opened) {
            Ok(engine) => Ok(engine),
            Err(AllocError) => Err(OpenError::Memory),
        }
    }

    /// The engine of files that were opened.
    pub(crate) fn of(alloc: Global, opened: Opened) -> Result<Engine, AllocError>
        ensures of { IfOk result (λ e. IsOf opened e.state) }
        ensures up { IfOk result (λ e. e.state.down ≡ false) }
        ensures no_edits { IfOk result (λ e. (e.state.edits ≡ []) × (e.state.number ≡ 0)) }
    {
        let map = map_of(alloc, &opened.index)?;
        let slot = vec![in alloc; 0u8; SLOT_LEN]?;
        let edits = UndoList::new(alloc)?;
        let state = EngineState {
            journal: opened.journal,
            index: opened.index,
            map,
            edits,
            undos: UndoMemory::new(alloc),
            number: 0,
            down: false,
        };
        let scratch = Scratch {
            alloc,
            region: Region::new(alloc),
            plan: EditPlan::new(alloc),
            slot,
        };
        Ok(Engine { state, scratch })
    }

    /// Opens the image beside its journal again, as `open` does. No edit holds a span back any more.
    ///
    /// # Errors
    ///
    /// Those of `open`. The engine is then down.
    pub fn reopen<R: Rig>(&mut self, rig: &mut R) -> Result<(), OpenError>
        ensures recovered { OnOk result (ForSome (seen_of (R.state rig.old) File.Image) (λ image. ForSome (seen_of (R.state rig.old) File.Journal) (λ journal.
            AreRecovered image journal (R.state rig.new)))) }
        ensures stands { OnOk result (StandsOnRig (R.state rig.new) self.new.state) }
        ensures fresh { OnOk result (IsOpened (R.state rig.new) self.new.state) }
        ensures up { OnOk result (self.new.state.down ≡ false) }
        ensures down { OnErr result (self.new.state.down ≡ true) }
        ensures no_edits { OnOk result (self.new.state.edits ≡ []) }
        ensures number { self.new.state.number ≡ self.old.state.number }
        ensures refused { IfErr result (λ error. ForSome (seen_of (R.state rig.old) File.Image) (λ image. ForSome (seen_of (R.state rig.old) File.Journal) (λ journal.
            Tells image journal (R.state rig.new) error))) }
        ensures moments { OnOk result (ForSome (devices (R.state rig.old)) (λ all. FromSomeMoment R.Rig rig.old rig.new (Stays all))) }
        ensures meanwhile { IfErr result (λ error. ForSome (devices (R.state rig.old)) (λ all. OpensFrom R.Rig rig.old rig.new (Stays all) (Err error))) }
        ensures said { (R.state rig.new).said ≡ (R.state rig.old).said }
        ensures goes_on { GoesOn (R.state rig.old) (R.state rig.new) }
        ensures cause { Faults (fault_at open_device result) (R.state rig.old) (R.state rig.new) }
    {
        self.state.down = true;
        let again = open(self.scratch.alloc, rig)?;
        match self.restart(again) {
            Ok(()) => Ok(()),
            Err(AllocError) => Err(OpenError::Memory),
        }
    }

    /// Goes on with files that were opened again.
    fn restart(&mut self, opened: Opened) -> Result<(), AllocError>
        ensures of { OnOk result (IsOf opened self.new.state) }
        ensures up { OnOk result (self.new.state.down ≡ false) }
        ensures no_edits { OnOk result (self.new.state.edits ≡ []) }
        ensures number { self.new.state.number ≡ self.old.state.number }
        ensures same { OnErr result (self.new ≡ self.old) }
    {
        let map = map_of(self.scratch.alloc, &opened.index)?;
        let state = &mut self.state;
        state.map = map;
        state.index = opened.index;
        state.journal = opened.journal;
        state.edits.clear();
        state.down = false;
        Ok(())
    }

    /// Closes both files: makes an armed journal void; it is then one byte long. It does nothing to one that isn't
    /// armed.
    ///
    /// # Errors
    ///
    /// `Failed` where a call on the journal failed. A later opening gives the same document.
    pub fn seal<R: Rig>(self, rig: &mut R) -> Result<(), Failed>
        requires stands { StandsOnRig (R.state rig.old) self.state }
        requires up { IsFalse self.state.down }

        // Each pair of files that a crash leaves stands for the image.
        ensures moments { ForSome (devices (R.state rig.old)) (λ all. Throughout R.Rig rig.old rig.new (λ image journal said. Recovered image journal all.image.seen × (said ≡ all.said))) }
        // The journal says what it said, or is void; the image is left alone.
        ensures leaves { ForSome (devices (R.state rig.old)) (λ all. Throughout R.Rig rig.old rig.new (λ image journal said.
            Left all.image.durable image × SaysAsBeforeOrVoid all.journal.durable journal × (said ≡ all.said))) }
        ensures closed { OnOk result (ForSome (known (R.state rig.new) File.Journal) (Everywhere (λ bytes. slot_of bytes ≡ Void))) }
        ensures synced { OnOk result (ForSome (known (R.state rig.new) File.Journal) IsAtRest) }
        ensures idle { self.state.journal.armed ≡ false → Untouched R.Rig rig.old rig.new }
        ensures other { LeavesOther File.Journal (R.state rig.old) (R.state rig.new) }
        ensures goes_on { GoesOn (R.state rig.old) (R.state rig.new) }
        ensures cause { Faults (failed_at result (device_of File.Journal)) (R.state rig.old) (R.state rig.new) }
    {
        close(rig, self.state.journal)
    }
}
