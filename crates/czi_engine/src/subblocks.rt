//! The edits of subblocks.

ghost use Rattle.std.specs.Prelude.{◌≡◌, IsFalse};
ghost use Rattle.czi_doc.specs.View.{dims_of};
ghost use Rattle.czi_machine.specs.Edit.{add, remove, replace};
ghost use Rattle.czi_machine.specs.Machine.{after_edit};
ghost use Rattle.czi_plan.specs.Bringing.{subblock_in};
ghost use Rattle.czi_engine.specs.Edited.{Edits};
ghost use Rattle.czi_engine.specs.Standing.{StandsOnRig};

use crate::engine::Engine;
use crate::error::EditError;
use czi_doc::{Dims, EntryInfo};
use czi_rig::Rig;

impl Engine {
    /// Adds a subblock behind all others, and answers how many edits were accepted. It has this entry, this metadata, these
    /// pixels and this attachment.
    ///
    /// All memory is taken before the first write. The subblock's segment goes where it fits first, into free space or past the
    /// length. The directory is changed in place where it has room for the entry, and else a new one, with room for more, is
    /// written.
    ///
    /// # Errors
    ///
    /// `TooLong` exactly where a piece is past its limit, for the first one; then `Duplicate` exactly where a subblock has the
    /// key, with the place of the first; then `TooMany` exactly where there are 2^20 subblocks; then `Full` exactly where the
    /// subblock or a new directory has no place; then `Memory`. After these both files and the engine are as before. After a
    /// device's fault the engine is down.
    pub fn add<R: Rig>(
        &mut self,
        rig: &mut R,
        info: &EntryInfo,
        meta: &[u8],
        pixels: &[u8],
        tail: &[u8],
    ) -> Result<u64, EditError>
        requires stands { StandsOnRig (R.state rig.old) self.old.state }
        requires up { IsFalse self.old.state.down }
        ensures { Edits R.Rig (λ s. after_edit s (add (subblock_in info.now meta.now pixels.now tail.now))) rig.old rig.new self.old.state self.new.state result }
    {
        let prepared = self.prepare_addition(info, meta, pixels, tail);
        self.edit(rig, prepared)
    }

    /// Puts a subblock into the place of the first one that has its key, and answers how many edits were accepted.
    ///
    /// All memory is taken before the first write. The new segment goes where it fits first, as that of `add`; the old one is
    /// marked DELETED, and its bytes are held back. The directory is changed in place where the new entries fit into it and few
    /// of them move, and else a new one is written.
    ///
    /// # Errors
    ///
    /// `TooLong` exactly where a piece is past its limit, for the first one; then `NoKey` exactly where no subblock has the key;
    /// then `Full` exactly where the subblock or a new directory has no place; then `Memory`. After these both files and the
    /// engine are as before. After a device's fault the engine is down.
    pub fn replace<R: Rig>(
        &mut self,
        rig: &mut R,
        info: &EntryInfo,
        meta: &[u8],
        pixels: &[u8],
        tail: &[u8],
    ) -> Result<u64, EditError>
        requires stands { StandsOnRig (R.state rig.old) self.old.state }
        requires up { IsFalse self.old.state.down }
        ensures { Edits R.Rig (λ s. after_edit s (replace (subblock_in info.now meta.now pixels.now tail.now))) rig.old rig.new self.old.state self.new.state result }
    {
        let prepared = self.prepare_replacement(info, meta, pixels, tail);
        self.edit(rig, prepared)
    }

    /// Removes the first subblock that has the key of these dimensions, and answers how many edits were accepted.
    ///
    /// All memory is taken before the first write. The directory is changed in place where the entries that are left fit
    /// into it and few of them move, and else a new one is written into free space, or past the length. The subblock's
    /// segment is marked DELETED, and its bytes are held back.
    ///
    /// # Errors
    ///
    /// `NoKey` exactly where no subblock has the key; then `Full` exactly where a new directory has no place; then
    /// `Memory`. After these three both files and the engine are as before. After a device's fault the engine is down.
    pub fn remove<R: Rig>(&mut self, rig: &mut R, dims: &Dims) -> Result<u64, EditError>
        requires stands { StandsOnRig (R.state rig.old) self.old.state }
        requires up { IsFalse self.old.state.down }
        ensures { Edits R.Rig (λ s. after_edit s (remove (dims_of dims.now))) rig.old rig.new self.old.state self.new.state result }
    {
        let prepared = self.prepare_removal(dims);
        self.edit(rig, prepared)
    }
}
