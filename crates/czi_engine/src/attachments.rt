//! The edits of attachments.

ghost use Rattle.std.specs.Prelude.{◌≡◌, IsFalse};
ghost use Rattle.czi_machine.specs.Edit.{attach, detach, reattach};
ghost use Rattle.czi_machine.specs.Machine.{after_edit};
ghost use Rattle.czi_plan.specs.Attaching.{attachment_in};
ghost use Rattle.czi_engine.specs.Edited.{Edits};
ghost use Rattle.czi_engine.specs.Standing.{StandsOnRig};

use crate::engine::Engine;
use crate::error::EditError;
use czi_doc::AttInfo;
use czi_rig::Rig;

impl Engine {
    /// Adds an attachment behind all others, and answers how many edits were accepted. It has this entry and these bytes.
    ///
    /// All memory is taken before the first write. The attachment's segment goes where it fits first, into free space or past
    /// the length. The attachment directory is changed in place where it has room for the entry, and else a new one, with room
    /// for more, is written.
    ///
    /// # Errors
    ///
    /// `TooLong` exactly where there are more than 2^26 bytes; then `Duplicate` exactly where an attachment has the name, with
    /// the place of the first; then `TooMany` exactly where there are 2^12 attachments; then `Full` exactly where the
    /// attachment or a new attachment directory has no place; then `Memory`. After these both files and the engine are as
    /// before. After a device's fault the engine is down.
    pub fn attach<R: Rig>(
        &mut self,
        rig: &mut R,
        info: &AttInfo,
        bytes: &[u8],
    ) -> Result<u64, EditError>
        requires stands { StandsOnRig (R.state rig.old) self.old.state }
        requires up { IsFalse self.old.state.down }
        ensures { Edits R.Rig (λ s. after_edit s (attach (attachment_in info.now bytes.now))) rig.old rig.new self.old.state self.new.state result }
    {
        let prepared = self.prepare_attachment(info, bytes);
        self.edit(rig, prepared)
    }

    /// Puts an attachment into the place of the first one that has its name, and answers how many edits were accepted.
    ///
    /// All memory is taken before the first write. The new segment goes where it fits first, as that of `attach`; the old one is
    /// marked DELETED, and its bytes are held back. The attachment directory is changed in place where there is one with room,
    /// and else a new one is written.
    ///
    /// # Errors
    ///
    /// `TooLong` exactly where there are more than 2^26 bytes; then `NoKey` exactly where no attachment has the name; then
    /// `Full` exactly where the attachment or a new attachment directory has no place; then `Memory`. After these both files
    /// and the engine are as before. After a device's fault the engine is down.
    pub fn reattach<R: Rig>(
        &mut self,
        rig: &mut R,
        info: &AttInfo,
        bytes: &[u8],
    ) -> Result<u64, EditError>
        requires stands { StandsOnRig (R.state rig.old) self.old.state }
        requires up { IsFalse self.old.state.down }
        ensures { Edits R.Rig (λ s. after_edit s (reattach (attachment_in info.now bytes.now))) rig.old rig.new self.old.state self.new.state result }
    {
        let prepared = self.prepare_reattachment(info, bytes);
        self.edit(rig, prepared)
    }

    /// Removes the first attachment that has this name, without the zero bytes behind it, and answers how many edits were
    /// accepted.
    ///
    /// All memory is taken before the first write. The attachment directory is changed in place where the entries that are
    /// left fit into it and few of them move, and else a new one is written into free space, or past the length. The
    /// attachment's segment is marked DELETED, and its bytes are held back.
    ///
    /// # Errors
    ///
    /// `NoKey` exactly where no attachment has the name; then `Full` exactly where a new attachment directory has no place;
    /// then `Memory`. After these three both files and the engine are as before. After a device's fault the engine is down.
    pub fn detach<R: Rig>(&mut self, rig: &mut R, name: &[u8]) -> Result<u64, EditError>
        requires stands { StandsOnRig (R.state rig.old) self.old.state }
        requires up { IsFalse self.old.state.down }
        ensures { Edits R.Rig (λ s. after_edit s (detach name.now)) rig.old rig.new self.old.state self.new.state result }
    {
        let prepared = self.prepare_detachment(name);
        self.edit(rig, prepared)
    }
}
