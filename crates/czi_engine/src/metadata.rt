//! The edit of the metadata.

ghost use Rattle.std.specs.Prelude.{◌≡◌, IsFalse};
ghost use Rattle.czi_machine.specs.Edit.{set_meta};
ghost use Rattle.czi_machine.specs.Machine.{after_edit};
ghost use Rattle.czi_plan.specs.Attaching.{metadata_in};
ghost use Rattle.czi_engine.specs.Edited.{Edits};
ghost use Rattle.czi_engine.specs.Standing.{StandsOnRig};

use crate::engine::Engine;
use crate::error::EditError;
use czi_rig::Rig;

impl Engine {
    /// Sets the metadata to this XML and this attachment, and answers how many edits were accepted.
    ///
    /// All memory is taken before the first write. The new segment goes where it fits first, into free space or past the
    /// length. The old one, where there is one, is marked DELETED, and its bytes are held back. No directory changes.
    ///
    /// # Errors
    ///
    /// `TooLong` exactly where the XML has more than 2^24 bytes, or else the attachment more than 2^26; then `Full` exactly
    /// where the segment has no place; then `Memory`. After these both files and the engine are as before. After a device's
    /// fault the engine is down.
    pub fn set_meta<R: Rig>(
        &mut self,
        rig: &mut R,
        xml: &[u8],
        tail: &[u8],
    ) -> Result<u64, EditError>
        requires stands { StandsOnRig (R.state rig.old) self.old.state }
        requires up { IsFalse self.old.state.down }
        ensures { Edits R.Rig (λ s. after_edit s (set_meta (metadata_in xml.now tail.now))) rig.old rig.new self.old.state self.new.state result }
    {
        let prepared = self.prepare_metadata(xml, tail);
        self.edit(rig, prepared)
    }
}
