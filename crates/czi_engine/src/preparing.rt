//! Preparing an edit: what refuses it, or its plan, with all memory for it. The answer is what undoes it.

ghost use Rattle.czi_doc.specs.View.{dims_of};
ghost use Rattle.czi_machine.specs.Edit.{add, attach, detach, reattach, remove, replace, set_meta};
ghost use Rattle.czi_machine.specs.Machine.{after_edit};
ghost use Rattle.czi_plan.specs.Attaching.{attachment_in, metadata_in};
ghost use Rattle.czi_plan.specs.Bringing.{subblock_in};
ghost use Rattle.czi_engine.specs.Prepared.{Prepares};
ghost use Rattle.czi_engine.specs.Standing.{FewKept, HasItsMap};

use crate::engine::Engine;
use crate::error::EditError;
use crate::limits::{check_attachment, check_known, check_metadata, check_new, check_subblock};
use crate::planning::{Contents, Task};
use czi_doc::{AttInfo, Dims, EntryInfo};
use czi_format::{MOST_ATTACHMENTS, MOST_SUBBLOCKS};
use czi_plan::{attachment_key, attachment_with, tile_with};
use czi_undo::Inverse;

impl Engine {
    /// Prepares a new subblock.
    pub(crate) fn prepare_addition(
        &mut self,
        info: &EntryInfo,
        meta: &[u8],
        pixels: &[u8],
        tail: &[u8],
    ) -> Result<Inverse, EditError>
        requires own_map { HasItsMap self.old.state }
        requires few { FewKept self.old.state.edits }
        ensures { Prepares (λ s. after_edit s (add (subblock_in info.now meta.now pixels.now tail.now))) self.old self.new result }
    {
        check_subblock(meta, pixels, tail)?;
        let there = tile_with(&self.state.index, &info.dims);
        check_new(there, self.state.index.tiles.len(), MOST_SUBBLOCKS)?;
        self.prepare(Task::Add(Contents {
            info,
            meta,
            pixels,
            tail,
        }))
    }

    /// Prepares a subblock in the place of the one that has its key.
    pub(crate) fn prepare_replacement(
        &mut self,
        info: &EntryInfo,
        meta: &[u8],
        pixels: &[u8],
        tail: &[u8],
    ) -> Result<Inverse, EditError>
        requires own_map { HasItsMap self.old.state }
        requires few { FewKept self.old.state.edits }
        ensures { Prepares (λ s. after_edit s (replace (subblock_in info.now meta.now pixels.now tail.now))) self.old self.new result }
    {
        check_subblock(meta, pixels, tail)?;
        let place = check_known(tile_with(&self.state.index, &info.dims))?;
        self.prepare(Task::Replace(
            place,
            Contents {
                info,
                meta,
                pixels,
                tail,
            },
        ))
    }

    /// Prepares the removal of a subblock.
    pub(crate) fn prepare_removal(&mut self, dims: &Dims) -> Result<Inverse, EditError>
        requires own_map { HasItsMap self.old.state }
        requires few { FewKept self.old.state.edits }
        ensures { Prepares (λ s. after_edit s (remove (dims_of dims.now))) self.old self.new result }
    {
        let place = check_known(tile_with(&self.state.index, dims))?;
        self.prepare(Task::Remove(place))
    }

    /// Prepares a new attachment.
    pub(crate) fn prepare_attachment(
        &mut self,
        info: &AttInfo,
        bytes: &[u8],
    ) -> Result<Inverse, EditError>
        requires own_map { HasItsMap self.old.state }
        requires few { FewKept self.old.state.edits }
        ensures { Prepares (λ s. after_edit s (attach (attachment_in info.now bytes.now))) self.old self.new result }
    {
        check_attachment(bytes)?;
        let there = attachment_with(&self.state.index, attachment_key(info));
        check_new(there, self.state.index.attachments.len(), MOST_ATTACHMENTS)?;
        self.prepare(Task::Attach(info, bytes))
    }

    /// Prepares an attachment in the place of the one that has its name.
    pub(crate) fn prepare_reattachment(
        &mut self,
        info: &AttInfo,
        bytes: &[u8],
    ) -> Result<Inverse, EditError>
        requires own_map { HasItsMap self.old.state }
        requires few { FewKept self.old.state.edits }
        ensures { Prepares (λ s. after_edit s (reattach (attachment_in info.now bytes.now))) self.old self.new result }
    {
        check_attachment(bytes)?;
        let place = check_known(attachment_with(&self.state.index, attachment_key(info)))?;
        self.prepare(Task::Reattach(place, info, bytes))
    }

    /// Prepares the removal of an attachment.
    pub(crate) fn prepare_detachment(&mut self, name: &[u8]) -> Result<Inverse, EditError>
        requires own_map { HasItsMap self.old.state }
        requires few { FewKept self.old.state.edits }
        ensures { Prepares (λ s. after_edit s (detach name.now)) self.old self.new result }
    {
        let place = check_known(attachment_with(&self.state.index, name))?;
        self.prepare(Task::Detach(place))
    }

    /// Prepares new metadata.
    pub(crate) fn prepare_metadata(&mut self, xml: &[u8], tail: &[u8]) -> Result<Inverse, EditError>
        requires own_map { HasItsMap self.old.state }
        requires few { FewKept self.old.state.edits }
        ensures { Prepares (λ s. after_edit s (set_meta (metadata_in xml.now tail.now))) self.old self.new result }
    {
        check_metadata(xml, tail)?;
        self.prepare(Task::SetMeta(xml, tail))
    }
}
