//! An index after a change.

ghost use Rattle.std.specs.Prelude.{◌≡◌, ◌+◌, ◌≤◌, ◌∷◌, [], length, map, vec_len, vec_capacity, OnOk};
ghost use Rattle.czi_machine.specs.Change.{changed, set};
ghost use Rattle.czi_machine.specs.LiveChange.{pointer};
ghost use Rattle.czi_num.specs.Span.{span_of};
ghost use Rattle.czi_image.specs.Applied.{CanChange, HasRoom, IsChanged, IsSame, KeepsRoom, directory_after, pointer_after, walk_end_after};
ghost use Rattle.czi_image.specs.Change.{AreWithin, act_of, acts_of, setting_of};
ghost use Rattle.czi_image.specs.Summary.{Sums};
ghost use Rattle.czi_image.specs.View.{meta_item_of, tile_of};

use crate::change::{Act, Change, DirectoryChange, Setting};
use crate::index::Index;
use crate::summary::Summary;
use crate::types::{DirItem, MetaItem, Tile};
use czi_num::{Span, round32};
use std::alloc::AllocError;

/// Does one act on a list that has room for one more item.
pub(crate) fn act_on<T: Drop>(items: &mut Vec<T>, act: Act<T>)
    requires within { AreWithin (act ∷ []) (length items.old.items) }
    requires room { vec_len items.old + 1 ≤ vec_capacity items.old }
    ensures items { items.new.items ≡ changed (act_of act) items.old.items }
    ensures capacity { vec_capacity items.new ≡ vec_capacity items.old }
    ensures len { vec_len items.new ≤ vec_len items.old + 1 }
{
    match act {
        Act::Out(i) => drop(items.remove(i)),
        Act::Put(i, item) => items[i] = item,
        Act::Into(i, item) => {
            let _ = items.insert(i, item);
        }
    }
}

/// Does acts one after another on a list that has room for as many more items.
fn act_all<T: Drop>(items: &mut Vec<T>, acts: Vec<Act<T>>)
    requires within { AreWithin acts.items (length items.old.items) }
    requires room { vec_len items.old + length acts.items ≤ vec_capacity items.old }
    ensures items { items.new.items ≡ changed (acts_of acts.items) items.old.items }
    ensures capacity { vec_capacity items.new ≡ vec_capacity items.old }
{
    for act in acts {
        act_on(items, act);
    }
}

/// Does acts one after another on subblocks and on their summary, which have room for as many more.
fn act_on_tiles(tiles: &mut Vec<Tile>, summary: &mut Summary, acts: Vec<Act<Tile>>)
    requires within { AreWithin acts.items (length tiles.old.items) }
    requires sums { Sums summary.old (map tile_of tiles.old.items) }
    requires room { vec_len tiles.old + length acts.items ≤ vec_capacity tiles.old }
    requires numbers { vec_len summary.old.numbers + length acts.items ≤ vec_capacity summary.old.numbers }
    ensures items { tiles.new.items ≡ changed (acts_of acts.items) tiles.old.items }
    ensures sums { Sums summary.new (map tile_of tiles.new.items) }
    ensures capacity { vec_capacity tiles.new ≡ vec_capacity tiles.old }
    ensures numbers { vec_capacity summary.new.numbers ≡ vec_capacity summary.old.numbers }
{
    for act in acts {
        summary.act(tiles, &act);
        act_on(tiles, act);
    }
}

/// Where the walk ends once the image has a length.
fn walk_end_after(index: &Index, length: u64) -> u64
    ensures { result ≡ walk_end_after index.now length }
{
    let goes_on = round32(index.walk_end) == round32(index.length);
    if goes_on && index.length < length {
        length
    } else {
        index.walk_end
    }
}

/// Changes a directory, and the pointer to it.
fn set_directory(change: DirectoryChange, directory: &mut Option<DirItem>, position: &mut i64)
    ensures directory { directory.new ≡ directory_after change directory.old }
    ensures position { position.new ≡ pointer_after change directory.old position.old }
{
    match change {
        DirectoryChange::Kept => {}
        DirectoryChange::Patched => {
            if let Some(own) = directory {
                *position = own.span.at as i64;
            }
        }
        DirectoryChange::New(new) => {
            *position = new.span.at as i64;
            *directory = Some(new);
        }
    }
}

/// Changes the metadata, and the pointer to them.
fn set_metadata(change: Setting<MetaItem>, metadata: &mut Option<MetaItem>, position: &mut i64)
    ensures metadata { metadata.new ≡ set (setting_of change) metadata.old }
    ensures position { position.new ≡ pointer (λ m. (meta_item_of m).segment) (setting_of change) position.old }
{
    match change {
        Setting::Same => {}
        Setting::To(None) => {
            *position = 0;
            *metadata = None;
        }
        Setting::To(Some(new)) => {
            *position = new.span.at as i64;
            *metadata = Some(new);
        }
    }
}

/// Puts spans in the place of others, where there is room for them.
fn replace_all(spans: &mut Vec<Span>, new: &[Span])
    requires { length new.now ≤ vec_capacity spans.old }
    ensures items { spans.new.items ≡ new.now }
    ensures capacity { vec_capacity spans.old ≤ vec_capacity spans.new }
{
    spans.clear();
    let _ = spans.extend_from_slice(new);
}

impl Index {
    /// Makes a change, in place. With it come the free extents and the image's length afterwards.
    ///
    /// It takes no memory, its lists keep theirs, and for each act it takes as many steps as items stand behind its place.
    pub fn apply(&mut self, change: Change, extents: &[Span], image_len: u64)
        requires can { CanChange change (map span_of extents.now) image_len self.old }
        requires room { HasRoom change (length extents.now) self.old }
        ensures changed { IsChanged change extents.now image_len self.old self.new }
        ensures keeps_room { KeepsRoom self.old self.new }
    {
        let Change {
            directory,
            tiles,
            attdir,
            attachments,
            metadata,
        } = change;
        self.walk_end = walk_end_after(self, image_len);
        self.length = image_len;
        set_directory(directory, &mut self.directory, &mut self.header.directory);
        act_on_tiles(&mut self.tiles, &mut self.summary, tiles);
        set_directory(attdir, &mut self.attdir, &mut self.header.attachments);
        act_all(&mut self.attachments, attachments);
        set_metadata(metadata, &mut self.metadata, &mut self.header.metadata);
        replace_all(&mut self.extents, extents);
    }

    /// Makes room for as many more subblocks, attachments and free extents. Else the index stays as it was. What room there was
    /// is kept either way.
    ///
    /// # Errors
    ///
    /// Where there is no memory for it.
    pub fn reserve(
        &mut self,
        tiles: usize,
        attachments: usize,
        extents: usize,
    ) -> Result<(), AllocError>
        ensures same { IsSame self.old self.new }
        ensures keeps_room { KeepsRoom self.old self.new }
        ensures tiles { OnOk result (vec_len self.new.tiles + tiles ≤ vec_capacity self.new.tiles) }
        ensures numbers { OnOk result (vec_len self.new.summary.numbers + tiles ≤ vec_capacity self.new.summary.numbers) }
        ensures attachments { OnOk result (vec_len self.new.attachments + attachments ≤ vec_capacity self.new.attachments) }
        ensures extents { OnOk result (vec_len self.new.extents + extents ≤ vec_capacity self.new.extents) }
    {
        self.tiles.reserve(tiles)?;
        self.summary.reserve(tiles)?;
        self.attachments.reserve(attachments)?;
        self.extents.reserve(extents)?;
        Ok(())
    }
}
