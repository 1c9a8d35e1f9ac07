//! What a command changes in an index.

use crate::types::{AttItem, DirItem, MetaItem, Tile};
use std::alloc::Global;

/// One act of a change of a list, on the list as the acts before it left it. An item that comes last comes into the
/// place behind all others.
#[derive(Drop)]
pub enum Act<T> {
    /// The item at a place goes.
    Out(usize),
    /// Another item stands in the place of the one at a place.
    Put(usize, T),
    /// One more item comes before the one at a place.
    Into(usize, T),
}

/// What becomes of a thing that there is at most one of.
#[derive(Drop)]
pub enum Setting<T> {
    /// It stays, or there is still none.
    Same,
    /// It is another one, or none, from now on.
    To(Option<T>),
}

/// What becomes of a directory.
#[derive(Clone, Copy, PartialEq, Eq)]
pub enum DirectoryChange {
    /// Nothing of it is written.
    Kept,
    /// It lists other items, and lies where it lay.
    Patched,
    /// Another one, which lists the items from now on.
    New(DirItem),
}

/// What a command changes: a list of subblocks, one of attachments, the metadata, and the directories that list them.
#[derive(Drop)]
pub struct Change {
    /// What becomes of the directory of subblocks.
    pub directory: DirectoryChange,
    /// The acts on the subblocks, in order.
    pub tiles: Vec<Act<Tile>>,
    /// What becomes of the directory of attachments.
    pub attdir: DirectoryChange,
    /// The acts on the attachments, in order.
    pub attachments: Vec<Act<AttItem>>,
    /// What becomes of the metadata.
    pub metadata: Setting<MetaItem>,
}

impl Change {
    ghost use Rattle.czi_image.specs.Change.{IsNone};

    /// A change of nothing. It takes no memory.
    pub fn new(alloc: Global) -> Change
        ensures { IsNone result }
    {
        Change {
            directory: DirectoryChange::Kept,
            tiles: Vec::new(alloc),
            attdir: DirectoryChange::Kept,
            attachments: Vec::new(alloc),
            metadata: Setting::Same,
        }
    }

    /// Takes everything out of the change. Its memory stays for the next one.
    pub fn clear(&mut self)
        ensures { IsNone self.new }
    {
        self.directory = DirectoryChange::Kept;
        self.tiles.clear();
        self.attdir = DirectoryChange::Kept;
        self.attachments.clear();
        self.metadata = Setting::Same;
    }
}
