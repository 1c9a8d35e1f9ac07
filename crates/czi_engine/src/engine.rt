//! The engine and what it shows.

ghost use Rattle.std.specs.Prelude.{◌≡◌, vec_len};
ghost use Rattle.czi_links.specs.declared.numbers.TheConstants.{SLOT_LEN};
ghost use Rattle.czi_engine.specs.UndoMemory.{CanUndo};

use crate::reserve::UndoMemory;
use czi_image::{Index, Tile};
use czi_journal::Journal;
use czi_plan::EditPlan;
use czi_region::Region;
use czi_space::Map;
use czi_undo::UndoList;
use std::alloc::Global;

/// What an engine stands on.
#[derive(Drop)]
pub(crate) struct EngineState {
    pub(crate) journal: Journal,
    pub(crate) index: Index,
    pub(crate) map: Map,
    /// What undoes the last 32 accepted edits, the newest first. The map holds back what they bring back.
    pub(crate) edits: UndoList,
    /// Memory for the undos of these edits: none of them takes any.
    pub(crate) undos: UndoMemory,
    pub(crate) number: u64,
    pub(crate) down: bool,
    pub ghost ready: { CanUndo down edits index map undos },
}

/// Memory that is kept from edit to edit, and where more of it comes from: the bytes of new segments, their plan, and a slot of the journal before it
/// is written.
#[derive(Drop)]
pub(crate) struct Scratch {
    pub(crate) alloc: Global,
    pub(crate) region: Region,
    pub(crate) plan: EditPlan,
    pub(crate) slot: Vec<u8>,
    pub ghost whole: { vec_len slot ≡ SLOT_LEN },
}

/// An image beside its journal, both opened on a rig. Every call that takes a rig is to be given the one on which the
/// engine was opened.
#[derive(Drop)]
pub struct Engine {
    pub(crate) state: EngineState,
    pub(crate) scratch: Scratch,
}

impl Engine {
    /// What the image holds, and where it lies.
    pub fn index(&self) -> &Index
        ensures { result.now ≡ self.now.state.index }
    {
        &self.state.index
    }

    /// The subblocks, in the order of the directory.
    pub fn entries(&self) -> &[Tile]
        ensures { result.now ≡ self.now.state.index.tiles.items }
    {
        &self.state.index.tiles
    }

    /// The map of free space.
    pub fn map(&self) -> &Map
        ensures { result.now ≡ self.now.state.map }
    {
        &self.state.map
    }

    /// The image's length, in bytes.
    pub fn length(&self) -> u64
        ensures { result ≡ self.now.state.index.length }
    {
        self.state.index.length
    }

    /// How many edits were accepted since the engine was opened first.
    pub fn number(&self) -> u64
        ensures { result ≡ self.now.state.number }
    {
        self.state.number
    }

    /// Whether a device failed in a call on this engine, or opening it again was refused, and it wasn't opened again
    /// since. Only `reopen` may be called then.
    pub fn down(&self) -> bool
        ensures { result ≡ self.now.state.down }
    {
        self.state.down
    }
}
