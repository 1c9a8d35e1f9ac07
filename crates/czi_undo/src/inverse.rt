//! What undoes a command.

ghost use Rattle.std.specs.Prelude.{◌≤◌, vec_len};

use crate::held::HeldSegment;
use czi_doc::{AttInfo, EntryInfo};

/// One inverse: what it does to the document. A place is one in the directory.
#[derive(Drop)]
pub enum Part {
    /// The subblock at a place goes.
    DropSub {
        place: u32,
    },
    /// A held subblock stands in the place of the one at a place.
    PutSub {
        place: u32,
        info: EntryInfo,
        held: HeldSegment,
    },
    /// A held subblock comes before the one at a place.
    InsertSub {
        place: u32,
        info: EntryInfo,
        held: HeldSegment,
    },
    /// The attachment at a place goes.
    DropAtt {
        place: u32,
    },
    /// A held attachment stands in the place of the one at a place.
    PutAtt {
        place: u32,
        info: AttInfo,
        held: HeldSegment,
    },
    /// A held attachment comes before the one at a place.
    InsertAtt {
        place: u32,
        info: AttInfo,
        held: HeldSegment,
    },
    /// There is no metadata any more.
    NoMeta,
    /// The metadata is a held segment.
    PutMeta {
        held: HeldSegment,
    },
    /// Nothing changes.
    Same,
}

/// What undoes one command: its inverses, in order, and how many edits they take back. A command is 1 to 64 edits, and has an
/// inverse at least, and at most as many as edits.
#[derive(Drop)]
pub struct Inverse {
    /// The inverses, each on the document that the one before gave.
    pub parts: Vec<Part>,
    /// How many edits the command was.
    pub edits: u32,
    pub ghost some: { 1 ≤ vec_len parts },
    pub ghost fewer: { vec_len parts ≤ edits },
    pub ghost most: { edits ≤ 64 },
}
