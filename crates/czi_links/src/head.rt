ghost use Rattle.std.specs.Prelude.{◌≡◌, ◌+◌, ◌^◌, ◌≤◌, [], length, drop, ◌++◌};
ghost use Rattle.czi_format.specs.Bytes.{put_at};
ghost use Rattle.czi_links.specs.Record.{record_of, spell_head, spelling};
ghost use Rattle.czi_links.specs.Reading.{Spells};

use crate::numbers::LEAST_LENGTH;
use czi_num::{write_bytes, write_u32, write_u64};
use std::alloc::AllocError;

/// The version of a record.
pub(crate) const VERSION: u32 = 1;

/// Bytes of a record before its links.
pub(crate) const RECORD_HEAD: usize = 32;

/// What a record says besides its links.
#[derive(Clone, Copy, PartialEq, Eq)]
pub struct SlotHead {
    /// The GUID in the file header of the image that the record is for, as it is stored there.
    pub guid: [u8; 16],
    /// The image's length in bytes once the record is committed.
    pub length: u64,
}

impl SlotHead {
    /// Writes the record of this head without links, 32 bytes, at the front of a slot. Read as a slot, with any
    /// bytes behind it, it gives the head again.
    pub fn encode(&self, slot: &mut [u8])
        requires room { 32 ≤ length slot.old }
        requires least { LEAST_LENGTH ≤ self.now.length }
        requires greatest { self.now.length ≤ 2 ^ 62 }
        ensures bytes { slot.new ≡ spelling (record_of self.now []) ++ drop 32 slot.old }
        ensures read_again { Spells (record_of self.now []) slot.new }
    {
        write_head(slot, self, 0);
    }
}

/// Writes the bytes of a record before its links.
pub(crate) fn write_head(out: &mut [u8], head: &SlotHead, count: u32)
    requires { 32 ≤ length out.old }
    ensures { out.new ≡ put_at out.old 0 (spell_head head.now.guid head.now.length count) }
{
    write_u32(out, 0, VERSION);
    write_bytes(out, 4, &head.guid);
    write_u64(out, 20, head.length);
    write_u32(out, 28, count);
}

/// Why a slot holds no record that can be read.
#[derive(Clone, Copy, PartialEq, Eq)]
pub enum LinkFault {
    /// The record has this version, which isn't 1.
    Version(u32),
    /// The field or the link at this place of the slot, in bytes, breaks the grammar, and no earlier one does.
    Bad(u64),
    /// There is no memory for the links.
    Memory,
}

impl From<AllocError> for LinkFault {
    ghost use Rattle.std.specs.Prelude.{◌≡◌};
    ghost use Rattle.czi_links.specs.declared.head.LinkFault.TheVariants.{Memory};

    ghost from_gives = { λ _ fault. fault ≡ Memory };

    fn from(_: AllocError) -> LinkFault {
        LinkFault::Memory
    }
}
