ghost use Rattle.std.specs.Prelude.{◌≡◌, ◌+◌, ◌-◌, ◌^◌, ◌<◌, ◌≤◌, ℕ, List, [], ◌∷◌, ◌++◌, length, max, sum_by, slice_get, Some, OnOk, OnErr};
ghost use Rattle.std.specs.Vec.{vec_len, vec_capacity};
ghost use Rattle.czi_links.specs.Record.{AreRising, EndWithin, encoded_len, next_place, record_of, spelling};
ghost use Rattle.czi_links.specs.Reading.{Spells};

use crate::head::{RECORD_HEAD, SlotHead, write_head};
use crate::numbers::{FIRST_PLACE, LEAST_LENGTH, SLOT_LEN};
use czi_num::write_bytes;
use std::alloc::{AllocError, Global};
use std::marker::Model;

/// Bytes of a link before its own: its place and their number.
pub(crate) const LINK_HEAD: usize = 12;

/// The most bytes that links and their heads may take, so that each number of bytes fits its field.
const MOST: usize = 0xffff_ffff;

/// A link whose bytes stand in the block.
#[derive(Clone, Copy)]
struct Entry {
    place: u64,
    at: usize,
    len: usize,
}

/// Links: bytes that are to be written over an image, each at its place. Each has a byte at least, begins at
/// place 84 or later and at or past the end of the link before.
///
/// They stand in one block of memory, as a record spells them. Room is made by `reserve`; the other calls
/// take no memory.
#[derive(Drop)]
pub struct Links {
    entries: Vec<Entry>,
    block: Vec<u8>,
    spare_links: usize,
    spare_bytes: usize,
}

impl Model for Links {
    ghost use Rattle.std.specs.Prelude.{◌<◌, ◌+◌, ◌^◌};
    ghost use Rattle.std.specs.Vec.{vec_len, vec_capacity};
    ghost use Rattle.czi_links.specs.WriteSet.{WriteSet, IsWholeBlock, HasRoom, block_bytes, links_in};

    ghost Value = { WriteSet };

    ghost view = { λ s. record { links = links_in s.block.items s.entries.items; spare_links = s.spare_links; spare_bytes = s.spare_bytes } };

    ghost invariant = { λ s. IsWholeBlock s.block.items s.entries.items
        × HasRoom (vec_len s.entries) s.spare_links (vec_capacity s.entries)
        × HasRoom (vec_len s.block) (block_bytes s.spare_links s.spare_bytes) (vec_capacity s.block)
        × (vec_len s.block + block_bytes s.spare_links s.spare_bytes < 2 ^ 32) };
}

impl Links {
    /// No links, and no room for any.
    pub fn new(alloc: Global) -> Links
        ensures { result ≡ record { links = []; spare_links = 0; spare_bytes = 0 } }
    {
        Links {
            entries: Vec::new(alloc),
            block: Vec::new(alloc),
            spare_links: 0,
            spare_bytes: 0,
        }
    }

    /// Makes room for so many more links, with so many more bytes in all. Room that is there already counts.
    pub fn reserve(&mut self, links: usize, bytes: usize) -> Result<(), AllocError>
        ensures ok { OnOk result (self.new ≡ record self.old { spare_links = max links self.old.spare_links; spare_bytes = max bytes self.old.spare_bytes }) }
        ensures err { OnErr result (self.new ≡ self.old) }
    {
        let links = links.max(self.spare_links);
        let bytes = bytes.max(self.spare_bytes);
        if links > MOST || bytes > MOST {
            return Err(AllocError);
        }
        let needed = LINK_HEAD * links + bytes;
        if needed > MOST - self.block.len() {
            return Err(AllocError);
        }
        self.entries.reserve(links)?;
        self.block.reserve(needed)?;
        self.spare_links = links;
        self.spare_bytes = bytes;
        Ok(())
    }

    /// Puts a link behind the others.
    pub fn push(&mut self, place: u64, bytes: &[u8])
        requires spare { 1 ≤ self.old.spare_links }
        requires room { length bytes.now ≤ self.old.spare_bytes }
        requires some { 1 ≤ length bytes.now }
        requires rising { next_place FIRST_PLACE self.old.links ≤ place }
        ensures { self.new ≡ record { links = self.old.links ++ record { place = place; bytes = bytes.now } ∷ []; spare_links = self.old.spare_links - 1; spare_bytes = self.old.spare_bytes - length bytes.now } }
    {
        let at = self.block.len() + LINK_HEAD;
        let len = bytes.len();
        append(&mut self.block, &place.to_le_bytes());
        append(&mut self.block, &(len as u32).to_le_bytes());
        append(&mut self.block, bytes);
        add(&mut self.entries, Entry { place, at, len });
        self.spare_links -= 1;
        self.spare_bytes -= len;
    }

    /// How many bytes the record of the links has.
    pub fn encoded_len(&self) -> usize
        ensures { result ≡ encoded_len self.now.links }
    {
        RECORD_HEAD + self.block.len()
    }

    /// Writes the record of the links and the head. Read as a slot, with any bytes behind it, it gives them again.
    pub fn encode(&self, head: &SlotHead, out: &mut [u8])
        requires whole { length out.old ≡ encoded_len self.now.links }
        requires fits { length out.old ≤ SLOT_LEN }
        requires least { LEAST_LENGTH ≤ head.now.length }
        requires greatest { head.now.length ≤ 2 ^ 62 }
        requires ends { EndWithin head.now.length self.now.links }
        ensures bytes { out.new ≡ spelling (record_of head.now self.now.links) }
        ensures read_again { Spells (record_of head.now self.now.links) out.new }
    {
        write_head(out, head, self.entries.len() as u32);
        write_bytes(out, RECORD_HEAD, &self.block);
    }

    /// Takes all links out. Their room is free again.
    pub fn clear(&mut self)
        ensures { self.new ≡ record { links = []; spare_links = self.old.spare_links + length self.old.links; spare_bytes = self.old.spare_bytes + sum_by (λ l. length l.bytes) self.old.links } }
    {
        self.spare_links += self.entries.len();
        self.spare_bytes += self.block.len() - LINK_HEAD * self.entries.len();
        self.entries.clear();
        self.block.clear();
    }

    /// How many links there are.
    pub fn count(&self) -> usize
        ensures count { result ≡ length self.now.links }
        ensures rising { AreRising FIRST_PLACE self.now.links }
    {
        self.entries.len()
    }

    /// The place and the bytes of a link, counted from 0.
    pub fn link(&self, i: usize) -> (u64, &[u8])
        requires { i < length self.now.links }
        ensures { slice_get self.now.links i ≡ Some (record { place = result.0; bytes = result.1.now }) }
    {
        let entry = self.entries[i];
        (entry.place, &self.block[entry.at..entry.at + entry.len])
    }
}

/// Puts bytes at the end of a block that has the room.
fn append(block: &mut Vec<u8>, bytes: &[u8])
    requires { vec_len block.old + length bytes.now ≤ vec_capacity block.old }
    ensures items { block.new.items ≡ block.old.items ++ bytes.now }
    ensures len { vec_len block.new ≡ vec_len block.old + length bytes.now }
    ensures capacity { vec_capacity block.old ≤ vec_capacity block.new }
{
    let _ = block.extend_from_slice(bytes);
}

/// Puts an entry at the end of a list that has the room.
fn add(entries: &mut Vec<Entry>, entry: Entry)
    requires { vec_len entries.old < vec_capacity entries.old }
    ensures items { entries.new.items ≡ entries.old.items ++ entry ∷ [] }
    ensures len { vec_len entries.new ≡ vec_len entries.old + 1 }
    ensures capacity { vec_capacity entries.old ≤ vec_capacity entries.new }
{
    let _ = entries.push(entry);
}
