//! What an index keeps of its subblocks beside them, so that no edit has to go over them all.

ghost use Rattle.std.specs.Prelude.{◌≡◌, ◌+◌, ◌%◌, ◌^◌, ◌≤◌, ◌∷◌, ◌++◌, ℕ, List, [], map, length, OnOk, vec_len, vec_capacity};
ghost use Rattle.czi_machine.specs.Change.{changed, mapped};
ghost use Rattle.czi_image.specs.Change.{AreWithin, act_of};
ghost use Rattle.czi_image.specs.Summary.{Sums, entries_len, number_of};
ghost use Rattle.czi_image.specs.View.{tile_of};
ghost use Rattle.czi_image.specs.declared.types.Tile.{Tile};

use crate::applying::act_on;
use crate::change::Act;
use crate::types::Tile;
use czi_dv::entry_len;
use std::alloc::{AllocError, Global};

/// The summary of subblocks.
#[derive(Drop)]
pub(crate) struct Summary {
    /// The number of each one's key.
    pub(crate) numbers: Vec<u32>,
    /// How many bytes their directory entries have. It wraps, which it does for no list of 2^20 subblocks.
    pub(crate) entries_len: usize,
}

/// The same act on the numbers of keys.
fn number_act(act: &Act<Tile>) -> Act<u32>
    ensures act { act_of result ≡ mapped (λ t. number_of (tile_of t)) (act_of act.now) }
    ensures within { (n : ℕ) → AreWithin (act.now ∷ []) n → AreWithin (result ∷ []) n }
{
    match act {
        Act::Out(i) => Act::Out(*i),
        Act::Put(i, tile) => Act::Put(*i, tile.info.dims.key_number()),
        Act::Into(i, tile) => Act::Into(*i, tile.info.dims.key_number()),
    }
}

/// How many bytes the entries have after an act, from how many they have before it.
fn entries_len_after(len: usize, tiles: &[Tile], act: &Act<Tile>) -> usize
    requires within { AreWithin (act.now ∷ []) (length tiles.now) }
    requires len { len ≡ entries_len (map tile_of tiles.now) % 2 ^ 64 }
    ensures { result ≡ entries_len (map tile_of (changed (act_of act.now) tiles.now)) % 2 ^ 64 }
{
    match act {
        Act::Out(i) => len.wrapping_sub(entry_len(&tiles[*i].info)),
        Act::Put(i, tile) => len
            .wrapping_sub(entry_len(&tiles[*i].info))
            .wrapping_add(entry_len(&tile.info)),
        Act::Into(_, tile) => len.wrapping_add(entry_len(&tile.info)),
    }
}

impl Summary {
    /// That of no subblocks. It takes no memory.
    pub(crate) fn new(alloc: Global) -> Summary
        ensures { Sums result [] }
    {
        Summary {
            numbers: Vec::new(alloc),
            entries_len: 0,
        }
    }

    /// Goes on to one subblock more, the last.
    pub(crate) fn push(&mut self, tile: &Tile) -> Result<(), AllocError>
        ensures { OnOk result ((tiles : List Tile) → Sums self.old (map tile_of tiles) → Sums self.new (map tile_of (tiles ++ tile.now ∷ []))) }
    {
        self.numbers.push(tile.info.dims.key_number())?;
        self.entries_len = self.entries_len.wrapping_add(entry_len(&tile.info));
        Ok(())
    }

    /// Makes room for as many more subblocks. Else the summary stays as it was.
    pub(crate) fn reserve(&mut self, more: usize) -> Result<(), AllocError>
        ensures numbers { self.new.numbers.items ≡ self.old.numbers.items }
        ensures entries_len { self.new.entries_len ≡ self.old.entries_len }
        ensures room { OnOk result (vec_len self.new.numbers + more ≤ vec_capacity self.new.numbers) }
        ensures capacity { vec_capacity self.old.numbers ≤ vec_capacity self.new.numbers }
    {
        self.numbers.reserve(more)
    }

    /// Goes with an act on these subblocks, which is yet to be done.
    pub(crate) fn act(&mut self, tiles: &[Tile], act: &Act<Tile>)
        requires within { AreWithin (act.now ∷ []) (length tiles.now) }
        requires sums { Sums self.old (map tile_of tiles.now) }
        requires room { vec_len self.old.numbers + 1 ≤ vec_capacity self.old.numbers }
        ensures sums { Sums self.new (map tile_of (changed (act_of act.now) tiles.now)) }
        ensures capacity { vec_capacity self.new.numbers ≡ vec_capacity self.old.numbers }
        ensures len { vec_len self.new.numbers ≤ vec_len self.old.numbers + 1 }
    {
        self.entries_len = entries_len_after(self.entries_len, tiles, act);
        act_on(&mut self.numbers, number_act(act));
    }
}
