//! The entries that a directory of subblocks has after an act, and how long they are.

ghost use Rattle.std.specs.Prelude.{◌≡◌, ◌+◌, ◌-◌, ◌*◌, ◌^◌, ◌<◌, ◌≤◌, ◌∷◌, [], List, length, map, sum, take, drop};
ghost use Rattle.czi_format.specs.Entry.{Entry, entry_len};
ghost use Rattle.czi_image.specs.Change.{AreWithin};
ghost use Rattle.czi_plan.specs.Changing.{back_entries, front_entries, middle_entries, tiles_before, tiles_behind, tiles_brought, tiles_leaving};
ghost use Rattle.czi_plan.specs.Listing.{AreSizes, sizes_with};
ghost use Rattle.czi_plan.specs.Directory.{back_of, entries_of, listed_back, listed_front, listed_middle, middle_of};
ghost use Rattle.czi_plan.specs.Kind.{of_subblocks};

use czi_dv::entry_len;
use czi_format::{DIRECTORY_FRONT, LONGEST_ENTRY, MOST_SUBBLOCKS};
use czi_image::{Act, Tile};
use std::slice;

/// How long the parts of a directory's data are, in bytes.
#[derive(Clone, Copy, PartialEq, Eq)]
pub struct Sizes {
    /// What the data begins with, and the entries in front, which stay.
    pub front: usize,
    /// The entries that are written where the directory is changed in place.
    pub middle: usize,
    /// The entries behind them, which stay.
    pub back: usize,
}

impl Sizes {
    /// The parts where entries of so many bytes make room for others: what is behind them stays where as many bytes come as
    /// leave, and is written too where not.
    pub fn of_parts(front: usize, brought: usize, leaving: usize, behind: usize) -> Sizes
        requires { front + brought + behind ≤ 2 ^ 40 }
        ensures sizes { result ≡ sizes_with front brought leaving behind }
        ensures bound { result.front + result.middle + result.back ≤ 2 ^ 40 }
    {
        let (middle, back) = if brought == leaving {
            (brought, behind)
        } else {
            (brought + behind, 0)
        };
        Sizes {
            front,
            middle,
            back,
        }
    }

    /// How long the data is.
    pub fn total(&self) -> usize
        requires { self.now.front + self.now.middle + self.now.back < 2 ^ 63 }
        ensures { result ≡ self.now.front + self.now.middle + self.now.back }
    {
        self.front + self.middle + self.back
    }
}

/// The subblocks that a directory lists after an act, in order.
#[derive(Clone, Copy)]
pub struct Listing<'a> {
    /// Those before the place of the act.
    pub before: &'a [Tile],
    /// What the act brings there.
    pub brought: &'a [Tile],
    /// Those behind it, where their entries move.
    pub moved: &'a [Tile],
    /// Those behind it, where their entries stay.
    pub still: &'a [Tile],
}

/// What an act does with a list.
#[derive(Drop)]
pub struct Parts<'a, T> {
    /// What stands before its place.
    pub before: &'a [T],
    /// What it brings there.
    pub brought: &'a [T],
    /// What leaves there.
    pub leaving: &'a [T],
    /// What stands behind it.
    pub behind: &'a [T],
}

/// How many bytes the entries of these subblocks have.
pub fn entries_len(tiles: &[Tile]) -> usize
    requires { length tiles.now ≤ MOST_SUBBLOCKS }
    ensures len { result ≡ sum (map entry_len (entries_of tiles.now)) }
    ensures bound { result ≤ LONGEST_ENTRY * length tiles.now }
{
    let mut len = 0;
    for tile in tiles {
        len += entry_len(&tile.info);
    }
    len
}

/// How many bytes the entries before a place have, where all have so many, and those from the place on so many.
fn len_before(tiles: &[Tile], total: usize, from: usize, rest: usize) -> usize
    requires total { total ≡ sum (map entry_len (entries_of tiles.now)) }
    requires rest { rest ≡ sum (map entry_len (entries_of (drop from tiles.now))) }
    ensures len { result ≡ sum (map entry_len (entries_of (take from tiles.now))) }
    ensures others { result + rest ≡ total }
{
    total - rest
}

/// How long the parts are once those from one place up to another leave, and entries of so many bytes come there.
pub fn sizes_after(tiles: &[Tile], total: usize, from: usize, to: usize, brought: usize) -> Sizes
    requires total { total ≡ sum (map entry_len (entries_of tiles.now)) }
    requires most { total ≤ LONGEST_ENTRY * length tiles.now }
    requires few { length tiles.now ≤ MOST_SUBBLOCKS }
    requires order { from ≤ to }
    requires inside { to ≤ length tiles.now }
    requires small { brought ≤ LONGEST_ENTRY }
    ensures sizes { (come : List Entry) → sum (map entry_len come) ≡ brought → AreSizes of_subblocks result (entries_of (take from tiles.now)) (middle_of come (entries_of (take (to - from) (drop from tiles.now))) (entries_of (drop to tiles.now))) (back_of come (entries_of (take (to - from) (drop from tiles.now))) (entries_of (drop to tiles.now))) }
    ensures bound { result.front + result.middle + result.back ≤ 2 ^ 40 }
{
    let leaving = entries_len(&tiles[from..to]);
    let behind = entries_len(&tiles[to..]);
    let front = DIRECTORY_FRONT + len_before(tiles, total, from, leaving + behind);
    Sizes::of_parts(front, brought, leaving, behind)
}

/// What an act brings to a list of subblocks.
pub fn brought_tiles<'a>(act: &'a Act<Tile>, tiles: &'a [Tile]) -> &'a [Tile]
    ensures { result.now ≡ tiles_brought act.now }
{
    match act {
        Act::Out(_) => &tiles[..0],
        Act::Put(_, tile) | Act::Into(_, tile) => slice::from_ref(tile),
    }
}

/// The parts of an act on a list, to which it brings these items.
pub fn parts_of<'a, T>(act: &Act<T>, brought: &'a [T], items: &'a [T]) -> Parts<'a, T>
    requires within { AreWithin (act.now ∷ []) (length items.now) }
    requires brings { brought.now ≡ tiles_brought act.now }
    ensures before { result.before.now ≡ tiles_before act.now items.now }
    ensures brought { result.brought.now ≡ tiles_brought act.now }
    ensures leaving { result.leaving.now ≡ tiles_leaving act.now items.now }
    ensures behind { result.behind.now ≡ tiles_behind act.now items.now }
{
    let (from, to) = match act {
        Act::Out(i) => (*i, *i + 1),
        Act::Put(i, _) => (*i, *i + 1),
        Act::Into(i, _) => (*i, *i),
    };
    Parts {
        before: &items[..from],
        brought,
        leaving: &items[from..to],
        behind: &items[to..],
    }
}

/// What a directory lists after an act with these parts: what is behind moves, unless as many bytes of entries come as
/// leave.
pub fn listing_of<'a>(parts: &Parts<'a, Tile>) -> Listing<'a>
    requires brought { length parts.now.brought.now ≤ 1 }
    requires leaving { length parts.now.leaving.now ≤ 1 }
    ensures front { listed_front result ≡ entries_of parts.now.before.now }
    ensures middle { listed_middle result ≡ middle_of (entries_of parts.now.brought.now) (entries_of parts.now.leaving.now) (entries_of parts.now.behind.now) }
    ensures back { listed_back result ≡ back_of (entries_of parts.now.brought.now) (entries_of parts.now.leaving.now) (entries_of parts.now.behind.now) }
{
    let stay = entries_len(parts.brought) == entries_len(parts.leaving);
    let (moved, still) = if stay {
        (&parts.behind[..0], parts.behind)
    } else {
        (parts.behind, &parts.behind[..0])
    };
    Listing {
        before: parts.before,
        brought: parts.brought,
        moved,
        still,
    }
}
