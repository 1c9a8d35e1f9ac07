//! The index of an image.

ghost use Rattle.std.specs.Prelude.{◌≡◌, ◌*◌, ◌≤◌, ◌^◌, map, length, sum, vec_len};
ghost use Rattle.std.specs.List.{AllByRecursion};
ghost use Rattle.czi_format.specs.Span.{AreDisjoint, end_of};
ghost use Rattle.czi_num.specs.Span.{span_of};
ghost use Rattle.czi_format.specs.Entry.{entry_len};
ghost use Rattle.czi_image.specs.Props.{disjoint_prop, free_prop, inside_prop, sums_prop};
ghost use Rattle.czi_image.specs.Spans.{AreFree, live_spans};
ghost use Rattle.czi_image.specs.Summary.{Sums, number_of};
ghost use Rattle.czi_image.specs.View.{tile_of};
ghost use Rattle.czi_image.specs.declared.types.Tile.{Tile};
ghost use Rattle.czi_format.specs.declared.numbers.TheConstants.{LEAST_HEADER_DATA};

use crate::summary::Summary;
use crate::types::{AttItem, DirItem, MetaItem, Tile};
use czi_format::LONGEST_ENTRY;
use czi_num::Span;
use czi_seg::FileHeader;

/// All that an image holds, and where it lies. No two of the live segments meet, and none meets one of `extents`.
#[derive(Drop)]
pub struct Index {
    /// The file header.
    pub header: FileHeader,
    /// The image's length, in bytes.
    pub length: u64,
    /// The directory of subblocks, if there is one.
    pub directory: Option<DirItem>,
    /// The subblocks, in the order of the directory.
    pub tiles: Vec<Tile>,
    /// The directory of attachments, if there is one.
    pub attdir: Option<DirItem>,
    /// The attachments, in the order of their directory.
    pub attachments: Vec<AttItem>,
    /// The metadata, if there is any.
    pub metadata: Option<MetaItem>,
    /// The extents of `DELETED` segments, in order of place, that edits may write over.
    pub extents: Vec<Span>,
    /// How many segments of the walk are neither live nor `DELETED`.
    pub unknown: u64,
    /// Where the walk ends.
    pub walk_end: u64,
    /// The summary of the subblocks.
    pub(crate) summary: Summary,
    pub ghost headed: { LEAST_HEADER_DATA ≤ header.allocated },
    pub ghost small: { length ≤ 2 ^ 62 },
    pub ghost walked_within: { walk_end ≤ length },
    pub ghost inside: { AllByRecursion (λ s. end_of s ≤ length) (live_spans header directory tiles.items attdir attachments.items metadata) } by { inside_prop length (live_spans header directory tiles.items attdir attachments.items metadata) },
    pub ghost disjoint: { AreDisjoint (live_spans header directory tiles.items attdir attachments.items metadata) } by { disjoint_prop (live_spans header directory tiles.items attdir attachments.items metadata) },
    pub ghost free: { AreFree length (live_spans header directory tiles.items attdir attachments.items metadata) (map span_of extents.items) } by { free_prop length (live_spans header directory tiles.items attdir attachments.items metadata) (map span_of extents.items) },
    pub ghost few_tiles: { vec_len tiles ≤ 2 ^ 20 },
    pub ghost few_attachments: { vec_len attachments ≤ 2 ^ 12 },
    pub ghost summed: { Sums summary (map tile_of tiles.items) } by { sums_prop summary (map tile_of tiles.items) },
}

impl Index {
    /// The numbers of the subblocks' keys, in the order of the directory, as `Dims::key_number` tells them.
    pub fn key_numbers(&self) -> &[u32]
        ensures { result.now ≡ map number_of (map tile_of self.now.tiles.items) }
    {
        self.summary.numbers.as_slice()
    }

    /// How many bytes the directory entries of all subblocks have.
    pub fn entries_len(&self) -> usize
        ensures len { result ≡ sum (map entry_len (map (λ (t : Tile). (tile_of t).entry) self.now.tiles.items)) }
        ensures bound { result ≤ LONGEST_ENTRY * length self.now.tiles.items }
    {
        self.summary.entries_len
    }
}
