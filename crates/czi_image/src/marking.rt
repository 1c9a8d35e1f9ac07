//! Whether the walk stands on the items.

ghost use Rattle.std.specs.Prelude.{◌≡◌, ◌^◌, map, option_map, IfSome};
ghost use Rattle.czi_format.specs.Layout.{place_of};
ghost use Rattle.czi_spans.specs.Apart.{AreApart, first_of};
ghost use Rattle.czi_walk.specs.View.{segment_of};
ghost use Rattle.czi_image.specs.Holds.{directory_place};
ghost use Rattle.czi_image.specs.Inside.{DirectoryEnds};
ghost use Rattle.czi_image.specs.Marked.{att_item_and_place, marked_att_item, marked_meta_item, marked_tile, meta_item_and_place, tile_and_place};
ghost use Rattle.czi_image.specs.View.{segment_of as found_segment};

use crate::directory::Directory;
use crate::types::{AttItem, DirItem, MetaItem, Tile};
use czi_num::Span;
use czi_seg::SegHeader;
use czi_walk::is_walked;

/// A directory, if there is one, by its extent.
pub(crate) fn marked_directory(
    directory: Option<Directory>,
    walk: &[(Span, SegHeader)],
) -> Option<DirItem>
    requires apart { AreApart 0 (map first_of walk.now) }
    requires ends { IfSome directory (DirectoryEnds (2 ^ 62)) }
    ensures { option_map directory_place result ≡ option_map (λ d. place_of (map segment_of walk.now) (found_segment d.segment)) directory }
{
    let span = directory?.segment.span;
    let walked = is_walked(walk, span.at);
    Some(DirItem { span, walked })
}

/// The subblocks, marked.
pub(crate) fn marked_tiles(mut tiles: Vec<Tile>, walk: &[(Span, SegHeader)]) -> Vec<Tile>
    requires { AreApart 0 (map first_of walk.now) }
    ensures { map tile_and_place result.items ≡ map (marked_tile (map segment_of walk.now)) tiles.items }
{
    for i in 0..tiles.len() {
        let tile = &mut tiles[i];
        tile.walked = is_walked(walk, tile.span.at);
    }
    tiles
}

/// The attachments, marked.
pub(crate) fn marked_attachments(
    mut attachments: Vec<AttItem>,
    walk: &[(Span, SegHeader)],
) -> Vec<AttItem>
    requires { AreApart 0 (map first_of walk.now) }
    ensures { map att_item_and_place result.items ≡ map (marked_att_item (map segment_of walk.now)) attachments.items }
{
    for i in 0..attachments.len() {
        let attachment = &mut attachments[i];
        attachment.walked = is_walked(walk, attachment.span.at);
    }
    attachments
}

/// The metadata, marked.
pub(crate) fn marked_metadata(
    metadata: Option<MetaItem>,
    walk: &[(Span, SegHeader)],
) -> Option<MetaItem>
    requires { AreApart 0 (map first_of walk.now) }
    ensures { option_map meta_item_and_place result ≡ option_map (marked_meta_item (map segment_of walk.now)) metadata }
{
    let mut item = metadata?;
    item.walked = is_walked(walk, item.span.at);
    Some(item)
}
