//! The live segments as items: the extent of each with its header.

ghost use Rattle.std.specs.Prelude.{◌≡◌, ◌++◌, ◌≤◌, ◌^◌, map, option_map, option_to_list, length, IfOk, OnOk};
ghost use Rattle.czi_image.specs.Items.{AreSorted, att_item_item, directory_item, items_of, meta_item_item, tile_item};

use crate::directory::Directory;
use crate::reading::Live;
use crate::types::{AttItem, MetaItem, Tile};
use czi_num::Span;
use czi_seg::SegHeader;
use czi_spans::sort_items;
use std::alloc::{AllocError, Global};

/// Appends a directory, if there is one.
fn push_directory(
    items: &mut Vec<(Span, SegHeader)>,
    directory: &Option<Directory>,
) -> Result<(), AllocError>
    ensures { OnOk result (items.new.items ≡ items.old.items ++ option_to_list (option_map directory_item directory.now)) }
{
    if let Some(directory) = directory {
        items.push((directory.segment.span, directory.segment.head))?;
    }
    Ok(())
}

/// Appends subblocks.
fn push_tiles(items: &mut Vec<(Span, SegHeader)>, tiles: &[Tile]) -> Result<(), AllocError>
    ensures { OnOk result (items.new.items ≡ items.old.items ++ map tile_item tiles.now) }
{
    for tile in tiles {
        items.push((tile.span, tile.head))?;
    }
    Ok(())
}

/// Appends attachments.
fn push_attachments(
    items: &mut Vec<(Span, SegHeader)>,
    attachments: &[AttItem],
) -> Result<(), AllocError>
    ensures { OnOk result (items.new.items ≡ items.old.items ++ map att_item_item attachments.now) }
{
    for attachment in attachments {
        items.push((attachment.span, attachment.head))?;
    }
    Ok(())
}

/// Appends the metadata, if there is any.
fn push_metadata(
    items: &mut Vec<(Span, SegHeader)>,
    metadata: &Option<MetaItem>,
) -> Result<(), AllocError>
    ensures { OnOk result (items.new.items ≡ items.old.items ++ option_to_list (option_map meta_item_item metadata.now)) }
{
    if let Some(metadata) = metadata {
        items.push((metadata.span, metadata.head))?;
    }
    Ok(())
}

/// All live segments, in the order in which they are reached.
fn live_items(alloc: Global, live: &Live) -> Result<Vec<(Span, SegHeader)>, AllocError>
    requires few { length live.now.tiles.items ≤ 2 ^ 20 }
    requires few_attachments { length live.now.attachments.items ≤ 2 ^ 12 }
    ensures { IfOk result (λ v. v.items ≡ items_of live.now) }
{
    let most = live.tiles.len() + live.attachments.len() + 4;
    let mut items = Vec::with_capacity(alloc, most)?;
    items.push((live.header.span, live.header.head))?;
    push_directory(&mut items, &live.directory)?;
    push_tiles(&mut items, &live.tiles)?;
    push_directory(&mut items, &live.attdir)?;
    push_attachments(&mut items, &live.attachments)?;
    push_metadata(&mut items, &live.metadata)?;
    Ok(items)
}

/// All live segments in order of place.
pub(crate) fn sorted_items(alloc: Global, live: &Live) -> Result<Vec<(Span, SegHeader)>, AllocError>
    requires few { length live.now.tiles.items ≤ 2 ^ 20 }
    requires few_attachments { length live.now.attachments.items ≤ 2 ^ 12 }
    ensures { IfOk result (λ v. AreSorted (items_of live.now) v.items) }
{
    let mut items = live_items(alloc, live)?;
    sort_items(&mut items);
    Ok(items)
}
