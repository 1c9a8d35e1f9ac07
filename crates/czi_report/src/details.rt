//! `info`: all that an image holds, and where it lies.

ghost use Rattle.std.specs.Prelude.{◌≡◌, ◌++◌, codes, map, option_map, OnOk, OnErr};
ghost use Rattle.czi_doc.specs.Grows.{Grows};
ghost use Rattle.czi_format.specs.Live.{Live};
ghost use Rattle.czi_image.specs.Holds.{Holds, extent_of, lies_at};
ghost use Rattle.czi_image.specs.View.{att_item_of, meta_item_of, tile_of};
ghost use Rattle.czi_report.specs.Text.{attachment_line, directory_line, guid_line, info_text, items_text, metadata_line, number_line, tile_info_line};

use crate::text::{end_with_number, push_guid, push_name, push_number, push_span};
use czi_image::{AttItem, DirItem, Index, MetaItem, Tile};
use std::alloc::AllocError;

/// Appends a line for each of these: the image's length; its FileGuid; the directory; how many subblocks there are,
/// and each of them; the attachment directory; how many attachments there are, and each of them; the metadata.
/// A segment's line says its place and its extent. Where memory runs out `out` stays as it was.
pub fn info(index: &Index, out: &mut Vec<u8>) -> Result<(), AllocError>
    ensures ok { OnOk result ((live : Live) → Holds live index.now → out.new.items ≡ out.old.items ++ info_text index.now.length live) }
    ensures err { OnErr result (out.new.items ≡ out.old.items) }
{
    let before = out.len();
    let said = push_all(index, out);
    if said.is_err() {
        out.truncate(before);
    }
    said
}

/// Appends all lines.
fn push_all(index: &Index, out: &mut Vec<u8>) -> Result<(), AllocError>
    ensures ok { OnOk result ((live : Live) → Holds live index.now → out.new.items ≡ out.old.items ++ info_text index.now.length live) }
    ensures err { OnErr result (Grows out.old.items out.new.items) }
{
    push_front(index, out)?;
    push_tiles(&index.tiles, out)?;
    push_directory(b"attdir ", &index.attdir, out)?;
    push_attachments(&index.attachments, out)?;
    push_metadata(&index.metadata, out)?;
    Ok(())
}

/// Appends the lines of the length, the FileGuid and the directory.
#[tactic(auto, unfolding(crate::specs::Text::guid_line))]
fn push_front(index: &Index, out: &mut Vec<u8>) -> Result<(), AllocError>
    ensures ok { OnOk result ((live : Live) → Holds live index.now → out.new.items ≡ out.old.items
        ++ (number_line (codes "length ") index.now.length ++ (guid_line live.header.identity ++ directory_line (codes "directory ") (extent_of live.directory)))) }
    ensures grows { Grows out.old.items out.new.items }
{
    end_with_number(b"length ", index.length, out)?;
    push_guid(b"guid ", &index.header.guid(), out)?;
    out.extend_from_slice(b"\n")?;
    push_directory(b"directory ", &index.directory, out)?;
    Ok(())
}

/// Appends the line of a directory.
#[tactic(auto, unfolding(crate::specs::Text::directory_line))]
pub(crate) fn push_directory(
    label: &[u8],
    item: &Option<DirItem>,
    out: &mut Vec<u8>,
) -> Result<(), AllocError>
    ensures ok { OnOk result (out.new.items ≡ out.old.items ++ directory_line label.now (lies_at item.now)) }
    ensures err { OnErr result (Grows out.old.items out.new.items) }
{
    match item {
        Some(directory) => {
            push_span(label, &directory.span, out)?;
            out.extend_from_slice(b"\n")
        }
        None => {
            out.extend_from_slice(label)?;
            out.extend_from_slice(b"none\n")
        }
    }
}

/// Appends the number of subblocks, and a line for each.
pub(crate) fn push_tiles(tiles: &[Tile], out: &mut Vec<u8>) -> Result<(), AllocError>
    ensures ok { OnOk result (out.new.items ≡ out.old.items ++ items_text (codes "tiles ") tile_info_line (map tile_of tiles.now)) }
    ensures err { OnErr result (Grows out.old.items out.new.items) }
{
    end_with_number(b"tiles ", tiles.len() as u64, out)?;
    for (number, tile) in tiles.iter().enumerate() {
        push_tile(number as u64, tile, out)?;
    }
    Ok(())
}

/// Appends the line of a subblock.
#[tactic(auto, unfolding(crate::specs::Text::tile_info_line_of))]
fn push_tile(number: u64, tile: &Tile, out: &mut Vec<u8>) -> Result<(), AllocError>
    ensures ok { OnOk result (out.new.items ≡ out.old.items ++ tile_info_line number (tile_of tile.now)) }
    ensures err { OnErr result (Grows out.old.items out.new.items) }
{
    push_number(b"tile ", number, out)?;
    push_span(b" ", &tile.span, out)?;
    push_number(b" meta=", tile.meta, out)?;
    push_number(b" data=", tile.pixels, out)?;
    end_with_number(b" att=", tile.tail, out)?;
    Ok(())
}

/// Appends the number of attachments, and a line for each.
pub(crate) fn push_attachments(items: &[AttItem], out: &mut Vec<u8>) -> Result<(), AllocError>
    ensures ok { OnOk result (out.new.items ≡ out.old.items ++ items_text (codes "attachments ") attachment_line (map att_item_of items.now)) }
    ensures err { OnErr result (Grows out.old.items out.new.items) }
{
    end_with_number(b"attachments ", items.len() as u64, out)?;
    for (number, item) in items.iter().enumerate() {
        push_attachment(number as u64, item, out)?;
    }
    Ok(())
}

/// Appends the line of an attachment.
#[tactic(auto, unfolding(crate::specs::Text::attachment_line_of))]
fn push_attachment(number: u64, item: &AttItem, out: &mut Vec<u8>) -> Result<(), AllocError>
    ensures ok { OnOk result (out.new.items ≡ out.old.items ++ attachment_line number (att_item_of item.now)) }
    ensures err { OnErr result (Grows out.old.items out.new.items) }
{
    push_number(b"attachment ", number, out)?;
    push_span(b" ", &item.span, out)?;
    push_guid(b" guid=", &item.info.guid, out)?;
    push_name(b" type=", &item.info.kind, out)?;
    push_name(b" name=", &item.info.name, out)?;
    end_with_number(b" data=", item.size, out)?;
    Ok(())
}

/// Appends the line of the metadata.
#[tactic(auto, unfolding(crate::specs::Text::metadata_line_of, crate::specs::Text::no_metadata_line))]
pub(crate) fn push_metadata(item: &Option<MetaItem>, out: &mut Vec<u8>) -> Result<(), AllocError>
    ensures ok { OnOk result (out.new.items ≡ out.old.items ++ metadata_line (option_map meta_item_of item.now)) }
    ensures err { OnErr result (Grows out.old.items out.new.items) }
{
    match item {
        Some(metadata) => {
            push_span(b"metadata ", &metadata.span, out)?;
            push_number(b" xml=", metadata.xml, out)?;
            end_with_number(b" att=", metadata.tail, out)?;
            Ok(())
        }
        None => out.extend_from_slice(b"metadata none\n"),
    }
}
