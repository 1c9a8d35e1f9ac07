//! `list`: the subblocks.

ghost use Rattle.std.specs.Prelude.{◌≡◌, ◌++◌, codes, map, OnOk, OnErr};
ghost use Rattle.czi_doc.specs.Grows.{Grows};
ghost use Rattle.czi_format.specs.Live.{Live};
ghost use Rattle.czi_image.specs.Holds.{Holds};
ghost use Rattle.czi_image.specs.View.{tile_of};
ghost use Rattle.czi_report.specs.Text.{items_text, list_text, tile_line};

use crate::text::{end_with_dims, end_with_number, push_number};
use czi_image::{Index, Tile};
use std::alloc::AllocError;

/// Appends how many subblocks there are, and for each of them a line: its number from 0 on, the place of its
/// segment, its pixel type, its compression and its dimensions. Where memory runs out `out` stays as it was.
pub fn list(index: &Index, out: &mut Vec<u8>) -> Result<(), AllocError>
    ensures ok { OnOk result ((live : Live) → Holds live index.now → out.new.items ≡ out.old.items ++ list_text live) }
    ensures err { OnErr result (out.new.items ≡ out.old.items) }
{
    let before = out.len();
    let listed = push_tiles(&index.tiles, out);
    if listed.is_err() {
        out.truncate(before);
    }
    listed
}

/// Appends the number of subblocks, and a line for each.
pub(crate) fn push_tiles(tiles: &[Tile], out: &mut Vec<u8>) -> Result<(), AllocError>
    ensures ok { OnOk result (out.new.items ≡ out.old.items ++ items_text (codes "tiles ") tile_line (map tile_of tiles.now)) }
    ensures err { OnErr result (Grows out.old.items out.new.items) }
{
    end_with_number(b"tiles ", tiles.len() as u64, out)?;
    for (number, tile) in tiles.iter().enumerate() {
        push_tile(number as u64, tile, out)?;
    }
    Ok(())
}

/// Appends the line of a subblock.
#[tactic(auto, unfolding(crate::specs::Text::tile_line_of))]
fn push_tile(number: u64, tile: &Tile, out: &mut Vec<u8>) -> Result<(), AllocError>
    ensures ok { OnOk result (out.new.items ≡ out.old.items ++ tile_line number (tile_of tile.now)) }
    ensures err { OnErr result (Grows out.old.items out.new.items) }
{
    push_number(b"tile ", number, out)?;
    push_number(b" ", tile.span.at, out)?;
    push_number(b" pixel=", tile.info.pixel, out)?;
    push_number(b" comp=", tile.info.compression, out)?;
    end_with_dims(b" dims=", &tile.info.dims, out)?;
    Ok(())
}
