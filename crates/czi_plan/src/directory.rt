//! The bytes of directories.

ghost use Rattle.std.specs.Prelude.{◌≡◌, ◌+◌, ◌^◌, ◌<◌, ◌≤◌, pos, length, map, sum, replicate, flat_map};
ghost use Rattle.std.specs.List.{AllByRecursion};
ghost use Rattle.czi_format.specs.Entry.{IsEntry, entry_len, entry_bytes};
ghost use Rattle.czi_image.specs.View.{tile_of};
ghost use Rattle.czi_region.specs.Pieces.{PutsPiece, room};
ghost use Rattle.czi_plan.specs.Directory.{WritesEntries, data_in, directory_size, entries_of, listed, listed_middle};

use crate::tiles::Listing;
use czi_dv::{entry_len, write_directory_head, write_entry};
use czi_format::{DIRECTORY_FRONT, MOST_SUBBLOCKS};
use czi_image::Tile;
use czi_num::write_bytes;
use czi_region::{Piece, Region, whole_piece, written_piece};

/// A place as it is stored in a position.
pub fn position_of(place: u64) -> i64
    requires { place < 2 ^ 63 }
    ensures { result ≡ pos place }
{
    place as i64
}

/// Writes the entry of a subblock over the whole of `out`.
pub fn write_tile(tile: &Tile, out: &mut [u8])
    requires { length out.old ≡ entry_len (tile_of tile.now).entry }
    ensures written { out.new ≡ entry_bytes (tile_of tile.now).entry }
    ensures entry { IsEntry (tile_of tile.now).entry }
{
    write_entry(&tile.info, position_of(tile.span.at), out);
}

/// Writes the entries of these subblocks from a place on, and answers the place behind them.
fn write_entries(tiles: &[Tile], at: usize, out: &mut [u8]) -> usize
    requires { at + sum (map entry_len (entries_of tiles.now)) ≤ length out.old }
    ensures { WritesEntries (entries_of tiles.now) at result out.old out.new }
{
    let mut end = at;
    for tile in tiles {
        let next = end + entry_len(&tile.info);
        write_tile(tile, &mut out[end..next]);
        end = next;
    }
    end
}

/// Writes the entries that come, and those that move.
fn write_middle(listing: &Listing, at: usize, out: &mut [u8]) -> usize
    requires { at + sum (map entry_len (listed_middle listing.now)) ≤ length out.old }
    ensures { WritesEntries (listed_middle listing.now) at result out.old out.new }
{
    let moved_at = write_entries(listing.brought, at, out);
    write_entries(listing.moved, moved_at, out)
}

/// Writes all entries.
fn write_listing(listing: &Listing, at: usize, out: &mut [u8]) -> usize
    requires { at + sum (map entry_len (listed listing.now)) ≤ length out.old }
    ensures { WritesEntries (listed listing.now) at result out.old out.new }
{
    let middle_at = write_entries(listing.before, at, out);
    let back_at = write_middle(listing, middle_at, out);
    write_entries(listing.still, back_at, out)
}

/// How many subblocks are listed.
pub fn count_of(listing: &Listing) -> usize
    requires { length (listed listing.now) ≤ MOST_SUBBLOCKS }
    ensures { result ≡ length (listed listing.now) }
{
    listing.before.len() + listing.brought.len() + listing.moved.len() + listing.still.len()
}

/// Writes the data of a directory over zeros.
fn fill_directory(listing: &Listing, out: &mut [u8])
    requires few { length (listed listing.now) ≤ MOST_SUBBLOCKS }
    requires zeros { out.old ≡ replicate (length out.old) 0 }
    requires room { directory_size (listed listing.now) ≤ length out.old }
    ensures written { out.new ≡ data_in (length out.old) (listed listing.now) }
    ensures entries { AllByRecursion IsEntry (listed listing.now) }
{
    write_bytes(out, 0, &write_directory_head(count_of(listing) as u32));
    write_listing(listing, DIRECTORY_FRONT, out);
}

/// Puts the data of a directory into a region as one piece of `len` bytes, padded with zeros.
pub fn stage_directory(listing: &Listing, len: usize, region: &mut Region) -> Piece
    requires few { length (listed listing.now) ≤ MOST_SUBBLOCKS }
    requires long { directory_size (listed listing.now) ≤ len }
    requires room { len ≤ room region.old }
    ensures staged { PutsPiece region.old region.new result (data_in len (listed listing.now)) }
    ensures entries { AllByRecursion IsEntry (listed listing.now) }
    ensures whole { result.len ≡ len }
{
    let piece = region.zeros(len);
    fill_directory(listing, region.get_mut(&piece));
    written_piece();
    whole_piece();
    piece
}

/// Puts the entries that come and those that move into a region, which have so many bytes.
pub fn stage_middle(listing: &Listing, len: usize, region: &mut Region) -> Piece
    requires len { len ≡ sum (map entry_len (listed_middle listing.now)) }
    requires room { len ≤ room region.old }
    ensures staged { PutsPiece region.old region.new result (flat_map entry_bytes (listed_middle listing.now)) }
    ensures entries { AllByRecursion IsEntry (listed_middle listing.now) }
    ensures whole { result.len ≡ len }
{
    let piece = region.zeros(len);
    write_middle(listing, 0, region.get_mut(&piece));
    written_piece();
    whole_piece();
    piece
}
