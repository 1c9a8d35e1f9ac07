//! The subblocks that the directory's entries reach.

ghost use Rattle.std.specs.Prelude.{◌≡◌, ◌+◌, ◌^◌, ◌≤◌, pos, map, length, vec_len, option_map, IfOk, IfErr, IfSome};
ghost use Rattle.std.specs.Option.{ForSome};
ghost use Rattle.std.specs.List.{AllByRecursion};
ghost use Rattle.czi_rig.specs.declared.file.File.TheVariants.{Image};
ghost use Rattle.czi_rig.specs.State.{seen_of};
ghost use Rattle.czi_rig.specs.Faults.{Faults, device_of, failed_at, fault_at};
ghost use Rattle.czi_rig.specs.Quiet.{Untouched};
ghost use Rattle.czi_format.specs.Segment.{subblock_id};
ghost use Rattle.czi_format.specs.Live.{tile};
ghost use Rattle.czi_format.specs.Shows.{subblock_at};
ghost use Rattle.czi_format.specs.Refusals.{tile_rules};
ghost use Rattle.czi_doc.specs.View.{info_of};
ghost use Rattle.czi_dv.specs.View.{entry_of};
ghost use Rattle.czi_image.specs.Devices.{image_device};
ghost use Rattle.czi_image.specs.Faults.{Tells};
ghost use Rattle.czi_image.specs.Inside.{IsWithin, TileEnds, TilesWithin};
ghost use Rattle.czi_image.specs.Rules.{listed_rules, subblock_rules};
ghost use Rattle.czi_image.specs.Props.{sums_prop};
ghost use Rattle.czi_image.specs.Summary.{Sums};
ghost use Rattle.czi_image.specs.View.{directory_of, tile_of, tiles_of};
ghost use Rattle.czi_image.specs.Windows.{in_window};

use crate::directory::{Directory, read_directory};
use crate::entries::{read_entries, take_entries};
use crate::fault::ImageFault;
use crate::segment::{read_front, sound_in};
use crate::summary::Summary;
use crate::types::Tile;
use czi_body::read_sub_head;
use czi_doc::EntryInfo;
use czi_dv::Entry;
use czi_format::{CONTENTS_PLACE, DIRECTORY_ENTRIES};
use czi_num::{Span, read_bytes};
use czi_rig::{Failed, Rig};
use czi_seg::SegId;
use std::alloc::Global;

/// Most entries that a directory may have.
const MOST_ENTRIES: u32 = 1 << 20;

/// The directory, if there is one, and the subblocks at its entries, with their summary.
#[derive(Drop)]
pub(crate) struct Tiles {
    pub(crate) directory: Option<Directory>,
    pub(crate) tiles: Vec<Tile>,
    pub(crate) summary: Summary,
}

/// Subblocks, with their summary.
#[derive(Drop)]
struct Listed {
    tiles: Vec<Tile>,
    summary: Summary,
    ghost summed: { Sums summary (map tile_of tiles.items) } by { sums_prop summary (map tile_of tiles.items) },
}

/// The subblock whose front is the window: its contents end within AllocatedSize.
#[tactic(auto, unfolding(crate::specs::Windows::in_window, czi_format::specs::Live::tile))]
fn tile_in(front: &[u8; 80], info: EntryInfo, at: u64, size: u64) -> Option<Tile>
    requires inside { at + 32 ≤ size }
    requires small { size ≤ 2 ^ 62 }
    ensures found { option_map tile_of result ≡ in_window front.now subblock_id at size 48 (tile (record { info = info_of info; position = pos at })) }
    ensures inside { IfSome result (TileEnds size) }
{
    let head = sound_in(front, SegId::Subblock, at, size)?;
    let body = read_sub_head(&read_bytes(front, 32))?;
    let meta = u64::from(body.meta);
    let tail = u64::from(body.tail);
    if body.pixels > head.allocated || body.begin + meta + body.pixels + tail > head.allocated {
        return None;
    }
    let span = Span {
        at,
        len: 32 + head.allocated,
    };
    let begin = at + 32 + body.begin;
    Some(Tile {
        info,
        span,
        head,
        walked: false,
        begin,
        meta,
        pixels: body.pixels,
        tail,
    })
}

/// Reads the subblock at an entry's position, by one read of 80 bytes: a sound one has 288 bytes at least.
fn read_tile<R: Rig>(rig: &mut R, entry: Entry, size: u64) -> Result<Option<Tile>, Failed>
    requires size { ForSome (seen_of (R.state rig.old) Image) (λ image. size ≡ length image) }
    requires small { size ≤ 2 ^ 62 }
    ensures found { IfOk result (λ o. ForSome (seen_of (R.state rig.old) Image) (λ image. option_map tile_of o ≡ subblock_at image (entry_of entry))) }
    ensures inside { IfOk result (λ o. IfSome o (TileEnds size)) }
    ensures untouched { Untouched R.Rig rig.old rig.new }
    ensures cause { Faults (failed_at result (device_of Image)) (R.state rig.old) (R.state rig.new) }
{
    match read_front(rig, entry.position, CONTENTS_PLACE, size)? {
        None => Ok(None),
        Some(front) => Ok(tile_in(&front.bytes, entry.info, front.at, size)),
    }
}

/// Reads the subblocks at entries, one after another.
fn read_each<R: Rig>(
    alloc: Global,
    rig: &mut R,
    entries: Vec<Entry>,
    size: u64,
) -> Result<Listed, ImageFault>
    requires size { ForSome (seen_of (R.state rig.old) Image) (λ image. size ≡ length image) }
    requires small { size ≤ 2 ^ 62 }
    ensures found { IfOk result (λ listed. ForSome (seen_of (R.state rig.old) Image) (λ image. subblock_rules image (map entry_of entries.items) ≡ Ok (map tile_of listed.tiles.items))) }
    ensures inside { IfOk result (λ listed. AllByRecursion (TileEnds size) listed.tiles.items) }
    ensures len { IfOk result (λ listed. vec_len listed.tiles ≡ vec_len entries) }
    ensures refused { IfErr result (λ fault. ForSome (seen_of (R.state rig.old) Image) (λ image. Tells (subblock_rules image (map entry_of entries.items)) fault)) }
    ensures untouched { Untouched R.Rig rig.old rig.new }
    ensures cause { Faults (fault_at image_device result) (R.state rig.old) (R.state rig.new) }
{
    let mut tiles = Vec::new(alloc);
    let mut summary = Summary::new(alloc);
    for entry in entries {
        let position = entry.position;
        match read_tile(rig, entry, size) {
            Ok(Some(tile)) => {
                summary.push(&tile)?;
                tiles.push(tile)?;
            }
            Ok(None) => return Err(ImageFault::BadSegment(position)),
            Err(_) => return Err(ImageFault::Device),
        }
    }
    Ok(Listed { tiles, summary })
}

/// Reads a directory's entries, and then the subblocks at them.
fn read_listed<R: Rig>(
    alloc: Global,
    rig: &mut R,
    directory: &Directory,
    size: u64,
) -> Result<Listed, ImageFault>
    requires size { ForSome (seen_of (R.state rig.old) Image) (λ image. size ≡ length image) }
    requires small { size ≤ 2 ^ 62 }
    requires within { IsWithin size directory.now }
    ensures found { IfOk result (λ listed. ForSome (seen_of (R.state rig.old) Image) (λ image. listed_rules image (Some (directory_of directory.now)) ≡ Ok (map tile_of listed.tiles.items))) }
    ensures inside { IfOk result (λ listed. AllByRecursion (TileEnds size) listed.tiles.items) }
    ensures len { IfOk result (λ listed. vec_len listed.tiles ≡ directory.now.count) }
    ensures refused { IfErr result (λ fault. ForSome (seen_of (R.state rig.old) Image) (λ image. Tells (listed_rules image (Some (directory_of directory.now))) fault)) }
    ensures untouched { Untouched R.Rig rig.old rig.new }
    ensures cause { Faults (fault_at image_device result) (R.state rig.old) (R.state rig.new) }
{
    let bytes = read_entries(alloc, rig, directory)?;
    let place = directory.segment.span.at + DIRECTORY_ENTRIES;
    let entries = take_entries(alloc, directory.count, &bytes, place)?;
    drop(bytes);
    read_each(alloc, rig, entries, size)
}

/// Reads the directory at a position, if it isn't 0, with at most 2^20 entries, and the subblocks at them.
pub(crate) fn read_tiles<R: Rig>(
    alloc: Global,
    rig: &mut R,
    position: i64,
    size: u64,
) -> Result<Tiles, ImageFault>
    requires size { ForSome (seen_of (R.state rig.old) Image) (λ image. size ≡ length image) }
    requires small { size ≤ 2 ^ 62 }
    ensures found { IfOk result (λ t. ForSome (seen_of (R.state rig.old) Image) (λ image. tile_rules image position ≡ Ok (tiles_of t))) }
    ensures inside { IfOk result (TilesWithin size) }
    ensures summed { IfOk result (λ t. Sums t.summary (map tile_of t.tiles.items)) }
    ensures refused { IfErr result (λ fault. ForSome (seen_of (R.state rig.old) Image) (λ image. Tells (tile_rules image position) fault)) }
    ensures untouched { Untouched R.Rig rig.old rig.new }
    ensures cause { Faults (fault_at image_device result) (R.state rig.old) (R.state rig.new) }
{
    let directory = match read_directory(rig, position, size) {
        Ok(Some(Some(directory))) => directory,
        Ok(Some(None)) => return Ok(Tiles {
            directory: None,
            tiles: Vec::new(alloc),
            summary: Summary::new(alloc),
        }),
        Ok(None) => return Err(ImageFault::BadDirectory(position)),
        Err(_) => return Err(ImageFault::Device),
    };
    if directory.count > MOST_ENTRIES {
        return Err(ImageFault::TooMany(position, u64::from(directory.count)));
    }
    let listed = read_listed(alloc, rig, &directory, size)?;
    Ok(Tiles {
        directory: Some(directory),
        tiles: listed.tiles,
        summary: listed.summary,
    })
}
