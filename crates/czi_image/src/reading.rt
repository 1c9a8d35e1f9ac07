//! All that the pointers of the file header reach.

ghost use Rattle.std.specs.Prelude.{◌≡◌, ◌^◌, ◌≤◌, map, length, IfOk, IfErr, OnOk};
ghost use Rattle.std.specs.Option.{ForSome};
ghost use Rattle.czi_rig.specs.declared.file.File.TheVariants.{Image};
ghost use Rattle.czi_rig.specs.State.{seen_of};
ghost use Rattle.czi_rig.specs.Faults.{Faults, fault_at};
ghost use Rattle.czi_rig.specs.Quiet.{Untouched};
ghost use Rattle.czi_format.specs.Refusals.{reads_but_overlap};
ghost use Rattle.czi_image.specs.Devices.{image_device};
ghost use Rattle.czi_image.specs.Faults.{Tells};
ghost use Rattle.czi_image.specs.Holds.{IsSettled};
ghost use Rattle.czi_image.specs.Inside.{LiveWithin};
ghost use Rattle.czi_image.specs.Summary.{Sums};
ghost use Rattle.czi_image.specs.View.{live_of, tile_of};

use crate::attachments::read_attachments;
use crate::directory::Directory;
use crate::fault::ImageFault;
use crate::found::Header;
use crate::header::read_header_at_front;
use crate::metadata::read_metadata;
use crate::summary::Summary;
use crate::tiles::read_tiles;
use crate::types::{AttItem, MetaItem, Tile};
use czi_rig::Rig;
use std::alloc::Global;

/// The live segments, and what stands in them. None is marked as walked yet, and they may overlap.
#[derive(Drop)]
pub(crate) struct Live {
    pub(crate) header: Header,
    pub(crate) directory: Option<Directory>,
    pub(crate) tiles: Vec<Tile>,
    pub(crate) summary: Summary,
    pub(crate) attdir: Option<Directory>,
    pub(crate) attachments: Vec<AttItem>,
    pub(crate) metadata: Option<MetaItem>,
}

/// Reads all that the pointers of the file header reach in an image of this length, by all rules of reading but
/// the last: two live segments may overlap.
pub(crate) fn read_live<R: Rig>(alloc: Global, rig: &mut R, size: u64) -> Result<Live, ImageFault>
    requires size { ForSome (seen_of (R.state rig.old) Image) (λ image. size ≡ length image) }
    requires small { size ≤ 2 ^ 62 }
    ensures found { IfOk result (λ live. ForSome (seen_of (R.state rig.old) Image) (λ image. reads_but_overlap image ≡ Ok (live_of live))) }
    ensures inside { IfOk result (LiveWithin size) }
    ensures summed { IfOk result (λ live. Sums live.summary (map tile_of live.tiles.items)) }
    ensures settled { OnOk result (ForSome (seen_of (R.state rig.old) Image) IsSettled) }
    ensures refused { IfErr result (λ fault. ForSome (seen_of (R.state rig.old) Image) (λ image. Tells (reads_but_overlap image) fault)) }
    ensures untouched { Untouched R.Rig rig.old rig.new }
    ensures cause { Faults (fault_at image_device result) (R.state rig.old) (R.state rig.new) }
{
    let header = read_header_at_front(rig, size)?;
    let tiles = read_tiles(alloc, rig, header.file.directory, size)?;
    let attached = read_attachments(alloc, rig, header.file.attachments, size)?;
    let metadata = read_metadata(rig, header.file.metadata, size)?;
    Ok(Live {
        header,
        directory: tiles.directory,
        tiles: tiles.tiles,
        summary: tiles.summary,
        attdir: attached.directory,
        attachments: attached.items,
        metadata,
    })
}
