//! Reading an image's index.

ghost use Rattle.std.specs.Prelude.{◌≡◌, ◌^◌, ◌≤◌, true, map, length, IfOk, IfErr};
ghost use Rattle.std.specs.Option.{ForSome};
ghost use Rattle.czi_format.specs.Span.{AreDisjoint};
ghost use Rattle.czi_format.specs.Segment.{extent};
ghost use Rattle.czi_format.specs.Live.{segments};
ghost use Rattle.czi_format.specs.Layout.{is_walked, layout};
ghost use Rattle.czi_num.specs.Span.{span_of};
ghost use Rattle.czi_rig.specs.State.{seen_of};
ghost use Rattle.czi_rig.specs.Faults.{Faults, fault_at};
ghost use Rattle.czi_rig.specs.Quiet.{Untouched};
ghost use Rattle.czi_walk.specs.Survey.{Shows};
ghost use Rattle.czi_walk.specs.View.{IsRow, segment_of};
ghost use Rattle.czi_image.specs.Devices.{image_device};
ghost use Rattle.czi_image.specs.Faults.{IsOnlyCalls, TellsBrokenRule};
ghost use Rattle.czi_image.specs.Holds.{Holds, Indexes, LiesAs};
ghost use Rattle.czi_image.specs.Inside.{LiveWithin};
ghost use Rattle.czi_image.specs.Spans.{AreFree};
ghost use Rattle.czi_image.specs.Summary.{Sums};
ghost use Rattle.czi_image.specs.View.{live_of, tile_of};

use crate::fault::ImageFault;
use crate::index::Index;
use crate::items::sorted_items;
use crate::marking::{marked_attachments, marked_directory, marked_metadata, marked_tiles};
use crate::reading::{Live, read_live};
use czi_rig::{File, Rig};
use czi_spans::first_meeting;
use czi_walk::{Survey, spans_of, walk_and_mark};
use std::alloc::Global;

/// The image's length, in bytes.
fn image_length<R: Rig>(rig: &mut R) -> Result<u64, ImageFault>
    ensures bound { IfOk result (λ n. n ≤ 2 ^ 62) }
    ensures length { IfOk result (λ n. ForSome (seen_of (R.state rig.old) File.Image) (λ image. n ≡ length image)) }
    ensures only { IfErr result IsOnlyCalls }
    ensures untouched { Untouched R.Rig rig.old rig.new }
    ensures cause { Faults (fault_at image_device result) (R.state rig.old) (R.state rig.new) }
{
    match rig.len(File::Image) {
        Ok(length) => Ok(length),
        Err(_) => Err(ImageFault::Device),
    }
}

/// The index of what was read and walked, in an image of this length.
fn index_of(live: Live, survey: Survey, length: u64) -> Index
    requires small { length ≤ 2 ^ 62 }
    requires within { LiveWithin length live }
    requires summed { Sums live.summary (map tile_of live.tiles.items) }
    requires disjoint { AreDisjoint (map extent (segments (live_of live))) }
    requires free { AreFree length (map extent (segments (live_of live))) (map span_of survey.extents.items) }
    requires row { IsRow survey.walk.items }
    requires ends { survey.walk_end ≤ length }
    ensures holds { Holds (live_of live) result }
    ensures lies { Shows (segments (live_of live)) survey → is_walked (map segment_of survey.walk.items) (live_of live).header.segment ≡ true
        → LiesAs (layout length (live_of live) (map segment_of survey.walk.items)) result }
{
    let directory = marked_directory(live.directory, &survey.walk);
    let tiles = marked_tiles(live.tiles, &survey.walk);
    let attdir = marked_directory(live.attdir, &survey.walk);
    let attachments = marked_attachments(live.attachments, &survey.walk);
    let metadata = marked_metadata(live.metadata, &survey.walk);
    Index {
        header: live.header.file,
        length,
        directory,
        tiles,
        attdir,
        attachments,
        metadata,
        extents: survey.extents,
        unknown: survey.unknown,
        walk_end: survey.walk_end,
        summary: live.summary,
    }
}

/// Reads the image's index: all that the pointers of its file header reach, the walk and the free extents.
///
/// It is answered exactly where the image shows a document and UpdatePending is 0. The directory is read in one piece, each
/// other live segment costs one read of at most 112 bytes, and each further segment of the walk one of 32 bytes.
///
/// # Errors
///
/// The first rule of reading that fails, with its place and values; `Memory`, or `Device` where a call on the image failed.
/// The image is as it was.
pub fn read_index<R: Rig>(alloc: Global, rig: &mut R) -> Result<Index, ImageFault>
    ensures shown { IfOk result (λ x. ForSome (seen_of (R.state rig.old) File.Image) (λ image. Indexes image x)) }
    ensures refused { IfErr result (λ fault. ForSome (seen_of (R.state rig.old) File.Image) (λ image. TellsBrokenRule image fault)) }
    ensures untouched { Untouched R.Rig rig.old rig.new }
    ensures cause { Faults (fault_at image_device result) (R.state rig.old) (R.state rig.new) }
{
    let length = image_length(rig)?;
    let live = read_live(alloc, rig, length)?;
    let items = sorted_items(alloc, &live)?;
    let spans = spans_of(alloc, &items)?;
    if let Some((first, second)) = first_meeting(&spans) {
        return Err(ImageFault::Overlap(first, second));
    }
    let survey = walk_and_mark(alloc, rig, length, &items, &spans)?;
    Ok(index_of(live, survey, length))
}
