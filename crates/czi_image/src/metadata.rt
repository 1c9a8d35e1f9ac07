//! The metadata.

ghost use Rattle.std.specs.Prelude.{◌≡◌, ◌+◌, ◌^◌, ◌≤◌, length, option_map, IfOk, IfErr, IfSome};
ghost use Rattle.std.specs.Option.{ForSome};
ghost use Rattle.czi_rig.specs.declared.file.File.TheVariants.{Image};
ghost use Rattle.czi_rig.specs.State.{seen_of};
ghost use Rattle.czi_rig.specs.Faults.{Faults, device_of, failed_at, fault_at};
ghost use Rattle.czi_rig.specs.Quiet.{Untouched};
ghost use Rattle.czi_format.specs.Segment.{in_segment, metadata_id};
ghost use Rattle.czi_format.specs.Live.{meta_item};
ghost use Rattle.czi_format.specs.Refusals.{metadata_rule};
ghost use Rattle.czi_image.specs.Inside.{MetaItemEnds};
ghost use Rattle.czi_image.specs.Devices.{image_device};
ghost use Rattle.czi_image.specs.Faults.{Tells};
ghost use Rattle.czi_image.specs.View.{meta_item_of};
ghost use Rattle.czi_image.specs.Windows.{in_window};

use crate::fault::ImageFault;
use crate::segment::{read_front, sound_in};
use crate::types::MetaItem;
use czi_body::read_meta_head;
use czi_format::{CONTENTS, CONTENTS_PLACE};
use czi_num::{Span, read_bytes};
use czi_rig::{Failed, Rig};
use czi_seg::SegId;

/// The metadata whose front is the window. Its contents end within AllocatedSize.
#[tactic(auto, unfolding(crate::specs::Windows::in_window, czi_format::specs::Live::meta_item))]
fn metadata_in(front: &[u8; 40], at: u64, size: u64) -> Option<MetaItem>
    requires inside { at + 32 ≤ size }
    requires small { size ≤ 2 ^ 62 }
    ensures found { option_map meta_item_of result ≡ in_window front.now metadata_id at size 8 meta_item }
    ensures inside { IfSome result (MetaItemEnds size) }
{
    let head = sound_in(front, SegId::Metadata, at, size)?;
    let body = read_meta_head(&read_bytes(front, 32))?;
    let xml = u64::from(body.xml);
    let tail = u64::from(body.tail);
    if CONTENTS as u64 + xml + tail > head.allocated {
        return None;
    }
    let span = Span {
        at,
        len: 32 + head.allocated,
    };
    Some(MetaItem {
        span,
        head,
        walked: false,
        xml,
        tail,
    })
}

/// Reads the metadata at a position: sound ones have 288 bytes at least.
fn metadata_at<R: Rig>(rig: &mut R, position: i64, size: u64) -> Result<Option<MetaItem>, Failed>
    requires size { ForSome (seen_of (R.state rig.old) Image) (λ image. size ≡ length image) }
    requires small { size ≤ 2 ^ 62 }
    ensures found { IfOk result (λ o. ForSome (seen_of (R.state rig.old) Image) (λ image. option_map meta_item_of o ≡ in_segment image metadata_id position meta_item)) }
    ensures inside { IfOk result (λ o. IfSome o (MetaItemEnds size)) }
    ensures untouched { Untouched R.Rig rig.old rig.new }
    ensures cause { Faults (failed_at result (device_of Image)) (R.state rig.old) (R.state rig.new) }
{
    match read_front(rig, position, CONTENTS_PLACE, size)? {
        None => Ok(None),
        Some(front) => Ok(metadata_in(&front.bytes, front.at, size)),
    }
}

/// Reads what stands at MetadataPosition; there is none at position 0.
pub(crate) fn read_metadata<R: Rig>(
    rig: &mut R,
    position: i64,
    size: u64,
) -> Result<Option<MetaItem>, ImageFault>
    requires size { ForSome (seen_of (R.state rig.old) Image) (λ image. size ≡ length image) }
    requires small { size ≤ 2 ^ 62 }
    ensures found { IfOk result (λ o. ForSome (seen_of (R.state rig.old) Image) (λ image. metadata_rule image position ≡ Ok (option_map meta_item_of o))) }
    ensures inside { IfOk result (λ o. IfSome o (MetaItemEnds size)) }
    ensures refused { IfErr result (λ fault. ForSome (seen_of (R.state rig.old) Image) (λ image. Tells (metadata_rule image position) fault)) }
    ensures untouched { Untouched R.Rig rig.old rig.new }
    ensures cause { Faults (fault_at image_device result) (R.state rig.old) (R.state rig.new) }
{
    if position == 0 {
        return Ok(None);
    }
    match metadata_at(rig, position, size) {
        Ok(Some(item)) => Ok(Some(item)),
        Ok(None) => Err(ImageFault::BadSegment(position)),
        Err(_) => Err(ImageFault::Device),
    }
}
