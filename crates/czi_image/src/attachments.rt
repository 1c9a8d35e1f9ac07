//! The attachments that the entries of their directory reach.

ghost use Rattle.std.specs.Prelude.{◌≡◌, ◌+◌, ◌^◌, ◌≤◌, pos, map, length, vec_len, option_map, IfOk, IfErr, IfSome};
ghost use Rattle.std.specs.Option.{ForSome};
ghost use Rattle.std.specs.List.{AllByRecursion};
ghost use Rattle.czi_rig.specs.declared.file.File.TheVariants.{Image};
ghost use Rattle.czi_rig.specs.State.{seen_of};
ghost use Rattle.czi_rig.specs.Faults.{Faults, device_of, failed_at, fault_at};
ghost use Rattle.czi_rig.specs.Quiet.{Untouched};
ghost use Rattle.czi_format.specs.Segment.{attachment_id};
ghost use Rattle.czi_format.specs.Live.{att_item};
ghost use Rattle.czi_format.specs.Shows.{attachment_at};
ghost use Rattle.czi_format.specs.Refusals.{attachment_rules};
ghost use Rattle.czi_att.specs.View.{a1_of};
ghost use Rattle.czi_doc.specs.View.{att_of};
ghost use Rattle.czi_image.specs.Devices.{image_device};
ghost use Rattle.czi_image.specs.Faults.{Tells};
ghost use Rattle.czi_image.specs.Inside.{HoldsEntries, AttItemEnds, AttachmentsWithin};
ghost use Rattle.czi_image.specs.Rules.{attached_rules, item_rules};
ghost use Rattle.czi_image.specs.View.{att_item_of, attachments_of, directory_of};
ghost use Rattle.czi_image.specs.Windows.{in_window};

use crate::directory::{Directory, read_attachment_directory};
use crate::entries::{read_a1_entries, take_a1_entries};
use crate::fault::ImageFault;
use crate::segment::{read_count, read_front, sound_in};
use crate::types::AttItem;
use czi_doc::AttInfo;
use czi_format::{ATTDIR_ENTRIES, CONTENTS, CONTENTS_PLACE};
use czi_num::{Span, read_bytes};
use czi_rig::{Failed, Rig};
use czi_seg::SegId;
use std::alloc::Global;

/// Most entries that an attachment directory may have.
const MOST_ENTRIES: u32 = 1 << 12;

/// The attachment directory, if there is one, and the attachments at its entries.
#[derive(Drop)]
pub(crate) struct Attachments {
    pub(crate) directory: Option<Directory>,
    pub(crate) items: Vec<AttItem>,
}

/// The attachment whose front is the window: its contents end within AllocatedSize.
#[tactic(auto, unfolding(crate::specs::Windows::in_window, czi_format::specs::Live::att_item, czi_format::specs::Contents::att_size))]
fn attachment_in(front: &[u8; 36], info: AttInfo, at: u64, size: u64) -> Option<AttItem>
    requires inside { at + 32 ≤ size }
    requires small { size ≤ 2 ^ 62 }
    ensures found { option_map att_item_of result ≡ in_window front.now attachment_id at size 4 (att_item (record { info = att_of info; position = pos at })) }
    ensures inside { IfSome result (AttItemEnds size) }
{
    let head = sound_in(front, SegId::Attachment, at, size)?;
    let count = read_count(&read_bytes(front, 32))?;
    let bytes = u64::from(count);
    if CONTENTS as u64 + bytes > head.allocated {
        return None;
    }
    let span = Span {
        at,
        len: 32 + head.allocated,
    };
    Some(AttItem {
        info,
        span,
        head,
        walked: false,
        size: bytes,
    })
}

/// Reads the attachment at an entry's position: a sound one has 288 bytes at least.
fn read_attachment<R: Rig>(
    rig: &mut R,
    entry: (AttInfo, i64),
    size: u64,
) -> Result<Option<AttItem>, Failed>
    requires size { ForSome (seen_of (R.state rig.old) Image) (λ image. size ≡ length image) }
    requires small { size ≤ 2 ^ 62 }
    ensures found { IfOk result (λ o. ForSome (seen_of (R.state rig.old) Image) (λ image. option_map att_item_of o ≡ attachment_at image (a1_of entry))) }
    ensures inside { IfOk result (λ o. IfSome o (AttItemEnds size)) }
    ensures untouched { Untouched R.Rig rig.old rig.new }
    ensures cause { Faults (failed_at result (device_of Image)) (R.state rig.old) (R.state rig.new) }
{
    let (info, position) = entry;
    match read_front(rig, position, CONTENTS_PLACE, size)? {
        None => Ok(None),
        Some(front) => Ok(attachment_in(&front.bytes, info, front.at, size)),
    }
}

/// Reads the attachments at entries, one after another.
fn read_each<R: Rig>(
    alloc: Global,
    rig: &mut R,
    entries: Vec<(AttInfo, i64)>,
    size: u64,
) -> Result<Vec<AttItem>, ImageFault>
    requires size { ForSome (seen_of (R.state rig.old) Image) (λ image. size ≡ length image) }
    requires small { size ≤ 2 ^ 62 }
    ensures found { IfOk result (λ items. ForSome (seen_of (R.state rig.old) Image) (λ image. item_rules image (map a1_of entries.items) ≡ Ok (map att_item_of items.items))) }
    ensures inside { IfOk result (λ items. AllByRecursion (AttItemEnds size) items.items) }
    ensures len { IfOk result (λ items. vec_len items ≡ vec_len entries) }
    ensures refused { IfErr result (λ fault. ForSome (seen_of (R.state rig.old) Image) (λ image. Tells (item_rules image (map a1_of entries.items)) fault)) }
    ensures untouched { Untouched R.Rig rig.old rig.new }
    ensures cause { Faults (fault_at image_device result) (R.state rig.old) (R.state rig.new) }
{
    let mut items = Vec::new(alloc);
    for entry in entries {
        match read_attachment(rig, entry, size) {
            Ok(Some(item)) => items.push(item)?,
            Ok(None) => return Err(ImageFault::BadAttachment(entry.1)),
            Err(_) => return Err(ImageFault::Device),
        }
    }
    Ok(items)
}

/// Reads an attachment directory's entries, and then the attachments at them.
fn read_attached<R: Rig>(
    alloc: Global,
    rig: &mut R,
    directory: &Directory,
    size: u64,
) -> Result<Vec<AttItem>, ImageFault>
    requires size { ForSome (seen_of (R.state rig.old) Image) (λ image. size ≡ length image) }
    requires small { size ≤ 2 ^ 62 }
    requires within { HoldsEntries size directory.now }
    ensures found { IfOk result (λ items. ForSome (seen_of (R.state rig.old) Image) (λ image. attached_rules image (Some (directory_of directory.now)) ≡ Ok (map att_item_of items.items))) }
    ensures inside { IfOk result (λ items. AllByRecursion (AttItemEnds size) items.items) }
    ensures len { IfOk result (λ items. vec_len items ≡ directory.now.count) }
    ensures refused { IfErr result (λ fault. ForSome (seen_of (R.state rig.old) Image) (λ image. Tells (attached_rules image (Some (directory_of directory.now))) fault)) }
    ensures untouched { Untouched R.Rig rig.old rig.new }
    ensures cause { Faults (fault_at image_device result) (R.state rig.old) (R.state rig.new) }
{
    let bytes = read_a1_entries(alloc, rig, directory)?;
    let place = directory.segment.span.at + ATTDIR_ENTRIES;
    let entries = take_a1_entries(alloc, directory.count, &bytes, place)?;
    drop(bytes);
    read_each(alloc, rig, entries, size)
}

/// Reads the attachment directory at a position, if it isn't 0, with at most 2^12 entries, and the attachments
/// at them.
pub(crate) fn read_attachments<R: Rig>(
    alloc: Global,
    rig: &mut R,
    position: i64,
    size: u64,
) -> Result<Attachments, ImageFault>
    requires size { ForSome (seen_of (R.state rig.old) Image) (λ image. size ≡ length image) }
    requires small { size ≤ 2 ^ 62 }
    ensures found { IfOk result (λ a. ForSome (seen_of (R.state rig.old) Image) (λ image. attachment_rules image position ≡ Ok (attachments_of a))) }
    ensures inside { IfOk result (AttachmentsWithin size) }
    ensures refused { IfErr result (λ fault. ForSome (seen_of (R.state rig.old) Image) (λ image. Tells (attachment_rules image position) fault)) }
    ensures untouched { Untouched R.Rig rig.old rig.new }
    ensures cause { Faults (fault_at image_device result) (R.state rig.old) (R.state rig.new) }
{
    let directory = match read_attachment_directory(rig, position, size) {
        Ok(Some(Some(directory))) => directory,
        Ok(Some(None)) => return Ok(Attachments {
            directory: None,
            items: Vec::new(alloc),
        }),
        Ok(None) => return Err(ImageFault::BadAttachment(position)),
        Err(_) => return Err(ImageFault::Device),
    };
    if directory.count > MOST_ENTRIES {
        return Err(ImageFault::TooMany(position, u64::from(directory.count)));
    }
    let items = read_attached(alloc, rig, &directory, size)?;
    Ok(Attachments {
        directory: Some(directory),
        items,
    })
}
