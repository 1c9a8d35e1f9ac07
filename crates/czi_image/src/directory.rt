//! The two directories.

ghost use Rattle.std.specs.Prelude.{◌≡◌, ◌+◌, ◌*◌, ◌^◌, ◌≤◌, length, option_map, IfOk, IfSome};
ghost use Rattle.std.specs.Option.{ForSome};
ghost use Rattle.czi_rig.specs.declared.file.File.TheVariants.{Image};
ghost use Rattle.czi_rig.specs.State.{seen_of};
ghost use Rattle.czi_rig.specs.Faults.{Faults, device_of, failed_at};
ghost use Rattle.czi_rig.specs.Quiet.{Untouched};
ghost use Rattle.czi_format.specs.Partial.{none_or};
ghost use Rattle.czi_format.specs.Segment.{attdir_id, directory_id, in_segment};
ghost use Rattle.czi_format.specs.Live.{attachment_directory, directory};
ghost use Rattle.czi_image.specs.Inside.{HoldsEntries, IsWithin};
ghost use Rattle.czi_image.specs.View.{directory_of};
ghost use Rattle.czi_image.specs.Windows.{in_window};

use crate::found::Segment;
use crate::segment::{read_count, read_front, sound_in};
use czi_format::{A1_LEN, ATTDIR_ENTRIES, ATTDIR_FRONT, DIRECTORY_ENTRIES, DIRECTORY_FRONT};
use czi_num::{Span, read_bytes};
use czi_rig::{Failed, Rig};
use czi_seg::SegId;

/// A directory's segment, and its EntryCount.
#[derive(Clone, Copy)]
pub(crate) struct Directory {
    pub(crate) segment: Segment,
    pub(crate) count: u32,
}

/// The directory whose front is the window.
#[tactic(auto, unfolding(crate::specs::Windows::in_window, czi_format::specs::Live::directory, czi_format::specs::Contents::entry_count))]
fn directory_in(front: &[u8; 36], at: u64, size: u64) -> Option<Directory>
    requires inside { at + 32 ≤ size }
    requires small { size ≤ 2 ^ 62 }
    ensures found { option_map directory_of result ≡ in_window front.now directory_id at size 4 directory }
    ensures inside { IfSome result (IsWithin size) }
{
    let head = sound_in(front, SegId::Directory, at, size)?;
    let count = read_count(&read_bytes(front, 32))?;
    if head.allocated < DIRECTORY_FRONT as u64 {
        return None;
    }
    let span = Span {
        at,
        len: 32 + head.allocated,
    };
    Some(Directory {
        segment: Segment { span, head },
        count,
    })
}

/// The attachment directory whose front is the window. Its entries end within it.
#[tactic(auto, unfolding(crate::specs::Windows::in_window, czi_format::specs::Live::attachment_directory, czi_format::specs::Contents::entry_count))]
fn attachment_directory_in(front: &[u8; 36], at: u64, size: u64) -> Option<Directory>
    requires inside { at + 32 ≤ size }
    requires small { size ≤ 2 ^ 62 }
    ensures found { option_map directory_of result ≡ in_window front.now attdir_id at size 4 attachment_directory }
    ensures inside { IfSome result (HoldsEntries size) }
{
    let head = sound_in(front, SegId::AttDir, at, size)?;
    let count = read_count(&read_bytes(front, 32))?;
    if head.allocated < ATTDIR_FRONT as u64 + A1_LEN as u64 * u64::from(count) {
        return None;
    }
    let span = Span {
        at,
        len: 32 + head.allocated,
    };
    Some(Directory {
        segment: Segment { span, head },
        count,
    })
}

/// Reads the directory at a position: a sound one has a header of 32 bytes and 128 bytes of data or more.
fn directory_at<R: Rig>(rig: &mut R, position: i64, size: u64) -> Result<Option<Directory>, Failed>
    requires size { ForSome (seen_of (R.state rig.old) Image) (λ image. size ≡ length image) }
    requires small { size ≤ 2 ^ 62 }
    ensures found { IfOk result (λ o. ForSome (seen_of (R.state rig.old) Image) (λ image. option_map directory_of o ≡ in_segment image directory_id position directory)) }
    ensures inside { IfOk result (λ o. IfSome o (IsWithin size)) }
    ensures untouched { Untouched R.Rig rig.old rig.new }
    ensures cause { Faults (failed_at result (device_of Image)) (R.state rig.old) (R.state rig.new) }
{
    match read_front(rig, position, DIRECTORY_ENTRIES, size)? {
        None => Ok(None),
        Some(front) => Ok(directory_in(&front.bytes, front.at, size)),
    }
}

/// The same of an attachment directory, which has 256 bytes of data or more.
fn attachment_directory_at<R: Rig>(
    rig: &mut R,
    position: i64,
    size: u64,
) -> Result<Option<Directory>, Failed>
    requires size { ForSome (seen_of (R.state rig.old) Image) (λ image. size ≡ length image) }
    requires small { size ≤ 2 ^ 62 }
    ensures found { IfOk result (λ o. ForSome (seen_of (R.state rig.old) Image) (λ image. option_map directory_of o ≡ in_segment image attdir_id position attachment_directory)) }
    ensures inside { IfOk result (λ o. IfSome o (HoldsEntries size)) }
    ensures untouched { Untouched R.Rig rig.old rig.new }
    ensures cause { Faults (failed_at result (device_of Image)) (R.state rig.old) (R.state rig.new) }
{
    match read_front(rig, position, ATTDIR_ENTRIES, size)? {
        None => Ok(None),
        Some(front) => Ok(attachment_directory_in(&front.bytes, front.at, size)),
    }
}

/// Reads what stands at DirectoryPosition: `Some(None)` for position 0, where there is no directory, and
/// `None` where there is no sound one.
pub(crate) fn read_directory<R: Rig>(
    rig: &mut R,
    position: i64,
    size: u64,
) -> Result<Option<Option<Directory>>, Failed>
    requires size { ForSome (seen_of (R.state rig.old) Image) (λ image. size ≡ length image) }
    requires small { size ≤ 2 ^ 62 }
    ensures found { IfOk result (λ o. ForSome (seen_of (R.state rig.old) Image) (λ image. option_map (option_map directory_of) o ≡ none_or position (in_segment image directory_id position directory))) }
    ensures inside { IfOk result (λ o. IfSome o (λ d. IfSome d (IsWithin size))) }
    ensures untouched { Untouched R.Rig rig.old rig.new }
    ensures cause { Faults (failed_at result (device_of Image)) (R.state rig.old) (R.state rig.new) }
{
    if position == 0 {
        return Ok(Some(None));
    }
    Ok(directory_at(rig, position, size)?.map(Some))
}

/// The same at AttachmentDirectoryPosition.
pub(crate) fn read_attachment_directory<R: Rig>(
    rig: &mut R,
    position: i64,
    size: u64,
) -> Result<Option<Option<Directory>>, Failed>
    requires size { ForSome (seen_of (R.state rig.old) Image) (λ image. size ≡ length image) }
    requires small { size ≤ 2 ^ 62 }
    ensures found { IfOk result (λ o. ForSome (seen_of (R.state rig.old) Image) (λ image. option_map (option_map directory_of) o ≡ none_or position (in_segment image attdir_id position attachment_directory))) }
    ensures inside { IfOk result (λ o. IfSome o (λ d. IfSome d (HoldsEntries size))) }
    ensures untouched { Untouched R.Rig rig.old rig.new }
    ensures cause { Faults (failed_at result (device_of Image)) (R.state rig.old) (R.state rig.new) }
{
    if position == 0 {
        return Ok(Some(None));
    }
    Ok(attachment_directory_at(rig, position, size)?.map(Some))
}
