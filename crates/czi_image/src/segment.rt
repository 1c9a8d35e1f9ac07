//! A segment at a place of the image, whose front is read.

ghost use Rattle.std.specs.Prelude.{◌≡◌, ◌+◌, ◌^◌, ◌≤◌, length, option_map, IfOk, IfSome, MatchOption};
ghost use Rattle.std.specs.Option.{ForSome};
ghost use Rattle.czi_rig.specs.State.{seen_of};
ghost use Rattle.czi_rig.specs.Faults.{Faults, device_of, failed_at};
ghost use Rattle.czi_rig.specs.Quiet.{Untouched};
ghost use Rattle.czi_format.specs.Bytes.{i32_at};
ghost use Rattle.czi_format.specs.Partial.{natural};
ghost use Rattle.czi_seg.specs.View.{header_of, id_bytes};
ghost use Rattle.czi_image.specs.Windows.{IsTooNear, IsFront, sound_in};

use czi_num::{read_bytes, read_i32};
use czi_rig::{Failed, File, Rig};
use czi_seg::{SegHeader, SegId, read_header};

/// The front of a segment, and its place in the image.
#[derive(Clone, Copy)]
pub(crate) struct Front<const N: usize> {
    pub(crate) at: u64,
    pub(crate) bytes: [u8; N],
}

/// Reads the front of the segment at a position, or nothing where fewer than so many bytes stand there.
pub(crate) fn read_front<const N: usize, R: Rig>(
    rig: &mut R,
    position: i64,
    least: u64,
    size: u64,
) -> Result<Option<Front<N>>, Failed>
    requires size { ForSome (seen_of (R.state rig.old) File.Image) (λ image. size ≡ length image) }
    requires small { size ≤ 2 ^ 62 }
    requires least { least ≤ 2 ^ 10 }
    requires front { N ≤ least }
    ensures found { IfOk result (λ o. ForSome (seen_of (R.state rig.old) File.Image) (λ image.
        MatchOption o (IsTooNear image least position) (λ f. IsFront image least N position f.at f.bytes))) }
    ensures room { IfOk result (λ o. IfSome o (λ f. f.at + least ≤ size)) }
    ensures untouched { Untouched R.Rig rig.old rig.new }
    ensures cause { Faults (failed_at result (device_of File.Image)) (R.state rig.old) (R.state rig.new) }
{
    let Some(at) = natural(position) else {
        return Ok(None)
    };
    if at + least > size {
        return Ok(None);
    }
    let mut bytes = [0u8; N];
    rig.read_at(File::Image, at, &mut bytes)?;
    Ok(Some(Front { at, bytes }))
}

/// The header of the segment of this id with sound sizes at a place of an image of this length; the front of
/// the segment is the window.
#[tactic(auto, unfolding(crate::specs::Windows::sound_in))]
pub(crate) fn sound_in(front: &[u8], id: SegId, at: u64, size: u64) -> Option<SegHeader>
    requires window { 32 ≤ length front.now }
    requires inside { at + 32 ≤ size }
    ensures found { option_map (header_of at) result ≡ sound_in front.now (id_bytes id) at size }
    ensures inside { IfSome result (λ h. at + 32 + h.allocated ≤ size) }
    ensures used { IfSome result (λ h. h.used ≤ h.allocated) }
{
    let head = read_header(&read_bytes(front, 0))?;
    let is_sound = head.allocated <= size - 32 - at
        && read_bytes::<16>(front, 0) == id.to_bytes()
        && head.used <= head.allocated;
    if is_sound { Some(head) } else { None }
}

/// A position that isn't negative is a place.
fn natural(position: i64) -> Option<u64>
    ensures { result ≡ natural position }
{
    if position < 0 {
        None
    } else {
        Some(position as u64)
    }
}

/// The number in the four bytes at the front of a segment's data, where it isn't negative.
pub(crate) fn read_count(front: &[u8; 4]) -> Option<u32>
    ensures { result ≡ natural (i32_at front.now 0) }
{
    let count = read_i32(front, 0);
    if count < 0 { None } else { Some(count as u32) }
}
