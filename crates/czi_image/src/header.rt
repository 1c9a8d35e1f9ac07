//! The file header.

ghost use Rattle.std.specs.Prelude.{◌≡◌, ◌^◌, ◌≤◌, length, IfOk, IfErr, OnOk, None};
ghost use Rattle.std.specs.Option.{ForSome};
ghost use Rattle.czi_rig.specs.State.{seen_of};
ghost use Rattle.czi_rig.specs.Faults.{Faults, fault_at};
ghost use Rattle.czi_rig.specs.Quiet.{Untouched};
ghost use Rattle.czi_format.specs.Refusals.{first_rules};
ghost use Rattle.czi_image.specs.Devices.{image_device};
ghost use Rattle.czi_image.specs.Faults.{Tells};
ghost use Rattle.czi_image.specs.Holds.{IsSettled};
ghost use Rattle.czi_image.specs.Rules.{first_rules_in, fault_of};
ghost use Rattle.czi_image.specs.View.{file_header_of};

use crate::fault::ImageFault;
use crate::found::Header;
use czi_format::HEADER_FRONT;
use czi_num::{Span, read_bytes};
use czi_rig::{File, Rig};
use czi_seg::{HeaderFault, read_file_header, read_header};

/// What a file header's fault says of the image.
fn fault_of(fault: HeaderFault) -> ImageFault
    ensures { result ≡ fault_of fault }
{
    match fault {
        HeaderFault::Short => ImageFault::NotCzi,
        HeaderFault::BadId => ImageFault::NotCzi,
        HeaderFault::BadSizes => ImageFault::NotCzi,
        HeaderFault::MultiPart(part) => ImageFault::MultiPart(part),
    }
}

/// The header in the first 112 bytes of an image of this length.
fn header_in(front: &[u8; HEADER_FRONT], size: u64) -> Result<Header, ImageFault>
    requires { (HEADER_FRONT ≤ size) × (size ≤ 2 ^ 62) }
    ensures found { IfOk result (λ h. first_rules_in front.now size ≡ Ok (file_header_of h)) }
    ensures inside { IfOk result (λ h. h.span.len ≤ size) }
    ensures settled { OnOk result (IsSettled front.now) }
    ensures refused { IfErr result (Tells (first_rules_in front.now size)) }
    ensures own { fault_at image_device result ≡ None }
{
    let Some(head) = read_header(&read_bytes(front, 0)) else {
        return Err(ImageFault::NotCzi)
    };
    if head.allocated > size - 32 {
        return Err(ImageFault::NotCzi);
    }
    match read_file_header(front) {
        Ok(file) => {
            if file.pending != 0 {
                return Err(ImageFault::Pending(file.pending));
            }
            let span = Span {
                at: 0,
                len: 32 + head.allocated,
            };
            Ok(Header { file, head, span })
        }
        Err(fault) => Err(fault_of(fault)),
    }
}

/// Reads the header of an image of this length: it stands at 0, FilePart is 0 and so is UpdatePending.
pub(crate) fn read_header_at_front<R: Rig>(rig: &mut R, size: u64) -> Result<Header, ImageFault>
    requires size { ForSome (seen_of (R.state rig.old) File.Image) (λ image. size ≡ length image) }
    requires small { size ≤ 2 ^ 62 }
    ensures found { IfOk result (λ h. ForSome (seen_of (R.state rig.old) File.Image) (λ image. first_rules image ≡ Ok (file_header_of h))) }
    ensures inside { IfOk result (λ h. h.span.len ≤ size) }
    ensures settled { OnOk result (ForSome (seen_of (R.state rig.old) File.Image) IsSettled) }
    ensures refused { IfErr result (λ fault. ForSome (seen_of (R.state rig.old) File.Image) (λ image. Tells (first_rules image) fault)) }
    ensures untouched { Untouched R.Rig rig.old rig.new }
    ensures cause { Faults (fault_at image_device result) (R.state rig.old) (R.state rig.new) }
{
    if size < HEADER_FRONT as u64 {
        return Err(ImageFault::NotCzi);
    }
    let mut front = [0u8; HEADER_FRONT];
    match rig.read_at(File::Image, 0, &mut front) {
        Ok(()) => header_in(&front, size),
        Err(_) => Err(ImageFault::Device),
    }
}
