//! Segments that were found in an image.

ghost use Rattle.std.specs.Prelude.{◌≡◌, ◌+◌, ◌≤◌, pos};
ghost use Rattle.czi_format.specs.declared.numbers.TheConstants.{LEAST_HEADER_DATA};

use czi_num::Span;
use czi_seg::{FileHeader, SegHeader};

/// The file header of a first part with no update pending, the header of its segment, and the segment's extent.
#[derive(Clone, Copy)]
pub(crate) struct Header {
    pub(crate) file: FileHeader,
    pub(crate) head: SegHeader,
    pub(crate) span: Span,
    ghost place: { span.at ≡ 0 },
    ghost extent: { span.len ≡ 32 + head.allocated },
    ghost allocated: { file.allocated ≡ head.allocated },
    ghost headed: { LEAST_HEADER_DATA ≤ file.allocated },
    ghost idle: { file.pending ≡ pos 0 },
}

/// A segment: its extent in the image, and its header.
#[derive(Clone, Copy)]
pub(crate) struct Segment {
    pub(crate) span: Span,
    pub(crate) head: SegHeader,
    ghost extent: { span.len ≡ 32 + head.allocated },
}
