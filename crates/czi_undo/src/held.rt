//! Segments that an undo may bring back.

use czi_num::Span;

/// A segment that an undo may bring back. Its bytes behind the header are still in the image.
#[derive(Clone, Copy, PartialEq, Eq)]
pub struct HeldSegment {
    /// The extent of the segment in the image.
    pub span: Span,
    /// The header that it had.
    pub head: [u8; 32],
    /// Whether the walk stood on it.
    pub walked: bool,
    /// The place of its contents in the image.
    pub begin: u64,
    /// How long its contents are, in bytes and in their order, with 0 for those that its kind hasn't.
    pub sizes: [u64; 3],
}
