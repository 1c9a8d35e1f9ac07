//! What an image was read as.

ghost use Rattle.std.specs.Prelude.{◌≡◌, ◌+◌, ◌^◌, ◌≤◌};
ghost use Rattle.czi_format.specs.declared.numbers.TheConstants.{CONTENTS_PLACE};

use czi_doc::{AttInfo, EntryInfo};
use czi_num::Span;
use czi_seg::SegHeader;

/// A live subblock. Its contents are the metadata, the pixels and the attachment, one behind the other.
#[derive(Drop)]
pub struct Tile {
    /// What the directory entry says of it.
    pub info: EntryInfo,
    /// The extent of its segment in the image.
    pub span: Span,
    /// Its segment's header.
    pub head: SegHeader,
    /// Whether the walk stands on its segment.
    pub walked: bool,
    /// The place of the contents in the image.
    pub begin: u64,
    /// MetadataSize, in bytes.
    pub meta: u64,
    /// DataSize, in bytes.
    pub pixels: u64,
    /// AttachmentSize, in bytes.
    pub tail: u64,
    pub ghost extent: { span.len ≡ 32 + head.allocated },
    pub ghost sound: { head.used ≤ head.allocated },
    pub ghost ends: { span.at + span.len ≤ 2 ^ 62 },
    pub ghost begins: { span.at + 32 ≤ begin },
    pub ghost contents: { begin + meta + pixels + tail ≤ span.at + span.len },
}

/// A live attachment. Its contents begin at place 256 of the segment's data.
#[derive(Clone, Copy, PartialEq, Eq)]
pub struct AttItem {
    /// What the entry of the attachment directory says of it.
    pub info: AttInfo,
    /// The extent of its segment in the image.
    pub span: Span,
    /// Its segment's header.
    pub head: SegHeader,
    /// Whether the walk stands on its segment.
    pub walked: bool,
    /// DataSize, in bytes.
    pub size: u64,
    pub ghost extent: { span.len ≡ 32 + head.allocated },
    pub ghost sound: { head.used ≤ head.allocated },
    pub ghost ends: { span.at + span.len ≤ 2 ^ 62 },
    pub ghost contents: { CONTENTS_PLACE + size ≤ span.len },
}

/// The live metadata. Its contents, the XML and an attachment, begin at place 256 of the segment's data.
#[derive(Clone, Copy, PartialEq, Eq)]
pub struct MetaItem {
    /// The extent of its segment in the image.
    pub span: Span,
    /// Its segment's header.
    pub head: SegHeader,
    /// Whether the walk stands on its segment.
    pub walked: bool,
    /// XmlSize, in bytes.
    pub xml: u64,
    /// AttachmentSize, in bytes.
    pub tail: u64,
    pub ghost extent: { span.len ≡ 32 + head.allocated },
    pub ghost sound: { head.used ≤ head.allocated },
    pub ghost ends: { span.at + span.len ≤ 2 ^ 62 },
    pub ghost contents: { CONTENTS_PLACE + xml + tail ≤ span.len },
}

/// A live directory, of subblocks or of attachments.
#[derive(Clone, Copy, PartialEq, Eq)]
pub struct DirItem {
    /// The extent of its segment in the image.
    pub span: Span,
    /// Whether the walk stands on its segment.
    pub walked: bool,
    pub ghost long: { 32 ≤ span.len },
    pub ghost ends: { span.at + span.len ≤ 2 ^ 62 },
}
