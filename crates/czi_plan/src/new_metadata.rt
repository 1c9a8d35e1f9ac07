//! What new metadata hold.

ghost use Rattle.std.specs.Prelude.{◌^◌, ◌≤◌, length};
ghost use Rattle.czi_format.specs.Bytes.{IsBytes};

use crate::placing::walks_at;
use czi_body::meta_size;
use czi_format::CONTENTS;
use czi_image::{Index, MetaItem};
use czi_num::Span;
use czi_seg::{SegHeader, SegId};

/// What new metadata hold.
#[derive(Clone, Copy)]
pub struct NewMetadata<'a> {
    /// The XML.
    pub xml: &'a [u8],
    /// The attachment.
    pub tail: &'a [u8],
    ghost short_xml: { length xml.now ≤ 2 ^ 24 },
    ghost short_tail: { length tail.now ≤ 2 ^ 26 },
    ghost xml_bytes: { IsBytes xml.now },
    ghost tail_bytes: { IsBytes tail.now },
}

impl<'a> NewMetadata<'a> {
    ghost use Rattle.std.specs.Prelude.{◌≡◌, ◌+◌, ◌||◌, nat_lt};
    ghost use Rattle.czi_image.specs.Applied.{walks_on};
    ghost use Rattle.czi_machine.specs.Places.{metadata_need};
    ghost use Rattle.czi_plan.specs.Setting.{IsMetaItemOf, metadata_of};

    /// How many bytes their data has with padding.
    pub fn data_len(&self) -> usize
        ensures need { metadata_need (metadata_of self.now) ≡ 32 + result }
        ensures bound { result ≤ 2 ^ 40 }
    {
        meta_size(self.xml.len(), self.tail.len())
    }

    /// The item of metadata in a span.
    pub fn item(&self, index: &Index, span: Span) -> MetaItem
        requires long { span.len ≡ metadata_need (metadata_of self.now) }
        requires ends { span.at + span.len ≤ 2 ^ 62 }
        ensures item { IsMetaItemOf (metadata_of self.now) span result }
        ensures walked { result.walked ≡ (nat_lt result.span.at index.now.length || walks_on index.now) }
    {
        let (xml, tail) = (self.xml.len(), self.tail.len());
        let head = SegHeader {
            id: SegId::Metadata,
            allocated: span.len - 32,
            used: (CONTENTS + xml + tail) as u64,
        };
        MetaItem {
            span,
            head,
            walked: walks_at(index, span.at),
            xml: xml as u64,
            tail: tail as u64,
        }
    }
}
