//! What a new subblock holds.

ghost use Rattle.std.specs.Prelude.{◌^◌, ◌≤◌, length};
ghost use Rattle.czi_format.specs.Bytes.{IsBytes};

use czi_body::sub_size;
use czi_doc::{DATA_LIMIT, EntryInfo, TEXT_LIMIT};
use czi_dv::entry_len;
use czi_format::CONTENTS;

/// The place in a subblock's data at which its own entry stands.
const OWN_ENTRY: usize = 16;

/// What a new subblock holds.
#[derive(Clone, Copy)]
pub struct NewSubblock<'a> {
    /// What the directory entry says of it.
    pub info: &'a EntryInfo,
    /// The metadata.
    pub meta: &'a [u8],
    /// The pixels, as they are stored.
    pub pixels: &'a [u8],
    /// The attachment.
    pub tail: &'a [u8],
    ghost short_meta: { length meta.now ≤ 2 ^ 24 },
    ghost short_pixels: { length pixels.now ≤ 2 ^ 26 },
    ghost short_tail: { length tail.now ≤ 2 ^ 26 },
    ghost meta_bytes: { IsBytes meta.now },
    ghost pixels_bytes: { IsBytes pixels.now },
    ghost tail_bytes: { IsBytes tail.now },
}

impl<'a> NewSubblock<'a> {
    ghost use Rattle.std.specs.Prelude.{◌≡◌, ◌+◌, ◌*◌, max};
    ghost use Rattle.czi_machine.specs.Places.{subblock_need};
    ghost use Rattle.czi_plan.specs.Bringing.{subblock_in, subblock_of, used_of_new};

    /// A new subblock with these contents.
    pub fn new(
        info: &'a EntryInfo,
        meta: &'a [u8],
        pixels: &'a [u8],
        tail: &'a [u8],
    ) -> NewSubblock<'a>
        requires meta { length meta.now ≤ TEXT_LIMIT }
        requires pixels { length pixels.now ≤ DATA_LIMIT }
        requires tail { length tail.now ≤ DATA_LIMIT }
        ensures { subblock_of result ≡ subblock_in info.now meta.now pixels.now tail.now }
    {
        NewSubblock {
            info,
            meta,
            pixels,
            tail,
        }
    }

    /// How many bytes its data has with padding.
    pub fn data_len(&self) -> usize
        ensures need { subblock_need (subblock_of self.now) ≡ 32 + result }
        ensures bound { result ≤ 2 ^ 40 }
    {
        let entry = entry_len(self.info);
        sub_size(entry, self.meta.len(), self.pixels.len(), self.tail.len())
    }

    /// The place in its data at which its contents begin.
    pub fn begin(&self) -> usize
        ensures value { result ≡ max CONTENTS (16 + (32 + 20 * length (subblock_of self.now).info.dims)) }
        ensures bound { result ≤ 2 ^ 10 }
    {
        (OWN_ENTRY + entry_len(self.info)).max(CONTENTS)
    }

    /// How many bytes its data has without padding.
    pub fn used(&self) -> usize
        ensures value { result ≡ used_of_new (subblock_of self.now) }
        ensures bound { result ≤ 2 ^ 40 }
    {
        self.begin() + self.meta.len() + self.pixels.len() + self.tail.len()
    }
}
