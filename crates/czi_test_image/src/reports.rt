//! `czi_report`: the texts of `list`, `info` and `check`.

use crate::documents::{Part, index_in};
use czi_report::{check, info, list};
use czi_sample::places::*;
use czi_sample::{Segment, Subblock, changed, image_of};
use std::alloc::Global;
use std::process::Abort;
use std::test::Fail;

// An image with changes, and what is said of it.
struct Said {
    segments: &'static [Segment<'static>],
    changes: &'static [Part],
    list: &'static [u8],
    info: &'static [u8],
    check: &'static [u8],
}

// A subblock of a second layer, with this pixel type and compression.
const LAYER: Subblock = Subblock {
    pixel: 0,
    compression: 0,
    dims: b"C0,X-4:4:0,Y0:2:1",
    meta: b"<m>",
    pixels: b"ABCDEFGH",
    tail: b"t",
};

// Two subblocks with the dimensions C, X with a stored size of 0, and Y of a second layer. The directory stands at 544, its
// entries at 704 and at 796, and the subblocks at 896 and at 1216.
static SUBBLOCKS: Said = Said {
    segments: &[
        Segment::Directory(192),
        Segment::Subblock(LAYER),
        Segment::Subblock(Subblock {
            pixel: -1,
            compression: 4,
            ..LAYER
        }),
    ],
    changes: &[],
    list: b"=tiles 2\n\
        tile 0 896 pixel=0 comp=0 dims=C0:1:1,X-4:4:4,Y0:2:1\n\
        tile 1 1216 pixel=-1 comp=4 dims=C0:1:1,X-4:4:4,Y0:2:1\n",
    info: b"=length 1536\n\
        guid 00112233-4455-6677-8899-aabbccddeeff\n\
        directory 544 352\n\
        tiles 2\n\
        tile 0 896 320 meta=3 data=8 att=1\n\
        tile 1 1216 320 meta=3 data=8 att=1\n\
        attdir none\n\
        attachments 0\n\
        metadata none\n",
    check: b"=check live=4 runs=0 unknown=0 tail=0\n",
};

// An attachment and metadata. The directory stands at 544, the attachment directory at 704, the attachment at 1120 and the
// metadata at 1440. The file has a GUID of its own.
static ITEMS: Said = Said {
    segments: &[
        Segment::Directory(0),
        Segment::AttDir(128),
        Segment::Attachment(b"TXT\0old", b"Event List", b"12345"),
        Segment::Metadata(b"<", b""),
    ],
    changes: &[(
        FILE_GUID,
        b"\x10\x32\x54\x76\x98\xBA\xDC\xFE\0\0\0\0\0\0\0\0",
    )],
    list: b"=tiles 0\n",
    info: b"=length 1760\n\
        guid 76543210-ba98-fedc-0000-000000000000\n\
        directory 544 160\n\
        tiles 0\n\
        attdir 704 416\n\
        attachments 1\n\
        attachment 0 1120 320 guid=00112233-4455-6677-8899-aabbccddeeff type=TXT name=Event%20List data=5\n\
        metadata 1440 320 xml=1 att=0\n",
    check: b"=check live=5 runs=0 unknown=0 tail=0\n",
};

// A file header alone.
static NOTHING: Said = Said {
    segments: &[],
    changes: &[(FILE_GUID, &[0; 16])],
    list: b"=tiles 0\n",
    info: b"=length 544\n\
        guid 00000000-0000-0000-0000-000000000000\n\
        directory none\n\
        tiles 0\n\
        attdir none\n\
        attachments 0\n\
        metadata none\n",
    check: b"=check live=1 runs=0 unknown=0 tail=0\n",
};

// The texts are appended behind what stands before.
fn check_said(rt: &impl Abort, alloc: Global, said: &Said) -> Result<(), Fail> {
    let image = image_of(alloc, said.segments)?;
    let image = changed(alloc, &image, image.len(), said.changes)?;
    let index = index_in(alloc, &image)?;
    let mut text = vec![in alloc; b'=']?;
    list(&index, &mut text)?;
    assert!(rt; text.as_slice() == said.list);
    text.truncate(1);
    info(&index, &mut text)?;
    assert!(rt; text.as_slice() == said.info);
    text.truncate(1);
    check(&index, &mut text)?;
    assert!(rt; text.as_slice() == said.check);
    Ok(())
}

#[test]
fn subblocks_are_listed_by_their_numbers(rt: HostRuntime) -> Result<(), Fail> {
    check_said(&rt, rt.alloc(), &SUBBLOCKS)
}

#[test]
fn directories_attachments_and_metadata_are_said(rt: HostRuntime) -> Result<(), Fail> {
    check_said(&rt, rt.alloc(), &ITEMS)?;
    check_said(&rt, rt.alloc(), &NOTHING)
}
