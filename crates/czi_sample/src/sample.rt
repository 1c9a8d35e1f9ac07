//! An image that grows by segments.

ghost use Rattle.std.specs.Prelude.{◌≤◌, ◌^◌, IfOk};

use crate::changes::put_at;
use crate::segment::{Segment, Subblock};
use czi_att::{att_size, stage_att, write_a1};
use czi_body::{meta_size, stage_meta, stage_sub, sub_size};
use czi_doc::{AttInfo, DATA_LIMIT, EntryInfo, TEXT_LIMIT, read_dims};
use czi_dv::{entry_len, write_directory_head, write_entry};
use czi_num::{read_i32, write_bytes};
use czi_region::Region;
use czi_seg::{FileHeader, SegHeader, SegId, write_file_header, write_header};
use std::alloc::{AllocError, Global};

/// 00112233-4455-6677-8899-aabbccddeeff as it is stored: the GUID of each image, journal and attachment.
pub const GUID: [u8; 16] = [
    0x33, 0x22, 0x11, 0x00, 0x55, 0x44, 0x77, 0x66, 0x88, 0x99, 0xAA, 0xBB, 0xCC, 0xDD, 0xEE, 0xFF,
];

/// The most bytes of a segment's data, and of an image.
const MOST: usize = 1 << 40;

/// The bytes of a file header with its data.
const FILE_HEADER: usize = 544;

/// The bytes of a segment's header.
const HEADER: usize = 32;

/// The bytes before the contents in the data of a subblock, an attachment and the metadata, at the least, and before the
/// entries in that of a directory of attachments.
const FRONT: usize = 256;

/// The bytes before the entries in the data of a directory of subblocks.
const HEAD: usize = 128;

/// An image that grows by segments: its file header's place, and the segments so far.
#[derive(Drop)]
pub struct Sample {
    image: Vec<u8>,
    directory: usize,
    entries: Vec<u8>,
    tiles: u32,
    attachment_directory: usize,
    attachment_entries: Vec<u8>,
    attachments: u32,
    metadata: usize,
    /// The place and the UsedSize of the last segment.
    last: (usize, usize),
}

impl Sample {
    /// A file header alone.
    pub fn new(alloc: Global) -> Result<Sample, AllocError> {
        Ok(Sample {
            image: vec![in alloc; 0u8; FILE_HEADER]?,
            directory: 0,
            entries: Vec::new(alloc),
            tiles: 0,
            attachment_directory: 0,
            attachment_entries: Vec::new(alloc),
            attachments: 0,
            metadata: 0,
            last: (0, 512),
        })
    }

    /// Puts a segment behind what stands already.
    pub fn push(&mut self, alloc: Global, segment: &Segment) -> Result<(), AllocError> {
        match *segment {
            Segment::Directory(room) => {
                self.directory = self.room(SegId::Directory, HEAD, room)?;
                Ok(())
            }
            Segment::Tile(dims, pixels) => self.subblock(alloc, &tile(dims, pixels)),
            Segment::Subblock(subblock) => self.subblock(alloc, &subblock),
            Segment::AttDir(room) => {
                self.attachment_directory = self.room(SegId::AttDir, FRONT, room)?;
                Ok(())
            }
            Segment::Attachment(kind, name, bytes) => self.attachment(alloc, kind, name, bytes),
            Segment::Metadata(xml, tail) => self.metadata(alloc, xml, tail),
            Segment::Deleted(len) => self.filled(SegId::Deleted, 0, len),
            Segment::Foreign(id, len) => self.filled(SegId::Other(*id), len, len),
            Segment::Raw(bytes) => self.image.extend_from_slice(bytes),
            Segment::Unpadded => self.unpad(),
        }
    }

    /// The place behind what stands already.
    fn end(&self) -> Result<usize, AllocError>
        ensures { IfOk result (λ at. at ≤ 2 ^ 40) }
    {
        let at = self.image.len();
        if at > MOST {
            return Err(AllocError);
        }
        Ok(at)
    }

    /// Puts a header of these sizes, and says its place.
    fn header(&mut self, id: SegId, used: usize, allocated: usize) -> Result<usize, AllocError> {
        let at = self.end()?;
        if used > MOST || allocated > MOST {
            return Err(AllocError);
        }
        let header = SegHeader {
            id,
            allocated: allocated as u64,
            used: used as u64,
        };
        self.image.extend_from_slice(&write_header(&header))?;
        self.last = (at, used);
        Ok(at)
    }

    /// Puts a segment with this data.
    fn data(&mut self, id: SegId, used: usize, data: &[u8]) -> Result<(), AllocError> {
        self.header(id, used, data.len())?;
        self.image.extend_from_slice(data)
    }

    /// Puts a segment of so many zeros.
    fn filled(&mut self, id: SegId, used: usize, len: usize) -> Result<(), AllocError> {
        self.header(id, used, len)?;
        self.zeros(len)
    }

    fn zeros(&mut self, len: usize) -> Result<(), AllocError> {
        let end = self.image.len().saturating_add(len);
        self.image.resize(end, 0)
    }

    /// Puts a directory whose entries come at the end, and says its place.
    fn room(&mut self, id: SegId, front: usize, room: usize) -> Result<usize, AllocError> {
        let len = front.saturating_add(room);
        let at = self.header(id, len, len)?;
        self.zeros(len)?;
        Ok(at)
    }

    fn subblock(&mut self, alloc: Global, subblock: &Subblock) -> Result<(), AllocError> {
        let entry = self.entry(alloc, subblock)?;
        self.entries.extend_from_slice(&entry)?;
        self.tiles = self.tiles.saturating_add(1);
        let data = subblock_data(alloc, &entry, subblock)?;
        let front = entry.len().saturating_add(16).max(FRONT);
        let contents = [subblock.meta, subblock.pixels, subblock.tail];
        self.data(SegId::Subblock, used_of(front, &contents), &data)
    }

    /// The directory entry of a subblock that comes next.
    fn entry(&self, alloc: Global, subblock: &Subblock) -> Result<Vec<u8>, AllocError> {
        let at = self.end()?;
        let Ok(dims) = read_dims(alloc, subblock.dims) else {
            return Err(AllocError);
        };
        let info = EntryInfo {
            pixel: subblock.pixel,
            compression: subblock.compression,
            pyramid: 0,
            spare: [0; 5],
            dims,
        };
        let mut entry = vec![in alloc; 0u8; entry_len(&info)]?;
        write_entry(&info, at as i64, &mut entry);
        Ok(entry)
    }

    fn attachment(
        &mut self,
        alloc: Global,
        kind: &[u8],
        name: &[u8],
        bytes: &[u8],
    ) -> Result<(), AllocError> {
        let at = self.end()? as i64;
        let info = attachment_info(kind, name)?;
        self.attachment_entries
            .extend_from_slice(&write_a1(&info, at))?;
        self.attachments = self.attachments.saturating_add(1);
        let data = attachment_data(alloc, &info, at, bytes)?;
        self.data(SegId::Attachment, used_of(FRONT, &[bytes]), &data)
    }

    fn metadata(&mut self, alloc: Global, xml: &[u8], tail: &[u8]) -> Result<(), AllocError> {
        self.metadata = self.end()?;
        let data = metadata_data(alloc, xml, tail)?;
        self.data(SegId::Metadata, used_of(FRONT, &[xml, tail]), &data)
    }

    fn unpad(&mut self) -> Result<(), AllocError> {
        let (at, used) = self.last;
        let end = at.saturating_add(HEADER).saturating_add(used);
        self.image.truncate(end);
        put_at(
            &mut self.image,
            at.saturating_add(16),
            &(used as u64).to_le_bytes(),
        )
    }

    /// The image: its file header and its directories are written now.
    pub fn build(self) -> Result<Vec<u8>, AllocError> {
        let Sample {
            mut image,
            directory,
            entries,
            tiles,
            attachment_directory,
            attachment_entries,
            attachments,
            metadata,
            ..
        } = self;
        let header = file_header(directory, attachment_directory, metadata)?;
        put_at(&mut image, 0, &header)?;
        if directory > 0 {
            put_directory(&mut image, directory, tiles, &entries)?;
        }
        if attachment_directory > 0 {
            put_entries(&mut image, attachment_directory, FRONT, &attachment_entries)?;
            let count = attachment_directory.saturating_add(HEADER);
            put_at(&mut image, count, &attachments.to_le_bytes())?;
        }
        Ok(image)
    }
}

/// A subblock of pixel type 0 with these pixels alone.
fn tile<'a>(dims: &'a [u8], pixels: &'a [u8]) -> Subblock<'a> {
    Subblock {
        pixel: 0,
        compression: 0,
        dims,
        meta: b"",
        pixels,
        tail: b"",
    }
}

/// How many bytes of a segment's data are used: those before its contents, and these.
fn used_of(front: usize, contents: &[&[u8]]) -> usize {
    let mut used = front;
    for bytes in contents {
        used = used.saturating_add(bytes.len());
    }
    used
}

fn subblock_data(alloc: Global, entry: &[u8], subblock: &Subblock) -> Result<Vec<u8>, AllocError> {
    let Subblock {
        meta,
        pixels,
        tail,
        ..
    } = *subblock;
    if entry.len() > 832 || meta.len() > TEXT_LIMIT {
        return Err(AllocError);
    }
    if pixels.len() > DATA_LIMIT || tail.len() > DATA_LIMIT {
        return Err(AllocError);
    }
    let mut region = Region::new(alloc);
    region.ensure(sub_size(entry.len(), meta.len(), pixels.len(), tail.len()))?;
    let piece = stage_sub(&mut region, entry, meta, pixels, tail);
    Vec::from_slice(alloc, region.get(&piece))
}

fn attachment_info(kind: &[u8], name: &[u8]) -> Result<AttInfo, AllocError> {
    let mut info = AttInfo {
        guid: GUID,
        kind: [0; 8],
        name: [0; 80],
    };
    put_at(&mut info.kind, 0, kind)?;
    put_at(&mut info.name, 0, name)?;
    Ok(info)
}

fn attachment_data(
    alloc: Global,
    info: &AttInfo,
    at: i64,
    bytes: &[u8],
) -> Result<Vec<u8>, AllocError> {
    if bytes.len() > DATA_LIMIT {
        return Err(AllocError);
    }
    let mut region = Region::new(alloc);
    region.ensure(att_size(bytes.len()))?;
    let piece = stage_att(&mut region, info, at, bytes);
    Vec::from_slice(alloc, region.get(&piece))
}

fn metadata_data(alloc: Global, xml: &[u8], tail: &[u8]) -> Result<Vec<u8>, AllocError> {
    if xml.len() > TEXT_LIMIT || tail.len() > DATA_LIMIT {
        return Err(AllocError);
    }
    let mut region = Region::new(alloc);
    region.ensure(meta_size(xml.len(), tail.len()))?;
    let piece = stage_meta(&mut region, xml, tail);
    Vec::from_slice(alloc, region.get(&piece))
}

/// The file header of version 1, with pointers to what stands at these places, or with 0.
fn file_header(
    directory: usize,
    attachments: usize,
    metadata: usize,
) -> Result<[u8; FILE_HEADER], AllocError> {
    let mut identity = [0; 52];
    identity[0] = 1;
    write_bytes(&mut identity, 16, &GUID);
    write_bytes(&mut identity, 32, &GUID);
    let fits = directory <= MOST && attachments <= MOST && metadata <= MOST;
    if !fits || read_i32(&identity, 48) != 0 {
        return Err(AllocError);
    }
    Ok(write_file_header(&FileHeader {
        identity,
        directory: directory as i64,
        metadata: metadata as i64,
        pending: 0,
        attachments: attachments as i64,
        allocated: 512,
    }))
}

/// Writes the entries of a directory, and its UsedSize.
fn put_entries(
    image: &mut [u8],
    at: usize,
    front: usize,
    entries: &[u8],
) -> Result<(), AllocError> {
    let used = front.saturating_add(entries.len());
    put_at(image, at.saturating_add(24), &(used as u64).to_le_bytes())?;
    let begin = at.saturating_add(HEADER).saturating_add(front);
    put_at(image, begin, entries)
}

fn put_directory(
    image: &mut [u8],
    at: usize,
    tiles: u32,
    entries: &[u8],
) -> Result<(), AllocError> {
    if tiles > 1 << 20 {
        return Err(AllocError);
    }
    put_entries(image, at, HEAD, entries)?;
    put_at(
        image,
        at.saturating_add(HEADER),
        &write_directory_head(tiles),
    )
}
