//! The data of new segments, put into a region of memory.

ghost use Rattle.std.specs.Prelude.{◌≡◌, ◌≤◌, ◌+◌, ◌*◌, ◌^◌, ◌++◌, length, pos, replicate};
ghost use Rattle.czi_format.specs.Bytes.{i32_bytes, i64_bytes};
ghost use Rattle.czi_format.specs.Data.{metadata_data, subblock_data};
ghost use Rattle.czi_format.specs.Document.{Subblock};
ghost use Rattle.czi_format.specs.Entry.{Entry};
ghost use Rattle.czi_format.specs.Span.{round32};
ghost use Rattle.czi_num.specs.Padding.{fill};
ghost use Rattle.czi_region.specs.Pieces.{PutsPiece, bytes_put, room};
ghost use Rattle.czi_body.specs.Staged.{AreParts, meta_length, sub_data, sub_front, sub_length};

use crate::places::{META_SIZE, OWN_ENTRY, PIXELS_SIZE, TAIL_SIZE, XML_SIZE};
use czi_doc::{DATA_LIMIT, TEXT_LIMIT};
use czi_format::CONTENTS;
use czi_num::{round32, write_u32, write_u64};
use czi_region::{Piece, Region, whole_piece};

/// How long the data of a subblock is, padded to a multiple of 32, from the lengths of its own directory
/// entry, of the metadata, of the pixels and of the attachment. All are in bytes, and within the limits of an
/// edit.
pub fn sub_size(entry: usize, meta: usize, pixels: usize, tail: usize) -> usize
    requires entry { entry ≤ 32 + 20 * 40 }
    requires meta { meta ≤ TEXT_LIMIT }
    requires pixels { pixels ≤ DATA_LIMIT }
    requires tail { tail ≤ DATA_LIMIT }
    ensures { result ≡ round32 (sub_length entry meta pixels tail) }
{
    padded(sub_used(entry, meta, pixels, tail))
}

/// Puts the data of a subblock into the region as one piece: the bytes of its own directory entry, the
/// metadata, the pixels and the attachment, each at its place, and zeros up to a multiple of 32. The region has
/// room for as many bytes as `sub_size` says.
pub fn stage_sub(
    region: &mut Region,
    entry: &[u8],
    meta: &[u8],
    pixels: &[u8],
    tail: &[u8],
) -> Piece
    requires entry { length entry.now ≤ 32 + 20 * 40 }
    requires meta { length meta.now ≤ TEXT_LIMIT }
    requires pixels { length pixels.now ≤ DATA_LIMIT }
    requires tail { length tail.now ≤ DATA_LIMIT }
    requires room { round32 (sub_length (length entry.now) (length meta.now) (length pixels.now) (length tail.now)) ≤ room region.old }
    ensures staged { PutsPiece region.old region.new result (sub_data entry.now meta.now pixels.now tail.now (fill (sub_length (length entry.now) (length meta.now) (length pixels.now) (length tail.now)))) }
    ensures size { result.len ≡ round32 (sub_length (length entry.now) (length meta.now) (length pixels.now) (length tail.now)) }
    ensures subblock { (e : Entry) (s : Subblock) → AreParts e s entry.now meta.now pixels.now tail.now → PutsPiece region.old region.new result (subblock_data e s (fill (length (subblock_data e s 0)))) }
{
    let used = sub_used(entry.len(), meta.len(), pixels.len(), tail.len());
    let len = padded(used);
    let front = put_sub_front(region, entry, meta.len(), pixels.len(), tail.len());
    put_contents(region, meta, pixels, tail);
    region.zeros(len - used);
    whole_piece();
    Piece { at: front.at, len }
}

/// How long the metadata's data is, padded to a multiple of 32, from the lengths of the XML and of the
/// attachment. All are in bytes, and within the limits of an edit.
pub fn meta_size(xml: usize, tail: usize) -> usize
    requires xml { xml ≤ TEXT_LIMIT }
    requires tail { tail ≤ DATA_LIMIT }
    ensures { result ≡ round32 (meta_length xml tail) }
{
    padded(CONTENTS + xml + tail)
}

/// Puts the metadata's data into the region as one piece: the XML and the attachment, each at its place, and
/// zeros up to a multiple of 32. The region has room for as many bytes as `meta_size` says.
pub fn stage_meta(region: &mut Region, xml: &[u8], tail: &[u8]) -> Piece
    requires xml { length xml.now ≤ TEXT_LIMIT }
    requires tail { length tail.now ≤ DATA_LIMIT }
    requires room { round32 (meta_length (length xml.now) (length tail.now)) ≤ room region.old }
    ensures staged { PutsPiece region.old region.new result (metadata_data (record { xml = xml.now; tail = tail.now }) (fill (meta_length (length xml.now) (length tail.now)))) }
    ensures size { result.len ≡ round32 (meta_length (length xml.now) (length tail.now)) }
{
    let used = CONTENTS + xml.len() + tail.len();
    let len = padded(used);
    let front = region.put(&meta_front(xml.len(), tail.len()));
    region.put(xml);
    region.put(tail);
    region.zeros(len - used);
    whole_piece();
    Piece { at: front.at, len }
}

/// How long the data of a subblock is without its padding.
fn sub_used(entry: usize, meta: usize, pixels: usize, tail: usize) -> usize
    requires entry { entry ≤ 32 + 20 * 40 }
    requires meta { meta ≤ TEXT_LIMIT }
    requires pixels { pixels ≤ DATA_LIMIT }
    requires tail { tail ≤ DATA_LIMIT }
    ensures { result ≡ sub_length entry meta pixels tail }
{
    (OWN_ENTRY + entry).max(CONTENTS) + meta + pixels + tail
}

/// A length rounded up to a multiple of 32.
fn padded(used: usize) -> usize
    requires { used ≤ 2 ^ 32 }
    ensures value { result ≡ round32 used }
    ensures reaches { used ≤ result }
{
    round32(used as u64) as usize
}

/// Puts the front of a subblock's data: all that stands before the contents.
fn put_sub_front(
    region: &mut Region,
    entry: &[u8],
    meta: usize,
    pixels: usize,
    tail: usize,
) -> Piece
    requires meta { meta ≤ TEXT_LIMIT }
    requires tail { tail ≤ DATA_LIMIT }
    requires room { length (sub_front entry.now meta pixels tail) ≤ room region.old }
    ensures { PutsPiece region.old region.new result (sub_front entry.now meta pixels tail) }
{
    let sizes = region.put(&sub_sizes(meta, pixels, tail));
    let own = region.put(entry);
    let filling = region.zeros(CONTENTS.saturating_sub(OWN_ENTRY + entry.len()));
    whole_piece();
    Piece {
        at: sizes.at,
        len: sizes.len + own.len + filling.len,
    }
}

/// Puts the contents of a subblock one behind another.
fn put_contents(region: &mut Region, meta: &[u8], pixels: &[u8], tail: &[u8])
    requires { length meta.now + length pixels.now + length tail.now ≤ room region.old }
    ensures bytes { bytes_put region.new ≡ bytes_put region.old ++ (meta.now ++ (pixels.now ++ tail.now)) }
    ensures room { room region.new + (length meta.now + length pixels.now + length tail.now) ≡ room region.old }
{
    region.put(meta);
    region.put(pixels);
    region.put(tail);
}

/// The three sizes at the front of a subblock's data.
fn sub_sizes(meta: usize, pixels: usize, tail: usize) -> [u8; OWN_ENTRY]
    requires meta { meta ≤ TEXT_LIMIT }
    requires tail { tail ≤ DATA_LIMIT }
    ensures { result ≡ i32_bytes (pos meta) ++ (i32_bytes (pos tail) ++ i64_bytes (pos pixels)) }
{
    let mut sizes = [0; OWN_ENTRY];
    write_u32(&mut sizes, META_SIZE, meta as u32);
    write_u32(&mut sizes, TAIL_SIZE, tail as u32);
    write_u64(&mut sizes, PIXELS_SIZE, pixels as u64);
    sizes
}

/// What stands before the contents in the metadata's data: the two sizes.
fn meta_front(xml: usize, tail: usize) -> [u8; CONTENTS]
    requires xml { xml ≤ TEXT_LIMIT }
    requires tail { tail ≤ DATA_LIMIT }
    ensures { result ≡ i32_bytes (pos xml) ++ (i32_bytes (pos tail) ++ replicate 248 0) }
{
    let mut front = [0; CONTENTS];
    write_u32(&mut front, XML_SIZE, xml as u32);
    write_u32(&mut front, TAIL_SIZE, tail as u32);
    front
}
