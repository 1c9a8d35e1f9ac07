//! Journals that count.

ghost use Rattle.std.specs.Prelude.{◌≡◌, ◌≤◌, ◌^◌, IfOk, OnOk};
ghost use Rattle.czi_links.specs.Record.{EndWithin, next_place};

use crate::changes::put_at;
use crate::places::SLOT_B;
use crate::sample::GUID;
use czi_links::{Links, SlotHead};
use std::alloc::{AllocError, Global};

/// A link: bytes that are to stand at a place of the image.
pub type Link = (u64, &'static [u8]);

/// The bytes of a journal.
const LEN: usize = 524_352;

/// The bytes of a slot.
const SLOT: usize = 262_144;

/// A journal whose slot B is selected. Its record is for an image with the GUID of all samples, and has this committed length
/// and these links; slot A has none.
pub fn journal_of(alloc: Global, length: u64, links: &[Link]) -> Result<Vec<u8>, AllocError> {
    if length < 112 || length > 1 << 62 {
        return Err(AllocError);
    }
    let record = record_of(alloc, length, links)?;
    let mut journal = vec![in alloc; 0u8; LEN]?;
    put_at(&mut journal, 0, &[0x5a, 1])?;
    put_at(&mut journal, SLOT_B, &record)?;
    Ok(journal)
}

fn record_of(alloc: Global, length: u64, parts: &[Link]) -> Result<Vec<u8>, AllocError>
    requires least { 112 ≤ length }
    requires greatest { length ≤ 2 ^ 62 }
{
    let links = links_of(alloc, length, parts)?;
    let len = links.encoded_len();
    if len > SLOT {
        return Err(AllocError);
    }
    let mut record = vec![in alloc; 0u8; len]?;
    links.encode(&SlotHead { guid: GUID, length }, &mut record);
    Ok(record)
}

fn links_of(alloc: Global, length: u64, parts: &[Link]) -> Result<Links, AllocError>
    ensures { IfOk result (λ links. EndWithin length links.links) }
{
    let mut links = Links::new(alloc);
    let mut next = 84;
    for (place, bytes) in parts {
        next = push_link(&mut links, next, length, *place, bytes)?;
    }
    Ok(links)
}

/// Puts a link behind the others that begins at `from` or later and ends within the length, and says where it ends.
fn push_link(
    links: &mut Links,
    from: u64,
    length: u64,
    place: u64,
    bytes: &[u8],
) -> Result<u64, AllocError>
    requires from { next_place 84 links.old.links ≡ from }
    requires ends { EndWithin length links.old.links }
    ensures from { IfOk result (λ end. next_place 84 links.new.links ≡ end) }
    ensures ends { OnOk result (EndWithin length links.new.links) }
{
    let fits = from <= place && place <= length && bytes.len() as u64 <= length - place;
    if !fits || bytes.is_empty() {
        return Err(AllocError);
    }
    links.reserve(1, bytes.len())?;
    links.push(place, bytes);
    Ok(place + bytes.len() as u64)
}
