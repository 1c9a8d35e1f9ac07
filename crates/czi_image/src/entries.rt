//! The entries of the two directories.

ghost use Rattle.std.specs.Prelude.{◌≡◌, ◌+◌, ◌-◌, ◌*◌, ◌^◌, ◌≤◌, min, map, length, option_map, vec_len, IfOk, IfErr, MatchOption, None};
ghost use Rattle.std.specs.Option.{ForSome};
ghost use Rattle.czi_rig.specs.State.{seen_of};
ghost use Rattle.czi_rig.specs.Faults.{Faults, fault_at};
ghost use Rattle.czi_rig.specs.Quiet.{Untouched};
ghost use Rattle.czi_format.specs.Bytes.{bytes_at};
ghost use Rattle.czi_format.specs.Entry.{a1, entry};
ghost use Rattle.czi_att.specs.View.{a1_of};
ghost use Rattle.czi_dv.specs.View.{entry_of};
ghost use Rattle.czi_image.specs.Entries.{ReadsEntry};
ghost use Rattle.czi_image.specs.Devices.{image_device};
ghost use Rattle.czi_image.specs.Faults.{IsOnlyCalls, Tells};
ghost use Rattle.czi_image.specs.Inside.{HoldsEntries, IsWithin};
ghost use Rattle.czi_image.specs.Rules.{a1_rules, entry_rules};

use crate::directory::Directory;
use crate::fault::ImageFault;
use czi_att::read_a1;
use czi_doc::AttInfo;
use czi_dv::{Entry, EntryFault, read_entry};
use czi_format::{A1_LEN, ATTDIR_ENTRIES, DIRECTORY_ENTRIES, DIRECTORY_FRONT, LONGEST_ENTRY};
use czi_num::read_bytes;
use czi_rig::{File, Rig};
use std::alloc::{AllocError, Global};

/// Reads so many bytes at a place of the image.
fn read_piece<R: Rig>(alloc: Global, rig: &mut R, at: u64, len: u64) -> Result<Vec<u8>, ImageFault>
    requires inside { ForSome (seen_of (R.state rig.old) File.Image) (λ image. at + len ≤ length image) }
    requires small { at + len ≤ 2 ^ 62 }
    ensures bytes { IfOk result (λ bytes. ForSome (seen_of (R.state rig.old) File.Image) (λ image. bytes.items ≡ bytes_at image at len)) }
    ensures len { IfOk result (λ bytes. vec_len bytes ≡ len) }
    ensures only { IfErr result IsOnlyCalls }
    ensures untouched { Untouched R.Rig rig.old rig.new }
    ensures cause { Faults (fault_at image_device result) (R.state rig.old) (R.state rig.new) }
{
    let mut bytes = vec![in alloc; 0u8; len as usize]?;
    match rig.read_at(File::Image, at, &mut bytes) {
        Ok(()) => Ok(bytes),
        Err(_) => Err(ImageFault::Device),
    }
}

/// The bytes of a directory's entries, read in one piece: all of its data behind the head of 128 bytes, or as
/// much of it as the entries can reach.
pub(crate) fn read_entries<R: Rig>(
    alloc: Global,
    rig: &mut R,
    directory: &Directory,
) -> Result<Vec<u8>, ImageFault>
    requires inside { ForSome (seen_of (R.state rig.old) File.Image) (λ image. IsWithin (length image) directory.now) }
    requires within { IsWithin (2 ^ 62) directory.now }
    ensures bytes { IfOk result (λ bytes. ForSome (seen_of (R.state rig.old) File.Image) (λ image.
        bytes.items ≡ bytes_at image (directory.now.segment.span.at + DIRECTORY_ENTRIES) (min (directory.now.segment.head.allocated - DIRECTORY_FRONT) (LONGEST_ENTRY * directory.now.count)))) }
    ensures len { IfOk result (λ bytes. vec_len bytes ≤ directory.now.segment.head.allocated - DIRECTORY_FRONT) }
    ensures only { IfErr result IsOnlyCalls }
    ensures untouched { Untouched R.Rig rig.old rig.new }
    ensures cause { Faults (fault_at image_device result) (R.state rig.old) (R.state rig.new) }
{
    let reach = LONGEST_ENTRY as u64 * u64::from(directory.count);
    let len = (directory.segment.head.allocated - DIRECTORY_FRONT as u64).min(reach);
    read_piece(
        alloc,
        rig,
        directory.segment.span.at + DIRECTORY_ENTRIES,
        len,
    )
}

/// The entry at the front of the bytes and its length, or none where none stands there.
fn entry_at_front(alloc: Global, bytes: &[u8]) -> Result<Option<(Entry, usize)>, AllocError>
    ensures { IfOk result (λ o. MatchOption o (entry bytes.now ≡ None) (λ r. ReadsEntry bytes.now r.0 r.1)) }
{
    match read_entry(alloc, bytes) {
        Ok((entry, len)) => Ok(Some((entry, len))),
        Err(EntryFault::Memory) => Err(AllocError),
        Err(_) => Ok(None),
    }
}

/// The entries that stand one after another in the bytes, the first of them at a place of the image.
pub(crate) fn take_entries(
    alloc: Global,
    count: u32,
    bytes: &[u8],
    place: u64,
) -> Result<Vec<Entry>, ImageFault>
    requires { place + length bytes.now ≤ 2 ^ 62 }
    ensures found { IfOk result (λ es. entry_rules count place bytes.now ≡ Ok (map entry_of es.items)) }
    ensures len { IfOk result (λ es. vec_len es ≡ count) }
    ensures refused { IfErr result (Tells (entry_rules count place bytes.now)) }
    ensures own { fault_at image_device result ≡ None }
{
    let mut entries = Vec::new(alloc);
    let mut rest = bytes;
    let mut at = place;
    for number in 0..count {
        match entry_at_front(alloc, rest)? {
            Some((entry, len)) => {
                entries.push(entry)?;
                let (_, behind) = rest.split_at(len);
                rest = behind;
                at += len as u64;
            }
            None => return Err(ImageFault::BadEntry(at as i64)),
        }
    }
    Ok(entries)
}

/// The bytes of an attachment directory's entries, which stand behind a head of 256 bytes, read in one piece.
pub(crate) fn read_a1_entries<R: Rig>(
    alloc: Global,
    rig: &mut R,
    directory: &Directory,
) -> Result<Vec<u8>, ImageFault>
    requires inside { ForSome (seen_of (R.state rig.old) File.Image) (λ image. HoldsEntries (length image) directory.now) }
    requires within { HoldsEntries (2 ^ 62) directory.now }
    ensures bytes { IfOk result (λ bytes. ForSome (seen_of (R.state rig.old) File.Image) (λ image.
        bytes.items ≡ bytes_at image (directory.now.segment.span.at + ATTDIR_ENTRIES) (A1_LEN * directory.now.count))) }
    ensures len { IfOk result (λ bytes. vec_len bytes ≡ A1_LEN * directory.now.count) }
    ensures only { IfErr result IsOnlyCalls }
    ensures untouched { Untouched R.Rig rig.old rig.new }
    ensures cause { Faults (fault_at image_device result) (R.state rig.old) (R.state rig.new) }
{
    read_piece(
        alloc,
        rig,
        directory.segment.span.at + ATTDIR_ENTRIES,
        A1_LEN as u64 * u64::from(directory.count),
    )
}

/// The attachment entry at the front of the bytes.
fn a1_at_front(bytes: &[u8]) -> Option<(AttInfo, i64)>
    ensures { option_map a1_of result ≡ a1 bytes.now }
{
    if bytes.len() < A1_LEN {
        return None;
    }
    read_a1(&read_bytes(bytes, 0))
}

/// The attachment entries that stand one after another in the bytes, the first of them at a place of the image.
pub(crate) fn take_a1_entries(
    alloc: Global,
    count: u32,
    bytes: &[u8],
    place: u64,
) -> Result<Vec<(AttInfo, i64)>, ImageFault>
    requires small { place + length bytes.now ≤ 2 ^ 62 }
    requires whole { length bytes.now ≡ A1_LEN * count }
    ensures found { IfOk result (λ es. a1_rules count place bytes.now ≡ Ok (map a1_of es.items)) }
    ensures len { IfOk result (λ es. vec_len es ≡ count) }
    ensures refused { IfErr result (Tells (a1_rules count place bytes.now)) }
    ensures own { fault_at image_device result ≡ None }
{
    let mut entries = Vec::new(alloc);
    let mut rest = bytes;
    let mut at = place;
    for number in 0..count {
        let Some(entry) = a1_at_front(rest) else {
            return Err(ImageFault::BadAttachment(at as i64))
        };
        entries.push(entry)?;
        let (_, behind) = rest.split_at(A1_LEN);
        rest = behind;
        at += A1_LEN as u64;
    }
    Ok(entries)
}
