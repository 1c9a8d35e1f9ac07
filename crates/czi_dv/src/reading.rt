//! Entries that are read.

ghost use Rattle.std.specs.Prelude.{◌≡◌, ◌⊎◌, ◌↔◌, ◌+◌, ◌*◌, ◌≤◌, ◌<◌, length, codes, bytes_eq, map, take, IfOk, IfErr, IfSome, IsSome};
ghost use Rattle.czi_format.specs.Bytes.{bytes_at};
ghost use Rattle.czi_format.specs.Entry.{EntryBytes, dim, dims, entry, entry_len, with_records};
ghost use Rattle.czi_format.specs.EntryRules.{EntryRefusal, entry_rules, record_count};
ghost use Rattle.czi_doc.specs.View.{dim_of, info_of};
ghost use Rattle.czi_dv.specs.View.{TellsEntryRule, entry_of, fault_of};

use crate::entry::{Entry, EntryFault};
use czi_doc::{Dim, Dims, EntryInfo};
use czi_num::{read_bytes, read_i32, read_i64};
use std::alloc::{AllocError, Global};

/// The directory entry at the front of the bytes, and its length in bytes. What follows the entry isn't
/// looked at.
///
/// It is refused by the first of these rules that fails: there are 32 bytes (`Short`), they begin with
/// `DV` (`Schema`), there are 1 to 40 dimension records (`Dims`), FilePart is 0 (`Part`), and the records
/// end within the bytes (`Short`).
pub fn read_entry(alloc: Global, bytes: &[u8]) -> Result<(Entry, usize), EntryFault>
    ensures read { IfOk result (λ r. entry bytes.now ≡ Some (entry_of r.0)) }
    ensures len { IfOk result (λ r. (r.1 ≡ entry_len (entry_of r.0)) × (r.1 ≤ length bytes.now)) }
    ensures whole { IfOk result (λ r. EntryBytes (info_of r.0.info) r.0.position (take r.1 bytes.now)) }

    ensures refused { (refusal : EntryRefusal) → (result ≡ Err (fault_of refusal)) ↔ (entry_rules bytes.now ≡ Err refusal) }
    ensures none { IfErr result (λ fault. (fault ≡ EntryFault.Memory) ⊎ (entry bytes.now ≡ None)) }
    ensures memory { result ≡ Err EntryFault.Memory → IsSome (entry bytes.now) }
{
    let count = read_count(bytes)?;
    let (_, records) = bytes.split_at(32);
    let list = read_dims(alloc, records, count)?;
    Ok((with_list(bytes, list), 32 + 20 * count))
}

/// How many dimension records the entry at the front of the bytes has.
#[tactic(auto, unfolding(czi_format::specs::EntryRules::entry_rules))]
fn read_count(bytes: &[u8]) -> Result<usize, EntryFault>
    ensures count { IfOk result (λ n. entry_rules bytes.now ≡ Ok n) }
    ensures few { IfOk result (λ n. (1 ≤ n) × (n ≤ 40)) }
    ensures fits { IfOk result (λ n. 32 + 20 * n ≤ length bytes.now) }
    ensures refused { IfErr result (TellsEntryRule bytes.now) }
{
    if bytes.len() < 32 {
        return Err(EntryFault::Short);
    }
    if !has_schema(bytes) {
        return Err(EntryFault::Schema);
    }
    let stored = read_i32(bytes, 28);
    let Some(count) = record_count(stored) else {
        return Err(EntryFault::Dims(stored))
    };
    let part = read_i32(bytes, 14);
    if part != 0 {
        return Err(EntryFault::Part(part));
    }
    if bytes.len() < 32 + 20 * count {
        return Err(EntryFault::Short);
    }
    Ok(count)
}

/// The bytes begin with `DV`.
#[tactic(auto, unfolding(czi_format::specs::Bytes::bytes_at))]
fn has_schema(bytes: &[u8]) -> bool
    requires { 2 ≤ length bytes.now }
    ensures { result ≡ bytes_eq (bytes_at bytes.now 0 2) (codes "DV") }
{
    &bytes[..2] == b"DV".as_slice()
}

/// A number of dimension records, from 1 to 40.
fn record_count(stored: i32) -> Option<usize>
    ensures value { result ≡ record_count stored }
    ensures few { IfSome result (λ n. (1 ≤ n) × (n ≤ 40)) }
{
    if stored < 1 || stored > 40 {
        None
    } else {
        Some(stored as usize)
    }
}

/// The first dimension records.
fn read_dims(alloc: Global, bytes: &[u8], count: usize) -> Result<Vec<Dim>, AllocError>
    requires { 20 * count ≤ length bytes.now }
    ensures records { IfOk result (λ list. map dim_of list.items ≡ dims count bytes.now) }
    ensures count { IfOk result (λ list. length list.items ≡ count) }
{
    let mut list = Vec::with_capacity(alloc, count)?;
    let mut rest = bytes;
    for i in 0..count {
        list.push(read_dim(rest))?;
        let (_, behind) = rest.split_at(20);
        rest = behind;
    }
    Ok(list)
}

/// The dimension record at the front of the bytes.
#[tactic(auto, unfolding(czi_format::specs::Entry::dim))]
fn read_dim(bytes: &[u8]) -> Dim
    requires { 20 ≤ length bytes.now }
    ensures { dim_of result ≡ dim bytes.now }
{
    Dim {
        name: read_bytes(bytes, 0),
        start: read_i32(bytes, 4),
        size: read_i32(bytes, 8),
        coord: read_bytes(bytes, 12),
        stored: read_i32(bytes, 16),
    }
}

/// The entry with the fields of these bytes and these dimension records.
#[tactic(auto, unfolding(czi_format::specs::Bytes::byte_at))]
fn with_list(bytes: &[u8], list: Vec<Dim>) -> Entry
    requires long { 32 ≤ length bytes.now }
    requires some { 1 ≤ length list.items }
    requires few { length list.items ≤ 40 }
    ensures { entry_of result ≡ with_records bytes.now (map dim_of list.items) }
{
    let dims = Dims::new(list).unwrap();
    let info = EntryInfo {
        pixel: read_i32(bytes, 2),
        compression: read_i32(bytes, 18),
        pyramid: bytes[22],
        spare: read_bytes(bytes, 23),
        dims,
    };
    Entry {
        info,
        position: read_i64(bytes, 6),
    }
}
