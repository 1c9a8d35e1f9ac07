//! Entries that are written.

ghost use Rattle.std.specs.Prelude.{◌≡◌, ℕ, ◌+◌, ◌-◌, ◌*◌, ◌^◌, ◌≤◌, ◌++◌, List, Some, length, map, take, flat_map};
ghost use Rattle.std.specs.List.{AllByRecursion};
ghost use Rattle.czi_format.specs.Contents.{entry_count, directory_head};
ghost use Rattle.czi_format.specs.Entry.{EntryBytes, IsDim, IsEntryInfo, dim_bytes, entry, entry_bytes, head_bytes, info_len};
ghost use Rattle.czi_doc.specs.View.{dim_of, dims_of, info_of};

use czi_doc::{Dim, EntryInfo};
use czi_format::DIRECTORY_FRONT;
use czi_num::{write_bytes, write_i32, write_i64, write_u32};

/// The length of an entry in bytes.
pub fn entry_len(info: &EntryInfo) -> usize
    ensures { result ≡ info_len (info_of info.now) }
{
    32 + 20 * info.dims.list().len()
}

/// Writes an entry over the whole of `out`.
pub fn write_entry(info: &EntryInfo, position: i64, out: &mut [u8])
    requires { length out.old ≡ info_len (info_of info.now) }
    ensures written { out.new ≡ entry_bytes (record { info = info_of info.now; position = position }) }
    ensures whole { EntryBytes (info_of info.now) position out.new }
    ensures reads_back { (rest : List ℕ) → entry (out.new ++ rest) ≡ Some (record { info = info_of info.now; position = position }) }
{
    write_bytes(out, 0, &entry_head(info, position));
    write_dims(info.dims.list(), out);
}

/// The first 32 bytes of an entry.
fn entry_head(info: &EntryInfo, position: i64) -> [u8; 32]
    ensures written { result ≡ head_bytes (info_of info.now) position }
    ensures is { AllByRecursion IsDim (dims_of info.now.dims) → IsEntryInfo (info_of info.now) }
{
    let mut head = [0u8; 32];
    write_bytes(&mut head, 0, b"DV");
    write_i32(&mut head, 2, info.pixel);
    write_i64(&mut head, 6, position);
    write_u32(&mut head, 14, 0);
    write_i32(&mut head, 18, info.compression);
    write_bytes(&mut head, 22, &[info.pyramid]);
    write_bytes(&mut head, 23, &info.spare);
    write_u32(&mut head, 28, info.dims.list().len() as u32);
    head
}

/// Writes the dimension records behind the first 32 bytes.
fn write_dims(list: &[Dim], out: &mut [u8])
    requires { length out.old ≡ 32 + 20 * length list.now }
    ensures written { out.new ≡ take 32 out.old ++ flat_map dim_bytes (map dim_of list.now) }
    ensures records { AllByRecursion IsDim (map dim_of list.now) }
{
    for (i, dim) in list.iter().enumerate() {
        write_bytes(out, 32 + 20 * i, &dim_record(dim));
    }
}

/// A dimension record.
fn dim_record(dim: &Dim) -> [u8; 20]
    ensures written { result ≡ dim_bytes (dim_of dim.now) }
    ensures is { IsDim (dim_of dim.now) }
{
    let mut record = [0u8; 20];
    write_bytes(&mut record, 0, &dim.name);
    write_i32(&mut record, 4, dim.start);
    write_i32(&mut record, 8, dim.size);
    write_bytes(&mut record, 12, &dim.coord);
    write_i32(&mut record, 16, dim.stored);
    record
}

/// The head of a directory's data: EntryCount, and 124 reserved bytes of 0.
#[tactic(auto, unfolding(czi_format::specs::Contents::entry_count))]
pub fn write_directory_head(count: u32) -> [u8; DIRECTORY_FRONT]
    requires { count ≤ 2 ^ 31 - 1 }
    ensures written { result ≡ directory_head count }
    ensures reads_back { (rest : List ℕ) → entry_count (result ++ rest) ≡ Some count }
{
    let mut head = [0u8; DIRECTORY_FRONT];
    write_u32(&mut head, 0, count);
    head
}
