//! Attachment entries.

ghost use Rattle.std.specs.Prelude.{◌≡◌, ◌++◌, List, ℕ, Some, is_some, option_map, bytes_eq, codes};
ghost use Rattle.czi_format.specs.Bytes.{bytes_at};
ghost use Rattle.czi_format.specs.Entry.{IsA1, a1, a1_bytes};
ghost use Rattle.czi_doc.specs.View.{att_of};
ghost use Rattle.czi_att.specs.View.{a1_of};

use czi_doc::AttInfo;
use czi_format::A1_LEN;
use czi_num::{read_bytes, read_i64, write_bytes, write_i64};

/// The attachment entry in 128 bytes, and FilePosition, the place of the attachment's segment. Its
/// reserved bytes and FilePart aren't looked at.
///
/// None exactly where the bytes don't begin with `A1`.
#[tactic(auto, unfolding(czi_format::specs::Entry::a1))]
pub fn read_a1(bytes: &[u8; A1_LEN]) -> Option<(AttInfo, i64)>
    ensures read { option_map a1_of result ≡ a1 bytes.now }
    ensures schema { is_some result ≡ bytes_eq (bytes_at bytes.now 0 2) (codes "A1") }
{
    if read_bytes::<2>(bytes, 0) != *b"A1" {
        return None;
    }
    let info = AttInfo {
        guid: read_bytes(bytes, 24),
        kind: read_bytes(bytes, 40),
        name: read_bytes(bytes, 48),
    };
    Some((info, read_i64(bytes, 12)))
}

/// The 128 bytes of an attachment entry. Its reserved bytes and FilePart are 0.
pub fn write_a1(info: &AttInfo, position: i64) -> [u8; A1_LEN]
    ensures written { result ≡ a1_bytes (record { info = att_of info.now; position = position }) }
    ensures own { IsA1 (record { info = att_of info.now; position = position }) }
    ensures reads_back { (rest : List ℕ) → a1 (result ++ rest) ≡ Some (record { info = att_of info.now; position = position }) }
{
    let mut bytes = [0u8; A1_LEN];
    write_bytes(&mut bytes, 0, b"A1");
    write_i64(&mut bytes, 12, position);
    write_bytes(&mut bytes, 24, &info.guid);
    write_bytes(&mut bytes, 40, &info.kind);
    write_bytes(&mut bytes, 48, &info.name);
    bytes
}
