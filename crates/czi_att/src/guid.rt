//! The text of GUIDs.

ghost use Rattle.std.specs.Prelude.{◌≡◌, Some, option_map};
ghost use Rattle.czi_format.specs.Bytes.{stored_order};
ghost use Rattle.uuid.specs.Text.{hyphenated_text, lower, parsed};

use uuid::Uuid;

/// The GUID that a text names, as it is stored. None exactly where `uuid` doesn't read the text: it is
/// 32 hexadecimal digits, alone, hyphenated, hyphenated in braces, or hyphenated behind `urn:uuid:`.
pub fn read_guid(text: &str) -> Option<[u8; 16]>
    ensures { result ≡ option_map stored_order (parsed text.now) }
{
    match Uuid::try_parse(text) {
        Ok(id) => Some(id.to_bytes_le()),
        Err(_) => None,
    }
}

/// The text of a stored GUID: hyphenated, in lower case.
pub fn write_guid(guid: &[u8; 16]) -> [u8; 36]
    ensures text { result ≡ hyphenated_text lower (stored_order guid.now) }
    ensures reads_back { option_map stored_order (parsed result) ≡ Some guid.now }
{
    let mut buffer = Uuid::encode_buffer();
    let text = Uuid::from_bytes_le(*guid)
        .hyphenated()
        .encode_lower(&mut buffer);
    let mut written = [0u8; 36];
    written.copy_from_slice(text.as_bytes());
    written
}
