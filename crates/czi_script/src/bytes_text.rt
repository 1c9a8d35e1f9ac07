//! Values of lines that name bytes: bytes text, and the text of GUIDs.

ghost use Rattle.std.specs.Prelude.{◌≡◌, ◌≢◌, ◌<◌, ◌≤◌, ◌++◌, ◌-◌, ℕ, List, false, length, replicate, take, option_map, MatchOption};
ghost use Rattle.std.specs.Fmt.{digit_glyph};
ghost use Rattle.uuid.specs.Text.{parsed};
ghost use Rattle.czi_format.specs.Bytes.{stored_order};
ghost use Rattle.czi_format.specs.Text as format;
ghost use Rattle.czi_script.specs.BytesText.{IsBytesText, IsPaddedText, padded};
ghost use Rattle.czi_script.specs.Pieces.{SpellsFirst};

use uuid::Uuid;

/// The GUID that a text names, as it is stored. None exactly where `uuid` doesn't read the text.
pub(crate) fn guid_by(text: &[u8]) -> Option<[u8; 16]>
    ensures { result ≡ option_map stored_order (parsed text.now) }
{
    match Uuid::try_parse_ascii(text) {
        Ok(id) => Some(id.to_bytes_le()),
        Err(_) => None,
    }
}

/// Whether a byte stands for itself in bytes text.
fn stands_for_itself(byte: u8) -> bool
    ensures { result ≡ format.stands_for_itself byte }
{
    (0x21..=0x7E).contains(&byte) && byte != b'%'
}

/// The number below 16 that a lower-case hexadecimal digit writes.
fn digit_by(glyph: u8) -> Option<u8>
    ensures { MatchOption result ((n : ℕ) → n < 16 → digit_glyph false n ≢ glyph) (λ n. (n < 16) × (digit_glyph false n ≡ glyph)) }
{
    match glyph {
        b'0'..=b'9' => Some(glyph - b'0'),
        b'a'..=b'f' => Some(glyph - b'a' + 10),
        _ => None,
    }
}

/// The byte that bytes text spells first, and the text behind it. None where none that isn't zero stands there.
fn first_byte(text: &[u8]) -> Option<(u8, &[u8])>
    ensures { MatchOption result ((b : ℕ) (rest : List ℕ) → SpellsFirst text.now b rest → ⊥) (λ found. SpellsFirst text.now found.0 found.1.now) }
{
    match text {
        [b'%', high, low, rest @ ..] => {
            let byte = digit_by(*high)? * 16 + digit_by(*low)?;
            if byte == 0 || stands_for_itself(byte) {
                None
            } else {
                Some((byte, rest))
            }
        }
        [byte, rest @ ..] if stands_for_itself(*byte) => Some((*byte, rest)),
        _ => None,
    }
}

/// The bytes that a text spells, with zeros behind them. None where it is no bytes text, spells a zero byte, or spells
/// more bytes than there is room for.
pub(crate) fn padded_by<const N: usize>(text: &[u8]) -> Option<[u8; N]>
    ensures { MatchOption result ((field : List ℕ) → IsPaddedText N text.now field → ⊥) (IsPaddedText N text.now) }
{
    let mut field = [0u8; N];
    let mut count = 0;
    let mut rest = text;
    while !rest.is_empty() {
        let (byte, behind) = first_byte(rest)?;
        if count == N {
            return None;
        }
        field[count] = byte;
        count += 1;
        rest = behind;
    }
    Some(field)
}
