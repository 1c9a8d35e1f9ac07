ghost use Rattle.std.specs.Prelude.{◌≡◌, ◌≤◌, ◌+◌, length};
ghost use Rattle.czi_format.specs.Bytes.{IsBytes, SameBeside, bytes_at, i32_at, i32_bytes, i64_at, i64_bytes, put_at, u16_at, u16_bytes, u32_at, u32_bytes, u64_at, u64_bytes};

use byteorder::{ByteOrder, LittleEndian};

/// The `N` bytes at the place `at`.
#[tactic(auto, unfolding(czi_format::specs::Bytes::bytes_at))]
pub fn read_bytes<const N: usize>(bytes: &[u8], at: usize) -> [u8; N]
    requires { at + N ≤ length bytes.now }
    ensures { result ≡ bytes_at bytes.now at N }
{
    let mut field = [0u8; N];
    field.copy_from_slice(&bytes[at..at + N]);
    field
}

/// The unsigned number in the two bytes at the place `at`.
pub fn read_u16(bytes: &[u8], at: usize) -> u16
    requires { at + 2 ≤ length bytes.now }
    ensures { result ≡ u16_at bytes.now at }
{
    LittleEndian::read_u16(&bytes[at..])
}

/// The unsigned number in the four bytes at the place `at`.
pub fn read_u32(bytes: &[u8], at: usize) -> u32
    requires { at + 4 ≤ length bytes.now }
    ensures { result ≡ u32_at bytes.now at }
{
    LittleEndian::read_u32(&bytes[at..])
}

/// The signed number in the four bytes at the place `at`.
#[tactic(auto, unfolding(czi_format::specs::Bytes::u32_at, czi_format::specs::Bytes::i32_at))]
pub fn read_i32(bytes: &[u8], at: usize) -> i32
    requires { at + 4 ≤ length bytes.now }
    ensures { result ≡ i32_at bytes.now at }
{
    read_u32(bytes, at).cast_signed()
}

/// The unsigned number in the eight bytes at the place `at`.
pub fn read_u64(bytes: &[u8], at: usize) -> u64
    requires { at + 8 ≤ length bytes.now }
    ensures { result ≡ u64_at bytes.now at }
{
    LittleEndian::read_u64(&bytes[at..])
}

/// The signed number in the eight bytes at the place `at`.
#[tactic(auto, unfolding(czi_format::specs::Bytes::u64_at, czi_format::specs::Bytes::i64_at))]
pub fn read_i64(bytes: &[u8], at: usize) -> i64
    requires { at + 8 ≤ length bytes.now }
    ensures { result ≡ i64_at bytes.now at }
{
    read_u64(bytes, at).cast_signed()
}

/// Writes the bytes of `new` over those at the place `at`. Every other byte stays.
pub fn write_bytes(bytes: &mut [u8], at: usize, new: &[u8])
    requires { at + length new.now ≤ length bytes.old }
    ensures written { bytes.new ≡ put_at bytes.old at new.now }
    ensures reads_back { bytes_at bytes.new at (length new.now) ≡ new.now }
    ensures others { SameBeside at (length new.now) bytes.old bytes.new }
    ensures below_256 { IsBytes new.now }
{
    bytes[at..at + new.len()].copy_from_slice(new);
}

/// Writes an unsigned number into the two bytes at the place `at`. Every other byte stays.
pub fn write_u16(bytes: &mut [u8], at: usize, value: u16)
    requires { at + 2 ≤ length bytes.old }
    ensures written { bytes.new ≡ put_at bytes.old at (u16_bytes value) }
    ensures reads_back { u16_at bytes.new at ≡ value }
    ensures others { SameBeside at 2 bytes.old bytes.new }
{
    LittleEndian::write_u16(&mut bytes[at..], value);
}

/// Writes an unsigned number into the four bytes at the place `at`. Every other byte stays.
pub fn write_u32(bytes: &mut [u8], at: usize, value: u32)
    requires { at + 4 ≤ length bytes.old }
    ensures written { bytes.new ≡ put_at bytes.old at (u32_bytes value) }
    ensures reads_back { u32_at bytes.new at ≡ value }
    ensures others { SameBeside at 4 bytes.old bytes.new }
{
    LittleEndian::write_u32(&mut bytes[at..], value);
}

/// Writes a signed number into the four bytes at the place `at`. Every other byte stays.
pub fn write_i32(bytes: &mut [u8], at: usize, value: i32)
    requires { at + 4 ≤ length bytes.old }
    ensures written { bytes.new ≡ put_at bytes.old at (i32_bytes value) }
    ensures reads_back { i32_at bytes.new at ≡ value }
    ensures others { SameBeside at 4 bytes.old bytes.new }
{
    write_u32(bytes, at, value.cast_unsigned());
}

/// Writes an unsigned number into the eight bytes at the place `at`. Every other byte stays.
pub fn write_u64(bytes: &mut [u8], at: usize, value: u64)
    requires { at + 8 ≤ length bytes.old }
    ensures written { bytes.new ≡ put_at bytes.old at (u64_bytes value) }
    ensures reads_back { u64_at bytes.new at ≡ value }
    ensures others { SameBeside at 8 bytes.old bytes.new }
{
    LittleEndian::write_u64(&mut bytes[at..], value);
}

/// Writes a signed number into the eight bytes at the place `at`. Every other byte stays.
pub fn write_i64(bytes: &mut [u8], at: usize, value: i64)
    requires { at + 8 ≤ length bytes.old }
    ensures written { bytes.new ≡ put_at bytes.old at (i64_bytes value) }
    ensures reads_back { i64_at bytes.new at ≡ value }
    ensures others { SameBeside at 8 bytes.old bytes.new }
{
    write_u64(bytes, at, value.cast_unsigned());
}
