//! Dimension text, written.

ghost use Rattle.std.specs.Prelude.{◌≡◌, ◌++◌, ◌∷◌, ◌<◌, map, false, OnOk, OnErr};
ghost use Rattle.std.specs.Fmt.{digit_glyph, signed_decimal};
ghost use Rattle.czi_format.specs.Text.{byte_text, bytes_text, up_to_zero, dim_text, dims_text};
ghost use Rattle.czi_doc.specs.View.{dim_of, dims_of};
ghost use Rattle.czi_doc.specs.Grows.{Grows};

use crate::dimensions::{Dim, Dims};
use itoa::Buffer;
use std::alloc::AllocError;

/// Appends the dimension text of these dimensions: for each of them its name up to the first zero byte
/// (a byte outside 0x21 to 0x7E, and `%`, as `%` and two hexadecimal digits), its start, `:`, its size, `:`
/// and its stored size, with a comma between each two. Where memory runs out `out` stays as it was.
pub fn write_dims(dims: &Dims, out: &mut Vec<u8>) -> Result<(), AllocError>
    ensures ok { OnOk result (out.new.items ≡ out.old.items ++ dims_text (dims_of dims.now)) }
    ensures err { OnErr result (out.new.items ≡ out.old.items) }
{
    let list = dims.list();
    let before = out.len();
    let written = push_dims(&list[0], &list[1..], out);
    if written.is_err() {
        out.truncate(before);
    }
    written
}

/// Appends the text of one or more dimensions.
fn push_dims(first: &Dim, others: &[Dim], out: &mut Vec<u8>) -> Result<(), AllocError>
    ensures ok { OnOk result (out.new.items ≡ out.old.items ++ dims_text (dim_of first.now ∷ map dim_of others.now)) }
    ensures err { OnErr result (Grows out.old.items out.new.items) }
{
    push_dim(first, out)?;
    for dim in others {
        out.push(b',')?;
        push_dim(dim, out)?;
    }
    Ok(())
}

/// Appends the text of one dimension.
#[tactic(auto, unfolding(czi_format::specs::Text::dim_text))]
fn push_dim(dim: &Dim, out: &mut Vec<u8>) -> Result<(), AllocError>
    ensures ok { OnOk result (out.new.items ≡ out.old.items ++ dim_text (dim_of dim.now)) }
    ensures err { OnErr result (Grows out.old.items out.new.items) }
{
    push_name(&dim.name, out)?;
    push_number(dim.start, out)?;
    out.push(b':')?;
    push_number(dim.size, out)?;
    out.push(b':')?;
    push_number(dim.stored_size(), out)?;
    Ok(())
}

/// Appends the text of a name: its bytes up to the first zero byte, as bytes text. A byte outside 0x21 to 0x7E, and `%`, is
/// `%` and two hexadecimal digits. Where memory runs out `out` stays as it was.
pub fn write_name(name: &[u8], out: &mut Vec<u8>) -> Result<(), AllocError>
    ensures ok { OnOk result (out.new.items ≡ out.old.items ++ bytes_text (up_to_zero name.now)) }
    ensures err { OnErr result (out.new.items ≡ out.old.items) }
{
    let start = out.len();
    let named = push_name(name, out);
    if named.is_err() {
        out.truncate(start);
    }
    named
}

/// Appends the bytes up to the first zero byte, as bytes text.
fn push_name(name: &[u8], out: &mut Vec<u8>) -> Result<(), AllocError>
    ensures ok { OnOk result (out.new.items ≡ out.old.items ++ bytes_text (up_to_zero name.now)) }
    ensures err { OnErr result (Grows out.old.items out.new.items) }
{
    for byte in name {
        if *byte == 0 {
            break;
        }
        push_byte(*byte, out)?;
    }
    Ok(())
}

/// Appends a byte of bytes text.
fn push_byte(byte: u8, out: &mut Vec<u8>) -> Result<(), AllocError>
    ensures ok { OnOk result (out.new.items ≡ out.old.items ++ byte_text byte) }
    ensures err { OnErr result (out.new.items ≡ out.old.items) }
{
    if (0x21..=0x7E).contains(&byte) && byte != b'%' {
        out.extend_from_slice(&[byte])
    } else {
        out.extend_from_slice(&[b'%', hex_digit(byte / 16), hex_digit(byte % 16)])
    }
}

/// The lower-case hexadecimal digit of a number below 16.
fn hex_digit(n: u8) -> u8
    requires { n < 16 }
    ensures { result ≡ digit_glyph false n }
{
    if n < 10 { b'0' + n } else { b'a' + (n - 10) }
}

/// Appends a number in decimal.
fn push_number(n: i32, out: &mut Vec<u8>) -> Result<(), AllocError>
    ensures ok { OnOk result (out.new.items ≡ out.old.items ++ signed_decimal n) }
    ensures err { OnErr result (out.new.items ≡ out.old.items) }
{
    let mut buffer = Buffer::new();
    out.extend_from_slice(buffer.format(n).as_bytes())
}
