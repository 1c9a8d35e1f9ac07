//! Dimension text, read.

ghost use Rattle.std.specs.Prelude.{◌≡◌, ℕ, ℤ, ◌+◌, ◌-◌, ◌^◌, ◌≤◌, ◌<◌, ◌++◌, length, replicate, MatchOption, MatchResult, IfOk, FitsSigned};
ghost use Rattle.std.specs.Int.{w32};
ghost use Rattle.std.specs.Str.Parse.{AllDigits, digits_value};
ghost use Rattle.czi_doc.specs.DimText.{IsNatural, IsNumber, IsDimText};
ghost use Rattle.czi_doc.specs.View.{dim_of, dims_of};
ghost use Rattle.czi_doc.specs.Reading.{Read, Sizes, name_len, name_at, number_len, magnitude_at, negative_at, positive_at, begins_with, number_at, stored_at, sizes_at, item_at, items_at};
ghost use Rattle.czi_doc.specs.Seen.{ReadsEach, Tells, TellsFirst, seen};

use crate::dimensions::{Dim, Dims};
use crate::fault::TextFault;
use std::alloc::Global;

/// How many letters from A to Z stand at the front, of at most four.
fn name_len(text: &[u8]) -> usize
    ensures len { result ≡ name_len text.now }
    ensures few { result ≤ 4 }
    ensures inside { result ≤ length text.now }
{
    let front = &text[..text.len().min(4)];
    for (i, byte) in front.iter().enumerate() {
        if !byte.is_ascii_uppercase() {
            return i;
        }
    }
    front.len()
}

/// How many digits of one number stand at the front. Behind a first `0` there are no more.
fn number_len(text: &[u8]) -> usize
    ensures len { result ≡ number_len text.now }
    ensures inside { result ≤ length text.now }
{
    if text.first() == Some(&b'0') {
        return 1;
    }
    for (i, byte) in text.iter().enumerate() {
        if !byte.is_ascii_digit() {
            return i;
        }
    }
    text.len()
}

/// A name of one to four letters, padded with zero bytes, and the text behind it.
#[tactic(auto, unfolding(crate::specs::Reading::name_at))]
pub(crate) fn read_name(text: &[u8]) -> Result<([u8; 4], &[u8]), usize>
    ensures read { seen (λ x. record { it = x.0; rest = x.1.now }) result ≡ name_at text.now }
    ensures left { MatchResult result (λ x. length x.1.now ≤ length text.now) (λ left. left ≤ length text.now) }
{
    let len = name_len(text);
    if len == 0 {
        return Err(text.len());
    }
    let name = padded(&text[..len]);
    Ok((name, &text[len..]))
}

/// A name, padded with zero bytes.
fn padded(name: &[u8]) -> [u8; 4]
    requires { length name.now ≤ 4 }
    ensures { result ≡ name.now ++ replicate (4 - length name.now) 0 }
{
    let mut bytes = [0u8; 4];
    bytes[..name.len()].copy_from_slice(name);
    bytes
}

/// The number that digits spell, where it is below 2^64.
fn magnitude(digits: &[u8]) -> Option<u64>
    requires { AllDigits 10 digits.now }
    ensures { MatchOption result (2 ^ 64 ≤ digits_value 10 digits.now) (λ v. v ≡ digits_value 10 digits.now) }
{
    let mut value: u64 = 0;
    for digit in digits {
        value = value
            .checked_mul(10)?
            .checked_add(u64::from(*digit - b'0'))?;
    }
    Some(value)
}

/// A number behind a `-`: one without a leading zero, and not 0.
#[tactic(auto, unfolding(crate::specs::Reading::negative_at))]
fn read_negative(text: &[u8]) -> Result<(i32, &[u8]), usize>
    ensures read { seen (λ x. record { it = x.0; rest = x.1.now }) result ≡ negative_at text.now }
    ensures left { MatchResult result (λ x. length x.1.now ≤ length text.now) (λ left. left ≤ length text.now + 1) }
{
    let len = number_len(text);
    match magnitude(&text[..len]) {
        Some(0) => Err(text.len()),
        Some(value) if value <= 1 << 31 => Ok((
            (value as u32).cast_signed().wrapping_neg(),
            &text[len..],
        )),
        _ => Err(text.len() + 1),
    }
}

/// A number without a sign.
#[tactic(auto, unfolding(crate::specs::Reading::positive_at))]
fn read_positive(text: &[u8]) -> Result<(i32, &[u8]), usize>
    ensures read { seen (λ x. record { it = x.0; rest = x.1.now }) result ≡ positive_at text.now }
    ensures left { MatchResult result (λ x. length x.1.now ≤ length text.now) (λ left. left ≤ length text.now) }
{
    let len = number_len(text);
    if len == 0 {
        return Err(text.len());
    }
    match magnitude(&text[..len]) {
        Some(value) if value < 1 << 31 => Ok((value as i32, &text[len..])),
        _ => Err(text.len()),
    }
}

/// Whether a byte stands at the front.
pub(crate) fn begins_with(text: &[u8], byte: u8) -> bool
    ensures { result ≡ begins_with byte text.now }
{
    !text.is_empty() && text[0] == byte
}

/// A number that is in the range of its field, and the text behind it.
pub(crate) fn read_number(text: &[u8]) -> Result<(i32, &[u8]), usize>
    ensures read { seen (λ x. record { it = x.0; rest = x.1.now }) result ≡ number_at text.now }
    ensures left { MatchResult result (λ x. length x.1.now ≤ length text.now) (λ left. left ≤ length text.now) }
{
    if begins_with(text, b'-') {
        read_negative(&text[1..])
    } else {
        read_positive(text)
    }
}

/// The number that a text is: `0`, or digits without a leading zero. None where it is none below 2^64.
pub fn read_natural(text: &[u8]) -> Option<u64>
    ensures { MatchOption result ((n : ℕ) → IsNatural text.now n → 2 ^ 64 ≤ n) (λ n. IsNatural text.now n) }
{
    let len = number_len(text);
    if len == 0 || len < text.len() {
        return None;
    }
    magnitude(text)
}

/// The signed 32-bit number that a text is: digits without a leading zero, behind a `-` where it is below 0. None
/// where it is none of that range.
pub fn read_integer(text: &[u8]) -> Option<i32>
    ensures { MatchOption result ((n : ℤ) → IsNumber text.now n → FitsSigned w32 n → ⊥) (λ n. IsNumber text.now n) }
{
    let Ok((value, rest)) = read_number(text) else {
        return None;
    };
    if !rest.is_empty() {
        return None;
    }
    Some(value)
}

/// A stored size behind a `:`, where there is one. A missing one is the size.
fn read_stored(size: i32, text: &[u8]) -> Result<((i32, i32), &[u8]), usize>
    ensures read { seen (λ x. record { it = record { size = x.0.0; stored = x.0.1 }; rest = x.1.now }) result ≡ stored_at size text.now }
    ensures left { MatchResult result (λ x. length x.1.now ≤ length text.now) (λ left. left ≤ length text.now) }
{
    if !begins_with(text, b':') {
        return Ok(((size, size), text));
    }
    let (stored, rest) = read_number(&text[1..])?;
    Ok(((size, stored), rest))
}

/// A size and a stored size, each behind a `:`, where they are there. A missing size is 1.
fn read_sizes(text: &[u8]) -> Result<((i32, i32), &[u8]), usize>
    ensures read { seen (λ x. record { it = record { size = x.0.0; stored = x.0.1 }; rest = x.1.now }) result ≡ sizes_at text.now }
    ensures left { MatchResult result (λ x. length x.1.now ≤ length text.now) (λ left. left ≤ length text.now) }
{
    if !begins_with(text, b':') {
        return Ok(((1, 1), text));
    }
    let (size, rest) = read_number(&text[1..])?;
    read_stored(size, rest)
}

/// One dimension, and the text behind it.
#[tactic(auto, unfolding(crate::specs::Reading::item_at))]
fn read_item(text: &[u8]) -> Result<(Dim, &[u8]), usize>
    ensures read { seen (λ x. record { it = dim_of x.0; rest = x.1.now }) result ≡ item_at text.now }
    ensures left { MatchResult result (λ x. length x.1.now ≤ length text.now) (λ left. left ≤ length text.now) }
{
    let (name, rest) = read_name(text)?;
    let (start, rest) = read_number(rest)?;
    let ((size, stored), rest) = read_sizes(rest)?;
    Ok((
        Dim {
            name,
            start,
            size,
            coord: [0; 4],
            stored,
        },
        rest,
    ))
}

/// The dimensions that a dimension text spells: one to 40 items joined by commas, each a name of one to four
/// letters from A to Z, a start, and optionally `:` and a size (1 where it is missing), and after it optionally
/// `:` and a stored size (the size where it is missing). All three are signed 32-bit numbers in decimal,
/// without a leading zero, and `-0` is none. The coordinate bytes are zero.
pub fn read_dims(alloc: Global, text: &[u8]) -> Result<Dims, TextFault>
    ensures read { Tells text.now dims_of result (items_at 40 text.now) }
    ensures found { IfOk result (λ d. IsDimText text.now (dims_of d)) }
    ensures only { ReadsEach text.now dims_of result }
    ensures bad { TellsFirst text.now result }
{
    let mut dims = Vec::new(alloc);
    let mut rest = text;
    for i in 0..40usize {
        let (dim, behind) = match read_item(rest) {
            Ok(item) => item,
            Err(left) => return Err(TextFault::Bad(text.len() - left)),
        };
        let Ok(()) = dims.push(dim) else {
            return Err(TextFault::Memory);
        };
        if behind.is_empty() {
            return match Dims::new(dims) {
                Ok(dims) => Ok(dims),
                Err(_) => Err(TextFault::Memory),
            };
        }
        if !begins_with(behind, b',') {
            return Err(TextFault::Bad(text.len() - behind.len()));
        }
        let (_, next) = behind.split_at(1);
        rest = next;
    }
    Err(TextFault::Bad(text.len() - rest.len() - 1))
}
