//! The fields of a line, behind its word.

ghost use Rattle.std.specs.Prelude.{◌≡◌, ◌≤◌, ◌^◌, ℕ, List, [], ◌∷◌, Some, None, codes, length, option_map, MatchOption, MatchResult};
ghost use Rattle.std.specs.Borrow.{Bor};
ghost use Rattle.czi_doc.specs.DimText.{IsNatural};
ghost use Rattle.czi_script.specs.Script.{Alone, len_before, needed, tile_fields, tile_word, value_at, values_at};
ghost use Rattle.czi_script.specs.View.{head_of, plain_of, verb_of};
ghost use Rattle.czi_script.specs.Pieces.{AreNumbers, NoNumbers, ReadsTile, RefusesFields, RefusesTile, SaysFields, split_of, values_in};

use crate::head::{Head, Plain};
use crate::kind::Kind;
use crate::payload::{Payload, Tile, Verb};
use czi_doc::{EntryInfo, TextFault, read_dims, read_integer, read_natural};
use std::alloc::Global;

/// The value of a number that is left out.
const ZERO: &[u8] = b"0";

/// What stands for the value of a field that is left out, where no value is meant: no value has a space.
pub(crate) const LEFT_OUT: &[u8] = b" ";

/// Why a line is no command.
#[derive(Clone, Copy, PartialEq, Eq)]
pub(crate) enum Refusal {
    /// It is none of the script's, by this kind of fault.
    Kind(Kind),
    /// Memory is wanting.
    Memory,
}

/// The values of a subblock's line.
#[derive(Clone, Copy)]
pub(crate) struct Texts<'a> {
    pixel: &'a [u8],
    comp: &'a [u8],
    pyramid: &'a [u8],
    dims: &'a [u8],
    meta: &'a [u8],
    pixels: &'a [u8],
    att: &'a [u8],
}

/// The numbers of a subblock's line.
#[derive(Clone, Copy)]
pub(crate) struct Numbers {
    pixel: i32,
    comp: i32,
    pyramid: u8,
    meta: u64,
    pixels: u64,
    att: u64,
}

/// How many bytes stand before the first that is `end`.
pub(crate) fn len_before(end: u8, bytes: &[u8]) -> usize
    ensures len { result ≡ len_before end bytes.now }
    ensures inside { result ≤ length bytes.now }
{
    bytes.iter().take_while(|byte| **byte != end).count()
}

/// The value behind a mark, and what stands behind it. None where the text doesn't begin with the mark.
pub(crate) fn value_at<'a>(mark: &[u8], text: &'a [u8]) -> Option<(&'a [u8], &'a [u8])>
    ensures { split_of result ≡ value_at mark.now text.now }
{
    let Some(behind) = text.strip_prefix(mark) else {
        return None;
    };
    Some(behind.split_at(len_before(b' ', behind)))
}

/// The value behind a mark, or another where the mark isn't there, and what stands behind it.
pub(crate) fn value_or<'a>(mark: &[u8], missing: &'a [u8], text: &'a [u8]) -> (&'a [u8], &'a [u8])
    ensures some { MatchOption (value_at mark.now text.now) ((result.0.now ≡ missing.now) × (result.1.now ≡ text.now)) (λ s. (result.0.now ≡ s.value) × (result.1.now ≡ s.rest)) }
{
    match value_at(mark, text) {
        Some(found) => found,
        None => (missing, text),
    }
}

/// The value of the one field of a line. None where the fields aren't right.
pub(crate) fn one_value<'a>(mark: &[u8], fields: &'a [u8]) -> Option<&'a [u8]>
    ensures { option_map (λ (v : Bor (List ℕ)). v.now ∷ []) result ≡ values_at (needed mark.now ∷ []) fields.now }
{
    let (value, rest) = value_at(mark, fields)?;
    if rest.is_empty() { Some(value) } else { None }
}

/// The values of the fields of a subblock's line. None where the fields aren't right.
fn texts_in(fields: &[u8]) -> Option<Texts<'_>>
    ensures { option_map values_in result ≡ values_at tile_fields fields.now }
{
    let (pixel, rest) = value_at(b" pixel=", fields)?;
    let (comp, rest) = value_or(b" comp=", ZERO, rest);
    let (pyramid, rest) = value_or(b" pyramid=", ZERO, rest);
    let (dims, rest) = value_at(b" dims=", rest)?;
    let (meta, rest) = value_at(b" meta=", rest)?;
    let (pixels, rest) = value_at(b" data=", rest)?;
    let (att, rest) = value_at(b" att=", rest)?;
    if !rest.is_empty() {
        return None;
    }
    Some(Texts {
        pixel,
        comp,
        pyramid,
        dims,
        meta,
        pixels,
        att,
    })
}

/// The number from 0 to 255 that a text is.
fn read_byte(text: &[u8]) -> Option<u8>
    ensures { MatchOption result ((n : ℕ) → IsNatural text.now n → 2 ^ 8 ≤ n) (λ n. IsNatural text.now n) }
{
    match read_natural(text) {
        Some(value) if value < 256 => Some(value as u8),
        _ => None,
    }
}

/// The numbers of a subblock's line.
fn numbers_in(texts: &Texts<'_>) -> Option<Numbers>
    ensures { MatchOption result (NoNumbers texts.now) (λ n. AreNumbers texts.now n.pixel n.comp n.pyramid n.meta n.pixels n.att) }
{
    let pixel = read_integer(texts.pixel)?;
    let comp = read_integer(texts.comp)?;
    let pyramid = read_byte(texts.pyramid)?;
    let meta = read_natural(texts.meta)?;
    let pixels = read_natural(texts.pixels)?;
    let att = read_natural(texts.att)?;
    Some(Numbers {
        pixel,
        comp,
        pyramid,
        meta,
        pixels,
        att,
    })
}

/// What the values of a subblock's line say.
fn tile_by(alloc: Global, verb: Verb, texts: &Texts<'_>) -> Result<Tile, Refusal>
    ensures { MatchResult result (ReadsTile verb texts.now) (RefusesTile texts.now) }
{
    let Some(numbers) = numbers_in(texts) else {
        return Err(Refusal::Kind(Kind::Value));
    };
    match read_dims(alloc, texts.dims) {
        Ok(dims) => Ok(Tile {
            verb,
            info: EntryInfo {
                pixel: numbers.pixel,
                compression: numbers.comp,
                pyramid: numbers.pyramid,
                spare: [0; 5],
                dims,
            },
            meta: numbers.meta,
            pixels: numbers.pixels,
            tail: numbers.att,
        }),
        Err(TextFault::Bad(_)) => Err(Refusal::Kind(Kind::Value)),
        Err(TextFault::Memory) => Err(Refusal::Memory),
    }
}

/// What the line of a subblock says, by its fields.
pub(crate) fn tile_in(alloc: Global, verb: Verb, fields: &[u8]) -> Result<Head, Refusal>
    ensures { MatchResult result (λ h. SaysFields (tile_word (verb_of verb)) tile_fields fields.now (head_of h)) (RefusesFields (tile_word (verb_of verb)) tile_fields fields.now) }
{
    let Some(texts) = texts_in(fields) else {
        return Err(Refusal::Kind(Kind::Field));
    };
    match tile_by(alloc, verb, &texts) {
        Ok(tile) => Ok(Head::Brings(Payload::Tile(tile))),
        Err(refusal) => Err(refusal),
    }
}

/// What the line of `remove` says, by its fields.
pub(crate) fn remove_in(alloc: Global, fields: &[u8]) -> Result<Head, Refusal>
    ensures { MatchResult result (λ h. SaysFields (codes "remove") (needed (codes " dims=") ∷ []) fields.now (head_of h)) (RefusesFields (codes "remove") (needed (codes " dims=") ∷ []) fields.now) }
{
    let Some(text) = one_value(b" dims=", fields) else {
        return Err(Refusal::Kind(Kind::Field));
    };
    match read_dims(alloc, text) {
        Ok(dims) => Ok(Head::Alone(Plain::Remove(dims))),
        Err(TextFault::Bad(_)) => Err(Refusal::Kind(Kind::Value)),
        Err(TextFault::Memory) => Err(Refusal::Memory),
    }
}

/// What the line of a command without fields says.
pub(crate) fn bare_in(command: Plain, fields: &[u8]) -> Result<Head, Refusal>
    ensures { MatchResult result (λ h. (head_of h ≡ Alone (plain_of command)) × (values_at [] fields.now ≡ Some [])) (λ r. (r ≡ Refusal.Kind Kind.Field) × (values_at [] fields.now ≡ None)) }
{
    if fields.is_empty() {
        Ok(Head::Alone(command))
    } else {
        Err(Refusal::Kind(Kind::Field))
    }
}
