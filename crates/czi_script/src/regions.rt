//! What the line of a region says, and what its fields say as words.

ghost use Rattle.std.specs.Prelude.{◌≡◌, ◌<◌, ◌^◌, ◌==◌, ℕ, ℤ, List, Option, codes, map, not, option_map, IfOk, MatchOption, MatchResult};
ghost use Rattle.std.specs.List.{list_all};
ghost use Rattle.czi_format.specs.Key.{Axis};
ghost use Rattle.czi_format.specs.Painting.{PixelType};
ghost use Rattle.czi_doc.specs.QueryView.{plane_of, query_of, type_of};
ghost use Rattle.czi_script.specs.Script.{IsCount, IsPixel, IsPlane, IsScene, RegionValues, region_fields, values_at};
ghost use Rattle.czi_script.specs.View.{head_of};
ghost use Rattle.czi_script.specs.Words.{SaysRegion, fields_text, is_unspaced};
ghost use Rattle.czi_script.specs.Pieces.{AreRegionNumbers, Given, NoRegionNumbers, RefusesFields, RefusesRegion, SaysFields, SaysNoRegion, region_values_in};

use crate::fields::{LEFT_OUT, Refusal, value_at, value_or};
use crate::head::{Head, Plain};
use crate::kind::Kind;
use czi_doc::{Pixel, Plane, Query, read_integer, read_natural, read_plane};
use std::alloc::{AllocError, Global};

/// The highest layer.
const LAYERS: u64 = 65_536;

/// How many pixels a region has at most in a row or in a column.
const PIXELS: u64 = u32::MAX as u64;

/// The values of a region's line.
#[derive(Clone, Copy)]
pub(crate) struct RegionTexts<'a> {
    pixel: &'a [u8],
    layer: &'a [u8],
    x: &'a [u8],
    y: &'a [u8],
    w: &'a [u8],
    h: &'a [u8],
    scene: &'a [u8],
    plane: &'a [u8],
}

/// The numbers of a region's line.
#[derive(Clone, Copy)]
pub(crate) struct RegionNumbers {
    pixel: Pixel,
    layer: u32,
    x: i32,
    y: i32,
    w: u32,
    h: u32,
    scene: Option<i32>,
}

/// The values of the fields of a region's line. None where the fields aren't right.
fn region_texts(fields: &[u8]) -> Option<RegionTexts<'_>>
    ensures { option_map region_values_in result ≡ values_at region_fields fields.now }
{
    let (pixel, rest) = value_at(b" pixel=", fields)?;
    let (layer, rest) = value_at(b" layer=", rest)?;
    let (x, rest) = value_at(b" x=", rest)?;
    let (y, rest) = value_at(b" y=", rest)?;
    let (w, rest) = value_at(b" w=", rest)?;
    let (h, rest) = value_at(b" h=", rest)?;
    let (scene, rest) = value_or(b" scene=", LEFT_OUT, rest);
    let (plane, rest) = value_or(b" plane=", LEFT_OUT, rest);
    if !rest.is_empty() {
        return None;
    }
    Some(RegionTexts {
        pixel,
        layer,
        x,
        y,
        w,
        h,
        scene,
        plane,
    })
}

/// The number from 1 to `most` that a text is.
fn read_count(text: &[u8], most: u64) -> Option<u32>
    requires small { most < 2 ^ 32 }
    ensures { MatchOption result ((n : ℕ) → IsCount most text.now n → ⊥) (λ n. IsCount most text.now n) }
{
    match read_natural(text) {
        Some(value) if value >= 1 && value <= most => Some(value as u32),
        _ => None,
    }
}

/// The pixel type of which a text is the code.
fn pixel_by(text: &[u8]) -> Option<Pixel>
    ensures { MatchOption result ((t : PixelType) → IsPixel text.now t → ⊥) (λ pixel. IsPixel text.now (type_of pixel)) }
{
    let code = read_integer(text)?;
    Pixel::of_code(code)
}

/// The scene that a text is, or none where the field is left out.
fn scene_by(text: &[u8]) -> Option<Option<i32>>
    ensures { MatchOption result ((s : Option ℤ) → IsScene text.now s → ⊥) (λ scene. IsScene text.now scene) }
{
    if text == LEFT_OUT {
        return Some(None);
    }
    let scene = read_integer(text)?;
    Some(Some(scene))
}

/// The plane that a text is, or an empty one where the field is left out.
fn plane_by(alloc: Global, text: &[u8]) -> Result<Option<Plane>, AllocError>
    ensures { IfOk result (λ found. MatchOption found ((axes : List Axis) → IsPlane text.now axes → ⊥) (λ plane. IsPlane text.now (plane_of plane))) }
{
    if text == LEFT_OUT {
        return Ok(Plane::new(Vec::new(alloc)));
    }
    read_plane(alloc, text)
}

/// The numbers of a region's line.
fn region_numbers(texts: &RegionTexts<'_>) -> Option<RegionNumbers>
    ensures { MatchOption result (NoRegionNumbers texts.now) (λ n. AreRegionNumbers texts.now (type_of n.pixel) n.layer n.x n.y n.w n.h n.scene) }
{
    let pixel = pixel_by(texts.pixel)?;
    let layer = read_count(texts.layer, LAYERS)?;
    let x = read_integer(texts.x)?;
    let y = read_integer(texts.y)?;
    let w = read_count(texts.w, PIXELS)?;
    let h = read_count(texts.h, PIXELS)?;
    let scene = scene_by(texts.scene)?;
    Some(RegionNumbers {
        pixel,
        layer,
        x,
        y,
        w,
        h,
        scene,
    })
}

/// What the values of a region's line say.
fn query_by(alloc: Global, texts: &RegionTexts<'_>) -> Result<Query, Refusal>
    ensures { MatchResult result (λ query. RegionValues (query_of query) (region_values_in texts.now)) (RefusesRegion texts.now) }
{
    let Some(numbers) = region_numbers(texts) else {
        return Err(Refusal::Kind(Kind::Value));
    };
    match plane_by(alloc, texts.plane) {
        Ok(Some(plane)) => Ok(Query {
            pixel: numbers.pixel,
            layer: numbers.layer,
            x: numbers.x,
            y: numbers.y,
            w: numbers.w,
            h: numbers.h,
            scene: numbers.scene,
            plane,
        }),
        Ok(None) => Err(Refusal::Kind(Kind::Value)),
        Err(AllocError) => Err(Refusal::Memory),
    }
}

/// What the line of `region` says, by its fields.
pub(crate) fn region_in(alloc: Global, fields: &[u8]) -> Result<Head, Refusal>
    ensures { MatchResult result (λ h. SaysFields (codes "region") region_fields fields.now (head_of h)) (RefusesFields (codes "region") region_fields fields.now) }
{
    let Some(texts) = region_texts(fields) else {
        return Err(Refusal::Kind(Kind::Field));
    };
    match query_by(alloc, &texts) {
        Ok(query) => Ok(Head::Alone(Plain::Region(query))),
        Err(refusal) => Err(refusal),
    }
}

/// Whether a field has no space.
fn is_unspaced(field: &str) -> bool
    ensures { result ≡ is_unspaced field.now }
{
    field.as_bytes().iter().all(|byte| *byte != b' ')
}

/// Whether no field has a space.
fn are_unspaced(fields: &[&str]) -> bool
    ensures { result ≡ list_all (λ s. is_unspaced s.now) fields.now }
{
    fields.iter().all(|field| is_unspaced(field))
}

/// The fields as they stand in a line, each behind one space.
fn fields_text(alloc: Global, fields: &[&str]) -> Result<Vec<u8>, AllocError>
    ensures { IfOk result (λ text. text.items ≡ fields_text (map (λ s. s.now) fields.now)) }
{
    let mut text = Vec::new(alloc);
    for field in fields {
        text.push(b' ')?;
        text.extend_from_slice(field.as_bytes())?;
    }
    Ok(text)
}

/// The region that a text of fields says. None exactly where it says none.
fn region_by(alloc: Global, fields: &[u8]) -> Result<Option<Query>, AllocError>
    ensures { IfOk result (λ found. MatchOption found (SaysNoRegion fields.now) (λ query. Given region_fields fields.now (RegionValues (query_of query)))) }
{
    let Some(texts) = region_texts(fields) else {
        return Ok(None);
    };
    match query_by(alloc, &texts) {
        Ok(query) => Ok(Some(query)),
        Err(Refusal::Kind(_)) => Ok(None),
        Err(Refusal::Memory) => Err(AllocError),
    }
}

/// The region that fields say, each of which is one word: what they say behind the word of a script's line, where no field has a
/// space. None exactly where they say none.
///
/// # Errors
///
/// Where memory is wanting.
pub fn read_region(alloc: Global, fields: &[&str]) -> Result<Option<Query>, AllocError>
    ensures { IfOk result (λ found. SaysRegion (map (λ s. s.now) fields.now) (option_map query_of found)) }
{
    if !are_unspaced(fields) {
        return Ok(None);
    }
    let text = fields_text(alloc, fields)?;
    region_by(alloc, &text)
}
