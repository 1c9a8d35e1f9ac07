//! Plane text, read.

ghost use Rattle.std.specs.Prelude.{◌≡◌, ◌≤◌, List, length, option_map, Some, IfOk, IfSome, MatchResult};
ghost use Rattle.czi_format.specs.Key.{Axis};
ghost use Rattle.czi_doc.specs.Items.{item_of};
ghost use Rattle.czi_doc.specs.PlaneText.{IsPlaneText, plane_item_at};
ghost use Rattle.czi_doc.specs.QueryView.{plane_of};
ghost use Rattle.czi_doc.specs.Seen.{seen};

use crate::plane::Plane;
use crate::reading::{begins_with, read_name, read_number};
use std::alloc::{AllocError, Global};

/// One name and start, and the text behind it.
#[tactic(auto, unfolding(crate::specs::PlaneText::plane_item_at))]
fn read_plane_item(text: &[u8]) -> Result<(([u8; 4], i32), &[u8]), usize>
    ensures read { seen (λ x. record { it = item_of x.0; rest = x.1.now }) result ≡ plane_item_at text.now }
    ensures left { MatchResult result (λ x. length x.1.now ≤ length text.now) (λ left. left ≤ length text.now) }
{
    let (name, rest) = read_name(text)?;
    let (start, rest) = read_number(rest)?;
    Ok(((name, start), rest))
}

/// The plane that a plane text spells: one or more items joined by commas, each a name of one to four letters from A to Z and a
/// start, with distinct names, none of them `X`, `Y`, `M` or `S`. A start is a signed 32-bit number in decimal, without a leading
/// zero, and `-0` is none. None exactly where the text is no plane text.
pub fn read_plane(alloc: Global, text: &[u8]) -> Result<Option<Plane>, AllocError>
    ensures found { IfOk result (λ found. IfSome found (λ p. IsPlaneText text.now (plane_of p))) }
    ensures only { IfOk result (λ found. (axes : List Axis) → IsPlaneText text.now axes → option_map plane_of found ≡ Some axes) }
{
    let mut items = Vec::new(alloc);
    let mut rest = text;
    for _ in 0..text.len() {
        let Ok((item, behind)) = read_plane_item(rest) else {
            return Ok(None);
        };
        items.push(item)?;
        if behind.is_empty() {
            return Ok(Plane::new(items));
        }
        if !begins_with(behind, b',') {
            return Ok(None);
        }
        let (_, next) = behind.split_at(1);
        rest = next;
    }
    Ok(None)
}
