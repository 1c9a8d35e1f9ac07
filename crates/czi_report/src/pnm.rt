//! A region as a PNM file.

ghost use Rattle.std.specs.Prelude.{◌≡◌, ◌≤◌, ◌%◌, ◌-◌, ◌^◌, ◌++◌, length, OnOk, OnErr};
ghost use Rattle.czi_doc.specs.Grows.{Grows};
ghost use Rattle.czi_doc.specs.QueryView.{query_of, type_of};
ghost use Rattle.czi_report.specs.Pnm.{pnm_head, pnm_kind, pnm_pixels, turned_pixels};
ghost use Rattle.czi_report.specs.Text.{line_feed};

use crate::text::{end_with_number, end_with_numbers};
use czi_doc::{Pixel, Query};
use std::alloc::AllocError;

/// Appends the head of a region's PNM file: the kind (`P5` for gray pixels, `P6` for colours), the width, the height, and the
/// greatest value of a sample. Where memory runs out `out` stays as it was.
pub fn pnm_head(query: &Query, out: &mut Vec<u8>) -> Result<(), AllocError>
    ensures ok { OnOk result (out.new.items ≡ out.old.items ++ pnm_head (query_of query.now)) }
    ensures err { OnErr result (out.new.items ≡ out.old.items) }
{
    let before = out.len();
    let said = push_head(query, out);
    if said.is_err() {
        out.truncate(before);
    }
    said
}

/// Appends the head.
#[tactic(auto, unfolding(crate::specs::Pnm::pnm_head))]
fn push_head(query: &Query, out: &mut Vec<u8>) -> Result<(), AllocError>
    ensures ok { OnOk result (out.new.items ≡ out.old.items ++ pnm_head (query_of query.now)) }
    ensures err { OnErr result (Grows out.old.items out.new.items) }
{
    out.extend_from_slice(kind(&query.pixel))?;
    end_with_numbers(b"", query.w as u64, query.h as u64, out)?;
    end_with_number(b"", greatest(&query.pixel), out)
}

/// The line of the kind.
fn kind(pixel: &Pixel) -> &'static [u8]
    ensures { result.now ≡ pnm_kind (type_of pixel.now) ++ line_feed }
{
    match pixel {
        Pixel::Gray8 | Pixel::Gray16 => b"P5\n",
        Pixel::Bgr24 | Pixel::Bgr48 => b"P6\n",
    }
}

/// The greatest value of a sample.
fn greatest(pixel: &Pixel) -> u64
    ensures { result ≡ 256 ^ (type_of pixel.now).sample - 1 }
{
    match pixel {
        Pixel::Gray8 | Pixel::Bgr24 => 255,
        Pixel::Gray16 | Pixel::Bgr48 => 65_535,
    }
}

/// Turns stored bytes of pixels into samples of a PNM file, in place: red, green and blue, each with its most significant byte
/// first. Stored are blue, green and red, each with its least significant byte first; so each pixel's bytes turn round.
pub fn pnm_row(pixel: &Pixel, row: &mut [u8])
    requires { length row.old % (type_of pixel.now).size ≡ 0 }
    ensures { row.new ≡ pnm_pixels (type_of pixel.now) row.old }
{
    match pixel {
        Pixel::Gray8 => {}
        Pixel::Gray16 => turn_round::<2>(row),
        Pixel::Bgr24 => turn_round::<3>(row),
        Pixel::Bgr48 => turn_round::<6>(row),
    }
}

/// Turns the bytes of each pixel of so many bytes round. A size that the compiler knows makes this several times as fast.
fn turn_round<const SIZE: usize>(row: &mut [u8])
    requires some { 1 ≤ SIZE }
    requires whole { length row.old % SIZE ≡ 0 }
    ensures { row.new ≡ turned_pixels SIZE row.old }
{
    for i in 0..row.len() / SIZE {
        let at = i * SIZE;
        row[at..at + SIZE].reverse();
    }
}
