//! The rows of a region, put together.

ghost use Rattle.std.specs.Prelude.{◌≡◌, ◌%◌, length, OnOk};
ghost use Rattle.std.specs.Option.{ForSome};
ghost use Rattle.czi_rig.specs.declared.file.File.TheVariants.{Image};
ghost use Rattle.czi_rig.specs.State.{seen_of};
ghost use Rattle.czi_rig.specs.Quiet.{Untouched};
ghost use Rattle.czi_doc.specs.QueryView.{query_of, type_of};
ghost use Rattle.czi_paint.specs.Painted.{HasMoved, HasRow, LiesIn, Paints, row_len};

use czi_doc::{Pixel, Query};
use czi_image::Index;
use czi_paint::Painter;
use czi_report::pnm_row;
use czi_rig::Rig;
use std::alloc::Global;
use std::test::Fail;

/// Appends the rows of a region, which a painter paints from its first row on, as samples of its PNM file.
pub(crate) fn push_rows<R: Rig>(
    alloc: Global,
    index: &Index,
    query: &Query,
    painter: &mut Painter,
    rig: &mut R,
    out: &mut Vec<u8>,
) -> Result<(), Fail>
    requires paints { Paints (query_of query.now) index.now.tiles.items 0 painter.old }
    requires in_file { ForSome (seen_of (R.state rig.old) Image) (λ image. index.now.length ≡ length image) }
{
    let len = query.w as usize * query.pixel.bytes() as usize;
    let mut row = vec![in alloc; 0u8; len]?;
    for _ in 0..query.h {
        push_row(&query.pixel, painter, rig, &mut row, out)?;
    }
    Ok(())
}

// Appends the row that is next, which is painted into `row` first.
fn push_row<R: Rig>(
    pixel: &Pixel,
    painter: &mut Painter,
    rig: &mut R,
    row: &mut [u8],
    out: &mut Vec<u8>,
) -> Result<(), Fail>
    requires left { HasRow painter.old }
    requires width { length row.old ≡ row_len painter.old }
    requires whole { length row.old % (type_of pixel.now).size ≡ 0 }
    requires in_file { ForSome (seen_of (R.state rig.old) Image) (λ image. LiesIn (length image) painter.old) }
    ensures next { OnOk result (HasMoved painter.old painter.new) }
    ensures width { length row.new ≡ length row.old }
    ensures untouched { Untouched R.Rig rig.old rig.new }
{
    let Ok(()) = painter.row(rig, row) else {
        return Err(Fail::new("not read"));
    };
    pnm_row(pixel, row);
    out.extend_from_slice(row)?;
    Ok(())
}
