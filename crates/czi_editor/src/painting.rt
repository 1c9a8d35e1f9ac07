//! Regions, row by row.

ghost use Rattle.std.specs.Prelude.{◌≡◌, ◌⊎◌, ◌<◌, ◌+◌, ◌^◌, ◌++◌, ℕ, List, None, Some, true, false, length, map, IfOk, IfErr, IfSome, MatchResult, OnOk, Result};
ghost use Rattle.std.specs.Option.{ForSome};
ghost use Rattle.czi_rig.specs.declared.file.File.TheVariants.{Image};
ghost use Rattle.czi_rig.specs.State.{seen_of};
ghost use Rattle.czi_rig.specs.Faults.{Faults, failed_at, image};
ghost use Rattle.czi_rig.specs.Quiet.{Untouched};
ghost use Rattle.czi_doc.specs.QueryView.{query_of};
ghost use Rattle.czi_format.specs.Painting.{Query as Asked, row};
ghost use Rattle.czi_format.specs.PaintRefusals.{PaintRefusal};
ghost use Rattle.czi_image.specs.declared.types.Tile.{Tile as TileOf};
ghost use Rattle.czi_tiles.specs.Grid.{IsGrid};
ghost use Rattle.czi_paint.specs.Painted.{LiesIn};
ghost use Rattle.czi_paint.specs.Patched.{subblock_in};
ghost use Rattle.czi_paint.specs.Refusing.{Tells, refusal_of, tiles_refusal};
ghost use Rattle.czi_report.specs.Pnm.{pnm_pixels};
ghost use Rattle.czi_editor.specs.Regions.{no_region_line};
ghost use Rattle.czi_editor.specs.Painted.{IsBegun, IsPainting, next_row};

use czi_doc::{Pixel, Query};
use czi_image::Tile;
use czi_paint::{PaintError, Painter};
use czi_report::text::{end_with_number, push_number};
use czi_report::{pnm_head, pnm_row};
use czi_rig::{Failed, Rig};
use czi_session::EditorStop;
use czi_tiles::TileGrid;
use std::alloc::{AllocError, Global};

/// A region that is being painted.
#[derive(Drop)]
pub(crate) struct Painting {
    painter: Painter,
    pixel: Pixel,
    /// How many rows are to be painted yet.
    pub(crate) left: u32,
    /// Whether a row was painted: the first piece is the head.
    pub(crate) begun: bool,
    /// The row that was painted last, as it is said.
    pub(crate) row: Vec<u8>,
}

impl Painting {
    /// Begins to paint a region. All memory is taken here.
    fn new(
        alloc: Global,
        tiles: &[Tile],
        grid: &TileGrid,
        query: &Query,
    ) -> Result<Painting, PaintError>
        requires few { length tiles.now < 2 ^ 32 }
        requires built { IsGrid tiles.now grid.now }
        ensures { MatchResult result
            (λ p. (tiles_refusal (query_of query.now) tiles.now ≡ None) × IsPainting p (query_of query.now) tiles.now 0 × (p.begun ≡ false))
            (λ error. (error ≡ PaintError.Memory) ⊎ Tells (tiles_refusal (query_of query.now) tiles.now) error) }
    {
        let painter = Painter::with_grid(alloc, tiles, grid, query)?;
        let len = query.w as u64 * query.pixel.bytes();
        let row = vec![in alloc; 0u8; len as usize]?;
        Ok(Painting {
            painter,
            pixel: query.pixel,
            left: query.h,
            begun: false,
            row,
        })
    }

    /// Paints the next row. False where none is left.
    pub(crate) fn next_row<R: Rig>(&mut self, rig: &mut R) -> Result<bool, Failed>
        requires painting { (q : Asked) × (tiles : List TileOf) × (j : ℕ) × IsPainting self.old q tiles j }
        requires in_file { ForSome (seen_of (R.state rig.old) Image) (λ image. LiesIn (length image) self.old.painter) }
        ensures kept { IfOk result (λ more. (q : Asked) (tiles : List TileOf) (j : ℕ) → IsPainting self.old q tiles j → IsPainting self.new q tiles (next_row more j)) }
        ensures row { IfOk result (λ more. more ≡ true → (self.new.begun ≡ true) × (self.old.left ≡ self.new.left + 1) × ForSome (seen_of (R.state rig.old) Image) (λ image.
            (q : Asked) (tiles : List TileOf) (j : ℕ) → IsPainting self.old q tiles j → self.new.row.items ≡ pnm_pixels q.pixel (row q (map (subblock_in image) tiles) j))) }
        ensures last { result ≡ Result.Ok false → self.old.left ≡ 0 }
        ensures whole { self.old.left ≡ 0 → (result ≡ Result.Ok false) × (rig.new ≡ rig.old) }
        ensures untouched { Untouched R.Rig rig.old rig.new }
        ensures cause { Faults (failed_at result image) (R.state rig.old) (R.state rig.new) }
    {
        if self.left == 0 {
            return Ok(false);
        }
        self.painter.row(rig, &mut self.row)?;
        pnm_row(&self.pixel, &mut self.row);
        self.left -= 1;
        self.begun = true;
        Ok(true)
    }
}

/// The grid of these tiles: the one that was kept, or a new one.
pub(crate) fn grid_of(
    alloc: Global,
    tiles: &[Tile],
    kept: Option<TileGrid>,
) -> Result<TileGrid, EditorStop>
    requires few { length tiles.now < 2 ^ 32 }
    requires kept { IfSome kept (IsGrid tiles.now) }
    ensures grid { IfOk result (IsGrid tiles.now) }
    ensures stopped { IfErr result (λ stop. stop ≡ EditorStop.Memory) }
{
    if let Some(grid) = kept {
        return Ok(grid);
    }
    match TileGrid::build(alloc, tiles) {
        Ok(grid) => Ok(grid),
        Err(AllocError) => Err(EditorStop::Memory),
    }
}

/// Appends that a region is too long.
fn push_too_long(bytes: u128, limit: u64, reply: &mut Vec<u8>) -> Result<(), AllocError>
    ensures { OnOk result (reply.new.items ≡ reply.old.items ++ no_region_line (PaintRefusal.too_long bytes limit)) }
{
    push_number(b"no long ", bytes, reply)?;
    end_with_number(b" ", limit, reply)
}

/// Appends why a region isn't painted. Want of memory is no such cause.
fn push_no_region(error: &PaintError, reply: &mut Vec<u8>) -> Result<(), EditorStop>
    ensures said { OnOk result ((refusal : PaintRefusal) × (refusal_of error.now ≡ Some refusal) × (reply.new.items ≡ reply.old.items ++ no_region_line refusal)) }
    ensures stopped { IfErr result (λ stop. stop ≡ EditorStop.Memory) }
{
    let pushed = match *error {
        PaintError::TooLong { bytes, limit } => push_too_long(bytes, limit, reply),
        PaintError::Compressed(place) => end_with_number(b"no compressed ", place, reply),
        PaintError::Kind(place) => end_with_number(b"no kind ", place, reply),
        PaintError::Mixed(place) => end_with_number(b"no mixed ", place, reply),
        PaintError::ShortData(place) => end_with_number(b"no short ", place, reply),
        PaintError::Memory => return Err(EditorStop::Memory),
    };
    match pushed {
        Ok(()) => Ok(()),
        Err(AllocError) => Err(EditorStop::Memory),
    }
}

/// Begins to paint a region, and appends the head of its file; or appends why it isn't painted.
pub(crate) fn begun(
    alloc: Global,
    tiles: &[Tile],
    grid: &TileGrid,
    query: &Query,
    reply: &mut Vec<u8>,
) -> Result<Option<Painting>, EditorStop>
    requires few { length tiles.now < 2 ^ 32 }
    requires built { IsGrid tiles.now grid.now }
    ensures begun { IfOk result (IsBegun (query_of query.now) tiles.now reply.old.items reply.new.items) }
    ensures stopped { IfErr result (λ stop. stop ≡ EditorStop.Memory) }
{
    match Painting::new(alloc, tiles, grid, query) {
        Ok(painting) => match pnm_head(query, reply) {
            Ok(()) => Ok(Some(painting)),
            Err(AllocError) => Err(EditorStop::Memory),
        },
        Err(error) => match push_no_region(&error, reply) {
            Ok(()) => Ok(None),
            Err(stop) => Err(stop),
        },
    }
}
